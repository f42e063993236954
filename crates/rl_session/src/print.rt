//! What is printed for a reply.
ghost use Rattle.std.specs.Prelude.{◌≡◌, ◌+◌, ◌≤◌, ◌<◌, OnOk, ◌++◌, true, map, take, drop, length, slice_index};
ghost use Rattle.std.specs.Fmt.{decimal};
ghost use Rattle.std.specs.Simd.Lanes.{mask_l};
ghost use Rattle.rl_session.specs.Print.{reply_word, number_of_fault, handed, escaped, escape, printed};
ghost use Rattle.rl_session.specs.Writes.{is_special, ArePlain};

use crate::session::{Fault, Reply, Session};
use itoa::Buffer;
use std::alloc::AllocError;
use std::simd::prelude::*;

// How many bytes of a text are tested at once.
const LANES: usize = 16;

// Adds the number's decimal digits.
fn add_number(out: &mut Vec<u8>, n: usize) -> Result<(), AllocError>
    ensures { OnOk result (out.new.items ≡ out.old.items ++ decimal n) }
{
    let mut digits = Buffer::new();
    out.extend_from_slice(digits.format(n).as_bytes())
}

// The word for a reply.
fn reply_word(reply: &Reply) -> &'static str
    ensures { result.now ≡ reply_word reply.now }
{
    match reply {
        Reply::Done => "ok",
        Reply::Answer(true) => "true",
        Reply::Answer(false) => "false",
        Reply::Inserted(Some(true)) => "true",
        Reply::Inserted(Some(false)) => "false",
        Reply::Inserted(None) => "none",
        Reply::Text(Some(_)) => "text:",
        Reply::Text(None) => "none",
        Reply::Mark(_) => "mark:",
        Reply::At(_, _) => "at:",
        Reply::Refused(_) => "refused:",
    }
}

// Whether the byte is printed as two; a space is too, if texts stand between words.
fn is_special(b: u8, spaces: bool) -> bool
    ensures { result ≡ is_special spaces b }
{
    b == b'\\' || b == b'\n' || b == b'\r' || b == b'\t' || (spaces && b == b' ')
}

// The two bytes that a special byte is printed as.
fn escape(b: u8) -> &'static [u8]
    requires { is_special true b ≡ true }
    ensures { result.now ≡ escape true b }
{
    match b {
        b'\\' => b"\\\\",
        b'\n' => b"\\n",
        b'\r' => b"\\r",
        b'\t' => b"\\t",
        _ => b"\\s",
    }
}

// Which of the bytes are printed as two: a bit for each, the lowest for the first.
#[inline(always)]
fn specials(bytes: u8x16, spaces: bool) -> u64
    ensures { result ≡ mask_l (map (is_special spaces) bytes) }
{
    let special = bytes.simd_eq(u8x16::splat(b'\\'))
        | bytes.simd_eq(u8x16::splat(b'\n'))
        | bytes.simd_eq(u8x16::splat(b'\r'))
        | bytes.simd_eq(u8x16::splat(b'\t'));
    if spaces {
        return (special | bytes.simd_eq(u8x16::splat(b' '))).to_bitmask();
    }
    special.to_bitmask()
}

// How many of the next LANES bytes come before the first that is printed as two.
#[inline(always)]
fn plain_lanes(text: &[u8], at: usize, spaces: bool) -> usize
    requires { at + LANES ≤ length text.now }
    ensures within { result ≤ LANES }
    ensures plain { ArePlain spaces text.now at (at + result) }
    ensures stops { result < LANES → is_special spaces (slice_index text.now (at + result)) ≡ true }
{
    let found = specials(u8x16::from_slice(&text[at..]), spaces);
    if found == 0 {
        return LANES;
    }
    found.trailing_zeros() as usize
}

// How many bytes of a short text come before the first that is printed as two.
fn plain_len_of_few(text: &[u8], spaces: bool) -> usize
    ensures within { result ≤ length text.now }
    ensures plain { ArePlain spaces text.now 0 result }
    ensures stops { result < length text.now → is_special spaces (slice_index text.now result) ≡ true }
{
    text.iter()
        .position(|b| is_special(*b, spaces))
        .unwrap_or(text.len())
}

// How many bytes from the front on are printed as they are. The last LANES bytes may overlap those before.
#[tactic(auto, using(crate::proofs::Scripts::LaneLemmas::fronts))]
fn plain_len(text: &[u8], spaces: bool) -> usize
    ensures within { result ≤ length text.now }
    ensures plain { escaped spaces text.now ≡ take result text.now ++ escaped spaces (drop result text.now) }
    ensures stops { result < length text.now → is_special spaces (slice_index text.now result) ≡ true }
{
    if text.len() < LANES {
        return plain_len_of_few(text, spaces);
    }
    let last = text.len() - LANES;
    let mut i = 0;
    while i < last {
        let count = plain_lanes(text, i, spaces);
        if count < LANES {
            return i + count;
        }
        i += LANES;
    }
    last + plain_lanes(text, last, spaces)
}

// Adds the text, escaped.
fn add_escaped(out: &mut Vec<u8>, text: &[u8], spaces: bool) -> Result<(), AllocError>
    ensures { OnOk result (out.new.items ≡ out.old.items ++ escaped spaces text.now) }
{
    let mut rest = text;
    while !rest.is_empty() {
        let count = plain_len(rest, spaces);
        out.extend_from_slice(&rest[..count])?;
        if count == rest.len() {
            return Ok(());
        }
        out.extend_from_slice(escape(rest[count]))?;
        rest = &rest[count + 1..];
    }
    Ok(())
}

// The number that a refusal is printed with.
fn number_of_fault(fault: Fault) -> usize
    ensures { result ≡ number_of_fault fault }
{
    fault as usize
}

// Adds the reply: its word, and the text or number that it hands out.
fn add_reply(out: &mut Vec<u8>, reply: &Reply) -> Result<(), AllocError>
    ensures { OnOk result (out.new.items ≡ out.old.items ++ (reply_word reply.now ++ handed reply.now)) }
{
    out.extend_from_slice(reply_word(reply).as_bytes())?;
    match reply {
        Reply::Text(Some(text)) => add_escaped(out, text.as_bytes(), true),
        Reply::Mark(n) => add_number(out, *n),
        Reply::At(k, column) => {
            add_number(out, *k)?;
            out.extend_from_slice(b":")?;
            add_number(out, usize::from(*column))
        }
        Reply::Refused(fault) => add_number(out, number_of_fault(*fault)),
        _ => Ok(()),
    }
}

/// Adds the line that is printed for a reply: the reply, the cursor and the text of the session.
pub(crate) fn add_printed(
    out: &mut Vec<u8>,
    reply: &Reply,
    session: &Session,
) -> Result<(), AllocError>
    ensures { OnOk result (out.new.items ≡ out.old.items ++ printed reply.now session.now) }
{
    let line = session.line();
    add_reply(out, reply)?;
    out.extend_from_slice(b" ")?;
    add_number(out, line.pos())?;
    out.extend_from_slice(b" ")?;
    add_escaped(out, line.as_str().as_bytes(), false)?;
    out.extend_from_slice(b"\n")
}
