//! The one way in which a text changes: a range is replaced by a part.
ghost use Rattle.std.specs.Prelude.{◌≡◌, ◌+◌, ◌-◌, ◌≤◌, ◌++◌, encode_utf8, length, take};
ghost use Rattle.std.specs.String.{string_bytes, string_len, string_capacity};
ghost use Rattle.std.specs.List.{insert_slice, replace_range};
ghost use Rattle.std.specs.Str.{IsCharBoundary};
ghost use Rattle.rl_line.specs.LineRanges.{IsRange};

use crate::tails::swap_bytes;
use std::alloc::Global;
use std::mem;

/// Replaces a range by a part, in a text that has room for the result. Inlined: at the end it is a cut and an append.
#[inline(always)]
pub(crate) fn swap_text(text: &mut String, from: usize, to: usize, part: &str)
    requires range { IsRange (string_bytes text.old) from to }
    requires room { (string_len text.old - (to - from)) + length part.now ≤ string_capacity text.old }
    ensures text { string_bytes text.new ≡ replace_range (string_bytes text.old) from to part.now }
    ensures boundary { IsCharBoundary (string_bytes text.new) (from + length part.now) }
    ensures capacity { string_capacity text.old ≤ string_capacity text.new }
    ensures len { string_len text.new ≡ (string_len text.old - (to - from)) + length part.now }
{
    if to == text.len() {
        cut_off(text, from);
        append(text, part);
        return;
    }
    swap_within(text, from, to, part);
}

// Cuts a text off at a place, which may be its end.
#[inline(always)]
fn cut_off(text: &mut String, at: usize)
    requires place { IsCharBoundary (string_bytes text.old) at }
    ensures text { string_bytes text.new ≡ take at (string_bytes text.old) }
    ensures capacity { string_capacity text.old ≤ string_capacity text.new }
    ensures len { string_len text.new ≡ at }
{
    if at == text.len() {
        return;
    }
    text.truncate(at);
}

// Puts a part after a text.
#[inline(always)]
fn append(text: &mut String, part: &str)
    requires room { string_len text.old + length part.now ≤ string_capacity text.old }
    ensures text { string_bytes text.new ≡ string_bytes text.old ++ part.now }
    ensures capacity { string_capacity text.old ≤ string_capacity text.new }
    ensures len { string_len text.new ≡ string_len text.old + length part.now }
{
    if part.is_empty() {
        return;
    }
    match text.push_str(part) {
        Ok(()) => {}
        Err(_) => unreachable!(),
    }
}

// As `swap_text`, if something stands after the range: that moves once, as bytes.
#[inline(never)]
fn swap_within(text: &mut String, from: usize, to: usize, part: &str)
    requires range { IsRange (string_bytes text.old) from to }
    requires room { (string_len text.old - (to - from)) + length part.now ≤ string_capacity text.old }
    ensures text { string_bytes text.new ≡ replace_range (string_bytes text.old) from to part.now }
    ensures capacity { string_capacity text.old ≤ string_capacity text.new }
    ensures len { string_len text.new ≡ (string_len text.old - (to - from)) + length part.now }
{
    let alloc: Global = *text.allocator();
    let mut bytes = mem::replace(text, String::new(alloc)).into_bytes();
    swap_bytes(&mut bytes, from, to, part.as_bytes());
    // SAFETY: the bytes are UTF-8, which is proved: a text gives way to a text between two of its characters.
    *text = unsafe { String::from_utf8_unchecked(bytes) };
}

/// Puts a character in at a place, with no call if that is the end and it is ASCII.
#[inline(always)]
pub(crate) fn put_char_in(text: &mut String, at: usize, c: char)
    requires place { IsCharBoundary (string_bytes text.old) at }
    requires room { string_len text.old + length (encode_utf8 c) ≤ string_capacity text.old }
    ensures text { string_bytes text.new ≡ insert_slice (string_bytes text.old) at (encode_utf8 c) }
    ensures capacity { string_capacity text.old ≤ string_capacity text.new }
    ensures len { string_len text.new ≡ string_len text.old + length (encode_utf8 c) }
{
    if at == text.len() {
        match text.push(c) {
            Ok(()) => return,
            Err(_) => unreachable!(),
        }
    }
    put_char_before(text, at, c);
}

// Puts a character in before what stands at a place. `insert` moves that by `memmove` only for a character of a single
// byte. Cold, since most is typed at the end.
#[cold]
#[inline(never)]
fn put_char_before(text: &mut String, at: usize, c: char)
    requires place { IsCharBoundary (string_bytes text.old) at }
    requires room { string_len text.old + length (encode_utf8 c) ≤ string_capacity text.old }
    ensures text { string_bytes text.new ≡ insert_slice (string_bytes text.old) at (encode_utf8 c) }
    ensures capacity { string_capacity text.old ≤ string_capacity text.new }
    ensures len { string_len text.new ≡ string_len text.old + length (encode_utf8 c) }
{
    if !c.is_ascii() {
        let mut bytes = [0; 4];
        swap_text(text, at, at, c.encode_utf8(&mut bytes));
        return;
    }
    match text.insert(at, c) {
        Ok(()) => {}
        Err(_) => unreachable!(),
    }
}
