//! A text that grows at both ends.
ghost use Rattle.std.specs.Prelude.{◌≡◌, ◌+◌, ◌<◌, ◌≤◌, ◌++◌, drop, length, IfErr, IfOk, OnOk};
ghost use Rattle.std.specs.String.{string_bytes};
ghost use Rattle.rl_base.specs.declared.listeners.Refusal.TheVariants.{NoMemory};
ghost use Rattle.rl_base.specs.Gathered.{BeginsBlank};

use crate::listeners::Refusal;
use std::alloc::Global;
use std::marker::Model;

/// A text that grows at both ends. Adding a row of parts takes time proportional to the text that they make, not to
/// that text for each part.
///
/// A slot of a `KillRing` and a deletion in a record of `rl_line` are such texts inside; no call takes or answers one.
/// A caller's own listener may gather deleted text too: `of` for the first text, then `push_back` for what stood ahead
/// of the cursor and `push_front` for what stood before it. `as_str` reads it; after `pack`, `as_string` lends it.
#[derive(Drop)]
pub struct Gathered {
    buf: String,
    // How many blanks stand before the text. A part put in front replaces the last of them, so that the text
    // need not move.
    blanks: usize,
}

impl Model for Gathered {
    ghost use Rattle.std.specs.Prelude.{drop};
    ghost use Rattle.std.specs.String.{string_bytes};
    ghost use Rattle.rl_base.specs.Gathered.{BeginsBlank, Gathering};

    ghost Value = { Gathering };

    ghost view = { λ g. record { blanks = g.blanks; text = drop g.blanks (string_bytes g.buf) } };

    ghost invariant = { λ g. BeginsBlank g.blanks (string_bytes g.buf) };
}

impl Gathered {
    /// A text that holds a copy of `text`. Refused only if memory is out; an empty one is never refused.
    pub fn of(alloc: Global, text: &str) -> Result<Gathered, Refusal>
        ensures ok { IfOk result (λ g. g.text ≡ text.now) }
        ensures err { IfErr result (λ r. (r ≡ NoMemory) × (0 < length text.now)) }
    {
        if text.is_empty() {
            return Ok(Gathered {
                buf: String::new(alloc),
                blanks: 0,
            });
        }
        let buf = String::from_str(alloc, text)?;
        Ok(Gathered { buf, blanks: 0 })
    }

    /// The text's length in bytes.
    pub fn len(&self) -> usize
        ensures { result ≡ length self.now.text }
    {
        self.buf.len() - self.blanks
    }

    /// The text.
    pub fn as_str(&self) -> &str
        ensures { result.now ≡ self.now.text }
    {
        &self.buf.as_str()[self.blanks..]
    }

    /// Puts a part at the end. Refused only if memory is out, and then it changes nothing; an empty part never is.
    pub fn push_back(&mut self, part: &str) -> Result<(), Refusal>
        ensures ok { OnOk result (self.new.text ≡ self.old.text ++ part.now) }
        ensures err { IfErr result (λ r. (r ≡ NoMemory) × (self.new ≡ self.old) × (0 < length part.now)) }
    {
        self.buf.push_str(part)?;
        Ok(())
    }

    /// Puts a part in front. Refused only if memory is out, and then it changes nothing. A part that fits into
    /// the blanks before the text is never refused.
    pub fn push_front(&mut self, part: &str) -> Result<(), Refusal>
        ensures ok { OnOk result (self.new.text ≡ part.now ++ self.old.text) }
        ensures err { IfErr result (λ r. (r ≡ NoMemory) × (self.new ≡ self.old) × (self.old.blanks < length part.now)) }
    {
        let blanks = find_blanks(&mut self.buf, self.blanks, part.len())?;
        self.blanks = put_over_blanks(&mut self.buf, blanks, part);
        Ok(())
    }

    /// Packs the text, so that it can be lent: removes the blanks before it. It takes no memory.
    pub fn pack(&mut self)
        ensures text { self.new.text ≡ self.old.text }
        ensures blanks { self.new.blanks ≡ 0 }
    {
        match self.buf.replace_range(..self.blanks, "") {
            Ok(()) => self.blanks = 0,
            Err(_) => unreachable!(),
        }
    }

    /// Lends the text, once it is packed.
    pub fn as_string(&self) -> &String
        requires { self.now.blanks ≡ 0 }
        ensures { string_bytes result.now ≡ self.now.text }
    {
        &self.buf
    }
}

// Finds blanks for `bytes` bytes before a text, and answers how many stand there then. If there are too few, it adds
// at least as many as there are bytes to move, so that the next move comes only after as many bytes in front.
fn find_blanks(buf: &mut String, blanks: usize, bytes: usize) -> Result<usize, Refusal>
    requires { BeginsBlank blanks (string_bytes buf.old) }
    ensures blanks { IfOk result (λ n. BeginsBlank n (string_bytes buf.new)) }
    ensures room { IfOk result (λ n. bytes ≤ n) }
    ensures text { IfOk result (λ n. drop n (string_bytes buf.new) ≡ drop blanks (string_bytes buf.old)) }
    ensures err { IfErr result (λ r. (r ≡ NoMemory) × (string_bytes buf.new ≡ string_bytes buf.old) × (blanks < bytes)) }
{
    if bytes <= blanks {
        return Ok(blanks);
    }
    let more = bytes.max(buf.len());
    let row = " ".repeat(*buf.allocator(), more)?;
    buf.insert_str(0, row.as_str())?;
    Ok(blanks + more)
}

// Replaces the last blanks before a text by a part, and answers how many are left. It takes no memory.
fn put_over_blanks(buf: &mut String, blanks: usize, part: &str) -> usize
    requires begins { BeginsBlank blanks (string_bytes buf.old) }
    requires room { length part.now ≤ blanks }
    ensures blanks { BeginsBlank result (string_bytes buf.new) }
    ensures text { drop result (string_bytes buf.new) ≡ part.now ++ drop blanks (string_bytes buf.old) }
{
    let from = blanks - part.len();
    let Err(_) = buf.replace_range(from..blanks, part) else {
        return from;
    };
    // The standard library doesn't promise that a text of the same length needs no more room. It does promise it of a
    // deletion, and of an insertion if there is room: so all blanks are removed. This uses another kind of range, so
    // that the call above stays the only one of its kind, and is inlined.
    match buf.replace_range(..blanks, "") {
        Ok(()) => {}
        Err(_) => unreachable!(),
    }
    match buf.insert_str(0, part) {
        Ok(()) => 0,
        Err(_) => unreachable!(),
    }
}
