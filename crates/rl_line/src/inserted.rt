//! The text of an insertion in a record.
ghost use Rattle.std.specs.Prelude.{◌≡◌, ◌+◌, ◌<◌, ◌++◌, ◌==◌, encode_utf8, false, length, true, if◌then◌else◌, IfErr, IfOk, OnOk};
ghost use Rattle.std.specs.Str.{IsUtf8};
ghost use Rattle.std.specs.String.{string_bytes};
ghost use Rattle.rl_base.specs.declared.listeners.Refusal.TheVariants.{NoMemory};
ghost use Rattle.rl_line.specs.Entry.{inserted_bytes};

use crate::change::seldom;
use arrayvec::ArrayString;
use rl_base::Refusal;
use std::alloc::Global;

/// A text that grows at its end. A short one lies in the value itself, so that a typed word asks for no memory.
#[derive(Drop)]
pub enum Inserted {
    // As many bytes as make an entry of the record no longer than a deletion does.
    Few(ArrayString<16>),
    Many(String),
}

impl Inserted {
    /// A text of one character.
    pub fn of_char(c: char) -> Inserted
        ensures { inserted_bytes result ≡ encode_utf8 c }
    {
        let mut text = ArrayString::new();
        if !push_few(&mut text, c) {
            unreachable!();
        }
        Inserted::Few(text)
    }

    /// A copy of a text. Refused only if memory is out; a short one is never refused.
    pub fn of_str(alloc: Global, text: &str) -> Result<Inserted, Refusal>
        ensures ok { IfOk result (λ copy. inserted_bytes copy ≡ text.now) }
        ensures err { IfErr result (λ r. (r ≡ NoMemory) × (16 < length text.now)) }
    {
        match ArrayString::from(text) {
            Ok(few) => Ok(Inserted::Few(few)),
            Err(_) => Ok(Inserted::Many(String::from_str(alloc, text)?)),
        }
    }

    /// The text.
    // Inlined, since an undo and a redo ask it of each insertion.
    #[inline(always)]
    pub fn as_str(&self) -> &str
        ensures value { result.now ≡ inserted_bytes self.now }
        ensures utf8 { IsUtf8 result.now }
    {
        match self {
            Inserted::Few(text) => text.as_str(),
            Inserted::Many(text) => text.as_str(),
        }
    }

    /// Puts a character at the end of a text that was put in at `at`, if it comes right after it, at `idx`. Answers whether
    /// it does. Refused only if memory is out, and then the text stays.
    #[inline(always)]
    pub fn push_at(
        &mut self,
        alloc: Global,
        at: usize,
        idx: usize,
        c: char,
    ) -> Result<bool, Refusal>
        ensures joins { IfOk result (λ joins. joins ≡ (at + length (inserted_bytes self.old) == idx)) }
        ensures bytes { IfOk result (λ joins. inserted_bytes self.new ≡ (if joins then inserted_bytes self.old ++ encode_utf8 c else inserted_bytes self.old)) }
        ensures err { IfErr result (λ r. (r ≡ NoMemory) × (inserted_bytes self.new ≡ inserted_bytes self.old)) }
    {
        match self {
            Inserted::Many(text) => {
                if at.checked_add(text.len()) != Some(idx) {
                    seldom();
                    return Ok(false);
                }
                text.push(c)?;
            }
            Inserted::Few(text) => {
                if at.checked_add(text.len()) != Some(idx) {
                    return Ok(false);
                }
                self.push(alloc, c)?;
            }
        }
        Ok(true)
    }

    // Puts a character at the end. Apart, so that the path of a letter in a longer text keeps nothing for a short one.
    #[cold]
    #[inline(never)]
    fn push(&mut self, alloc: Global, c: char) -> Result<(), Refusal>
        ensures ok { OnOk result (inserted_bytes self.new ≡ inserted_bytes self.old ++ encode_utf8 c) }
        ensures err { IfErr result (λ r. (r ≡ NoMemory) × (inserted_bytes self.new ≡ inserted_bytes self.old)) }
    {
        match self {
            Inserted::Many(text) => text.push(c)?,
            Inserted::Few(text) => {
                if !push_few(text, c) {
                    *self = Inserted::Many(outgrown(alloc, text.as_str(), c)?);
                }
            }
        }
        Ok(())
    }
}

// Puts a character at the end of a short text, if there is room. Answers whether there is. An ASCII one has a branch of its
// own, in which the compiler knows that it copies one byte: so it makes no call.
#[inline(always)]
fn push_few(text: &mut ArrayString<16>, c: char) -> bool
    ensures pushed { result ≡ true → text.new.bytes ≡ text.old.bytes ++ encode_utf8 c }
    ensures full { result ≡ false → (text.new ≡ text.old) × (12 < length text.old.bytes) }
{
    let mut bytes = [0; 4];
    if c.is_ascii() {
        return text.try_push_str(c.encode_utf8(&mut bytes)).is_ok();
    }
    text.try_push_str(c.encode_utf8(&mut bytes)).is_ok()
}

// A text and a character after it, on the heap, with room for more.
#[cold]
#[inline(never)]
fn outgrown(alloc: Global, text: &str, c: char) -> Result<String, Refusal>
    ensures ok { IfOk result (λ grown. string_bytes grown ≡ text.now ++ encode_utf8 c) }
    ensures err { IfErr result (λ r. r ≡ NoMemory) }
{
    let mut grown = String::with_capacity(alloc, 64)?;
    grown.push_str(text)?;
    grown.push(c)?;
    Ok(grown)
}
