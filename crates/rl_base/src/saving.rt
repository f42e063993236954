//! Numbers and texts as bytes, one after another, as what is saved has them.
ghost use Rattle.std.specs.Prelude.{◌≡◌, ◌<◌, ◌^◌, ◌++◌, ◌==◌, List, ℕ, All, IfErr, IfSome, option_map, OnOk, Some, length, nat_lt, true};
ghost use Rattle.std.specs.Str.{IsUtf8};
ghost use Rattle.byteorder.specs.Endian.{little_number};
ghost use Rattle.rl_base.specs.Saving.{Fits, IsSized, number, numbers, size, sized};
ghost use Rattle.rl_base.specs.declared.saving.LoadFault.TheVariants.{NoMemory};
ghost use Rattle.rl_base.specs.declared.saving.SaveFault.TheVariants as saves;
ghost use Rattle.rl_base.specs.declared.saving.Width.TheVariants.{Eight, Four};

use crate::listeners::Refusal;
use byteorder::{ByteOrder, LittleEndian};
use std::alloc::{AllocError, AllocFailed};
use std::marker::Model;
use thiserror::Error;

/// Why something was not saved.
#[derive(Clone, Copy, Debug, PartialEq, Eq, Error)]
pub enum SaveFault {
    /// A growth found no memory.
    #[error("out of memory")]
    NoMemory = 1,
    /// A text of the record has 4 GiB or more, or a place is as far.
    #[error("a text is too long to be saved")]
    TooLong = 2,
}

/// Why bytes were not loaded.
#[derive(Clone, Copy, Debug, PartialEq, Eq, Error)]
pub enum LoadFault {
    /// A growth found no memory.
    #[error("out of memory")]
    NoMemory = 1,
    /// They do not begin as what this version saves.
    #[error("the bytes are not of a known version")]
    Unknown = 2,
    /// They are not what was saved.
    #[error("the saved bytes are damaged")]
    Damaged = 3,
}

// The numbers are part of the interface.
const _: () = prove!(SaveFault::NoMemory as u8 == 1);

const _: () = prove!(SaveFault::TooLong as u8 == 2);

const _: () = prove!(LoadFault::NoMemory as u8 == 1);

const _: () = prove!(LoadFault::Unknown as u8 == 2);

const _: () = prove!(LoadFault::Damaged as u8 == 3);

impl From<AllocError> for SaveFault {
    ghost from_gives = { λ _ f. f ≡ saves.NoMemory };

    fn from(_: AllocError) -> Self {
        SaveFault::NoMemory
    }
}

impl From<Refusal> for LoadFault {
    ghost from_gives = { λ _ f. f ≡ NoMemory };

    fn from(_: Refusal) -> Self {
        LoadFault::NoMemory
    }
}

impl<T: Drop> From<AllocFailed<T>> for LoadFault {
    ghost from_gives = { λ _ f. f ≡ NoMemory };

    fn from(_: AllocFailed<T>) -> Self {
        LoadFault::NoMemory
    }
}

/// How many bytes a saved number takes.
#[derive(Clone, Copy)]
pub enum Width {
    /// For what lies in a text: a place, a length.
    Four,
    /// For any number.
    Eight,
}

impl Width {
    fn bytes(self) -> usize
        ensures { result ≡ size self }
    {
        match self {
            Width::Four => 4,
            Width::Eight => 8,
        }
    }

    fn fits(self, n: u64) -> bool
        ensures { result ≡ nat_lt n (256 ^ size self) }
    {
        match self {
            Width::Four => n < 1 << 32,
            Width::Eight => true,
        }
    }
}

/// Puts numbers at the end of bytes, each with its lowest byte first. `TooLong` comes only if one does not fit its
/// width.
#[tactic(auto, unfolding(crate::specs::Saving::numbers))]
pub fn put_numbers(out: &mut Vec<u8>, width: Width, given: &[u64]) -> Result<(), SaveFault>
    ensures ok { OnOk result ((out.new.items ≡ out.old.items ++ numbers width given.now) × All (Fits width) given.now) }
    ensures err { IfErr result (λ f. f ≡ saves.TooLong → (width ≡ Four) × ¬ (All (Fits width) given.now)) }
{
    for number in given {
        put_number(out, width, *number)?;
    }
    Ok(())
}

#[tactic(auto, unfolding(crate::specs::Saving::number))]
fn put_number(out: &mut Vec<u8>, width: Width, given: u64) -> Result<(), SaveFault>
    ensures ok { OnOk result ((out.new.items ≡ out.old.items ++ number width given) × Fits width given) }
    ensures err { IfErr result (λ f. f ≡ saves.TooLong → (width ≡ Four) × ¬ (Fits width given)) }
{
    if !width.fits(given) {
        return Err(SaveFault::TooLong);
    }
    let mut bytes = [0; 8];
    LittleEndian::write_uint(&mut bytes, given, width.bytes());
    out.extend_from_slice(&bytes[..width.bytes()])?;
    Ok(())
}

/// Puts a text at the end of bytes, with its length before it. It is never too long.
#[tactic(auto, unfolding(crate::specs::Saving::sized))]
pub fn put_text(out: &mut Vec<u8>, text: &str) -> Result<(), SaveFault>
    ensures ok { OnOk result ((out.new.items ≡ out.old.items ++ sized text.now) × Fits Eight (length text.now)) }
    ensures err { IfErr result (λ f. f ≡ saves.TooLong → ⊥) }
{
    put_number(out, Width::Eight, text.len() as u64)?;
    out.extend_from_slice(text.as_bytes())?;
    Ok(())
}

// The number that these bytes are.
fn read_number(width: Width, bytes: &[u8]) -> u64
    requires { length bytes.now ≡ size width }
    ensures number { result ≡ little_number (size width) bytes.now }
    ensures bytes { number width result ≡ bytes.now }
    ensures fits { Fits width result }
{
    LittleEndian::read_uint(bytes, width.bytes())
}

/// Saved bytes that were not read yet.
#[derive(Drop)]
pub struct Unread<'t> {
    bytes: &'t [u8],
}

impl<'t> Model for Unread<'t> {
    ghost use Rattle.std.specs.Prelude.{ℕ, List};

    ghost Value = { List ℕ };

    ghost view = { λ u. u.bytes.now };
}

impl<'t> Unread<'t> {
    /// All of these bytes.
    pub fn new(bytes: &'t [u8]) -> Self
        ensures { result ≡ bytes.now }
    {
        Unread { bytes }
    }

    /// Whether all was read.
    pub fn is_empty(&self) -> bool
        ensures { result ≡ (length self.now == 0) }
    {
        self.bytes.is_empty()
    }

    /// How many bytes are left.
    pub fn left(&self) -> usize
        ensures { result ≡ length self.now }
    {
        self.bytes.len()
    }

    // Reads so many bytes.
    fn take(&mut self, len: usize) -> Option<&'t [u8]>
        ensures read { IfSome result (λ found. (self.old ≡ found.now ++ self.new) × (length found.now ≡ len)) }
        ensures loaded { (front rest : List ℕ) → length front ≡ len → self.old ≡ front ++ rest → (option_map (λ found. found.now) result ≡ Some front) × (self.new ≡ rest) }
    {
        if len > self.bytes.len() {
            return None;
        }
        let (front, rest) = self.bytes.split_at(len);
        self.bytes = rest;
        Some(front)
    }

    #[tactic(auto, unfolding(crate::specs::Saving::number))]
    fn number(&mut self, width: Width) -> Option<u64>
        ensures read { IfSome result (λ n. (self.old ≡ number width n ++ self.new) × Fits width n) }
        ensures loaded { (n : ℕ) (rest : List ℕ) → Fits width n → self.old ≡ number width n ++ rest → (result ≡ Some n) × (self.new ≡ rest) }
    {
        let bytes = self.take(width.bytes())?;
        Some(read_number(width, bytes))
    }

    /// Reads as many numbers as there is place for. Answers whether there were as many.
    #[tactic(auto, unfolding(crate::specs::Saving::numbers))]
    pub fn numbers(&mut self, width: Width, found: &mut [u64]) -> bool
        ensures loaded { (ns rest : List ℕ) → length ns ≡ length found.old → All (Fits width) ns → self.old ≡ numbers width ns ++ rest
            → (result ≡ true) × (found.new ≡ ns) × (self.new ≡ rest) }
        ensures read { result ≡ true → (self.old ≡ numbers width found.new ++ self.new) × All (Fits width) found.new }
        ensures len { length found.new ≡ length found.old }
    {
        for i in 0..found.len() {
            let Some(number) = self.number(width) else {
                return false;
            };
            found[i] = number;
        }
        true
    }

    /// Reads a text of so many bytes, if they are UTF-8.
    pub fn text(&mut self, len: u64) -> Option<&'t str>
        ensures read { IfSome result (λ found. (self.old ≡ found.now ++ self.new) × (length found.now ≡ len) × IsUtf8 found.now) }
        ensures loaded { (text rest : List ℕ) → length text ≡ len → IsUtf8 text → self.old ≡ text ++ rest
            → (option_map (λ found. found.now) result ≡ Some text) × (self.new ≡ rest) }
    {
        let bytes = self.take(len as usize)?;
        simdutf8::basic::from_utf8(bytes).ok()
    }

    /// Reads a text with its length before it.
    #[tactic(auto, unfolding(crate::specs::Saving::sized))]
    pub fn sized_text(&mut self) -> Option<&'t str>
        ensures read { IfSome result (λ found. (self.old ≡ sized found.now ++ self.new) × IsSized found.now) }
        ensures loaded { (text rest : List ℕ) → IsSized text → self.old ≡ sized text ++ rest
            → (option_map (λ found. found.now) result ≡ Some text) × (self.new ≡ rest) }
    {
        let len = self.number(Width::Eight)?;
        self.text(len)
    }
}
