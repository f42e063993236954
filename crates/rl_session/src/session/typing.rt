//! Typing what a terminal sent.
ghost use Rattle.std.specs.Prelude.{◌≡◌, ◌∷◌, [], None, take};
ghost use Rattle.std.specs.Str.{chars};
ghost use Rattle.std.specs.Str.Lossy.{utf8_valid_len};
ghost use Rattle.rl_session.specs.Typing.{Types, TypesBytes, fault_after, fault_in, nothing_typed, typed_until};

use crate::session::{Fault, Session};
use std::str;
use thiserror::Error;

/// What was typed.
#[derive(Clone, Copy, Debug, PartialEq, Eq)]
pub struct Typed {
    /// How many bytes.
    pub len: usize,
    /// Whether the last character was inserted at the text's end. False if there was none.
    pub at_end: bool,
}

/// Why nothing was typed.
#[derive(Clone, Copy, Debug, PartialEq, Eq, Error)]
pub enum TypeFault {
    /// The bytes do not begin with a character of UTF-8, nor with a part of one at their end.
    #[error("the bytes are not UTF-8")]
    NotUtf8,
    /// The insertion of the first character returned an error.
    #[error("{0}")]
    Refused(Fault),
}

impl Session {
    /// Types what a terminal sent: inserts the characters that stand whole at the front of the bytes, each as `insert`
    /// does with n = 1. It stops before a part of a character at the end of the bytes, before bytes that are no UTF-8,
    /// and at a character whose insertion returns an error. Returns how many bytes were typed; the error only if it
    /// stopped at the first character. `NotUtf8` leaves the session as it was, `Refused` as `insert` leaves it. Inlined, as
    /// `insert` is, for a single ASCII character, which is what most keys send.
    #[inline(always)]
    pub fn type_bytes(&mut self, bytes: &[u8]) -> Result<Typed, TypeFault>
        ensures { TypesBytes bytes.now self.old result self.new }
    {
        match bytes {
            [byte] if byte.is_ascii() => self.type_char(char::from(*byte)),
            _ => self.type_all(bytes),
        }
    }

    #[inline(never)]
    fn type_all(&mut self, bytes: &[u8]) -> Result<Typed, TypeFault>
        ensures { TypesBytes bytes.now self.old result self.new }
    {
        let (text, fault) = whole_text(bytes);
        self.type_text(text, fault)
    }

    #[inline(always)]
    fn type_char(&mut self, c: char) -> Result<Typed, TypeFault>
        ensures { Types None (c ∷ []) nothing_typed self.old result self.new }
    {
        match self.insert(c, 1) {
            Ok(at_end) => Ok(Typed {
                len: c.len_utf8(),
                at_end: at_end == Some(true),
            }),
            Err(refusal) => Err(TypeFault::Refused(refusal)),
        }
    }

    // Types a text, after which there may be a fault in the bytes.
    fn type_text(&mut self, text: &str, fault: Option<TypeFault>) -> Result<Typed, TypeFault>
        ensures { Types fault (chars text.now) nothing_typed self.old result self.new }
    {
        let mut typed = Typed {
            len: 0,
            at_end: false,
        };
        for c in text.chars() {
            match self.insert(c, 1) {
                Ok(at_end) => {
                    typed = Typed {
                        len: typed.len + c.len_utf8(),
                        at_end: at_end == Some(true),
                    }
                }
                Err(refusal) => return until(typed, Some(TypeFault::Refused(refusal))),
            }
        }
        until(typed, fault)
    }
}

fn until(typed: Typed, fault: Option<TypeFault>) -> Result<Typed, TypeFault>
    ensures { result ≡ typed_until typed fault }
{
    match fault {
        Some(fault) if typed.len == 0 => Err(fault),
        _ => Ok(typed),
    }
}

// The longest front that is UTF-8, and what is wrong with the bytes after it.
#[tactic(auto, using(crate::proofs::Sessions::TypingLemmas::whole_front, crate::proofs::Sessions::TypingLemmas::whole_faultless))]
fn whole_text(bytes: &[u8]) -> (&str, Option<TypeFault>)
    ensures text { result.0.now ≡ take (utf8_valid_len bytes.now) bytes.now }
    ensures fault { result.1 ≡ fault_after bytes.now }
{
    let end = match str::from_utf8(bytes) {
        Ok(text) => return (text, None),
        Err(end) => end,
    };
    match str::from_utf8(&bytes[..end.valid_up_to()]) {
        Ok(text) => (text, fault_of(end.error_len())),
        Err(_) => unreachable!(),
    }
}

fn fault_of(error_len: Option<usize>) -> Option<TypeFault>
    ensures { result ≡ fault_in error_len }
{
    match error_len {
        Some(_) => Some(TypeFault::NotUtf8),
        None => None,
    }
}
