//! Reads the numbers, the characters and the texts of a line, which spaces part.
ghost use Rattle.std.specs.Prelude.{◌≡◌, ◌<◌, ◌≤◌, ℕ, Some, None, IfSome, IfOk, OnErr, MatchBool, MatchOption, ◌∷◌, length};
ghost use Rattle.std.specs.Str.{IsUtf8};
ghost use Rattle.std.specs.String.{string_bytes};
ghost use Rattle.rl_session.specs.Parsing.{BeginsEscape, BeginsNoEscape, BeginsChar, SpellsNothing, SpellsSome, SpellsSomeText, SpellsNoChar, HasNoNumber, HasNoText, HasSomeText};
ghost use Rattle.rl_session.specs.Spelling.{number_of, letter_of, hex_digit, NamesChar, Spells, SpellsChar, word, rest, Numbered, NumberedText};

use std::alloc::{AllocError, Global};

// The number that the digits name, if it is at most the greatest.
#[tactic(auto, using(crate::proofs::Scripts::NumberLemmas::numbers))]
pub(crate) fn number(digits: &str, greatest: usize) -> Option<usize>
    ensures value { result ≡ number_of greatest digits.now }
    ensures bound { IfSome result (λ n. n ≤ greatest) }
{
    if digits.is_empty() {
        return None;
    }
    let mut value = 0usize;
    for b in digits.as_bytes() {
        if !b.is_ascii_digit() {
            return None;
        }
        let digit = usize::from(*b - b'0');
        value = value.checked_mul(10)?.checked_add(digit)?;
        if value > greatest {
            return None;
        }
    }
    Some(value)
}

// The count that the digits name.
pub(crate) fn count(digits: &str) -> Option<u16>
    ensures { result ≡ number_of 65535 digits.now }
{
    Some(number(digits, 65535)? as u16)
}

// The value of a hexadecimal digit.
fn hex_digit(b: u8) -> Option<u32>
    ensures value { result ≡ hex_digit b }
    ensures bound { IfSome result (λ d. d < 16) }
{
    match b {
        b'0'..=b'9' => Some(u32::from(b - b'0')),
        b'a'..=b'f' => Some(u32::from(b - b'a') + 10),
        b'A'..=b'F' => Some(u32::from(b - b'A') + 10),
        _ => None,
    }
}

// The character that one to six hexadecimal digits name.
fn named_char(digits: &str) -> Option<char>
    ensures { MatchOption result ((c : ℕ) → NamesChar digits.now c → ⊥) (λ c. NamesChar digits.now c) }
{
    if digits.is_empty() || digits.len() > 6 {
        return None;
    }
    let mut value = 0u32;
    for b in digits.as_bytes() {
        value = value * 16 + hex_digit(*b)?;
    }
    char::from_u32(value)
}

// The character that a letter after a backslash stands for.
fn letter_of(letter: char) -> Option<char>
    ensures { result ≡ letter_of letter }
{
    match letter {
        '\\' => Some('\\'),
        'n' => Some('\n'),
        'r' => Some('\r'),
        't' => Some('\t'),
        's' => Some(' '),
        _ => None,
    }
}

// The character that stands in braces after `\u`, and what follows.
fn braced(after: &str) -> Option<(char, &str)>
    ensures cases { MatchOption result (BeginsNoEscape (117 ∷ after.now))
        (λ found. BeginsEscape (117 ∷ after.now) found.0 found.1.now) }
    ensures utf8 { IfSome result (λ found. IsUtf8 found.1.now) }
{
    let (digits, after) = after.strip_prefix('{')?.split_once('}')?;
    Some((named_char(digits)?, after))
}

// The character of the escape whose backslash was read before, and what follows.
fn escape(after: &str) -> Option<(char, &str)>
    ensures cases { MatchOption result (BeginsNoEscape after.now)
        (λ found. BeginsEscape after.now found.0 found.1.now) }
    ensures utf8 { IfSome result (λ found. IsUtf8 found.1.now) }
{
    let mut rest = after.chars();
    let letter = rest.next()?;
    if letter == 'u' {
        return braced(rest.as_str());
    }
    Some((letter_of(letter)?, rest.as_str()))
}

// Whether the bytes stand for a text.
fn is_well_formed(escaped: &str) -> bool
    ensures { MatchBool result (SpellsSome escaped.now) (SpellsNothing escaped.now) }
{
    let mut rest = escaped;
    while let Some((_, after)) = rest.split_once('\\') {
        match escape(after) {
            Some((_, after)) => rest = after,
            None => return false,
        }
    }
    true
}

// The text that the bytes stand for, made as they are read.
fn read_text(alloc: Global, escaped: &str) -> Result<Option<String>, AllocError>
    ensures ok { IfOk result (λ found. MatchOption found (SpellsNothing escaped.now)
        (λ text. Spells escaped.now (string_bytes text))) }
    ensures err { OnErr result (0 < length escaped.now) }
{
    let mut text = String::new(alloc);
    let mut rest = escaped;
    while let Some((plain, after)) = rest.split_once('\\') {
        text.push_str(plain)?;
        match escape(after) {
            Some((c, after)) => {
                text.push(c)?;
                rest = after;
            }
            None => return Ok(None),
        }
    }
    text.push_str(rest)?;
    Ok(Some(text))
}

// The text that the bytes stand for. Out of memory comes only for bytes that stand for a text that is not empty. Bytes
// that stand for no text give None, also if there was no memory for their first part.
pub(crate) fn unescape(alloc: Global, escaped: &str) -> Result<Option<String>, AllocError>
    ensures ok { IfOk result (λ found. MatchOption found (SpellsNothing escaped.now)
        (λ text. Spells escaped.now (string_bytes text))) }
    ensures err { OnErr result (SpellsSomeText escaped.now) }
{
    match read_text(alloc, escaped) {
        Ok(found) => Ok(found),
        Err(refused) => {
            if is_well_formed(escaped) {
                Err(refused)
            } else {
                Ok(None)
            }
        }
    }
}

// The first character that the bytes stand for, and what follows.
fn first_char(escaped: &str) -> Option<(char, &str)>
    ensures { MatchOption result (SpellsNoChar escaped.now)
        (λ found. BeginsChar escaped.now found.0 found.1.now) }
{
    match escaped.strip_prefix('\\') {
        Some(after) => escape(after),
        None => {
            let mut rest = escaped.chars();
            Some((rest.next()?, rest.as_str()))
        }
    }
}

// The character that the bytes stand for, if they stand for a text of one.
pub(crate) fn character(escaped: &str) -> Option<char>
    ensures { MatchOption result (SpellsNoChar escaped.now) (λ c. SpellsChar escaped.now c) }
{
    let (c, after) = first_char(escaped)?;
    if after.is_empty() { Some(c) } else { None }
}

// The first word, and what stands after the first space, if there is one.
pub(crate) fn first_word(given: &str) -> (&str, Option<&str>)
    ensures word { result.0.now ≡ word given.now }
    ensures rest { MatchOption result.1 (rest given.now ≡ None) (λ after. rest given.now ≡ Some after.now) }
    ensures utf8 { IsUtf8 result.0.now }
    ensures rest_utf8 { IfSome result.1 (λ after. IsUtf8 after.now) }
{
    match given.split_once(' ') {
        Some((word, after)) => (word, Some(after)),
        None => (given, None),
    }
}

// The number before the first space, if it is at most the greatest, and what stands after it.
pub(crate) fn numbered(given: &str, greatest: usize) -> Option<(usize, &str)>
    ensures cases { MatchOption result (HasNoNumber greatest given.now) (λ found. Numbered greatest given.now found.0 found.1.now) }
    ensures bound { IfSome result (λ found. found.0 ≤ greatest) }
    ensures utf8 { IfSome result (λ found. IsUtf8 found.1.now) }
{
    let (digits, after) = first_word(given);
    let n = number(digits, greatest)?;
    Some((n, after?))
}

// The count before the first space, and what stands after it.
pub(crate) fn counted(given: &str) -> Option<(u16, &str)>
    ensures cases { MatchOption result (HasNoNumber 65535 given.now) (λ found. Numbered 65535 given.now found.0 found.1.now) }
    ensures utf8 { IfSome result (λ found. IsUtf8 found.1.now) }
{
    let (n, after) = numbered(given, 65535)?;
    Some((n as u16, after))
}

// The number before the first space, if it is at most the greatest, and the text after it, which is
// empty if no space stands.
pub(crate) fn numbered_text(
    alloc: Global,
    given: &str,
    greatest: usize,
) -> Result<Option<(usize, String)>, AllocError>
    ensures cases { IfOk result (λ found. MatchOption found (HasNoText greatest given.now)
        (λ p. NumberedText greatest given.now p.0 (string_bytes p.1))) }
    ensures err { OnErr result (HasSomeText greatest given.now) }
    ensures bound { IfOk result (λ found. IfSome found (λ p. p.0 ≤ greatest)) }
{
    let (digits, after) = first_word(given);
    let n = match number(digits, greatest) {
        Some(n) => n,
        None => return Ok(None),
    };
    let text = match after {
        Some(escaped) => unescape(alloc, escaped)?,
        None => Some(String::new(alloc)),
    };
    match text {
        Some(text) => Ok(Some((n, text))),
        None => Ok(None),
    }
}
