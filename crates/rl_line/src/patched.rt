//! A text that changes in one part, without a copy of what stands around it.
ghost use Rattle.std.specs.Prelude.{◌≡◌, ◌<◌, ◌≤◌, ◌+◌, ◌&&◌, length, true, false, IfErr, IfOk, OnOk};
ghost use Rattle.std.specs.List.{replace_range};
ghost use Rattle.std.specs.Option.{option_map_or};
ghost use Rattle.std.specs.Str.{IsCharBoundary, IsUtf8};
ghost use Rattle.rl_base.specs.Text.{is_boundary, stands_at};
ghost use Rattle.rl_base.specs.declared.listeners.Refusal.TheVariants.{NoMemory};
ghost use Rattle.rl_line.specs.LineRanges.{IsRange};

use crate::blocks::{Blocks, Part};
use rl_base::Refusal;
use std::alloc::Global;
use std::marker::Model;

/// A text of which one part gave way to another. It copies what lies between the places that are asked for, and no more.
#[derive(Drop)]
pub struct Patched<'t> {
    text: &'t str,
    from: usize,
    to: usize,
    // What stands there instead of what the text has from `from` to `to`.
    part: Blocks,
}

impl<'t> Model for Patched<'t> {
    ghost use Rattle.std.specs.Prelude.{ℕ, List};
    ghost use Rattle.std.specs.List.{replace_range};
    ghost use Rattle.std.specs.Str.{IsUtf8};
    ghost use Rattle.rl_line.specs.LineRanges.{IsRange};

    ghost Value = { List ℕ };

    ghost view = { λ p. replace_range p.text.now p.from p.to p.part };

    ghost invariant = { λ p. IsUtf8 p.text.now × IsRange p.text.now p.from p.to × IsUtf8 p.part };
}

impl<'t> Patched<'t> {
    /// A text as it is.
    #[tactic(auto, using(crate::proofs::Lines::Starting::starting))]
    pub(crate) fn new(alloc: Global, text: &'t str) -> Self
        ensures { result ≡ text.now }
    {
        Patched {
            text,
            from: 0,
            to: 0,
            part: Blocks::new(alloc),
        }
    }

    /// Whether a character begins at a place, or the text ends there.
    pub(crate) fn is_boundary(&self, at: usize) -> bool
        ensures { result ≡ is_boundary self.now at }
    {
        is_boundary_in(self.text, self.from, self.to, &self.part, at)
    }

    /// Replaces a text at a place by another, if it stands there. Answers whether it does.
    #[tactic(auto, using(crate::proofs::Changes::ChangeLemmas::patches))]
    pub(crate) fn swap(&mut self, at: usize, going: &str, coming: &str) -> Result<bool, Refusal>
        ensures stands { IfOk result (λ stands. stands ≡ stands_at self.old at going.now) }
        ensures done { IfOk result (λ stands. stands ≡ true → self.new ≡ replace_range self.old at (at + length going.now) coming.now) }
        ensures err { IfErr result (λ r. (r ≡ NoMemory) × (0 < length self.old + length coming.now)) }
    {
        // So the proof knows how long a text can be.
        let (_text, _part) = (self.text.len(), self.part.len());
        let Some(end) = at.checked_add(going.len()) else {
            return Ok(false);
        };
        if !reach(
            self.text,
            &mut self.from,
            &mut self.to,
            &mut self.part,
            at,
            end,
        )? {
            return Ok(false);
        }
        let start = at - self.from;
        if !self.part.stands_at(start, going) {
            return Ok(false);
        }
        self.part.remove(start, going.len());
        self.part.insert(start, coming.as_bytes())?;
        Ok(true)
    }

    /// A copy of the text as it is now.
    pub(crate) fn whole(&self, alloc: Global) -> Result<Vec<u8>, Refusal>
        ensures ok { IfOk result (λ text. text.items ≡ self.now) }
        ensures err { IfErr result (λ r. (r ≡ NoMemory) × (0 < length self.now)) }
    {
        let mut whole = Vec::new(alloc);
        whole.extend_from_slice(self.text[..self.from].as_bytes())?;
        self.part.copy_to(&mut whole)?;
        whole.extend_from_slice(self.text[self.to..].as_bytes())?;
        Ok(whole)
    }
}

// Whether a character begins at a place of a text whose part gave way.
fn is_boundary_in(text: &str, from: usize, to: usize, part: &Blocks, at: usize) -> bool
    requires patch { IsRange text.now from to }
    requires utf8 { IsUtf8 part.now }
    ensures { result ≡ is_boundary (replace_range text.now from to part.now) at }
{
    if at <= from {
        return text.is_char_boundary(at);
    }
    let past = at - from;
    let size = part.size();
    if past <= size {
        return part.is_boundary(past);
    }
    match (past - size).checked_add(to) {
        Some(there) => text.is_char_boundary(there),
        None => false,
    }
}

// Widens the part that gave way until two places lie in it, if they stand between two characters. Answers whether they do,
// or they lay there before.
#[tactic(auto, using(crate::proofs::Changes::ReachLemmas::reaches))]
fn reach(
    text: &str,
    from: &mut usize,
    to: &mut usize,
    part: &mut Blocks,
    at: usize,
    end: usize,
) -> Result<bool, Refusal>
    requires order { at ≤ end }
    requires patch { IsRange text.now from.old to.old }
    requires utf8 { IsUtf8 part.old }
    ensures patch { IsRange text.now from.new to.new }
    ensures utf8 { IsUtf8 part.new }
    ensures same { OnOk result (replace_range text.now from.new to.new part.new ≡ replace_range text.now from.old to.old part.old) }
    ensures lies { IfOk result (λ lies. lies ≡ true → (from.new ≤ at) × (end ≤ from.new + length part.new)) }
    ensures not { IfOk result (λ lies. lies ≡ false → ¬ (IsCharBoundary (replace_range text.now from.old to.old part.old) at × IsCharBoundary (replace_range text.now from.old to.old part.old) end)) }
    ensures err { IfErr result (λ r. (r ≡ NoMemory) × (0 < length (replace_range text.now from.old to.old part.old))) }
{
    if *from <= at && end - *from <= part.size() {
        return Ok(true);
    }
    if !is_boundary_in(text, *from, *to, part, at) {
        return Ok(false);
    }
    if !is_boundary_in(text, *from, *to, part, end) {
        return Ok(false);
    }
    widen_down(text, from, to, part, at)?;
    widen_up(text, *from, to, part, end)?;
    Ok(true)
}

// Widens the part that gave way down to a place. If nothing gave way yet, it may be anywhere: it begins there, so that
// nothing is copied.
#[tactic(auto, using(crate::proofs::Changes::ReachLemmas::widens))]
fn widen_down(
    text: &str,
    from: &mut usize,
    to: &mut usize,
    part: &mut Blocks,
    at: usize,
) -> Result<(), Refusal>
    requires patch { IsRange text.now from.old to.old }
    requires utf8 { IsUtf8 part.old }
    requires at { IsCharBoundary (replace_range text.now from.old to.old part.old) at }
    ensures patch { IsRange text.now from.new to.new }
    ensures utf8 { IsUtf8 part.new }
    ensures same { OnOk result (replace_range text.now from.new to.new part.new ≡ replace_range text.now from.old to.old part.old) }
    ensures holds { OnOk result (from.new ≤ at) }
    ensures err { IfErr result (λ r. (r ≡ NoMemory) × (0 < length (replace_range text.now from.old to.old part.old))) }
{
    if part.size() == 0 && *from == *to {
        *from = at;
        *to = at;
        return Ok(());
    }
    if *from <= at {
        return Ok(());
    }
    part.insert(0, text[at..*from].as_bytes())?;
    *from = at;
    Ok(())
}

// Widens it up to a place.
#[tactic(auto, using(crate::proofs::Changes::ReachLemmas::widens))]
fn widen_up(
    text: &str,
    from: usize,
    to: &mut usize,
    part: &mut Blocks,
    end: usize,
) -> Result<(), Refusal>
    requires patch { IsRange text.now from to.old }
    requires utf8 { IsUtf8 part.old }
    requires end { IsCharBoundary (replace_range text.now from to.old part.old) end }
    ensures patch { IsRange text.now from to.new }
    ensures utf8 { IsUtf8 part.new }
    ensures same { OnOk result (replace_range text.now from to.new part.new ≡ replace_range text.now from to.old part.old) }
    ensures holds { OnOk result (end ≤ from + length part.new) }
    ensures err { IfErr result (λ r. (r ≡ NoMemory) × (0 < length (replace_range text.now from to.old part.old))) }
{
    let (size, past) = (part.size(), end.saturating_sub(from));
    if past <= size {
        return Ok(());
    }
    let more = *to + (past - size);
    part.insert(size, text[*to..more].as_bytes())?;
    *to = more;
    Ok(())
}

/// Whether a character begins at the place `at`, or the text ends there, once the text has `part` from `from` to `to`.
#[inline(always)]
pub(crate) fn is_boundary_with(text: &str, from: usize, to: usize, part: &str, at: usize) -> bool
    requires { IsRange text.now from to }
    ensures { result ≡ is_boundary (replace_range text.now from to part.now) at }
{
    if at <= from {
        return text.is_char_boundary(at);
    }
    let past = at - from;
    if past <= part.len() {
        return part.is_char_boundary(past);
    }
    match (past - part.len()).checked_add(to) {
        Some(there) => text.is_char_boundary(there),
        None => false,
    }
}

/// Whether a part stands in a text at a byte place. Nothing is compared with an empty one: a comparison is a call.
#[inline(always)]
#[tactic(auto, using(crate::proofs::Changes::ChangeLemmas::stood))]
pub(crate) fn stands_at(text: &str, at: usize, part: &str) -> bool
    ensures { result ≡ stands_at text.now at part.now }
{
    let Some(end) = at.checked_add(part.len()) else {
        return false;
    };
    if !text.is_char_boundary(at) {
        return false;
    }
    if part.is_empty() {
        return true;
    }
    if !text.is_char_boundary(end) {
        return false;
    }
    &text[at..end] == part
}

/// Whether a part stands in a text at a byte place, and the cursor, if it was told one, stands between two characters once
/// another part stands there instead.
#[inline(always)]
pub(crate) fn leads_by(
    text: &str,
    at: usize,
    going: &str,
    coming: &str,
    told: Option<usize>,
) -> bool
    ensures { result ≡ (stands_at text.now at going.now
        && option_map_or (is_boundary (replace_range text.now at (at + length going.now) coming.now)) told true) }
{
    if !stands_at(text, at, going) {
        return false;
    }
    match told {
        Some(cursor) => is_boundary_with(text, at, at + going.len(), coming, cursor),
        None => true,
    }
}
