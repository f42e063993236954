//! What can be asked about a record and a line: whether undos and redos fit it.
ghost use Rattle.std.specs.Prelude.{◌≡◌, ◌↔◌, ◌⊎◌, ℕ, map, nat_le, true, false, is_some, length, IsSome, None, Some, IfOk, IfErr, IfSome};
ghost use Rattle.std.specs.Option.{option_map};
ghost use Rattle.std.specs.String.{string_bytes};
ghost use Rattle.rl_base.specs.Text.{HasText};
ghost use Rattle.rl_base.specs.declared.listeners.Refusal.TheVariants.{NoMemory};
ghost use Rattle.rl_line.specs.Change.{greatest_back_over, longest_over};
ghost use Rattle.rl_line.specs.Entry.{entry_of};
ghost use Rattle.rl_record.specs.Record.{last_insert, replays_to};
ghost use Rattle.rl_record.specs.Undo.{CopiesBack, Tries, TriesAhead, TriesBack, unit_of, Walks};
ghost use Rattle.rl_line.specs.Going.{line_ahead, line_back, line_over};
ghost use Rattle.rl_line.specs.Walk.{HasSeveral};
ghost use Rattle.rl_record.specs.Units.{last_of, open_group, redo_of};

use crate::changeset::Changeset;
use crate::{entries, units};
use rl_base::Refusal;
use rl_line::LineBuffer;
use rl_line::change::{Change, Way, copied, has_change, keeps_to, patch_over, retraces, text_over};
use std::alloc::Global;

impl Changeset {
    /// Whether the text keeps to the line's limit all the way of an abandon.
    pub fn abandon_fits(&self, line: &LineBuffer) -> bool
        ensures { result ≡ nat_le (greatest_back_over (open_group self.now.recorded) (length line.now.text)) line.now.limit }
    {
        if self.level == 0 {
            return line.len() <= line.limit();
        }
        let size = units::open_size(self.recorded());
        self.units_fit(line, Way::Back, size)
    }

    // Whether it does all the way over these units.
    #[inline(never)]
    pub(super) fn units_fit(&self, line: &LineBuffer, way: Way, n: usize) -> bool
        ensures { result ≡ nat_le (longest_over way (unit_of way n self.now) (length line.now.text)) line.now.limit }
    {
        keeps_to(self.unit(way, n), way, line.len(), line.limit())
    }

    /// A copy of what the last change put in, if it is an insertion or a replacement; ends of groups after
    /// it are passed over.
    pub fn last_insert(&self) -> Result<Option<String>, Refusal>
        ensures ok { IfOk result (λ text. option_map string_bytes text ≡ last_insert self.now.recorded) }
        ensures err { IfErr result (λ r. (r ≡ NoMemory) × HasText (last_insert self.now.recorded)) }
    {
        let Some(text) = last_text(self.recorded()) else {
            return Ok(None);
        };
        Ok(Some(copied(self.entries.allocator(), text)?))
    }

    /// Whether all recorded changes can be taken back from the line's text, the last first, and each cursor that was
    /// told stands between two characters then. So an undo of any number of units can, and an abandon.
    #[tactic(auto, using(crate::proofs::Records::LeadLemmas::leads))]
    pub fn can_undo(&self, line: &LineBuffer) -> Result<bool, Refusal>
        ensures ok { IfOk result (λ answer. answer ≡ is_some (line_back self.now.recorded line.now)) }
        ensures units { IfOk result (λ answer. answer ≡ true → (n : ℕ) → IsSome (line_back (last_of n self.now.recorded) line.now)) }
        ensures group { IfOk result (λ answer. answer ≡ true → IsSome (line_back (open_group self.now.recorded) line.now)) }
        ensures err { IfErr result (λ r. (r ≡ NoMemory) × TriesBack self.now.recorded line.now.text) }
    {
        lead(self.entries.allocator(), line, self.recorded(), Way::Back)
    }

    /// Whether all undone changes can be made again on the line's text, the last undone first, and each cursor that
    /// was told stands between two characters then. So a redo can.
    #[tactic(auto, using(crate::proofs::Records::LeadLemmas::leads))]
    pub fn can_redo(&self, line: &LineBuffer) -> Result<bool, Refusal>
        ensures ok { IfOk result (λ answer. answer ≡ is_some (line_ahead self.now.pending line.now)) }
        ensures unit { IfOk result (λ answer. answer ≡ true → IsSome (line_ahead (redo_of self.now.pending) line.now)) }
        ensures err { IfErr result (λ r. (r ≡ NoMemory) × TriesAhead self.now.pending line.now.text) }
    {
        lead(self.entries.allocator(), line, self.pending(), Way::Ahead)
    }

    /// Whether the record is one of the line's text: whether what is recorded leads to it and what was undone on from it,
    /// each cursor that was told stands between two characters of the text from before its change, and of that after it,
    /// and no more cursors are told of the last change. So undos and redos go through all of it.
    #[tactic(auto, using(crate::proofs::Records::WalkLemmas::walking))]
    pub fn walks(&self, line: &LineBuffer) -> Result<bool, Refusal>
        ensures ok { IfOk result (λ answer. answer ≡ true ↔ Walks self.now line.now.text) }
        ensures err { IfErr result (λ r. (r ≡ NoMemory) × (HasSeveral self.now.recorded ⊎ HasSeveral self.now.pending)) }
    {
        if !self.entries.fresh().is_told() {
            return Ok(false);
        }
        let (alloc, text) = (self.entries.allocator(), line.as_str());
        if !retraces(alloc, text, self.recorded(), Way::Back)? {
            return Ok(false);
        }
        retraces(alloc, text, self.pending(), Way::Ahead)
    }

    /// Whether the first `len` entries lead to the line's text by themselves, so that `truncate` may drop the
    /// others: both they and all entries can be taken back from it, to the same text.
    #[tactic(auto, using(crate::proofs::Records::WalkLemmas::led_back))]
    pub fn replays_to(&self, len: usize, line: &LineBuffer) -> Result<bool, Refusal>
        ensures ok { IfOk result (λ answer. answer ≡ replays_to len self.now line.now.text) }
        ensures err { IfErr result (λ r. (r ≡ NoMemory) × CopiesBack self.now.recorded line.now.text) }
    {
        let alloc = self.entries.allocator();
        let text = line.as_str();
        let recorded = self.recorded();
        if !has_change(recorded) {
            return Ok(true);
        }
        let Some(all) = text_over(alloc, text, recorded, Way::Back, false)? else {
            return Ok(false);
        };
        let first = entries::first(recorded, len);
        match text_over(alloc, text, first, Way::Back, false)? {
            Some(some) => Ok(all.as_slice() == some.as_slice()),
            None => Ok(false),
        }
    }
}

// Whether a line can go over the entries that way, and each cursor that was told stands between two characters then. One
// entry is compared with the text; several, if there is a change among them, are tried on a copy of the part that they touch.
#[tactic(auto, using(crate::proofs::Records::LeadLemmas::led))]
pub(super) fn lead(
    alloc: Global,
    line: &LineBuffer,
    entries: &[Change],
    way: Way,
) -> Result<bool, Refusal>
    ensures ok { IfOk result (λ answer. answer ≡ is_some (line_over way (map entry_of entries.now) line.now)) }
    ensures err { IfErr result (λ r. (r ≡ NoMemory) × Tries way (map entry_of entries.now) line.now.text) }
{
    // So the proof knows that the cursor stands between two characters.
    let _cursor = line.pos();
    if entries.len() == 1 {
        return Ok(entries[0].leads(line.as_str(), way));
    }
    if !has_change(entries) {
        return Ok(true);
    }
    let text = patch_over(alloc, line.as_str(), entries, way, true)?;
    Ok(text.is_some())
}

// What the last entry put in, Ends passed over.
pub(super) fn last_text(entries: &[Change]) -> Option<&str>
    ensures some { IfSome result (λ text. last_insert (map entry_of entries.now) ≡ Some text.now) }
    ensures none { result ≡ None → last_insert (map entry_of entries.now) ≡ None }
{
    let mut left = entries.len();
    while left > 0 {
        left -= 1;
        match &entries[left] {
            Change::End => {}
            Change::Insert(_, _, new) => return Some(new.as_str()),
            Change::Replace(_, _, texts) => return Some(texts.after.as_str()),
            Change::Begin | Change::Delete(_, _, _) => return None,
        }
    }
    None
}
