//! The groups of a record: how they are opened and closed, taken up again and kept, and units that are made of what is
//! recorded.
ghost use Rattle.std.specs.Prelude.{◌≡◌, ◌≤◌, ◌&&◌, not, [], ◌∷◌, ◌++◌, drop, min, option_map, take, true, false, length, Some, IfOk, IfErr, OnOk};
ghost use Rattle.rl_base.specs.declared.listeners.Refusal.TheVariants.{NoMemory};
ghost use Rattle.rl_line.specs.Entry.{Begin, End};
ghost use Rattle.rl_record.specs.Record.{is_saved, parted};
ghost use Rattle.rl_record.specs.Units.{IsMatched, adds_end, begun, ended, ended_one, ends_in_end, last_of, level, open_group, reopened, units_in_group, with_closed, kept_of, kept_undone, makes_group, end_times, still_waiting, taken_in, unit_start, united, waits};

use crate::changeset::Changeset;
use crate::changeset::questions::last_text;
use crate::joining::Freshness;
use crate::{entries, units};
use rl_base::{Refusal, RepeatCount};

/// Where a unit of undo begins that is made of what is recorded after it: `start_unit` tells it, and `unite` takes it.
#[derive(Clone, Copy)]
pub struct UnitStart {
    // How many entries stand before the unit.
    from: usize,
    // How many were recorded when it began.
    len: usize,
    // Whether the last of them could be told its cursors then, and joined.
    was: Freshness,
}

impl Changeset {
    /// How many units were made in the group that was opened last and is open, or `most` if these are fewer; None if no
    /// group is open. An undo of no more stays in that group. It looks at no more than `most` units, and the one before.
    pub fn units_in_group(&self, most: RepeatCount) -> Option<RepeatCount>
        ensures { result ≡ option_map (min most) (units_in_group self.now.recorded) }
    {
        if self.level == 0 {
            return None;
        }
        let limit = usize::from(most);
        let size = units::open_size_to(self.recorded(), limit + 1);
        Some(size.saturating_sub(1).min(limit) as RepeatCount)
    }

    /// Opens a group, whose changes are undone and redone together once it is closed. Answers how many entries
    /// stand before it, a mark that `truncate` takes.
    #[tactic(auto, using(crate::proofs::Records::LevelLemmas::levels))]
    pub fn begin(&mut self) -> Result<usize, Refusal>
        ensures done { IfOk result (λ answer. (answer ≡ length self.old.recorded) × (self.new ≡ begun self.old)) }
        ensures err { IfErr result (λ r. (r ≡ NoMemory) × (self.new ≡ self.old) × (self.old.pending ≡ [])) }
    {
        let before = self.entries.len();
        self.entries.begin()?;
        self.level += 1;
        Ok(before)
    }

    /// Closes every open group, the last one first; an empty one is removed from the record. Answers whether one
    /// of them holds something.
    pub fn end(&mut self) -> Result<bool, Refusal>
        ensures done { IfOk result (λ answer. (answer ≡ adds_end (level self.old.recorded) self.old.recorded) × (self.new ≡ ended self.old)) }
        ensures err { IfErr result (λ r. (r ≡ NoMemory) × (self.new ≡ self.old) × (adds_end (level self.old.recorded) self.old.recorded ≡ true)) }
    {
        let open = self.level();
        self.close(open)
    }

    /// Closes the group that was opened last, and leaves the others open; one that holds nothing is removed from the
    /// record. Answers whether it holds something, and false if no group is open.
    pub fn end_one(&mut self) -> Result<bool, Refusal>
        ensures done { IfOk result (λ answer. (answer ≡ adds_end (min 1 (level self.old.recorded)) self.old.recorded) × (self.new ≡ ended_one self.old)) }
        ensures err { IfErr result (λ r. (r ≡ NoMemory) × (self.new ≡ self.old) × (adds_end (min 1 (level self.old.recorded)) self.old.recorded ≡ true)) }
    {
        let open = self.level();
        self.close(open.min(1))
    }

    /// Opens a group as `begin` does, but what was undone stays, and waits to be redone after the begin. Refused, it changes
    /// nothing.
    #[tactic(auto, using(crate::proofs::Records::LevelLemmas::levels))]
    pub fn open_group(&mut self) -> Result<usize, Refusal>
        ensures done { IfOk result (λ answer. (answer ≡ length self.old.recorded) × (self.new ≡ still_waiting (self.old.recorded ++ Begin ∷ []) self.old)) }
        ensures err { IfErr result (λ r. (r ≡ NoMemory) × (self.new ≡ self.old)) }
    {
        let mark = self.entries.len();
        self.entries.open_group()?;
        self.level += 1;
        Ok(mark)
    }

    /// Closes so many groups, the one that was opened last first, if they are empty and something waits to be redone: they
    /// are removed from the record, and what was undone stays. Answers whether it did; else it changes nothing.
    pub fn close_empty(&mut self, count: usize) -> bool
        requires { count ≤ level self.old.recorded }
        ensures answer { result ≡ (not (adds_end count self.old.recorded) && waits self.old.pending) }
        ensures done { result ≡ true → self.new ≡ still_waiting (end_times count self.old.recorded) self.old }
        ensures none { result ≡ false → self.new ≡ self.old }
    {
        if !self.has_waiting() || entries::adds_end(self.recorded(), count) {
            return false;
        }
        self.entries.drop_begins(count);
        self.level -= count;
        true
    }

    /// Whether something was undone and waits to be redone, be it an empty group.
    pub fn has_waiting(&self) -> bool
        ensures { result ≡ waits self.now.pending }
    {
        !self.pending().is_empty()
    }

    /// Takes the group up again that was closed last, if nothing was recorded after it: it is open then, and what comes is a
    /// part of it, until it is closed once more. Answers whether it did. It drops what was undone then, and else changes
    /// nothing.
    pub fn reopen(&mut self) -> bool
        ensures answer { result ≡ ends_in_end self.old.recorded }
        ensures done { self.new ≡ reopened self.old }
    {
        if !entries::ends_in_end(self.recorded()) {
            return false;
        }
        let len = self.entries.len();
        self.truncate(len - 1);
        true
    }

    /// Keeps what was undone, so that undos lead where redos led: what waits to be redone is recorded again as it was, an open
    /// group in it is closed, and then the inverse of each of its units, the last first. So the text stays, and an undo of n
    /// units leads where n redos led before. The next change joins nothing, as after `part`. Answers whether anything waited;
    /// else it changes nothing, and so does `NoMemory`.
    pub fn keep_undone(&mut self) -> Result<bool, Refusal>
        ensures done { IfOk result (λ answer. (answer ≡ waits self.old.pending) × (self.new ≡ kept_undone self.old)) }
        ensures matched { IsMatched self.old.pending }
        ensures err { IfErr result (λ r. (r ≡ NoMemory) × (self.new ≡ self.old) × (waits self.old.pending ≡ true)) }
    {
        if self.pending().is_empty() {
            return Ok(false);
        }
        let open = units::level(self.pending());
        self.entries.keep_undone(open)?;
        Ok(true)
    }

    // Closes so many groups, the one that was opened last first. Answers whether one of them holds something.
    fn close(&mut self, count: usize) -> Result<bool, Refusal>
        requires { count ≤ level self.old.recorded }
        ensures done { IfOk result (λ answer. (answer ≡ adds_end count self.old.recorded) × (self.new ≡ with_closed count self.old)) }
        ensures err { IfErr result (λ r. (r ≡ NoMemory) × (self.new ≡ self.old) × (adds_end count self.old.recorded ≡ true)) }
    {
        let added = self.entries.close(count)?;
        self.level -= count;
        Ok(added)
    }

    /// Says where a unit begins, of which `unite` makes one group once its changes are recorded. It parts the changes that
    /// come, as `part` does. If the last change put in a text of `put_in` bytes, and `put_in` is not 0, its unit is taken
    /// in, unless the text was saved after it.
    #[tactic(auto, using(crate::proofs::Records::UnitingLemmas::unit_starts))]
    pub fn start_unit(&mut self, put_in: usize) -> UnitStart
        ensures start { result ≡ unit_start put_in self.old }
        ensures done { self.new ≡ parted self.old }
    {
        let len = self.entries.len();
        let from = len - self.taken_in(put_in);
        let was = self.entries.fresh();
        self.part();
        UnitStart { from, len, was }
    }

    // How many entries a unit takes in that were recorded before it.
    fn taken_in(&self, put_in: usize) -> usize
        ensures { result ≡ taken_in put_in self.now }
    {
        if put_in == 0 || self.is_saved() {
            return 0;
        }
        let recorded = self.recorded();
        let Some(text) = last_text(recorded) else {
            return 0;
        };
        if text.len() != put_in {
            return 0;
        }
        units::last_units(recorded, 1).len()
    }

    /// Makes one group of what was recorded since `start`, and of what that takes in, so that it is undone and redone
    /// together. It does so if these are several entries, each group that begins or ends among them is whole there, and
    /// nothing waits to be redone; else the record stays. If no entry was recorded, the next change may join as it could
    /// before, unless the text was saved since. All room is found first, so refused it changes nothing.
    pub fn unite(&mut self, start: UnitStart) -> Result<(), Refusal>
        ensures ok { OnOk result (self.new ≡ united start self.old) }
        ensures unit { OnOk result (makes_group start self.old ≡ true
            → (last_of 1 self.new.recorded ≡ Begin ∷ (drop start.from self.old.recorded ++ End ∷ [])) × (kept_of 1 self.new.recorded ≡ take start.from self.old.recorded)) }
        ensures err { IfErr result (λ r. (r ≡ NoMemory) × (self.new ≡ self.old) × (makes_group start self.old ≡ true)) }
    {
        if self.entries.len() == start.len {
            self.entries.go_on(start.was);
            return Ok(());
        }
        if !self.pending().is_empty() || !units::form_unit(self.recorded(), start.from) {
            return Ok(());
        }
        self.entries.group_from(start.from)?;
        Ok(())
    }
}
