//! The entries of a record without those that were forgotten. These stay in the list for a while, as Ends, and go once they
//! are more than half of it: so what is left moves once in a while, and not with each command.
ghost use Rattle.std.specs.Prelude.{◌≡◌, ◌+◌, ◌^◌, ◌≤◌, ◌<◌, [], ◌∷◌, ◌++◌, All, ℕ, length, map, take, true, false, None, IfOk, IfErr, IfSome, OnOk, OnErr};
ghost use Rattle.rl_base.specs.Event.{InsertChar, InsertStr, Delete, Replace, Cursors};
ghost use Rattle.rl_base.specs.declared.listeners.Direction.TheVariants.{Forward};
ghost use Rattle.rl_base.specs.declared.listeners.Refusal.TheVariants.{NoMemory};
ghost use Rattle.rl_line.specs.Entry.{Begin, IsOfKind, change_count, entry_of};
ghost use Rattle.rl_record.specs.Record.{IsApart, gone_on, is_saved, kept_point, no_changes, parted, record_step, saved_here, arrived};
ghost use Rattle.rl_record.specs.Units.{adds_end, begun, end_times, grouped_from, oldest_is_open, still_waiting, truncated, with_closed, IsMatched, level, redo_of, there_and_back, units};
ghost use Rattle.rl_record.specs.Entries.{cut_at, cut_to};
ghost use Rattle.rl_record.specs.Forgetting.{fits, forgotten, kept_within, without_first};

use crate::entries::Entries;
use crate::forgetting::{Tally, hold_at_most};
use crate::joining::Freshness;
use crate::units;
use rl_base::Refusal;
use rl_line::change::Change;
use std::alloc::Global;
use std::marker::Model;

/// The entries of a record that are not forgotten. A method that is one of `Entries` too says the same as there.
#[derive(Drop)]
pub(crate) struct Recent {
    all: Entries,
    // How many of the recorded ones are forgotten.
    gone: usize,
    tally: Tally,
}

impl Model for Recent {
    ghost use Rattle.rl_record.specs.Record.{Record};
    ghost use Rattle.rl_record.specs.Forgetting.{FrontGone, past_front};

    ghost Value = { Record };

    ghost view = { λ r. past_front r.gone r.all };

    ghost invariant = { λ r. FrontGone r.gone r.tally r.all.recorded };
}

#[tactic(auto, using(crate::proofs::Records::TallyLemmas::fronts))]
impl Recent {
    pub(crate) fn new(alloc: Global) -> Self
        ensures { result ≡ no_changes }
    {
        Recent::whole(Entries::new(alloc))
    }

    /// A list of entries, of which the first are recorded. None if it has fewer, if the save point is past them, or if they
    /// stand there and are not parted.
    pub(crate) fn of(
        list: Vec<Change>,
        recorded: usize,
        fresh: Freshness,
        saved: Option<usize>,
    ) -> Option<Self>
        ensures some { IfSome result (λ entries. entries ≡ cut_at recorded (map entry_of list.items) fresh saved) }
        ensures none { result ≡ None → recorded ≤ length list.items → ¬ ((kept_point (change_count (map entry_of list.items)) saved ≡ saved) × IsApart (cut_at recorded (map entry_of list.items) fresh saved)) }
    {
        Some(Recent::whole(Entries::of(list, recorded, fresh, saved)?))
    }

    // Entries of which none is forgotten, and nothing is counted.
    fn whole(all: Entries) -> Self
        ensures { result ≡ all }
    {
        Recent {
            all,
            gone: 0,
            tally: Tally {
                counted: 0,
                held: 0,
                opened: 0,
            },
        }
    }

    pub(crate) fn allocator(&self) -> Global {
        self.all.allocator()
    }

    /// How many are recorded.
    #[inline(always)]
    pub(crate) fn len(&self) -> usize
        ensures len { result ≡ length self.now.recorded }
        ensures small { length self.now.recorded + length self.now.pending < 2 ^ 63 }
    {
        self.all.len() - self.gone
    }

    /// How many changes are recorded.
    pub(crate) fn changes(&self) -> usize
        ensures { result ≡ change_count self.now.recorded }
    {
        self.all.changes()
    }

    pub(crate) fn fresh(&self) -> Freshness
        ensures { result ≡ self.now.fresh }
    {
        self.all.fresh()
    }

    /// After how many changes the text was saved.
    pub(crate) fn saved(&self) -> Option<usize>
        ensures saved { result ≡ self.now.saved }
        ensures within { kept_point (change_count (self.now.recorded ++ self.now.pending)) self.now.saved ≡ self.now.saved }
        ensures apart { IsApart self.now }
    {
        self.all.saved()
    }

    /// Those that are recorded, and after them those that wait to be redone.
    pub(crate) fn all(&self) -> &[Change]
        ensures { map entry_of result.now ≡ self.now.recorded ++ self.now.pending }
    {
        &self.all.all()[self.gone..]
    }

    pub(crate) fn recorded(&self) -> &[Change]
        ensures { map entry_of result.now ≡ self.now.recorded }
    {
        &self.all.recorded()[self.gone..]
    }

    pub(crate) fn pending(&self) -> &[Change]
        ensures { map entry_of result.now ≡ self.now.pending }
    {
        self.all.pending()
    }

    pub(crate) fn of_kind(&self)
        ensures { All IsOfKind self.now.recorded × All IsOfKind self.now.pending }
    {
        self.all.of_kind();
    }

    #[inline(always)]
    pub(crate) fn insert_char(&mut self, idx: usize, c: char) -> Result<(), Refusal>
        ensures done { OnOk result (self.new ≡ record_step self.old (InsertChar idx c)) }
        ensures err { IfErr result (λ r. (r ≡ NoMemory) × (self.new ≡ self.old)) }
    {
        self.all.insert_char(idx, c)?;
        Ok(())
    }

    pub(crate) fn insert_str(&mut self, idx: usize, string: &str) -> Result<(), Refusal>
        ensures done { OnOk result (self.new ≡ record_step self.old (InsertStr idx string.now)) }
        ensures err { IfErr result (λ r. (r ≡ NoMemory) × (self.new ≡ self.old) × (0 < length string.now)) }
    {
        self.all.insert_str(idx, string)?;
        Ok(())
    }

    pub(crate) fn delete(&mut self, idx: usize, string: &str) -> Result<(), Refusal>
        ensures done { OnOk result (self.new ≡ record_step self.old (Delete idx string.now Forward)) }
        ensures err { IfErr result (λ r. (r ≡ NoMemory) × (self.new ≡ self.old) × (0 < length string.now)) }
    {
        self.all.delete(idx, string)?;
        Ok(())
    }

    pub(crate) fn replace(&mut self, idx: usize, old: &str, new: &str) -> Result<(), Refusal>
        ensures done { OnOk result (self.new ≡ record_step self.old (Replace idx old.now new.now)) }
        ensures err { IfErr result (λ r. (r ≡ NoMemory) × (self.new ≡ self.old)) }
    {
        self.all.replace(idx, old, new)?;
        Ok(())
    }

    #[inline(always)]
    pub(crate) fn tell(&mut self, before: usize, after: usize)
        ensures { self.new ≡ record_step self.old (Cursors before after) }
    {
        self.all.tell(before, after);
    }

    pub(crate) fn part(&mut self)
        ensures { self.new ≡ parted self.old }
    {
        self.all.part();
    }

    pub(crate) fn go_on(&mut self, fresh: Freshness)
        ensures { self.new ≡ gone_on fresh self.old }
    {
        self.all.go_on(fresh);
    }

    pub(crate) fn group_from(&mut self, from: usize) -> Result<(), Refusal>
        requires within { from ≤ length self.old.recorded }
        requires all { self.old.pending ≡ [] }
        ensures done { OnOk result (self.new ≡ arrived (grouped_from from self.old.recorded) [] self.old.saved) }
        ensures err { IfErr result (λ r. (r ≡ NoMemory) × (self.new ≡ self.old)) }
    {
        // So the proof knows how long the list can be.
        let _all = self.all.len();
        let from = self.gone + from;
        self.tally = self.tally.within(self.all.recorded(), from);
        self.all.group_from(from)?;
        Ok(())
    }

    pub(crate) fn open_group(&mut self) -> Result<(), Refusal>
        ensures done { OnOk result (self.new ≡ still_waiting (self.old.recorded ++ Begin ∷ []) self.old) }
        ensures err { IfErr result (λ r. (r ≡ NoMemory) × (self.new ≡ self.old)) }
    {
        self.all.open_group()?;
        Ok(())
    }

    pub(crate) fn drop_begins(&mut self, count: usize)
        requires { adds_end count self.old.recorded ≡ false }
        ensures { self.new ≡ still_waiting (end_times count self.old.recorded) self.old }
    {
        let left = (self.all.len() - count).saturating_sub(1);
        self.tally = self.tally.within(self.all.recorded(), left);
        self.all.drop_begins(count);
    }

    pub(crate) fn set_saved(&mut self)
        ensures { self.new ≡ saved_here self.old }
    {
        self.all.set_saved();
    }

    pub(crate) fn is_saved(&self) -> bool
        ensures { result ≡ is_saved self.now }
    {
        self.all.is_saved()
    }

    #[inline(always)]
    pub(crate) fn begin(&mut self) -> Result<(), Refusal>
        ensures done { OnOk result (self.new ≡ begun self.old) }
        ensures err { IfErr result (λ r. (r ≡ NoMemory) × (self.new ≡ self.old)) }
        ensures full { OnErr result (self.old.pending ≡ []) }
    {
        self.all.begin()?;
        Ok(())
    }

    pub(crate) fn close(&mut self, count: usize) -> Result<bool, Refusal>
        ensures done { IfOk result (λ answer. (answer ≡ adds_end count self.old.recorded) × (self.new ≡ with_closed count self.old)) }
        ensures err { IfErr result (λ r. (r ≡ NoMemory) × (self.new ≡ self.old) × (adds_end count self.old.recorded ≡ true)) }
    {
        let left = self.all.len().saturating_sub(count);
        self.tally = self
            .tally
            .within(self.all.recorded(), left.saturating_sub(1));
        let added = self.all.close(count)?;
        Ok(added)
    }

    pub(crate) fn keep_undone(&mut self, groups: usize) -> Result<(), Refusal>
        requires matched { IsMatched self.old.pending }
        requires level { groups ≡ level self.old.pending }
        ensures done { OnOk result (self.new ≡ parted (arrived (self.old.recorded ++ there_and_back self.old.pending) [] self.old.saved)) }
        ensures err { IfErr result (λ r. (r ≡ NoMemory) × (self.new ≡ self.old)) }
    {
        self.all.keep_undone(groups)?;
        Ok(())
    }

    #[inline(always)]
    pub(crate) fn cut(&mut self, recorded: usize, changes: usize)
        requires within { recorded ≤ length self.old.recorded + length self.old.pending }
        requires counted { changes ≡ change_count (take recorded (self.old.recorded ++ self.old.pending)) }
        ensures { self.new ≡ cut_to recorded (self.old.recorded ++ self.old.pending) self.old.saved }
    {
        // As above.
        let _all = self.all.len();
        let recorded = self.gone + recorded;
        if self.tally.is_below(recorded) {
            self.all.cut(recorded, changes);
            return;
        }
        self.tally = self
            .tally
            .within(self.all.recorded(), recorded.saturating_sub(1));
        self.all.cut(recorded, changes);
    }

    pub(crate) fn truncate(&mut self, len: usize)
        ensures { self.new ≡ truncated len self.old }
    {
        let len = self.gone + len.min(self.all.len() - self.gone);
        self.tally = self
            .tally
            .within(self.all.recorded(), len.saturating_sub(1));
        self.all.truncate(len);
    }

    /// Forgets the oldest units that are beyond the bounds, up to the begin of an open group, if so many groups are open.
    /// Mostly nothing is, and then it is short.
    #[inline(always)]
    pub(crate) fn forget(&mut self, groups: usize, most: usize, bytes: usize)
        requires matched { IsMatched self.old.recorded }
        requires level { groups ≡ level self.old.recorded }
        ensures { self.new ≡ forgotten most bytes self.old }
    {
        if self.is_known_to_fit(most, bytes) {
            return;
        }
        self.forget_beyond(groups, most, bytes);
    }

    #[inline(never)]
    fn forget_beyond(&mut self, groups: usize, most: usize, bytes: usize)
        requires matched { IsMatched self.old.recorded }
        requires level { groups ≡ level self.old.recorded }
        ensures { self.new ≡ forgotten most bytes self.old }
    {
        if self.is_known_open(groups) {
            return;
        }
        self.forget_oldest(groups, most, bytes);
    }

    // Whether the entries are within the bounds, and no more than the last is left to count.
    #[inline(always)]
    fn is_known_to_fit(&self, most: usize, bytes: usize) -> bool
        ensures { result ≡ true → fits most bytes self.now.recorded ≡ true }
    {
        let len = self.len();
        if len > most {
            return false;
        }
        self.tally.fits_with_last(self.all.recorded(), bytes)
    }

    // Whether the oldest unit is an open group, and no more than the last entry is left to look at.
    #[inline(always)]
    fn is_known_open(&self, groups: usize) -> bool
        requires { groups ≡ level self.now.recorded }
        ensures { result ≡ true → oldest_is_open (units self.now.recorded) ≡ true }
    {
        if groups == 0 {
            return false;
        }
        if self.tally.opened <= self.gone {
            return false;
        }
        let left = self.all.len() - self.tally.opened;
        left == 1
    }

    #[inline(never)]
    fn forget_oldest(&mut self, groups: usize, most: usize, bytes: usize)
        requires matched { IsMatched self.old.recorded }
        requires level { groups ≡ level self.old.recorded }
        ensures { self.new ≡ forgotten most bytes self.old }
    {
        while !self.fits(most, bytes) {
            let len = self.oldest_len(groups);
            if len == 0 {
                return;
            }
            self.drop_first(len);
        }
    }

    // Whether the entries are within the bounds.
    fn fits(&mut self, most: usize, bytes: usize) -> bool
        ensures answer { result ≡ fits most bytes self.old.recorded }
        ensures same { self.new ≡ self.old }
    {
        let len = self.len();
        if len > most {
            return false;
        }
        if bytes == usize::MAX {
            return true;
        }
        hold_at_most(self.all.recorded(), &mut self.tally, bytes)
    }

    // How many entries the oldest unit has; 0 if it is the begin of an open group, which stays with all after it.
    fn oldest_len(&mut self, groups: usize) -> usize
        requires matched { IsMatched self.old.recorded }
        requires level { groups ≡ level self.old.recorded }
        ensures same { self.new ≡ self.old }
        ensures whole { 0 < result → (result ≡ length (redo_of self.old.recorded)) × (level (redo_of self.old.recorded) ≡ 0) }
        ensures opened { result ≡ 0 → (most bytes : ℕ) → kept_within most bytes self.old.recorded ≡ self.old.recorded }
    {
        if self.stays_open(groups) {
            self.note_open();
            return 0;
        }
        let unit = units::next_unit(self.recorded());
        let len = unit.len();
        if units::level(unit) == 0 {
            return len;
        }
        self.note_open();
        0
    }

    // Whether the oldest unit is known to be an open group, and is one still.
    fn stays_open(&self, groups: usize) -> bool
        requires matched { IsMatched self.now.recorded }
        requires level { groups ≡ level self.now.recorded }
        ensures { result ≡ true → oldest_is_open (units self.now.recorded) ≡ true }
    {
        if self.tally.opened <= self.gone {
            return false;
        }
        units::stays_open(self.recorded(), self.tally.opened - self.gone, groups)
    }

    // Keeps that the oldest unit is an open group.
    fn note_open(&mut self)
        requires { oldest_is_open (units self.old.recorded) ≡ true }
        ensures { self.new ≡ self.old }
    {
        self.tally.opened = self.all.len().saturating_sub(1);
    }

    // Forgets the first entries.
    fn drop_first(&mut self, count: usize)
        requires { count ≤ length self.old.recorded }
        ensures { self.new ≡ without_first count self.old }
    {
        for _ in 0..count {
            self.drop_one();
        }
        if self.gone > self.all.all().len() / 2 {
            self.move_up();
        }
    }

    fn drop_one(&mut self)
        requires { 0 < length self.old.recorded }
        ensures { self.new ≡ without_first 1 self.old }
    {
        // As above.
        let _all = self.all.len();
        self.tally = self.tally.without(self.all.recorded(), self.gone);
        self.all.blank(self.gone);
        self.gone += 1;
    }

    // Takes what is forgotten out of the list.
    fn move_up(&mut self)
        ensures { self.new ≡ self.old }
    {
        self.all.drop_first(self.gone);
        self.tally.counted = self.tally.counted.saturating_sub(self.gone);
        self.tally.opened = 0;
        self.gone = 0;
    }
}
