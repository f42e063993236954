//! The record of the changes of a line, which undoes them, in groups if they were made in groups, and redoes them.
ghost use Rattle.std.specs.Prelude.{◌≡◌, ◌<◌, ◌&&◌, map, length, All, IfErr, OnOk};
ghost use Rattle.rl_base.specs.Event.{InsertChar, InsertStr, Delete, Replace};
ghost use Rattle.rl_base.specs.declared.listeners.Direction.TheVariants.{Forward};
ghost use Rattle.rl_base.specs.declared.listeners.Refusal.TheVariants.{NoMemory};
ghost use Rattle.rl_record.specs.Forgetting.{forgotten};
ghost use Rattle.rl_line.specs.Entry.{IsOfKind, entry_of, has_change};
ghost use Rattle.rl_record.specs.Record.{Record, is_saved, no_changes, parted, record_step, saved_here};
ghost use Rattle.rl_record.specs.Units.{BothMatched, IsMatched, last_of, level, redo_of, truncated};

mod groups;
mod questions;
mod saved;
mod trying;
mod undo;
mod within;

use crate::recent::Recent;
use crate::units;
pub use groups::UnitStart;
use rl_base::{ChangeListener, DeleteListener, Direction, Refusal};
use rl_line::change::{Change, has_change};
use std::alloc::Global;
use std::marker::Model;

/// The changes of a line in the order in which they were made, with the marks of their groups, and those that
/// were undone and may be redone. It is a listener of the line, and a refused call leaves it as it was.
///
/// Every call that records a change, also an empty one, and every `begin`, `end`, `reopen` and `truncate` drops what was
/// undone; the start and the stop of a kill and the telling of cursors do not.
///
/// With a change it keeps the cursor before it and after it, if it is told them right after the change. If changes
/// join, it keeps the first cursor before and the last one after.
#[derive(Drop)]
pub struct Changeset {
    entries: Recent,
    // How many groups are open, so that no call has to count them over the whole record.
    level: usize,
}

impl Model for Changeset {
    ghost use Rattle.rl_record.specs.Record.{Record};
    ghost use Rattle.rl_record.specs.Units.{AtLevel};

    ghost Value = { Record };

    ghost view = { λ c. c.entries };

    ghost invariant = { λ c. AtLevel c.level c.entries };
}

impl Changeset {
    /// An empty record.
    pub fn new(alloc: Global) -> Self
        ensures { result ≡ no_changes }
    {
        Changeset {
            entries: Recent::new(alloc),
            level: 0,
        }
    }

    /// How many entries are recorded: changes, and begins and ends of groups.
    pub fn len(&self) -> usize
        ensures { result ≡ length self.now.recorded }
    {
        self.entries.len()
    }

    /// How many groups are open. In the record every end of a group has its begin, in the same list, and every
    /// closed group holds a change. An insertion takes nothing out, and a deletion puts nothing in.
    pub fn level(&self) -> usize
        ensures level { result ≡ level self.now.recorded }
        ensures matched { BothMatched self.now }
        ensures kinds { All IsOfKind self.now.recorded × All IsOfKind self.now.pending }
    {
        self.entries.of_kind();
        self.level
    }

    /// Whether an undo of one unit would find a change: something is recorded, and the last entry is not the begin of an
    /// open group. It looks at that entry alone.
    pub fn has_undo(&self) -> bool
        ensures { result ≡ has_change (last_of 1 self.now.recorded) }
    {
        units::last_has_change(self.recorded())
    }

    /// Whether a redo would find a change: one waits to be redone. It looks at the begins of groups that wait before
    /// that change, and at no other entry.
    #[tactic(auto, using(crate::proofs::Records::EndLemmas::holds))]
    pub fn has_redo(&self) -> bool
        ensures { result ≡ has_change (redo_of self.now.pending) }
    {
        has_change(self.pending())
    }

    /// Parts the changes that come from those before: the next change joins nothing, so that it is an entry of its own, also
    /// if what is recorded meanwhile is empty. What was undone stays. Undoing, redoing, beginning or ending a group, and
    /// `truncate` take it back, unless they come to the save point.
    pub fn part(&mut self)
        ensures { self.new ≡ parted self.old }
    {
        self.entries.part();
    }

    /// Marks the text as saved at the present point of the record, and parts the changes that come, as `part` does, so that
    /// none of them joins what was saved. One point is kept, the last that was marked.
    pub fn set_saved(&mut self)
        ensures { self.new ≡ saved_here self.old }
    {
        self.entries.set_saved();
    }

    /// Whether the record stands where its text was saved, also after undos and redos: marks of groups do not count. It does
    /// no more once a change from before that point is dropped or forgotten, and in an empty record it does only if it was
    /// marked.
    pub fn is_saved(&self) -> bool
        ensures { result ≡ is_saved self.now }
    {
        self.entries.is_saved()
    }

    /// Records that `c` was inserted at the byte place `idx`: an alphanumeric character joins the last entry, if
    /// that is an insertion that ends there. Refused, it changes nothing, like every call that records.
    #[inline(always)]
    pub fn insert(&mut self, idx: usize, c: char) -> Result<(), Refusal>
        ensures done { OnOk result (self.new ≡ record_step self.old (InsertChar idx c)) }
        ensures err { IfErr result (λ r. (r ≡ NoMemory) × (self.new ≡ self.old)) }
    {
        self.entries.insert_char(idx, c)?;
        Ok(())
    }

    /// Records that `string` was inserted at the byte place `idx`. An empty one is no entry.
    pub fn insert_str(&mut self, idx: usize, string: &str) -> Result<(), Refusal>
        ensures done { OnOk result (self.new ≡ record_step self.old (InsertStr idx string.now)) }
        ensures err { IfErr result (λ r. (r ≡ NoMemory) × (self.new ≡ self.old) × (0 < length string.now)) }
    {
        self.entries.insert_str(idx, string)?;
        Ok(())
    }

    /// Records that `string` was deleted from the byte place `idx`, from whichever side of the cursor: an
    /// alphanumeric grapheme cluster joins the last entry, if that is a deletion that it stood right after, or
    /// right before. An empty one is no entry.
    pub fn delete(&mut self, idx: usize, string: &str) -> Result<(), Refusal>
        ensures done { OnOk result (self.new ≡ record_step self.old (Delete idx string.now Forward)) }
        ensures err { IfErr result (λ r. (r ≡ NoMemory) × (self.new ≡ self.old) × (0 < length string.now)) }
    {
        self.entries.delete(idx, string)?;
        Ok(())
    }

    /// Records that `old`, which stood at the byte place `idx`, was replaced by `new`: it joins the last entry, if
    /// that is a replacement that ends there.
    pub fn replace(&mut self, idx: usize, old: &str, new: &str) -> Result<(), Refusal>
        ensures done { OnOk result (self.new ≡ record_step self.old (Replace idx old.now new.now)) }
        ensures err { IfErr result (λ r. (r ≡ NoMemory) × (self.new ≡ self.old)) }
    {
        self.entries.replace(idx, old, new)?;
        Ok(())
    }

    // What is recorded, and what waits to be redone. Inlined, since a large caller would else keep two calls in each redo.
    #[inline(always)]
    fn recorded(&self) -> &[Change]
        ensures entries { map entry_of result.now ≡ self.now.recorded }
        ensures matched { IsMatched (map entry_of result.now) }
    {
        self.entries.recorded()
    }

    #[inline(always)]
    fn pending(&self) -> &[Change]
        ensures entries { map entry_of result.now ≡ self.now.pending }
        ensures matched { IsMatched (map entry_of result.now) }
    {
        self.entries.pending()
    }

    /// Keeps the first `len` entries, all if there are fewer, and drops the others and what was undone. A
    /// group that loses its end is open again.
    #[tactic(auto, using(crate::proofs::Records::LevelLemmas::levels))]
    pub fn truncate(&mut self, len: usize)
        ensures { self.new ≡ truncated len self.old }
    {
        self.level = units::level_at(self.entries.recorded(), len, self.level);
        self.entries.truncate(len);
    }

    /// Forgets the oldest changes and closed groups, one after another, as long as more than `entries` entries are
    /// recorded, or as their texts, old and new, have more than `bytes` bytes; `usize::MAX` is no bound. It never forgets
    /// a part of a group: it stops at the begin of an open one. What was undone stays, and an undo goes back to the text
    /// with which the rest begins. It takes no memory, and time for what it forgets and what was recorded since the last call.
    // Inlined, so that it is two comparisons without a bound. If nothing is left recorded, the next change joins nothing, and
    // cursors that are told go to none, whatever `fresh` says.
    #[inline(always)]
    #[tactic(auto, using(crate::proofs::Records::ForgettingLemmas::none_forgotten))]
    pub fn forget(&mut self, entries: usize, bytes: usize)
        ensures { self.new ≡ forgotten entries bytes self.old }
    {
        let len = self.entries.len();
        if entries == usize::MAX && bytes == usize::MAX {
            return;
        }
        if len <= entries && bytes == usize::MAX {
            return;
        }
        self.forget_oldest(entries, bytes);
    }

    // Forgets what is beyond the bound, if anything is.
    #[inline(never)]
    fn forget_oldest(&mut self, entries: usize, bytes: usize)
        ensures { self.new ≡ forgotten entries bytes self.old }
    {
        self.entries.forget(self.level, entries, bytes);
    }
}

#[tactic(auto, using(crate::proofs::Records::JoinLemmas::alone))]
impl DeleteListener for Changeset {
    ghost use Rattle.rl_record.specs.Record.{record_refused, record_step};

    ghost step = { record_step };

    ghost refused = { record_refused };

    fn start_killing(&mut self) {}

    fn delete(&mut self, idx: usize, string: &str, _dir: Direction) -> Result<(), Refusal> {
        Changeset::delete(self, idx, string)
    }

    fn stop_killing(&mut self) {}

    #[inline(always)]
    fn cursors(&mut self, before: usize, after: usize) {
        self.entries.tell(before, after);
    }
}

impl ChangeListener for Changeset {
    #[inline(always)]
    fn insert_char(&mut self, idx: usize, c: char) -> Result<(), Refusal> {
        self.insert(idx, c)
    }

    fn insert_str(&mut self, idx: usize, string: &str) -> Result<(), Refusal> {
        Changeset::insert_str(self, idx, string)
    }

    fn replace(&mut self, idx: usize, old: &str, new: &str) -> Result<(), Refusal> {
        Changeset::replace(self, idx, old, new)
    }
}
