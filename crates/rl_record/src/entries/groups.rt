//! How groups of entries are opened, closed and kept.
ghost use Rattle.std.specs.Prelude.{◌≡◌, ◌+◌, ◌≤◌, ◌<◌, ◌-◌, [], ◌∷◌, ◌++◌, length, map, true, false, None, IfOk, IfErr, OnOk, OnErr, reverse};
ghost use Rattle.std.specs.Vec.{vec_len, vec_capacity};
ghost use Rattle.rl_base.specs.declared.listeners.Refusal.TheVariants.{NoMemory};
ghost use Rattle.rl_record.specs.declared.joining.Freshness.TheVariants.{Parted};
ghost use Rattle.rl_line.specs.Entry.{Begin, End, entry_of, flipped, inverse};
ghost use Rattle.rl_record.specs.Record.{freshness_at, parted, arrived};
ghost use Rattle.rl_record.specs.Units.{adds_end, begun, end_one, end_times, ends_in_begin, ends_in_end, grouped_from, still_waiting, with_closed, IsMatched, level, there_and_back};

use crate::entries::{Entries, count_changes, freshness_at, keep};
use crate::joining::Freshness;
use rl_base::Refusal;
use rl_line::change::Change;
use std::alloc::Global;

impl Entries {
    /// Makes a group of the recorded entries from `from` on, if nothing waits to be redone.
    pub(crate) fn group_from(&mut self, from: usize) -> Result<(), Refusal>
        requires within { from ≤ length self.old.recorded }
        requires all { self.old.pending ≡ [] }
        ensures done { OnOk result (self.new ≡ arrived (grouped_from from self.old.recorded) [] self.old.saved) }
        ensures err { IfErr result (λ r. (r ≡ NoMemory) × (self.new ≡ self.old)) }
    {
        self.list.reserve(2)?;
        put_marks(&mut self.list, from);
        self.recorded = self.list.len();
        self.fresh = freshness_at(self.changes, self.saved);
        Ok(())
    }

    /// Records a Begin before what waits to be redone.
    pub(crate) fn open_group(&mut self) -> Result<(), Refusal>
        ensures done { OnOk result (self.new ≡ still_waiting (self.old.recorded ++ Begin ∷ []) self.old) }
        ensures err { IfErr result (λ r. (r ≡ NoMemory) × (self.new ≡ self.old)) }
    {
        self.list.insert(self.recorded, Change::Begin)?;
        self.recorded += 1;
        self.fresh = freshness_at(self.changes, self.saved);
        Ok(())
    }

    /// Takes the last `count` recorded entries off, if these are Begins. What waits to be redone stays.
    pub(crate) fn drop_begins(&mut self, count: usize)
        requires { adds_end count self.old.recorded ≡ false }
        ensures { self.new ≡ still_waiting (end_times count self.old.recorded) self.old }
    {
        let left = self.recorded - count;
        self.list.drain(left..self.recorded);
        self.recorded = left;
        self.fresh = freshness_at(self.changes, self.saved);
    }

    /// Adds a Begin to the recorded entries. If it replaces one that was undone, there is room for it.
    pub(crate) fn begin(&mut self) -> Result<(), Refusal>
        ensures done { OnOk result (self.new ≡ begun self.old) }
        ensures err { IfErr result (λ r. (r ≡ NoMemory) × (self.new ≡ self.old)) }
        ensures full { OnErr result (self.old.pending ≡ []) }
    {
        if self.recorded == self.list.len() {
            self.list.reserve(1)?;
        }
        keep(&mut self.list, &mut self.saved, self.recorded, self.changes);
        match self.list.push(Change::Begin) {
            Ok(()) => {}
            Err(_) => unreachable!(),
        }
        self.recorded += 1;
        self.fresh = freshness_at(self.changes, self.saved);
        Ok(())
    }

    /// Closes so many groups, the one that was opened last first. Answers whether an End is added.
    pub(crate) fn close(&mut self, count: usize) -> Result<bool, Refusal>
        ensures done { IfOk result (λ answer. (answer ≡ adds_end count self.old.recorded) × (self.new ≡ with_closed count self.old)) }
        ensures err { IfErr result (λ r. (r ≡ NoMemory) × (self.new ≡ self.old) × (adds_end count self.old.recorded ≡ true)) }
    {
        let adds = adds_end(self.recorded(), count);
        find_ends(&mut self.list, adds, count)?;
        keep(&mut self.list, &mut self.saved, self.recorded, self.changes);
        close_groups(&mut self.list, count);
        self.recorded = self.list.len();
        self.fresh = freshness_at(self.changes, self.saved);
        Ok(adds)
    }

    /// Keeps what was undone, in which that many groups are open: it is recorded with these closed, and then the other way round.
    #[tactic(auto, using(crate::proofs::Records::KeepLemmas::keeps))]
    pub(crate) fn keep_undone(&mut self, groups: usize) -> Result<(), Refusal>
        requires matched { IsMatched self.old.pending }
        requires level { groups ≡ level self.old.pending }
        ensures done { OnOk result (self.new ≡ parted (arrived (self.old.recorded ++ there_and_back self.old.pending) [] self.old.saved)) }
        ensures err { IfErr result (λ r. (r ≡ NoMemory) × (self.new ≡ self.old)) }
    {
        let back = inverses(self.allocator(), self.pending(), groups)?;
        self.list.reserve(groups + back.len())?;
        self.changes += 2 * count_changes(self.pending());
        close_groups(&mut self.list, groups);
        push_turned(&mut self.list, back);
        self.recorded = self.list.len();
        self.fresh = Freshness::Parted;
        Ok(())
    }
}

/// Whether closing `count` groups adds an End: it does if one of them is not empty.
#[tactic(auto, using(crate::proofs::Records::EntryLemmas::at_the_end))]
pub(crate) fn adds_end(entries: &[Change], count: usize) -> bool
    ensures { result ≡ adds_end count (map entry_of entries.now) }
{
    let mut left = count;
    let mut at = entries.len();
    while left > 0 {
        if at == 0 {
            return true;
        }
        if !entries[at - 1].is_begin() {
            return true;
        }
        at -= 1;
        left -= 1;
    }
    false
}

/// Finds room for `count` Ends, if one is to be added.
fn find_ends(entries: &mut Vec<Change>, adds: bool, count: usize) -> Result<(), Refusal>
    ensures items { entries.new.items ≡ entries.old.items }
    ensures room { OnOk result (adds ≡ true → vec_len entries.new + count ≤ vec_capacity entries.new) }
    ensures err { IfErr result (λ r. (r ≡ NoMemory) × (adds ≡ true)) }
{
    if !adds {
        return Ok(());
    }
    entries.reserve(count)?;
    Ok(())
}

/// Closes `count` groups in a list that has room for as many Ends, if one is added.
fn close_groups(entries: &mut Vec<Change>, count: usize)
    requires room { adds_end count (map entry_of entries.old.items) ≡ true → vec_len entries.old + count ≤ vec_capacity entries.old }
    ensures entries { map entry_of entries.new.items ≡ end_times count (map entry_of entries.old.items) }
    ensures len { vec_len entries.new ≤ vec_len entries.old + count }
    ensures capacity { vec_capacity entries.old ≤ vec_capacity entries.new }
{
    for _ in 0..count {
        close_last(entries);
    }
}

// What takes the entries back, each in its place, once so many open groups are closed.
#[tactic(auto, using(crate::proofs::Records::KeepLemmas::keeps))]
fn inverses(alloc: Global, entries: &[Change], count: usize) -> Result<Vec<Change>, Refusal>
    ensures ok { IfOk result (λ made. map entry_of made.items ≡ map inverse (end_times count (map entry_of entries.now))) }
    ensures err { IfErr result (λ r. r ≡ NoMemory) }
{
    let mut made = Vec::new(alloc);
    for entry in entries {
        made.push(entry.inverse(alloc)?)?;
    }
    find_ends(&mut made, true, count)?;
    close_groups(&mut made, count);
    Ok(made)
}

// Adds entries in a list that has room for them, the last first, and each mark as the other one.
#[tactic(auto, using(crate::proofs::Records::KeepLemmas::keeps))]
fn push_turned(entries: &mut Vec<Change>, back: Vec<Change>)
    requires { vec_len entries.old + vec_len back ≤ vec_capacity entries.old }
    ensures items { map entry_of entries.new.items ≡ map entry_of entries.old.items ++ map flipped (reverse (map entry_of back.items)) }
{
    let mut back = back;
    while let Some(change) = back.pop() {
        match entries.push(change.flipped()) {
            Ok(()) => {}
            Err(_) => unreachable!(),
        }
    }
}

// Puts a Begin at a place, and an End behind all, in a list that has room for both.
#[tactic(auto, using(crate::proofs::Records::UnitingLemmas::marks_put))]
fn put_marks(entries: &mut Vec<Change>, from: usize)
    requires within { from ≤ length entries.old.items }
    requires room { vec_len entries.old + 2 ≤ vec_capacity entries.old }
    ensures { map entry_of entries.new.items ≡ grouped_from from (map entry_of entries.old.items) }
{
    match entries.insert(from, Change::Begin) {
        Ok(()) => {}
        Err(_) => unreachable!(),
    }
    match entries.push(Change::End) {
        Ok(()) => {}
        Err(_) => unreachable!(),
    }
}

// Closes the group that was opened last: removes a Begin at the end, or adds an End.
#[tactic(auto, using(crate::proofs::Records::EntryLemmas::at_the_end))]
fn close_last(entries: &mut Vec<Change>)
    requires { ends_in_begin (map entry_of entries.old.items) ≡ false → vec_len entries.old < vec_capacity entries.old }
    ensures entries { map entry_of entries.new.items ≡ end_one (map entry_of entries.old.items) }
    ensures len { vec_len entries.new ≤ vec_len entries.old + 1 }
    ensures capacity { vec_capacity entries.old ≤ vec_capacity entries.new }
{
    if ends_in_begin(entries) {
        entries.pop();
        return;
    }
    match entries.push(Change::End) {
        Ok(()) => {}
        Err(_) => unreachable!(),
    }
}

// Whether the last entry is a Begin.
#[tactic(auto, using(crate::proofs::Records::EntryLemmas::at_the_end))]
fn ends_in_begin(entries: &[Change]) -> bool
    ensures { result ≡ ends_in_begin (map entry_of entries.now) }
{
    match entries.last() {
        Some(last) => last.is_begin(),
        None => false,
    }
}

/// Whether the last entry is an End.
#[tactic(auto, using(crate::proofs::Records::EntryLemmas::at_the_end))]
pub(crate) fn ends_in_end(entries: &[Change]) -> bool
    ensures { result ≡ ends_in_end (map entry_of entries.now) }
{
    match entries.last() {
        Some(last) => last.is_end(),
        None => false,
    }
}
