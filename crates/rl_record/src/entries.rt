//! The entries of a record, and its save point.
ghost use Rattle.std.specs.Prelude.{◌≡◌, ◌+◌, ◌^◌, ◌≤◌, ◌<◌, ◌-◌, ◌++◌, All, length, map, take, replicate, true, false, None, IfSome};
ghost use Rattle.std.specs.Vec.{vec_len, vec_capacity};
ghost use Rattle.rl_record.specs.declared.joining.Freshness.TheVariants.{Parted, Stale};
ghost use Rattle.rl_record.specs.Forgetting.{blanked, past_front};
ghost use Rattle.rl_line.specs.Entry.{End, IsOfKind, change_count, entry_of, is_change};
ghost use Rattle.rl_record.specs.Record.{IsApart, freshness_at, gone_on, is_at, is_saved, kept_point, no_changes, parted, point_past, saved_here};
ghost use Rattle.rl_record.specs.Units.{adds_end, ends_in_end, truncated};
ghost use Rattle.rl_record.specs.Entries.{cut_at, cut_to};

mod groups;
mod recording;

use crate::joining::Freshness;
pub(crate) use groups::{adds_end, ends_in_end};
use rl_line::change::Change;
use std::alloc::Global;
use std::marker::Model;

/// The entries of a record: those that are recorded, and after them those that were undone, the one that is redone next
/// first. So an undo and a redo move no entry.
#[derive(Drop)]
pub(crate) struct Entries {
    list: Vec<Change>,
    // How many of them are recorded.
    recorded: usize,
    // How many of these are changes.
    changes: usize,
    // Whether the last recorded change may still be told its cursors, and joined.
    fresh: Freshness,
    // How many changes were recorded when the text was saved, while these are in the list.
    saved: Option<usize>,
}

impl Model for Entries {
    ghost use Rattle.std.specs.Prelude.{◌≤◌, length, map};
    ghost use Rattle.rl_record.specs.Record.{Record};
    ghost use Rattle.rl_line.specs.Entry.{entry_of};
    ghost use Rattle.rl_record.specs.Entries.{StandsAt, cut_at};

    ghost Value = { Record };

    ghost view = { λ e. cut_at e.recorded (map entry_of e.list.items) e.fresh e.saved };

    ghost invariant = { λ e. (e.recorded ≤ length e.list.items) × StandsAt e.changes (cut_at e.recorded (map entry_of e.list.items) e.fresh e.saved) };
}

impl Entries {
    pub(crate) fn new(alloc: Global) -> Self
        ensures { result ≡ no_changes }
    {
        Entries {
            list: Vec::new(alloc),
            recorded: 0,
            changes: 0,
            fresh: Freshness::Stale,
            saved: None,
        }
    }

    /// A list of entries, of which the first are recorded. None if it has fewer, if the save point is past them, or if they
    /// stand there and are not parted.
    pub(crate) fn of(
        list: Vec<Change>,
        recorded: usize,
        fresh: Freshness,
        saved: Option<usize>,
    ) -> Option<Self>
        ensures some { IfSome result (λ entries. entries ≡ cut_at recorded (map entry_of list.items) fresh saved) }
        ensures none { result ≡ None → recorded ≤ length list.items → ¬ ((kept_point (change_count (map entry_of list.items)) saved ≡ saved) × IsApart (cut_at recorded (map entry_of list.items) fresh saved)) }
    {
        if recorded > list.len() || saved.unwrap_or(0) > count_changes(&list) {
            return None;
        }
        let changes = count_changes(&list[..recorded]);
        if !is_apart(changes, saved, fresh) {
            return None;
        }
        Some(Entries {
            list,
            recorded,
            changes,
            fresh,
            saved,
        })
    }

    pub(crate) fn allocator(&self) -> Global {
        *self.list.allocator()
    }

    /// How many are recorded.
    pub(crate) fn len(&self) -> usize
        ensures len { result ≡ length self.now.recorded }
        ensures small { length self.now.recorded + length self.now.pending < 2 ^ 63 }
    {
        // So the proof knows how long the list can be.
        let _all = self.list.len();
        self.recorded
    }

    /// How many changes are recorded.
    pub(crate) fn changes(&self) -> usize
        ensures { result ≡ change_count self.now.recorded }
    {
        self.changes
    }

    pub(crate) fn fresh(&self) -> Freshness
        ensures { result ≡ self.now.fresh }
    {
        self.fresh
    }

    /// After how many changes the text was saved.
    pub(crate) fn saved(&self) -> Option<usize>
        ensures saved { result ≡ self.now.saved }
        ensures within { kept_point (change_count (self.now.recorded ++ self.now.pending)) self.now.saved ≡ self.now.saved }
        ensures apart { IsApart self.now }
    {
        self.saved
    }

    /// Those that are recorded, and after them those that wait to be redone.
    pub(crate) fn all(&self) -> &[Change]
        ensures { map entry_of result.now ≡ self.now.recorded ++ self.now.pending }
    {
        self.list.as_slice()
    }

    #[inline(always)]
    #[tactic(auto, using(crate::proofs::Records::MoveLemmas::parts_of_lists))]
    pub(crate) fn recorded(&self) -> &[Change]
        ensures { map entry_of result.now ≡ self.now.recorded }
    {
        &self.list[..self.recorded]
    }

    #[inline(always)]
    #[tactic(auto, using(crate::proofs::Records::MoveLemmas::parts_of_lists))]
    pub(crate) fn pending(&self) -> &[Change]
        ensures { map entry_of result.now ≡ self.now.pending }
    {
        &self.list[self.recorded..]
    }

    /// An insertion takes nothing out, and a deletion puts nothing in.
    pub(crate) fn of_kind(&self)
        ensures { All IsOfKind self.now.recorded × All IsOfKind self.now.pending }
    {
        let _list = &self.list;
    }

    /// Parts what comes from what is recorded: the next event that records a change joins nothing.
    pub(crate) fn part(&mut self)
        ensures { self.new ≡ parted self.old }
    {
        self.fresh = Freshness::Parted;
    }

    /// The next event may join the last change as `fresh` says, unless the text is saved there. No cursors are told.
    pub(crate) fn go_on(&mut self, fresh: Freshness)
        ensures { self.new ≡ gone_on fresh self.old }
    {
        self.fresh = fresh.told();
        if is_at(self.changes, self.saved) {
            self.fresh = Freshness::Parted;
        }
    }

    /// Marks the text as saved here, and parts what comes from it.
    pub(crate) fn set_saved(&mut self)
        ensures { self.new ≡ saved_here self.old }
    {
        self.saved = Some(self.changes);
        self.fresh = Freshness::Parted;
    }

    /// Whether the record stands where its text was saved, marks aside.
    pub(crate) fn is_saved(&self) -> bool
        ensures { result ≡ is_saved self.now }
    {
        is_at(self.changes, self.saved)
    }

    /// Makes the first `recorded` entries those that are recorded, of which so many are changes. The others wait to be redone.
    #[inline(always)]
    pub(crate) fn cut(&mut self, recorded: usize, changes: usize)
        requires within { recorded ≤ length self.old.recorded + length self.old.pending }
        requires counted { changes ≡ change_count (take recorded (self.old.recorded ++ self.old.pending)) }
        ensures { self.new ≡ cut_to recorded (self.old.recorded ++ self.old.pending) self.old.saved }
    {
        self.recorded = recorded;
        self.changes = changes;
        self.fresh = freshness_at(changes, self.saved);
    }

    /// Keeps the first `len` of the recorded entries alone.
    pub(crate) fn truncate(&mut self, len: usize)
        ensures { self.new ≡ truncated len self.old }
    {
        let len = len.min(self.recorded);
        let left = self.changes - count_changes(&self.list[len..self.recorded]);
        keep(&mut self.list, &mut self.saved, len, left);
        self.recorded = len;
        self.changes = left;
        self.fresh = freshness_at(left, self.saved);
    }

    /// Makes an End of a recorded entry, whose texts are dropped. A change goes before the save point, too.
    pub(crate) fn blank(&mut self, at: usize)
        requires { at < length self.old.recorded }
        ensures { self.new ≡ blanked at self.old }
    {
        let gone = count_changes(&self.list[at..at + 1]);
        self.changes -= gone;
        self.saved = point_past(self.saved, gone);
        self.list[at] = Change::End;
    }

    /// Drops the first `count` entries, which are Ends. The others move once.
    pub(crate) fn drop_first(&mut self, count: usize)
        requires { take count self.old.recorded ≡ replicate count End }
        ensures { self.new ≡ past_front count self.old }
    {
        if count > 0 {
            self.list.drain(..count);
            self.recorded -= count;
        }
    }
}

/// Keeps the first `len` entries, which have so many changes, and the save point if it is in them. Mostly these are all, and
/// then it costs no call.
#[inline(always)]
#[tactic(auto, using(crate::proofs::Records::EntryLemmas::at_the_end))]
fn keep(entries: &mut Vec<Change>, saved: &mut Option<usize>, len: usize, changes: usize)
    requires counted { changes ≡ change_count (take len (map entry_of entries.old.items)) }
    requires point { kept_point (change_count (map entry_of entries.old.items)) saved.old ≡ saved.old }
    ensures items { map entry_of entries.new.items ≡ take len (map entry_of entries.old.items) }
    ensures saved { saved.new ≡ kept_point changes saved.old }
    ensures len { vec_len entries.new ≤ vec_len entries.old }
    ensures capacity { vec_capacity entries.new ≡ vec_capacity entries.old }
{
    if len < entries.len() {
        entries.truncate(len);
        *saved = kept_point(*saved, changes);
    }
}

/// How many of the entries are changes.
#[tactic(auto, using(crate::proofs::Records::PointLemmas::counts))]
pub(crate) fn count_changes(entries: &[Change]) -> usize
    ensures count { result ≡ change_count (map entry_of entries.now) }
    ensures within { result ≤ length entries.now }
{
    let mut count = 0;
    for entry in entries {
        if entry.is_change() {
            count += 1;
        }
    }
    count
}

/// The save point, if no more than `len` changes stand before it.
fn kept_point(saved: Option<usize>, len: usize) -> Option<usize>
    ensures { result ≡ kept_point len saved }
{
    match saved {
        Some(at) if at <= len => saved,
        _ => None,
    }
}

/// The save point once the first `count` changes are gone.
fn point_past(saved: Option<usize>, count: usize) -> Option<usize>
    ensures { result ≡ point_past count saved }
{
    saved?.checked_sub(count)
}

/// Whether so many changes stand before the save point.
fn is_at(len: usize, saved: Option<usize>) -> bool
    ensures { result ≡ is_at len saved }
{
    match saved {
        Some(at) => at == len,
        None => false,
    }
}

/// Whether a record with so many changes is parted, if it stands at its save point.
fn is_apart(changes: usize, saved: Option<usize>, fresh: Freshness) -> bool
    ensures apart { result ≡ true → is_at changes saved ≡ true → fresh ≡ Parted }
    ensures joins { result ≡ false → ¬ (is_at changes saved ≡ true → fresh ≡ Parted) }
{
    if fresh.is_parted() {
        return true;
    }
    !is_at(changes, saved)
}

/// How a record that came to so many changes may go on: at its save point no change joins what was saved.
fn freshness_at(len: usize, saved: Option<usize>) -> Freshness
    ensures { result ≡ freshness_at len saved }
{
    if is_at(len, saved) {
        return Freshness::Parted;
    }
    Freshness::Stale
}

/// The first entries, all if there are fewer.
#[tactic(auto, using(crate::proofs::Records::MoveLemmas::parts_of_lists))]
pub(crate) fn first(entries: &[Change], len: usize) -> &[Change]
    ensures { map entry_of result.now ≡ take len (map entry_of entries.now) }
{
    &entries[..len.min(entries.len())]
}
