//! An entry of a record, and how a text goes over it.
ghost use Rattle.std.specs.Prelude.{◌≡◌, [], ◌∷◌, None, Some, true, false, OnErr, IfOk, IfErr, ◌+◌, ◌-◌, ◌<◌, ◌≤◌, is_some, length, nat_le};
ghost use Rattle.std.specs.String.{string_bytes};
ghost use Rattle.std.specs.Str.{IsUtf8};
ghost use Rattle.rl_base.specs.Event.{Replace, apply};
ghost use Rattle.rl_base.specs.declared.listeners.Refusal.TheVariants.{NoMemory};
ghost use Rattle.rl_line.specs.Plan.{NeverRefuses, listener_after};
ghost use Rattle.rl_line.specs.Entry.{cursors_of, entry_of, event_of, inverse, is_change, new_text, old_text, with_cursors, flipped, swapped, is_begin, is_end};
ghost use Rattle.rl_line.specs.Going.{cursor_after, cursor_told, cursor_stands, steps_ahead};
ghost use Rattle.rl_line.specs.Retrace.{walk_after};
ghost use Rattle.rl_line.specs.Change.{text_after, place, entry_to_undo, greatest_back_over, way_back};

mod over;

use crate::inserted::Inserted;
use crate::patched::{Patched, leads_by};
pub(crate) use over::{find_room_over, nth_on};
pub use over::{has_change, keeps_to, patch_over, retraces, text_over};
use rl_base::{ChangeListener, Gathered, Refusal};
use std::alloc::Global;

/// An entry of a record: the begin or the end of a group, or one change of a text: its cursors, its byte place, and
/// what was put in, taken out, or both. The cursors come first, so that they lie at the same offset in each kind.
#[derive(Drop)]
pub enum Change {
    Begin,
    End,
    Insert(Cursors, usize, Inserted),
    Delete(Cursors, usize, Gathered),
    Replace(Cursors, usize, Box<Texts>),
}

/// The text that a replacement took out, and the one that it put in. They are boxed, so that they make no entry longer.
#[derive(Drop)]
pub struct Texts {
    pub before: String,
    pub after: String,
}

/// The byte places of the cursor before a change and after it, if they were told.
pub type Cursors = Option<(usize, usize)>;

/// The two ways over a record: its changes are taken back, or made again.
#[derive(Clone, Copy)]
pub enum Way {
    Back,
    Ahead,
}

impl Way {
    fn back(self) -> Way
        ensures { result ≡ way_back self }
    {
        match self {
            Way::Back => Way::Ahead,
            Way::Ahead => Way::Back,
        }
    }
}

impl Change {
    /// Whether it is a change, not a mark of a group.
    pub fn is_change(&self) -> bool
        ensures { result ≡ is_change (entry_of self.now) }
    {
        match self {
            Change::Begin | Change::End => false,
            Change::Insert(_, _, _) | Change::Delete(_, _, _) | Change::Replace(_, _, _) => true,
        }
    }

    /// Whether it opens a group.
    pub fn is_begin(&self) -> bool
        ensures { result ≡ is_begin (entry_of self.now) }
    {
        match self {
            Change::Begin => true,
            Change::End
            | Change::Insert(_, _, _)
            | Change::Delete(_, _, _)
            | Change::Replace(_, _, _) => false,
        }
    }

    /// Whether it closes a group.
    pub fn is_end(&self) -> bool
        ensures { result ≡ is_end (entry_of self.now) }
    {
        match self {
            Change::End => true,
            Change::Begin
            | Change::Insert(_, _, _)
            | Change::Delete(_, _, _)
            | Change::Replace(_, _, _) => false,
        }
    }

    /// The change that takes this one back; a mark stays.
    pub fn inverse(&self, alloc: Global) -> Result<Change, Refusal>
        ensures ok { IfOk result (λ change. entry_of change ≡ inverse (entry_of self.now)) }
        ensures err { IfErr result (λ r. r ≡ NoMemory) }
    {
        match self {
            Change::Begin => Ok(Change::Begin),
            Change::End => Ok(Change::End),
            Change::Insert(cursors, at, new) => {
                let old = Gathered::of(alloc, new.as_str())?;
                Ok(Change::Delete(swapped(*cursors), *at, old))
            }
            Change::Delete(cursors, at, old) => {
                let new = Inserted::of_str(alloc, old.as_str())?;
                Ok(Change::Insert(swapped(*cursors), *at, new))
            }
            Change::Replace(cursors, at, texts) => {
                let before = copied(alloc, texts.after.as_str())?;
                let after = copied(alloc, texts.before.as_str())?;
                let texts = Box::new(alloc, Texts { before, after })?;
                Ok(Change::Replace(swapped(*cursors), *at, texts))
            }
        }
    }

    /// The other mark of a group; a change stays.
    pub fn flipped(self) -> Change
        ensures { entry_of result ≡ flipped (entry_of self) }
    {
        match self {
            Change::Begin => Change::End,
            Change::End => Change::Begin,
            change => change,
        }
    }

    /// The byte place of a change.
    pub fn place(&self) -> Option<usize>
        ensures { result ≡ place (entry_of self.now) }
    {
        match self {
            Change::Begin | Change::End => None,
            Change::Insert(_, at, _) | Change::Delete(_, at, _) | Change::Replace(_, at, _) => Some(
                *at,
            ),
        }
    }

    /// The text that goes out at the place this way, and the one that comes in. Inlined: the compiler knows the way.
    #[inline(always)]
    pub fn texts(&self, way: Way) -> (&str, &str)
        ensures going { result.0.now ≡ new_text (entry_to_undo way self.now) }
        ensures coming { result.1.now ≡ old_text (entry_to_undo way self.now) }
        ensures utf8 { IsUtf8 result.1.now }
    {
        let (old, new) = match self {
            Change::Begin | Change::End => ("", ""),
            Change::Insert(_, _, new) => ("", new.as_str()),
            Change::Delete(_, _, old) => (old.as_str(), ""),
            Change::Replace(_, _, texts) => (texts.before.as_str(), texts.after.as_str()),
        };
        match way {
            Way::Back => (new, old),
            Way::Ahead => (old, new),
        }
    }

    /// Whether a text of `len` bytes keeps to a limit over the change. Inlined too.
    #[inline(always)]
    pub fn keeps_to(&self, way: Way, len: usize, limit: usize) -> bool
        requires { len ≤ limit }
        ensures { result ≡ nat_le (greatest_back_over (entry_to_undo way self.now ∷ []) len) limit }
    {
        let (going, coming) = self.texts(way);
        coming.len() <= limit - len.saturating_sub(going.len())
    }

    /// Where the cursor goes this way, if it was told.
    pub(crate) fn cursor_over(&self, way: Way) -> Option<usize>
        ensures { result ≡ cursor_told (inverse (entry_to_undo way self.now)) }
    {
        let (before, after) = self.cursors()?;
        match way {
            Way::Back => Some(before),
            Way::Ahead => Some(after),
        }
    }

    /// The cursors of a change, if they were told.
    pub fn cursors(&self) -> Cursors
        ensures { result ≡ cursors_of (entry_of self.now) }
    {
        match self {
            Change::Begin | Change::End => None,
            Change::Insert(cursors, _, _)
            | Change::Delete(cursors, _, _)
            | Change::Replace(cursors, _, _) => *cursors,
        }
    }

    /// Tells a change its cursors. Inlined, with the test for an insertion, so that typing a letter costs no call here.
    #[inline(always)]
    pub fn tell(&mut self, told: (usize, usize))
        ensures { entry_of self.new ≡ with_cursors told (entry_of self.old) }
    {
        if let Change::Insert(cursors, _, _) = self {
            *cursors = Some(told);
            return;
        }
        self.tell_any(told);
    }

    #[inline(never)]
    fn tell_any(&mut self, told: (usize, usize))
        ensures { entry_of self.new ≡ with_cursors told (entry_of self.old) }
    {
        match self {
            Change::Begin | Change::End => {}
            Change::Insert(cursors, _, _) => *cursors = Some(told),
            Change::Delete(cursors, _, _) => *cursors = Some(told),
            Change::Replace(cursors, _, _) => *cursors = Some(told),
        }
    }

    // Whether the cursor stands between two characters of a text that went over the change, if that is asked and it was told.
    #[tactic(auto, using(crate::proofs::Changes::ChangeLemmas::over_one))]
    fn stands(&self, text: &Patched, way: Way, asks: bool) -> bool
        ensures { result ≡ cursor_stands asks (inverse (entry_to_undo way self.now)) text.now }
    {
        if !asks {
            return true;
        }
        match self.cursor_over(way) {
            Some(cursor) => text.is_boundary(cursor),
            None => true,
        }
    }

    // Goes over the change in a text, if it fits there. Answers whether it does.
    #[tactic(auto, using(crate::proofs::Changes::ChangeLemmas::over_one))]
    fn patch(&self, text: &mut Patched, way: Way) -> Result<bool, Refusal>
        ensures fits { IfOk result (λ fits. fits ≡ is_some (apply (event_of (inverse (entry_to_undo way self.now))) text.old)) }
        ensures done { IfOk result (λ fits. fits ≡ true → apply (event_of (inverse (entry_to_undo way self.now))) text.old ≡ Some text.new) }
        ensures err { IfErr result (λ r. (r ≡ NoMemory) × (0 < length text.old + length (old_text (entry_to_undo way self.now)))) }
    {
        match self.place() {
            Some(at) => {
                let (going, coming) = self.texts(way);
                text.swap(at, going, coming)
            }
            None => Ok(true),
        }
    }

    // Goes over the change in a text, if it fits there, and its cursors, if they were told, stand between two characters before
    // it and after. Answers whether all that is so.
    #[tactic(auto, using(crate::proofs::Changes::WalkLemmas::both_cursors))]
    fn walks(&self, text: &mut Patched, way: Way) -> Result<bool, Refusal>
        ensures walks { IfOk result (λ walks. walks ≡ is_some (walk_after (inverse (entry_to_undo way self.now)) text.old)) }
        ensures done { IfOk result (λ walks. walks ≡ true → walk_after (inverse (entry_to_undo way self.now)) text.old ≡ Some text.new) }
        ensures err { IfErr result (λ r. r ≡ NoMemory) }
    {
        if !self.stands(text, way.back(), true) {
            return Ok(false);
        }
        if !self.patch(text, way)? {
            return Ok(false);
        }
        Ok(self.stands(text, way, true))
    }

    // Whether a text can, if it goes over this change alone. It stays as it is, and nothing is copied.
    #[tactic(auto, using(crate::proofs::Changes::WalkLemmas::both_cursors))]
    fn walks_alone(&self, alloc: Global, text: &str, way: Way) -> bool
        ensures { result ≡ is_some (walk_after (inverse (entry_to_undo way self.now)) text.now) }
    {
        let now = Patched::new(alloc, text);
        if !self.stands(&now, way.back(), true) {
            return false;
        }
        self.leads(text, way)
    }

    /// Whether a text can go over the change, so that the cursor, if it was told, stands between two characters then. It looks
    /// only where the change and the cursor are.
    #[tactic(auto, using(crate::proofs::Changes::ChangeLemmas::over_one))]
    pub fn leads(&self, text: &str, way: Way) -> bool
        ensures { result ≡ is_some (text_after true (inverse (entry_to_undo way self.now)) text.now) }
    {
        let (going, coming) = self.texts(way);
        match self.place() {
            Some(at) => leads_by(text, at, going, coming, self.cursor_over(way)),
            None => true,
        }
    }
}

/// Tells a listener that a text gave way to another, and that the cursor went from `before` to `after`. Inlined, since an
/// undo of one change calls it.
#[inline(always)]
pub(crate) fn tell_swap<L: ChangeListener>(
    at: usize,
    going: &str,
    coming: &str,
    before: usize,
    after: usize,
    listener: &mut L,
)
    requires { NeverRefuses L.refused }
    ensures { listener.new ≡ listener_after L.step before ((Replace at going.now coming.now, after) ∷ []) listener.old }
{
    match listener.replace(at, going, coming) {
        Ok(()) => {}
        Err(_) => unreachable!(),
    }
    listener.cursors(before, after);
}

/// Tells a listener that a line went over a change, and its cursor from `before` to `after`; of a mark it is told
/// nothing.
pub(crate) fn tell_over<L: ChangeListener>(
    change: &Change,
    way: Way,
    before: usize,
    after: usize,
    listener: &mut L,
)
    requires hears { NeverRefuses L.refused }
    requires after { after ≡ cursor_after before (inverse (entry_to_undo way change.now)) }
    ensures { listener.new ≡ listener_after L.step before (steps_ahead before (inverse (entry_to_undo way change.now) ∷ [])) listener.old }
{
    let Some(at) = change.place() else {
        return;
    };
    let (going, coming) = change.texts(way);
    tell_swap(at, going, coming, before, after, listener);
}

// The same places the other way round.
fn swapped(cursors: Cursors) -> Cursors
    ensures { result ≡ swapped cursors }
{
    let (before, after) = cursors?;
    Some((after, before))
}

/// A copy of a text.
pub fn copied(alloc: Global, text: &str) -> Result<String, Refusal>
    ensures ok { IfOk result (λ copy. string_bytes copy ≡ text.now) }
    ensures err { IfErr result (λ r. r ≡ NoMemory) }
    ensures some { OnErr result (0 < length text.now) }
{
    if text.is_empty() {
        return Ok(String::new(alloc));
    }
    Ok(String::from_str(alloc, text)?)
}

/// Marks a way that is seldom gone, at no cost: without it, LLVM takes a letter that joins for what seldom comes, and
/// calls what it could inline.
#[cold]
#[inline(never)]
pub fn seldom() {}
