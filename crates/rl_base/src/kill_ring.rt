//! The ring of killed texts, from which they are yanked back.
ghost use Rattle.std.specs.Prelude.{◌≡◌, ◌+◌, ◌<◌, ◌≤◌, Some, None, max, length, slice_get, option_map, MatchOption, IfErr, OnOk, ℕ, List, ◌∷◌, ◌++◌, false, true, take, reverse};
ghost use Rattle.std.specs.String.{string_bytes};
ghost use Rattle.std.specs.Borrow.{sem};
ghost use Rattle.rl_base.specs.declared.listeners.Refusal.TheVariants.{NoMemory};
ghost use Rattle.rl_base.specs.Gathered.{IsPackedAt, texts};
ghost use Rattle.rl_base.specs.KillRing.{Enlarges, IsRing, PutTakesMemory, Ring, back_from, behind, cleared, cut_to, fitting, index_before, join_at, joined, killed, new_index, new_ring, newest_first, next_index, put_at, reset, resized, ruled, text_back, with_newest, within_bytes, yank, yank_pop, yank_popped, yank_size, yanked};
ghost use Rattle.rl_base.specs.RingLends.{EndsAs};
ghost use Rattle.rl_base.specs.declared.kill_ring.Mode.{Mode};
ghost use Rattle.rl_base.specs.declared.kill_ring.NewKill.{NewKill};
ghost use Rattle.rl_base.specs.declared.kill_ring.NewKill.TheVariants.{AfterCurrent};
ghost use Rattle.rl_base.specs.KillGroups.{Doing, Kills, ring_done, group_done, no_groups, groups_of, AllKills, NoPops, all_joined};

mod saved;
mod slots;

use crate::gathered::Gathered;
use crate::kill_ring::slots::{Slots, index_back};
use crate::listeners::{DeleteListener, Direction, Refusal};
use std::alloc::Global;
use std::marker::Model;

/// Where a killed text is joined to the one that was killed right before it.
#[derive(Clone, Copy, Debug, PartialEq, Eq)]
pub enum Mode {
    /// At its end.
    Append,
    /// At its front.
    Prepend,
}

/// Where a new kill, one that joins no other, puts its text.
#[derive(Clone, Copy, Debug, PartialEq, Eq)]
pub enum NewKill {
    /// Right after the current text. After a `yank_pop` it may replace a newer text though the ring has room.
    AfterCurrent,
    /// Right after the newest text (GNU readline, Emacs). Only a full ring loses a text, its oldest.
    AfterNewest,
}

// What was done last. A yank keeps the length in bytes of the text that it lent.
#[derive(Clone, Copy)]
enum Action {
    Kill,
    Yank(usize),
    Other,
}

/// Killed texts, at most as many as its size (GNU readline: kill ring). Consecutive kills make one text.
/// One of the texts is the current one, which `yank` lends.
///
/// As a listener it keeps what is deleted while a kill is on. It can refuse only such a deletion, and only if the
/// ring would grow: never at size 0, and never an empty text that needs no new slot.
#[derive(Drop)]
pub struct KillRing {
    size: usize,
    rule: NewKill,
    slots: Slots,
    // Where the current text stands.
    index: usize,
    // Where the text stands that was begun last.
    newest: usize,
    last: Action,
    killing: bool,
}

impl Model for KillRing {
    ghost use Rattle.rl_base.specs.Gathered.{texts};
    ghost use Rattle.rl_base.specs.KillRing.{Ring, IsRing};

    ghost Value = { Ring };

    ghost view = { λ r. record { size = r.size; rule = r.rule; slots = texts r.slots.list.items; index = r.index; newest = r.newest; last = r.last; killing = r.killing } };

    ghost invariant = { λ r. IsRing (record { size = r.size; rule = r.rule; slots = texts r.slots.list.items; index = r.index; newest = r.newest; last = r.last; killing = r.killing }) };
}

impl KillRing {
    /// An empty ring that holds up to `size` texts, by the rule `NewKill::AfterCurrent`. It takes no memory.
    pub fn new(alloc: Global, size: usize) -> Self
        ensures { result ≡ new_ring size }
    {
        KillRing {
            size,
            rule: NewKill::AfterCurrent,
            slots: Slots::new(alloc),
            index: 0,
            newest: 0,
            last: Action::Other,
            killing: false,
        }
    }

    /// Sets where a new kill puts its text. The texts stay.
    pub fn set_new_kill(&mut self, rule: NewKill)
        ensures { self.new ≡ ruled rule self.old }
    {
        self.rule = rule;
    }

    /// Sets how many texts it keeps at most. Beyond that the oldest go, and the current text stays the current one. If
    /// it went, or there was none, the newest is current, nothing was done last, and the next kill begins a new text.
    /// Setting the size that it has changes nothing. It takes no memory.
    pub fn set_size(&mut self, size: usize)
        ensures { self.new ≡ resized size self.old }
    {
        if size == self.size {
            return;
        }
        self.leave(size);
        self.size = size;
    }

    /// Puts a killed text into the ring (GNU readline: kill-line and its like). Right after another kill it is joined
    /// to that kill's text, at the side that `dir` says. Else it goes right after the current text, or after the newest
    /// if `set_new_kill` chose so, replaces one that stands there, and becomes the current one. Refused only if memory is
    /// out, and then it changes nothing. Never refused if the ring would not grow: at size 0, which keeps no text, and an
    /// empty text that needs no new slot.
    #[tactic(auto, using(crate::proofs::Ring::RingLemmas::written))]
    pub fn kill(&mut self, text: &str, dir: Mode) -> Result<(), Refusal>
        ensures done { OnOk result (self.new ≡ killed text.now dir self.old) }
        ensures err { IfErr result (λ r. (r ≡ NoMemory) × (self.new ≡ self.old) × Enlarges text.now dir self.old) }
    {
        if self.size == 0 {
            self.last = Action::Kill;
            return Ok(());
        }
        if let Action::Kill = self.last {
            self.slots.join_text(self.index, text, dir)?;
            return Ok(());
        }
        let index = self.new_index();
        self.slots.put(index, text)?;
        self.index = index;
        self.newest = index;
        self.last = Action::Kill;
        Ok(())
    }

    // The index of the next new slot.
    fn new_index(&self) -> usize
        ensures { result ≡ new_index self.now }
    {
        match self.rule {
            NewKill::AfterCurrent => next_index(self.size, self.index, self.slots.all()),
            NewKill::AfterNewest => next_index(self.size, self.newest, self.slots.all()),
        }
    }

    /// Says that something other than a kill or a yank was done, so that the next kill begins a new text. The
    /// texts stay.
    pub fn reset(&mut self)
        ensures { self.new ≡ reset self.old }
    {
        self.last = Action::Other;
    }

    /// Drops all texts, and frees them. Size and rule stay, and the next kill begins a new text.
    pub fn clear(&mut self)
        ensures { self.new ≡ cleared self.old }
    {
        self.reset();
        self.slots.clear();
        self.index = 0;
        self.newest = 0;
    }

    /// Drops its oldest texts as long as all together have more than `bytes` bytes; `usize::MAX` is no bound. It costs a
    /// comparison if all fit. The current text stays the current one. If it went, the newest is current, nothing was done last, and the
    /// next kill begins a new text. It takes no memory.
    #[inline(always)]
    pub fn forget(&mut self, bytes: usize)
        ensures { self.new ≡ within_bytes bytes self.old }
    {
        if self.slots.bytes() > bytes {
            self.forget_oldest(bytes);
        }
    }

    // Drops the oldest texts, of which some do not fit.
    #[inline(never)]
    fn forget_oldest(&mut self, bytes: usize)
        ensures { self.new ≡ cut_to bytes self.old }
    {
        let kept = self.slots.fitting_len(bytes, self.newest);
        if kept == self.slots.len() {
            return;
        }
        self.leave(kept);
    }

    // Keeps so many texts from the newest back, or all. They stand from the first slot on then, the oldest first, so
    // that new texts go after them while there is room.
    fn leave(&mut self, kept: usize)
        ensures { self.new ≡ with_newest kept self.old }
    {
        let back = behind(self.newest, self.index, self.slots.len());
        self.slots.keep_newest(self.newest, kept);
        let left = self.slots.len();
        self.newest = left.saturating_sub(1);
        if back < left {
            self.index = self.newest - back;
            return;
        }
        (self.index, self.last) = (self.newest, Action::Other);
    }

    /// The current text, `None` if there is none (GNU readline: yank): the one that was killed last, or that
    /// `yank_pop` came to. Its length in bytes is kept for `yank_pop`.
    pub fn yank(&mut self) -> Option<&String>
        ensures* moved { sem 𝓛 (EndsAs self.entry (yanked self.old)) }
        ensures value { MatchOption result (yank self.old ≡ None) (λ s. yank self.old ≡ Some (string_bytes s.now)) }
    {
        if let Some(size) = self.slots.pack_at(self.index) {
            self.last = Action::Yank(size);
        }
        self.slots.text_at(self.index)
    }

    /// Right after a `yank` or another `yank_pop`, goes to the text before the current one, or from the first
    /// to the last (GNU readline: yank-pop). Answers the length in bytes of the text that was yanked, and the
    /// text that is to replace it. `None` after anything else.
    pub fn yank_pop(&mut self) -> Option<(usize, &String)>
        ensures* moved { sem 𝓛 (EndsAs self.entry (yank_popped self.old)) }
        ensures value { MatchOption result (yank_pop self.old ≡ None) (λ s. yank_pop self.old ≡ Some (s.0, string_bytes s.1.now)) }
    {
        let Action::Yank(size) = self.last else {
            return None;
        };
        self.reset();
        self.index = index_before(self.index, self.slots.all());
        let slot = self.yank()?;
        Some((size, slot))
    }

    /// How many texts it keeps at most.
    pub fn size(&self) -> usize
        ensures { result ≡ self.now.size }
    {
        self.size
    }

    /// Where a new kill puts its text.
    pub fn new_kill(&self) -> NewKill
        ensures { result ≡ self.now.rule }
    {
        self.rule
    }

    /// How many texts it holds.
    pub fn len(&self) -> usize
        ensures { result ≡ length self.now.slots }
    {
        self.slots.len()
    }

    /// The text that is `back` texts before the current one, round the ring: 0 is the one that a yank gives, 1 the one
    /// that a `yank_pop` would come to next, and so on. `None` from `len` on. It takes no memory.
    pub fn text_back(&self, back: usize) -> Option<&str>
        ensures { MatchOption result (text_back back self.now ≡ None) (λ s. text_back back self.now ≡ Some s.now) }
    {
        let at = index_back(self.index, back, self.slots.all())?;
        match self.slots.all().get(at) {
            Some(slot) => Some(slot.as_str()),
            None => None,
        }
    }

    /// The length in bytes of the text that was yanked, if a `yank` or `yank_pop` was the last thing done.
    pub fn yank_size(&self) -> Option<usize>
        ensures size { result ≡ yank_size self.now }
        ensures ring { IsRing self.now }
    {
        match self.last {
            Action::Yank(size) => Some(size),
            Action::Kill | Action::Other => None,
        }
    }
}

impl DeleteListener for KillRing {
    ghost use Rattle.rl_base.specs.KillRing.{ring_step, ring_refused};

    ghost step = { ring_step };

    ghost refused = { ring_refused };

    fn start_killing(&mut self) {
        self.killing = true;
    }

    fn delete(&mut self, _idx: usize, string: &str, dir: Direction) -> Result<(), Refusal> {
        if !self.killing {
            return Ok(());
        }
        match dir {
            Direction::Forward => self.kill(string, Mode::Append)?,
            Direction::Backward => self.kill(string, Mode::Prepend)?,
        }
        Ok(())
    }

    fn stop_killing(&mut self) {
        self.killing = false;
    }

    fn cursors(&mut self, _before: usize, _after: usize) {}
}

// The index after another, round a ring of a size.
fn next_index(size: usize, index: usize, slots: &[Gathered]) -> usize
    requires { index < max 1 (length slots.now) }
    ensures { result ≡ next_index size index (texts slots.now) }
{
    if index + 1 == size {
        return 0;
    }
    if slots.is_empty() { index } else { index + 1 }
}

// The index of the slot before.
fn index_before(index: usize, slots: &[Gathered]) -> usize
    ensures { result ≡ index_before index (texts slots.now) }
{
    if index == 0 {
        return slots.len().saturating_sub(1);
    }
    index - 1
}

// How many slots the one at an index stands before the newest, round the ring.
fn behind(newest: usize, index: usize, slots: usize) -> usize
    requires { index ≤ slots }
    ensures { result ≡ behind newest index slots }
{
    if index <= newest {
        return newest - index;
    }
    newest + (slots - index)
}

/// Whatever is done with a new ring but `forget` and `set_size`, and if no kill is refused, it holds the latest groups
/// of consecutive kills since it was cleared, as many as it has room for. If new kills go after the current text, that
/// is so until the first `yank_pop`; if they go after the newest, always. A yank gives the newest, right after a kill
/// and as long as there was no `yank_pop`. Consecutive kills are one group: their texts, joined.
#[tactic(auto, using(crate::proofs::Ring::KillGroupLemmas::grouping))]
pub fn ring_holds_groups()
    ensures last { (size : ℕ) (rule : NewKill) (doings : List Doing) → 0 < size → (rule ≡ AfterCurrent → NoPops doings)
        → newest_first (ring_done doings (ruled rule (new_ring size))) ≡ take size (groups_of doings) }
    ensures current { (size : ℕ) (rule : NewKill) (doings : List Doing) → NoPops doings
        → (ring_done doings (ruled rule (new_ring size))).index ≡ (ring_done doings (ruled rule (new_ring size))).newest }
    ensures newest { (size : ℕ) (rule : NewKill) (doings : List Doing) → 0 < size → NoPops doings
        → yank (ring_done doings (ruled rule (new_ring size))) ≡ slice_get (groups_of doings) 0 }
    ensures killed { (size : ℕ) (rule : NewKill) (doings : List Doing) → 0 < size → (rule ≡ AfterCurrent → NoPops doings)
        → (group_done doings no_groups).growing ≡ true → yank (ring_done doings (ruled rule (new_ring size))) ≡ slice_get (groups_of doings) 0 }
    ensures none { (rule : NewKill) (doings : List Doing) → yank (ring_done doings (ruled rule (new_ring 0))) ≡ None }
    ensures groups { (doings kills : List Doing) (text : List ℕ) (mode : Mode) → (group_done doings no_groups).growing ≡ false → AllKills kills
        → groups_of (doings ++ (Kills text mode ∷ kills)) ≡ all_joined text kills ∷ groups_of doings }
{}

/// The texts of a ring are those that yanks give: the first is what a yank gives, and if there is another, each
/// `yank_pop` goes one further back.
#[tactic(auto, using(crate::proofs::Ring::SlotLemmas::going_back))]
pub fn texts_back_are_yanked()
    ensures yank { (r : Ring) → IsRing r → text_back 0 r ≡ yank r }
    ensures yank_pop { (r : Ring) (size back : ℕ) → IsRing r → yank_size r ≡ Some size → back + 1 < length r.slots
        → text_back back (yank_popped r) ≡ text_back (back + 1) r }
    ensures none { (r : Ring) (back : ℕ) → length r.slots ≤ back → text_back back r ≡ None }
{}
