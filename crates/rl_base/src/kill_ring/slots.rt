//! The texts of a ring, and how many bytes they have.
ghost use Rattle.std.specs.Prelude.{◌≡◌, ◌+◌, ◌<◌, ◌≤◌, [], Some, None, max, length, get_or, slice_get, option_map, MatchOption, IfErr, IfOk, OnOk, sum_by, take, reverse};
ghost use Rattle.std.specs.String.{string_bytes};
ghost use Rattle.rl_base.specs.declared.listeners.Refusal.TheVariants.{NoMemory};
ghost use Rattle.rl_base.specs.Gathered.{IsPackedAt, texts};
ghost use Rattle.rl_base.specs.KillRing.{PutTakesMemory, back_from, fitting, join_at, joined, put_at};

use crate::gathered::Gathered;
use crate::kill_ring::Mode;
use crate::listeners::Refusal;
use std::alloc::Global;

/// Texts, and how many bytes they have together.
#[derive(Drop)]
pub(crate) struct Slots {
    list: Vec<Gathered>,
    bytes: usize,
    ghost counted: { bytes ≡ sum_by length (texts list.items) },
}

impl Slots {
    /// None.
    pub(crate) fn new(alloc: Global) -> Slots
        ensures { result.list.items ≡ [] }
    {
        Slots {
            list: Vec::new(alloc),
            bytes: 0,
        }
    }

    /// None, with room for so many.
    pub(crate) fn with_room(alloc: Global, slots: usize) -> Result<Slots, Refusal>
        ensures ok { IfOk result (λ made. made.list.items ≡ []) }
        ensures err { IfErr result (λ r. r ≡ NoMemory) }
    {
        let list = Vec::with_capacity(alloc, slots)?;
        Ok(Slots { list, bytes: 0 })
    }

    pub(crate) fn len(&self) -> usize
        ensures { result ≡ length self.now.list.items }
    {
        self.list.len()
    }

    pub(crate) fn all(&self) -> &[Gathered]
        ensures { result.now ≡ self.now.list.items }
    {
        self.list.as_slice()
    }

    /// How many bytes they have together.
    pub(crate) fn bytes(&self) -> usize
        ensures { result ≡ sum_by length (texts self.now.list.items) }
    {
        self.bytes
    }

    pub(crate) fn clear(&mut self)
        ensures { self.new.list.items ≡ [] }
    {
        self.list.clear();
        self.bytes = 0;
    }

    /// Puts a text over the slot at an index, or after all slots.
    #[tactic(auto, using(crate::proofs::Ring::BoundLemmas::counting))]
    pub(crate) fn put(&mut self, index: usize, text: &str) -> Result<(), Refusal>
        requires { index ≤ length self.old.list.items }
        ensures ok { OnOk result (texts self.new.list.items ≡ put_at index text.now (texts self.old.list.items)) }
        ensures err { IfErr result (λ r. (r ≡ NoMemory) × (texts self.new.list.items ≡ texts self.old.list.items) × PutTakesMemory index text.now self.old.list.items) }
    {
        let others = self.bytes - len_at(&self.list, index);
        let bytes = sum_of(others, text.len())?;
        put_at(&mut self.list, index, text)?;
        self.bytes = bytes;
        Ok(())
    }

    /// Joins a text to the slot at an index.
    #[tactic(auto, using(crate::proofs::Ring::BoundLemmas::counting))]
    pub(crate) fn join_text(&mut self, index: usize, text: &str, mode: Mode) -> Result<(), Refusal>
        ensures ok { OnOk result (texts self.new.list.items ≡ join_at index mode text.now (texts self.old.list.items)) }
        ensures err { IfErr result (λ r. (r ≡ NoMemory) × (texts self.new.list.items ≡ texts self.old.list.items) × (0 < length text.now)) }
    {
        if index >= self.list.len() {
            return Ok(());
        }
        let bytes = sum_of(self.bytes, text.len())?;
        join_at(&mut self.list, index, text, mode)?;
        self.bytes = bytes;
        Ok(())
    }

    /// Packs the text of the slot at an index, and answers its length in bytes.
    pub(crate) fn pack_at(&mut self, index: usize) -> Option<usize>
        ensures texts { texts self.new.list.items ≡ texts self.old.list.items }
        ensures packed { IsPackedAt index self.new.list.items }
        ensures size { result ≡ option_map length (slice_get (texts self.old.list.items) index) }
    {
        pack_at(&mut self.list, index)
    }

    /// Lends the text of the slot at an index.
    pub(crate) fn text_at(&self, index: usize) -> Option<&String>
        requires { IsPackedAt index self.now.list.items }
        ensures { MatchOption result (slice_get (texts self.now.list.items) index ≡ None) (λ s. slice_get (texts self.now.list.items) index ≡ Some (string_bytes s.now)) }
    {
        match self.list.get(index) {
            Some(slot) => Some(slot.as_string()),
            None => None,
        }
    }

    /// How many of the texts fit, from the newest back. It goes over those that do not.
    pub(crate) fn fitting_len(&self, bytes: usize, newest: usize) -> usize
        requires { newest < max 1 (length self.now.list.items) }
        ensures { result ≡ length (fitting bytes (back_from newest (texts self.now.list.items))) }
    {
        let mut left = self.bytes;
        let mut kept = self.list.len();
        while left > bytes {
            kept -= 1;
            left -= len_back(newest, kept, &self.list);
        }
        kept
    }

    /// Keeps so many texts from the newest back, or all, the newest last.
    pub(crate) fn keep_newest(&mut self, newest: usize, kept: usize)
        requires { newest < max 1 (length self.old.list.items) }
        ensures { texts self.new.list.items ≡ reverse (take kept (back_from newest (texts self.old.list.items))) }
    {
        let bytes = bytes_kept(&self.list, self.bytes, newest, kept);
        keep_newest(&mut self.list, newest, kept);
        self.bytes = bytes;
    }
}

// The sum of two numbers of bytes. Memory is out long before it is too great.
fn sum_of(bytes: usize, more: usize) -> Result<usize, Refusal>
    ensures ok { IfOk result (λ n. n ≡ bytes + more) }
    ensures err { IfErr result (λ r. (r ≡ NoMemory) × (0 < more)) }
{
    match bytes.checked_add(more) {
        Some(sum) => Ok(sum),
        None => Err(Refusal::NoMemory),
    }
}

// How many bytes are left of all, if so many texts are kept from the newest back.
fn bytes_kept(slots: &[Gathered], all: usize, newest: usize, kept: usize) -> usize
    requires at { newest < max 1 (length slots.now) }
    requires all { all ≡ sum_by length (texts slots.now) }
    ensures { result ≡ sum_by length (take kept (back_from newest (texts slots.now))) }
{
    let mut bytes = all;
    for back in kept..slots.len() {
        bytes -= len_back(newest, back, slots);
    }
    bytes
}

/// The index of the slot that is so many slots before, round the ring, if there are as many.
pub(crate) fn index_back(index: usize, back: usize, slots: &[Gathered]) -> Option<usize>
    requires { index < max 1 (length slots.now) }
    ensures { MatchOption result (slice_get (back_from index (texts slots.now)) back ≡ None)
        (λ i. slice_get (back_from index (texts slots.now)) back ≡ slice_get (texts slots.now) i) }
{
    if back >= slots.len() {
        return None;
    }
    if back <= index {
        return Some(index - back);
    }
    Some(index + (slots.len() - back))
}

// The length of the text at an index, 0 if there is none.
fn len_at(slots: &[Gathered], index: usize) -> usize
    ensures { result ≡ length (get_or (texts slots.now) index []) }
{
    match slots.get(index) {
        Some(slot) => slot.len(),
        None => 0,
    }
}

// The length of the text that stands so many before the one at an index, round the ring, 0 if there are not as many.
fn len_back(index: usize, back: usize, slots: &[Gathered]) -> usize
    requires { index < max 1 (length slots.now) }
    ensures { result ≡ length (get_or (back_from index (texts slots.now)) back []) }
{
    match index_back(index, back, slots) {
        Some(at) => len_at(slots, at),
        None => 0,
    }
}

// Keeps so many slots from the newest back, or all, the newest last.
#[tactic(auto, using(crate::proofs::Ring::BoundLemmas::kept_newest))]
fn keep_newest(slots: &mut Vec<Gathered>, newest: usize, kept: usize)
    requires { newest < max 1 (length slots.old.items) }
    ensures { texts slots.new.items ≡ reverse (take kept (back_from newest (texts slots.old.items))) }
{
    let all = slots.len();
    slots.rotate_left((newest + 1).min(all));
    slots.drain(..all.saturating_sub(kept));
}

// Puts a text over the slot at an index, or after all slots.
#[tactic(auto, using(crate::proofs::Ring::RingLemmas::written))]
fn put_at(slots: &mut Vec<Gathered>, index: usize, text: &str) -> Result<(), Refusal>
    requires { index ≤ length slots.old.items }
    ensures ok { OnOk result (texts slots.new.items ≡ put_at index text.now (texts slots.old.items)) }
    ensures err { IfErr result (λ r. (r ≡ NoMemory) × (texts slots.new.items ≡ texts slots.old.items) × PutTakesMemory index text.now slots.old.items) }
{
    let slot = Gathered::of(*slots.allocator(), text)?;
    if index < slots.len() {
        slots[index] = slot;
        return Ok(());
    }
    slots.push(slot)?;
    Ok(())
}

// Joins a text to the slot at an index.
#[tactic(auto, using(crate::proofs::Ring::RingLemmas::written))]
fn join_at(slots: &mut Vec<Gathered>, index: usize, text: &str, mode: Mode) -> Result<(), Refusal>
    ensures ok { OnOk result (texts slots.new.items ≡ join_at index mode text.now (texts slots.old.items)) }
    ensures err { IfErr result (λ r. (r ≡ NoMemory) × (texts slots.new.items ≡ texts slots.old.items) × (0 < length text.now)) }
{
    if let Some(slot) = slots.get_mut(index) {
        return join_to(slot, text, mode);
    }
    Ok(())
}

// Joins a text to a slot.
fn join_to(slot: &mut Gathered, text: &str, mode: Mode) -> Result<(), Refusal>
    ensures ok { OnOk result (slot.new.text ≡ joined mode slot.old.text text.now) }
    ensures err { IfErr result (λ r. (r ≡ NoMemory) × (slot.new.text ≡ slot.old.text) × (0 < length text.now)) }
{
    match mode {
        Mode::Append => slot.push_back(text),
        Mode::Prepend => slot.push_front(text),
    }
}

// Packs the text of the slot at an index, and answers its length in bytes.
#[tactic(auto, using(crate::proofs::Ring::RingLemmas::packing))]
fn pack_at(slots: &mut Vec<Gathered>, index: usize) -> Option<usize>
    ensures texts { texts slots.new.items ≡ texts slots.old.items }
    ensures packed { IsPackedAt index slots.new.items }
    ensures size { result ≡ option_map length (slice_get (texts slots.old.items) index) }
{
    let slot = slots.get_mut(index)?;
    slot.pack();
    Some(slot.len())
}
