//! A kill ring as bytes, and back.
ghost use Rattle.std.specs.Bool.{OnTrue};
ghost use Rattle.std.specs.Prelude.{◌≡◌, ◌-◌, ◌^◌, ◌++◌, List, ℕ, All, IfErr, IfOk, IfSome, OnOk, Some, false, true, length, min, slice_index};
ghost use Rattle.rl_base.specs.Gathered.{texts};
ghost use Rattle.rl_base.specs.KillRing.{FitsLast, IsRing, Ring};
ghost use Rattle.rl_base.specs.SavedRing.{IsSavedRing, last_number, ring_numbers, rule_number, saved_ring, yanked_number};
ghost use Rattle.rl_base.specs.Saving.{IsOfPart, IsSized, Loads, sized_all};
ghost use Rattle.rl_base.specs.declared.kill_ring.Action.{Action};
ghost use Rattle.rl_base.specs.declared.kill_ring.NewKill.{NewKill};
ghost use Rattle.rl_base.specs.declared.saving.LoadFault.TheVariants.{NoMemory};
ghost use Rattle.rl_base.specs.declared.saving.SaveFault.TheVariants.{TooLong};

use crate::gathered::Gathered;
use crate::kill_ring::slots::Slots;
use crate::kill_ring::{Action, KillRing, NewKill};
use crate::saving::{LoadFault, SaveFault, Unread, Width, put_numbers, put_text};
use std::alloc::Global;

// How many bytes a slot has at least.
const SLOT: usize = 8;

impl KillRing {
    /// Puts the ring at the end of bytes, from which `load` makes it again, if no kill is on. Refused, it leaves any bytes.
    /// It is never too long.
    pub fn save(&self, out: &mut Vec<u8>) -> Result<(), SaveFault>
        ensures ok { OnOk result (out.new.items ≡ out.old.items ++ saved_ring self.now) }
        ensures loads { OnOk result (self.now.killing ≡ false → IsSavedRing self.now) }
        ensures err { IfErr result (λ f. f ≡ TooLong → ⊥) }
    {
        put_numbers(out, Width::Eight, &self.numbers())?;
        put_slots(out, self.slots.all())?;
        Ok(())
    }

    /// How many bytes `save` puts, or the greatest `usize` if they are more.
    pub fn saved_len(&self) -> usize
        ensures { result ≡ min (length (saved_ring self.now)) (2 ^ 64 - 1) }
    {
        let heads = self.slots.len().saturating_mul(SLOT).saturating_add(56);
        self.slots.bytes().saturating_add(heads)
    }

    fn numbers(&self) -> [u64; 7]
        ensures numbers { result ≡ ring_numbers self.now }
        ensures ring { IsRing self.now }
    {
        [
            self.size as u64,
            rule_number(self.rule),
            self.index as u64,
            self.newest as u64,
            last_number(self.last),
            yanked_number(self.last),
            self.slots.len() as u64,
        ]
    }

    /// Makes the ring of what `save` put into bytes, and reads them. No kill is on in it. Bytes that no ring is saved as
    /// are `Damaged`.
    pub fn load(alloc: Global, bytes: &mut Unread) -> Result<KillRing, LoadFault>
        ensures loaded { (ring : Ring) (rest : List ℕ) → IsSavedRing ring → bytes.old ≡ saved_ring ring ++ rest
            → Loads ring result × OnOk result (bytes.new ≡ rest) }
        ensures read { IfOk result (λ ring. (bytes.old ≡ saved_ring ring ++ bytes.new) × IsSavedRing ring) }
        ensures part { IfErr result IsOfPart }
    {
        let mut head = [0; 7];
        if !bytes.numbers(Width::Eight, &mut head) {
            return Err(LoadFault::Damaged);
        }
        let slots = load_slots(alloc, bytes, head[6])?;
        ring_of(head, slots).ok_or(LoadFault::Damaged)
    }
}

// The ring of these numbers and slots, if there is one.
fn ring_of(head: [u64; 7], slots: Slots) -> Option<KillRing>
    requires { length slots.list.items ≡ slice_index head 6 }
    ensures loaded { (ring : Ring) → IsSavedRing ring → head ≡ ring_numbers ring → texts slots.list.items ≡ ring.slots → result ≡ Some ring }
    ensures read { IfSome result (λ ring. (head ≡ ring_numbers ring) × (texts slots.list.items ≡ ring.slots) × IsRing ring × (ring.killing ≡ false)) }
{
    let rule = rule_of(head[1])?;
    let last = last_of(head[4], head[5] as usize)?;
    let (size, index, newest) = (head[0] as usize, head[2] as usize, head[3] as usize);
    if slots.len() > size || index.max(newest) >= slots.len().max(1) {
        return None;
    }
    if !fits_last(last, size, index, slots.all()) {
        return None;
    }
    Some(KillRing {
        size,
        rule,
        slots,
        index,
        newest,
        last,
        killing: false,
    })
}

// Whether the current slot is that of what was done last.
fn fits_last(last: Action, size: usize, index: usize, slots: &[Gathered]) -> bool
    ensures yes { OnTrue result (FitsLast last size index (texts slots.now)) }
    ensures no { FitsLast last size index (texts slots.now) → result ≡ true }
{
    match last {
        Action::Kill => size == 0 || index < slots.len(),
        Action::Yank(bytes) => match slots.get(index) {
            Some(slot) => slot.len() == bytes,
            None => false,
        },
        Action::Other => true,
    }
}

fn rule_number(rule: NewKill) -> u64
    ensures { result ≡ rule_number rule }
{
    match rule {
        NewKill::AfterCurrent => 0,
        NewKill::AfterNewest => 1,
    }
}

fn rule_of(number: u64) -> Option<NewKill>
    ensures loaded { (rule : NewKill) → number ≡ rule_number rule → result ≡ Some rule }
    ensures read { IfSome result (λ rule. number ≡ rule_number rule) }
{
    match number {
        0 => Some(NewKill::AfterCurrent),
        1 => Some(NewKill::AfterNewest),
        _ => None,
    }
}

fn last_number(last: Action) -> u64
    ensures { result ≡ last_number last }
{
    match last {
        Action::Kill => 0,
        Action::Yank(_) => 1,
        Action::Other => 2,
    }
}

fn yanked_number(last: Action) -> u64
    ensures { result ≡ yanked_number last }
{
    match last {
        Action::Yank(size) => size as u64,
        Action::Kill | Action::Other => 0,
    }
}

fn last_of(number: u64, yanked: usize) -> Option<Action>
    ensures loaded { (last : Action) → number ≡ last_number last → yanked ≡ yanked_number last → result ≡ Some last }
    ensures read { IfSome result (λ last. (number ≡ last_number last) × (yanked ≡ yanked_number last)) }
{
    match (number, yanked) {
        (0, 0) => Some(Action::Kill),
        (1, _) => Some(Action::Yank(yanked)),
        (2, 0) => Some(Action::Other),
        _ => None,
    }
}

#[tactic(auto, unfolding(crate::specs::Saving::sized_all))]
fn put_slots(out: &mut Vec<u8>, slots: &[Gathered]) -> Result<(), SaveFault>
    ensures ok { OnOk result (out.new.items ≡ out.old.items ++ sized_all (texts slots.now)) }
    ensures loads { OnOk result (All IsSized (texts slots.now)) }
    ensures err { IfErr result (λ f. f ≡ TooLong → ⊥) }
{
    for slot in slots {
        put_text(out, slot.as_str())?;
    }
    Ok(())
}

#[tactic(auto, unfolding(crate::specs::Saving::sized_all))]
fn load_slots(alloc: Global, bytes: &mut Unread, count: u64) -> Result<Slots, LoadFault>
    ensures ok { IfOk result (λ made. (slots : List (List ℕ)) (rest : List ℕ) → length slots ≡ count → All IsSized slots → bytes.old ≡ sized_all slots ++ rest → (texts made.list.items ≡ slots) × (bytes.new ≡ rest)) }
    ensures read { IfOk result (λ made. (bytes.old ≡ sized_all (texts made.list.items) ++ bytes.new) × (length made.list.items ≡ count) × All IsSized (texts made.list.items)) }
    ensures err { IfErr result (λ f. (slots : List (List ℕ)) (rest : List ℕ) → length slots ≡ count → All IsSized slots → bytes.old ≡ sized_all slots ++ rest → f ≡ NoMemory) }
    ensures part { IfErr result IsOfPart }
{
    let most = bytes.left() / SLOT;
    let mut made = Slots::with_room(alloc, count.min(most as u64) as usize)?;
    for i in 0..count {
        let Some(text) = bytes.sized_text() else {
            return Err(LoadFault::Damaged);
        };
        let at = made.len();
        made.put(at, text)?;
    }
    Ok(made)
}
