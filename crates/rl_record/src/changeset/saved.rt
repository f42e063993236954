//! A record as bytes, and back.
ghost use Rattle.std.specs.Prelude.{◌≡◌, ◌+◌, ◌-◌, ◌^◌, ◌++◌, List, ℕ, All, IfErr, IfOk, IfSome, OnOk, Option, Some, length, map, min};
ghost use Rattle.rl_base.specs.Saving.{Fits, IsOfPart, Loads};
ghost use Rattle.rl_base.specs.declared.listeners.Refusal.TheVariants as refused;
ghost use Rattle.rl_base.specs.declared.saving.LoadFault.TheVariants.{NoMemory};
ghost use Rattle.rl_base.specs.declared.saving.SaveFault.TheVariants.{TooLong};
ghost use Rattle.rl_base.specs.declared.saving.Width.TheVariants.{Eight};
ghost use Rattle.rl_line.specs.Entry.{Entry, change_count, entry_of, new_text, old_text};
ghost use Rattle.rl_record.specs.Record.{IsApart, Record, kept_point};
ghost use Rattle.rl_record.specs.SavedRecord.{FitsEntry, IsSavedEntry, IsSavedRecord, entry_number, entry_numbers, fresh_number, kept_number, number_or_0, point_number, record_numbers, saved_entries, saved_entry, saved_record};
ghost use Rattle.rl_record.specs.Units.{BothMatched};
ghost use Rattle.rl_record.specs.declared.joining.Freshness.{Freshness};

use crate::changeset::Changeset;
use crate::joining::Freshness;
use crate::recent::Recent;
use crate::units;
use rl_base::saving::put_numbers;
use rl_base::{Gathered, LoadFault, Refusal, SaveFault, Unread, Width};
use rl_line::change::{Change, Texts, Way, copied};
use rl_line::inserted::Inserted;
use std::alloc::Global;

// How many bytes an entry has at least.
const ENTRY: usize = 24;

impl Changeset {
    /// Puts the record at the end of bytes, from which `load` makes it again. Refused, it leaves any bytes. `TooLong` comes
    /// only if a text of it has 4 GiB or more, or a place is as far.
    #[tactic(auto, unfolding(crate::specs::SavedRecord::saved_record))]
    pub fn save(&self, out: &mut Vec<u8>) -> Result<(), SaveFault>
        ensures ok { OnOk result (out.new.items ≡ out.old.items ++ saved_record self.now) }
        ensures loads { OnOk result (IsSavedRecord self.now) }
        ensures err { IfErr result (λ f. f ≡ TooLong → ¬ (All FitsEntry (self.now.recorded ++ self.now.pending))) }
    {
        put_numbers(out, Width::Eight, &self.numbers())?;
        put_entries(out, self.entries.all())?;
        Ok(())
    }

    /// How many bytes `save` puts, or the greatest `usize` if they are more.
    pub fn saved_len(&self) -> usize
        ensures { result ≡ min (length (saved_record self.now)) (2 ^ 64 - 1) }
    {
        entries_len(self.entries.all()).saturating_add(48)
    }

    fn numbers(&self) -> [u64; 6]
        ensures numbers { result ≡ record_numbers self.now }
        ensures matched { BothMatched self.now }
        ensures point { kept_point (change_count (self.now.recorded ++ self.now.pending)) self.now.saved ≡ self.now.saved }
        ensures apart { IsApart self.now }
    {
        let (fresh, saved) = (self.entries.fresh(), self.entries.saved());
        [
            self.entries.all().len() as u64,
            self.recorded().len() as u64,
            fresh_number(fresh),
            kept_number(fresh),
            point_number(saved),
            number_or_0(saved),
        ]
    }

    /// Makes the record of what `save` put into bytes, and reads them. Other bytes are `Damaged`: of whatever it makes,
    /// `save` puts the very bytes that were read. Whether it is one of a text tells `walks`.
    #[tactic(auto, unfolding(crate::specs::SavedRecord::saved_record))]
    pub fn load(alloc: Global, bytes: &mut Unread) -> Result<Changeset, LoadFault>
        ensures loaded { (r : Record) (rest : List ℕ) → IsSavedRecord r → bytes.old ≡ saved_record r ++ rest
            → Loads r result × OnOk result (bytes.new ≡ rest) }
        ensures read { IfOk result (λ r. (bytes.old ≡ saved_record r ++ bytes.new) × IsSavedRecord r) }
        ensures part { IfErr result IsOfPart }
    {
        let mut head = [0; 6];
        if !bytes.numbers(Width::Eight, &mut head) {
            return Err(LoadFault::Damaged);
        }
        let list = load_entries(alloc, bytes, head[0])?;
        record_of(head, list).ok_or(LoadFault::Damaged)
    }
}

// The record of these numbers and entries, if there is one.
#[tactic(auto, using(crate::proofs::Records::BytesLemmas::records))]
fn record_of(head: [u64; 6], list: Vec<Change>) -> Option<Changeset>
    ensures loaded { (r : Record) → IsSavedRecord r → head ≡ record_numbers r → map entry_of list.items ≡ r.recorded ++ r.pending → result ≡ Some r }
    ensures read { IfSome result (λ r. (head ≡ record_numbers r) × (map entry_of list.items ≡ r.recorded ++ r.pending)
        × (All (Fits Eight) (record_numbers r) → All IsSavedEntry (r.recorded ++ r.pending) → IsSavedRecord r)) }
{
    let fresh = fresh_of(head[2], head[3] as usize);
    let saved = point_of(head[4], head[5] as usize);
    let entries = Recent::of(list, head[1] as usize, fresh, saved)?;
    let level = units::matched_level(entries.recorded())?;
    units::matched_level(entries.pending())?;
    let made = Changeset { entries, level };
    if made.numbers() != head {
        return None;
    }
    Some(made)
}

fn fresh_number(fresh: Freshness) -> u64
    ensures { result ≡ fresh_number fresh }
{
    match fresh {
        Freshness::Stale => 0,
        Freshness::Parted => 1,
        Freshness::Added => 2,
        Freshness::Joined(_) => 3,
    }
}

fn kept_number(fresh: Freshness) -> u64
    ensures { result ≡ kept_number fresh }
{
    match fresh {
        Freshness::Joined(before) => before as u64,
        Freshness::Stale | Freshness::Parted | Freshness::Added => 0,
    }
}

// Of a number that stands for no freshness it makes one that has another.
fn fresh_of(number: u64, kept: usize) -> Freshness
    ensures { (fresh : Freshness) → number ≡ fresh_number fresh → kept ≡ kept_number fresh → result ≡ fresh }
{
    match number {
        0 => Freshness::Stale,
        1 => Freshness::Parted,
        2 => Freshness::Added,
        _ => Freshness::Joined(kept),
    }
}

fn point_number(point: Option<usize>) -> u64
    ensures { result ≡ point_number point }
{
    match point {
        Some(_) => 1,
        None => 0,
    }
}

fn number_or_0(number: Option<usize>) -> u64
    ensures { result ≡ number_or_0 number }
{
    number.unwrap_or(0) as u64
}

fn point_of(number: u64, point: usize) -> Option<usize>
    ensures { (saved : Option ℕ) → number ≡ point_number saved → point ≡ number_or_0 saved → result ≡ saved }
{
    match number {
        0 => None,
        _ => Some(point),
    }
}

fn entry_number(change: &Change) -> u64
    ensures { result ≡ entry_number (entry_of change.now) }
{
    let kind = match change {
        Change::Begin => 0,
        Change::End => 1,
        Change::Insert(_, _, _) => 2,
        Change::Delete(_, _, _) => 4,
        Change::Replace(_, _, _) => 6,
    };
    match change.cursors() {
        Some(_) => kind + 1,
        None => kind,
    }
}

fn numbers_of(change: &Change) -> [u64; 6]
    ensures { result ≡ entry_numbers (entry_of change.now) }
{
    let (before, after) = change.cursors().unwrap_or((0, 0));
    [
        entry_number(change),
        number_or_0(change.place()),
        before as u64,
        after as u64,
        change.texts(Way::Back).1.len() as u64,
        change.texts(Way::Ahead).1.len() as u64,
    ]
}

#[tactic(auto, unfolding(crate::specs::SavedRecord::saved_entry))]
fn put_entry(out: &mut Vec<u8>, change: &Change) -> Result<(), SaveFault>
    ensures ok { OnOk result (out.new.items ≡ out.old.items ++ saved_entry (entry_of change.now)) }
    ensures loads { OnOk result (IsSavedEntry (entry_of change.now)) }
    ensures err { IfErr result (λ f. f ≡ TooLong → ¬ (FitsEntry (entry_of change.now))) }
{
    put_numbers(out, Width::Four, &numbers_of(change))?;
    let (_, old) = change.texts(Way::Back);
    out.extend_from_slice(old.as_bytes())?;
    let (_, new) = change.texts(Way::Ahead);
    out.extend_from_slice(new.as_bytes())?;
    Ok(())
}

// How many bytes an entry takes, or the greatest `usize` if they are more.
fn entry_len(change: &Change) -> usize
    ensures { result ≡ min (length (saved_entry (entry_of change.now))) (2 ^ 64 - 1) }
{
    let (_, old) = change.texts(Way::Back);
    let (_, new) = change.texts(Way::Ahead);
    old.len().saturating_add(new.len()).saturating_add(ENTRY)
}

#[tactic(auto, unfolding(crate::specs::SavedRecord::saved_entries))]
fn entries_len(changes: &[Change]) -> usize
    ensures { result ≡ min (length (saved_entries (map entry_of changes.now))) (2 ^ 64 - 1) }
{
    let mut len = 0usize;
    for change in changes {
        len = len.saturating_add(entry_len(change));
    }
    len
}

#[tactic(auto, unfolding(crate::specs::SavedRecord::saved_entries))]
fn put_entries(out: &mut Vec<u8>, changes: &[Change]) -> Result<(), SaveFault>
    ensures ok { OnOk result (out.new.items ≡ out.old.items ++ saved_entries (map entry_of changes.now)) }
    ensures loads { OnOk result (All IsSavedEntry (map entry_of changes.now)) }
    ensures err { IfErr result (λ f. f ≡ TooLong → ¬ (All FitsEntry (map entry_of changes.now))) }
{
    for change in changes {
        put_entry(out, change)?;
    }
    Ok(())
}

// The change of these numbers and texts. If they are those of no change, it makes one that has others.
fn change_of(alloc: Global, head: [u64; 6], old: &str, new: &str) -> Result<Change, Refusal>
    ensures ok { IfOk result (λ change. (e : Entry) → IsSavedEntry e → head ≡ entry_numbers e → old.now ≡ old_text e → new.now ≡ new_text e → entry_of change ≡ e) }
    ensures texts { IfOk result (λ change. length (old_text (entry_of change)) ≡ length old.now → length (new_text (entry_of change)) ≡ length new.now → (old_text (entry_of change) ≡ old.now) × (new_text (entry_of change) ≡ new.now)) }
    ensures err { IfErr result (λ r. r ≡ refused.NoMemory) }
{
    let at = head[1] as usize;
    let cursors = if head[0] % 2 == 0 {
        None
    } else {
        Some((head[2] as usize, head[3] as usize))
    };
    match head[0] {
        0 => Ok(Change::Begin),
        1 => Ok(Change::End),
        2 | 3 => Ok(Change::Insert(cursors, at, Inserted::of_str(alloc, new)?)),
        4 | 5 => Ok(Change::Delete(cursors, at, Gathered::of(alloc, old)?)),
        _ => {
            let before = copied(alloc, old)?;
            let after = copied(alloc, new)?;
            let texts = Box::new(alloc, Texts { before, after })?;
            Ok(Change::Replace(cursors, at, texts))
        }
    }
}

#[tactic(auto, unfolding(crate::specs::SavedRecord::saved_entry))]
fn load_entry(alloc: Global, bytes: &mut Unread) -> Result<Change, LoadFault>
    ensures ok { IfOk result (λ change. (e : Entry) (rest : List ℕ) → IsSavedEntry e → bytes.old ≡ saved_entry e ++ rest → (entry_of change ≡ e) × (bytes.new ≡ rest)) }
    ensures read { IfOk result (λ change. (bytes.old ≡ saved_entry (entry_of change) ++ bytes.new) × IsSavedEntry (entry_of change)) }
    ensures err { IfErr result (λ f. (e : Entry) (rest : List ℕ) → IsSavedEntry e → bytes.old ≡ saved_entry e ++ rest → f ≡ NoMemory) }
    ensures part { IfErr result IsOfPart }
{
    let mut head = [0; 6];
    if !bytes.numbers(Width::Four, &mut head) {
        return Err(LoadFault::Damaged);
    }
    let Some(old) = bytes.text(head[4]) else {
        return Err(LoadFault::Damaged);
    };
    let Some(new) = bytes.text(head[5]) else {
        return Err(LoadFault::Damaged);
    };
    let change = change_of(alloc, head, old, new)?;
    if numbers_of(&change) != head {
        return Err(LoadFault::Damaged);
    }
    Ok(change)
}

#[tactic(auto, unfolding(crate::specs::SavedRecord::saved_entries))]
fn load_entries(alloc: Global, bytes: &mut Unread, count: u64) -> Result<Vec<Change>, LoadFault>
    ensures ok { IfOk result (λ made. (es : List Entry) (rest : List ℕ) → length es ≡ count → All IsSavedEntry es → bytes.old ≡ saved_entries es ++ rest → (map entry_of made.items ≡ es) × (bytes.new ≡ rest)) }
    ensures read { IfOk result (λ made. (bytes.old ≡ saved_entries (map entry_of made.items) ++ bytes.new) × All IsSavedEntry (map entry_of made.items)) }
    ensures err { IfErr result (λ f. (es : List Entry) (rest : List ℕ) → length es ≡ count → All IsSavedEntry es → bytes.old ≡ saved_entries es ++ rest → f ≡ NoMemory) }
    ensures part { IfErr result IsOfPart }
{
    let most = bytes.left() / ENTRY;
    let Ok(mut made) = Vec::with_capacity(alloc, count.min(most as u64) as usize) else {
        return Err(LoadFault::NoMemory);
    };
    for i in 0..count {
        made.push(load_entry(alloc, bytes)?)?;
    }
    Ok(made)
}
