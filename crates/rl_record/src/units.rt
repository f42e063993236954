//! The units of a list of entries, which an undo or a redo goes over, and how many groups are open after it.
ghost use Rattle.std.specs.Prelude.{◌≡◌, ◌+◌, ◌^◌, ◌≤◌, ◌<◌, ◌&&◌, [], ◌∷◌, drop, length, min, nat_le, map, take, true, None, IfSome};
ghost use Rattle.rl_line.specs.Entry.{change_count, entry_of, is_change, has_change};
ghost use Rattle.rl_record.specs.Units.{IsMatched, is_whole, last_of, level, oldest_is_open, open_size, redo_of, units};
ghost use Rattle.rl_record.specs.Entries.{deep};

use rl_line::change::Change;

/// How many groups are open after the entries, if none is open before them.
#[tactic(auto, using(crate::proofs::Records::LevelLemmas::levels_counted))]
pub(crate) fn level(entries: &[Change]) -> usize
    requires { IsMatched (map entry_of entries.now) }
    ensures { result ≡ level (map entry_of entries.now) }
{
    let mut level = 0;
    for entry in entries {
        level = level_after(entry, level);
    }
    level
}

/// How many groups are open after the entries, if none is open before them, and how many of them are changes.
#[tactic(auto, using(crate::proofs::Records::LevelLemmas::levels_counted, crate::proofs::Records::PointLemmas::counts))]
pub(crate) fn level_and_changes(entries: &[Change]) -> (usize, usize)
    requires { IsMatched (map entry_of entries.now) }
    ensures level { result.0 ≡ level (map entry_of entries.now) }
    ensures changes { result.1 ≡ change_count (map entry_of entries.now) }
{
    let mut level = 0;
    let mut changes = 0;
    for entry in entries {
        level = level_after(entry, level);
        if entry.is_change() {
            changes += 1;
        }
    }
    (level, changes)
}

/// How many groups are open after the entries, if each End among them closes a group that holds a change.
#[tactic(auto, using(crate::proofs::Records::MatchLemmas::marked))]
pub(crate) fn matched_level(entries: &[Change]) -> Option<usize>
    ensures some { IfSome result (λ n. IsMatched (map entry_of entries.now) × (n ≡ level (map entry_of entries.now))) }
    ensures none { result ≡ None → ¬ (IsMatched (map entry_of entries.now)) }
{
    let mut level = 0;
    let mut after_begin = false;
    for entry in entries {
        if entry.is_end() && (level == 0 || after_begin) {
            return None;
        }
        level = level_after(entry, level);
        after_begin = entry.is_begin();
    }
    Some(level)
}

/// Whether the entries from a place on are several, and each group that is begun or ended among them is whole.
#[tactic(auto, using(crate::proofs::Records::UnitingLemmas::unit_forms))]
pub(crate) fn form_unit(entries: &[Change], from: usize) -> bool
    ensures { result ≡ (nat_le 2 (length (drop from (map entry_of entries.now))) && is_whole (drop from (map entry_of entries.now))) }
{
    if entries.len().saturating_sub(from) < 2 {
        return false;
    }
    match matched_level(&entries[from..]) {
        Some(open) => open == 0,
        None => false,
    }
}

// How many groups are open after an entry, if `level` are open before it.
fn level_after(entry: &Change, level: usize) -> usize
    requires { level < 2 ^ 63 }
    ensures level { result ≡ deep level (entry_of entry.now ∷ []) }
    ensures bound { result ≤ level + 1 }
{
    match entry {
        Change::Begin => level + 1,
        Change::End => level.saturating_sub(1),
        Change::Insert(_, _, _) | Change::Delete(_, _, _) | Change::Replace(_, _, _) => level,
    }
}

/// How many groups are open after the first `len` entries, all if there are fewer. It counts back from the last
/// entry, after which `last` are open.
#[tactic(auto, using(crate::proofs::Records::LevelLemmas::levels_at))]
pub(crate) fn level_at(entries: &[Change], len: usize, last: usize) -> usize
    requires matched { IsMatched (map entry_of entries.now) }
    requires last { last ≡ level (map entry_of entries.now) }
    ensures { result ≡ level (take len (map entry_of entries.now)) }
{
    let mut level = last;
    let mut at = entries.len();
    while at > len {
        at -= 1;
        match entries[at] {
            Change::Begin => level -= 1,
            Change::End => level += 1,
            Change::Insert(_, _, _) | Change::Delete(_, _, _) | Change::Replace(_, _, _) => {}
        }
    }
    level
}

/// Whether a group with which the entries begin, and that is open after the first `from` of them, is open after all. It counts
/// back from the last entry, after which `last` groups are open, to see whether one is after each.
#[tactic(auto, using(crate::proofs::Records::TallyLemmas::opens_at))]
pub(crate) fn stays_open(entries: &[Change], from: usize, last: usize) -> bool
    requires matched { IsMatched (map entry_of entries.now) }
    requires last { last ≡ level (map entry_of entries.now) }
    ensures { result ≡ true → oldest_is_open (units (take from (map entry_of entries.now))) ≡ true → oldest_is_open (units (map entry_of entries.now)) ≡ true }
{
    let mut groups = last;
    let mut at = entries.len();
    while at > from {
        if groups == 0 {
            return false;
        }
        at -= 1;
        groups = level_before(&entries[at], groups);
    }
    true
}

// How many groups are open before an entry, if `level` are open after it, and some are.
fn level_before(entry: &Change, level: usize) -> usize
    requires some { 0 < level }
    requires small { level < 2 ^ 63 }
    ensures { deep result (entry_of entry.now ∷ []) ≡ level }
{
    match entry {
        Change::Begin => level - 1,
        Change::End => level + 1,
        Change::Insert(_, _, _) | Change::Delete(_, _, _) | Change::Replace(_, _, _) => level,
    }
}

/// The change that makes up the last `n` units, or the last unit if `n` is 0, if they are one change alone.
#[inline(always)]
#[tactic(auto, using(crate::proofs::Records::EntryLemmas::at_the_end))]
pub(crate) fn last_alone(entries: &[Change], n: usize) -> Option<&Change>
    ensures { IfSome result (λ change. (is_change (entry_of change.now) ≡ true) × (last_of n (map entry_of entries.now) ≡ entry_of change.now ∷ [])) }
{
    if n > 1 {
        return None;
    }
    let last = entries.last()?;
    if last.is_change() { Some(last) } else { None }
}

/// The change that makes up the next unit to redo, of undone entries, if that unit is one change alone.
#[inline(always)]
#[tactic(auto, using(crate::proofs::Records::EntryLemmas::at_the_end))]
pub(crate) fn next_alone(entries: &[Change]) -> Option<&Change>
    requires { IsMatched (map entry_of entries.now) }
    ensures { IfSome result (λ change. (is_change (entry_of change.now) ≡ true) × (redo_of (map entry_of entries.now) ≡ entry_of change.now ∷ [])) }
{
    let next = entries.first()?;
    if next.is_change() { Some(next) } else { None }
}

/// Whether there is a change in the last unit. Only the Begin of an open group has none.
#[tactic(auto, using(crate::proofs::Records::EndLemmas::holds))]
pub(crate) fn last_has_change(entries: &[Change]) -> bool
    requires { IsMatched (map entry_of entries.now) }
    ensures { result ≡ has_change (last_of 1 (map entry_of entries.now)) }
{
    match entries.last() {
        Some(last) => !last.is_begin(),
        None => false,
    }
}

/// How many entries the last `n` units have, or the last one if `n` is 0.
fn last_len(entries: &[Change], n: usize) -> usize
    requires { IsMatched (map entry_of entries.now) }
    ensures { result ≡ length (last_of n (map entry_of entries.now)) }
{
    let mut units = n.max(1);
    let mut depth: usize = 0;
    let mut at = entries.len();
    while at > 0 && (units > 0 || depth > 0) {
        at -= 1;
        match entries[at] {
            Change::End => {
                if depth == 0 {
                    units -= 1;
                }
                depth += 1;
            }
            Change::Begin => {
                if depth == 0 {
                    units -= 1;
                } else {
                    depth -= 1;
                }
            }
            Change::Insert(_, _, _) | Change::Delete(_, _, _) | Change::Replace(_, _, _) => {
                if depth == 0 {
                    units -= 1;
                }
            }
        }
    }
    entries.len() - at
}

/// How many units the group has that was opened last and is open, its Begin among them; all if none is open.
pub(crate) fn open_size(entries: &[Change]) -> usize
    requires { IsMatched (map entry_of entries.now) }
    ensures { result ≡ open_size (map entry_of entries.now) }
{
    open_size_to(entries, usize::MAX)
}

/// The same if it is less than `most`, else a number that is not: it looks at no more than the last `most` units.
#[tactic(auto, using(crate::proofs::Records::EntryLemmas::sizes))]
pub(crate) fn open_size_to(entries: &[Change], most: usize) -> usize
    requires { IsMatched (map entry_of entries.now) }
    ensures same { min most result ≡ min most (open_size (map entry_of entries.now)) }
    ensures few { result ≤ length entries.now }
{
    let mut units: usize = 0;
    let mut depth: usize = 0;
    let mut at = entries.len();
    while at > 0 {
        if units >= most {
            return units;
        }
        at -= 1;
        match entries[at] {
            Change::Begin if depth == 0 => return units + 1,
            Change::Begin => depth -= 1,
            Change::End => {
                if depth == 0 {
                    units += 1;
                }
                depth += 1;
            }
            Change::Insert(_, _, _) | Change::Delete(_, _, _) | Change::Replace(_, _, _) => {
                if depth == 0 {
                    units += 1;
                }
            }
        }
    }
    units
}

/// How many entries the next unit to redo has, of undone entries.
#[tactic(auto, using(crate::proofs::Records::EntryLemmas::at_the_end))]
pub(crate) fn next_len(entries: &[Change]) -> usize
    requires { IsMatched (map entry_of entries.now) }
    ensures { result ≡ length (redo_of (map entry_of entries.now)) }
{
    let mut level = 0;
    let mut at = 0;
    while at < entries.len() {
        level = level_after(&entries[at], level);
        at += 1;
        if level == 0 {
            return at;
        }
    }
    at
}

/// The last `n` units, or the last one if `n` is 0.
pub(crate) fn last_units(entries: &[Change], n: usize) -> &[Change]
    requires { IsMatched (map entry_of entries.now) }
    ensures { map entry_of result.now ≡ last_of n (map entry_of entries.now) }
{
    let len = last_len(entries, n);
    &entries[entries.len() - len..]
}

/// The next unit to redo, of undone entries.
pub(crate) fn next_unit(entries: &[Change]) -> &[Change]
    requires { IsMatched (map entry_of entries.now) }
    ensures { map entry_of result.now ≡ redo_of (map entry_of entries.now) }
{
    let len = next_len(entries);
    &entries[..len]
}
