//! How a text goes over several entries of a record.
ghost use Rattle.std.specs.Prelude.{◌≡◌, [], ◌∷◌, None, Some, true, false, IfOk, IfErr, ◌+◌, ◌-◌, ◌<◌, ◌≤◌, ◌↔◌, IfSome, get_or, is_some, length, map, nat_le};
ghost use Rattle.std.specs.Option.{option_map};
ghost use Rattle.rl_base.specs.declared.listeners.Refusal.TheVariants.{NoMemory};
ghost use Rattle.rl_line.specs.Entry.{bytes_back, entry_of, is_change, changes_of, has_change};
ghost use Rattle.rl_line.specs.Walk.{HasSeveral, WalksOver};
ghost use Rattle.rl_line.specs.Change.{Outgrows, text_back, greatest_back_over, order, entries_to_undo};

use crate::change::{Change, Way};
use crate::patched::Patched;
use crate::roomy_line::RoomyLine;
use rl_base::Refusal;
use std::alloc::Global;

/// The change after which `left` are left to go over: going back the last comes first, and going ahead the first.
#[inline(always)]
pub(crate) fn nth_on(way: Way, changes: &[Change], left: usize) -> &Change
    requires { left < length changes.now }
    ensures { result.now ≡ get_or (order way changes.now) left result.now }
{
    match way {
        Way::Back => &changes[left],
        Way::Ahead => &changes[changes.len() - 1 - left],
    }
}

/// Finds room for the longest text on the way over the changes, and answers how much longer that is. Inlined, as `nth_on`
/// is, so that the way is known at compile time.
#[inline(always)]
pub(crate) fn find_room_over(
    line: &mut RoomyLine,
    changes: &[Change],
    way: Way,
) -> Result<usize, Refusal>
    ensures line { line.new.line ≡ line.old.line }
    ensures growth { IfOk result (λ growth. length line.old.line.text + growth ≡ greatest_back_over (entries_to_undo way changes.now) (length line.old.line.text)) }
    ensures room { IfOk result (λ growth. length line.old.line.text + growth ≤ line.new.bytes) }
    ensures err { IfErr result (λ r. (r ≡ NoMemory) × Outgrows (entries_to_undo way changes.now) (length line.old.line.text)) }
{
    let growth = growth_over(changes, way, line.len())?;
    line.find_room(growth)?;
    Ok(growth)
}

// The most by which a text of `len` bytes grows on the way over the changes. Inlined, so that the way is known at compile
// time.
#[inline(always)]
fn growth_over(changes: &[Change], way: Way, len: usize) -> Result<usize, Refusal>
    ensures ok { IfOk result (λ growth. len + growth ≡ greatest_back_over (entries_to_undo way changes.now) len) }
    ensures err { IfErr result (λ r. (r ≡ NoMemory) × Outgrows (entries_to_undo way changes.now) len) }
{
    let (mut long, mut longest) = (len, len);
    let mut left = changes.len();
    while left > 0 {
        left -= 1;
        let (going, coming) = nth_on(way, changes, left).texts(way);
        long = match long.saturating_sub(going.len()).checked_add(coming.len()) {
            Some(long) => long,
            None => return Err(Refusal::NoMemory),
        };
        longest = longest.max(long);
    }
    Ok(longest - len)
}

/// Whether a text can go over the changes, with both cursors of each, if they were told, standing between two characters. So
/// it can come back, too. One change alone is compared with the text; several are tried on a copy of the part that they touch.
#[tactic(auto, using(crate::proofs::Changes::WalkLemmas::by_changes))]
pub fn retraces(alloc: Global, text: &str, changes: &[Change], way: Way) -> Result<bool, Refusal>
    ensures ok { IfOk result (λ answer. answer ≡ true ↔ WalksOver way (map entry_of changes.now) text.now) }
    ensures err { IfErr result (λ r. (r ≡ NoMemory) × HasSeveral (map entry_of changes.now)) }
{
    if !has_change(changes) {
        return Ok(true);
    }
    if let Some(change) = lone_change(changes) {
        return Ok(change.walks_alone(alloc, text, way));
    }
    let mut now = Patched::new(alloc, text);
    let mut left = changes.len();
    while left > 0 {
        left -= 1;
        let change = nth_on(way, changes, left);
        if !change.walks(&mut now, way)? {
            return Ok(false);
        }
    }
    Ok(true)
}

/// Whether a text of `len` bytes keeps to a limit all the way over the changes.
pub fn keeps_to(changes: &[Change], way: Way, len: usize, limit: usize) -> bool
    requires { len ≤ limit }
    ensures { result ≡ nat_le (greatest_back_over (entries_to_undo way changes.now) len) limit }
{
    let mut long = len;
    let mut left = changes.len();
    while left > 0 {
        left -= 1;
        let (going, coming) = nth_on(way, changes, left).texts(way);
        long = long.saturating_sub(going.len());
        if coming.len() > limit - long {
            return false;
        }
        long += coming.len();
    }
    true
}

/// A text that went over the changes. None if one of them does not fit, or if `asks` is set and a cursor that was told
/// would not stand between two characters.
#[tactic(auto, using(crate::proofs::Changes::RoomLemmas::over_all))]
pub fn patch_over<'t>(
    alloc: Global,
    text: &'t str,
    changes: &[Change],
    way: Way,
    asks: bool,
) -> Result<Option<Patched<'t>>, Refusal>
    ensures ok { IfOk result (λ over. over ≡ text_back asks (entries_to_undo way changes.now) text.now) }
    ensures some { IfOk result (λ over. IfSome over (λ now. 0 < length now → 0 < length text.now + bytes_back (entries_to_undo way changes.now))) }
    ensures err { IfErr result (λ r. (r ≡ NoMemory) × (0 < length text.now + bytes_back (entries_to_undo way changes.now))) }
{
    let mut now = Patched::new(alloc, text);
    let mut left = changes.len();
    while left > 0 {
        left -= 1;
        let change = nth_on(way, changes, left);
        if !change.patch(&mut now, way)? {
            return Ok(None);
        }
        if !change.stands(&now, way, asks) {
            return Ok(None);
        }
    }
    Ok(Some(now))
}

/// A copy of a text that went over the changes, as `patch_over` does.
pub fn text_over(
    alloc: Global,
    text: &str,
    changes: &[Change],
    way: Way,
    asks: bool,
) -> Result<Option<Vec<u8>>, Refusal>
    ensures ok { IfOk result (λ over. option_map (λ text. text.items) over ≡ text_back asks (entries_to_undo way changes.now) text.now) }
    ensures err { IfErr result (λ r. (r ≡ NoMemory) × (0 < length text.now + bytes_back (entries_to_undo way changes.now))) }
{
    match patch_over(alloc, text, changes, way, asks)? {
        Some(over) => Ok(Some(over.whole(alloc)?)),
        None => Ok(None),
    }
}

/// Whether there is a change among the entries.
pub fn has_change(entries: &[Change]) -> bool
    ensures { result ≡ has_change (map entry_of entries.now) }
{
    for entry in entries {
        if entry.is_change() {
            return true;
        }
    }
    false
}

// The change among the entries, if it is one alone.
fn lone_change(entries: &[Change]) -> Option<&Change>
    ensures some { IfSome result (λ change. changes_of (map entry_of entries.now) ≡ entry_of change.now ∷ []) }
    ensures none { result ≡ None → ¬ (length (changes_of (map entry_of entries.now)) ≡ 1) }
{
    let mut lone = None;
    for entry in entries {
        if entry.is_change() {
            if lone.is_some() {
                return None;
            }
            lone = Some(entry);
        }
    }
    lone
}
