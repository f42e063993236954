//! Where searches for a character go, and where a text is found.
ghost use Rattle.std.specs.Prelude.{◌≡◌, ◌+◌, ◌<◌, ◌≤◌, length, reverse, take, drop, encode_utf8, IfSome, IsTrue};
ghost use Rattle.std.specs.Char.{len_utf8};
ghost use Rattle.std.specs.Str.{IsCharBoundary};
ghost use Rattle.rl_base.specs.Search.{chosen_hit, hit_ahead, hits, nth_or_last, sought, HitLies, find_place, find_text, place_of_last, IsOnSide};
ghost use Rattle.rl_base.specs.declared.listeners.Direction.TheVariants.{Forward, Backward};
ghost use Rattle.rl_base.specs.Text.{stands_at};

use crate::listeners::Direction;
use crate::motion::{CharSearch, RepeatCount};
use crate::places::bytes::first_occurrence;
use crate::places::next_pos;
use memchr::memmem;
use std::ops::Range;

/// The `n`-th place of the character on the side that `cs` names, or the farthest if there are fewer.
/// A search ahead begins past the cluster at `pos`. None without a hit and for `n` = 0.
pub fn search(text: &str, pos: usize, cs: CharSearch, n: RepeatCount) -> Option<usize>
    requires { IsCharBoundary text.now pos }
    ensures value { result ≡ chosen_hit text.now pos cs n }
    ensures boundary { IfSome result (IsCharBoundary text.now) }
    ensures stands { IfSome result (λ hit. IsTrue (stands_at text.now hit (encode_utf8 (sought cs)))) }
    ensures past { IfSome result (λ hit. IsCharBoundary text.now (hit + len_utf8 (sought cs))) }
    ensures side { IfSome result (HitLies cs pos) }
{
    match cs {
        CharSearch::Backward(c) | CharSearch::BackwardAfter(c) => nth_hit_back(text, pos, c, n),
        CharSearch::Forward(c) | CharSearch::ForwardBefore(c) => search_ahead(text, pos, c, n),
    }
}

/// Where a motion to the hit of `search` goes: to it, past it for `CharSearch::BackwardAfter`, or to the
/// one character before it for `CharSearch::ForwardBefore`.
pub fn find_place(text: &str, pos: usize, cs: CharSearch, n: RepeatCount) -> Option<usize>
    requires { IsCharBoundary text.now pos }
    ensures value { result ≡ find_place text.now pos cs n }
    ensures boundary { IfSome result (IsCharBoundary text.now) }
    ensures side { IfSome result (IsOnSide cs pos) }
{
    let hit = search(text, pos, cs, n)?;
    match cs {
        CharSearch::Forward(_) | CharSearch::Backward(_) => Some(hit),
        CharSearch::BackwardAfter(c) => Some(hit + c.len_utf8()),
        CharSearch::ForwardBefore(_) => Some(char_before(text, pos, hit)),
    }
}

fn search_ahead(text: &str, pos: usize, c: char, n: RepeatCount) -> Option<usize>
    requires { IsCharBoundary text.now pos }
    ensures { result ≡ hit_ahead text.now pos c n }
{
    let start = next_pos(text, pos, 1)?;
    nth_hit(text, start, c, n)
}

/// The place of the `n`-th hit from `start` on, or of the last if there are fewer.
#[tactic(auto, using(crate::proofs::Clusters::SearchLemmas::nothing_left))]
fn nth_hit(text: &str, start: usize, wanted: char, n: RepeatCount) -> Option<usize>
    requires { IsCharBoundary text.now start }
    ensures { result ≡ nth_or_last n (hits wanted start (drop start text.now)) }
{
    let mut hit = None;
    let mut left = n;
    for (place, c) in text[start..].char_indices() {
        if left == 0 {
            break;
        }
        if c == wanted {
            hit = Some(start + place);
            left -= 1;
        }
    }
    hit
}

/// The same for the hits before `end`, counted from there back.
#[tactic(auto, using(crate::proofs::Clusters::SearchLemmas::nothing_left_back))]
fn nth_hit_back(text: &str, end: usize, wanted: char, n: RepeatCount) -> Option<usize>
    requires { IsCharBoundary text.now end }
    ensures { result ≡ nth_or_last n (reverse (hits wanted 0 (take end text.now))) }
{
    let mut hit = None;
    let mut left = n;
    for (place, c) in text[..end].char_indices().rev() {
        if left == 0 {
            break;
        }
        if c == wanted {
            hit = Some(place);
            left -= 1;
        }
    }
    hit
}

/// The place of the last character before `end`, if `start` is before `end`.
fn char_before(text: &str, start: usize, end: usize) -> usize
    requires some { start < end }
    requires start { IsCharBoundary text.now start }
    requires end { IsCharBoundary text.now end }
    ensures value { result ≡ place_of_last (take end text.now) }
    ensures ahead { start ≤ result }
    ensures boundary { IsCharBoundary text.now result }
{
    match text[start..end].char_indices().next_back() {
        Some((place, _)) => start + place,
        None => start,
    }
}

/// The byte range of the nearest occurrence of `sought` on a side of `from`: ahead the first that begins there or after
/// it, back the last that ends there or before it. None without one; an empty text has none. It takes no memory, and
/// time of the text that it goes over.
#[tactic(auto, using(crate::proofs::Texts::OccurrenceLemmas::none_of_empty))]
pub fn find_text(
    text: &str,
    from: usize,
    sought: &str,
    direction: Direction,
) -> Option<Range<usize>>
    requires { IsCharBoundary text.now from }
    ensures value { result ≡ find_text text.now from sought.now direction }
    ensures range { IfSome result (λ r. (r.start ≤ r.end) × IsCharBoundary text.now r.start × IsCharBoundary text.now r.end) }
{
    if sought.is_empty() {
        return None;
    }
    match direction {
        Direction::Forward => find_ahead(text, from, sought),
        Direction::Backward => find_back(text, from, sought),
    }
}

fn find_ahead(text: &str, from: usize, sought: &str) -> Option<Range<usize>>
    requires some { 0 < length sought.now }
    requires from { IsCharBoundary text.now from }
    ensures { result ≡ find_text text.now from sought.now Forward }
{
    let start = from + first_occurrence(text[from..].as_bytes(), sought.as_bytes())?;
    Some(start..start + sought.len())
}

fn find_back(text: &str, from: usize, sought: &str) -> Option<Range<usize>>
    requires some { 0 < length sought.now }
    requires from { IsCharBoundary text.now from }
    ensures { result ≡ find_text text.now from sought.now Backward }
{
    let start = memmem::rfind(text[..from].as_bytes(), sought.as_bytes())?;
    Some(start..start + sought.len())
}
