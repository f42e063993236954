//! The first occurrence of some bytes.
ghost use Rattle.std.specs.Prelude.{◌+◌, ◌<◌, ◌≤◌, length, MatchOption};
ghost use Rattle.memchr.specs.Find.{FindsNeedle, Nowhere, OccursAt};

use memchr::arch::all::is_prefix;
use memchr::arch::all::packedpair::Pair;
use memchr::{memchr, memmem};

/// The first place of a needle. One of its rarest bytes is looked for alone, in half the time of a search for all, as
/// long as it stands at few other places: so few that to compare there takes less time than the bytes between them.
pub(super) fn first_occurrence(hay: &[u8], needle: &[u8]) -> Option<usize>
    requires { 0 < length needle.now }
    ensures { FindsNeedle hay.now needle.now 0 result }
{
    let rare = rarest(needle);
    let (mut start, mut tries) = (0, 0);
    while tries < 16 + start / (256 + needle.len()) {
        let at = next_by_byte(hay, needle, rare, start)?;
        if is_prefix(&hay[at..], needle) {
            return Some(at);
        }
        start = at + 1;
        tries += 1;
    }
    first_from(hay, needle, start)
}

// The index of one of the rarest bytes.
fn rarest(needle: &[u8]) -> usize
    requires { 0 < length needle.now }
    ensures { result < length needle.now }
{
    match Pair::new(needle) {
        Some(pair) => usize::from(pair.index1()),
        None => 0,
    }
}

// The next place from `start` on at which the needle may stand, by its byte at `index`.
fn next_by_byte(hay: &[u8], needle: &[u8], index: usize, start: usize) -> Option<usize>
    requires index { index < length needle.now }
    requires start { start ≤ length hay.now }
    ensures { MatchOption result (Nowhere (OccursAt hay.now needle.now) start (length hay.now + 1))
        (λ at. (start ≤ at) × (at < length hay.now) × Nowhere (OccursAt hay.now needle.now) start at) }
{
    if hay.len() - start <= index {
        return None;
    }
    Some(start + memchr(needle[index], &hay[start + index..])?)
}

fn first_from(hay: &[u8], needle: &[u8], start: usize) -> Option<usize>
    requires { start ≤ length hay.now }
    ensures { FindsNeedle hay.now needle.now start result }
{
    Some(start + memmem::find(&hay[start..], needle)?)
}
