//! Where word motions go.
ghost use Rattle.std.specs.Prelude.{◌≡◌, ◌≤◌, List, ℕ, IfSome};
ghost use Rattle.std.specs.Str.{IsCharBoundary};
ghost use Rattle.unicode_segmentation.specs.Iter.{grapheme_indices_left};
ghost use Rattle.rl_base.specs.ClusterClass.{class_of};
ghost use Rattle.rl_base.specs.Words.{prev_word, next_word, first_word_cluster, first_member, placed_clusters, next_stop, looked_at, last_stop, last_place, stop_between, stops, nth};

use crate::motion::{At, RepeatCount, Word};
use crate::places::classes::{Class, class_of, ends, starts};
use unicode_segmentation::{GraphemeIndices, UnicodeSegmentation};

/// The place of the `n`-th start of a word before `pos`, counted from `pos` back, or the text's start
/// if there are fewer and for `n` = 0. None at the start.
#[tactic(auto, using(crate::proofs::Clusters::WordLemmas::starting))]
pub fn prev_word(text: &str, pos: usize, word: Word, n: RepeatCount) -> Option<usize>
    requires { IsCharBoundary text.now pos }
    ensures value { result ≡ prev_word text.now pos word n }
    ensures before { IfSome result (λ place. place ≤ pos) }
    ensures boundary { IfSome result (IsCharBoundary text.now) }
{
    let mut clusters = text[..pos].grapheme_indices(true).rev();
    let Some((mut at, cluster)) = clusters.next() else {
        return None;
    };
    if n == 0 {
        return Some(0);
    }
    let mut next = class_of(word, cluster);
    let mut wanted = n;
    for (start, cluster) in clusters {
        let last = class_of(word, cluster);
        if starts(last, next) {
            if wanted == 1 {
                return Some(at);
            }
            wanted -= 1;
        }
        at = start;
        next = last;
    }
    Some(0)
}

/// The place of the `n`-th stop of a motion ahead from `pos`. If there are fewer, and for `n` = 0: the
/// text's end for `At::AfterEnd` and for `Word::Emacs`; else the place of the last cluster, if it is not
/// the one at `pos` and `n` is not 0. None at the end.
pub fn next_word(text: &str, pos: usize, at: At, word: Word, n: RepeatCount) -> Option<usize>
    requires { IsCharBoundary text.now pos }
    ensures value { result ≡ next_word text.now pos at word n }
    ensures ahead { IfSome result (λ place. pos ≤ place) }
    ensures boundary { IfSome result (IsCharBoundary text.now) }
{
    if pos == text.len() {
        return None;
    }
    let stop = next_stop(&text[pos..], at, word, n)?;
    Some(pos + stop)
}

/// The place of the first cluster from `pos` on that belongs to Emacs words, if there is one.
pub fn first_word_cluster(text: &str, pos: usize) -> Option<usize>
    requires { IsCharBoundary text.now pos }
    ensures value { result ≡ first_word_cluster text.now pos }
    ensures ahead { IfSome result (λ place. pos ≤ place) }
    ensures boundary { IfSome result (IsCharBoundary text.now) }
{
    let place = first_member(&text[pos..])?;
    Some(pos + place)
}

/// The place of the first cluster that belongs to Emacs words.
fn first_member(text: &str) -> Option<usize>
    ensures value { result ≡ first_member (placed_clusters text.now) }
    ensures boundary { IfSome result (IsCharBoundary text.now) }
{
    for (place, cluster) in text.grapheme_indices(true) {
        if class_of(Word::Emacs, cluster) == Class::Member {
            return Some(place);
        }
    }
    None
}

/// The `n`-th stop in the text, or where the motion ends instead.
fn next_stop(text: &str, at: At, word: Word, n: RepeatCount) -> Option<usize>
    ensures value { result ≡ next_stop at word n text.now }
    ensures boundary { IfSome result (IsCharBoundary text.now) }
{
    if let Some(stop) = nth_stop(looked_at(text, at), at, word, n) {
        return Some(stop);
    }
    last_stop(text, at, word, n)
}

/// The clusters that a motion looks at: a motion to a word's last cluster skips the first one.
fn looked_at(text: &str, at: At) -> GraphemeIndices<'_>
    ensures { grapheme_indices_left result ≡ looked_at at (placed_clusters text.now) }
{
    let mut clusters = text.grapheme_indices(true);
    if at == At::BeforeEnd {
        let _ = clusters.next();
    }
    clusters
}

/// Where a motion ends if it finds fewer stops than were asked for.
fn last_stop(text: &str, at: At, word: Word, n: RepeatCount) -> Option<usize>
    ensures value { result ≡ last_stop at word n text.now }
    ensures boundary { IfSome result (IsCharBoundary text.now) }
{
    if at == At::AfterEnd || word == Word::Emacs {
        return Some(text.len());
    }
    if n == 0 {
        return None;
    }
    last_place(text)
}

/// The place of the last cluster, if it is not the first.
fn last_place(text: &str) -> Option<usize>
    ensures value { result ≡ last_place text.now }
    ensures boundary { IfSome result (IsCharBoundary text.now) }
{
    let mut clusters = text.grapheme_indices(true);
    let _ = clusters.next();
    let (place, _) = clusters.next_back()?;
    Some(place)
}

/// The place at which a motion stops between two clusters of these places and classes, if it does.
fn stop_between(
    at: At,
    word: Word,
    place: usize,
    last: Class,
    start: usize,
    next: Class,
) -> Option<usize>
    ensures { (x y : List ℕ) → last ≡ class_of word x → next ≡ class_of word y → result ≡ stop_between at word ((place, x), (start, y)) }
{
    match (at, word) {
        (At::Start, _) => starts(last, next).then_some(start),
        (At::AfterEnd, _) | (At::BeforeEnd, Word::Emacs) => ends(last, next).then_some(start),
        (At::BeforeEnd, Word::Big | Word::Vi) => ends(last, next).then_some(place),
    }
}

/// The `n`-th stop among the clusters that are left.
fn nth_stop(mut clusters: GraphemeIndices<'_>, at: At, word: Word, n: RepeatCount) -> Option<usize>
    ensures { result ≡ nth n (stops at word (grapheme_indices_left clusters.entry)) }
{
    let (mut place, cluster) = clusters.next()?;
    if n == 0 {
        return None;
    }
    let mut last = class_of(word, cluster);
    let mut left = n;
    for (start, cluster) in clusters {
        let next = class_of(word, cluster);
        if let Some(stop) = stop_between(at, word, place, last, start, next) {
            if left == 1 {
                return Some(stop);
            }
            left -= 1;
        }
        place = start;
        last = next;
    }
    None
}
