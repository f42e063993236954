//! The table of a line's text: the places right after its newlines, in order, where its lines begin except the first.
ghost use Rattle.std.specs.Prelude.{◌≡◌, List, ℕ, [], ◌+◌, ◌-◌, ◌^◌, ◌<◌, ◌≤◌, ◌++◌, ◌==◌, ◌&&◌, nat_le, true, All, map, take, drop, get_or, length, count_by, encode_utf8, vec_len, vec_capacity};
ghost use Rattle.std.specs.List.{insert_slice, replace_range};
ghost use Rattle.std.specs.Str.{IsCharBoundary};
ghost use Rattle.rl_base.specs.Lines.{is_newline, line_number};
ghost use Rattle.rl_line.specs.LineStarts.{after_newlines, line_starts, from_end, IsTable};
ghost use Rattle.rl_line.specs.LineRanges.{IsRange};

use memchr::memchr_iter;
use std::alloc::Global;

/// Where the lines of a text begin, except the first. The starts before the border are counted from the text's start,
/// those from the border on from the text's end: so a change at the border leaves all of them as they are.
#[derive(Drop)]
pub(crate) struct LineStarts {
    pub(crate) places: Vec<usize>,
    pub(crate) border: usize,
}

/// How many newlines the bytes of a text have. They are counted in stretches so short that a byte holds each count: the compiler
/// makes vectors of bytes of this.
#[inline(never)]
#[tactic(auto, using(crate::proofs::Lines::LineStartLemmas::tables))]
pub(crate) fn newlines(bytes: &[u8]) -> usize
    ensures { result ≡ count_by is_newline bytes.now }
{
    let mut n = 0;
    let mut at = 0;
    while bytes.len() - at > 240 {
        n += usize::from(few_newlines(&bytes[at..at + 240]));
        at += 240;
    }
    n + usize::from(few_newlines(&bytes[at..]))
}

// How many newlines a stretch of a text has.
#[inline(always)]
fn few_newlines(bytes: &[u8]) -> u8
    requires { length bytes.now < 256 }
    ensures { result ≡ count_by is_newline bytes.now }
{
    let mut n = 0u8;
    for b in bytes {
        if *b == b'\n' {
            n += 1;
        }
    }
    n
}

/// How many newlines a character is.
#[tactic(auto, using(crate::proofs::Lines::LineStartLemmas::newlines_told))]
pub(crate) fn newlines_of(c: char) -> usize
    ensures { result ≡ count_by is_newline (encode_utf8 c) }
{
    usize::from(c == '\n')
}

/// The start numbered `k` of a text, from 0, which is looked for in the text.
#[cold]
#[inline(never)]
#[tactic(auto, using(crate::proofs::Lines::LineStartLemmas::found_starts))]
pub(crate) fn nth_start(text: &str, k: usize) -> usize
    requires { k < count_by is_newline text.now }
    ensures { result ≡ get_or (line_starts text.now) k 0 }
{
    let mut n = 0;
    for newline in memchr_iter(b'\n', text.as_bytes()) {
        if n == k {
            return newline + 1;
        }
        n += 1;
    }
    unreachable!()
}

impl LineStarts {
    /// The table of an empty text.
    pub(crate) fn new(alloc: Global) -> Self
        ensures { IsTable result.places.items result.border [] }
    {
        LineStarts {
            places: Vec::new(alloc),
            border: 0,
        }
    }

    /// The start numbered `k`, from 0, in the table of a text.
    #[inline(always)]
    pub(crate) fn start(&self, text: &str, k: usize) -> usize
        requires table { IsTable self.now.places.items self.now.border text.now }
        requires within { k < vec_len self.now.places }
        ensures { result ≡ get_or (line_starts text.now) k 0 }
    {
        if k < self.border {
            return self.places[k];
        }
        text.len() - self.places[k]
    }

    /// The number of the line that a place lies in, from 0, by binary search in the part of the table that has it. Not
    /// inlined, so that the searches of one motion go over the same branches, which the processor then predicts.
    #[inline(never)]
    pub(crate) fn line_number(&self, text: &str, pos: usize) -> usize
        requires table { IsTable self.now.places.items self.now.border text.now }
        requires place { pos ≤ length text.now }
        ensures { result ≡ line_number text.now pos }
    {
        let border = self.border;
        if self.border_by(text, pos) {
            let left = text.len() - pos;
            return border + self.places[border..].partition_point(|start| left <= *start);
        }
        self.places[..border].partition_point(|start| *start <= pos)
    }

    /// Whether the table stays as it is if a range is replaced by a part with `come` newlines: none comes, none
    /// goes, and the border is there.
    #[inline(always)]
    pub(crate) fn stays(&self, text: &str, from: usize, to: usize, come: usize) -> bool
        requires table { IsTable self.now.places.items self.now.border text.now }
        requires order { from ≤ to }
        requires end { to ≤ length text.now }
        ensures { result ≡ (come == 0 && (nat_le self.now.border (line_number text.now from) && nat_le (line_number text.now to) self.now.border)) }
    {
        come == 0 && (self.border_by(text, from) && self.border_after(text, to))
    }

    // Whether all starts before the border lie at a place or before it.
    #[inline(always)]
    #[tactic(auto, using(crate::proofs::Lines::LineReadLemmas::borders))]
    fn border_by(&self, text: &str, pos: usize) -> bool
        requires table { IsTable self.now.places.items self.now.border text.now }
        requires place { pos ≤ length text.now }
        ensures { result ≡ nat_le self.now.border (line_number text.now pos) }
    {
        if self.border == 0 {
            return true;
        }
        self.start(text, self.border - 1) <= pos
    }

    // Whether all starts from the border on lie after a place.
    #[inline(always)]
    #[tactic(auto, using(crate::proofs::Lines::LineReadLemmas::borders))]
    fn border_after(&self, text: &str, pos: usize) -> bool
        requires table { IsTable self.now.places.items self.now.border text.now }
        requires place { pos ≤ length text.now }
        ensures { result ≡ nat_le (line_number text.now pos) self.now.border }
    {
        if self.border == self.places.len() {
            return true;
        }
        pos < self.start(text, self.border)
    }

    // Moves the border. The starts that it passes are then counted from the other end.
    #[tactic(auto, using(crate::proofs::Lines::LineStartLemmas::turned_starts))]
    fn move_border(&mut self, text: &str, border: usize)
        requires table { IsTable self.old.places.items self.old.border text.now }
        requires within { border ≤ vec_len self.old.places }
        ensures table { IsTable self.new.places.items self.new.border text.now }
        ensures border { self.new.border ≡ border }
        ensures count { vec_len self.new.places ≡ vec_len self.old.places }
    {
        let old = self.border;
        self.border = border;
        if border < old {
            turn(&mut self.places[border..old], text.len());
        } else {
            turn(&mut self.places[old..border], text.len());
        }
    }
}

// Counts places of a text of length `len` from its other end.
fn turn(places: &mut [usize], len: usize)
    requires { All (λ place. place ≤ len) places.old }
    ensures { places.new ≡ map (from_end len) places.old }
{
    for place in places.iter_mut() {
        *place = len - *place;
    }
}

/// Updates the table of a text for the replacement of a range by a part. Answers whether it did: memory may be out. Not
/// inlined, so that a change of a text without a table stays short.
#[inline(never)]
#[tactic(auto, using(crate::proofs::Lines::LineStartLemmas::tables))]
pub(crate) fn swap_starts(
    starts: &mut LineStarts,
    text: &str,
    from: usize,
    to: usize,
    part: &str,
) -> bool
    requires range { IsRange text.now from to }
    requires table { IsTable starts.old.places.items starts.old.border text.now }
    ensures { result ≡ true → IsTable starts.new.places.items starts.new.border (replace_range text.now from to part.now) }
{
    let come = newlines(part.as_bytes());
    if starts.stays(text, from, to, come) {
        return true;
    }
    exchange_starts(starts, text, from, to, part, come)
}

/// Updates it for a character that goes in.
#[inline(always)]
#[tactic(auto, using(crate::proofs::Lines::LineStartLemmas::tables))]
pub(crate) fn swap_starts_by_char(starts: &mut LineStarts, text: &str, at: usize, c: char) -> bool
    requires place { IsCharBoundary text.now at }
    requires table { IsTable starts.old.places.items starts.old.border text.now }
    ensures { result ≡ true → IsTable starts.new.places.items starts.new.border (insert_slice text.now at (encode_utf8 c)) }
{
    if starts.stays(text, at, at, newlines_of(c)) {
        return true;
    }
    exchange_encoded(starts, text, at, c)
}

// Updates the table for a character that goes in, by its bytes. Cold: mostly no newline is typed, and at the last change's
// place.
#[cold]
#[inline(never)]
fn exchange_encoded(starts: &mut LineStarts, text: &str, at: usize, c: char) -> bool
    requires place { IsCharBoundary text.now at }
    requires table { IsTable starts.old.places.items starts.old.border text.now }
    ensures { result ≡ true → IsTable starts.new.places.items starts.new.border (insert_slice text.now at (encode_utf8 c)) }
{
    let mut bytes = [0; 4];
    let part = c.encode_utf8(&mut bytes);
    exchange_starts(starts, text, at, at, part, newlines_of(c))
}

/// The same if the border is elsewhere, or newlines come or go. The starts after the range keep their distances from the end.
#[inline(never)]
#[tactic(auto, using(crate::proofs::Lines::LineStartLemmas::tables))]
pub(crate) fn exchange_starts(
    starts: &mut LineStarts,
    text: &str,
    from: usize,
    to: usize,
    part: &str,
    come: usize,
) -> bool
    requires order { from ≤ to }
    requires end { to ≤ length text.now }
    requires table { IsTable starts.old.places.items starts.old.border text.now }
    requires come { come ≡ count_by is_newline part.now }
    ensures table { result ≡ true → IsTable starts.new.places.items starts.new.border (replace_range text.now from to part.now) }
    ensures border { result ≡ true → starts.new.border ≡ line_number text.now from + come }
{
    let first = starts.line_number(text, from);
    starts.move_border(text, first);
    if starts.stays(text, from, to, come) {
        return true;
    }
    let gone = starts.line_number(text, to) - first;
    put_starts(starts, gone, from, part.as_bytes(), come)
}

/// Updates it for a part that comes back at a place where the border is.
pub(crate) fn fill_starts(starts: &mut LineStarts, at: usize, part: &[u8]) -> bool
    requires within { starts.old.border ≤ vec_len starts.old.places }
    requires fits { at + length part.now < 2 ^ 64 }
    ensures { result ≡ true → (text : List ℕ) → IsTable starts.old.places.items starts.old.border text → at ≤ length text → starts.old.border ≡ line_number text at → IsTable starts.new.places.items starts.new.border (replace_range text at at part.now) }
{
    let come = newlines(part);
    put_starts(starts, 0, at, part, come)
}

// At the border, which is at a place, `gone` starts give way to those of a part with `come` newlines.
#[inline(always)]
fn put_starts(starts: &mut LineStarts, gone: usize, at: usize, part: &[u8], come: usize) -> bool
    requires within { starts.old.border + gone ≤ vec_len starts.old.places }
    requires come { come ≡ count_by is_newline part.now }
    requires fits { at + length part.now < 2 ^ 64 }
    ensures places { result ≡ true → starts.new.places.items ≡ take starts.old.border starts.old.places.items ++ (after_newlines (at + 1) part.now ++ drop (starts.old.border + gone) starts.old.places.items) }
    ensures border { result ≡ true → starts.new.border ≡ starts.old.border + come }
{
    let first = starts.border;
    if starts.places.reserve(come.saturating_sub(gone)).is_err() {
        return false;
    }
    open_gap(&mut starts.places, first, gone, come);
    put_after_newlines(&mut starts.places[first..], at, part);
    starts.border = first + come;
    true
}

// Replaces `gone` places from index `at` on by `come` places, whose values are left open. One more or less, as for a
// newline that is typed or taken out, goes by the calls that move memory. There is room for them.
#[tactic(auto, using(crate::proofs::Lines::LineStartLemmas::gaps))]
fn open_gap(places: &mut Vec<usize>, at: usize, gone: usize, come: usize)
    requires within { at + gone ≤ vec_len places.old }
    requires room { (vec_len places.old - gone) + come ≤ vec_capacity places.old }
    ensures before { take at places.new.items ≡ take at places.old.items }
    ensures after { drop (at + come) places.new.items ≡ drop (at + gone) places.old.items }
    ensures count { vec_len places.new ≡ (vec_len places.old - gone) + come }
{
    if come == gone {
        return;
    }
    let len = places.len();
    if come < gone {
        if gone - come == 1 {
            places.remove(at);
            return;
        }
        places.copy_within(at + gone..len, at + come);
        places.truncate(len - (gone - come));
        return;
    }
    if come - gone == 1 {
        match places.insert(at, 0) {
            Ok(()) => return,
            Err(_) => unreachable!(),
        }
    }
    match places.resize(len + (come - gone), 0) {
        Ok(()) => {}
        Err(_) => unreachable!(),
    }
    places.copy_within(at + gone..len, at + come);
}

// Puts the places after the newlines of a part that begins at `at` before those that stay.
#[inline(never)]
#[tactic(auto, using(crate::proofs::Lines::LineStartLemmas::found_starts))]
fn put_after_newlines(places: &mut [usize], at: usize, part: &[u8])
    requires within { count_by is_newline part.now ≤ length places.old }
    requires fits { at + length part.now < 2 ^ 64 }
    ensures { places.new ≡ after_newlines (at + 1) part.now ++ drop (count_by is_newline part.now) places.old }
{
    let mut n = 0;
    for newline in memchr_iter(b'\n', part) {
        places[n] = at + newline + 1;
        n += 1;
    }
}
