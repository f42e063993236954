//! What each movement covers, for copying, killing and indenting.
ghost use Rattle.std.specs.Prelude.{◌≡◌, ◌+◌, ◌≤◌, min, IfSome};
ghost use Rattle.std.specs.Option.{option_map};
ghost use Rattle.std.specs.Str.{IsCharBoundary};
ghost use Rattle.rl_base.specs.Search.{chosen_hit};
ghost use Rattle.rl_line.specs.LineMotions.{line_end};
ghost use Rattle.rl_line.specs.Ranges.{covered, either_way, from_first_print, indented, killed, lines_down, lines_up, newline_at, to_hit, unless_empty, whole_lines_down, whole_lines_up};

use crate::line_buffer::LineBuffer;
use rl_base::places::{next_pos, next_word, prev_pos, prev_word, search};
use rl_base::{At, CharSearch, Movement, RepeatCount, Word};
use std::ops::Range;

impl LineBuffer {
    /// The byte range that the movement covers, whose text `copy` copies. None if that is nothing.
    pub fn covered(&self, mvt: &Movement) -> Option<Range<usize>>
        ensures value { result ≡ covered self.now mvt.now }
        ensures order { IfSome result (λ r. r.start ≤ r.end) }
        ensures start { IfSome result (λ r. IsCharBoundary self.now.text r.start) }
        ensures end { IfSome result (λ r. IsCharBoundary self.now.text r.end) }
    {
        let text = self.as_str();
        let at = self.pos();
        match mvt {
            Movement::WholeLine => self.unless_empty(self.home(), self.line_end()),
            Movement::BeginningOfLine => self.unless_empty(self.home(), at),
            Movement::EndOfLine => self.unless_empty(at, self.line_end()),
            Movement::BackwardWord(n, word) => Some(prev_word(text, at, *word, *n)?..at),
            Movement::ForwardWord(n, stop, word) => {
                Some(at..next_word(text, at, *stop, *word, *n)?)
            }
            Movement::ViCharSearch(n, cs) => to_hit(text, at, *cs, *n),
            Movement::ViFirstPrint => from_first_print(text, at),
            Movement::FirstNonBlank => self.either_way(self.first_nonblank()),
            Movement::BackwardChar(n) => Some(prev_pos(text, at, *n)?..at),
            Movement::ForwardChar(n) => Some(at..next_pos(text, at, *n)?),
            Movement::LineUp(n) => self.lines_up(*n),
            Movement::LineDown(n) => self.lines_down(*n),
            Movement::WholeLinesUp(n) => self.whole_lines_up(*n),
            Movement::WholeLinesDown(n) => self.whole_lines_down(*n),
            Movement::WholeBuffer => self.unless_empty(0, text.len()),
            Movement::BeginningOfBuffer => self.unless_empty(0, at),
            Movement::EndOfBuffer => self.unless_empty(at, text.len()),
        }
    }

    // What the movement kills.
    pub(super) fn killed(&self, mvt: &Movement) -> Option<Range<usize>>
        ensures value { result ≡ killed self.now mvt.now }
        ensures order { IfSome result (λ r. r.start ≤ r.end) }
        ensures start { IfSome result (λ r. IsCharBoundary self.now.text r.start) }
        ensures end { IfSome result (λ r. IsCharBoundary self.now.text r.end) }
    {
        match mvt {
            Movement::WholeLine | Movement::EndOfLine => match self.covered(mvt) {
                Some(range) => Some(range),
                None => self.newline(),
            },
            Movement::BeginningOfLine => match self.covered(mvt) {
                Some(range) => Some(range),
                None => self.covered(&Movement::BackwardChar(1)),
            },
            Movement::ViFirstPrint => None,
            Movement::BackwardWord(_, _)
            | Movement::ForwardWord(_, _, _)
            | Movement::ViCharSearch(_, _)
            | Movement::FirstNonBlank
            | Movement::BackwardChar(_)
            | Movement::ForwardChar(_)
            | Movement::LineUp(_)
            | Movement::LineDown(_)
            | Movement::WholeLinesUp(_)
            | Movement::WholeLinesDown(_)
            | Movement::WholeBuffer
            | Movement::BeginningOfBuffer
            | Movement::EndOfBuffer => self.covered(mvt),
        }
    }

    // The range whose lines an indent takes.
    pub(super) fn indented(&self, mvt: &Movement) -> Range<usize>
        ensures value { result ≡ indented self.now mvt.now }
        ensures order { result.start ≤ result.end }
        ensures start { IsCharBoundary self.now.text result.start }
        ensures end { IsCharBoundary self.now.text result.end }
    {
        let at = self.pos();
        match mvt {
            Movement::WholeLine
            | Movement::BeginningOfLine
            | Movement::EndOfLine
            | Movement::ViCharSearch(_, _)
            | Movement::ViFirstPrint
            | Movement::FirstNonBlank
            | Movement::BackwardChar(_)
            | Movement::ForwardChar(_) => at..at,
            Movement::BackwardWord(_, _)
            | Movement::ForwardWord(_, _, _)
            | Movement::LineUp(_)
            | Movement::LineDown(_)
            | Movement::WholeLinesUp(_)
            | Movement::WholeLinesDown(_)
            | Movement::WholeBuffer
            | Movement::BeginningOfBuffer
            | Movement::EndOfBuffer => match self.covered(mvt) {
                Some(range) => range,
                None => at..at,
            },
        }
    }

    // The newline at the end of the cursor's line, if it has one.
    fn newline(&self) -> Option<Range<usize>>
        ensures value { result ≡ newline_at self.now.text (line_end self.now) }
        ensures order { IfSome result (λ r. r.start ≤ r.end) }
        ensures start { IfSome result (λ r. IsCharBoundary self.now.text r.start) }
        ensures end { IfSome result (λ r. IsCharBoundary self.now.text r.end) }
    {
        let k = self.line_number();
        self.unless_empty(self.end_of_line(k), self.after_line(k))
    }

    // The cursor's line and `n` lines above it, with their newlines.
    #[tactic(auto, using(crate::proofs::Lines::LineReadLemmas::lines_read))]
    fn lines_up(&self, n: RepeatCount) -> Option<Range<usize>>
        ensures value { result ≡ lines_up self.now.text self.now.cursor n }
        ensures order { IfSome result (λ r. r.start ≤ r.end) }
        ensures start { IfSome result (λ r. IsCharBoundary self.now.text r.start) }
        ensures end { IfSome result (λ r. IsCharBoundary self.now.text r.end) }
    {
        let k = self.line_number();
        if k == 0 {
            return None;
        }
        let first = k.saturating_sub(usize::from(n));
        Some(self.start_of_line(first)..self.after_line(k))
    }

    // The cursor's line and `n` lines below it, with their newlines and the one above.
    #[tactic(auto, using(crate::proofs::Lines::LineReadLemmas::lines_read))]
    fn lines_down(&self, n: RepeatCount) -> Option<Range<usize>>
        ensures value { result ≡ lines_down self.now.text self.now.cursor n }
        ensures order { IfSome result (λ r. r.start ≤ r.end) }
        ensures start { IfSome result (λ r. IsCharBoundary self.now.text r.start) }
        ensures end { IfSome result (λ r. IsCharBoundary self.now.text r.end) }
    {
        let k = self.line_number();
        let last = self.last_line();
        if k == last {
            return None;
        }
        let start = self.start_of_line(k).saturating_sub(1);
        let final_line = last.min(k.saturating_add(usize::from(n)));
        Some(start..self.after_line(final_line))
    }

    // The cursor's line and those above it, `n` in all, at least one, with their newlines.
    #[tactic(auto, using(crate::proofs::Lines::LineReadLemmas::lines_read))]
    fn whole_lines_up(&self, n: RepeatCount) -> Option<Range<usize>>
        ensures value { result ≡ whole_lines_up self.now.text self.now.cursor n }
        ensures order { IfSome result (λ r. r.start ≤ r.end) }
        ensures start { IfSome result (λ r. IsCharBoundary self.now.text r.start) }
        ensures end { IfSome result (λ r. IsCharBoundary self.now.text r.end) }
    {
        let k = self.line_number();
        let first = k.saturating_sub(usize::from(n.saturating_sub(1)));
        self.unless_empty(self.start_of_line(first), self.after_line(k))
    }

    // The cursor's line and those below it, `n` in all, at least one, with their newlines.
    #[tactic(auto, using(crate::proofs::Lines::LineReadLemmas::lines_read))]
    fn whole_lines_down(&self, n: RepeatCount) -> Option<Range<usize>>
        ensures value { result ≡ whole_lines_down self.now.text self.now.cursor n }
        ensures order { IfSome result (λ r. r.start ≤ r.end) }
        ensures start { IfSome result (λ r. IsCharBoundary self.now.text r.start) }
        ensures end { IfSome result (λ r. IsCharBoundary self.now.text r.end) }
    {
        let k = self.line_number();
        let more = usize::from(n.saturating_sub(1));
        let final_line = self.last_line().min(k.saturating_add(more));
        self.unless_empty(self.start_of_line(k), self.after_line(final_line))
    }

    // Between a place and the cursor, whichever comes first.
    fn either_way(&self, place: usize) -> Option<Range<usize>>
        requires { IsCharBoundary self.now.text place }
        ensures value { result ≡ either_way self.now place }
        ensures order { IfSome result (λ r. r.start ≤ r.end) }
        ensures start { IfSome result (λ r. IsCharBoundary self.now.text r.start) }
        ensures end { IfSome result (λ r. IsCharBoundary self.now.text r.end) }
    {
        let at = self.pos();
        if place < at {
            return self.unless_empty(place, at);
        }
        self.unless_empty(at, place)
    }

    // A range of the text, unless it is empty.
    pub(super) fn unless_empty(&self, start: usize, end: usize) -> Option<Range<usize>>
        requires order { start ≤ end }
        requires start { IsCharBoundary self.now.text start }
        requires end { IsCharBoundary self.now.text end }
        ensures value { result ≡ unless_empty start end }
        ensures order { IfSome result (λ r. r.start ≤ r.end) }
        ensures start { IfSome result (λ r. IsCharBoundary self.now.text r.start) }
        ensures end { IfSome result (λ r. IsCharBoundary self.now.text r.end) }
    {
        if start == end {
            return None;
        }
        Some(start..end)
    }
}

// Between the cursor and a hit.
fn to_hit(text: &str, at: usize, cs: CharSearch, n: RepeatCount) -> Option<Range<usize>>
    requires { IsCharBoundary text.now at }
    ensures value { result ≡ option_map (to_hit cs at) (chosen_hit text.now at cs n) }
    ensures order { IfSome result (λ r. r.start ≤ r.end) }
    ensures start { IfSome result (λ r. IsCharBoundary text.now r.start) }
    ensures end { IfSome result (λ r. IsCharBoundary text.now r.end) }
{
    let hit = search(text, at, cs, n)?;
    Some(match cs {
        CharSearch::Forward(c) => at..hit + c.len_utf8(),
        CharSearch::ForwardBefore(_) => at..hit,
        CharSearch::Backward(_) => hit..at,
        CharSearch::BackwardAfter(c) => hit + c.len_utf8()..at,
    })
}

#[tactic(auto, using(crate::proofs::Lines::Starting::starting))]
fn from_first_print(text: &str, at: usize) -> Option<Range<usize>>
    requires { IsCharBoundary text.now at }
    ensures value { result ≡ from_first_print text.now at }
    ensures order { IfSome result (λ r. r.start ≤ r.end) }
    ensures start { IfSome result (λ r. IsCharBoundary text.now r.start) }
    ensures end { IfSome result (λ r. IsCharBoundary text.now r.end) }
{
    if at == 0 {
        return None;
    }
    let start = next_word(text, 0, At::Start, Word::Big, 1)?;
    if start > at {
        return None;
    }
    Some(start..at)
}
