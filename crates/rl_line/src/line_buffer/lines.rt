//! The lines of a text by their numbers, from 0: where each begins and ends, read from the table of line starts.
ghost use Rattle.std.specs.Prelude.{◌≡◌, ◌≢◌, ◌-◌, ◌<◌, ◌≤◌, get_or, length, slice_range, IfSome};
ghost use Rattle.std.specs.Str.{IsCharBoundary, IsUtf8};
ghost use Rattle.rl_base.specs.Lines.{last_line, line_number, lines, start_of_line, end_of_line, text_of_line};
ghost use Rattle.rl_line.specs.LineMotions.{home, line_end, line_above, line_below};
ghost use Rattle.rl_line.specs.LineStarts.{line_starts};
ghost use Rattle.rl_line.specs.Ranges.{after_line};
ghost use Rattle.rl_line.specs.LineRanges.{range_of_line};

use crate::line_buffer::LineBuffer;
use rl_base::{Movement, RepeatCount};
use std::ops::Range;

impl LineBuffer {
    /// Makes the table by which lines are looked up, if it is not there and there is memory for it. Motions, kills and
    /// indents by lines do so by themselves. Call it before questions about lines: without it each looks through the text.
    #[inline(always)]
    pub fn index_lines(&mut self)
        ensures { self.new ≡ self.old }
    {
        self.line.index_lines();
    }

    /// The same, if the movement goes by lines.
    pub fn index_lines_for(&mut self, mvt: &Movement)
        ensures { self.new ≡ self.old }
    {
        match mvt {
            Movement::WholeLine
            | Movement::BeginningOfLine
            | Movement::EndOfLine
            | Movement::FirstNonBlank
            | Movement::LineUp(_)
            | Movement::LineDown(_)
            | Movement::WholeLinesUp(_)
            | Movement::WholeLinesDown(_) => self.index_lines(),
            Movement::BackwardWord(_, _)
            | Movement::ForwardWord(_, _, _)
            | Movement::ViCharSearch(_, _)
            | Movement::ViFirstPrint
            | Movement::BackwardChar(_)
            | Movement::ForwardChar(_)
            | Movement::WholeBuffer
            | Movement::BeginningOfBuffer
            | Movement::EndOfBuffer => {}
        }
    }

    /// The number of the cursor's line, from 0, as `line_at` finds it.
    pub fn line_number(&self) -> usize
        ensures value { result ≡ line_number self.now.text self.now.cursor }
        ensures within { result ≤ last_line self.now.text }
    {
        self.line_at(self.pos())
    }

    /// The number of the line in which a byte place stands, from 0; a newline belongs to the line that it ends. It is looked
    /// up in the table of line starts by binary search, if there is one (`index_lines`); else the newlines before the place
    /// are counted.
    #[tactic(auto, using(crate::proofs::Lines::LineStartLemmas::tables))]
    pub fn line_at(&self, place: usize) -> usize
        requires { place ≤ length self.now.text }
        ensures value { result ≡ line_number self.now.text place }
        ensures within { result ≤ last_line self.now.text }
    {
        self.line.line_number(place)
    }

    /// How many lines the text has, at least one. A newline at its end has an empty line after it.
    #[tactic(auto, using(crate::proofs::Lines::LineReadLemmas::lines_read))]
    pub fn line_count(&self) -> usize
        ensures count { result ≡ length (lines self.now.text) }
        ensures some { 0 < result }
    {
        self.line.newlines() + 1
    }

    /// The byte range of the text of line `i`, counted from 0, without its newline. None if there is no such line.
    #[tactic(auto, using(crate::proofs::Lines::LineReadLemmas::lines_read))]
    pub fn line_range(&self, i: usize) -> Option<Range<usize>>
        ensures value { result ≡ range_of_line self.now.text i }
        ensures text { IfSome result (λ r. slice_range self.now.text r.start r.end ≡ text_of_line self.now.text i) }
        ensures order { IfSome result (λ r. r.start ≤ r.end) }
        ensures boundaries { IfSome result (λ r. IsCharBoundary self.now.text r.start × IsCharBoundary self.now.text r.end) }
    {
        if i > self.last_line() {
            return None;
        }
        Some(self.start_of_line(i)..self.end_of_line(i))
    }

    // The start numbered `k`, from 0, of the lines except the first.
    #[tactic(auto, using(crate::proofs::Lines::LineStartLemmas::tables))]
    fn start(&self, k: usize) -> usize
        requires { k < last_line self.now.text }
        ensures start { result ≡ get_or (line_starts self.now.text) k 0 }
        ensures utf8 { IsUtf8 self.now.text }
    {
        // So the proof knows that the text is UTF-8.
        let _text = self.as_str();
        self.line.start(k)
    }

    // The number of the last line.
    pub(super) fn last_line(&self) -> usize
        ensures { result ≡ last_line self.now.text }
    {
        self.line.newlines()
    }

    // The place where a line begins.
    pub(super) fn start_of_line(&self, k: usize) -> usize
        requires { k ≤ last_line self.now.text }
        ensures value { result ≡ start_of_line self.now.text k }
        ensures boundary { IsCharBoundary self.now.text result }
        ensures above { result ≢ 0 → IsCharBoundary self.now.text (result - 1) }
    {
        // So the proof knows that the text is UTF-8.
        let _cursor = self.pos();
        if k == 0 {
            return 0;
        }
        self.start(k - 1)
    }

    // The place where the text of a line ends, before its newline.
    pub(super) fn end_of_line(&self, k: usize) -> usize
        requires { k ≤ last_line self.now.text }
        ensures value { result ≡ end_of_line self.now.text k }
        ensures boundary { IsCharBoundary self.now.text result }
    {
        if k == self.last_line() {
            return self.len();
        }
        self.start(k) - 1
    }

    // The place after the newline of a line, or the end of the text for the last, which has none.
    pub(super) fn after_line(&self, k: usize) -> usize
        requires { k ≤ last_line self.now.text }
        ensures value { result ≡ after_line self.now.text k }
        ensures boundary { IsCharBoundary self.now.text result }
    {
        if k == self.last_line() {
            return self.len();
        }
        self.start(k)
    }

    // The start of the cursor's line.
    pub(super) fn home(&self) -> usize
        ensures value { result ≡ home self.now }
        ensures before { result ≤ self.now.cursor }
        ensures boundary { IsCharBoundary self.now.text result }
    {
        self.home_of(self.line_number())
    }

    // The start of the cursor's line, `k`.
    #[tactic(auto, using(crate::proofs::Lines::LineReadLemmas::lines_read))]
    pub(super) fn home_of(&self, k: usize) -> usize
        requires k { k ≡ line_number self.now.text self.now.cursor }
        requires within { k ≤ last_line self.now.text }
        ensures value { result ≡ home self.now }
        ensures before { result ≤ self.now.cursor }
        ensures boundary { IsCharBoundary self.now.text result }
    {
        // So the proof knows that the cursor stands within the text.
        let _cursor = self.pos();
        self.start_of_line(k)
    }

    // The end of the text of the cursor's line.
    #[tactic(auto, using(crate::proofs::Lines::LineReadLemmas::lines_read))]
    pub(super) fn line_end(&self) -> usize
        ensures value { result ≡ line_end self.now }
        ensures after { self.now.cursor ≤ result }
        ensures boundary { IsCharBoundary self.now.text result }
    {
        self.end_of_line(self.line_at(self.pos()))
    }

    // The number of the `n`-th line above the cursor's line `k`, at least one, or of the first line. None on the first.
    pub(super) fn line_above(&self, k: usize, n: RepeatCount) -> Option<usize>
        requires k { k ≡ line_number self.now.text self.now.cursor }
        requires within { k ≤ last_line self.now.text }
        ensures value { result ≡ line_above self.now.text self.now.cursor n }
        ensures within { IfSome result (λ k. k ≤ last_line self.now.text) }
    {
        if k == 0 {
            return None;
        }
        Some(k.saturating_sub(usize::from(n.max(1))))
    }

    // The number of the `n`-th line below the cursor's line `k`, at least one, or of the last line. None on the last.
    #[tactic(auto, using(crate::proofs::Lines::LineReadLemmas::lines_read))]
    pub(super) fn line_below(&self, k: usize, n: RepeatCount) -> Option<usize>
        requires k { k ≡ line_number self.now.text self.now.cursor }
        requires within { k ≤ last_line self.now.text }
        ensures value { result ≡ line_below self.now.text self.now.cursor n }
        ensures within { IfSome result (λ k. k ≤ last_line self.now.text) }
    {
        let last = self.last_line();
        if k == last {
            return None;
        }
        Some(last.min(k.saturating_add(usize::from(n.max(1)))))
    }
}
