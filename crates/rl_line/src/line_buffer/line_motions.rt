//! The motions over lines.
ghost use Rattle.std.specs.Prelude.{◌≡◌, ◌≤◌, IfSome};
ghost use Rattle.std.specs.Str.{IsCharBoundary};
ghost use Rattle.rl_base.specs.Lines.{last_line, line_number, place_of_column};
ghost use Rattle.rl_line.specs.LineMotions.{column_above, column_below, columns_before, first_nonblank, home, line_end, place_above, place_below, place_in_line};
ghost use Rattle.rl_line.specs.Motions.{Moved, unless_there};

use crate::line_buffer::LineBuffer;
use rl_base::{Layout, RepeatCount, Unit};
use unicode_segmentation::UnicodeSegmentation;

impl LineBuffer {
    /// Moves to the start of the cursor's line (GNU readline: beginning-of-line). Answers whether the cursor
    /// was elsewhere.
    pub fn move_home(&mut self) -> bool
        ensures { Moved (unless_there self.old (home self.old)) self.old self.new result }
    {
        self.index_lines();
        let start = self.home();
        self.move_elsewhere(start)
    }

    /// Moves to the end of the cursor's line, before its newline (GNU readline: end-of-line). Answers whether
    /// the cursor was elsewhere.
    pub fn move_end(&mut self) -> bool
        ensures { Moved (unless_there self.old (line_end self.old)) self.old self.new result }
    {
        self.index_lines();
        let end = self.line_end();
        self.move_elsewhere(end)
    }

    /// Moves up by `n` lines, at least one, or to the first line: to the cluster whose number is the cursor's
    /// column, or to the line's end (GNU readline: previous-screen-line). The layout counts the columns, and
    /// says how far its prompt pushes the first line. Answers whether there is a line above.
    pub fn move_to_line_up(&mut self, n: RepeatCount, layout: &Layout) -> bool
        ensures { Moved (place_above layout.now self.old.text self.old.cursor n) self.old self.new result }
    {
        self.index_lines();
        let place = self.place_above(n, layout);
        self.move_to_place(place)
    }

    /// Moves down by `n` lines, at least one, or to the last line: to the cluster whose number is the cursor's
    /// column, or to the line's end (GNU readline: next-screen-line). The layout counts the columns, and says
    /// how far its prompt pushes the first line. Answers whether there is a line below.
    pub fn move_to_line_down(&mut self, n: RepeatCount, layout: &Layout) -> bool
        ensures { Moved (place_below layout.now self.old.text self.old.cursor n) self.old self.new result }
    {
        self.index_lines();
        let place = self.place_below(n, layout);
        self.move_to_place(place)
    }

    // The first character of the cursor's line that is no blank, or the line's end if there is none.
    #[tactic(auto, using(crate::proofs::Plans::IndentLemmas::parts_of_lines))]
    pub(super) fn first_nonblank(&self) -> usize
        ensures value { result ≡ first_nonblank self.now }
        ensures boundary { IsCharBoundary self.now.text result }
    {
        let k = self.line_number();
        let start = self.start_of_line(k);
        let text = &self.as_str()[start..self.end_of_line(k)];
        start + (text.len() - text.trim_start().len())
    }

    // The place that a motion up by `n` lines goes to.
    #[inline(always)]
    pub(super) fn place_above(&self, n: RepeatCount, layout: &Layout) -> Option<usize>
        ensures value { result ≡ place_above layout.now self.now.text self.now.cursor n }
        ensures boundary { IfSome result (IsCharBoundary self.now.text) }
    {
        let k = self.line_number();
        let target = self.line_above(k, n)?;
        let column = column_above(layout, target, self.columns_before(k, layout));
        Some(self.place_in_line(target, column))
    }

    // The place that a motion down by `n` lines goes to.
    #[inline(always)]
    pub(super) fn place_below(&self, n: RepeatCount, layout: &Layout) -> Option<usize>
        ensures value { result ≡ place_below layout.now self.now.text self.now.cursor n }
        ensures boundary { IfSome result (IsCharBoundary self.now.text) }
    {
        let k = self.line_number();
        let target = self.line_below(k, n)?;
        let column = column_below(layout, k, self.columns_before(k, layout));
        Some(self.place_in_line(target, column))
    }

    // The columns from the start of the cursor's line, `k`, to the cursor.
    fn columns_before(&self, k: usize, layout: &Layout) -> Unit
        requires k { k ≡ line_number self.now.text self.now.cursor }
        requires within { k ≤ last_line self.now.text }
        ensures { result ≡ columns_before layout.now self.now.text self.now.cursor }
    {
        layout.width(&self.as_str()[self.home_of(k)..self.pos()])
    }

    // The place before the cluster of a line whose number is the column, or the line's end.
    #[tactic(auto, using(crate::proofs::Plans::IndentLemmas::parts_of_lines))]
    fn place_in_line(&self, k: usize, column: Unit) -> usize
        requires { k ≤ last_line self.now.text }
        ensures value { result ≡ place_in_line self.now.text k column }
        ensures boundary { IsCharBoundary self.now.text result }
    {
        let start = self.start_of_line(k);
        let line = &self.as_str()[start..self.end_of_line(k)];
        start + place_of_column(line, usize::from(column))
    }
}

// The column to go to in a line above. The prompt stands before the first line.
fn column_above(layout: &Layout, target: usize, columns: Unit) -> Unit
    ensures { result ≡ column_above layout.now target columns }
{
    if target == 0 {
        columns.saturating_sub(layout.prompt_size.col)
    } else {
        columns
    }
}

// The column to go to in a line below, from line `k`.
fn column_below(layout: &Layout, k: usize, columns: Unit) -> Unit
    ensures { result ≡ column_below layout.now k columns }
{
    if k == 0 {
        columns.saturating_add(layout.prompt_size.col)
    } else {
        columns
    }
}

// The place before the cluster numbered `column`, from 0, or the end if there are fewer.
fn place_of_column(line: &str, column: usize) -> usize
    ensures value { result ≡ place_of_column line.now column }
    ensures boundary { IsCharBoundary line.now result }
{
    match line.grapheme_indices(true).nth(column) {
        Some((place, _)) => place,
        None => line.len(),
    }
}
