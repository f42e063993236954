//! Where motions over the rows of a screen lead, on which each line is laid out by itself.
ghost use Rattle.std.specs.Prelude.{◌≡◌, ◌+◌, ◌-◌, ◌^◌, ◌≤◌, ◌<◌, length, IfErr, IfOk, IfSome};
ghost use Rattle.std.specs.Str.{IsCharBoundary};
ghost use Rattle.rl_base.specs.Lines.{end_of_line, last_line, line_number};
ghost use Rattle.rl_line.specs.Rows.{TellsAbove, TellsBelow, cell_after, height, near, near_above, place_in_row, rest_of_line, rows_to};

use crate::line_buffer::LineBuffer;
use rl_base::{RepeatCount, Screen};

impl LineBuffer {
    // What follows a place in line `k`, before its newline.
    fn rest_of_line(&self, k: usize, from: usize) -> &str
        requires line { k ≤ last_line self.now.text }
        requires before { from ≤ end_of_line self.now.text k }
        requires boundary { IsCharBoundary self.now.text from }
        ensures text { result.now ≡ rest_of_line self.now.text k from }
        ensures within { from + length result.now ≤ length self.now.text }
    {
        let rest = &self.as_str()[from..self.end_of_line(k)];
        let len = rest.len();
        if k < self.last_line() && len > 0 && rest.as_bytes()[len - 1] == b'\r' {
            return &rest[..len - 1];
        }
        rest
    }

    // How many rows a line takes that ends at a cell.
    fn rows_to(&self, k: usize, end: (usize, usize)) -> usize
        requires { end.0 + 1 < 2 ^ 64 }
        ensures { result ≡ rows_to self.now.text k end }
    {
        if k < self.last_line() && end.1 == 0 {
            end.0.max(1)
        } else {
            end.0 + 1
        }
    }

    // How many rows a line takes.
    fn height(&self, screen: &Screen, k: usize, start: usize) -> usize
        requires line { k ≤ last_line self.now.text }
        requires before { start ≤ end_of_line self.now.text k }
        requires boundary { IsCharBoundary self.now.text start }
        ensures { result ≡ height screen.now self.now.text k start }
    {
        let on = screen.screen_from(self.as_str(), start);
        let rest = self.rest_of_line(k, start);
        self.rows_to(k, on.cell(rest, rest.len()))
    }

    // The place at a column of a row of a line, which is laid out from a place of it on.
    fn place_in_row(
        &self,
        screen: &Screen,
        k: usize,
        from: usize,
        row: usize,
        column: usize,
    ) -> usize
        requires line { k ≤ last_line self.now.text }
        requires before { from ≤ end_of_line self.now.text k }
        requires boundary { IsCharBoundary self.now.text from }
        ensures { result ≡ place_in_row screen.now self.now.text k from row column }
    {
        // So the proof knows that the sum is a `usize`.
        let _len = self.len();
        let on = screen.screen_from(self.as_str(), from);
        from + on.place_at(self.rest_of_line(k, from), (row, column))
    }

    // The same, or an error if there is no such row, which says how many there are.
    fn find_in_row(
        &self,
        screen: &Screen,
        k: usize,
        from: usize,
        row: usize,
        column: usize,
    ) -> Result<usize, usize>
        requires line { k ≤ last_line self.now.text }
        requires before { from ≤ end_of_line self.now.text k }
        requires boundary { IsCharBoundary self.now.text from }
        ensures ok { IfOk result (λ place. (row < height screen.now self.now.text k from)
            × (place ≡ place_in_row screen.now self.now.text k from row column)) }
        ensures err { IfErr result (λ rows. (rows ≡ height screen.now self.now.text k from) × (rows ≤ row)) }
    {
        // So the proof knows that the sum is a `usize`.
        let _len = self.len();
        let on = screen.screen_from(self.as_str(), from);
        let rest = self.rest_of_line(k, from);
        let place = match on.find_in_row(rest, row, column) {
            Ok(place) => place,
            Err(end) => return Err(self.rows_to(k, end)),
        };
        if place < rest.len() {
            return Ok(from + place);
        }
        let height = self.height(screen, k, from);
        if height <= row {
            return Err(height);
        }
        Ok(from + place)
    }

    // The row of the cursor in its line `k`, which is laid out from a place of it on, and its column.
    fn cell_after(&self, screen: &Screen, k: usize, from: usize) -> (usize, usize)
        requires line { k ≤ last_line self.now.text }
        requires end { from ≤ end_of_line self.now.text k }
        requires before { from ≤ self.now.cursor }
        requires boundary { IsCharBoundary self.now.text from }
        ensures value { result ≡ cell_after screen.now self.now.text k from self.now.cursor }
        ensures row { result.0 ≤ 2 ^ 63 }
    {
        let on = screen.screen_from(self.as_str(), from);
        on.cell(self.rest_of_line(k, from), self.pos() - from)
    }

    // Where the cursor's line `k` is laid out from: at the given place, if that stands in it and before the cursor.
    #[tactic(auto, using(crate::proofs::Lines::LineReadLemmas::lines_read))]
    fn near(&self, k: usize, given: Option<usize>) -> usize
        requires k { k ≡ line_number self.now.text self.now.cursor }
        requires within { k ≤ last_line self.now.text }
        requires given { IfSome given (λ from. IsCharBoundary self.now.text from) }
        ensures value { result ≡ near self.now.text given self.now.cursor }
        ensures boundary { IsCharBoundary self.now.text result }
        ensures before { result ≤ self.now.cursor }
        ensures end { result ≤ end_of_line self.now.text k }
    {
        let home = self.home_of(k);
        let Some(from) = given else {
            return home;
        };
        if home <= from && from <= self.pos() {
            return from;
        }
        home
    }

    // The same for a motion up by `n` rows, which may lead above the given place; and the cursor's cell there.
    fn near_above(
        &self,
        screen: &Screen,
        k: usize,
        given: Option<usize>,
        n: usize,
    ) -> (usize, (usize, usize))
        requires k { k ≡ line_number self.now.text self.now.cursor }
        requires within { k ≤ last_line self.now.text }
        requires given { IfSome given (λ from. IsCharBoundary self.now.text from) }
        ensures value { result.0 ≡ near_above screen.now self.now.text given n self.now.cursor }
        ensures cell { result.1 ≡ cell_after screen.now self.now.text k result.0 self.now.cursor }
        ensures boundary { IsCharBoundary self.now.text result.0 }
        ensures end { result.0 ≤ end_of_line self.now.text k }
    {
        let from = self.near(k, given);
        let at = self.cell_after(screen, k, from);
        let home = self.near(k, None);
        if n < at.0 || from == home {
            return (from, at);
        }
        (home, self.cell_after(screen, k, home))
    }

    /// The byte place `n` rows below the cursor on a screen (GNU readline: next-screen-line), and the column that it is
    /// looked for at: the given one, or the cursor's. Keep that, and give it to the next motion, which then comes back to it
    /// over a shorter row. A row leads to its last place before the column. Each line is laid out by itself, and has the rows
    /// that it has in the whole text: if it fills its last row, its end stands in the row in which the next line begins. None
    /// if there are fewer rows. The cursor's line is laid out from the place `from`, where a row begins, if that stands in it
    /// and before the cursor; else from its start. It reads the text from there to the row that it comes to.
    pub fn row_below(
        &self,
        screen: &Screen,
        from: Option<usize>,
        n: RepeatCount,
        column: Option<usize>,
    ) -> Option<(usize, usize)>
        requires { IfSome from (λ place. IsCharBoundary self.now.text place) }
        ensures { TellsBelow screen.now self.now.text from n column self.now.cursor result }
    {
        let mut k = self.line_number();
        let mut start = self.near(k, from);
        let (mut row, own) = self.cell_after(screen, k, start);
        let column = column.unwrap_or(own);
        let mut left = usize::from(n);
        let last = self.last_line();
        loop {
            let height = match self.find_in_row(screen, k, start, row + left, column) {
                Ok(place) => return Some((place, column)),
                Err(height) => height,
            };
            if k == last {
                return None;
            }
            left = row + left - height;
            row = 0;
            k += 1;
            start = self.start_of_line(k);
        }
    }

    /// The byte place `n` rows above the cursor on a screen (GNU readline: previous-screen-line), and the column, as
    /// `row_below` tells them. If the row lies above the place `from`, the cursor's line is laid out from its start.
    pub fn row_above(
        &self,
        screen: &Screen,
        from: Option<usize>,
        n: RepeatCount,
        column: Option<usize>,
    ) -> Option<(usize, usize)>
        requires { IfSome from (λ place. IsCharBoundary self.now.text place) }
        ensures { TellsAbove screen.now self.now.text from n column self.now.cursor result }
    {
        let mut left = usize::from(n);
        let mut k = self.line_number();
        let (mut start, (mut row, own)) = self.near_above(screen, k, from, left);
        let column = column.unwrap_or(own);
        while left > row {
            if k == 0 {
                return None;
            }
            k -= 1;
            left -= row + 1;
            start = self.start_of_line(k);
            row = self.height(screen, k, start).saturating_sub(1);
        }
        Some((
            self.place_in_row(screen, k, start, row - left, column),
            column,
        ))
    }
}
