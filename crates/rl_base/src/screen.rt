//! How the rows of a screen show a text.
ghost use Rattle.std.specs.Prelude.{◌≡◌, ◌+◌, ◌≤◌, ◌<◌, ◌^◌, ◌++◌, ℕ, IfErr, IfOk, List, length, min, replicate, slice_get};
ghost use Rattle.std.specs.Str.{IsCharBoundary};
ghost use Rattle.rl_base.specs.declared.screen.Screen.{Screen};
ghost use Rattle.rl_base.specs.Screen.{InRow, StandsAt, after, cell, columns_of, filled, first_column, fitted, filled_after, has_control, is_in_line, is_within, place_at, rows, rows_from, screen_from, stands, tabbed, wrapped};

use crate::layout::{GraphemeClusterMode, Unit};
use unicode_segmentation::UnicodeSegmentation;

/// A screen that shows a text, whose first line begins after a prompt, and each other line after another.
#[derive(Clone, Copy, Debug, PartialEq, Eq)]
pub struct Screen {
    /// How columns are counted.
    pub mode: GraphemeClusterMode,
    /// How many columns a row has.
    pub columns: Unit,
    /// The column at which the first line of the text begins.
    pub prompt: Unit,
    /// The column at which each other line begins.
    pub continuation: Unit,
    /// How far tab stops are apart; 0 if a tab is as wide as any control character.
    pub tab: Unit,
    /// How many columns a control character takes, as `^A` takes two; 0 if as many as `mode` tells.
    pub controls: Unit,
}

impl Screen {
    // The columns of a cluster that is laid out.
    fn columns_of(&self, cluster: &str) -> Unit
        ensures { result ≡ columns_of self.now cluster.now }
    {
        if self.controls > 0 && has_control(cluster) {
            return self.controls;
        }
        self.mode.width(cluster)
    }

    // The row and column after a tab, which goes to the next tab stop, or to the right edge if that is nearer.
    fn tabbed(&self, row: usize, column: usize) -> (usize, usize)
        requires row { row < 2 ^ 63 }
        requires tab { 0 < self.now.tab }
        ensures place { result ≡ tabbed self.now (row, column) }
        ensures row { result.0 ≤ row + 1 }
        ensures column { result.1 ≤ 65535 }
    {
        let columns = usize::from(self.columns);
        let tab = usize::from(self.tab);
        if column < columns {
            (row, columns.min(column + (tab - column % tab)))
        } else {
            (row + 1, columns.min(tab))
        }
    }

    // The row and column after a cluster of so many columns. One without any stays where it is.
    fn fitted(&self, row: usize, column: usize, width: usize) -> (usize, usize)
        requires row { row < 2 ^ 63 }
        requires column { column ≤ 65535 }
        requires width { width ≤ 65535 }
        ensures place { result ≡ fitted self.now (row, column) width }
        ensures row { result.0 ≤ row + 1 }
        ensures column { result.1 ≤ 65535 }
    {
        let columns = usize::from(self.columns);
        if width == 0 || column + width <= columns {
            (row, column + width)
        } else {
            (row + 1, width)
        }
    }

    // The row and column after a cluster that is laid out at a row and column.
    fn after(&self, row: usize, column: usize, cluster: &str) -> (usize, usize)
        requires row { row < 2 ^ 63 }
        requires column { column ≤ 65535 }
        ensures place { result ≡ after self.now (row, column) cluster.now }
        ensures row { result.0 ≤ row + 1 }
        ensures column { result.1 ≤ 65535 }
    {
        if cluster == "\n" || cluster == "\r\n" {
            return (row + 1, usize::from(self.continuation));
        }
        if cluster == "\t" && self.tab > 0 {
            return self.tabbed(row, column);
        }
        self.fitted(row, column, usize::from(self.columns_of(cluster)))
    }

    // The row and column; at the right edge or past it, those of the next row's start.
    fn wrapped(&self, row: usize, column: usize) -> (usize, usize)
        requires { row < 2 ^ 63 }
        ensures cell { result ≡ wrapped self.now.columns (row, column) }
        ensures row { result.0 ≤ row + 1 }
    {
        if usize::from(self.columns) <= column {
            (row + 1, 0)
        } else {
            (row, column)
        }
    }

    // Where a cluster stands that is laid out at a row and column.
    fn stands(&self, row: usize, column: usize, cluster: &str) -> (usize, usize)
        requires row { row < 2 ^ 63 }
        requires column { column ≤ 65535 }
        ensures cell { result ≡ stands self.now (row, column) cluster.now }
        ensures row { result.0 ≤ row + 1 }
    {
        if cluster == "\n" || cluster == "\r\n" || (cluster == "\t" && self.tab > 0) {
            return self.wrapped(row, column);
        }
        if column + usize::from(self.columns_of(cluster)) <= usize::from(self.columns) {
            self.wrapped(row, column)
        } else {
            (row + 1, 0)
        }
    }

    /// The row and column, both from 0, of a byte place of a text: where the cluster stands that begins there. Clusters
    /// stand one after another, and one that does not fit in its row goes whole to the next; one without columns always
    /// fits. The end of a line leads to the next row, also at the right edge, a tab to the next tab stop or to the right
    /// edge if that is nearer. A place at the right edge is column 0 of the next row, one inside a cluster where that
    /// stands, and one past the text where it ends.
    pub fn cell(&self, text: &str, place: usize) -> (usize, usize)
        ensures value { result ≡ cell self.now text.now place }
        ensures row { result.0 ≤ 2 ^ 63 }
    {
        let mut row: usize = 0;
        let mut column = usize::from(self.prompt);
        let mut left = place;
        for cluster in text.graphemes(true) {
            let bytes = cluster.len();
            if left < bytes {
                return self.stands(row, column, cluster);
            }
            (row, column) = self.after(row, column, cluster);
            left -= bytes;
        }
        self.wrapped(row, column)
    }

    /// The byte place at a row and column of the screen, as a mouse points to it: the last between two clusters whose
    /// cell, by `cell`, is that one or before it; 0 if there is none. It reads the text up to there.
    pub fn place_at(&self, text: &str, cell: (usize, usize)) -> usize
        ensures value { result ≡ place_at self.now text.now cell }
        ensures within { result ≤ length text.now }
    {
        self.seek(text, cell).0
    }

    /// The byte place at a column of a row, as `place_at` finds it; if the text ends above that row, the error is the cell of
    /// its end. It reads the text up to there.
    pub fn find_in_row(
        &self,
        text: &str,
        row: usize,
        column: usize,
    ) -> Result<usize, (usize, usize)>
        ensures ok { IfOk result (λ place. place ≡ place_at self.now text.now (row, column)) }
        ensures within { IfOk result (λ place. place ≤ length text.now) }
        ensures err { IfErr result (λ end. (end ≡ cell self.now text.now (length text.now)) × (end.0 < row)) }
    {
        let (place, end) = self.seek(text, (row, column));
        if end.0 < row {
            return Err(end);
        }
        Ok(place)
    }

    // `place_at`, and the cell at which the text ends, or the first one after the given cell.
    fn seek(&self, text: &str, to: (usize, usize)) -> (usize, (usize, usize))
        ensures value { result.0 ≡ place_at self.now text.now to }
        ensures within { result.0 ≤ length text.now }
        ensures end { result.1.0 < to.0 → result.1 ≡ cell self.now text.now (length text.now) }
    {
        let mut row: usize = 0;
        let mut column = usize::from(self.prompt);
        let mut place: usize = 0;
        let mut found: usize = 0;
        for cluster in text.graphemes(true) {
            let at = self.stands(row, column, cluster);
            if !is_within(at, to) {
                return (found, at);
            }
            found = place;
            (row, column) = self.after(row, column, cluster);
            place += cluster.len();
        }
        let end = self.wrapped(row, column);
        if is_within(end, to) {
            return (place, end);
        }
        (found, end)
    }

    /// The byte places of a text where its rows begin, from row 0 on: as many as fit go to `starts`. Answers how many rows
    /// there are, at most two more than bytes; a text that ends at the right edge has one more, for the cursor there.
    pub fn rows(&self, text: &str, starts: &mut [usize]) -> usize
        ensures starts { starts.new ≡ filled (rows self.now text.now) starts.old }
        ensures count { result ≡ length (rows self.now text.now) }
        ensures few { result ≤ length text.now + 2 }
    {
        let mut row: usize = 0;
        let mut column = usize::from(self.prompt);
        let mut place: usize = 0;
        let mut begun: usize = 0;
        for cluster in text.graphemes(true) {
            let last = self.stands(row, column, cluster).0;
            begun = begin_rows(starts, begun, (last + 1).saturating_sub(begun), place);
            (row, column) = self.after(row, column, cluster);
            place += cluster.len();
        }
        let last = self.wrapped(row, column).0;
        begin_rows(starts, begun, (last + 1).saturating_sub(begun), place)
    }

    // The column from which a text is laid out from a place on where a row begins: at the right edge of the row above, if that
    // is a row of the same line.
    fn first_column(&self, text: &str, place: usize) -> Unit
        requires { place ≤ length text.now }
        ensures { result ≡ first_column self.now text.now place }
    {
        if is_in_line(text, place) {
            return self.columns;
        }
        if place == 0 {
            self.prompt
        } else {
            self.continuation
        }
    }

    /// The screen on which a text is laid out from a byte place on where a row begins. Within a line, row 0 is the full row
    /// above the place.
    pub fn screen_from(&self, text: &str, place: usize) -> Screen
        requires { place ≤ length text.now }
        ensures { result ≡ screen_from self.now text.now place }
    {
        let mut on = *self;
        on.prompt = self.first_column(text, place);
        on
    }

    /// The byte places of a text where rows begin, from one where a row begins: as many as fit go to `starts`. Answers how
    /// many these are, and where the next row begins, if one follows. It reads the text up to there.
    pub fn rows_from(&self, text: &str, from: usize, starts: &mut [usize]) -> (usize, Option<usize>)
        requires { IsCharBoundary text.now from }
        ensures starts { starts.new ≡ filled (rows_from self.now text.now from) starts.old }
        ensures count { result.0 ≡ min (length starts.old) (length (rows_from self.now text.now from)) }
        ensures next { result.1 ≡ slice_get (rows_from self.now text.now from) (length starts.old) }
    {
        // Within a line the row above is row 0.
        let above = usize::from(is_in_line(text, from));
        let mut row: usize = 0;
        let mut column = usize::from(self.first_column(text, from));
        let mut place = from;
        let mut begun: usize = 0;
        for cluster in text[from..].graphemes(true) {
            let last = self.stands(row, column, cluster).0;
            begun = begin_rows(
                starts,
                begun,
                (last + 1).saturating_sub(above + begun),
                place,
            );
            if begun > starts.len() {
                return (starts.len(), Some(place));
            }
            (row, column) = self.after(row, column, cluster);
            place += cluster.len();
        }
        let last = self.wrapped(row, column).0;
        begun = begin_rows(
            starts,
            begun,
            (last + 1).saturating_sub(above + begun),
            place,
        );
        if begun > starts.len() {
            return (starts.len(), Some(place));
        }
        (begun, None)
    }
}

// Whether no line begins at a place.
fn is_in_line(text: &str, place: usize) -> bool
    requires { place ≤ length text.now }
    ensures { result ≡ is_in_line text.now place }
{
    place > 0 && text.as_bytes()[place - 1] != b'\n'
}

fn has_control(cluster: &str) -> bool
    ensures { result ≡ has_control cluster.now }
{
    cluster.chars().any(char::is_control)
}

// Whether a cell is another, or before it: in a row above, or in its row and not to the right of it.
fn is_within(at: (usize, usize), cell: (usize, usize)) -> bool
    ensures { result ≡ is_within at cell }
{
    at.0 < cell.0 || (at.0 == cell.0 && at.1 <= cell.1)
}

// Begins so many rows more at a place, after the `begun` that have begun. Answers how many have begun then.
fn begin_rows(starts: &mut [usize], begun: usize, more: usize, place: usize) -> usize
    requires { begun + more < 2 ^ 64 }
    ensures starts { (rest : List ℕ) → filled_after result rest starts.new ≡ filled_after begun (replicate more place ++ rest) starts.old }
    ensures begun { result ≡ begun + more }
    ensures length { length starts.new ≡ length starts.old }
{
    let end = begun + more;
    let mut begun = begun;
    while begun < end {
        if begun < starts.len() {
            starts[begun] = place;
        }
        begun += 1;
    }
    begun
}

/// A place between two clusters is found again by its cell, or one after it with the same cell: the place that is found
/// for the cell of the `k`-th place is the `j`-th for some `j` from `k` on, and has that cell.
pub fn cells_are_found()
    ensures each { (screen : Screen) (text : List ℕ) (k place : ℕ) (at : ℕ × ℕ) → StandsAt screen text k place at → at ≡ cell screen text place }
    ensures found { (screen : Screen) (text : List ℕ) (k place : ℕ) (at : ℕ × ℕ) → StandsAt screen text k place at
        → let c = cell screen text place in (j : ℕ) × (k ≤ j) × StandsAt screen text j (place_at screen text c) c }
{}

/// Rows cover a text without a gap: each place between two clusters stands in the row of its cell, which begins there or
/// before, and the next row begins after it.
pub fn rows_cover()
    ensures { (screen : Screen) (text : List ℕ) (k place : ℕ) (at : ℕ × ℕ) → StandsAt screen text k place at → InRow screen text place at.0 }
{}
