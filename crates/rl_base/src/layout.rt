//! How a text is laid out on a terminal.
ghost use Rattle.std.specs.Prelude.{◌≡◌, ◌≤◌, false, ◌<◌, ◌↔◌};
ghost use Rattle.std.proofs.Common.{rules};
ghost use Rattle.std.specs.Cmp.{partial_order_from_own_ties};
ghost use Rattle.std.specs.Cmp.Rules.{comparing};
ghost use Rattle.std.specs.Ordering.{as_partial_cmp};
ghost use Rattle.rl_base.specs.Widths.{char_columns, blank_layout, by_row, width};
ghost use Rattle.std.specs.Cmp.{IsTotalOrder};
ghost use Rattle.std.specs.declared.cmp.Ordering.TheVariants.{Less, Equal};
ghost use Rattle.rl_base.specs.declared.layout.Position.{Position};

use std::cmp::Ordering;
use unicode_width::{UnicodeWidthChar, UnicodeWidthStr};

/// A number of columns or rows.
pub type Unit = u16;

/// How the columns of a text are counted.
#[derive(Clone, Copy, Debug, PartialEq, Eq)]
pub enum GraphemeClusterMode {
    /// The width of the whole (UAX #11 and emoji sequences).
    Unicode,
    /// The widths of its characters, added up, as `wcwidth` counts them.
    WcWidth,
    /// The widths of the parts between zero width joiners, added up.
    NoZwj,
}

impl GraphemeClusterMode {
    /// The columns that the text takes, at most `Unit::MAX`.
    pub fn width(&self, s: &str) -> Unit
        ensures { result ≡ width self.now s.now }
    {
        match self {
            GraphemeClusterMode::Unicode => whole_width(s),
            GraphemeClusterMode::WcWidth => width_of_chars(s),
            GraphemeClusterMode::NoZwj => width_of_parts(s),
        }
    }
}

fn whole_width(text: &str) -> Unit
    ensures { result ≡ width GraphemeClusterMode.Unicode text.now }
{
    text.width().min(65535) as u16
}

fn char_columns(c: char) -> Unit
    ensures value { result ≡ char_columns c }
    ensures bound { result ≤ 3 }
{
    match c.width() {
        Some(columns) => columns as u16,
        None => 0,
    }
}

#[tactic(auto, using(crate::proofs::Clusters::WidthLemmas::columns))]
fn width_of_chars(text: &str) -> Unit
    ensures { result ≡ width GraphemeClusterMode.WcWidth text.now }
{
    let mut total: Unit = 0;
    for c in text.chars() {
        total = total.saturating_add(char_columns(c));
    }
    total
}

#[tactic(auto, using(crate::proofs::Clusters::WidthLemmas::columns))]
fn width_of_parts(text: &str) -> Unit
    ensures { result ≡ width GraphemeClusterMode.NoZwj text.now }
{
    let mut total: Unit = 0;
    let mut rest = text;
    while let Some((part, more)) = rest.split_once('\u{200d}') {
        total = total.saturating_add(whole_width(part));
        rest = more;
    }
    total.saturating_add(whole_width(rest))
}

/// A place on the terminal, ordered as text runs: by row, then by column.
#[derive(Clone, Copy, Debug, Default, Eq, PartialEq)]
pub struct Position {
    /// The column, from 0.
    pub col: Unit,
    /// The row, from 0.
    pub row: Unit,
}

// A derived order would compare the column first, since that field stands first.
impl Ord for Position {
    ghost cmp = { by_row };

    ghost total = { Prim.search (comparing, rules) };

    ghost matches_partial_cmp = { Prim.search (comparing, rules) };

    ghost matches_eq = { Prim.search (comparing, rules) };

    fn cmp(&self, other: &Position) -> Ordering {
        self.row.cmp(&other.row).then(self.col.cmp(&other.col))
    }
}

impl PartialOrd for Position {
    ghost partial_cmp = { as_partial_cmp by_row };

    ghost laws = { partial_order_from_own_ties (Prim.search (comparing, rules)) (Prim.search (comparing, rules)) };

    fn partial_cmp(&self, other: &Position) -> Option<Ordering> {
        Some(self.cmp(other))
    }
}

/// Where a prompt and a line stand on the terminal.
#[derive(Debug, Drop)]
pub struct Layout {
    /// How columns are counted.
    pub grapheme_cluster_mode: GraphemeClusterMode,
    /// Where the prompt ends and the line begins.
    pub prompt_size: Position,
    /// Whether the prompt is the one that the editor was given.
    pub default_prompt: bool,
    /// Where the cursor stands.
    pub cursor: Position,
    /// Where the line ends.
    pub end: Position,
    /// Whether a hint or a message stands after the line.
    pub has_info: bool,
}

impl Layout {
    /// A layout with every place at row 0, column 0, and no flag set.
    pub fn new(mode: GraphemeClusterMode) -> Self
        ensures { result ≡ blank_layout mode }
    {
        Layout {
            grapheme_cluster_mode: mode,
            prompt_size: Position::default(),
            default_prompt: false,
            cursor: Position::default(),
            end: Position::default(),
            has_info: false,
        }
    }

    /// The columns that the text takes in the layout's mode, at most `Unit::MAX`.
    pub fn width(&self, s: &str) -> Unit
        ensures { result ≡ width self.now.grapheme_cluster_mode s.now }
    {
        self.grapheme_cluster_mode.width(s)
    }
}

/// The order of positions is total, goes by row and within a row by column, and two positions are equal in
/// it exactly if both numbers are.
pub fn positions_are_ordered()
    ensures total { IsTotalOrder by_row }
    ensures rows { (a b : Position) → a.row < b.row → by_row a b ≡ Less }
    ensures columns { (a b : Position) → a.row ≡ b.row → a.col < b.col → by_row a b ≡ Less }
    ensures equal { (a b : Position) → (by_row a b ≡ Equal) ↔ ((a.row ≡ b.row) × (a.col ≡ b.col)) }
{}
