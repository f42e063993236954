//! The motions of a line: each moves the cursor to a place, if there is one, and changes nothing else.
ghost use Rattle.std.specs.Prelude.{◌≡◌, ◌↔◌, length, IfSome, IsTrue};
ghost use Rattle.std.specs.Str.{IsCharBoundary};
ghost use Rattle.rl_base.specs.Clusters.{next_pos, prev_pos};
ghost use Rattle.rl_base.specs.Words.{next_word, prev_word};
ghost use Rattle.rl_base.specs.Search.{find_place};
ghost use Rattle.rl_line.specs.Motions.{Moved, destination, unless_there, IsEndOfInput};

use crate::line_buffer::LineBuffer;
use rl_base::places::{find_place, next_pos, next_word, prev_pos, prev_word};
use rl_base::{At, CharSearch, Layout, Movement, RepeatCount, Word};

impl LineBuffer {
    /// Whether nothing but blanks stands from the cursor on.
    pub fn is_end_of_input(&self) -> bool
        ensures { IsTrue result ↔ IsEndOfInput self.now }
    {
        self.pos() >= self.as_str().trim_end().len()
    }

    /// The byte place past the next `n` grapheme clusters (UAX #29), or past all of them if there are
    /// fewer. None at the end and for `n` = 0.
    pub fn next_pos(&self, n: RepeatCount) -> Option<usize>
        ensures place { result ≡ next_pos self.now.text self.now.cursor n }
        ensures boundary { IfSome result (IsCharBoundary self.now.text) }
    {
        next_pos(self.as_str(), self.pos(), n)
    }

    // Moves the cursor to the place, if there is one. Answers whether there is.
    pub(super) fn move_to_place(&mut self, place: Option<usize>) -> bool
        requires { IfSome place (IsCharBoundary self.old.text) }
        ensures { Moved place self.old self.new result }
    {
        match place {
            Some(place) => {
                self.set_pos(place);
                true
            }
            None => false,
        }
    }

    // Moves the cursor to the place. Answers whether it was elsewhere.
    pub(super) fn move_elsewhere(&mut self, place: usize) -> bool
        requires { IsCharBoundary self.old.text place }
        ensures { Moved (unless_there self.old place) self.old self.new result }
    {
        let place = self.unless_there(place);
        self.move_to_place(place)
    }

    // The place, if the cursor is elsewhere.
    fn unless_there(&self, place: usize) -> Option<usize>
        requires { IsCharBoundary self.now.text place }
        ensures value { result ≡ unless_there self.now place }
        ensures boundary { IfSome result (IsCharBoundary self.now.text) }
    {
        if self.pos() == place {
            return None;
        }
        Some(place)
    }

    /// The byte place that a motion by the movement goes to. None if there is none, and if the cursor stands there
    /// already; `WholeLine`, `WholeLinesUp`, `WholeLinesDown`, `WholeBuffer` and `ViFirstPrint` lead nowhere. The layout
    /// counts columns, as for `move_to_line_up`.
    #[tactic(auto, using(crate::proofs::Lines::Starting::starting))]
    pub fn destination(&self, mvt: &Movement, layout: &Layout) -> Option<usize>
        ensures value { result ≡ destination layout.now self.now mvt.now }
        ensures boundary { IfSome result (IsCharBoundary self.now.text) }
    {
        let text = self.as_str();
        let at = self.pos();
        match mvt {
            Movement::BeginningOfLine => self.unless_there(self.home()),
            Movement::EndOfLine => self.unless_there(self.line_end()),
            Movement::FirstNonBlank => self.unless_there(self.first_nonblank()),
            Movement::BackwardWord(n, word) => prev_word(text, at, *word, *n),
            Movement::ForwardWord(n, stop, word) => next_word(text, at, *stop, *word, *n),
            Movement::ViCharSearch(n, cs) => find_place(text, at, *cs, *n),
            Movement::BackwardChar(n) => prev_pos(text, at, *n),
            Movement::ForwardChar(n) => next_pos(text, at, *n),
            Movement::LineUp(n) => self.place_above(*n, layout),
            Movement::LineDown(n) => self.place_below(*n, layout),
            Movement::BeginningOfBuffer => self.unless_there(0),
            Movement::EndOfBuffer => self.unless_there(text.len()),
            Movement::WholeLine
            | Movement::WholeLinesUp(_)
            | Movement::WholeLinesDown(_)
            | Movement::ViFirstPrint
            | Movement::WholeBuffer => None,
        }
    }

    /// Moves by the movement: to its `destination`, if there is one. Answers whether there is.
    pub fn move_by(&mut self, mvt: &Movement, layout: &Layout) -> bool
        ensures { Moved (destination layout.now self.old mvt.now) self.old self.new result }
    {
        self.index_lines_for(mvt);
        let place = self.destination(mvt, layout);
        self.move_to_place(place)
    }

    /// Moves back by `n` grapheme clusters, or to the start (GNU readline: backward-char). Answers whether
    /// it moved: not at the start, nor for `n` = 0.
    pub fn move_backward(&mut self, n: RepeatCount) -> bool
        ensures { Moved (prev_pos self.old.text self.old.cursor n) self.old self.new result }
    {
        let place = prev_pos(self.as_str(), self.pos(), n);
        self.move_to_place(place)
    }

    /// Moves ahead by `n` grapheme clusters, or to the end (GNU readline: forward-char). Answers whether
    /// it moved: not at the end, nor for `n` = 0.
    pub fn move_forward(&mut self, n: RepeatCount) -> bool
        ensures { Moved (next_pos self.old.text self.old.cursor n) self.old self.new result }
    {
        let place = self.next_pos(n);
        self.move_to_place(place)
    }

    /// Moves to the start of the text. Answers whether the cursor was elsewhere.
    #[tactic(auto, using(crate::proofs::Lines::Starting::starting))]
    pub fn move_buffer_start(&mut self) -> bool
        ensures { Moved (unless_there self.old 0) self.old self.new result }
    {
        // So the proof knows that this is UTF-8, and its start a boundary.
        let _text = self.as_str();
        self.move_elsewhere(0)
    }

    /// Moves to the end of the text. Answers whether the cursor was elsewhere.
    pub fn move_buffer_end(&mut self) -> bool
        ensures { Moved (unless_there self.old (length self.old.text)) self.old self.new result }
    {
        let end = self.len();
        self.move_elsewhere(end)
    }

    /// Moves back to the `n`-th start of a word, or to the text's start (GNU readline: backward-word).
    /// Answers whether the cursor was not at the start.
    pub fn move_to_prev_word(&mut self, word: Word, n: RepeatCount) -> bool
        ensures { Moved (prev_word self.old.text self.old.cursor word n) self.old self.new result }
    {
        let place = prev_word(self.as_str(), self.pos(), word, n);
        self.move_to_place(place)
    }

    /// Moves ahead to the `n`-th start or end of a word (GNU readline: forward-word). Answers whether there
    /// is a place to go to.
    pub fn move_to_next_word(&mut self, at: At, word: Word, n: RepeatCount) -> bool
        ensures { Moved (next_word self.old.text self.old.cursor at word n) self.old self.new result }
    {
        let place = next_word(self.as_str(), self.pos(), at, word, n);
        self.move_to_place(place)
    }

    /// Moves to the `n`-th hit of a search for a character, or to the farthest (GNU readline:
    /// character-search). Answers whether there is one; for `n` = 0 there is none.
    pub fn move_to(&mut self, cs: CharSearch, n: RepeatCount) -> bool
        ensures { Moved (find_place self.old.text self.old.cursor cs n) self.old self.new result }
    {
        let place = find_place(self.as_str(), self.pos(), cs, n);
        self.move_to_place(place)
    }
}
