//! Copying, deleting and killing by a movement.
ghost use Rattle.std.specs.Prelude.{◌≡◌, ◌<◌, ◌↔◌, length, OnErr, ◌∷◌, [], ℕ, List, true, false, Some, None, IfOk, IfErr, IfSome, IsSome};
ghost use Rattle.std.specs.Option.{option_map};
ghost use Rattle.std.specs.String.{string_bytes};
ghost use Rattle.rl_base.specs.Event.{Delete};
ghost use Rattle.rl_base.specs.Text.{HasText};
ghost use Rattle.rl_base.specs.declared.listeners.Refusal.TheVariants.{NoMemory};
ghost use Rattle.rl_base.specs.declared.motion.Movement.{Movement};
ghost use Rattle.rl_base.specs.declared.motion.Movement.TheVariants.{BeginningOfLine, EndOfLine, BackwardWord, ForwardWord, ViCharSearch, BackwardChar, BeginningOfBuffer, EndOfBuffer};
ghost use Rattle.rl_line.specs.Line.{Line};
ghost use Rattle.rl_line.specs.Plan.{Outcome, nothing_more, a_copy};
ghost use Rattle.rl_line.specs.Deletions.{CanDeleteBy, ToldOutcome, copied, delete_plan, is_by_characters, is_exact, kill_plan, kill_range_plan, removal, side_of, side_of_place, texts_of};
ghost use Rattle.rl_line.specs.Ranges.{text_in};
ghost use Rattle.rl_line.specs.LineRanges.{IsRange};

use crate::change::copied;
use crate::line_buffer::LineBuffer;
use rl_base::{At, CharSearch, DeleteListener, Direction, Movement, Refusal, RepeatCount, Word};
use std::ops::Range;

impl LineBuffer {
    /// Copies what a movement covers, or answers None if that is nothing. The line stays as it is.
    pub fn copy(&self, mvt: &Movement) -> Result<Option<String>, Refusal>
        ensures ok { IfOk result (λ answer. option_map string_bytes answer ≡ copied self.now mvt.now) }
        ensures err { IfErr result (λ r. (r ≡ NoMemory) × HasText (copied self.now mvt.now)) }
    {
        match self.covered(mvt) {
            Some(range) => Ok(Some(self.text_of(&range)?)),
            None => Ok(None),
        }
    }

    // A copy of the text of a range.
    pub(super) fn text_of(&self, range: &Range<usize>) -> Result<String, Refusal>
        requires { IsRange self.now.text range.now.start range.now.end }
        ensures ok { IfOk result (λ copy. string_bytes copy ≡ text_in self.now range.now) }
        ensures err { IfErr result (λ r. r ≡ NoMemory) }
        ensures some { OnErr result (0 < length (text_in self.now range.now)) }
    {
        let text = &self.as_str()[range.start..range.end];
        copied(self.line.allocator(), text)
    }

    /// Deletes the next `n` grapheme clusters (GNU readline: delete-char), and answers their text, or None
    /// at the end and for `n` = 0. The answer is copied before the listener hears of it: refused, it leaves
    /// the line as it was.
    #[tactic(auto, using(crate::proofs::Plans::KillLemmas::deletions))]
    pub fn delete<L: DeleteListener>(
        &mut self,
        n: RepeatCount,
        listener: &mut L,
    ) -> Result<Option<String>, Refusal>
        ensures { Outcome L.step L.refused a_copy (delete_plan self.old n) self.old self.new listener.old listener.new (texts_of result) }
    {
        match self.covered(&Movement::ForwardChar(n)) {
            Some(range) => {
                let gone = self.text_of(&range)?;
                self.take_out(range, Direction::Forward, listener)?;
                Ok(Some(gone))
            }
            None => Ok(None),
        }
    }

    // The side of the cursor that a movement takes text from.
    fn side_of(&self, mvt: &Movement) -> Direction
        ensures { result ≡ side_of self.now mvt.now }
    {
        match mvt {
            Movement::BeginningOfLine
            | Movement::BackwardWord(_, _)
            | Movement::ViCharSearch(_, CharSearch::Backward(_) | CharSearch::BackwardAfter(_))
            | Movement::BackwardChar(_)
            | Movement::BeginningOfBuffer => Direction::Backward,
            Movement::FirstNonBlank => self.side_of_place(self.first_nonblank()),
            Movement::WholeLine
            | Movement::EndOfLine
            | Movement::ForwardWord(_, _, _)
            | Movement::ViCharSearch(_, CharSearch::Forward(_) | CharSearch::ForwardBefore(_))
            | Movement::ViFirstPrint
            | Movement::ForwardChar(_)
            | Movement::LineUp(_)
            | Movement::LineDown(_)
            | Movement::WholeLinesUp(_)
            | Movement::WholeLinesDown(_)
            | Movement::WholeBuffer
            | Movement::EndOfBuffer => Direction::Forward,
        }
    }

    // The side of the cursor on which a place lies.
    fn side_of_place(&self, place: usize) -> Direction
        ensures { result ≡ side_of_place self.now place }
    {
        if place < self.pos() {
            return Direction::Backward;
        }
        Direction::Forward
    }

    // Deletes a range, if there is one. Answers whether there is.
    #[tactic(auto, using(crate::proofs::Plans::KillLemmas::deletions))]
    fn remove<L: DeleteListener>(
        &mut self,
        range: Option<Range<usize>>,
        side: Direction,
        listener: &mut L,
    ) -> Result<bool, Refusal>
        requires { IfSome range (λ r. IsRange self.old.text r.start r.end) }
        ensures { Outcome L.step L.refused nothing_more (removal self.old range side) self.old self.new listener.old listener.new result }
    {
        match range {
            Some(range) => {
                self.take_out(range, side, listener)?;
                Ok(true)
            }
            None => Ok(false),
        }
    }

    // The same as a kill: the listener hears its start first and its end last.
    #[tactic(auto, using(crate::proofs::Plans::KillLemmas::kills))]
    fn kill_some<L: DeleteListener>(
        &mut self,
        range: Option<Range<usize>>,
        side: Direction,
        listener: &mut L,
    ) -> Result<bool, Refusal>
        requires { IfSome range (λ r. IsRange self.old.text r.start r.end) }
        ensures { ToldOutcome L.step L.refused false (removal self.old range side) self.old self.new listener.old listener.new result }
    {
        listener.start_killing();
        let answer = self.remove(range, side, listener);
        listener.stop_killing();
        answer
    }

    /// Deletes what a kill by the movement would take, and tells no kill. Answers whether there was something. It takes no
    /// memory; if its listener refuses, the line stays as it was.
    pub fn delete_by<L: DeleteListener>(
        &mut self,
        mvt: &Movement,
        listener: &mut L,
    ) -> Result<bool, Refusal>
        ensures { Outcome L.step L.refused nothing_more (kill_plan self.old mvt.now) self.old self.new listener.old listener.new result }
    {
        self.index_lines_for(mvt);
        let side = self.side_of(mvt);
        let range = self.killed(mvt);
        self.remove(range, side, listener)
    }

    /// Kills by a movement: deletes what it covers. If that is nothing, `WholeLine` and `EndOfLine` kill the
    /// line's newline, and `BeginningOfLine` kills the cluster before the line. `ViFirstPrint` kills nothing.
    /// Answers whether something was killed. The listener hears the start of a kill first and its end last, also
    /// if nothing was killed or it refused. With `BackwardChar` and `ForwardChar` it hears of the deletion
    /// alone. It needs no memory; if its listener refuses, the line stays as it was.
    pub fn kill<L: DeleteListener>(
        &mut self,
        mvt: &Movement,
        listener: &mut L,
    ) -> Result<bool, Refusal>
        ensures { ToldOutcome L.step L.refused (is_by_characters mvt.now) (kill_plan self.old mvt.now) self.old self.new listener.old listener.new result }
    {
        if is_by_characters(mvt) {
            return self.delete_by(mvt, listener);
        }
        self.index_lines_for(mvt);
        let side = self.side_of(mvt);
        let range = self.killed(mvt);
        self.kill_some(range, side, listener)
    }

    /// Kills a range of byte places as a kill by a movement does: the listener hears the start of a kill, the deletion
    /// with the given direction, and the end. Moves the cursor to the range's start, and answers true; if the range
    /// is empty it stays, and the answer is false. It needs no memory; if its listener refuses, the line stays as it
    /// was.
    pub fn kill_range<L: DeleteListener>(
        &mut self,
        range: Range<usize>,
        dir: Direction,
        listener: &mut L,
    ) -> Result<bool, Refusal>
        requires { IsRange self.old.text range.start range.end }
        ensures { ToldOutcome L.step L.refused false (kill_range_plan self.old range.start range.end dir) self.old self.new listener.old listener.new result }
    {
        let some = self.unless_empty(range.start, range.end);
        self.kill_some(some, dir, listener)
    }

    /// Deletes the last `n` grapheme clusters before the cursor (GNU readline: backward-delete-char).
    /// Answers whether it deleted one: not at the start, nor for `n` = 0. It needs no memory; if its listener
    /// refuses, the line stays as it was.
    pub fn backspace<L: DeleteListener>(
        &mut self,
        n: RepeatCount,
        listener: &mut L,
    ) -> Result<bool, Refusal>
        ensures { Outcome L.step L.refused nothing_more (kill_plan self.old (BackwardChar n)) self.old self.new listener.old listener.new result }
    {
        self.delete_by(&Movement::BackwardChar(n), listener)
    }

    /// Deletes from the cursor to the end of its line, or the newline if the cursor is there (GNU
    /// readline: kill-line). Answers whether the cursor was before the end of the text. It needs no memory;
    /// if its listener refuses, the line stays as it was.
    pub fn kill_line<L: DeleteListener>(&mut self, listener: &mut L) -> Result<bool, Refusal>
        ensures { Outcome L.step L.refused nothing_more (kill_plan self.old EndOfLine) self.old self.new listener.old listener.new result }
    {
        self.delete_by(&Movement::EndOfLine, listener)
    }

    /// Deletes from the cursor to the end of the text. Answers whether the cursor was before the end. It needs
    /// no memory; if its listener refuses, the line stays as it was.
    pub fn kill_buffer<L: DeleteListener>(&mut self, listener: &mut L) -> Result<bool, Refusal>
        ensures { Outcome L.step L.refused nothing_more (kill_plan self.old EndOfBuffer) self.old self.new listener.old listener.new result }
    {
        self.delete_by(&Movement::EndOfBuffer, listener)
    }

    /// Deletes from the start of the cursor's line to the cursor, or the cluster before it if the cursor
    /// is there (GNU readline: unix-line-discard). Answers whether the cursor was past the start of the
    /// text. It needs no memory; if its listener refuses, the line stays as it was.
    pub fn discard_line<L: DeleteListener>(&mut self, listener: &mut L) -> Result<bool, Refusal>
        ensures { Outcome L.step L.refused nothing_more (kill_plan self.old BeginningOfLine) self.old self.new listener.old listener.new result }
    {
        self.delete_by(&Movement::BeginningOfLine, listener)
    }

    /// Deletes from the start of the text to the cursor. Answers whether the cursor was past the start. It needs
    /// no memory; if its listener refuses, the line stays as it was.
    pub fn discard_buffer<L: DeleteListener>(&mut self, listener: &mut L) -> Result<bool, Refusal>
        ensures { Outcome L.step L.refused nothing_more (kill_plan self.old BeginningOfBuffer) self.old self.new listener.old listener.new result }
    {
        self.delete_by(&Movement::BeginningOfBuffer, listener)
    }

    /// Deletes from the `n`-th start of a word before the cursor, or the text's start, to the cursor (GNU
    /// readline: backward-kill-word, unix-word-rubout). Answers whether the cursor was past the start. It
    /// needs no memory; if its listener refuses, the line stays as it was.
    pub fn delete_prev_word<L: DeleteListener>(
        &mut self,
        word: Word,
        n: RepeatCount,
        listener: &mut L,
    ) -> Result<bool, Refusal>
        ensures { Outcome L.step L.refused nothing_more (kill_plan self.old (BackwardWord n word)) self.old self.new listener.old listener.new result }
    {
        self.delete_by(&Movement::BackwardWord(n, word), listener)
    }

    /// Deletes from the cursor to the `n`-th start or end of a word (GNU readline: kill-word). Answers whether
    /// there is such a place. It needs no memory; if its listener refuses, the line stays as it was.
    pub fn delete_word<L: DeleteListener>(
        &mut self,
        at: At,
        word: Word,
        n: RepeatCount,
        listener: &mut L,
    ) -> Result<bool, Refusal>
        ensures { Outcome L.step L.refused nothing_more (kill_plan self.old (ForwardWord n at word)) self.old self.new listener.old listener.new result }
    {
        self.delete_by(&Movement::ForwardWord(n, at, word), listener)
    }

    /// Deletes between the cursor and the `n`-th hit of a search, or the farthest, with the hit's character
    /// for `Forward` and `Backward` (vi's `df`, `dt`, `dF` and `dT`). Answers whether there is one; for
    /// `n` = 0 there is none. It needs no memory; if its listener refuses, the line stays as it was.
    pub fn delete_to<L: DeleteListener>(
        &mut self,
        cs: CharSearch,
        n: RepeatCount,
        listener: &mut L,
    ) -> Result<bool, Refusal>
        ensures { Outcome L.step L.refused nothing_more (kill_plan self.old (ViCharSearch n cs)) self.old self.new listener.old listener.new result }
    {
        self.delete_by(&Movement::ViCharSearch(n, cs), listener)
    }
}

/// Whether the movement is one to one side of the cursor by which an editor deletes and tells no kill.
pub fn can_delete_by(mvt: &Movement) -> bool
    ensures yes { result ≡ true → CanDeleteBy mvt.now }
    ensures no { result ≡ false → ¬ (CanDeleteBy mvt.now) }
{
    matches!(
        mvt,
        Movement::BeginningOfLine
            | Movement::EndOfLine
            | Movement::BackwardWord(_, _)
            | Movement::ForwardWord(_, _, _)
            | Movement::ViCharSearch(_, _)
            | Movement::BeginningOfBuffer
            | Movement::EndOfBuffer
    )
}

/// Whether the movement goes by grapheme clusters: a kill by it is told as a deletion, not as a kill.
pub fn is_by_characters(mvt: &Movement) -> bool
    ensures { result ≡ is_by_characters mvt.now }
{
    matches!(mvt, Movement::BackwardChar(_) | Movement::ForwardChar(_))
}

/// All movements kill exactly what they copy, except those to the ends of a line, over it, and to the first
/// print place. By one that does, a kill answers true exactly if there is something to copy, and then
/// reports that text and nothing else.
#[tactic(auto, using(crate::proofs::Plans::KillLemmas::kills))]
pub fn kill_agrees_with_copy()
    ensures answer { (line : Line) (mvt : Movement) → is_exact mvt ≡ true → ((kill_plan line mvt).answer ≡ true) ↔ IsSome (copied line mvt) }
    ensures text { (line : Line) (mvt : Movement) (s : List ℕ) → is_exact mvt ≡ true → copied line mvt ≡ Some s
        → (place : ℕ) × ((kill_plan line mvt).steps ≡ (Delete place s (side_of line mvt), place) ∷ []) }
    ensures nothing { (line : Line) (mvt : Movement) → is_exact mvt ≡ true → copied line mvt ≡ None → (kill_plan line mvt).steps ≡ [] }
{}
