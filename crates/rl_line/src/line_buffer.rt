//! The line: its text, its cursor, and the few steps through which every change of its text goes.
ghost use Rattle.std.specs.Prelude.{◌≡◌, List, [], ◌∷◌, ◌+◌, ◌^◌, ◌<◌, ◌≤◌, ◌↔◌, true, false, length, max, encode_utf8, IsTrue, IsSome, None, Some, IfOk, IfErr, OnOk, OnErr};
ghost use Rattle.std.specs.Str.{IsCharBoundary, IsUtf8};
ghost use Rattle.std.specs.String.{string_bytes};
ghost use Rattle.std.specs.List.{insert_slice, remove_range, replace_range};
ghost use Rattle.rl_base.specs.Event.{InsertChar, InsertStr};
ghost use Rattle.rl_base.specs.declared.listeners.Refusal.TheVariants.{NoMemory};
ghost use Rattle.rl_line.specs.Line.{Line, stepped};
ghost use Rattle.rl_line.specs.Plan.{AreReplay, NeverRefuses, Step, StepOutcome, Taken, after, room_by_step};
ghost use Rattle.rl_line.specs.Going.{LineOutOfRoom, line_back, listener_back, texts_back};
ghost use Rattle.rl_line.specs.Change.{entry_to_undo, entries_to_undo};
ghost use Rattle.rl_line.specs.Entry.{entry_of, is_change};
ghost use Rattle.rl_line.specs.Edits.{DeletesRange, replace_step};
ghost use Rattle.rl_line.specs.LineRanges.{IsRange};

mod deletions;
mod edits;
mod indents;
mod letter_case;
mod line_motions;
mod lines;
mod motions;
mod ranges;
mod rows;
mod transpositions;

use crate::change::{Change, Way, find_room_over, tell_swap};
use crate::going::{gap_range, go_over_each, go_over_with_gap};
use crate::patched::leads_by;
use crate::roomy_line::RoomyLine;
pub use deletions::{can_delete_by, is_by_characters, kill_agrees_with_copy};
use rl_base::{ChangeListener, DeleteListener, Direction, Refusal};
use std::alloc::Global;
use std::fmt;
use std::marker::Model;
use std::ops::Range;

/// The steps that an edit took, replayed on the old text, give the new one: all steps of an edit that was done, and the first
/// ones of one that was halted.
#[tactic(auto, using(crate::proofs::Plans::PlanLemmas::steps_taken))]
pub fn steps_are_a_replay<L: DeleteListener>()
    ensures steps { (steps : List Step) (old new : Line) → after steps old ≡ Some new → AreReplay steps old new }
    ensures taken { (steps : List Step) (old new : Line) (before now : L) → Taken L.step steps old new before now → AreReplay steps old new }
{}

/// The length in bytes that a line of an editor is made for.
pub const MAX_LINE: usize = 4096;

const _: () = prove!(MAX_LINE == 4096);

/// A text, a cursor in it, and a limit on the text's length, all in bytes.
///
/// The cursor always stands between two characters, at most at the end, and the text is never longer than
/// the limit. Only `insert`, `yank`, `yank_pop` and `update` ask whether a text gets too long: if the line
/// may not grow, they do not make it longer than the limit. Whatever else makes it longer raises the limit.
#[derive(Drop)]
pub struct LineBuffer {
    line: RoomyLine,
}

impl Model for LineBuffer {
    ghost use Rattle.rl_line.specs.Line.{Line};

    ghost Value = { Line };

    ghost view = { λ b. b.line.line };
}

impl fmt::Debug for LineBuffer {
    fn fmt<W: fmt::Write>(&self, f: &mut fmt::Formatter<W>) -> fmt::Result {
        let buf = self.as_str();
        let pos = self.pos();
        write!(f, "LineBuffer {{ buf: {buf:?}, pos: {pos} }}")
    }
}

impl LineBuffer {
    /// An empty line with that limit and room for as many bytes. It may not grow.
    pub fn with_capacity(alloc: Global, capacity: usize) -> Result<Self, Refusal>
        ensures ok { IfOk result (λ line. line ≡ record { text = []; cursor = 0; limit = capacity; grow = false }) }
        ensures err { IfErr result (λ r. (r ≡ NoMemory) × (0 < capacity)) }
    {
        let text = String::with_capacity(alloc, capacity)?;
        let line = RoomyLine::new(text, capacity);
        Ok(LineBuffer { line })
    }

    /// An empty line with that limit, which has asked for no memory: it asks when it needs room. It may not grow.
    /// `usize::MAX` is no limit at all, since no text is that long.
    pub fn with_limit(alloc: Global, limit: usize) -> Self
        ensures { result ≡ record { text = []; cursor = 0; limit = limit; grow = false } }
    {
        let line = RoomyLine::new(String::new(alloc), limit);
        LineBuffer { line }
    }

    /// The line, with or without leave to grow past its limit.
    pub fn can_growth(self, can_growth: bool) -> Self
        ensures { result ≡ record self { grow = can_growth } }
    {
        let mut line = self.line;
        line.can_growth = can_growth;
        LineBuffer { line }
    }

    /// The text.
    #[tactic(auto, using(crate::proofs::Lines::RoomyLemmas::views))]
    pub fn as_str(&self) -> &str
        ensures { result.now ≡ self.now.text }
    {
        self.line.as_str()
    }

    /// The text, with the line used up.
    #[tactic(auto, using(crate::proofs::Lines::RoomyLemmas::views))]
    pub fn into_string(self) -> String
        ensures { string_bytes result ≡ self.text }
    {
        let line = self.line;
        let RoomyLine {
            text,
            starts: _,
            has_starts: _,
            pos: _,
            limit: _,
            can_growth: _,
        } = line;
        text
    }

    /// The byte place of the cursor.
    #[tactic(auto, using(crate::proofs::Lines::RoomyLemmas::views))]
    pub fn pos(&self) -> usize
        ensures place { result ≡ self.now.cursor }
        ensures boundary { IsCharBoundary self.now.text result }
        ensures fits { result < 2 ^ 63 }
        ensures utf8 { IsUtf8 self.now.text }
    {
        let line = &self.line;
        line.pos
    }

    /// The length of the text, in bytes.
    #[tactic(auto, using(crate::proofs::Lines::RoomyLemmas::views))]
    pub fn len(&self) -> usize
        ensures len { result ≡ length self.now.text }
        ensures fits { result < 2 ^ 63 }
    {
        self.line.len()
    }

    /// The limit on the text's length, in bytes.
    #[tactic(auto, using(crate::proofs::Lines::RoomyLemmas::views))]
    pub fn limit(&self) -> usize
        ensures limit { result ≡ self.now.limit }
        ensures within { length self.now.text ≤ result }
    {
        let line = &self.line;
        line.limit
    }

    /// Whether the text may get longer than the limit (`can_growth`).
    pub fn may_grow(&self) -> bool
        ensures { result ≡ self.now.grow }
    {
        self.line.can_growth
    }

    /// Sets the limit on the text's length, in bytes: to the text's length if that is greater. So a text that was
    /// longer than the limit, and shrank, can have its limit back. `usize::MAX` is no limit at all.
    pub fn set_limit(&mut self, limit: usize)
        ensures { self.new ≡ record self.old { limit = max limit (length self.old.text) } }
    {
        let line = &mut self.line;
        line.limit = limit.max(line.text.len());
    }

    /// Whether there is no text.
    pub fn is_empty(&self) -> bool
        ensures { IsTrue result ↔ (self.now.text ≡ []) }
    {
        self.as_str().is_empty()
    }

    /// Whether the cursor stands at the end of the text.
    pub fn is_cursor_at_end(&self) -> bool
        ensures { IsTrue result ↔ (self.now.cursor ≡ length self.now.text) }
    {
        self.pos() == self.len()
    }

    /// Moves the cursor to a byte place, which `as_str().is_char_boundary` tests.
    #[tactic(auto, using(crate::proofs::Lines::RoomyLemmas::views))]
    pub fn set_pos(&mut self, pos: usize)
        requires { IsCharBoundary self.old.text pos }
        ensures { self.new ≡ record self.old { cursor = pos } }
    {
        let line = &mut self.line;
        line.pos = pos;
    }

    // One step: finds room, and then puts a text in.
    #[tactic(auto, using(rl_base::proofs::Texts::EventLemmas::fitting))]
    fn put_str<L: ChangeListener>(
        &mut self,
        idx: usize,
        text: &str,
        cursor: usize,
        listener: &mut L,
    ) -> Result<(), Refusal>
        requires place { IsCharBoundary self.old.text idx }
        requires boundary { IsCharBoundary (insert_slice self.old.text idx text.now) cursor }
        ensures step { StepOutcome L.step L.refused room_by_step (InsertStr idx text.now, cursor) self.old self.new listener.old listener.new result }
        ensures line { OnOk result (self.new ≡ stepped self.old (insert_slice self.old.text idx text.now) cursor) }
    {
        self.line.find_room(text.len())?;
        self.line.insertion_step(idx, text, cursor, listener)
    }

    // The same step with one character: finds room, reports, and then puts it in, which can't fail any more. Inlined,
    // with all that typing at the end goes through, so that this is one function that makes calls only for rare cases.
    #[inline(always)]
    #[tactic(auto, using(rl_base::proofs::Texts::EventLemmas::fitting))]
    fn put_char<L: ChangeListener>(
        &mut self,
        idx: usize,
        c: char,
        cursor: usize,
        listener: &mut L,
    ) -> Result<(), Refusal>
        requires place { IsCharBoundary self.old.text idx }
        requires boundary { IsCharBoundary (insert_slice self.old.text idx (encode_utf8 c)) cursor }
        ensures step { StepOutcome L.step L.refused room_by_step (InsertChar idx c, cursor) self.old self.new listener.old listener.new result }
        ensures line { OnOk result (self.new ≡ stepped self.old (insert_slice self.old.text idx (encode_utf8 c)) cursor) }
    {
        self.line.find_room(c.len_utf8())?;
        listener.insert_char(idx, c)?;
        listener.cursors(self.line.pos(), cursor);
        self.line.swap_in_char(idx, c, cursor);
        Ok(())
    }

    // One step: finds room, reports, and then replaces a text by another, which can't fail any more.
    #[tactic(auto, using(rl_base::proofs::Texts::EventLemmas::fitting))]
    fn put_instead<L: ChangeListener>(
        &mut self,
        range: Range<usize>,
        text: &str,
        listener: &mut L,
    ) -> Result<(), Refusal>
        requires { IsRange self.old.text range.start range.end }
        ensures step { StepOutcome L.step L.refused room_by_step (replace_step self.old range text.now) self.old self.new listener.old listener.new result }
        ensures line { OnOk result (self.new ≡ stepped self.old (replace_range self.old.text range.start range.end text.now) (range.start + length text.now)) }
    {
        let (from, to) = (range.start, range.end);
        self.line.find_room_instead(from, to, text)?;
        listener.replace(from, &self.line.as_str()[from..to], text)?;
        let end = from + text.len();
        listener.cursors(self.line.pos(), end);
        self.line.swap_in(from, to, text, end);
        Ok(())
    }

    // One step: reports what is to go, and then takes it out, which leaves the cursor at its start. It needs no room.
    fn take_out<L: DeleteListener>(
        &mut self,
        range: Range<usize>,
        dir: Direction,
        listener: &mut L,
    ) -> Result<(), Refusal>
        requires { IsRange self.old.text range.start range.end }
        ensures step { DeletesRange L.step L.refused range dir range.start self.old self.new listener.old listener.new result }
        ensures line { OnOk result (self.new ≡ stepped self.old (remove_range self.old.text range.start range.end) range.start) }
    {
        let start = range.start;
        self.take_out_before(range, dir, start, listener)
    }

    // The same step, which leaves the cursor at a place. Inlined as well.
    #[inline(always)]
    fn take_out_before<L: DeleteListener>(
        &mut self,
        range: Range<usize>,
        dir: Direction,
        cursor: usize,
        listener: &mut L,
    ) -> Result<(), Refusal>
        requires range { IsRange self.old.text range.start range.end }
        requires boundary { IsCharBoundary (remove_range self.old.text range.start range.end) cursor }
        ensures step { DeletesRange L.step L.refused range dir cursor self.old self.new listener.old listener.new result }
        ensures line { OnOk result (self.new ≡ stepped self.old (remove_range self.old.text range.start range.end) cursor) }
    {
        self.line.deletion_step(range, dir, cursor, listener)
    }

    /// Goes over one change alone, as `go_over_all` does over several. Inlined, so that undo and redo each know their
    /// way at compile time.
    #[inline(always)]
    pub fn go_over_one<L: ChangeListener>(
        &mut self,
        change: &Change,
        way: Way,
        listener: &mut L,
    ) -> Result<(), Refusal>
        requires change { is_change (entry_of change.now) ≡ true }
        requires fits { IsSome (line_back (entry_to_undo way change.now ∷ []) self.old) }
        requires hears { NeverRefuses L.refused }
        ensures ok { OnOk result (line_back (entry_to_undo way change.now ∷ []) self.old ≡ Some self.new) }
        ensures told { OnOk result (listener.new ≡ listener_back L.step self.old.cursor (entry_to_undo way change.now ∷ []) listener.old) }
        ensures err { IfErr result (LineOutOfRoom self.old self.new (texts_back (entry_to_undo way change.now ∷ []) self.old.text)) }
        ensures kept { OnErr result (listener.new ≡ listener.old) }
    {
        // So the proof knows that this is UTF-8.
        let _text = self.line.as_str();
        let Some(at) = change.place() else {
            unreachable!();
        };
        let (going, coming) = change.texts(way);
        let to = at + going.len();
        let after = change.cursor_over(way).unwrap_or(at + coming.len());
        self.line.find_room_instead(at, to, coming)?;
        let before = self.line.pos();
        self.line.swap_in(at, to, coming, after);
        tell_swap(at, going, coming, before, after, listener);
        Ok(())
    }

    /// Goes over one change alone if the line can, and else leaves the line. Answers whether it can. The change is taken apart
    /// once, for the question and for the way.
    #[inline(always)]
    pub fn try_over_one(&mut self, change: &Change, way: Way) -> Result<bool, Refusal>
        requires { is_change (entry_of change.now) ≡ true }
        ensures ok { IfOk result (λ fits. fits ≡ true → line_back (entry_to_undo way change.now ∷ []) self.old ≡ Some self.new) }
        ensures no { IfOk result (λ fits. fits ≡ false → (line_back (entry_to_undo way change.now ∷ []) self.old ≡ None) × (self.new ≡ self.old)) }
        ensures err { IfErr result (LineOutOfRoom self.old self.new (texts_back (entry_to_undo way change.now ∷ []) self.old.text)) }
    {
        // So the proof knows that the cursor stands between two characters.
        let _cursor = self.pos();
        let text = self.line.as_str();
        let Some(at) = change.place() else {
            unreachable!();
        };
        let (going, coming) = change.texts(way);
        let told = change.cursor_over(way);
        if !leads_by(text, at, going, coming, told) {
            return Ok(false);
        }
        let to = at + going.len();
        self.line.find_room_instead(at, to, coming)?;
        let after = told.unwrap_or(at + coming.len());
        self.line.swap_in(at, to, coming, after);
        Ok(true)
    }

    /// Goes over the changes: going back, the last first; going ahead, the first first. It finds the room for the
    /// longest text on the way before it changes anything. The listener is told of each change
    /// once it is gone over. Inlined, so that undo and redo each know their way at compile time.
    #[inline(always)]
    #[tactic(auto, using(crate::proofs::Changes::RoomLemmas::back_so_far))]
    pub fn go_over_all<L: ChangeListener>(
        &mut self,
        changes: &[Change],
        way: Way,
        listener: &mut L,
    ) -> Result<(), Refusal>
        requires follows { IsSome (line_back (entries_to_undo way changes.now) self.old) }
        requires hears { NeverRefuses L.refused }
        ensures ok { OnOk result (line_back (entries_to_undo way changes.now) self.old ≡ Some self.new) }
        ensures told { OnOk result (listener.new ≡ listener_back L.step self.old.cursor (entries_to_undo way changes.now) listener.old) }
        ensures err { IfErr result (LineOutOfRoom self.old self.new (texts_back (entries_to_undo way changes.now) self.old.text)) }
        ensures kept { OnErr result (listener.new ≡ listener.old) }
    {
        // So the proof knows that this is UTF-8.
        let _text = self.line.as_str();
        let growth = find_room_over(&mut self.line, changes, way)?;
        match gap_range(changes, way, self.line.len(), growth) {
            Some(range) => go_over_with_gap(&mut self.line, changes, way, range, growth, listener),
            None => go_over_each(&mut self.line, changes, way, listener),
        }
        Ok(())
    }
}
