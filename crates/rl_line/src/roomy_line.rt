//! A line whose value tells for how much it has memory, and the steps of an edit on it. Each step reports its event, and then
//! changes text, table and cursor, which can't fail any more. So an edit of several steps finds room for all of them before it
//! takes the first, and then only its listener can refuse one.
ghost use Rattle.std.specs.Prelude.{◌≡◌, ◌+◌, ◌^◌, ◌<◌, ◌≤◌, count_by, [], false, encode_utf8, get_or, length, slice_range, IfErr, OnOk};
ghost use Rattle.std.specs.List.{insert_slice, remove_range, replace_range};
ghost use Rattle.std.specs.Str.{IsCharBoundary};
ghost use Rattle.std.specs.String.{string_bytes};
ghost use Rattle.rl_base.specs.Event.{InsertStr, Replace};
ghost use Rattle.rl_base.specs.Lines.{is_newline, line_number};
ghost use Rattle.rl_base.specs.declared.listeners.Refusal.TheVariants.{NoMemory};
ghost use Rattle.rl_line.specs.Edits.{DeletesRange, Exchanges};
ghost use Rattle.rl_line.specs.Line.{line_of, stepped};
ghost use Rattle.rl_line.specs.LineRanges.{IsRange};
ghost use Rattle.rl_line.specs.LineStarts.{line_starts};
ghost use Rattle.rl_line.specs.Plan.{Grows, StepOutcome, nothing_more};
ghost use Rattle.rl_line.specs.RoomyLine.{HasRoom, KeepsRoom};

use crate::line_starts::{LineStarts, newlines, nth_start, swap_starts, swap_starts_by_char};
use crate::swap::{put_char_in, swap_text};
use rl_base::{ChangeListener, DeleteListener, Direction, Refusal};
use std::alloc::Global;
use std::marker::Model;
use std::ops::Range;

/// A text, the table of its lines, a cursor, a limit on the text's length, and whether it may grow past that.
#[derive(Drop)]
pub(crate) struct RoomyLine {
    pub(crate) text: String,
    // Where the lines of the text begin, except the first, once that was asked. A change keeps the table right, or drops
    // it if memory is out. Without it, what is asked is looked for in the text.
    pub(crate) starts: LineStarts,
    pub(crate) has_starts: bool,
    pub(crate) pos: usize,
    pub(crate) limit: usize,
    pub(crate) can_growth: bool,
}

impl Model for RoomyLine {
    ghost use Rattle.std.specs.String.{string_bytes, string_capacity};
    ghost use Rattle.rl_line.specs.Line.{IsLine, line_of};
    ghost use Rattle.rl_line.specs.RoomyLine.{RoomyLine, roomy_of};

    ghost Value = { RoomyLine };

    ghost view = { λ r. roomy_of (line_of (string_bytes r.text) r.pos r.limit r.can_growth) (string_capacity r.text) };

    ghost invariant = { λ r. IsLine (string_bytes r.text) r.starts.places.items r.starts.border r.has_starts r.pos r.limit };
}

impl RoomyLine {
    /// An empty line that may not grow.
    pub(crate) fn new(text: String, limit: usize) -> Self
        requires { string_bytes text ≡ [] }
        ensures line { result.line ≡ line_of [] 0 limit false }
    {
        let alloc: Global = *text.allocator();
        RoomyLine {
            text,
            starts: LineStarts::new(alloc),
            has_starts: false,
            pos: 0,
            limit,
            can_growth: false,
        }
    }

    pub(crate) fn allocator(&self) -> Global {
        *self.text.allocator()
    }

    /// The text.
    pub(crate) fn as_str(&self) -> &str
        ensures value { result.now ≡ self.now.line.text }
        ensures fits { length result.now < 2 ^ 63 }
    {
        self.text.as_str()
    }

    /// The byte place of the cursor.
    pub(crate) fn pos(&self) -> usize
        ensures { result ≡ self.now.line.cursor }
    {
        self.pos
    }

    /// The length of the text, in bytes.
    pub(crate) fn len(&self) -> usize
        ensures len { result ≡ length self.now.line.text }
        ensures fits { result < 2 ^ 63 }
    {
        self.text.len()
    }

    /// How many newlines the text has.
    #[inline(always)]
    #[tactic(auto, using(crate::proofs::Lines::LineStartLemmas::tables))]
    pub(crate) fn newlines(&self) -> usize
        ensures newlines { result ≡ count_by is_newline self.now.line.text }
        ensures fits { result < 2 ^ 63 }
    {
        if self.has_starts {
            return self.starts.places.len();
        }
        newlines(self.text.as_bytes())
    }

    /// The start numbered `k`, from 0, of the lines except the first.
    #[inline(always)]
    #[tactic(auto, using(crate::proofs::Lines::LineStartLemmas::tables))]
    pub(crate) fn start(&self, k: usize) -> usize
        requires { k < count_by is_newline self.now.line.text }
        ensures { result ≡ get_or (line_starts self.now.line.text) k 0 }
    {
        if self.has_starts {
            return self.starts.start(self.text.as_str(), k);
        }
        nth_start(self.text.as_str(), k)
    }

    /// The number of the line that a place lies in, from 0.
    #[inline(always)]
    pub(crate) fn line_number(&self, pos: usize) -> usize
        requires { pos ≤ length self.now.line.text }
        ensures { result ≡ line_number self.now.line.text pos }
    {
        if self.has_starts {
            return self.starts.line_number(self.text.as_str(), pos);
        }
        newlines(&self.text.as_bytes()[..pos])
    }

    /// Makes the table of its lines, if there is none and there is memory for it.
    #[inline(always)]
    pub(crate) fn index_lines(&mut self)
        ensures { self.new ≡ self.old }
    {
        if !self.has_starts {
            self.make_starts();
        }
    }

    #[cold]
    #[inline(never)]
    #[tactic(auto, using(crate::proofs::Lines::RoomyLemmas::rooms))]
    fn make_starts(&mut self)
        ensures { self.new ≡ self.old }
    {
        let mut starts = LineStarts::new(self.allocator());
        self.has_starts = swap_starts(&mut starts, "", 0, 0, self.text.as_str());
        self.starts = starts;
    }

    /// Finds room for so many more bytes. Inlined: room there costs no call.
    #[inline(always)]
    pub(crate) fn find_room(&mut self, bytes: usize) -> Result<(), Refusal>
        ensures line { self.new.line ≡ self.old.line }
        ensures room { OnOk result (length self.old.line.text + bytes ≤ self.new.bytes) }
        ensures err { IfErr result (λ r. (r ≡ NoMemory) × (0 < bytes)) }
    {
        self.text.reserve(bytes)?;
        Ok(())
    }

    /// Finds room for a part that replaces a range.
    #[inline(always)]
    #[tactic(auto, using(crate::proofs::Lines::RoomyLemmas::rooms))]
    pub(crate) fn find_room_instead(
        &mut self,
        from: usize,
        to: usize,
        part: &str,
    ) -> Result<(), Refusal>
        requires { IsRange self.old.line.text from to }
        ensures line { self.new.line ≡ self.old.line }
        ensures room { OnOk result (HasRoom (replace_range self.old.line.text from to part.now) self.new) }
        ensures err { IfErr result (λ r. (r ≡ NoMemory) × Grows (Replace from (slice_range self.old.line.text from to) part.now)) }
    {
        // What fits beside the range fits instead of it.
        if part.len() <= self.text.capacity() - self.text.len() {
            return Ok(());
        }
        self.find_room(part.len().saturating_sub(to - from))
    }

    /// Replaces a range by a part, and puts the cursor at a place: an insertion if the range is empty, a deletion if the
    /// part is. The limit rises if it has to. Inlined, since an undo and a redo go by it.
    #[inline(always)]
    #[tactic(auto, using(crate::proofs::Lines::RoomyLemmas::rooms))]
    pub(crate) fn swap_in(&mut self, from: usize, to: usize, part: &str, cursor: usize)
        requires range { IsRange self.old.line.text from to }
        requires room { HasRoom (replace_range self.old.line.text from to part.now) self.old }
        requires cursor { IsCharBoundary (replace_range self.old.line.text from to part.now) cursor }
        ensures line { self.new.line ≡ stepped self.old.line (replace_range self.old.line.text from to part.now) cursor }
        ensures room { KeepsRoom self.old self.new }
    {
        if self.has_starts {
            self.has_starts = swap_starts(&mut self.starts, self.text.as_str(), from, to, part);
        }
        swap_text(&mut self.text, from, to, part);
        self.pos = cursor;
        self.limit = self.limit.max(self.text.len());
    }

    /// Puts a character in at a place, as `swap_in` does. If there is no table, or its border is there, a character other
    /// than a newline is neither encoded nor counted, and at the end it costs no call.
    #[inline(always)]
    #[tactic(auto, using(crate::proofs::Lines::RoomyLemmas::rooms))]
    pub(crate) fn swap_in_char(&mut self, at: usize, c: char, cursor: usize)
        requires place { IsCharBoundary self.old.line.text at }
        requires room { HasRoom (insert_slice self.old.line.text at (encode_utf8 c)) self.old }
        requires cursor { IsCharBoundary (insert_slice self.old.line.text at (encode_utf8 c)) cursor }
        ensures { self.new.line ≡ stepped self.old.line (insert_slice self.old.line.text at (encode_utf8 c)) cursor }
    {
        if self.has_starts {
            self.has_starts = swap_starts_by_char(&mut self.starts, self.text.as_str(), at, c);
        }
        put_char_in(&mut self.text, at, c);
        self.pos = cursor;
        self.limit = self.limit.max(self.text.len());
    }

    /// One step: puts in a text, and leaves the cursor at a place.
    #[inline(always)]
    #[tactic(auto, using(rl_base::proofs::Texts::EventLemmas::fitting))]
    pub(crate) fn insertion_step<L: ChangeListener>(
        &mut self,
        idx: usize,
        part: &str,
        cursor: usize,
        listener: &mut L,
    ) -> Result<(), Refusal>
        requires place { IsCharBoundary self.old.line.text idx }
        requires room { HasRoom (insert_slice self.old.line.text idx part.now) self.old }
        requires cursor { IsCharBoundary (insert_slice self.old.line.text idx part.now) cursor }
        ensures step { StepOutcome L.step L.refused nothing_more (InsertStr idx part.now, cursor) self.old.line self.new.line listener.old listener.new result }
        ensures line { OnOk result (self.new.line ≡ stepped self.old.line (insert_slice self.old.line.text idx part.now) cursor) }
        ensures room { OnOk result (KeepsRoom self.old self.new) }
    {
        listener.insert_str(idx, part)?;
        listener.cursors(self.pos, cursor);
        self.swap_in(idx, idx, part, cursor);
        Ok(())
    }

    /// One step: takes a range out, and leaves the cursor at a place. It needs no room.
    #[inline(never)]
    #[tactic(auto, using(rl_base::proofs::Texts::EventLemmas::fitting))]
    pub(crate) fn deletion_step<L: DeleteListener>(
        &mut self,
        range: Range<usize>,
        dir: Direction,
        cursor: usize,
        listener: &mut L,
    ) -> Result<(), Refusal>
        requires range { IsRange self.old.line.text range.start range.end }
        requires cursor { IsCharBoundary (remove_range self.old.line.text range.start range.end) cursor }
        ensures step { DeletesRange L.step L.refused range dir cursor self.old.line self.new.line listener.old listener.new result }
        ensures line { OnOk result (self.new.line ≡ stepped self.old.line (remove_range self.old.line.text range.start range.end) cursor) }
        ensures room { OnOk result (KeepsRoom self.old self.new) }
    {
        let (from, to) = (range.start, range.end);
        listener.delete(from, &self.text.as_str()[from..to], dir)?;
        listener.cursors(self.pos, cursor);
        self.swap_in(from, to, "", cursor);
        Ok(())
    }

    /// Two steps: takes a range out, which leaves the cursor at `between`, and puts a text in at its place.
    #[tactic(auto, using(crate::proofs::Plans::PlanLemmas::steps_taken))]
    pub(crate) fn exchange_steps<L: ChangeListener>(
        &mut self,
        range: Range<usize>,
        between: usize,
        part: &str,
        cursor: usize,
        listener: &mut L,
    ) -> Result<(), Refusal>
        requires range { IsRange self.old.line.text range.start range.end }
        requires between { IsCharBoundary (remove_range self.old.line.text range.start range.end) between }
        requires room { HasRoom (replace_range self.old.line.text range.start range.end part.now) self.old }
        requires cursor { IsCharBoundary (replace_range self.old.line.text range.start range.end part.now) cursor }
        ensures steps { Exchanges L.step L.refused nothing_more range between part.now cursor self.old.line self.new.line listener.old listener.new result }
        ensures text { OnOk result (self.new.line.text ≡ replace_range self.old.line.text range.start range.end part.now) }
        ensures room { OnOk result (KeepsRoom self.old self.new) }
    {
        let idx = range.start;
        self.deletion_step(range, Direction::Forward, between, listener)?;
        self.insertion_step(idx, part, cursor, listener)?;
        Ok(())
    }
}
