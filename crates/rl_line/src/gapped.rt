//! A line with a gap in its text, for the time of many steps. A step moves the gap from the last one's place to its own, and
//! so only what lies between: steps in the text's order, either way, go over it at most twice.
ghost use Rattle.std.specs.Prelude.{◌≡◌, true, ◌+◌, ◌-◌, ◌^◌, ◌<◌, ◌≤◌, drop, length, OnOk};
ghost use Rattle.std.specs.List.{insert_slice, remove_range, replace_range};
ghost use Rattle.std.specs.Str.{IsCharBoundary, IsUtf8};
ghost use Rattle.rl_base.specs.Event.{InsertStr};
ghost use Rattle.rl_line.specs.Edits.{DeletesRange};
ghost use Rattle.rl_line.specs.Gapped.{IsTableAround, gapped_of};
ghost use Rattle.rl_line.specs.Line.{stepped};
ghost use Rattle.rl_line.specs.LineRanges.{IsRange};
ghost use Rattle.rl_line.specs.LineStarts.{IsTable};
ghost use Rattle.rl_line.specs.Plan.{StepOutcome, nothing_more};
ghost use Rattle.rl_line.specs.RoomyLine.{HasRoom};

use crate::line_starts::{LineStarts, exchange_starts, fill_starts};
use crate::roomy_line::RoomyLine;
use rl_base::{ChangeListener, DeleteListener, Direction, Refusal};
use std::alloc::Global;
use std::marker::Model;
use std::ops::Range;
use std::{mem, str};

/// The bytes of a text with a gap in it, and what else is of its line.
#[derive(Drop)]
pub(crate) struct Gapped {
    bytes: Vec<u8>,
    // Where the gap begins, and where the text goes on after it.
    gap: usize,
    rest: usize,
    // The table of the text without what lies between its first `front` and its last `back` bytes, if there is one. A step
    // elsewhere drops it.
    starts: LineStarts,
    has_starts: bool,
    front: usize,
    back: usize,
    pos: usize,
    limit: usize,
    can_growth: bool,
}

impl Model for Gapped {
    ghost use Rattle.std.specs.Prelude.{length};
    ghost use Rattle.std.specs.List.{remove_range};
    ghost use Rattle.rl_line.specs.Line.{line_of};
    ghost use Rattle.rl_line.specs.RoomyLine.{roomy_of};
    ghost use Rattle.rl_line.specs.Gapped.{Gapped, IsGapped, gapped_of};

    ghost Value = { Gapped };

    ghost view = { λ g. gapped_of (roomy_of (line_of (remove_range g.bytes.items g.gap g.rest) g.pos g.limit g.can_growth) (length g.bytes.items)) g.gap };

    ghost invariant = { λ g. IsGapped g.bytes.items g.starts.places.items g.gap g.rest g.starts.border g.front g.back g.has_starts g.pos g.limit };
}

impl Gapped {
    /// Takes a line, of which an empty one is left, with a gap of so many bytes at its end. Steps should keep within the
    /// range: those outside of it drop the table of its lines.
    #[tactic(auto, using(crate::proofs::Lines::GapLemmas::gapped))]
    pub(crate) fn open(line: &mut RoomyLine, range: Range<usize>, room: usize) -> Self
        requires { length line.old.line.text + room ≤ line.old.bytes }
        ensures line { result.roomy.line ≡ line.old.line }
        ensures bytes { result.roomy.bytes ≡ length line.old.line.text + room }
    {
        let alloc: Global = line.allocator();
        let RoomyLine {
            text,
            mut starts,
            has_starts,
            pos,
            limit,
            can_growth,
        } = mem::replace(line, RoomyLine::new(String::new(alloc), 0));
        let len = text.len();
        let to = range.end.min(len);
        let from = range.start.min(to);
        let has_starts = cut_table(&mut starts, has_starts, text.as_str(), from, to);
        let mut bytes = text.into_bytes();
        match bytes.resize(len + room, 0) {
            Ok(()) => {}
            Err(_) => unreachable!(),
        }
        Gapped {
            bytes,
            gap: len,
            rest: len + room,
            starts,
            has_starts,
            front: from,
            back: len - to,
            pos,
            limit,
            can_growth,
        }
    }

    /// Puts it back, as one text.
    #[tactic(auto, using(crate::proofs::Lines::GapLemmas::gapped))]
    pub(crate) fn close(self, line: &mut RoomyLine)
        ensures line { line.new.line ≡ self.roomy.line }
        ensures room { length self.roomy.line.text ≤ line.new.bytes }
    {
        let mut gapped = self;
        let len = gapped.len();
        gapped.move_gap(len);
        let Gapped {
            mut bytes,
            gap: _,
            rest: _,
            mut starts,
            has_starts,
            front,
            back,
            pos,
            limit,
            can_growth,
        } = gapped;
        bytes.truncate(len);
        let has_starts = whole_table(&mut starts, has_starts, bytes.as_slice(), front, back);
        // SAFETY: the bytes are UTF-8, which the invariant says.
        let text = unsafe { String::from_utf8_unchecked(bytes) };
        *line = RoomyLine {
            text,
            starts,
            has_starts,
            pos,
            limit,
            can_growth,
        };
    }

    /// The byte place of the cursor.
    #[tactic(auto, using(crate::proofs::Lines::GapLemmas::lines_known))]
    pub(crate) fn pos(&self) -> usize
        ensures place { result ≡ self.now.roomy.line.cursor }
        ensures boundary { IsCharBoundary self.now.roomy.line.text result }
        ensures utf8 { IsUtf8 self.now.roomy.line.text }
        ensures fits { length self.now.roomy.line.text < 2 ^ 63 }
        ensures within { length self.now.roomy.line.text ≤ self.now.roomy.line.limit }
    {
        self.pos
    }

    /// The length of the text, in bytes.
    #[tactic(auto, using(crate::proofs::Lines::GapLemmas::gaps))]
    pub(crate) fn len(&self) -> usize
        ensures len { result ≡ length self.now.roomy.line.text }
        ensures fits { result < 2 ^ 63 }
    {
        self.bytes.len() - (self.rest - self.gap)
    }

    /// The text from a place on, which is the gap's or lies after it.
    #[tactic(auto, using(crate::proofs::Lines::GapLemmas::gapped))]
    pub(crate) fn text_from(&self, at: usize) -> &str
        requires place { IsCharBoundary self.now.roomy.line.text at }
        requires after { self.now.gap ≤ at }
        ensures { result.now ≡ drop at self.now.roomy.line.text }
    {
        let bytes = beside(self.bytes.as_slice(), self.gap, self.rest, at);
        // SAFETY: a text from a place between two of its characters on is UTF-8, which is proved.
        unsafe { str::from_utf8_unchecked(bytes) }
    }

    /// Moves the gap to a place.
    #[tactic(auto, using(crate::proofs::Lines::GapLemmas::gapped))]
    pub(crate) fn move_gap(&mut self, at: usize)
        requires { at ≤ length self.old.roomy.line.text }
        ensures { self.new ≡ gapped_of self.old.roomy at }
    {
        self.rest = shift(self.bytes.as_mut_slice(), self.gap, self.rest, at);
        self.gap = at;
    }

    /// Replaces a range by a part, as `swap_in` of a `RoomyLine` does.
    #[tactic(auto, using(crate::proofs::Lines::GapLemmas::gapped))]
    pub(crate) fn swap_in(&mut self, from: usize, to: usize, part: &str, cursor: usize)
        requires range { IsRange self.old.roomy.line.text from to }
        requires room { HasRoom (replace_range self.old.roomy.line.text from to part.now) self.old.roomy }
        requires cursor { IsCharBoundary (replace_range self.old.roomy.line.text from to part.now) cursor }
        ensures line { self.new.roomy.line ≡ stepped self.old.roomy.line (replace_range self.old.roomy.line.text from to part.now) cursor }
        ensures bytes { self.new.roomy.bytes ≡ self.old.roomy.bytes }
        ensures gap { self.new.gap ≡ from + length part.now }
    {
        self.move_gap(from);
        let left = self.len() - to;
        let (going, end) = (to - from, from + part.len());
        put_in(
            self.bytes.as_mut_slice(),
            from,
            self.rest,
            going,
            part.as_bytes(),
        );
        let has_starts = is_around(self.has_starts, from, left, self.front, self.back);
        let limit = self.limit.max(end + left);
        self.gap = end;
        self.rest += going;
        self.has_starts = has_starts;
        self.pos = cursor;
        self.limit = limit;
    }

    /// One step: puts in a text, as that of a `RoomyLine` does.
    #[tactic(auto, using(rl_base::proofs::Texts::EventLemmas::fitting))]
    pub(crate) fn insertion_step<L: ChangeListener>(
        &mut self,
        idx: usize,
        part: &str,
        cursor: usize,
        listener: &mut L,
    ) -> Result<(), Refusal>
        requires place { IsCharBoundary self.old.roomy.line.text idx }
        requires room { HasRoom (insert_slice self.old.roomy.line.text idx part.now) self.old.roomy }
        requires cursor { IsCharBoundary (insert_slice self.old.roomy.line.text idx part.now) cursor }
        ensures step { StepOutcome L.step L.refused nothing_more (InsertStr idx part.now, cursor) self.old.roomy.line self.new.roomy.line listener.old listener.new result }
        ensures line { OnOk result (self.new.roomy.line ≡ stepped self.old.roomy.line (insert_slice self.old.roomy.line.text idx part.now) cursor) }
        ensures bytes { self.new.roomy.bytes ≡ self.old.roomy.bytes }
        ensures gap { OnOk result (self.new.gap ≡ idx + length part.now) }
    {
        listener.insert_str(idx, part)?;
        listener.cursors(self.pos, cursor);
        self.swap_in(idx, idx, part, cursor);
        Ok(())
    }

    /// One step: takes a range out, as that of a `RoomyLine` does.
    #[tactic(auto, using(rl_base::proofs::Texts::EventLemmas::fitting))]
    pub(crate) fn deletion_step<L: DeleteListener>(
        &mut self,
        range: Range<usize>,
        dir: Direction,
        cursor: usize,
        listener: &mut L,
    ) -> Result<(), Refusal>
        requires range { IsRange self.old.roomy.line.text range.start range.end }
        requires cursor { IsCharBoundary (remove_range self.old.roomy.line.text range.start range.end) cursor }
        ensures step { DeletesRange L.step L.refused range dir cursor self.old.roomy.line self.new.roomy.line listener.old listener.new result }
        ensures line { OnOk result (self.new.roomy.line ≡ stepped self.old.roomy.line (remove_range self.old.roomy.line.text range.start range.end) cursor) }
        ensures bytes { self.new.roomy.bytes ≡ self.old.roomy.bytes }
        ensures gap { OnOk result (self.new.gap ≡ range.start) }
    {
        self.move_gap(range.start);
        self.take_out(range, dir, cursor, listener)
    }

    // The same where the gap is, or after it.
    #[tactic(auto, using(rl_base::proofs::Texts::EventLemmas::fitting))]
    fn take_out<L: DeleteListener>(
        &mut self,
        range: Range<usize>,
        dir: Direction,
        cursor: usize,
        listener: &mut L,
    ) -> Result<(), Refusal>
        requires gap { self.old.gap ≤ range.start }
        requires range { IsRange self.old.roomy.line.text range.start range.end }
        requires cursor { IsCharBoundary (remove_range self.old.roomy.line.text range.start range.end) cursor }
        ensures step { DeletesRange L.step L.refused range dir cursor self.old.roomy.line self.new.roomy.line listener.old listener.new result }
        ensures line { OnOk result (self.new.roomy.line ≡ stepped self.old.roomy.line (remove_range self.old.roomy.line.text range.start range.end) cursor) }
        ensures bytes { self.new.roomy.bytes ≡ self.old.roomy.bytes }
        ensures gap { OnOk result (self.new.gap ≡ range.start) }
    {
        let (from, to) = (range.start, range.end);
        listener.delete(from, &self.text_from(from)[..to - from], dir)?;
        listener.cursors(self.pos, cursor);
        self.swap_in(from, to, "", cursor);
        Ok(())
    }
}

// Moves a gap in bytes to a place of the text beside it. Answers where that text then goes on.
#[tactic(auto, using(crate::proofs::Lines::GapLemmas::gaps))]
fn shift(bytes: &mut [u8], gap: usize, rest: usize, at: usize) -> usize
    requires order { gap ≤ rest }
    requires inside { rest ≤ length bytes.old }
    requires place { at ≤ length (remove_range bytes.old gap rest) }
    ensures rest { result ≡ at + (rest - gap) }
    ensures text { remove_range bytes.new at result ≡ remove_range bytes.old gap rest }
{
    if gap == rest {
        return at;
    }
    if at < gap {
        let end = rest - (gap - at);
        bytes.copy_within(at..gap, end);
        return end;
    }
    let end = rest + (at - gap);
    bytes.copy_within(rest..end, gap);
    end
}

// Puts a part into a gap, and drops bytes after it.
#[tactic(auto, using(crate::proofs::Lines::GapLemmas::gaps))]
fn put_in(bytes: &mut [u8], gap: usize, rest: usize, going: usize, part: &[u8])
    requires order { gap ≤ rest }
    requires room { gap + length part.now ≤ rest + going }
    requires inside { rest + going ≤ length bytes.old }
    ensures { remove_range bytes.new (gap + length part.now) (rest + going) ≡ replace_range (remove_range bytes.old gap rest) gap (gap + going) part.now }
{
    let end = gap + part.len();
    bytes[gap..end].copy_from_slice(part);
}

// The bytes beside a gap from a place on, which lies after it.
fn beside(bytes: &[u8], gap: usize, rest: usize, at: usize) -> &[u8]
    requires order { gap ≤ rest }
    requires inside { rest ≤ length bytes.now }
    requires after { gap ≤ at }
    requires place { at ≤ length (remove_range bytes.now gap rest) }
    ensures { result.now ≡ drop at (remove_range bytes.now gap rest) }
{
    &bytes[rest + (at - gap)..]
}

// Cuts the table of a text, if it has one, around a range.
fn cut_table(starts: &mut LineStarts, had: bool, text: &str, from: usize, to: usize) -> bool
    requires order { from ≤ to }
    requires end { to ≤ length text.now }
    requires table { had ≡ true → IsTable starts.old.places.items starts.old.border text.now }
    ensures { result ≡ true → IsTableAround starts.new.places.items starts.new.border from (length text.now - to) text.now }
{
    if !had {
        return false;
    }
    exchange_starts(starts, text, from, to, "", 0)
}

// Makes it the table of the whole again.
fn whole_table(starts: &mut LineStarts, had: bool, text: &[u8], front: usize, back: usize) -> bool
    requires { had ≡ true → IsTableAround starts.old.places.items starts.old.border front back text.now }
    ensures { result ≡ true → IsTable starts.new.places.items starts.new.border text.now }
{
    if !had {
        return false;
    }
    fill_starts(starts, front, &text[front..text.len() - back])
}

// Whether there was a table of the lines around a part of the text, and a range lies within that: it begins at a place,
// and `left` bytes stand after it.
fn is_around(had: bool, from: usize, left: usize, front: usize, back: usize) -> bool
    ensures { result ≡ true → (had ≡ true) × (front ≤ from) × (back ≤ left) }
{
    had && front <= from && back <= left
}
