//! Indenting and dedenting the lines of a range.
ghost use Rattle.std.specs.Prelude.{◌≡◌, ◌+◌, ◌-◌, ◌*◌, ◌^◌, ◌<◌, ◌≤◌, drop, length, slice_range, nat_le, true, false, IfErr, IfOk, OnOk};
ghost use Rattle.std.specs.Str.{IsCharBoundary};
ghost use Rattle.rl_base.specs.Lines.{last_line, start_of_line, text_of_line};
ghost use Rattle.rl_base.specs.declared.listeners.Refusal.TheVariants.{NoMemory};
ghost use Rattle.rl_line.specs.Indents.{blanks, indent_changes, indent_plan, indented_lines, pulled, pushed, shift_lines_plan, shift_plan, spaces_each};
ghost use Rattle.rl_line.specs.Plan.{Completion, Outcome, longest_by, nothing_more, room_by_step};

use crate::gapped::Gapped;
use crate::line_buffer::LineBuffer;
use crate::roomy_line::RoomyLine;
use memchr::memchr;
use rl_base::{ChangeListener, DeleteListener, Direction, Movement, Refusal};
use std::ops::Range;

/// The most spaces that go in at once.
const SPACES: &str = "                                ";

impl LineBuffer {
    /// Indents each line that holds a byte of what a movement covers by `amount` spaces, put in at its start, at
    /// most 32 at once. With `dedent` it instead takes out up to `amount` bytes of the line's leading blanks, up
    /// to a character's end (vi's `>` and `<`). For a movement within a line, or one that covers nothing, it
    /// takes the cursor's line. A cursor at the start of a line or after it moves with the text, to that start
    /// at least. Answers true. If it finds no memory, it leaves the line as it was; if its listener refuses, after
    /// the steps that it took. A dedent asks for no memory.
    pub fn indent<L: ChangeListener>(
        &mut self,
        mvt: &Movement,
        amount: u8,
        dedent: bool,
        listener: &mut L,
    ) -> Result<bool, Refusal>
        ensures { Outcome L.step L.refused room_by_step (indent_plan self.old mvt.now amount dedent) self.old self.new listener.old listener.new result }
    {
        self.index_to_shift(dedent);
        let lines = self.indented_lines(mvt);
        let covered = self.start_of_line(lines.start)..self.end_of_line(lines.end - 1);
        shift_lines(&mut self.line, lines, covered, amount, dedent, listener)
    }

    /// Whether `indent` would leave the limit as it is: whether the text keeps to it with `amount` spaces more in each of
    /// the lines. A dedent always does.
    pub fn indent_fits(&self, mvt: &Movement, amount: u8, dedent: bool) -> bool
        ensures { result ≡ nat_le (longest_by self.now (indent_plan self.now mvt.now amount dedent)) self.now.limit }
    {
        // So the proof knows that the text keeps to the limit.
        let _limit = self.limit();
        dedent || self.spaces_fit(mvt, amount)
    }

    fn spaces_fit(&self, mvt: &Movement, amount: u8) -> bool
        ensures { result ≡ nat_le (longest_by self.now (indent_plan self.now mvt.now amount false)) self.now.limit }
    {
        let room = self.limit() - self.len();
        let lines = self.indented_lines(mvt);
        match usize::from(amount).checked_mul(lines.end - lines.start) {
            Some(more) => more <= room,
            None => false,
        }
    }

    /// Whether `indent` would insert or delete a byte. It would not by an amount of 0, nor by a dedent of lines that
    /// have no blanks to delete.
    pub fn indent_changes(&self, mvt: &Movement, amount: u8, dedent: bool) -> bool
        ensures { result ≡ indent_changes self.now mvt.now amount dedent }
    {
        if !dedent {
            return amount > 0;
        }
        self.has_blanks(mvt, amount)
    }

    fn has_blanks(&self, mvt: &Movement, amount: u8) -> bool
        ensures { result ≡ indent_changes self.now mvt.now amount true }
    {
        let lines = self.indented_lines(mvt);
        let mut start = self.start_of_line(lines.start);
        for k in lines.start..lines.end {
            let line = first_line(&self.as_str()[start..]);
            if blanks(line, amount) > 0 {
                return true;
            }
            start += line.len() + 1;
        }
        false
    }

    // Makes the table of lines for an indent. A dedent goes without, since it asks for no memory.
    fn index_to_shift(&mut self, dedent: bool)
        ensures { self.new ≡ self.old }
    {
        if !dedent {
            self.index_lines();
        }
    }

    // The lines that hold a byte of what a movement covers, by their numbers.
    fn indented_lines(&self, mvt: &Movement) -> Range<usize>
        ensures value { result ≡ indented_lines self.now mvt.now }
        ensures some { result.start < result.end }
        ensures within { result.end ≤ last_line self.now.text + 1 }
    {
        // So the proof knows how long the text can be.
        let _len = self.len();
        let range = self.indented(mvt);
        let first = self.line_at(range.start);
        let last = self.line_at(range.start.max(range.end.saturating_sub(1)));
        first..last + 1
    }
}

// Indents or dedents the lines with those numbers, which begin and end at those places. It finds all room first, and then goes
// over them once, with a gap in the text.
fn shift_lines<L: ChangeListener>(
    line: &mut RoomyLine,
    lines: Range<usize>,
    covered: Range<usize>,
    amount: u8,
    dedent: bool,
    listener: &mut L,
) -> Result<bool, Refusal>
    requires some { lines.start < lines.end }
    requires within { lines.end ≤ last_line line.old.line.text + 1 }
    requires start { covered.start ≡ start_of_line line.old.line.text lines.start }
    ensures { Outcome L.step L.refused room_by_step (shift_lines_plan line.old.line lines dedent amount) line.old.line line.new.line listener.old listener.new result }
{
    let room = find_room_to_shift(line, lines.end - lines.start, amount, dedent)?;
    let start = covered.start;
    let mut gapped = Gapped::open(line, covered, room);
    let shifted = gapped.shift_lines(start, lines, amount, dedent, listener);
    gapped.close(line);
    shifted
}

// Finds room for all that goes in when so many lines are shifted, and answers how much that is: nothing for a dedent.
fn find_room_to_shift(
    line: &mut RoomyLine,
    count: usize,
    amount: u8,
    dedent: bool,
) -> Result<usize, Refusal>
    ensures line { line.new.line ≡ line.old.line }
    ensures bytes { IfOk result (λ bytes. bytes ≡ spaces_each dedent amount * count) }
    ensures room { IfOk result (λ bytes. length line.old.line.text + bytes ≤ line.new.bytes) }
    ensures err { IfErr result (λ r. (r ≡ NoMemory) × (0 < spaces_each dedent amount)) }
{
    let Some(bytes) = spaces_each(dedent, amount).checked_mul(count) else {
        return Err(Refusal::NoMemory);
    };
    line.find_room(bytes)?;
    Ok(bytes)
}

impl Gapped {
    // Indents or dedents the lines with those numbers, the first of which begins at a place. There is room for all that goes in.
    fn shift_lines<L: ChangeListener>(
        &mut self,
        start: usize,
        lines: Range<usize>,
        amount: u8,
        dedent: bool,
        listener: &mut L,
    ) -> Result<bool, Refusal>
        requires within { lines.end ≤ last_line self.old.roomy.line.text + 1 }
        requires start { start ≡ start_of_line self.old.roomy.line.text lines.start }
        requires place { start ≤ length self.old.roomy.line.text }
        requires room { length self.old.roomy.line.text + spaces_each dedent amount * (lines.end - lines.start) ≤ self.old.roomy.bytes }
        ensures { Outcome L.step L.refused nothing_more (shift_lines_plan self.old.roomy.line lines dedent amount) self.old.roomy.line self.new.roomy.line listener.old listener.new result }
    {
        self.move_gap(start);
        let mut at = start;
        for k in lines.start..lines.end {
            // So the proof knows that the text is UTF-8.
            let _cursor = self.pos();
            at = self.shift_line(at, amount, dedent, listener)? + 1;
        }
        Ok(true)
    }

    // Indents or dedents the line that begins at a place. Answers where its text ends then.
    fn shift_line<L: ChangeListener>(
        &mut self,
        at: usize,
        amount: u8,
        dedent: bool,
        listener: &mut L,
    ) -> Result<usize, Refusal>
        requires place { IsCharBoundary self.old.roomy.line.text at }
        requires gap { self.old.gap ≤ at }
        requires room { length self.old.roomy.line.text + spaces_each dedent amount ≤ self.old.roomy.bytes }
        ensures steps { Completion L.step L.refused nothing_more (shift_plan self.old.roomy.line at dedent amount) self.old.roomy.line self.new.roomy.line listener.old listener.new result }
        ensures end { IfOk result (λ end. end ≡ (shift_plan self.old.roomy.line at dedent amount).answer) }
        ensures fits { IfOk result (λ end. end + 1 < 2 ^ 64) }
        ensures gap { IfOk result (λ end. self.new.gap ≤ end) }
        ensures len { OnOk result (length self.new.roomy.line.text ≤ length self.old.roomy.line.text + spaces_each dedent amount) }
        ensures bytes { self.new.roomy.bytes ≡ self.old.roomy.bytes }
    {
        if dedent {
            return self.take_blanks(at, amount, listener);
        }
        self.put_spaces(at, amount, listener)
    }

    // Spaces go in at the start of a line.
    fn put_spaces<L: ChangeListener>(
        &mut self,
        at: usize,
        amount: u8,
        listener: &mut L,
    ) -> Result<usize, Refusal>
        requires place { IsCharBoundary self.old.roomy.line.text at }
        requires gap { self.old.gap ≤ at }
        requires room { length self.old.roomy.line.text + amount ≤ self.old.roomy.bytes }
        ensures steps { Completion L.step L.refused nothing_more (shift_plan self.old.roomy.line at false amount) self.old.roomy.line self.new.roomy.line listener.old listener.new result }
        ensures end { IfOk result (λ end. end ≡ (shift_plan self.old.roomy.line at false amount).answer) }
        ensures fits { IfOk result (λ end. end + 1 < 2 ^ 64) }
        ensures gap { IfOk result (λ end. self.new.gap ≤ end) }
        ensures len { OnOk result (length self.new.roomy.line.text ≤ length self.old.roomy.line.text + amount) }
        ensures bytes { self.new.roomy.bytes ≡ self.old.roomy.bytes }
    {
        let end = at + self.line_from(at).len();
        let mut left = usize::from(amount);
        while left > 0 {
            let part = &SPACES[..left.min(SPACES.len())];
            let cursor = pushed(at, part.len(), self.pos());
            self.insertion_step(at, part, cursor, listener)?;
            left -= part.len();
        }
        Ok(end + usize::from(amount))
    }

    // Blanks go from the start of a line.
    fn take_blanks<L: DeleteListener>(
        &mut self,
        at: usize,
        amount: u8,
        listener: &mut L,
    ) -> Result<usize, Refusal>
        requires place { IsCharBoundary self.old.roomy.line.text at }
        requires gap { self.old.gap ≤ at }
        ensures steps { Completion L.step L.refused nothing_more (shift_plan self.old.roomy.line at true amount) self.old.roomy.line self.new.roomy.line listener.old listener.new result }
        ensures end { IfOk result (λ end. end ≡ (shift_plan self.old.roomy.line at true amount).answer) }
        ensures fits { IfOk result (λ end. end + 1 < 2 ^ 64) }
        ensures gap { IfOk result (λ end. self.new.gap ≤ end) }
        ensures len { OnOk result (length self.new.roomy.line.text ≤ length self.old.roomy.line.text) }
        ensures bytes { self.new.roomy.bytes ≡ self.old.roomy.bytes }
    {
        let text = self.line_from(at);
        let gone = blanks(text, amount);
        let end = at + text.len() - gone;
        let cursor = pulled(at, gone, self.pos());
        let range = at..at + gone;
        self.deletion_step(range, Direction::Forward, cursor, listener)?;
        Ok(end)
    }

    // The text of the line that begins at a place, which is the gap's or lies after it.
    fn line_from(&self, at: usize) -> &str
        requires place { IsCharBoundary self.now.roomy.line.text at }
        requires gap { self.now.gap ≤ at }
        ensures text { result.now ≡ text_of_line (drop at self.now.roomy.line.text) 0 }
        ensures is { result.now ≡ slice_range self.now.roomy.line.text at (at + length result.now) }
        ensures end { IsCharBoundary self.now.roomy.line.text (at + length result.now) }
        ensures fits { at + length result.now < 2 ^ 63 }
    {
        // So the proof knows how long a text can be.
        let _len = self.len();
        first_line(self.text_from(at))
    }
}

// How many spaces go in at the start of each line.
fn spaces_each(dedent: bool, amount: u8) -> usize
    ensures { result ≡ spaces_each dedent amount }
{
    if dedent {
        return 0;
    }
    usize::from(amount)
}

// The text of the first line of a text.
#[tactic(auto, using(crate::proofs::Lines::FirstLineLemmas::first_lines))]
fn first_line(text: &str) -> &str
    ensures text { result.now ≡ text_of_line text.now 0 }
    ensures end { IsCharBoundary text.now (length result.now) }
{
    match memchr(b'\n', text.as_bytes()) {
        Some(end) => &text[..end],
        None => text,
    }
}

// How many bytes of its leading blanks a dedent takes from a line's text: up to `amount`, up to a character's end.
#[tactic(auto, using(crate::proofs::Plans::IndentLemmas::parts_of_lines))]
fn blanks(text: &str, amount: u8) -> usize
    ensures len { result ≡ length (blanks amount text.now) }
    ensures boundary { IsCharBoundary text.now result }
{
    let blank = text.len() - text.trim_start().len();
    text.floor_char_boundary(usize::from(amount).min(blank))
}

// A cursor after `n` bytes went in at `start`.
fn pushed(start: usize, n: usize, cursor: usize) -> usize
    requires { cursor + n < 2 ^ 64 }
    ensures { result ≡ pushed start n cursor }
{
    if cursor < start {
        return cursor;
    }
    cursor + n
}

// A cursor after `n` bytes from `start` on went out.
fn pulled(start: usize, n: usize, cursor: usize) -> usize
    ensures { result ≡ pulled start n cursor }
{
    if cursor < start {
        return cursor;
    }
    start.max(cursor.saturating_sub(n))
}
