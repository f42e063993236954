//! The edits that put a text in, or take a given range out, each generic over the listener that it tells.
ghost use Rattle.std.specs.Prelude.{◌≡◌, ◌+◌, ◌*◌, ◌-◌, ◌<◌, ◌≤◌, ℕ, length, encode_utf8, nat_le, not, true, false, OnOk};
ghost use Rattle.std.specs.Str.{IsCharBoundary};
ghost use Rattle.std.specs.List.{insert_slice, remove_range, replace_range, repeat};
ghost use Rattle.rl_line.specs.Plan.{Outcome, StepOutcome, longest_by, nothing_more, room_by_step, a_copy};
ghost use Rattle.rl_line.specs.Edits.{CanInsertStr, CanYankPop, too_long, insert_plan, insert_step, insert_str_plan, yank_plan, yank_step, yank_pop_plan, Exchanges, cut_to_limit, update_plan, replace_plan, replacement_plan, delete_range_plan};
ghost use Rattle.rl_line.specs.LineRanges.{IsRange};

use crate::line_buffer::LineBuffer;
use rl_base::{ChangeListener, DeleteListener, Direction, Refusal, RepeatCount};
use std::ops::Range;

impl LineBuffer {
    /// Whether n texts of that length, in bytes, are too many for the text, by the limit.
    #[tactic(auto, using(crate::proofs::Plans::EditLemmas::limits))]
    pub fn is_too_long(&self, len: usize, n: RepeatCount) -> bool
        ensures { result ≡ too_long self.now (length self.now.text + len * n) }
    {
        let line = &self.line;
        if line.can_growth {
            return false;
        }
        let room = line.limit - line.text.len();
        match len.checked_mul(usize::from(n)) {
            Some(more) => room < more,
            None => true,
        }
    }

    // One step: a text at the cursor, n times.
    #[tactic(auto, using(crate::proofs::Plans::EditLemmas::copies))]
    fn put_copies<L: ChangeListener>(
        &mut self,
        text: &str,
        n: RepeatCount,
        listener: &mut L,
    ) -> Result<(), Refusal>
        requires { 0 < length text.now }
        ensures { StepOutcome L.step L.refused room_by_step (yank_step self.old text.now n) self.old self.new listener.old listener.new result }
    {
        let at = self.pos();
        if n == 1 {
            return self.put_str(at, text, at + text.len(), listener);
        }
        if n == 0 {
            return self.put_str(at, "", at, listener);
        }
        let copies = text.repeat(self.line.allocator(), usize::from(n))?;
        self.put_str(at, copies.as_str(), at + copies.len(), listener)
    }

    // One step: a character at the cursor, n times.
    #[inline(always)]
    fn put_chars<L: ChangeListener>(
        &mut self,
        c: char,
        n: RepeatCount,
        listener: &mut L,
    ) -> Result<(), Refusal>
        ensures { StepOutcome L.step L.refused room_by_step (insert_step self.old c n) self.old self.new listener.old listener.new result }
    {
        if n == 1 {
            let at = self.pos();
            return self.put_char(at, c, at + c.len_utf8(), listener);
        }
        self.put_char_copies(c, n, listener)
    }

    // One step: a character as a text at the cursor, n times.
    #[inline(never)]
    fn put_char_copies<L: ChangeListener>(
        &mut self,
        c: char,
        n: RepeatCount,
        listener: &mut L,
    ) -> Result<(), Refusal>
        ensures { StepOutcome L.step L.refused room_by_step (yank_step self.old (encode_utf8 c) n) self.old self.new listener.old listener.new result }
    {
        let mut bytes = [0; 4];
        self.put_copies(c.encode_utf8(&mut bytes), n, listener)
    }

    /// Inserts `c` at the cursor, `n` times, and moves the cursor past it (GNU readline: self-insert).
    /// Answers whether the cursor was at the end, or None if the text would get too long. Refused, it
    /// leaves the line as it was.
    pub fn insert<L: ChangeListener>(
        &mut self,
        c: char,
        n: RepeatCount,
        listener: &mut L,
    ) -> Result<Option<bool>, Refusal>
        ensures { Outcome L.step L.refused room_by_step (insert_plan self.old c n) self.old self.new listener.old listener.new result }
    {
        // Mostly an ASCII character is typed: here the compiler knows that it is one byte.
        if n == 1 && c.is_ascii() {
            return self.insert_here(c, n, listener);
        }
        self.insert_apart(c, n, listener)
    }

    // Not inlined into `insert`, or a letter would be slower. Cold, as is all that a letter at the end does not reach,
    // so that the compiler takes the letter's path for the common one.
    #[cold]
    #[inline(never)]
    fn insert_apart<L: ChangeListener>(
        &mut self,
        c: char,
        n: RepeatCount,
        listener: &mut L,
    ) -> Result<Option<bool>, Refusal>
        ensures { Outcome L.step L.refused room_by_step (insert_plan self.old c n) self.old self.new listener.old listener.new result }
    {
        self.insert_here(c, n, listener)
    }

    #[inline(always)]
    #[tactic(auto, using(crate::proofs::Plans::EditLemmas::plans))]
    fn insert_here<L: ChangeListener>(
        &mut self,
        c: char,
        n: RepeatCount,
        listener: &mut L,
    ) -> Result<Option<bool>, Refusal>
        ensures { Outcome L.step L.refused room_by_step (insert_plan self.old c n) self.old self.new listener.old listener.new result }
    {
        if self.is_too_long(c.len_utf8(), n) {
            return Ok(None);
        }
        let at_end = self.pos() == self.len();
        self.put_chars(c, n, listener)?;
        Ok(Some(at_end))
    }

    /// Inserts a text at the cursor, `n` times, and moves the cursor past it (GNU readline: yank). Answers
    /// whether the cursor was at the end, or None if `text` is empty or the line would get too long. Refused,
    /// it leaves the line as it was.
    #[tactic(auto, using(crate::proofs::Plans::EditLemmas::plans))]
    pub fn yank<L: ChangeListener>(
        &mut self,
        text: &str,
        n: RepeatCount,
        listener: &mut L,
    ) -> Result<Option<bool>, Refusal>
        ensures { Outcome L.step L.refused room_by_step (yank_plan self.old text.now n) self.old self.new listener.old listener.new result }
    {
        if text.is_empty() || self.is_too_long(text.len(), n) {
            return Ok(None);
        }
        let at_end = self.pos() == self.len();
        self.put_copies(text, n, listener)?;
        Ok(Some(at_end))
    }

    /// Whether the text may have so many bytes, by the limit.
    pub fn has_room(&self, bytes: usize) -> bool
        ensures { result ≡ not (too_long self.now bytes) }
    {
        let line = &self.line;
        line.can_growth || bytes <= line.limit
    }

    /// Whether `size` bytes can have been yanked last: as many stand before the cursor, and they begin between two
    /// characters, or at the text's start. `yank_pop` asks for it.
    pub fn can_yank_pop(&self, size: usize) -> bool
        ensures yes { result ≡ true → CanYankPop self.now size }
        ensures no { result ≡ false → ¬ (CanYankPop self.now size) }
    {
        let end = self.pos();
        size <= end && self.as_str().is_char_boundary(end - size)
    }

    /// Takes out the `yank_size` bytes before the cursor, which were yanked last, and inserts another text
    /// there (GNU readline: yank-pop). Answers whether the cursor was at the end then, or None if there is
    /// nothing to insert or the text would get too long. Refused, it leaves the line as it was, or with the
    /// bytes taken out.
    pub fn yank_pop<L: ChangeListener>(
        &mut self,
        yank_size: usize,
        text: &str,
        listener: &mut L,
    ) -> Result<Option<bool>, Refusal>
        requires size { yank_size ≤ self.old.cursor }
        requires place { IsCharBoundary self.old.text (self.old.cursor - yank_size) }
        ensures { Outcome L.step L.refused room_by_step (yank_pop_plan self.old yank_size text.now) self.old self.new listener.old listener.new result }
    {
        let end = self.pos();
        self.take_out(end - yank_size..end, Direction::Forward, listener)?;
        self.yank(text, 1, listener)
    }

    // Two steps: a range is taken out, which leaves the cursor at `between`, and then a text is put in at its place. It
    // finds room for the text first.
    #[tactic(auto, using(crate::proofs::Plans::EditLemmas::copies))]
    pub(super) fn exchange<L: ChangeListener>(
        &mut self,
        range: Range<usize>,
        between: usize,
        text: &str,
        cursor: usize,
        listener: &mut L,
    ) -> Result<(), Refusal>
        requires range { IsRange self.old.text range.start range.end }
        requires between { IsCharBoundary (remove_range self.old.text range.start range.end) between }
        requires boundary { IsCharBoundary (replace_range self.old.text range.start range.end text.now) cursor }
        ensures steps { Exchanges L.step L.refused a_copy range between text.now cursor self.old self.new listener.old listener.new result }
        ensures text { OnOk result (self.new.text ≡ replace_range self.old.text range.start range.end text.now) }
    {
        self.line.find_room_instead(range.start, range.end, text)?;
        self.line
            .exchange_steps(range, between, text, cursor, listener)?;
        Ok(())
    }

    /// Replaces the line's text, and puts the cursor at a byte place of the new one. If the line may not
    /// grow, it takes no more of the text than its limit allows, up to a character's end, and the cursor is
    /// at its end at most. Refused, it leaves the line as it was, or empty.
    #[tactic(auto, using(crate::proofs::Plans::EditLemmas::plans))]
    pub fn update<L: ChangeListener>(
        &mut self,
        text: &str,
        pos: usize,
        listener: &mut L,
    ) -> Result<(), Refusal>
        requires { IsCharBoundary text.now pos }
        ensures { Outcome L.step L.refused room_by_step (update_plan self.old text.now pos) self.old self.new listener.old listener.new result }
    {
        let cut = self.cut_to_limit(text);
        let all = 0..self.as_str().len();
        self.take_out(all, Direction::Forward, listener)?;
        self.put_str(0, cut, pos.min(cut.len()), listener)?;
        Ok(())
    }

    // As much of a text as the line may hold.
    #[tactic(auto, using(crate::proofs::Plans::EditLemmas::limits))]
    fn cut_to_limit<'a>(&self, text: &'a str) -> &'a str
        ensures { result.now ≡ cut_to_limit self.now text.now }
    {
        let line = &self.line;
        if line.can_growth || text.len() <= line.limit {
            return text;
        }
        &text[..text.floor_char_boundary(line.limit)]
    }

    /// Whether two byte places are in order, and each stands between two characters or at an end of the text. What takes
    /// a range asks for it.
    pub fn is_range(&self, from: usize, to: usize) -> bool
        ensures yes { result ≡ true → IsRange self.now.text from to }
        ensures no { result ≡ false → ¬ (IsRange self.now.text from to) }
    {
        let text = self.as_str();
        from <= to && text.is_char_boundary(from) && text.is_char_boundary(to)
    }

    /// Whether `replace` would leave the limit as it is: whether the text keeps to it with `text` in the place of what
    /// stands between the two byte places.
    pub fn replace_fits(&self, from: usize, to: usize, text: &str) -> bool
        requires { IsRange self.now.text from to }
        ensures { result ≡ nat_le (longest_by self.now (replace_plan self.now from to text.now)) self.now.limit }
    {
        let line = &self.line;
        let left = line.text.len() - (to - from);
        text.len() <= line.limit - left
    }

    /// Replaces a range by a text, and moves the cursor past it. Refused, it leaves the line as it was.
    pub fn replace<L: ChangeListener>(
        &mut self,
        range: Range<usize>,
        text: &str,
        listener: &mut L,
    ) -> Result<(), Refusal>
        requires order { range.start ≤ range.end }
        requires start { IsCharBoundary self.old.text range.start }
        requires end { IsCharBoundary self.old.text range.end }
        ensures { Outcome L.step L.refused room_by_step (replacement_plan self.old range text.now) self.old self.new listener.old listener.new result }
    {
        self.put_instead(range, text, listener)
    }

    /// Whether a text can be inserted at a byte place, and the cursor stays where it is: on either side of the text, or
    /// between two of its characters. `insert_str` asks for it.
    pub fn can_insert_str(&self, idx: usize, text: &str) -> bool
        ensures yes { result ≡ true → CanInsertStr self.now idx text.now }
        ensures no { result ≡ false → ¬ (CanInsertStr self.now idx text.now) }
    {
        let old = self.as_str();
        let pos = self.pos();
        if !old.is_char_boundary(idx) {
            return false;
        }
        if pos <= idx {
            return true;
        }
        if pos - idx <= text.len() {
            text.is_char_boundary(pos - idx)
        } else {
            old.is_char_boundary(pos - text.len())
        }
    }

    /// Whether `insert_str` would leave the limit as it is, at any place: whether the text keeps to it with `text` in it.
    pub fn insert_str_fits(&self, text: &str) -> bool
        ensures { (idx : ℕ) → result ≡ nat_le (longest_by self.now (insert_str_plan self.now idx text.now)) self.now.limit }
    {
        let line = &self.line;
        text.len() <= line.limit - line.text.len()
    }

    /// Inserts a text at a byte place, and leaves the cursor at its own. Answers whether the place was the
    /// end. Refused, it leaves the line as it was.
    #[tactic(auto, using(crate::proofs::Plans::PlanLemmas::steps_taken))]
    pub fn insert_str<L: ChangeListener>(
        &mut self,
        idx: usize,
        text: &str,
        listener: &mut L,
    ) -> Result<bool, Refusal>
        requires place { IsCharBoundary self.old.text idx }
        requires stays { IsCharBoundary (insert_slice self.old.text idx text.now) self.old.cursor }
        ensures { Outcome L.step L.refused room_by_step (insert_str_plan self.old idx text.now) self.old self.new listener.old listener.new result }
    {
        let at_end = idx == self.len();
        self.put_str(idx, text, self.pos(), listener)?;
        Ok(at_end)
    }

    /// Deletes a range of byte places, and moves the cursor to its start. It takes no memory; if its
    /// listener refuses, the line stays as it was.
    pub fn delete_range<L: DeleteListener>(
        &mut self,
        range: Range<usize>,
        listener: &mut L,
    ) -> Result<(), Refusal>
        requires order { range.start ≤ range.end }
        requires start { IsCharBoundary self.old.text range.start }
        requires end { IsCharBoundary self.old.text range.end }
        ensures { Outcome L.step L.refused nothing_more (delete_range_plan self.old range.start range.end) self.old self.new listener.old listener.new result }
    {
        self.take_out(range, Direction::Forward, listener)
    }
}
