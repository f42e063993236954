//! An undo and a redo in a line that the record may not fit: one pass asks whether it does, and goes.
ghost use Rattle.std.specs.Prelude.{◌≡◌, true, false, IfErr, IfOk, None, Some};
ghost use Rattle.rl_record.specs.Undo.{GoesOver, Redone, StandsStill, Tries, TriesAhead, TriesBack, Undone, unit_of};
ghost use Rattle.rl_line.specs.Going.{line_ahead, line_back, line_over, texts_ahead, texts_back, texts_over};
ghost use Rattle.rl_record.specs.Trying.{Tried, TriedInVain};
ghost use Rattle.rl_record.specs.Units.{last_of, redo_of};

use crate::changeset::Changeset;
use crate::changeset::questions::lead;
use crate::changeset::undo::count_over;
use rl_base::{NoListener, Refusal, RepeatCount};
use rl_line::LineBuffer;
use rl_line::change::{Change, Way, seldom};

impl Changeset {
    /// Undoes as `undo` does, if its units can be taken back from the line's text, and else changes nothing and answers
    /// None. One change alone is compared with the text and taken back in one pass; several are first tried on a copy of
    /// the part between the places that they touch. It finds all room first, so refused it changes nothing.
    // Inlined, as `undo_telling` is.
    #[inline(always)]
    pub fn try_undo(
        &mut self,
        line: &mut LineBuffer,
        n: RepeatCount,
    ) -> Result<Option<bool>, Refusal>
        ensures tried { IfOk result (Tried (Undone n self.old self.new line.old line.new) (line_back (last_of n self.old.recorded) line.old) self.old self.new line.old line.new) }
        ensures unmoved { IfOk result (λ tried. tried ≡ Some false → StandsStill line.old line.new) }
        ensures err { IfErr result (TriedInVain (TriesBack (last_of n self.old.recorded) line.old.text) (texts_back (last_of n self.old.recorded) line.old.text)
            self.old self.new line.old line.new) }
    {
        self.try_over(line, Way::Back, usize::from(n))
    }

    /// Redoes as `redo` does, if what it makes again can be made on the line's text, and else changes nothing and answers
    /// None. It tries that as `try_undo` does.
    #[inline(always)]
    pub fn try_redo(&mut self, line: &mut LineBuffer) -> Result<Option<bool>, Refusal>
        ensures tried { IfOk result (Tried (Redone self.old self.new line.old line.new) (line_ahead (redo_of self.old.pending) line.old) self.old self.new line.old line.new) }
        ensures unmoved { IfOk result (λ tried. tried ≡ Some false → StandsStill line.old line.new) }
        ensures err { IfErr result (TriedInVain (TriesAhead (redo_of self.old.pending) line.old.text) (texts_ahead (redo_of self.old.pending) line.old.text)
            self.old self.new line.old line.new) }
    {
        self.try_over(line, Way::Ahead, 1)
    }

    // Goes over the last `n` units, or the next one, if the line can. An insertion alone has a copy of its own, as in
    // `go_within`.
    #[inline(always)]
    fn try_over(
        &mut self,
        line: &mut LineBuffer,
        way: Way,
        n: usize,
    ) -> Result<Option<bool>, Refusal>
        ensures tried { IfOk result (Tried (GoesOver way n self.old self.new line.old line.new) (line_over way (unit_of way n self.old) line.old) self.old self.new line.old line.new) }
        ensures unmoved { IfOk result (λ tried. tried ≡ Some false → StandsStill line.old line.new) }
        ensures err { IfErr result (TriedInVain (Tries way (unit_of way n self.old) line.old.text) (texts_over way (unit_of way n self.old) line.old.text)
            self.old self.new line.old line.new) }
    {
        if let Some(Change::Insert(_, _, _)) = self.alone(way, n) {
            return self.try_over_any(line, way, n);
        }
        seldom();
        self.try_over_any(line, way, n)
    }

    #[inline(always)]
    fn try_over_any(
        &mut self,
        line: &mut LineBuffer,
        way: Way,
        n: usize,
    ) -> Result<Option<bool>, Refusal>
        ensures tried { IfOk result (Tried (GoesOver way n self.old self.new line.old line.new) (line_over way (unit_of way n self.old) line.old) self.old self.new line.old line.new) }
        ensures unmoved { IfOk result (λ tried. tried ≡ Some false → StandsStill line.old line.new) }
        ensures err { IfErr result (TriedInVain (Tries way (unit_of way n self.old) line.old.text) (texts_over way (unit_of way n self.old) line.old.text)
            self.old self.new line.old line.new) }
    {
        if let Some(change) = self.alone(way, n) {
            let fits = line.try_over_one(change, way)?;
            if !fits {
                return Ok(None);
            }
            let len = self.entries.len();
            let recorded = count_over(way, len, 1);
            let changes = count_over(way, self.entries.changes(), 1);
            self.entries.cut(recorded, changes);
            return Ok(Some(true));
        }
        self.try_over_units(line, way, n)
    }

    // The same of any units.
    #[inline(never)]
    fn try_over_units(
        &mut self,
        line: &mut LineBuffer,
        way: Way,
        n: usize,
    ) -> Result<Option<bool>, Refusal>
        ensures tried { IfOk result (Tried (GoesOver way n self.old self.new line.old line.new) (line_over way (unit_of way n self.old) line.old) self.old self.new line.old line.new) }
        ensures unmoved { IfOk result (λ tried. tried ≡ Some false → StandsStill line.old line.new) }
        ensures err { IfErr result (TriedInVain (Tries way (unit_of way n self.old) line.old.text) (texts_over way (unit_of way n self.old) line.old.text)
            self.old self.new line.old line.new) }
    {
        let unit = self.unit(way, n);
        let fits = lead(self.entries.allocator(), line, unit, way)?;
        if !fits {
            return Ok(None);
        }
        let changed = self.go_over_units(line, way, n, &mut NoListener)?;
        Ok(Some(changed))
    }
}
