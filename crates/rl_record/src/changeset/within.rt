//! An undo and a redo that keep to the line's limit: one pass looks for what to go over, asks, and goes.
ghost use Rattle.std.specs.Prelude.{◌≡◌, true, IfErr, IfOk, IfSome, IsSome, None, OnErr, length, nat_le};
ghost use Rattle.rl_line.specs.Change.{greatest_ahead_over, greatest_back_over, longest_over};
ghost use Rattle.rl_line.specs.Plan.{NeverRefuses};
ghost use Rattle.rl_record.specs.Trying.{DoneWithin};
ghost use Rattle.rl_record.specs.Undo.{GoesOver, OutOfRoom, Redone, Undone, unit_of};
ghost use Rattle.rl_line.specs.Going.{line_ahead, line_back, line_over, listener_ahead, listener_back, listener_over, texts_ahead, texts_back, texts_over};
ghost use Rattle.rl_record.specs.Units.{last_of, redo_of};

use crate::changeset::Changeset;
use crate::changeset::undo::count_over;
use rl_base::{ChangeListener, Refusal, RepeatCount};
use rl_line::LineBuffer;
use rl_line::change::{Change, Way, seldom};

impl Changeset {
    /// Undoes as `undo_telling` does, if the text keeps to the line's limit all the way, and else changes and tells nothing
    /// and answers None.
    // Inlined, as `undo_telling` is.
    #[inline(always)]
    pub fn undo_within<L: ChangeListener>(
        &mut self,
        line: &mut LineBuffer,
        n: RepeatCount,
        listener: &mut L,
    ) -> Result<Option<bool>, Refusal>
        requires follows { IsSome (line_back (last_of n self.old.recorded) line.old) }
        requires hears { NeverRefuses L.refused }
        ensures done { IfOk result (DoneWithin (Undone n self.old self.new line.old line.new)
            (nat_le (greatest_back_over (last_of n self.old.recorded) (length line.old.text)) line.old.limit) self.old self.new line.old line.new) }
        ensures told { IfOk result (λ done. IfSome done (λ _. listener.new ≡ listener_back L.step line.old.cursor (last_of n self.old.recorded) listener.old)) }
        ensures untold { IfOk result (λ done. done ≡ None → listener.new ≡ listener.old) }
        ensures keeps { OnErr result (nat_le (greatest_back_over (last_of n self.old.recorded) (length line.old.text)) line.old.limit ≡ true) }
        ensures err { IfErr result (OutOfRoom self.old self.new line.old line.new (texts_back (last_of n self.old.recorded) line.old.text)) }
        ensures kept { OnErr result (listener.new ≡ listener.old) }
    {
        self.go_within(line, Way::Back, usize::from(n), listener)
    }

    /// Redoes as `redo_telling` does, if the text keeps to the line's limit all the way, and else changes and tells nothing
    /// and answers None.
    #[inline(always)]
    pub fn redo_within<L: ChangeListener>(
        &mut self,
        line: &mut LineBuffer,
        listener: &mut L,
    ) -> Result<Option<bool>, Refusal>
        requires follows { IsSome (line_ahead (redo_of self.old.pending) line.old) }
        requires hears { NeverRefuses L.refused }
        ensures done { IfOk result (DoneWithin (Redone self.old self.new line.old line.new)
            (nat_le (greatest_ahead_over (redo_of self.old.pending) (length line.old.text)) line.old.limit) self.old self.new line.old line.new) }
        ensures told { IfOk result (λ done. IfSome done (λ _. listener.new ≡ listener_ahead L.step line.old.cursor (redo_of self.old.pending) listener.old)) }
        ensures untold { IfOk result (λ done. done ≡ None → listener.new ≡ listener.old) }
        ensures keeps { OnErr result (nat_le (greatest_ahead_over (redo_of self.old.pending) (length line.old.text)) line.old.limit ≡ true) }
        ensures err { IfErr result (OutOfRoom self.old self.new line.old line.new (texts_ahead (redo_of self.old.pending) line.old.text)) }
        ensures kept { OnErr result (listener.new ≡ listener.old) }
    {
        self.go_within(line, Way::Ahead, 1, listener)
    }

    // Goes over the last `n` units, or the next one, within the limit. What follows is inlined twice: an insertion alone, as
    // most changes are, has a copy in which the compiler knows that it takes nothing out.
    #[inline(always)]
    fn go_within<L: ChangeListener>(
        &mut self,
        line: &mut LineBuffer,
        way: Way,
        n: usize,
        listener: &mut L,
    ) -> Result<Option<bool>, Refusal>
        requires follows { IsSome (line_over way (unit_of way n self.old) line.old) }
        requires hears { NeverRefuses L.refused }
        ensures done { IfOk result (DoneWithin (GoesOver way n self.old self.new line.old line.new)
            (nat_le (longest_over way (unit_of way n self.old) (length line.old.text)) line.old.limit) self.old self.new line.old line.new) }
        ensures told { IfOk result (λ done. IfSome done (λ _. listener.new ≡ listener_over L.step way line.old.cursor (unit_of way n self.old) listener.old)) }
        ensures untold { IfOk result (λ done. done ≡ None → listener.new ≡ listener.old) }
        ensures keeps { OnErr result (nat_le (longest_over way (unit_of way n self.old) (length line.old.text)) line.old.limit ≡ true) }
        ensures err { IfErr result (OutOfRoom self.old self.new line.old line.new (texts_over way (unit_of way n self.old) line.old.text)) }
        ensures kept { OnErr result (listener.new ≡ listener.old) }
    {
        if let Some(Change::Insert(_, _, _)) = self.alone(way, n) {
            return self.go_within_any(line, way, n, listener);
        }
        seldom();
        self.go_within_any(line, way, n, listener)
    }

    #[inline(always)]
    fn go_within_any<L: ChangeListener>(
        &mut self,
        line: &mut LineBuffer,
        way: Way,
        n: usize,
        listener: &mut L,
    ) -> Result<Option<bool>, Refusal>
        requires follows { IsSome (line_over way (unit_of way n self.old) line.old) }
        requires hears { NeverRefuses L.refused }
        ensures done { IfOk result (DoneWithin (GoesOver way n self.old self.new line.old line.new)
            (nat_le (longest_over way (unit_of way n self.old) (length line.old.text)) line.old.limit) self.old self.new line.old line.new) }
        ensures told { IfOk result (λ done. IfSome done (λ _. listener.new ≡ listener_over L.step way line.old.cursor (unit_of way n self.old) listener.old)) }
        ensures untold { IfOk result (λ done. done ≡ None → listener.new ≡ listener.old) }
        ensures keeps { OnErr result (nat_le (longest_over way (unit_of way n self.old) (length line.old.text)) line.old.limit ≡ true) }
        ensures err { IfErr result (OutOfRoom self.old self.new line.old line.new (texts_over way (unit_of way n self.old) line.old.text)) }
        ensures kept { OnErr result (listener.new ≡ listener.old) }
    {
        if let Some(change) = self.alone(way, n) {
            if !change.keeps_to(way, line.len(), line.limit()) {
                return Ok(None);
            }
            line.go_over_one(change, way, listener)?;
            let len = self.entries.len();
            let recorded = count_over(way, len, 1);
            let changes = count_over(way, self.entries.changes(), 1);
            self.entries.cut(recorded, changes);
            return Ok(Some(true));
        }
        if !self.units_fit(line, way, n) {
            return Ok(None);
        }
        let changed = self.go_over_units(line, way, n, listener)?;
        Ok(Some(changed))
    }
}
