//! How a line goes back over what a record has, and ahead again.
ghost use Rattle.std.specs.Prelude.{◌≡◌, [], ◌∷◌, map, true, false, IsSome, Some, IfOk, IfErr, IfSome, OnOk, OnErr};
ghost use Rattle.rl_line.specs.Change.{entries_to_undo};
ghost use Rattle.rl_line.specs.Plan.{NeverRefuses};
ghost use Rattle.rl_line.specs.Entry.{entry_of, is_change};
ghost use Rattle.rl_record.specs.Undo.{Abandoned, GoesOver, OutOfRoom, Redone, StandsStill, Undone, unit_of, Reaches, count_over};
ghost use Rattle.rl_line.specs.Going.{LineOutOfRoom, line_ahead, line_back, line_over, listener_ahead, listener_back, listener_over, texts_ahead, texts_back, texts_over};
ghost use Rattle.rl_record.specs.Units.{IsMatched, last_of, level, open_group, redo_of};

use crate::changeset::Changeset;
use crate::units;
use rl_base::{ChangeListener, NoListener, Refusal, RepeatCount};
use rl_line::LineBuffer;
use rl_line::change::{Change, Way};

impl Changeset {
    /// Undoes the last `n` units, or one if `n` is 0, or all if there are fewer (GNU readline: undo). A
    /// unit is a change, a closed group, or the begin of an open one. Answers whether there was a change.
    /// The cursor goes back to where it was before the last change that is undone, or, if the record was not
    /// told that, to the place of that change, past what it puts back.
    /// `can_undo` tells whether all changes can be taken back from the line's text; `try_undo` asks that of these units
    /// itself. It finds all room first, so refused it changes nothing.
    pub fn undo(&mut self, line: &mut LineBuffer, n: RepeatCount) -> Result<bool, Refusal>
        requires { IsSome (line_back (last_of n self.old.recorded) line.old) }
        ensures done { IfOk result (λ answer. Undone n self.old self.new line.old line.new answer) }
        ensures unmoved { IfOk result (λ answer. answer ≡ false → StandsStill line.old line.new) }
        ensures err { IfErr result (OutOfRoom self.old self.new line.old line.new (texts_back (last_of n self.old.recorded) line.old.text)) }
    {
        self.undo_telling(line, n, &mut NoListener)
    }

    /// Undoes as `undo` does, and tells a listener that refuses nothing. It hears of each change that is taken back, the
    /// last first and right after it was: that what the change had put in gave way to what stood there before
    /// (`replace`), and where the cursor was and went (`cursors`). It hears nothing of the marks of groups, and nothing
    /// of a refused call.
    // Inlined, so that an undo that tells no one is one function.
    #[inline(always)]
    pub fn undo_telling<L: ChangeListener>(
        &mut self,
        line: &mut LineBuffer,
        n: RepeatCount,
        listener: &mut L,
    ) -> Result<bool, Refusal>
        requires follows { IsSome (line_back (last_of n self.old.recorded) line.old) }
        requires hears { NeverRefuses L.refused }
        ensures done { IfOk result (λ answer. Undone n self.old self.new line.old line.new answer) }
        ensures unmoved { IfOk result (λ answer. answer ≡ false → StandsStill line.old line.new) }
        ensures told { OnOk result (listener.new ≡ listener_back L.step line.old.cursor (last_of n self.old.recorded) listener.old) }
        ensures err { IfErr result (OutOfRoom self.old self.new line.old line.new (texts_back (last_of n self.old.recorded) line.old.text)) }
        ensures kept { OnErr result (listener.new ≡ listener.old) }
    {
        self.go_over(line, Way::Back, usize::from(n), listener)
    }

    /// Takes back the group that was opened last and is open, as if it had never been begun: its changes are undone, those
    /// of the groups inside too, and it is forgotten with its begin, so that nothing waits to be redone. Answers whether a
    /// group is open, and tells the listener, which refuses nothing, as `undo_telling` does. It finds all room first, so
    /// refused it changes nothing.
    pub fn abandon_telling<L: ChangeListener>(
        &mut self,
        line: &mut LineBuffer,
        listener: &mut L,
    ) -> Result<bool, Refusal>
        requires follows { IsSome (line_back (open_group self.old.recorded) line.old) }
        requires hears { NeverRefuses L.refused }
        ensures done { IfOk result (λ answer. Abandoned self.old self.new line.old line.new answer) }
        ensures told { OnOk result (listener.new ≡ listener_back L.step line.old.cursor (open_group self.old.recorded) listener.old) }
        ensures err { IfErr result (OutOfRoom self.old self.new line.old line.new (texts_back (open_group self.old.recorded) line.old.text)) }
        ensures kept { OnErr result (listener.new ≡ listener.old) }
    {
        if self.level == 0 {
            return Ok(false);
        }
        let size = units::open_size(self.recorded());
        self.go_over_units(line, Way::Back, size, listener)?;
        let kept = self.entries.len();
        self.truncate(kept);
        Ok(true)
    }

    /// Redoes what was undone: the next change, or the next group, or all that is left if its group was
    /// never closed. Answers whether there was a change. The cursor goes to where it went with the last change that
    /// is redone, or, if the record was not told that, to the place of that change, past what it puts in.
    /// `can_redo` tells whether all changes that were undone fit the line; `try_redo` asks that of these itself. It finds all
    /// room first, so refused it changes nothing.
    pub fn redo(&mut self, line: &mut LineBuffer) -> Result<bool, Refusal>
        requires { IsSome (line_ahead (redo_of self.old.pending) line.old) }
        ensures done { IfOk result (λ answer. Redone self.old self.new line.old line.new answer) }
        ensures unmoved { IfOk result (λ answer. answer ≡ false → StandsStill line.old line.new) }
        ensures err { IfErr result (OutOfRoom self.old self.new line.old line.new (texts_ahead (redo_of self.old.pending) line.old.text)) }
    {
        self.redo_telling(line, &mut NoListener)
    }

    /// Redoes as `redo` does, and tells a listener that refuses nothing. It hears of each change that is made again, the
    /// first first and right after it was: that what stood there gave way to what the change puts in (`replace`), and
    /// where the cursor was and went (`cursors`). It hears nothing of the marks of groups, and nothing of a refused call.
    // Inlined as well.
    #[inline(always)]
    pub fn redo_telling<L: ChangeListener>(
        &mut self,
        line: &mut LineBuffer,
        listener: &mut L,
    ) -> Result<bool, Refusal>
        requires follows { IsSome (line_ahead (redo_of self.old.pending) line.old) }
        requires hears { NeverRefuses L.refused }
        ensures done { IfOk result (λ answer. Redone self.old self.new line.old line.new answer) }
        ensures unmoved { IfOk result (λ answer. answer ≡ false → StandsStill line.old line.new) }
        ensures told { OnOk result (listener.new ≡ listener_ahead L.step line.old.cursor (redo_of self.old.pending) listener.old) }
        ensures err { IfErr result (OutOfRoom self.old self.new line.old line.new (texts_ahead (redo_of self.old.pending) line.old.text)) }
        ensures kept { OnErr result (listener.new ≡ listener.old) }
    {
        self.go_over(line, Way::Ahead, 1, listener)
    }

    // Undoes the last `n` units, or redoes the next one.
    #[inline(always)]
    fn go_over<L: ChangeListener>(
        &mut self,
        line: &mut LineBuffer,
        way: Way,
        n: usize,
        listener: &mut L,
    ) -> Result<bool, Refusal>
        requires follows { IsSome (line_over way (unit_of way n self.old) line.old) }
        requires hears { NeverRefuses L.refused }
        ensures done { IfOk result (GoesOver way n self.old self.new line.old line.new) }
        ensures unmoved { IfOk result (λ answer. answer ≡ false → StandsStill line.old line.new) }
        ensures told { OnOk result (listener.new ≡ listener_over L.step way line.old.cursor (unit_of way n self.old) listener.old) }
        ensures err { IfErr result (OutOfRoom self.old self.new line.old line.new (texts_over way (unit_of way n self.old) line.old.text)) }
        ensures kept { OnErr result (listener.new ≡ listener.old) }
    {
        if let Some(change) = self.alone(way, n) {
            line.go_over_one(change, way, listener)?;
            let len = self.entries.len();
            let recorded = count_over(way, len, 1);
            let changes = count_over(way, self.entries.changes(), 1);
            self.entries.cut(recorded, changes);
            return Ok(true);
        }
        self.go_over_units(line, way, n, listener)
    }

    // The same of any units. It stands apart, since mostly one change alone is undone.
    #[inline(never)]
    #[tactic(auto, using(crate::proofs::Records::LevelLemmas::moves_of_units))]
    pub(super) fn go_over_units<L: ChangeListener>(
        &mut self,
        line: &mut LineBuffer,
        way: Way,
        n: usize,
        listener: &mut L,
    ) -> Result<bool, Refusal>
        requires follows { IsSome (line_over way (unit_of way n self.old) line.old) }
        requires hears { NeverRefuses L.refused }
        ensures done { IfOk result (GoesOver way n self.old self.new line.old line.new) }
        ensures unmoved { IfOk result (λ answer. answer ≡ false → StandsStill line.old line.new) }
        ensures told { OnOk result (listener.new ≡ listener_over L.step way line.old.cursor (unit_of way n self.old) listener.old) }
        ensures err { IfErr result (OutOfRoom self.old self.new line.old line.new (texts_over way (unit_of way n self.old) line.old.text)) }
        ensures kept { OnErr result (listener.new ≡ listener.old) }
    {
        let unit = self.unit(way, n);
        go_over_all(line, unit, way, listener)?;
        let (opened, changed) = units::level_and_changes(unit);
        let recorded = count_over(way, self.entries.len(), unit.len());
        let changes = count_over(way, self.entries.changes(), changed);
        self.entries.cut(recorded, changes);
        self.level = count_over(way, self.level, opened);
        Ok(changed > 0)
    }

    // The units that an undo of `n` goes over, or the one that a redo does.
    #[inline(always)]
    pub(super) fn unit(&self, way: Way, n: usize) -> &[Change]
        ensures entries { map entry_of result.now ≡ unit_of way n self.now }
        ensures matched { IsMatched (map entry_of result.now) }
    {
        match way {
            Way::Back => units::last_units(self.recorded(), n),
            Way::Ahead => units::next_unit(self.pending()),
        }
    }

    // These units, if they are one change alone.
    #[inline(always)]
    pub(super) fn alone(&self, way: Way, n: usize) -> Option<&Change>
        ensures { IfSome result (λ change. (is_change (entry_of change.now) ≡ true) × (unit_of way n self.now ≡ entry_of change.now ∷ [])) }
    {
        match way {
            Way::Back => units::last_alone(self.recorded(), n),
            Way::Ahead => units::next_alone(self.pending()),
        }
    }
}

/// What a number comes to once a line went over `count` of what it counts.
#[inline(always)]
pub(super) fn count_over(way: Way, number: usize, count: usize) -> usize
    requires { Reaches way number count }
    ensures { result ≡ count_over way number count }
{
    match way {
        Way::Back => number - count,
        Way::Ahead => number + count,
    }
}

// Goes over the changes in the line. Each way is a call of its own, in which it is known at compile time.
fn go_over_all<L: ChangeListener>(
    line: &mut LineBuffer,
    changes: &[Change],
    way: Way,
    listener: &mut L,
) -> Result<(), Refusal>
    requires follows { IsSome (line_back (entries_to_undo way changes.now) line.old) }
    requires hears { NeverRefuses L.refused }
    ensures ok { OnOk result (line_back (entries_to_undo way changes.now) line.old ≡ Some line.new) }
    ensures told { OnOk result (listener.new ≡ listener_back L.step line.old.cursor (entries_to_undo way changes.now) listener.old) }
    ensures err { IfErr result (LineOutOfRoom line.old line.new (texts_back (entries_to_undo way changes.now) line.old.text)) }
    ensures kept { OnErr result (listener.new ≡ listener.old) }
{
    match way {
        Way::Back => line.go_over_all(changes, Way::Back, listener),
        Way::Ahead => line.go_over_all(changes, Way::Ahead, listener),
    }
}
