//! The calls whose commands go over the record, or work on it alone: undo boundaries, groups, undo, redo and truncation.
ghost use Rattle.std.specs.Prelude.{◌≡◌, false, true, MatchOption, Some};
ghost use Rattle.rl_session.specs.Commands.{with_changes};
ghost use Rattle.rl_session.specs.Performing.{Performed, carried, leaves_waiting, made_in_group};
ghost use Rattle.rl_record.specs.Units.{end_times, still_waiting};
ghost use Rattle.rl_session.specs.Replies.{replied};
ghost use Rattle.rl_session.specs.declared.session.Command.{Command};
ghost use Rattle.rl_session.specs.declared.session.Reply.{Reply};

use crate::session::commands::{anew, edits, goes_on};
use crate::session::{Fault, Session};
use rl_base::RepeatCount;

#[tactic(auto, using(crate::proofs::Sessions::PerformLemmas::performing))]
impl Session {
    /// Parts the changes that come from those before: the next change joins nothing, so that it is undone alone, and
    /// the next kill begins a text. Text, cursor, groups and what was undone stay.
    pub fn part(&mut self) -> Result<(), Fault>
        ensures { Performed self.old Command.Part (replied (λ _. Reply.Done) result) self.new }
    {
        anew!(self, self.do_part())
    }

    /// Opens a group of changes. Says how many entries the record had. What was undone waits until the group changes
    /// something. `NoMemory` leaves the record as it was.
    #[tactic(auto, using(crate::proofs::Sessions::PerformLemmas::performing, crate::proofs::Sessions::WaitingLemmas::leaving))]
    pub fn begin(&mut self) -> Result<usize, Fault>
        ensures { Performed self.old Command.Begin (replied Reply.Mark result) self.new }
    {
        if !self.options.keeps && self.pair.changes.has_waiting() {
            let mark = self.open_waiting()?;
            return anew!(self, Ok(mark));
        }
        edits!(self, self.do_begin())
    }

    /// Closes all open groups. Answers whether one of them holds something; if none does, what was undone stays.
    /// `NoMemory` leaves the record as it was.
    #[tactic(auto, using(crate::proofs::Sessions::PerformLemmas::performing, crate::proofs::Sessions::WaitingLemmas::leaving))]
    pub fn end(&mut self) -> Result<bool, Fault>
        ensures { Performed self.old Command.End (replied Reply.Answer result) self.new }
    {
        let open = self.level();
        if self.close_empty(open) {
            return anew!(self, Ok(false));
        }
        edits!(self, self.do_end())
    }

    /// Closes the group that was opened last. Answers whether it holds something; if not, what was undone stays.
    /// `NoMemory` leaves the record as it was.
    #[tactic(auto, using(crate::proofs::Sessions::PerformLemmas::performing, crate::proofs::Sessions::WaitingLemmas::leaving))]
    pub fn end_one(&mut self) -> Result<bool, Fault>
        ensures { Performed self.old Command.EndOne (replied Reply.Answer result) self.new }
    {
        let open = self.level();
        if self.close_empty(open.min(1)) {
            return anew!(self, Ok(false));
        }
        edits!(self, self.do_end_one())
    }

    /// Opens the group again whose End is the last entry, also one that `keep_undone` recorded, and drops the undone
    /// changes. Later changes are a part of it. Returns false, and changes nothing, if the last entry is no End. If the
    /// options keep undone changes, and some wait to be redone, it returns false and leaves the session as it was.
    pub fn reopen(&mut self) -> Result<bool, Fault>
        ensures { Performed self.old Command.Reopen (replied Reply.Answer result) self.new }
    {
        if self.options.keeps && self.can_redo() {
            return Ok(false);
        }
        anew!(self, self.do_reopen())
    }

    /// Takes back the group that was opened last and is open, as if it had never been begun: its changes are undone,
    /// and it is forgotten with its begin, so that nothing waits to be redone; but what was undone stays if the group is
    /// empty. The ring keeps what was killed. Answers whether a group is open; else it changes nothing. `NoMemory`
    /// leaves text and record as they were.
    #[tactic(auto, using(crate::proofs::Sessions::PerformLemmas::performing, crate::proofs::Sessions::WaitingLemmas::leaving))]
    pub fn abandon(&mut self) -> Result<bool, Fault>
        ensures { Performed self.old Command.Abandon (replied Reply.Answer result) self.new }
    {
        if !self.pair.changes.abandon_fits(&self.line) {
            return Err(Fault::TooLong);
        }
        if self.abandon_empty() {
            return anew!(self, Ok(true));
        }
        anew!(self, self.do_abandon())
    }

    /// Keeps what was undone, for an edit that would drop it: what waits to be redone is recorded again, an open group
    /// in it is closed, and then the inverse of each of its units, the last first. The text stays, and an undo of n
    /// units leads where n redos led before. The next change joins none of these. Answers whether anything waited; else
    /// it changes nothing, and so does `NoMemory`. The ring stays, so that it may come between kills.
    pub fn keep_undone(&mut self) -> Result<bool, Fault>
        ensures { Performed self.old Command.KeepUndone (replied Reply.Answer result) self.new }
    {
        goes_on!(self, self.do_keep_undone())
    }

    // Closes the group that was opened last, if one is open, as `close_empty` does.
    fn abandon_empty(&mut self) -> bool
        ensures answer { result ≡ leaves_waiting self.old Command.Abandon }
        ensures done { result ≡ true → self.new ≡ with_changes (still_waiting (end_times 1 self.old.pair.changes.recorded) self.old.pair.changes) self.old }
        ensures none { result ≡ false → self.new ≡ self.old }
    {
        if self.level() == 0 {
            return false;
        }
        self.close_empty(1)
    }

    // How many units an undo of n takes, which stays in the group that was opened last and is open. None if nothing was
    // made in that.
    #[tactic(auto, using(crate::proofs::Sessions::PerformLemmas::grouping))]
    #[inline(always)]
    fn to_undo(&self, n: RepeatCount) -> Option<RepeatCount>
        ensures { MatchOption result (made_in_group self.now ≡ Some 0) (λ m. (carried self.now (Command.Undo n) ≡ Command.Undo m) × ¬ (made_in_group self.now ≡ Some 0)) }
    {
        let most = n.max(1);
        let Some(made) = self.pair.changes.units_in_group(most) else {
            return Some(n);
        };
        if made == 0 {
            return None;
        }
        Some(made)
    }

    /// Undoes n units: one for 0, and all if there are fewer. In a group it takes none from before it, and leaves it
    /// open. Answers whether there was a change. `NoMemory` leaves text and record as they were. Inlined, as `insert` is.
    #[tactic(auto, using(crate::proofs::Sessions::PerformLemmas::undoing))]
    #[inline(always)]
    pub fn undo(&mut self, n: RepeatCount) -> Result<bool, Fault>
        ensures { Performed self.old (Command.Undo n) (replied Reply.Answer result) self.new }
    {
        let Some(n) = self.to_undo(n) else {
            return Ok(false);
        };
        // The ring is reset after it, since what is barred leaves it.
        let Some(done) = self.undo_within(n) else {
            return Err(Fault::TooLong);
        };
        self.reset_ring();
        self.forget();
        done
    }

    /// Redoes what was undone last. Answers whether there was a change. `NoMemory` leaves text and record as they were.
    /// Inlined too.
    #[tactic(auto, using(crate::proofs::Sessions::PerformLemmas::undoing))]
    #[inline(always)]
    pub fn redo(&mut self) -> Result<bool, Fault>
        ensures { Performed self.old Command.Redo (replied Reply.Answer result) self.new }
    {
        let Some(done) = self.redo_within() else {
            return Err(Fault::TooLong);
        };
        self.reset_ring();
        self.forget();
        done
    }

    /// Truncates the record to the given number of entries, and drops what was undone. `NotReplaying` and `NoMemory`
    /// leave the record as it was.
    pub fn truncate(&mut self, len: usize) -> Result<(), Fault>
        ensures { Performed self.old (Command.Truncate len) (replied (λ _. Reply.Done) result) self.new }
    {
        anew!(self, self.do_truncate(len))
    }
}
