//! Groups of changes, undo, redo, and truncation of the record, and what can be asked about them.
ghost use Rattle.std.specs.Prelude.{◌≡◌, List, ℕ, ◌≤◌, ◌&&◌, ◌++◌, ◌∷◌, [], IfErr, IfOk, false, length, not, true};
ghost use Rattle.rl_line.specs.Entry.{Begin, has_change};
ghost use Rattle.rl_record.specs.Record.{is_saved};
ghost use Rattle.rl_record.specs.Units.{last_of, level, redo_of, adds_end, end_times, still_waiting, waits};
ghost use Rattle.rl_session.specs.Commands.{Does, with_changes};
ghost use Rattle.rl_session.specs.Performing.{DoesWithin};
ghost use Rattle.rl_session.specs.Replies.{replied};
ghost use Rattle.rl_session.specs.State.{ChangedFrom, ReportedFrom, saved_now};
ghost use Rattle.rl_session.specs.declared.session.Command.{Command};
ghost use Rattle.rl_session.specs.declared.session.Fault.TheVariants.{NoMemory};
ghost use Rattle.rl_session.specs.declared.session.Reply.{Reply};

use crate::session::{Fault, Session};
use rl_base::RepeatCount;

impl Session {
    /// Whether an undo of one unit would find a change (`Changeset::has_undo`), so that it would answer true. It does not
    /// end a run of kills.
    pub fn can_undo(&self) -> bool
        ensures { result ≡ has_change (last_of 1 self.now.pair.changes.recorded) }
    {
        self.pair.changes.has_undo()
    }

    /// Whether a redo would find a change (`Changeset::has_redo`), so that it would answer true. A read too.
    pub fn can_redo(&self) -> bool
        ensures { result ≡ has_change (redo_of self.now.pair.changes.pending) }
    {
        self.pair.changes.has_redo()
    }

    /// Says that the text is saved as it is (`Changeset::set_saved`). The next change is undone alone. No command: text, cursor,
    /// ring and reports stay. A new session and one that was restarted were never saved.
    pub fn set_saved(&mut self)
        ensures set { self.new ≡ saved_now self.old }
        ensures changed { (asked : List ℕ) → ChangedFrom asked self.old → ChangedFrom asked self.new }
        ensures reported { (read : List ℕ) → ReportedFrom read self.old → ReportedFrom read self.new }
    {
        self.pair.changes.set_saved();
        self.stands();
    }

    /// Whether the record stands where the text was saved (`Changeset::is_saved`), also after undos and redos: then the
    /// text is as it was. A read too.
    pub fn is_saved(&self) -> bool
        ensures { result ≡ is_saved self.now.pair.changes }
    {
        self.pair.changes.is_saved()
    }

    /// How many groups are open. A read too.
    pub fn level(&self) -> usize
        ensures { result ≡ level self.now.pair.changes.recorded }
    {
        self.pair.changes.level()
    }

    #[tactic(auto, using(crate::proofs::Sessions::SessionLemmas::resting))]
    pub(super) fn do_part(&mut self) -> Result<(), Fault>
        ensures { Does self.old Command.Part (replied (λ _. Reply.Done) result) self.new }
    {
        self.pair.changes.part();
        Ok(())
    }

    #[tactic(auto, using(crate::proofs::Sessions::SessionLemmas::resting))]
    pub(super) fn do_begin(&mut self) -> Result<usize, Fault>
        ensures { Does self.old Command.Begin (replied Reply.Mark result) self.new }
    {
        Ok(self.pair.changes.begin()?)
    }

    // Opens a group before what waits to be redone, which stays.
    #[tactic(auto, using(crate::proofs::Sessions::SessionLemmas::resting))]
    pub(super) fn open_waiting(&mut self) -> Result<usize, Fault>
        ensures ok { IfOk result (λ mark. (mark ≡ length self.old.pair.changes.recorded) × (self.new ≡ with_changes (still_waiting (self.old.pair.changes.recorded ++ Begin ∷ []) self.old.pair.changes) self.old)) }
        ensures err { IfErr result (λ why. (why ≡ NoMemory) × (self.new ≡ self.old)) }
    {
        Ok(self.pair.changes.open_group()?)
    }

    // Closes so many groups, the one that was opened last first, if they are empty and something waits to be redone, which
    // stays. Not if that is to be kept. Answers whether it did.
    #[tactic(auto, using(crate::proofs::Sessions::SessionLemmas::resting))]
    pub(super) fn close_empty(&mut self, count: usize) -> bool
        requires { count ≤ level self.old.pair.changes.recorded }
        ensures answer { result ≡ (not (adds_end count self.old.pair.changes.recorded) && (not self.old.options.keeps && waits self.old.pair.changes.pending)) }
        ensures done { result ≡ true → self.new ≡ with_changes (still_waiting (end_times count self.old.pair.changes.recorded) self.old.pair.changes) self.old }
        ensures none { result ≡ false → self.new ≡ self.old }
    {
        if self.options.keeps {
            return false;
        }
        self.pair.changes.close_empty(count)
    }

    #[tactic(auto, using(crate::proofs::Sessions::SessionLemmas::resting))]
    pub(super) fn do_end(&mut self) -> Result<bool, Fault>
        ensures { Does self.old Command.End (replied Reply.Answer result) self.new }
    {
        Ok(self.pair.changes.end()?)
    }

    #[tactic(auto, using(crate::proofs::Sessions::SessionLemmas::resting))]
    pub(super) fn do_end_one(&mut self) -> Result<bool, Fault>
        ensures { Does self.old Command.EndOne (replied Reply.Answer result) self.new }
    {
        Ok(self.pair.changes.end_one()?)
    }

    #[tactic(auto, using(crate::proofs::Sessions::SessionLemmas::resting))]
    pub(super) fn do_reopen(&mut self) -> Result<bool, Fault>
        ensures { Does self.old Command.Reopen (replied Reply.Answer result) self.new }
    {
        Ok(self.pair.changes.reopen())
    }

    #[tactic(auto, using(crate::proofs::Sessions::SessionLemmas::resting))]
    pub(super) fn do_abandon(&mut self) -> Result<bool, Fault>
        ensures { Does self.old Command.Abandon (replied Reply.Answer result) self.new }
    {
        self.stands();
        let watch = &mut self.pair.watch;
        let done = self.pair.changes.abandon_telling(&mut self.line, watch)?;
        Ok(done)
    }

    #[tactic(auto, using(crate::proofs::Sessions::SessionLemmas::resting, crate::proofs::Sessions::SessionLemmas::follows_replay))]
    pub(super) fn do_keep_undone(&mut self) -> Result<bool, Fault>
        ensures { Does self.old Command.KeepUndone (replied Reply.Answer result) self.new }
    {
        self.follows();
        Ok(self.pair.changes.keep_undone()?)
    }

    #[inline(always)]
    pub(super) fn do_undo(&mut self, n: RepeatCount) -> Result<bool, Fault>
        ensures { Does self.old (Command.Undo n) (replied Reply.Answer result) self.new }
    {
        self.stands();
        let watch = &mut self.pair.watch;
        let done = self.pair.changes.undo_telling(&mut self.line, n, watch)?;
        Ok(done)
    }

    #[inline(always)]
    pub(super) fn do_redo(&mut self) -> Result<bool, Fault>
        ensures { Does self.old Command.Redo (replied Reply.Answer result) self.new }
    {
        self.stands();
        let watch = &mut self.pair.watch;
        let done = self.pair.changes.redo_telling(&mut self.line, watch)?;
        Ok(done)
    }

    // Undoes n units as `do_undo` does. None, and nothing is changed, if the limit bars that.
    #[inline(always)]
    pub(super) fn undo_within(&mut self, n: RepeatCount) -> Option<Result<bool, Fault>>
        ensures { DoesWithin self.old (Command.Undo n) result self.new }
    {
        self.stands();
        let watch = &mut self.pair.watch;
        match self.pair.changes.undo_within(&mut self.line, n, watch) {
            Ok(Some(done)) => Some(Ok(done)),
            Ok(None) => None,
            Err(_) => Some(Err(Fault::NoMemory)),
        }
    }

    // Redoes as `do_redo` does, or answers None in the same way.
    #[inline(always)]
    pub(super) fn redo_within(&mut self) -> Option<Result<bool, Fault>>
        ensures { DoesWithin self.old Command.Redo result self.new }
    {
        self.stands();
        let watch = &mut self.pair.watch;
        match self.pair.changes.redo_within(&mut self.line, watch) {
            Ok(Some(done)) => Some(Ok(done)),
            Ok(None) => None,
            Err(_) => Some(Err(Fault::NoMemory)),
        }
    }

    #[tactic(auto, using(crate::proofs::Sessions::SessionLemmas::resting))]
    pub(super) fn do_truncate(&mut self, len: usize) -> Result<(), Fault>
        ensures { Does self.old (Command.Truncate len) (replied (λ _. Reply.Done) result) self.new }
    {
        self.stands();
        if len >= self.pair.changes.len() {
            self.pair.changes.truncate(len);
            return Ok(());
        }
        if !self.pair.changes.replays_to(len, &self.line)? {
            return Err(Fault::NotReplaying);
        }
        self.pair.changes.truncate(len);
        Ok(())
    }
}
