//! Deletions. What they take out does not go to the ring.
ghost use Rattle.rl_line.specs.Deletions.{kill_plan};
ghost use Rattle.rl_line.specs.Plan.{nothing_more};
ghost use Rattle.rl_session.specs.Commands.{Came, Does, answers, edit_course};
ghost use Rattle.rl_session.specs.Replies.{replied};
ghost use Rattle.rl_session.specs.declared.session.Command.{Command};
ghost use Rattle.rl_session.specs.declared.session.Reply.{Reply};

use crate::session::{Fault, Session};
use rl_base::{Movement, RepeatCount};

#[tactic(auto, using(crate::proofs::Sessions::SessionLemmas::edits))]
impl Session {
    pub(super) fn do_delete_range(&mut self, from: usize, to: usize) -> Result<(), Fault>
        ensures { Does self.old (Command.DeleteRange from to) (replied (λ _. Reply.Done) result) self.new }
    {
        self.stands();
        if !self.line.is_range(from, to) {
            return Err(Fault::BadPlace);
        }
        Ok(self.line.delete_range(from..to, &mut self.pair)?)
    }

    pub(super) fn do_delete(&mut self, n: RepeatCount) -> Result<Option<String>, Fault>
        ensures { Does self.old (Command.Delete n) (replied Reply.Text result) self.new }
    {
        self.stands();
        Ok(self.line.delete(n, &mut self.pair)?)
    }

    pub(super) fn do_backspace(&mut self, n: RepeatCount) -> Result<bool, Fault>
        ensures { Does self.old (Command.Backspace n) (replied Reply.Answer result) self.new }
    {
        self.stands();
        Ok(self.line.backspace(n, &mut self.pair)?)
    }

    // Deletes by a movement to one side of the cursor, and tells no kill. Inlined, so that no reply is copied when the
    // command is chosen.
    #[inline(always)]
    pub(super) fn do_delete_by(&mut self, movement: &Movement) -> Result<bool, Fault>
        ensures { Came (edit_course nothing_more (Unit {0}) (kill_plan self.old.line movement.now) answers (replied Reply.Answer result)) self.old self.new }
    {
        self.stands();
        Ok(self.line.delete_by(movement, &mut self.pair)?)
    }
}
