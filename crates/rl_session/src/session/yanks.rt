//! Kills and yanks, and when the ring is reset.
ghost use Rattle.std.specs.Prelude.{◌≡◌, List, ℕ, length, true, false, option_map};
ghost use Rattle.rl_base.specs.KillRing.{yank, yanked, yank_pop, yank_popped, yank_size};
ghost use Rattle.rl_line.specs.Plan.{Outcome, room_by_step};
ghost use Rattle.rl_session.specs.Commands.{Does, DoesWith, StandsYanked, lent_plan, popped_plan, readied, settled};
ghost use Rattle.rl_session.specs.Pair.{pair_step, pair_refused};
ghost use Rattle.rl_session.specs.Performing.{IsBarred, lent_too_long};
ghost use Rattle.rl_session.specs.Replies.{replied};
ghost use Rattle.rl_session.specs.declared.session.Command.{Command};
ghost use Rattle.rl_session.specs.declared.session.Reply.{Reply};

use crate::pair::Pair;
use crate::session::{Fault, Session};
use rl_base::{Direction, KillRing, Mode, Movement, Refusal, RepeatCount};
use rl_line::{LineBuffer, is_by_characters};
use std::mem::replace;

impl Session {
    pub(super) fn do_kill(&mut self, movement: &Movement) -> Result<bool, Fault>
        ensures { Does self.old (Command.Kill movement.now) (replied Reply.Answer result) self.new }
    {
        self.stands();
        Ok(self.line.kill(movement, &mut self.pair)?)
    }

    pub(super) fn do_kill_range(
        &mut self,
        from: usize,
        to: usize,
        dir: Direction,
    ) -> Result<bool, Fault>
        ensures { Does self.old (Command.KillRange from to dir) (replied Reply.Answer result) self.new }
    {
        self.stands();
        if !self.line.is_range(from, to) {
            return Err(Fault::BadPlace);
        }
        Ok(self.line.kill_range(from..to, dir, &mut self.pair)?)
    }

    // The ring was reset, so it begins a text; it is reset again, so that a kill begins another.
    pub(super) fn do_keep(&mut self, text: &str) -> Result<(), Fault>
        ensures { DoesWith text.now Command.Keep self.old (replied (λ _. Reply.Done) result) self.new }
    {
        self.pair.ring.kill(text, Mode::Append)?;
        self.pair.ring.reset();
        Ok(())
    }

    pub(super) fn do_yank(&mut self, n: RepeatCount) -> Result<Option<bool>, Fault>
        ensures { Does self.old (Command.Yank n) (replied Reply.Inserted result) self.new }
    {
        self.stands();
        let mut ring = replace(&mut self.pair.ring, KillRing::new(self.alloc, 0));
        let outcome = yank_into(&mut self.line, &mut ring, n, &mut self.pair);
        self.pair.ring = ring;
        outcome.map_err(Fault::from)
    }

    // Whether the bytes that were yanked last can stand before the cursor.
    fn stands_yanked(&self) -> bool
        ensures yes { result ≡ true → StandsYanked (yank_size self.now.pair.ring) self.now.line }
        ensures no { result ≡ false → ¬ (StandsYanked (yank_size self.now.pair.ring) self.now.line) }
    {
        match self.pair.ring.yank_size() {
            Some(size) => self.line.can_yank_pop(size),
            None => true,
        }
    }

    pub(super) fn do_yank_pop(&mut self) -> Result<Option<bool>, Fault>
        ensures { Does self.old Command.YankPop (replied Reply.Inserted result) self.new }
    {
        if !self.stands_yanked() {
            return Err(Fault::BadYankSize);
        }
        self.stands();
        let mut ring = replace(&mut self.pair.ring, KillRing::new(self.alloc, 0));
        let outcome = pop_into(&mut self.line, &mut ring, &mut self.pair);
        self.pair.ring = ring;
        outcome.map_err(Fault::from)
    }

    // Whether the ring's current text makes the text too long if it goes in n times.
    pub(super) fn yank_is_too_long(&self, n: RepeatCount) -> bool
        ensures { result ≡ lent_too_long self.now.line (yank self.now.pair.ring) n }
    {
        // So the proof knows that the index is that of a slot.
        let _ = self.pair.ring.yank_size();
        match self.pair.ring.text_back(0) {
            Some(text) => self.line.is_too_long(text.len(), n),
            None => false,
        }
    }

    // Whether the text before the one that was yanked does in the place of that, if what was yanked can stand there.
    pub(super) fn yank_pop_is_too_long(&self) -> bool
        ensures yes { result ≡ true → IsBarred self.now Command.YankPop }
        ensures no { result ≡ false → ¬ (IsBarred self.now Command.YankPop) }
    {
        self.stands();
        match (self.pair.ring.yank_size(), self.popped_len()) {
            (Some(size), Some(bytes)) if self.line.can_yank_pop(size) => {
                self.line.is_too_long(bytes.saturating_sub(size), 1)
            }
            _ => false,
        }
    }

    // How long the text is that a yank-pop puts in: the one before the current one, or that if it stands alone.
    fn popped_len(&self) -> Option<usize>
        ensures { result ≡ option_map (λ (found : ℕ × List ℕ). length found.1) (yank_pop self.now.pair.ring) }
    {
        let ring = &self.pair.ring;
        ring.yank_size()?;
        match ring.text_back(usize::from(ring.len() > 1)) {
            Some(text) => Some(text.len()),
            None => None,
        }
    }

    // Resets the ring before a kill by a movement that does not go on from the kill before it.
    pub(super) fn ready_to_kill(&mut self, movement: &Movement)
        ensures { self.new ≡ readied (Command.Kill movement.now) self.old }
    {
        if is_by_characters(movement) {
            self.pair.ring.reset();
        }
    }

    // Resets the ring after a vain yank, which returned this.
    pub(super) fn settle_yank(&mut self, done: &Result<Option<bool>, Fault>)
        ensures yank { (n : ℕ) → self.new ≡ settled (Command.Yank n) (replied Reply.Inserted done.now) self.old }
        ensures pop { self.new ≡ settled Command.YankPop (replied Reply.Inserted done.now) self.old }
    {
        if !matches!(done, Ok(Some(_))) {
            self.pair.ring.reset();
        }
    }
}

// Yanks from a ring into a line, n times. A pair that hears of it has another ring, so the text is lent and not copied.
fn yank_into(
    line: &mut LineBuffer,
    ring: &mut KillRing,
    n: RepeatCount,
    pair: &mut Pair,
) -> Result<Option<bool>, Refusal>
    ensures ring { ring.new ≡ yanked ring.old }
    ensures line { Outcome pair_step pair_refused room_by_step (lent_plan line.old (yank ring.old) n) line.old line.new pair.old pair.new result }
{
    match ring.yank() {
        Some(text) => line.yank(text.as_str(), n, pair),
        None => Ok(None),
    }
}

// The same with the text before the one that was yanked, which takes that one's place.
fn pop_into(
    line: &mut LineBuffer,
    ring: &mut KillRing,
    pair: &mut Pair,
) -> Result<Option<bool>, Refusal>
    requires stands { StandsYanked (yank_size ring.old) line.old }
    ensures ring { ring.new ≡ yank_popped ring.old }
    ensures line { Outcome pair_step pair_refused room_by_step (popped_plan line.old (yank_pop ring.old)) line.old line.new pair.old pair.new result }
{
    match ring.yank_pop() {
        Some((size, text)) => line.yank_pop(size, text.as_str(), pair),
        None => Ok(None),
    }
}
