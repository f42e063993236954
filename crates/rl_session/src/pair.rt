//! A kill ring and a record of changes, which hear of a line's changes as one, and a watch beside them.
use rl_base::{ChangeListener, DeleteListener, Direction, KillRing, Refusal, Watch};
use rl_record::Changeset;

/// A kill ring and a record, told together. The ring hears of a deletion first. If one of the two refuses, the
/// record is as it was; the ring is as it was too, or it heard of that deletion. The watch hears what neither refused.
#[derive(Drop)]
pub struct Pair {
    /// Hears of deletions, and of where a kill starts and ends.
    pub ring: KillRing,
    /// Hears of every change.
    pub changes: Changeset,
    /// Tells what changed.
    pub watch: Watch,
}

impl DeleteListener for Pair {
    ghost use Rattle.rl_session.specs.Pair.{pair_step, pair_refused};

    ghost step = { pair_step };

    ghost refused = { pair_refused };

    #[tactic(auto, using(rl_record::proofs::Records::JoinLemmas::alone))]
    fn start_killing(&mut self) {
        self.ring.start_killing();
        self.watch.start_killing();
    }

    fn delete(&mut self, idx: usize, string: &str, dir: Direction) -> Result<(), Refusal> {
        self.ring.delete(idx, string, dir)?;
        DeleteListener::delete(&mut self.changes, idx, string, dir)?;
        self.watch.delete(idx, string, dir)
    }

    #[tactic(auto, using(rl_record::proofs::Records::JoinLemmas::alone))]
    fn stop_killing(&mut self) {
        self.ring.stop_killing();
        self.watch.stop_killing();
    }

    #[inline(always)]
    fn cursors(&mut self, before: usize, after: usize) {
        self.watch.cursors(before, after);
        self.changes.cursors(before, after);
    }
}

impl ChangeListener for Pair {
    #[inline(always)]
    fn insert_char(&mut self, idx: usize, c: char) -> Result<(), Refusal> {
        self.changes.insert_char(idx, c)?;
        self.watch.insert_char(idx, c)
    }

    fn insert_str(&mut self, idx: usize, string: &str) -> Result<(), Refusal> {
        ChangeListener::insert_str(&mut self.changes, idx, string)?;
        self.watch.insert_str(idx, string)
    }

    fn replace(&mut self, idx: usize, old: &str, new: &str) -> Result<(), Refusal> {
        ChangeListener::replace(&mut self.changes, idx, old, new)?;
        self.watch.replace(idx, old, new)
    }
}
