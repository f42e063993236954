//! What hears of the changes of a line.
//!
//! A listener says, as definitions over its own value, what it becomes at each event and what it may be
//! after a refusal. Every edit is proved once, for all listeners, from these two alone.
ghost use Rattle.std.specs.Prelude.{◌≡◌, OnOk, IfErr};
ghost use Rattle.rl_base.specs.Event.{Event, InsertChar, InsertStr, Delete, Replace, Start, Stop, Cursors};
ghost use Rattle.rl_base.specs.declared.listeners.Refusal.{Refusal};
ghost use Rattle.rl_base.specs.declared.listeners.Refusal.TheVariants.{NoMemory};

pub use crate::motion::WordAction;
use std::alloc::{AllocError, AllocFailed};
use thiserror::Error;

/// The side of the cursor from which a text is taken.
#[derive(Clone, Copy, Debug, Default, PartialEq, Eq)]
pub enum Direction {
    /// From the cursor on.
    #[default]
    Forward,
    /// Up to the cursor.
    Backward,
}

/// Why a call was refused.
#[derive(Clone, Copy, Debug, PartialEq, Eq, Error)]
pub enum Refusal {
    /// A growth found no memory, or a length does not fit a `usize`.
    #[error("out of memory")]
    NoMemory = 1,
    /// A listener of the caller's own refused.
    #[error("the listener refused the change")]
    Listener = 2,
}

impl From<AllocError> for Refusal {
    ghost from_gives = { λ _ r. r ≡ NoMemory };

    fn from(_: AllocError) -> Self {
        Refusal::NoMemory
    }
}

impl<T: Drop> From<AllocFailed<T>> for Refusal {
    ghost from_gives = { λ _ r. r ≡ NoMemory };

    fn from(_: AllocFailed<T>) -> Self {
        Refusal::NoMemory
    }
}

// The numbers are part of the interface.
const _: () = prove!(Refusal::NoMemory as u8 == 1);

const _: () = prove!(Refusal::Listener as u8 == 2);

/// Hears deletions.
pub trait DeleteListener {
    /// What an event makes of the listener.
    ghost step: { Self → Event → Self };

    /// The refusals of an event, with what the listener may be after each.
    ghost refused: { Self → Event → Refusal → Self → Type 0 };

    /// A kill begins: the deletions up to its end are for a kill ring. It can't be refused.
    fn start_killing(&mut self)
        ensures { self.new ≡ step self.old Start };

    /// `string` is about to be deleted from the byte place `idx`, on the cursor's side `dir`.
    fn delete(&mut self, idx: usize, string: &str, dir: Direction) -> Result<(), Refusal>
        ensures done { OnOk result (self.new ≡ step self.old (Delete idx string.now dir)) }
        ensures err { IfErr result (λ r. refused self.old (Delete idx string.now dir) r self.new) };

    /// A kill ends. It can't be refused.
    fn stop_killing(&mut self)
        ensures { self.new ≡ step self.old Stop };

    /// The change that was told last moves the cursor from the byte place `before` to `after`. This call follows
    /// each change, and it can't be refused.
    fn cursors(&mut self, before: usize, after: usize)
        ensures { self.new ≡ step self.old (Cursors before after) };
}

/// Hears every change.
pub trait ChangeListener: DeleteListener {
    /// `c` is about to be inserted at the byte place `idx`.
    fn insert_char(&mut self, idx: usize, c: char) -> Result<(), Refusal>
        ensures done { OnOk result (self.new ≡ Self.step self.old (InsertChar idx c)) }
        ensures err { IfErr result (λ r. Self.refused self.old (InsertChar idx c) r self.new) };

    /// `string` is about to be inserted at the byte place `idx`.
    fn insert_str(&mut self, idx: usize, string: &str) -> Result<(), Refusal>
        ensures done { OnOk result (self.new ≡ Self.step self.old (InsertStr idx string.now)) }
        ensures err { IfErr result (λ r. Self.refused self.old (InsertStr idx string.now) r self.new) };

    /// `old`, which stands at the byte place `idx`, is about to give way to `new`.
    fn replace(&mut self, idx: usize, old: &str, new: &str) -> Result<(), Refusal>
        ensures done { OnOk result (self.new ≡ Self.step self.old (Replace idx old.now new.now)) }
        ensures err { IfErr result (λ r. Self.refused self.old (Replace idx old.now new.now) r self.new) };
}

/// Hears nothing and refuses nothing.
#[derive(Drop)]
pub struct NoListener;

impl DeleteListener for NoListener {
    ghost step = { λ listener _. listener };

    ghost refused = { λ _ _ _ _. ⊥ };

    fn start_killing(&mut self) {}

    fn delete(&mut self, _idx: usize, _string: &str, _dir: Direction) -> Result<(), Refusal> {
        Ok(())
    }

    fn stop_killing(&mut self) {}

    fn cursors(&mut self, _before: usize, _after: usize) {}
}

impl ChangeListener for NoListener {
    fn insert_char(&mut self, _idx: usize, _c: char) -> Result<(), Refusal> {
        Ok(())
    }

    fn insert_str(&mut self, _idx: usize, _string: &str) -> Result<(), Refusal> {
        Ok(())
    }

    fn replace(&mut self, _idx: usize, _old: &str, _new: &str) -> Result<(), Refusal> {
        Ok(())
    }
}
