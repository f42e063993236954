//! Checks, how many of them held, and what a failed one is about.
ghost use Rattle.std.specs.Prelude.{◌≡◌, IfOk, OnOk, OnErr, true, false};

use thiserror::Error;

// How many checks are made if nothing is refused.
const CHECKS: usize = 128;

/// A check that failed.
#[derive(Clone, Copy, Debug, Drop, Error)]
#[error("{what}")]
pub(crate) struct Failed {
    what: &'static str,
}

/// How many checks held, and how many commands and questions were refused. Nothing but a check that holds counts as one.
#[derive(Clone, Copy, Debug, Default, Drop)]
pub(crate) struct Tally {
    held: usize,
    refused: usize,
}

impl Tally {
    /// Fails exactly if it is not so, and else counts a check.
    pub(crate) fn holds(&mut self, is_so: bool, what: &'static str) -> Result<(), Failed>
        ensures held { OnOk result (is_so ≡ true) }
        ensures failed { OnErr result ((is_so ≡ false) × (self.new ≡ self.old)) }
    {
        if !is_so {
            return Err(Failed { what });
        }
        self.held = self.held.saturating_add(1);
        Ok(())
    }

    /// Counts a command or a question that was refused.
    pub(crate) fn refuse(&mut self) {
        self.refused = self.refused.saturating_add(1);
    }

    /// How many commands and questions were refused.
    pub(crate) fn refused(&self) -> usize {
        self.refused
    }

    /// Takes in what a part counted.
    pub(crate) fn add(&mut self, part: Tally) {
        self.held = self.held.saturating_add(part.held);
        self.refused = self.refused.saturating_add(part.refused);
    }

    /// What all parts counted. It fails if nothing was refused, and yet not all checks were made.
    pub(crate) fn at_end(self) -> Result<Self, Failed>
        ensures { IfOk result (λ all. (all.refused ≡ 0) → (all.held ≡ 128)) }
    {
        if self.refused == 0 && self.held != CHECKS {
            return Err(Failed {
                what: "the number of checks",
            });
        }
        Ok(self)
    }
}
