//! What may be chosen of a session, and what the next text of a script begins with.
ghost use Rattle.std.specs.Prelude.{◌≡◌};
ghost use Rattle.rl_session.specs.Settings.{as_new, usual, with_setting};

use crate::options::Options;
use rl_base::{GraphemeClusterMode, NewKill};
use rl_line::MAX_LINE;

/// One setting of a script.
#[derive(Clone, Copy)]
pub(crate) enum Setting {
    Limit(usize),
    RingSize(usize),
    Mode(GraphemeClusterMode),
}

/// All that may be chosen of a session.
#[derive(Clone, Copy, Debug, PartialEq, Eq)]
pub struct Settings {
    /// The limit on the text's length, in bytes; `usize::MAX` is none.
    pub limit: usize,
    /// How many texts the kill ring keeps at most.
    pub ring_size: usize,
    /// Where a new kill puts its text in the ring.
    pub new_kill: NewKill,
    /// How columns are measured, how much is kept, and whether edits keep what was undone.
    pub options: Options,
}

// How many texts the ring of a session holds.
const RING_SIZE: usize = 60;

impl Settings {
    /// A limit, a size of the ring, and how columns are counted; else what `Options::new` and `KillRing::new` choose.
    pub fn new(limit: usize, ring_size: usize, mode: GraphemeClusterMode) -> Self
        ensures { result ≡ as_new limit ring_size mode }
    {
        Settings {
            limit,
            ring_size,
            new_kill: NewKill::AfterCurrent,
            options: Options::new(mode),
        }
    }

    // The settings of a script that sets none.
    pub(crate) fn usual() -> Self
        ensures { result ≡ usual }
    {
        Settings::new(MAX_LINE, RING_SIZE, GraphemeClusterMode::Unicode)
    }

    // Makes one setting, and leaves the others.
    pub(crate) fn set(&mut self, setting: Setting)
        ensures { self.new ≡ with_setting setting self.old }
    {
        match setting {
            Setting::Limit(limit) => self.limit = limit,
            Setting::RingSize(size) => self.ring_size = size,
            Setting::Mode(mode) => self.options.mode = mode,
        }
    }
}
