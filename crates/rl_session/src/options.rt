//! How a session measures columns, how much its record and its ring may hold, and whether edits keep what was undone.
ghost use Rattle.std.specs.Prelude.{◌≡◌};
ghost use Rattle.rl_session.specs.Options.{layout_of, no_bound, plain};

use rl_base::{GraphemeClusterMode, Layout, Unit};

/// How much a session's record and its ring may hold. `usize::MAX` is no bound.
#[derive(Clone, Copy, Debug, PartialEq, Eq)]
pub struct Bound {
    /// How many entries.
    pub entries: usize,
    /// How many bytes of text, of all entries together.
    pub bytes: usize,
    /// How many bytes, of all texts of the ring together.
    pub ring_bytes: usize,
}

impl Bound {
    /// No bound on any.
    pub fn none() -> Self
        ensures { result ≡ no_bound }
    {
        Bound {
            entries: usize::MAX,
            bytes: usize::MAX,
            ring_bytes: usize::MAX,
        }
    }
}

/// What may be chosen of a session, beside its limit and its ring.
#[derive(Clone, Copy, Debug, PartialEq, Eq)]
pub struct Options {
    /// How columns are counted.
    pub mode: GraphemeClusterMode,
    /// The column at which the prompt ends: the first line of the text begins there, and every other line at 0.
    pub prompt: Unit,
    /// How much the record and the ring may hold.
    pub bound: Bound,
    /// Whether what was undone is kept before an edit (`Session::keep_undone`), which would drop it.
    pub keeps: bool,
}

impl Options {
    /// The options of a new session: a prompt that ends at column 0, no bound, and an edit drops what was undone.
    pub fn new(mode: GraphemeClusterMode) -> Self
        ensures { result ≡ plain mode }
    {
        Options {
            mode,
            prompt: 0,
            bound: Bound::none(),
            keeps: false,
        }
    }

    // The layout by which motions over lines go.
    pub(crate) fn layout(&self) -> Layout
        ensures { result ≡ layout_of self.now }
    {
        let mut layout = Layout::new(self.mode);
        layout.prompt_size.col = self.prompt;
        layout
    }
}
