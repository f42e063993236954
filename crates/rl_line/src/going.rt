//! How a line goes over changes of a record: step by step, or with a gap.
ghost use Rattle.std.specs.Prelude.{◌≡◌, ◌∷◌, ◌+◌, ◌^◌, ◌<◌, ◌≤◌, [], Some, ℕ, IsSome, length};
ghost use Rattle.std.specs.List.{replace_range};
ghost use Rattle.std.specs.Str.{IsCharBoundary, IsUtf8};
ghost use Rattle.rl_line.specs.Change.{entries_to_undo, entry_to_undo, greatest_back_over, length_back};
ghost use Rattle.rl_line.specs.Line.{Line, stepped};
ghost use Rattle.rl_line.specs.LineRanges.{IsRange};
ghost use Rattle.rl_line.specs.Plan.{NeverRefuses};
ghost use Rattle.rl_line.specs.Going.{line_back, listener_back};

use crate::change::{Change, Way, nth_on, tell_over};
use crate::gapped::Gapped;
use crate::roomy_line::RoomyLine;
use rl_base::ChangeListener;
use std::ops::Range;

/// A line that takes steps, as one text or with a gap.
pub(crate) trait Steppable {
    /// The line.
    ghost line: { Self → Line };

    /// For how many bytes of a text it has memory.
    ghost bytes: { Self → ℕ };

    /// The byte place of the cursor.
    fn cursor(&self) -> usize
        ensures place { result ≡ (line self.now).cursor }
        ensures utf8 { IsUtf8 (line self.now).text }
        ensures fits { length (line self.now).text < 2 ^ 63 }
        ensures within { length (line self.now).text ≤ (line self.now).limit };

    /// Replaces a range by a part, and puts the cursor at a place.
    fn step(&mut self, from: usize, to: usize, part: &str, cursor: usize)
        requires range { IsRange (line self.old).text from to }
        requires room { length (replace_range (line self.old).text from to part.now) ≤ bytes self.old }
        requires cursor { IsCharBoundary (replace_range (line self.old).text from to part.now) cursor }
        ensures line { line self.new ≡ stepped (line self.old) (replace_range (line self.old).text from to part.now) cursor }
        ensures bytes { bytes self.old ≤ bytes self.new };
}

impl Steppable for RoomyLine {
    ghost line = { λ r. r.line };

    ghost bytes = { λ r. r.bytes };

    fn cursor(&self) -> usize {
        let _text = self.text.as_str();
        self.pos
    }

    #[inline(always)]
    fn step(&mut self, from: usize, to: usize, part: &str, cursor: usize) {
        self.swap_in(from, to, part, cursor);
    }
}

impl Steppable for Gapped {
    ghost line = { λ g. g.roomy.line };

    ghost bytes = { λ g. g.roomy.bytes };

    fn cursor(&self) -> usize {
        self.pos()
    }

    #[inline(always)]
    fn step(&mut self, from: usize, to: usize, part: &str, cursor: usize) {
        self.swap_in(from, to, part, cursor);
    }
}

// Goes over a change in a line, which has room for the result.
fn go_over<T: Steppable>(line: &mut T, change: &Change, way: Way)
    requires follows { IsSome (line_back (entry_to_undo way change.now ∷ []) (T.line line.old)) }
    requires room { length_back (entry_to_undo way change.now) (length (T.line line.old).text) ≤ T.bytes line.old }
    ensures line { line_back (entry_to_undo way change.now ∷ []) (T.line line.old) ≡ Some (T.line line.new) }
    ensures bytes { T.bytes line.old ≤ T.bytes line.new }
{
    // So the proof knows that its text is UTF-8, and within the limit.
    let _here = line.cursor();
    let Some(place) = change.place() else {
        return;
    };
    let (going, coming) = change.texts(way);
    let after = change.cursor_over(way).unwrap_or(place + coming.len());
    line.step(place, place + going.len(), coming, after);
}

/// Goes over the changes one by one: going back, the last first; going ahead, the first first. The listener is told of
/// each change once it is gone over. Inlined, so that undo and redo each know their way at compile time.
#[inline(always)]
#[tactic(auto, using(crate::proofs::Changes::RoomLemmas::back_so_far))]
pub(crate) fn go_over_each<T: Steppable, L: ChangeListener>(
    line: &mut T,
    changes: &[Change],
    way: Way,
    listener: &mut L,
)
    requires follows { IsSome (line_back (entries_to_undo way changes.now) (T.line line.old)) }
    requires room { greatest_back_over (entries_to_undo way changes.now) (length (T.line line.old).text) ≤ T.bytes line.old }
    requires hears { NeverRefuses L.refused }
    ensures line { line_back (entries_to_undo way changes.now) (T.line line.old) ≡ Some (T.line line.new) }
    ensures told { listener.new ≡ listener_back L.step (T.line line.old).cursor (entries_to_undo way changes.now) listener.old }
{
    // So the proof knows that its text is UTF-8.
    let _start = line.cursor();
    let mut left = changes.len();
    while left > 0 {
        left -= 1;
        let change = nth_on(way, changes, left);
        let before = line.cursor();
        go_over(line, change, way);
        tell_over(change, way, before, line.cursor(), listener);
    }
}

/// The same with a gap of `room` bytes, by changes that lie within a range.
#[inline(never)]
pub(crate) fn go_over_with_gap<L: ChangeListener>(
    line: &mut RoomyLine,
    changes: &[Change],
    way: Way,
    range: Range<usize>,
    room: usize,
    listener: &mut L,
)
    requires follows { IsSome (line_back (entries_to_undo way changes.now) line.old.line) }
    requires room { length line.old.line.text + room ≤ line.old.bytes }
    requires enough { greatest_back_over (entries_to_undo way changes.now) (length line.old.line.text) ≤ length line.old.line.text + room }
    requires hears { NeverRefuses L.refused }
    ensures line { line_back (entries_to_undo way changes.now) line.old.line ≡ Some line.new.line }
    ensures told { listener.new ≡ listener_back L.step line.old.line.cursor (entries_to_undo way changes.now) listener.old }
{
    let mut gapped = Gapped::open(line, range, room);
    go_over_each(&mut gapped, changes, way, listener);
    gapped.close(line);
}

// For how many bytes moved a gap counts that opens and closes.
const OPENING: usize = 4096;

/// The range of a text of `len` bytes that changes lie in, if a gap of `room` bytes moves fewer bytes over them than step
/// by step move: there each change moves all that stands after it. With the gap the starts of the range's lines are found
/// anew.
#[inline(never)]
pub(crate) fn gap_range(
    changes: &[Change],
    way: Way,
    len: usize,
    room: usize,
) -> Option<Range<usize>> {
    // Two changes gain nothing, nor do few in a short text.
    if changes.len() < 3 || changes.len().saturating_mul(len.saturating_add(room)) < OPENING {
        return None;
    }
    let mut way_of_gap = GapWay::new(len, room);
    let mut left = changes.len();
    while left > 0 {
        left -= 1;
        let change = nth_on(way, changes, left);
        if let Some(at) = change.place() {
            let (going, coming) = change.texts(way);
            way_of_gap.goes(at, going.len(), coming.len());
        }
    }
    way_of_gap.range(len)
}

// What a way over changes moves or fills: so far the text is `len` bytes long, and has the gap at a place. All sums are cut
// where a number ends: they only choose between two ways to the same line.
#[derive(Drop)]
struct GapWay {
    len: usize,
    gap: usize,
    all: usize,
    front: usize,
    back: usize,
    by_gap: usize,
    by_steps: usize,
}

impl GapWay {
    fn new(len: usize, room: usize) -> Self {
        GapWay {
            len,
            gap: len,
            all: len.saturating_add(room),
            front: len,
            back: len,
            by_gap: room.saturating_add(OPENING),
            by_steps: 0,
        }
    }

    // A change is gone over.
    fn goes(&mut self, at: usize, going: usize, coming: usize) {
        let back = self.len.saturating_sub(at).saturating_sub(going);
        self.gap_goes(at);
        if going != coming {
            self.by_steps = self.by_steps.saturating_add(back);
        }
        self.gap = at.saturating_add(coming);
        self.len = self.gap.saturating_add(back);
        self.front = self.front.min(at);
        self.back = self.back.min(back);
    }

    // The gap goes to a place. An empty one moves nothing.
    fn gap_goes(&mut self, at: usize) {
        if self.len < self.all {
            self.by_gap = self.by_gap.saturating_add(self.gap.abs_diff(at));
        }
    }

    // The range, if it is worth it, with the way of the gap to the end, and a search for newlines.
    fn range(&mut self, len: usize) -> Option<Range<usize>> {
        self.gap_goes(self.len);
        let lines = self
            .len
            .saturating_sub(self.front)
            .saturating_sub(self.back);
        if self.by_gap.saturating_add(lines) < self.by_steps {
            return Some(self.front..len.saturating_sub(self.back));
        }
        None
    }
}
