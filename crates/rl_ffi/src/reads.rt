//! The calls that change nothing of a session.
ghost use Rattle.std.specs.Prelude.{◌≡◌, Some, drop, false, is_some, length, min};
ghost use Rattle.std.specs.Option.{option_map};
ghost use Rattle.std.specs.Str.{IsCharBoundary};
ghost use Rattle.rl_base.specs.Clusters.{clusters};
ghost use Rattle.rl_base.specs.KillRing.{text_back, yank_size};
ghost use Rattle.rl_base.specs.Lines.{lines};
ghost use Rattle.rl_base.specs.Screen.{filled};
ghost use Rattle.rl_line.specs.LineRanges.{range_of_line};
ghost use Rattle.rl_record.specs.Record.{is_saved};
ghost use Rattle.rl_line.specs.Entry.{has_change};
ghost use Rattle.rl_record.specs.Units.{last_of, level, redo_of};
ghost use Rattle.rl_session.specs.State.{State};
ghost use Rattle.rl_ffi.specs.Calls.{Finds, Tells, Writes};
ghost use Rattle.rl_ffi.specs.Reach.{Leads};
ghost use Rattle.rl_ffi.specs.Reads.{CopiesText, FillsClusters, Lends, TellsCluster, TellsClusterBefore, TellsClustersFrom, TellsCovers, TellsFound, TellsLineAt, TellsSlice, TellsTarget, begin_of, cursor_position, range_shape};
ghost use Rattle.rl_ffi.specs.Texts.{measured};

use crate::answers::Answer;
use crate::buffers::put;
use crate::handle::{Handle, of};
use crate::numbers::{direction_of, mode_of, number_of_given};
use crate::reach::{Reach, covers, reach_of};
use crate::shapes::{CCluster, CMovement, CPosition, CRange};
use crate::texts::text_of;
use crate::view::View;
use rl_base::GraphemeClusterMode;
use rl_session::Session;
use std::ops::Range;
use unicode_segmentation::UnicodeSegmentation;

// Lends a text.
fn lend(text: &str, view: &mut View) -> Answer
    ensures { Lends (Some text.now) result view.old view.new }
{
    *view = View::of(text.as_bytes());
    Answer::Done
}

pub fn lodvarn_text(s: &mut Handle, view: &mut View) -> i32
    ensures { Tells (λ s. Lends (Some s.line.text)) s.old result s.new view.old view.new }
{
    of!(s, session => lend(session.line().as_str(), view))
}

pub fn lodvarn_slice(s: &mut Handle, range: CRange, out: &mut View) -> i32
    ensures { Tells (TellsSlice range) s.old result s.new out.old out.new }
{
    of!(s, session => {
        let line = session.line();
        if line.is_range(range.from, range.to) {
            lend(&line.as_str()[range.from..range.to], out)
        } else {
            Answer::BadOffset
        }
    })
}

// Writes the text to a buffer, and a NUL after it.
#[tactic(auto, using(crate::proofs::BufferLemmas::put_ended))]
fn copy_text(text: &[u8], out: &mut [u8], len: &mut usize) -> Answer
    ensures { CopiesText text.now result (out.old, len.old) (out.new, len.new) }
{
    *len = text.len();
    if text.len() >= out.len() {
        return Answer::TooSmall;
    }
    put(text, out);
    out[text.len()] = 0;
    Answer::Done
}

pub fn lodvarn_text_copy(s: &mut Handle, out: &mut [u8], len: &mut usize) -> i32
    ensures { Tells (λ (s : State). CopiesText s.line.text) s.old result s.new (out.old, len.old) (out.new, len.new) }
{
    of!(s, session => copy_text(session.line().as_str().as_bytes(), out, len))
}

pub fn lodvarn_find(
    s: &mut Handle,
    from: usize,
    text: &[u8],
    direction: u32,
    range: &mut CRange,
) -> i32
    ensures { Tells (TellsFound from text.now direction) s.old result s.new range.old range.new }
{
    of!(s, session, t = text_of(text), side = direction_of(direction) => match session.find(from, t, side) {
        Ok(found) => write_range(found, range),
        Err(_) => Answer::BadOffset,
    })
}

pub fn lodvarn_pos(s: &mut Handle) -> usize
    ensures { Finds (λ (s : State). s.line.cursor) 0 s.old result s.new }
{
    of!(s, session => session.line().pos(), 0)
}

pub fn lodvarn_line_count(s: &mut Handle) -> usize
    ensures { Finds (λ (s : State). length (lines s.line.text)) 0 s.old result s.new }
{
    of!(s, session => {
        session.index_lines();
        session.line().line_count()
    }, 0)
}

pub fn lodvarn_record_entries(s: &mut Handle) -> usize
    ensures { Finds (λ (s : State). length s.pair.changes.recorded) 0 s.old result s.new }
{
    of!(s, session => session.record().len(), 0)
}

pub fn lodvarn_group_level(s: &mut Handle) -> usize
    ensures { Finds (λ (s : State). level s.pair.changes.recorded) 0 s.old result s.new }
{
    of!(s, session => session.level(), 0)
}

pub fn lodvarn_ring_count(s: &mut Handle) -> usize
    ensures { Finds (λ (s : State). length s.pair.ring.slots) 0 s.old result s.new }
{
    of!(s, session => session.ring().len(), 0)
}

pub fn lodvarn_can_undo(s: &mut Handle) -> bool
    ensures { Finds (λ (s : State). has_change (last_of 1 s.pair.changes.recorded)) false s.old result s.new }
{
    of!(s, session => session.can_undo(), false)
}

pub fn lodvarn_is_saved(s: &mut Handle) -> bool
    ensures { Finds (λ (s : State). is_saved s.pair.changes) false s.old result s.new }
{
    of!(s, session => session.is_saved(), false)
}

pub fn lodvarn_can_redo(s: &mut Handle) -> bool
    ensures { Finds (λ (s : State). has_change (redo_of s.pair.changes.pending)) false s.old result s.new }
{
    of!(s, session => session.can_redo(), false)
}

pub fn lodvarn_last_was_yank(s: &mut Handle) -> bool
    ensures { Finds (λ (s : State). is_some (yank_size s.pair.ring)) false s.old result s.new }
{
    of!(s, session => session.ring().yank_size().is_some(), false)
}

pub fn lodvarn_ring_text(s: &mut Handle, back: usize, view: &mut View) -> i32
    ensures { Tells (λ s. Lends (text_back back s.pair.ring)) s.old result s.new view.old view.new }
{
    of!(s, session => match session.ring().text_back(back) {
        Some(text) => lend(text, view),
        None => Answer::Nothing,
    })
}

// Writes a value, if there is one.
fn write_range(from: Option<Range<usize>>, range: &mut CRange) -> Answer
    ensures { Writes (option_map range_shape from) result range.old range.new }
{
    match from {
        Some(found) => {
            *range = CRange {
                from: found.start,
                to: found.end,
            };
            Answer::Done
        }
        None => Answer::Nothing,
    }
}

pub fn lodvarn_line_range(s: &mut Handle, line: usize, range: &mut CRange) -> i32
    ensures { Tells (λ s. Writes (option_map range_shape (range_of_line s.line.text line))) s.old result s.new range.old range.new }
{
    of!(s, session => {
        session.index_lines();
        write_range(session.line().line_range(line), range)
    })
}

pub fn lodvarn_cursor_position(s: &mut Handle, at: &mut CPosition) -> i32
    ensures { Tells (λ s. Writes (Some (cursor_position s))) s.old result s.new at.old at.new }
{
    of!(s, session => {
        session.index_lines();
        let (line, column) = session.line_column();
        *at = CPosition {
            line,
            column: usize::from(column),
        };
        Answer::Done
    })
}

pub fn lodvarn_movement_range(
    s: &mut Handle,
    from: usize,
    movement: CMovement,
    range: &mut CRange,
) -> i32
    ensures { Tells (TellsCovers from movement.entry) s.old result s.new range.old range.new }
{
    of!(s, session => match covers(session, from, movement) {
        Ok(found) => write_range(found, range),
        Err(why) => why,
    })
}

// Writes a place, if there is one.
fn write_place(found: Option<usize>, place: &mut usize) -> Answer
    ensures { Writes found result place.old place.new }
{
    match found {
        Some(found) => {
            *place = found;
            Answer::Done
        }
        None => Answer::Nothing,
    }
}

// Where a movement leads from an offset.
#[tactic(auto, unfolding(crate::specs::Reach::Leads))]
fn leads(session: &mut Session, from: usize, movement: CMovement) -> Result<Option<usize>, Answer>
    ensures asked { Leads from movement.entry session.old result }
    ensures kept { session.new ≡ session.old }
{
    match reach_of(session, from, movement)? {
        Reach::By(m) => match session.destination_from(from, &m) {
            Ok(found) => Ok(found),
            Err(_) => Err(Answer::BadOffset),
        },
        Reach::To(found) => Ok(found),
    }
}

pub fn lodvarn_movement_target(
    s: &mut Handle,
    from: usize,
    movement: CMovement,
    to: &mut usize,
) -> i32
    ensures { Tells (TellsTarget from movement.entry) s.old result s.new to.old to.new }
{
    of!(s, session => match leads(session, from, movement) {
        Ok(found) => write_place(found, to),
        Err(why) => why,
    })
}

#[tactic(auto, unfolding(crate::specs::Reads::TellsLineAt))]
fn line_at(session: &Session, place: usize, number: &mut usize) -> Answer
    ensures { TellsLineAt place session.now result number.old number.new }
{
    let line = session.line();
    if !line.as_str().is_char_boundary(place) {
        return Answer::BadOffset;
    }
    write_place(Some(line.line_at(place)), number)
}

pub fn lodvarn_line_at(s: &mut Handle, place: usize, line: &mut usize) -> i32
    ensures { Tells (TellsLineAt place) s.old result s.new line.old line.new }
{
    of!(s, session => {
        session.index_lines();
        line_at(session, place, line)
    })
}

// Writes where the first cluster of the text after a place begins and ends, and how many columns it takes, if there is
// one.
#[tactic(auto, unfolding(crate::specs::Reads::TellsCluster))]
fn measure(text: &str, mode: GraphemeClusterMode, place: usize, found: &mut CCluster) -> Answer
    ensures { TellsCluster text.now mode place result found.old found.new }
{
    if !text.is_char_boundary(place) {
        return Answer::BadOffset;
    }
    match text[place..].graphemes(true).next() {
        Some(cluster) => {
            *found = CCluster {
                from: place,
                to: place + cluster.len(),
                columns: usize::from(mode.width(cluster)),
            };
            Answer::Done
        }
        None => Answer::Nothing,
    }
}

pub fn lodvarn_cluster_at(s: &mut Handle, place: usize, cluster: &mut CCluster) -> i32
    ensures { Tells (λ (s : State). TellsCluster s.line.text s.options.mode place) s.old result s.new cluster.old cluster.new }
{
    of!(s, session => measure(session.line().as_str(), session.options().mode, place, cluster))
}

// The same of the last cluster of the text before a place.
#[tactic(auto, unfolding(crate::specs::Reads::TellsClusterBefore))]
fn measure_before(text: &str, mode: GraphemeClusterMode, at: usize, found: &mut CCluster) -> Answer
    ensures { TellsClusterBefore text.now mode at result found.old found.new }
{
    if !text.is_char_boundary(at) {
        return Answer::BadOffset;
    }
    match text[..at].graphemes(true).next_back() {
        Some(cluster) => {
            *found = CCluster {
                from: at - cluster.len(),
                to: at,
                columns: usize::from(mode.width(cluster)),
            };
            Answer::Done
        }
        None => Answer::Nothing,
    }
}

pub fn lodvarn_cluster_before(s: &mut Handle, place: usize, cluster: &mut CCluster) -> i32
    ensures { Tells (λ (s : State). TellsClusterBefore s.line.text s.options.mode place) s.old result s.new cluster.old cluster.new }
{
    of!(s, session => measure_before(session.line().as_str(), session.options().mode, place, cluster))
}

// Cuts a text into its clusters from a place on, of which as many as fit go to `out`. Answers how many these are, and
// where the next one begins, if one follows.
fn cut_from(
    mode: GraphemeClusterMode,
    text: &str,
    from: usize,
    out: &mut [CCluster],
) -> (usize, Option<usize>)
    requires { IsCharBoundary text.now from }
    ensures written { out.new ≡ filled (measured mode from (clusters (drop from text.now))) out.old }
    ensures count { result.0 ≡ min (length out.old) (length (measured mode from (clusters (drop from text.now)))) }
    ensures next { result.1 ≡ begin_of (measured mode from (clusters (drop from text.now))) (length out.old) }
{
    let mut count: usize = 0;
    let mut from = from;
    for cluster in text[from..].graphemes(true) {
        if count == out.len() {
            return (count, Some(from));
        }
        let to = from + cluster.len();
        let columns = usize::from(mode.width(cluster));
        out[count] = CCluster { from, to, columns };
        count += 1;
        from = to;
    }
    (count, None)
}

#[tactic(auto, unfolding(crate::specs::Reads::FillsClusters))]
fn write_clusters(
    mode: GraphemeClusterMode,
    text: &str,
    from: usize,
    out: &mut [CCluster],
    count: &mut usize,
    next: &mut usize,
) -> Answer
    ensures { FillsClusters mode text.now from result (out.old, (count.old, next.old)) (out.new, (count.new, next.new)) }
{
    if !text.is_char_boundary(from) {
        return Answer::BadOffset;
    }
    let (written, after) = cut_from(mode, text, from, out);
    *count = written;
    *next = number_of_given(after);
    Answer::Done
}

pub fn lodvarn_clusters_from(
    s: &mut Handle,
    mode: u32,
    from: usize,
    out: &mut [CCluster],
    count: &mut usize,
    next: &mut usize,
) -> i32
    ensures { Tells (TellsClustersFrom mode from) s.old result s.new (out.old, (count.old, next.old)) (out.new, (count.new, next.new)) }
{
    of!(s, session, by = mode_of(mode) => write_clusters(by, session.line().as_str(), from, out, count, next))
}
