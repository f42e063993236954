//! The calls that need no session.
ghost use Rattle.std.specs.Prelude.{◌≡◌, ◌≤◌, length, IfOk, IfErr};
ghost use Rattle.std.specs.Str.{IsUtf8};
ghost use Rattle.rl_base.specs.Clusters.{clusters};
ghost use Rattle.rl_base.specs.Screen.{filled};
ghost use Rattle.rl_ffi.specs.Answers.{merged};
ghost use Rattle.rl_ffi.specs.Calls.{Answers, Fills};
ghost use Rattle.rl_ffi.specs.Texts.{Prints, TellsClusters, TellsFirst, TellsLast, TellsMoved, TellsWidth, measured, version};
ghost use Rattle.rl_ffi.specs.declared.answers.Answer.TheVariants.{NotUtf8};

use crate::answers::{Answer, Outcome, merged};
use crate::buffers::hand_out;
use crate::numbers::{mode_of, side_of};
use crate::shapes::{CCluster, CSplice};
use rl_base::{GraphemeClusterMode, Splice};
use rl_session::run_script;
use std::alloc::Global;
use unicode_segmentation::UnicodeSegmentation;

// The bytes of C as a text.
pub(crate) fn text_of(bytes: &[u8]) -> Result<&str, Answer>
    ensures ok { IfOk result (λ text. IsUtf8 bytes.now × (text.now ≡ bytes.now)) }
    ensures err { IfErr result (λ answer. (¬ (IsUtf8 bytes.now)) × (answer ≡ NotUtf8)) }
{
    match simdutf8::basic::from_utf8(bytes) {
        Ok(text) => Ok(text),
        Err(_) => Err(Answer::NotUtf8),
    }
}

// Runs a script, and writes what it prints.
fn print(alloc: Global, script: &[u8], out: &mut [u8], printed: &mut usize) -> Answer
    ensures { Prints script.now result (out.old, printed.old) (out.new, printed.new) }
{
    let mut reader = script;
    let mut whole = Vec::new(alloc);
    // A read from a slice never fails, and a write to a vector fails only if there is no memory.
    let Ok(()) = run_script(alloc, &mut reader, &mut whole) else {
        return Answer::NoMemory;
    };
    hand_out(whole.as_slice(), out, printed)
}

pub fn lodvarn_script(alloc: Global, script: &[u8], out: &mut [u8], printed: &mut usize) -> i32
    ensures { Answers (Prints script.now) result (out.old, printed.old) (out.new, printed.new) }
{
    print(alloc, script, out, printed).number()
}

fn measure(mode: u32, text: &[u8], columns: &mut usize) -> Outcome
    ensures { TellsWidth mode text.now (merged result) columns.old columns.new }
{
    let mode = mode_of(mode)?;
    let text = text_of(text)?;
    *columns = usize::from(mode.width(text));
    Ok(Answer::Done)
}

pub fn lodvarn_width(mode: u32, text: &[u8], columns: &mut usize) -> i32
    ensures { Answers (TellsWidth mode text.now) result columns.old columns.new }
{
    merged(measure(mode, text, columns)).number()
}

fn first(text: &[u8], bytes: &mut usize) -> Outcome
    ensures { TellsFirst text.now (merged result) bytes.old bytes.new }
{
    match text_of(text)?.graphemes(true).next() {
        Some(cluster) => {
            *bytes = cluster.len();
            Ok(Answer::Done)
        }
        None => Ok(Answer::Nothing),
    }
}

pub fn lodvarn_first_cluster(text: &[u8], bytes: &mut usize) -> i32
    ensures { Answers (TellsFirst text.now) result bytes.old bytes.new }
{
    merged(first(text, bytes)).number()
}

fn last(text: &[u8], bytes: &mut usize) -> Outcome
    ensures { TellsLast text.now (merged result) bytes.old bytes.new }
{
    match text_of(text)?.graphemes(true).next_back() {
        Some(cluster) => {
            *bytes = cluster.len();
            Ok(Answer::Done)
        }
        None => Ok(Answer::Nothing),
    }
}

pub fn lodvarn_last_cluster(text: &[u8], bytes: &mut usize) -> i32
    ensures { Answers (TellsLast text.now) result bytes.old bytes.new }
{
    merged(last(text, bytes)).number()
}

// Cuts a text into its clusters, of which as many as fit go to `out`. Answers how many there are.
fn cut(mode: GraphemeClusterMode, text: &str, out: &mut [CCluster]) -> usize
    ensures written { out.new ≡ filled (measured mode 0 (clusters text.now)) out.old }
    ensures count { result ≡ length (measured mode 0 (clusters text.now)) }
    ensures few { result ≤ length text.now }
{
    let mut count: usize = 0;
    let mut from: usize = 0;
    for cluster in text.graphemes(true) {
        let to = from + cluster.len();
        if count < out.len() {
            let columns = usize::from(mode.width(cluster));
            out[count] = CCluster { from, to, columns };
        }
        count += 1;
        from = to;
    }
    count
}

// Writes the clusters to `out`, of which a text has no more than bytes, unless there are too many.
#[tactic(auto, using(crate::proofs::BufferLemmas::filled_fits))]
fn fill(mode: GraphemeClusterMode, text: &str, out: &mut [CCluster], count: &mut usize) -> Answer
    ensures { Fills (measured mode 0 (clusters text.now)) result (out.old, count.old) (out.new, count.new) }
{
    if out.len() >= text.len() {
        *count = cut(mode, text, out);
        return Answer::Done;
    }
    *count = cut(mode, text, &mut []);
    if *count > out.len() {
        return Answer::TooSmall;
    }
    cut(mode, text, out);
    Answer::Done
}

fn find_clusters(mode: u32, text: &[u8], out: &mut [CCluster], count: &mut usize) -> Outcome
    ensures { TellsClusters mode text.now (merged result) (out.old, count.old) (out.new, count.new) }
{
    let mode = mode_of(mode)?;
    let text = text_of(text)?;
    Ok(fill(mode, text, out, count))
}

pub fn lodvarn_clusters(mode: u32, text: &[u8], out: &mut [CCluster], count: &mut usize) -> i32
    ensures { Answers (TellsClusters mode text.now) result (out.old, count.old) (out.new, count.new) }
{
    merged(find_clusters(mode, text, out, count)).number()
}

fn find_moved(change: &CSplice, place: usize, side: u32, moved: &mut usize) -> Outcome
    ensures { TellsMoved change.now place side (merged result) moved.old moved.new }
{
    let side = side_of(side)?;
    let splice = Splice {
        from: change.from,
        old_end: change.old_to,
        new_end: change.new_to,
    };
    let after = place.saturating_sub(splice.old_end);
    if splice.old_end < splice.from
        || splice.new_end < splice.from
        || usize::MAX - after < splice.new_end
    {
        return Err(Answer::BadOffset);
    }
    *moved = splice.moved(place, side);
    Ok(Answer::Done)
}

pub fn lodvarn_map_offset(change: &CSplice, place: usize, side: u32, moved: &mut usize) -> i32
    ensures { Answers (TellsMoved change.now place side) result moved.old moved.new }
{
    merged(find_moved(change, place, side, moved)).number()
}

pub fn lodvarn_version() -> u32
    ensures { result ≡ version }
{
    let (major, minor, patch) = (0, 1, 0);
    (major << 16) + (minor << 8) + patch
}
