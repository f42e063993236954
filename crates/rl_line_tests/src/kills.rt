//! Copies, deletions and kills with answers that were worked out by hand.
use crate::line_buffer::{holds, leaves, line_of};
use crate::steps::{AHEAD, BACK};
use crate::told::is_told;
use rl_base::CharSearch::{Backward, BackwardAfter, Forward, ForwardBefore};
use rl_base::testing::{RefuseAt, TextEvent};
use rl_base::{At, CharSearch, Direction, Movement, Refusal, RepeatCount, Word};
use rl_line::LineBuffer;
use std::alloc::{AllocError, Global};
use std::process::Abort;
use std::test::Fail;

// A call that deletes, as a value of a table.
#[derive(Drop)]
enum Call {
    Backspace(RepeatCount),
    KillLine,
    KillBuffer,
    DiscardLine,
    DiscardBuffer,
    PrevWord(Word, RepeatCount),
    NextWord(At, Word, RepeatCount),
    To(CharSearch, RepeatCount),
    Kill(Movement),
    KillRange(usize, usize, Direction),
}

// Kills the range, where it is one.
fn kill_range(
    line: &mut LineBuffer,
    from: usize,
    to: usize,
    dir: Direction,
    heard: &mut RefuseAt,
) -> Result<bool, Refusal> {
    if line.is_range(from, to) {
        return line.kill_range(from..to, dir, heard);
    }
    Ok(false)
}

fn make(line: &mut LineBuffer, call: &Call, heard: &mut RefuseAt) -> Result<bool, Refusal> {
    match call {
        Call::Backspace(n) => line.backspace(*n, heard),
        Call::KillLine => line.kill_line(heard),
        Call::KillBuffer => line.kill_buffer(heard),
        Call::DiscardLine => line.discard_line(heard),
        Call::DiscardBuffer => line.discard_buffer(heard),
        Call::PrevWord(word, n) => line.delete_prev_word(*word, *n, heard),
        Call::NextWord(at, word, n) => line.delete_word(*at, *word, *n, heard),
        Call::To(cs, n) => line.delete_to(*cs, *n, heard),
        Call::Kill(mvt) => line.kill(mvt, heard),
        Call::KillRange(from, to, dir) => kill_range(line, *from, *to, *dir, heard),
    }
}

// Its listener hears that a kill starts and stops.
fn is_told_as_a_kill(call: &Call) -> bool {
    match call {
        Call::Kill(Movement::BackwardChar(_) | Movement::ForwardChar(_)) => false,
        Call::Kill(_) | Call::KillRange(_, _, _) => true,
        _ => false,
    }
}

// The place, the text and the side of what a call deletes, if anything.
type Gone = Option<(usize, &'static str, Direction)>;

// What a call answers: whether it deleted something, or why it did not.
type Answer = Result<bool, Refusal>;

// On that text, with no other change allowed than that deletion, if any, the call answers that, and its listener hears of no
// other.
fn answers(
    rt: &impl Abort,
    alloc: Global,
    text: &str,
    pos: usize,
    call: &Call,
    wanted: Answer,
    gone: Gone,
) -> Result<(), Fail> {
    let mut line = line_of(rt, alloc, text, pos)?;
    let mut heard = RefuseAt::new(alloc, usize::from(gone.is_some()));
    let answer = make(&mut line, call, &mut heard);
    holds(rt, answer == wanted, "the answer", text, pos);
    let told = u16::from(is_told_as_a_kill(call));
    let kill = heard.starts == told && heard.stops == told;
    holds(rt, kill, "the start or stop", text, pos);
    is_gone(rt, &line, &heard, text, pos, gone);
    Ok(())
}

// The listener heard of that deletion in the text, if any, and of no other, the line is shorter by it, and the cursor is
// where it was.
fn is_gone(
    rt: &impl Abort,
    line: &LineBuffer,
    heard: &RefuseAt,
    text: &str,
    pos: usize,
    gone: Gone,
) {
    let all = heard.left == 0 && heard.seen.len() == usize::from(gone.is_some());
    holds(rt, all, "the changes", text, pos);
    let Some((place, deleted, side)) = gone else {
        leaves(rt, line, text, pos, text, pos);
        return;
    };
    let told = is_told(heard, (place, deleted, Some(side)));
    holds(rt, told, "the deletion", text, pos);
    let left = text.len().saturating_sub(deleted.len());
    holds(rt, line.pos() == place, "the cursor", text, pos);
    holds(rt, line.len() == left, "the length", text, pos);
}

// A text, the cursor, a call, and what it deletes, if anything.
type Row = (&'static str, usize, Call, Gone);

const WORDS: &str = "a ß  c";

const GREEK: &str = "αßγδε";

const ROWS: &[Row] = &[
    (
        "αß\nγδ 12\nε f4",
        7,
        Call::KillLine,
        Some((7, "δ 12", AHEAD)),
    ),
    ("αß\nγ\nε f4", 7, Call::KillLine, Some((7, "\n", AHEAD))),
    ("αß\nγε f4", 7, Call::KillLine, Some((7, "ε f4", AHEAD))),
    ("αß\nγ", 7, Call::KillLine, None),
    ("αß\nc γδε", 9, Call::DiscardLine, Some((5, "c γ", BACK))),
    ("αß\nδε", 5, Call::DiscardLine, Some((4, "\n", BACK))),
    ("αßδε", 4, Call::DiscardLine, Some((0, "αß", BACK))),
    ("δε", 0, Call::DiscardLine, None),
    ("a\r\nb", 3, Call::DiscardLine, Some((1, "\r\n", BACK))),
    ("a\n\nb", 3, Call::DiscardLine, Some((2, "\n", BACK))),
    ("αßγδε", 6, Call::KillLine, Some((6, "δε", AHEAD))),
    ("αßγ", 4, Call::DiscardLine, Some((0, "αß", BACK))),
    ("αß", 2, Call::Backspace(1), Some((0, "α", BACK))),
    ("aß", 3, Call::Backspace(9), Some((0, "aß", BACK))),
    ("αß", 0, Call::Backspace(1), None),
    ("a\nß\nc", 2, Call::KillBuffer, Some((2, "ß\nc", AHEAD))),
    ("a\n", 2, Call::KillBuffer, None),
    ("a\nb", 2, Call::DiscardBuffer, Some((0, "a\n", BACK))),
    ("b", 0, Call::DiscardBuffer, None),
    (
        WORDS,
        6,
        Call::PrevWord(Word::Big, 1),
        Some((2, "ß  ", BACK)),
    ),
    (
        WORDS,
        6,
        Call::PrevWord(Word::Big, 2),
        Some((0, "a ß  ", BACK)),
    ),
    (WORDS, 0, Call::PrevWord(Word::Big, 1), None),
    (
        WORDS,
        1,
        Call::NextWord(At::AfterEnd, Word::Emacs, 1),
        Some((1, " ß", AHEAD)),
    ),
    (
        WORDS,
        2,
        Call::NextWord(At::Start, Word::Emacs, 1),
        Some((2, "ß  ", AHEAD)),
    ),
    (WORDS, 7, Call::NextWord(At::Start, Word::Emacs, 1), None),
    (
        GREEK,
        2,
        Call::To(ForwardBefore('ε'), 1),
        Some((2, "ßγδ", AHEAD)),
    ),
    (
        GREEK,
        2,
        Call::To(Forward('ε'), 1),
        Some((2, "ßγδε", AHEAD)),
    ),
    (
        GREEK,
        8,
        Call::To(BackwardAfter('α'), 1),
        Some((2, "ßγδ", BACK)),
    ),
    (GREEK, 8, Call::To(Backward('ß'), 1), Some((2, "ßγδ", BACK))),
    (GREEK, 8, Call::To(Backward('x'), 1), None),
    (
        "ab",
        1,
        Call::To(BackwardAfter('a'), 1),
        Some((1, "", BACK)),
    ),
    (
        "ab",
        2,
        Call::Kill(Movement::ViCharSearch(1, BackwardAfter('b'))),
        Some((2, "", BACK)),
    ),
    (
        "ab\ncd",
        4,
        Call::Kill(Movement::WholeLine),
        Some((3, "cd", AHEAD)),
    ),
    ("ab\n", 3, Call::Kill(Movement::WholeLine), None),
    (
        "ab",
        0,
        Call::Kill(Movement::EndOfLine),
        Some((0, "ab", AHEAD)),
    ),
    (
        "ab\n\ncd",
        3,
        Call::Kill(Movement::WholeLine),
        Some((3, "\n", AHEAD)),
    ),
    ("ab", 1, Call::Kill(Movement::ViFirstPrint), None),
    (
        "a\n \tb c\nd",
        7,
        Call::Kill(Movement::FirstNonBlank),
        Some((4, "b c", BACK)),
    ),
    (
        "a\n \tb c\nd",
        3,
        Call::Kill(Movement::FirstNonBlank),
        Some((3, "\t", AHEAD)),
    ),
    ("a\n \tb c\nd", 4, Call::Kill(Movement::FirstNonBlank), None),
    // of a line of blanks to its end
    (
        " \u{3000}\na",
        0,
        Call::Kill(Movement::FirstNonBlank),
        Some((0, " \u{3000}", AHEAD)),
    ),
    (" \u{3000}\na", 4, Call::Kill(Movement::FirstNonBlank), None),
    (
        "a\nb\nc",
        2,
        Call::Kill(Movement::LineDown(0)),
        Some((1, "\nb\n", AHEAD)),
    ),
    (
        "a\nb\nc",
        2,
        Call::Kill(Movement::LineUp(1)),
        Some((0, "a\nb\n", AHEAD)),
    ),
    ("c", 0, Call::Kill(Movement::LineUp(1)), None),
    (GREEK, 2, Call::KillRange(4, 8, BACK), Some((4, "γδ", BACK))),
    (
        "ab\ncd",
        5,
        Call::KillRange(1, 4, AHEAD),
        Some((1, "b\nc", AHEAD)),
    ),
    ("ab", 0, Call::KillRange(1, 1, AHEAD), None),
    (
        "a\nbc\nd",
        3,
        Call::Kill(Movement::WholeLinesDown(1)),
        Some((2, "bc\n", AHEAD)),
    ),
    // the last line has no newline, and that above it stays
    (
        "a\nbc\nd",
        3,
        Call::Kill(Movement::WholeLinesDown(9)),
        Some((2, "bc\nd", AHEAD)),
    ),
    (
        "a\nbc\nd",
        6,
        Call::Kill(Movement::WholeLinesUp(2)),
        Some((2, "bc\nd", AHEAD)),
    ),
    (
        "a\nbc\nd",
        4,
        Call::Kill(Movement::WholeLinesUp(0)),
        Some((2, "bc\n", AHEAD)),
    ),
    ("a\n", 2, Call::Kill(Movement::WholeLinesDown(2)), None),
    (
        "a\n",
        2,
        Call::Kill(Movement::WholeLinesUp(2)),
        Some((0, "a\n", AHEAD)),
    ),
    // a last, empty line is killed as an empty text
    (
        "\n",
        1,
        Call::Kill(Movement::LineUp(0)),
        Some((1, "", AHEAD)),
    ),
];

// Where its listener refuses the first change, a call that makes one leaves the line as it was.
#[test]
fn calls_delete(rt: HostRuntime) -> Result<(), Fail> {
    for (text, pos, call, gone) in ROWS {
        let (gone, pos) = (*gone, *pos);
        answers(&rt, rt.alloc(), text, pos, call, Ok(gone.is_some()), gone)?;
        let refused = if gone.is_some() {
            Err(Refusal::Listener)
        } else {
            Ok(false)
        };
        answers(&rt, rt.alloc(), text, pos, call, refused, None)?;
    }
    Ok(())
}

// It is so, of a movement on that text at that place.
fn is_so(rt: &impl Abort, is_so: bool, mvt: &Movement, text: &str, pos: usize) {
    assert!(rt; is_so, "{mvt:?} of {text:?} at {pos}");
}

const MOVEMENTS: &[Movement] = &[
    Movement::WholeLine,
    Movement::BeginningOfLine,
    Movement::EndOfLine,
    Movement::BackwardWord(1, Word::Big),
    Movement::BackwardWord(1, Word::Emacs),
    Movement::BackwardWord(1, Word::Vi),
    Movement::ForwardWord(1, At::Start, Word::Big),
    Movement::ForwardWord(1, At::Start, Word::Emacs),
    Movement::ForwardWord(1, At::Start, Word::Vi),
    Movement::ForwardWord(1, At::BeforeEnd, Word::Big),
    Movement::ForwardWord(1, At::BeforeEnd, Word::Emacs),
    Movement::ForwardWord(1, At::BeforeEnd, Word::Vi),
    Movement::ForwardWord(1, At::AfterEnd, Word::Big),
    Movement::ForwardWord(1, At::AfterEnd, Word::Emacs),
    Movement::ForwardWord(1, At::AfterEnd, Word::Vi),
    Movement::ViCharSearch(1, Forward('a')),
    Movement::ViCharSearch(1, ForwardBefore('a')),
    Movement::ViCharSearch(1, Backward('\u{301}')),
    Movement::ViCharSearch(1, BackwardAfter('\u{301}')),
    Movement::ViCharSearch(1, Forward('\n')),
    Movement::ViCharSearch(1, ForwardBefore('\n')),
    Movement::ViCharSearch(1, Backward('\n')),
    Movement::ViCharSearch(1, BackwardAfter('\n')),
    Movement::ViFirstPrint,
    Movement::FirstNonBlank,
    Movement::BackwardChar(1),
    Movement::ForwardChar(1),
    Movement::LineUp(1),
    Movement::LineDown(1),
    Movement::WholeLinesUp(1),
    Movement::WholeLinesDown(1),
    Movement::WholeBuffer,
    Movement::BeginningOfBuffer,
    Movement::EndOfBuffer,
];

// The movement with that count, if it has one.
fn counted(mvt: &Movement, n: RepeatCount) -> Result<Movement, AllocError> {
    Ok(match mvt {
        Movement::BackwardWord(_, word) => Movement::BackwardWord(n, *word),
        Movement::ForwardWord(_, at, word) => Movement::ForwardWord(n, *at, *word),
        Movement::ViCharSearch(_, cs) => Movement::ViCharSearch(n, *cs),
        Movement::BackwardChar(_) => Movement::BackwardChar(n),
        Movement::ForwardChar(_) => Movement::ForwardChar(n),
        Movement::LineUp(_) => Movement::LineUp(n),
        Movement::LineDown(_) => Movement::LineDown(n),
        Movement::WholeLinesUp(_) => Movement::WholeLinesUp(n),
        Movement::WholeLinesDown(_) => Movement::WholeLinesDown(n),
        _ => mvt.clone()?,
    })
}

// The movements that may kill where there is nothing to copy, or copy where there is nothing to kill.
fn may_differ(mvt: &Movement) -> bool {
    matches!(
        mvt,
        Movement::WholeLine
            | Movement::BeginningOfLine
            | Movement::EndOfLine
            | Movement::ViFirstPrint
    )
}

// The listener heard last that the copy was deleted.
fn is_copy_told(heard: &RefuseAt, copy: &str) -> bool {
    match heard.seen.last() {
        Some(TextEvent::Delete(_, gone, _)) => gone.as_str() == copy,
        _ => false,
    }
}

// The kill takes something exactly if the copy does, or may differ. What both take is the same text.
fn kills_its_copy(
    rt: &impl Abort,
    line: &mut LineBuffer,
    heard: &mut RefuseAt,
    text: &str,
    mvt: &Movement,
) -> Result<(), Fail> {
    let pos = line.pos();
    let copy = line.copy(mvt)?;
    let killed = line.kill(mvt, heard)?;
    let may = may_differ(mvt) && !text.is_empty();
    is_so(rt, killed == copy.is_some() || may, mvt, text, pos);
    if let (true, Some(copy)) = (killed, copy) {
        is_so(rt, is_copy_told(heard, copy.as_str()), mvt, text, pos);
        let whole = line.len().checked_add(copy.len());
        is_so(rt, whole == Some(text.len()), mvt, text, pos);
    }
    Ok(())
}

// Each movement does so there, with each of four counts.
fn kill_their_copies(rt: &impl Abort, alloc: Global, text: &str, pos: usize) -> Result<(), Fail> {
    for n in [0, 1, 2, 65535] {
        for mvt in MOVEMENTS {
            let mut line = line_of(rt, alloc, text, pos)?;
            let mut heard = RefuseAt::new(alloc, usize::MAX);
            kills_its_copy(rt, &mut line, &mut heard, text, &counted(mvt, n)?)?;
        }
    }
    Ok(())
}

#[test]
fn kills_delete_what_copies_hold(rt: HostRuntime) -> Result<(), Fail> {
    const AWKWARD: &str = "e\u{301}\r\n\u{1f468}\u{200d}\u{1f469} a\n";
    kill_their_copies(&rt, rt.alloc(), "", 0)?;
    for pos in 0..=AWKWARD.len() {
        if AWKWARD.is_char_boundary(pos) {
            kill_their_copies(&rt, rt.alloc(), AWKWARD, pos)?;
        }
    }
    Ok(())
}
