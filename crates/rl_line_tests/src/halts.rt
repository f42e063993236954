//! Edits that their listener refuses, at their first change or halfway, and what they leave. `kills` has the deletions that
//! answer whether there was one.
use crate::edits::{insert_str, replace, update, yank_pop};
use crate::line_buffer::{leaves, line_of};
use crate::told::{AHEAD, Told, is_told};
use rl_base::testing::RefuseAt;
use rl_base::{Movement, Refusal, RepeatCount, WordAction};
use rl_line::LineBuffer;
use std::alloc::Global;
use std::process::Abort;
use std::test::Fail;

// An edit, as a value of a table.
#[derive(Drop)]
enum Edit {
    Insert(char, RepeatCount),
    InsertStr(&'static str),
    Yank(&'static str),
    Replace(&'static str),
    DeleteRange,
    Delete,
    YankPop(&'static str),
    Update(&'static str),
    TransposeChars,
    TransposeWords,
    EditWord(WordAction),
    Indent(Movement, u8),
    Dedent(Movement, u8),
}

// Takes out what stands before the cursor.
fn delete_range(
    rt: &impl Abort,
    line: &mut LineBuffer,
    heard: &mut RefuseAt,
) -> Result<(), Refusal> {
    let to = line.pos();
    assert!(rt; line.is_range(0, to), "up to {to}");
    line.delete_range(0..to, heard)
}

// Makes the edit, from the start of the text where it takes a place. Answers why it was refused, if it was.
fn make(
    rt: &impl Abort,
    line: &mut LineBuffer,
    edit: &Edit,
    heard: &mut RefuseAt,
) -> Option<Refusal> {
    match edit {
        Edit::Insert(c, n) => line.insert(*c, *n, heard).err(),
        Edit::InsertStr(text) => insert_str(rt, line, 0, text, heard).err(),
        Edit::Yank(text) => line.yank(text, 1, heard).err(),
        Edit::Replace(text) => {
            let at = line.pos();
            replace(rt, line, 0, at, text, heard).err()
        }
        Edit::DeleteRange => delete_range(rt, line, heard).err(),
        Edit::Delete => line.delete(1, heard).err(),
        Edit::YankPop(text) => {
            let at = line.pos();
            yank_pop(rt, line, at, text, heard).err()
        }
        Edit::Update(text) => update(rt, line, text, 0, heard).err(),
        Edit::TransposeChars => line.transpose_chars(heard).err(),
        Edit::TransposeWords => line.transpose_words(1, heard).err(),
        Edit::EditWord(action) => line.edit_word(*action, heard).err(),
        Edit::Indent(mvt, amount) => line.indent(mvt, *amount, false, heard).err(),
        Edit::Dedent(mvt, amount) => line.indent(mvt, *amount, true, heard).err(),
    }
}

// It is so, of an edit of that text at that place with that many changes allowed.
fn is_so(rt: &impl Abort, is_so: bool, text: &str, pos: usize, allowed: usize) {
    assert!(rt; is_so, "{text:?} at {pos}, {allowed} allowed");
}

// The listener hears as many changes as are allowed, and the edit is refused or not, and leaves that text and cursor.
// It hands the listener out.
fn halts_after(
    rt: &impl Abort,
    alloc: Global,
    text: &str,
    pos: usize,
    edit: &Edit,
    allowed: usize,
    refused: bool,
    after: &str,
    cursor: usize,
) -> Result<RefuseAt, Fail> {
    let mut line = line_of(rt, alloc, text, pos)?;
    let mut heard = RefuseAt::new(alloc, allowed);
    let refusal = make(rt, &mut line, edit, &mut heard);
    let wanted = if refused {
        Some(Refusal::Listener)
    } else {
        None
    };
    is_so(rt, refusal == wanted, text, pos, allowed);
    let heard_all = heard.left == 0 && heard.starts == heard.stops;
    is_so(rt, heard_all, text, pos, allowed);
    leaves(rt, &line, text, pos, after, cursor);
    Ok(heard)
}

// A change, and the text and the cursor that it leaves.
type Step = (Told, &'static str, usize);

// With 0, 1, 2 .. changes allowed, the edit takes that many of the steps. Only with all of them is it not refused.
fn halts(
    rt: &impl Abort,
    alloc: Global,
    text: &str,
    pos: usize,
    edit: &Edit,
    steps: &[Step],
) -> Result<(), Fail> {
    let refused = !steps.is_empty();
    halts_after(rt, alloc, text, pos, edit, 0, refused, text, pos)?;
    for (taken, (told, after, cursor)) in steps.iter().enumerate() {
        let allowed = taken.saturating_add(1);
        let refused = allowed < steps.len();
        let heard = halts_after(rt, alloc, text, pos, edit, allowed, refused, after, *cursor)?;
        is_so(rt, is_told(&heard, *told), text, pos, allowed);
    }
    Ok(())
}

// A text, the cursor, an edit, and its steps.
type Halting = (&'static str, usize, Edit, &'static [Step]);

const ALL: Movement = Movement::WholeBuffer;

const ROWS: &[Halting] = &[
    ("ab", 1, Edit::Insert('é', 1), &[((1, "é", None), "aéb", 3)]),
    (
        "ab",
        2,
        Edit::Insert('x', 2),
        &[((2, "xx", None), "abxx", 4)],
    ),
    (
        "ab",
        1,
        Edit::InsertStr("xy"),
        &[((0, "xy", None), "xyab", 1)],
    ),
    ("ab", 1, Edit::Yank("xy"), &[((1, "xy", None), "axyb", 3)]),
    (
        "abc",
        1,
        Edit::Replace("xyz"),
        &[((0, "xyz", None), "xyzbc", 3)],
    ),
    ("abc", 2, Edit::DeleteRange, &[((0, "ab", AHEAD), "c", 0)]),
    ("abc", 1, Edit::Delete, &[((1, "b", AHEAD), "ac", 1)]),
    (
        "abc",
        2,
        Edit::YankPop("xyz"),
        &[((0, "ab", AHEAD), "c", 0), ((0, "xyz", None), "xyzc", 3)],
    ),
    (
        "ab",
        1,
        Edit::Update("cde"),
        &[((0, "ab", AHEAD), "", 0), ((0, "cde", None), "cde", 0)],
    ),
    (
        "abc",
        1,
        Edit::TransposeChars,
        &[((1, "b", AHEAD), "ac", 1), ((0, "b", None), "bac", 2)],
    ),
    (
        "ab",
        2,
        Edit::TransposeChars,
        &[((1, "b", AHEAD), "a", 1), ((0, "b", None), "ba", 2)],
    ),
    (
        ", ab",
        0,
        Edit::EditWord(WordAction::Uppercase),
        &[((2, "ab", AHEAD), ", ", 0), ((2, "AB", None), ", AB", 4)],
    ),
    (
        "a-bC d",
        1,
        Edit::EditWord(WordAction::Lowercase),
        &[
            ((2, "bC", AHEAD), "a- d", 1),
            ((2, "bc", None), "a-bc d", 4),
        ],
    ),
    (
        "ab cd",
        5,
        Edit::TransposeWords,
        &[
            ((3, "cd", AHEAD), "ab ", 2),
            ((3, "ab", None), "ab ab", 2),
            ((0, "ab", AHEAD), " ab", 0),
            ((0, "cd", None), "cd ab", 5),
        ],
    ),
    (
        "a\nb",
        0,
        Edit::Indent(ALL, 1),
        &[((0, " ", None), " a\nb", 1), ((3, " ", None), " a\n b", 1)],
    ),
    ("a", 0, Edit::Indent(Movement::WholeLine, 0), &[]),
    // dedents that take out nothing
    (
        "\u{3000}x",
        0,
        Edit::Dedent(Movement::WholeLine, 2),
        &[((0, "", AHEAD), "\u{3000}x", 0)],
    ),
    ("", 0, Edit::Dedent(ALL, 9), &[((0, "", AHEAD), "", 0)]),
    (
        "  a\n\tb",
        5,
        Edit::Dedent(ALL, 4),
        &[
            ((0, "  ", AHEAD), "a\n\tb", 3),
            ((2, "\t", AHEAD), "a\nb", 2),
        ],
    ),
    (
        "  a\n\tb",
        1,
        Edit::Dedent(ALL, 4),
        &[
            ((0, "  ", AHEAD), "a\n\tb", 0),
            ((2, "\t", AHEAD), "a\nb", 0),
        ],
    ),
    (
        "a\nb",
        3,
        Edit::Indent(ALL, 40),
        &[
            (
                (0, "                                ", None),
                "                                a\nb",
                35,
            ),
            (
                (0, "        ", None),
                "                                        a\nb",
                43,
            ),
            (
                (42, "                                ", None),
                "                                        a\n                                b",
                75,
            ),
            (
                (42, "        ", None),
                "                                        a\n                                        b",
                83,
            ),
        ],
    ),
];

#[test]
fn refused_edits_stand_after_their_steps(rt: HostRuntime) -> Result<(), Fail> {
    for (text, pos, edit, steps) in ROWS {
        halts(&rt, rt.alloc(), text, *pos, edit, steps)?;
    }
    Ok(())
}
