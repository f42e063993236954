//! Edits that insert texts, with answers that were worked out by hand.
use crate::line_buffer::{holds, leaves, line_within};
use crate::told::{AHEAD, Told, is_told};
use rl_base::testing::RefuseAt;
use rl_base::{ChangeListener, Refusal, RepeatCount};
use rl_line::LineBuffer;
use std::alloc::Global;
use std::process::Abort;
use std::test::Fail;

// A call, as a value of a table.
#[derive(Clone, Copy)]
enum Call {
    Insert(char, RepeatCount),
    InsertStr(usize, &'static str),
    Yank(&'static str, RepeatCount),
    YankPop(usize, &'static str),
    Update(&'static str, usize),
    Replace(usize, usize, &'static str),
}

// Puts a text in.
pub(crate) fn insert_str<L: ChangeListener>(
    rt: &impl Abort,
    line: &mut LineBuffer,
    idx: usize,
    text: &str,
    listener: &mut L,
) -> Result<bool, Refusal> {
    assert!(rt; line.can_insert_str(idx, text), "{text:?} at {idx}");
    line.insert_str(idx, text, listener)
}

// Replaces the bytes before the cursor by the text.
pub(crate) fn yank_pop<L: ChangeListener>(
    rt: &impl Abort,
    line: &mut LineBuffer,
    size: usize,
    text: &str,
    listener: &mut L,
) -> Result<Option<bool>, Refusal> {
    assert!(rt; line.can_yank_pop(size));
    line.yank_pop(size, text, listener)
}

// Replaces a range by the text.
pub(crate) fn replace<L: ChangeListener>(
    rt: &impl Abort,
    line: &mut LineBuffer,
    from: usize,
    to: usize,
    text: &str,
    listener: &mut L,
) -> Result<(), Refusal> {
    assert!(rt; line.is_range(from, to), "from {from} to {to}");
    line.replace(from..to, text, listener)
}

// Replaces the whole text by this one, with the cursor at that place of it.
pub(crate) fn update<L: ChangeListener>(
    rt: &impl Abort,
    line: &mut LineBuffer,
    text: &str,
    pos: usize,
    listener: &mut L,
) -> Result<(), Refusal> {
    assert!(rt; text.is_char_boundary(pos), "{pos} is a place");
    line.update(text, pos, listener)
}

// What a call answers that answers as a yank does, if it does something at all.
fn some(answer: Result<bool, Refusal>) -> Result<Option<bool>, Refusal> {
    match answer {
        Ok(answer) => Ok(Some(answer)),
        Err(refusal) => Err(refusal),
    }
}

// Makes the call, if its places are boundaries. It answers as a yank does.
fn make(
    rt: &impl Abort,
    line: &mut LineBuffer,
    call: Call,
    heard: &mut RefuseAt,
) -> Result<Option<bool>, Refusal> {
    match call {
        Call::Insert(c, n) => line.insert(c, n, heard),
        Call::InsertStr(idx, text) => some(insert_str(rt, line, idx, text, heard)),
        Call::Yank(text, n) => line.yank(text, n, heard),
        Call::YankPop(size, text) => yank_pop(rt, line, size, text, heard),
        Call::Update(text, pos) => update(rt, line, text, pos, heard).and(Ok(None)),
        Call::Replace(from, to, text) => replace(rt, line, from, to, text, heard).and(Ok(None)),
    }
}

// How many changes a call makes, and the last one.
type Changes = (usize, Told);

const NOTHING: Changes = (0, (0, "", None));

// On a line of that limit that holds the text, the call answers that, makes these changes, and leaves that text and
// cursor.
fn comes_in(
    rt: &impl Abort,
    alloc: Global,
    limit: usize,
    grows: bool,
    text: &str,
    pos: usize,
    call: Call,
    answer: Option<bool>,
    changes: Changes,
    after: &str,
    cursor: usize,
) -> Result<(), Fail> {
    let mut line = line_within(rt, alloc, limit, grows, text, pos)?;
    let (count, last) = changes;
    let mut heard = RefuseAt::new(alloc, count);
    let answered = make(rt, &mut line, call, &mut heard)?;
    holds(rt, answered == answer, "the answer", text, pos);
    let told = heard.left == 0 && (count == 0 || is_told(&heard, last));
    holds(rt, told, "the changes", text, pos);
    leaves(rt, &line, text, pos, after, cursor);
    let room = limit.max(line.len());
    holds(rt, line.limit() == room, "the limit", text, pos);
    Ok(())
}

// The limit, whether the line may grow, the text, the cursor, a call, its answer, its changes, and the text and the
// cursor after it.
type Row = (
    usize,
    bool,
    &'static str,
    usize,
    Call,
    Option<bool>,
    Changes,
    &'static str,
    usize,
);

const HELLO: &str = "Hello, world!";

const ROWS: &[Row] = &[
    (
        9,
        false,
        "",
        0,
        Call::Insert('α', 1),
        Some(true),
        (1, (0, "α", None)),
        "α",
        2,
    ),
    (
        9,
        false,
        "α",
        2,
        Call::Insert('ß', 1),
        Some(true),
        (1, (2, "ß", None)),
        "αß",
        4,
    ),
    (
        9,
        false,
        "αß",
        0,
        Call::Insert('γ', 1),
        Some(false),
        (1, (0, "γ", None)),
        "γαß",
        2,
    ),
    (
        2,
        false,
        "+",
        1,
        Call::Insert('-', 1),
        Some(true),
        (1, (1, "-", None)),
        "+-",
        2,
    ),
    (
        2,
        false,
        "+-",
        2,
        Call::Insert('*', 1),
        None,
        NOTHING,
        "+-",
        2,
    ),
    (
        2,
        false,
        "+-",
        2,
        Call::Insert('*', 65535),
        None,
        NOTHING,
        "+-",
        2,
    ),
    (
        2,
        false,
        "+-",
        2,
        Call::Insert('*', 0),
        Some(true),
        (1, (2, "", None)),
        "+-",
        2,
    ),
    (
        2,
        true,
        "+-",
        2,
        Call::Insert('*', 1),
        Some(true),
        (1, (2, "*", None)),
        "+-*",
        3,
    ),
    (
        2,
        false,
        "",
        0,
        Call::InsertStr(0, "abc"),
        Some(true),
        (1, (0, "abc", None)),
        "abc",
        0,
    ),
    (
        99,
        false,
        "αε",
        2,
        Call::Yank("ßγδ", 1),
        Some(false),
        (1, (2, "ßγδ", None)),
        "αßγδε",
        8,
    ),
    (
        10,
        false,
        "ab",
        1,
        Call::Yank("xyz", 2),
        Some(false),
        (1, (1, "xyzxyz", None)),
        "axyzxyzb",
        7,
    ),
    (
        10,
        false,
        "axyzxyzb",
        7,
        Call::Yank("xyz", 1),
        None,
        NOTHING,
        "axyzxyzb",
        7,
    ),
    (
        10,
        false,
        "axyzxyzb",
        7,
        Call::Yank("xyz", 0),
        Some(false),
        (1, (7, "", None)),
        "axyzxyzb",
        7,
    ),
    (
        10,
        false,
        "axyzxyzb",
        7,
        Call::YankPop(3, ""),
        None,
        (1, (4, "xyz", AHEAD)),
        "axyzb",
        4,
    ),
    (
        8,
        false,
        "axyzxyzb",
        7,
        Call::YankPop(3, "cd"),
        Some(false),
        (2, (4, "cd", None)),
        "axyzcdb",
        6,
    ),
    (
        5,
        false,
        "abc",
        3,
        Call::YankPop(1, "defg"),
        None,
        (1, (2, "c", AHEAD)),
        "ab",
        2,
    ),
    (
        2,
        false,
        "ab",
        2,
        Call::Yank("c", 1),
        None,
        NOTHING,
        "ab",
        2,
    ),
    (
        2,
        true,
        "ab",
        2,
        Call::Yank("c", 1),
        Some(true),
        (1, (2, "c", None)),
        "abc",
        3,
    ),
    (2, true, "ab", 2, Call::Yank("", 1), None, NOTHING, "ab", 2),
    (
        2,
        false,
        "",
        0,
        Call::Update("aßß", 5),
        None,
        (2, (0, "a", None)),
        "a",
        1,
    ),
    (
        2,
        false,
        "ab",
        2,
        Call::Update("ß", 0),
        None,
        (2, (0, "ß", None)),
        "ß",
        0,
    ),
    (
        9,
        false,
        "ab",
        1,
        Call::Update("cdef", 2),
        None,
        (2, (0, "cdef", None)),
        "cdef",
        2,
    ),
    (
        2,
        true,
        "ab",
        1,
        Call::Update("aßß", 5),
        None,
        (2, (0, "aßß", None)),
        "aßß",
        5,
    ),
    (
        99,
        false,
        HELLO,
        0,
        Call::Replace(1, 4, "i"),
        None,
        (1, (1, "i", None)),
        "Hio, world!",
        2,
    ),
    (
        99,
        false,
        "Hio, world!",
        2,
        Call::Replace(2, 3, ""),
        None,
        (1, (2, "", None)),
        "Hi, world!",
        2,
    ),
    (
        2,
        false,
        "ab",
        0,
        Call::Replace(1, 1, "ßß"),
        None,
        (1, (1, "ßß", None)),
        "aßßb",
        5,
    ),
];

#[test]
fn texts_come_in(rt: HostRuntime) -> Result<(), Fail> {
    for (limit, grows, text, pos, call, answer, changes, after, cursor) in ROWS {
        comes_in(
            &rt,
            rt.alloc(),
            *limit,
            *grows,
            text,
            *pos,
            *call,
            *answer,
            *changes,
            after,
            *cursor,
        )?;
    }
    Ok(())
}
