//! A text that grows at both ends: which text it holds, before it is packed and after.
use rl_base::Gathered;
use std::process::Abort;
use std::test::Fail;

// A text, two parts that are put in front of it, one at its end, and the text then. It is packed, and one more part is
// put in front, which gives the last text.
type Row = (
    &'static str,
    &'static str,
    &'static str,
    &'static str,
    &'static str,
    &'static str,
    &'static str,
);

const ROWS: &[Row] = &[
    // Nothing at all, and parts of an empty text.
    ("", "", "", "", "", "", ""),
    ("", "", "", "b", "b", "a", "ab"),
    ("", "b", "a", "", "ab", "é", "éab"),
    // Without a part in front there are no blanks.
    ("b", "", "", "c", "bc", "a", "abc"),
    // One blank, which the part takes; then as many as there are bytes to move.
    ("c", "b", "a", "d", "abcd", "", "abcd"),
    // Many blanks: of a long text, where the parts leave some unused, and of a long part.
    (
        "0123456789",
        "b",
        "a",
        "c",
        "ab0123456789c",
        "é",
        "éab0123456789c",
    ),
    ("日本", "語", "é", "👩‍👩‍👦", "é語日本👩‍👩‍👦", "a", "aé語日本👩‍👩‍👦"),
    (
        "d",
        "0123456789",
        "bc",
        "",
        "bc0123456789d",
        "a",
        "abc0123456789d",
    ),
    // A text may itself begin with blanks.
    ("  c", " ", "b ", " ", "b    c ", "  a", "  ab    c "),
];

// It holds that text, and has its length.
fn holds(rt: &impl Abort, gathered: &Gathered, text: &str) {
    let is_so = gathered.as_str() == text && gathered.len() == text.len();
    assert!(rt; is_so, "{}", gathered.as_str());
}

// Packs it, after which it is that text.
fn packs(rt: &impl Abort, gathered: &mut Gathered, text: &str) {
    gathered.pack();
    let packed = gathered.as_string().as_str() == text;
    assert!(rt; packed, "{}", gathered.as_str());
}

// Adds the parts of a row to its text, on both sides.
fn grow(rt: &impl Abort, gathered: &mut Gathered, row: &Row) -> Result<(), Fail> {
    let (_, second, first, last, all, more, at_last) = row;
    gathered.push_front(second)?;
    gathered.push_front(first)?;
    gathered.push_back(last)?;
    holds(rt, gathered, all);
    packs(rt, gathered, all);
    gathered.push_front(more)?;
    holds(rt, gathered, at_last);
    Ok(())
}

#[test]
fn parts_go_round_a_text(rt: HostRuntime) -> Result<(), Fail> {
    for row in ROWS {
        let mut gathered = Gathered::of(rt.alloc(), row.0)?;
        grow(&rt, &mut gathered, row)?;
    }
    Ok(())
}
