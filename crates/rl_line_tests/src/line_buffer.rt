//! Lines for the tests, and what no clause says: printed text.
use rl_base::NoListener;
use rl_line::{LineBuffer, MAX_LINE};
use std::alloc::Global;
use std::process::Abort;
use std::test::Fail;

// A line that holds the text, with the cursor at the place.
pub(crate) fn line_of(
    rt: &impl Abort,
    alloc: Global,
    text: &str,
    pos: usize,
) -> Result<LineBuffer, Fail> {
    line_within(rt, alloc, MAX_LINE, false, text, pos)
}

// The same with that limit, past which the line may grow or not.
pub(crate) fn line_within(
    rt: &impl Abort,
    alloc: Global,
    limit: usize,
    grows: bool,
    text: &str,
    pos: usize,
) -> Result<LineBuffer, Fail> {
    let mut line = LineBuffer::with_limit(alloc, limit).can_growth(grows);
    line.yank(text, 1, &mut NoListener)?;
    go_to(rt, &mut line, pos);
    Ok(line)
}

// Sets the cursor to the place.
pub(crate) fn go_to(rt: &impl Abort, line: &mut LineBuffer, pos: usize) {
    assert!(rt; line.as_str().is_char_boundary(pos), "{pos} is a place");
    line.set_pos(pos);
}

// It is so, of a call on that text at that place.
pub(crate) fn holds(rt: &impl Abort, is_so: bool, what: &str, text: &str, pos: usize) {
    assert!(rt; is_so, "{what} of {text:?} at {pos}");
}

// The line has that text and cursor, after a call on that text at that place.
pub(crate) fn leaves(
    rt: &impl Abort,
    line: &LineBuffer,
    text: &str,
    pos: usize,
    after: &str,
    cursor: usize,
) {
    holds(rt, line.as_str() == after, "the new text", text, pos);
    holds(rt, line.pos() == cursor, "the new cursor", text, pos);
}

#[test]
fn a_line_is_printed_and_used_up(rt: HostRuntime) -> Result<(), Fail> {
    const TEXT: &str = "\"\n\\é";
    let line = line_of(&rt, rt.alloc(), TEXT, 1)?;
    let printed = format!(in rt.alloc(); "{line:?}")?;
    let wanted = r#"LineBuffer { buf: "\"\n\\é", pos: 1 }"#;
    holds(&rt, printed.as_str() == wanted, "the print", TEXT, 1);
    let text = line.into_string();
    holds(&rt, text.as_str() == TEXT, "the text", TEXT, 1);
    Ok(())
}
