//! Motions over lines, and their numbers, with answers from outside.
use crate::line_buffer::{holds, line_of};
use rl_base::{GraphemeClusterMode, Layout, Movement, RepeatCount, Screen, Unit};
use rl_line::LineBuffer;
use std::alloc::Global;
use std::process::Abort;
use std::test::Fail;

#[derive(Drop)]
enum Step {
    Home,
    End,
    BufferStart,
    BufferEnd,
    Up(RepeatCount),
    Down(RepeatCount),
    By(Movement),
}

fn take(line: &mut LineBuffer, step: &Step, layout: &Layout) -> bool {
    match step {
        Step::Home => line.move_home(),
        Step::End => line.move_end(),
        Step::BufferStart => line.move_buffer_start(),
        Step::BufferEnd => line.move_buffer_end(),
        Step::Up(n) => line.move_to_line_up(*n, layout),
        Step::Down(n) => line.move_to_line_down(*n, layout),
        Step::By(mvt) => {
            let place = line.destination(mvt, layout);
            line.move_by(mvt, layout) && place == Some(line.pos())
        }
    }
}

// Each step with its answer and the cursor after it.
type Taken = (Step, bool, usize);

// It is so, of a step on that text below a prompt of that width.
fn is_so(rt: &impl Abort, is_so: bool, text: &str, prompt: Unit, step: usize) {
    assert!(rt; is_so, "{text:?}, prompt {prompt}, step {step}");
}

// Takes the steps on a line that holds the text, below a prompt of that width.
fn goes(
    rt: &impl Abort,
    alloc: Global,
    text: &str,
    pos: usize,
    prompt: Unit,
    steps: &[Taken],
) -> Result<(), Fail> {
    let mut line = line_of(rt, alloc, text, pos)?;
    let mut layout = Layout::new(GraphemeClusterMode::Unicode);
    layout.prompt_size.col = prompt;
    for (i, (step, answer, cursor)) in steps.iter().enumerate() {
        let answered = take(&mut line, step, &layout);
        is_so(rt, answered == *answer, text, prompt, i);
        is_so(rt, line.pos() == *cursor, text, prompt, i);
    }
    Ok(())
}

// A text, the cursor, the width of the prompt, and the steps.
type Row = (&'static str, usize, Unit, &'static [Taken]);

// A step by a movement also says before where it goes.
const ROWS: &[Row] = &[
    (
        "αa\nsdf ßc\nasdf",
        7,
        0,
        &[
            (Step::Home, true, 4),
            (Step::Home, false, 4),
            (Step::End, true, 11),
            (Step::End, false, 11),
            (Step::BufferStart, true, 0),
            (Step::BufferEnd, true, 16),
        ],
    ),
    (
        "",
        0,
        7,
        &[
            (Step::Home, false, 0),
            (Step::End, false, 0),
            (Step::Up(1), false, 0),
            (Step::Down(1), false, 0),
        ],
    ),
    ("a\n\nbcd\nefgh", 11, 0, &[(Step::Up(2), true, 2)]),
    (
        "aa123\nsdf bc\nasdf",
        14,
        0,
        &[
            (Step::Up(1), true, 7),
            (Step::Up(1), true, 1),
            (Step::Up(1), false, 1),
        ],
    ),
    (
        "aa123\nsdf bc\nasdf",
        14,
        2,
        &[
            (Step::Up(1), true, 7),
            (Step::Up(1), true, 0),
            (Step::Down(1), true, 8),
        ],
    ),
    (
        "aa123\nsdf bc\nasdf",
        1,
        0,
        &[(Step::Down(2), true, 14), (Step::Up(2), true, 1)],
    ),
    ("a\nb", 2, 0, &[(Step::Up(0), true, 0)]),
    ("a\nb", 3, 0, &[(Step::Down(1), false, 3)]),
    (
        "a\nb\nc\nd",
        3,
        0,
        &[(Step::Down(65535), true, 7), (Step::Up(65535), true, 1)],
    ),
    (
        "a\n",
        1,
        0,
        &[(Step::Down(0), true, 2), (Step::Up(9), true, 0)],
    ),
    (
        "  ab\n cd",
        3,
        0,
        &[
            (Step::By(Movement::FirstNonBlank), true, 2),
            (Step::By(Movement::FirstNonBlank), false, 2),
            (Step::By(Movement::BeginningOfLine), true, 0),
            (Step::By(Movement::FirstNonBlank), true, 2),
            (Step::By(Movement::LineDown(1)), true, 7),
            (Step::By(Movement::FirstNonBlank), true, 6),
            (Step::By(Movement::WholeLine), false, 6),
            (Step::By(Movement::BackwardChar(2)), true, 4),
            (Step::By(Movement::EndOfLine), false, 4),
            (Step::By(Movement::EndOfBuffer), true, 8),
        ],
    ),
    (
        "ab\ncd",
        1,
        7,
        &[(Step::By(Movement::LineDown(1)), true, 5)],
    ),
    (
        "ab\ncd",
        1,
        65535,
        &[(Step::Down(1), true, 5), (Step::Up(1), true, 0)],
    ),
    (
        "\u{6f22}a\nbcd",
        3,
        0,
        &[(Step::Down(1), true, 7), (Step::Up(1), true, 4)],
    ),
    (
        "e\u{301}b\nxy\u{301}z",
        3,
        0,
        &[(Step::Down(1), true, 6), (Step::Up(1), true, 3)],
    ),
];

#[test]
fn lines_are_gone_over(rt: HostRuntime) -> Result<(), Fail> {
    for (text, pos, prompt, steps) in ROWS {
        goes(&rt, rt.alloc(), text, *pos, *prompt, steps)?;
    }
    Ok(())
}

// The cursor's line has that number, the lines stand there, and there are no more.
fn numbers(
    rt: &impl Abort,
    alloc: Global,
    text: &str,
    pos: usize,
    number: usize,
    ranges: &[(usize, usize)],
) -> Result<(), Fail> {
    let line = line_of(rt, alloc, text, pos)?;
    holds(rt, line.line_number() == number, "the line", text, pos);
    let count = line.line_count();
    holds(rt, count == ranges.len(), "the count of lines", text, pos);
    for (i, (start, end)) in ranges.iter().enumerate() {
        let stands = line.line_range(i) == Some(*start..*end);
        holds(rt, stands, "the range of a line", text, i);
    }
    for i in [count, usize::MAX] {
        let none = line.line_range(i).is_none();
        holds(rt, none, "no line after the last", text, i);
    }
    Ok(())
}

#[test]
fn lines_are_numbered(rt: HostRuntime) -> Result<(), Fail> {
    const ROWS: &[(&str, usize, usize, &[(usize, usize)])] = &[
        ("\u{3b1}\u{df}\n\u{3b3}", 7, 1, &[(0, 4), (5, 7)]),
        ("\u{3b1}\u{df}\n\u{3b3}", 4, 0, &[(0, 4), (5, 7)]),
        ("a\n", 2, 1, &[(0, 1), (2, 2)]),
        ("", 0, 0, &[(0, 0)]),
        ("\n\n", 1, 1, &[(0, 0), (1, 1), (2, 2)]),
    ];
    for (text, pos, number, ranges) in ROWS {
        numbers(&rt, rt.alloc(), text, *pos, *number, ranges)?;
    }
    Ok(())
}

// Where a motion by rows leads, and the column that it keeps to.
type Target = Option<(usize, usize)>;

// A cursor goes one row up and down on a screen of four columns, and so if its line is laid out from that place.
fn goes_by_rows(
    rt: &impl Abort,
    line: &LineBuffer,
    from: usize,
    above: Target,
    below: Target,
) -> Result<(), Fail> {
    let screen = Screen {
        mode: GraphemeClusterMode::Unicode,
        columns: 4,
        prompt: 1,
        continuation: 2,
        tab: 0,
        controls: 0,
    };
    assert!(rt;
        line.as_str().is_char_boundary(from),
        "{from} is no boundary"
    );
    assert!(rt;
        line.row_above(&screen, None, 1, None) == above,
        "above, from {from}"
    );
    assert!(rt;
        line.row_above(&screen, Some(from), 1, None) == above,
        "above, by {from}"
    );
    assert!(rt;
        line.row_below(&screen, None, 1, None) == below,
        "below, from {from}"
    );
    assert!(rt;
        line.row_below(&screen, Some(from), 1, None) == below,
        "below, by {from}"
    );
    Ok(())
}

#[test]
fn rows_above_and_below(rt: HostRuntime) -> Result<(), Fail> {
    // The rows abc, and defg; hi, where the end of the first line stands, and jk.
    const ROWS: &[(usize, usize, Target, Target)] = &[
        (5, 3, Some((1, 2)), Some((8, 2))),
        (5, 0, Some((1, 2)), Some((8, 2))),
        (7, 7, Some((3, 0)), Some((10, 0))),
        (11, 10, Some((8, 1)), None),
        (11, 3, Some((8, 1)), None),
        (1, 3, None, Some((5, 2))),
    ];
    for (pos, from, above, below) in ROWS {
        let line = line_of(&rt, rt.alloc(), "abcdefg\nhijk", *pos)?;
        goes_by_rows(&rt, &line, *from, *above, *below)?;
    }
    Ok(())
}
