//! Widths and positions with answers from outside.
use rl_base::{GraphemeClusterMode, Layout, Position, Unit};
use std::process::Abort;
use std::test::Fail;

// The width of a text in a mode, alone and in a layout.
fn measures(rt: &impl Abort, text: &str, mode: GraphemeClusterMode, want: Unit) {
    let (alone, laid_out) = (mode.width(text), Layout::new(mode).width(text));
    assert_eq!(rt; alone, want, "{mode:?}");
    assert_eq!(rt; laid_out, want, "a layout, {mode:?}");
}

const MODES: [GraphemeClusterMode; 3] = [
    GraphemeClusterMode::Unicode,
    GraphemeClusterMode::WcWidth,
    GraphemeClusterMode::NoZwj,
];

#[test]
fn widths(rt: HostRuntime) {
    const ROWS: &[(&str, Unit, Unit, Unit)] = &[
        ("", 0, 0, 0),
        ("ab", 2, 2, 2),
        ("\u{6f22}a", 3, 3, 3),
        ("\u{1f44b}\u{1f3ff}", 2, 4, 2),
        ("\u{1f469}\u{200d}\u{1f680}", 2, 4, 4),
        ("\u{2764}\u{fe0f}", 2, 1, 2),
    ];
    for (text, unicode, wc_width, no_zwj) in ROWS {
        measures(&rt, text, GraphemeClusterMode::Unicode, *unicode);
        measures(&rt, text, GraphemeClusterMode::WcWidth, *wc_width);
        measures(&rt, text, GraphemeClusterMode::NoZwj, *no_zwj);
    }
}

#[test]
fn widths_are_cut(rt: HostRuntime) -> Result<(), Fail> {
    let text = "a".repeat(rt.alloc(), 70_000)?;
    for mode in MODES {
        assert_eq!(rt;
            mode.width(text.as_str()),
            65535,
            "70000 letters in {mode:?}"
        );
    }
    Ok(())
}

fn is_before(rt: &impl Abort, position: &Position, later: &Position) {
    let is_so = position < later && later > position && position != later;
    assert!(rt; is_so, "{position:?} before {later:?}");
}

#[test]
fn positions_are_ordered_by_row(rt: HostRuntime) {
    const ROWS: &[(Position, Position)] = &[
        (Position { col: 9, row: 0 }, Position { col: 0, row: 1 }),
        (Position { col: 0, row: 0 }, Position { col: 1, row: 0 }),
        (Position { col: 65535, row: 1 }, Position { col: 0, row: 2 }),
    ];
    for (position, later) in ROWS {
        is_before(&rt, position, later);
    }
    assert_eq!(rt; Position::default(), Position { col: 0, row: 0 }, "default");
}
