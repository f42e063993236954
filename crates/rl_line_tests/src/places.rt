//! Rows of places, and of characters that belong to words.
use rl_base::Direction;
use rl_base::places::{find_text, is_alphanumeric};
use std::ops::Range;
use std::process::Abort;

fn is_range(found: Option<Range<usize>>, wanted: Option<(usize, usize)>) -> bool {
    match (found, wanted) {
        (Some(range), Some((start, end))) => range.start == start && range.end == end,
        (found, wanted) => found.is_none() && wanted.is_none(),
    }
}

// Where the text is found ahead of a place, and back from it.
fn finds_text(
    rt: &impl Abort,
    text: &str,
    from: usize,
    sought: &str,
    ahead: Option<(usize, usize)>,
    back: Option<(usize, usize)>,
) {
    assert!(rt; text.is_char_boundary(from), "{from}");
    let first = find_text(text, from, sought, Direction::Forward);
    assert!(rt; is_range(first, ahead), "ahead from {from}");
    let last = find_text(text, from, sought, Direction::Backward);
    assert!(rt; is_range(last, back), "back from {from}");
}

#[test]
fn texts_are_found(rt: HostRuntime) {
    const LONG: &str = "forty-two characters and more, in one part";
    const TWICE: &str =
        "forty-two characters and more, in one part; forty-two characters and more, in one part";
    const ROWS: &[(
        &str,
        usize,
        &str,
        Option<(usize, usize)>,
        Option<(usize, usize)>,
    )] = &[
        ("abcabc", 0, "abc", Some((0, 3)), None),
        ("abcabc", 1, "abc", Some((3, 6)), None),
        ("abcabc", 3, "abc", Some((3, 6)), Some((0, 3))),
        ("abcabc", 4, "abc", None, Some((0, 3))),
        ("abcabc", 6, "abc", None, Some((3, 6))),
        ("abcabc", 3, "", None, None),
        ("", 0, "a", None, None),
        ("ab", 0, "abc", None, None),
        // occurrences that overlap
        ("aaaa", 1, "aa", Some((1, 3)), None),
        ("aaaa", 2, "aa", Some((2, 4)), Some((0, 2))),
        ("aaaa", 3, "aa", None, Some((1, 3))),
        // a single byte, and characters of several
        ("a\nb\n", 2, "\n", Some((3, 4)), Some((1, 2))),
        (
            "\u{3b1}\u{df}\u{3b1}",
            2,
            "\u{3b1}",
            Some((4, 6)),
            Some((0, 2)),
        ),
        (
            "\u{3b1}\u{df}\u{3b1}",
            6,
            "\u{df}\u{3b1}",
            None,
            Some((2, 6)),
        ),
        // one byte of each character is that of another
        ("\u{c3}\u{a9}", 0, "\u{e9}", None, None),
        // inside a cluster
        ("xe\u{301}", 0, "e", Some((1, 2)), None),
        (TWICE, 0, LONG, Some((0, 42)), None),
        (TWICE, 1, LONG, Some((44, 86)), None),
        (TWICE, 85, LONG, None, Some((0, 42))),
        (TWICE, 86, LONG, None, Some((44, 86))),
    ];
    for (text, from, sought, ahead, back) in ROWS {
        finds_text(&rt, text, *from, sought, *ahead, *back);
    }
}

#[test]
fn alphanumerics(rt: HostRuntime) {
    const ROWS: &[(char, bool)] = &[
        ('a', true),
        ('\u{df}', true),
        ('\u{4e2d}', true),
        ('7', true),
        ('\u{663}', true),
        ('\u{2167}', true),
        ('\u{bd}', true),
        ('_', false),
        (' ', false),
        ('\u{301}', false),
        ('\u{1f468}', false),
    ];
    for (c, want) in ROWS {
        assert_eq!(rt; is_alphanumeric(*c), *want, "{c}");
    }
}
