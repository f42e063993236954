//! Copies with answers that were worked out by hand, as lines of scripts.
use crate::script::{Lines, print_each};
use std::test::Fail;

#[test]
fn copies(rt: HostRuntime) -> Result<(), Fail> {
    const THREE: &str = "ab\\ncd ef\\ngh";
    const COVERED: &str = "  ab\\ncd";
    const ROWS: &[Lines] = &[
        (THREE, 5, "copy line", "text:cd\\sef 5 ab\\ncd ef\\ngh"),
        (THREE, 5, "copy home", "text:cd 5 ab\\ncd ef\\ngh"),
        (THREE, 5, "copy eol", "text:\\sef 5 ab\\ncd ef\\ngh"),
        (THREE, 5, "copy bword 1 emacs", "text:cd 5 ab\\ncd ef\\ngh"),
        (
            THREE,
            5,
            "copy fword 1 after emacs",
            "text:\\sef 5 ab\\ncd ef\\ngh",
        ),
        (
            THREE,
            5,
            "copy find 1 t h",
            "text:\\sef\\ng 5 ab\\ncd ef\\ngh",
        ),
        (
            THREE,
            5,
            "copy find 1 f h",
            "text:\\sef\\ngh 5 ab\\ncd ef\\ngh",
        ),
        (THREE, 5, "copy find 1 T b", "text:\\ncd 5 ab\\ncd ef\\ngh"),
        (THREE, 5, "copy find 1 F b", "text:b\\ncd 5 ab\\ncd ef\\ngh"),
        (THREE, 5, "copy first", "text:cd 5 ab\\ncd ef\\ngh"),
        (THREE, 5, "copy nonblank", "text:cd 5 ab\\ncd ef\\ngh"),
        ("  ab", 1, "copy nonblank", "text:\\s 1   ab"),
        ("  ab", 2, "copy nonblank", "none 2   ab"),
        (THREE, 5, "copy bchar 2", "text:cd 5 ab\\ncd ef\\ngh"),
        (THREE, 5, "copy fchar 2", "text:\\se 5 ab\\ncd ef\\ngh"),
        (
            THREE,
            5,
            "copy up 1",
            "text:ab\\ncd\\sef\\n 5 ab\\ncd ef\\ngh",
        ),
        (THREE, 5, "copy up 0", "text:cd\\sef\\n 5 ab\\ncd ef\\ngh"),
        (
            THREE,
            5,
            "copy down 1",
            "text:\\ncd\\sef\\ngh 5 ab\\ncd ef\\ngh",
        ),
        (
            THREE,
            5,
            "copy down 0",
            "text:\\ncd\\sef\\n 5 ab\\ncd ef\\ngh",
        ),
        (THREE, 1, "copy down 0", "text:ab\\n 1 ab\\ncd ef\\ngh"),
        (THREE, 1, "copy up 1", "none 1 ab\\ncd ef\\ngh"),
        (THREE, 9, "copy down 1", "none 9 ab\\ncd ef\\ngh"),
        (
            THREE,
            9,
            "copy up 65535",
            "text:ab\\ncd\\sef\\ngh 9 ab\\ncd ef\\ngh",
        ),
        (
            THREE,
            5,
            "copy buf",
            "text:ab\\ncd\\sef\\ngh 5 ab\\ncd ef\\ngh",
        ),
        (THREE, 5, "copy bob", "text:ab\\ncd 5 ab\\ncd ef\\ngh"),
        (THREE, 5, "copy eob", "text:\\sef\\ngh 5 ab\\ncd ef\\ngh"),
        ("  ab", 1, "copy first", "none 1   ab"),
        (" ab", 1, "copy first", "text: 1  ab"),
        ("ab", 2, "copy first", "text:b 2 ab"),
        ("a", 1, "copy first", "none 1 a"),
        ("ab", 1, "copy find 1 T a", "text: 1 ab"),
        ("ab\\n\\ncd", 3, "copy line", "none 3 ab\\n\\ncd"),
        ("a\\nb", 2, "copy up 0", "text:b 2 a\\nb"),
        ("\\n", 1, "copy up 0", "text: 1 \\n"),
        ("a\\nb\\nc", 2, "copy up 1", "text:a\\nb\\n 2 a\\nb\\nc"),
        ("text", 4, "copy find 2 F t", "text:text 4 text"),
        ("text", 4, "copy eol", "none 4 text"),
        ("text", 4, "copy up 1", "none 4 text"),
        ("text", 4, "copy line", "text:text 4 text"),
        (COVERED, 1, "copy eol", "text:\\sab 1   ab\\ncd"),
        (COVERED, 1, "copy line", "text:\\s\\sab 1   ab\\ncd"),
        (COVERED, 1, "copy home", "text:\\s 1   ab\\ncd"),
        (COVERED, 1, "copy down 1", "text:\\s\\sab\\ncd 1   ab\\ncd"),
        (COVERED, 1, "copy lines 1", "text:\\s\\sab\\n 1   ab\\ncd"),
        (COVERED, 6, "copy lines 1", "text:cd 6   ab\\ncd"),
        (
            COVERED,
            6,
            "copy linesup 2",
            "text:\\s\\sab\\ncd 6   ab\\ncd",
        ),
        (COVERED, 1, "copy bchar 0", "none 1   ab\\ncd"),
        // a kill would take the newline
        ("ab\\n", 2, "copy eol", "none 2 ab\\n"),
    ];
    print_each(&rt, rt.alloc(), ROWS)
}
