//! Indents with answers that were worked out by hand, as lines of scripts.
use crate::script::{Lines, print_each};
use std::test::Fail;

#[test]
fn lines_are_indented(rt: HostRuntime) -> Result<(), Fail> {
    const ROWS: &[Lines] = &[
        (
            "a\\nb\\nc\\nd",
            2,
            "indent 2 line",
            "true 4 a\\n  b\\nc\\nd",
        ),
        ("a\\n", 0, "indent 2 buf", "true 2   a\\n"),
        (
            "a",
            0,
            "indent 40 line",
            "true 40                                         a",
        ),
        ("a", 0, "indent 0 line", "true 0 a"),
        ("a\\nb", 0, "indent 1 eol", "true 1  a\\nb"),
        ("a\\nb", 3, "indent 1 bchar 2", "true 4 a\\n b"),
        ("a\\nb", 0, "indent 1 fchar 2", "true 1  a\\nb"),
        ("ab\\ncd", 5, "indent 1 first", "true 6 ab\\n cd"),
        (
            "a b\\nc d",
            6,
            "indent 1 bword 2 emacs",
            "true 8  a b\\n c d",
        ),
        ("a\\nb", 0, "indent 1 fword 1 start emacs", "true 1  a\\nb"),
        ("a\\nb", 0, "indent 1 eob", "true 1  a\\n b"),
        ("a\\nb", 2, "indent 1 bob", "true 3  a\\nb"),
        ("a\\n", 2, "indent 1 eob", "true 3 a\\n "),
        ("a\\n", 2, "indent 1 up 1", "true 3  a\\n"),
        ("a\\nb\\nc", 2, "indent 1 up 0", "true 3 a\\n b\\nc"),
        ("a\\nb\\nc", 2, "indent 1 down 0", "true 4  a\\n b\\nc"),
        ("a\\nb", 2, "indent 1 down 1", "true 3 a\\n b"),
        ("a\\nb\\nc", 2, "indent 1 lines 1", "true 3 a\\n b\\nc"),
        ("a\\nb\\nc", 2, "indent 1 lines 2", "true 3 a\\n b\\n c"),
        ("a\\n b\\n c", 3, "dedent 1 linesup 2", "true 2 a\\nb\\n c"),
        // the line after the last newline is none of them, but if the cursor stands there
        ("a\\n", 0, "indent 1 lines 1", "true 1  a\\n"),
        ("a\\n", 2, "indent 1 lines 1", "true 3 a\\n "),
        ("  a\\n\\tb", 1, "dedent 4 buf", "true 0 a\\nb"),
        ("\u{3000}x", 4, "dedent 3 buf", "true 1 x"),
        (" \u{3000}x", 4, "dedent 2 buf", "true 3 \u{3000}x"),
        ("   a", 2, "dedent 2 buf", "true 0  a"),
        ("   a", 3, "dedent 2 buf", "true 1  a"),
        ("a\\n  b", 1, "dedent 1 buf", "true 1 a\\n b"),
        ("a\\n  b", 2, "dedent 9 buf", "true 2 a\\nb"),
        ("  ", 1, "dedent 9 buf", "true 0 "),
        (" a", 2, "dedent 0 buf", "true 2  a"),
    ];
    print_each(&rt, rt.alloc(), ROWS)
}
