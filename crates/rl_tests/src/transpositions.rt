//! Transpositions with answers that were worked out by hand, as lines of scripts.
use crate::script::{Lines, print_each};
use std::test::Fail;

#[test]
fn clusters_and_words_are_transposed(rt: HostRuntime) -> Result<(), Fail> {
    const ROWS: &[Lines] = &[
        ("aßc", 1, "tchars", "true 3 ßac"),
        ("aßc", 3, "tchars", "true 4 acß"),
        ("aßc", 4, "tchars", "true 4 acß"),
        ("aßc", 0, "tchars", "false 0 aßc"),
        ("a\\n\u{301}", 1, "tchars", "true 4 \\na\u{301}"),
        ("e\u{301}", 1, "tchars", "false 1 e\u{301}"),
        ("e\u{301}", 3, "tchars", "false 3 e\u{301}"),
        ("", 0, "tchars", "false 0 "),
        ("a\\r\\n", 2, "tchars", "true 3 a\\n\\r"),
        ("\\r\\n", 1, "tchars", "false 1 \\r\\n"),
        ("ßeta / δelta__", 15, "twords 1", "true 16 δelta__ / ßeta"),
        ("ßeta / δelta", 14, "twords 1", "true 14 δelta / ßeta"),
        ("ab cd", 5, "twords 1", "true 5 cd ab"),
        ("ab cd", 0, "twords 2", "true 5 cd ab"),
        ("ab", 2, "twords 1", "false 2 ab"),
        ("ßeta / __", 9, "twords 1", "false 5 ßeta / __"),
        (" / δelta", 8, "twords 1", "false 9  / δelta"),
        ("", 0, "twords 1", "false 0 "),
    ];
    print_each(&rt, rt.alloc(), ROWS)
}
