//! Edits of words with answers that were worked out by hand, as lines of scripts.
use crate::script::{Lines, print_each};
use std::test::Fail;

#[test]
fn words_are_recased(rt: HostRuntime) -> Result<(), Fail> {
    const ROWS: &[Lines] = &[
        ("test", 1, "case cap", "true 4 tEst"),
        ("1ab", 0, "case cap", "true 3 1ab"),
        ("a-bC d", 1, "case low", "true 4 a-bc d"),
        ("ab cD", 2, "case cap", "true 5 ab Cd"),
        ("ab", 0, "case up", "true 2 AB"),
        ("a, ", 1, "case up", "false 1 a, "),
        ("", 0, "case cap", "false 0 "),
        ("a ßeta  c", 1, "case up", "true 7 a SSETA  c"),
        ("a ßetA  c", 1, "case low", "true 7 a ßeta  c"),
        ("a ßETA  c", 1, "case cap", "true 7 a SSeta  c"),
        // all of the first cluster
        ("α\u{345}β", 0, "case cap", "true 6 \u{391}\u{399}β"),
    ];
    print_each(&rt, rt.alloc(), ROWS)
}
