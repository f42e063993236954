//! Which changes join in the record, with answers that were worked out by hand, as lines of scripts.
use crate::script::{Lines, print_each};
use std::test::Fail;

// One undo takes back all that joined, and a mark tells how many entries are left.
#[test]
fn neighbouring_changes_join(rt: HostRuntime) -> Result<(), Fail> {
    const ROWS: &[Lines] = &[
        (
            "",
            0,
            "ins 1  \nins 1 a\nins 1 ß\nundo 1\nbegin",
            "true 1  \ntrue 2  a\ntrue 4  aß\ntrue 0 \nmark:0 0 ",
        ),
        (
            "",
            0,
            "ins 1 a\nins 1  \nins 1 a\nundo 1\nbegin",
            "true 1 a\ntrue 2 a \ntrue 3 a a\ntrue 1 a\nmark:1 1 a",
        ),
        (
            "",
            0,
            "ins 1 a\nins 1 -\nins 1 -\nundo 1\nbegin",
            "true 1 a\ntrue 2 a-\ntrue 3 a--\ntrue 2 a-\nmark:2 2 a-",
        ),
        (
            "Hello",
            3,
            "back 1\nback 1\nundo 1\nbegin",
            "true 2 Helo\ntrue 1 Hlo\ntrue 3 Hello\nmark:0 3 Hello",
        ),
        (
            "a,b",
            0,
            "del 1\ndel 1\ndel 1\nundo 1\nbegin",
            "text:a 0 ,b\ntext:, 0 b\ntext:b 0 \ntrue 0 ,b\nmark:1 0 ,b",
        ),
        (
            "abc",
            1,
            "del 1\nback 1\ndel 1\nundo 1\nbegin",
            "text:b 1 ac\ntrue 0 c\ntext:c 0 \ntrue 1 abc\nmark:0 1 abc",
        ),
        (
            "a e\u{301}",
            5,
            "back 1\nback 1\nback 1\nundo 1\nbegin",
            "true 2 a \ntrue 1 a\ntrue 0 \ntrue 2 a \nmark:1 2 a ",
        ),
        (
            "Hello",
            4,
            "kill bchar 1\nkill bchar 1\nbegin",
            "true 3 Helo\ntrue 2 Heo\nmark:1 2 Heo",
        ),
        (
            "ab",
            1,
            "ins 1 c\nback 1\nundo 1\nbegin",
            "false 2 acb\ntrue 1 ab\ntrue 2 acb\nmark:1 2 acb",
        ),
        (
            "",
            0,
            "ins 1 a\npart\nins 1 a\nundo 1\nbegin",
            "true 1 a\nok 1 a\ntrue 2 aa\ntrue 1 a\nmark:1 1 a",
        ),
        (
            "ab",
            2,
            "back 1\npart\nback 1\nback 1\nundo 1\nbegin",
            "true 1 a\nok 1 a\ntrue 0 \nfalse 0 \ntrue 1 a\nmark:1 1 a",
        ),
    ];
    print_each(&rt, rt.alloc(), ROWS)
}
