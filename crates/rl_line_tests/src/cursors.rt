//! The cursors that a record is told, and gives back, with answers that were worked out by hand: cursors that a line would
//! not tell, so that only the record's own rule leads to them.
use crate::steps::Event::{Char, Cursors, Deletion, Kill, Replacement, Text};
use crate::steps::{AHEAD, BACK, Call, Case, go_all};
use std::test::Fail;

// "b", inserted between "a" and "c".
const PUT: Call = Call::Told(Text(1, "b"));

// The cursor before that and after it.
const TOLD: Call = Call::Told(Cursors(0, 3));

// The same, of another change.
const ELSEWHERE: Call = Call::Told(Cursors(2, 2));

const CASES: &[Case] = &[
    (
        "cursors are given back",
        &[
            (Call::Unheard("abc"), 1, "abc", 3, 0, 0),
            (PUT, 1, "abc", 3, 1, 0),
            (TOLD, 1, "abc", 3, 1, 0),
            // the change has its cursors
            (ELSEWHERE, 1, "abc", 3, 1, 0),
            (Call::Undo(1), 1, "ac", 0, 0, 0),
            (Call::Redo, 1, "abc", 3, 1, 0),
            (Call::Undo(1), 1, "ac", 0, 0, 0),
        ],
    ),
    (
        "of two changes, the first of which has none",
        &[
            (Call::Unheard("abcd"), 1, "abcd", 4, 0, 0),
            (PUT, 1, "abcd", 4, 1, 0),
            (Call::Told(Text(3, "d")), 1, "abcd", 4, 2, 0),
            (Call::Told(Cursors(2, 0)), 1, "abcd", 4, 2, 0),
            (Call::Undo(1), 1, "abc", 2, 1, 0),
            (Call::Redo, 1, "abcd", 0, 2, 0),
            (Call::Undo(2), 1, "ac", 1, 0, 0),
            (Call::Redo, 1, "abc", 2, 1, 0),
            (Call::Redo, 1, "abcd", 0, 2, 0),
        ],
    ),
    (
        "cursors leave what was undone",
        &[
            (Call::Unheard("a"), 1, "a", 1, 0, 0),
            (Call::Told(Char(0, 'a')), 1, "a", 1, 1, 0),
            (Call::Undo(1), 1, "", 0, 0, 0),
            (Call::Told(Cursors(0, 1)), 1, "", 0, 0, 0),
            (Call::Redo, 1, "a", 1, 1, 0),
            (Call::Undo(1), 1, "", 0, 0, 0),
            // nor do they become its own
            (Call::Told(Cursors(0, 0)), 1, "", 0, 0, 0),
            (Call::Redo, 1, "a", 1, 1, 0),
        ],
    ),
    (
        "nor do they replace those that it has",
        &[
            (Call::Unheard("ab"), 1, "ab", 2, 0, 0),
            (Call::Told(Char(0, 'a')), 1, "ab", 2, 1, 0),
            (Call::Told(Cursors(0, 1)), 1, "ab", 2, 1, 0),
            (Call::Undo(1), 1, "b", 0, 0, 0),
            (Call::Told(Cursors(1, 2)), 1, "b", 0, 0, 0),
            (Call::Redo, 1, "ab", 1, 1, 0),
        ],
    ),
    (
        "an empty text has no cursors",
        &[
            (Call::Unheard("abc"), 1, "abc", 3, 0, 0),
            (PUT, 1, "abc", 3, 1, 0),
            (TOLD, 1, "abc", 3, 1, 0),
            (Call::Told(Text(2, "")), 1, "abc", 3, 1, 0),
            (ELSEWHERE, 1, "abc", 3, 1, 0),
            (Call::Undo(1), 1, "ac", 0, 0, 0),
            (Call::Redo, 1, "abc", 3, 1, 0),
        ],
    ),
    (
        "nor has the change before it, if it was told none in time",
        &[
            (Call::Unheard("abc"), 1, "abc", 3, 0, 0),
            (PUT, 1, "abc", 3, 1, 0),
            (Call::Told(Deletion(2, "", BACK)), 1, "abc", 3, 1, 0),
            (TOLD, 1, "abc", 3, 1, 0),
            (Call::Undo(1), 1, "ac", 1, 0, 0),
            (Call::Redo, 1, "abc", 2, 1, 0),
        ],
    ),
    (
        "characters that join keep the first cursor",
        &[
            (Call::Unheard("abcd"), 1, "abcd", 4, 0, 0),
            (Call::Told(Char(1, 'b')), 1, "abcd", 4, 1, 0),
            (Call::Told(Cursors(0, 2)), 1, "abcd", 4, 1, 0),
            (Call::Told(Char(2, 'c')), 1, "abcd", 4, 1, 0),
            (Call::Told(Cursors(2, 4)), 1, "abcd", 4, 1, 0),
            (Call::Undo(1), 1, "ad", 0, 0, 0),
            (Call::Redo, 1, "abcd", 4, 1, 0),
        ],
    ),
    (
        "a change that joins removes the cursors",
        &[
            (Call::Unheard("abcd"), 1, "abcd", 4, 0, 0),
            (Call::Told(Char(1, 'b')), 1, "abcd", 4, 1, 0),
            (Call::Told(Cursors(0, 2)), 1, "abcd", 4, 1, 0),
            (Call::Told(Char(2, 'c')), 1, "abcd", 4, 1, 0),
            (Call::Undo(1), 1, "ad", 1, 0, 0),
            (Call::Redo, 1, "abcd", 3, 1, 0),
        ],
    ),
    (
        "a joined change without cursors gets none",
        &[
            (Call::Unheard("abcd"), 1, "abcd", 4, 0, 0),
            (Call::Told(Char(1, 'b')), 1, "abcd", 4, 1, 0),
            (Call::Told(Char(2, 'c')), 1, "abcd", 4, 1, 0),
            (Call::Told(Cursors(0, 4)), 1, "abcd", 4, 1, 0),
            (Call::Undo(1), 1, "ad", 1, 0, 0),
            (Call::Redo, 1, "abcd", 3, 1, 0),
        ],
    ),
    (
        "deletions that join keep the first cursor",
        &[
            (Call::Unheard("ad"), 1, "ad", 2, 0, 0),
            (Call::Told(Deletion(1, "b", AHEAD)), 1, "ad", 2, 1, 0),
            (Call::Told(Cursors(4, 0)), 1, "ad", 2, 1, 0),
            (Call::Told(Deletion(1, "c", AHEAD)), 1, "ad", 2, 1, 0),
            (Call::Told(Cursors(0, 2)), 1, "ad", 2, 1, 0),
            (Call::Undo(1), 1, "abcd", 4, 0, 0),
            (Call::Redo, 1, "ad", 2, 1, 0),
        ],
    ),
    (
        "replacements that join keep the first cursor",
        &[
            (Call::Unheard("axyd"), 1, "axyd", 4, 0, 0),
            (Call::Told(Replacement(1, "b", "x")), 1, "axyd", 4, 1, 0),
            (Call::Told(Cursors(0, 1)), 1, "axyd", 4, 1, 0),
            (Call::Told(Replacement(2, "c", "y")), 1, "axyd", 4, 1, 0),
            (Call::Told(Cursors(1, 4)), 1, "axyd", 4, 1, 0),
            (Call::Undo(1), 1, "abcd", 0, 0, 0),
            (Call::Redo, 1, "axyd", 4, 1, 0),
        ],
    ),
    (
        "kills and questions leave a change its cursors",
        &[
            (Call::Unheard("abc"), 1, "abc", 3, 0, 0),
            (PUT, 1, "abc", 3, 1, 0),
            (Call::Told(Kill), 1, "abc", 3, 1, 0),
            (Call::CanUndo, 1, "abc", 3, 1, 0),
            (Call::CanRedo, 1, "abc", 3, 1, 0),
            (Call::Replays(1), 1, "abc", 3, 1, 0),
            (TOLD, 1, "abc", 3, 1, 0),
            (Call::Undo(1), 1, "ac", 0, 0, 0),
            (Call::Redo, 1, "abc", 3, 1, 0),
        ],
    ),
    (
        "cursors come too late after an end",
        &[
            (Call::Unheard("abc"), 1, "abc", 3, 0, 0),
            (PUT, 1, "abc", 3, 1, 0),
            (Call::End, 0, "abc", 3, 1, 0),
            (TOLD, 1, "abc", 3, 1, 0),
            (Call::Undo(1), 1, "ac", 1, 0, 0),
            (Call::Redo, 1, "abc", 2, 1, 0),
        ],
    ),
    (
        "cursors come too late after a begin",
        &[
            (Call::Unheard("abc"), 1, "abc", 3, 0, 0),
            (PUT, 1, "abc", 3, 1, 0),
            (Call::Begin, 1, "abc", 3, 2, 1),
            (TOLD, 1, "abc", 3, 2, 1),
            (Call::Undo(2), 1, "ac", 1, 0, 0),
            (Call::Redo, 1, "abc", 2, 1, 0),
        ],
    ),
    (
        "cursors come too late after a truncation",
        &[
            (Call::Unheard("abc"), 1, "abc", 3, 0, 0),
            (PUT, 1, "abc", 3, 1, 0),
            (Call::Truncate(9), 1, "abc", 3, 1, 0),
            (TOLD, 1, "abc", 3, 1, 0),
            (Call::Undo(1), 1, "ac", 1, 0, 0),
            (Call::Redo, 1, "abc", 2, 1, 0),
        ],
    ),
    (
        "cursors come too late after an undo",
        &[
            (Call::Unheard("abcd"), 1, "abcd", 4, 0, 0),
            (PUT, 1, "abcd", 4, 1, 0),
            (Call::Told(Text(3, "d")), 1, "abcd", 4, 2, 0),
            (Call::Undo(1), 1, "abc", 3, 1, 0),
            (TOLD, 1, "abc", 3, 1, 0),
            (Call::Undo(1), 1, "ac", 1, 0, 0),
            (Call::Redo, 1, "abc", 2, 1, 0),
            // and after a redo
            (TOLD, 1, "abc", 2, 1, 0),
            (Call::Undo(1), 1, "ac", 1, 0, 0),
        ],
    ),
    (
        "cursors stand between two characters of the text to which a redo leads",
        &[
            (Call::Told(Deletion(0, "a", AHEAD)), 1, "", 0, 1, 0),
            (Call::Told(Cursors(0, 7)), 1, "", 0, 1, 0),
            (Call::Undo(1), 1, "a", 0, 0, 0),
            (Call::CanRedo, 0, "a", 0, 0, 0),
        ],
    ),
    (
        "cursors stand within the text",
        &[
            (Call::Unheard("a"), 1, "a", 1, 0, 0),
            (Call::Told(Text(0, "a")), 1, "a", 1, 1, 0),
            (Call::CanUndo, 1, "a", 1, 1, 0),
            (Call::Told(Cursors(1, 1)), 1, "a", 1, 1, 0),
            (Call::CanUndo, 0, "a", 1, 1, 0),
            // the texts are led to all the same
            (Call::Replays(1), 1, "a", 1, 1, 0),
        ],
    ),
    (
        "cursors stand in no character",
        &[
            (Call::Unheard("\u{e9}"), 1, "\u{e9}", 2, 0, 0),
            (Call::Told(Deletion(2, "a", AHEAD)), 1, "\u{e9}", 2, 1, 0),
            (Call::Told(Cursors(1, 2)), 1, "\u{e9}", 2, 1, 0),
            (Call::CanUndo, 0, "\u{e9}", 2, 1, 0),
        ],
    ),
    (
        "they do so after each change, and not the last alone",
        &[
            (Call::Unheard("ab"), 1, "ab", 2, 0, 0),
            (Call::Told(Text(0, "a")), 1, "ab", 2, 1, 0),
            (Call::Told(Cursors(0, 1)), 1, "ab", 2, 1, 0),
            (Call::Told(Text(1, "b")), 1, "ab", 2, 2, 0),
            (Call::Told(Cursors(2, 2)), 1, "ab", 2, 2, 0),
            (Call::CanUndo, 0, "ab", 2, 2, 0),
        ],
    ),
];

#[test]
fn cursors_are_given_back(rt: HostRuntime) -> Result<(), Fail> {
    go_all(&rt, rt.alloc(), CASES)
}
