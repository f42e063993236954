//! A bound of the record: what goes of it, and what an undo, a redo and a truncation find then.
use crate::steps::Event::{Char, Cursors};
use crate::steps::{Call, Case, go_all};
use std::test::Fail;

const ANY: usize = usize::MAX;

const CASES: &[Case] = &[
    (
        "the oldest changes are forgotten",
        &[
            (Call::Unheard("x"), 1, "x", 1, 0, 0),
            (Call::Yank("aa"), 1, "xaa", 3, 1, 0),
            (Call::Yank("b"), 1, "xaab", 4, 2, 0),
            (Call::Yank("c"), 1, "xaabc", 5, 3, 0),
            (Call::Undo(1), 1, "xaab", 4, 2, 0),
            // what is within the bound stays, and what was undone does too
            (Call::Forget(2, ANY), 1, "xaab", 4, 2, 0),
            (Call::Forget(2, 3), 1, "xaab", 4, 2, 0),
            (Call::Forget(1, ANY), 1, "xaab", 4, 1, 0),
            (Call::Redo, 1, "xaabc", 5, 2, 0),
            // an undo goes back to the text that is left as the start
            (Call::Undo(9), 1, "xaa", 3, 0, 0),
            (Call::Undo(1), 0, "xaa", 3, 0, 0),
            (Call::Redo, 1, "xaab", 4, 1, 0),
            (Call::Replays(0), 0, "xaab", 4, 1, 0),
            (Call::Truncate(1), 1, "xaab", 4, 1, 0),
            // a bound of nothing; what comes then joins nothing
            (Call::Forget(0, ANY), 1, "xaab", 4, 0, 0),
            (Call::Undo(1), 0, "xaab", 4, 0, 0),
            (Call::Told(Char(4, 'c')), 1, "xaab", 4, 1, 0),
            (Call::Forget(0, ANY), 1, "xaab", 4, 0, 0),
            (Call::Told(Cursors(1, 1)), 1, "xaab", 4, 0, 0),
            (Call::Insert('d', 1), 1, "xaabd", 5, 1, 0),
            (Call::Truncate(0), 1, "xaabd", 5, 0, 0),
            (Call::Forget(0, 0), 1, "xaabd", 5, 0, 0),
        ],
    ),
    (
        "the texts of a change are what it took out and what it put in: four bytes, two and three",
        &[
            (Call::Unheard("abcd"), 1, "abcd", 4, 0, 0),
            (Call::Replace(1, 3, "é"), 1, "aéd", 3, 1, 0),
            (Call::Back(1), 1, "ad", 1, 2, 0),
            (Call::Yank("xyz"), 0, "axyzd", 4, 3, 0),
            (Call::Forget(ANY, 9), 1, "axyzd", 4, 3, 0),
            (Call::Forget(ANY, 8), 1, "axyzd", 4, 2, 0),
            (Call::Forget(3, 4), 1, "axyzd", 4, 1, 0),
            (Call::Undo(9), 1, "ad", 1, 0, 0),
            (Call::Redo, 1, "axyzd", 4, 1, 0),
            (Call::Forget(1, 2), 1, "axyzd", 4, 0, 0),
            (Call::Undo(1), 0, "axyzd", 4, 0, 0),
        ],
    ),
    (
        "what was undone and is kept counts too",
        &[
            (Call::Yank("a"), 1, "a", 1, 1, 0),
            (Call::Yank("b"), 1, "ab", 2, 2, 0),
            (Call::Undo(1), 1, "a", 1, 1, 0),
            (Call::KeepUndone, 1, "a", 1, 3, 0),
            (Call::Forget(2, ANY), 1, "a", 1, 2, 0),
            (Call::Undo(1), 1, "ab", 2, 1, 0),
            (Call::Undo(9), 1, "a", 1, 0, 0),
        ],
    ),
    (
        "what was counted before an undo, and joined after it, is counted anew",
        &[
            (Call::Yank("ab"), 1, "ab", 2, 1, 0),
            (Call::Yank("c"), 1, "abc", 3, 2, 0),
            (Call::Forget(9, 9), 1, "abc", 3, 2, 0),
            (Call::Undo(1), 1, "ab", 2, 1, 0),
            (Call::Insert('d', 1), 1, "abd", 3, 1, 0),
            (Call::Forget(9, 3), 1, "abd", 3, 1, 0),
            (Call::Forget(9, 2), 1, "abd", 3, 0, 0),
        ],
    ),
    (
        "a save is forgotten",
        &[
            (Call::Yank("a"), 1, "a", 1, 1, 0),
            (Call::Yank("b"), 1, "ab", 2, 2, 0),
            (Call::SetSaved, 1, "ab", 2, 2, 0),
            (Call::Yank("c"), 1, "abc", 3, 3, 0),
            (Call::Forget(2, ANY), 1, "abc", 3, 2, 0),
            (Call::Undo(1), 1, "ab", 2, 1, 0),
            (Call::IsSaved, 1, "ab", 2, 1, 0),
            // all before the save is gone, and an undo comes back to it still
            (Call::Forget(0, ANY), 1, "ab", 2, 0, 0),
            (Call::IsSaved, 1, "ab", 2, 0, 0),
            (Call::Redo, 1, "abc", 3, 1, 0),
            (Call::IsSaved, 0, "abc", 3, 1, 0),
            // what came after it is gone too
            (Call::Forget(0, ANY), 1, "abc", 3, 0, 0),
            (Call::IsSaved, 0, "abc", 3, 0, 0),
        ],
    ),
    (
        "no part of a group is forgotten",
        &[
            (Call::Yank("a"), 1, "a", 1, 1, 0),
            (Call::Begin, 1, "a", 1, 2, 1),
            (Call::Yank("b"), 1, "ab", 2, 3, 1),
            (Call::Yank("c"), 1, "abc", 3, 4, 1),
            (Call::End, 1, "abc", 3, 5, 0),
            (Call::Yank("d"), 1, "abcd", 4, 6, 0),
            (Call::Forget(5, ANY), 1, "abcd", 4, 5, 0),
            (Call::Undo(2), 1, "a", 1, 0, 0),
            (Call::Redo, 1, "abc", 3, 4, 0),
            (Call::Redo, 1, "abcd", 4, 5, 0),
            // one entry too many takes the whole group
            (Call::Forget(4, ANY), 1, "abcd", 4, 1, 0),
            (Call::Undo(9), 1, "abc", 3, 0, 0),
        ],
    ),
    (
        "an open group stays, whatever the bound, until it is closed",
        &[
            (Call::Yank("a"), 1, "a", 1, 1, 0),
            (Call::Begin, 1, "a", 1, 2, 1),
            (Call::Yank("b"), 1, "ab", 2, 3, 1),
            (Call::Begin, 3, "ab", 2, 4, 2),
            (Call::Yank("c"), 1, "abc", 3, 5, 2),
            (Call::Forget(0, 0), 1, "abc", 3, 4, 2),
            (Call::Forget(0, 0), 1, "abc", 3, 4, 2),
            (Call::Undo(1), 1, "ab", 2, 3, 2),
            (Call::Redo, 1, "abc", 3, 4, 2),
            (Call::End, 1, "abc", 3, 6, 0),
            (Call::Reopen, 1, "abc", 3, 5, 1),
            (Call::Forget(0, 0), 1, "abc", 3, 5, 1),
            (Call::Yank("d"), 1, "abcd", 4, 6, 1),
            (Call::End, 1, "abcd", 4, 7, 0),
            (Call::Forget(7, 3), 1, "abcd", 4, 7, 0),
            (Call::Forget(7, 2), 1, "abcd", 4, 0, 0),
            (Call::Undo(1), 0, "abcd", 4, 0, 0),
        ],
    ),
];

#[test]
fn the_oldest_changes_are_forgotten(rt: HostRuntime) -> Result<(), Fail> {
    go_all(&rt, rt.alloc(), CASES)
}
