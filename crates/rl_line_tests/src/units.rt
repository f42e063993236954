//! The groups of a record and its units, with answers that were worked out by hand.
use crate::steps::Event::{Replacement, Text};
use crate::steps::{Call, Case, go_all};
use std::test::Fail;

const GROUPS: &[Case] = &[
    (
        "a group comes and goes as one",
        &[
            (Call::Insert('a', 1), 1, "a", 1, 1, 0),
            (Call::Begin, 1, "a", 1, 2, 1),
            (Call::Insert('b', 1), 1, "ab", 2, 3, 1),
            (Call::Insert('c', 1), 1, "abc", 3, 3, 1),
            (Call::End, 1, "abc", 3, 4, 0),
            (Call::Undo(1), 1, "a", 1, 1, 0),
            (Call::Redo, 1, "abc", 3, 4, 0),
            // nothing joins what a closed group holds
            (Call::Insert('d', 1), 1, "abcd", 4, 5, 0),
        ],
    ),
    (
        "an undo goes past an open begin",
        &[
            (Call::Insert('a', 1), 1, "a", 1, 1, 0),
            (Call::Begin, 1, "a", 1, 2, 1),
            (Call::Insert('b', 1), 1, "ab", 2, 3, 1),
            (Call::Undo(2), 1, "a", 1, 1, 0),
            (Call::End, 0, "a", 1, 1, 0),
        ],
    ),
    (
        "an undo takes the open begin and the closed group before it, and a redo of an open begin the rest",
        &[
            (Call::Begin, 0, "", 0, 1, 1),
            (Call::Insert('a', 1), 1, "a", 1, 2, 1),
            (Call::Insert('-', 1), 1, "a-", 2, 3, 1),
            (Call::End, 1, "a-", 2, 4, 0),
            (Call::Begin, 4, "a-", 2, 5, 1),
            (Call::Insert('b', 1), 1, "a-b", 3, 6, 1),
            (Call::Undo(2), 1, "a-", 2, 4, 0),
            (Call::Redo, 1, "a-b", 3, 6, 1),
            (Call::Undo(3), 1, "", 0, 0, 0),
            (Call::Redo, 1, "a-", 2, 4, 0),
            (Call::Redo, 1, "a-b", 3, 6, 1),
            (Call::Redo, 0, "a-b", 3, 6, 1),
        ],
    ),
    (
        "groups nest",
        &[
            (Call::Begin, 0, "", 0, 1, 1),
            (Call::Yank("a"), 1, "a", 1, 2, 1),
            (Call::Begin, 2, "a", 1, 3, 2),
            (Call::Yank("b"), 1, "ab", 2, 4, 2),
            (Call::End, 1, "ab", 2, 6, 0),
            (Call::Undo(1), 1, "", 0, 0, 0),
            (Call::Redo, 1, "ab", 2, 6, 0),
            (Call::Replays(5), 1, "ab", 2, 6, 0),
            // the outer group is open again
            (Call::Truncate(5), 1, "ab", 2, 5, 1),
            (Call::Undo(1), 1, "a", 1, 2, 1),
            (Call::Undo(1), 1, "", 0, 1, 1),
            (Call::Undo(1), 0, "", 0, 0, 0),
        ],
    ),
    (
        "of several begins, one with nothing after it is removed, and the others are closed",
        &[
            (Call::Begin, 0, "", 0, 1, 1),
            (Call::Begin, 1, "", 0, 2, 2),
            (Call::Yank("a"), 1, "a", 1, 3, 2),
            (Call::Begin, 3, "a", 1, 4, 3),
            (Call::End, 1, "a", 1, 5, 0),
            (Call::Undo(1), 1, "", 0, 0, 0),
            (Call::Begin, 0, "", 0, 1, 1),
            (Call::Begin, 1, "", 0, 2, 2),
            (Call::End, 0, "", 0, 0, 0),
        ],
    ),
    (
        "the last group is closed alone",
        &[
            (Call::EndOne, 0, "", 0, 0, 0),
            (Call::Begin, 0, "", 0, 1, 1),
            (Call::Yank("a"), 1, "a", 1, 2, 1),
            (Call::Begin, 2, "a", 1, 3, 2),
            (Call::Yank("b"), 1, "ab", 2, 4, 2),
            (Call::Yank("c"), 1, "abc", 3, 5, 2),
            (Call::EndOne, 1, "abc", 3, 6, 1),
            // the inner group goes as one, and the outer one stays open
            (Call::Undo(1), 1, "a", 1, 2, 1),
            (Call::Redo, 1, "abc", 3, 6, 1),
            // a group that holds nothing leaves no trace
            (Call::Begin, 6, "abc", 3, 7, 2),
            (Call::EndOne, 0, "abc", 3, 6, 1),
            (Call::EndOne, 1, "abc", 3, 7, 0),
            // and is taken up again, with the inner one, but not past a change; what was undone goes
            (Call::Yank("-"), 1, "abc-", 4, 8, 0),
            (Call::Reopen, 0, "abc-", 4, 8, 0),
            (Call::Undo(1), 1, "abc", 3, 7, 0),
            (Call::Reopen, 1, "abc", 3, 6, 1),
            (Call::Redo, 0, "abc", 3, 6, 1),
            (Call::Reopen, 1, "abc", 3, 5, 2),
            (Call::Reopen, 0, "abc", 3, 5, 2),
            (Call::End, 1, "abc", 3, 7, 0),
            (Call::Undo(1), 1, "", 0, 0, 0),
        ],
    ),
    (
        "a record tells whether an undo finds a change",
        &[
            (Call::HasUndo, 0, "", 0, 0, 0),
            (Call::HasRedo, 0, "", 0, 0, 0),
            (Call::Yank("a"), 1, "a", 1, 1, 0),
            (Call::HasUndo, 1, "a", 1, 1, 0),
            (Call::HasRedo, 0, "a", 1, 1, 0),
            // an undo would take the open begin alone
            (Call::Begin, 1, "a", 1, 2, 1),
            (Call::HasUndo, 0, "a", 1, 2, 1),
            (Call::Yank("b"), 1, "ab", 2, 3, 1),
            (Call::HasUndo, 1, "ab", 2, 3, 1),
            (Call::End, 1, "ab", 2, 4, 0),
            (Call::HasUndo, 1, "ab", 2, 4, 0),
            (Call::Undo(2), 1, "", 0, 0, 0),
            (Call::HasUndo, 0, "", 0, 0, 0),
            (Call::HasRedo, 1, "", 0, 0, 0),
            // a closed group waits, and then a begin alone
            (Call::Redo, 1, "a", 1, 1, 0),
            (Call::HasRedo, 1, "a", 1, 1, 0),
            (Call::Begin, 1, "a", 1, 2, 1),
            (Call::Undo(1), 0, "a", 1, 1, 0),
            (Call::HasRedo, 0, "a", 1, 1, 0),
            // a begin waits, and a change after it
            (Call::Redo, 0, "a", 1, 2, 1),
            (Call::Yank("b"), 1, "ab", 2, 3, 1),
            (Call::Undo(2), 1, "a", 1, 1, 0),
            (Call::HasRedo, 1, "a", 1, 1, 0),
        ],
    ),
    (
        "two nested groups are open again if their ends are cut off, and are cut off themselves then",
        &[
            (Call::Begin, 0, "", 0, 1, 1),
            (Call::Yank("a"), 1, "a", 1, 2, 1),
            (Call::Begin, 2, "a", 1, 3, 2),
            (Call::Yank("b"), 1, "ab", 2, 4, 2),
            (Call::End, 1, "ab", 2, 6, 0),
            (Call::Truncate(4), 1, "ab", 2, 4, 2),
            (Call::End, 1, "ab", 2, 6, 0),
            (Call::Begin, 6, "ab", 2, 7, 1),
            (Call::Truncate(9), 1, "ab", 2, 7, 1),
            (Call::Truncate(5), 1, "ab", 2, 5, 1),
            (Call::Truncate(3), 1, "ab", 2, 3, 2),
            (Call::Truncate(1), 1, "ab", 2, 1, 1),
            (Call::End, 0, "ab", 2, 0, 0),
        ],
    ),
    (
        "begins that are undone after an open one, and redone",
        &[
            (Call::Begin, 0, "", 0, 1, 1),
            (Call::Yank("a"), 1, "a", 1, 2, 1),
            (Call::Begin, 2, "a", 1, 3, 2),
            (Call::Begin, 3, "a", 1, 4, 3),
            (Call::Yank("b"), 1, "ab", 2, 5, 3),
            (Call::Undo(2), 1, "a", 1, 3, 2),
            (Call::Undo(1), 0, "a", 1, 2, 1),
            (Call::Redo, 1, "ab", 2, 5, 3),
            (Call::End, 1, "ab", 2, 8, 0),
            (Call::Undo(1), 1, "", 0, 0, 0),
            (Call::Redo, 1, "ab", 2, 8, 0),
        ],
    ),
    (
        "a truncated record forgets the open group",
        &[
            (Call::Unheard("a"), 1, "a", 1, 0, 0),
            (Call::Begin, 0, "a", 1, 1, 1),
            (Call::Insert('b', 1), 1, "ab", 2, 2, 1),
            (Call::Replays(0), 0, "ab", 2, 2, 1),
            (Call::Back(1), 1, "a", 1, 3, 1),
            (Call::Replays(0), 1, "a", 1, 3, 1),
            (Call::Truncate(0), 1, "a", 1, 0, 0),
            (Call::End, 0, "a", 1, 0, 0),
            (Call::Undo(1), 0, "a", 1, 0, 0),
        ],
    ),
    (
        "a group without a change has no end",
        &[
            (Call::Begin, 0, "", 0, 1, 1),
            (Call::End, 0, "", 0, 0, 0),
            (Call::Begin, 0, "", 0, 1, 1),
            (Call::Told(Text(0, "Hi")), 1, "", 0, 2, 1),
            (Call::End, 1, "", 0, 3, 0),
        ],
    ),
];

#[test]
fn groups_come_and_go(rt: HostRuntime) -> Result<(), Fail> {
    go_all(&rt, rt.alloc(), GROUPS)
}

const UNITS: &[Case] = &[
    (
        "several changes become one unit",
        &[
            (Call::Insert('a', 1), 1, "a", 1, 1, 0),
            (Call::Unite(0, &["b", "c"]), 1, "abc", 3, 5, 0),
            (Call::Undo(1), 1, "a", 1, 1, 0),
            (Call::Redo, 1, "abc", 3, 5, 0),
            // one change is no group; what was put in before it is taken in if it is so long
            (Call::Unite(0, &["d"]), 1, "abcd", 4, 6, 0),
            (Call::Unite(2, &["e"]), 1, "abcde", 5, 7, 0),
            (Call::Unite(1, &["f"]), 1, "abcdef", 6, 10, 0),
            (Call::Undo(1), 1, "abcd", 4, 6, 0),
            // where nothing was recorded, what comes may join as before
            (Call::Insert('x', 1), 1, "abcdx", 5, 6, 0),
            (Call::Unite(0, &[]), 1, "abcdx", 5, 6, 0),
            (Call::Insert('y', 1), 1, "abcdxy", 6, 6, 0),
            // what is saved is not taken in
            (Call::Yank("z"), 1, "abcdxyz", 7, 7, 0),
            (Call::SetSaved, 1, "abcdxyz", 7, 7, 0),
            (Call::Unite(1, &["-"]), 1, "abcdxyz-", 8, 8, 0),
            (Call::Undo(1), 1, "abcdxyz", 7, 7, 0),
            (Call::IsSaved, 1, "abcdxyz", 7, 7, 0),
            // a group stays open around the unit
            (Call::Begin, 7, "abcdxyz", 7, 8, 1),
            (Call::Unite(1, &["!", "?"]), 1, "abcdxyz!?", 9, 12, 1),
            (Call::Undo(1), 1, "abcdxyz", 7, 8, 1),
            (Call::Redo, 1, "abcdxyz!?", 9, 12, 1),
            (Call::End, 1, "abcdxyz!?", 9, 13, 0),
            (Call::Undo(1), 1, "abcdxyz", 7, 7, 0),
            (Call::IsSaved, 1, "abcdxyz", 7, 7, 0),
        ],
    ),
    (
        "the last group is abandoned",
        &[
            (Call::Abandon, 0, "", 0, 0, 0),
            (Call::Yank("ab"), 1, "ab", 2, 1, 0),
            (Call::Begin, 1, "ab", 2, 2, 1),
            (Call::Insert('c', 1), 1, "abc", 3, 3, 1),
            (Call::Begin, 3, "abc", 3, 4, 2),
            (Call::Back(2), 1, "a", 1, 5, 2),
            (Call::EndOne, 1, "a", 1, 6, 1),
            // with the group that was closed in it, and nothing of it can be redone
            (Call::Abandon, 1, "ab", 2, 1, 0),
            (Call::Redo, 0, "ab", 2, 1, 0),
            // what comes joins the change before it
            (Call::Insert('c', 1), 1, "abc", 3, 1, 0),
            // no group around it, also if it is empty
            (Call::Begin, 1, "abc", 3, 2, 1),
            (Call::Yank("d"), 1, "abcd", 4, 3, 1),
            (Call::Begin, 3, "abcd", 4, 4, 2),
            (Call::Abandon, 1, "abcd", 4, 3, 1),
            // what was undone in it goes too
            (Call::Begin, 3, "abcd", 4, 4, 2),
            (Call::Yank("e"), 1, "abcde", 5, 5, 2),
            (Call::Undo(1), 1, "abcd", 4, 4, 2),
            (Call::Abandon, 1, "abcd", 4, 3, 1),
            (Call::Redo, 0, "abcd", 4, 3, 1),
            // a closed group is none
            (Call::End, 1, "abcd", 4, 4, 0),
            (Call::Abandon, 0, "abcd", 4, 4, 0),
            (Call::Undo(1), 1, "abc", 3, 1, 0),
        ],
    ),
    (
        "undos lead where redos led: an insertion, a deletion and a replacement with their cursors, there and back",
        &[
            (Call::Unheard("abcd"), 1, "abcd", 4, 0, 0),
            (Call::SetPos(2), 1, "abcd", 2, 0, 0),
            (Call::KeepUndone, 0, "abcd", 2, 0, 0),
            (Call::Back(1), 1, "acd", 1, 1, 0),
            (Call::Yank("zz"), 0, "azzcd", 3, 2, 0),
            (Call::Replace(3, 5, "Y"), 1, "azzY", 4, 3, 0),
            (Call::Undo(2), 1, "acd", 1, 1, 0),
            (Call::KeepUndone, 1, "acd", 1, 5, 0),
            (Call::Redo, 0, "acd", 1, 5, 0),
            (Call::Undo(1), 1, "azzcd", 3, 4, 0),
            (Call::Undo(1), 1, "azzY", 4, 3, 0),
            // and all of them again, with what was undone of them
            (Call::Undo(3), 1, "abcd", 2, 0, 0),
            (Call::KeepUndone, 1, "abcd", 2, 10, 0),
            (Call::Undo(1), 1, "acd", 1, 9, 0),
            (Call::Undo(2), 1, "azzY", 4, 7, 0),
            (Call::Undo(2), 1, "acd", 1, 5, 0),
            // on to what was recorded before
            (Call::Undo(3), 1, "azzcd", 3, 2, 0),
            (Call::Undo(2), 1, "abcd", 2, 0, 0),
            // redos go there and back
            (Call::Redo, 1, "acd", 1, 1, 0),
            (Call::Redo, 1, "azzcd", 3, 2, 0),
            (Call::Redo, 1, "azzY", 4, 3, 0),
            (Call::Redo, 1, "azzcd", 3, 4, 0),
            (Call::Redo, 1, "acd", 1, 5, 0),
            // a deletion that would join the last inverse adds an entry
            (Call::KeepUndone, 1, "acd", 1, 15, 0),
            (Call::Back(1), 1, "cd", 0, 16, 0),
        ],
    ),
    (
        "what was told no cursors goes past the text that comes, as a redo does",
        &[
            (Call::Unheard("Hi"), 1, "Hi", 2, 0, 0),
            (Call::Told(Replacement(1, "ello", "i")), 1, "Hi", 2, 1, 0),
            (Call::Undo(1), 1, "Hello", 5, 0, 0),
            (Call::KeepUndone, 1, "Hello", 5, 2, 0),
            (Call::Undo(1), 1, "Hi", 2, 1, 0),
            (Call::Undo(1), 1, "Hello", 5, 0, 0),
        ],
    ),
    (
        "kept groups are closed",
        &[
            (Call::Yank("a"), 1, "a", 1, 1, 0),
            (Call::Begin, 1, "a", 1, 2, 1),
            (Call::Yank("b"), 1, "ab", 2, 3, 1),
            (Call::Replace(0, 1, "xy"), 1, "xyb", 2, 4, 1),
            (Call::EndOne, 1, "xyb", 2, 5, 0),
            (Call::Yank("-"), 0, "xy-b", 3, 6, 0),
            (Call::Undo(2), 1, "a", 1, 1, 0),
            (Call::KeepUndone, 1, "a", 1, 11, 0),
            (Call::Undo(1), 1, "xyb", 2, 7, 0),
            (Call::Undo(1), 1, "xy-b", 3, 6, 0),
            (Call::Undo(2), 1, "a", 1, 1, 0),
            (Call::Undo(1), 1, "", 0, 0, 0),
        ],
    ),
    (
        "two open ones are kept, of which the inner has nothing, in one that stays open",
        &[
            (Call::Begin, 0, "", 0, 1, 1),
            (Call::Yank("a"), 1, "a", 1, 2, 1),
            (Call::Begin, 2, "a", 1, 3, 2),
            (Call::Yank("b"), 1, "ab", 2, 4, 2),
            (Call::Begin, 4, "ab", 2, 5, 3),
            (Call::Undo(3), 1, "a", 1, 2, 1),
            (Call::KeepUndone, 1, "a", 1, 8, 1),
            (Call::Undo(1), 1, "ab", 2, 5, 1),
            (Call::Undo(1), 1, "a", 1, 2, 1),
            (Call::Redo, 1, "ab", 2, 5, 1),
            (Call::EndOne, 1, "ab", 2, 6, 0),
            (Call::Undo(1), 1, "", 0, 0, 0),
        ],
    ),
    (
        "a begin alone leaves no entry when it is kept",
        &[
            (Call::Yank("a"), 1, "a", 1, 1, 0),
            (Call::Begin, 1, "a", 1, 2, 1),
            (Call::Undo(1), 0, "a", 1, 1, 0),
            (Call::KeepUndone, 1, "a", 1, 1, 0),
            (Call::Redo, 0, "a", 1, 1, 0),
            (Call::KeepUndone, 0, "a", 1, 1, 0),
        ],
    ),
];

#[test]
fn units_come_and_go(rt: HostRuntime) -> Result<(), Fail> {
    go_all(&rt, rt.alloc(), UNITS)
}
