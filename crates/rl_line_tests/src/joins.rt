//! Which changes join in the record, with answers that were worked out by hand.
use crate::steps::Event::{Char, Deletion, Kill, Replacement, Text};
use crate::steps::{AHEAD, BACK, Call, Case, go_all};
use std::test::Fail;

const CASES: &[Case] = &[
    (
        "a part stands between characters that would join, also if nothing goes in right after it",
        &[
            (Call::Insert('a', 1), 1, "a", 1, 1, 0),
            (Call::Part, 1, "a", 1, 1, 0),
            (Call::Told(Text(0, "")), 1, "a", 1, 1, 0),
            (Call::Insert('a', 1), 1, "aa", 2, 2, 0),
            (Call::Undo(1), 1, "a", 1, 1, 0),
        ],
    ),
    (
        "characters that were told join",
        &[
            (Call::Told(Char(0, 'H')), 1, "", 0, 1, 0),
            (Call::Told(Char(1, 'i')), 1, "", 0, 1, 0),
            (Call::Told(Char(0, ' ')), 1, "", 0, 2, 0),
            (Call::Told(Char(1, 'a')), 1, "", 0, 2, 0),
            (Call::Told(Char(usize::MAX, 'b')), 1, "", 0, 3, 0),
            (Call::Told(Char(0, 'c')), 1, "", 0, 4, 0),
        ],
    ),
    (
        "changes that were recorded are undone",
        &[
            (Call::Unheard("xy"), 1, "xy", 2, 0, 0),
            (Call::SetPos(0), 1, "xy", 0, 0, 0),
            (Call::Recorded(Char(2, 'c')), 1, "xy", 0, 1, 0),
            (Call::Recorded(Char(3, 'd')), 1, "xy", 0, 1, 0),
            (Call::Recorded(Char(4, '-')), 1, "xy", 0, 2, 0),
            (Call::Recorded(Char(5, 'e')), 1, "xy", 0, 2, 0),
            (Call::Recorded(Char(0, 'f')), 1, "xy", 0, 3, 0),
            (Call::Recorded(Text(1, "")), 1, "xy", 0, 3, 0),
            // a text joins nothing, and a character joins it
            (Call::Recorded(Text(1, "g")), 1, "xy", 0, 4, 0),
            (Call::Recorded(Char(2, 'h')), 1, "xy", 0, 4, 0),
            (Call::Recorded(Deletion(3, "a", AHEAD)), 1, "xy", 0, 5, 0),
            (Call::Recorded(Deletion(3, "b", AHEAD)), 1, "xy", 0, 5, 0),
            (Call::Recorded(Deletion(2, "h", AHEAD)), 1, "xy", 0, 5, 0),
            (Call::Recorded(Deletion(2, "", AHEAD)), 1, "xy", 0, 5, 0),
            (Call::Recorded(Deletion(2, "cd", AHEAD)), 1, "xy", 0, 6, 0),
            (Call::Recorded(Deletion(2, "-", AHEAD)), 1, "xy", 0, 7, 0),
            (Call::Recorded(Deletion(2, "e", AHEAD)), 1, "xy", 0, 7, 0),
            (Call::Recorded(Replacement(0, "f", "xy")), 1, "xy", 0, 8, 0),
            (Call::Recorded(Replacement(2, "g", "")), 1, "xy", 0, 8, 0),
            (Call::Recorded(Replacement(2, "", "")), 1, "xy", 0, 8, 0),
            // an empty replacement is an entry
            (Call::Recorded(Replacement(0, "", "")), 1, "xy", 0, 9, 0),
            (Call::Undo(65535), 1, "ab", 2, 0, 0),
        ],
    ),
    (
        "deletions that were told join",
        &[
            (Call::Unheard("Hlo"), 1, "Hlo", 3, 0, 0),
            (Call::SetPos(0), 1, "Hlo", 0, 0, 0),
            (Call::Told(Deletion(2, "l", AHEAD)), 1, "Hlo", 0, 1, 0),
            (Call::Told(Deletion(1, "e", BACK)), 1, "Hlo", 0, 1, 0),
            (Call::Undo(1), 1, "Hello", 3, 0, 0),
        ],
    ),
    (
        "a comma joins neither letter",
        &[
            (Call::Told(Deletion(0, "a", AHEAD)), 1, "", 0, 1, 0),
            (Call::Told(Deletion(0, ",", AHEAD)), 1, "", 0, 2, 0),
            (Call::Told(Deletion(0, "b", AHEAD)), 1, "", 0, 2, 0),
            (Call::Undo(1), 1, ",b", 2, 1, 0),
            (Call::Undo(1), 1, "a,b", 1, 0, 0),
        ],
    ),
    (
        "deletions that were told the other way join",
        &[
            (Call::Unheard("Hlo"), 1, "Hlo", 3, 0, 0),
            (Call::SetPos(0), 1, "Hlo", 0, 0, 0),
            (Call::Told(Deletion(1, "e", AHEAD)), 1, "Hlo", 0, 1, 0),
            (Call::Told(Deletion(1, "l", BACK)), 1, "Hlo", 0, 1, 0),
            (Call::Undo(1), 1, "Hello", 3, 0, 0),
        ],
    ),
    (
        "replacements join",
        &[
            (Call::Unheard("Hello!"), 1, "Hello!", 6, 0, 0),
            (Call::SetPos(0), 1, "Hello!", 0, 0, 0),
            (Call::Replace(1, 4, "i"), 1, "Hio!", 2, 1, 0),
            (Call::Replace(2, 3, ""), 1, "Hi!", 2, 1, 0),
            (Call::Undo(1), 1, "Hello!", 0, 0, 0),
            (Call::Redo, 1, "Hi!", 2, 1, 0),
        ],
    ),
    (
        "replacements that were told without cursors join",
        &[
            (Call::Unheard("Hi!"), 1, "Hi!", 3, 0, 0),
            (Call::Told(Replacement(1, "ell", "i")), 1, "Hi!", 3, 1, 0),
            (Call::Told(Replacement(2, "o", "")), 1, "Hi!", 3, 1, 0),
            (Call::Undo(1), 1, "Hello!", 5, 0, 0),
            (Call::Redo, 1, "Hi!", 2, 1, 0),
        ],
    ),
    (
        "a replacement that was told comes and goes",
        &[
            (Call::Unheard("Hi!"), 1, "Hi!", 3, 0, 0),
            (Call::SetPos(0), 1, "Hi!", 0, 0, 0),
            (Call::Told(Replacement(1, "ello", "i")), 1, "Hi!", 0, 1, 0),
            (Call::Undo(1), 1, "Hello!", 5, 0, 0),
            // a kill that takes nothing leaves what was undone
            (Call::Told(Kill), 1, "Hello!", 5, 0, 0),
            (Call::Redo, 1, "Hi!", 2, 1, 0),
            (Call::Undo(1), 1, "Hello!", 5, 0, 0),
            // an empty deletion is no entry, and still drops it
            (Call::Told(Deletion(0, "", AHEAD)), 1, "Hello!", 5, 0, 0),
            (Call::Redo, 0, "Hello!", 5, 0, 0),
            // an empty replacement is an entry
            (Call::Told(Replacement(0, "", "")), 1, "Hello!", 5, 1, 0),
        ],
    ),
];

#[test]
fn neighbouring_changes_join(rt: HostRuntime) -> Result<(), Fail> {
    go_all(&rt, rt.alloc(), CASES)
}
