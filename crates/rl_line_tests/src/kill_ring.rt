//! The ring, with answers that were worked out by hand, and what no clause says: that a call comes back with an
//! answer.
use crate::steps::is_so;
use rl_base::{DeleteListener, Direction, KillRing, Mode, NewKill};
use std::process::Abort;

// A call of a ring, with the answer that is expected of a yank or a question.
#[derive(Clone, Copy)]
enum Call {
    Kill(&'static str),
    KillBack(&'static str),
    Reset,
    AfterNewest,
    Clear,
    Forget(usize),
    Resize(usize),
    Yank(&'static str),
    YankNone,
    Pop(usize, &'static str),
    PopNone,
    Count(usize),
    At(usize, &'static str),
    NoneAt(usize),
    Start,
    Ahead(&'static str),
    Back(&'static str),
    Cursors,
    Stop,
}

// Whether this slot was lent.
fn lends(slot: Option<&String>, text: &str) -> bool {
    match slot {
        Some(slot) => slot.as_str() == text,
        None => false,
    }
}

// Whether the ring has this text, so many before its current one.
fn is_at(ring: &KillRing, back: usize, wanted: &str) -> bool {
    match ring.text_back(back) {
        Some(text) => text == wanted,
        None => false,
    }
}

// Makes the call. It answers whether that gave what is expected.
fn make(ring: &mut KillRing, call: Call) -> bool {
    match call {
        Call::Kill(text) => return ring.kill(text, Mode::Append).is_ok(),
        Call::KillBack(text) => return ring.kill(text, Mode::Prepend).is_ok(),
        Call::Reset => ring.reset(),
        Call::AfterNewest => ring.set_new_kill(NewKill::AfterNewest),
        Call::Clear => ring.clear(),
        Call::Forget(bytes) => ring.forget(bytes),
        Call::Resize(size) => ring.set_size(size),
        Call::Yank(text) => return lends(ring.yank(), text),
        Call::YankNone => return ring.yank().is_none(),
        Call::Pop(size, text) => {
            return match ring.yank_pop() {
                Some((before, slot)) => before == size && slot.as_str() == text,
                None => false,
            };
        }
        Call::PopNone => return ring.yank_pop().is_none(),
        Call::Count(texts) => return ring.len() == texts,
        Call::At(back, text) => return is_at(ring, back, text),
        Call::NoneAt(back) => return ring.text_back(back).is_none(),
        Call::Start => ring.start_killing(),
        Call::Ahead(text) => return ring.delete(0, text, Direction::Forward).is_ok(),
        Call::Back(text) => return ring.delete(0, text, Direction::Backward).is_ok(),
        Call::Cursors => ring.cursors(0, 1),
        Call::Stop => ring.stop_killing(),
    }
    true
}

// A call, and the size of the last yank after it.
type Step = (Call, Option<usize>);

// What the steps show, the size of the ring, and the steps.
type Case = (&'static str, usize, &'static [Step]);

// Makes the calls.
fn take(rt: &impl Abort, ring: &mut KillRing, case: &str, steps: &[Step]) {
    for (i, (call, yanked)) in steps.iter().enumerate() {
        is_so(rt, make(ring, *call), "the answer", case, i);
        is_so(rt, ring.yank_size() == *yanked, "the yank", case, i);
    }
}

const CASES: &[Case] = &[
    (
        "kills join",
        2,
        &[
            (Call::Kill("word1"), None),
            (Call::Kill(" word2"), None),
            (Call::Yank("word1 word2"), Some(11)),
            (Call::Count(1), Some(11)),
            // a yank ends the text
            (Call::KillBack("word1"), None),
            (Call::KillBack("word2 "), None),
            (Call::Yank("word2 word1"), Some(11)),
            (Call::Pop(11, "word1 word2"), Some(11)),
        ],
    ),
    (
        "a pop goes round",
        2,
        &[
            (Call::PopNone, None),
            (Call::Kill("word1"), None),
            (Call::Count(1), None),
            (Call::At(0, "word1"), None),
            (Call::NoneAt(1), None),
            // a reset leaves the text
            (Call::Reset, None),
            (Call::Kill("longword2"), None),
            (Call::PopNone, None),
            (Call::At(0, "longword2"), None),
            (Call::At(1, "word1"), None),
            (Call::NoneAt(2), None),
            (Call::Yank("longword2"), Some(9)),
            (Call::Pop(9, "word1"), Some(5)),
            (Call::Count(2), Some(5)),
            (Call::At(0, "word1"), Some(5)),
            (Call::At(1, "longword2"), Some(5)),
            (Call::Pop(5, "longword2"), Some(9)),
            (Call::Pop(9, "word1"), Some(5)),
            (Call::Reset, None),
            (Call::PopNone, None),
            (Call::Yank("word1"), Some(5)),
        ],
    ),
    (
        "a kill overwrites the text after the current one",
        3,
        &[
            (Call::Kill("a"), None),
            (Call::Reset, None),
            (Call::Kill("b"), None),
            (Call::Yank("b"), Some(1)),
            (Call::Pop(1, "a"), Some(1)),
            (Call::Reset, None),
            (Call::Kill("c"), None),
            (Call::Yank("c"), Some(1)),
            (Call::Pop(1, "a"), Some(1)),
            (Call::Pop(1, "c"), Some(1)),
            (Call::Count(2), Some(1)),
            (Call::Reset, None),
            (Call::Kill("d"), None),
            (Call::Count(3), None),
            (Call::At(0, "d"), None),
            (Call::At(1, "c"), None),
            (Call::At(2, "a"), None),
            (Call::NoneAt(3), None),
            (Call::NoneAt(usize::MAX), None),
            // from the middle it goes round
            (Call::Yank("d"), Some(1)),
            (Call::Pop(1, "c"), Some(1)),
            (Call::At(0, "c"), Some(1)),
            (Call::At(1, "a"), Some(1)),
            (Call::At(2, "d"), Some(1)),
        ],
    ),
    (
        "a kill after the newest takes the place of the oldest",
        4,
        &[
            (Call::AfterNewest, None),
            (Call::Kill("a"), None),
            (Call::Reset, None),
            (Call::Kill("b"), None),
            (Call::Reset, None),
            (Call::Kill("c"), None),
            (Call::Yank("c"), Some(1)),
            (Call::Pop(1, "b"), Some(1)),
            (Call::Pop(1, "a"), Some(1)),
            // there is room: nothing goes
            (Call::Kill("d"), None),
            (Call::At(0, "d"), None),
            (Call::At(1, "c"), None),
            (Call::At(2, "b"), None),
            (Call::At(3, "a"), None),
            (Call::Count(4), None),
            (Call::Yank("d"), Some(1)),
            (Call::Pop(1, "c"), Some(1)),
            // the ring is full: the oldest goes, and a kill joins the newest
            (Call::Kill("e"), None),
            (Call::Kill("f"), None),
            (Call::At(0, "ef"), None),
            (Call::At(1, "d"), None),
            (Call::At(2, "c"), None),
            (Call::At(3, "b"), None),
            (Call::NoneAt(4), None),
        ],
    ),
    (
        "a cleared ring begins anew",
        2,
        &[
            (Call::Kill("a"), None),
            (Call::Reset, None),
            (Call::Kill("b"), None),
            (Call::Clear, None),
            (Call::YankNone, None),
            // it joins nothing
            (Call::Kill("c"), None),
            (Call::Count(1), None),
            (Call::Yank("c"), Some(1)),
            (Call::Clear, None),
            (Call::PopNone, None),
            (Call::Count(0), None),
        ],
    ),
    (
        "the oldest texts are forgotten",
        3,
        &[
            (Call::AfterNewest, None),
            (Call::Forget(0), None),
            (Call::Kill("a"), None),
            (Call::Reset, None),
            (Call::Kill("bb"), None),
            (Call::Reset, None),
            (Call::Kill("c"), None),
            (Call::Reset, None),
            // in the place of the first
            (Call::Kill("dd"), None),
            (Call::Forget(5), None),
            (Call::Count(3), None),
            (Call::Forget(4), None),
            (Call::At(0, "dd"), None),
            (Call::At(1, "c"), None),
            (Call::NoneAt(2), None),
            // a kill goes on, and there is room for one more
            (Call::Kill("d"), None),
            (Call::Reset, None),
            (Call::Kill("e"), None),
            (Call::At(0, "e"), None),
            (Call::At(1, "ddd"), None),
            (Call::At(2, "c"), None),
            (Call::Yank("e"), Some(1)),
            (Call::Pop(1, "ddd"), Some(3)),
            (Call::Forget(4), Some(3)),
            (Call::At(0, "ddd"), Some(3)),
            (Call::At(1, "e"), Some(3)),
            // the current one goes
            (Call::Forget(3), None),
            (Call::PopNone, None),
            (Call::At(0, "e"), None),
            (Call::Count(1), None),
            (Call::Kill("f"), None),
            (Call::Forget(0), None),
            (Call::YankNone, None),
            (Call::Kill("g"), None),
            (Call::Forget(usize::MAX), None),
            (Call::At(0, "g"), None),
            (Call::Count(1), None),
        ],
    ),
    (
        "a ring is resized",
        2,
        &[
            (Call::AfterNewest, None),
            (Call::Resize(3), None),
            (Call::Kill("a"), None),
            (Call::Reset, None),
            (Call::Kill("b"), None),
            (Call::Reset, None),
            (Call::Kill("c"), None),
            (Call::Reset, None),
            // in the place of the first
            (Call::Kill("dd"), None),
            (Call::Yank("dd"), Some(2)),
            (Call::Pop(2, "c"), Some(1)),
            // the current one stays
            (Call::Resize(3), Some(1)),
            (Call::Resize(2), Some(1)),
            (Call::At(0, "c"), Some(1)),
            (Call::At(1, "dd"), Some(1)),
            (Call::NoneAt(2), Some(1)),
            (Call::Resize(9), Some(1)),
            (Call::Pop(1, "dd"), Some(2)),
            (Call::Kill("e"), None),
            (Call::Resize(3), None),
            // a kill goes on
            (Call::Kill("f"), None),
            (Call::At(0, "ef"), None),
            (Call::At(1, "dd"), None),
            (Call::At(2, "c"), None),
            (Call::Yank("ef"), Some(2)),
            (Call::Pop(2, "dd"), Some(2)),
            // the current one goes
            (Call::Resize(1), None),
            (Call::PopNone, None),
            (Call::At(0, "ef"), None),
            (Call::Count(1), None),
            (Call::Resize(0), None),
            (Call::YankNone, None),
            (Call::Kill("x"), None),
            (Call::Count(0), None),
            (Call::Resize(2), None),
            (Call::Kill("g"), None),
            (Call::Yank("g"), Some(1)),
        ],
    ),
    (
        "a ring without a slot",
        0,
        &[
            (Call::YankNone, None),
            (Call::PopNone, None),
            (Call::Kill("x"), None),
            (Call::Count(0), None),
            (Call::NoneAt(0), None),
            (Call::KillBack("y"), None),
            (Call::Start, None),
            (Call::Ahead("z"), None),
            (Call::Stop, None),
            (Call::YankNone, None),
            (Call::PopNone, None),
        ],
    ),
    (
        "a ring of one slot",
        1,
        &[
            (Call::YankNone, None),
            (Call::PopNone, None),
            (Call::Kill("a"), None),
            (Call::Reset, None),
            (Call::Kill("\u{df}"), None),
            (Call::Yank("\u{df}"), Some(2)),
            (Call::Pop(2, "\u{df}"), Some(2)),
        ],
    ),
    (
        "an empty kill is a slot",
        2,
        &[
            (Call::Kill(""), None),
            (Call::Yank(""), Some(0)),
            (Call::Pop(0, ""), Some(0)),
        ],
    ),
    (
        "deletions of a kill are heard",
        2,
        &[
            (Call::Ahead("x"), None),
            (Call::YankNone, None),
            (Call::Start, None),
            (Call::Ahead("b"), None),
            (Call::Back("a"), None),
            (Call::Stop, None),
            (Call::Back("y"), None),
            (Call::Start, None),
            (Call::Ahead("c"), None),
            (Call::Yank("abc"), Some(3)),
        ],
    ),
    (
        "cursors are not heard",
        2,
        &[
            (Call::Cursors, None),
            (Call::YankNone, None),
            // they neither separate kills nor end one
            (Call::Start, None),
            (Call::Ahead("b"), None),
            (Call::Cursors, None),
            (Call::Back("a"), None),
            (Call::Cursors, None),
            (Call::Stop, None),
            (Call::Cursors, None),
            (Call::Kill("c"), None),
            (Call::Yank("abc"), Some(3)),
            // nor do they separate a yank from the pop that replaces its text
            (Call::Cursors, Some(3)),
            (Call::Pop(3, "abc"), Some(3)),
        ],
    ),
];

#[test]
fn rings_lend_what_was_killed(rt: HostRuntime) {
    for (case, size, steps) in CASES {
        let mut ring = KillRing::new(rt.alloc(), *size);
        take(&rt, &mut ring, case, steps);
    }
}
