//! A listener of a caller's own that holds the text it hears of, also where undo and redo tell it, with answers that
//! were worked out by hand.
use crate::edits::replace;
use crate::line_buffer::line_of;
use rl_base::{ChangeListener, DeleteListener, Direction, Refusal, RepeatCount};
use rl_line::LineBuffer;
use rl_record::Changeset;
use std::alloc::Global;
use std::marker::Model;
use std::process::Abort;
use std::test::Fail;

// The text and the cursor of which it hears. It refuses nothing: where something does not fit what it holds, or memory
// is out, it is lost.
#[derive(Drop)]
struct Mirror {
    text: String,
    cursor: usize,
    lost: bool,
}

// No contract says what it holds.
impl Model for Mirror {
    ghost Value = { Unit {0} };

    ghost view = { λ _. tt };
}

impl Mirror {
    // At the place the one text gives way to the other.
    fn hear(&mut self, idx: usize, old: &str, new: &str) {
        if !swap(&mut self.text, idx, old, new) {
            self.lost = true;
        }
    }
}

// Replaces a text that stands at the place, if it does.
fn swap(text: &mut String, idx: usize, old: &str, new: &str) -> bool {
    let Some(end) = idx.checked_add(old.len()) else {
        return false;
    };
    let held = text.as_str();
    if !held.is_char_boundary(idx) || !held.is_char_boundary(end) {
        return false;
    }
    if &held[idx..end] != old {
        return false;
    }
    text.replace_range(idx..end, new).is_ok()
}

impl DeleteListener for Mirror {
    ghost step = { λ mirror _. mirror };

    ghost refused = { λ _ _ _ _. ⊥ };

    fn start_killing(&mut self) {}

    fn delete(&mut self, idx: usize, string: &str, _dir: Direction) -> Result<(), Refusal> {
        self.hear(idx, string, "");
        Ok(())
    }

    fn stop_killing(&mut self) {}

    fn cursors(&mut self, before: usize, after: usize) {
        if self.cursor != before {
            self.lost = true;
        }
        self.cursor = after;
    }
}

impl ChangeListener for Mirror {
    fn insert_char(&mut self, _idx: usize, _c: char) -> Result<(), Refusal> {
        self.lost = true;
        Ok(())
    }

    fn insert_str(&mut self, idx: usize, string: &str) -> Result<(), Refusal> {
        self.hear(idx, "", string);
        Ok(())
    }

    fn replace(&mut self, idx: usize, old: &str, new: &str) -> Result<(), Refusal> {
        self.hear(idx, old, new);
        Ok(())
    }
}

// An undo of so many units, or a redo.
#[derive(Clone, Copy)]
enum Way {
    Back(RepeatCount),
    Ahead,
}

// A way, and the text and the cursor to which it leads.
type Step = (Way, &'static str, usize);

// Three changes of "añ one", of each kind one.
fn change<L: ChangeListener>(
    rt: &impl Abort,
    line: &mut LineBuffer,
    listener: &mut L,
) -> Result<(), Refusal> {
    let _ = line.insert('-', 2, listener)?;
    let _ = line.backspace(3, listener)?;
    replace(rt, line, 2, 5, "zwei", listener)
}

// Goes that way, which the record can.
fn go(
    rt: &impl Abort,
    line: &mut LineBuffer,
    record: &mut Changeset,
    way: Way,
    mirror: &mut Mirror,
) -> Result<bool, Refusal> {
    match way {
        Way::Back(n) => {
            assert!(rt; record.can_undo(line)?, "the record leads back");
            record.undo_telling(line, n, mirror)
        }
        Way::Ahead => {
            assert!(rt; record.can_redo(line)?, "the undone changes fit the line");
            record.redo_telling(line, mirror)
        }
    }
}

// It is so, after that many steps.
fn is_so(rt: &impl Abort, is_so: bool, what: &str, i: usize) {
    assert!(rt; is_so, "{what} after step {i}");
}

// Line and mirror hold that text, and that cursor.
fn both_hold(
    rt: &impl Abort,
    line: &LineBuffer,
    mirror: &Mirror,
    text: &str,
    cursor: usize,
    i: usize,
) {
    is_so(
        rt,
        line.as_str() == text && line.pos() == cursor,
        "the line",
        i,
    );
    is_so(rt, mirror.text.as_str() == text, "the mirror's text", i);
    is_so(rt, mirror.cursor == cursor, "the mirror's cursor", i);
    is_so(rt, !mirror.lost, "each event fits", i);
}

// Goes each way, and compares what line and mirror hold then.
fn go_all(
    rt: &impl Abort,
    line: &mut LineBuffer,
    record: &mut Changeset,
    mirror: &mut Mirror,
    steps: &[Step],
) -> Result<(), Refusal> {
    for (i, (way, text, cursor)) in steps.iter().enumerate() {
        let changed = go(rt, line, record, *way, mirror)?;
        is_so(rt, changed, "there was a change", i);
        both_hold(rt, line, mirror, text, *cursor, i);
    }
    Ok(())
}

// Changes a line, as a group of the record, and types after that.
fn record_changes(
    rt: &impl Abort,
    line: &mut LineBuffer,
    record: &mut Changeset,
) -> Result<(), Fail> {
    record.begin()?;
    change(rt, line, record)?;
    record.end()?;
    line.insert('!', 2, record)?;
    Ok(())
}

// An equal line tells the mirror of the same changes.
fn mirror_changes(rt: &impl Abort, alloc: Global, mirror: &mut Mirror) -> Result<(), Fail> {
    let mut equal = line_of(rt, alloc, "añ one", 3)?;
    change(rt, &mut equal, mirror)?;
    equal.insert('!', 2, mirror)?;
    Ok(())
}

// Makes the changes, and goes back and ahead over them.
fn hears(
    rt: &impl Abort,
    alloc: Global,
    line: &mut LineBuffer,
    record: &mut Changeset,
    mirror: &mut Mirror,
) -> Result<(), Fail> {
    const STEPS: &[Step] = &[
        // the insertion after the group
        (Way::Back(1), "a zwei", 6),
        (Way::Back(1), "añ one", 3),
        (Way::Ahead, "a zwei", 6),
        (Way::Ahead, "a zwei!!", 8),
        (Way::Back(2), "añ one", 3),
        (Way::Ahead, "a zwei", 6),
    ];
    record_changes(rt, line, record)?;
    mirror_changes(rt, alloc, mirror)?;
    both_hold(rt, line, mirror, "a zwei!!", 8, 0);
    go_all(rt, line, record, mirror, STEPS)?;
    Ok(())
}

#[test]
fn a_mirror_hears_of_undo_and_redo(rt: HostRuntime) -> Result<(), Fail> {
    let mut line = line_of(&rt, rt.alloc(), "añ one", 3)?;
    let mut record = Changeset::new(rt.alloc());
    let mut mirror = Mirror {
        text: String::from_str(rt.alloc(), "añ one")?,
        cursor: 3,
        lost: false,
    };
    hears(&rt, rt.alloc(), &mut line, &mut record, &mut mirror)
}
