//! Calls of a line and its record, as rows of tables, and what they leave.
use crate::edits::replace;
use crate::line_buffer::go_to;
use rl_base::{
    ChangeListener, DeleteListener, Direction, Movement, NoListener, Refusal, RepeatCount,
};
use rl_line::{LineBuffer, MAX_LINE};
use rl_record::Changeset;
use std::alloc::Global;
use std::process::Abort;
use std::test::Fail;

// The sides of a deletion.
pub(crate) const AHEAD: Direction = Direction::Forward;

pub(crate) const BACK: Direction = Direction::Backward;

// An undo, of a record that leads back.
fn undo(
    rt: &impl Abort,
    line: &mut LineBuffer,
    record: &mut Changeset,
    n: RepeatCount,
) -> Result<bool, Refusal> {
    assert!(rt; record.can_undo(line)?, "the record leads back");
    record.undo(line, n)
}

// A redo of changes that fit the line.
fn redo(rt: &impl Abort, line: &mut LineBuffer, record: &mut Changeset) -> Result<bool, Refusal> {
    assert!(rt; record.can_redo(line)?, "the undone changes fit the line");
    record.redo(line)
}

// An abandon, of a record that leads back.
fn abandon(
    rt: &impl Abort,
    line: &mut LineBuffer,
    record: &mut Changeset,
) -> Result<bool, Refusal> {
    assert!(rt; record.can_undo(line)?, "the record leads back");
    record.abandon_telling(line, &mut NoListener)
}

// A call of a line that tells its record, or of the record, as a value of a table.
#[derive(Clone, Copy)]
pub(crate) enum Call {
    Insert(char, RepeatCount),
    Yank(&'static str),
    Back(RepeatCount),
    Ahead,
    KillFirstPrint,
    Replace(usize, usize, &'static str),
    SetPos(usize),
    Unheard(&'static str),
    UnheardBack(RepeatCount),
    Told(Event),
    Recorded(Event),
    Part,
    SetSaved,
    IsSaved,
    Begin,
    End,
    EndOne,
    Reopen,
    Abandon,
    KeepUndone,
    // Yanks as one unit, which takes in a text of so many bytes that was put in last
    Unite(usize, &'static [&'static str]),
    Truncate(usize),
    HasUndo,
    HasRedo,
    Forget(usize, usize),
    CanUndo,
    CanRedo,
    Replays(usize),
    LastInsert(Option<&'static str>),
    Undo(RepeatCount),
    Redo,
    TryUndo(RepeatCount),
    TryRedo,
}

// What a record is told by itself, while the line stays as it is.
#[derive(Clone, Copy)]
pub(crate) enum Event {
    Char(usize, char),
    Text(usize, &'static str),
    Deletion(usize, &'static str, Direction),
    Replacement(usize, &'static str, &'static str),
    Cursors(usize, usize),
    Kill,
}

// Tells the record of the event.
fn tell(record: &mut Changeset, event: Event) -> Result<(), Refusal> {
    match event {
        Event::Char(idx, c) => record.insert_char(idx, c),
        Event::Text(idx, text) => ChangeListener::insert_str(record, idx, text),
        Event::Deletion(idx, text, side) => DeleteListener::delete(record, idx, text, side),
        Event::Replacement(idx, old, new) => ChangeListener::replace(record, idx, old, new),
        Event::Cursors(before, after) => {
            record.cursors(before, after);
            Ok(())
        }
        Event::Kill => {
            record.start_killing();
            record.stop_killing();
            Ok(())
        }
    }
}

// Records the change, without a cursor or a side.
fn record_alone(record: &mut Changeset, change: Event) -> Result<(), Refusal> {
    match change {
        Event::Char(idx, c) => record.insert(idx, c),
        Event::Text(idx, text) => record.insert_str(idx, text),
        Event::Deletion(idx, text, _) => record.delete(idx, text),
        Event::Replacement(idx, old, new) => record.replace(idx, old, new),
        Event::Cursors(_, _) | Event::Kill => Ok(()),
    }
}

// 1 for a call that answered true, and else 0.
fn truth(answer: Result<bool, Refusal>) -> Result<usize, Refusal> {
    Ok(usize::from(answer?))
}

// The same of a call that answers whether it came to the end, if it did anything.
fn reached(answer: Result<Option<bool>, Refusal>) -> Result<usize, Refusal> {
    match answer {
        Ok(Some(true)) => Ok(1),
        Ok(_) => Ok(0),
        Err(refusal) => Err(refusal),
    }
}

// 2 for what was tried and does not fit the line, and else what `truth` says.
fn tried(answer: Result<Option<bool>, Refusal>) -> Result<usize, Refusal> {
    match answer {
        Ok(Some(done)) => Ok(usize::from(done)),
        Ok(None) => Ok(2),
        Err(refusal) => Err(refusal),
    }
}

// Deletes a character ahead: 1 where there is one, and else 0.
fn delete_ahead(line: &mut LineBuffer, record: &mut Changeset) -> Result<usize, Refusal> {
    let gone = line.delete(1, record)?;
    Ok(usize::from(gone.is_some()))
}

// Yanks the texts as one unit.
fn unite(
    line: &mut LineBuffer,
    record: &mut Changeset,
    put_in: usize,
    texts: &[&str],
) -> Result<(), Refusal> {
    let start = record.start_unit(put_in);
    for text in texts {
        line.yank(text, 1, record)?;
    }
    record.unite(start)
}

// 1 where the last change inserted that text, or nothing if it is None, and else 0.
fn put_in(record: &Changeset, text: Option<&str>) -> Result<usize, Refusal> {
    match record.last_insert()? {
        Some(last) => Ok(usize::from(text == Some(last.as_str()))),
        None => Ok(usize::from(text.is_none())),
    }
}

// Makes the call. It answers the mark of a begin; otherwise 1 for true, and 0 for what is not true. What is tried and does
// not fit answers 2.
fn make(
    rt: &impl Abort,
    line: &mut LineBuffer,
    record: &mut Changeset,
    call: Call,
) -> Result<usize, Refusal> {
    match call {
        Call::Insert(c, n) => reached(line.insert(c, n, record)),
        Call::Yank(text) => reached(line.yank(text, 1, record)),
        Call::Back(n) => truth(line.backspace(n, record)),
        Call::Ahead => delete_ahead(line, record),
        Call::KillFirstPrint => truth(line.kill(&Movement::ViFirstPrint, record)),
        Call::Replace(from, to, text) => replace(rt, line, from, to, text, record).and(Ok(1)),
        Call::SetPos(pos) => {
            go_to(rt, line, pos);
            Ok(1)
        }
        Call::Unheard(text) => reached(line.yank(text, 1, &mut NoListener)),
        Call::UnheardBack(n) => truth(line.backspace(n, &mut NoListener)),
        Call::Told(event) => tell(record, event).and(Ok(1)),
        Call::Recorded(change) => record_alone(record, change).and(Ok(1)),
        Call::Part => {
            record.part();
            Ok(1)
        }
        Call::SetSaved => {
            record.set_saved();
            Ok(1)
        }
        Call::IsSaved => Ok(usize::from(record.is_saved())),
        Call::Begin => record.begin(),
        Call::End => truth(record.end()),
        Call::EndOne => truth(record.end_one()),
        Call::Reopen => Ok(usize::from(record.reopen())),
        Call::Abandon => truth(abandon(rt, line, record)),
        Call::KeepUndone => truth(record.keep_undone()),
        Call::Unite(put_in, texts) => unite(line, record, put_in, texts).and(Ok(1)),
        Call::Truncate(len) => {
            record.truncate(len);
            Ok(1)
        }
        Call::HasUndo => Ok(usize::from(record.has_undo())),
        Call::HasRedo => Ok(usize::from(record.has_redo())),
        Call::Forget(entries, bytes) => {
            record.forget(entries, bytes);
            Ok(1)
        }
        Call::CanUndo => truth(record.can_undo(line)),
        Call::CanRedo => truth(record.can_redo(line)),
        Call::Replays(len) => truth(record.replays_to(len, line)),
        Call::LastInsert(text) => put_in(record, text),
        Call::Undo(n) => truth(undo(rt, line, record, n)),
        Call::Redo => truth(redo(rt, line, record)),
        Call::TryUndo(n) => tried(record.try_undo(line, n)),
        Call::TryRedo => tried(record.try_redo(line)),
    }
}

// A call, its answer, and what it leaves: the text, the cursor, the entries, and the open groups.
type Step = (Call, usize, &'static str, usize, usize, usize);

// What the steps show, and the steps, from an empty line and a new record.
pub(crate) type Case = (&'static str, &'static [Step]);

// It is so, of a step.
pub(crate) fn is_so(rt: &impl Abort, is_so: bool, what: &str, case: &str, i: usize) {
    assert!(rt; is_so, "{what}, step {i}: {case}");
}

// The call answered so, and left that.
fn leaves(
    rt: &impl Abort,
    line: &LineBuffer,
    record: &Changeset,
    is_answered: bool,
    (text, cursor, entries, open): (&str, usize, usize, usize),
    case: &str,
    i: usize,
) {
    is_so(rt, is_answered, "the answer", case, i);
    is_so(rt, line.as_str() == text, "the text", case, i);
    is_so(rt, line.pos() == cursor, "the cursor", case, i);
    is_so(rt, record.len() == entries, "the entries", case, i);
    is_so(rt, record.level() == open, "the open groups", case, i);
}

// Takes the steps.
fn take(
    rt: &impl Abort,
    line: &mut LineBuffer,
    record: &mut Changeset,
    case: &str,
    steps: &[Step],
) -> Result<(), Refusal> {
    for (i, (call, answer, text, cursor, entries, open)) in steps.iter().enumerate() {
        let is_answered = make(rt, line, record, *call)? == *answer;
        let left = (*text, *cursor, *entries, *open);
        leaves(rt, line, record, is_answered, left, case, i);
    }
    Ok(())
}

// Takes the steps of each case.
pub(crate) fn go_all(rt: &impl Abort, alloc: Global, cases: &[Case]) -> Result<(), Fail> {
    for (case, steps) in cases {
        let mut line = LineBuffer::with_limit(alloc, MAX_LINE);
        let mut record = Changeset::new(alloc);
        take(rt, &mut line, &mut record, case, steps)?;
    }
    Ok(())
}
