//! The sessions that are run. Each adds to a tally what it checked and what was refused.
use crate::checks::{Failed, Tally};
use crate::watched::{Watched, stands};
use rl_base::{Direction, Movement, Word, WordAction};
use rl_line::LineBuffer;
use rl_record::Changeset;
use rl_session::Command;
use std::alloc::{AllocError, Global};

// Longer than what lies in an entry of the record, so that its insertion asks for memory.
const WORD: &str = "longerthansixteen";

// How many commands are done one by one.
const COMMANDS: usize = 20;

// Of commands that insert, kill, keep, yank, transpose, indent, replace, undo and copy the one with that number.
fn command(alloc: Global, number: usize) -> Result<Command, AllocError> {
    Ok(match number {
        0 => Command::Insert('é', 1),
        1 | 2 => Command::Begin,
        3 => Command::Paste(String::from_str(alloc, "x\ny")?, 2),
        4 => Command::EndOne,
        5 => Command::Kill(Movement::BeginningOfLine),
        6 => Command::End,
        7 => Command::Yank(1),
        8 => Command::YankPop,
        9 => Command::TransposeWords(1),
        10 => Command::SetPos(0),
        11 => Command::EditWord(WordAction::Uppercase),
        12 => Command::Indent {
            movement: Movement::WholeBuffer,
            amount: 40,
            dedent: false,
        },
        13 => Command::Indent {
            movement: Movement::WholeBuffer,
            amount: 3,
            dedent: true,
        },
        14 => Command::Replace(0, 1, String::from_str(alloc, "zz")?),
        15 => Command::Undo(2),
        16 => Command::Redo,
        17 => Command::Copy(Movement::WholeBuffer),
        18 => Command::Keep(String::from_str(alloc, "kept")?),
        _ => Command::KillRange {
            from: 0,
            to: 2,
            direction: Direction::Backward,
        },
    })
}

// The check after every command detects the record, or it was refused.
fn is_detected(
    rt: &impl Print,
    tally: &mut Tally,
    line: &LineBuffer,
    record: &Changeset,
) -> Result<(), Failed> {
    if let Err(failed) = stands(rt, tally, line, record) {
        let _ = println!(rt; "it is told: {failed}");
        return Ok(());
    }
    let refused = tally.refused() > 0;
    tally.holds(refused, "a wrong record that is told")
}

/// A line and a record that do not belong together, which the check after every command must detect.
pub(crate) fn wrong_record(rt: &impl Print, alloc: Global, all: &mut Tally) -> Result<(), Failed> {
    let _ = println!(rt; "A wrong record");
    let line = LineBuffer::with_limit(alloc, 2);
    let mut record = Changeset::new(alloc);
    if record.delete(5, "x").is_err() {
        let _ = println!(rt; "no record");
        all.refuse();
        return Ok(());
    }
    is_detected(rt, all, &line, &record)
}

// The command with that number, if there is memory for it.
fn do_one(
    rt: &impl Print,
    alloc: Global,
    watched: &mut Watched,
    number: usize,
) -> Result<(), Failed> {
    let Ok(command) = command(alloc, number) else {
        let _ = println!(rt; "no command");
        watched.count_refused_command();
        return Ok(());
    };
    watched.apply(rt, &command).and(Ok(()))
}

// Each command alone, and then an undo of all.
fn do_each(rt: &impl Print, alloc: Global, watched: &mut Watched) -> Result<(), Failed> {
    for number in 0..COMMANDS {
        do_one(rt, alloc, watched, number)?;
    }
    let recorded = watched.recorded();
    watched.apply(rt, &Command::Truncate(recorded))?;
    watched.undo_all(rt, alloc)
}

/// Commands of many kinds, one by one.
pub(crate) fn one_by_one(rt: &impl Print, alloc: Global, all: &mut Tally) -> Result<(), Failed> {
    let _ = println!(rt; "One by one");
    let Some(mut watched) = Watched::open(rt, alloc, all, "ab cd", 5)? else {
        return Ok(());
    };
    let done = do_each(rt, alloc, &mut watched);
    all.add(watched.tally());
    done
}

// The word was deleted, and its capitals were refused: what stands is undone by one undo.
fn undo_between(rt: &impl Print, watched: &mut Watched) -> Result<(), Failed> {
    let _ = println!(rt; "the word was refused between its two events");
    watched.leaves("", 0, 1, "what stands between the two events")?;
    let Some(answer) = watched.apply(rt, &Command::Undo(1))? else {
        return watched.leaves("", 0, 1, "a refused undo");
    };
    watched.holds(answer, "the undo of the first event")?;
    watched.leaves(WORD, 0, 0, "the undone first event")
}

// The word is in capitals, or was refused, before its first event or between the two.
fn is_raised(rt: &impl Print, watched: &mut Watched, raised: Option<bool>) -> Result<(), Failed> {
    if let Some(answer) = raised {
        watched.holds(answer, "the answer to a word")?;
        return watched.leaves("LONGERTHANSIXTEEN", 17, 2, "the word in capitals");
    }
    if watched.is_empty() {
        return undo_between(rt, watched);
    }
    watched.leaves(WORD, 0, 0, "the word that was refused")
}

// Puts the word in capitals, and then undoes all.
fn raise(rt: &impl Print, alloc: Global, watched: &mut Watched) -> Result<(), Failed> {
    let raised = watched.apply(rt, &Command::EditWord(WordAction::Uppercase))?;
    is_raised(rt, watched, raised)?;
    watched.undo_all(rt, alloc)
}

/// Two events put a word in capitals: it is deleted, and then inserted. Either may be refused.
pub(crate) fn word_in_capitals(
    rt: &impl Print,
    alloc: Global,
    all: &mut Tally,
) -> Result<(), Failed> {
    let _ = println!(rt; "A word in capitals");
    let Some(mut watched) = Watched::open(rt, alloc, all, WORD, 0)? else {
        return Ok(());
    };
    let done = raise(rt, alloc, &mut watched);
    all.add(watched.tally());
    done
}

// Three commands in one run. Answers whether it was done.
fn run_three(rt: &impl Print, watched: &mut Watched) -> Result<bool, Failed> {
    let commands = [
        Command::Insert('é', 2),
        Command::Backspace(1),
        Command::Kill(Movement::BackwardWord(1, Word::Emacs)),
    ];
    watched.run(rt, &commands)
}

// Commands in one run, and then an undo of all.
fn do_all(rt: &impl Print, alloc: Global, watched: &mut Watched) -> Result<(), Failed> {
    if !run_three(rt, watched)? {
        watched.leaves("ab cd", 5, 0, "a run that was refused")?;
    } else if watched.tally().refused() == 0 {
        watched.leaves("ab ", 3, 3, "a run of which nothing was refused")?;
    }
    watched.undo_all(rt, alloc)
}

/// Commands in one run. None is done if there is no room for their replies.
pub(crate) fn all_at_once(rt: &impl Print, alloc: Global, all: &mut Tally) -> Result<(), Failed> {
    let _ = println!(rt; "All at once");
    let Some(mut watched) = Watched::open(rt, alloc, all, "ab cd", 5)? else {
        return Ok(());
    };
    let done = do_all(rt, alloc, &mut watched);
    all.add(watched.tally());
    done
}
