//! A session that is watched: what each command leaves is printed and checked.
ghost use Rattle.std.specs.Prelude.{◌≡◌, OnOk, OnErr, true, false};

use crate::checks::{Failed, Tally};
use rl_base::{GraphemeClusterMode, Refusal};
use rl_line::LineBuffer;
use rl_record::Changeset;
use rl_session::{Command, Fault, Reply, Session};
use std::alloc::Global;

// How often an undo of everything is asked for: once to undo, once to hear that nothing is left, and again after each
// refusal.
const TRIES: u8 = 8;

// The question is answered with yes, or refused.
fn expect_yes(
    rt: &impl Print,
    tally: &mut Tally,
    answer: Result<bool, Refusal>,
    question: &'static str,
) -> Result<(), Failed> {
    match answer {
        Ok(yes) => tally.holds(yes, question),
        Err(refusal) => {
            let _ = println!(rt; "{question}: {refusal}");
            tally.refuse();
            tally.holds(refusal == Refusal::NoMemory, question)
        }
    }
}

/// What holds after every command: the cursor stands between two characters, and the record can be undone and redone,
/// and replays. Each of the three questions may be refused.
pub(crate) fn stands(
    rt: &impl Print,
    tally: &mut Tally,
    line: &LineBuffer,
    record: &Changeset,
) -> Result<(), Failed> {
    tally.holds(line.as_str().is_char_boundary(line.pos()), "the cursor")?;
    let can_undo = record.can_undo(line);
    let can_redo = record.can_redo(line);
    let replays = record.replays_to(record.len(), line);
    expect_yes(rt, tally, can_undo, "can_undo")?;
    expect_yes(rt, tally, can_redo, "can_redo")?;
    expect_yes(rt, tally, replays, "replays_to")
}

// The yes or no that a command answered.
fn answer_of(reply: &Reply) -> Option<bool> {
    match reply {
        Reply::Answer(answer) => Some(*answer),
        _ => None,
    }
}

// Whether there is memory for a line that says that it is asked for again, which is printed then.
fn asks_again(rt: &impl Print, alloc: Global) -> bool {
    let Ok(again) = String::from_str(alloc, "there is memory: asked again") else {
        let _ = println!(rt; "there is no memory to undo with");
        return false;
    };
    let _ = println!(rt; "{again}");
    true
}

/// A session, with the text that it began with.
#[derive(Drop)]
pub(crate) struct Watched {
    session: Session,
    start: &'static str,
    commands_refused: usize,
    tally: Tally,
}

impl Watched {
    /// A session on the text, with the cursor there; or None, printed as `no session` and counted, if it was refused.
    pub(crate) fn open(
        rt: &impl Print,
        alloc: Global,
        all: &mut Tally,
        start: &'static str,
        pos: usize,
    ) -> Result<Option<Self>, Failed> {
        match Session::new(alloc, start, pos, 64, 2, GraphemeClusterMode::Unicode) {
            Ok(session) => Ok(Some(Watched {
                session,
                start,
                commands_refused: 0,
                tally: Tally::default(),
            })),
            Err(fault) => {
                all.refuse();
                let _ = println!(rt; "no session");
                let why = fault == Fault::NoMemory;
                all.holds(why, "why there is no session").and(Ok(None))
            }
        }
    }

    /// The checks that held, and what was refused.
    pub(crate) fn tally(&self) -> Tally {
        self.tally
    }

    /// How many entries the record has.
    pub(crate) fn recorded(&self) -> usize {
        self.session.record().len()
    }

    /// Whether the text is empty.
    pub(crate) fn is_empty(&self) -> bool {
        self.session.line().is_empty()
    }

    /// Checks that the session has that text, cursor and number of entries.
    pub(crate) fn leaves(
        &mut self,
        text: &str,
        cursor: usize,
        recorded: usize,
        what: &'static str,
    ) -> Result<(), Failed> {
        let entries = self.recorded();
        let line = self.session.line();
        self.tally.holds(line.as_str() == text, what)?;
        self.tally.holds(line.pos() == cursor, what)?;
        self.tally.holds(entries == recorded, what)
    }

    /// Fails exactly if it is not so.
    pub(crate) fn holds(&mut self, is_so: bool, what: &'static str) -> Result<(), Failed>
        ensures held { OnOk result (is_so ≡ true) }
        ensures failed { OnErr result (is_so ≡ false) }
    {
        self.tally.holds(is_so, what)
    }

    /// Counts a command that was refused, or that there was no memory to make.
    pub(crate) fn count_refused_command(&mut self) {
        self.commands_refused = self.commands_refused.saturating_add(1);
        self.tally.refuse();
    }

    // A command is refused since memory is out, or after such a refusal for a place that is no longer valid.
    fn hear(&mut self, reply: &Reply) -> Result<(), Failed> {
        let Reply::Refused(fault) = reply else {
            return Ok(());
        };
        let after = self.commands_refused > 0;
        self.count_refused_command();
        match fault {
            Fault::BadPlace | Fault::BadYankSize => self
                .tally
                .holds(after, "a place, where no command was refused"),
            Fault::NotReplaying | Fault::TooLong => {
                self.tally.holds(false, "a fault that no refusal explains")
            }
            Fault::NoMemory => Ok(()),
        }
    }

    // Asks what holds after every command.
    fn check(&mut self, rt: &impl Print) -> Result<(), Failed> {
        let session = &self.session;
        stands(rt, &mut self.tally, session.line(), session.record())
    }

    // Prints what is there now, after what was done.
    fn print_left(&self, rt: &impl Print) {
        let text = self.session.line().as_str();
        let cursor = self.session.line().pos();
        let recorded = self.recorded();
        let _ = println!(rt; "{recorded} recorded, {text:?} at {cursor}");
    }

    /// Does the command. Answers what it answered, if that was a yes or a no.
    pub(crate) fn apply(
        &mut self,
        rt: &impl Print,
        command: &Command,
    ) -> Result<Option<bool>, Failed> {
        let reply = self.session.apply(command);
        let _ = print!(rt; "{command:?}: {reply:?}, ");
        self.print_left(rt);
        let heard = self.hear(&reply);
        heard.and(self.check(rt)).and(Ok(answer_of(&reply)))
    }

    // The run was refused.
    fn hear_fault(&mut self, rt: &impl Print, fault: Fault) -> Result<bool, Failed> {
        let _ = println!(rt; "the run was refused: {fault}");
        self.count_refused_command();
        let why = fault == Fault::NoMemory;
        self.tally.holds(why, "why the run was refused")?;
        self.check(rt).and(Ok(false))
    }

    // Each command has a reply.
    fn hear_all(
        &mut self,
        rt: &impl Print,
        commands: &[Command],
        replies: &[Reply],
    ) -> Result<bool, Failed> {
        let all = replies.len() == commands.len();
        self.tally.holds(all, "one reply for each command")?;
        for (command, reply) in commands.iter().zip(replies) {
            let _ = println!(rt; "{command:?}: {reply:?}");
            self.hear(reply)?;
        }
        self.print_left(rt);
        self.check(rt).and(Ok(true))
    }

    /// Does the commands in one run. Answers whether it was done, and not refused before the first.
    pub(crate) fn run(&mut self, rt: &impl Print, commands: &[Command]) -> Result<bool, Failed> {
        match self.session.run(commands) {
            Ok(replies) => self.hear_all(rt, commands, replies.as_slice()),
            Err(fault) => self.hear_fault(rt, fault),
        }
    }

    /// Undoes everything, which gives the text at the start. A refused undo is asked for again where there is memory
    /// for the line that says so.
    pub(crate) fn undo_all(&mut self, rt: &impl Print, alloc: Global) -> Result<(), Failed> {
        for _ in 0..TRIES {
            let undone = self.apply(rt, &Command::Undo(65535))?;
            if undone == Some(false) {
                let is_first = self.session.line().as_str() == self.start;
                return self.tally.holds(is_first, "the text when all is undone");
            }
            if undone.is_none() && !asks_again(rt, alloc) {
                return Ok(());
            }
        }
        self.tally.holds(false, "an undo that ends")
    }
}
