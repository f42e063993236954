//! A session: a line with its kill ring and the record of its changes, which takes commands one after another.
ghost use Rattle.std.specs.Prelude.{◌≡◌, ◌<◌, List, ℕ, length, Some, IfOk, IfErr, OnErr};
ghost use Rattle.rl_base.specs.KillRing.{reset};
ghost use Rattle.rl_session.specs.State.{State, Follows, IsBounded, Ends, Stands, with_ring, Replays, origin};
ghost use Rattle.rl_session.specs.Commands.{Does, Step, readied, settled};
ghost use Rattle.rl_session.specs.Run.{Run};
ghost use Rattle.rl_session.specs.declared.session.Command.{Command};
ghost use Rattle.rl_session.specs.declared.session.Reply.{Reply};

mod commands;
mod deletions;
mod edits;
pub mod forgetting;
mod history;
mod motions;
mod opening;
mod replies;
mod reports;
mod saved;
pub mod typing;
mod yanks;

use crate::options::Options;
use crate::pair::Pair;
use crate::session::replies::{answered, done, handed_out, inserted, marked};
use rl_base::{
    At, CharSearch, Direction, KillRing, Movement, Refusal, RepeatCount, Unit, Watch, Word,
    WordAction,
};
use rl_line::LineBuffer;
use rl_record::Changeset;
use std::alloc::Global;
use std::marker::Model;
use thiserror::Error;

/// What a session is asked to do. Places are byte places.
#[derive(Debug, Drop, PartialEq, Eq)]
pub enum Command {
    /// Moves the cursor to a place.
    SetPos(usize),
    /// Moves the cursor by a movement. `WholeLine`, `WholeLinesUp`, `WholeLinesDown`, `WholeBuffer` and `ViFirstPrint` do
    /// not move it.
    Move(Movement),
    /// Inserts a character at the cursor, the given number of times.
    Insert(char, RepeatCount),
    /// Inserts a text at the cursor, the given number of times.
    Paste(String, RepeatCount),
    /// Inserts the ring's current text at the cursor, the given number of times.
    Yank(RepeatCount),
    /// Replaces the text that was just yanked by the one before it in the ring.
    YankPop,
    /// Replaces the line's text, and sets the cursor to a place in the new text.
    Update(String, usize),
    /// Inserts a text at a place, and leaves the cursor where it is. Answers whether the place was the end.
    InsertStr(usize, String),
    /// Replaces the text between two places by another.
    Replace(usize, usize, String),
    /// Deletes the text between two places.
    DeleteRange(usize, usize),
    /// Deletes the given number of grapheme clusters from the cursor on.
    Delete(RepeatCount),
    /// Deletes the given number of grapheme clusters before the cursor.
    Backspace(RepeatCount),
    /// Deletes from the cursor to the end of its line, or the newline there.
    KillLine,
    /// Deletes from the cursor to the end of the text.
    KillBuffer,
    /// Deletes from the start of the cursor's line to the cursor, or the cluster before it.
    DiscardLine,
    /// Deletes from the start of the text to the cursor.
    DiscardBuffer,
    /// Deletes back to the start of the n-th word before the cursor. For 0, or if there are fewer words, deletes
    /// all before the cursor.
    DeletePrevWord(Word, RepeatCount),
    /// Deletes to the start or the end of a word ahead.
    DeleteWord(At, Word, RepeatCount),
    /// Deletes to the n-th hit of a search, or the farthest if there are fewer.
    DeleteTo(CharSearch, RepeatCount),
    /// Exchanges the clusters at the cursor.
    TransposeChars,
    /// Exchanges the word before the end of the n-th word ahead with the word n words before it.
    TransposeWords(RepeatCount),
    /// Changes the letter case of the word at the cursor or ahead.
    EditWord(WordAction),
    /// Kills by a movement. The killed text goes to the ring, except if the movement is by clusters.
    Kill(Movement),
    /// Kills the text between two places, told with a direction: `Forward` joins it at the end of the text that was
    /// killed right before it, `Backward` at its front.
    KillRange {
        from: usize,
        to: usize,
        direction: Direction,
    },
    /// Puts a text into the ring as a kill of its own. The line stays.
    Keep(String),
    /// Copies what a movement covers.
    Copy(Movement),
    /// Indents the lines of a movement by a number of spaces, or dedents them by at most that many bytes of blanks.
    Indent {
        movement: Movement,
        amount: u8,
        dedent: bool,
    },
    /// Parts the changes that come from those before: the next change joins nothing, and the next kill begins a text.
    Part,
    /// Opens a group of changes.
    Begin,
    /// Closes all open groups.
    End,
    /// Closes the group that was opened last.
    EndOne,
    /// Opens the group again whose End is the last entry.
    Reopen,
    /// Takes back the group that was opened last and is open, and forgets it.
    Abandon,
    /// Keeps what was undone: undos lead where redos led.
    KeepUndone,
    /// Undoes the given number of units: one for 0, and all if there are fewer.
    Undo(RepeatCount),
    /// Redoes what was undone last.
    Redo,
    /// Truncates the record to the given number of entries, and drops what was undone.
    Truncate(usize),
    /// Asks where the cursor stands.
    LinePlace,
}

/// Why a command was refused.
#[derive(Clone, Copy, Debug, PartialEq, Eq, Error)]
pub enum Fault {
    /// A growth found no memory, or a length does not fit a `usize`.
    #[error("out of memory")]
    NoMemory = 1,
    /// A place is past the text's end or inside a character, two places are out of order, or the cursor would
    /// stand inside a character.
    #[error("no such place in the text")]
    BadPlace = 2,
    /// What was yanked does not stand before the cursor.
    #[error("the text before the cursor was not just yanked")]
    BadYankSize = 3,
    /// The entries to keep do not lead to the present text.
    #[error("the kept entries do not reproduce the text")]
    NotReplaying = 4,
    /// The text would get longer than its limit.
    #[error("the text would get longer than its limit")]
    TooLong = 5,
}

// The numbers are part of the interface: `src/print.rt` prints a refusal with the number of its fault.
const _: () = prove!(Fault::NoMemory as u8 == 1);

const _: () = prove!(Fault::BadPlace as u8 == 2);

const _: () = prove!(Fault::BadYankSize as u8 == 3);

const _: () = prove!(Fault::NotReplaying as u8 == 4);

const _: () = prove!(Fault::TooLong as u8 == 5);

/// What a session answers.
#[derive(Debug, Drop, PartialEq, Eq)]
pub enum Reply {
    /// It is done.
    Done,
    /// The command's own yes or no, mostly whether there was anything to do.
    Answer(bool),
    /// Whether the cursor was at the end, or None if there was no text to insert, or no room for it.
    Inserted(Option<bool>),
    /// The text that was deleted or copied, or None if there was none.
    Text(Option<String>),
    /// How many entries the record had.
    Mark(usize),
    /// The number of the cursor's line, from 0, and the columns from that line's start to the cursor.
    At(usize, Unit),
    /// It was refused.
    Refused(Fault),
}

/// A line, with the ring, the record and the watch that hear of its changes. It lends them for reading only: so they
/// hear of every change, and of nothing else.
#[derive(Drop)]
pub struct Session {
    line: LineBuffer,
    pair: Pair,
    options: Options,
    alloc: Global,
}

impl Model for Session {
    ghost use Rattle.rl_session.specs.State.{State, AtRest};

    ghost Value = { State };

    ghost view = { λ s. record { line = s.line; pair = s.pair; options = s.options } };

    ghost invariant = { λ s. AtRest s.line s.pair };
}

impl From<Refusal> for Fault {
    ghost use Rattle.rl_session.specs.declared.session.Fault.{Fault};

    ghost from_gives = { λ _ f. f ≡ Fault.NoMemory };

    fn from(_: Refusal) -> Self {
        Fault::NoMemory
    }
}

impl Session {
    /// The line.
    pub fn line(&self) -> &LineBuffer
        ensures { result.now ≡ self.now.line }
    {
        &self.line
    }

    /// The record of the line's changes.
    pub fn record(&self) -> &Changeset
        ensures { result.now ≡ self.now.pair.changes }
    {
        &self.pair.changes
    }

    /// The ring of killed texts.
    pub fn ring(&self) -> &KillRing
        ensures { result.now ≡ self.now.pair.ring }
    {
        &self.pair.ring
    }

    /// How it measures columns, how much its record and ring may hold, and whether edits keep undone changes.
    pub fn options(&self) -> &Options
        ensures { result.now ≡ self.now.options }
    {
        &self.options
    }

    /// The watch, which tells how many reports wait, and the texts of the one that was taken last.
    pub fn watch(&self) -> &Watch
        ensures { result.now ≡ self.now.pair.watch }
    {
        &self.pair.watch
    }

    // States the invariants of a session's parts, and that no kill is on, for the proofs that rely on them.
    fn stands(&self)
        ensures { Stands self.now }
    {
        let _ = self.line.pos();
        let _ = self.line.limit();
        let _ = self.pair.ring.yank_size();
    }

    // States that the line's limit is a `usize`.
    fn bounded(&self)
        ensures { IsBounded self.now }
    {
        let _ = self.line.limit();
    }

    // States that the line can go back over the record, and ahead over what was undone. The call only tells the proof
    // where the line's cursor stands.
    fn follows(&self)
        ensures { Follows self.now.line self.now.pair.changes }
    {
        let _ = self.line.pos();
    }

    // Resets the ring, as before each command that does not go on from what it did last.
    #[inline(always)]
    fn reset_ring(&mut self)
        ensures { self.new ≡ with_ring (reset self.old.pair.ring) self.old }
    {
        self.pair.ring.reset();
    }

    // States what holds after every command.
    #[inline(always)]
    fn ends(&self)
        ensures { Ends self.now }
    {
        self.stands();
        self.bounded();
        self.follows();
    }

    // Does a command, the ring's resets aside.
    fn obey(&mut self, command: &Command) -> Reply
        ensures { Does self.old command.now result self.new }
    {
        match command {
            Command::SetPos(pos) => done(self.do_set_pos(*pos)),
            Command::Move(movement) => answered(self.do_move_by(movement)),
            Command::Insert(c, n) => inserted(self.do_insert(*c, *n)),
            Command::Paste(text, n) => inserted(self.do_paste(text.as_str(), *n)),
            Command::Yank(n) => inserted(self.do_yank(*n)),
            Command::YankPop => inserted(self.do_yank_pop()),
            Command::Update(text, pos) => done(self.do_update(text.as_str(), *pos)),
            Command::InsertStr(idx, text) => answered(self.do_insert_str(*idx, text.as_str())),
            Command::Replace(from, to, text) => done(self.do_replace(*from, *to, text.as_str())),
            Command::DeleteRange(from, to) => done(self.do_delete_range(*from, *to)),
            Command::Delete(n) => handed_out(self.do_delete(*n)),
            Command::Backspace(n) => answered(self.do_backspace(*n)),
            Command::KillLine => answered(self.do_delete_by(&Movement::EndOfLine)),
            Command::KillBuffer => answered(self.do_delete_by(&Movement::EndOfBuffer)),
            Command::DiscardLine => answered(self.do_delete_by(&Movement::BeginningOfLine)),
            Command::DiscardBuffer => answered(self.do_delete_by(&Movement::BeginningOfBuffer)),
            Command::DeletePrevWord(word, n) => {
                answered(self.do_delete_by(&Movement::BackwardWord(*n, *word)))
            }
            Command::DeleteWord(at, word, n) => {
                answered(self.do_delete_by(&Movement::ForwardWord(*n, *at, *word)))
            }
            Command::DeleteTo(cs, n) => {
                answered(self.do_delete_by(&Movement::ViCharSearch(*n, *cs)))
            }
            Command::TransposeChars => answered(self.do_transpose_chars()),
            Command::TransposeWords(n) => answered(self.do_transpose_words(*n)),
            Command::EditWord(action) => answered(self.do_edit_word(*action)),
            Command::Kill(movement) => answered(self.do_kill(movement)),
            Command::KillRange {
                from,
                to,
                direction,
            } => answered(self.do_kill_range(*from, *to, *direction)),
            Command::Keep(text) => done(self.do_keep(text.as_str())),
            Command::Copy(movement) => handed_out(self.do_copy(movement)),
            Command::Indent {
                movement,
                amount,
                dedent,
            } => answered(self.do_indent(movement, *amount, *dedent)),
            Command::Part => done(self.do_part()),
            Command::Begin => marked(self.do_begin()),
            Command::End => answered(self.do_end()),
            Command::EndOne => answered(self.do_end_one()),
            Command::Reopen => answered(self.do_reopen()),
            Command::Abandon => answered(self.do_abandon()),
            Command::KeepUndone => answered(self.do_keep_undone()),
            Command::Undo(n) => answered(self.do_undo(*n)),
            Command::Redo => answered(self.do_redo()),
            Command::Truncate(len) => done(self.do_truncate(*len)),
            Command::LinePlace => self.do_line_place(),
        }
    }

    // Resets the ring before a command that does not go on from what it did last.
    fn ready(&mut self, command: &Command)
        ensures { self.new ≡ readied command.now self.old }
    {
        match command {
            Command::Kill(movement) => self.ready_to_kill(movement),
            Command::KillRange { .. } | Command::Yank(_) | Command::YankPop | Command::KeepUndone =>
                {}
            _ => self.reset_ring(),
        }
    }

    // Resets the ring after a vain yank, whose reply this is.
    fn settle(&mut self, command: &Command, reply: &Reply)
        ensures { self.new ≡ settled command.now reply.now self.old }
    {
        if matches!(command, Command::Yank(_) | Command::YankPop)
            && !matches!(reply, Reply::Inserted(Some(_)))
        {
            self.reset_ring();
        }
    }

    // Does a command, with the ring's resets.
    #[inline(never)]
    fn carry_out(&mut self, command: &Command) -> Reply
        ensures { Step self.old command.now result self.new }
    {
        self.ready(command);
        let reply = self.obey(command);
        self.settle(command, &reply);
        self.ends();
        reply
    }

    // The same, in which a typed letter does not pay for the choice of what to do. Inlined, as `apply` is.
    #[inline(always)]
    fn do_command(&mut self, command: &Command) -> Reply
        ensures { Step self.old command.now result self.new }
    {
        if let Command::Insert(c, n) = command {
            self.reset_ring();
            let reply = inserted(self.do_insert(*c, *n));
            self.ends();
            return reply;
        }
        self.carry_out(command)
    }

    /// Does one command, whatever the session's options are: `perform` obeys these. The ring is reset first, unless the
    /// command is a yank, a kill of a range, a kill by a movement other than by clusters, or `KeepUndone`. It is also reset
    /// after a yank whose reply is not `Inserted(Some(..))`. Whatever the reply, the recorded changes lead from the starting
    /// text to the present one, and back to the same text as before. Inlined, so that a reply is not copied on its way.
    #[inline(always)]
    pub fn apply(&mut self, command: &Command) -> Reply
        ensures step { Step self.old command.now result self.new }
        ensures replays { (start : List ℕ) → Replays start self.old → Replays start self.new }
        ensures origin { origin self.new ≡ origin self.old }
    {
        self.stands();
        self.follows();
        self.do_command(command)
    }

    /// Does the commands in order, and answers one reply for each. It allocates room for the replies first. If
    /// that is refused, it did no command, and there was at least one to do. In either case the record leads back to
    /// the same text as before.
    pub fn run(&mut self, commands: &[Command]) -> Result<Vec<Reply>, Fault>
        ensures run { IfOk result (λ replies. Run self.old commands.now replies.items self.new) }
        ensures stands { Stands self.new }
        ensures follows { Follows self.new.line self.new.pair.changes }
        ensures replays { (start : List ℕ) → Replays start self.old → Replays start self.new }
        ensures origin { origin self.new ≡ origin self.old }
        ensures err { IfErr result (λ f. (f ≡ Fault.NoMemory) × (self.new ≡ self.old)) }
        ensures some { OnErr result (0 < length commands.now) }
    {
        let mut replies = match Vec::with_capacity(self.alloc, commands.len()) {
            Ok(replies) => replies,
            Err(_) => {
                self.stands();
                self.follows();
                return Err(Fault::NoMemory);
            }
        };
        for command in commands {
            let reply = self.apply(command);
            if replies.push(reply).is_err() {
                unreachable!();
            }
        }
        self.stands();
        self.follows();
        Ok(replies)
    }
}
