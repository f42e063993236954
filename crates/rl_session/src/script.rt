//! Scripts: lines of commands from a reader, and one line to a writer for each.
ghost use Rattle.std.specs.Prelude.{◌≡◌, ℕ, Bool, List, ◌<◌, [], ◌∷◌, ◌++◌, length, max, take, string_bytes, OnOk, OnErr, IfOk, IfErr, MatchOption};
ghost use Rattle.std.specs.Str.{IsUtf8};
ghost use Rattle.std.specs.Io.KnownBytes.{Appends};
ghost use Rattle.rl_session.specs.Grammar.{Meaning, Means, NewText, Same, Set, Do};
ghost use Rattle.rl_session.specs.Spelling.{Spells};
ghost use Rattle.rl_session.specs.Print.{escaped, printed};
ghost use Rattle.rl_session.specs.Script.{begun, started, MeaningOut, Ran, Stopped, StoppedBy};
ghost use Rattle.rl_session.specs.Progress.{HasNoNewline, IsSaid, SaidOut, Runs, Took, Halts};

use crate::grammar::{ScriptLine, parse};
use crate::print::add_printed;
use crate::session::{Command, Fault, Reply, Session};
use crate::settings::{Setting, Settings};
use memchr::memchr;
use std::alloc::Global;
use std::io::{Read, Write};
use thiserror::Error;

/// Why a script stopped.
#[derive(Clone, Copy, Debug, PartialEq, Eq, Error)]
pub enum ScriptFault {
    /// A read failed, or came to no end after 2^64 - 1 reads.
    #[error("read failed")]
    Read = 1,
    /// A write failed, or took nothing.
    #[error("write failed")]
    Write = 2,
    /// No room for a line of the input or the output, for a text in it, or for the first session.
    #[error("no memory")]
    NoMemory = 3,
}

// The numbers are part of the interface (`docs/PROMISES.md`).
const _: () = prove!(ScriptFault::Read as u8 == 1);

const _: () = prove!(ScriptFault::Write as u8 == 2);

const _: () = prove!(ScriptFault::NoMemory as u8 == 3);

// How many bytes are read at once.
const BLOCK: usize = 4096;

// What is kept from one line of a script to the next.
#[derive(Drop)]
struct Interpreter {
    settings: Settings,
    session: Session,
}

// The session that a text begins.
fn begin(alloc: Global, settings: Settings, text: &str) -> Result<Session, Fault>
    ensures ok { IfOk result (λ session. session ≡ begun settings text.now) }
    ensures err { IfErr result (λ f. (f ≡ Fault.NoMemory) × (0 < max settings.limit (length text.now))) }
{
    Session::new(
        alloc,
        text,
        text.len(),
        settings.limit,
        settings.ring_size,
        settings.options.mode,
    )
}

impl Interpreter {
    // The interpreter before the first line.
    fn start(alloc: Global) -> Result<Self, ScriptFault>
        ensures ok { IfOk result (λ first. first ≡ started) }
        ensures err { IfErr result (λ f. f ≡ ScriptFault.NoMemory) }
    {
        let settings = Settings::usual();
        match begin(alloc, settings, "") {
            Ok(session) => Ok(Interpreter { settings, session }),
            Err(_) => Err(ScriptFault::NoMemory),
        }
    }

    // Prints a reply, with what the session now holds.
    fn answer(&self, reply: &Reply, out: &mut Vec<u8>) -> Result<(), ScriptFault>
        requires { out.old.items ≡ [] }
        ensures ok { OnOk result (out.new.items ≡ printed reply.now self.now.session) }
        ensures err { IfErr result (λ f. f ≡ ScriptFault.NoMemory) }
    {
        add_printed(out, reply, &self.session).map_err(|_| ScriptFault::NoMemory)
    }

    // Begins a new text with the present settings. If that is refused, the old session stays. The text is dropped
    // before the answer is printed.
    fn renew(&mut self, alloc: Global, text: String, out: &mut Vec<u8>) -> Result<(), ScriptFault>
        requires { out.old.items ≡ [] }
        ensures ok { OnOk result (MeaningOut self.old (NewText (string_bytes text)) out.new.items self.new) }
        ensures err { IfErr result (λ f. f ≡ ScriptFault.NoMemory) }
    {
        let opened = begin(alloc, self.settings, text.as_str());
        drop(text);
        match opened {
            Ok(session) => {
                self.session = session;
                self.answer(&Reply::Done, out)
            }
            Err(fault) => self.answer(&Reply::Refused(fault), out),
        }
    }

    // Makes a setting, for the texts to come.
    fn set(&mut self, setting: Setting, out: &mut Vec<u8>) -> Result<(), ScriptFault>
        requires { out.old.items ≡ [] }
        ensures ok { OnOk result (MeaningOut self.old (Set setting) out.new.items self.new) }
        ensures err { IfErr result (λ f. f ≡ ScriptFault.NoMemory) }
    {
        self.settings.set(setting);
        self.answer(&Reply::Done, out)
    }

    // Does a command, which is dropped before the reply is printed.
    fn obey(&mut self, command: Command, out: &mut Vec<u8>) -> Result<(), ScriptFault>
        requires { out.old.items ≡ [] }
        ensures ok { OnOk result (MeaningOut self.old (Do command) out.new.items self.new) }
        ensures err { IfErr result (λ f. f ≡ ScriptFault.NoMemory) }
    {
        let reply = self.session.apply(&command);
        drop(command);
        self.answer(&reply, out)
    }

    // Does what a line said, and leaves in `out` what is printed for it.
    fn run_said(
        &mut self,
        alloc: Global,
        said: Option<ScriptLine>,
        out: &mut Vec<u8>,
    ) -> Result<(), ScriptFault>
        ensures ok { OnOk result (SaidOut self.old said out.new.items self.new) }
        ensures err { IfErr result (λ f. f ≡ ScriptFault.NoMemory) }
    {
        out.clear();
        match said {
            Some(ScriptLine::NewText(text)) => self.renew(alloc, text, out),
            Some(ScriptLine::Set(setting)) => self.set(setting, out),
            Some(ScriptLine::Do(command)) => self.obey(command, out),
            None => match out.extend_from_slice(b"bad\n") {
                Ok(()) => Ok(()),
                Err(_) => Err(ScriptFault::NoMemory),
            },
        }
    }
}

// Writes the whole line, or fails after a part of it.
fn put_line<W: Write>(writer: &mut W, line: &[u8]) -> Result<(), ScriptFault>
    ensures ok { OnOk result (Appends (W.contents writer.old) (W.contents writer.new) line.now) }
    ensures err { IfErr result (λ f. f ≡ ScriptFault.Write) }
    ensures part { OnErr result ((k : ℕ) × (k < length line.now) × Appends (W.contents writer.old) (W.contents writer.new) (take k line.now)) }
{
    let mut done = 0;
    while done < line.len() {
        match writer.write(&line[done..]) {
            Ok(0) => return Err(ScriptFault::Write),
            Ok(n) => done += n,
            Err(_) => return Err(ScriptFault::Write),
        }
    }
    Ok(())
}

// The bytes before the first newline, and those after it, if there is one.
#[tactic(auto, using(crate::proofs::Scripts::LineLemmas::lines))]
fn split_line(bytes: &[u8]) -> Option<(&[u8], &[u8])>
    ensures { MatchOption result (HasNoNewline bytes.now)
        (λ found. HasNoNewline found.0.now × (bytes.now ≡ found.0.now ++ 10 ∷ found.1.now)) }
{
    let end = memchr(b'\n', bytes)?;
    Some((&bytes[..end], &bytes[end + 1..]))
}

// What a line says.
fn read_line(alloc: Global, line: &[u8]) -> Result<Option<ScriptLine>, ScriptFault>
    ensures ok { IfOk result (λ said. IsSaid line.now said) }
    ensures err { IfErr result (λ f. f ≡ ScriptFault.NoMemory) }
{
    match parse(alloc, line) {
        Ok(said) => Ok(said),
        Err(_) => Err(ScriptFault::NoMemory),
    }
}

// What the line says that consists of `part` and then `end`. The part is given up, so that a long line does not live on
// while its command runs.
fn read_end(
    alloc: Global,
    part: &mut Vec<u8>,
    end: &[u8],
) -> Result<Option<ScriptLine>, ScriptFault>
    ensures ok { IfOk result (λ said. IsSaid (part.old.items ++ end.now) said) }
    ensures given_up { OnOk result (part.new.items ≡ []) }
    ensures err { IfErr result (λ f. f ≡ ScriptFault.NoMemory) }
{
    if part.is_empty() {
        return read_line(alloc, end);
    }
    if part.extend_from_slice(end).is_err() {
        return Err(ScriptFault::NoMemory);
    }
    let said = read_line(alloc, part.as_slice());
    *part = Vec::new(alloc);
    said
}

// What is kept from one block of a script to the next.
#[derive(Drop)]
struct Runner {
    interpreter: Interpreter,
    // The beginning of a line whose end was not read yet.
    part: Vec<u8>,
    // What was printed for the last line: its room serves the next one.
    out: Vec<u8>,
}

impl Runner {
    // Runs the line that consists of `part` and then `end`, and writes what is printed for it.
    fn end_line<W: Write>(
        &mut self,
        alloc: Global,
        end: &[u8],
        writer: &mut W,
    ) -> Result<(), ScriptFault>
        requires part { HasNoNewline self.old.part.items }
        requires end { HasNoNewline end.now }
        ensures took { OnOk result (Took self.old.interpreter self.old.part.items (end.now ++ 10 ∷ []) (W.contents writer.old) (W.contents writer.new) self.new.interpreter []) }
        ensures given_up { OnOk result (self.new.part.items ≡ []) }
        ensures halts { IfErr result (λ fault. Halts fault self.old.interpreter self.old.part.items (end.now ++ 10 ∷ []) (W.contents writer.old) (W.contents writer.new)) }
    {
        let said = read_end(alloc, &mut self.part, end)?;
        self.interpreter.run_said(alloc, said, &mut self.out)?;
        put_line(writer, self.out.as_slice())
    }

    // Takes the next bytes of the script: runs each line that ends in them, and keeps the beginning of the next.
    fn take_block<W: Write>(
        &mut self,
        alloc: Global,
        block: &[u8],
        writer: &mut W,
    ) -> Result<(), ScriptFault>
        requires { HasNoNewline self.old.part.items }
        ensures took { OnOk result (Took self.old.interpreter self.old.part.items block.now (W.contents writer.old) (W.contents writer.new) self.new.interpreter self.new.part.items) }
        ensures clean { OnOk result (HasNoNewline self.new.part.items) }
        ensures halts { IfErr result (λ fault. Halts fault self.old.interpreter self.old.part.items block.now (W.contents writer.old) (W.contents writer.new)) }
    {
        let mut rest = block;
        while let Some((end, after)) = split_line(rest) {
            self.end_line(alloc, end, writer)?;
            rest = after;
        }
        match self.part.extend_from_slice(rest) {
            Ok(()) => Ok(()),
            Err(_) => Err(ScriptFault::NoMemory),
        }
    }

    // Runs the rest of the script, after a part of a line that was already read.
    fn run_blocks<R: Read, W: Write>(
        &mut self,
        alloc: Global,
        reader: &mut R,
        writer: &mut W,
    ) -> Result<(), ScriptFault>
        requires runs { Runs (R.remaining reader.old) (R.remaining reader.old) (W.contents writer.old) (W.contents writer.old) self.old.interpreter self.old.part.items }
        requires clean { HasNoNewline self.old.part.items }
        ensures ok { OnOk result (Ran (R.remaining reader.old) (R.remaining reader.new) (W.contents writer.old) (W.contents writer.new)) }
        ensures err { OnErr result (Stopped (R.remaining reader.old) (W.contents writer.old) (W.contents writer.new)) }
        ensures fault { IfErr result (λ fault. StoppedBy fault (R.remaining reader.old) (R.remaining reader.new) (W.contents writer.old) (W.contents writer.new)) }
    {
        let mut block = [0u8; BLOCK];
        for _ in 0..u64::MAX {
            let count = match reader.read(&mut block) {
                Ok(count) => count,
                Err(_) => return Err(ScriptFault::Read),
            };
            if count == 0 {
                if self.part.is_empty() {
                    return Ok(());
                }
                return self.end_line(alloc, &[], writer);
            }
            self.take_block(alloc, &block[..count], writer)?;
        }
        Err(ScriptFault::Read)
    }
}

/// Runs a script: reads it to its end, one command per line, and writes one line for each, whole before the
/// next is run. It begins with the usual settings and the session of the empty text. On a fault, the lines
/// before it were run and their output was written whole. A line that was not read whole was not run. If a
/// write failed, a part of the next line's output may be written. At most a block of 4096 bytes is read ahead.
pub fn run_script<R: Read, W: Write>(
    alloc: Global,
    reader: &mut R,
    writer: &mut W,
) -> Result<(), ScriptFault>
    ensures ok { OnOk result (Ran (R.remaining reader.old) (R.remaining reader.new) (W.contents writer.old) (W.contents writer.new)) }
    ensures err { OnErr result (Stopped (R.remaining reader.old) (W.contents writer.old) (W.contents writer.new)) }
    ensures fault { IfErr result (λ fault. StoppedBy fault (R.remaining reader.old) (R.remaining reader.new) (W.contents writer.old) (W.contents writer.new)) }
{
    let interpreter = Interpreter::start(alloc)?;
    let mut runner = Runner {
        interpreter,
        part: Vec::new(alloc),
        out: Vec::new(alloc),
    };
    runner.run_blocks(alloc, reader, writer)
}

/// What is printed for a text, also for one that a reply hands out, is read as that text again.
#[tactic(auto, using(crate::proofs::Scripts::PrintLemmas::escaped_read))]
pub fn escapes_are_read()
    ensures { (spaces : Bool) (t : List ℕ) → IsUtf8 t → Spells (escaped spaces t) t }
{}

/// A line has at most one meaning. Texts that commands hold are compared by their bytes, not by their room in memory.
#[tactic(auto, using(crate::proofs::Scripts::WordLemmas::means_one))]
pub fn one_meaning()
    ensures { (line : List ℕ) (m n : Meaning) → Means line m → Means line n → Same m n }
{}
