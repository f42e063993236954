//! A listener for tests, which hears a given number of changes and refuses the next.
ghost use Rattle.std.specs.Prelude.{◌≡◌, OnOk, IfOk, IfErr};
ghost use Rattle.std.specs.String.{string_bytes};
ghost use Rattle.rl_base.specs.RefuseAt.{Refuses, event_of, listed, new_hearing};

use crate::listeners::{ChangeListener, DeleteListener, Direction, Refusal};
use std::alloc::Global;
use std::marker::Model;

/// A change of a text, as a listener hears of it, with texts of its own. Places are bytes.
#[derive(Debug, PartialEq, Eq, Drop)]
pub enum TextEvent {
    /// A character is put in at a place.
    InsertChar(usize, char),
    /// A text is put in at a place.
    InsertStr(usize, String),
    /// A text is taken out at a place, from that side of the cursor.
    Delete(usize, String, Direction),
    /// A text at a place gives way to another.
    Replace(usize, String, String),
}

/// A listener for tests of code that uses a line: it hears a given number of changes, lists them, and refuses the next
/// with `Refusal::Listener`. If its list finds no memory it refuses with `Refusal::NoMemory`. A refusal leaves it as
/// it was. It counts the start and the stop of a kill, and never refuses them.
#[derive(Drop)]
pub struct RefuseAt {
    /// How many more changes it will hear.
    pub left: usize,
    /// The changes that it heard, the first one first.
    pub seen: Vec<TextEvent>,
    /// How many kills started, up to 65535.
    pub starts: u16,
    /// How many kills stopped, up to 65535.
    pub stops: u16,
}

impl Model for RefuseAt {
    ghost use Rattle.std.specs.Prelude.{Some, map};
    ghost use Rattle.rl_base.specs.RefuseAt.{Hearing, event_of};

    ghost Value = { Hearing };

    ghost view = { λ r. record { left = Some r.left; seen = map event_of r.seen.items; starts = r.starts; stops = r.stops } };
}

impl RefuseAt {
    /// One that hears `left` changes and refuses the next. It takes no memory.
    pub fn new(alloc: Global, left: usize) -> Self
        ensures { result ≡ new_hearing left }
    {
        RefuseAt {
            left,
            seen: Vec::new(alloc),
            starts: 0,
            stops: 0,
        }
    }

    // Lists one more change, if it will still hear one.
    fn list(&mut self, event: TextEvent) -> Result<(), Refusal>
        ensures ok { OnOk result (self.new ≡ listed (event_of event) self.old) }
        ensures err { IfErr result (λ r. Refuses self.old.left r × (self.new ≡ self.old)) }
    {
        let Some(left) = self.left.checked_sub(1) else {
            return Err(Refusal::Listener);
        };
        self.seen.push(event)?;
        self.left = left;
        Ok(())
    }

    // A copy of a text for its list, if it will still hear a change.
    fn copied(&self, text: &str) -> Result<String, Refusal>
        ensures ok { IfOk result (λ copy. string_bytes copy ≡ text.now) }
        ensures err { IfErr result (Refuses self.now.left) }
    {
        if self.left == 0 {
            return Err(Refusal::Listener);
        }
        Ok(String::from_str(*self.seen.allocator(), text)?)
    }
}

impl DeleteListener for RefuseAt {
    ghost use Rattle.rl_base.specs.RefuseAt.{hearing_step, hearing_refused};

    ghost step = { hearing_step };

    ghost refused = { hearing_refused };

    fn start_killing(&mut self) {
        self.starts = self.starts.saturating_add(1);
    }

    fn delete(&mut self, idx: usize, string: &str, dir: Direction) -> Result<(), Refusal> {
        let gone = self.copied(string)?;
        self.list(TextEvent::Delete(idx, gone, dir))
    }

    fn stop_killing(&mut self) {
        self.stops = self.stops.saturating_add(1);
    }

    fn cursors(&mut self, _before: usize, _after: usize) {}
}

impl ChangeListener for RefuseAt {
    fn insert_char(&mut self, idx: usize, c: char) -> Result<(), Refusal> {
        self.list(TextEvent::InsertChar(idx, c))
    }

    fn insert_str(&mut self, idx: usize, string: &str) -> Result<(), Refusal> {
        let come = self.copied(string)?;
        self.list(TextEvent::InsertStr(idx, come))
    }

    fn replace(&mut self, idx: usize, old: &str, new: &str) -> Result<(), Refusal> {
        let gone = self.copied(old)?;
        let come = self.copied(new)?;
        self.list(TextEvent::Replace(idx, gone, come))
    }
}
