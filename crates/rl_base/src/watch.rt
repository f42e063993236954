//! What changed in a text since it was asked last, and a queue of reports for who wants each change.
ghost use Rattle.std.specs.Prelude.{◌≡◌, ◌<◌, None, Some, IfErr, OnOk};
ghost use Rattle.std.specs.Option.{option_map};
ghost use Rattle.rl_base.specs.Reports.{new_queue};
ghost use Rattle.rl_base.specs.Splice.{told, untouched};
ghost use Rattle.rl_base.specs.Watch.{RefusesQueue, new_watch, next_note, past_next, taken_texts, waiting_count};

use crate::listeners::{ChangeListener, DeleteListener, Direction, Refusal};
use crate::reports::{Report, Reports};
use crate::splice::{Splice, UNTOUCHED};
use std::alloc::Global;
use std::marker::Model;
use thiserror::Error;

/// Why no queue of reports was made.
#[derive(Clone, Copy, Debug, PartialEq, Eq, Error)]
pub enum WatchFault {
    /// Memory is out for the room of the queue.
    #[error("out of memory")]
    NoMemory = 1,
    /// The queue would have room for no report.
    #[error("the report queue must have room for at least one report")]
    NoRoom = 2,
    /// There is a queue already.
    #[error("there is a queue of reports already")]
    IsWatched = 3,
}

// The numbers are part of the interface.
const _: () = prove!(WatchFault::NoMemory as u8 == 1);

const _: () = prove!(WatchFault::NoRoom as u8 == 2);

const _: () = prove!(WatchFault::IsWatched as u8 == 3);

/// A listener that tells what changed since it was asked last, as one splice, for what draws, highlights or copies a
/// text. For each change, ask it to keep a queue of reports. It refuses nothing, and takes no memory but the
/// queue's room.
#[derive(Drop)]
pub struct Watch {
    changed: Splice,
    reports: Option<Reports>,
}

impl Model for Watch {
    ghost use Rattle.rl_base.specs.Watch.{Watched};

    ghost Value = { Watched };

    ghost view = { λ w. record { changed = w.changed; reports = w.reports } };
}

impl Watch {
    /// A watch that has seen no change, and keeps no reports.
    pub fn new() -> Self
        ensures { result ≡ new_watch }
    {
        Watch {
            changed: UNTOUCHED,
            reports: None,
        }
    }

    /// What changed since this was asked last, or since the watch was made; None if nothing did. Asked again, it
    /// tells only what changes from now on. The reports are another matter.
    pub fn changed(&mut self) -> Option<Splice>
        ensures told { result ≡ told self.old.changed }
        ensures again { self.new ≡ record self.old { changed = untouched } }
    {
        let all = self.changed;
        self.changed = UNTOUCHED;
        all.told()
    }

    /// Keeps a report of each change from now on, in a queue with room for `room` reports and for `text_room` bytes of
    /// their texts. Without texts it keeps numbers alone, and at most one report waits: a change that comes before it was read is
    /// folded into it, so what came is always in the present text. All room is found here. Refused, it changes nothing.
    pub fn keep_reports(
        &mut self,
        alloc: Global,
        room: usize,
        text_room: usize,
    ) -> Result<(), WatchFault>
        ensures ok { OnOk result ((0 < room) × (self.old.reports ≡ None) × (self.new ≡ record self.old { reports = Some (new_queue room text_room) })) }
        ensures err { IfErr result (λ fault. RefusesQueue fault room self.old × (self.new ≡ self.old)) }
    {
        if room == 0 {
            return Err(WatchFault::NoRoom);
        }
        if self.reports.is_some() {
            return Err(WatchFault::IsWatched);
        }
        match Reports::new(alloc, room, text_room) {
            Ok(reports) => {
                self.reports = Some(reports);
                Ok(())
            }
            Err(_) => Err(WatchFault::NoMemory),
        }
    }

    /// Keeps no reports any more. Those that wait are dropped, and their memory is freed.
    pub fn stop_reports(&mut self)
        ensures { self.new ≡ record self.old { reports = None } }
    {
        self.reports = None;
    }

    /// How many reports wait; a folded one counts as one. 0 if none are kept.
    pub fn waiting_reports(&self) -> usize
        ensures { result ≡ waiting_count self.now }
    {
        match &self.reports {
            Some(reports) => reports.waiting(),
            None => 0,
        }
    }

    /// Takes the oldest report that waits; None if none does, or none are kept. `taken_texts` lends its texts.
    pub fn take_report(&mut self) -> Option<Report>
        ensures taken { result ≡ option_map (λ n. n.report) (next_note self.old) }
        ensures left { self.new ≡ past_next self.old }
    {
        match &mut self.reports {
            Some(reports) => reports.take(),
            None => None,
        }
    }

    /// The texts of the report that was taken last, until the watch hears of another change or mark: what went, and right
    /// after it what came. Empty if no texts are kept, of a folded report, and if none waited.
    pub fn taken_texts(&self) -> &str
        ensures { result.now ≡ taken_texts self.now }
    {
        match &self.reports {
            Some(reports) => reports.taken_texts(),
            None => "",
        }
    }
}

impl DeleteListener for Watch {
    ghost use Rattle.rl_base.specs.Watch.{watch_step};

    ghost step = { watch_step };

    ghost refused = { λ _ _ _ _. ⊥ };

    fn start_killing(&mut self) {
        if let Some(reports) = &mut self.reports {
            reports.start_killing();
        }
    }

    #[inline(always)]
    fn delete(&mut self, idx: usize, string: &str, dir: Direction) -> Result<(), Refusal> {
        self.changed.fold(idx, string.len(), 0);
        match &mut self.reports {
            Some(reports) => reports.delete(idx, string, dir),
            None => Ok(()),
        }
    }

    fn stop_killing(&mut self) {
        if let Some(reports) = &mut self.reports {
            reports.stop_killing();
        }
    }

    #[inline(always)]
    fn cursors(&mut self, before: usize, after: usize) {
        if let Some(reports) = &mut self.reports {
            reports.cursors(before, after);
        }
    }
}

impl ChangeListener for Watch {
    #[inline(always)]
    fn insert_char(&mut self, idx: usize, c: char) -> Result<(), Refusal> {
        self.changed.fold(idx, 0, c.len_utf8());
        match &mut self.reports {
            Some(reports) => reports.insert_char(idx, c),
            None => Ok(()),
        }
    }

    #[inline(always)]
    fn insert_str(&mut self, idx: usize, string: &str) -> Result<(), Refusal> {
        self.changed.fold(idx, 0, string.len());
        match &mut self.reports {
            Some(reports) => reports.insert_str(idx, string),
            None => Ok(()),
        }
    }

    #[inline(always)]
    fn replace(&mut self, idx: usize, old: &str, new: &str) -> Result<(), Refusal> {
        self.changed.fold(idx, old.len(), new.len());
        match &mut self.reports {
            Some(reports) => reports.replace(idx, old, new),
            None => Ok(()),
        }
    }
}
