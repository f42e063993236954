//! A queue of reports of changes, for who reads late.
ghost use Rattle.std.specs.Prelude.{◌≡◌, ℕ, ◌^◌, ◌<◌, ◌⊎◌, [], Bool, List, None, Some, encode_utf8, false, fold, true, length, option_map, IfErr, IfOk};
ghost use Rattle.std.specs.Str.{IsCharBoundary};
ghost use Rattle.rl_base.specs.declared.listeners.Refusal.TheVariants.{NoMemory};
ghost use Rattle.rl_base.specs.declared.reports.ReportKind.TheVariants.{CharInserted};
ghost use Rattle.rl_base.specs.Event.{Event, Cursors, Start, Stop, apply};
ghost use Rattle.rl_base.specs.Reports.{AsOne, HasTexts, IsChange, IsLineText, LacksTexts, Leads, Noted, Queue, ReadsTexts, ReadsWhole, as_one, count_of, has_room_in, is_change, joined_cursors, new_queue, noting, oldest, past_oldest, queue_step, queue_with, taken_in, told_whole};

use crate::listeners::{ChangeListener, DeleteListener, Direction, Refusal};
use crate::notes::{Notes, bytes_kept, report_of};
use crate::splice::{Splice, UNTOUCHED};
use std::alloc::Global;
use std::marker::Model;

/// What kind of change a report is of.
#[derive(Clone, Copy, Debug, PartialEq, Eq)]
pub enum ReportKind {
    /// A character was put in.
    CharInserted = 1,
    /// A text was put in.
    TextInserted = 2,
    /// A text was taken out, from the cursor on.
    DeletedForward = 3,
    /// A text was taken out, up to the cursor.
    DeletedBackward = 4,
    /// A text gave way to another.
    Replaced = 5,
    /// A kill began. The text is as it was.
    KillStarted = 6,
    /// A kill ended. The text is as it was.
    KillStopped = 7,
    /// All that waited, as one change: there was no room to keep it apart.
    Folded = 8,
}

// The numbers are part of the interface.
const _: () = prove!(ReportKind::CharInserted as u8 == 1);

const _: () = prove!(ReportKind::TextInserted as u8 == 2);

const _: () = prove!(ReportKind::DeletedForward as u8 == 3);

const _: () = prove!(ReportKind::DeletedBackward as u8 == 4);

const _: () = prove!(ReportKind::Replaced as u8 == 5);

const _: () = prove!(ReportKind::KillStarted as u8 == 6);

const _: () = prove!(ReportKind::KillStopped as u8 == 7);

const _: () = prove!(ReportKind::Folded as u8 == 8);

impl ReportKind {
    // Whether the text changed. A kill's start and stop are marks.
    pub(crate) fn is_change(self) -> bool
        ensures { result ≡ is_change self }
    {
        match self {
            ReportKind::CharInserted
            | ReportKind::TextInserted
            | ReportKind::DeletedForward
            | ReportKind::DeletedBackward
            | ReportKind::Replaced
            | ReportKind::Folded => true,
            ReportKind::KillStarted | ReportKind::KillStopped => false,
        }
    }
}

/// One change of a text: at a place some bytes gave way to others. Places and lengths are in bytes.
#[derive(Clone, Copy, Debug, PartialEq, Eq)]
pub struct Report {
    /// What kind of change it is.
    pub kind: ReportKind,
    /// Where the change begins, in bytes; 0 for a kill's start and stop.
    pub at: usize,
    /// How many bytes went.
    pub old_len: usize,
    /// How many bytes came in their place.
    pub new_len: usize,
    /// The byte places of the cursor before and after, if they were told.
    pub cursors: Option<(usize, usize)>,
}

// Changes as one.
#[derive(Clone, Copy)]
pub(crate) struct Joined {
    splice: Splice,
    // The first cursor before, and the last one after.
    cursors: Option<(usize, usize)>,
}

// Nothing as one.
pub(crate) const NOTHING_JOINED: Joined = Joined {
    splice: UNTOUCHED,
    cursors: None,
};

impl Joined {
    // Takes one more report in.
    pub(crate) fn take_in(&mut self, report: Report)
        ensures { self.new ≡ taken_in self.old report }
    {
        self.cursors = join_cursors(self.cursors, report.cursors);
        if report.kind.is_change() {
            self.splice.fold(report.at, report.old_len, report.new_len);
        }
    }

    // Takes more reports in.
    pub(crate) fn take_all(&mut self, reports: &[Report])
        ensures { self.new ≡ fold taken_in self.old reports.now }
    {
        for report in reports {
            self.take_in(*report);
        }
    }

    // Tells it where the cursor was before the last change and after it. Cold, since mostly reports stand apart.
    #[cold]
    #[inline(never)]
    fn tell(&mut self, before: usize, after: usize)
        ensures { self.new ≡ record self.old { cursors = joined_cursors self.old.cursors (Some (before, after)) } }
    {
        self.cursors = join_cursors(self.cursors, Some((before, after)));
    }

    // All as one report.
    fn report(self) -> Report
        ensures { result ≡ told_whole self }
    {
        let at = self.splice.from.min(self.splice.old_end);
        Report {
            kind: ReportKind::Folded,
            at,
            old_len: self.splice.old_end - at,
            new_len: self.splice.new_end.saturating_sub(at),
            cursors: self.cursors,
        }
    }
}

// Two pairs of cursors as one: the first before, and the last after.
fn join_cursors(
    first: Option<(usize, usize)>,
    later: Option<(usize, usize)>,
) -> Option<(usize, usize)>
    ensures { result ≡ joined_cursors first later }
{
    let Some((before, _)) = first else {
        return later;
    };
    let Some((_, after)) = later else {
        return first;
    };
    Some((before, after))
}

/// A queue of reports of changes, for a late reader: what it hears as a listener becomes a report, which waits until it
/// is taken. It refuses nothing, and takes no memory once it is made. If there is no room for one more report,
/// or for its texts, all that waits and the new one become one report of the kind `Folded`, which takes in each later
/// change too, until it is taken. A late reader loses detail, but never gets out of step. Without texts at most one report waits: a
/// change that comes before it was read is folded into it, so what came is always in the present text.
#[derive(Drop)]
pub struct Reports {
    room: usize,
    notes: Notes,
    // All as one. While it is there, no reports wait.
    folded: Option<Joined>,
}

impl Model for Reports {
    ghost use Rattle.rl_base.specs.Reports.{IsQueue, Queue, waiting_of};

    ghost Value = { Queue };

    ghost view = { λ r. record { room = r.room; text_room = r.notes.text_room; waiting = waiting_of r.folded r.notes.waiting; taken = r.notes.taken } };

    ghost invariant = { λ r. IsQueue r.room r.notes.text_room r.notes.places r.notes.bytes r.notes.waiting r.folded };
}

impl Reports {
    /// An empty queue with room for `room` reports and for `text_room` bytes of their texts. Without texts at most one report
    /// waits: a change that comes before it was read is folded into it, so what came is always in the present text. Refused
    /// only if memory is out, and never if it needs none.
    pub fn new(alloc: Global, room: usize, text_room: usize) -> Result<Self, Refusal>
        ensures ok { IfOk result (λ reports. reports ≡ new_queue room text_room) }
        ensures err { IfErr result (λ r. (r ≡ NoMemory) × ((0 < room) ⊎ (0 < text_room))) }
    {
        let room = if text_room == 0 { room.min(1) } else { room };
        let notes = Notes::with_room(alloc, room, text_room)?;
        Ok(Reports {
            room,
            notes,
            folded: None,
        })
    }

    /// How many reports wait; a folded one counts as one.
    pub fn waiting(&self) -> usize
        ensures { result ≡ count_of self.now.waiting }
    {
        if self.folded.is_some() {
            return 1;
        }
        self.notes.len()
    }

    /// Takes the oldest report that waits; None if none does. `taken_texts` lends its texts.
    pub fn take(&mut self) -> Option<Report>
        ensures taken { result ≡ option_map (λ n. n.report) (oldest self.old.waiting) }
        ensures left { self.new ≡ past_oldest self.old }
    {
        let Some(all) = self.folded else {
            return self.notes.take();
        };
        self.folded = None;
        self.notes.clear();
        Some(all.report())
    }

    /// The texts of the report that was taken last, until it hears of another change or mark: what went, and right after
    /// it what came. Empty if no texts are kept, of a folded report, and if none waited.
    pub fn taken_texts(&self) -> &str
        ensures { result.now ≡ self.now.taken }
    {
        self.notes.taken_texts()
    }

    // Whether one more report would find room, with so many bytes of texts.
    fn has_room(&self, bytes: usize) -> bool
        ensures { result ≡ has_room_in self.now.room self.now.text_room bytes self.now.waiting }
    {
        if self.folded.is_some() {
            return false;
        }
        self.notes.len() < self.room && bytes <= self.notes.text_room() - self.notes.text_len()
    }

    // All that waits, as one.
    fn as_one(&self) -> Joined
        ensures { result ≡ as_one self.now.waiting }
    {
        if let Some(all) = self.folded {
            return all;
        }
        self.notes.as_one()
    }

    // Makes one of all that waits and one more report. Cold, since mostly there is room.
    #[cold]
    #[inline(never)]
    fn fold_in(&mut self, report: Report)
        ensures { self.new ≡ record self.old { waiting = AsOne (taken_in (as_one self.old.waiting) report); taken = [] } }
    {
        let mut all = self.as_one();
        all.take_in(report);
        self.notes.clear();
        self.folded = Some(all);
    }

    // Notes that at a place what went gave way to what came.
    fn note(&mut self, kind: ReportKind, at: usize, gone: &str, come: &str)
        ensures { self.new ≡ noting kind at gone.now come.now self.old }
    {
        let report = report_of(kind, at, gone.len(), come.len());
        if !self.has_room(bytes_kept(self.notes.text_room(), &report)) {
            self.fold_in(report);
            return;
        }
        if self.notes.push(kind, at, gone, come).is_err() {
            unreachable!();
        }
    }

    // Notes a report if no texts are kept. Inlined, so that a letter that is reported costs no call.
    #[inline(always)]
    fn note_numbers(&mut self, report: Report)
        requires { self.old.text_room ≡ 0 }
        ensures { self.new ≡ queue_with (record { report = report; texts = [] }) self.old }
    {
        if !self.has_room(0) {
            self.fold_in(report);
            return;
        }
        self.notes.push_numbers(report);
    }

    // Notes that a character was put in, if texts are kept.
    #[inline(never)]
    fn note_char(&mut self, at: usize, c: char)
        requires { 0 < self.old.text_room }
        ensures { self.new ≡ noting CharInserted at [] (encode_utf8 c) self.old }
    {
        let len = c.len_utf8();
        if !self.has_room(len) {
            self.fold_in(report_of(ReportKind::CharInserted, at, 0, len));
            return;
        }
        if self.notes.push_char(at, c).is_err() {
            unreachable!();
        }
    }
}

// Only what a typed letter goes through is inlined, so that who keeps no reports pays for no more than the question.
impl DeleteListener for Reports {
    ghost use Rattle.rl_base.specs.Reports.{queue_step};

    ghost step = { queue_step };

    ghost refused = { λ _ _ _ _. ⊥ };

    #[inline(never)]
    fn start_killing(&mut self) {
        self.note(ReportKind::KillStarted, 0, "", "");
    }

    #[inline(never)]
    fn delete(&mut self, idx: usize, string: &str, dir: Direction) -> Result<(), Refusal> {
        match dir {
            Direction::Forward => self.note(ReportKind::DeletedForward, idx, string, ""),
            Direction::Backward => self.note(ReportKind::DeletedBackward, idx, string, ""),
        }
        Ok(())
    }

    #[inline(never)]
    fn stop_killing(&mut self) {
        self.note(ReportKind::KillStopped, 0, "", "");
    }

    #[inline(always)]
    fn cursors(&mut self, before: usize, after: usize) {
        match &mut self.folded {
            Some(all) => all.tell(before, after),
            None => self.notes.tell_last(before, after),
        }
    }
}

impl ChangeListener for Reports {
    #[inline(always)]
    fn insert_char(&mut self, idx: usize, c: char) -> Result<(), Refusal> {
        if self.notes.text_room() > 0 {
            self.note_char(idx, c);
            return Ok(());
        }
        self.note_numbers(report_of(ReportKind::CharInserted, idx, 0, c.len_utf8()));
        Ok(())
    }

    #[inline(never)]
    fn insert_str(&mut self, idx: usize, string: &str) -> Result<(), Refusal> {
        self.note(ReportKind::TextInserted, idx, "", string);
        Ok(())
    }

    #[inline(never)]
    fn replace(&mut self, idx: usize, old: &str, new: &str) -> Result<(), Refusal> {
        self.note(ReportKind::Replaced, idx, old, new);
        Ok(())
    }
}

/// Who reads late loses detail, and never step. A new queue leads from each text to itself. A queue that leads from a text
/// to another, and hears of a change of that, leads to the changed text; if cursors are told after each change, between two
/// characters, it leads on with them. What its oldest report tells leads on: with texts, to the text in which what went gave way
/// to the end of its texts, and from there what is left leads on; without texts it is all that waits, and what came stands in the
/// present text. The cursors of a report stand in the texts before it and after it. If nothing waits, the text is as it was.
pub fn no_step_is_lost()
    ensures new { (placed : Bool) (room text_room : ℕ) (text : List ℕ) → Leads placed (new_queue room text_room) text text }
    ensures heard { (q : Queue) (event : Event) (old text new : List ℕ) → Leads false q old text → IsLineText old → IsLineText text → length new < 2 ^ 64
        → apply event text ≡ Some new → Leads false (queue_step q event) old new }
    ensures placed { (q : Queue) (event : Event) (before after : ℕ) (old text new : List ℕ) → Leads true q old text → IsLineText old
        → IsLineText text → length new < 2 ^ 64 → IsChange event → IsCharBoundary text before → apply event text ≡ Some new → IsCharBoundary new after
        → Leads true (queue_step (queue_step q event) (Cursors before after)) old new }
    ensures marked { (placed : Bool) (q : Queue) (old new : List ℕ) → Leads placed q old new → IsLineText old → IsLineText new
        → Leads placed (queue_step q Start) old new × Leads placed (queue_step q Stop) old new }
    ensures nothing { (placed : Bool) (q : Queue) (old new : List ℕ) → Leads placed q old new → oldest q.waiting ≡ None → new ≡ old }
    ensures with_texts { (placed : Bool) (q : Queue) (note : Noted) (old new : List ℕ) → Leads placed q old new → IsLineText old
        → oldest q.waiting ≡ Some note → HasTexts q.text_room note.report → ReadsTexts placed q note old new }
    ensures whole { (placed : Bool) (q : Queue) (note : Noted) (old new : List ℕ) → Leads placed q old new
        → oldest q.waiting ≡ Some note → LacksTexts q.text_room note.report → ReadsWhole placed q note old new }
{}
