//! Reports in order, with their texts one after another in one text.
ghost use Rattle.std.specs.Prelude.{◌≡◌, ◌+◌, ◌-◌, ◌^◌, ◌<◌, ◌≤◌, ◌⊎◌, ◌++◌, ◌∷◌, [], None, IfErr, IfOk, OnOk, drop, encode_utf8, length, option_map};
ghost use Rattle.std.specs.Str.{IsCharBoundary};
ghost use Rattle.std.specs.String.{string_bytes, string_capacity};
ghost use Rattle.std.specs.VecDeque.{deque_len, deque_capacity};
ghost use Rattle.rl_base.specs.declared.listeners.Refusal.TheVariants.{NoMemory};
ghost use Rattle.rl_base.specs.declared.reports.ReportKind.TheVariants.{CharInserted};
ghost use Rattle.rl_base.specs.Notes.{KeepsRoom, Lacks, NotKept, bytes_kept};
ghost use Rattle.rl_base.specs.Reports.{Whole, joined, kept, noted, oldest, on_last, reports_of, text_bytes, texts_of, told_cursors, told_note};

use crate::listeners::Refusal;
use crate::reports::{Joined, NOTHING_JOINED, Report, ReportKind};
use std::alloc::Global;
use std::collections::VecDeque;
use std::marker::Model;

/// Reports that wait, the oldest first, each with its texts: what went, and right after it what came; and the texts of the
/// report that was taken last. What is taken costs no more than what was put in.
#[derive(Drop)]
pub(crate) struct Notes {
    // How many bytes of texts may wait; 0 if none are kept.
    text_room: usize,
    waiting: VecDeque<Report>,
    // The texts of the reports that wait, one after another. Before them stand those of reports that were taken. If these
    // are more, they are dropped before another is put in, so that not all move then.
    texts: String,
    // How many bytes of the texts are of reports that were taken.
    spent: usize,
    // Where among them those of the report begin that was taken last.
    taken_at: usize,
}

impl Model for Notes {
    ghost use Rattle.std.specs.Prelude.{◌≤◌, drop, length, slice_range};
    ghost use Rattle.std.specs.Str.{IsCharBoundary};
    ghost use Rattle.std.specs.String.{string_bytes, string_capacity};
    ghost use Rattle.std.specs.VecDeque.{deque_capacity};
    ghost use Rattle.rl_base.specs.Notes.{Cuts, Notes, notes};

    ghost Value = { Notes };

    ghost view = { λ n. record {
      text_room = n.text_room;
      waiting = notes n.text_room n.waiting.items (drop n.spent (string_bytes n.texts));
      taken = slice_range (string_bytes n.texts) n.taken_at n.spent;
      places = deque_capacity n.waiting;
      bytes = string_capacity n.texts;
    } };

    ghost invariant = { λ n. (n.taken_at ≤ n.spent) × (n.spent ≤ length (string_bytes n.texts)) × IsCharBoundary (string_bytes n.texts) n.taken_at
        × Cuts n.text_room n.waiting.items (drop n.spent (string_bytes n.texts)) };
}

impl Notes {
    /// Nothing waits, and there is memory for so many reports and, with taken ones before them, for so many bytes of texts.
    /// Refused only if memory is out, and never if it needs none.
    pub(crate) fn with_room(alloc: Global, room: usize, text_room: usize) -> Result<Self, Refusal>
        ensures ok { IfOk result (λ n. (n.text_room ≡ text_room) × (n.waiting ≡ []) × (n.taken ≡ []) × (room ≤ n.places) × (text_room + text_room ≤ n.bytes)) }
        ensures err { IfErr result (λ r. (r ≡ NoMemory) × ((0 < room) ⊎ (0 < text_room))) }
    {
        let Some(bytes) = text_room.checked_add(text_room) else {
            return Err(Refusal::NoMemory);
        };
        let waiting = VecDeque::with_capacity(alloc, room)?;
        let texts = String::with_capacity(alloc, bytes)?;
        Ok(Notes {
            text_room,
            waiting,
            texts,
            spent: 0,
            taken_at: 0,
        })
    }

    /// How many reports wait.
    #[inline(always)]
    #[tactic(auto, using(crate::proofs::Queue::QueueLemmas::counted))]
    pub(crate) fn len(&self) -> usize
        ensures { result ≡ length self.now.waiting }
    {
        self.waiting.len()
    }

    /// How many bytes of texts may wait; 0 if none are kept.
    #[inline(always)]
    pub(crate) fn text_room(&self) -> usize
        ensures { result ≡ self.now.text_room }
    {
        self.text_room
    }

    /// How many bytes of texts wait.
    #[inline(always)]
    #[tactic(auto, using(crate::proofs::Queue::QueueLemmas::counted))]
    pub(crate) fn text_len(&self) -> usize
        ensures { result ≡ text_bytes self.now.waiting }
    {
        self.texts.len() - self.spent
    }

    // All that wait as one.
    #[tactic(auto, using(crate::proofs::Queue::QueueLemmas::joining))]
    pub(crate) fn as_one(&self) -> Joined
        ensures { result ≡ joined (reports_of self.now.waiting) }
    {
        let (first, rest) = self.waiting.as_slices();
        let mut all = NOTHING_JOINED;
        all.take_all(first);
        all.take_all(rest);
        all
    }

    /// Takes the oldest report off those that wait; None if none does. `taken_texts` lends its texts.
    pub(crate) fn take(&mut self) -> Option<Report>
        ensures taken { result ≡ option_map (λ n. n.report) (oldest (Whole self.old.waiting)) }
        ensures waiting { self.new.waiting ≡ drop 1 self.old.waiting }
        ensures texts { self.new.taken ≡ texts_of (oldest (Whole self.old.waiting)) }
        ensures room { KeepsRoom self.old self.new }
    {
        self.taken_at = self.spent;
        let oldest = self.waiting.pop_front()?;
        self.spent += bytes_kept(self.text_room, &oldest);
        Some(oldest)
    }

    /// The texts of the report that was taken last: what went, and right after it what came. Empty if none are kept, if none
    /// waited then, and once another is put in.
    #[tactic(auto, using(crate::proofs::Queue::QueueLemmas::at_spent))]
    pub(crate) fn taken_texts(&self) -> &str
        ensures { result.now ≡ self.now.taken }
    {
        &self.texts.as_str()[self.taken_at..self.spent]
    }

    /// Forgets all.
    pub(crate) fn clear(&mut self)
        ensures { self.new ≡ record self.old { waiting = []; taken = [] } }
    {
        self.waiting.clear();
        self.texts.clear();
        self.spent = 0;
        self.taken_at = 0;
    }

    /// Puts a report at the end: at a place what went gave way to what came. There is memory for one more. Refused only if memory
    /// is out for its texts, and all that wait do so then too.
    #[tactic(auto, using(crate::proofs::Queue::QueueLemmas::counted))]
    pub(crate) fn push(
        &mut self,
        kind: ReportKind,
        at: usize,
        gone: &str,
        come: &str,
    ) -> Result<(), Refusal>
        requires { length self.old.waiting < self.old.places }
        ensures done { OnOk result (self.new.waiting ≡ self.old.waiting ++ noted self.old.text_room kind at gone.now come.now ∷ []) }
        ensures err { IfErr result (λ r. (r ≡ NoMemory) × (self.new.waiting ≡ self.old.waiting) × Lacks (gone.now ++ come.now) self.old) }
        ensures texts { self.new.taken ≡ [] }
        ensures room { KeepsRoom self.old self.new }
    {
        self.spent = drop_spent(&mut self.texts, self.spent);
        self.taken_at = self.spent;
        keep_texts(&mut self.texts, self.text_room, gone, come)?;
        let report = report_of(kind, at, gone.len(), come.len());
        self.waiting.push_back_reserved(report);
        Ok(())
    }

    /// Puts a report at the end: at a place a character came. Texts are kept. All else is as of `push`.
    #[inline(always)]
    #[tactic(auto, using(crate::proofs::Queue::QueueLemmas::counted))]
    pub(crate) fn push_char(&mut self, at: usize, c: char) -> Result<(), Refusal>
        requires keeps { 0 < self.old.text_room }
        requires place { length self.old.waiting < self.old.places }
        ensures done { OnOk result (self.new.waiting ≡ self.old.waiting ++ noted self.old.text_room CharInserted at [] (encode_utf8 c) ∷ []) }
        ensures err { IfErr result (λ r. (r ≡ NoMemory) × (self.new.waiting ≡ self.old.waiting) × Lacks (encode_utf8 c) self.old) }
        ensures texts { self.new.taken ≡ [] }
        ensures room { KeepsRoom self.old self.new }
    {
        self.spent = drop_spent(&mut self.texts, self.spent);
        self.taken_at = self.spent;
        self.texts.push(c)?;
        let report = report_of(ReportKind::CharInserted, at, 0, c.len_utf8());
        self.waiting.push_back_reserved(report);
        Ok(())
    }

    // Puts a report at the end, of which no texts are kept. There is memory for it.
    #[inline(always)]
    #[tactic(auto, using(crate::proofs::Queue::QueueLemmas::counted))]
    pub(crate) fn push_numbers(&mut self, report: Report)
        requires none { self.old.text_room ≡ 0 }
        requires place { length self.old.waiting < self.old.places }
        ensures { self.new ≡ record self.old { waiting = self.old.waiting ++ record { report = report; texts = [] } ∷ []; taken = [] } }
    {
        self.taken_at = self.spent;
        self.waiting.push_back_reserved(report);
    }

    /// Tells the last report where the cursor was before it and after it, if that is a change.
    #[inline(always)]
    #[tactic(auto, using(crate::proofs::Queue::QueueLemmas::notes_told))]
    pub(crate) fn tell_last(&mut self, before: usize, after: usize)
        ensures { self.new ≡ record self.old { waiting = on_last (told_note before after) self.old.waiting } }
    {
        tell_last(&mut self.waiting, before, after);
    }
}

// Tells the last report where the cursor was before it and after it, if that is a change.
#[inline(always)]
#[tactic(auto, using(crate::proofs::Queue::QueueLemmas::telling))]
fn tell_last(waiting: &mut VecDeque<Report>, before: usize, after: usize)
    ensures items { waiting.new.items ≡ on_last (told_cursors before after) waiting.old.items }
    ensures len { deque_len waiting.new ≡ deque_len waiting.old }
    ensures capacity { deque_capacity waiting.new ≡ deque_capacity waiting.old }
{
    let Some(last) = waiting.back_mut() else {
        return;
    };
    if last.kind.is_change() {
        last.cursors = Some((before, after));
    }
}

// Drops the spent texts if they are more than those that wait, so that a byte moves at most once for each that was taken.
fn drop_spent(texts: &mut String, spent: usize) -> usize
    requires { IsCharBoundary (string_bytes texts.old) spent }
    ensures left { drop result (string_bytes texts.new) ≡ drop spent (string_bytes texts.old) }
    ensures less { result + result ≤ length (string_bytes texts.new) }
    ensures capacity { string_capacity texts.old ≤ string_capacity texts.new }
{
    let waiting = texts.len() - spent;
    // Mostly none waits.
    if waiting == 0 {
        texts.clear();
        return 0;
    }
    if spent <= waiting {
        return spent;
    }
    if texts.replace_range(..spent, "").is_err() {
        unreachable!();
    }
    0
}

// Puts what went and what came at the end, if texts are kept, or neither if memory is out.
#[tactic(auto, using(crate::proofs::Texts::TextLemmas::seams))]
fn keep_texts(texts: &mut String, text_room: usize, gone: &str, come: &str) -> Result<(), Refusal>
    ensures done { OnOk result (string_bytes texts.new ≡ string_bytes texts.old ++ kept text_room (gone.now ++ come.now)) }
    ensures err { IfErr result (NotKept text_room (gone.now ++ come.now) texts.old texts.new) }
    ensures capacity { string_capacity texts.old ≤ string_capacity texts.new }
{
    if text_room == 0 {
        return Ok(());
    }
    let len = texts.len();
    texts.push_str(gone)?;
    if let Err(why) = texts.push_str(come) {
        texts.truncate(len);
        return Err(why.into());
    }
    Ok(())
}

// A report of a change, of which no cursor is told yet.
#[inline(always)]
pub(crate) fn report_of(kind: ReportKind, at: usize, old_len: usize, new_len: usize) -> Report
    ensures { result ≡ record { kind = kind; at = at; old_len = old_len; new_len = new_len; cursors = None } }
{
    Report {
        kind,
        at,
        old_len,
        new_len,
        cursors: None,
    }
}

// How many bytes of texts are kept of a report.
pub(crate) fn bytes_kept(text_room: usize, report: &Report) -> usize
    requires { bytes_kept text_room report.now < 2 ^ 64 }
    ensures { result ≡ bytes_kept text_room report.now }
{
    if text_room == 0 {
        return 0;
    }
    report.old_len + report.new_len
}
