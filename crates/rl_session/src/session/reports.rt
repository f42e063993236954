//! What changed in a session's text: as one splice since it was asked last, and as reports of each change.
ghost use Rattle.std.specs.Prelude.{◌≡◌, ◌<◌, List, ℕ, Some, IfErr, MatchOption, None, OnOk, option_map};
ghost use Rattle.rl_base.specs.Reports.{HasTexts, LacksTexts, Noted, Stand, TellsByTexts, after_numbers, after_texts, new_queue, texts_of};
ghost use Rattle.rl_base.specs.Splice.{Splices, told, untouched};
ghost use Rattle.rl_base.specs.Watch.{RefusesQueue, next_note, past_next, taken_texts, text_room};
ghost use Rattle.rl_session.specs.State.{ChangedFrom, ReportedFrom, with_watch};

use crate::session::Session;
use rl_base::{Report, Splice, WatchFault};

impl Session {
    /// What changed in the text since this was asked last, or since the session was made, as one splice: what stands
    /// between two places of the text as it was then gave way to what stands between two places of the present text, all
    /// in bytes, and each between two characters. None if nothing changed. It is so whatever changed the text, also a
    /// command that was refused halfway, an undo and a redo.
    pub fn changed(&mut self) -> Option<Splice>
        ensures told { result ≡ told self.old.pair.watch.changed }
        ensures splices { (asked : List ℕ) → ChangedFrom asked self.old
            → MatchOption result (self.old.line.text ≡ asked) (λ splice. Splices splice asked self.old.line.text) }
        ensures again { ChangedFrom self.new.line.text self.new }
        ensures rest { self.new ≡ with_watch (record self.old.pair.watch { changed = untouched }) self.old }
    {
        self.stands();
        self.bounded();
        self.pair.watch.changed()
    }

    /// Keeps a report of each change from now on, in a queue with room for `reports` of them and for `text_bytes` bytes
    /// of their texts. All room is found here, so that no command is refused because of it: if a report or its texts
    /// find no room, all that waits becomes one report. Without texts, reports carry numbers alone, and at most one waits: a
    /// change that comes before it was read is folded into it, so what came is always in the present text. Refused, it changes
    /// nothing.
    #[tactic(auto, using(rl_base::proofs::Queue::LeadLemmas::new_leads))]
    pub fn keep_reports(&mut self, reports: usize, text_bytes: usize) -> Result<(), WatchFault>
        ensures ok { OnOk result ((0 < reports) × (self.old.pair.watch.reports ≡ None)
            × (self.new ≡ with_watch (record self.old.pair.watch { reports = Some (new_queue reports text_bytes) }) self.old)) }
        ensures reported { OnOk result (ReportedFrom self.new.line.text self.new) }
        ensures err { IfErr result (λ fault. RefusesQueue fault reports self.old.pair.watch × (self.new ≡ self.old)) }
    {
        self.stands();
        self.bounded();
        self.pair
            .watch
            .keep_reports(self.alloc, reports, text_bytes)
    }

    /// Keeps no reports any more. Those that wait are dropped, and their memory is freed. `keep_reports` begins anew.
    pub fn stop_reports(&mut self)
        ensures stopped { self.new ≡ with_watch (record self.old.pair.watch { reports = None }) self.old }
        ensures changed { (asked : List ℕ) → ChangedFrom asked self.old → ChangedFrom asked self.new }
    {
        self.pair.watch.stop_reports();
    }

    /// Takes the oldest report; None if none waits, and then a copy that applied all before it equals the text. The watch's
    /// `taken_texts` are the report's removed and new text, valid until the next call that changes something. Applied to
    /// the copy, a report with texts gives the text from which those that still wait lead to the present one. One without
    /// texts, or folded, was all that waited, and its new text stands in the present text. The cursors of a report stand
    /// between two characters, the first in the text before it, the second in that after it.
    pub fn take_report(&mut self) -> Option<Report>
        ensures taken { result ≡ option_map (λ n. n.report) (next_note self.old.pair.watch) }
        ensures texts { taken_texts self.new.pair.watch ≡ texts_of (next_note self.old.pair.watch) }
        ensures left { self.new ≡ with_watch (past_next self.old.pair.watch) self.old }
        ensures nothing { (read : List ℕ) → ReportedFrom read self.old → next_note self.old.pair.watch ≡ None → self.old.line.text ≡ read }
        ensures with_texts { (read : List ℕ) (note : Noted) → ReportedFrom read self.old → next_note self.old.pair.watch ≡ Some note
            → HasTexts (text_room self.old.pair.watch) note.report
            → TellsByTexts note read × Stand note.report.cursors read (after_texts note read) × ReportedFrom (after_texts note read) self.new }
        ensures whole { (read : List ℕ) (note : Noted) → ReportedFrom read self.old → next_note self.old.pair.watch ≡ Some note
            → LacksTexts (text_room self.old.pair.watch) note.report
            → (next_note self.new.pair.watch ≡ None) × (after_numbers note.report self.old.line.text read ≡ self.old.line.text)
            × Stand note.report.cursors read self.old.line.text × ReportedFrom self.old.line.text self.new }
    {
        self.pair.watch.take_report()
    }
}
