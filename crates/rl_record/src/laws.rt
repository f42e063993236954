//! The laws of the record: what undo, redo, groups and forgetting come to, over any entries.
#![tactic(auto, using(crate::proofs::Records::Laws::laws))]

ghost use Rattle.std.specs.Prelude.{◌≡◌, ◌≤◌, ◌↔◌, ◌+◌, ℕ, List, Bool, [], ◌∷◌, ◌++◌, min, suc, true, false, drop, length, take, IsSome, Some, ◌<◌};
ghost use Rattle.std.specs.Str.{IsCharBoundary, IsUtf8};
ghost use Rattle.rl_base.specs.Event.{Event};
ghost use Rattle.rl_record.specs.Forgetting.{fits, forgotten, gone_within, kept_within};
ghost use Rattle.rl_line.specs.Line.{Line};
ghost use Rattle.rl_line.specs.Plan.{Step, after, listener_after};
ghost use Rattle.rl_line.specs.Entry.{Begin, Entry, End, change_count, changes_of, replay_entries, unwind, has_change};
ghost use Rattle.rl_record.specs.Record.{IsRecorded, Record, SavedAt, StaysSaved, arrived, entries_of, is_saved, parted, point_kept, record_step, saved_here};
ghost use Rattle.rl_record.specs.declared.joining.Freshness.TheVariants.{Parted};
ghost use Rattle.rl_record.specs.Undo.{Redone, Redos, Undone};
ghost use Rattle.rl_line.specs.Going.{StandAfter, StandBefore, line_ahead, line_back, steps_ahead, steps_back};
ghost use Rattle.rl_record.specs.Units.{BothMatched, GroupAt, InGroup, IsMatched, abandoned, adds_end, after_in_group, begun, ended, ended_one, group_of, in_group, kept_of, last_of, last_units, level, open_group, opens, redo_of, redone, reopened, truncated, undone, unit_start, united, with_closed, closed_all, kept_undone, next_of, there_and_back, units, waits};

/// If entries lead from one text to another, unwinding them leads back from that to the first, and conversely.
pub fn unwinding_is_replaying()
    ensures unwound { (es : List Entry) (before after : List ℕ) → IsUtf8 before
        → replay_entries es before ≡ Some after → unwind es after ≡ Some before }
    ensures replayed { (es : List Entry) (before after : List ℕ) → IsUtf8 after
        → unwind es after ≡ Some before → replay_entries es before ≡ Some after }
{}

/// What an undo asks of a line, in terms of its text: that the changes can be taken back from it, the last first, and that each cursor
/// that was told stands between two characters of the text from before its change. A redo asks the same of the way ahead.
pub fn conditions_are_of_the_text()
    ensures back { (es : List Entry) (line : Line) → IsUtf8 line.text → IsCharBoundary line.text line.cursor
        → IsSome (line_back es line) ↔ (IsSome (unwind es line.text) × StandBefore es line.text) }
    ensures ahead { (es : List Entry) (line : Line) → IsUtf8 line.text → IsCharBoundary line.text line.cursor
        → IsSome (line_ahead es line) ↔ (IsSome (replay_entries es line.text) × StandAfter es line.text) }
{}

/// What an undo leaves is the text unwound over the units that it took off the record, and what a redo leaves is the replay of
/// the unit that it recorded again. So n redos leave the replay of the next n units, if no group is open among what waits.
pub fn undo_unwinds_and_redo_replays()
    ensures undone { (n : ℕ) (old new : Record) (line line' : Line) (answer : Bool) → Undone n old new line line' answer
        → unwind (last_of n old.recorded) line.text ≡ Some line'.text }
    ensures redone { (old new : Record) (line line' : Line) (answer : Bool) → Redone old new line line' answer
        → replay_entries (redo_of old.pending) line.text ≡ Some line'.text }
    ensures redos { (n : ℕ) (old new : Record) (line line' : Line) → IsMatched old.pending → level old.pending ≡ 0 → 0 < n → n ≤ length (units old.pending)
        → Redos n old new line line' → replay_entries (next_of n old.pending) line.text ≡ Some line'.text }
{}

/// What a listener hears of an undo or of a redo are steps that lead the old line to the new one. So `steps_are_a_replay`
/// holds of them: a mirror that held the old text and makes each change that it hears of holds the new text. What is
/// asked of the line's cursor and length holds of every `LineBuffer` (`pos`, `limit`).
pub fn undo_and_redo_are_steps()
    ensures back { (es : List Entry) (line now : Line) → IsCharBoundary line.text line.cursor → length line.text ≤ line.limit
        → line_back es line ≡ Some now → after (steps_back line.cursor es) line ≡ Some now }
    ensures ahead { (es : List Entry) (line now : Line) → IsCharBoundary line.text line.cursor → length line.text ≤ line.limit
        → line_ahead es line ≡ Some now → after (steps_ahead line.cursor es) line ≡ Some now }
{}

/// If an End stands in matched entries, its group stands before it, and holds a change.
pub fn ends_close_groups()
    ensures { (xs ys : List Entry) → IsMatched (xs ++ End ∷ ys) → GroupAt xs }
{}

/// Ending a group that was opened if none was open, and in which no change was recorded, restores what was
/// recorded before its begin, and adds nothing.
pub fn empty_group_leaves_the_record()
    ensures recorded { (r : Record) (steps : List InGroup) → level r.recorded ≡ 0
        → has_change (drop (suc (length r.recorded)) (after_in_group steps (begun r)).recorded) ≡ false
        → (ended (after_in_group steps (begun r))).recorded ≡ r.recorded }
    ensures answer { (r : Record) (steps : List InGroup) → level r.recorded ≡ 0
        → has_change (drop (suc (length r.recorded)) (after_in_group steps (begun r)).recorded) ≡ false
        → adds_end (level (after_in_group steps (begun r)).recorded) (after_in_group steps (begun r)).recorded ≡ false }
{}

/// Whatever groups are open, if a group is begun in them, and these events are recorded, `end_one` closes that group
/// alone. It answers whether a change was recorded in it. If one was, all from its begin on is one unit, so that an
/// undo of one keeps what was recorded before; otherwise the group leaves no trace.
pub fn group_is_closed_alone()
    ensures answer { (r : Record) (events : List Event) → IsMatched r.recorded
        → adds_end (min 1 (level (in_group events r).recorded)) (in_group events r).recorded ≡ has_change (group_of events r) }
    ensures unit { (r : Record) (events : List Event) → IsMatched r.recorded
        → has_change (group_of events r) ≡ true
        → (last_of 1 (ended_one (in_group events r)).recorded ≡ group_of events r ++ End ∷ [])
        × (kept_of 1 (ended_one (in_group events r)).recorded ≡ r.recorded) }
    ensures nothing { (r : Record) (events : List Event) → IsMatched r.recorded
        → has_change (group_of events r) ≡ false
        → (ended_one (in_group events r)).recorded ≡ r.recorded }
    ensures level { (r : Record) (events : List Event) → IsMatched r.recorded
        → level (ended_one (in_group events r)).recorded ≡ level r.recorded }
{}

/// If the end of a group added an End, `reopen` right after it gives back what was recorded before that end.
pub fn reopen_takes_back_an_end()
    ensures { (r : Record) → adds_end (min 1 (level r.recorded)) r.recorded ≡ true
        → reopened (ended_one r) ≡ arrived r.recorded [] (point_kept r) }
{}

/// A group in which changes were recorded, and which is abandoned, is as if it had never been begun: the line goes back over
/// all from its begin on, what was recorded before is left, and nothing waits to be redone.
pub fn abandoned_group_was_never_begun()
    ensures { (r : Record) (events : List Event) → IsMatched r.recorded
        → (open_group (in_group events r).recorded ≡ group_of events r)
        × ((abandoned (in_group events r)).recorded ≡ r.recorded) × ((abandoned (in_group events r)).pending ≡ []) }
{}

/// What was undone and is kept can be had by undos: of a record that keeps it, an undo of n units leads where the next n units
/// led that waited to be redone, with their groups closed, and as many undos as there were units there and back come to what was
/// recorded before. It holds too once entries were recorded above, as of a later edit: an undo that takes all their units, and n
/// more, leads from the text after them to where n redos led.
pub fn undos_lead_where_redos_led()
    ensures lead { (n : ℕ) (r : Record) (text : List ℕ) → IsMatched r.pending → waits r.pending ≡ true → 0 < n → n ≤ length (units (closed_all r.pending))
        → unwind (last_of n (kept_undone r).recorded) text ≡ replay_entries (next_of n (closed_all r.pending)) text }
    ensures above { (n : ℕ) (r : Record) (es : List Entry) (text now : List ℕ) → IsMatched r.pending → waits r.pending ≡ true → 0 < n → n ≤ length (units (closed_all r.pending))
        → IsMatched es → IsUtf8 text → replay_entries es text ≡ Some now
        → unwind (last_of (length (units es) + n) ((kept_undone r).recorded ++ es)) now ≡ replay_entries (next_of n (closed_all r.pending)) text }
    ensures pass { (r : Record) → IsMatched r.pending → waits r.pending ≡ true → 0 < length (units (there_and_back r.pending))
        → kept_of (length (units (there_and_back r.pending))) (kept_undone r).recorded ≡ r.recorded }
{}

/// A save point stays as long as the changes that were recorded at the save begin those of the record, recorded and undone ones
/// together: no call makes others of them and leaves the point, and one that drops one of them, or forgets the one before the
/// first, takes the point away. Marks of groups may come and go. So if the record says that it is saved, those changes are
/// recorded, no more and no fewer, and lead to the text of the save.
pub fn save_point_stays()
    ensures marked { (r : Record) → SavedAt (changes_of r.recorded) (saved_here r) }
    ensures saved { (cs : List Entry) (r : Record) → StaysSaved cs r → is_saved r ≡ true → changes_of r.recorded ≡ cs }
    ensures text { (es : List Entry) (r : Record) (start : List ℕ) → StaysSaved (changes_of es) r → is_saved r ≡ true
        → replay_entries r.recorded start ≡ replay_entries es start }
    ensures back { (cs : List Entry) (r : Record) → SavedAt cs r → changes_of r.recorded ≡ cs → is_saved r ≡ true }
    ensures event { (cs : List Entry) (r : Record) (event : Event) → StaysSaved cs r → StaysSaved cs (record_step r event) }
    ensures parted { (cs : List Entry) (r : Record) → StaysSaved cs r → StaysSaved cs (parted r) }
    ensures begun { (cs : List Entry) (r : Record) → StaysSaved cs r → StaysSaved cs (begun r) }
    ensures closed { (cs : List Entry) (r : Record) (n : ℕ) → StaysSaved cs r → StaysSaved cs (with_closed n r) }
    ensures reopened { (cs : List Entry) (r : Record) → StaysSaved cs r → StaysSaved cs (reopened r) }
    ensures undone { (cs : List Entry) (r : Record) (n : ℕ) → StaysSaved cs r → StaysSaved cs (undone n r) }
    ensures abandoned { (cs : List Entry) (r : Record) → StaysSaved cs r → StaysSaved cs (abandoned r) }
    ensures redone { (cs : List Entry) (r : Record) → StaysSaved cs r → StaysSaved cs (redone r) }
    ensures kept { (cs : List Entry) (r : Record) → StaysSaved cs r → StaysSaved cs (kept_undone r) }
    ensures truncated { (cs : List Entry) (r : Record) (len : ℕ) → StaysSaved cs r → StaysSaved cs (truncated len r) }
    ensures forgotten { (most bytes : ℕ) (cs : List Entry) (r : Record) → StaysSaved cs r
        → StaysSaved (drop (change_count (gone_within most bytes r.recorded)) cs) (forgotten most bytes r) }
{}

/// After a part an event that records a change adds an entry of its own, whatever was recorded before: an undo of one unit
/// takes back that change alone. An event that records nothing leaves the record parted.
pub fn part_begins_an_undo_of_its_own()
    ensures adds { (r : Record) (event : Event) → (record_step (parted r) event).recorded ≡ r.recorded ++ entries_of event }
    ensures undo { (r : Record) (event : Event) → IsRecorded event
        → (last_of 1 (record_step (parted r) event).recorded ≡ entries_of event)
        × (kept_of 1 (record_step (parted r) event).recorded ≡ r.recorded) }
    ensures stays { (r : Record) (event : Event) → ¬ (IsRecorded event) → (record_step (parted r) event).fresh ≡ Parted }
{}

/// What a record hears after `start_unit`, here in the steps of an edit, is its last unit once `unite` had memory for its
/// marks. What was recorded before stays, and nothing joins it; if an entry was recorded, nothing waits to be redone. An
/// undo of one unit takes back a change, and keeps what was recorded before the unit: all of it, or if the unit takes in
/// the last one, what stands before that.
pub fn what_was_heard_becomes_the_last_unit()
    ensures stays { (cursor : ℕ) (steps : List Step) (r now : Record) → now ≡ listener_after record_step cursor steps (parted r)
        → take (length r.recorded) now.recorded ≡ r.recorded }
    ensures drops { (cursor : ℕ) (steps : List Step) (r now : Record) → now ≡ listener_after record_step cursor steps (parted r)
        → length r.recorded < length now.recorded → now.pending ≡ [] }
    ensures unit { (put_in cursor : ℕ) (steps : List Step) (r now : Record) → now ≡ listener_after record_step cursor steps (parted r)
        → IsMatched r.recorded → length r.recorded < length now.recorded
        → (kept_of 1 (united (unit_start put_in r) now).recorded ≡ take (unit_start put_in r).from r.recorded)
        × (has_change (last_of 1 (united (unit_start put_in r) now).recorded) ≡ true) }
{}

/// One redo for each unit that an undo took gives back the text, what was recorded and what was undone before, unless
/// the undo took the begin of an open group.
pub fn redos_of_a_line_give_back()
    ensures { (n : ℕ) (r mid now : Record) (line back ahead : Line) (answer : Bool) → IsUtf8 line.text → BothMatched r
        → opens (last_units n r.recorded) ≡ 0 → Undone n r mid line back answer
        → Redos (length (last_units n r.recorded)) mid now back ahead
        → (now.recorded ≡ r.recorded) × (now.pending ≡ r.pending) × (ahead.text ≡ line.text) }
{}

/// Forgetting takes whole changes and closed groups off the front of a record: what goes and what is left are the record,
/// and what goes has matched marks and leaves no group open. So what was recorded, from the text with which it began, leads
/// to a text with which what is left begins, and that leads on to the same end. What is left fits the bound, unless a group
/// is open; and entries that fit it all stay. From the begin of an open group on, all stay.
pub fn what_is_left_replays()
    ensures parts { (most bytes : ℕ) (es : List Entry) → gone_within most bytes es ++ kept_within most bytes es ≡ es }
    ensures whole { (most bytes : ℕ) (es : List Entry) → IsMatched es → IsMatched (gone_within most bytes es) × (level (gone_within most bytes es) ≡ 0) }
    ensures replays { (most bytes : ℕ) (es : List Entry) (start text : List ℕ) → replay_entries es start ≡ Some text
        → (begin : List ℕ) × (replay_entries (gone_within most bytes es) start ≡ Some begin) × (replay_entries (kept_within most bytes es) begin ≡ Some text) }
    ensures bound { (most bytes : ℕ) (es : List Entry) → level es ≡ 0 → fits most bytes (kept_within most bytes es) ≡ true }
    ensures stays { (most bytes : ℕ) (es : List Entry) → fits most bytes es ≡ true → kept_within most bytes es ≡ es }
    ensures group { (most bytes : ℕ) (front inside : List Entry) → IsMatched inside
        → (stay : List Entry) × (kept_within most bytes (front ++ Begin ∷ inside) ≡ stay ++ Begin ∷ inside) }
{}
