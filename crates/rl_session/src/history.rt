//! The laws of a session's history: its record, undo groups, undo and redo, each over rows of a run. A run goes on from a
//! history (`Holds`): the texts that were held by then, among which the record is placed. A new session and one that was
//! restarted begin one (`record_is_placed`), any other has one (`a_session_has_a_history`), and each run goes on with it.
//! After `forget` it is that of the texts from the one on with which the record then begins (`what_is_left_replays`).
ghost use Rattle.std.specs.Prelude.{◌≡◌, ◌≤◌, ◌<◌, ◌+◌, ◌++◌, ◌∷◌, [], ℕ, All, Bool, List, IsSome, Some, drop, length, suc, true};
ghost use Rattle.rl_line.specs.Entry.{Entry, replay_entries, has_change};
ghost use Rattle.rl_record.specs.Record.{StaysSaved, is_saved};
ghost use Rattle.rl_line.specs.Going.{texts_ahead};
ghost use Rattle.rl_record.specs.Units.{BothMatched, IsMatched, closed_all, last_of, last_units, level, next_of, opens, there_and_back, undone, units, waits};
ghost use Rattle.rl_session.specs.Commands.{Does};
ghost use Rattle.rl_session.specs.History.{AllRedone, AllStandInGroup, ClosesGroup, Holds, IsEdit, WasHeld, WasRefused};
ghost use Rattle.rl_session.specs.Run.{Row, Run, held_in, held_of};
ghost use Rattle.rl_session.specs.State.{Begins, Ends, Stands, State, origin, saved_now};
ghost use Rattle.rl_session.specs.declared.session.Command.{Command};
ghost use Rattle.rl_session.specs.declared.session.Command.TheVariants.{Abandon, Begin, KeepUndone, Redo, Undo};
ghost use Rattle.rl_session.specs.declared.session.Reply.{Reply};
ghost use Rattle.rl_session.specs.declared.session.Reply.TheVariants.{Answer};

/// A history (`Holds`): the recorded entries, followed by the undone ones, are placed among the texts that were held,
/// each prefix of them leads to a held text, and no place goes back. The recorded entries alone lead to the present text,
/// and the undone ones on from there. A session that begins with a text has such a history, and each run goes on with it.
pub fn record_is_placed()
    ensures begins { (text : List ℕ) (s : State) → Begins text s → Holds text (text ∷ []) s }
    ensures again { (start : List ℕ) (held : List (List ℕ)) (old new : State) (commands : List Command) (replies : List Reply)
        → Holds start held old → (run : Run old commands replies new) → Holds start (held ++ held_of run.rows) new }
    ensures redone { (start : List ℕ) (held : List (List ℕ)) (s : State)
        → Holds start held s → IsSome (replay_entries s.pair.changes.pending s.line.text) }
{}

/// A session has a history even if none is known of it, as of one that was loaded: its recorded changes lead back to a
/// text, and among those on the way from there to the present one, and on over what was undone, its record is placed. So
/// each law here holds of it.
pub fn a_session_has_a_history()
    ensures { (s : State) → Ends s → BothMatched s.pair.changes
        → (start : List ℕ) × (origin s ≡ Some start)
        × Holds start (start ∷ texts_ahead (s.pair.changes.recorded ++ s.pair.changes.pending) start) s }
{}

/// If undone changes are kept, the texts there and back, which count as held (`held_in`), were held before. An undo that
/// takes all units that were recorded since, and n more, leaves the text to which the first n units led that waited then, with
/// their groups closed: that to which n redos would have led instead of the keeping, if no group was open there. Conditions:
/// neither the keeping nor the undo was refused, something waited, and what was recorded since stands above what was kept, each
/// End with its Begin.
pub fn what_is_kept_was_held()
    ensures held { (start : List ℕ) (held : List (List ℕ)) (s : State) → Holds start held s
        → All (λ (text : List ℕ). WasHeld text held) (texts_ahead (there_and_back s.pair.changes.pending) s.line.text) }
    ensures counted { (start : List ℕ) (held : List (List ℕ)) (old new : State) (answer : Bool) → Holds start held old
        → (kept : Does old KeepUndone (Answer answer) new)
        → All (λ (text : List ℕ). WasHeld text held) (held_in old KeepUndone (Answer answer) new kept) }
    ensures undone { (start : List ℕ) (held : List (List ℕ)) (old new : State) (commands : List Command) (replies : List Reply)
        (earlier since later : List Row) (k u : Row) (n : ℕ) (es : List Entry)
        → Holds start held old → (run : Run old commands replies new)
        → run.rows ≡ earlier ++ (k ∷ (since ++ (u ∷ later)))
        → k.command ≡ KeepUndone → ¬ (WasRefused k.reply) → waits k.before.pair.changes.pending ≡ true
        → u.before.pair.changes.recorded ≡ k.after.pair.changes.recorded ++ es → IsMatched es
        → 0 < n → n ≤ length (units (closed_all k.before.pair.changes.pending))
        → u.command ≡ Undo (length (units es) + n) → ¬ (WasRefused u.reply)
        → (replay_entries (next_of n (closed_all k.before.pair.changes.pending)) k.before.line.text ≡ Some u.after.line.text)
        × ((other : State) (asked : List Command) (answered : List Reply) → (redos : Run k.before asked answered other) → AllRedone redos.rows
        → length redos.rows ≡ n → level k.before.pair.changes.pending ≡ 0 → other.line.text ≡ u.after.line.text) }
{}

/// Among the recorded entries, and among the undone ones, every end of a group has its begin, and every closed group
/// holds a change.
pub fn groups_stay_closed()
    ensures { (start : List ℕ) (held : List (List ℕ)) (old new : State) (commands : List Command) (replies : List Reply)
        → Holds start held old → Run old commands replies new
        → BothMatched new.pair.changes }
{}

/// An undo that is not refused drops exactly its units from the recorded entries and puts them before the undone ones,
/// and it leaves a text that was held before it. If the session forgot the units that came before, it finds nothing,
/// answers false, and leaves the text.
pub fn undo_leaves_a_held_text()
    ensures held { (start : List ℕ) (held : List (List ℕ)) (old new : State) (commands : List Command) (replies : List Reply)
        (earlier later : List Row) (row : Row) (n : ℕ)
        → Holds start held old → (run : Run old commands replies new)
        → run.rows ≡ earlier ++ (row ∷ later) → row.command ≡ Undo n → ¬ (WasRefused row.reply)
        → WasHeld row.after.line.text (held ++ held_of earlier) }
    ensures dropped { (row : Row) (n : ℕ) → row.command ≡ Undo n → ¬ (WasRefused row.reply)
        → (row.after.pair.changes ≡ undone n row.before.pair.changes)
        × (row.before.pair.changes.recorded ≡ row.after.pair.changes.recorded ++ last_of n row.before.pair.changes.recorded) }
{}

/// One undo right after the end of a group gives back the text at its begin. Groups may be begun inside and ended there by
/// `EndOne`, and hold groups themselves. The group ends by `EndOne` once all begun inside are ended, whatever groups it stands
/// in, or by `End` if no group was open before it. Conditions: none of begin, end and undo was refused, a change was
/// recorded in the group, each truncation or `End` inside was refused, and each undo and abandon inside left the group open.
pub fn group_is_undone_at_once()
    ensures { (start : List ℕ) (held : List (List ℕ)) (old new : State) (commands : List Command) (replies : List Reply)
        (earlier inside later : List Row) (b e u : Row)
        → Holds start held old → (run : Run old commands replies new)
        → run.rows ≡ earlier ++ (b ∷ (inside ++ (e ∷ (u ∷ later))))
        → b.command ≡ Begin → ¬ (WasRefused b.reply)
        → AllStandInGroup (level b.before.pair.changes.recorded) inside
        → ClosesGroup (level b.before.pair.changes.recorded) (level e.before.pair.changes.recorded) e.command → ¬ (WasRefused e.reply)
        → has_change (drop (suc (length b.before.pair.changes.recorded)) e.before.pair.changes.recorded) ≡ true
        → u.command ≡ Undo 1 → ¬ (WasRefused u.reply)
        → u.after.line.text ≡ b.before.line.text }
{}

/// A group that is abandoned gives back the text from before its begin, and what was recorded then; nothing waits to be
/// redone. Conditions: neither begin nor abandon was refused, the groups that were begun inside are closed or abandoned, each
/// truncation or `End` inside was refused, and each undo and abandon inside left the group open.
pub fn group_is_abandoned()
    ensures { (start : List ℕ) (held : List (List ℕ)) (old new : State) (commands : List Command) (replies : List Reply)
        (earlier inside later : List Row) (b a : Row)
        → Holds start held old → (run : Run old commands replies new)
        → run.rows ≡ earlier ++ (b ∷ (inside ++ (a ∷ later)))
        → b.command ≡ Begin → ¬ (WasRefused b.reply)
        → AllStandInGroup (level b.before.pair.changes.recorded) inside
        → level a.before.pair.changes.recorded ≡ suc (level b.before.pair.changes.recorded)
        → a.command ≡ Abandon → ¬ (WasRefused a.reply)
        → (a.after.line.text ≡ b.before.line.text)
        × (a.after.pair.changes.recorded ≡ b.before.pair.changes.recorded) × (a.after.pair.changes.pending ≡ []) }
{}

/// An undo of one unit right after an edit that added one entry, and joined none, gives back the text and cursor from
/// before the edit. A redo right after that gives back those from after it. Condition: none of the three was refused.
pub fn undo_gives_back_the_cursor()
    ensures undone { (old new : State) (commands : List Command) (replies : List Reply)
        (earlier later : List Row) (row back : Row) (e : Entry)
        → Stands old → (run : Run old commands replies new)
        → run.rows ≡ earlier ++ (row ∷ (back ∷ later))
        → IsEdit row.before.line row.command → ¬ (WasRefused row.reply)
        → row.after.pair.changes.recorded ≡ row.before.pair.changes.recorded ++ e ∷ []
        → back.command ≡ Undo 1 → ¬ (WasRefused back.reply)
        → (back.after.line.text ≡ row.before.line.text) × (back.after.line.cursor ≡ row.before.line.cursor) }
    ensures redone { (old new : State) (commands : List Command) (replies : List Reply)
        (earlier later : List Row) (row back again : Row) (e : Entry)
        → Stands old → (run : Run old commands replies new)
        → run.rows ≡ earlier ++ (row ∷ (back ∷ (again ∷ later)))
        → IsEdit row.before.line row.command → ¬ (WasRefused row.reply)
        → row.after.pair.changes.recorded ≡ row.before.pair.changes.recorded ++ e ∷ []
        → back.command ≡ Undo 1 → ¬ (WasRefused back.reply) → again.command ≡ Redo → ¬ (WasRefused again.reply)
        → (again.after.line.text ≡ row.after.line.text) × (again.after.line.cursor ≡ row.after.line.cursor) }
{}

/// Once a text was saved (`Session::set_saved`), a run that ends with a record which says so ends with that text, whatever
/// was done on the way. No command leaves a save point with other changes before it.
pub fn a_saved_text_comes_back()
    ensures stays { (cs : List Entry) (old new : State) (commands : List Command) (replies : List Reply)
        → Run old commands replies new → StaysSaved cs old.pair.changes → StaysSaved cs new.pair.changes }
    ensures text { (start : List ℕ) (held : List (List ℕ)) (old new : State) (commands : List Command) (replies : List Reply)
        → Holds start held old → Run (saved_now old) commands replies new → is_saved new.pair.changes ≡ true
        → new.line.text ≡ old.line.text }
{}

/// Right after an undo, as many redos as it took units give back the text, the recorded entries and the undone ones
/// from before it. Conditions: none of these was refused, and the undo took no begin of an open group.
pub fn redos_of_a_run_give_back()
    ensures { (start : List ℕ) (held : List (List ℕ)) (old new : State) (commands : List Command) (replies : List Reply)
        (earlier redos : List Row) (u : Row) (n : ℕ)
        → Holds start held old → (run : Run old commands replies new)
        → run.rows ≡ earlier ++ (u ∷ redos)
        → u.command ≡ Undo n → ¬ (WasRefused u.reply) → opens (last_units n u.before.pair.changes.recorded) ≡ 0
        → AllRedone redos → length redos ≡ length (last_units n u.before.pair.changes.recorded)
        → (new.line.text ≡ u.before.line.text) × (new.pair.changes.recorded ≡ u.before.pair.changes.recorded)
        × (new.pair.changes.pending ≡ u.before.pair.changes.pending) }
{}
