//! The laws of commands that obey a session's options (`Session::perform`, and the call of each command's name): so
//! what is said of runs holds of them.
ghost use Rattle.std.specs.Prelude.{◌≡◌, ◌+◌, ◌++◌, ◌∷◌, [], ◌<◌, ◌≤◌, List, Result, String, drop, length, suc, true, ℕ, Some, Bool, false};
ghost use Rattle.std.specs.String.{string_bytes};
ghost use Rattle.std.specs.declared.alloc.Global.{Global};
ghost use Rattle.rl_base.specs.KillRing.{reset};
ghost use Rattle.rl_base.specs.declared.motion.Movement.{Movement};
ghost use Rattle.rl_line.specs.Indents.{indent_changes};
ghost use Rattle.rl_line.specs.Entry.{Begin, replay_entries, has_change};
ghost use Rattle.rl_record.specs.Record.{is_saved};
ghost use Rattle.rl_record.specs.Units.{BothMatched, level};
ghost use Rattle.rl_session.specs.Forgetting.{Forgets};
ghost use Rattle.rl_session.specs.History.{ClosesGroup, Holds, WasHeld, WasRefused};
ghost use Rattle.rl_session.specs.KillRuns.{AnyTook, GivenBack, IsNoKill, NoneRefused};
ghost use Rattle.rl_session.specs.Options.{no_bound};
ghost use Rattle.rl_session.specs.Performing.{AllCallsStandInGroup, AllKilled, Calls, HoldsFrom, MadeUnit, NoneUnites, Performed, PerformedWith, before_unit, put_in, replies_in, rows_of, EndsLast, is_empty_group};
ghost use Rattle.rl_session.specs.Run.{Leads, held_of};
ghost use Rattle.rl_session.specs.State.{ChangedFrom, ReportedFrom, Stands, State, saved_now, with_ring};
ghost use Rattle.rl_session.specs.Typing.{TypesBytes};
ghost use Rattle.rl_session.specs.declared.session.Command.{Command};
ghost use Rattle.rl_session.specs.declared.session.Command.TheVariants.{Indent, Undo, Yank};
ghost use Rattle.rl_session.specs.declared.session.Reply.TheVariants.{Answer, Mark};
ghost use Rattle.rl_session.specs.declared.session.Reply.{Reply};
ghost use Rattle.rl_session.specs.declared.session.typing.TypeFault.{TypeFault};
ghost use Rattle.rl_session.specs.declared.session.typing.Typed.{Typed};

/// What is typed (`Session::type_bytes`) is performed, command after command: so the laws below hold of it.
#[tactic(auto, using(crate::proofs::Sessions::TypingLemmas::typing_calls))]
pub fn typing_is_performed()
    ensures { (bytes : List ℕ) (old new : State) (result : Result Typed TypeFault) → TypesBytes bytes old result new → Calls old new }
{}

/// Commands of one step on a session without a bound make a run, since nothing is forgotten after them, and their changes
/// are units as they are; none leaves something waiting, as the begin of a group may. Its rows are those of the commands,
/// in order, with one of `KeepUndone` before each edit, and before each begin or end of a group, if the options ask to
/// keep what was undone. A command for which nothing was done has no row, and one that was not begun has only that of
/// `KeepUndone`. A command with a text is performed as any other.
pub fn commands_make_a_run()
    ensures rows { (old new : State) (calls : Calls old new) → old.options.bound ≡ no_bound → NoneUnites calls → Leads old (rows_of calls) new }
    ensures texts { (old new : State) (text : String Global) (make : String Global → Command) (reply : Reply)
        → PerformedWith (string_bytes text) make old reply new → Performed old (make text) reply new }
{}

/// With any bound, the record still leads to the present text, from a text that was held, and is placed among those
/// from there on. A new session and one that was restarted begin so with one text (`record_is_placed`). So an undo that
/// is not refused leaves a text that was held; the present one, if all that came before it was forgotten.
pub fn commands_keep_a_history()
    ensures held { (held : List (List ℕ)) (old new : State) (calls : Calls old new) → HoldsFrom held old → HoldsFrom (held ++ held_of (rows_of calls)) new }
    ensures undo { (held : List (List ℕ)) (old new : State) (n : ℕ) (reply : Reply) → HoldsFrom held old → Performed old (Undo n) reply new
        → ¬ (WasRefused reply) → WasHeld new.line.text held }
{}

/// What a command of several steps changed is undone at once, also if it was refused after some of its steps: one undo
/// right after it gives back the text from before it. A yank-pop takes the yank that it replaced into its unit
/// (`put_in`), if nothing was recorded in between; then the undo gives back the text from before that yank. That is
/// always the text to which the entries before the unit lead. Conditions: the session has no bound, something was
/// recorded, there was memory for the marks of the unit (`MadeUnit`), and the undo is not refused.
pub fn a_command_is_undone_at_once()
    ensures leads { (start : List ℕ) (held : List (List ℕ)) (old mid new : State) (command : Command) (reply said : Reply)
        → Holds start held old → (unit : MadeUnit old command reply mid) → Performed mid (Undo 1) said new → ¬ (WasRefused said)
        → replay_entries (before_unit unit) start ≡ Some new.line.text }
    ensures text { (start : List ℕ) (held : List (List ℕ)) (old mid new : State) (command : Command) (reply said : Reply)
        → Holds start held old → (unit : MadeUnit old command reply mid) → Performed mid (Undo 1) said new → ¬ (WasRefused said)
        → put_in unit.done.kept command ≡ 0 → new.line.text ≡ old.line.text }
{}

/// A group of performed commands is undone at once: one undo right after its end gives back the text from before its
/// begin. Inside may stand what may stand in a group of a run (`group_is_undone_at_once`): also commands of several steps,
/// undos, which stay in the group, and redos. An abandon gives that text back too, and what was recorded before the begin.
/// Conditions: the session has no bound, begin, end, abandon and undo are not refused, all groups that were begun inside
/// are closed, or at an `End` none was open before the begin, and a change was recorded in a group that is ended.
pub fn a_group_is_undone_at_once()
    ensures ended { (start : List ℕ) (held : List (List ℕ)) (old begun mid ended new : State) (below : ℕ) (first last said : Reply) (inside : Calls begun mid) (command : Command)
        → Holds start held old → old.options.bound ≡ no_bound → Performed old Command.Begin first begun → ¬ (WasRefused first)
        → level begun.pair.changes.recorded ≡ suc below → AllCallsStandInGroup below inside
        → ClosesGroup below (level mid.pair.changes.recorded) command → Performed mid command last ended → ¬ (WasRefused last)
        → has_change (drop (length begun.pair.changes.recorded) mid.pair.changes.recorded) ≡ true
        → Performed ended (Undo 1) said new → ¬ (WasRefused said) → new.line.text ≡ old.line.text }
    ensures abandoned { (start : List ℕ) (held : List (List ℕ)) (old begun mid new : State) (below : ℕ) (first last : Reply) (inside : Calls begun mid)
        → Holds start held old → old.options.bound ≡ no_bound → Performed old Command.Begin first begun → ¬ (WasRefused first)
        → level begun.pair.changes.recorded ≡ suc below → AllCallsStandInGroup below inside
        → level mid.pair.changes.recorded ≡ suc below → Performed mid Command.Abandon last new → ¬ (WasRefused last)
        → (new.line.text ≡ old.line.text) × (new.pair.changes.recorded ++ Begin ∷ [] ≡ begun.pair.changes.recorded) }
{}

/// A begin of a group, and an end or an abandon of what is empty, leave what waits to be redone, if nothing is to be kept
/// and they are not refused. So a group that is ended or abandoned right after its begin leaves the record as it was, if
/// nothing is forgotten.
pub fn an_empty_group_leaves_what_waits()
    ensures waits { (old new : State) (command : Command) (reply : Reply) → is_empty_group old.pair.changes.recorded command ≡ true → old.options.keeps ≡ false
        → Performed old command reply new → ¬ (WasRefused reply) → new.pair.changes.pending ≡ old.pair.changes.pending }
    ensures record { (old mid new : State) (n : ℕ) (command : Command) (reply : Reply) → old.options.keeps ≡ false → old.options.bound ≡ no_bound
        → EndsLast (level old.pair.changes.recorded) command → Performed old Command.Begin (Mark n) mid → Performed mid command reply new → ¬ (WasRefused reply)
        → (new.pair.changes.recorded ≡ old.pair.changes.recorded) × (new.pair.changes.pending ≡ old.pair.changes.pending) }
{}

/// Once a text was saved (`Session::set_saved`), performed commands that end with a record which says so end with that
/// text, whatever was done on the way. Condition: the session has no bound.
pub fn a_saved_text_comes_back()
    ensures { (start : List ℕ) (held : List (List ℕ)) (old new : State) (calls : Calls (saved_now old) new)
        → Holds start held old → old.options.bound ≡ no_bound → is_saved new.pair.changes ≡ true
        → new.line.text ≡ old.line.text }
{}

/// An indent or a dedent that would insert and delete no byte returns false, and only ends a run of kills. Text, cursor,
/// record, with the undone changes, and watch stay, but for what is beyond the bounds.
pub fn an_indent_that_changes_nothing_only_ends_a_run_of_kills()
    ensures { (old new : State) (m : Movement) (amount : ℕ) (dedent : Bool) (reply : Reply) → indent_changes old.line m amount dedent ≡ false
        → Performed old (Indent m amount dedent) reply new → (reply ≡ Answer false) × Forgets (with_ring (reset old.pair.ring) old) new }
{}

/// What tells of changes tells of those of every command.
pub fn what_a_command_changed_is_told()
    ensures changed { (asked : List ℕ) (old new : State) (command : Command) (reply : Reply) → Performed old command reply new
        → ChangedFrom asked old → ChangedFrom asked new }
    ensures reported { (read : List ℕ) (old new : State) (command : Command) (reply : Reply) → Performed old command reply new
        → ReportedFrom read old → ReportedFrom read new }
{}

/// No command changes the limit, or makes the text longer than it.
pub fn the_limit_stays()
    ensures { (old new : State) (command : Command) (reply : Reply) → Performed old command reply new → Stands old
        → Stands new × (new.line.limit ≡ old.line.limit) }
{}

/// An undo leaves as many groups open as were open before it: it takes back what was done in the group that was opened last,
/// and no more. What a record holds is matched (`Changeset::level`).
pub fn an_undo_stays_in_its_group()
    ensures { (old new : State) (n : ℕ) (reply : Reply) → BothMatched old.pair.changes → Performed old (Undo n) reply new
        → level new.pair.changes.recorded ≡ level old.pair.changes.recorded }
{}

/// Directed kills, one right after the other, and then one yank give back the text, as `kills_then_yank` says it of a
/// run, if the bound of the ring's bytes has room for what the kills took. Conditions: at least one kill answers true,
/// nothing is refused, the ring has room for a text, and its last action before was no kill.
pub fn performed_kills_then_yank()
    ensures { (old mid new : State) (kills : Calls old mid) (reply : Reply)
        → Stands old → 0 < old.pair.ring.size → IsNoKill old.pair.ring.last
        → AllKilled kills → AnyTook (replies_in kills) → NoneRefused (replies_in kills ++ (reply ∷ []))
        → length old.line.text ≤ length mid.line.text + mid.options.bound.ring_bytes
        → Performed mid (Yank 1) reply new → GivenBack old mid new }
{}
