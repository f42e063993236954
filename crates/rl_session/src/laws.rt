//! The laws of runs: how runs are put together and cut, and what holds after each row. Those of undo, redo and groups are in
//! `history`, of kills in `kill_runs`, of performed commands in `performing`.
ghost use Rattle.std.specs.Prelude.{◌≡◌, ◌++◌, ◌∷◌, [], List, ℕ, IsSome, Some};
ghost use Rattle.rl_base.specs.Event.{replay};
ghost use Rattle.rl_line.specs.Line.{Line};
ghost use Rattle.rl_line.specs.Entry.{replay_entries, unwind};
ghost use Rattle.rl_record.specs.Record.{Record};
ghost use Rattle.rl_session.specs.State.{State, ChangedFrom, Follows, ReportedFrom, Replays};
ghost use Rattle.rl_session.specs.Run.{Row, Run, AfterEach, commands_of, held_of, replies_of, reports, reports_of};
ghost use Rattle.rl_session.specs.declared.session.Command.{Command};
ghost use Rattle.rl_session.specs.declared.session.Reply.{Reply};

/// Two runs, one after the other, form one run: its rows and its held texts are those of the first, then of the second.
/// The rows of a run up to any row are a run, and so are the rows after it. So what a law says of the last row of a run
/// holds of any row, with the texts that were held by then. A single row, as each command makes one, is a run.
pub fn runs_compose()
    ensures joined { (old mid new : State) (cs ds : List Command) (rs ss : List Reply) (first : Run old cs rs mid) (second : Run mid ds ss new)
        → (both : Run old (cs ++ ds) (rs ++ ss) new) × (both.rows ≡ first.rows ++ second.rows)
        × (held_of both.rows ≡ held_of first.rows ++ held_of second.rows) }
    ensures parts { (old new : State) (cs : List Command) (rs : List Reply) (run : Run old cs rs new) (xs ys : List Row) → run.rows ≡ xs ++ ys
        → (mid : State) × (first : Run old (commands_of xs) (replies_of xs) mid) × (second : Run mid (commands_of ys) (replies_of ys) new)
        × (first.rows ≡ xs) × (second.rows ≡ ys) }
    ensures row { (row : Row) → (run : Run row.before (row.command ∷ []) (row.reply ∷ []) row.after) × (run.rows ≡ row ∷ []) }
{}

/// After every command, a line can go back over its record and ahead (`follows`). If it can, what is recorded can be
/// taken back from the text, and what was undone can be redone on it.
#[tactic(auto, using(crate::proofs::Sessions::SessionLemmas::follows_unwind, crate::proofs::Sessions::SessionLemmas::follows_replay))]
pub fn what_was_undone_can_be_made_again()
    ensures recorded { (line : Line) (changes : Record) → Follows line changes → IsSome (unwind changes.recorded line.text) }
    ensures pending { (line : Line) (changes : Record) → Follows line changes → IsSome (replay_entries changes.pending line.text) }
{}

/// After every row of a run, also if a step was refused, replaying the recorded changes from the starting text
/// gives the present text.
pub fn each_row_replays()
    ensures { (start : List ℕ) (old new : State) (commands : List Command) (replies : List Reply) (run : Run old commands replies new)
        → Replays start old → AfterEach (Replays start) run.rows }
{}

/// What changed is told whole: the events of a row (`reports`), replayed on the text before it, give the text after it,
/// also if the command was refused after some of its steps, and also of an undo and a redo. The same holds of a run.
pub fn reports_are_replayed()
    ensures row { (row : Row) → replay (reports row) row.before.line.text ≡ Some row.after.line.text }
    ensures run { (old new : State) (commands : List Command) (replies : List Reply) (run : Run old commands replies new)
        → replay (reports_of run.rows) old.line.text ≡ Some new.line.text }
{}

/// What changed is told whole, whatever changed it: also an undo, a redo, and a command that was refused after some of its
/// steps. After each row, and so over a run, all in which the text differs from the one about which `changed` was asked
/// is in what it tells next; and if reports are kept, those that wait lead from the text at which reading left off to
/// the present one.
pub fn what_changed_is_told()
    ensures changed { (asked : List ℕ) (row : Row) → ChangedFrom asked row.before → ChangedFrom asked row.after }
    ensures reported { (read : List ℕ) (row : Row) → ReportedFrom read row.before → ReportedFrom read row.after }
    ensures changed_over { (asked : List ℕ) (old new : State) (commands : List Command) (replies : List Reply) (run : Run old commands replies new)
        → ChangedFrom asked old → ChangedFrom asked new }
    ensures reported_over { (read : List ℕ) (old new : State) (commands : List Command) (replies : List Reply) (run : Run old commands replies new)
        → ReportedFrom read old → ReportedFrom read new }
{}
