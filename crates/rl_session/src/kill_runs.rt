//! The laws of kills in a session.
ghost use Rattle.std.specs.Prelude.{◌≡◌, ◌++◌, ◌∷◌, [], ◌<◌, List, map};
ghost use Rattle.rl_base.specs.declared.motion.Movement.{Movement};
ghost use Rattle.rl_session.specs.Commands.{Step};
ghost use Rattle.rl_session.specs.KillRuns.{IsNoKill, AllDirected, AllKill, AnyTook, NoneRefused, GivenBack};
ghost use Rattle.rl_session.specs.Run.{Row, Run, before_last, replies_of};
ghost use Rattle.rl_session.specs.State.{Stands, State};
ghost use Rattle.rl_session.specs.declared.session.Command.{Command};
ghost use Rattle.rl_session.specs.declared.session.Command.TheVariants.{Kill, Yank};
ghost use Rattle.rl_session.specs.declared.session.Reply.{Reply};

/// In every session, directed kills, one right after the other, and then one yank give back the text. The yank
/// inserts where the kills left the cursor, and leaves the cursor at the end of the yanked text. Conditions: at least
/// one kill answers true, nothing is refused, the ring has room for a text, and its last action before was no kill. The
/// same holds if some of the kills are of a range that begins at the cursor, told forward, or ends there, told backward.
pub fn kills_then_yank()
    ensures movements { (first old new : State) (earlier : List Command) (said : List Reply) (movements : List Movement) (replies : List Reply) (last : Reply)
        → Stands first → 0 < first.pair.ring.size → Run first earlier said old
        → (run : Run old (map Kill movements ++ (Yank 1 ∷ [])) (replies ++ (last ∷ [])) new)
        → IsNoKill old.pair.ring.last → AllDirected movements → AnyTook replies → NoneRefused (replies ++ (last ∷ []))
        → GivenBack old (before_last old run.rows) new }
    ensures ranges { (first old new : State) (earlier commands : List Command) (said replies : List Reply) (kills : List Row) (back : Row)
        → Stands first → 0 < first.pair.ring.size → Run first earlier said old → (run : Run old commands replies new)
        → run.rows ≡ kills ++ (back ∷ []) → back.command ≡ Yank 1 → IsNoKill old.pair.ring.last
        → AllKill kills → AnyTook (replies_of kills) → NoneRefused replies
        → GivenBack old back.before new }
{}

/// No command changes where a new kill puts its text, nor how many texts the ring has room for.
pub fn commands_keep_the_rule_of_the_ring()
    ensures rule { (old new : State) (command : Command) (reply : Reply) → Step old command reply new → new.pair.ring.rule ≡ old.pair.ring.rule }
    ensures size { (old new : State) (command : Command) (reply : Reply) → Step old command reply new → new.pair.ring.size ≡ old.pair.ring.size }
{}
