//! What a session forgets: the oldest changes and closed groups, as long as its record has more entries than the bound
//! of its options, or more bytes of text in them, old and new, up to the begin of an open group; and the ring's oldest
//! texts beyond their bound. A command that is performed ends by that (`Session::perform`), and new settings do
//! (`Session::set_settings`); `apply`, `run` and scripts forget nothing. Text, cursor and reports stay. An undo goes
//! back to the text with which the rest begins, and what was undone can be redone as before. If nothing is left to
//! undo, an undo answers false.
ghost use Rattle.std.specs.Prelude.{◌≡◌, List, ℕ};
ghost use Rattle.rl_session.specs.State.{ChangedFrom, Replays, ReportedFrom, State};
ghost use Rattle.rl_session.specs.Commands.{Step};
ghost use Rattle.rl_session.specs.Forgetting.{Forgets, HoldsOn, ReplaysOn, within_bound};
ghost use Rattle.rl_session.specs.History.{Holds};
ghost use Rattle.rl_session.specs.Options.{no_bound};
ghost use Rattle.rl_session.specs.declared.session.Command.{Command};
ghost use Rattle.rl_session.specs.declared.session.Reply.{Reply};

use crate::session::Session;

impl Session {
    // Forgets what is beyond the bound. It takes no memory.
    #[tactic(auto, using(crate::proofs::Sessions::SessionLemmas::resting))]
    #[inline(always)]
    pub(super) fn forget(&mut self)
        ensures { Forgets self.old self.new }
    {
        self.ends();
        let bound = self.options.bound;
        self.pair.changes.forget(bound.entries, bound.bytes);
        self.pair.ring.forget(bound.ring_bytes);
        self.ends();
    }
}

/// What a session's record forgets leads from the text with which it began to another, and what is left leads from that
/// to the present text. If the record was placed among the texts that were held, that is one of them, and what is
/// left is placed among those from there on. So the laws of its history (`history`) go on from that text, and each undo
/// still leaves a text that was held. If nothing is forgotten, that is the text with which it began. What tells of
/// changes has nothing to tell of it.
#[tactic(auto, using(crate::proofs::Runs::PlaceLemmas::holds_forgotten))]
pub fn what_is_left_replays()
    ensures replays { (start : List ℕ) (s : State) → Replays start s → ReplaysOn start s }
    ensures held { (start : List ℕ) (held : List (List ℕ)) (s : State) → Holds start held s → HoldsOn start held s }
    ensures changed { (asked : List ℕ) (s : State) → ChangedFrom asked s → ChangedFrom asked (within_bound s) }
    ensures reported { (read : List ℕ) (s : State) → ReportedFrom read s → ReportedFrom read (within_bound s) }
{}

/// A session without a bound forgets nothing, and no command changes a session's options.
pub fn nothing_goes_without_a_bound()
    ensures forgets { (s : State) → s.options.bound ≡ no_bound → within_bound s ≡ s }
    ensures keeps { (old new : State) (command : Command) (reply : Reply) → Step old command reply new → new.options ≡ old.options }
{}
