//! What `==`, `clone` and `default` are of the types that all crates share.
ghost use Rattle.std.specs.Prelude.{◌≡◌, ◌↔◌, true};
ghost use Rattle.rl_base.specs.declared.layout.Position.{Position};
ghost use Rattle.rl_base.specs.declared.kill_ring.Mode.{Mode};
ghost use Rattle.rl_base.specs.declared.listeners.Direction.TheVariants.{Forward};
ghost use Rattle.rl_base.specs.Sameness.{IsCopying, IsSameness};
ghost use Rattle.rl_base.specs.RefuseAt.{event_of};

use crate::kill_ring::{Mode, NewKill};
use crate::layout::{GraphemeClusterMode, Position};
use crate::listeners::{Direction, Refusal};
use crate::motion::{Anchor, At, CharSearch, Movement, Word, WordAction};
use crate::reports::{Report, ReportKind};
use crate::splice::{Side, Splice};
pub use crate::testing::{RefuseAt, TextEvent};
use crate::watch::WatchFault;

/// `==` compares all that a value holds: two are equal exactly if they are the same variant with the same fields, and two
/// positions if they have the same column and row. Two texts in a `TextEvent` are the same if their bytes are.
pub fn equal_values_are_the_same()
    ensures words { IsSameness ⟦<Word as PartialEq>⟧.eq }
    ensures stops { IsSameness ⟦<At as PartialEq>⟧.eq }
    ensures actions { IsSameness ⟦<WordAction as PartialEq>⟧.eq }
    ensures anchors { IsSameness ⟦<Anchor as PartialEq>⟧.eq }
    ensures searches { IsSameness ⟦<CharSearch as PartialEq>⟧.eq }
    ensures movements { IsSameness ⟦<Movement as PartialEq>⟧.eq }
    ensures directions { IsSameness ⟦<Direction as PartialEq>⟧.eq }
    ensures refusals { IsSameness ⟦<Refusal as PartialEq>⟧.eq }
    ensures modes { IsSameness ⟦<Mode as PartialEq>⟧.eq }
    ensures new_kills { IsSameness ⟦<NewKill as PartialEq>⟧.eq }
    ensures widths { IsSameness ⟦<GraphemeClusterMode as PartialEq>⟧.eq }
    ensures positions { IsSameness ⟦<Position as PartialEq>⟧.eq }
    ensures splices { IsSameness ⟦<Splice as PartialEq>⟧.eq }
    ensures sides { IsSameness ⟦<Side as PartialEq>⟧.eq }
    ensures kinds { IsSameness ⟦<ReportKind as PartialEq>⟧.eq }
    ensures reports { IsSameness ⟦<Report as PartialEq>⟧.eq }
    ensures faults { IsSameness ⟦<WatchFault as PartialEq>⟧.eq }
    ensures events { (a b : TextEvent) → (⟦<TextEvent as PartialEq>⟧.eq a b ≡ true) ↔ (event_of a ≡ event_of b) }
{}

/// A clone is the value that was cloned, and is never refused.
pub fn clones_are_the_value()
    ensures words { IsCopying ⟦<Word as Clone>⟧.is_clone ⟦<Word as Clone>⟧.is_infallible }
    ensures stops { IsCopying ⟦<At as Clone>⟧.is_clone ⟦<At as Clone>⟧.is_infallible }
    ensures actions { IsCopying ⟦<WordAction as Clone>⟧.is_clone ⟦<WordAction as Clone>⟧.is_infallible }
    ensures anchors { IsCopying ⟦<Anchor as Clone>⟧.is_clone ⟦<Anchor as Clone>⟧.is_infallible }
    ensures searches { IsCopying ⟦<CharSearch as Clone>⟧.is_clone ⟦<CharSearch as Clone>⟧.is_infallible }
    ensures movements { IsCopying ⟦<Movement as Clone>⟧.is_clone ⟦<Movement as Clone>⟧.is_infallible }
    ensures directions { IsCopying ⟦<Direction as Clone>⟧.is_clone ⟦<Direction as Clone>⟧.is_infallible }
    ensures refusals { IsCopying ⟦<Refusal as Clone>⟧.is_clone ⟦<Refusal as Clone>⟧.is_infallible }
    ensures modes { IsCopying ⟦<Mode as Clone>⟧.is_clone ⟦<Mode as Clone>⟧.is_infallible }
    ensures new_kills { IsCopying ⟦<NewKill as Clone>⟧.is_clone ⟦<NewKill as Clone>⟧.is_infallible }
    ensures widths { IsCopying ⟦<GraphemeClusterMode as Clone>⟧.is_clone ⟦<GraphemeClusterMode as Clone>⟧.is_infallible }
    ensures positions { IsCopying ⟦<Position as Clone>⟧.is_clone ⟦<Position as Clone>⟧.is_infallible }
    ensures splices { IsCopying ⟦<Splice as Clone>⟧.is_clone ⟦<Splice as Clone>⟧.is_infallible }
    ensures sides { IsCopying ⟦<Side as Clone>⟧.is_clone ⟦<Side as Clone>⟧.is_infallible }
    ensures kinds { IsCopying ⟦<ReportKind as Clone>⟧.is_clone ⟦<ReportKind as Clone>⟧.is_infallible }
    ensures reports { IsCopying ⟦<Report as Clone>⟧.is_clone ⟦<Report as Clone>⟧.is_infallible }
    ensures faults { IsCopying ⟦<WatchFault as Clone>⟧.is_clone ⟦<WatchFault as Clone>⟧.is_infallible }
{}

/// The default side of the cursor is the one ahead, and the default position stands at column 0 of row 0.
pub fn defaults_are_these()
    ensures direction { (d : Direction) → ⟦<Direction as Default>⟧.is_default d → d ≡ Forward }
    ensures position { (p : Position) → ⟦<Position as Default>⟧.is_default p → p ≡ record { col = 0; row = 0 } }
{}
