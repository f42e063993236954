//! What a line of text and its listeners share: places in a text, events, and the traits that hear them.
#![tactic(auto)]

pub mod checksum;
mod gathered;
pub mod kill_ring;
pub mod laws;
pub mod layout;
pub mod listeners;
pub mod motion;
mod notes;
pub mod places;
pub mod reports;
pub mod saving;
pub mod screen;
pub mod splice;
pub mod testing;
pub mod watch;

pub use gathered::Gathered;
pub use kill_ring::{KillRing, Mode, NewKill};
pub use layout::{GraphemeClusterMode, Layout, Position, Unit};
pub use listeners::{ChangeListener, DeleteListener, Direction, NoListener, Refusal};
pub use motion::{Anchor, At, CharSearch, Movement, RepeatCount, Word, WordAction};
pub use reports::{Report, ReportKind, Reports};
pub use saving::{LoadFault, SaveFault, Unread, Width};
pub use screen::Screen;
pub use splice::{Side, Splice};
pub use testing::{RefuseAt, TextEvent};
pub use watch::{Watch, WatchFault};
