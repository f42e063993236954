//! A line with the ring and the record of its changes, driven by commands, and scripts of such commands.
#![tactic(auto)]

mod grammar;
pub mod history;
pub mod kill_runs;
pub mod laws;
pub mod options;
pub mod pair;
pub mod performing;
mod print;
pub mod script;
pub mod session;
pub mod settings;
mod spelling;

pub use options::{Bound, Options};
pub use pair::Pair;
pub use script::{ScriptFault, run_script};
pub use session::typing::{TypeFault, Typed};
pub use session::{Command, Fault, Reply, Session};
pub use settings::Settings;
