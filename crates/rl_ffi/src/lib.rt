//! The calls for C. Each is given the handle of a session, or needs none; `include/lodvarn.h` says what it does. Those
//! whose names begin with rl_ are for the calls that make a handle, free it, or look at the size of a structure.
#![tactic(auto)]

mod answers;
mod buffers;
pub mod commands;
pub mod handle;
pub mod kill_ring;
mod numbers;
pub mod opening;
mod reach;
pub mod reads;
pub mod reports;
pub mod saved;
pub mod screen;
pub mod shapes;
pub mod texts;
pub mod view;
