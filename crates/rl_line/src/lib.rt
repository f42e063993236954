//! A line of text with a cursor, whose edits are told to a listener, and how it goes over the entries of a record.
#![tactic(auto)]

mod blocks;
pub mod change;
mod gapped;
mod going;
pub mod inserted;
pub mod line_buffer;
mod line_starts;
mod patched;
mod roomy_line;
mod swap;
mod tails;

pub use line_buffer::{LineBuffer, MAX_LINE, can_delete_by, is_by_characters};
