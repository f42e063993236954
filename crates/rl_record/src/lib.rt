//! The record of the changes of a line, which undoes and redoes them.
#![tactic(auto)]

pub mod changeset;
mod entries;
mod forgetting;
mod joining;
pub mod laws;
mod recent;
mod units;

pub use changeset::{Changeset, UnitStart};
