//! What places, the ring, lines and records do, as any caller sees it. Each file is named for the module that it is of;
//! `cursors` is of the cursors that undo and redo give back, `halts` of edits that are refused, `told` reads what their
//! listener heard, `steps` makes calls of a line and its record, `mirror` is a listener that holds the text, and `joins` is of
//! changes that join in the record. Tests stand alone, so that no other crate is proved again for them.
#![tactic(auto)]

#[cfg(test)]
mod cursors;
#[cfg(test)]
mod edits;
#[cfg(test)]
mod forgetting;
#[cfg(test)]
mod gathered;
#[cfg(test)]
mod halts;
#[cfg(test)]
mod joins;
#[cfg(test)]
mod kill_ring;
#[cfg(test)]
mod kills;
#[cfg(test)]
mod layout;
#[cfg(test)]
mod line_buffer;
#[cfg(test)]
mod line_motions;
#[cfg(test)]
mod listeners;
#[cfg(test)]
mod mirror;
#[cfg(test)]
mod places;
#[cfg(test)]
mod splice;
#[cfg(test)]
mod steps;
#[cfg(test)]
mod told;
#[cfg(test)]
mod undo;
#[cfg(test)]
mod units;
