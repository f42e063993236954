//! What sessions and scripts do, as any caller sees it, and by scripts what lines do. Each file is named for the module that
//! it is of; `broken` is of scripts whose reader or writer fails, `cursors` of the cursors that undo and redo give back, and
//! `quotas` of great and rare input. Tests stand alone, so that no other crate is proved again for them.
#![tactic(auto)]

#[cfg(test)]
mod broken;
#[cfg(test)]
mod cursors;
#[cfg(test)]
mod grammar;
#[cfg(test)]
mod indents;
#[cfg(test)]
mod joins;
#[cfg(test)]
mod kills;
#[cfg(test)]
mod letter_case;
#[cfg(test)]
mod motions;
#[cfg(test)]
mod quotas;
#[cfg(test)]
mod saved;
#[cfg(test)]
mod script;
#[cfg(test)]
mod session;
#[cfg(test)]
mod transpositions;
#[cfg(test)]
mod watch;
