//! Runs sessions whose requests for memory may be refused, prints what each command leaves, and checks it.
#![tactic(auto)]

ghost use Rattle.std.specs.Prelude.{◌≡◌, IfOk, OnOk, OnErr};
ghost use Rattle.std.specs.Process.{exit_status};

mod checks;
mod sessions;
mod watched;

use crate::checks::{Failed, Tally};
use crate::sessions::{all_at_once, one_by_one, word_in_capitals, wrong_record};
use std::alloc::Global;
use std::process::ExitCode;

// Runs a check that must fail, and then all sessions. It ends well only if no check failed, and none was left out
// or something was refused.
fn run_all(rt: &impl Print, alloc: Global) -> Result<Tally, Failed>
    ensures { IfOk result (λ all. (all.refused ≡ 0) → (all.held ≡ 128)) }
{
    let mut all = Tally::default();
    wrong_record(rt, alloc, &mut all)?;
    one_by_one(rt, alloc, &mut all)?;
    word_in_capitals(rt, alloc, &mut all)?;
    all_at_once(rt, alloc, &mut all)?;
    all.at_end()
}

// The status at the end: 0 exactly where no check failed, else 1.
fn status(outcome: &Result<Tally, Failed>) -> ExitCode
    ensures held { OnOk outcome.now (exit_status result ≡ 0) }
    ensures failed { OnErr outcome.now (exit_status result ≡ 1) }
{
    match outcome {
        Ok(_) => ExitCode::SUCCESS,
        Err(_) => ExitCode::FAILURE,
    }
}

// What can't be written fails no check.
fn main(rt: HostRuntime) -> ExitCode {
    let outcome = run_all(&rt, rt.alloc());
    let _ = match &outcome {
        Ok(all) => println!(rt; "replies refused: {}", all.refused()),
        Err(failed) => println!(rt; "failed: {failed}"),
    };
    status(&outcome)
}
