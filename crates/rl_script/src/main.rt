//! Runs a script of line edits from standard input, and prints one line for each of its lines.
#![tactic(auto)]

ghost use Rattle.std.specs.Prelude.{◌≡◌, ◌⊎◌, OnOk, OnErr};
ghost use Rattle.std.specs.Process.{exit_status};
ghost use Rattle.rl_session.specs.Script.{Ran, Stopped};

use rl_session::{ScriptFault, run_script};
use std::alloc::Global;
use std::io;
use std::io::{Read, Write};
use std::process::ExitCode;

// The status at the end: 0 exactly if the script ran to its end, else 1.
fn status(outcome: Result<(), ScriptFault>) -> ExitCode
    ensures ran { OnOk outcome (exit_status result ≡ 0) }
    ensures stopped { OnErr outcome (exit_status result ≡ 1) }
{
    match outcome {
        Ok(()) => ExitCode::SUCCESS,
        Err(_) => ExitCode::FAILURE,
    }
}

// Runs the script, and prints why it stopped before its end, if it did. Status 0 says that all was read and answered.
// Status 1 says that what was written is what some lines from the front print.
fn run<R: Read, W: Write>(
    rt: &impl Eprint,
    alloc: Global,
    reader: &mut R,
    writer: &mut W,
) -> ExitCode
    ensures status { (exit_status result ≡ 0) ⊎ (exit_status result ≡ 1) }
    ensures ran { exit_status result ≡ 0 → Ran (R.remaining reader.old) (R.remaining reader.new) (W.contents writer.old) (W.contents writer.new) }
    ensures stopped { exit_status result ≡ 1 → Stopped (R.remaining reader.old) (W.contents writer.old) (W.contents writer.new) }
{
    let outcome = run_script(alloc, reader, writer);
    if let Err(fault) = outcome {
        let _ = eprintln!(rt; "{fault}");
    }
    status(outcome)
}

fn main(rt: HostRuntime) -> ExitCode {
    run(&rt, rt.alloc(), &mut rt.reader(), &mut io::writer(&rt))
}
