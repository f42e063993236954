//! What no clause says: printed text.
use rl_base::{Refusal, WatchFault};
use std::alloc::{AllocError, Global};
use std::process::Abort;
use std::test::Fail;

// The refusal has that number, and is printed so.
fn prints(
    rt: &impl Abort,
    alloc: Global,
    refusal: Refusal,
    number: u8,
    want: &str,
) -> Result<(), AllocError> {
    let text = format!(in alloc; "{refusal}")?;
    let is_so = refusal as u8 == number && text.as_str() == want;
    assert!(rt; is_so, "{refusal:?}");
    Ok(())
}

#[test]
fn refusals_are_printed(rt: HostRuntime) -> Result<(), Fail> {
    let words = "the listener refused the change";
    prints(&rt, rt.alloc(), Refusal::NoMemory, 1, "out of memory")?;
    prints(&rt, rt.alloc(), Refusal::Listener, 2, words)?;
    let said = format!(in rt.alloc();
        "{}, {}, {}",
        WatchFault::NoMemory,
        WatchFault::NoRoom,
        WatchFault::IsWatched
    )?;
    let wanted =
        "out of memory, the report queue must have room for at least one report, there is a queue of reports already";
    assert!(rt; said.as_str() == wanted, "why there is no queue");
    Ok(())
}
