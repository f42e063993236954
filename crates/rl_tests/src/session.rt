//! Sessions for the tests, and what no contract says of one.
use crate::script::is_so;
use rl_base::GraphemeClusterMode;
use rl_session::{Command, Fault, Reply, Session, Settings};
use std::alloc::Global;
use std::process::Abort;
use std::test::Fail;

// A session of that text and cursor, with room for so many bytes.
pub(crate) fn session_of(
    alloc: Global,
    text: &str,
    pos: usize,
    limit: usize,
) -> Result<Session, Fail> {
    let mode = GraphemeClusterMode::Unicode;
    Ok(Session::new(alloc, text, pos, limit, 60, mode)?)
}

// A session of that text, with the cursor at its end, and that limit.
pub(crate) fn limited_to(alloc: Global, text: &str, limit: usize) -> Result<Session, Fault> {
    let settings = Settings::new(limit, 60, GraphemeClusterMode::Unicode);
    Session::open(alloc, text, text.len(), &settings)
}

// The session does a command with that reply.
pub(crate) fn replies(rt: &impl Abort, session: &mut Session, command: &Command, wanted: &Reply) {
    is_so(rt, session.apply(command) == *wanted, "the reply");
}

// With `open` a limit needs no memory; with `new` there is room for as many bytes.
#[test]
fn the_greatest_limit_opens(rt: HostRuntime) -> Result<(), Fail> {
    let alloc = rt.alloc();
    let mode = GraphemeClusterMode::Unicode;
    let made = Session::new(alloc, "ab", 1, usize::MAX, 60, mode).err();
    is_so(&rt, made == Some(Fault::NoMemory), "room for all bytes");
    let mut session = limited_to(alloc, "ab", usize::MAX)?;
    is_so(&rt, session.line().limit() == usize::MAX, "the limit");
    let anew = session.restart("another text", 3);
    is_so(&rt, anew.is_ok(), "another text");
    Ok(())
}

// What may be handed to another thread: whoever calls the library for C relies on it.
fn may_be_sent<S: Send>() {}

#[test]
fn a_session_may_be_sent() {
    may_be_sent::<Session>();
}
