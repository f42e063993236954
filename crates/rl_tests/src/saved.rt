//! A session that is saved and loaded again.
use crate::script::is_so;
use rl_base::saving::put_numbers;
use rl_base::{GraphemeClusterMode, LoadFault, Movement, SaveFault, Width};
use rl_session::{Fault, Session, Settings};
use std::alloc::Global;
use std::process::Abort;
use std::test::Fail;

// Words are typed, one is killed, two groups are made, of which one is open, and a part of it is undone.
fn edits(session: &mut Session) -> Result<(), Fault> {
    session.insert('a', 2)?;
    session.kill(&Movement::BeginningOfLine)?;
    session.begin()?;
    session.insert('é', 1)?;
    session.insert('-', 1)?;
    session.end_one()?;
    session.transpose_chars()?;
    session.begin()?;
    session.backspace(1)?;
    session.insert('z', 3)?;
    session.undo(1)?;
    Ok(())
}

// These bytes are refused, for that reason.
fn refuses(rt: &impl Abort, alloc: Global, bytes: &[u8], why: LoadFault) {
    match Session::load(alloc, bytes) {
        Ok(_) => is_so(rt, false, "no session is made"),
        Err(fault) => is_so(rt, fault == why, "the fault"),
    }
}

// No byte may lack or differ: the first eight are the heading.
fn refuses_others(rt: &impl Abort, alloc: Global, bytes: &mut Vec<u8>) {
    for at in 0..bytes.len() {
        let why = if at < 8 {
            LoadFault::Unknown
        } else {
            LoadFault::Damaged
        };
        refuses(rt, alloc, &bytes[..at], why);
        bytes[at] ^= 32;
        refuses(rt, alloc, bytes.as_slice(), why);
        bytes[at] ^= 32;
    }
}

// It is loaded as what it was, of these bytes.
fn loaded(rt: &impl Abort, alloc: Global, session: &Session) -> Result<Vec<u8>, Fail> {
    let bytes = session.save()?;
    let loaded = Session::load(alloc, bytes.as_slice())?;
    is_so(rt, loaded.settings() == session.settings(), "the settings");
    let again = loaded.save()?;
    is_so(rt, again.as_slice() == bytes.as_slice(), "the same bytes");
    Ok(bytes)
}

fn comes_back(rt: &impl Abort, alloc: Global, session: &mut Session) -> Result<(), Fail> {
    edits(session)?;
    let mut bytes = loaded(rt, alloc, session)?;
    refuses_others(rt, alloc, &mut bytes);
    Ok(())
}

#[test]
fn a_saved_session_comes_back(rt: HostRuntime) -> Result<(), Fail> {
    let mut settings = Settings::new(64, 60, GraphemeClusterMode::Unicode);
    settings.options.keeps = true;
    let mut session = Session::open(rt.alloc(), "", 0, &settings)?;
    comes_back(&rt, rt.alloc(), &mut session)
}

// 2,000 entries, of which 500 are undone, and a ring of 100 texts.
fn edits_much(session: &mut Session) -> Result<(), Fault> {
    for _ in 0..1000 {
        session.insert('a', 1)?;
        session.backspace(1)?;
    }
    for _ in 0..100 {
        session.keep("kept")?;
    }
    session.undo(500)?;
    Ok(())
}

// It is loaded before and after these.
fn comes_back_great(rt: &impl Abort, alloc: Global, session: &mut Session) -> Result<(), Fail> {
    loaded(rt, alloc, session)?;
    edits_much(session)?;
    is_so(rt, session.record().len() == 1500, "the entries");
    loaded(rt, alloc, session)?;
    Ok(())
}

#[test]
fn great_sessions_come_back(rt: HostRuntime) -> Result<(), Fail> {
    let mut settings = Settings::new(1 << 40, 100, GraphemeClusterMode::Unicode);
    settings.options.bound.ring_bytes = 1 << 40;
    let text = "a".repeat(rt.alloc(), 20_000)?;
    for text in ["", text.as_str()] {
        let mut session = Session::open(rt.alloc(), text, text.len(), &settings)?;
        comes_back_great(&rt, rt.alloc(), &mut session)?;
    }
    Ok(())
}

#[test]
fn numbers_past_four_bytes_are_too_long(rt: HostRuntime) -> Result<(), Fail> {
    let mut out = Vec::new(rt.alloc());
    put_numbers(&mut out, Width::Four, &[0, 4_294_967_295])?;
    put_numbers(&mut out, Width::Eight, &[4_294_967_296, u64::MAX])?;
    let put = put_numbers(&mut out, Width::Four, &[4_294_967_296]);
    is_so(&rt, put == Err(SaveFault::TooLong), "the fault");
    is_so(&rt, out.len() == 24, "the bytes of those before");
    Ok(())
}

#[test]
fn faults_are_printed(rt: HostRuntime) -> Result<(), Fail> {
    let of_save = format!(in rt.alloc(); "{}, {}", SaveFault::NoMemory, SaveFault::TooLong)?;
    is_so(
        &rt,
        of_save.as_str() == "out of memory, a text is too long to be saved",
        "the faults of a save",
    );
    let of_load = format!(in rt.alloc();
        "{}, {}, {}",
        LoadFault::NoMemory,
        LoadFault::Unknown,
        LoadFault::Damaged
    )?;
    is_so(
        &rt,
        of_load.as_str()
            == "out of memory, the bytes are not of a known version, the saved bytes are damaged",
        "the faults of a load",
    );
    Ok(())
}
