//! Queues of reports, which have room for what they are made for.
use crate::script::is_so;
use crate::session::limited_to;
use rl_base::{ChangeListener, Report, ReportKind, Reports};
use rl_session::{Command, Session};
use std::process::Abort;
use std::test::Fail;

const TEXT: &str = "a report of some fifty bytes, which is put in again";

// Puts the text in so many times, each at another place.
fn fill(queue: &mut Reports, count: usize) -> Result<(), Fail> {
    for at in 0..count {
        queue.insert_str(at, TEXT)?;
    }
    Ok(())
}

// The oldest report of a queue is that of the text at that place. It is taken.
fn tells(rt: &impl Abort, queue: &mut Reports, at: usize) {
    let wanted = Report {
        kind: ReportKind::TextInserted,
        at,
        old_len: 0,
        new_len: TEXT.len(),
        cursors: None,
    };
    is_so(rt, queue.take() == Some(wanted), "the oldest report");
    is_so(rt, queue.taken_texts() == TEXT, "its text");
}

#[test]
fn many_reports_are_read(rt: HostRuntime) -> Result<(), Fail> {
    const COUNT: usize = 20_000;
    let mut queue = Reports::new(rt.alloc(), COUNT, 2_000_000)?;
    fill(&mut queue, COUNT)?;
    is_so(&rt, queue.waiting() == COUNT, "all wait");
    for at in 0..COUNT {
        tells(&rt, &mut queue, at);
    }
    is_so(&rt, queue.waiting() == 0, "none waits");
    Ok(())
}

// A session keeps reports in a queue with so much room.
fn keeps(rt: &impl Abort, session: &mut Session, room: usize, text_room: usize) {
    is_so(rt, session.keep_reports(room, text_room).is_ok(), "a queue");
    let _ = session.apply(&Command::Insert('b', 1));
    is_so(rt, session.take_report().is_some(), "a report waits");
}

#[test]
fn queues_of_each_room_are_kept(rt: HostRuntime) -> Result<(), Fail> {
    // numbers alone, one byte of texts, and much of both
    const ROOMS: &[(usize, usize)] = &[(1, 0), (1500, 0), (1, 1), (1, 2), (1500, 100_000)];
    for (room, text_room) in ROOMS {
        let mut session = limited_to(rt.alloc(), "a", usize::MAX)?;
        keeps(&rt, &mut session, *room, *text_room);
    }
    Ok(())
}
