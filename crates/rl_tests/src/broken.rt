//! Scripts whose reader or writer breaks, or gives and takes a byte at a time.
ghost use Rattle.std.specs.Prelude.{Some};

use rl_session::{ScriptFault, run_script};
use std::alloc::Global;
use std::io;
use std::io::{ErrorKind, Read, Write};
use std::process::Abort;
use std::test::Fail;

// A script in memory. `left` more bytes of it are read, in blocks or singly, before a read fails.
#[derive(Drop)]
struct FailRead<'a> {
    rest: &'a [u8],
    left: usize,
    singly: bool,
}

impl<'a> Read for FailRead<'a> {
    ghost remaining = { λ r. Some r.rest.now };

    fn read(&mut self, buf: &mut [u8]) -> io::Result<usize> {
        if self.left == 0 {
            return Err(io::Error::from(ErrorKind::Other));
        }
        let most = if self.singly { 1 } else { self.left };
        let room = most.min(buf.len());
        let count = self.rest.read(&mut buf[..room])?;
        self.left = self.left.saturating_sub(count);
        Ok(count)
    }
}

// What a writer without room for more does.
#[derive(Clone, Copy, PartialEq, Eq)]
enum Full {
    Fails,
    TakesNothing,
}

// An output in memory. `left` more bytes are written to it, in blocks or singly, before it is full.
#[derive(Drop)]
struct FailWrite {
    held: Vec<u8>,
    left: usize,
    singly: bool,
    full: Full,
}

impl Write for FailWrite {
    ghost contents = { λ w. Some w.held.items };

    fn write(&mut self, buf: &[u8]) -> io::Result<usize> {
        if self.left == 0 && self.full == Full::Fails {
            return Err(io::Error::from(ErrorKind::Other));
        }
        let most = if self.singly {
            self.left.min(1)
        } else {
            self.left
        };
        let count = most.min(buf.len());
        self.held.extend_from_slice(&buf[..count])?;
        self.left = self.left.saturating_sub(count);
        Ok(count)
    }

    fn flush(&mut self) -> io::Result<()> {
        Ok(())
    }
}

// A script, and what is printed for it, a line for each of its own.
type Row = (&'static [u8], &'static [u8]);

const ROWS: &[Row] = &[
    (b"text a\nins 1 b\n", b"ok 1 a\ntrue 2 ab\n"),
    (
        b"text ab\npos 1\nins 1 c\nundo 1\n",
        b"ok 2 ab\nok 1 ab\nfalse 2 acb\ntrue 1 ab\n",
    ),
    (
        b"text ab\nkill bword 1 emacs\nyank 0\nyankpop\nyankpop\n",
        b"ok 2 ab\ntrue 0 \ntrue 0 \nrefused:3 0 \nnone 0 \n",
    ),
    (
        b"text \xc3\xa9\nins\nins 2 x",
        b"ok 2 \xc3\xa9\nbad\ntrue 4 \xc3\xa9xx\n",
    ),
];

// It is so, of a script that breaks after that many bytes.
fn is_so(rt: &impl Abort, is_so: bool, what: &str, after: usize) {
    assert!(rt; is_so, "{what}, after {after} bytes");
}

// How many lines end in that part of a script.
fn ended(part: &[u8]) -> usize {
    let mut lines = 0usize;
    for b in part {
        if *b == b'\n' {
            lines = lines.saturating_add(1);
        }
    }
    lines
}

// The length of the first `lines` lines.
fn len_of_lines(output: &[u8], lines: usize) -> usize {
    let mut left = lines;
    let mut len = 0usize;
    for b in output {
        if left == 0 {
            return len;
        }
        if *b == b'\n' {
            left -= 1;
        }
        len = len.saturating_add(1);
    }
    len
}

// Where a read fails after `after` bytes, the script stops, and `wanted` was printed.
fn stops_reading(rt: &impl Abort, alloc: Global, script: &[u8], after: usize, wanted: &[u8]) {
    for singly in [false, true] {
        let mut printed = Vec::new(alloc);
        let mut reader = FailRead {
            rest: script,
            left: after,
            singly,
        };
        let stopped = run_script(alloc, &mut reader, &mut printed);
        is_so(rt, stopped == Err(ScriptFault::Read), "a read fails", after);
        let answered = printed.as_slice() == wanted;
        is_so(rt, answered, "what was read is answered", after);
    }
}

// The lines that end before the read that fails are answered, and no other.
#[test]
fn a_read_fails_at_each_place(rt: HostRuntime) {
    for (script, output) in ROWS {
        for after in 0..=script.len() {
            let lines = ended(script.get(..after).unwrap_or(script));
            let len = len_of_lines(output, lines);
            let wanted = output.get(..len).unwrap_or(output);
            stops_reading(&rt, rt.alloc(), script, after, wanted);
        }
    }
}

// A writer that is full after the wanted bytes stops the script, if there is more, and holds these bytes. It is read and
// answered in blocks, and then a byte at a time.
fn stops_writing(
    rt: &impl Abort,
    alloc: Global,
    script: &[u8],
    full: Full,
    wanted: &[u8],
    more: bool,
) {
    for singly in [false, true] {
        let mut reader = FailRead {
            rest: script,
            left: usize::MAX,
            singly,
        };
        let mut writer = FailWrite {
            held: Vec::new(alloc),
            left: wanted.len(),
            singly,
            full,
        };
        let stopped = run_script(alloc, &mut reader, &mut writer);
        let fault = if more {
            Err(ScriptFault::Write)
        } else {
            Ok(())
        };
        is_so(
            rt,
            stopped == fault,
            "a write fails before the end",
            wanted.len(),
        );
        let held = writer.held.as_slice() == wanted;
        is_so(rt, held, "what was printed is held", wanted.len());
    }
}

// All that is printed before the write that fails is held, and a write that takes nothing fails too.
#[test]
fn a_write_fails_at_each_place(rt: HostRuntime) {
    for (script, output) in ROWS {
        for after in 0..=output.len() {
            let wanted = output.get(..after).unwrap_or(output);
            let more = after < output.len();
            stops_writing(&rt, rt.alloc(), script, Full::Fails, wanted, more);
            stops_writing(&rt, rt.alloc(), script, Full::TakesNothing, wanted, more);
        }
    }
}
