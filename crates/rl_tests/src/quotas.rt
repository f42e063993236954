//! Large and rare input, with ample memory. A call may answer out of memory within its contract wherever it asks for
//! memory. So each kind of input that could be told apart from common input is tested here.
use crate::script::{is_so, printed_by};
use crate::session::{replies, session_of};
use rl_base::testing::RefuseAt;
use rl_base::{DeleteListener, Direction, Refusal, RepeatCount};
use rl_session::{Command, Fault, Reply, Session};
use std::alloc::Global;
use std::process::Abort;
use std::test::Fail;

// A script or what it prints: parts, each with how often it is repeated.
type Parts = &'static [(&'static str, usize)];

// What the script is about, the script, and what it prints.
type Row = (&'static str, Parts, Parts);

// The parts, one after the other.
fn joined(alloc: Global, parts: Parts) -> Result<String, Fail> {
    let mut whole = String::new(alloc);
    for (part, times) in parts {
        whole.push_str(part.repeat(alloc, *times)?.as_str())?;
    }
    Ok(whole)
}

// The script prints that.
fn prints(
    rt: &impl Abort,
    alloc: Global,
    what: &str,
    script: Parts,
    wanted: Parts,
) -> Result<(), Fail> {
    let script = joined(alloc, script)?;
    let wanted = joined(alloc, wanted)?;
    let printed = printed_by(alloc, script.as_bytes())?;
    is_so(rt, printed.as_slice() == wanted.as_bytes(), what);
    Ok(())
}

#[test]
fn great_and_rare_input_is_met(rt: HostRuntime) -> Result<(), Fail> {
    const ROWS: &[Row] = &[
        (
            "a ring of six texts",
            &[
                ("text a b c d e f\n", 1),
                ("kill bword 1 big\nwhere\n", 6),
                ("yank 1\n", 1),
                ("yankpop\n", 6),
            ],
            &[
                (
                    "ok 11 a b c d e f\ntrue 10 a b c d e \nat:0:10 10 a b c d e \ntrue 8 a b c d \nat:0:8 8 a b c d \n",
                    1,
                ),
                (
                    "true 6 a b c \nat:0:6 6 a b c \ntrue 4 a b \nat:0:4 4 a b \ntrue 2 a \nat:0:2 2 a \ntrue 0 \nat:0:0 0 \n",
                    1,
                ),
                (
                    "true 2 a \ntrue 2 b \ntrue 2 c \ntrue 2 d \ntrue 2 e \ntrue 1 f\ntrue 2 a \n",
                    1,
                ),
            ],
        ),
        (
            "a text of 100,001 bytes, its copy, its kill and its yank",
            &[
                ("text ", 1),
                ("a", 100_001),
                ("\ncopy buf\nkill bob\nyank 1\nundo 2\n", 1),
            ],
            &[
                ("ok 100001 ", 1),
                ("a", 100_001),
                ("\ntext:", 1),
                ("a", 100_001),
                (" 100001 ", 1),
                ("a", 100_001),
                ("\ntrue 0 \ntrue 100001 ", 1),
                ("a", 100_001),
                ("\ntrue 100001 ", 1),
                ("a", 100_001),
                ("\n", 1),
            ],
        ),
        (
            "3,000 entries, kept, undone at once, and redone one by one",
            &[
                ("ins 1 a\nback 1\n", 1500),
                ("trunc 3000\nundo 65535\n", 1),
                ("redo\n", 3000),
                ("begin\nend\nundo 2\n", 1),
            ],
            &[
                ("true 1 a\ntrue 0 \n", 1500),
                ("ok 0 \ntrue 0 \n", 1),
                ("true 1 a\ntrue 0 \n", 1500),
                ("mark:3000 0 \nfalse 0 \ntrue 0 \n", 1),
            ],
        ),
        (
            "1,500 newlines, and an indent and a dedent of as many lines",
            &[(
                "paste 1500 \\n\nindent 1 buf\ndedent 1 buf\nundo 65535\n",
                1,
            )],
            &[
                ("true 1500 ", 1),
                ("\\n", 1500),
                ("\ntrue 3000 ", 1),
                (" \\n", 1500),
                ("\ntrue 1500 ", 1),
                ("\\n", 1500),
                ("\ntrue 0 \n", 1),
            ],
        ),
        (
            "the greatest counts",
            &[
                ("limit 65535\ntext x\nkill bob\nyank 65535\nback 65535\n", 1),
                (
                    "ins 65535 y\nmove bchar 65535\ndel 65535\npaste 65535 z\nundo 65535\n",
                    1,
                ),
            ],
            &[
                ("ok 0 \nok 1 x\ntrue 0 \ntrue 65535 ", 1),
                ("x", 65_535),
                ("\ntrue 0 \ntrue 65535 ", 1),
                ("y", 65_535),
                ("\ntrue 0 ", 1),
                ("y", 65_535),
                ("\ntext:", 1),
                ("y", 65_535),
                (" 0 \ntrue 65535 ", 1),
                ("z", 65_535),
                ("\ntrue 1 x\n", 1),
            ],
        ),
        (
            "as much as the first session has room for, and no more",
            &[("ins 4096 a\nins 1 a\n", 1)],
            &[
                ("true 4096 ", 1),
                ("a", 4096),
                ("\nnone 4096 ", 1),
                ("a", 4096),
                ("\n", 1),
            ],
        ),
        (
            "a text and a character in front of a text, and a character past the place 10,000",
            &[
                ("limit 20000\ntext b\npos 0\npaste 1 ", 1),
                ("a", 10_000),
                ("\nmove eob\nins 1 -\npos 0\nins 1 -\nundo 3\n", 1),
            ],
            &[
                ("ok 0 \nok 1 b\nok 0 b\nfalse 10000 ", 1),
                ("a", 10_000),
                ("b\ntrue 10001 ", 1),
                ("a", 10_000),
                ("b\ntrue 10002 ", 1),
                ("a", 10_000),
                ("b-\nok 0 ", 1),
                ("a", 10_000),
                ("b-\nfalse 1 -", 1),
                ("a", 10_000),
                ("b-\ntrue 0 b\n", 1),
            ],
        ),
        (
            "words of 100 bytes are exchanged after another, and then the last clusters",
            &[
                ("text ", 1),
                ("c", 100),
                (" ", 1),
                ("a", 100),
                (" ", 1),
                ("b", 100),
                ("\ntwords 1\ntchars\nupdate 0\n", 1),
            ],
            &[
                ("ok 302 ", 1),
                ("c", 100),
                (" ", 1),
                ("a", 100),
                (" ", 1),
                ("b", 100),
                ("\ntrue 302 ", 1),
                ("c", 100),
                (" ", 1),
                ("b", 100),
                (" ", 1),
                ("a", 100),
                ("\ntrue 302 ", 1),
                ("c", 100),
                (" ", 1),
                ("b", 100),
                (" ", 1),
                ("a", 100),
                ("\nok 0 \n", 1),
            ],
        ),
        (
            "a zero width joiner, a word past ASCII, and a cluster in front that is exchanged",
            &[(
                "ins 1 \\u{200d}\ntext \u{e9}t\u{e9}\npos 0\ncase up\npos 2\ntchars\n",
                1,
            )],
            &[(
                "true 3 \u{200d}\nok 5 \u{e9}t\u{e9}\nok 0 \u{e9}t\u{e9}\ntrue 5 \u{c9}T\u{c9}\nok 2 \u{c9}T\u{c9}\ntrue 3 T\u{c9}\u{c9}\n",
                1,
            )],
        ),
        (
            "groups in groups, with and without a change, and open ones that are undone and redone",
            &[
                ("begin\nbegin\nbegin\nend\n", 1),
                (
                    "begin\nins 1 a\nbegin\nins 1 b\nbegin\nins 1 c\nend\nundo 1\nredo\n",
                    1,
                ),
                (
                    "begin\nbegin\nundo 1\nredo\nins 1 d\nundo 2\nredo\nundo 3\nbegin\n",
                    1,
                ),
            ],
            &[
                ("mark:0 0 \nmark:1 0 \nmark:2 0 \nfalse 0 \n", 1),
                (
                    "mark:0 0 \ntrue 1 a\nmark:2 1 a\ntrue 2 ab\nmark:4 2 ab\ntrue 3 abc\ntrue 3 abc\ntrue 0 \ntrue 3 abc\n",
                    1,
                ),
                (
                    "mark:9 3 abc\nmark:10 3 abc\nfalse 3 abc\nfalse 3 abc\ntrue 4 abcd\ntrue 3 abc\ntrue 4 abcd\ntrue 3 abc\nmark:9 3 abc\n",
                    1,
                ),
            ],
        ),
        (
            "nothing is put in, replaced, copied, killed, yanked, kept and opened",
            &[
                (
                    "text ab\nins 0 x\nrep 1 1\nundo 1\ntrunc 0\nrep 1 2\ntrunc 1\n",
                    1,
                ),
                ("text \\n\ncopy up 0\nkill up 0\nyank 1\n", 1),
                ("limit 0\ntext\nins 1 x\n", 1),
            ],
            &[
                (
                    "ok 2 ab\ntrue 2 ab\nok 1 ab\ntrue 2 ab\nok 2 ab\nok 1 a\nok 1 a\n",
                    1,
                ),
                ("ok 1 \\n\ntext: 1 \\n\ntrue 1 \\n\nnone 1 \\n\n", 1),
                ("ok 1 \\n\nok 0 \nnone 0 \n", 1),
            ],
        ),
        (
            "fourteen blocks of 4,096 bytes and a part of one, a line of more than three, and no last newline",
            &[
                ("ins 1 a\nback 1\n", 1500),
                ("text ", 1),
                ("b", 13_000),
                ("\ndiscbuf\n", 1),
                ("ins 1 a\nback 1\n", 1500),
                ("ins 2 x", 1),
            ],
            &[
                ("true 1 a\ntrue 0 \n", 1500),
                ("ok 13000 ", 1),
                ("b", 13_000),
                ("\ntrue 0 \n", 1),
                ("true 1 a\ntrue 0 \n", 1500),
                ("true 2 xx\n", 1),
            ],
        ),
        (
            "a width is cut at 65,535",
            &[("text ", 1), ("a", 70_000), ("\nwhere\n", 1)],
            &[
                ("ok 70000 ", 1),
                ("a", 70_000),
                ("\nat:0:65535 70000 ", 1),
                ("a", 70_000),
                ("\n", 1),
            ],
        ),
        (
            "kills to the left, which join in front",
            &[
                ("text a b c d e f\n", 1),
                ("kill bword 1 big\n", 6),
                ("yank 1\n", 1),
            ],
            &[
                (
                    "ok 11 a b c d e f\ntrue 10 a b c d e \ntrue 8 a b c d \ntrue 6 a b c \ntrue 4 a b \ntrue 2 a \ntrue 0 \n",
                    1,
                ),
                ("true 11 a b c d e f\n", 1),
            ],
        ),
    ];
    for (what, script, wanted) in ROWS {
        prints(&rt, rt.alloc(), what, script, wanted)?;
    }
    Ok(())
}

// The record of 1,500 entries leads back, also the first so many of them, and its last change put that in.
fn is_asked(rt: &impl Abort, session: &Session) -> Result<(), Fail> {
    let record = session.record();
    is_so(rt, record.len() == 1500, "1,500 entries");
    let kept = record.replays_to(1500, session.line())?;
    let none = record.replays_to(0, session.line())?;
    is_so(rt, kept && !none, "all lead to the text, and none do not");
    let put_in = record.last_insert()?;
    is_so(rt, put_in.is_some(), "the last change put a text in");
    Ok(())
}

// All entries of the record lead back, and ahead.
fn leads(rt: &impl Abort, session: &Session) -> Result<(), Fail> {
    let back = session.record().can_undo(session.line())?;
    let ahead = session.record().can_redo(session.line())?;
    is_so(rt, back && ahead, "the record leads back and ahead");
    Ok(())
}

// The session does the commands, each with a reply.
fn replies_to_each(
    rt: &impl Abort,
    session: &mut Session,
    commands: &[Command],
) -> Result<(), Fail> {
    let replies = session.run(commands)?;
    is_so(rt, replies.len() == commands.len(), "a reply to each");
    Ok(())
}

// So many insertions.
fn insertions(alloc: Global, count: usize) -> Result<Vec<Command>, Fail> {
    let mut commands = Vec::new(alloc);
    for _ in 0..count {
        commands.push(Command::Insert('-', 1))?;
    }
    Ok(commands)
}

// The session does nothing, then the 1,500 commands, and then undoes them.
fn does_many(rt: &impl Abort, session: &mut Session, commands: &[Command]) -> Result<(), Fail> {
    replies_to_each(rt, session, &[])?;
    leads(rt, session)?;
    replies_to_each(rt, session, commands)?;
    leads(rt, session)?;
    is_asked(rt, session)?;
    replies(rt, session, &Command::Undo(65535), &Reply::Answer(true));
    leads(rt, session)
}

#[test]
fn runs_of_no_and_many_commands_are_done(rt: HostRuntime) -> Result<(), Fail> {
    let commands = insertions(rt.alloc(), 1500)?;
    let mut session = session_of(rt.alloc(), "", 0, 1500)?;
    does_many(&rt, &mut session, commands.as_slice())
}

// What so many undos leave is kept, so that as many undos go back to the text from before them.
fn keeps_undone(
    rt: &impl Abort,
    alloc: Global,
    session: &mut Session,
    n: RepeatCount,
) -> Result<(), Fail> {
    let text = String::from_str(alloc, session.line().as_str())?;
    replies(rt, session, &Command::Undo(n), &Reply::Answer(true));
    replies(rt, session, &Command::KeepUndone, &Reply::Answer(true));
    replies(rt, session, &Command::Undo(n), &Reply::Answer(true));
    is_so(rt, session.line().as_str() == text.as_str(), "the text");
    Ok(())
}

// Puts a text of 2,000 bytes in, puts it in its own place, and deletes it.
fn change_much(session: &mut Session, long: &str) -> Result<(), Fault> {
    session.insert_str(0, long)?;
    session.replace(0, long.len(), long)?;
    session.delete_range(0, long.len())
}

// The session keeps 100 undone entries, and then three of that text.
fn keeps_much(
    rt: &impl Abort,
    alloc: Global,
    session: &mut Session,
    commands: &[Command],
    long: &str,
) -> Result<(), Fail> {
    replies_to_each(rt, session, commands)?;
    keeps_undone(rt, alloc, session, 100)?;
    change_much(session, long)?;
    keeps_undone(rt, alloc, session, 3)
}

#[test]
fn much_that_was_undone_is_kept(rt: HostRuntime) -> Result<(), Fail> {
    let commands = insertions(rt.alloc(), 100)?;
    let long = "ab".repeat(rt.alloc(), 1000)?;
    let mut session = session_of(rt.alloc(), "", 0, 10_000)?;
    keeps_much(
        &rt,
        rt.alloc(),
        &mut session,
        commands.as_slice(),
        long.as_str(),
    )
}

// Types a letter 70 times, and pastes words of each length.
fn type_and_paste(rt: &impl Abort, session: &mut Session, letters: &str) {
    let typed = Ok(Some(true));
    for _ in 0..70 {
        is_so(rt, session.insert('a', 1) == typed, "a letter");
    }
    is_so(rt, session.record().len() == 1, "one entry");
    for len in 1..70 {
        let word = letters.get(..len).unwrap_or(letters);
        is_so(rt, session.paste(word, 1) == typed, "a word");
    }
}

#[test]
fn words_of_each_length_are_typed_and_pasted(rt: HostRuntime) -> Result<(), Fail> {
    let letters = "a".repeat(rt.alloc(), 70)?;
    let mut session = session_of(rt.alloc(), "", 0, 10_000)?;
    type_and_paste(&rt, &mut session, letters.as_str());
    Ok(())
}

#[test]
fn a_listener_hears_twenty_changes(rt: HostRuntime) -> Result<(), Fail> {
    let mut heard = RefuseAt::new(rt.alloc(), 20);
    for _ in 0..20 {
        heard.delete(0, "a", Direction::Forward)?;
    }
    let refused = heard.delete(0, "a", Direction::Forward);
    is_so(
        &rt,
        refused == Err(Refusal::Listener),
        "the next is refused",
    );
    is_so(&rt, heard.seen.len() == 20, "twenty are listed");
    Ok(())
}
