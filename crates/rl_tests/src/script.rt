//! Rows of scripts.
use rl_session::{Fault, ScriptFault, run_script};
use std::alloc::Global;
use std::process::Abort;
use std::test::Fail;

// What a script prints.
pub(crate) fn printed_by(alloc: Global, script: &[u8]) -> Result<Vec<u8>, ScriptFault> {
    let mut reader = script;
    let mut printed = Vec::new(alloc);
    run_script(alloc, &mut reader, &mut printed)?;
    Ok(printed)
}

// The script prints that.
pub(crate) fn prints(
    rt: &impl Abort,
    alloc: Global,
    what: &str,
    script: &[u8],
    wanted: &[u8],
) -> Result<(), Fail> {
    let printed = printed_by(alloc, script)?;
    assert_eq!(rt; printed.as_slice(), wanted, "{what}");
    Ok(())
}

// What the script shows, the script, and what it prints.
pub(crate) type Row = (&'static str, &'static [u8], &'static [u8]);

// Each script of the table prints what it should.
pub(crate) fn print_all(rt: &impl Abort, alloc: Global, rows: &[Row]) -> Result<(), Fail> {
    for (what, script, wanted) in rows {
        prints(rt, alloc, what, script, wanted)?;
    }
    Ok(())
}

// On that text, with the cursor at that place, the lines print that.
pub(crate) fn prints_on(
    rt: &impl Abort,
    alloc: Global,
    text: &str,
    pos: usize,
    lines: &str,
    wanted: &str,
) -> Result<(), Fail> {
    let script = format!(in alloc; "text {text}\npos {pos}\n{lines}\n")?;
    let printed = printed_by(alloc, script.as_bytes())?;
    let last = format!(in alloc; "\nok {pos} {text}\n{wanted}\n")?;
    let ends = printed.as_slice().ends_with(last.as_bytes());
    assert!(rt; ends, "{lines:?} on {text:?} at {pos}");
    Ok(())
}

// A text as a script prints it, the cursor, lines of a script, and what these print.
pub(crate) type Lines = (&'static str, usize, &'static str, &'static str);

// The lines of each row print what they should.
pub(crate) fn print_each(rt: &impl Abort, alloc: Global, rows: &[Lines]) -> Result<(), Fail> {
    for (text, pos, lines, wanted) in rows {
        prints_on(rt, alloc, text, *pos, lines, wanted)?;
    }
    Ok(())
}

#[test]
fn scripts_print(rt: HostRuntime) -> Result<(), Fail> {
    const ROWS: &[Row] = &[
        (
            "an insertion inside the text is undone",
            b"text ab\npos 1\nins 1 c\nundo 1\n",
            b"ok 2 ab\nok 1 ab\nfalse 2 acb\ntrue 1 ab\n",
        ),
        (
            "two insertions and a deletion are undone one by one",
            b"text ab\nins 2 c\nback 1\nundo 1\nundo 1\nundo 1\npos 3\n",
            b"ok 2 ab\ntrue 4 abcc\ntrue 3 abc\ntrue 4 abcc\ntrue 2 ab\nfalse 2 ab\nrefused:2 2 ab\n",
        ),
        (
            "a part makes two undos of two deletions, and two texts of two kills, and keeps what was undone",
            b"text a bcd\nback 1\npart\nback 1\nundo 1\npart\nredo\nkill bword 1 emacs\npart\nkill bword 1 emacs\nyank 1\n",
            b"ok 5 a bcd\ntrue 4 a bc\nok 4 a bc\ntrue 3 a b\ntrue 4 a bc\nok 4 a bc\ntrue 3 a b\ntrue 2 a \nok 2 a \ntrue 0 \ntrue 2 a \n",
        ),
        (
            "a group is taken up again, and is one undo",
            b"text one two\nreopen\nbegin\nrange 0 3\nins 1 a\nend\nreopen\nins 1 b\nreopen\nendone\nundo 1\n",
            b"ok 7 one two\nfalse 7 one two\nmark:0 7 one two\nok 0  two\nfalse 1 a two\ntrue 1 a two\ntrue 1 a two\nfalse 2 ab two\nfalse 2 ab two\ntrue 2 ab two\ntrue 7 one two\n",
        ),
        (
            "a group is abandoned with the one that was closed in it, and the ring keeps what was killed",
            b"text one two\nabandon\nins 1 .\nbegin\nkill bword 1 emacs\nbegin\nins 1 a\nendone\nabandon\nredo\nend\nyank 1\nundo 2\n",
            b"ok 7 one two\nfalse 7 one two\ntrue 8 one two.\nmark:1 8 one two.\ntrue 4 one \nmark:3 4 one \ntrue 5 one a\ntrue 5 one a\ntrue 8 one two.\nfalse 8 one two.\nfalse 8 one two.\ntrue 12 one two.two.\ntrue 7 one two\n",
        ),
        (
            "of two open groups the last is abandoned first, and the cursor goes to where it was before the change",
            b"text ab\nbegin\nins 1 -\nbegin\npos 0\nins 1 c\npos 2\nabandon\nabandon\nabandon\nundo 1\n",
            b"ok 2 ab\nmark:0 2 ab\ntrue 3 ab-\nmark:2 3 ab-\nok 0 ab-\nfalse 1 cab-\nok 2 cab-\ntrue 0 ab-\ntrue 2 ab\nfalse 2 ab\nfalse 2 ab\n",
        ),
        (
            "what was undone is kept, so that undos lead where redos led, and go on to what was before",
            b"text ab\nkeepundone\nins 1 -\nins 1 +\nundo 2\nkeepundone\nredo\nundo 1\nundo 1\nundo 2\nundo 1\n",
            b"ok 2 ab\nfalse 2 ab\ntrue 3 ab-\ntrue 4 ab-+\ntrue 2 ab\ntrue 2 ab\nfalse 2 ab\ntrue 3 ab-\ntrue 4 ab-+\ntrue 2 ab\nfalse 2 ab\n",
        ),
        (
            "an open group that was undone is kept as a closed one, and an edit after it is undone first",
            b"text one two\nbegin\nkill bword 1 emacs\nins 1 x\nundo 3\nkeepundone\nend\nins 1 .\nundo 1\nundo 1\nundo 1\nundo 1\n",
            b"ok 7 one two\nmark:0 7 one two\ntrue 4 one \ntrue 5 one x\ntrue 7 one two\ntrue 7 one two\nfalse 7 one two\ntrue 8 one two.\ntrue 7 one two\ntrue 5 one x\ntrue 7 one two\nfalse 7 one two\n",
        ),
        (
            "no letter joins what is kept, so it is undone alone",
            b"text ab\nback 1\nundo 1\nkeepundone\nins 1 c\nundo 1\n",
            b"ok 2 ab\ntrue 1 a\ntrue 2 ab\ntrue 2 ab\ntrue 3 abc\ntrue 2 ab\n",
        ),
        (
            "a number is judged by its value",
            b"ins 1 a\nins 1 -\nundo 000000000000000000000000000000000001\n",
            b"true 1 a\ntrue 2 a-\ntrue 1 a\n",
        ),
        (
            "the last line needs no newline, and the empty script prints nothing for itself",
            b"ins 2 x",
            b"true 2 xx\n",
        ),
        ("no script, no output", b"", b""),
        (
            "a carriage return before the newline belongs to the line",
            b"text a\\rb\r\nundo 1\r\nins 1 \\r\nins 1 \r\nins 1 \\r\r\n",
            b"ok 4 a\\rb\\r\nbad\ntrue 5 a\\rb\\r\\r\ntrue 6 a\\rb\\r\\r\\r\nbad\n",
        ),
        (
            "each refusal has its number",
            b"text ab\npos 3\nkill bword 1 emacs\nyank 0\nyankpop\ntrunc 0\nlimit 18446744073709551615\ntext a\n",
            b"ok 2 ab\nrefused:2 2 ab\ntrue 0 \ntrue 0 \nrefused:3 0 \nrefused:4 0 \nok 0 \nrefused:1 0 \n",
        ),
        (
            "escapes are read and printed",
            b"text a\\tb\\s\\u{E9}\\\\\ntext\ntext \nins 1 \\n\nins 1  \n",
            b"ok 7 a\\tb \xc3\xa9\\\\\nok 0 \nok 0 \ntrue 1 \\n\ntrue 2 \\n \n",
        ),
        (
            "a place inside a character is refused, and none is left out",
            b"text \xc3\xa9\npos 1\npos 0\npos 2\npos 18446744073709551615\n",
            b"ok 2 \xc3\xa9\nrefused:2 2 \xc3\xa9\nok 0 \xc3\xa9\nok 2 \xc3\xa9\nrefused:2 2 \xc3\xa9\n",
        ),
        (
            "a deletion takes whole clusters, and nothing is deleted at the start or for no count",
            b"text ae\\u{301}\nback 0\nback 1\nback 9\nback 1\nundo 9\n",
            b"ok 4 ae\xcc\x81\nfalse 4 ae\xcc\x81\ntrue 1 a\ntrue 0 \nfalse 0 \ntrue 4 ae\xcc\x81\n",
        ),
        (
            "deleted text is handed out as one word, and the cursor moves by clusters",
            b"text a b\npos 0\ndel 2\ndel 0\nmove fchar 1\nmove bchar 1\nmove bchar 1\nundo 1\n",
            b"ok 3 a b\nok 0 a b\ntext:a\\s 0 b\nnone 0 b\ntrue 1 b\ntrue 0 b\nfalse 0 b\ntrue 0 a b\n",
        ),
    ];
    print_all(&rt, rt.alloc(), ROWS)
}

#[test]
fn kills_come_back(rt: HostRuntime) -> Result<(), Fail> {
    const ROWS: &[Row] = &[
        (
            "kills to both sides are one text, and one yank gives it back",
            b"text one two three\npos 4\nkill fword 1 after emacs\nkill home\nkill eol\nyank 1\n",
            b"ok 13 one two three\nok 4 one two three\ntrue 4 one  three\ntrue 0  three\ntrue 0 \ntrue 13 one two three\n",
        ),
        (
            "a text is yanked twice, replaced by itself, and both are undone",
            b"text one two\nkill bword 1 emacs\nkill bword 1 emacs\nyank 2\nyankpop\nundo 1\nundo 1\n",
            b"ok 7 one two\ntrue 4 one \ntrue 0 \ntrue 14 one twoone two\ntrue 14 one twoone two\ntrue 7 one two\ntrue 14 one twoone two\n",
        ),
        (
            "kills by clusters are no kills for the ring, and are undone as one",
            b"text Hello\npos 4\nkill bchar 1\nkill bchar 1\nundo 1\nkill fchar 9\nyank 1\n",
            b"ok 5 Hello\nok 4 Hello\ntrue 3 Helo\ntrue 2 Heo\ntrue 4 Hello\ntrue 4 Hell\nnone 4 Hell\n",
        ),
        (
            "what was yanked no time does not stand before the cursor",
            b"text ab\nkill bword 1 emacs\nyank 0\nyankpop\nyankpop\n",
            b"ok 2 ab\ntrue 0 \ntrue 0 \nrefused:3 0 \nnone 0 \n",
        ),
        (
            "a kill of an empty text is one, and the yank of it none",
            b"text ab\nkill find 1 T b\nyank 1\nyankpop\n",
            b"ok 2 ab\ntrue 2 ab\nnone 2 ab\nnone 2 ab\n",
        ),
        (
            "a pop to an empty text takes out what was yanked, and is undone",
            b"text ab\nkill find 1 T b\npos 2\nkill bob\nyank 1\nyankpop\nundo 1\n",
            b"ok 2 ab\ntrue 2 ab\nok 2 ab\ntrue 0 \ntrue 2 ab\nnone 0 \ntrue 2 ab\n",
        ),
        (
            "a kill of nothing leaves what the ring did last",
            b"text one two\nkill bword 1 emacs\nyank 1\nkill eol\nyankpop\n",
            b"ok 7 one two\ntrue 4 one \ntrue 7 one two\nfalse 7 one two\ntrue 7 one two\n",
        ),
        (
            "but one by clusters resets the ring, as another command does",
            b"text one two\nkill bword 1 emacs\nyank 1\nkill fchar 1\nyankpop\nyank 1\npos 0\nyankpop\n",
            b"ok 7 one two\ntrue 4 one \ntrue 7 one two\nfalse 7 one two\nnone 7 one two\ntrue 10 one twotwo\nok 0 one twotwo\nnone 0 one twotwo\n",
        ),
        (
            "a command between two kills parts them, and yankpop goes from one to the other",
            b"text one two\nkill bword 1 emacs\npos 4\nkill bword 1 emacs\nyank 1\nyankpop\nyankpop\n",
            b"ok 7 one two\ntrue 4 one \nok 4 one \ntrue 0 \ntrue 4 one \ntrue 3 two\ntrue 4 one \n",
        ),
        (
            "a question where the cursor stands parts them too",
            b"text one two\nkill bword 1 emacs\nwhere\nkill bword 1 emacs\nyank 1\nyankpop\n",
            b"ok 7 one two\ntrue 4 one \nat:0:4 4 one \ntrue 0 \ntrue 4 one \ntrue 3 two\n",
        ),
        (
            "keeping what was undone parts no kills, and yankpop finds what was yanked",
            b"text one two\nkill bword 1 emacs\nkeepundone\nkill bword 1 emacs\nyank 1\nkeepundone\nyankpop\n",
            b"ok 7 one two\ntrue 4 one \nfalse 4 one \ntrue 0 \ntrue 7 one two\nfalse 7 one two\ntrue 7 one two\n",
        ),
        (
            "a yank that is too long puts nothing in and resets the ring",
            b"limit 3\ntext abc\nkill home\nyank 2\nyankpop\nyank 1\nyankpop\n",
            b"ok 0 \nok 3 abc\ntrue 0 \nnone 0 \nnone 0 \ntrue 3 abc\ntrue 3 abc\n",
        ),
        (
            "lines, the whole line and its newline, and the text are killed",
            b"text a\\nb\\nc\npos 2\nkill down 0\nundo 1\npos 2\nkill up 1\nundo 1\npos 2\nkill line\nkill line\nkill first\nkill buf\nyank 1\n",
            b"ok 5 a\\nb\\nc\nok 2 a\\nb\\nc\ntrue 1 ac\ntrue 2 a\\nb\\nc\nok 2 a\\nb\\nc\ntrue 0 c\ntrue 2 a\\nb\\nc\nok 2 a\\nb\\nc\ntrue 2 a\\n\\nc\ntrue 2 a\\nc\nfalse 2 a\\nc\ntrue 0 \ntrue 5 b\\na\\nc\n",
        ),
        (
            "killed ranges are joined on their side, and neither a bad place nor an empty range parts them",
            b"text one two three\npos 4\nkillrange 4 7 f\nkillrange 9 3 f\nkillrange 0 4 b\nkillrange 2 2 f\nkill eol\nyank 1\n",
            b"ok 13 one two three\nok 4 one two three\ntrue 4 one  three\nrefused:2 4 one  three\ntrue 0  three\nfalse 0  three\ntrue 0 \ntrue 13 one two three\n",
        ),
        (
            "a killed range may stand apart from the cursor, which goes to its start; one undo takes it back",
            b"text one two\nkillrange 0 4 f\nyank 1\nundo 1\nundo 1\n",
            b"ok 7 one two\ntrue 0 two\nfalse 4 one two\ntrue 0 two\ntrue 7 one two\n",
        ),
        (
            "a text that is kept is joined by no kill before it or after it",
            b"text ab cd\nkill bword 1 emacs\nkeep x\\sy\nkill bob\nyank 1\nyankpop\nyankpop\n",
            b"ok 5 ab cd\ntrue 3 ab \nok 3 ab \ntrue 0 \ntrue 3 ab \ntrue 3 x y\ntrue 2 cd\n",
        ),
        (
            "an empty text is kept too, but not by a ring without slots",
            b"text ab\nkeep c\nkeep\nyank 1\nkill bob\nyank 1\nyankpop\nyankpop\nring 0\ntext ab\nkeep c\nyank 1\n",
            b"ok 2 ab\nok 2 ab\nok 2 ab\nnone 2 ab\ntrue 0 \ntrue 2 ab\nnone 0 \nnone 0 \nok 0 \nok 2 ab\nok 2 ab\nnone 2 ab\n",
        ),
        (
            "there is nothing to yank from an empty ring, nor from one without slots",
            b"text ab\nyank 1\nyankpop\nring 0\ntext ab\nyank 1\nyankpop\nkill home\nyank 1\nyankpop\n",
            b"ok 2 ab\nnone 2 ab\nnone 2 ab\nok 2 ab\nok 2 ab\nnone 2 ab\nnone 2 ab\ntrue 0 \nnone 0 \nnone 0 \n",
        ),
        (
            "a new text has a new ring",
            b"text ab\nkill bob\ntext cd\nyank 1\npos 0\nkill eob\nyank 1\n",
            b"ok 2 ab\ntrue 0 \nok 2 cd\nnone 2 cd\nok 0 cd\ntrue 0 \ntrue 2 cd\n",
        ),
    ];
    print_all(&rt, rt.alloc(), ROWS)
}

#[test]
fn settings_and_movements_print(rt: HostRuntime) -> Result<(), Fail> {
    const ROWS: &[Row] = &[
        (
            "a setting prints the present text",
            b"limit 5\n",
            b"ok 0 \n",
        ),
        (
            "and does not reset the ring",
            b"text one two\nkill bword 1 emacs\nring 3\nkill bword 1 emacs\nyank 1\n",
            b"ok 7 one two\ntrue 4 one \nok 4 one \ntrue 0 \ntrue 7 one two\n",
        ),
        (
            "a limit for which there is no memory leaves the first text",
            b"limit 18446744073709551615\ntext a\n",
            b"ok 0 \nrefused:1 0 \n",
        ),
        (
            "and a later one",
            b"text a\nlimit 18446744073709551615\ntext b\nlimit 3\ntext c\n",
            b"ok 1 a\nok 1 a\nrefused:1 1 a\nok 1 a\nok 1 c\n",
        ),
        (
            "a line grows up to the limit, which a longer text raises",
            b"limit 2\nins 3 a\ntext\nins 3 a\nins 2 a\ntext abc\nins 1 d\nback 1\nins 1 d\n",
            b"ok 0 \ntrue 3 aaa\nok 0 \nnone 0 \ntrue 2 aa\nok 3 abc\nnone 3 abc\ntrue 2 ab\ntrue 3 abd\n",
        ),
        (
            "a ring of size 0 keeps nothing, and one of size 1 the last kill",
            b"ring 0\ntext ab\nkill home\nyank 1\nring 1\ntext ab\nkill bob\nyank 1\nyankpop\n",
            b"ok 0 \nok 2 ab\ntrue 0 \nnone 0 \nok 0 \nok 2 ab\ntrue 0 \ntrue 2 ab\ntrue 2 ab\n",
        ),
        (
            "columns are counted by clusters",
            b"mode unicode\ntext \\u{1f44b}\\u{1f3ff}\\nabcdef\npos 8\nmove down 1\n",
            b"ok 0 \nok 15 \xf0\x9f\x91\x8b\xf0\x9f\x8f\xbf\\nabcdef\nok 8 \xf0\x9f\x91\x8b\xf0\x9f\x8f\xbf\\nabcdef\ntrue 11 \xf0\x9f\x91\x8b\xf0\x9f\x8f\xbf\\nabcdef\n",
        ),
        (
            "and the cursor's column by the mode of its text",
            b"mode wcwidth\ntext \\u{1f44b}\\u{1f3ff}\nwhere\nmode unicode\nwhere\ntext \\u{1f44b}\\u{1f3ff}\nwhere\n",
            b"ok 0 \nok 8 \xf0\x9f\x91\x8b\xf0\x9f\x8f\xbf\nat:0:4 8 \xf0\x9f\x91\x8b\xf0\x9f\x8f\xbf\nok 8 \xf0\x9f\x91\x8b\xf0\x9f\x8f\xbf\nat:0:4 8 \xf0\x9f\x91\x8b\xf0\x9f\x8f\xbf\nok 8 \xf0\x9f\x91\x8b\xf0\x9f\x8f\xbf\nat:0:2 8 \xf0\x9f\x91\x8b\xf0\x9f\x8f\xbf\n",
        ),
        (
            "or by characters",
            b"mode wcwidth\ntext \\u{1f44b}\\u{1f3ff}\\nabcdef\npos 8\nmode nozwj\nmove down 1\n",
            b"ok 0 \nok 15 \xf0\x9f\x91\x8b\xf0\x9f\x8f\xbf\\nabcdef\nok 8 \xf0\x9f\x91\x8b\xf0\x9f\x8f\xbf\\nabcdef\nok 8 \xf0\x9f\x91\x8b\xf0\x9f\x8f\xbf\\nabcdef\ntrue 13 \xf0\x9f\x91\x8b\xf0\x9f\x8f\xbf\\nabcdef\n",
        ),
        (
            "what is applied may go past the limit, but for what inserts at the cursor",
            b"limit 4\ntext \xc5\x89 b\nkeep w\npos 0\nins 1 x\npaste 1 x\nyank 1\nupdate 0 vwxyz\ntext \xc5\x89 b\nstr 4 x\ntext \xc5\x89 b\nrep 0 2 xyz\ntext \xc5\x89 b\npos 0\ncase up\ntext \xc5\x89 b\nindent 1 buf\n",
            b"ok 0 \nok 4 \xc5\x89 b\nok 4 \xc5\x89 b\nok 0 \xc5\x89 b\nnone 0 \xc5\x89 b\nnone 0 \xc5\x89 b\nnone 0 \xc5\x89 b\nok 0 vwxy\nok 4 \xc5\x89 b\ntrue 4 \xc5\x89 bx\nok 4 \xc5\x89 b\nok 3 xyz b\nok 4 \xc5\x89 b\nok 0 \xc5\x89 b\ntrue 3 \xca\xbcN b\nok 4 \xc5\x89 b\ntrue 5  \xc5\x89 b\n",
        ),
        (
            "to the start and the end of the line, and of the text",
            b"text ba\\nsdf bc\\nasdf\npos 6\nmove home\nmove home\nmove eol\nmove eol\nmove bob\nmove bob\nmove eob\nmove eob\n",
            b"ok 14 ba\\nsdf bc\\nasdf\nok 6 ba\\nsdf bc\\nasdf\ntrue 3 ba\\nsdf bc\\nasdf\nfalse 3 ba\\nsdf bc\\nasdf\ntrue 9 ba\\nsdf bc\\nasdf\nfalse 9 ba\\nsdf bc\\nasdf\ntrue 0 ba\\nsdf bc\\nasdf\nfalse 0 ba\\nsdf bc\\nasdf\ntrue 14 ba\\nsdf bc\\nasdf\nfalse 14 ba\\nsdf bc\\nasdf\n",
        ),
        (
            "by words back and ahead",
            b"text a/b\nmove bword 2 vi\ntext a \xc3\x9f  c\npos 1\nmove fword 2 after emacs\nmove bword 1 big\npos 0\nmove fword 1 start big\nmove fword 1 before vi\n",
            b"ok 3 a/b\ntrue 1 a/b\nok 7 a \xc3\x9f  c\nok 1 a \xc3\x9f  c\ntrue 7 a \xc3\x9f  c\ntrue 6 a \xc3\x9f  c\nok 0 a \xc3\x9f  c\ntrue 2 a \xc3\x9f  c\ntrue 6 a \xc3\x9f  c\n",
        ),
        (
            "to a character, or next to it",
            b"text abcbe\npos 0\nmove find 1 f b\nmove find 1 t e\nmove find 2 F b\nmove find 1 f e\nmove find 1 T a\nmove find 1 f x\n",
            b"ok 5 abcbe\nok 0 abcbe\ntrue 1 abcbe\ntrue 3 abcbe\ntrue 1 abcbe\ntrue 4 abcbe\ntrue 1 abcbe\nfalse 1 abcbe\n",
        ),
        (
            "by lines",
            b"text aa123\\nsdf bc\\nasdf\npos 14\nmove up 1\nmove up 1\nmove up 1\nmove down 2\nmove up 2\n",
            b"ok 17 aa123\\nsdf bc\\nasdf\nok 14 aa123\\nsdf bc\\nasdf\ntrue 7 aa123\\nsdf bc\\nasdf\ntrue 1 aa123\\nsdf bc\\nasdf\nfalse 1 aa123\\nsdf bc\\nasdf\ntrue 14 aa123\\nsdf bc\\nasdf\ntrue 1 aa123\\nsdf bc\\nasdf\n",
        ),
        (
            "by clusters",
            b"text ag\\u{308}\nmove bchar 1\nmove fchar 1\n",
            b"ok 4 ag\xcc\x88\ntrue 1 ag\xcc\x88\ntrue 4 ag\xcc\x88\n",
        ),
        (
            "and nowhere over a whole line or text, and to the first print place",
            b"text a\\tb\nmove line\nmove buf\nmove first\n",
            b"ok 3 a\\tb\nfalse 3 a\\tb\nfalse 3 a\\tb\nfalse 3 a\\tb\n",
        ),
    ];
    print_all(&rt, rt.alloc(), ROWS)
}

#[test]
fn groups_and_texts_are_commanded(rt: HostRuntime) -> Result<(), Fail> {
    const ROWS: &[Row] = &[
        (
            "a group is undone whole, and done again",
            b"text\nins 1 a\nbegin\nins 1 b\nins 1 c\nend\nundo 1\nredo\n",
            b"ok 0 \ntrue 1 a\nmark:1 1 a\ntrue 2 ab\ntrue 3 abc\ntrue 3 abc\ntrue 1 a\ntrue 3 abc\n",
        ),
        (
            "there is nothing to undo, to redo or to end in an empty record",
            b"text ab\npos 1\nundo 0\nundo 1\nredo\nend\n",
            b"ok 2 ab\nok 1 ab\nfalse 1 ab\nfalse 1 ab\nfalse 1 ab\nfalse 1 ab\n",
        ),
        (
            "an undo of a group's beginning closes it",
            b"text\nins 1 a\nbegin\nins 1 b\nundo 2\nend\n",
            b"ok 0 \ntrue 1 a\nmark:1 1 a\ntrue 2 ab\ntrue 1 a\nfalse 1 a\n",
        ),
        (
            "an undo past an inner begin closes both groups, and what it took is lost at an end",
            b"text\nbegin\nins 1 a\nbegin\nins 1 b\nundo 1\nredo\nundo 3\nend\nredo\n",
            b"ok 0 \nmark:0 0 \ntrue 1 a\nmark:2 1 a\ntrue 2 ab\ntrue 1 a\ntrue 2 ab\ntrue 0 \nfalse 0 \nfalse 0 \n",
        ),
        (
            "entries are kept only where they lead to the text",
            b"text a\nbegin\nins 1 b\ntrunc 0\nback 1\ntrunc 0\nend\nundo 1\n",
            b"ok 1 a\nmark:0 1 a\ntrue 2 ab\nrefused:4 2 ab\ntrue 1 a\nok 1 a\nfalse 1 a\nfalse 1 a\n",
        ),
        (
            "what was undone is lost where entries are kept",
            b"text\nins 1 a\nins 1 -\nundo 1\ntrunc 1\nredo\n",
            b"ok 0 \ntrue 1 a\ntrue 2 a-\ntrue 1 a\nok 1 a\nfalse 1 a\n",
        ),
        (
            "and where nothing is put in",
            b"text\nins 1 a\nundo 1\nins 0 b\nredo\n",
            b"ok 0 \ntrue 1 a\ntrue 0 \ntrue 0 \nfalse 0 \n",
        ),
        (
            "but not where there is no event",
            b"text\nins 1 a\nundo 1\npaste 1\nback 0\nmove bob\ncopy buf\nkill first\nredo\n",
            b"ok 0 \ntrue 1 a\ntrue 0 \nnone 0 \nfalse 0 \nfalse 0 \nnone 0 \nfalse 0 \ntrue 1 a\n",
        ),
        (
            "what is copied is handed out as one word, and a range has its ends in order within the text",
            b"text a\\tb\ncopy line\nrange 2 1\nrange 0 4\nmove line\nrep 0 1\ncopy eob\ncase UP\n\ntext a b\ncopy buf\n",
            b"ok 3 a\\tb\ntext:a\\tb 3 a\\tb\nrefused:2 3 a\\tb\nrefused:2 3 a\\tb\nfalse 3 a\\tb\nok 0 \\tb\ntext:\\tb 0 \\tb\nbad\nbad\nok 3 a b\ntext:a\\sb 3 a b\n",
        ),
        (
            "a text may be empty, or left out",
            b"text ab\npaste 1\npaste 1 \nstr 0\nstr 2 \nrep 0 1\nupdate 0\n",
            b"ok 2 ab\nnone 2 ab\nnone 2 ab\nfalse 2 ab\ntrue 2 ab\nok 0 b\nok 0 \n",
        ),
        (
            "and is read by its escapes",
            b"text\npaste 2 \\s\\u{E9}\nupdate 1 \\\\ b\n",
            b"ok 0 \ntrue 6  \xc3\xa9 \xc3\xa9\nok 1 \\\\ b\n",
        ),
        (
            "a movement after an amount has its own arguments",
            b"text a\\nb\\nc\npos 0\nindent 1 down 1\ntext \\s\\sa\ndedent 255 buf\n",
            b"ok 5 a\\nb\\nc\nok 0 a\\nb\\nc\ntrue 1  a\\n b\\nc\nok 3   a\ntrue 1 a\n",
        ),
        (
            "words that can't be exchanged may still move the cursor",
            b"text \\s/ \xce\xb4elta\npos 8\ntwords 1\n",
            b"ok 9  / \xce\xb4elta\nok 8  / \xce\xb4elta\nfalse 9  / \xce\xb4elta\n",
        ),
        (
            "where the cursor stands: its line, and the column from the start of that line",
            b"text \xce\xb1\xc3\x9f\\n\xce\xb3\nwhere\npos 0\nwhere\nkillbuf\nwhere\n",
            b"ok 7 \xce\xb1\xc3\x9f\\n\xce\xb3\nat:1:1 7 \xce\xb1\xc3\x9f\\n\xce\xb3\nok 0 \xce\xb1\xc3\x9f\\n\xce\xb3\nat:0:0 0 \xce\xb1\xc3\x9f\\n\xce\xb3\ntrue 0 \nat:0:0 0 \n",
        ),
        (
            "up to the first print place, which may be the cursor's",
            b"text  ab\npos 1\ncopy first\ntext ab\ncopy first\ntext a\ncopy first\n",
            b"ok 3  ab\nok 1  ab\ntext: 1  ab\nok 2 ab\ntext:b 2 ab\nok 1 a\nnone 1 a\n",
        ),
        (
            "the limit stays raised",
            b"limit 2\ntext abc\nback 2\nins 2 d\nstr 0 zz\nundo 65535\nins 1 e\n",
            b"ok 0 \nok 3 abc\ntrue 1 a\ntrue 3 add\nfalse 3 zzadd\ntrue 3 abc\ntrue 4 abce\n",
        ),
    ];
    print_all(&rt, rt.alloc(), ROWS)
}

#[test]
fn every_word_does_something(rt: HostRuntime) -> Result<(), Fail> {
    const ROWS: &[Row] = &[(
        "each word once, but two begins, two undos, and two kills before the yanks",
        b"text ab cd\nins 1 e\nback 1\npart\ntrunc 0\nbegin\nbegin\npos 0\npaste 1 x y\nendone\nend\nundo 1\nredo\nreopen\nprevword 1 emacs\nnextword 1 after emacs\ncase up\nto 1 F C\nmove bob\nkill eol\nupdate 7 one two\ntwords 1\ntchars\nkill bword 1 emacs\nyank 1\nyankpop\ncopy bword 1 emacs\nstr 0 ab\\n\nindent 2 buf\ndedent 1 line\nrep 0 4 cd\\ne\nwhere\nmove nonblank\nrange 5 6\ndel 1\npos 3\nkillline\nkillbuf\ndiscline\ndiscbuf\nkeep x\\sy\nyank 1\nkillrange 0 3 b\nundo 1\nkeepundone\nabandon\n",
        b"ok 5 ab cd\ntrue 6 ab cde\ntrue 5 ab cd\nok 5 ab cd\nok 5 ab cd\nmark:0 5 ab cd\nmark:1 5 ab cd\nok 0 ab cd\nfalse 3 x yab cd\ntrue 3 x yab cd\ntrue 3 x yab cd\ntrue 0 ab cd\ntrue 3 x yab cd\ntrue 3 x yab cd\ntrue 2 x ab cd\ntrue 2 x  cd\ntrue 5 x  CD\ntrue 3 x  \ntrue 0 x  \ntrue 0 \nok 7 one two\ntrue 7 two one\ntrue 7 two oen\ntrue 4 two \ntrue 7 two oen\ntrue 7 two x  \ntext:x\\s\\s 7 two x  \nfalse 7 ab\\ntwo x  \ntrue 11   ab\\n  two x  \ntrue 10   ab\\n two x  \nok 4 cd\\ne\\n two x  \nat:1:1 4 cd\\ne\\n two x  \ntrue 3 cd\\ne\\n two x  \nok 5 cd\\ne\\ntwo x  \ntext:t 5 cd\\ne\\nwo x  \nok 3 cd\\ne\\nwo x  \ntrue 3 cd\\n\\nwo x  \ntrue 3 cd\\n\ntrue 2 cd\ntrue 0 \nok 0 \ntrue 3 x y\ntrue 0 \ntrue 3 x y\ntrue 3 x y\ntrue 0 ab cd\n",
    )];
    print_all(&rt, rt.alloc(), ROWS)
}

// A comparison of texts proves faster as an argument than within an assert.
pub(crate) fn is_so(rt: &impl Abort, is_so: bool, what: &str) {
    assert!(rt; is_so, "{what}");
}

#[test]
fn faults_have_words_and_numbers(rt: HostRuntime) -> Result<(), Fail> {
    let said = format!(in rt.alloc();
        "{}, {}, {}, {}, {}, {}, {}, {}",
        ScriptFault::Read,
        ScriptFault::Write,
        ScriptFault::NoMemory,
        Fault::NoMemory,
        Fault::BadPlace,
        Fault::BadYankSize,
        Fault::NotReplaying,
        Fault::TooLong
    )?;
    is_so(
        &rt,
        said.as_str()
            == "read failed, write failed, no memory, out of memory, no such place in the text, the text before the cursor was not just yanked, the kept entries do not reproduce the text, the text would get longer than its limit",
        "the faults' words",
    );
    let read_or_written = ScriptFault::Read as u8 == 1 && ScriptFault::Write as u8 == 2;
    let numbered = read_or_written && ScriptFault::NoMemory as u8 == 3;
    is_so(&rt, numbered, "the numbers of a script's faults");
    let first = Fault::NoMemory as u8 == 1 && Fault::BadPlace as u8 == 2;
    let last = Fault::BadYankSize as u8 == 3 && Fault::NotReplaying as u8 == 4;
    is_so(
        &rt,
        Fault::TooLong as u8 == 5,
        "the number of a limit's fault",
    );
    is_so(&rt, first && last, "the numbers of a session's faults");
    Ok(())
}
