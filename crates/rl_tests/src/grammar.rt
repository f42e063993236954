//! Rows of lines that are no command.
use crate::script::prints;
use std::alloc::Global;
use std::process::Abort;
use std::test::Fail;

// The three texts, one after the other.
fn between(alloc: Global, before: &[u8], middle: &[u8], after: &[u8]) -> Result<Vec<u8>, Fail> {
    let mut whole = Vec::new(alloc);
    whole.extend_from_slice(before)?;
    whole.extend_from_slice(middle)?;
    whole.extend_from_slice(after)?;
    Ok(whole)
}

// What is printed for malformed lines.
fn bad_lines(alloc: Global, lines: &[u8]) -> Result<Vec<u8>, Fail> {
    let mut bad = Vec::new(alloc);
    for b in lines {
        if *b == b'\n' {
            bad.extend_from_slice(b"bad\n")?;
        }
    }
    bad.extend_from_slice(b"bad\n")?;
    Ok(bad)
}

// Each of the lines prints `bad`, and the session goes on from where it was.
fn prints_bad(rt: &impl Abort, alloc: Global, what: &str, lines: &[u8]) -> Result<(), Fail> {
    let script = between(alloc, b"text ab\n", lines, b"\nins 1 c\n")?;
    let bad = bad_lines(alloc, lines)?;
    let wanted = between(alloc, b"ok 2 ab\n", bad.as_slice(), b"true 3 abc\n")?;
    prints(rt, alloc, what, script.as_slice(), wanted.as_slice())
}

#[test]
fn malformed_lines_print_bad(rt: HostRuntime) -> Result<(), Fail> {
    const ROWS: &[(&str, &[u8])] = &[
        ("an empty line", b""),
        (
            "spaces too many or in the wrong place",
            b"ins  1 a\nundo 1 \n undo 1\nrep 0  1 a\npaste  1 a\nindent 1  line",
        ),
        (
            "unknown words, and words in capitals",
            b"insert 1 a\nINS 1 a\nmove left 1\nmove HOME\nmode Unicode\ncase UP",
        ),
        (
            "numbers that are none",
            b"ins +1 a\nins -1 a\nback one\nback\nback \ntrunc -1\nring -1\nring ",
        ),
        (
            "counts, places and amounts that are too great",
            b"ins 65536 a\nundo 18446744073709551617\npos 18446744073709551616\nmove down 65536\nyank 65536\npaste 65536 a\nindent 256 line\nlimit 18446744073709551616\ntrunc 18446744073709551616",
        ),
        ("no UTF-8", b"text \xff\nins 1 a\xff"),
        (
            "numbers of no character",
            b"text \\u{110000}\ntext \\u{D800}\ntext \\u{0000041}\ntext \\u{}\ntext \\u{41",
        ),
        (
            "backslashes that say nothing",
            b"text \\\ntext \\q\npaste 1 \\\nstr 0 \\q\nkeep \\q",
        ),
        (
            "not one character",
            b"ins 1 ab\nins 1 \nins 1\nmove find 1 f\nkill find 1 t ab\nto 1 f\nto 1 f ab",
        ),
        (
            "movements without what they want",
            b"move\nmove \nmove bchar\nmove bword 1\nmove fword 1 big\nkill\ncopy\ncopy up\nindent 1",
        ),
        (
            "movements with more than they want",
            b"move fchar 1 \nmove home 1\nkill bword 1 big \ndedent 1 line 2",
        ),
        (
            "kinds of words, of searches and of directions that are none",
            b"killrange 0 1 x\nkillrange 0 1 F\nkillrange f 0 1\nmove bword 1 word\nmove bword 1  big\nmove fword 1 end vi\nmove fword 1 big start\nmove find 1 x a\nto 1 x a\nprevword big 1\nnextword 1 big",
        ),
        (
            "words without their arguments",
            b"yank\ndel\npaste\npaste a\nupdate\nstr ab\nrep 0\nrep 0 a\nrange 1\nkillrange\nkillrange 0 1\nkillrange 0 f\nprevword 1\ntwords\ncase\ntrunc\nlimit\nmode\nindent line",
        ),
        (
            "words with more than they want",
            b"yankpop 1\nkillline 1\ndiscbuf \nbegin 1\nend \nredo 1\nrange 0 1 2\nrange 0 1 \nkillrange 0 1 f \nkillrange 0 1 f 2\nnextword 1 after vi \nwhere \nwhere 1",
        ),
        (
            "arguments of another kind",
            b"update 18446744073709551616 a\ncase title\nmode wide",
        ),
    ];
    for (what, lines) in ROWS {
        prints_bad(&rt, rt.alloc(), what, lines)?;
    }
    Ok(())
}
