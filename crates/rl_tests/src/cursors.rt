//! The cursors that undo and redo give back in a session, in scripts.
use crate::script::{Row, print_all};
use std::test::Fail;

#[test]
fn the_cursor_comes_back(rt: HostRuntime) -> Result<(), Fail> {
    const ROWS: &[Row] = &[
        (
            "where it stood in the middle of an edit",
            b"text ab cd\npos 1\ncase up\nundo 1\nundo 1\nredo\nredo\n",
            b"ok 5 ab cd\nok 1 ab cd\ntrue 2 aB cd\ntrue 1 a cd\ntrue 1 ab cd\ntrue 1 a cd\ntrue 2 aB cd\n",
        ),
        (
            "where it stood before a kill",
            b"text one two\npos 4\nkill buf\nundo 1\nredo\n",
            b"ok 7 one two\nok 4 one two\ntrue 0 \ntrue 4 one two\ntrue 0 \n",
        ),
        (
            "where it stood before a word that was exchanged",
            b"text ab\npos 0\ncase up\nundo 1\nundo 1\nredo\nredo\n",
            b"ok 2 ab\nok 0 ab\ntrue 2 AB\ntrue 0 \ntrue 0 ab\ntrue 0 \ntrue 2 AB\n",
        ),
        (
            "of changes that joined, where it stood before the first and after the last",
            b"text abcd\npos 2\ndel 1\nback 1\nundo 1\nredo\n",
            b"ok 4 abcd\nok 2 abcd\ntext:c 2 abd\ntrue 1 ad\ntrue 2 abcd\ntrue 1 ad\n",
        ),
        (
            "also where another change was undone between the two",
            b"text abc\npos 1\ndel 1\nins 1 -\nundo 1\nback 1\nundo 1\nredo\n",
            b"ok 3 abc\nok 1 abc\ntext:b 1 ac\nfalse 2 a-c\ntrue 1 ac\ntrue 0 c\ntrue 1 abc\ntrue 0 c\n",
        ),
        (
            "of a text that was put in elsewhere, where it stands",
            b"text ab\nstr 0 zzz\nundo 1\nredo\n",
            b"ok 2 ab\nfalse 2 zzzab\ntrue 2 ab\ntrue 2 zzzab\n",
        ),
        (
            "of a group, where it stood before its first change and after its last, wherever it was moved",
            b"text ab\npos 1\nbegin\nins 1 -\npos 3\nstr 0 zz\nend\npos 0\nundo 1\npos 2\nredo\n",
            b"ok 2 ab\nok 1 ab\nmark:0 1 ab\nfalse 2 a-b\nok 3 a-b\nfalse 3 zza-b\ntrue 3 zza-b\nok 0 zza-b\ntrue 1 ab\nok 2 ab\ntrue 3 zza-b\n",
        ),
        (
            "of an undo of several changes, where it stood before the first",
            b"text ab\npos 0\ndel 1\npos 1\nins 1 -\nundo 2\nredo\nredo\n",
            b"ok 2 ab\nok 0 ab\ntext:a 0 b\nok 1 b\ntrue 2 b-\ntrue 0 ab\ntrue 0 b\ntrue 2 b-\n",
        ),
    ];
    print_all(&rt, rt.alloc(), ROWS)
}

// Each walk is undone change by change, and redone: the cursor is then where it stood before each change, and
// after it.
#[test]
fn walks_are_gone_back_and_again(rt: HostRuntime) -> Result<(), Fail> {
    const ROWS: &[Row] = &[
        (
            "typed, moved, killed, yanked, transposed and put in capitals",
            b"text one two\nins 1 s\npos 3\nins 1 ,\nmove eol\nkill bword 1 emacs\nmove home\nyank 1\ntchars\nmove bob\ncase up\nundo 1\nundo 1\nundo 1\nundo 1\nundo 1\nundo 1\nundo 1\nundo 1\nundo 1\nredo\nredo\nredo\nredo\nredo\nredo\nredo\nredo\nredo\n",
            b"ok 7 one two\ntrue 8 one twos\nok 3 one twos\nfalse 4 one, twos\ntrue 9 one, twos\ntrue 5 one, \ntrue 0 one, \nfalse 4 twosone, \ntrue 5 twoosne, \ntrue 0 twoosne, \ntrue 7 TWOOSNE, \ntrue 0 , \ntrue 0 twoosne, \ntrue 4 twosne, \ntrue 4 twosone, \ntrue 0 one, \ntrue 9 one, twos\ntrue 3 one twos\ntrue 7 one two\nfalse 7 one two\ntrue 8 one twos\ntrue 4 one, twos\ntrue 5 one, \ntrue 4 twosone, \ntrue 4 twosne, \ntrue 5 twoosne, \ntrue 0 , \ntrue 7 TWOOSNE, \nfalse 7 TWOOSNE, \n",
        ),
        (
            "words exchanged",
            b"text one two\ntwords 1\nundo 1\nundo 1\nundo 1\nundo 1\nredo\nredo\nredo\nredo\n",
            b"ok 7 one two\ntrue 7 two one\ntrue 0  one\ntrue 3 one one\ntrue 3 one \ntrue 7 one two\ntrue 3 one \ntrue 3 one one\ntrue 0  one\ntrue 7 two one\n",
        ),
        (
            "lines indented and dedented",
            b"text a\\nb\nindent 2 buf\ndedent 1 buf\nundo 1\nundo 1\nundo 1\nundo 1\nredo\nredo\nredo\nredo\n",
            b"ok 3 a\\nb\ntrue 7   a\\n  b\ntrue 5  a\\n b\ntrue 6  a\\n  b\ntrue 7   a\\n  b\ntrue 5   a\\nb\ntrue 3 a\\nb\ntrue 5   a\\nb\ntrue 7   a\\n  b\ntrue 6  a\\n  b\ntrue 5  a\\n b\n",
        ),
        (
            "a text given anew, and a part of it replaced",
            b"text ab\npos 1\nupdate 3 xyz\npos 0\nrep 1 2\nundo 1\nundo 1\nundo 1\nredo\nredo\nredo\n",
            b"ok 2 ab\nok 1 ab\nok 3 xyz\nok 0 xyz\nok 1 xz\ntrue 0 xyz\ntrue 0 \ntrue 1 ab\ntrue 0 \ntrue 3 xyz\ntrue 1 xz\n",
        ),
    ];
    print_all(&rt, rt.alloc(), ROWS)
}
