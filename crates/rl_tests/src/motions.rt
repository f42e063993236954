//! Motions with places that were worked out by hand, as lines of scripts.
use crate::script::{Lines, print_each, prints_on};
use std::alloc::Global;
use std::process::Abort;
use std::test::Fail;

// Goes to the place, or nowhere.
fn goes(
    rt: &impl Abort,
    alloc: Global,
    text: &str,
    pos: usize,
    line: &str,
    moves: bool,
    place: usize,
) -> Result<(), Fail> {
    let wanted = format!(in alloc; "{moves} {place} {text}")?;
    prints_on(rt, alloc, text, pos, line, wanted.as_str())
}

// Goes again and again: to each place in turn, and then nowhere.
fn goes_on(
    rt: &impl Abort,
    alloc: Global,
    text: &str,
    pos: usize,
    line: &str,
    places: &[usize],
) -> Result<(), Fail> {
    let mut last = pos;
    for place in places {
        goes(rt, alloc, text, last, line, true, *place)?;
        last = *place;
    }
    goes(rt, alloc, text, last, line, false, last)
}

#[test]
fn motions_repeated(rt: HostRuntime) -> Result<(), Fail> {
    const BETA: &str = "alpha ,beta/rho; mu";
    const AWKWARD: &str = "e\u{301}\\r\\n\u{1f468}\u{200d}\u{1f469} a\\n";
    const ROWS: &[(&str, usize, &str, &[usize])] = &[
        ("ö\u{332}g\u{308}", 0, "move fchar 1", &[4, 7]),
        ("ö\u{332}g\u{308}", 7, "move bchar 1", &[4, 0]),
        ("ö\u{332}g\u{308}", 0, "move fchar 0", &[]),
        ("αß", 2, "move bob", &[0]),
        ("αß", 2, "move eob", &[4]),
        ("a\\n  b c\\nd", 7, "move nonblank", &[4]),
        ("a\\n  b c\\nd", 2, "move nonblank", &[4]),
        ("a\\n  b c\\nd", 1, "move nonblank", &[0]),
        ("\u{3000}\u{e9}", 5, "move nonblank", &[3]),
        (" \\n ", 0, "move nonblank", &[1]),
        (" \\n ", 3, "move nonblank", &[]),
        (BETA, 19, "move bword 1 vi", &[17, 15, 12, 11, 7, 6, 0]),
        (BETA, 19, "move bword 1 big", &[17, 6, 0]),
        (
            BETA,
            0,
            "move fword 1 start vi",
            &[6, 7, 11, 12, 15, 17, 18],
        ),
        (BETA, 0, "move fword 1 start big", &[6, 17, 18]),
        (
            BETA,
            0,
            "move fword 1 before vi",
            &[4, 6, 10, 11, 14, 15, 18],
        ),
        (BETA, 0, "move fword 1 before big", &[4, 15, 18]),
        (BETA, 19, "move bword 1 emacs", &[17, 12, 7, 0]),
        (BETA, 0, "move fword 1 start emacs", &[7, 12, 17, 19]),
        (BETA, 0, "move fword 1 before emacs", &[5, 11, 15, 19]),
        (BETA, 0, "move fword 1 after emacs", &[5, 11, 15, 19]),
        (
            BETA,
            0,
            "move fword 1 after vi",
            &[5, 7, 11, 12, 15, 16, 19],
        ),
        (BETA, 0, "move fword 1 after big", &[5, 16, 19]),
        (AWKWARD, 0, "move fchar 1", &[3, 5, 16, 17, 18, 19]),
        (AWKWARD, 19, "move bchar 1", &[18, 17, 16, 5, 3, 0]),
        (AWKWARD, 0, "move fword 1 start big", &[5, 17, 18]),
        (AWKWARD, 0, "move fword 1 start vi", &[5, 17, 18]),
        (AWKWARD, 0, "move fword 1 start emacs", &[17, 19]),
        (AWKWARD, 0, "move fword 1 after emacs", &[18, 19]),
        (AWKWARD, 19, "move bword 1 big", &[17, 5, 0]),
        (AWKWARD, 19, "move bword 1 emacs", &[17, 0]),
        ("ae\u{301}b", 0, "move fword 1 start vi", &[1, 4]),
        ("a/b", 0, "move fword 0 start vi", &[]),
        ("abb", 0, "move find 0 t b", &[]),
        ("αßγδε", 2, "move find 1 f x", &[]),
    ];
    for (text, pos, line, places) in ROWS {
        goes_on(&rt, rt.alloc(), text, *pos, line, places)?;
    }
    Ok(())
}

#[test]
fn motions_and_deletions_once(rt: HostRuntime) -> Result<(), Fail> {
    const ROWS: &[Lines] = &[
        ("a/b", 3, "move bword 2 vi", "true 1 a/b"),
        ("a ß  c", 6, "move bword 1 emacs", "true 2 a ß  c"),
        ("a ß  c", 1, "move fword 2 after emacs", "true 7 a ß  c"),
        ("a ß  c", 0, "move fword 1 after emacs", "true 1 a ß  c"),
        ("a ß  c", 2, "move fword 1 start emacs", "true 6 a ß  c"),
        ("a/b", 0, "move fword 2 start vi", "true 2 a/b"),
        ("a/b", 0, "move fword 3 start vi", "true 2 a/b"),
        ("a/b", 0, "move fword 65535 start vi", "true 2 a/b"),
        ("a/b", 0, "move fword 0 after vi", "true 3 a/b"),
        ("abb", 0, "move find 1 t b", "true 0 abb"),
        (
            "e\u{301}xe\u{301}",
            0,
            "move find 1 f \u{301}",
            "true 5 e\u{301}xe\u{301}",
        ),
        ("αßγδε", 2, "move find 10 f ε", "true 8 αßγδε"),
        ("αßγδε", 2, "move find 1 t ε", "true 6 αßγδε"),
        ("αßγδε", 8, "move find 1 T ß", "true 4 αßγδε"),
        ("αßγδε", 8, "move find 1 F ß", "true 2 αßγδε"),
        (
            "ö\u{332}g\u{308}",
            7,
            "move bchar 2",
            "true 0 ö\u{332}g\u{308}",
        ),
        ("a\\r\\nb", 3, "move fchar 1", "true 4 a\\r\\nb"),
        ("a\\r\\nb", 3, "move bchar 1", "true 1 a\\r\\nb"),
        ("a ß  c", 1, "move fword 1 after emacs", "true 4 a ß  c"),
        ("a_b c", 0, "move fword 1 after vi", "true 3 a_b c"),
        ("a/b", 3, "move bword 0 vi", "true 0 a/b"),
        ("a ß  c", 6, "move bword 1 big", "true 2 a ß  c"),
        ("αßγδε", 8, "move find 1 T α", "true 2 αßγδε"),
        ("αßγδε", 8, "move find 1 F x", "false 8 αßγδε"),
        ("text", 4, "move find 2 F t", "true 0 text"),
        ("text", 0, "move find 1 f t", "true 3 text"),
        ("text", 4, "move find 1 f t", "false 4 text"),
        ("ag\u{308}", 1, "move bchar 1", "true 0 ag\u{308}"),
        ("ag\u{308}", 4, "move bchar 1", "true 1 ag\u{308}"),
        ("ag\u{308}", 1, "move fchar 1", "true 4 ag\u{308}"),
        // deletions answer their text
        ("αß", 2, "del 1", "text:ß 2 α"),
        ("αß", 0, "del 65535", "text:αß 0 "),
        ("ae\u{301}b", 1, "del 1", "text:e\u{301} 1 ab"),
        ("αß", 2, "del 0", "none 2 αß"),
        ("αß", 4, "del 1", "none 4 αß"),
        ("αßγ", 6, "range 2 4", "ok 2 αγ"),
    ];
    print_each(&rt, rt.alloc(), ROWS)
}
