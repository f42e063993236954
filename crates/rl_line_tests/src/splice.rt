//! Where places stand after a change, with answers that were worked out by hand.
use rl_base::{Side, Splice};
use std::process::Abort;

// A splice moves a place to the first of these on the side of the text before it, and else to the second.
fn moves(rt: &impl Abort, splice: Splice, place: usize, wanted: (usize, usize)) {
    let before = splice.moved(place, Side::Before);
    let after = splice.moved(place, Side::After);
    assert_eq!(rt; (before, after), wanted, "{place} by {splice:?}");
}

#[test]
fn places_move_by_a_splice(rt: HostRuntime) {
    const MOST: usize = usize::MAX;
    const ROWS: &[(usize, usize, usize, usize, (usize, usize))] = &[
        (3, 3, 5, 2, (2, 2)),
        (3, 3, 5, 3, (3, 5)),
        (3, 3, 5, 4, (6, 6)),
        (2, 6, 2, 1, (1, 1)),
        (2, 6, 2, 2, (2, 2)),
        (2, 6, 2, 4, (2, 2)),
        (2, 6, 2, 6, (2, 2)),
        (2, 6, 2, 7, (3, 3)),
        (2, 6, 5, 2, (2, 2)),
        (2, 6, 5, 3, (2, 5)),
        (2, 6, 5, 6, (5, 5)),
        (2, 5, 6, 7, (8, 8)),
        (0, 0, 0, 9, (9, 9)),
        (0, 0, 2, MOST, (MOST, MOST)),
    ];
    for (from, old_end, new_end, place, wanted) in ROWS {
        let (from, old_end, new_end) = (*from, *old_end, *new_end);
        moves(
            &rt,
            Splice {
                from,
                old_end,
                new_end,
            },
            *place,
            *wanted,
        );
    }
}
