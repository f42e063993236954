//! What a listener that lists the changes of a text was told last.
use rl_base::Direction;
use rl_base::testing::{RefuseAt, TextEvent};

// A change: its place, its text, and the side of a deletion. A replacement's text is the new one.
pub(crate) type Told = (usize, &'static str, Option<Direction>);

// The side of a deletion ahead.
pub(crate) const AHEAD: Option<Direction> = Some(Direction::Forward);

// It heard that change last.
pub(crate) fn is_told(heard: &RefuseAt, told: Told) -> bool {
    let (place, text, side) = told;
    match heard.seen.last() {
        None => false,
        Some(TextEvent::InsertChar(at, c)) => *at == place
            && side.is_none()
            && text.len() == c.len_utf8()
            && text.starts_with(*c),
        Some(TextEvent::InsertStr(at, new) | TextEvent::Replace(at, _, new)) => *at == place
            && side.is_none()
            && new.as_str() == text,
        Some(TextEvent::Delete(at, gone, from)) => *at == place
            && side == Some(*from)
            && gone.as_str() == text,
    }
}
