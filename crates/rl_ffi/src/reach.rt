//! What a movement of C reaches in a session: it is one of the core, or it leads to a text that is searched.
ghost use Rattle.std.specs.Prelude.{◌≡◌, ℕ, List, IfOk, IfSome};
ghost use Rattle.std.specs.Str.{IsCharBoundary};
ghost use Rattle.rl_line.specs.LineRanges.{IsRange};
ghost use Rattle.rl_ffi.specs.Reach.{Covers, Reaches, direction_by, IsInText, spanned};

use crate::answers::Answer;
use crate::numbers::movement_of;
use crate::shapes::CMovement;
use crate::texts::text_of;
use rl_base::{Direction, Movement};
use rl_session::Session;
use std::ops::Range;

/// What a movement of C is in a session.
#[derive(Drop)]
pub(crate) enum Reach {
    /// A movement of the core.
    By(Movement),
    /// Where the text begins that was found, if it was.
    To(Option<usize>),
}

// The direction of a movement to a text, by the number of its kind.
fn direction_by(kind: u32) -> Option<Direction>
    ensures { result ≡ direction_by kind }
{
    match kind {
        107 => Some(Direction::Forward),
        108 => Some(Direction::Backward),
        _ => None,
    }
}

// What a movement reaches from an offset, or why it reaches nothing. Only a search looks at the offset.
pub(crate) fn reach_of(session: &Session, from: usize, movement: CMovement) -> Result<Reach, Answer>
    ensures reached { Reaches from movement.entry session.now result }
    ensures inside { IfOk result (IsInText session.now.line.text from) }
{
    let Some(direction) = direction_by(movement.kind) else {
        return Ok(Reach::By(movement_of(movement)?));
    };
    if movement.text.is_empty() {
        return Err(Answer::NoSuchNumber);
    }
    let text = text_of(movement.text)?;
    match session.find(from, text, direction) {
        Ok(Some(range)) => Ok(Reach::To(Some(range.start))),
        Ok(None) => Ok(Reach::To(None)),
        Err(_) => Err(Answer::BadOffset),
    }
}

// What lies between an offset and where a text was found, if there is anything.
pub(crate) fn span(from: usize, found: Option<usize>) -> Option<Range<usize>>
    ensures value { result ≡ spanned from found }
    ensures range { (text : List ℕ) → IsCharBoundary text from → IfSome found (IsCharBoundary text) → IfSome result (λ r. IsRange text r.start r.end) }
{
    let at = found?;
    if at < from {
        return Some(at..from);
    }
    if from < at {
        return Some(from..at);
    }
    None
}

// What a movement covers from an offset.
#[tactic(auto, unfolding(crate::specs::Reach::Covers))]
pub(crate) fn covers(
    session: &mut Session,
    from: usize,
    movement: CMovement,
) -> Result<Option<Range<usize>>, Answer>
    ensures asked { Covers from movement.entry session.old result }
    ensures range { IfOk result (λ found. IfSome found (λ r. IsRange session.old.line.text r.start r.end)) }
    ensures kept { session.new ≡ session.old }
{
    match reach_of(session, from, movement)? {
        Reach::By(m) => match session.covers_from(from, &m) {
            Ok(found) => Ok(found),
            Err(_) => Err(Answer::BadOffset),
        },
        Reach::To(found) => Ok(span(from, found)),
    }
}
