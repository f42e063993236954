//! What the numbers of the calls stand for. Each function answers `NoSuchNumber` for a number that stands for nothing,
//! and `Nothing` for a count of 0.
ghost use Rattle.std.specs.Prelude.{◌≡◌};
ghost use Rattle.rl_ffi.specs.Numbers.{amount_of, case_of, char_of, count_of, dedents_of, direction_of, given_of, kind_number, mode_number, mode_of, movement_by, movement_of, named, number_of_given, side_of, unit_of};

use crate::answers::Answer;
use crate::shapes::CMovement;
use rl_base::{
    At, CharSearch, Direction, GraphemeClusterMode, Movement, RepeatCount, ReportKind, Side, Unit,
    Word, WordAction,
};

pub(crate) fn kind_number(kind: ReportKind) -> u32
    ensures { result ≡ kind_number kind }
{
    match kind {
        ReportKind::CharInserted => 1,
        ReportKind::TextInserted => 2,
        ReportKind::DeletedForward => 3,
        ReportKind::DeletedBackward => 4,
        ReportKind::Replaced => 5,
        ReportKind::KillStarted => 6,
        ReportKind::KillStopped => 7,
        ReportKind::Folded => 8,
    }
}

pub(crate) fn char_of(number: u32) -> Result<char, Answer>
    ensures { result ≡ char_of number }
{
    match char::from_u32(number) {
        Some(c) => Ok(c),
        None => Err(Answer::NoSuchNumber),
    }
}

pub(crate) fn count_of(number: usize) -> Result<RepeatCount, Answer>
    ensures { result ≡ count_of number }
{
    if number == 0 {
        return Err(Answer::Nothing);
    }
    unit_of(number)
}

// A place or a column that C may leave out: the greatest number stands for none.
pub(crate) fn given_of(number: usize) -> Option<usize>
    ensures { result ≡ given_of number }
{
    if number == usize::MAX {
        return None;
    }
    Some(number)
}

// The number of such a place.
pub(crate) fn number_of_given(given: Option<usize>) -> usize
    ensures { result ≡ number_of_given given }
{
    given.unwrap_or(usize::MAX)
}

// A number of columns.
pub(crate) fn unit_of(number: usize) -> Result<Unit, Answer>
    ensures { result ≡ unit_of number }
{
    if number > 65535 {
        return Err(Answer::NoSuchNumber);
    }
    Ok(number as u16)
}

// How much an indent inserts or deletes in a line.
pub(crate) fn amount_of(number: usize) -> Result<u8, Answer>
    ensures { result ≡ amount_of number }
{
    if number > 255 {
        return Err(Answer::NoSuchNumber);
    }
    Ok(number as u8)
}

pub(crate) fn mode_of(number: u32) -> Result<GraphemeClusterMode, Answer>
    ensures { result ≡ mode_of number }
{
    match number {
        0 => Ok(GraphemeClusterMode::Unicode),
        11 => Ok(GraphemeClusterMode::WcWidth),
        12 => Ok(GraphemeClusterMode::NoZwj),
        _ => Err(Answer::NoSuchNumber),
    }
}

pub(crate) fn mode_number(mode: GraphemeClusterMode) -> u32
    ensures { result ≡ mode_number mode }
{
    match mode {
        GraphemeClusterMode::Unicode => 0,
        GraphemeClusterMode::WcWidth => 11,
        GraphemeClusterMode::NoZwj => 12,
    }
}

pub(crate) fn direction_of(number: u32) -> Result<Direction, Answer>
    ensures { result ≡ direction_of number }
{
    match number {
        50 => Ok(Direction::Forward),
        51 => Ok(Direction::Backward),
        _ => Err(Answer::NoSuchNumber),
    }
}

pub(crate) fn case_of(number: u32) -> Result<WordAction, Answer>
    ensures { result ≡ case_of number }
{
    match number {
        60 => Ok(WordAction::Capitalize),
        61 => Ok(WordAction::Lowercase),
        62 => Ok(WordAction::Uppercase),
        _ => Err(Answer::NoSuchNumber),
    }
}

pub(crate) fn dedents_of(number: u32) -> Result<bool, Answer>
    ensures { result ≡ dedents_of number }
{
    match number {
        70 => Ok(false),
        71 => Ok(true),
        _ => Err(Answer::NoSuchNumber),
    }
}

pub(crate) fn side_of(number: u32) -> Result<Side, Answer>
    ensures { result ≡ side_of number }
{
    match number {
        80 => Ok(Side::Before),
        81 => Ok(Side::After),
        _ => Err(Answer::NoSuchNumber),
    }
}

fn movement_by(kind: u32, n: RepeatCount, c: u32) -> Result<Movement, Answer>
    ensures { result ≡ named (movement_by kind n c) }
{
    Ok(match kind {
        100 => Movement::WholeLine,
        101 => Movement::BeginningOfLine,
        102 => Movement::EndOfLine,
        103 => Movement::FirstNonBlank,
        104 => Movement::WholeBuffer,
        105 => Movement::BeginningOfBuffer,
        106 => Movement::EndOfBuffer,
        110 => Movement::BackwardChar(n),
        111 => Movement::ForwardChar(n),
        112 => Movement::LineUp(n),
        113 => Movement::LineDown(n),
        114 => Movement::WholeLinesUp(n),
        115 => Movement::WholeLinesDown(n),
        116 => Movement::BackwardWord(n, Word::Big),
        117 => Movement::BackwardWord(n, Word::Emacs),
        118 => Movement::BackwardWord(n, Word::Vi),
        119 => Movement::ForwardWord(n, At::Start, Word::Big),
        120 => Movement::ForwardWord(n, At::BeforeEnd, Word::Big),
        121 => Movement::ForwardWord(n, At::AfterEnd, Word::Big),
        122 => Movement::ForwardWord(n, At::Start, Word::Emacs),
        123 => Movement::ForwardWord(n, At::BeforeEnd, Word::Emacs),
        124 => Movement::ForwardWord(n, At::AfterEnd, Word::Emacs),
        125 => Movement::ForwardWord(n, At::Start, Word::Vi),
        126 => Movement::ForwardWord(n, At::BeforeEnd, Word::Vi),
        127 => Movement::ForwardWord(n, At::AfterEnd, Word::Vi),
        128 => Movement::ViCharSearch(n, CharSearch::Forward(char_of(c)?)),
        129 => Movement::ViCharSearch(n, CharSearch::ForwardBefore(char_of(c)?)),
        130 => Movement::ViCharSearch(n, CharSearch::Backward(char_of(c)?)),
        131 => Movement::ViCharSearch(n, CharSearch::BackwardAfter(char_of(c)?)),
        _ => return Err(Answer::NoSuchNumber),
    })
}

// The movement of the core. One to a text is none.
pub(crate) fn movement_of(movement: CMovement) -> Result<Movement, Answer>
    ensures { result ≡ movement_of movement.entry }
{
    let n = if matches!(movement.kind, 110..=131) {
        count_of(movement.n)?
    } else {
        0
    };
    movement_by(movement.kind, n, movement.c)
}
