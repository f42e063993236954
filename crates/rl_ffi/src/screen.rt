//! The calls that lay a text out on a screen.
ghost use Rattle.std.specs.Prelude.{◌≡◌, IfErr, IfOk, IfSome};
ghost use Rattle.std.specs.Str.{IsCharBoundary};
ghost use Rattle.rl_base.specs.Screen.{rows};
ghost use Rattle.rl_line.specs.Rows.{TellsAbove, TellsBelow};
ghost use Rattle.rl_ffi.specs.Answers.{merged};
ghost use Rattle.rl_ffi.specs.Calls.{Answers, Fills, Tells, Writes};
ghost use Rattle.rl_ffi.specs.Numbers.{given_of};
ghost use Rattle.rl_ffi.specs.Screen.{FillsRows, TellsCell, TellsPlace, TellsRow, TellsRowOf, TellsRows, TellsRowsFrom, screen_of};
ghost use Rattle.rl_ffi.specs.declared.answers.Answer.TheVariants.{BadOffset};

use crate::answers::{Answer, Outcome, merged};
use crate::handle::{Handle, of};
use crate::numbers::{count_of, given_of, mode_of, number_of_given, unit_of};
use crate::shapes::{CPosition, CScreen};
use crate::texts::text_of;
use rl_base::{RepeatCount, Screen};
use rl_line::LineBuffer;

// The screen, unless it is none: it has a column at least.
fn screen_of(screen: &CScreen) -> Result<Screen, Answer>
    ensures { result ≡ screen_of screen.now }
{
    let columns = unit_of(screen.columns)?;
    if columns == 0 {
        return Err(Answer::NoSuchNumber);
    }
    Ok(Screen {
        mode: mode_of(screen.mode)?,
        columns,
        prompt: unit_of(screen.prompt)?,
        continuation: unit_of(screen.continuation)?,
        tab: unit_of(screen.tab)?,
        controls: unit_of(screen.controls)?,
    })
}

fn find_cell(screen: &CScreen, place: usize, text: &[u8], found: &mut CPosition) -> Outcome
    ensures { TellsCell screen.now place text.now (merged result) found.old found.new }
{
    let screen = screen_of(screen)?;
    let text = text_of(text)?;
    if !text.is_char_boundary(place) {
        return Err(Answer::BadOffset);
    }
    let (line, column) = screen.cell(text, place);
    *found = CPosition { line, column };
    Ok(Answer::Done)
}

pub fn lodvarn_cell(screen: &CScreen, place: usize, text: &[u8], found: &mut CPosition) -> i32
    ensures { Answers (TellsCell screen.now place text.now) result found.old found.new }
{
    merged(find_cell(screen, place, text, found)).number()
}

fn find_place(screen: &CScreen, at: CPosition, text: &[u8], place: &mut usize) -> Outcome
    ensures { TellsPlace screen.now at text.now (merged result) place.old place.new }
{
    let screen = screen_of(screen)?;
    let text = text_of(text)?;
    *place = screen.place_at(text, (at.line, at.column));
    Ok(Answer::Done)
}

pub fn lodvarn_offset_at(screen: &CScreen, at: CPosition, text: &[u8], place: &mut usize) -> i32
    ensures { Answers (TellsPlace screen.now at text.now) result place.old place.new }
{
    merged(find_place(screen, at, text, place)).number()
}

// Writes the places where rows begin to `starts`, of which there are at most two more than bytes, unless there are too many.
#[tactic(auto, using(crate::proofs::BufferLemmas::filled_fits))]
fn fill(screen: &Screen, text: &str, starts: &mut [usize], count: &mut usize) -> Answer
    ensures { Fills (rows screen.now text.now) result (starts.old, count.old) (starts.new, count.new) }
{
    if starts.len() > text.len() + 1 {
        *count = screen.rows(text, starts);
        return Answer::Done;
    }
    *count = screen.rows(text, &mut []);
    if *count > starts.len() {
        return Answer::TooSmall;
    }
    screen.rows(text, starts);
    Answer::Done
}

fn find_rows(screen: &CScreen, text: &[u8], starts: &mut [usize], count: &mut usize) -> Outcome
    ensures { TellsRows screen.now text.now (merged result) (starts.old, count.old) (starts.new, count.new) }
{
    let screen = screen_of(screen)?;
    let text = text_of(text)?;
    Ok(fill(&screen, text, starts, count))
}

pub fn lodvarn_rows(screen: &CScreen, text: &[u8], starts: &mut [usize], count: &mut usize) -> i32
    ensures { Answers (TellsRows screen.now text.now) result (starts.old, count.old) (starts.new, count.new) }
{
    merged(find_rows(screen, text, starts, count)).number()
}

// Writes where rows begin from a place of the text on, as far as that fits, and where the next one begins.
#[tactic(auto, unfolding(crate::specs::Screen::FillsRows))]
fn fill_from(
    on: &Screen,
    text: &str,
    from: usize,
    starts: &mut [usize],
    count: &mut usize,
    next: &mut usize,
) -> Answer
    ensures { FillsRows on.now text.now from result (starts.old, (count.old, next.old)) (starts.new, (count.new, next.new)) }
{
    if !text.is_char_boundary(from) {
        return Answer::BadOffset;
    }
    let (written, after) = on.rows_from(text, from, starts);
    *count = written;
    *next = number_of_given(after);
    Answer::Done
}

pub fn lodvarn_rows_from(
    s: &mut Handle,
    screen: &CScreen,
    from: usize,
    starts: &mut [usize],
    count: &mut usize,
    next: &mut usize,
) -> i32
    ensures { Tells (TellsRowsFrom screen.now from) s.old result s.new (starts.old, (count.old, next.old)) (starts.new, (count.new, next.new)) }
{
    of!(s, session, on = screen_of(screen) => fill_from(&on, session.line().as_str(), from, starts, count, next))
}

// A place of the text that C may leave out.
fn place_of(text: &str, number: usize) -> Result<Option<usize>, Answer>
    ensures ok { IfOk result (λ given. (given ≡ given_of number) × IfSome given (λ place. IsCharBoundary text.now place)) }
    ensures err { IfErr result (λ why. (why ≡ BadOffset) × (¬ (IfSome (given_of number) (λ place. IsCharBoundary text.now place)))) }
{
    let Some(place) = given_of(number) else {
        return Ok(None);
    };
    if !text.is_char_boundary(place) {
        return Err(Answer::BadOffset);
    }
    Ok(Some(place))
}

// Writes the place to which a motion by rows leads, and the column that it keeps to, if it leads anywhere.
fn write_row(told: Option<(usize, usize)>, place: &mut usize, column: &mut usize) -> Answer
    ensures { Writes told result (place.old, column.old) (place.new, column.new) }
{
    match told {
        Some(row) => {
            *place = row.0;
            *column = row.1;
            Answer::Done
        }
        None => Answer::Nothing,
    }
}

#[tactic(auto, unfolding(crate::specs::Screen::TellsRowOf))]
fn find_above(
    line: &LineBuffer,
    on: &Screen,
    from: usize,
    n: RepeatCount,
    column: &mut usize,
    place: &mut usize,
) -> Outcome
    ensures { TellsRowOf TellsAbove on.now from n line.now (merged result) (place.old, column.old) (place.new, column.new) }
{
    let from = place_of(line.as_str(), from)?;
    let told = line.row_above(on, from, n, given_of(*column));
    Ok(write_row(told, place, column))
}

pub fn lodvarn_row_above(
    s: &mut Handle,
    screen: &CScreen,
    from: usize,
    n: usize,
    column: &mut usize,
    place: &mut usize,
) -> i32
    ensures { Tells (TellsRow TellsAbove screen.now from n) s.old result s.new (place.old, column.old) (place.new, column.new) }
{
    of!(s, session, on = screen_of(screen), k = count_of(n) => {
        session.index_lines();
        merged(find_above(session.line(), &on, from, k, column, place))
    })
}

#[tactic(auto, unfolding(crate::specs::Screen::TellsRowOf))]
fn find_below(
    line: &LineBuffer,
    on: &Screen,
    from: usize,
    n: RepeatCount,
    column: &mut usize,
    place: &mut usize,
) -> Outcome
    ensures { TellsRowOf TellsBelow on.now from n line.now (merged result) (place.old, column.old) (place.new, column.new) }
{
    let from = place_of(line.as_str(), from)?;
    let told = line.row_below(on, from, n, given_of(*column));
    Ok(write_row(told, place, column))
}

pub fn lodvarn_row_below(
    s: &mut Handle,
    screen: &CScreen,
    from: usize,
    n: usize,
    column: &mut usize,
    place: &mut usize,
) -> i32
    ensures { Tells (TellsRow TellsBelow screen.now from n) s.old result s.new (place.old, column.old) (place.new, column.new) }
{
    of!(s, session, on = screen_of(screen), k = count_of(n) => {
        session.index_lines();
        merged(find_below(session.line(), &on, from, k, column, place))
    })
}
