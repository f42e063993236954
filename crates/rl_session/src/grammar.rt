//! Reads a line of a script: what each word says, with what it wants after it.
//!
//! `parse` cuts a line at its first space. A word stands in one function, by what it wants:
//! - nothing: `lone_command` (`text`: `alone`);
//! - a text, which takes memory: `text_command` (`text`: `with_given`);
//! - a count or a range that it deletes: `deletion`;
//! - a new setting: `setting`;
//! - anything else: `command`;
//! - the words of a movement, within a command: `lone_movement`, or `movement_with` if something follows.
//!
//! One function with all words is more than the prover goes through.
ghost use Rattle.std.specs.Prelude.{Some, None, IfOk, OnErr, MatchOption, codes};
ghost use Rattle.rl_session.specs.Grammar.{Set, Do, NamesWord, NamesAt, NamesSearch, NamesDirection, NamesAction, NamesMode, CountWord, CountAtWord, CountSearch, RangeDirection, Names, NamesMovement, AmountMovement, Says, Means, MeansNothing};
ghost use Rattle.rl_session.specs.Parsing.{HoldsText, LineHoldsText, HasNoWord, HasNoAt, HasNoSearch, HasNoDirection, HasNoMovement, NamesNothing, NamesNoMovement, SaysNothing, SaysNoTextCommand, SaysNoDeletion, SaysNoCommand, SaysNoSetting, SaysNoneWithoutText, SaysNoLoneCommand, meaning_of};
ghost use Rattle.rl_base.specs.declared.layout.GraphemeClusterMode.{GraphemeClusterMode};
ghost use Rattle.rl_base.specs.declared.listeners.Direction.{Direction};
ghost use Rattle.rl_base.specs.declared.motion.At.{At};
ghost use Rattle.rl_base.specs.declared.motion.CharSearch.{CharSearch};
ghost use Rattle.rl_base.specs.declared.motion.Word.{Word};
ghost use Rattle.rl_base.specs.declared.motion.WordAction.{WordAction};

use crate::session::Command;
use crate::settings::Setting;
use crate::spelling::{
    character, count, counted, first_word, number, numbered, numbered_text, unescape,
};
use rl_base::{At, CharSearch, Direction, GraphemeClusterMode, Movement, Word, WordAction};
use std::alloc::{AllocError, Global};

/// What a line says.
#[derive(Drop)]
pub(crate) enum ScriptLine {
    NewText(String),
    Set(Setting),
    Do(Command),
}

// The kind of word that is named.
#[tactic(auto, using(crate::proofs::Scripts::MovementLemmas::kinds))]
fn named_word(named: &str) -> Option<Word>
    ensures { MatchOption result ((w : Word) → NamesWord named.now w → ⊥) (λ w. NamesWord named.now w) }
{
    match named {
        "big" => Some(Word::Big),
        "emacs" => Some(Word::Emacs),
        "vi" => Some(Word::Vi),
        _ => None,
    }
}

// The place at a word that is named.
#[tactic(auto, using(crate::proofs::Scripts::MovementLemmas::kinds))]
fn named_at(named: &str) -> Option<At>
    ensures { MatchOption result ((a : At) → NamesAt named.now a → ⊥) (λ a. NamesAt named.now a) }
{
    match named {
        "start" => Some(At::Start),
        "before" => Some(At::BeforeEnd),
        "after" => Some(At::AfterEnd),
        _ => None,
    }
}

// The search for a character whose kind is named.
#[tactic(auto, using(crate::proofs::Scripts::MovementLemmas::kinds))]
fn named_search(named: &str, c: char) -> Option<CharSearch>
    ensures { MatchOption result ((cs : CharSearch) → NamesSearch named.now c cs → ⊥) (λ cs. NamesSearch named.now c cs) }
{
    match named {
        "f" => Some(CharSearch::Forward(c)),
        "t" => Some(CharSearch::ForwardBefore(c)),
        "F" => Some(CharSearch::Backward(c)),
        "T" => Some(CharSearch::BackwardAfter(c)),
        _ => None,
    }
}

// The direction of a kill that is named.
#[tactic(auto, using(crate::proofs::Scripts::MovementLemmas::kinds))]
fn named_direction(named: &str) -> Option<Direction>
    ensures { MatchOption result ((side : Direction) → NamesDirection named.now side → ⊥) (λ side. NamesDirection named.now side) }
{
    match named {
        "f" => Some(Direction::Forward),
        "b" => Some(Direction::Backward),
        _ => None,
    }
}

// The change of the letter case that is named.
#[tactic(auto, using(crate::proofs::Scripts::MovementLemmas::kinds))]
fn named_action(named: &str) -> Option<WordAction>
    ensures { MatchOption result ((action : WordAction) → NamesAction named.now action → ⊥) (λ action. NamesAction named.now action) }
{
    match named {
        "cap" => Some(WordAction::Capitalize),
        "low" => Some(WordAction::Lowercase),
        "up" => Some(WordAction::Uppercase),
        _ => None,
    }
}

// The way to measure columns that is named.
#[tactic(auto, using(crate::proofs::Scripts::MovementLemmas::kinds))]
fn named_mode(named: &str) -> Option<GraphemeClusterMode>
    ensures { MatchOption result ((m : GraphemeClusterMode) → NamesMode named.now m → ⊥) (λ m. NamesMode named.now m) }
{
    match named {
        "unicode" => Some(GraphemeClusterMode::Unicode),
        "wcwidth" => Some(GraphemeClusterMode::WcWidth),
        "nozwj" => Some(GraphemeClusterMode::NoZwj),
        _ => None,
    }
}

// A count and a kind of word.
fn count_and_word(given: &str) -> Option<(u16, Word)>
    ensures { MatchOption result (HasNoWord given.now) (λ found. CountWord given.now found.0 found.1) }
{
    let (n, kind) = counted(given)?;
    Some((n, named_word(kind)?))
}

// A count, a place at a word and a kind of word.
fn count_at_word(given: &str) -> Option<(u16, At, Word)>
    ensures { MatchOption result (HasNoAt given.now) (λ found. CountAtWord given.now found.0 found.1 found.2) }
{
    let (n, after) = counted(given)?;
    let (stop, kind) = first_word(after);
    let word = named_word(kind?)?;
    Some((n, named_at(stop)?, word))
}

// A count, a kind of search and a character.
fn count_and_search(given: &str) -> Option<(u16, CharSearch)>
    ensures { MatchOption result (HasNoSearch given.now) (λ found. CountSearch given.now found.0 found.1) }
{
    let (n, after) = counted(given)?;
    let (kind, escaped) = first_word(after);
    let c = character(escaped?)?;
    Some((n, named_search(kind, c)?))
}

// The movement of a word and of what stands after its space.
#[tactic(auto, using(crate::proofs::Scripts::MovementLemmas::movements))]
fn movement_with(word: &str, given: &str) -> Option<Movement>
    ensures { MatchOption result (NamesNothing word.now (Some given.now)) (λ movement. Names word.now (Some given.now) movement) }
{
    match word {
        "bword" => {
            let (n, word) = count_and_word(given)?;
            Some(Movement::BackwardWord(n, word))
        }
        "fword" => {
            let (n, at, word) = count_at_word(given)?;
            Some(Movement::ForwardWord(n, at, word))
        }
        "find" => {
            let (n, search) = count_and_search(given)?;
            Some(Movement::ViCharSearch(n, search))
        }
        "bchar" => Some(Movement::BackwardChar(count(given)?)),
        "fchar" => Some(Movement::ForwardChar(count(given)?)),
        "up" => Some(Movement::LineUp(count(given)?)),
        "down" => Some(Movement::LineDown(count(given)?)),
        "linesup" => Some(Movement::WholeLinesUp(count(given)?)),
        "lines" => Some(Movement::WholeLinesDown(count(given)?)),
        _ => None,
    }
}

// The movement of a word that no space follows.
#[tactic(auto, using(crate::proofs::Scripts::MovementLemmas::movements))]
fn lone_movement(word: &str) -> Option<Movement>
    ensures { MatchOption result (NamesNothing word.now None) (λ movement. Names word.now None movement) }
{
    match word {
        "line" => Some(Movement::WholeLine),
        "home" => Some(Movement::BeginningOfLine),
        "eol" => Some(Movement::EndOfLine),
        "first" => Some(Movement::ViFirstPrint),
        "nonblank" => Some(Movement::FirstNonBlank),
        "buf" => Some(Movement::WholeBuffer),
        "bob" => Some(Movement::BeginningOfBuffer),
        "eob" => Some(Movement::EndOfBuffer),
        _ => None,
    }
}

// The movement that the bytes name.
fn movement(named: &str) -> Option<Movement>
    ensures { MatchOption result (NamesNoMovement named.now) (λ movement. NamesMovement named.now movement) }
{
    match first_word(named) {
        (word, Some(given)) => movement_with(word, given),
        (word, None) => lone_movement(word),
    }
}

// The insertion of a count and a character.
#[tactic(auto, using(crate::proofs::Scripts::WordLemmas::commands))]
fn insertion(given: &str) -> Option<Command>
    ensures { MatchOption result (SaysNoCommand (codes "ins") given.now)
        (λ command. Says (codes "ins") (Some given.now) (Do command)) }
{
    let (n, escaped) = counted(given)?;
    Some(Command::Insert(character(escaped)?, n))
}

// The deletion between two places.
#[tactic(auto, using(crate::proofs::Scripts::WordLemmas::deletions))]
fn range_deletion(given: &str) -> Option<Command>
    ensures { MatchOption result (SaysNoDeletion (codes "range") given.now)
        (λ command. Says (codes "range") (Some given.now) (Do command)) }
{
    let (start, after) = numbered(given, usize::MAX)?;
    Some(Command::DeleteRange(start, number(after, usize::MAX)?))
}

// The ends of a range and the direction of a kill.
fn range_and_direction(given: &str) -> Option<(usize, usize, Direction)>
    ensures { MatchOption result (HasNoDirection given.now) (λ found. RangeDirection given.now found.0 found.1 found.2) }
{
    let (start, after) = numbered(given, usize::MAX)?;
    let (end, letter) = numbered(after, usize::MAX)?;
    Some((start, end, named_direction(letter)?))
}

// An amount to indent by and a movement.
fn amount_and_movement(given: &str) -> Option<(u8, Movement)>
    ensures { MatchOption result (HasNoMovement given.now) (λ found. AmountMovement given.now found.0 found.1) }
{
    let (amount, named) = numbered(given, 255)?;
    Some((amount as u8, movement(named)?))
}

// The deletion, or the kill of a range, of a word and of what stands after its space.
#[tactic(auto, using(crate::proofs::Scripts::WordLemmas::deletions))]
fn deletion(word: &str, given: &str) -> Option<Command>
    ensures { MatchOption result (SaysNoDeletion word.now given.now)
        (λ command. Says word.now (Some given.now) (Do command)) }
{
    match word {
        "range" => range_deletion(given),
        "del" => Some(Command::Delete(count(given)?)),
        "back" => Some(Command::Backspace(count(given)?)),
        "prevword" => {
            let (n, word) = count_and_word(given)?;
            Some(Command::DeletePrevWord(word, n))
        }
        "nextword" => {
            let (n, at, word) = count_at_word(given)?;
            Some(Command::DeleteWord(at, word, n))
        }
        "to" => {
            let (n, search) = count_and_search(given)?;
            Some(Command::DeleteTo(search, n))
        }
        "killrange" => {
            let (from, to, direction) = range_and_direction(given)?;
            Some(Command::KillRange {
                from,
                to,
                direction,
            })
        }
        _ => None,
    }
}

// The command of a word and of what stands after its space, for commands without a text.
#[tactic(auto, using(crate::proofs::Scripts::WordLemmas::commands))]
fn command(word: &str, given: &str) -> Option<Command>
    ensures { MatchOption result (SaysNoCommand word.now given.now)
        (λ command. Says word.now (Some given.now) (Do command)) }
{
    match word {
        "pos" => Some(Command::SetPos(number(given, usize::MAX)?)),
        "move" => Some(Command::Move(movement(given)?)),
        "ins" => insertion(given),
        "yank" => Some(Command::Yank(count(given)?)),
        "twords" => Some(Command::TransposeWords(count(given)?)),
        "case" => Some(Command::EditWord(named_action(given)?)),
        "kill" => Some(Command::Kill(movement(given)?)),
        "copy" => Some(Command::Copy(movement(given)?)),
        "indent" => {
            let (amount, movement) = amount_and_movement(given)?;
            Some(Command::Indent {
                movement,
                amount,
                dedent: false,
            })
        }
        "dedent" => {
            let (amount, movement) = amount_and_movement(given)?;
            Some(Command::Indent {
                movement,
                amount,
                dedent: true,
            })
        }
        "undo" => Some(Command::Undo(count(given)?)),
        "trunc" => Some(Command::Truncate(number(given, usize::MAX)?)),
        _ => deletion(word, given),
    }
}

// The replacement of the text between two places by another.
#[tactic(auto, using(crate::proofs::Scripts::WordLemmas::texts))]
fn replacement(alloc: Global, given: &str) -> Result<Option<Command>, AllocError>
    ensures ok { IfOk result (λ found. MatchOption found (SaysNoTextCommand (codes "rep") given.now)
        (λ command. Says (codes "rep") (Some given.now) (Do command))) }
    ensures err { OnErr result (HoldsText (codes "rep") given.now) }
{
    let (start, after) = match numbered(given, usize::MAX) {
        Some(found) => found,
        None => return Ok(None),
    };
    match numbered_text(alloc, after, usize::MAX)? {
        Some((end, text)) => Ok(Some(Command::Replace(start, end, text))),
        None => Ok(None),
    }
}

// The command of a word and a text.
#[tactic(auto, using(crate::proofs::Scripts::WordLemmas::texts))]
fn text_command(alloc: Global, word: &str, given: &str) -> Result<Option<Command>, AllocError>
    ensures ok { IfOk result (λ found. MatchOption found (SaysNoTextCommand word.now given.now)
        (λ command. Says word.now (Some given.now) (Do command))) }
    ensures err { OnErr result (HoldsText word.now given.now) }
{
    match word {
        "paste" => match numbered_text(alloc, given, 65535)? {
            Some((n, text)) => Ok(Some(Command::Paste(text, n as u16))),
            None => Ok(None),
        },
        "update" => match numbered_text(alloc, given, usize::MAX)? {
            Some((pos, text)) => Ok(Some(Command::Update(text, pos))),
            None => Ok(None),
        },
        "str" => match numbered_text(alloc, given, usize::MAX)? {
            Some((pos, text)) => Ok(Some(Command::InsertStr(pos, text))),
            None => Ok(None),
        },
        "rep" => replacement(alloc, given),
        "keep" => match unescape(alloc, given)? {
            Some(text) => Ok(Some(Command::Keep(text))),
            None => Ok(None),
        },
        _ => Ok(None),
    }
}

// The setting of a word and of what stands after its space.
#[tactic(auto, using(crate::proofs::Scripts::WordLemmas::settings))]
fn setting(word: &str, given: &str) -> Option<Setting>
    ensures { MatchOption result (SaysNoSetting word.now given.now)
        (λ setting. Says word.now (Some given.now) (Set setting)) }
{
    match word {
        "limit" => Some(Setting::Limit(number(given, usize::MAX)?)),
        "ring" => Some(Setting::RingSize(number(given, usize::MAX)?)),
        "mode" => Some(Setting::Mode(named_mode(given)?)),
        _ => None,
    }
}

// What a word says with what stands after its space, for words that take no text.
fn without_text(word: &str, given: &str) -> Option<ScriptLine>
    ensures { MatchOption result (SaysNoneWithoutText word.now given.now)
        (λ said. Says word.now (Some given.now) (meaning_of said)) }
{
    match command(word, given) {
        Some(command) => Some(ScriptLine::Do(command)),
        None => Some(ScriptLine::Set(setting(word, given)?)),
    }
}

// What a word says with what stands after its space.
#[tactic(auto, using(crate::proofs::Scripts::WordLemmas::texts))]
fn with_given(alloc: Global, word: &str, given: &str) -> Result<Option<ScriptLine>, AllocError>
    ensures ok { IfOk result (λ found. MatchOption found (SaysNothing word.now (Some given.now))
        (λ said. Says word.now (Some given.now) (meaning_of said))) }
    ensures err { OnErr result (HoldsText word.now given.now) }
{
    match word {
        "text" => match unescape(alloc, given)? {
            Some(text) => Ok(Some(ScriptLine::NewText(text))),
            None => Ok(None),
        },
        _ => match text_command(alloc, word, given)? {
            Some(command) => Ok(Some(ScriptLine::Do(command))),
            None => Ok(without_text(word, given)),
        },
    }
}

// The command of a word that no space follows.
#[tactic(auto, using(crate::proofs::Scripts::WordLemmas::lone_words))]
fn lone_command(alloc: Global, word: &str) -> Option<Command>
    ensures { MatchOption result (SaysNoLoneCommand word.now) (λ command. Says word.now None (Do command)) }
{
    match word {
        "yankpop" => Some(Command::YankPop),
        "keep" => Some(Command::Keep(String::new(alloc))),
        "killline" => Some(Command::KillLine),
        "killbuf" => Some(Command::KillBuffer),
        "discline" => Some(Command::DiscardLine),
        "discbuf" => Some(Command::DiscardBuffer),
        "tchars" => Some(Command::TransposeChars),
        "part" => Some(Command::Part),
        "begin" => Some(Command::Begin),
        "end" => Some(Command::End),
        "endone" => Some(Command::EndOne),
        "reopen" => Some(Command::Reopen),
        "abandon" => Some(Command::Abandon),
        "keepundone" => Some(Command::KeepUndone),
        "redo" => Some(Command::Redo),
        "where" => Some(Command::LinePlace),
        _ => None,
    }
}

// What a word says if no space follows it.
#[tactic(auto, using(crate::proofs::Scripts::WordLemmas::lone_words))]
fn alone(alloc: Global, word: &str) -> Option<ScriptLine>
    ensures { MatchOption result (SaysNothing word.now None)
        (λ said. Says word.now None (meaning_of said)) }
{
    match word {
        "text" => Some(ScriptLine::NewText(String::new(alloc))),
        _ => Some(ScriptLine::Do(lone_command(alloc, word)?)),
    }
}

/// What a line says, if anything.
pub(crate) fn parse(alloc: Global, line: &[u8]) -> Result<Option<ScriptLine>, AllocError>
    ensures ok { IfOk result (λ found. MatchOption found (MeansNothing line.now)
        (λ said. Means line.now (meaning_of said))) }
    ensures err { OnErr result (LineHoldsText line.now) }
{
    let line = match str::from_utf8(line) {
        Ok(line) => line,
        Err(_) => return Ok(None),
    };
    match first_word(line) {
        (word, Some(given)) => with_given(alloc, word, given),
        (word, None) => Ok(alone(alloc, word)),
    }
}
