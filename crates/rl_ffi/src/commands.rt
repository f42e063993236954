//! The calls that ask a session for a command, which obeys its options.
ghost use Rattle.rl_session.specs.declared.session.Command.{Command};
ghost use Rattle.rl_ffi.specs.Answers.{told, told_place};
ghost use Rattle.rl_ffi.specs.Calls.{Through, ThroughOut, of_named};
ghost use Rattle.rl_ffi.specs.Commands.{deletes, deletes_by, ends_kills, insertion_of, moves, paste_of, performs, performs_text, performs_with, performs_with_as, replacement_of, types, update_of};
ghost use Rattle.rl_ffi.specs.Numbers.{amount_of, case_of, char_of, count_of, dedents_of, movement_of};
ghost use Rattle.rl_ffi.specs.Reach.{of_reach};
ghost use Rattle.rl_ffi.specs.declared.reach.Reach.TheVariants.{To};

use crate::answers::{
    Answer, answered, done, handed_out, inserted, inserted_there, marked, of_fault, placed,
};
use crate::handle::{Handle, of};
use crate::numbers::{amount_of, case_of, char_of, count_of, dedents_of, movement_of};
use crate::reach::{Reach, reach_of, span};
use crate::shapes::{CMovement, CRange};
use crate::texts::text_of;
use rl_base::{Movement, RepeatCount, WordAction};
use rl_line::can_delete_by;
use rl_session::{Session, TypeFault};

#[tactic(auto, unfolding(crate::specs::Commands::performs_as))]
pub fn lodvarn_set_pos(s: &mut Handle, pos: usize) -> i32
    ensures { Through (performs (Command.SetPos pos)) s.old result s.new }
{
    of!(s, session => done(session.set_pos(pos)))
}

// Ends a run of kills, as a motion to where the cursor is does.
pub(crate) fn end_kills(session: &mut Session)
    ensures { ends_kills session.old session.new }
{
    let pos = session.line().pos();
    let _ = session.set_pos(pos);
}

// Moves the cursor to where a text was found.
#[tactic(auto, unfolding(crate::specs::Commands::performs_as))]
fn move_to(session: &mut Session, found: Option<usize>) -> Answer
    ensures { moves (To found) session.old result session.new }
{
    match found {
        Some(at) => done(session.set_pos(at)),
        None => {
            end_kills(session);
            Answer::Nothing
        }
    }
}

#[tactic(auto, unfolding(crate::specs::Reach::of_reach, crate::specs::Commands::performs_as))]
fn move_by(session: &mut Session, movement: CMovement) -> Answer
    ensures { of_reach movement.entry moves session.old result session.new }
{
    match reach_of(session, session.line().pos(), movement) {
        Ok(Reach::By(m)) => answered(session.move_by(&m)),
        Ok(Reach::To(found)) => move_to(session, found),
        Err(why) => why,
    }
}

pub fn lodvarn_move(s: &mut Handle, movement: CMovement) -> i32
    ensures { Through (of_reach movement.entry moves) s.old result s.new }
{
    of!(s, session => move_by(session, movement))
}

#[tactic(auto, unfolding(crate::specs::Commands::performs_as))]
#[inline(always)]
fn insert(session: &mut Session, x: char, k: RepeatCount) -> Answer
    ensures { performs (Command.Insert x k) session.old result session.new }
{
    inserted(Answer::Nothing, session.insert(x, k))
}

pub fn lodvarn_insert(s: &mut Handle, c: u32, n: usize) -> i32
    ensures { Through (of_named (char_of c) (λ x. of_named (count_of n) (λ k. performs (Command.Insert x k)))) s.old result s.new }
{
    of!(s, session, x = char_of(c), k = count_of(n) => insert(session, x, k))
}

#[tactic(auto, unfolding(crate::specs::Commands::types))]
fn type_bytes(session: &mut Session, bytes: &[u8], used: &mut usize) -> Answer
    ensures { types bytes.now session.old result session.new used.old used.new }
{
    match session.type_bytes(bytes) {
        Ok(typed) => {
            if typed.len == 0 {
                return Answer::Nothing;
            }
            *used = typed.len;
            placed(typed.at_end)
        }
        Err(TypeFault::NotUtf8) => Answer::NotUtf8,
        Err(TypeFault::Refused(why)) => of_fault(why),
    }
}

pub fn lodvarn_type(s: &mut Handle, bytes: &[u8], used: &mut usize) -> i32
    ensures { ThroughOut (types bytes.now) s.old result s.new used.old used.new }
{
    of!(s, session => type_bytes(session, bytes, used))
}

#[tactic(auto, unfolding(crate::specs::Commands::performs_as))]
pub fn lodvarn_delete_range(s: &mut Handle, range: CRange) -> i32
    ensures { Through (performs (Command.DeleteRange range.from range.to)) s.old result s.new }
{
    of!(s, session => done(session.delete_range(range.from, range.to)))
}

#[tactic(auto, unfolding(crate::specs::Commands::performs_as))]
fn delete(session: &mut Session, k: RepeatCount) -> Answer
    ensures { performs (Command.Delete k) session.old result session.new }
{
    handed_out(session.delete(k))
}

pub fn lodvarn_delete(s: &mut Handle, n: usize) -> i32
    ensures { Through (of_named (count_of n) (λ k. performs (Command.Delete k))) s.old result s.new }
{
    of!(s, session, k = count_of(n) => delete(session, k))
}

#[tactic(auto, unfolding(crate::specs::Commands::performs_as))]
#[inline(always)]
fn backspace(session: &mut Session, k: RepeatCount) -> Answer
    ensures { performs (Command.Backspace k) session.old result session.new }
{
    answered(session.backspace(k))
}

pub fn lodvarn_backspace(s: &mut Handle, n: usize) -> i32
    ensures { Through (of_named (count_of n) (λ k. performs (Command.Backspace k))) s.old result s.new }
{
    of!(s, session, k = count_of(n) => backspace(session, k))
}

#[tactic(auto, unfolding(crate::specs::Commands::deletes_by, crate::specs::Commands::performs_as))]
fn delete_by(session: &mut Session, m: &Movement) -> Answer
    ensures { deletes_by m.now session.old result session.new }
{
    if !can_delete_by(m) {
        return Answer::NoSuchNumber;
    }
    answered(session.delete_by(m))
}

// Deletes what lies between the cursor and where a text was found.
#[tactic(auto, unfolding(crate::specs::Commands::performs_as))]
fn delete_to(session: &mut Session, found: Option<usize>) -> Answer
    ensures { deletes (To found) session.old result session.new }
{
    match span(session.line().pos(), found) {
        Some(range) => done(session.delete_range(range.start, range.end)),
        None => {
            end_kills(session);
            Answer::Nothing
        }
    }
}

#[tactic(auto, unfolding(crate::specs::Reach::of_reach))]
fn delete_reached(session: &mut Session, movement: CMovement) -> Answer
    ensures { of_reach movement.entry deletes session.old result session.new }
{
    match reach_of(session, session.line().pos(), movement) {
        Ok(Reach::By(m)) => delete_by(session, &m),
        Ok(Reach::To(found)) => delete_to(session, found),
        Err(why) => why,
    }
}

pub fn lodvarn_delete_by(s: &mut Handle, movement: CMovement) -> i32
    ensures { Through (of_reach movement.entry deletes) s.old result s.new }
{
    of!(s, session => delete_reached(session, movement))
}

#[tactic(auto, unfolding(crate::specs::Commands::performs_as))]
pub fn lodvarn_transpose_chars(s: &mut Handle) -> i32
    ensures { Through (performs Command.TransposeChars) s.old result s.new }
{
    of!(s, session => answered(session.transpose_chars()))
}

#[tactic(auto, unfolding(crate::specs::Commands::performs_as))]
fn transpose_words(session: &mut Session, k: RepeatCount) -> Answer
    ensures { performs (Command.TransposeWords k) session.old result session.new }
{
    answered(session.transpose_words(k))
}

pub fn lodvarn_transpose_words(s: &mut Handle, n: usize) -> i32
    ensures { Through (of_named (count_of n) (λ k. performs (Command.TransposeWords k))) s.old result s.new }
{
    of!(s, session, k = count_of(n) => transpose_words(session, k))
}

#[tactic(auto, unfolding(crate::specs::Commands::performs_as))]
fn change_case(session: &mut Session, action: WordAction) -> Answer
    ensures { performs (Command.EditWord action) session.old result session.new }
{
    answered(session.edit_word(action))
}

pub fn lodvarn_change_case(s: &mut Handle, to: u32) -> i32
    ensures { Through (of_named (case_of to) (λ action. performs (Command.EditWord action))) s.old result s.new }
{
    of!(s, session, action = case_of(to) => change_case(session, action))
}

#[tactic(auto, unfolding(crate::specs::Commands::performs_as))]
pub fn lodvarn_undo_boundary(s: &mut Handle) -> i32
    ensures { Through (performs Command.Part) s.old result s.new }
{
    of!(s, session => done(session.part()))
}

#[tactic(auto, unfolding(crate::specs::Commands::performs_as))]
fn indent(session: &mut Session, m: &Movement, amount: u8, dedent: bool) -> Answer
    ensures { performs (Command.Indent m.now amount dedent) session.old result session.new }
{
    answered(session.indent(m, amount, dedent))
}

pub fn lodvarn_indent(s: &mut Handle, movement: CMovement, amount: usize, indentation: u32) -> i32
    ensures { Through (of_named (movement_of movement.entry) (λ m. of_named (amount_of amount) (λ k. of_named (dedents_of indentation) (λ dedent. performs (Command.Indent m k dedent))))) s.old result s.new }
{
    of!(s, session, m = movement_of(movement), k = amount_of(amount), dedent = dedents_of(indentation) => indent(session, &m, k, dedent))
}

#[tactic(auto, unfolding(crate::specs::Commands::performs_as))]
pub fn lodvarn_begin_group(s: &mut Handle) -> i32
    ensures { Through (performs Command.Begin) s.old result s.new }
{
    of!(s, session => marked(session.begin()))
}

#[tactic(auto, unfolding(crate::specs::Commands::performs_as))]
pub fn lodvarn_end_group(s: &mut Handle) -> i32
    ensures { Through (performs Command.EndOne) s.old result s.new }
{
    of!(s, session => answered(session.end_one()))
}

#[tactic(auto, unfolding(crate::specs::Commands::performs_as))]
pub fn lodvarn_reopen_group(s: &mut Handle) -> i32
    ensures { Through (performs Command.Reopen) s.old result s.new }
{
    of!(s, session => answered(session.reopen()))
}

#[tactic(auto, unfolding(crate::specs::Commands::performs_as))]
pub fn lodvarn_abandon_group(s: &mut Handle) -> i32
    ensures { Through (performs Command.Abandon) s.old result s.new }
{
    of!(s, session => answered(session.abandon()))
}

#[tactic(auto, unfolding(crate::specs::Commands::performs_as))]
pub fn lodvarn_end_all_groups(s: &mut Handle) -> i32
    ensures { Through (performs Command.End) s.old result s.new }
{
    of!(s, session => answered(session.end()))
}

#[tactic(auto, unfolding(crate::specs::Commands::performs_as))]
#[inline(always)]
fn undo(session: &mut Session, k: RepeatCount) -> Answer
    ensures { performs (Command.Undo k) session.old result session.new }
{
    answered(session.undo(k))
}

pub fn lodvarn_undo(s: &mut Handle, n: usize) -> i32
    ensures { Through (of_named (count_of n) (λ k. performs (Command.Undo k))) s.old result s.new }
{
    of!(s, session, k = count_of(n) => undo(session, k))
}

#[tactic(auto, unfolding(crate::specs::Commands::performs_as))]
pub fn lodvarn_redo(s: &mut Handle) -> i32
    ensures { Through (performs Command.Redo) s.old result s.new }
{
    of!(s, session => answered(session.redo()))
}

#[tactic(auto, unfolding(crate::specs::Commands::performs_as))]
pub fn lodvarn_truncate(s: &mut Handle, entries: usize) -> i32
    ensures { Through (performs (Command.Truncate entries)) s.old result s.new }
{
    of!(s, session => done(session.truncate(entries)))
}

#[tactic(auto, unfolding(crate::specs::Commands::performs_text))]
fn paste(session: &mut Session, t: &str, k: RepeatCount) -> Answer
    ensures { performs_text told t.now (paste_of k) session.old result session.new }
{
    inserted(Answer::Nothing, session.paste(t, k))
}

fn paste_bytes(session: &mut Session, text: &[u8], k: RepeatCount) -> Answer
    ensures { performs_with_as told text.now (paste_of k) session.old result session.new }
{
    match text_of(text) {
        Ok(t) => paste(session, t, k),
        Err(why) => why,
    }
}

pub fn lodvarn_paste(s: &mut Handle, text: &[u8], n: usize) -> i32
    ensures { Through (of_named (count_of n) (λ k. performs_with text.now (paste_of k))) s.old result s.new }
{
    of!(s, session, k = count_of(n) => paste_bytes(session, text, k))
}

#[tactic(auto, unfolding(crate::specs::Commands::performs_text))]
fn set_text(session: &mut Session, pos: usize, t: &str) -> Answer
    ensures { performs_text told t.now (update_of pos) session.old result session.new }
{
    done(session.update(t, pos))
}

fn set_text_bytes(session: &mut Session, pos: usize, text: &[u8]) -> Answer
    ensures { performs_with_as told text.now (update_of pos) session.old result session.new }
{
    match text_of(text) {
        Ok(t) => set_text(session, pos, t),
        Err(why) => why,
    }
}

pub fn lodvarn_set_text(s: &mut Handle, pos: usize, text: &[u8]) -> i32
    ensures { Through (performs_with text.now (update_of pos)) s.old result s.new }
{
    of!(s, session => set_text_bytes(session, pos, text))
}

#[tactic(auto, unfolding(crate::specs::Commands::performs_text))]
fn insert_at(session: &mut Session, place: usize, t: &str) -> Answer
    ensures { performs_text told_place t.now (insertion_of place) session.old result session.new }
{
    inserted_there(session.insert_str(place, t))
}

fn insert_at_bytes(session: &mut Session, place: usize, text: &[u8]) -> Answer
    ensures { performs_with_as told_place text.now (insertion_of place) session.old result session.new }
{
    match text_of(text) {
        Ok(t) => insert_at(session, place, t),
        Err(why) => why,
    }
}

pub fn lodvarn_insert_at(s: &mut Handle, place: usize, text: &[u8]) -> i32
    ensures { Through (performs_with_as told_place text.now (insertion_of place)) s.old result s.new }
{
    of!(s, session => insert_at_bytes(session, place, text))
}

#[tactic(auto, unfolding(crate::specs::Commands::performs_text))]
fn replace(session: &mut Session, range: CRange, t: &str) -> Answer
    ensures { performs_text told t.now (replacement_of range) session.old result session.new }
{
    done(session.replace(range.from, range.to, t))
}

fn replace_bytes(session: &mut Session, range: CRange, text: &[u8]) -> Answer
    ensures { performs_with_as told text.now (replacement_of range) session.old result session.new }
{
    match text_of(text) {
        Ok(t) => replace(session, range, t),
        Err(why) => why,
    }
}

pub fn lodvarn_replace(s: &mut Handle, range: CRange, text: &[u8]) -> i32
    ensures { Through (performs_with text.now (replacement_of range)) s.old result s.new }
{
    of!(s, session => replace_bytes(session, range, text))
}
