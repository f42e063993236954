//! The calls that kill, yank and copy.
ghost use Rattle.std.specs.Prelude.{◌≡◌, IfSome, option_map};
ghost use Rattle.rl_base.specs.KillRing.{cleared};
ghost use Rattle.rl_line.specs.LineRanges.{IsRange};
ghost use Rattle.rl_line.specs.Ranges.{text_in};
ghost use Rattle.rl_session.specs.State.{State, with_ring};
ghost use Rattle.rl_session.specs.declared.session.Command.{Command};
ghost use Rattle.rl_ffi.specs.Answers.{told};
ghost use Rattle.rl_ffi.specs.Calls.{Through, ThroughOut, becomes, of_named};
ghost use Rattle.rl_ffi.specs.Commands.{performs, performs_text, performs_with, performs_with_as};
ghost use Rattle.rl_ffi.specs.KillRing.{copies, hands_out, kills, pops};
ghost use Rattle.rl_ffi.specs.Numbers.{count_of, direction_of};
ghost use Rattle.rl_ffi.specs.Reach.{of_reach};
ghost use Rattle.rl_ffi.specs.declared.reach.Reach.TheVariants.{To};

use crate::answers::{Answer, answered, done, inserted, truth};
use crate::buffers::put;
use crate::commands::end_kills;
use crate::handle::{Handle, of};
use crate::numbers::{count_of, direction_of};
use crate::reach::{Reach, covers, reach_of};
use crate::shapes::{CMovement, CRange};
use crate::texts::text_of;
use rl_base::{Direction, RepeatCount};
use rl_session::Session;
use std::ops::Range;

// Kills what lies between the cursor and where a text was found.
#[tactic(auto, unfolding(crate::specs::Commands::performs_as))]
fn kill_to(session: &mut Session, found: Option<usize>) -> Answer
    ensures { kills (To found) session.old result session.new }
{
    let pos = session.line().pos();
    let at = found.unwrap_or(pos);
    if at < pos {
        return answered(session.kill_range(at, pos, Direction::Backward));
    }
    answered(session.kill_range(pos, at, Direction::Forward))
}

#[tactic(auto, unfolding(crate::specs::Reach::of_reach, crate::specs::Commands::performs_as))]
fn kill(session: &mut Session, movement: CMovement) -> Answer
    ensures { of_reach movement.entry kills session.old result session.new }
{
    match reach_of(session, session.line().pos(), movement) {
        Ok(Reach::By(m)) => answered(session.kill(&m)),
        Ok(Reach::To(found)) => kill_to(session, found),
        Err(why) => why,
    }
}

pub fn lodvarn_kill(s: &mut Handle, movement: CMovement) -> i32
    ensures { Through (of_reach movement.entry kills) s.old result s.new }
{
    of!(s, session => kill(session, movement))
}

#[tactic(auto, unfolding(crate::specs::Commands::performs_as))]
fn kill_range(session: &mut Session, range: CRange, side: Direction) -> Answer
    ensures { performs (Command.KillRange range.from range.to side) session.old result session.new }
{
    answered(session.kill_range(range.from, range.to, side))
}

pub fn lodvarn_kill_range(s: &mut Handle, range: CRange, side: u32) -> i32
    ensures { Through (of_named (direction_of side) (λ side. performs (Command.KillRange range.from range.to side))) s.old result s.new }
{
    of!(s, session, side = direction_of(side) => kill_range(session, range, side))
}

#[tactic(auto, unfolding(crate::specs::Commands::performs_as))]
fn yank(session: &mut Session, k: RepeatCount) -> Answer
    ensures { performs (Command.Yank k) session.old result session.new }
{
    inserted(Answer::Nothing, session.yank(k))
}

pub fn lodvarn_yank(s: &mut Handle, n: usize) -> i32
    ensures { Through (of_named (count_of n) (λ k. performs (Command.Yank k))) s.old result s.new }
{
    of!(s, session, k = count_of(n) => yank(session, k))
}

#[tactic(auto, unfolding(crate::specs::Commands::performs_as))]
fn yank_pop(session: &mut Session) -> Answer
    ensures { pops session.old result session.new }
{
    let without = truth(session.ring().yank_size().is_some());
    inserted(without, session.yank_pop())
}

pub fn lodvarn_yank_pop(s: &mut Handle) -> i32
    ensures { Through pops s.old result s.new }
{
    of!(s, session => yank_pop(session))
}

pub fn lodvarn_ring_clear(s: &mut Handle) -> i32
    ensures { Through (becomes (λ (s : State). with_ring (cleared s.pair.ring) s)) s.old result s.new }
{
    of!(s, session => {
        session.clear_ring();
        Answer::Done
    })
}

#[tactic(auto, unfolding(crate::specs::Commands::performs_text))]
fn keep(session: &mut Session, t: &str) -> Answer
    ensures { performs_text told t.now Command.Keep session.old result session.new }
{
    done(session.keep(t))
}

fn keep_bytes(session: &mut Session, text: &[u8]) -> Answer
    ensures { performs_with_as told text.now Command.Keep session.old result session.new }
{
    match text_of(text) {
        Ok(t) => keep(session, t),
        Err(why) => why,
    }
}

pub fn lodvarn_ring_add(s: &mut Handle, text: &[u8]) -> i32
    ensures { Through (performs_with text.now Command.Keep) s.old result s.new }
{
    of!(s, session => keep_bytes(session, text))
}

// Copies a range, if there is one, and ends a run of kills.
fn copy(
    session: &mut Session,
    covered: Option<Range<usize>>,
    out: &mut [u8],
    len: &mut usize,
) -> Answer
    requires { IfSome covered (λ r. IsRange session.old.line.text r.start r.end) }
    ensures { hands_out (option_map (text_in session.old.line) covered) session.old result session.new (out.old, len.old) (out.new, len.new) }
{
    let Some(range) = covered else {
        end_kills(session);
        return Answer::Nothing;
    };
    let text = &session.line().as_str().as_bytes()[range.start..range.end];
    *len = text.len();
    if text.len() > out.len() {
        return Answer::TooSmall;
    }
    put(text, out);
    end_kills(session);
    Answer::Done
}

pub fn lodvarn_copy(s: &mut Handle, movement: CMovement, out: &mut [u8], len: &mut usize) -> i32
    ensures { ThroughOut (copies movement.entry) s.old result s.new (out.old, len.old) (out.new, len.new) }
{
    of!(s, session => {
        let pos = session.line().pos();
        match covers(session, pos, movement) {
            Ok(range) => copy(session, range, out, len),
            Err(why) => why,
        }
    })
}
