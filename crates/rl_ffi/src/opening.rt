//! The calls that open and close a session, choose its options, and begin anew in it.
ghost use Rattle.std.specs.Prelude.{◌≡◌, None};
ghost use Rattle.rl_session.specs.State.{State, saved_now};
ghost use Rattle.rl_ffi.specs.Calls.{Answers, Tells, Through, becomes, of_named};
ghost use Rattle.rl_ffi.specs.Opening.{Opens, OpensSession, chooses, options_shape, restarts, settings_of};
ghost use Rattle.rl_ffi.specs.declared.answers.Answer.TheVariants.{Done};

use crate::answers::{Answer, of_fault};
use crate::handle::{Handle, given, of};
use crate::numbers::{mode_number, mode_of, unit_of};
use crate::shapes::COptions;
use crate::texts::text_of;
use rl_base::NewKill;
use rl_session::{Bound, Options, Session, Settings};
use std::alloc::Global;

// The session that a handle holds from now on, unless memory is out.
pub(crate) fn open(alloc: Global, handle: &mut Handle, session: Session) -> Answer
    ensures { Opens session result handle.old handle.new }
{
    match Box::new(alloc, session) {
        Ok(boxed) => {
            handle.hold(boxed);
            Answer::Done
        }
        Err(_) => Answer::NoMemory,
    }
}

// All that may be chosen of a session. New kills go after the newest text of the ring.
fn settings_of(options: &COptions) -> Result<Settings, Answer>
    ensures { result ≡ settings_of options.now }
{
    Ok(Settings {
        limit: options.limit,
        ring_size: options.ring_size,
        new_kill: NewKill::AfterNewest,
        options: Options {
            mode: mode_of(options.mode)?,
            prompt: unit_of(options.prompt)?,
            bound: Bound {
                entries: options.max_entries,
                bytes: options.max_bytes,
                ring_bytes: options.max_ring_bytes,
            },
            keeps: options.keep_undone,
        },
    })
}

/// Opens a session on a text, as `lodvarn_open` says.
pub fn rl_open_session(alloc: Global, handle: &mut Handle, options: &COptions, text: &[u8]) -> i32
    ensures { Answers (OpensSession options.now text.now) result handle.old handle.new }
{
    let settings = given!(settings_of(options));
    let text = given!(text_of(text));
    match Session::open(alloc, text, text.len(), &settings) {
        Ok(session) => open(alloc, handle, session).number(),
        Err(why) => of_fault(why).number(),
    }
}

/// Closes what the handle holds.
pub fn rl_close(handle: &mut Handle)
    ensures { handle.new ≡ None }
{
    *handle = Handle::closed();
}

#[tactic(auto, unfolding(crate::specs::Opening::chooses))]
fn choose(session: &mut Session, settings: &Settings) -> Answer
    ensures { chooses settings.now session.old result session.new }
{
    match session.set_settings(settings) {
        Ok(()) => Answer::Done,
        Err(why) => of_fault(why),
    }
}

/// Chooses a session's options, as `lodvarn_set_options` says.
pub fn rl_set_options(s: &mut Handle, options: &COptions) -> i32
    ensures { Through (of_named (settings_of options.now) chooses) s.old result s.new }
{
    of!(s, session, settings = settings_of(options) => choose(session, &settings))
}

/// Writes a session's options, as `lodvarn_get_options` says.
pub fn rl_get_options(s: &mut Handle, options: &mut COptions) -> i32
    ensures { Tells (λ (s : State) n out out'. (n ≡ Done) × (out' ≡ options_shape out.size s)) s.old result s.new options.old options.new }
{
    of!(s, session => {
        let chosen = session.settings();
        *options = COptions {
            size: options.size,
            limit: chosen.limit,
            max_entries: chosen.options.bound.entries,
            max_bytes: chosen.options.bound.bytes,
            ring_size: chosen.ring_size,
            max_ring_bytes: chosen.options.bound.ring_bytes,
            prompt: usize::from(chosen.options.prompt),
            mode: mode_number(chosen.options.mode),
            keep_undone: chosen.options.keeps,
        };
        Answer::Done
    })
}

pub fn lodvarn_mark_saved(s: &mut Handle) -> i32
    ensures { Through (becomes saved_now) s.old result s.new }
{
    of!(s, session => {
        session.set_saved();
        Answer::Done
    })
}

pub fn lodvarn_restart(s: &mut Handle, text: &[u8]) -> i32
    ensures { Through (restarts text.now) s.old result s.new }
{
    of!(s, session, t = text_of(text) => match session.restart(t, t.len()) {
        Ok(()) => Answer::Done,
        Err(why) => of_fault(why),
    })
}
