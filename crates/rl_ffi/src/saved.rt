//! Saving a session, and opening one that was saved.
ghost use Rattle.rl_ffi.specs.Calls.{Answers, Tells};
ghost use Rattle.rl_ffi.specs.Saved.{OpensSaved, Saves};

use crate::answers::Answer;
use crate::handle::{Handle, of};
use crate::opening::open;
use crate::view::View;
use rl_base::{LoadFault, SaveFault};
use rl_session::Session;
use std::alloc::Global;

pub fn lodvarn_save(s: &mut Handle, view: &mut View) -> i32
    ensures { Tells Saves s.old result s.new view.old view.new }
{
    of!(s, session => match session.save() {
        Ok(bytes) => {
            *view = View::of(bytes.as_slice());
            s.keep_saved(bytes);
            Answer::Done
        }
        Err(SaveFault::NoMemory) => Answer::NoMemory,
        Err(SaveFault::TooLong) => Answer::NoRoom,
    })
}

/// Opens a session that was saved, as `lodvarn_load` says.
pub fn rl_load_session(alloc: Global, handle: &mut Handle, bytes: &[u8]) -> i32
    ensures { Answers (OpensSaved bytes.now) result handle.old handle.new }
{
    let answer = match Session::load(alloc, bytes) {
        Ok(session) => open(alloc, handle, session),
        Err(LoadFault::NoMemory) => Answer::NoMemory,
        Err(LoadFault::Unknown) => Answer::UnknownFormat,
        Err(LoadFault::Damaged) => Answer::Damaged,
    };
    answer.number()
}
