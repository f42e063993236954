//! What C holds: a session on the heap, or none, which is closed, and beside it the bytes that it saved last.
ghost use Rattle.std.specs.Prelude.{◌≡◌, Option, None, Some, option_map};
ghost use Rattle.rl_session.specs.State.{State};

use rl_session::Session;
use std::marker::Model;

/// What C holds. The session is an `Option`, so that one that is in a call can be out of it meanwhile. The bytes that were
/// saved last are kept, since they are lent; nothing reads them here.
#[derive(Drop)]
pub struct Handle {
    session: Option<Box<Session>>,
    saved: Option<Vec<u8>>,
}

impl Model for Handle {
    ghost Value = { Option State };

    ghost view = { λ h. option_map (λ b. b.value) h.session };
}

impl Handle {
    /// Holds nothing.
    #[inline(always)]
    pub fn closed() -> Handle
        ensures { result ≡ None }
    {
        Handle {
            session: None,
            saved: None,
        }
    }

    /// Holds a session from now on.
    #[inline(always)]
    pub fn hold(&mut self, session: Box<Session>)
        ensures { self.new ≡ Some session.value }
    {
        self.session = Some(session);
    }

    /// Keeps saved bytes until others are kept.
    pub fn keep_saved(&mut self, bytes: Vec<u8>)
        ensures { self.new ≡ self.old }
    {
        self.saved = Some(bytes);
    }

    /// Gives out the session that it holds, if any, and holds none.
    #[inline(always)]
    pub fn take(&mut self) -> Option<Box<Session>>
        ensures held { option_map (λ b. b.value) result ≡ self.old }
        ensures left { self.new ≡ None }
    {
        self.session.take()
    }
}

// What an expression answers of the session that the handle holds, which is out of it meanwhile: an answer, by its
// number, as is that there is no session; or anything, if another expression says what there is without a session.
// Names may stand before it for what numbers and bytes of C stand for; if one stands for nothing, the call returns why
// not. A macro, so that each call is inlined, and proved as it stands.
macro_rules! of {
    ($handle:ident, $session:ident => $answer:expr) => {
        of!($handle, $session => $answer.number(), Answer::Closed.number())
    };
    ($handle:ident, $session:ident => $found:expr, $closed:expr) => {
        match $handle.take() {
            Some(mut boxed) => {
                let $session = &mut *boxed;
                let found = $found;
                $handle.hold(boxed);
                found
            }
            None => $closed,
        }
    };
    ($handle:ident, $session:ident, $($name:ident = $given:expr),+ => $answer:expr) => {
        match $handle.take() {
            Some(mut boxed) => {
                $(let $name = match $given {
                    Ok(given) => given,
                    Err(why) => {
                        $handle.hold(boxed);
                        return why.number();
                    }
                };)+
                let $session = &mut *boxed;
                let answer = $answer.number();
                $handle.hold(boxed);
                answer
            }
            None => Answer::Closed.number(),
        }
    };
}

// The same of a call without a session.
macro_rules! given {
    ($given:expr) => {
        match $given {
            Ok(given) => given,
            Err(why) => return why.number(),
        }
    };
}

pub(crate) use given;
pub(crate) use of;
