//! The reply to a command, made of what the call for it returns.
ghost use Rattle.std.specs.Prelude.{◌≡◌};
ghost use Rattle.rl_session.specs.Replies.{replied};
ghost use Rattle.rl_session.specs.declared.session.Reply.{Reply};

use crate::session::{Fault, Reply};

// The reply to a call that answers yes or no. Inlined, as that to an insertion is, since a reply often need not be made at all.
#[inline(always)]
pub(super) fn answered(outcome: Result<bool, Fault>) -> Reply
    ensures { result ≡ replied Reply.Answer outcome }
{
    match outcome {
        Ok(answer) => Reply::Answer(answer),
        Err(why) => Reply::Refused(why),
    }
}

// The reply to an insertion.
#[inline(always)]
pub(super) fn inserted(outcome: Result<Option<bool>, Fault>) -> Reply
    ensures { result ≡ replied Reply.Inserted outcome }
{
    match outcome {
        Ok(at_end) => Reply::Inserted(at_end),
        Err(why) => Reply::Refused(why),
    }
}

// The reply to a call that hands out a text.
pub(super) fn handed_out(outcome: Result<Option<String>, Fault>) -> Reply
    ensures { result ≡ replied Reply.Text outcome }
{
    match outcome {
        Ok(text) => Reply::Text(text),
        Err(why) => Reply::Refused(why),
    }
}

// The reply to a call that answers nothing.
pub(super) fn done(outcome: Result<(), Fault>) -> Reply
    ensures { result ≡ replied (λ _. Reply.Done) outcome }
{
    match outcome {
        Ok(()) => Reply::Done,
        Err(why) => Reply::Refused(why),
    }
}

// The reply to a call that says how many entries the record had.
pub(super) fn marked(outcome: Result<usize, Fault>) -> Reply
    ensures { result ≡ replied Reply.Mark outcome }
{
    match outcome {
        Ok(entries) => Reply::Mark(entries),
        Err(why) => Reply::Refused(why),
    }
}
