//! What a call answers.
ghost use Rattle.std.specs.Prelude.{◌≡◌};
ghost use Rattle.rl_session.specs.Replies.{replied};
ghost use Rattle.rl_session.specs.declared.session.Reply.{Reply};
ghost use Rattle.rl_ffi.specs.Answers.{merged, number, of_fault, of_watch_fault, placed, told, told_or, told_place, truth};

use rl_base::WatchFault;
use rl_session::Fault;

/// What a call answers: what it found or did, or why it was refused. `include/lodvarn.h` says what each means.
#[derive(Clone, Copy, Debug, PartialEq, Eq)]
pub(crate) enum Answer {
    Nothing = 0,
    Done = 1,
    DoneAtEnd = 2,
    NoMemory = -1,
    BadOffset = -2,
    BadYankSize = -3,
    NotReplaying = -4,
    NoRoom = -5,
    NotUtf8 = -6,
    NoSuchNumber = -7,
    TooSmall = -8,
    IsWatched = -9,
    Closed = -10,
    UnknownFormat = -11,
    Damaged = -12,
    BadSize = -13,
}

impl Answer {
    // Its number in `include/lodvarn.h`: below 0 if the call was refused.
    #[inline(always)]
    pub(crate) fn number(self) -> i32
        ensures { result ≡ number self }
    {
        self as i32
    }
}

/// How a call ended: it was done, or refused.
pub(crate) type Outcome = Result<Answer, Answer>;

// The answer of a call.
#[inline(always)]
pub(crate) fn merged(outcome: Outcome) -> Answer
    ensures { result ≡ merged outcome }
{
    match outcome {
        Ok(answer) => answer,
        Err(answer) => answer,
    }
}

// Whether there was something to do.
pub(crate) fn truth(found: bool) -> Answer
    ensures { result ≡ truth found }
{
    if found { Answer::Done } else { Answer::Nothing }
}

// An insertion is done: whether at the end.
pub(crate) fn placed(at_end: bool) -> Answer
    ensures { result ≡ placed at_end }
{
    if at_end {
        Answer::DoneAtEnd
    } else {
        Answer::Done
    }
}

pub(crate) fn of_fault(fault: Fault) -> Answer
    ensures { result ≡ of_fault fault }
{
    match fault {
        Fault::NoMemory => Answer::NoMemory,
        Fault::BadPlace => Answer::BadOffset,
        Fault::BadYankSize => Answer::BadYankSize,
        Fault::NotReplaying => Answer::NotReplaying,
        Fault::TooLong => Answer::NoRoom,
    }
}

pub(crate) fn of_watch_fault(fault: WatchFault) -> Answer
    ensures { result ≡ of_watch_fault fault }
{
    match fault {
        WatchFault::NoMemory => Answer::NoMemory,
        WatchFault::NoRoom => Answer::NoSuchNumber,
        WatchFault::IsWatched => Answer::IsWatched,
    }
}

// What a command answers that says nothing. Inlined, as those below are, so that what a command returns need not be made.
#[inline(always)]
pub(crate) fn done(outcome: Result<(), Fault>) -> Answer
    ensures { result ≡ told (replied (λ _. Reply.Done) outcome) }
{
    match outcome {
        Ok(()) => Answer::Done,
        Err(why) => of_fault(why),
    }
}

// One that says yes or no.
#[inline(always)]
pub(crate) fn answered(outcome: Result<bool, Fault>) -> Answer
    ensures { result ≡ told (replied Reply.Answer outcome) }
{
    match outcome {
        Ok(answer) => truth(answer),
        Err(why) => of_fault(why),
    }
}

// An insertion at the cursor; the first argument is the answer if nothing went in.
#[inline(always)]
pub(crate) fn inserted(without: Answer, outcome: Result<Option<bool>, Fault>) -> Answer
    ensures { result ≡ told_or without (replied Reply.Inserted outcome) }
{
    match outcome {
        Ok(Some(at_end)) => placed(at_end),
        Ok(None) => without,
        Err(why) => of_fault(why),
    }
}

// An insertion at a place.
pub(crate) fn inserted_there(outcome: Result<bool, Fault>) -> Answer
    ensures { result ≡ told_place (replied Reply.Answer outcome) }
{
    match outcome {
        Ok(at_end) => placed(at_end),
        Err(why) => of_fault(why),
    }
}

// One that hands out a text.
pub(crate) fn handed_out(outcome: Result<Option<String>, Fault>) -> Answer
    ensures { result ≡ told (replied Reply.Text outcome) }
{
    match outcome {
        Ok(text) => truth(text.is_some()),
        Err(why) => of_fault(why),
    }
}

// One that says how many entries the record had.
pub(crate) fn marked(outcome: Result<usize, Fault>) -> Answer
    ensures { result ≡ told (replied Reply.Mark outcome) }
{
    match outcome {
        Ok(_) => Answer::Done,
        Err(why) => of_fault(why),
    }
}
