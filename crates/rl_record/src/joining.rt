//! Changes that join: each call takes an event in if it joins the change, and answers what may be told of it then, or None
//! if it does not. What was joined has no cursors yet.
ghost use Rattle.std.specs.Prelude.{◌≡◌, IfOk, IfErr, true, ◌↔◌, None};
ghost use Rattle.rl_base.specs.Event.{InsertChar, Delete, Replace};
ghost use Rattle.rl_base.specs.declared.listeners.Direction.TheVariants.{Forward};
ghost use Rattle.rl_base.specs.declared.listeners.Refusal.TheVariants.{NoMemory};
ghost use Rattle.rl_line.specs.Entry.{entry_of};
ghost use Rattle.rl_record.specs.Entries.{TakesIn};
ghost use Rattle.rl_record.specs.Record.{is_parted, freshness_told, freshness_joined};

use rl_base::Refusal;
use rl_base::places::{is_alphanumeric, is_word_cluster};
use rl_line::change::{Change, Cursors, seldom};
use std::alloc::Global;

/// Whether the last change may still be told its cursors, and the next change may join it.
#[derive(Clone, Copy)]
pub(crate) enum Freshness {
    /// It may not be told them.
    Stale,
    /// Nor may the next change join it.
    Parted,
    /// It was added.
    Added,
    /// It was joined and had its cursors: it keeps the cursor before it.
    Joined(usize),
}

impl Freshness {
    /// Whether the next change joins nothing.
    #[inline(always)]
    pub(crate) fn is_parted(self) -> bool
        ensures { result ≡ is_parted self }
    {
        match self {
            Freshness::Parted => true,
            Freshness::Stale | Freshness::Added | Freshness::Joined(_) => false,
        }
    }

    /// Whether no cursors may be told any more.
    pub(crate) fn is_told(self) -> bool
        ensures { result ≡ true ↔ freshness_told self ≡ self }
    {
        match self {
            Freshness::Stale | Freshness::Parted => true,
            Freshness::Added | Freshness::Joined(_) => false,
        }
    }

    /// The freshness once no cursors may be told any more.
    #[inline(always)]
    pub(crate) fn told(self) -> Freshness
        ensures { result ≡ freshness_told self }
    {
        match self {
            Freshness::Parted => Freshness::Parted,
            Freshness::Stale | Freshness::Added | Freshness::Joined(_) => Freshness::Stale,
        }
    }

    // The freshness of a joined change. It loses its cursors, but keeps the one before it if they were told.
    #[inline(always)]
    fn of_joined(cursors: &mut Cursors) -> Freshness
        ensures fresh { result ≡ freshness_joined cursors.old }
        ensures cursors { cursors.new ≡ None }
    {
        match cursors.take() {
            Some((before, _)) => Freshness::Joined(before),
            None => Freshness::Stale,
        }
    }
}

/// An alphanumeric character that goes in right after what was inserted.
#[inline(always)]
pub(crate) fn join_char(
    change: &mut Change,
    alloc: Global,
    idx: usize,
    c: char,
) -> Result<Option<Freshness>, Refusal>
    ensures ok { IfOk result (λ fresh. TakesIn (InsertChar idx c) (entry_of change.old) (entry_of change.new) fresh) }
    ensures err { IfErr result (λ r. (r ≡ NoMemory) × (entry_of change.new ≡ entry_of change.old)) }
{
    match change {
        Change::Insert(cursors, at, text) => {
            if !is_alphanumeric(c) || !text.push_at(alloc, *at, idx, c)? {
                seldom();
                return Ok(None);
            }
            Ok(Some(Freshness::of_joined(cursors)))
        }
        Change::Begin | Change::End | Change::Delete(_, _, _) | Change::Replace(_, _, _) => {
            seldom();
            Ok(None)
        }
    }
}

/// An alphanumeric cluster that stood right after what was deleted, or right before it.
pub(crate) fn join_deletion(
    change: &mut Change,
    idx: usize,
    string: &str,
) -> Result<Option<Freshness>, Refusal>
    ensures ok { IfOk result (λ fresh. TakesIn (Delete idx string.now Forward) (entry_of change.old) (entry_of change.new) fresh) }
    ensures err { IfErr result (λ r. (r ≡ NoMemory) × (entry_of change.new ≡ entry_of change.old)) }
{
    match change {
        Change::Delete(cursors, at, text) => {
            if !is_word_cluster(string) {
                return Ok(None);
            }
            let taken = if *at == idx {
                text.push_back(string)
            } else if idx.checked_add(string.len()) == Some(*at) {
                text.push_front(string)
            } else {
                return Ok(None);
            };
            taken?;
            *at = idx;
            Ok(Some(Freshness::of_joined(cursors)))
        }
        Change::Begin | Change::End | Change::Insert(_, _, _) | Change::Replace(_, _, _) => Ok(
            None,
        ),
    }
}

/// A replacement right after what was put in.
pub(crate) fn join_replacement(
    change: &mut Change,
    idx: usize,
    old: &str,
    new: &str,
) -> Result<Option<Freshness>, Refusal>
    ensures ok { IfOk result (λ fresh. TakesIn (Replace idx old.now new.now) (entry_of change.old) (entry_of change.new) fresh) }
    ensures err { IfErr result (λ r. (r ≡ NoMemory) × (entry_of change.new ≡ entry_of change.old)) }
{
    match change {
        Change::Replace(cursors, at, texts) => {
            if at.checked_add(texts.after.len()) != Some(idx) {
                return Ok(None);
            }
            texts.before.reserve(old.len())?;
            texts.after.push_str(new)?;
            match texts.before.push_str(old) {
                Ok(()) => {}
                Err(_) => unreachable!(),
            }
            Ok(Some(Freshness::of_joined(cursors)))
        }
        Change::Begin | Change::End | Change::Insert(_, _, _) | Change::Delete(_, _, _) => Ok(None),
    }
}
