//! What an event makes of the entries: it joins the last one, or is added. Each call drops what was undone; refused, it
//! leaves every entry.
ghost use Rattle.std.specs.Prelude.{◌≡◌, ◌+◌, ◌<◌, ◌-◌, [], encode_utf8, length, true, false, None, IfOk, IfErr, OnOk, OnErr};
ghost use Rattle.rl_base.specs.Event.{InsertChar, InsertStr, Delete, Replace, Cursors};
ghost use Rattle.rl_base.specs.declared.listeners.Direction.TheVariants.{Forward};
ghost use Rattle.rl_base.specs.declared.listeners.Refusal.TheVariants.{NoMemory};
ghost use Rattle.rl_record.specs.declared.joining.Freshness.TheVariants.{Added, Parted, Stale};
ghost use Rattle.rl_line.specs.Entry.{Changed, Insertion, entry_of, is_change};
ghost use Rattle.rl_record.specs.Record.{IsApart, untold, freshness_told, kept_point, record_step};
ghost use Rattle.rl_record.specs.Entries.{Joins, added, settled};

use crate::entries::{Entries, keep, kept_point};
use crate::joining::{Freshness, join_char, join_deletion, join_replacement};
use rl_base::{Gathered, Refusal};
use rl_line::change::{Change, Texts, copied, seldom};
use rl_line::inserted::Inserted;

impl Entries {
    /// Records that a character was put in.
    #[inline(always)]
    #[tactic(auto, using(crate::proofs::Records::JoinLemmas::adds))]
    pub(crate) fn insert_char(&mut self, idx: usize, c: char) -> Result<(), Refusal>
        ensures done { OnOk result (self.new ≡ record_step self.old (InsertChar idx c)) }
        ensures err { IfErr result (λ r. (r ≡ NoMemory) × (self.new ≡ self.old)) }
    {
        if self.join_char(idx, c)? {
            return Ok(());
        }
        self.add_char(idx, c)?;
        Ok(())
    }

    // Adds an entry of a character. Cold, since a letter mostly joins.
    #[cold]
    #[inline(never)]
    fn add_char(&mut self, idx: usize, c: char) -> Result<(), Refusal>
        ensures done { OnOk result (self.new ≡ added (Changed Insertion (untold idx [] (encode_utf8 c))) Added self.old) }
        ensures err { IfErr result (λ r. (r ≡ NoMemory) × (self.new ≡ self.old)) }
    {
        let text = Inserted::of_char(c);
        self.add(Change::Insert(None, idx, text), Freshness::Added)?;
        Ok(())
    }

    /// Records that a text was put in.
    #[tactic(auto, using(crate::proofs::Records::JoinLemmas::adds))]
    pub(crate) fn insert_str(&mut self, idx: usize, string: &str) -> Result<(), Refusal>
        ensures done { OnOk result (self.new ≡ record_step self.old (InsertStr idx string.now)) }
        ensures err { IfErr result (λ r. (r ≡ NoMemory) × (self.new ≡ self.old) × (0 < length string.now)) }
    {
        if string.is_empty() {
            self.record_nothing();
            return Ok(());
        }
        let text = Inserted::of_str(self.allocator(), string)?;
        self.add(Change::Insert(None, idx, text), Freshness::Added)?;
        Ok(())
    }

    /// Records that a text was taken out, from whichever side of the cursor.
    #[tactic(auto, using(crate::proofs::Records::JoinLemmas::adds))]
    pub(crate) fn delete(&mut self, idx: usize, string: &str) -> Result<(), Refusal>
        ensures done { OnOk result (self.new ≡ record_step self.old (Delete idx string.now Forward)) }
        ensures err { IfErr result (λ r. (r ≡ NoMemory) × (self.new ≡ self.old) × (0 < length string.now)) }
    {
        if string.is_empty() {
            self.record_nothing();
            return Ok(());
        }
        if self.join_deletion(idx, string)? {
            return Ok(());
        }
        let text = Gathered::of(self.allocator(), string)?;
        self.add(Change::Delete(None, idx, text), Freshness::Added)?;
        Ok(())
    }

    /// Records that a text was replaced by another.
    #[tactic(auto, using(crate::proofs::Records::JoinLemmas::adds))]
    pub(crate) fn replace(&mut self, idx: usize, old: &str, new: &str) -> Result<(), Refusal>
        ensures done { OnOk result (self.new ≡ record_step self.old (Replace idx old.now new.now)) }
        ensures err { IfErr result (λ r. (r ≡ NoMemory) × (self.new ≡ self.old)) }
    {
        if self.join_replacement(idx, old, new)? {
            return Ok(());
        }
        let alloc = self.allocator();
        let before = copied(alloc, old)?;
        let after = copied(alloc, new)?;
        let texts = Box::new(alloc, Texts { before, after })?;
        self.add(Change::Replace(None, idx, texts), Freshness::Added)?;
        Ok(())
    }

    /// Tells the last recorded entry its cursors, if it may still be told them.
    #[inline(always)]
    pub(crate) fn tell(&mut self, before: usize, after: usize)
        ensures { self.new ≡ record_step self.old (Cursors before after) }
    {
        let first = match self.fresh {
            Freshness::Stale | Freshness::Parted => return,
            Freshness::Added => before,
            Freshness::Joined(first) => first,
        };
        self.fresh = Freshness::Stale;
        if self.recorded > 0 {
            self.list[self.recorded - 1].tell((first, after));
        }
    }

    // Joins an inserted character to the last recorded entry. Answers whether it does join.
    #[inline(always)]
    fn join_char(&mut self, idx: usize, c: char) -> Result<bool, Refusal>
        ensures ok { IfOk result (Joins (InsertChar idx c) self.old self.new) }
        ensures err { IfErr result (λ r. (r ≡ NoMemory) × (self.new ≡ self.old)) }
    {
        if self.recorded == 0 {
            seldom();
            return Ok(false);
        }
        if self.fresh.is_parted() {
            seldom();
            return Ok(false);
        }
        let alloc = self.allocator();
        let Some(fresh) = join_char(&mut self.list[self.recorded - 1], alloc, idx, c)? else {
            return Ok(false);
        };
        self.settle(fresh);
        Ok(true)
    }

    // The same of a deletion.
    fn join_deletion(&mut self, idx: usize, string: &str) -> Result<bool, Refusal>
        ensures ok { IfOk result (Joins (Delete idx string.now Forward) self.old self.new) }
        ensures err { IfErr result (λ r. (r ≡ NoMemory) × (self.new ≡ self.old)) }
    {
        if self.recorded == 0 {
            return Ok(false);
        }
        if self.fresh.is_parted() {
            return Ok(false);
        }
        let Some(fresh) = join_deletion(&mut self.list[self.recorded - 1], idx, string)? else {
            return Ok(false);
        };
        self.settle(fresh);
        Ok(true)
    }

    // The same of a replacement.
    fn join_replacement(&mut self, idx: usize, old: &str, new: &str) -> Result<bool, Refusal>
        ensures ok { IfOk result (Joins (Replace idx old.now new.now) self.old self.new) }
        ensures err { IfErr result (λ r. (r ≡ NoMemory) × (self.new ≡ self.old)) }
    {
        if self.recorded == 0 {
            return Ok(false);
        }
        if self.fresh.is_parted() {
            return Ok(false);
        }
        let Some(fresh) = join_replacement(&mut self.list[self.recorded - 1], idx, old, new)? else {
            return Ok(false);
        };
        self.settle(fresh);
        Ok(true)
    }

    /// Adds a change to the recorded entries. If it replaces an entry that was undone, there is room for it. Inlined, so
    /// that the change is built in place.
    #[inline(always)]
    pub(crate) fn add(&mut self, entry: Change, fresh: Freshness) -> Result<(), Refusal>
        requires { is_change (entry_of entry) ≡ true }
        ensures done { OnOk result (self.new ≡ added (entry_of entry) fresh self.old) }
        ensures err { IfErr result (λ r. (r ≡ NoMemory) × (self.new ≡ self.old)) }
        ensures full { OnErr result (self.old.pending ≡ []) }
    {
        if self.recorded < self.list.len() {
            self.list.truncate(self.recorded);
            self.saved = kept_point(self.saved, self.changes);
            match self.list.push(entry) {
                Ok(()) => {}
                Err(_) => unreachable!(),
            }
            self.recorded += 1;
            self.changes += 1;
            self.fresh = fresh;
            return Ok(());
        }
        self.list.push(entry)?;
        self.recorded += 1;
        self.changes += 1;
        self.fresh = fresh;
        Ok(())
    }

    // Drops what was undone. Mostly nothing was, and then it costs no call.
    #[inline(always)]
    fn settle(&mut self, fresh: Freshness)
        requires { IsApart (settled fresh self.old) }
        ensures { self.new ≡ settled fresh self.old }
    {
        keep(&mut self.list, &mut self.saved, self.recorded, self.changes);
        self.fresh = fresh;
    }

    // Drops what was undone, since an event came that records nothing.
    fn record_nothing(&mut self)
        ensures { self.new ≡ settled (freshness_told self.old.fresh) self.old }
    {
        self.settle(self.fresh.told());
    }
}
