//! What is counted of a record's entries, so that no command counts over all of them to see whether its oldest units go.
ghost use Rattle.std.specs.Prelude.{◌≡◌, ◌+◌, ◌-◌, ◌≤◌, ◌<◌, length, map, min, nat_le, set, take, true};
ghost use Rattle.rl_line.specs.Entry.{End, entry_of, new_text, old_text};
ghost use Rattle.rl_record.specs.Forgetting.{bytes_held};

use rl_line::change::{Change, Way};

/// What was counted of recorded entries. It never holds of the last one, which may still be joined.
#[derive(Clone, Copy)]
pub(crate) struct Tally {
    /// The first `counted` entries hold `held` bytes.
    pub(crate) counted: usize,
    pub(crate) held: usize,
    /// The first `opened` entries, without those that are forgotten, begin with a group that none of them closes.
    pub(crate) opened: usize,
}

impl Tally {
    /// Whether it holds of fewer than `len` entries.
    #[inline(always)]
    pub(crate) fn is_below(self, len: usize) -> bool
        ensures { result ≡ true → (self.counted < len) × (self.opened < len) }
    {
        self.counted < len && self.opened < len
    }

    /// Whether only the last of the entries is not counted, and all hold no more than `bytes`.
    #[inline(always)]
    pub(crate) fn fits_with_last(self, entries: &[Change], bytes: usize) -> bool
        requires { bytes_held (take self.counted (map entry_of entries.now)) ≡ self.held }
        ensures { result ≡ true → bytes_held (map entry_of entries.now) ≤ bytes }
    {
        let held = self.held;
        if held > bytes {
            return false;
        }
        let at = self.counted;
        let left = entries.len().saturating_sub(at);
        if left == 1 {
            return size(&entries[at]) <= bytes - held;
        }
        false
    }

    /// What holds of no more than the first `len` entries. Mostly that is all.
    pub(crate) fn within(self, entries: &[Change], len: usize) -> Tally
        requires within { self.counted ≤ length entries.now }
        requires held { bytes_held (take self.counted (map entry_of entries.now)) ≡ self.held }
        ensures counted { result.counted ≡ min self.counted len }
        ensures held { bytes_held (take result.counted (map entry_of entries.now)) ≡ result.held }
        ensures opened { result.opened ≡ min self.opened len }
    {
        if self.counted <= len && self.opened <= len {
            return self;
        }
        self.taken_off(entries, len)
    }

    // Takes off what the entries after the first `len` hold.
    #[cold]
    #[inline(never)]
    fn taken_off(self, entries: &[Change], len: usize) -> Tally
        requires within { self.counted ≤ length entries.now }
        requires held { bytes_held (take self.counted (map entry_of entries.now)) ≡ self.held }
        ensures counted { result.counted ≡ min self.counted len }
        ensures held { bytes_held (take result.counted (map entry_of entries.now)) ≡ result.held }
        ensures opened { result.opened ≡ min self.opened len }
    {
        let mut counted = self.counted;
        let mut held = self.held;
        while counted > len {
            counted -= 1;
            held -= size(&entries[counted]);
        }
        Tally {
            counted,
            held,
            opened: self.opened.min(len),
        }
    }

    /// What holds once the first entry that is left is an End, the one at `at`. Whether a group is open is looked at anew.
    pub(crate) fn without(self, entries: &[Change], at: usize) -> Tally
        requires at { at < length entries.now }
        requires within { self.counted ≤ length entries.now }
        requires held { bytes_held (take self.counted (map entry_of entries.now)) ≡ self.held }
        ensures counted { result.counted ≡ self.counted }
        ensures held { bytes_held (take self.counted (set (map entry_of entries.now) at End)) ≡ result.held }
        ensures opened { result.opened ≡ 0 }
    {
        let counted = self.counted;
        if counted <= at {
            return Tally {
                counted,
                held: self.held,
                opened: 0,
            };
        }
        Tally {
            counted,
            held: self.held - size(&entries[at]),
            opened: 0,
        }
    }
}

/// Whether the entries hold no more than `bytes`. It counts on from where the tally ends, up to the last of them.
pub(crate) fn hold_at_most(entries: &[Change], tally: &mut Tally, bytes: usize) -> bool
    requires within { tally.old.counted ≤ length entries.now - 1 }
    requires held { bytes_held (take tally.old.counted (map entry_of entries.now)) ≡ tally.old.held }
    ensures answer { result ≡ nat_le (bytes_held (map entry_of entries.now)) bytes }
    ensures within { tally.new.counted ≤ length entries.now - 1 }
    ensures held { bytes_held (take tally.new.counted (map entry_of entries.now)) ≡ tally.new.held }
    ensures opened { tally.new.opened ≡ tally.old.opened }
{
    let mut at = tally.counted;
    let mut held = tally.held;
    if held > bytes {
        return false;
    }
    while at < entries.len() {
        tally.counted = at;
        tally.held = held;
        let more = size(&entries[at]);
        let left = bytes - held;
        if more > left {
            return false;
        }
        held += more;
        at += 1;
    }
    true
}

// How many bytes of text an entry holds.
#[inline(always)]
fn size(entry: &Change) -> usize
    ensures { result ≡ length (old_text (entry_of entry.now)) + length (new_text (entry_of entry.now)) }
{
    let (new, old) = entry.texts(Way::Back);
    old.len() + new.len()
}
