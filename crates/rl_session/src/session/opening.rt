//! Opening a session, beginning anew in it, and setting what was chosen then.
ghost use Rattle.std.specs.Prelude.{◌≡◌, ◌<◌, ◌≤◌, [], List, ℕ, max, length, false, IfOk, IfErr, OnErr, OnOk};
ghost use Rattle.std.specs.Str.{IsCharBoundary};
ghost use Rattle.rl_base.specs.KillRing.{cleared};
ghost use Rattle.rl_line.specs.Line.{NeedsRoom};
ghost use Rattle.rl_session.specs.Forgetting.{within_bound};
ghost use Rattle.rl_session.specs.Settings.{as_new};
ghost use Rattle.rl_session.specs.State.{Begins, ChangedFrom, Opens, OpensWithin, RefusesRestart, Replays, ReportedFrom, fresh, restarted, set_to, settings_of, told_anew, with_ring};

use crate::pair::Pair;
use crate::session::{Fault, Session};
use crate::settings::Settings;
use rl_base::{GraphemeClusterMode, KillRing, NoListener, Watch};
use rl_line::LineBuffer;
use rl_record::Changeset;
use std::alloc::Global;

// Puts a text into an empty line, with the cursor at a place.
pub(super) fn filled(line: LineBuffer, text: &str, pos: usize) -> Result<LineBuffer, Fault>
    requires empty { line ≡ record { text = []; cursor = 0; limit = line.limit; grow = false } }
    requires place { IsCharBoundary text.now pos }
    ensures ok { IfOk result (λ made. made ≡ record { text = text.now; cursor = pos; limit = max line.limit (length text.now); grow = false }) }
    ensures err { IfErr result (λ f. (f ≡ Fault.NoMemory) × (0 < length text.now)) }
{
    let mut line = line;
    match line.insert_str(0, text, &mut NoListener) {
        Ok(_) => {
            line.set_pos(pos);
            Ok(line)
        }
        Err(_) => Err(Fault::NoMemory),
    }
}

// Puts a text in the place of a line's, with the cursor at a place, and tells the watch.
fn renew(line: &mut LineBuffer, text: &str, pos: usize, watch: &mut Watch) -> Result<(), Fault>
    requires { IsCharBoundary text.now pos }
    ensures line { OnOk result (line.new ≡ record line.old { text = text.now; cursor = pos; limit = max line.old.limit (length text.now) }) }
    ensures told { OnOk result (watch.new ≡ told_anew text.now line.old watch.old) }
    ensures err { IfErr result (λ f. (f ≡ Fault.NoMemory) × NeedsRoom line.old.text text.now) }
    ensures kept { OnErr result ((line.new ≡ line.old) × (watch.new ≡ watch.old)) }
{
    // So the proof knows that this is UTF-8.
    let _pos = line.pos();
    let end = line.len();
    match line.replace(0..end, text, watch) {
        Ok(()) => {
            line.set_pos(pos);
            Ok(())
        }
        Err(_) => Err(Fault::NoMemory),
    }
}

impl Session {
    /// A session on a text, with the cursor at the byte place `pos`. Its line has the limit `limit`, in bytes,
    /// or the text's length if that is greater, and may not grow; its ring has room for `ring_size` texts;
    /// `mode` says how columns are counted. `BadPlace` comes exactly if `pos` is no boundary: a place between
    /// two characters, or an end of the text. `NoMemory` comes only if the limit or the text's length is above 0.
    pub fn new(
        alloc: Global,
        text: &str,
        pos: usize,
        limit: usize,
        ring_size: usize,
        mode: GraphemeClusterMode,
    ) -> Result<Self, Fault>
        ensures opens { Opens text.now pos (as_new limit ring_size mode) result }
        ensures replays { IfOk result (Replays text.now) }
        ensures begins { IfOk result (Begins text.now) }
        ensures changed { IfOk result (ChangedFrom text.now) }
    {
        if !text.is_char_boundary(pos) {
            return Err(Fault::BadPlace);
        }
        let settings = Settings::new(limit, ring_size, mode);
        match LineBuffer::with_capacity(alloc, limit) {
            Ok(line) => Session::on(alloc, line, text, pos, &settings),
            Err(_) => Err(Fault::NoMemory),
        }
    }

    /// A session on a text, with the cursor at the byte place `pos`, and with these settings. It has room for the text alone:
    /// the line asks for more when it needs it, so the limit may be any number. `BadPlace` comes exactly if `pos` is no
    /// boundary of the text, `TooLong` exactly if else the text is longer than the limit, and `NoMemory` only if the text is
    /// not empty.
    pub fn open(alloc: Global, text: &str, pos: usize, settings: &Settings) -> Result<Self, Fault>
        ensures opens { OpensWithin text.now pos settings.now result }
        ensures replays { IfOk result (Replays text.now) }
        ensures begins { IfOk result (Begins text.now) }
        ensures changed { IfOk result (ChangedFrom text.now) }
    {
        if !text.is_char_boundary(pos) {
            return Err(Fault::BadPlace);
        }
        if text.len() > settings.limit {
            return Err(Fault::TooLong);
        }
        let line = LineBuffer::with_limit(alloc, settings.limit);
        Session::on(alloc, line, text, pos, settings)
    }

    // The session on an empty line, once the text was put into it.
    fn on(
        alloc: Global,
        line: LineBuffer,
        text: &str,
        pos: usize,
        settings: &Settings,
    ) -> Result<Self, Fault>
        requires empty { line ≡ record { text = []; cursor = 0; limit = settings.now.limit; grow = false } }
        requires place { IsCharBoundary text.now pos }
        ensures ok { IfOk result (λ s. s ≡ fresh text.now pos settings.now) }
        ensures replays { IfOk result (Replays text.now) }
        ensures begins { IfOk result (Begins text.now) }
        ensures changed { IfOk result (ChangedFrom text.now) }
        ensures err { IfErr result (λ f. (f ≡ Fault.NoMemory) × (0 < length text.now)) }
    {
        let line = filled(line, text, pos)?;
        let mut ring = KillRing::new(alloc, settings.ring_size);
        ring.set_new_kill(settings.new_kill);
        let session = Session {
            line,
            pair: Pair {
                ring,
                changes: Changeset::new(alloc),
                watch: Watch::new(),
            },
            options: settings.options,
            alloc,
        };
        session.stands();
        session.bounded();
        Ok(session)
    }

    /// Begins anew with a text, with the cursor at the byte place `pos`, as an editor does with the next line: nothing is
    /// recorded yet, and the ring keeps its slots, so what was killed before can be yanked. A kill begins a new slot, and
    /// nothing was yanked last. What tells of changes tells of this one too: all the old text gave way to the new one.
    /// Refused, it changes nothing: `BadPlace` comes exactly if `pos` is no boundary of the text, `TooLong` exactly if else
    /// the text is longer than the limit, and `NoMemory` only if the text needs more room than the old one.
    pub fn restart(&mut self, text: &str, pos: usize) -> Result<(), Fault>
        ensures ok { OnOk result (IsCharBoundary text.now pos × (self.new ≡ restarted text.now pos self.old)) }
        ensures begins { OnOk result (Begins text.now self.new) }
        ensures within { OnOk result (length text.now ≤ self.old.line.limit) }
        ensures changed { (asked : List ℕ) → ChangedFrom asked self.old → ChangedFrom asked self.new }
        ensures reported { (read : List ℕ) → ReportedFrom read self.old → ReportedFrom read self.new }
        ensures err { IfErr result (λ fault. RefusesRestart fault text.now pos self.old × (self.new ≡ self.old)) }
    {
        self.stands();
        self.bounded();
        if !text.is_char_boundary(pos) {
            return Err(Fault::BadPlace);
        }
        if text.len() > self.line.limit() {
            return Err(Fault::TooLong);
        }
        renew(&mut self.line, text, pos, &mut self.pair.watch)?;
        self.pair.ring.reset();
        self.pair.changes = Changeset::new(self.alloc);
        self.stands();
        self.bounded();
        Ok(())
    }

    /// What is chosen of the session, as it is now.
    pub fn settings(&self) -> Settings
        ensures { result ≡ settings_of self.now }
    {
        Settings {
            limit: self.line.limit(),
            ring_size: self.pair.ring.size(),
            new_kill: self.pair.ring.new_kill(),
            options: self.options,
        }
    }

    /// Chooses all that may be chosen of a session, and forgets at once what is beyond the bounds. The oldest texts go that
    /// the ring has no place for. `TooLong` comes exactly if the text is longer than the limit, and changes nothing.
    pub fn set_settings(&mut self, settings: &Settings) -> Result<(), Fault>
        ensures ok { OnOk result ((length self.old.line.text ≤ settings.now.limit) × (self.new ≡ within_bound (set_to settings.now self.old))) }
        ensures changed { (asked : List ℕ) → ChangedFrom asked self.old → ChangedFrom asked self.new }
        ensures reported { (read : List ℕ) → ReportedFrom read self.old → ReportedFrom read self.new }
        ensures err { IfErr result (λ fault. (fault ≡ Fault.TooLong) × (settings.now.limit < length self.old.line.text) × (self.new ≡ self.old)) }
    {
        self.stands();
        self.bounded();
        if self.line.len() > settings.limit {
            return Err(Fault::TooLong);
        }
        self.line.set_limit(settings.limit);
        self.pair.ring.set_size(settings.ring_size);
        self.pair.ring.set_new_kill(settings.new_kill);
        self.options = settings.options;
        self.forget();
        self.bounded();
        Ok(())
    }

    /// Drops all texts of the ring, and frees them, as after the kill of a password. The next kill begins a new text.
    pub fn clear_ring(&mut self)
        ensures set { self.new ≡ with_ring (cleared self.old.pair.ring) self.old }
        ensures changed { (asked : List ℕ) → ChangedFrom asked self.old → ChangedFrom asked self.new }
        ensures reported { (read : List ℕ) → ReportedFrom read self.old → ReportedFrom read self.new }
    {
        self.pair.ring.clear();
        self.stands();
    }
}
