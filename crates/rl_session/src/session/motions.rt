//! Motions, where each leads and what it covers, copying by one, where a text is found, and where the cursor stands.
ghost use Rattle.std.specs.Prelude.{◌≡◌, ◌≤◌, IfOk, IfSome};
ghost use Rattle.std.specs.Str.{IsCharBoundary};
ghost use Rattle.rl_base.specs.Search.{find_text};
ghost use Rattle.rl_line.specs.LineRanges.{IsRange};
ghost use Rattle.rl_line.specs.Ranges.{covered};
ghost use Rattle.rl_session.specs.Commands.{AskedFrom, Does, destination, line_place};
ghost use Rattle.rl_session.specs.Replies.{replied};
ghost use Rattle.rl_session.specs.State.{State};
ghost use Rattle.rl_session.specs.declared.session.Command.{Command};
ghost use Rattle.rl_session.specs.declared.session.Reply.{Reply};

use crate::session::{Fault, Reply, Session};
use rl_base::places::find_text;
use rl_base::{Direction, Movement, Unit};
use std::ops::Range;

impl Session {
    pub(super) fn do_set_pos(&mut self, pos: usize) -> Result<(), Fault>
        ensures { Does self.old (Command.SetPos pos) (replied (λ _. Reply.Done) result) self.new }
    {
        if self.line.as_str().is_char_boundary(pos) {
            self.line.set_pos(pos);
            Ok(())
        } else {
            Err(Fault::BadPlace)
        }
    }

    /// The byte range that the movement covers, whose text `Command::Copy` by it copies. None if that is nothing.
    pub fn covers(&self, movement: &Movement) -> Option<Range<usize>>
        ensures value { result ≡ covered self.now.line movement.now }
        ensures order { IfSome result (λ r. r.start ≤ r.end) }
        ensures start { IfSome result (λ r. IsCharBoundary self.now.line.text r.start) }
        ensures end { IfSome result (λ r. IsCharBoundary self.now.line.text r.end) }
    {
        self.line.covered(movement)
    }

    /// The byte place that `Command::Move` by the movement goes to. None if that answers false: if there is no such
    /// place, and if the cursor stands there already.
    pub fn destination(&self, movement: &Movement) -> Option<usize>
        ensures value { result ≡ destination self.now movement.now }
        ensures boundary { IfSome result (IsCharBoundary self.now.line.text) }
    {
        self.line.destination(movement, &self.options.layout())
    }

    /// What `covers` would say with the cursor at a byte place. `BadPlace` if that is no boundary. Nothing is changed by it: a
    /// run of kills goes on.
    pub fn covers_from(
        &mut self,
        place: usize,
        movement: &Movement,
    ) -> Result<Option<Range<usize>>, Fault>
        ensures asked { AskedFrom place (λ (s : State). covered s.line movement.now) self.old result }
        ensures range { IfOk result (λ found. IfSome found (λ r. IsRange self.old.line.text r.start r.end)) }
        ensures kept { self.new ≡ self.old }
    {
        if !self.line.as_str().is_char_boundary(place) {
            return Err(Fault::BadPlace);
        }
        self.line.index_lines_for(movement);
        let pos = self.line.pos();
        self.line.set_pos(place);
        let found = self.covers(movement);
        self.line.set_pos(pos);
        Ok(found)
    }

    /// What `destination` would say with the cursor at a byte place. `BadPlace` if that is no boundary. Nothing is changed by
    /// it: a run of kills goes on.
    pub fn destination_from(
        &mut self,
        place: usize,
        movement: &Movement,
    ) -> Result<Option<usize>, Fault>
        ensures asked { AskedFrom place (λ (s : State). destination s movement.now) self.old result }
        ensures boundary { IfOk result (λ found. IfSome found (IsCharBoundary self.old.line.text)) }
        ensures kept { self.new ≡ self.old }
    {
        if !self.line.as_str().is_char_boundary(place) {
            return Err(Fault::BadPlace);
        }
        self.line.index_lines_for(movement);
        let pos = self.line.pos();
        self.line.set_pos(place);
        let found = self.destination(movement);
        self.line.set_pos(pos);
        Ok(found)
    }

    /// The byte range of the nearest occurrence of a text on a side of a byte place: ahead the first that begins there or
    /// after it, back the last that ends there or before it. None without one, and for an empty text. `BadPlace` if the
    /// place is no boundary. A run of kills goes on.
    pub fn find(
        &self,
        from: usize,
        text: &str,
        direction: Direction,
    ) -> Result<Option<Range<usize>>, Fault>
        ensures asked { AskedFrom from (λ (s : State). find_text s.line.text from text.now direction) self.now result }
        ensures range { IfOk result (λ found. IfSome found (λ r. IsRange self.now.line.text r.start r.end)) }
    {
        let line = self.line.as_str();
        if !line.is_char_boundary(from) {
            return Err(Fault::BadPlace);
        }
        Ok(find_text(line, from, text, direction))
    }

    pub(super) fn do_move_by(&mut self, movement: &Movement) -> Result<bool, Fault>
        ensures { Does self.old (Command.Move movement.now) (replied Reply.Answer result) self.new }
    {
        let layout = self.options.layout();
        Ok(self.line.move_by(movement, &layout))
    }

    pub(super) fn do_copy(&mut self, movement: &Movement) -> Result<Option<String>, Fault>
        ensures { Does self.old (Command.Copy movement.now) (replied Reply.Text result) self.new }
    {
        self.line.index_lines_for(movement);
        Ok(self.line.copy(movement)?)
    }

    pub(super) fn do_line_place(&mut self) -> Reply
        ensures { Does self.old Command.LinePlace result self.new }
    {
        self.line.index_lines();
        let (k, columns) = self.line_column();
        Reply::At(k, columns)
    }

    /// Makes the table by which lines are looked up, if it is not there and there is memory for it, as
    /// `LineBuffer::index_lines` does.
    pub fn index_lines(&mut self)
        ensures { self.new ≡ self.old }
    {
        self.line.index_lines();
    }

    /// Where the cursor stands, as `LinePlace` answers it: the number of its line, from 0, and the columns from that
    /// line's start to the cursor. It cuts clusters of that part of the line alone, and does not end a run of kills.
    #[tactic(auto, using(crate::proofs::Sessions::SessionLemmas::places))]
    pub fn line_column(&self) -> (usize, Unit)
        ensures { result ≡ line_place self.now }
    {
        let line = &self.line;
        let k = line.line_number();
        match line.line_range(k) {
            Some(range) => {
                let before = &line.as_str()[range.start..line.pos()];
                (k, self.options.mode.width(before))
            }
            None => unreachable!(),
        }
    }
}
