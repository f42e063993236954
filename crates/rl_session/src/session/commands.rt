//! A call for each command, which obeys the session's options, and returns what its command answers. `Session::perform`
//! does the same by a `Command`. Each first looks at the limit on the text's length: what would make the text longer
//! than it, at its end or between its steps, returns `TooLong`, and leaves the session as it was. If the options ask
//! for it, an edit, and what begins or ends a group, then keeps what was undone, and is not begun without memory for
//! that. Each resets the ring, but those whose commands go on from what the ring did last. One undo takes back all that
//! an edit of several steps changed. After the command, what is beyond the bounds is forgotten.
ghost use Rattle.std.specs.Prelude.{◌≡◌, true, IfErr, OnOk};
ghost use Rattle.rl_line.specs.Deletions.{CanDeleteBy};
ghost use Rattle.rl_session.specs.Commands.{deletion_of, with_changes};
ghost use Rattle.rl_session.specs.Performing.{BarsWith, HasKept, Keeps, Obeyed, Performed, PerformedWith, Unites, put_in};
ghost use Rattle.rl_session.specs.State.{Ends};
ghost use Rattle.rl_record.specs.Record.{freshness_told, parted};
ghost use Rattle.rl_record.specs.Units.{unit_start};
ghost use Rattle.rl_session.specs.Replies.{replied};
ghost use Rattle.rl_session.specs.declared.session.Command.{Command};
ghost use Rattle.rl_session.specs.declared.session.Reply.{Reply};

mod record;

use crate::session::replies::{answered, done, handed_out, inserted, marked};
use crate::session::{Command, Fault, Reply, Session};
use rl_base::{Direction, Movement, RepeatCount, WordAction};
use rl_record::UnitStart;

// Does a command that goes on from what the ring did last, or leaves it, and then forgets what is beyond the bounds.
macro_rules! goes_on {
    ($session:ident, $does:expr) => {{
        let done = $does;
        $session.forget();
        done
    }};
}

// Does another command.
macro_rules! anew {
    ($session:ident, $does:expr) => {{
        $session.reset_ring();
        goes_on!($session, $does)
    }};
}

// Does an edit, or what begins or ends a group, that does not go on from what the ring did last.
macro_rules! edits {
    ($session:ident, $does:expr) => {{
        $session.keep_first()?;
        anew!($session, $does)
    }};
}

// Does what changes the text by several steps, so that one undo takes all of them back, and the given number of bytes that
// were put in right before.
macro_rules! as_unit {
    ($session:ident, $put_in:expr, $does:expr) => {{
        let start = $session.set_apart($put_in);
        let done = $does;
        $session.unite(start);
        done
    }};
}

pub(crate) use anew;
pub(crate) use edits;
pub(crate) use goes_on;

#[tactic(auto, using(crate::proofs::Sessions::PerformLemmas::performing))]
impl Session {
    /// Moves the cursor to a byte place. `BadPlace` leaves it where it was.
    pub fn set_pos(&mut self, pos: usize) -> Result<(), Fault>
        ensures { Performed self.old (Command.SetPos pos) (replied (λ _. Reply.Done) result) self.new }
    {
        anew!(self, self.do_set_pos(pos))
    }

    /// Moves the cursor by a movement. Answers whether there was a place to go to.
    pub fn move_by(&mut self, movement: &Movement) -> Result<bool, Fault>
        ensures { Performed self.old (Command.Move movement.now) (replied Reply.Answer result) self.new }
    {
        anew!(self, self.do_move_by(movement))
    }

    /// Inserts a character at the cursor, n times. Says whether the cursor was at the end. `NoMemory` leaves the text
    /// as it was. Inlined, as the command that is done for each key.
    #[inline(always)]
    pub fn insert(&mut self, c: char, n: RepeatCount) -> Result<Option<bool>, Fault>
        ensures { Performed self.old (Command.Insert c n) (replied Reply.Inserted result) self.new }
    {
        if self.line.is_too_long(c.len_utf8(), n) {
            return Err(Fault::TooLong);
        }
        edits!(self, self.do_insert(c, n))
    }

    /// Inserts a text at the cursor, n times. Says what `insert` does, or None if the text is empty. `NoMemory` leaves
    /// the text as it was.
    pub fn paste(&mut self, text: &str, n: RepeatCount) -> Result<Option<bool>, Fault>
        ensures { PerformedWith text.now (λ t. Command.Paste t n) self.old (replied Reply.Inserted result) self.new }
    {
        if self.line.is_too_long(text.len(), n) {
            return Err(Fault::TooLong);
        }
        edits!(self, self.do_paste(text, n))
    }

    /// Inserts the ring's current text at the cursor, n times. Says what `paste` does, and None also if the ring has no
    /// text. `NoMemory` leaves the text as it was.
    pub fn yank(&mut self, n: RepeatCount) -> Result<Option<bool>, Fault>
        ensures { Performed self.old (Command.Yank n) (replied Reply.Inserted result) self.new }
    {
        if self.yank_is_too_long(n) {
            return Err(Fault::TooLong);
        }
        self.keep_first()?;
        goes_on!(
            self,
            {
                let done = self.do_yank(n);
                self.settle_yank(&done);
                done
            }
        )
    }

    /// Replaces the text that was just yanked by the one before it in the ring. Says what `yank` does. `BadYankSize`
    /// leaves the text as it was; `NoMemory` leaves it so, or without what was yanked.
    pub fn yank_pop(&mut self) -> Result<Option<bool>, Fault>
        ensures { Performed self.old Command.YankPop (replied Reply.Inserted result) self.new }
    {
        if self.yank_pop_is_too_long() {
            return Err(Fault::TooLong);
        }
        self.keep_first()?;
        let yanked = self.yanked_len();
        goes_on!(
            self,
            as_unit!(
                self,
                yanked,
                {
                    let done = self.do_yank_pop();
                    self.settle_yank(&done);
                    done
                }
            )
        )
    }

    /// Replaces the line's text, and sets the cursor to a byte place in the new text. `BadPlace` leaves the old one;
    /// `NoMemory` leaves it, or an empty one.
    pub fn update(&mut self, text: &str, pos: usize) -> Result<(), Fault>
        ensures { PerformedWith text.now (λ t. Command.Update t pos) self.old (replied (λ _. Reply.Done) result) self.new }
    {
        if self.update_is_too_long(text, pos) {
            return Err(Fault::TooLong);
        }
        edits!(self, as_unit!(self, 0, self.do_update(text, pos)))
    }

    /// Inserts a text at a byte place, and leaves the cursor at its own. Answers whether the place was the end.
    /// Refused, it leaves the text as it was; `BadPlace` also comes if the cursor would stand inside a character.
    pub fn insert_str(&mut self, idx: usize, text: &str) -> Result<bool, Fault>
        ensures { PerformedWith text.now (λ t. Command.InsertStr idx t) self.old (replied Reply.Answer result) self.new }
    {
        if self.insert_str_is_too_long(idx, text) {
            return Err(Fault::TooLong);
        }
        edits!(self, self.do_insert_str(idx, text))
    }

    /// Replaces the text between two byte places by another, with the cursor after it. Refused, it leaves the text as
    /// it was.
    pub fn replace(&mut self, from: usize, to: usize, text: &str) -> Result<(), Fault>
        ensures { PerformedWith text.now (λ t. Command.Replace from to t) self.old (replied (λ _. Reply.Done) result) self.new }
    {
        if self.replace_is_too_long(from, to, text) {
            return Err(Fault::TooLong);
        }
        edits!(self, self.do_replace(from, to, text))
    }

    /// Deletes the text between two byte places, with the cursor at the first. Refused, it leaves the text as it was.
    pub fn delete_range(&mut self, from: usize, to: usize) -> Result<(), Fault>
        ensures { Performed self.old (Command.DeleteRange from to) (replied (λ _. Reply.Done) result) self.new }
    {
        edits!(self, self.do_delete_range(from, to))
    }

    /// Deletes n grapheme clusters from the cursor on, and hands out their text. `NoMemory` leaves the text as it was.
    pub fn delete(&mut self, n: RepeatCount) -> Result<Option<String>, Fault>
        ensures { Performed self.old (Command.Delete n) (replied Reply.Text result) self.new }
    {
        edits!(self, self.do_delete(n))
    }

    /// Deletes n grapheme clusters before the cursor. Answers whether there were some. `NoMemory` leaves the text as it
    /// was.
    pub fn backspace(&mut self, n: RepeatCount) -> Result<bool, Fault>
        ensures { Performed self.old (Command.Backspace n) (replied Reply.Answer result) self.new }
    {
        edits!(self, self.do_backspace(n))
    }

    /// Deletes by a movement to one side of the cursor, which `can_delete_by` tests. Answers whether there was
    /// something. `NoMemory` leaves the text as it was. Inlined, so that no reply is copied when the command is
    /// chosen.
    #[inline(always)]
    pub fn delete_by(&mut self, movement: &Movement) -> Result<bool, Fault>
        requires { CanDeleteBy movement.now }
        ensures { Performed self.old (deletion_of movement.now) (replied Reply.Answer result) self.new }
    {
        edits!(self, self.do_delete_by(movement))
    }

    /// Exchanges the clusters at the cursor. Answers whether there are two. `NoMemory` leaves the text as it was, or
    /// without the second.
    pub fn transpose_chars(&mut self) -> Result<bool, Fault>
        ensures { Performed self.old Command.TransposeChars (replied Reply.Answer result) self.new }
    {
        edits!(self, as_unit!(self, 0, self.do_transpose_chars()))
    }

    /// Exchanges the word before the end of the n-th word ahead with the word n words before it. Answers whether there
    /// are two. `NoMemory` leaves it after the steps that it took.
    pub fn transpose_words(&mut self, n: RepeatCount) -> Result<bool, Fault>
        ensures { Performed self.old (Command.TransposeWords n) (replied Reply.Answer result) self.new }
    {
        if !self.line.transpose_words_fits(n) {
            return Err(Fault::TooLong);
        }
        edits!(self, as_unit!(self, 0, self.do_transpose_words(n)))
    }

    /// Changes the letter case of the word at the cursor or ahead. Answers whether there is one. `NoMemory` leaves the
    /// text as it was, or without the word.
    pub fn edit_word(&mut self, action: WordAction) -> Result<bool, Fault>
        ensures { Performed self.old (Command.EditWord action) (replied Reply.Answer result) self.new }
    {
        if !self.line.edit_word_fits(action)? {
            return Err(Fault::TooLong);
        }
        edits!(self, as_unit!(self, 0, self.do_edit_word(action)))
    }

    /// Kills by a movement. Answers whether there was something. The killed text goes to the ring, except if the
    /// movement is by clusters. `NoMemory` leaves the text as it was.
    pub fn kill(&mut self, movement: &Movement) -> Result<bool, Fault>
        ensures { Performed self.old (Command.Kill movement.now) (replied Reply.Answer result) self.new }
    {
        self.keep_first()?;
        goes_on!(
            self,
            {
                self.ready_to_kill(movement);
                self.do_kill(movement)
            }
        )
    }

    /// Kills the text between two byte places, told with a direction: `Forward` joins it at the end of the text that
    /// was killed right before it, `Backward` at its front. Answers whether there was some. Refused, it leaves the text
    /// as it was.
    pub fn kill_range(&mut self, from: usize, to: usize, dir: Direction) -> Result<bool, Fault>
        ensures { Performed self.old (Command.KillRange from to dir) (replied Reply.Answer result) self.new }
    {
        self.keep_first()?;
        goes_on!(self, self.do_kill_range(from, to, dir))
    }

    /// Puts a text into the ring as a kill of its own. The line stays. `NoMemory` leaves the ring's texts as they were.
    pub fn keep(&mut self, text: &str) -> Result<(), Fault>
        ensures { PerformedWith text.now Command.Keep self.old (replied (λ _. Reply.Done) result) self.new }
    {
        anew!(self, self.do_keep(text))
    }

    /// Copies what a movement covers, and hands out the copy. It leaves the text as it is; `NoMemory` says that there
    /// is no room for the copy.
    pub fn copy(&mut self, movement: &Movement) -> Result<Option<String>, Fault>
        ensures { Performed self.old (Command.Copy movement.now) (replied Reply.Text result) self.new }
    {
        anew!(self, self.do_copy(movement))
    }

    /// Indents the lines of a movement by a number of spaces, or dedents them by at most that many bytes of blanks.
    /// Returns whether it inserts or deletes a byte. If not, it only counts as a motion that leads nowhere: the undone
    /// changes stay, and nothing is recorded or reported. `NoMemory` leaves it after the steps that it took.
    pub fn indent(&mut self, movement: &Movement, amount: u8, dedent: bool) -> Result<bool, Fault>
        ensures { Performed self.old (Command.Indent movement.now amount dedent) (replied Reply.Answer result) self.new }
    {
        if !self.line.indent_changes(movement, amount, dedent) {
            return self.move_by(&Movement::WholeBuffer);
        }
        self.indent_lines(movement, amount, dedent)
    }

    fn indent_lines(&mut self, movement: &Movement, amount: u8, dedent: bool) -> Result<bool, Fault>
        ensures { Obeyed self.old (Command.Indent movement.now amount dedent) (replied Reply.Answer result) self.new }
    {
        if !self.line.indent_fits(movement, amount, dedent) {
            return Err(Fault::TooLong);
        }
        edits!(
            self,
            as_unit!(self, 0, self.do_indent(movement, amount, dedent))
        )
    }

    // Whether the limit bars an update, an insertion at a place, a replacement. It bars none whose places are bad.
    fn update_is_too_long(&self, text: &str, pos: usize) -> bool
        ensures { BarsWith text.now (λ t. Command.Update t pos) result self.now }
    {
        text.is_char_boundary(pos) && !self.line.has_room(text.len())
    }

    fn insert_str_is_too_long(&self, idx: usize, text: &str) -> bool
        ensures { BarsWith text.now (λ t. Command.InsertStr idx t) result self.now }
    {
        self.line.can_insert_str(idx, text) && !self.line.insert_str_fits(text)
    }

    fn replace_is_too_long(&self, from: usize, to: usize, text: &str) -> bool
        ensures { BarsWith text.now (λ t. Command.Replace from to t) result self.now }
    {
        self.line.is_range(from, to) && !self.line.replace_fits(from, to, text)
    }

    // How many bytes were yanked last, if nothing was done since.
    fn yanked_len(&self) -> usize
        ensures { result ≡ put_in self.now Command.YankPop }
    {
        self.pair.ring.yank_size().unwrap_or(0)
    }

    // Begins a unit of undo, which joins nothing that was recorded before, but takes in the change that put in so many bytes
    // last.
    #[tactic(auto, using(crate::proofs::Sessions::SessionLemmas::resting))]
    fn set_apart(&mut self, put_in: usize) -> UnitStart
        ensures start { result ≡ unit_start put_in self.old.pair.changes }
        ensures stale { freshness_told result.was ≡ result.was }
        ensures apart { self.new ≡ with_changes (parted self.old.pair.changes) self.old }
    {
        self.pair.changes.start_unit(put_in)
    }

    // Makes one unit of what was recorded since it began. Without memory for its marks it stays several.
    #[tactic(auto, using(crate::proofs::Sessions::SessionLemmas::resting))]
    fn unite(&mut self, start: UnitStart)
        requires { freshness_told start.was ≡ start.was }
        ensures before { Ends self.old }
        ensures united { Unites true start self.old self.new }
    {
        self.ends();
        let _ = self.pair.changes.unite(start);
    }

    // Keeps what was undone before an edit, if the options ask for that.
    #[tactic(auto, using(crate::proofs::Sessions::PerformLemmas::keeping))]
    #[inline(always)]
    fn keep_first(&mut self) -> Result<(), Fault>
        ensures ok { OnOk result (HasKept self.old.options.keeps self.old self.new) }
        ensures err { IfErr result (λ why. Keeps self.old.options.keeps self.old (Reply.Refused why) self.new) }
    {
        if self.options.keeps {
            let done = self.do_keep_undone();
            self.ends();
            done?;
        }
        Ok(())
    }

    // Says where the cursor stands: the number of its line, from 0, and the columns from that line's start.
    fn line_place(&mut self) -> Reply
        ensures { Performed self.old Command.LinePlace result self.new }
    {
        anew!(self, self.do_line_place())
    }

    /// Does one command, as the call of its name does.
    pub fn perform(&mut self, command: &Command) -> Reply
        ensures { Performed self.old command.now result self.new }
    {
        match command {
            Command::SetPos(pos) => done(self.set_pos(*pos)),
            Command::Move(movement) => answered(self.move_by(movement)),
            Command::Insert(c, n) => inserted(self.insert(*c, *n)),
            Command::Paste(text, n) => inserted(self.paste(text.as_str(), *n)),
            Command::Yank(n) => inserted(self.yank(*n)),
            Command::YankPop => inserted(self.yank_pop()),
            Command::Update(text, pos) => done(self.update(text.as_str(), *pos)),
            Command::InsertStr(idx, text) => answered(self.insert_str(*idx, text.as_str())),
            Command::Replace(from, to, text) => done(self.replace(*from, *to, text.as_str())),
            Command::DeleteRange(from, to) => done(self.delete_range(*from, *to)),
            Command::Delete(n) => handed_out(self.delete(*n)),
            Command::Backspace(n) => answered(self.backspace(*n)),
            Command::KillLine => answered(self.delete_by(&Movement::EndOfLine)),
            Command::KillBuffer => answered(self.delete_by(&Movement::EndOfBuffer)),
            Command::DiscardLine => answered(self.delete_by(&Movement::BeginningOfLine)),
            Command::DiscardBuffer => answered(self.delete_by(&Movement::BeginningOfBuffer)),
            Command::DeletePrevWord(word, n) => {
                answered(self.delete_by(&Movement::BackwardWord(*n, *word)))
            }
            Command::DeleteWord(at, word, n) => {
                answered(self.delete_by(&Movement::ForwardWord(*n, *at, *word)))
            }
            Command::DeleteTo(cs, n) => answered(self.delete_by(&Movement::ViCharSearch(*n, *cs))),
            Command::TransposeChars => answered(self.transpose_chars()),
            Command::TransposeWords(n) => answered(self.transpose_words(*n)),
            Command::EditWord(action) => answered(self.edit_word(*action)),
            Command::Kill(movement) => answered(self.kill(movement)),
            Command::KillRange {
                from,
                to,
                direction,
            } => answered(self.kill_range(*from, *to, *direction)),
            Command::Keep(text) => done(self.keep(text.as_str())),
            Command::Copy(movement) => handed_out(self.copy(movement)),
            Command::Indent {
                movement,
                amount,
                dedent,
            } => answered(self.indent(movement, *amount, *dedent)),
            Command::Part => done(self.part()),
            Command::Begin => marked(self.begin()),
            Command::End => answered(self.end()),
            Command::EndOne => answered(self.end_one()),
            Command::Reopen => answered(self.reopen()),
            Command::Abandon => answered(self.abandon()),
            Command::KeepUndone => answered(self.keep_undone()),
            Command::Undo(n) => answered(self.undo(*n)),
            Command::Redo => answered(self.redo()),
            Command::Truncate(len) => done(self.truncate(*len)),
            Command::LinePlace => self.line_place(),
        }
    }
}
