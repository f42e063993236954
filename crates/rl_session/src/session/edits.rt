//! Insertions, replacements, and edits of words and lines.
ghost use Rattle.rl_session.specs.Commands.{Does, DoesWith};
ghost use Rattle.rl_session.specs.Replies.{replied};
ghost use Rattle.rl_session.specs.declared.session.Command.{Command};
ghost use Rattle.rl_session.specs.declared.session.Reply.{Reply};

use crate::session::{Fault, Reply, Session};
use rl_base::{Movement, RepeatCount, WordAction};

#[tactic(auto, using(crate::proofs::Sessions::SessionLemmas::edits))]
impl Session {
    // Inlined, as `insert` is.
    #[inline(always)]
    pub(super) fn do_insert(&mut self, c: char, n: RepeatCount) -> Result<Option<bool>, Fault>
        ensures { Does self.old (Command.Insert c n) (replied Reply.Inserted result) self.new }
    {
        self.stands();
        Ok(self.line.insert(c, n, &mut self.pair)?)
    }

    pub(super) fn do_paste(&mut self, text: &str, n: RepeatCount) -> Result<Option<bool>, Fault>
        ensures { DoesWith text.now (λ t. Command.Paste t n) self.old (replied Reply.Inserted result) self.new }
    {
        self.stands();
        Ok(self.line.yank(text, n, &mut self.pair)?)
    }

    pub(super) fn do_update(&mut self, text: &str, pos: usize) -> Result<(), Fault>
        ensures { DoesWith text.now (λ t. Command.Update t pos) self.old (replied (λ _. Reply.Done) result) self.new }
    {
        self.stands();
        if !text.is_char_boundary(pos) {
            return Err(Fault::BadPlace);
        }
        Ok(self.line.update(text, pos, &mut self.pair)?)
    }

    pub(super) fn do_insert_str(&mut self, idx: usize, text: &str) -> Result<bool, Fault>
        ensures { DoesWith text.now (λ t. Command.InsertStr idx t) self.old (replied Reply.Answer result) self.new }
    {
        self.stands();
        if !self.line.can_insert_str(idx, text) {
            return Err(Fault::BadPlace);
        }
        Ok(self.line.insert_str(idx, text, &mut self.pair)?)
    }

    pub(super) fn do_replace(&mut self, from: usize, to: usize, text: &str) -> Result<(), Fault>
        ensures { DoesWith text.now (λ t. Command.Replace from to t) self.old (replied (λ _. Reply.Done) result) self.new }
    {
        self.stands();
        if !self.line.is_range(from, to) {
            return Err(Fault::BadPlace);
        }
        Ok(self.line.replace(from..to, text, &mut self.pair)?)
    }

    pub(super) fn do_transpose_chars(&mut self) -> Result<bool, Fault>
        ensures { Does self.old Command.TransposeChars (replied Reply.Answer result) self.new }
    {
        self.stands();
        Ok(self.line.transpose_chars(&mut self.pair)?)
    }

    pub(super) fn do_transpose_words(&mut self, n: RepeatCount) -> Result<bool, Fault>
        ensures { Does self.old (Command.TransposeWords n) (replied Reply.Answer result) self.new }
    {
        self.stands();
        Ok(self.line.transpose_words(n, &mut self.pair)?)
    }

    pub(super) fn do_edit_word(&mut self, action: WordAction) -> Result<bool, Fault>
        ensures { Does self.old (Command.EditWord action) (replied Reply.Answer result) self.new }
    {
        self.stands();
        Ok(self.line.edit_word(action, &mut self.pair)?)
    }

    pub(super) fn do_indent(
        &mut self,
        movement: &Movement,
        amount: u8,
        dedent: bool,
    ) -> Result<bool, Fault>
        ensures { Does self.old (Command.Indent movement.now amount dedent) (replied Reply.Answer result) self.new }
    {
        self.stands();
        Ok(self.line.indent(movement, amount, dedent, &mut self.pair)?)
    }
}
