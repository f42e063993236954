//! Editing the letters of a word.
ghost use Rattle.std.specs.Prelude.{◌≡◌, ◌<◌, ◌≤◌, min, length, nat_le, string_bytes, IsAscii, IfSome, IfErr, IfOk, OnErr};
ghost use Rattle.std.specs.Str.{IsCharBoundary};
ghost use Rattle.rl_base.specs.declared.listeners.Refusal.TheVariants.{NoMemory};
ghost use Rattle.rl_line.specs.Plan.{Outcome, a_copy, longest_by, unbegun};
ghost use Rattle.rl_base.specs.declared.motion.WordAction.TheVariants.{Capitalize};
ghost use Rattle.rl_line.specs.LetterCase.{edit_word_plan, mapped, recased, word_ahead};
ghost use Rattle.rl_line.specs.Transpositions.{end_of_cluster};

use crate::line_buffer::LineBuffer;
use crate::line_buffer::transpositions::{end_of_cluster, word_end};
use rl_base::places::first_word_cluster;
use rl_base::{ChangeListener, Refusal, WordAction};
use std::alloc::{AllocError, Global};
use std::ops::Range;

impl LineBuffer {
    /// Edits the letters of the Emacs word at the cursor or ahead, but none before the cursor (GNU readline:
    /// capitalize-word, downcase-word, upcase-word), and moves the cursor past it. A word past ASCII goes by the
    /// standard library's case mappings.
    /// Answers whether there is one. If it finds no memory, it leaves the line as it was. If its
    /// listener refuses, it leaves the line as it was or without the word.
    #[tactic(auto, using(crate::proofs::Plans::LetterCaseLemmas::words))]
    pub fn edit_word<L: ChangeListener>(
        &mut self,
        action: WordAction,
        listener: &mut L,
    ) -> Result<bool, Refusal>
        ensures { Outcome L.step L.refused a_copy (edit_word_plan self.old action) self.old self.new listener.old listener.new result }
    {
        let at = self.pos();
        let Some(word) = self.word_ahead() else {
            return Ok(false);
        };
        let text = &self.as_str()[word.start..word.end];
        let made = recased(self.line.allocator(), text, action)?;
        let end = word.start + made.len();
        self.exchange(word, at, made.as_str(), end, listener)?;
        Ok(true)
    }

    /// Whether `edit_word` would leave the limit as it is: whether the text keeps to it with the word's letters changed,
    /// of which some take more bytes in the other case. It makes them, and so needs memory, if there is a word.
    pub fn edit_word_fits(&self, action: WordAction) -> Result<bool, Refusal>
        ensures ok { IfOk result (λ fits. fits ≡ nat_le (longest_by self.now (edit_word_plan self.now action)) self.now.limit) }
        ensures err { IfErr result (λ r. (r ≡ NoMemory) × unbegun a_copy (edit_word_plan self.now action)) }
    {
        // So the proof knows that the text keeps to the limit.
        let _limit = self.limit();
        let Some(word) = self.word_ahead() else {
            return Ok(true);
        };
        let text = &self.as_str()[word.start..word.end];
        let made = recased(self.line.allocator(), text, action)?;
        Ok(self.replace_fits(word.start, word.end, made.as_str()))
    }

    fn word_ahead(&self) -> Option<Range<usize>>
        ensures value { result ≡ word_ahead self.now }
        ensures ahead { IfSome result (λ word. self.now.cursor ≤ word.start) }
        ensures order { IfSome result (λ word. word.start ≤ word.end) }
        ensures start { IfSome result (λ word. IsCharBoundary self.now.text word.start) }
        ensures end { IfSome result (λ word. IsCharBoundary self.now.text word.end) }
    {
        let text = self.as_str();
        let start = first_word_cluster(text, self.pos())?;
        Some(start..word_end(text, start, 1))
    }
}

// The word in the case that is asked for.
fn recased(alloc: Global, word: &str, action: WordAction) -> Result<String, AllocError>
    ensures ascii { IfOk result (λ made. IsAscii word.now → string_bytes made ≡ recased action word.now) }
    ensures others { IfOk result (λ made. ¬ (IsAscii word.now) → string_bytes made ≡ mapped action word.now) }
    ensures some { OnErr result (0 < length word.now) }
{
    if word.is_empty() {
        return Ok(String::new(alloc));
    }
    match action {
        WordAction::Capitalize => capitalized(alloc, word),
        WordAction::Lowercase => word.to_lowercase(alloc),
        WordAction::Uppercase => word.to_uppercase(alloc),
    }
}

fn capitalized(alloc: Global, word: &str) -> Result<String, AllocError>
    ensures ascii { IfOk result (λ made. IsAscii word.now → string_bytes made ≡ recased Capitalize word.now) }
    ensures others { IfOk result (λ made. ¬ (IsAscii word.now) → string_bytes made ≡ mapped Capitalize word.now) }
{
    let first = first_len(word);
    let mut made = word[..first].to_uppercase(alloc)?;
    let rest = word[first..].to_lowercase(alloc)?;
    made.push_str(rest.as_str())?;
    Ok(made)
}

// The length of the first cluster, which is one character of an ASCII word.
#[tactic(auto, using(crate::proofs::Lines::Starting::starting))]
fn first_len(word: &str) -> usize
    ensures ascii { IsAscii word.now → result ≡ min 1 (length word.now) }
    ensures others { ¬ (IsAscii word.now) → result ≡ end_of_cluster word.now 0 }
    ensures boundary { IsCharBoundary word.now result }
{
    if word.is_ascii() {
        return word.len().min(1);
    }
    end_of_cluster(word, 0)
}
