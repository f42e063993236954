//! Exchanging two clusters, and two words.
ghost use Rattle.std.specs.Prelude.{◌≡◌, ◌≤◌, nat_le, true, option_and_then, IfSome, IfOk, OnOk};
ghost use Rattle.std.specs.Str.{IsCharBoundary};
ghost use Rattle.rl_line.specs.Plan.{Outcome, a_copy, longest_by};
ghost use Rattle.rl_line.specs.Transpositions.{are_two, clusters_around, end_of_cluster, exchanged_text, first_word, meeting_place, pull_back_plan, SwapsClusters, second_word, swap_plan, transpose_chars_plan, transpose_words_plan, word_end, word_start};

use crate::line_buffer::LineBuffer;
use rl_base::places::{next_pos, next_word, prev_pos, prev_word};
use rl_base::{At, ChangeListener, Direction, Refusal, RepeatCount, Word};
use std::ops::Range;
use unicode_segmentation::UnicodeSegmentation;

impl LineBuffer {
    /// Exchanges the grapheme clusters before and after the cursor, or the last two at the end of the text
    /// (GNU readline: transpose-chars), and moves the cursor past both. Answers whether there are two. If
    /// it finds no memory, it leaves the line as it was. If its listener refuses, it leaves the line as it
    /// was or without the second cluster.
    #[tactic(auto, using(crate::proofs::Plans::TranspositionLemmas::no_transposition))]
    pub fn transpose_chars<L: ChangeListener>(&mut self, listener: &mut L) -> Result<bool, Refusal>
        ensures outcome { Outcome L.step L.refused a_copy (transpose_chars_plan self.old) self.old self.new listener.old listener.new result }
        ensures swaps { IfOk result (λ answer. answer ≡ true → SwapsClusters self.old self.new) }
    {
        match self.meeting_clusters() {
            Some((front, after)) => {
                self.pull_back(front, after, listener)?;
                Ok(true)
            }
            None => Ok(false),
        }
    }

    // Two steps: takes a cluster out, and puts it in at a place before it, in the room that it left. The cursor goes
    // past the cluster that follows it there.
    #[tactic(auto, using(crate::proofs::Plans::TranspositionLemmas::pulls))]
    fn pull_back<L: ChangeListener>(
        &mut self,
        front: usize,
        after: Range<usize>,
        listener: &mut L,
    ) -> Result<(), Refusal>
        requires order { front ≤ after.start × after.start ≤ after.end }
        requires front { IsCharBoundary self.old.text front }
        requires start { IsCharBoundary self.old.text after.start }
        requires end { IsCharBoundary self.old.text after.end }
        ensures outcome { Outcome L.step L.refused a_copy (pull_back_plan self.old front after) self.old self.new listener.old listener.new result }
        ensures text { OnOk result (self.new.text ≡ exchanged_text self.old front after) }
    {
        let moved = self.text_of(&after)?;
        let start = after.start;
        self.line
            .deletion_step(after, Direction::Forward, start, listener)?;
        let next = end_of_cluster(self.line.as_str(), front);
        self.line
            .insertion_step(front, moved.as_str(), moved.len() + next, listener)?;
        Ok(())
    }

    // The clusters that are exchanged.
    fn meeting_clusters(&self) -> Option<(usize, Range<usize>)>
        ensures value { result ≡ option_and_then (clusters_around self.now.text) (meeting_place self.now) }
        ensures order { IfSome result (λ pair. pair.0 ≤ pair.1.start × pair.1.start ≤ pair.1.end) }
        ensures front { IfSome result (λ pair. IsCharBoundary self.now.text pair.0) }
        ensures start { IfSome result (λ pair. IsCharBoundary self.now.text pair.1.start) }
        ensures end { IfSome result (λ pair. IsCharBoundary self.now.text pair.1.end) }
    {
        let place = self.meeting_place()?;
        clusters_around(self.as_str(), place)
    }

    // Where two clusters meet.
    fn meeting_place(&self) -> Option<usize>
        ensures value { result ≡ meeting_place self.now }
        ensures boundary { IfSome result (IsCharBoundary self.now.text) }
    {
        let text = self.as_str();
        let at = self.pos();
        text.graphemes(true).nth(1)?;
        if at == text.len() {
            prev_pos(text, at, 1)
        } else {
            Some(at)
        }
    }

    /// Exchanges the Emacs word before the `n`-th word's end ahead with the word `n` words before it (GNU
    /// readline: transpose-words), and moves the cursor past both. Answers false if these are not two
    /// words, and then leaves the cursor at the first word's end. If it finds no memory, it leaves the line
    /// as it was; if its listener refuses, after the steps that it took.
    pub fn transpose_words<L: ChangeListener>(
        &mut self,
        n: RepeatCount,
        listener: &mut L,
    ) -> Result<bool, Refusal>
        ensures { Outcome L.step L.refused a_copy (transpose_words_plan self.old n) self.old self.new listener.old listener.new result }
    {
        let second = self.second_word(n);
        let first = self.first_word(second.start, n);
        if !are_two(&first, &second) {
            self.set_pos(first.end);
            return Ok(false);
        }
        self.swap(first, second, listener)?;
        Ok(true)
    }

    /// Whether `transpose_words` would leave the limit as it is: whether the text keeps to it between its steps, where the
    /// first word stands in the place of the second as well.
    pub fn transpose_words_fits(&self, n: RepeatCount) -> bool
        ensures { result ≡ nat_le (longest_by self.now (transpose_words_plan self.now n)) self.now.limit }
    {
        // So the proof knows that the text keeps to the limit.
        let _limit = self.limit();
        let second = self.second_word(n);
        let first = self.first_word(second.start, n);
        if !are_two(&first, &second) {
            return true;
        }
        let text = &self.as_str()[first.start..first.end];
        self.replace_fits(second.start, second.end, text)
    }

    // Four steps: replaces the second of two ranges by the first's text, and then the first by the second's. In the end
    // the text is as long as before, so it needs more room at most between the two, where it is longest.
    #[tactic(auto, using(crate::proofs::Plans::TranspositionLemmas::swaps))]
    fn swap<L: ChangeListener>(
        &mut self,
        first: Range<usize>,
        second: Range<usize>,
        listener: &mut L,
    ) -> Result<(), Refusal>
        requires first { first.start ≤ first.end }
        requires second { second.start ≤ second.end }
        requires apart { first.end ≤ second.start }
        requires first_start { IsCharBoundary self.old.text first.start }
        requires first_end { IsCharBoundary self.old.text first.end }
        requires second_start { IsCharBoundary self.old.text second.start }
        requires second_end { IsCharBoundary self.old.text second.end }
        ensures { Outcome L.step L.refused a_copy (swap_plan self.old first second) self.old self.new listener.old listener.new result }
    {
        // So the proof knows that this is UTF-8.
        let _text = self.as_str();
        let first_text = self.text_of(&first)?;
        let second_text = self.text_of(&second)?;
        let (start, between, end) = (first.start, first.end, second.end);
        self.line
            .find_room_instead(second.start, second.end, first_text.as_str())?;
        self.line
            .exchange_steps(second, between, first_text.as_str(), between, listener)?;
        self.line
            .exchange_steps(first, start, second_text.as_str(), end, listener)?;
        Ok(())
    }

    fn second_word(&self, n: RepeatCount) -> Range<usize>
        ensures value { result ≡ second_word self.now n }
        ensures order { result.start ≤ result.end }
        ensures start { IsCharBoundary self.now.text result.start }
        ensures end { IsCharBoundary self.now.text result.end }
    {
        let text = self.as_str();
        let end = word_end(text, self.pos(), n);
        word_start(text, end, 1)..end
    }

    fn first_word(&self, second: usize, n: RepeatCount) -> Range<usize>
        requires place { IsCharBoundary self.now.text second }
        requires second { second ≡ (second_word self.now n).start }
        ensures value { result ≡ first_word self.now n }
        ensures order { result.start ≤ result.end }
        ensures start { IsCharBoundary self.now.text result.start }
        ensures end { IsCharBoundary self.now.text result.end }
    {
        let text = self.as_str();
        let start = word_start(text, second, n);
        start..word_end(text, start, 1)
    }
}

// The place of the cluster before a place, and the range of the one after it, if there are both.
fn clusters_around(text: &str, place: usize) -> Option<(usize, Range<usize>)>
    requires { IsCharBoundary text.now place }
    ensures value { result ≡ clusters_around text.now place }
    ensures order { IfSome result (λ pair. pair.0 ≤ pair.1.start × pair.1.start ≤ pair.1.end) }
    ensures front { IfSome result (λ pair. IsCharBoundary text.now pair.0) }
    ensures start { IfSome result (λ pair. IsCharBoundary text.now pair.1.start) }
    ensures end { IfSome result (λ pair. IsCharBoundary text.now pair.1.end) }
{
    let front = prev_pos(text, place, 1)?;
    let stop = next_pos(text, place, 1)?;
    Some((front, place..stop))
}

pub(super) fn word_end(text: &str, pos: usize, n: RepeatCount) -> usize
    requires { IsCharBoundary text.now pos }
    ensures value { result ≡ word_end text.now pos n }
    ensures ahead { pos ≤ result }
    ensures boundary { IsCharBoundary text.now result }
{
    match next_word(text, pos, At::AfterEnd, Word::Emacs, n) {
        Some(place) => place,
        None => pos,
    }
}

fn word_start(text: &str, pos: usize, n: RepeatCount) -> usize
    requires { IsCharBoundary text.now pos }
    ensures value { result ≡ word_start text.now pos n }
    ensures before { result ≤ pos }
    ensures boundary { IsCharBoundary text.now result }
{
    match prev_word(text, pos, Word::Emacs, n) {
        Some(place) => place,
        None => pos,
    }
}

// Whether these are two words, which do not overlap.
fn are_two(first: &Range<usize>, second: &Range<usize>) -> bool
    ensures { result ≡ are_two first.now second.now }
{
    first.start != second.start && first.end <= second.start
}

// The end of the cluster at a place, or the place itself at the end of the text.
pub(super) fn end_of_cluster(text: &str, pos: usize) -> usize
    requires { IsCharBoundary text.now pos }
    ensures value { result ≡ end_of_cluster text.now pos }
    ensures ahead { pos ≤ result }
    ensures boundary { IsCharBoundary text.now result }
{
    match next_pos(text, pos, 1) {
        Some(end) => end,
        None => pos,
    }
}
