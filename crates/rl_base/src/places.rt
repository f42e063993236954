//! Places in a text, in bytes.
ghost use Rattle.std.specs.Prelude.{◌≡◌, ◌≤◌, IfSome, MatchOption, ℕ, List};
ghost use Rattle.std.specs.Str.{IsCharBoundary, trim_start, trim_end};
ghost use Rattle.rl_base.specs.Clusters.{next_pos, prev_pos};
ghost use Rattle.std.specs.Char.{is_whitespace};
ghost use Rattle.ucd_props.specs.Binary.{is_white_space};
ghost use Rattle.rl_base.specs.Blanks.{without_leading_blanks, without_trailing_blanks};
ghost use Rattle.rl_base.specs.Search.{HasNone, IsNearest, find_text};
ghost use Rattle.rl_base.specs.declared.listeners.Direction.{Direction};

use crate::motion::RepeatCount;
use unicode_segmentation::UnicodeSegmentation;

mod bytes;
mod classes;
mod hits;
mod words;

pub use classes::{is_alphanumeric, is_word_cluster};
pub use hits::{find_place, find_text, search};
pub use words::{first_word_cluster, next_word, prev_word};

/// The byte place past the first `n` grapheme clusters (UAX #29) of what stands from `pos` on, or past
/// all of them if there are fewer. None at the end and for `n` = 0.
pub fn next_pos(text: &str, pos: usize, n: RepeatCount) -> Option<usize>
    requires { IsCharBoundary text.now pos }
    ensures value { result ≡ next_pos text.now pos n }
    ensures ahead { IfSome result (λ place. pos ≤ place) }
    ensures boundary { IfSome result (IsCharBoundary text.now) }
{
    if n == 0 || pos == text.len() {
        return None;
    }
    let mut clusters = text[pos..].graphemes(true);
    let _ = clusters.nth(usize::from(n) - 1);
    Some(text.len() - clusters.as_str().len())
}

/// The byte place before the last `n` grapheme clusters (UAX #29) of what stands before `pos`, or before
/// all of them if there are fewer. None at the start and for `n` = 0.
pub fn prev_pos(text: &str, pos: usize, n: RepeatCount) -> Option<usize>
    requires { IsCharBoundary text.now pos }
    ensures value { result ≡ prev_pos text.now pos n }
    ensures before { IfSome result (λ place. place ≤ pos) }
    ensures boundary { IfSome result (IsCharBoundary text.now) }
{
    if n == 0 || pos == 0 {
        return None;
    }
    let mut clusters = text[..pos].graphemes(true);
    let _ = clusters.nth_back(usize::from(n) - 1);
    Some(clusters.as_str().len())
}

/// Blanks are White_Space everywhere: where a cluster holds one, and where the standard library cuts leading and
/// trailing ones off a text.
#[tactic(auto, using(crate::proofs::Texts::BlankLemmas::blanks))]
pub fn blanks_are_white_space()
    ensures same { (c : ℕ) → is_whitespace c ≡ is_white_space c }
    ensures leading { (text : List ℕ) → trim_start text ≡ without_leading_blanks text }
    ensures trailing { (text : List ℕ) → trim_end text ≡ without_trailing_blanks text }
{}

/// What a search for a text finds has that text, and is the nearest occurrence on the side that it goes to. It finds
/// none if there is none on that side.
#[tactic(auto, using(crate::proofs::Texts::OccurrenceLemmas::find_text_nearest))]
pub fn the_nearest_occurrence_is_found()
    ensures { (text sought : List ℕ) (from : ℕ) (direction : Direction)
        → MatchOption (find_text text from sought direction) (HasNone text from sought direction) (IsNearest text from sought direction) }
{}
