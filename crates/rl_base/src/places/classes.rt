//! What a grapheme cluster is to each sense of a word.
ghost use Rattle.std.specs.Prelude.{◌≡◌, ◌==◌, List, ℕ, length};
ghost use Rattle.ucd_props.specs.Binary.{is_white_space};
ghost use Rattle.rl_base.specs.Classes.{is_alphanumeric, has_blank, is_word_cluster, all_alphanumeric, starts, ends};
ghost use Rattle.rl_base.specs.Clusters.{clusters};
ghost use Rattle.rl_base.specs.ClusterClass.{class_of};

use crate::motion::Word;
use ucd_category::GeneralCategory;
use ucd_derived::is_alphabetic;
use unicode_segmentation::UnicodeSegmentation;

/// What a cluster is to a sense of a word. A word goes on for as long as its clusters are of one class.
#[derive(Clone, Copy, Eq, PartialEq)]
pub enum Class {
    /// Belongs to words of the sense.
    Member,
    /// Belongs to vi's words of other clusters.
    Other,
    /// Belongs to no word.
    Outside,
}

/// Whether the character is Alphabetic or a number (general category Nd, Nl or No). Inlined, so that an ASCII character, which
/// is most often asked for, costs no call.
#[inline(always)]
#[tactic(auto, using(crate::proofs::Clusters::ClassLemmas::by_ascii))]
pub fn is_alphanumeric(c: char) -> bool
    ensures { result ≡ is_alphanumeric c }
{
    if c.is_ascii() {
        return c.is_ascii_alphanumeric();
    }
    is_in_tables(c)
}

// The same by the tables of Unicode. Not inlined, so that the ASCII case does not carry their search.
#[inline(never)]
fn is_in_tables(c: char) -> bool
    ensures { result ≡ is_alphanumeric c }
{
    is_alphabetic(c)
        || matches!(
            GeneralCategory::for_char(c),
            GeneralCategory::DecimalNumber
                | GeneralCategory::LetterNumber
                | GeneralCategory::OtherNumber
        )
}

// The standard library has the same property without a search in a table.
#[tactic(auto, using(crate::proofs::Texts::BlankLemmas::blanks))]
fn is_blank(c: char) -> bool
    ensures { result ≡ is_white_space c }
{
    c.is_whitespace()
}

// Most clusters are one ASCII character, which tells this at once.
#[inline]
#[tactic(auto, using(crate::proofs::Clusters::ClassLemmas::by_ascii))]
fn has_blank(cluster: &str) -> bool
    ensures { result ≡ has_blank cluster.now }
{
    match cluster.as_bytes() {
        [b] if b.is_ascii() => is_blank(char::from(*b)),
        _ => any_blank(cluster),
    }
}

// Not inlined into callers of `has_blank`, or a cluster of one ASCII character would be slower.
#[inline(never)]
fn any_blank(cluster: &str) -> bool
    ensures { result ≡ has_blank cluster.now }
{
    cluster.chars().any(is_blank)
}

// Quick if `has_blank` is.
#[inline]
#[tactic(auto, using(crate::proofs::Clusters::ClassLemmas::by_ascii))]
fn all_alphanumeric(cluster: &str) -> bool
    ensures { result ≡ all_alphanumeric cluster.now }
{
    match cluster.as_bytes() {
        [b] if b.is_ascii() => b.is_ascii_alphanumeric(),
        _ => each_alphanumeric(cluster),
    }
}

#[inline(never)]
fn each_alphanumeric(cluster: &str) -> bool
    ensures { result ≡ all_alphanumeric cluster.now }
{
    cluster.chars().all(is_alphanumeric)
}

/// Whether the text is one grapheme cluster, all of whose characters are alphanumeric.
pub fn is_word_cluster(text: &str) -> bool
    ensures { result ≡ is_word_cluster text.now }
{
    is_one_cluster(text) && all_alphanumeric(text)
}

// A text of one byte is one cluster: it need not be cut.
fn is_one_cluster(text: &str) -> bool
    ensures { result ≡ (length (clusters text.now) == 1) }
{
    if text.len() == 1 {
        return true;
    }
    let mut clusters = text.graphemes(true);
    clusters.next().is_some() && clusters.next().is_none()
}

/// What the cluster is to the sense of a word.
#[inline]
pub fn class_of(sense: Word, cluster: &str) -> Class
    ensures { result ≡ class_of sense cluster.now }
{
    match sense {
        Word::Big if has_blank(cluster) => Class::Outside,
        Word::Big => Class::Member,
        Word::Emacs | Word::Vi if all_alphanumeric(cluster) => Class::Member,
        Word::Vi if cluster == "_" => Class::Member,
        Word::Vi if !has_blank(cluster) => Class::Other,
        Word::Emacs | Word::Vi => Class::Outside,
    }
}

/// Whether a word starts at a cluster of the class `next`, which follows one of the class `last`.
pub fn starts(last: Class, next: Class) -> bool
    ensures { (sense : Word) (x y : List ℕ) → last ≡ class_of sense x → next ≡ class_of sense y → result ≡ starts sense x y }
{
    next != Class::Outside && last != next
}

/// Whether a word ends with a cluster of the class `last`, which one of the class `next` follows.
pub fn ends(last: Class, next: Class) -> bool
    ensures { (sense : Word) (x y : List ℕ) → last ≡ class_of sense x → next ≡ class_of sense y → result ≡ ends sense x y }
{
    last != Class::Outside && last != next
}
