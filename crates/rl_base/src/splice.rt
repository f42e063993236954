//! All that changed in a text, told as one splice.
ghost use Rattle.std.specs.Prelude.{◌≡◌, ◌++◌, ◌^◌, ◌<◌, ◌≤◌, List, ℕ, Some, MatchOption, drop, length, slice_range, take};
ghost use Rattle.std.specs.Str.{IsCharBoundary, IsUtf8};
ghost use Rattle.rl_base.specs.Event.{Event, apply};
ghost use Rattle.rl_base.specs.declared.splice.Splice.{Splice};
ghost use Rattle.rl_base.specs.declared.splice.Side.{Side};
ghost use Rattle.rl_base.specs.declared.splice.Side.TheVariants.{Before, After};
ghost use Rattle.rl_base.specs.Splice.{Covers, Outlasts, Splices, inverse, moved, spliced, told, untouched};

/// What changed, as one: the bytes `from..old_end` of the old text gave way to the bytes `from..new_end` of the new one.
#[derive(Clone, Copy, Debug, PartialEq, Eq)]
pub struct Splice {
    /// Where both texts begin to differ.
    pub from: usize,
    /// Where what differs ends in the old text.
    pub old_end: usize,
    /// Where it ends in the new text.
    pub new_end: usize,
}

/// The side of a place on which it stays.
#[derive(Clone, Copy, Debug, PartialEq, Eq)]
pub enum Side {
    /// With the text before it: what is put in at the place goes after it.
    Before,
    /// With the text after it: what is put in at the place goes before it.
    After,
}

impl Splice {
    ghost use Rattle.rl_base.specs.Splice.{capped, folded};

    /// Where a byte place of the old text stands in the new one, as a mark or the anchor of a selection does. A place
    /// inside of what went goes to the end, on its side, of what came. No place of a text reaches the greatest `usize`,
    /// at which the result is cut.
    pub fn moved(self, place: usize, side: Side) -> usize
        ensures { result ≡ capped (moved self side place) }
    {
        let after = place.saturating_sub(self.old_end);
        // Of a place inside of what went this is the end of what came.
        let past = self.new_end.saturating_add(after);
        match side {
            Side::Before if place <= self.from => place,
            Side::Before if place < self.old_end => self.from,
            Side::After if place < self.old_end && place <= self.from => place,
            Side::Before | Side::After => past,
        }
    }

    // Takes in that `gone` bytes at a place gave way to `come` bytes. No place of a text reaches the greatest `usize`, so
    // the sums are cut there only if an event fits no text.
    #[inline(always)]
    pub(crate) fn fold(&mut self, place: usize, gone: usize, come: usize)
        ensures { self.new ≡ folded self.old place gone come }
    {
        // So the proof knows that this is a `usize`.
        let _old_end = self.old_end;
        let end = place.saturating_add(gone);
        if self.new_end < end {
            self.old_end = self.old_end.saturating_add(end - self.new_end);
            self.new_end = end;
        }
        if place < self.from {
            self.from = place;
        }
        self.new_end = (self.new_end - gone).saturating_add(come);
    }

    // What is told of it: nothing of one that takes nothing out and puts nothing in.
    #[inline(always)]
    pub(crate) fn told(self) -> Option<Splice>
        ensures { result ≡ told self }
    {
        if self.from < self.old_end.max(self.new_end) {
            Some(self)
        } else {
            None
        }
    }
}

/// The splice of a text that did not change: any change begins before it.
pub(crate) const UNTOUCHED: Splice = Splice {
    from: usize::MAX,
    old_end: 0,
    new_end: 0,
};

/// A watch that was asked about a text, and then heard of each change of it, takes in all in which the present text
/// differs from that one, so what it tells then is a splice of the two. If it tells none, they are the same.
#[tactic(auto, using(crate::proofs::Texts::SpliceLemmas::splicing))]
pub fn all_that_changed_is_told()
    ensures asked { (text : List ℕ) → IsUtf8 text → length text < 2 ^ 64 → Covers untouched text text }
    ensures heard { (changed : Splice) (event : Event) (old text new : List ℕ) → Covers changed old text → IsUtf8 text
        → length text < 2 ^ 64 → length new < 2 ^ 64 → apply event text ≡ Some new → Covers (spliced changed event) old new }
    ensures tells { (changed : Splice) (old new : List ℕ) → Covers changed old new → MatchOption (told changed) (new ≡ old) (λ splice. Splices splice old new) }
{}

/// A splice makes each of its two texts of the other.
#[tactic(auto, using(crate::proofs::Texts::SpliceLemmas::splicing))]
pub fn a_splice_makes_each_text_of_the_other()
    ensures new { (splice : Splice) (old new : List ℕ) → Splices splice old new
        → take splice.from old ++ slice_range new splice.from splice.new_end ++ drop splice.old_end old ≡ new }
    ensures old { (splice : Splice) (old new : List ℕ) → Splices splice old new
        → take splice.from new ++ slice_range old splice.from splice.old_end ++ drop splice.new_end new ≡ old }
{}

/// A place that moves by a splice stays with the text on its side. The inverse splice, as an undo of the change tells
/// it, brings each place back that outlasted the change.
#[tactic(auto, using(crate::proofs::Texts::SpliceLemmas::moving))]
pub fn a_place_stays_with_the_text_on_its_side()
    ensures stands { (splice : Splice) (side : Side) (old new : List ℕ) (place : ℕ) → Splices splice old new → IsCharBoundary old place
        → IsCharBoundary new (moved splice side place) }
    ensures before { (splice : Splice) (old new : List ℕ) (place : ℕ) → Splices splice old new → place ≤ splice.from
        → take (moved splice Before place) new ≡ take place old }
    ensures after { (splice : Splice) (old new : List ℕ) (place : ℕ) → Splices splice old new → splice.old_end ≤ place
        → drop (moved splice After place) new ≡ drop place old }
    ensures back { (splice : Splice) (side : Side) (old new : List ℕ) (place : ℕ) → Splices splice old new → Outlasts splice side place
        → moved (inverse splice) side (moved splice side place) ≡ place }
{}
