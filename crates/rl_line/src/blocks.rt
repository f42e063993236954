//! A text in blocks, which changes anywhere at the cost of a block.
ghost use Rattle.std.specs.Prelude.{◌≡◌, [], ◌++◌, ◌+◌, ◌^◌, ◌<◌, ◌≤◌, List, ℕ, IfErr, IfOk, drop, get_or, length, slice_index, slice_range, take, ◌&&◌};
ghost use Rattle.std.specs.List.{flat_map, insert_slice, remove_range};
ghost use Rattle.std.specs.Option.{option_map_or};
ghost use Rattle.std.specs.Str.{bytes_eq};
ghost use Rattle.rl_base.specs.Text.{is_boundary, stands_at};
ghost use Rattle.rl_line.specs.Blocks.{LiesIn, begins_character};
ghost use Rattle.rl_base.specs.declared.listeners.Refusal.TheVariants.{NoMemory};

use crate::tails::swap_bytes;
use rl_base::Refusal;
use std::alloc::Global;
use std::marker::Model;

// How many bytes a block has at most, how many of them may be put in at once, and how many parts a row has.
const BLOCK: usize = 4096;

const PIECE: usize = 2048;

const ROW: usize = 32;

// How long a text may be: as long as a `String`.
const MOST: usize = usize::MAX / 2;

/// A part of a text.
pub(crate) trait Part: Sized + Drop {
    ghost text: { Self → List ℕ };

    /// A part of these bytes.
    fn of(alloc: Global, piece: &[u8]) -> Result<Self, Refusal>
        ensures ok { IfOk result (λ part. text part ≡ piece.now) }
        ensures err { IfErr result (λ r. r ≡ NoMemory) };

    /// How long it is.
    fn size(&self) -> usize
        ensures { result ≡ length (text self.now) };

    /// What stands from a place on in one block.
    fn run(&self, at: usize) -> &[u8]
        requires { at < length (text self.now) }
        ensures some { 0 < length result.now }
        ensures stands { result.now ≡ take (length result.now) (drop at (text self.now)) };

    /// Takes out at most so many bytes from a place on, in one block. Answers how many.
    fn cut(&mut self, at: usize, most: usize) -> usize
        requires at { at < length (text self.old) }
        requires most { 0 < most }
        ensures some { 0 < result }
        ensures most { result ≤ most }
        ensures within { at + result ≤ length (text self.old) }
        ensures text { text self.new ≡ remove_range (text self.old) at (at + result) };

    /// Puts a piece in at a place. What has no room here is another part, which comes next.
    fn put(&mut self, at: usize, piece: &[u8]) -> Result<Option<Self>, Refusal>
        requires { at ≤ length (text self.old) }
        ensures ok { IfOk result (λ more. text self.new ++ option_map_or text more [] ≡ insert_slice (text self.old) at piece.now) }
        ensures err { IfErr result (λ r. r ≡ NoMemory) };
}

// Puts a piece into a block.
fn put_in(block: &mut Vec<u8>, at: usize, piece: &[u8]) -> Result<(), Refusal>
    requires { at ≤ length block.old.items }
    ensures ok { IfOk result (λ _. block.new.items ≡ insert_slice block.old.items at piece.now) }
    ensures err { IfErr result (λ r. r ≡ NoMemory) }
{
    block.reserve(piece.len())?;
    swap_bytes(block, at, at, piece);
    Ok(())
}

impl Part for Vec<u8> {
    ghost text = { λ block. block.items };

    fn of(alloc: Global, piece: &[u8]) -> Result<Self, Refusal> {
        let mut block = Vec::with_capacity(alloc, piece.len())?;
        block.extend_from_slice(piece)?;
        Ok(block)
    }

    fn size(&self) -> usize {
        self.len()
    }

    fn run(&self, at: usize) -> &[u8] {
        &self[at..]
    }

    fn cut(&mut self, at: usize, most: usize) -> usize {
        let count = most.min(self.len() - at);
        swap_bytes(self, at, at + count, &[]);
        count
    }

    #[tactic(auto, using(crate::proofs::Lines::BlockLemmas::halves))]
    fn put(&mut self, at: usize, piece: &[u8]) -> Result<Option<Self>, Refusal> {
        if piece.len() <= BLOCK.saturating_sub(self.len()) {
            put_in(self, at, piece)?;
            return Ok(None);
        }
        let half = self.len() / 2;
        let mut more = self.split_off(half)?;
        if at <= half {
            put_in(self, at, piece)?;
            return Ok(Some(more));
        }
        put_in(&mut more, at - half, piece)?;
        Ok(Some(more))
    }
}

/// Parts of a text, one after another.
#[derive(Drop)]
pub(crate) struct Row<P: Part> {
    len: usize,
    parts: Vec<P>,
}

impl<P: Part> Model for Row<P> {
    ghost use Rattle.std.specs.Prelude.{◌≡◌, ◌<◌, ◌^◌, ℕ, List, length};
    ghost use Rattle.std.specs.List.{flat_map};

    ghost Value = { List ℕ };

    ghost view = { λ r. flat_map P.text r.parts.items };

    ghost invariant = { λ r. (r.len ≡ length (flat_map P.text r.parts.items)) × (r.len < 2 ^ 63) };
}

// The part in which the byte at a place lies, and where it lies there.
fn find<P: Part>(parts: &[P], at: usize) -> (usize, usize)
    requires { at < length (flat_map P.text parts.now) }
    ensures lies { LiesIn P.text parts.now at result.0 result.1 }
    ensures within { (part : P) → part ≡ get_or parts.now result.0 part → result.1 < length (P.text part) }
{
    let (mut index, mut there) = (0, at);
    while there >= parts[index].size() {
        there -= parts[index].size();
        index += 1;
    }
    (index, there)
}

// The part in which a piece is put in at a place, and where it is put in there: where two parts meet, at the end of the first.
fn find_end<P: Part>(parts: &[P], at: usize) -> (usize, usize)
    requires some { 0 < length parts.now }
    requires at { at ≤ length (flat_map P.text parts.now) }
    ensures lies { LiesIn P.text parts.now at result.0 result.1 }
    ensures within { (part : P) → part ≡ get_or parts.now result.0 part → result.1 ≤ length (P.text part) }
{
    if at == 0 {
        return (0, 0);
    }
    let (index, there) = find(parts, at - 1);
    (index, there + 1)
}

// Puts a piece in among parts.
fn put_among<P: Part>(parts: &mut Vec<P>, at: usize, piece: &[u8]) -> Result<(), Refusal>
    requires { at ≤ length (flat_map P.text parts.old.items) }
    ensures ok { IfOk result (λ _. flat_map P.text parts.new.items ≡ insert_slice (flat_map P.text parts.old.items) at piece.now) }
    ensures err { IfErr result (λ r. r ≡ NoMemory) }
{
    if parts.is_empty() {
        let alloc = *parts.allocator();
        parts.push(P::of(alloc, piece)?)?;
        return Ok(());
    }
    let (index, there) = find_end(parts.as_slice(), at);
    let Some(more) = parts[index].put(there, piece)? else {
        return Ok(());
    };
    parts.insert(index + 1, more)?;
    Ok(())
}

// Takes out at most so many bytes from a place on, in one block of the parts. Answers how many.
fn cut_among<P: Part>(parts: &mut [P], at: usize, most: usize) -> usize
    requires at { at < length (flat_map P.text parts.old) }
    requires most { 0 < most }
    ensures some { 0 < result }
    ensures most { result ≤ most }
    ensures within { at + result ≤ length (flat_map P.text parts.old) }
    ensures text { flat_map P.text parts.new ≡ remove_range (flat_map P.text parts.old) at (at + result) }
{
    let (index, there) = find(parts, at);
    parts[index].cut(there, most)
}

// How long parts are.
fn total<P: Part>(parts: &[P]) -> usize
    requires { length (flat_map P.text parts.now) < 2 ^ 64 }
    ensures { result ≡ length (flat_map P.text parts.now) }
{
    let mut total = 0;
    for part in parts {
        total += part.size();
    }
    total
}

impl<P: Part> Row<P> {
    /// No text.
    pub(crate) fn new(alloc: Global) -> Self
        ensures { result ≡ [] }
    {
        Row {
            len: 0,
            parts: Vec::new(alloc),
        }
    }

    /// How long the text is.
    pub(crate) fn len(&self) -> usize
        ensures value { result ≡ length self.now }
        ensures bound { result < 2 ^ 63 }
    {
        self.len
    }

    // Puts a piece in, however many parts there are then. Without memory for it nothing is left.
    fn place(&mut self, at: usize, piece: &[u8]) -> Result<(), Refusal>
        requires { at ≤ length self.old }
        ensures ok { IfOk result (λ _. self.new ≡ insert_slice self.old at piece.now) }
        ensures err { IfErr result (λ r. (r ≡ NoMemory) × (self.new ≡ [])) }
    {
        if piece.len() > MOST - self.len {
            self.parts.clear();
            self.len = 0;
            return Err(Refusal::NoMemory);
        }
        if let Err(refusal) = put_among(&mut self.parts, at, piece) {
            self.parts.clear();
            self.len = 0;
            return Err(refusal);
        }
        self.len += piece.len();
        Ok(())
    }
}

impl<P: Part> Part for Row<P> {
    ghost text = { λ row. row };

    fn of(alloc: Global, piece: &[u8]) -> Result<Self, Refusal> {
        let mut row = Row::new(alloc);
        row.place(0, piece)?;
        Ok(row)
    }

    fn size(&self) -> usize {
        self.len
    }

    fn run(&self, at: usize) -> &[u8] {
        let (index, there) = find(self.parts.as_slice(), at);
        self.parts[index].run(there)
    }

    fn cut(&mut self, at: usize, most: usize) -> usize {
        let count = cut_among(self.parts.as_mut_slice(), at, most);
        self.len -= count;
        count
    }

    fn put(&mut self, at: usize, piece: &[u8]) -> Result<Option<Self>, Refusal> {
        self.place(at, piece)?;
        if self.parts.len() <= ROW {
            return Ok(None);
        }
        let parts = self.parts.split_off(ROW / 2)?;
        let len = total(parts.as_slice());
        self.len -= len;
        Ok(Some(Row { len, parts }))
    }
}

// Whether a part stands at the start of a run that is longer.
fn stands_first(run: &[u8], part: &[u8]) -> bool
    requires { length part.now < length run.now }
    ensures { result ≡ (begins_character (slice_index run.now 0) && (begins_character (slice_index run.now (length part.now)) && bytes_eq (take (length part.now) run.now) part.now)) }
{
    if !begins_character(run[0]) {
        return false;
    }
    if !begins_character(run[part.len()]) {
        return false;
    }
    &run[..part.len()] == part
}

// Whether a byte of a text is the first of a character.
fn begins_character(byte: u8) -> bool
    ensures { result ≡ begins_character byte }
{
    byte < 128 || byte >= 192
}

/// A text that changes at any place.
pub(crate) type Blocks = Row<Row<Row<Vec<u8>>>>;

impl<P: Part> Row<P> {
    /// Whether a character begins at a place, or the text ends there.
    #[tactic(auto, using(crate::proofs::Lines::BlockLemmas::boundaries))]
    pub(crate) fn is_boundary(&self, at: usize) -> bool
        ensures { result ≡ is_boundary self.now at }
    {
        if at > self.len {
            return false;
        }
        if at == self.len {
            return true;
        }
        let run = self.run(at);
        begins_character(run[0])
    }

    /// Whether a part stands at a place. That is looked for once, if it ends before its block does.
    pub(crate) fn stands_at(&self, at: usize, part: &str) -> bool
        requires { at + length part.now ≤ length self.now }
        ensures { result ≡ stands_at self.now at part.now }
    {
        if at == self.len {
            return true;
        }
        let run = self.run(at);
        if part.len() < run.len() {
            return stands_first(run, part.as_bytes());
        }
        self.stands_across(at, part.as_bytes())
    }

    fn stands_across(&self, at: usize, part: &[u8]) -> bool
        requires { at + length part.now ≤ length self.now }
        ensures { result ≡ (is_boundary self.now at && (is_boundary self.now (at + length part.now) && bytes_eq (slice_range self.now at (at + length part.now)) part.now)) }
    {
        // So the proof knows how long it can be.
        let _len = self.len;
        if !self.is_boundary(at) {
            return false;
        }
        if !self.is_boundary(at + part.len()) {
            return false;
        }
        self.holds(at, part)
    }

    // Whether these bytes stand at a place.
    fn holds(&self, at: usize, bytes: &[u8]) -> bool
        requires { at + length bytes.now ≤ length self.now }
        ensures { result ≡ bytes_eq (slice_range self.now at (at + length bytes.now)) bytes.now }
    {
        // So the proof knows how long it can be.
        let _len = self.len;
        let mut done = 0;
        while done < bytes.len() {
            let run = self.run(at + done);
            let count = run.len().min(bytes.len() - done);
            if &run[..count] != &bytes[done..done + count] {
                return false;
            }
            done += count;
        }
        true
    }

    /// Takes bytes out at a place.
    pub(crate) fn remove(&mut self, at: usize, count: usize)
        requires { at + count ≤ length self.old }
        ensures { self.new ≡ remove_range self.old at (at + count) }
    {
        let mut left = count;
        while left > 0 {
            left -= self.cut(at, left);
        }
    }

    /// Puts bytes in at a place, the last ones first. Without memory for them nothing is left.
    pub(crate) fn insert(&mut self, at: usize, bytes: &[u8]) -> Result<(), Refusal>
        requires { at ≤ length self.old }
        ensures ok { IfOk result (λ _. self.new ≡ insert_slice self.old at bytes.now) }
        ensures err { IfErr result (λ r. (r ≡ NoMemory) × (0 < length bytes.now) × (self.new ≡ [])) }
    {
        let mut left = bytes.len();
        while left > 0 {
            let start = left.saturating_sub(PIECE);
            self.place(at, &bytes[start..left])?;
            left = start;
        }
        Ok(())
    }

    /// Puts a copy of the text at the end of bytes.
    pub(crate) fn copy_to(&self, out: &mut Vec<u8>) -> Result<(), Refusal>
        ensures ok { IfOk result (λ _. out.new.items ≡ out.old.items ++ self.now) }
        ensures err { IfErr result (λ r. (r ≡ NoMemory) × (0 < length self.now)) }
    {
        let mut done = 0;
        while done < self.len {
            let run = self.run(done);
            out.extend_from_slice(run)?;
            done += run.len();
        }
        Ok(())
    }
}
