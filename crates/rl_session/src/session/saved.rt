//! A session as bytes, and back.
ghost use Rattle.std.specs.Prelude.{◌≡◌, ◌<◌, ◌≤◌, ◌-◌, ◌↔◌, ◌^◌, ◌++◌, All, Bool, List, ℕ, Err, IfErr, IfOk, IfSome, None, OnOk, Some, drop, false, length, min, take, true};
ghost use Rattle.std.specs.Str.{IsCharBoundary};
ghost use Rattle.rl_base.specs.Saving.{Fits, IsOfPart, Loads};
ghost use Rattle.rl_base.specs.declared.layout.GraphemeClusterMode.{GraphemeClusterMode};
ghost use Rattle.rl_base.specs.declared.saving.LoadFault.TheVariants.{NoMemory, Unknown};
ghost use Rattle.rl_base.specs.declared.saving.SaveFault.TheVariants.{TooLong};
ghost use Rattle.rl_base.specs.declared.saving.Width.TheVariants.{Eight};
ghost use Rattle.rl_line.specs.Line.{Line};
ghost use Rattle.rl_session.specs.SavedSession.{FitsSaving, HasHeading, IsSavedState, checksum, heading, line_numbers, mode_number, option_numbers, saved_line, saved_session, saved_state, sealed, state_numbers, truth_number, unwatched};
ghost use Rattle.rl_session.specs.State.{ChangedFrom, Ends, State};
ghost use Rattle.rl_session.specs.declared.options.Options.{Options};

use crate::options::{Bound, Options};
use crate::pair::Pair;
use crate::session::Session;
use crate::session::opening::filled;
use rl_base::checksum::xxh64;
use rl_base::saving::put_numbers;
use rl_base::{GraphemeClusterMode, KillRing, LoadFault, SaveFault, Unread, Watch, Width};
use rl_line::LineBuffer;
use rl_record::Changeset;
use std::alloc::Global;

// The name of the format, and its version, which `docs/FORMAT.md` says.
const HEADING: [u8; 8] = [108, 111, 100, 118, 97, 114, 110, 1];

impl Session {
    /// The session as bytes, from which `load` makes it again: text and cursor, record, ring and options, but no reports.
    /// `docs/FORMAT.md` says what each byte is. It changes nothing. `TooLong` comes only if a text of the
    /// record has 4 GiB or more, or a place is as far.
    #[tactic(auto, unfolding(crate::specs::SavedSession::sealed))]
    pub fn save(&self) -> Result<Vec<u8>, SaveFault>
        ensures ok { IfOk result (λ bytes. bytes.items ≡ saved_session self.now) }
        ensures loads { OnOk result (IsSavedState self.now) }
        ensures err { IfErr result (λ f. f ≡ TooLong → ¬ (FitsSaving self.now)) }
    {
        let mut out = Vec::with_capacity(self.alloc, self.saved_len())?;
        out.extend_from_slice(&HEADING)?;
        self.put(&mut out)?;
        let checksum = checksum(out.as_slice());
        out.extend_from_slice(&checksum)?;
        Ok(out)
    }

    // How many bytes `save` makes, or the greatest `usize` if they are more.
    fn saved_len(&self) -> usize
        ensures { result ≡ min (length (saved_session self.now)) (2 ^ 64 - 1) }
    {
        let (ring, changes) = (&self.pair.ring, &self.pair.changes);
        let parts = ring.saved_len().saturating_add(changes.saved_len());
        parts.saturating_add(self.line.len()).saturating_add(88)
    }

    // Puts the parts at the end of bytes.
    #[tactic(auto, unfolding(crate::specs::SavedSession::saved_state))]
    fn put(&self, out: &mut Vec<u8>) -> Result<(), SaveFault>
        ensures ok { OnOk result (out.new.items ≡ out.old.items ++ saved_state self.now) }
        ensures loads { OnOk result (IsSavedState self.now) }
        ensures err { IfErr result (λ f. f ≡ TooLong → ¬ (FitsSaving self.now)) }
    {
        self.stands();
        self.put_line(out)?;
        self.pair.ring.save(out)?;
        self.pair.changes.save(out)?;
        Ok(())
    }

    // Puts the numbers and the text.
    #[tactic(auto, unfolding(crate::specs::SavedSession::saved_line))]
    fn put_line(&self, out: &mut Vec<u8>) -> Result<(), SaveFault>
        ensures ok { OnOk result (out.new.items ≡ out.old.items ++ saved_line self.now) }
        ensures fits { OnOk result (All (Fits Eight) (state_numbers self.now)) }
        ensures prompt { self.now.options.prompt < 2 ^ 16 }
        ensures err { IfErr result (λ f. f ≡ TooLong → ⊥) }
    {
        put_numbers(out, Width::Eight, &self.numbers())?;
        out.extend_from_slice(self.line.as_str().as_bytes())?;
        Ok(())
    }

    fn numbers(&self) -> [u64; 9]
        ensures numbers { result ≡ state_numbers self.now }
        ensures prompt { self.now.options.prompt < 2 ^ 16 }
    {
        let (line, options) = (&self.line, &self.options);
        [
            line.limit() as u64,
            line.pos() as u64,
            mode_number(options.mode),
            options.prompt as u64,
            truth_number(options.keeps),
            options.bound.entries as u64,
            options.bound.bytes as u64,
            options.bound.ring_bytes as u64,
            line.len() as u64,
        ]
    }

    /// Makes the session of what `save` wrote, without its reports: nothing changed yet, and none are kept. Whoever wrote
    /// the bytes, `save` of the session writes these. `Unknown` comes exactly if they do not begin as this version begins
    /// them, and any others are `Damaged`: their checksum is wrong, or `save` writes them of no session, as if the record
    /// does not lead to the text and on from it.
    pub fn load(alloc: Global, bytes: &[u8]) -> Result<Session, LoadFault>
        ensures loaded { (s : State) → IsSavedState s → bytes.now ≡ saved_session s → Loads (unwatched s) result }
        ensures read { IfOk result (λ s. IsSavedState s × (bytes.now ≡ saved_session s) × (s ≡ unwatched s)) }
        ensures ends { IfOk result Ends }
        ensures changed { IfOk result (λ s. ChangedFrom s.line.text s) }
        ensures unknown { HasHeading bytes.now ↔ ¬ (result ≡ Err Unknown) }
    {
        let Some(_) = after_heading(bytes) else {
            return Err(LoadFault::Unknown);
        };
        let Some(inside) = unsealed(bytes) else {
            return Err(LoadFault::Damaged);
        };
        Session::read(alloc, inside)
    }

    // Reads the parts, which are all that there is.
    fn read(alloc: Global, inside: &[u8]) -> Result<Session, LoadFault>
        ensures loaded { (s : State) → IsSavedState s → inside.now ≡ saved_state s → Loads (unwatched s) result }
        ensures read { IfOk result (λ s. IsSavedState s × (inside.now ≡ saved_state s) × (s ≡ unwatched s)) }
        ensures part { IfErr result IsOfPart }
        ensures ends { IfOk result Ends }
        ensures changed { IfOk result (λ s. ChangedFrom s.line.text s) }
    {
        let mut bytes = Unread::new(inside);
        let (line, options) = read_line(alloc, &mut bytes)?;
        let ring = KillRing::load(alloc, &mut bytes)?;
        let changes = Changeset::load(alloc, &mut bytes)?;
        if !bytes.is_empty() {
            return Err(LoadFault::Damaged);
        }
        if !changes.walks(&line)? {
            return Err(LoadFault::Damaged);
        }
        let session = Session {
            line,
            pair: Pair {
                ring,
                changes,
                watch: Watch::new(),
            },
            options,
            alloc,
        };
        session.stands();
        session.bounded();
        session.follows();
        Ok(session)
    }
}

// Reads the numbers and the text.
#[tactic(auto, unfolding(crate::specs::SavedSession::saved_line))]
fn read_line(alloc: Global, bytes: &mut Unread) -> Result<(LineBuffer, Options), LoadFault>
    ensures ok { IfOk result (λ made. (s : State) (rest : List ℕ) → IsSavedState s → bytes.old ≡ saved_line s ++ rest → (made.0 ≡ s.line) × (made.1 ≡ s.options) × (bytes.new ≡ rest)) }
    ensures err { IfErr result (λ f. (s : State) (rest : List ℕ) → IsSavedState s → bytes.old ≡ saved_line s ++ rest → f ≡ NoMemory) }
    ensures read { IfOk result (λ made. (s : State) → s.line ≡ made.0 → s.options ≡ made.1
        → (bytes.old ≡ saved_line s ++ bytes.new) × All (Fits Eight) (state_numbers s) × (s.options.prompt < 2 ^ 16)) }
    ensures grows_not { IfOk result (λ made. made.0.grow ≡ false) }
    ensures part { IfErr result IsOfPart }
{
    let mut head = [0; 9];
    if !bytes.numbers(Width::Eight, &mut head) {
        return Err(LoadFault::Damaged);
    }
    let Some(text) = bytes.text(head[8]) else {
        return Err(LoadFault::Damaged);
    };
    let Some(options) = options_of(head) else {
        return Err(LoadFault::Damaged);
    };
    let line = line_of(alloc, head, text)?;
    Ok((line, options))
}

fn truth_number(truth: bool) -> u64
    ensures { result ≡ truth_number truth }
{
    if truth { 1 } else { 0 }
}

fn truth_of(number: u64) -> Option<bool>
    ensures loaded { (truth : Bool) → number ≡ truth_number truth → result ≡ Some truth }
    ensures read { IfSome result (λ truth. number ≡ truth_number truth) }
{
    match number {
        0 => Some(false),
        1 => Some(true),
        _ => None,
    }
}

fn mode_number(mode: GraphemeClusterMode) -> u64
    ensures { result ≡ mode_number mode }
{
    match mode {
        GraphemeClusterMode::Unicode => 0,
        GraphemeClusterMode::WcWidth => 1,
        GraphemeClusterMode::NoZwj => 2,
    }
}

fn mode_of(number: u64) -> Option<GraphemeClusterMode>
    ensures loaded { (mode : GraphemeClusterMode) → number ≡ mode_number mode → result ≡ Some mode }
    ensures read { IfSome result (λ mode. number ≡ mode_number mode) }
{
    match number {
        0 => Some(GraphemeClusterMode::Unicode),
        1 => Some(GraphemeClusterMode::WcWidth),
        2 => Some(GraphemeClusterMode::NoZwj),
        _ => None,
    }
}

// The options of these numbers, which stand after those of the line.
fn options_of(head: [u64; 9]) -> Option<Options>
    ensures loaded { (options : Options) (line : Line) (rest : List ℕ) → options.prompt < 2 ^ 16 → head ≡ line_numbers line ++ (option_numbers options ++ rest) → result ≡ Some options }
    ensures read { IfSome result (λ options. (option_numbers options ≡ take 6 (drop 2 head)) × (options.prompt < 2 ^ 16)) }
{
    let mode = mode_of(head[2])?;
    let prompt = u16::try_from(head[3]).ok()?;
    let keeps = truth_of(head[4])?;
    let bound = Bound {
        entries: head[5] as usize,
        bytes: head[6] as usize,
        ring_bytes: head[7] as usize,
    };
    Some(Options {
        mode,
        prompt,
        bound,
        keeps,
    })
}

// The line of these numbers and a text.
fn line_of(alloc: Global, head: [u64; 9], text: &str) -> Result<LineBuffer, LoadFault>
    ensures ok { IfOk result (λ made. (line : Line) (rest : List ℕ) → line.grow ≡ false → length text.now ≤ line.limit → head ≡ line_numbers line ++ rest → text.now ≡ line.text → made ≡ line) }
    ensures err { IfErr result (λ f. (line : Line) (rest : List ℕ) → line.grow ≡ false → IsCharBoundary line.text line.cursor → length text.now ≤ line.limit → head ≡ line_numbers line ++ rest → text.now ≡ line.text → f ≡ NoMemory) }
    ensures read { IfOk result (λ made. (line_numbers made ≡ take 2 head) × (made.text ≡ text.now) × (made.grow ≡ false)) }
    ensures part { IfErr result IsOfPart }
{
    let (limit, pos) = (head[0] as usize, head[1] as usize);
    if text.len() > limit || !text.is_char_boundary(pos) {
        return Err(LoadFault::Damaged);
    }
    match filled(LineBuffer::with_limit(alloc, limit), text, pos) {
        Ok(line) => Ok(line),
        Err(_) => Err(LoadFault::NoMemory),
    }
}

// What stands after the heading, if the bytes begin with it.
fn after_heading(bytes: &[u8]) -> Option<&[u8]>
    ensures some { IfSome result (λ after. bytes.now ≡ heading ++ after.now) }
    ensures none { result ≡ None → (after : List ℕ) → bytes.now ≡ heading ++ after → ⊥ }
{
    if bytes.len() < 8 {
        return None;
    }
    let (front, after) = bytes.split_at(8);
    if front != HEADING.as_slice() {
        return None;
    }
    Some(after)
}

#[tactic(auto, unfolding(crate::specs::SavedSession::checksum))]
fn checksum(bytes: &[u8]) -> [u8; 8]
    ensures { result ≡ checksum bytes.now }
{
    xxh64(bytes).to_le_bytes()
}

// What stands before the checksum, if that is right.
#[tactic(auto, using(crate::proofs::Sessions::BytesLemmas::checking))]
fn checked(bytes: &[u8]) -> Option<&[u8]>
    ensures some { IfSome result (λ front. bytes.now ≡ front.now ++ checksum front.now) }
    ensures none { result ≡ None → (front : List ℕ) → bytes.now ≡ front ++ checksum front → ⊥ }
{
    if bytes.len() < 8 {
        return None;
    }
    let (front, after) = bytes.split_at(bytes.len() - 8);
    if checksum(front).as_slice() == after {
        return Some(front);
    }
    None
}

// What stands between the heading and the checksum.
#[tactic(auto, unfolding(crate::specs::SavedSession::sealed))]
fn unsealed(bytes: &[u8]) -> Option<&[u8]>
    ensures some { IfSome result (λ inside. bytes.now ≡ sealed inside.now) }
    ensures none { result ≡ None → (inside : List ℕ) → bytes.now ≡ sealed inside → ⊥ }
{
    after_heading(checked(bytes)?)
}
