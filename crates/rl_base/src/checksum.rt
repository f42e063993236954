//! The checksum of bytes: XXH64 of the xxHash family, with the seed 0.
ghost use Rattle.std.specs.Prelude.{◌≡◌, ◌≤◌, ◌/◌, ◌^◌, bit_xor, fold, length};
ghost use Rattle.std.specs.Int.{rotate_left, w64};
ghost use Rattle.rl_base.specs.Checksum.{after_byte, after_eight, after_four, after_rest, after_stripe, all_pieces, avalanche, folded, lanes, merged, past_pieces, plus, round, striped, times, turned, after_lane, xxh64};

use byteorder::{ByteOrder, LittleEndian};

// What takes in the stripes of 32 bytes, each lane a word of each.
#[derive(Clone, Copy)]
struct Lanes {
    a: u64,
    b: u64,
    c: u64,
    d: u64,
}

const PRIME_1: u64 = 0x9e37_79b1_85eb_ca87;

const PRIME_2: u64 = 0xc2b2_ae3d_27d4_eb4f;

const PRIME_3: u64 = 0x1656_67b1_9e37_79f9;

const PRIME_4: u64 = 0x85eb_ca77_c2b2_ae63;

const PRIME_5: u64 = 0x27d4_eb2f_1656_67c5;

/// The checksum of bytes, in a time of their number.
#[tactic(auto, unfolding(crate::specs::Checksum::xxh64, crate::specs::Checksum::plus))]
pub fn xxh64(bytes: &[u8]) -> u64
    ensures { result ≡ xxh64 bytes.now }
{
    let (sum, rest) = striped(bytes);
    avalanche(after_rest(sum.wrapping_add(bytes.len() as u64), rest))
}

// The stripes in one word, and what stands after them.
#[tactic(auto, unfolding(crate::specs::Checksum::striped))]
fn striped(bytes: &[u8]) -> (u64, &[u8])
    ensures sum { result.0 ≡ striped bytes.now }
    ensures rest { result.1.now ≡ past_pieces 32 bytes.now }
{
    let (lanes, rest) = after_stripes(bytes);
    if bytes.len() < 32 {
        return (PRIME_5, rest);
    }
    (merged(lanes), rest)
}

#[tactic(auto, using(crate::proofs::Texts::ChecksumLemmas::piecewise))]
fn after_stripes(bytes: &[u8]) -> (Lanes, &[u8])
    ensures lanes { result.0 ≡ all_pieces after_stripe 32 lanes bytes.now }
    ensures rest { result.1.now ≡ past_pieces 32 bytes.now }
{
    let mut lanes = Lanes {
        a: PRIME_1.wrapping_add(PRIME_2),
        b: PRIME_2,
        c: 0,
        d: 0u64.wrapping_sub(PRIME_1),
    };
    let mut rest = bytes;
    while rest.len() >= 32 {
        lanes = after_stripe(lanes, rest);
        rest = &rest[32..];
    }
    (lanes, rest)
}

#[tactic(auto, unfolding(crate::specs::Checksum::after_stripe))]
fn after_stripe(lanes: Lanes, bytes: &[u8]) -> Lanes
    requires { 32 ≤ length bytes.now }
    ensures { result ≡ after_stripe lanes bytes.now }
{
    Lanes {
        a: round(lanes.a, LittleEndian::read_uint(bytes, 8)),
        b: round(lanes.b, LittleEndian::read_uint(&bytes[8..], 8)),
        c: round(lanes.c, LittleEndian::read_uint(&bytes[16..], 8)),
        d: round(lanes.d, LittleEndian::read_uint(&bytes[24..], 8)),
    }
}

#[tactic(auto, unfolding(crate::specs::Checksum::round, crate::specs::Checksum::plus, crate::specs::Checksum::times, crate::specs::Checksum::turned))]
fn round(lane: u64, word: u64) -> u64
    ensures { result ≡ round lane word }
{
    let sum = lane.wrapping_add(word.wrapping_mul(PRIME_2));
    sum.rotate_left(31).wrapping_mul(PRIME_1)
}

#[tactic(auto, unfolding(crate::specs::Checksum::merged, crate::specs::Checksum::plus, crate::specs::Checksum::turned))]
fn merged(lanes: Lanes) -> u64
    ensures { result ≡ merged lanes }
{
    let Lanes { a, b, c, d } = lanes;
    let low = a.rotate_left(1).wrapping_add(b.rotate_left(7));
    let sum = low
        .wrapping_add(c.rotate_left(12))
        .wrapping_add(d.rotate_left(18));
    after_lane(after_lane(after_lane(after_lane(sum, a), b), c), d)
}

#[tactic(auto, unfolding(crate::specs::Checksum::after_lane, crate::specs::Checksum::plus, crate::specs::Checksum::times))]
fn after_lane(sum: u64, lane: u64) -> u64
    ensures { result ≡ after_lane sum lane }
{
    (sum ^ round(0, lane))
        .wrapping_mul(PRIME_1)
        .wrapping_add(PRIME_4)
}

// The sum after what stands behind the stripes.
#[tactic(auto, unfolding(crate::specs::Checksum::after_rest))]
fn after_rest(sum: u64, bytes: &[u8]) -> u64
    ensures { result ≡ after_rest sum bytes.now }
{
    let (sum, rest) = after_eights(sum, bytes);
    let (sum, rest) = after_fours(sum, rest);
    rest.iter().fold(sum, |sum, byte| after_byte(sum, *byte))
}

#[tactic(auto, using(crate::proofs::Texts::ChecksumLemmas::piecewise))]
fn after_eights(sum: u64, bytes: &[u8]) -> (u64, &[u8])
    ensures sum { result.0 ≡ all_pieces after_eight 8 sum bytes.now }
    ensures rest { result.1.now ≡ past_pieces 8 bytes.now }
{
    let mut mixed = sum;
    let mut rest = bytes;
    while rest.len() >= 8 {
        mixed = after_eight(mixed, rest);
        rest = &rest[8..];
    }
    (mixed, rest)
}

#[tactic(auto, using(crate::proofs::Texts::ChecksumLemmas::piecewise))]
fn after_fours(sum: u64, bytes: &[u8]) -> (u64, &[u8])
    ensures sum { result.0 ≡ all_pieces after_four 4 sum bytes.now }
    ensures rest { result.1.now ≡ past_pieces 4 bytes.now }
{
    let mut mixed = sum;
    let mut rest = bytes;
    while rest.len() >= 4 {
        mixed = after_four(mixed, rest);
        rest = &rest[4..];
    }
    (mixed, rest)
}

#[tactic(auto, unfolding(crate::specs::Checksum::after_eight, crate::specs::Checksum::plus, crate::specs::Checksum::times, crate::specs::Checksum::turned))]
fn after_eight(sum: u64, bytes: &[u8]) -> u64
    requires { 8 ≤ length bytes.now }
    ensures { result ≡ after_eight sum bytes.now }
{
    let mixed = sum ^ round(0, LittleEndian::read_uint(bytes, 8));
    mixed
        .rotate_left(27)
        .wrapping_mul(PRIME_1)
        .wrapping_add(PRIME_4)
}

#[tactic(auto, unfolding(crate::specs::Checksum::after_four, crate::specs::Checksum::plus, crate::specs::Checksum::times, crate::specs::Checksum::turned))]
fn after_four(sum: u64, bytes: &[u8]) -> u64
    requires { 4 ≤ length bytes.now }
    ensures { result ≡ after_four sum bytes.now }
{
    let mixed = sum ^ LittleEndian::read_uint(bytes, 4).wrapping_mul(PRIME_1);
    mixed
        .rotate_left(23)
        .wrapping_mul(PRIME_2)
        .wrapping_add(PRIME_3)
}

#[tactic(auto, unfolding(crate::specs::Checksum::after_byte, crate::specs::Checksum::times, crate::specs::Checksum::turned))]
fn after_byte(sum: u64, byte: u8) -> u64
    ensures { result ≡ after_byte sum byte }
{
    let mixed = sum ^ u64::from(byte).wrapping_mul(PRIME_5);
    mixed.rotate_left(11).wrapping_mul(PRIME_1)
}

// Spreads each bit of a word over all.
#[tactic(auto, unfolding(crate::specs::Checksum::avalanche, crate::specs::Checksum::folded, crate::specs::Checksum::times))]
fn avalanche(sum: u64) -> u64
    ensures { result ≡ avalanche sum }
{
    let first = (sum ^ sum >> 33).wrapping_mul(PRIME_2);
    let second = (first ^ first >> 29).wrapping_mul(PRIME_3);
    second ^ second >> 32
}
