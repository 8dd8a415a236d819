//! The end of a message of 96 octets, and the xor of hash values.
ghost use Rattle.std.specs.Prelude.{◌≡◌, ℕ, ◌<◌, ◌^◌, ◌++◌, List, slice_index};
ghost use Rattle.block_core.specs.Bits.{xor_each};
ghost use Rattle.sha2.specs.Sha256.{padding, sha256};
ghost use Rattle.sha2_lanes.specs.Lanes.{AreWordsOf, IsAfter, lane, octets};

use crate::compression::{compress, xor};
use std::simd::u32x4;

/// The length in bits of a message of 96 octets, with which its padding ends (FIPS 180-4 section 5.1.1).
const BITS_OF_96_OCTETS: u32 = 768;

/// That the lanes of a vector are below 2^32.
#[inline(always)]
fn lanes_are_words(_vector: u32x4)
    ensures { (j : ℕ) → j < 4 → slice_index _vector j < 2 ^ 32 }
{}

/// The block of the last 32 octets of a message of 96, with its padding (FIPS 180-4 section 5.1.1).
#[inline(always)]
fn last_block(words: &[u32x4; 8]) -> [u32x4; 16]
    ensures { (j : ℕ) → j < 4
        → AreWordsOf (lane j result) (octets (lane j words.now) ++ padding 96) }
{
    lanes_are_words(words[0]);
    lanes_are_words(words[1]);
    lanes_are_words(words[2]);
    lanes_are_words(words[3]);
    lanes_are_words(words[4]);
    lanes_are_words(words[5]);
    lanes_are_words(words[6]);
    lanes_are_words(words[7]);
    let zero = u32x4::splat(0);
    [
        words[0],
        words[1],
        words[2],
        words[3],
        words[4],
        words[5],
        words[6],
        words[7],
        u32x4::splat(0x8000_0000),
        zero,
        zero,
        zero,
        zero,
        zero,
        zero,
        u32x4::splat(BITS_OF_96_OCTETS),
    ]
}

/// The hash values of four messages of 96 octets (FIPS 180-4 section 6.2.2). `state` has those after their first blocks,
/// and `words` the other 32 octets of each.
pub fn finish_96(state: &[u32x4; 8], words: &[u32x4; 8]) -> [u32x4; 8]
    ensures { (j : ℕ) → j < 4 → (block : List ℕ) → IsAfter (lane j state.now) block
        → octets (lane j result) ≡ sha256 (block ++ octets (lane j words.now)) }
{
    compress(state, &last_block(words))
}

/// The bitwise exclusive or of two hash values, for each of four messages: of `a` and `b` for message `j`, whose
/// words are the elements `j` of the eight vectors.
#[inline(always)]
pub fn xor_words(a: &[u32x4; 8], b: &[u32x4; 8]) -> [u32x4; 8]
    ensures { (j : ℕ) → j < 4
        → octets (lane j result) ≡ xor_each (octets (lane j a.now)) (octets (lane j b.now)) }
{
    [
        xor(a[0], b[0]),
        xor(a[1], b[1]),
        xor(a[2], b[2]),
        xor(a[3], b[3]),
        xor(a[4], b[4]),
        xor(a[5], b[5]),
        xor(a[6], b[6]),
        xor(a[7], b[7]),
    ]
}
