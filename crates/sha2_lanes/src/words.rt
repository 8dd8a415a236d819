//! Octets as vectors of words, and back.
ghost use Rattle.std.specs.Prelude.{◌≡◌, ℕ, ◌*◌, ◌≤◌, ◌+◌, ◌<◌, List, [], ◌∷◌, length, map, slice_index, slice_index_or};
ghost use Rattle.sha2.specs.Sha256.{compress, initial_hash_256, word_at};
ghost use Rattle.sha2_lanes.specs.Lanes.{AreWordsOf, IsAfter, lane, octets};

use crate::compression::compress;
use crate::constants::H;
use std::simd::u32x4;

/// The word of four octets from place `i`, the highest octet first.
fn word_at(block: &[u8], i: usize) -> u32
    requires { i + 4 ≤ length block.now }
    ensures { result ≡ word_at block.now i }
{
    u32::from_be_bytes([block[i], block[i + 1], block[i + 2], block[i + 3]])
}

/// Word `i` of each of four texts.
fn words_at<const N: usize>(texts: &[[u8; N]; 4], i: usize) -> u32x4
    requires { 4 * i + 4 ≤ N }
    ensures { (j : ℕ) → j < 4
        → slice_index result j ≡ word_at (slice_index_or texts.now j []) (4 * i) }
{
    u32x4::from_array([
        word_at(&texts[0], 4 * i),
        word_at(&texts[1], 4 * i),
        word_at(&texts[2], 4 * i),
        word_at(&texts[3], 4 * i),
    ])
}

/// The words of four blocks.
fn block_words(blocks: &[[u8; 64]; 4]) -> [u32x4; 16]
    ensures { (j : ℕ) → j < 4 → AreWordsOf (lane j result) (slice_index_or blocks.now j []) }
{
    let mut words = [u32x4::splat(0); 16];
    'words: for i in 0..16 {
        words[i] = words_at(blocks, i);
    }
    words
}

/// The initial hash value (FIPS 180-4 section 5.3.3) in each lane.
fn initial() -> [u32x4; 8]
    ensures { (j : ℕ) → j < 4 → lane j result ≡ initial_hash_256 }
{
    [
        u32x4::splat(H[0]),
        u32x4::splat(H[1]),
        u32x4::splat(H[2]),
        u32x4::splat(H[3]),
        u32x4::splat(H[4]),
        u32x4::splat(H[5]),
        u32x4::splat(H[6]),
        u32x4::splat(H[7]),
    ]
}

/// That an array of 32 octets has 32 numbers below 256.
fn octets_are_small(_text: [u8; 32])
    ensures { (length _text ≡ 32) × ((i : ℕ) → slice_index _text i < 256) }
{}

/// That an array of 64 octets has 64 numbers.
fn blocks_are_long(_block: [u8; 64])
    ensures { length _block ≡ 64 }
{}

/// The hash values of four messages after their first blocks (FIPS 180-4 section 6.2.2). `blocks[j]` has the first
/// 64 octets of message `j`. Each of the eight vectors of the result holds a word of the hash value for each
/// message, that of message `j` as its element `j`.
pub fn after_block(blocks: &[[u8; 64]; 4]) -> [u32x4; 8]
    ensures { (j : ℕ) → j < 4 → IsAfter (lane j result) (slice_index_or blocks.now j []) }
{
    blocks_are_long(blocks[0]);
    blocks_are_long(blocks[1]);
    blocks_are_long(blocks[2]);
    blocks_are_long(blocks[3]);
    compress(&initial(), &block_words(blocks))
}

/// The octets of the hash value in lane `j`.
fn lane_octets(words: &[u32x4; 8], j: usize) -> [u8; 32]
    requires { j < 4 }
    ensures { result ≡ octets (lane j words.now) }
{
    let [a0, a1, a2, a3] = words[0].to_array()[j].to_be_bytes();
    let [b0, b1, b2, b3] = words[1].to_array()[j].to_be_bytes();
    let [c0, c1, c2, c3] = words[2].to_array()[j].to_be_bytes();
    let [d0, d1, d2, d3] = words[3].to_array()[j].to_be_bytes();
    let [e0, e1, e2, e3] = words[4].to_array()[j].to_be_bytes();
    let [f0, f1, f2, f3] = words[5].to_array()[j].to_be_bytes();
    let [g0, g1, g2, g3] = words[6].to_array()[j].to_be_bytes();
    let [h0, h1, h2, h3] = words[7].to_array()[j].to_be_bytes();
    [
        a0, a1, a2, a3, b0, b1, b2, b3, c0, c1, c2, c3, d0, d1, d2, d3, e0, e1, e2, e3, f0, f1, f2,
        f3, g0, g1, g2, g3, h0, h1, h2, h3,
    ]
}

/// The octets of four hash values: 32 for each message, the highest octet of a word first. Element `j` is for the
/// message whose words are the elements `j` of the eight vectors.
pub fn to_octets(words: &[u32x4; 8]) -> [[u8; 32]; 4]
    ensures { result ≡ map (λ j. octets (lane j words.now)) (0 ∷ 1 ∷ 2 ∷ 3 ∷ []) }
{
    [
        lane_octets(words, 0),
        lane_octets(words, 1),
        lane_octets(words, 2),
        lane_octets(words, 3),
    ]
}

/// The hash values that these octets spell, the highest octet of a word first. `texts[j]` has the 32 octets for
/// message `j`, whose words are the elements `j` of the eight vectors of the result.
pub fn from_octets(texts: &[[u8; 32]; 4]) -> [u32x4; 8]
    ensures { (j : ℕ) → j < 4 → octets (lane j result) ≡ slice_index_or texts.now j [] }
{
    octets_are_small(texts[0]);
    octets_are_small(texts[1]);
    octets_are_small(texts[2]);
    octets_are_small(texts[3]);
    [
        words_at(texts, 0),
        words_at(texts, 1),
        words_at(texts, 2),
        words_at(texts, 3),
        words_at(texts, 4),
        words_at(texts, 5),
        words_at(texts, 6),
        words_at(texts, 7),
    ]
}
