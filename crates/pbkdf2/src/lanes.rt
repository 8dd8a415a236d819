//! PBKDF2 over HMAC-SHA-256 of four passwords at once.
ghost use Rattle.std.specs.Prelude.{◌≡◌, ℕ, ◌<◌, ◌-◌, List, [], ◌∷◌, max, slice_index_or, take};
ghost use Rattle.mac_modes.specs.Hmac.{hmac, inner_block, outer_block};
ghost use Rattle.pbkdf2.specs.Lanes.{IsKeyedBy, key_of, keys_of};
ghost use Rattle.pbkdf2.specs.Pbkdf2.{xor_through};
ghost use Rattle.sha2.specs.Sha256.{sha256};
ghost use Rattle.sha2_lanes.specs.Lanes.{lane, octets};

use crate::with_hmac::pbkdf2_hmac_array;
use mac_modes::{Sha256, hmac_blocks};
use sha2_lanes::{after_block, finish_96, from_octets, to_octets, xor_words};
use std::simd::u32x4;

/// A password, and the salt with which a key is derived from it.
#[derive(Clone, Copy, Drop)]
pub struct PasswordAndSalt<'a> {
    /// The octets of the password.
    pub password: &'a [u8],
    /// The octets of the salt.
    pub salt: &'a [u8],
}

/// The first 64 of 128 octets.
fn front_of(block: &[u8; 128]) -> [u8; 64]
    ensures { result ≡ take 64 block.now }
{
    let mut front = [0u8; 64];
    front.copy_from_slice(&block[..64]);
    front
}

/// The two blocks that HMAC-SHA-256 makes of a key.
fn key_blocks(key: &[u8]) -> ([u8; 64], [u8; 64])
    ensures inner { result.0 ≡ inner_block sha256 64 key.now }
    ensures outer { result.1 ≡ outer_block sha256 64 key.now }
{
    let (inner, outer) = hmac_blocks::<Sha256>(key);
    (front_of(&inner), front_of(&outer))
}

/// HMAC-SHA-256 of four messages of 32 octets, from the hash values after the two blocks of each key.
fn hmac_words(inner: &[u32x4; 8], outer: &[u32x4; 8], words: &[u32x4; 8]) -> [u32x4; 8]
    ensures { (j : ℕ) → j < 4 → (k : List ℕ) → IsKeyedBy (lane j inner.now) (lane j outer.now) k
        → octets (lane j result) ≡ hmac sha256 64 k (octets (lane j words.now)) }
{
    let middle = finish_96(inner, words);
    finish_96(outer, &middle)
}

/// The xor of each first output and of the `turns` outputs after it, each of which is that of the one before.
fn xor_outputs(inner: &[u32x4; 8], outer: &[u32x4; 8], first: &[u32x4; 8], turns: u32) -> [u32x4; 8]
    ensures { (j : ℕ) → j < 4 → (k : List ℕ) → IsKeyedBy (lane j inner.now) (lane j outer.now) k
        → octets (lane j result)
        ≡ xor_through (hmac sha256 64 k) (octets (lane j first.now)) turns }
{
    let mut last = *first;
    let mut sum = *first;
    'turns: for turn in 0..turns {
        last = hmac_words(inner, outer, &last);
        sum = xor_words(&sum, &last);
    }
    sum
}

/// The key of one round.
fn first_key(input: &PasswordAndSalt<'_>) -> [u8; 32]
    ensures { result ≡ key_of 1 input.now }
{
    pbkdf2_hmac_array::<Sha256, 32>(input.password, input.salt, 1)
}

/// The keys of 32 octets that are derived from four passwords and salts by HMAC-SHA-256, all in this number of rounds
/// (RFC 8018 section 5.2); 0 rounds run like 1. It takes about as long as two keys one after the other. A key of fewer
/// octets is the front of one of 32.
pub fn pbkdf2_hmac_sha256_four(inputs: &[PasswordAndSalt<'_>; 4], rounds: u32) -> [[u8; 32]; 4]
    ensures { result ≡ keys_of rounds inputs.now }
{
    let [a, b, c, d] = *inputs;
    let (inner_a, outer_a) = key_blocks(a.password);
    let (inner_b, outer_b) = key_blocks(b.password);
    let (inner_c, outer_c) = key_blocks(c.password);
    let (inner_d, outer_d) = key_blocks(d.password);
    let inner = after_block(&[inner_a, inner_b, inner_c, inner_d]);
    let outer = after_block(&[outer_a, outer_b, outer_c, outer_d]);
    let first = from_octets(&[first_key(&a), first_key(&b), first_key(&c), first_key(&d)]);
    to_octets(&xor_outputs(&inner, &outer, &first, rounds.max(1) - 1))
}
