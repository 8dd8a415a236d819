//! DES on words of 32 bits: the rounds, and the round keys as words.

ghost use Rattle.std.specs.Prelude.{◌≡◌, ◌*◌, ◌++◌, ◌-◌, ◌<◌, ◌≤◌, cond, length};
ghost use Rattle.block_core.specs.Bits.{AreBits, bits_of, bits_of_octets, number_of, octets_of_bits, pick};
ghost use Rattle.block_core.specs.DesTables.{initial_permutation};
ghost use Rattle.block_core.specs.Des.{cipher_function, final_permutation, keys_of, ordered, under_keys};
ghost use Rattle.block_core.specs.DesWords.{key_of, keys_of_words, packed};

use crate::bits::read_bits;
use crate::des_joined::joined_function;
use crate::des_permutations::{gather, spread};

/// The function f of a round, of a half and a round key of two words. Only the rounds call it.
#[inline(always)]
fn cipher_function(half: u32, even: u32, odd: u32) -> u32
    ensures { bits_of 32 result ≡ cipher_function (bits_of 32 half) (key_of even odd) }
{
    joined_function(half, even, odd)
}

/// The place of the round key that is used in round `i`.
#[inline(always)]
fn place(backwards: bool, i: usize) -> usize
    requires { i < 16 }
    ensures { result ≡ cond backwards (15 - i) i }
{
    if backwards { 15 - i } else { i }
}

/// The block under sixteen round keys, in order or backwards.
#[inline(always)]
pub(crate) fn crypt(keys: &[u32; 32], backwards: bool, block: &mut [u8])
    requires { length block.old ≡ 8 }
    ensures { block.new ≡ under_keys (ordered backwards (keys_of_words 16 keys.now)) block.old }
{
    let halves = spread(block);
    let mut left = (halves >> 32) as u32;
    let mut right = (halves % 0x1_0000_0000) as u32;
    for i in 0..8usize {
        let j = place(backwards, 2 * i);
        let l = left ^ cipher_function(right, keys[2 * j], keys[2 * j + 1]);
        let k = place(backwards, 2 * i + 1);
        let r = right ^ cipher_function(l, keys[2 * k], keys[2 * k + 1]);
        left = l;
        right = r;
    }
    block.copy_from_slice(&gather(right, left).to_be_bytes());
}

/// The word of four groups of six bits of a round key: the one at place `first`, and every second one after it.
fn pack(key: &[u8], first: usize) -> u32
    requires long { length key.now ≡ 48 }
    requires bits { AreBits key.now }
    requires place { first ≤ 6 }
    ensures { result ≡ packed key.now first }
{
    u32::from_be_bytes([
        read_bits(&key[first..first + 6]),
        read_bits(&key[first + 12..first + 18]),
        read_bits(&key[first + 24..first + 30]),
        read_bits(&key[first + 36..first + 42]),
    ])
}

/// The sixteen round keys as pairs of words.
pub(crate) fn pack_keys(bits: &[u8; 768], keys: &mut [u32; 32])
    requires { AreBits bits.now }
    ensures { keys_of_words 16 keys.new ≡ keys_of bits.now }
{
    for i in 0..16usize {
        let key = &bits[48 * i..48 * i + 48];
        keys[2 * i] = pack(key, 0);
        keys[2 * i + 1] = pack(key, 6);
    }
}
