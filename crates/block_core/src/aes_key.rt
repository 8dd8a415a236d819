//! The key expansion of AES (FIPS 197 section 5.2), for keys of 4, 6 and 8 words of four octets.

ghost use Rattle.std.specs.Prelude.{◌≡◌, ◌+◌, ◌-◌, ◌*◌, ◌/◌, ◌≤◌, length};
ghost use Rattle.block_core.specs.Field.{power_of_x};
ghost use Rattle.block_core.specs.AesKey.{AreOctets, scheduled, next_word, expand};

use crate::field::times_x;
use crate::sbox::sub_byte;

/// The round constant `n`, counted from 0: x to the power `n`.
fn round_constant(n: usize) -> u8
    ensures { result ≡ power_of_x n }
{
    let mut c = 1u8;
    for _i in 0..n {
        c = times_x(c);
    }
    c
}

/// The word that is xored into word `i - words` to make word `i`.
fn scheduled(w: &[u8], words: usize, i: usize) -> [u8; 4]
    requires low { 4 ≤ words }
    requires later { words ≤ i }
    requires long { length w.now ≡ 4 * i }
    ensures { result ≡ scheduled words (power_of_x (i / words - 1)) w.now i }
{
    let p = 4 * (i - 1);
    if i % words == 0 {
        let c = round_constant(i / words - 1);
        [
            sub_byte(w[p + 1]) ^ c,
            sub_byte(w[p + 2]),
            sub_byte(w[p + 3]),
            sub_byte(w[p]),
        ]
    } else if words == 8 && i % words == 4 {
        [
            sub_byte(w[p]),
            sub_byte(w[p + 1]),
            sub_byte(w[p + 2]),
            sub_byte(w[p + 3]),
        ]
    } else {
        [w[p], w[p + 1], w[p + 2], w[p + 3]]
    }
}

/// Word `i` of the expanded key, from the words before it.
fn next_word(w: &[u8], words: usize, i: usize) -> [u8; 4]
    requires low { 4 ≤ words }
    requires later { words ≤ i }
    requires long { length w.now ≡ 4 * i }
    ensures { result ≡ next_word words w.now i }
{
    let q = 4 * (i - words);
    let t = scheduled(w, words, i);
    [
        w[q] ^ t[0],
        w[q + 1] ^ t[1],
        w[q + 2] ^ t[2],
        w[q + 3] ^ t[3],
    ]
}

/// Writes a key of `words` words and the `n` words that its expansion puts after it.
pub(crate) fn expand(key: &[u8], words: usize, n: usize, keys: &mut [u8])
    requires low { 4 ≤ words }
    requires key { length key.now ≡ 4 * words }
    requires long { length keys.old ≡ 4 * (words + n) }
    ensures value { keys.new ≡ expand words key.now n }
    ensures octets { AreOctets keys.new }
{
    keys[..4 * words].copy_from_slice(key);
    for i in 0..n {
        let m = words + i;
        let word = next_word(&keys[..4 * m], words, m);
        keys[4 * m..4 * m + 4].copy_from_slice(&word);
    }
}
