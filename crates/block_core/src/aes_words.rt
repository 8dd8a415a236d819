//! The rounds of AES (FIPS 197 sections 5.1 and 5.3) by tables, on a state of four words, one for each column.

ghost use Rattle.std.specs.Prelude.{◌≡◌, ◌+◌, ◌*◌, ◌≤◌, ◌<◌, [], ◌∷◌, length, map};
ghost use Rattle.std.specs.Int.{w32, to_be_bytes};
ghost use Rattle.block_core.specs.Sbox.{sub_byte, inv_sub_byte};
ghost use Rattle.block_core.specs.AesRounds.{sub_bytes, shift_rows, mix_columns, add_round_key, encrypt_with, inv_sub_bytes, inv_shift_rows, inv_mix_columns, decrypt_with};
ghost use Rattle.block_core.specs.AesWords.{AreUnmixed, key_column, mixed_word, octets_of, octets_of_words, word};

use crate::aes_tables::{inv_sub_and_inv_mix, sub_and_mix};
use crate::sbox::{inv_sub_byte, sub_byte};

/// A column of a round: SubBytes and MixColumns of its four octets. Only the rounds call it.
#[inline(always)]
fn column(a: u8, b: u8, c: u8, d: u8) -> u32
    ensures { result ≡ mixed_word 0x02 0x03 0x01 0x01 (map sub_byte (a ∷ b ∷ c ∷ d ∷ [])) }
{
    sub_and_mix(a, b, c, d)
}

/// Column `c` of round key `n`.
#[inline(always)]
fn key_word(keys: &[u32], n: usize, c: usize) -> u32
    requires column { c < 4 }
    requires room { 4 * n + 4 ≤ length keys.now }
    ensures { result ≡ key_column (octets_of_words keys.now) n c }
{
    keys[4 * n + c]
}

/// A round, with round key `n`.
#[inline(always)]
fn round(w: [u32; 4], keys: &[u32], n: usize) -> [u32; 4]
    requires { 4 * n + 4 ≤ length keys.now }
    ensures { octets_of result
        ≡ add_round_key (octets_of_words keys.now) n
        (mix_columns (shift_rows (sub_bytes (octets_of w)))) }
{
    let a = w[0].to_be_bytes();
    let b = w[1].to_be_bytes();
    let c = w[2].to_be_bytes();
    let d = w[3].to_be_bytes();
    [
        column(a[0], b[1], c[2], d[3]) ^ key_word(keys, n, 0),
        column(b[0], c[1], d[2], a[3]) ^ key_word(keys, n, 1),
        column(c[0], d[1], a[2], b[3]) ^ key_word(keys, n, 2),
        column(d[0], a[1], b[2], c[3]) ^ key_word(keys, n, 3),
    ]
}

/// The octets of a column through the S-box.
#[inline(always)]
fn last_column(a: u8, b: u8, c: u8, d: u8) -> u32
    ensures { result ≡ word (sub_byte a) (sub_byte b) (sub_byte c) (sub_byte d) }
{
    u32::from_be_bytes([sub_byte(a), sub_byte(b), sub_byte(c), sub_byte(d)])
}

/// The last round, which has no MixColumns, with round key `n`.
#[inline(always)]
fn last_round(w: [u32; 4], keys: &[u32], n: usize) -> [u32; 4]
    requires { 4 * n + 4 ≤ length keys.now }
    ensures { octets_of result
        ≡ add_round_key (octets_of_words keys.now) n (shift_rows (sub_bytes (octets_of w))) }
{
    let a = w[0].to_be_bytes();
    let b = w[1].to_be_bytes();
    let c = w[2].to_be_bytes();
    let d = w[3].to_be_bytes();
    [
        last_column(a[0], b[1], c[2], d[3]) ^ key_word(keys, n, 0),
        last_column(b[0], c[1], d[2], a[3]) ^ key_word(keys, n, 1),
        last_column(c[0], d[1], a[2], b[3]) ^ key_word(keys, n, 2),
        last_column(d[0], a[1], b[2], c[3]) ^ key_word(keys, n, 3),
    ]
}

/// Column `c` of a block.
#[inline(always)]
fn block_word(s: &[u8], c: usize) -> u32
    requires column { c < 4 }
    requires long { length s.now ≡ 16 }
    ensures { result ≡ key_column s.now 0 c }
{
    u32::from_be_bytes([s[4 * c], s[4 * c + 1], s[4 * c + 2], s[4 * c + 3]])
}

/// The columns of a block, with round key `n` added.
#[inline(always)]
fn load(s: &[u8], keys: &[u32], n: usize) -> [u32; 4]
    requires long { length s.now ≡ 16 }
    requires room { 4 * n + 4 ≤ length keys.now }
    ensures { octets_of result
        ≡ add_round_key (octets_of_words keys.now) n s.now }
{
    [
        block_word(s, 0) ^ key_word(keys, n, 0),
        block_word(s, 1) ^ key_word(keys, n, 1),
        block_word(s, 2) ^ key_word(keys, n, 2),
        block_word(s, 3) ^ key_word(keys, n, 3),
    ]
}

/// Writes the columns into a block.
#[inline(always)]
fn store(w: [u32; 4], s: &mut [u8])
    requires { length s.old ≡ 16 }
    ensures { s.new ≡ octets_of w }
{
    for i in 0..4 {
        s[4 * i..4 * i + 4].copy_from_slice(&w[i].to_be_bytes());
    }
}

/// Cipher, under an expanded key, of `n` rounds and the last one.
pub(crate) fn encrypt(keys: &[u32], n: usize, s: &mut [u8])
    requires long { length s.old ≡ 16 }
    requires some { 1 ≤ n }
    requires room { 4 * n + 8 ≤ length keys.now }
    ensures { s.new ≡ encrypt_with (octets_of_words keys.now) n s.old }
{
    let begun = load(s, keys, 0);
    // The first round by itself: else the compiler keeps the state in one vector, and takes it apart in each round.
    let mut w = round(begun, keys, 1);
    for i in 1..n {
        let next = round(w, keys, i + 1);
        w = next;
    }
    store(last_round(w, keys, n + 1), s);
}

/// A column of a round undone: InvSubBytes and InvMixColumns of its four octets. Only those rounds call it.
#[inline(always)]
fn inv_column(a: u8, b: u8, c: u8, d: u8) -> u32
    ensures { result ≡ mixed_word 0x0e 0x0b 0x0d 0x09 (map inv_sub_byte (a ∷ b ∷ c ∷ d ∷ [])) }
{
    inv_sub_and_inv_mix(a, b, c, d)
}

/// Reads an expanded key as words.
pub(crate) fn read_keys(octets: &[u8], keys: &mut [u32])
    requires { length octets.now ≡ 4 * length keys.old }
    ensures { octets_of_words keys.new ≡ octets.now }
{
    for i in 0..keys.len() {
        keys[i] = u32::from_be_bytes([
            octets[4 * i],
            octets[4 * i + 1],
            octets[4 * i + 2],
            octets[4 * i + 3],
        ]);
    }
}

/// A column through InvMixColumns.
fn unmixed(word: u32) -> u32
    ensures { result ≡ mixed_word 0x0e 0x0b 0x0d 0x09 (to_be_bytes w32 word) }
{
    let o = word.to_be_bytes();
    inv_sub_and_inv_mix(
        sub_byte(o[0]),
        sub_byte(o[1]),
        sub_byte(o[2]),
        sub_byte(o[3]),
    )
}

/// Writes each column of an expanded key through InvMixColumns.
pub(crate) fn unmix_keys(keys: &[u32], unmixed_keys: &mut [u32])
    requires { length unmixed_keys.old ≡ length keys.now }
    ensures { AreUnmixed keys.now unmixed_keys.new }
{
    for i in 0..keys.len() {
        unmixed_keys[i] = unmixed(keys[i]);
    }
}

/// A round undone but for InvSubBytes and InvShiftRows, which are at its begin here, with round key `n` after
/// InvMixColumns.
#[inline(always)]
fn inv_round(w: [u32; 4], unmixed_keys: &[u32], n: usize) -> [u32; 4]
    requires { 4 * n + 4 ≤ length unmixed_keys.now }
    ensures { octets_of result
        ≡ add_round_key (octets_of_words unmixed_keys.now) n
        (inv_mix_columns (inv_sub_bytes (inv_shift_rows (octets_of w)))) }
{
    let a = w[0].to_be_bytes();
    let b = w[1].to_be_bytes();
    let c = w[2].to_be_bytes();
    let d = w[3].to_be_bytes();
    [
        inv_column(a[0], d[1], c[2], b[3]) ^ key_word(unmixed_keys, n, 0),
        inv_column(b[0], a[1], d[2], c[3]) ^ key_word(unmixed_keys, n, 1),
        inv_column(c[0], b[1], a[2], d[3]) ^ key_word(unmixed_keys, n, 2),
        inv_column(d[0], c[1], b[2], a[3]) ^ key_word(unmixed_keys, n, 3),
    ]
}

/// The octets of a column through the inverse S-box.
#[inline(always)]
fn inv_last_column(a: u8, b: u8, c: u8, d: u8) -> u32
    ensures { result ≡ word (inv_sub_byte a) (inv_sub_byte b) (inv_sub_byte c) (inv_sub_byte d) }
{
    u32::from_be_bytes([
        inv_sub_byte(a),
        inv_sub_byte(b),
        inv_sub_byte(c),
        inv_sub_byte(d),
    ])
}

/// The first round undone, with round key `n`.
#[inline(always)]
fn inv_last_round(w: [u32; 4], keys: &[u32], n: usize) -> [u32; 4]
    requires { 4 * n + 4 ≤ length keys.now }
    ensures { octets_of result
        ≡ add_round_key (octets_of_words keys.now) n
        (inv_sub_bytes (inv_shift_rows (octets_of w))) }
{
    let a = w[0].to_be_bytes();
    let b = w[1].to_be_bytes();
    let c = w[2].to_be_bytes();
    let d = w[3].to_be_bytes();
    [
        inv_last_column(a[0], d[1], c[2], b[3]) ^ key_word(keys, n, 0),
        inv_last_column(b[0], a[1], d[2], c[3]) ^ key_word(keys, n, 1),
        inv_last_column(c[0], b[1], a[2], d[3]) ^ key_word(keys, n, 2),
        inv_last_column(d[0], c[1], b[2], a[3]) ^ key_word(keys, n, 3),
    ]
}

/// InvCipher, under an expanded key and its columns through InvMixColumns, of `n` rounds and the last one.
pub(crate) fn decrypt(keys: &[u32], unmixed_keys: &[u32], n: usize, s: &mut [u8])
    requires long { length s.old ≡ 16 }
    requires some { 1 ≤ n }
    requires room { 4 * n + 8 ≤ length keys.now }
    requires both { length unmixed_keys.now ≡ length keys.now }
    requires unmixed { AreUnmixed keys.now unmixed_keys.now }
    ensures { s.new ≡ decrypt_with (octets_of_words keys.now) n s.old }
{
    let begun = load(s, keys, n + 1);
    let mut w = inv_round(begun, unmixed_keys, n);
    for i in 1..n {
        let next = inv_round(w, unmixed_keys, n - i);
        w = next;
    }
    store(inv_last_round(w, keys, 0), s);
}
