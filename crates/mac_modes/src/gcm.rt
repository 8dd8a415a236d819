//! GCM (NIST SP 800-38D) with a nonce of 12 octets and no associated data.

ghost use Rattle.std.specs.Prelude.{◌≡◌, ◌≢◌, ◌↔◌, ℕ, List, ◌+◌, ◌-◌, ◌%◌, ◌^◌, ◌<◌, ◌≤◌, ◌++◌, length, take, drop, replicate, bit_xor, ◌⊎◌, IfOk, IfErr, OnErr, IsTrue, Err};
ghost use Rattle.std.specs.Int.{w128, from_be_bytes};
ghost use Rattle.block_core.specs.Bits.{xor_each};
ghost use Rattle.mac_modes.specs.GcmField.{AreProducts, times};
ghost use Rattle.mac_modes.specs.Gcm.{blocks_of, counter, filled, gcm, ghash, lengths, tag, under_stream};
ghost use Rattle.mac_modes.specs.declared.mode_error.ModeError.{ModeError};

use crate::gcm_field::{products, times_table};
use crate::hmac::put_front;
use crate::mode_error::ModeError;
use block_core::{BlockCipher, xor_into};

/// The piece filled with zero octets to a block.
#[inline(always)]
fn filled_block(piece: &[u8]) -> [u8; 16]
    requires { length piece.now ≤ 16 }
    ensures { result ≡ piece.now ++ replicate (16 - length piece.now) 0 }
{
    let mut block = [0u8; 16];
    put_front(&mut block, piece);
    block
}

/// The product of a step of GHASH: a block times the factor whose products the table holds. Only GHASH calls it.
#[inline(always)]
fn product(block: u128, table: &[u128; 16]) -> u128
    ensures { (h : ℕ) → AreProducts h table.now → result ≡ times block h }
{
    times_table(block, table)
}

/// A step of GHASH with a piece of up to a block.
#[inline(always)]
fn absorb(y: u128, piece: &[u8], table: &[u128; 16]) -> u128
    requires { length piece.now ≤ 16 }
    ensures { (h : ℕ) → AreProducts h table.now
        → result ≡ times (bit_xor y
        (from_be_bytes w128 (piece.now ++ replicate (16 - length piece.now) 0))) h }
{
    product(y ^ u128::from_be_bytes(filled_block(piece)), table)
}

/// The step with the last piece, where it is no whole block.
fn absorb_rest(y: u128, rest: &[u8], table: &[u128; 16]) -> u128
    requires { length rest.now < 16 }
    ensures none { length rest.now ≡ 0 → result ≡ y }
    ensures some { 0 < length rest.now → (h : ℕ) → AreProducts h table.now
        → result ≡ times (bit_xor y
        (from_be_bytes w128 (rest.now ++ replicate (16 - length rest.now) 0))) h }
{
    if rest.is_empty() {
        y
    } else {
        absorb(y, rest, table)
    }
}

/// GHASH of a ciphertext, filled with zeros to whole blocks, and of the lengths.
fn hash(table: &[u128; 16], c: &[u8]) -> u128
    ensures { (h : ℕ) → AreProducts h table.now
        → result ≡ ghash h (blocks_of (length c.now) + 1) (filled c.now ++ lengths (length c.now)) }
{
    let mut y = 0u128;
    for i in 0..c.len() / 16 {
        let next = absorb(y, &c[16 * i..16 * i + 16], table);
        y = next;
    }
    let all = absorb_rest(y, &c[c.len() / 16 * 16..], table);
    let bits = (c.len() as u64).wrapping_mul(8);
    product(all ^ bits as u128, table)
}

/// The counter block of this number.
#[inline(always)]
fn counter_block(nonce: &[u8; 12], number: u32) -> [u8; 16]
    ensures { result ≡ counter nonce.now number }
{
    let n = number.to_be_bytes();
    [
        nonce[0], nonce[1], nonce[2], nonce[3], nonce[4], nonce[5], nonce[6], nonce[7], nonce[8],
        nonce[9], nonce[10], nonce[11], n[0], n[1], n[2], n[3],
    ]
}

/// Xors the text with the key stream.
fn xor_stream<C: BlockCipher>(cipher: &C, nonce: &[u8; 12], text: &mut [u8])
    requires { C.BLOCK ≡ 16 }
    ensures { text.new ≡ under_stream (C.encryption cipher.now) nonce.now text.old }
{
    let whole = text.len() / 16;
    for i in 0..whole {
        let mut block = counter_block(nonce, ((i as u64 + 2) % 0x1_0000_0000) as u32);
        cipher.encrypt_block(&mut block);
        xor_into(&mut text[16 * i..16 * i + 16], &block);
    }
    let mut block = counter_block(nonce, ((whole as u64 + 2) % 0x1_0000_0000) as u32);
    cipher.encrypt_block(&mut block);
    let rest = &mut text[16 * whole..];
    let len = rest.len();
    xor_into(rest, &block[..len]);
}

/// The tag of a ciphertext.
fn tag_of<C: BlockCipher>(cipher: &C, nonce: &[u8; 12], c: &[u8]) -> [u8; 16]
    requires { C.BLOCK ≡ 16 }
    ensures { result ≡ tag (C.encryption cipher.now) nonce.now c.now }
{
    let mut zeros = [0u8; 16];
    cipher.encrypt_block(&mut zeros);
    let table = products(u128::from_be_bytes(zeros));
    let mut first = counter_block(nonce, 1);
    cipher.encrypt_block(&mut first);
    let mut answer = hash(&table, c).to_be_bytes();
    xor_into(&mut answer, &first);
    answer
}

/// Whether the octets are the same.
fn is_same(a: &[u8], b: &[u8]) -> bool
    ensures { IsTrue result ↔ (a.now ≡ b.now) }
{
    a == b
}

/// Encrypts the text `buffer[..pos]` in place, writes its tag of 16 octets after it, and returns the length of both;
/// the octets after them stay as they were. `C::BLOCK` is 16.
///
/// `NoRoom` exactly where text and tag do not fit the buffer; nothing is changed then.
pub fn gcm_encrypt<C: BlockCipher>(
    cipher: &C,
    nonce: &[u8; 12],
    buffer: &mut [u8],
    pos: usize,
) -> Result<usize, ModeError>
    requires { C.BLOCK ≡ 16 }
    ensures length { IfOk result (λ len. (len ≤ length buffer.old) × (len ≡ pos + 16)) }
    ensures sealed { IfOk result (λ len.
        take len buffer.new ≡ gcm (C.encryption cipher.now) nonce.now (take pos buffer.old)) }
    ensures behind { IfOk result (λ len. drop len buffer.new ≡ drop len buffer.old) }
    ensures no_room { (result ≡ Err ModeError.NoRoom) ↔ (length buffer.old < pos + 16) }
    ensures refused { IfErr result (λ e. (e ≡ ModeError.NoRoom) × (buffer.new ≡ buffer.old)) }
{
    if pos > buffer.len() || 16 > buffer.len() - pos {
        return Err(ModeError::NoRoom);
    }
    xor_stream(cipher, nonce, &mut buffer[..pos]);
    let tag = tag_of(cipher, nonce, &buffer[..pos]);
    buffer[pos..pos + 16].copy_from_slice(&tag);
    Ok(pos + 16)
}

/// Decrypts the ciphertext and tag `buffer` in place, and returns the length of the text that is now in its front;
/// the tag after it stays as it was. `C::BLOCK` is 16.
///
/// `BadLength` exactly where there are fewer than 16 octets, `BadTag` exactly where the tag is not that of the
/// ciphertext, so that no text opens from the buffer; nothing is changed then.
pub fn gcm_decrypt<C: BlockCipher>(
    cipher: &C,
    nonce: &[u8; 12],
    buffer: &mut [u8],
) -> Result<usize, ModeError>
    requires { C.BLOCK ≡ 16 }
    ensures length { IfOk result (λ len. len + 16 ≡ length buffer.old) }
    ensures opened { IfOk result (λ len.
        gcm (C.encryption cipher.now) nonce.now (take len buffer.new) ≡ buffer.old) }
    ensures behind { IfOk result (λ len. drop len buffer.new ≡ drop len buffer.old) }
    ensures bad_length { (result ≡ Err ModeError.BadLength) ↔ (length buffer.old < 16) }
    ensures bad_tag { result ≡ Err ModeError.BadTag →
        (m : List ℕ) → gcm (C.encryption cipher.now) nonce.now m ≢ buffer.old }
    ensures refused { IfErr result (λ e. (e ≡ ModeError.BadLength) ⊎ (e ≡ ModeError.BadTag)) }
    ensures unchanged { OnErr result (buffer.new ≡ buffer.old) }
{
    if buffer.len() < 16 {
        return Err(ModeError::BadLength);
    }
    let len = buffer.len() - 16;
    let tag = tag_of(cipher, nonce, &buffer[..len]);
    if !is_same(&buffer[len..], &tag) {
        return Err(ModeError::BadTag);
    }
    xor_stream(cipher, nonce, &mut buffer[..len]);
    Ok(len)
}
