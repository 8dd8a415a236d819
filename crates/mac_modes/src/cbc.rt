//! Cipher block chaining with padding (NIST SP 800-38A section 6.2; RFC 5652 section 6.3).
ghost use Rattle.std.specs.Prelude.{◌≡◌, ◌≢◌, ◌↔◌, ℕ, List, ◌+◌, ◌%◌, ◌<◌, ◌≤◌, ◌⊎◌, length, take, drop, IfOk, IfErr, OnOk, Err};
ghost use Rattle.block_core.specs.Bits.{xor_each};
ghost use Rattle.mac_modes.specs.Cbc.{uncbc};
ghost use Rattle.mac_modes.specs.Padding.{pad_count, padded};
ghost use Rattle.mac_modes.specs.declared.mode_error.ModeError.{ModeError};

use crate::mode_error::ModeError;
use crate::padding::unpadded_len;
use block_core::{BlockCipher, xor_into};

/// Encrypts one block in place, and keeps it for the next.
fn encrypt_one<C: BlockCipher>(cipher: &C, previous: &mut [u8], text: &mut [u8])
    requires previous { length previous.old ≡ C.BLOCK }
    requires text { length text.old ≡ C.BLOCK }
    ensures text { C.decryption cipher.now text.new ≡ xor_each text.old previous.old }
    ensures kept { previous.new ≡ text.new }
{
    xor_into(text, previous);
    cipher.encrypt_block(text);
    previous.copy_from_slice(text);
}

/// Encrypts the blocks of `buffer` in place.
fn encrypt_blocks<C: BlockCipher>(cipher: &C, iv: &[u8], buffer: &mut [u8])
    requires iv { length iv.now ≡ C.BLOCK }
    requires whole { length buffer.old % C.BLOCK ≡ 0 }
    ensures { uncbc (C.decryption cipher.now) C.BLOCK iv.now buffer.new ≡ buffer.old }
{
    let size = C::BLOCK;
    let mut first = [0u8; 16];
    let previous = &mut first[..size];
    previous.copy_from_slice(iv);
    for i in 0..buffer.len() / size {
        let start = i * size;
        encrypt_one(cipher, previous, &mut buffer[start..start + size]);
    }
}

/// Decrypts one block in place, and keeps the ciphertext for the next.
fn decrypt_one<C: BlockCipher>(cipher: &C, previous: &mut [u8], text: &mut [u8])
    requires previous { length previous.old ≡ C.BLOCK }
    requires text { length text.old ≡ C.BLOCK }
    ensures text { text.new ≡ xor_each (C.decryption cipher.now text.old) previous.old }
    ensures kept { previous.new ≡ text.old }
{
    let mut ciphertext = [0u8; 16];
    let size = text.len();
    ciphertext[..size].copy_from_slice(text);
    cipher.decrypt_block(text);
    xor_into(text, previous);
    previous.copy_from_slice(&ciphertext[..size]);
}

/// Decrypts the blocks of `buffer` in place.
fn decrypt_blocks<C: BlockCipher>(cipher: &C, iv: &[u8], buffer: &mut [u8])
    requires iv { length iv.now ≡ C.BLOCK }
    requires whole { length buffer.old % C.BLOCK ≡ 0 }
    ensures { buffer.new ≡ uncbc (C.decryption cipher.now) C.BLOCK iv.now buffer.old }
{
    let size = C::BLOCK;
    let mut first = [0u8; 16];
    let previous = &mut first[..size];
    previous.copy_from_slice(iv);
    for i in 0..buffer.len() / size {
        let start = i * size;
        decrypt_one(cipher, previous, &mut buffer[start..start + size]);
    }
}

/// Encrypts the text `buffer[..pos]` in place, with its padding, and returns the length of the ciphertext in octets;
/// the octets after it stay as they were. `iv` has `C::BLOCK` octets.
///
/// `NoRoom` exactly where the padded text does not fit the buffer; nothing is changed then.
pub fn cbc_encrypt_padded<C: BlockCipher>(
    cipher: &C,
    iv: &[u8],
    buffer: &mut [u8],
    pos: usize,
) -> Result<usize, ModeError>
    requires { length iv.now ≡ C.BLOCK }
    ensures length { IfOk result (λ len. (len ≤ length buffer.old)
        × (len ≡ length (padded (take pos buffer.old) C.BLOCK))) }
    ensures sealed { IfOk result (λ len.
        uncbc (C.decryption cipher.now) C.BLOCK iv.now (take len buffer.new)
        ≡ padded (take pos buffer.old) C.BLOCK) }
    ensures behind { IfOk result (λ len. drop len buffer.new ≡ drop len buffer.old) }
    ensures no_room { (result ≡ Err ModeError.NoRoom)
        ↔ (length buffer.old < pos + pad_count C.BLOCK pos) }
    ensures refused { IfErr result (λ e. (e ≡ ModeError.NoRoom) × (buffer.new ≡ buffer.old)) }
{
    if pos > buffer.len() {
        return Err(ModeError::NoRoom);
    }
    let size = C::BLOCK;
    let count = size - pos % size;
    if count > buffer.len() - pos {
        return Err(ModeError::NoRoom);
    }
    let end = pos + count;
    buffer[pos..end].fill(count as u8);
    encrypt_blocks(cipher, iv, &mut buffer[..end]);
    Ok(end)
}

/// Decrypts the ciphertext `buffer` in place, and returns the length of the text that is now in its front, in
/// octets; its padding comes after it. `iv` has `C::BLOCK` octets.
///
/// `BadLength` exactly where the buffer is empty or not whole blocks; nothing is changed then. `BadPadding` exactly
/// where the decrypted blocks do not end in a padding; the buffer holds them then.
pub fn cbc_decrypt_padded<C: BlockCipher>(
    cipher: &C,
    iv: &[u8],
    buffer: &mut [u8],
) -> Result<usize, ModeError>
    requires { length iv.now ≡ C.BLOCK }
    ensures text { IfOk result (λ len. (len ≤ length buffer.new)
        × (padded (take len buffer.new) C.BLOCK
        ≡ uncbc (C.decryption cipher.now) C.BLOCK iv.now buffer.old)) }
    ensures opened { OnOk result
        (buffer.new ≡ uncbc (C.decryption cipher.now) C.BLOCK iv.now buffer.old) }
    ensures bad_length { (result ≡ Err ModeError.BadLength)
        ↔ ((length buffer.old ≡ 0) ⊎ (length buffer.old % C.BLOCK ≢ 0)) }
    ensures unchanged { result ≡ Err ModeError.BadLength → buffer.new ≡ buffer.old }
    ensures bad_padding { result ≡ Err ModeError.BadPadding →
        (m : List ℕ) → padded m C.BLOCK ≢ uncbc
        (C.decryption cipher.now) C.BLOCK iv.now buffer.old }
    ensures opened_then { result ≡ Err ModeError.BadPadding →
        buffer.new ≡ uncbc (C.decryption cipher.now) C.BLOCK iv.now buffer.old }
    ensures refused { IfErr result (λ e. (e ≡ ModeError.BadLength) ⊎ (e ≡ ModeError.BadPadding)) }
{
    if buffer.is_empty() || buffer.len() % C::BLOCK != 0 {
        return Err(ModeError::BadLength);
    }
    decrypt_blocks(cipher, iv, buffer);
    unpadded_len(buffer, C::BLOCK)
}
