//! The ciphers of PBES2 under a key, in place.
ghost use Rattle.std.specs.Prelude.{◌≡◌, ◌≤◌, ◌<◌, ◌+◌, ℕ, List, length, take, drop, IfOk, IfErr, OnErr, OnOk};
ghost use Rattle.mac_modes.specs.Padding.{pad_count, padded};
ghost use Rattle.pkcs5.specs.Kinds.{IsDes, key_size};
ghost use Rattle.pkcs5.specs.Opening.{Decrypts, IsBehind, LeftBlocks, LeftBy, OpensBy, Unseals, ciphertext_size};
ghost use Rattle.pkcs5.specs.Refusals.{RefusesUnder};

use crate::error::{Error, Result};
use crate::pbes2::encryption_scheme::EncryptionScheme;
use crate::pbes2::identifiers::DES_CBC_OID;
use block_core::{Aes128, Aes192, Aes256, BlockCipher, Des, TdesEde3};
use mac_modes::{cbc_decrypt_padded, cbc_encrypt_padded, gcm_decrypt, gcm_encrypt};

// ---- CBC

/// Decrypts `buffer` in place, and returns the length of the text.
fn decrypt_with<C: BlockCipher>(cipher: &C, iv: &[u8], buffer: &mut [u8]) -> Result<usize>
    requires { length iv.now ≡ C.BLOCK }
    ensures text { IfOk result (λ len. (len ≤ length buffer.old)
        × (buffer.new ≡ padded (take len buffer.new) C.BLOCK)
        × Decrypts C.BLOCK (C.decryption cipher.now) iv.now buffer.old (take len buffer.new)) }
    ensures refused { IfErr result (λ e. (e ≡ Error.DecryptFailed)
        × ((m : List ℕ) → ¬ Decrypts C.BLOCK (C.decryption cipher.now) iv.now buffer.old m)
        × LeftBlocks C.BLOCK (C.decryption cipher.now) iv.now buffer.old buffer.new) }
{
    match cbc_decrypt_padded(cipher, iv, buffer) {
        Ok(len) => Ok(len),
        Err(_) => Err(Error::DecryptFailed),
    }
}

/// Encrypts the text `buffer[..pos]` in place, and returns the length of the ciphertext.
fn encrypt_with<C: BlockCipher>(
    cipher: &C,
    iv: &[u8],
    buffer: &mut [u8],
    pos: usize,
) -> Result<usize>
    requires { length iv.now ≡ C.BLOCK }
    ensures length { IfOk result (λ len. (len ≤ length buffer.old)
        × (len ≡ pos + pad_count C.BLOCK pos)) }
    ensures sealed { IfOk result (λ len. Decrypts C.BLOCK (C.decryption cipher.now) iv.now
        (take len buffer.new) (take pos buffer.old)) }
    ensures behind { IfOk result (λ len. drop len buffer.new ≡ drop len buffer.old) }
    ensures refused { IfErr result (λ e. (e ≡ Error.EncryptFailed)
        × (length buffer.old < pos + pad_count C.BLOCK pos)
        × (buffer.new ≡ buffer.old)) }
{
    match cbc_encrypt_padded(cipher, iv, buffer, pos) {
        Ok(len) => Ok(len),
        Err(_) => Err(Error::EncryptFailed),
    }
}

/// `decrypt_with` under a key.
fn decrypt_by<C: BlockCipher + Drop>(key: &[u8], iv: &[u8], buffer: &mut [u8]) -> Result<usize>
    requires iv { length iv.now ≡ C.BLOCK }
    requires key { length key.now ≡ C.KEY }
    ensures text { IfOk result (λ len. (len ≤ length buffer.old)
        × (buffer.new ≡ padded (take len buffer.new) C.BLOCK)
        × Decrypts C.BLOCK (C.inverse key.now) iv.now buffer.old (take len buffer.new)) }
    ensures refused { IfErr result (λ e. (e ≡ Error.DecryptFailed)
        × ((m : List ℕ) → ¬ Decrypts C.BLOCK (C.inverse key.now) iv.now buffer.old m)
        × LeftBlocks C.BLOCK (C.inverse key.now) iv.now buffer.old buffer.new) }
{
    let cipher = C::new(key);
    decrypt_with(&cipher, iv, buffer)
}

/// `encrypt_with` under a key.
fn encrypt_by<C: BlockCipher + Drop>(
    key: &[u8],
    iv: &[u8],
    buffer: &mut [u8],
    pos: usize,
) -> Result<usize>
    requires iv { length iv.now ≡ C.BLOCK }
    requires key { length key.now ≡ C.KEY }
    ensures length { IfOk result (λ len. (len ≤ length buffer.old)
        × (len ≡ pos + pad_count C.BLOCK pos)) }
    ensures sealed { IfOk result
        (λ len. Decrypts C.BLOCK (C.inverse key.now) iv.now (take len buffer.new)
        (take pos buffer.old)) }
    ensures behind { IfOk result (λ len. drop len buffer.new ≡ drop len buffer.old) }
    ensures refused { IfErr result (λ e. (e ≡ Error.EncryptFailed)
        × (length buffer.old < pos + pad_count C.BLOCK pos)
        × (buffer.new ≡ buffer.old)) }
{
    let cipher = C::new(key);
    encrypt_with(&cipher, iv, buffer, pos)
}

// ---- GCM

/// Opens `buffer`, a ciphertext and its tag, in place, and returns the length of the text.
fn unseal_with<C: BlockCipher>(cipher: &C, nonce: &[u8; 12], buffer: &mut [u8]) -> Result<usize>
    requires { C.BLOCK ≡ 16 }
    ensures text { IfOk result (λ len. (len ≤ length buffer.old)
        × (drop len buffer.new ≡ drop len buffer.old)
        × Unseals (C.encryption cipher.now) nonce.now buffer.old (take len buffer.new)) }
    ensures refused { IfErr result (λ e. (e ≡ Error.DecryptFailed)
        × ((m : List ℕ) → ¬ Unseals (C.encryption cipher.now) nonce.now buffer.old m)
        × (buffer.new ≡ buffer.old)) }
{
    match gcm_decrypt(cipher, nonce, buffer) {
        Ok(len) => Ok(len),
        Err(_) => Err(Error::DecryptFailed),
    }
}

/// Seals the text `buffer[..pos]` in place, its tag after it, and returns the length of both.
fn seal_with<C: BlockCipher>(
    cipher: &C,
    nonce: &[u8; 12],
    buffer: &mut [u8],
    pos: usize,
) -> Result<usize>
    requires { C.BLOCK ≡ 16 }
    ensures length { IfOk result (λ len. (len ≤ length buffer.old) × (len ≡ pos + 16)) }
    ensures sealed { IfOk result
        (λ len. Unseals (C.encryption cipher.now) nonce.now (take len buffer.new)
        (take pos buffer.old)) }
    ensures behind { IfOk result (λ len. drop len buffer.new ≡ drop len buffer.old) }
    ensures refused { IfErr result (λ e. (e ≡ Error.EncryptFailed) × (length buffer.old < pos + 16)
        × (buffer.new ≡ buffer.old)) }
{
    match gcm_encrypt(cipher, nonce, buffer, pos) {
        Ok(len) => Ok(len),
        Err(_) => Err(Error::EncryptFailed),
    }
}

/// `unseal_with` under a key.
fn unseal_by<C: BlockCipher + Drop>(
    key: &[u8],
    nonce: &[u8; 12],
    buffer: &mut [u8],
) -> Result<usize>
    requires block { C.BLOCK ≡ 16 }
    requires key { length key.now ≡ C.KEY }
    ensures text { IfOk result (λ len. (len ≤ length buffer.old)
        × (drop len buffer.new ≡ drop len buffer.old)
        × Unseals (C.cipher key.now) nonce.now buffer.old (take len buffer.new)) }
    ensures refused { IfErr result (λ e. (e ≡ Error.DecryptFailed)
        × ((m : List ℕ) → ¬ Unseals (C.cipher key.now) nonce.now buffer.old m)
        × (buffer.new ≡ buffer.old)) }
{
    let cipher = C::new(key);
    unseal_with(&cipher, nonce, buffer)
}

/// `seal_with` under a key.
fn seal_by<C: BlockCipher + Drop>(
    key: &[u8],
    nonce: &[u8; 12],
    buffer: &mut [u8],
    pos: usize,
) -> Result<usize>
    requires block { C.BLOCK ≡ 16 }
    requires key { length key.now ≡ C.KEY }
    ensures length { IfOk result (λ len. (len ≤ length buffer.old) × (len ≡ pos + 16)) }
    ensures sealed { IfOk result (λ len. Unseals (C.cipher key.now) nonce.now (take len buffer.new)
        (take pos buffer.old)) }
    ensures behind { IfOk result (λ len. drop len buffer.new ≡ drop len buffer.old) }
    ensures refused { IfErr result (λ e. (e ≡ Error.EncryptFailed) × (length buffer.old < pos + 16)
        × (buffer.new ≡ buffer.old)) }
{
    let cipher = C::new(key);
    seal_with(&cipher, nonce, buffer, pos)
}

// ---- by the cipher

/// Decrypts `buffer` in place under a key, and returns the length of the text in octets.
#[tactic(auto, unfolding(crate::specs::Opening::OpensBy, crate::specs::Opening::LeftBy, crate::specs::Opening::IsBehind))]
pub(crate) fn decrypt_under(
    scheme: &EncryptionScheme,
    key: &[u8],
    buffer: &mut [u8],
) -> Result<usize>
    requires { length key.now ≡ key_size scheme.now }
    ensures text { IfOk result (λ len. (len ≤ length buffer.old)
        × IsBehind scheme.now buffer.old buffer.new len
        × OpensBy scheme.now key.now buffer.old (take len buffer.new)) }
    ensures refused { IfErr result (λ e. (e ≡ Error.DecryptFailed) × ((m : List ℕ)
        → ¬ OpensBy scheme.now key.now buffer.old m)
        × LeftBy scheme.now key.now buffer.old buffer.new) }
{
    match scheme {
        EncryptionScheme::Aes128Cbc { iv } => decrypt_by::<Aes128>(key, iv, buffer),
        EncryptionScheme::Aes192Cbc { iv } => decrypt_by::<Aes192>(key, iv, buffer),
        EncryptionScheme::Aes256Cbc { iv } => decrypt_by::<Aes256>(key, iv, buffer),
        EncryptionScheme::Aes128Gcm { nonce } => unseal_by::<Aes128>(key, nonce, buffer),
        EncryptionScheme::Aes256Gcm { nonce } => unseal_by::<Aes256>(key, nonce, buffer),
        EncryptionScheme::DesEde3Cbc { iv } => decrypt_by::<TdesEde3>(key, iv, buffer),
        EncryptionScheme::DesCbc { iv } => decrypt_by::<Des>(key, iv, buffer),
    }
}

/// Encrypts the text `buffer[..pos]` in place under a key, and returns the length of the ciphertext in octets.
/// `UnsupportedAlgorithm` exactly for DES; then `EncryptFailed` exactly where the ciphertext does not fit the buffer.
#[tactic(auto, unfolding(crate::specs::Opening::OpensBy))]
pub(crate) fn encrypt_under(
    scheme: &EncryptionScheme,
    key: &[u8],
    buffer: &mut [u8],
    pos: usize,
) -> Result<usize>
    requires { length key.now ≡ key_size scheme.now }
    ensures length { IfOk result (λ len. (len ≤ length buffer.old)
        × (len ≡ ciphertext_size scheme.now pos)) }
    ensures sealed { IfOk result (λ len. OpensBy scheme.now key.now (take len buffer.new)
        (take pos buffer.old)) }
    ensures behind { IfOk result (λ len. drop len buffer.new ≡ drop len buffer.old) }
    ensures other_than_des { OnOk result (¬ IsDes scheme.now) }
    ensures refused { IfErr result (λ e. RefusesUnder scheme.now pos (length buffer.old) e) }
    ensures unchanged { OnErr result (buffer.new ≡ buffer.old) }
{
    match scheme {
        EncryptionScheme::Aes128Cbc { iv } => encrypt_by::<Aes128>(key, iv, buffer, pos),
        EncryptionScheme::Aes192Cbc { iv } => encrypt_by::<Aes192>(key, iv, buffer, pos),
        EncryptionScheme::Aes256Cbc { iv } => encrypt_by::<Aes256>(key, iv, buffer, pos),
        EncryptionScheme::Aes128Gcm { nonce } => seal_by::<Aes128>(key, nonce, buffer, pos),
        EncryptionScheme::Aes256Gcm { nonce } => seal_by::<Aes256>(key, nonce, buffer, pos),
        EncryptionScheme::DesEde3Cbc { iv } => encrypt_by::<TdesEde3>(key, iv, buffer, pos),
        EncryptionScheme::DesCbc { .. } => Err(Error::UnsupportedAlgorithm { oid: DES_CBC_OID }),
    }
}
