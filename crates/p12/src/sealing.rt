//! Sealing texts under a password (RFC 7292 appendix B and C; RFC 8018 section 6.2.1).
ghost use Rattle.std.specs.Prelude.{◌≡◌, ◌+◌, ◌≤◌, ◌<◌, ◌^◌, length, take, true, IfOk, IfErr, Some};
ghost use Rattle.block_core.specs.Tdes.{inv_tdes};
ghost use Rattle.mac_modes.specs.Cbc.{uncbc};
ghost use Rattle.mac_modes.specs.Padding.{pad_count, padded};
ghost use Rattle.p12.specs.AlgorithmIdentifier.{ciphertext_length, is_blocks, triple_des_text, unlock_pbes2};
ghost use Rattle.pkcs5.specs.Kinds.{IsDes, key_size, rounds_of};
ghost use Rattle.pkcs5.specs.Opening.{states_length, unpadded};

use crate::error::Error;
use crate::opening::{TRIPLE_DES_BLOCK, TRIPLE_DES_KEY};
use crate::pkcs12_pbe_params::Pkcs12PbeParams;
use crate::writing::MOST_OCTETS;
use asn1_core::Octets;
use block_core::{BlockCipher, TdesEde3};
use mac_modes::{Sha1, cbc_encrypt_padded};
use pkcs5::pbes2::Parameters;
use pkcs12_kdf::{Derivation, IV_ID, KEY_ID};
use std::alloc::Global;

/// Encrypts the text `buffer[..pos]` in place under Triple DES; its padding takes the rest of the buffer.
fn encrypt_in_place(key: &[u8], iv: &[u8], buffer: &mut [u8], pos: usize)
    requires key { length key.now ≡ 24 }
    requires iv { length iv.now ≡ 8 }
    requires room { length buffer.old ≡ pos + pad_count 8 pos }
    ensures { uncbc (inv_tdes key.now) 8 iv.now buffer.new ≡ padded (take pos buffer.old) 8 }
{
    let cipher = TdesEde3::new(key);
    match cbc_encrypt_padded(&cipher, iv, buffer, pos) {
        Ok(_) => {}
        Err(_) => unreachable!(),
    }
}

/// The ciphertext of a text under Triple DES, with a count of at least 1.
pub(crate) fn seal_blocks(
    alloc: Global,
    params: &Pkcs12PbeParams,
    password: &[u8],
    plaintext: &[u8],
) -> Result<Octets, Error>
    requires rounds { 1 ≤ params.now.iterations }
    requires password { length password.now < 2 ^ 59 }
    requires salt { length params.now.salt < 2 ^ 59 }
    ensures blocks { IfOk result (λ c. is_blocks c ≡ true) }
    ensures size { IfOk result (λ c. length c ≡ ciphertext_length (length plaintext.now)) }
    ensures opens { IfOk result
        (λ c. unpadded 8 (triple_des_text password.now params.now.salt params.now.iterations c)
        ≡ Some plaintext.now) }
    ensures err { IfErr result (λ e. e ≡ Error.Memory) }
{
    let derivation = Derivation {
        password,
        salt: params.salt.as_slice(),
        rounds: params.iterations,
    };
    let key = derivation.key::<Sha1>(alloc, KEY_ID, TRIPLE_DES_KEY)?;
    let iv = derivation.key::<Sha1>(alloc, IV_ID, TRIPLE_DES_BLOCK)?;
    let mut text = Vec::from_slice(alloc, plaintext)?;
    text.extend_from_slice(
        &[0; TRIPLE_DES_BLOCK][..TRIPLE_DES_BLOCK - plaintext.len() % TRIPLE_DES_BLOCK],
    )?;
    encrypt_in_place(key.as_slice(), iv.as_slice(), &mut text, plaintext.len());
    Ok(Octets::from_vec(text))
}

/// The ciphertext of a text under PBES2, whose cipher is not DES.
pub(crate) fn seal_pbes2(
    alloc: Global,
    parameters: &Parameters,
    password: &[u8],
    plaintext: &[u8],
) -> Result<Octets, Error>
    requires key { states_length parameters.now.kdf (key_size parameters.now.encryption) ≡ true }
    requires rounds { 1 ≤ rounds_of parameters.now.kdf }
    requires cipher { ¬ IsDes parameters.now.encryption }
    ensures opens { IfOk result (λ c. unlock_pbes2 parameters.now password.now c
        ≡ Some plaintext.now) }
    ensures err { IfErr result (λ e. e ≡ Error.Memory) }
{
    match parameters.encrypt(alloc, password, plaintext) {
        Ok(ciphertext) => Ok(ciphertext),
        Err(pkcs5::Error::Memory) => Err(Error::Memory),
        Err(_) => unreachable!(),
    }
}

/// The ciphertext, where it has no more octets than a text may have.
pub(crate) fn fitting(ciphertext: Octets) -> Result<Octets, Error>
    ensures ok { IfOk result (λ c. (c ≡ ciphertext) × (length c < 2 ^ 32)) }
    ensures err { IfErr result (λ e. (e ≡ Error.TooLong) × (2 ^ 32 ≤ length ciphertext)) }
{
    if ciphertext.len() > MOST_OCTETS {
        return Err(Error::TooLong);
    }
    Ok(ciphertext)
}
