//! Opening texts in place that are encrypted under a password (RFC 7292 appendix B and C; RFC 8018 section 6.2).
ghost use Rattle.std.specs.Prelude.{◌≡◌, ◌+◌, ◌*◌, ◌%◌, ◌≤◌, ◌<◌, ◌^◌, ℕ, length, take, IfOk, IfErr, IfSome, IfNone, OnOk, Some, None};
ghost use Rattle.block_core.specs.Tdes.{inv_tdes};
ghost use Rattle.mac_modes.specs.Cbc.{uncbc};
ghost use Rattle.p12.specs.AlgorithmIdentifier.{taken, triple_des_text, unlock_pbes2};
ghost use Rattle.pkcs5.specs.Opening.{unpadded};
ghost use Rattle.p12.specs.AlgorithmView.{LeftPbes2};
ghost use Rattle.pkcs12_kdf.specs.Derivation.{turns};
ghost use Rattle.p12.specs.declared.algorithm_identifier.AlgorithmIdentifier.TheVariants.{Pbes2};

use crate::algorithm_identifier::rounds_of;
use crate::error::Error;
use crate::pkcs12_pbe_params::ParamsView;
use asn1_core::Octets;
use block_core::{BlockCipher, TdesEde3};
use mac_modes::cbc_decrypt_padded;
use pkcs5::pbes2::Parameters;
use pkcs12_kdf::{Derivation, IV_ID, KEY_ID};
use sha1::Sha1;
use std::alloc::Global;
use std::marker::Brand;
use std::sync::ledger::{Blank, Ledger};
use steps::Steps;

/// The sizes of Triple DES in octets.
pub(crate) const TRIPLE_DES_KEY: usize = 24;

pub(crate) const TRIPLE_DES_BLOCK: usize = 8;

/// Decrypts whole blocks in place under Triple DES, and returns the length of the text without its padding.
fn decrypt_in_place(key: &[u8], iv: &[u8], buffer: &mut [u8]) -> Option<usize>
    requires key { length key.now ≡ 24 }
    requires iv { length iv.now ≡ 8 }
    requires some { 0 < length buffer.old }
    requires whole { length buffer.old % 8 ≡ 0 }
    ensures some { IfSome result (λ len. (len ≤ length buffer.new)
        × (unpadded 8 (uncbc (inv_tdes key.now) 8 iv.now buffer.old)
        ≡ Some (take len buffer.new))) }
    ensures none { IfNone result (unpadded 8 (uncbc (inv_tdes key.now) 8 iv.now buffer.old)
        ≡ None) }
    ensures left { buffer.new ≡ uncbc (inv_tdes key.now) 8 iv.now buffer.old }
{
    let cipher = TdesEde3::new(key);
    match cbc_decrypt_padded(&cipher, iv, buffer) {
        Ok(len) => Some(len),
        Err(_refused) => None,
    }
}

/// Opens whole blocks in place under Triple DES, with a count of at least 1, and returns the length of the text in their front.
pub(crate) fn open_blocks<L: Ledger>(
    alloc: Global,
    params: &ParamsView<'_>,
    password: &[u8],
    buffer: &mut [u8],
    steps: &mut Steps<L>,
) -> Result<Option<usize>, Error>
    requires rounds { 1 ≤ params.now.iterations }
    requires some { 0 < length buffer.old }
    requires whole { length buffer.old % 8 ≡ 0 }
    requires password { length password.now < 2 ^ 59 }
    requires salt { length params.now.salt.now < 2 ^ 59 }
    ensures some { IfOk result (λ m. IfSome m (λ n. (n ≤ length buffer.new)
        × (unpadded 8 (triple_des_text password.now params.now.salt.now params.now.iterations
        buffer.old)
        ≡ Some (take n buffer.new)))) }
    ensures none { IfOk result (λ m. IfNone m
        (unpadded 8 (triple_des_text password.now params.now.salt.now params.now.iterations
        buffer.old) ≡ None)) }
    ensures left { OnOk result
        (buffer.new ≡ triple_des_text password.now params.now.salt.now params.now.iterations
        buffer.old) }
    ensures err { IfErr result (λ e. (e ≡ Error.Memory) × (buffer.new ≡ buffer.old)) }
    ensures steps { OnOk result (steps.new ≡ steps.old + 3 * params.now.iterations) }
    ensures at_most { (steps.old ≤ steps.new)
        × (steps.new ≤ steps.old + 3 * params.now.iterations) }
{
    let derivation = Derivation {
        password,
        salt: params.salt,
        rounds: params.iterations,
    };
    let key = derivation.key_counted::<Sha1, L>(alloc, KEY_ID, TRIPLE_DES_KEY, steps)?;
    let iv = derivation.key_counted::<Sha1, L>(alloc, IV_ID, TRIPLE_DES_BLOCK, steps)?;
    Ok(decrypt_in_place(key.as_slice(), iv.as_slice(), buffer))
}

/// Opens a text in place under PBES2, and returns its length.
pub(crate) fn open_pbes2<L: Ledger>(
    parameters: &Parameters,
    password: &[u8],
    buffer: &mut [u8],
    steps: &mut Steps<L>,
) -> Option<usize>
    ensures some { IfSome result (λ n. (n ≤ length buffer.new)
        × (unlock_pbes2 parameters.now password.now buffer.old ≡ Some (take n buffer.new))) }
    ensures none { IfNone result (unlock_pbes2 parameters.now password.now buffer.old ≡ None) }
    ensures left { IfNone result (LeftPbes2 parameters.now password.now buffer.old buffer.new) }
    ensures steps { steps.new ≡ steps.old + taken (Pbes2 parameters.now) buffer.old }
{
    if rounds_of(&parameters.kdf) == 0 {
        return None;
    }
    match parameters.decrypt_in_place_counted(password, buffer, steps) {
        Ok(len) => Some(len),
        Err(_) => None,
    }
}

fn opened_pbes2_from<L: Ledger>(
    alloc: Global,
    parameters: &Parameters,
    ciphertext: &[u8],
    password: &[u8],
    blank: Blank,
) -> Result<Option<Octets>, Error>
    requires name { blank.name ≡ L.name }
    requires parts { blank.parts ≡ L.parts }
    requires some { 0 < blank.parts }
    ensures value { IfOk result
        (λ m. m ≡ unlock_pbes2 parameters.now password.now ciphertext.now) }
    ensures short { IfOk result (λ m. IfSome m (λ text. length text ≤ length ciphertext.now)) }
    ensures err { IfErr result (λ e. e ≡ Error.Memory) }
{
    let mut steps = Steps::<L>::open(blank);
    let mut text = Octets::from_slice(alloc, ciphertext)?;
    match open_pbes2(parameters, password, text.as_mut_slice(), &mut steps) {
        Some(len) => {
            text.truncate(len);
            Ok(Some(text))
        }
        None => Ok(None),
    }
}

/// The text under PBES2, in memory of its own; nothing is counted.
pub(crate) fn opened_pbes2(
    alloc: Global,
    parameters: &Parameters,
    ciphertext: &[u8],
    password: &[u8],
) -> Result<Option<Octets>, Error>
    ensures value { IfOk result
        (λ m. m ≡ unlock_pbes2 parameters.now password.now ciphertext.now) }
    ensures short { IfOk result (λ m. IfSome m (λ text. length text ≤ length ciphertext.now)) }
    ensures err { IfErr result (λ e. e ≡ Error.Memory) }
{
    opened_pbes2_from::<Brand>(alloc, parameters, ciphertext, password, Blank::new(1))
}
