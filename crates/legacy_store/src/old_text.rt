//! Opening texts under the old schemes of RFC 7292 (appendix B and C).
ghost use Rattle.std.specs.Prelude.{◌≡◌, ◌+◌, ◌*◌, ◌%◌, ◌≤◌, ◌<◌, ◌^◌, length, take, IfOk, IfSome, IfNone, OnOk, Some, None};
ghost use Rattle.mac_modes.specs.Cbc.{uncbc};
ghost use Rattle.pkcs5.specs.Opening.{unpadded};
ghost use Rattle.legacy_store.specs.Scheme.{key_octets, old_inverse, old_taken, old_text, old_unlock, seen_old};
ghost use Rattle.block_core.specs.Tdes.{inv_tdes};
ghost use Rattle.std.specs.Prelude.{◌++◌};

use crate::scheme::{OldCipher, OldScheme, SALT_LIMIT};
use asn1_core::Octets;
use block_core::{BlockCipher, TdesEde3};
use legacy_ciphers::{Rc2Of40, Rc2Of128};
use mac_modes::cbc_decrypt_padded;
use pkcs12_kdf::{Derivation, IV_ID, KEY_ID};
use sha1::Sha1;
use std::alloc::{AllocError, Global};
use std::sync::ledger::Ledger;
use steps::Steps;

/// The octets of a block.
const BLOCK: usize = 8;

/// Decrypts whole blocks in place under a cipher, and returns the length of the text without its padding.
fn decrypt_under<C: BlockCipher + Drop>(key: &[u8], iv: &[u8], buffer: &mut [u8]) -> Option<usize>
    requires block { C.BLOCK ≡ 8 }
    requires key { length key.now ≡ C.KEY }
    requires iv { length iv.now ≡ 8 }
    requires some { 0 < length buffer.old }
    requires whole { length buffer.old % 8 ≡ 0 }
    ensures some { IfSome result (λ len. (len ≤ length buffer.new)
        × (unpadded 8 (uncbc (C.inverse key.now) 8 iv.now buffer.old)
        ≡ Some (take len buffer.new))) }
    ensures none { IfNone result (unpadded 8 (uncbc (C.inverse key.now) 8 iv.now buffer.old)
        ≡ None) }
{
    let cipher = C::new(key);
    match cbc_decrypt_padded(&cipher, iv, buffer) {
        Ok(len) => Some(len),
        Err(_refused) => None,
    }
}

/// The three keys of Triple DES in two: the first, the second, and the first again.
fn three_keys(alloc: Global, two: &[u8]) -> Result<Octets, AllocError>
    requires { length two.now ≡ 16 }
    ensures { IfOk result (λ keys. keys ≡ two.now ++ take 8 two.now) }
{
    let mut keys = Octets::from_slice(alloc, two)?;
    keys.extend(&two[..8])?;
    Ok(keys)
}

/// Decrypts whole blocks in place under Triple DES with two keys, as `decrypt_under`.
fn decrypt_two_key(
    alloc: Global,
    key: &[u8],
    iv: &[u8],
    buffer: &mut [u8],
) -> Result<Option<usize>, AllocError>
    requires key { length key.now ≡ 16 }
    requires iv { length iv.now ≡ 8 }
    requires some { 0 < length buffer.old }
    requires whole { length buffer.old % 8 ≡ 0 }
    ensures some { IfOk result (λ m. IfSome m (λ len. (len ≤ length buffer.new)
        × (unpadded 8 (uncbc (inv_tdes (key.now ++ take 8 key.now)) 8 iv.now buffer.old)
        ≡ Some (take len buffer.new)))) }
    ensures none { IfOk result (λ m. IfNone m
        (unpadded 8 (uncbc (inv_tdes (key.now ++ take 8 key.now)) 8 iv.now buffer.old) ≡ None)) }
{
    let keys = three_keys(alloc, key)?;
    Ok(decrypt_under::<TdesEde3>(keys.as_slice(), iv, buffer))
}

/// Decrypts whole blocks in place, and returns the length of the text without its padding.
fn decrypt_in_place(
    alloc: Global,
    cipher: OldCipher,
    key: &[u8],
    iv: &[u8],
    buffer: &mut [u8],
) -> Result<Option<usize>, AllocError>
    requires key { length key.now ≡ key_octets cipher }
    requires iv { length iv.now ≡ 8 }
    requires some { 0 < length buffer.old }
    requires whole { length buffer.old % 8 ≡ 0 }
    ensures some { IfOk result (λ m. IfSome m (λ len. (len ≤ length buffer.new)
        × (unpadded 8 (uncbc (old_inverse cipher key.now) 8 iv.now buffer.old)
        ≡ Some (take len buffer.new)))) }
    ensures none { IfOk result (λ m. IfNone m
        (unpadded 8 (uncbc (old_inverse cipher key.now) 8 iv.now buffer.old) ≡ None)) }
{
    match cipher {
        OldCipher::Rc2Of40 => Ok(decrypt_under::<Rc2Of40>(key, iv, buffer)),
        OldCipher::Rc2Of128 => Ok(decrypt_under::<Rc2Of128>(key, iv, buffer)),
        OldCipher::TwoKeyTripleDes => decrypt_two_key(alloc, key, iv, buffer),
    }
}

/// Opens whole blocks in place, with a count of at least 1, and returns the length of the text in their front.
fn open_blocks<L: Ledger>(
    alloc: Global,
    scheme: &OldScheme<'_>,
    password: &[u8],
    buffer: &mut [u8],
    steps: &mut Steps<L>,
) -> Result<Option<usize>, AllocError>
    requires rounds { 1 ≤ scheme.now.iterations }
    requires some { 0 < length buffer.old }
    requires whole { length buffer.old % 8 ≡ 0 }
    requires password { length password.now < 2 ^ 59 }
    requires salt { length scheme.now.salt.now < 2 ^ 59 }
    ensures some { IfOk result (λ m. IfSome m (λ n. (n ≤ length buffer.new)
        × (unpadded 8 (old_text (seen_old scheme.now) password.now buffer.old)
        ≡ Some (take n buffer.new)))) }
    ensures none { IfOk result (λ m. IfNone m
        (unpadded 8 (old_text (seen_old scheme.now) password.now buffer.old) ≡ None)) }
    ensures steps { OnOk result (steps.new ≡ steps.old + 2 * scheme.now.iterations) }
    ensures at_most { (steps.old ≤ steps.new)
        × (steps.new ≤ steps.old + 2 * scheme.now.iterations) }
{
    let derivation = Derivation {
        password,
        salt: scheme.salt,
        rounds: scheme.iterations,
    };
    let size = scheme.cipher.key_octets();
    let key = derivation.key_counted::<Sha1, L>(alloc, KEY_ID, size, steps)?;
    let iv = derivation.key_counted::<Sha1, L>(alloc, IV_ID, BLOCK, steps)?;
    decrypt_in_place(alloc, scheme.cipher, key.as_slice(), iv.as_slice(), buffer)
}

/// Opens a text in place, and returns the length of the plain octets, which then are in its front. None where there are no rounds or no
/// whole blocks, where the padding is wrong, and where the salt has more octets than a store.
#[tactic(auto, unfolding(crate::specs::Scheme::old_unlock, crate::specs::Scheme::old_taken))]
fn open_in_place<L: Ledger>(
    alloc: Global,
    scheme: &OldScheme<'_>,
    password: &[u8],
    buffer: &mut [u8],
    steps: &mut Steps<L>,
) -> Result<Option<usize>, AllocError>
    requires password { length password.now < 2 ^ 59 }
    ensures some { IfOk result (λ m. IfSome m (λ n. (n ≤ length buffer.new)
        × (old_unlock (seen_old scheme.now) password.now buffer.old
        ≡ Some (take n buffer.new)))) }
    ensures none { IfOk result
        (λ m. IfNone m (old_unlock (seen_old scheme.now) password.now buffer.old ≡ None)) }
    ensures steps { OnOk result
        (steps.new ≡ steps.old + old_taken (seen_old scheme.now) buffer.old) }
    ensures at_most { (steps.old ≤ steps.new)
        × (steps.new ≤ steps.old + old_taken (seen_old scheme.now) buffer.old) }
{
    if scheme.salt.len() >= SALT_LIMIT
        || scheme.iterations == 0
        || buffer.is_empty()
        || buffer.len() % BLOCK != 0
    {
        return Ok(None);
    }
    open_blocks(alloc, scheme, password, buffer, steps)
}

/// The text, in memory of its own.
pub(crate) fn opened_old<L: Ledger>(
    alloc: Global,
    scheme: &OldScheme<'_>,
    ciphertext: &[u8],
    password: &[u8],
    steps: &mut Steps<L>,
) -> Result<Option<Octets>, AllocError>
    requires password { length password.now < 2 ^ 59 }
    ensures value { IfOk result
        (λ m. m ≡ old_unlock (seen_old scheme.now) password.now ciphertext.now) }
    ensures short { IfOk result (λ m. IfSome m (λ text. length text ≤ length ciphertext.now)) }
    ensures steps { OnOk result
        (steps.new ≡ steps.old + old_taken (seen_old scheme.now) ciphertext.now) }
    ensures at_most { (steps.old ≤ steps.new)
        × (steps.new ≤ steps.old + old_taken (seen_old scheme.now) ciphertext.now) }
{
    let mut text = Octets::from_slice(alloc, ciphertext)?;
    match open_in_place(alloc, scheme, password, text.as_mut_slice(), steps)? {
        Some(len) => {
            text.truncate(len);
            Ok(Some(text))
        }
        None => Ok(None),
    }
}
