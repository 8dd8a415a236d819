//! What the calls return.
ghost use Rattle.std.specs.Prelude.{◌≡◌, ◌<◌, ◌≤◌, length, IfOk, OnOk};
ghost use Rattle.phc_core.specs.PasswordHash.{Phc};
ghost use Rattle.phc_core.specs.declared.password_hash.PasswordHash.{PasswordHash};
ghost use Rattle.pbkdf2.specs.Hashes.{Agrees};
ghost use Rattle.mac_modes.specs.Hmac.{hmac};
ghost use Rattle.p12.specs.Canonical.{store_canon};
ghost use Rattle.known_answers.specs.Known.{word, Costs, IsAnswer, IsDerived, IsFingerprint, IsGcmOpened, IsGcmSealed, IsMade, IsOpened, IsRewritten};
ghost use Rattle.known_answers.specs.declared.call.Call.TheVariants.{Pkcs12Key, Pkcs12Store, Pkcs12Written, Scrypt, PhcVerify, PhcString, Pkcs5Decrypt, Pkcs5Encrypt, Pkcs5Scheme, SpkiFingerprint, Identifier};

use crate::call::Call;
use crate::refused::Refused;
use asn1_core::{ObjectIdentifier, uint_value};
use block_core::{Aes128, Aes192, Aes256, BlockCipher, Des, TdesEde3};
use der_core::{Decode, Encode};
use mac_modes::{
    DrawnBytes, HashFn, Hmac, Prf, Sha1, Sha224, Sha256, Sha384, Sha512, answer_at,
    cbc_decrypt_padded, gcm_decrypt, gcm_encrypt,
};
use octet_core::{Octets, Text};
use p12::{PFX, pbepkcs12sha1};
use pbkdf2::{PasswordVerifier, Pbkdf2, pbkdf2_hmac};
use phc_core::PasswordHash;
use pkcs5::EncryptionScheme;
use scrypt_core::{Params, scrypt};
use spki::{SubjectPublicKeyInfoOwned, public_keys_are_written};
use std::alloc::Global;

/// The longest password, in octets.
const LONGEST_PASSWORD: usize = 1_024;

/// The block that a cipher makes of a block: key, block.
fn encrypted<C: BlockCipher + Drop>(alloc: Global, words: &[Octets]) -> Result<Octets, Refused>
    ensures { IfOk result (λ o. o ≡ C.cipher (word words.now 0) (word words.now 1)) }
{
    if words.len() != 2 || words[0].len() != C::KEY || words[1].len() != C::BLOCK {
        return Err(Refused::Words);
    }
    let cipher = C::new(words[0].as_slice());
    let mut block = words[1].try_clone(alloc)?;
    cipher.encrypt_block(block.as_mut_slice());
    Ok(block)
}

/// The block that a cipher makes a block of: key, block.
fn decrypted<C: BlockCipher + Drop>(alloc: Global, words: &[Octets]) -> Result<Octets, Refused>
    ensures { IfOk result (λ o. o ≡ C.inverse (word words.now 0) (word words.now 1)) }
{
    if words.len() != 2 || words[0].len() != C::KEY || words[1].len() != C::BLOCK {
        return Err(Refused::Words);
    }
    let cipher = C::new(words[0].as_slice());
    let mut block = words[1].try_clone(alloc)?;
    cipher.decrypt_block(block.as_mut_slice());
    Ok(block)
}

/// The text of a ciphertext in cipher block chaining: key, initialization vector, ciphertext.
fn opened<C: BlockCipher + Drop>(alloc: Global, words: &[Octets]) -> Result<Octets, Refused>
    ensures { IfOk result (λ o. IsOpened C.inverse C.BLOCK words.now o) }
{
    if words.len() != 3 || words[0].len() != C::KEY || words[1].len() != C::BLOCK {
        return Err(Refused::Words);
    }
    let cipher = C::new(words[0].as_slice());
    let mut text = words[2].try_clone(alloc)?;
    let len = cbc_decrypt_padded(&cipher, words[1].as_slice(), text.as_mut_slice())?;
    text.truncate(len);
    Ok(text)
}

/// The ciphertext and tag of a text in GCM: key, nonce, text.
fn gcm_sealed<C: BlockCipher + Drop>(alloc: Global, words: &[Octets]) -> Result<Octets, Refused>
    requires { C.BLOCK ≡ 16 }
    ensures { IfOk result (λ o. IsGcmSealed C.cipher words.now o) }
{
    if words.len() != 3 || words[0].len() != C::KEY {
        return Err(Refused::Words);
    }
    let Ok(nonce) = <&[u8; 12]>::try_from(words[1].as_slice()) else {
        return Err(Refused::Words);
    };
    let cipher = C::new(words[0].as_slice());
    let mut text = words[2].try_clone(alloc)?;
    text.extend(&[0; 16])?;
    let len = gcm_encrypt(&cipher, nonce, text.as_mut_slice(), words[2].len())?;
    text.truncate(len);
    Ok(text)
}

/// The text of a ciphertext and its tag in GCM: key, nonce, both.
fn gcm_opened<C: BlockCipher + Drop>(alloc: Global, words: &[Octets]) -> Result<Octets, Refused>
    requires { C.BLOCK ≡ 16 }
    ensures { IfOk result (λ o. IsGcmOpened C.cipher words.now o) }
{
    if words.len() != 3 || words[0].len() != C::KEY {
        return Err(Refused::Words);
    }
    let Ok(nonce) = <&[u8; 12]>::try_from(words[1].as_slice()) else {
        return Err(Refused::Words);
    };
    let cipher = C::new(words[0].as_slice());
    let mut text = words[2].try_clone(alloc)?;
    let len = gcm_decrypt(&cipher, nonce, text.as_mut_slice())?;
    text.truncate(len);
    Ok(text)
}

/// The tag of HMAC: key, message.
fn tag<H: HashFn>(alloc: Global, words: &[Octets]) -> Result<Octets, Refused>
    ensures { IfOk result (λ o. o ≡ hmac H.digest H.BLOCK (word words.now 0) (word words.now 1)) }
{
    if words.len() != 2 {
        return Err(Refused::Words);
    }
    let Ok(keyed) = Hmac::<H>::new_from_slice(words[0].as_slice()) else {
        return Err(Refused::Words);
    };
    let mut out = [0u8; 64];
    answer_at(&keyed, words[1].as_slice(), &mut out);
    Ok(Octets::from_slice(alloc, &out[..H::OUTPUT])?)
}

/// A key of PBKDF2: password, salt, rounds, length.
fn derived<H: HashFn>(alloc: Global, words: &[Octets]) -> Result<Octets, Refused>
    ensures { IfOk result (λ o. IsDerived (hmac H.digest H.BLOCK) H.OUTPUT words.now o) }
{
    if words.len() != 4 {
        return Err(Refused::Words);
    }
    let rounds = uint_value(u32::MAX as u64, words[2].as_slice())?;
    let size = uint_value(256, words[3].as_slice())?;
    let mut key = [0u8; 256];
    let key = &mut key[..size as usize];
    pbkdf2_hmac::<H>(words[0].as_slice(), words[1].as_slice(), rounds as u32, key);
    Ok(Octets::from_slice(alloc, key)?)
}

/// A key of PKCS#12: password, salt, rounds, identifier, length.
fn pkcs12_key(alloc: Global, words: &[Octets]) -> Result<Octets, Refused>
    ensures { IfOk result (λ o. IsAnswer Pkcs12Key words.now o) }
{
    if words.len() != 5 || words[0].len() > 1024 || words[1].len() > 1024 {
        return Err(Refused::Words);
    }
    let rounds = uint_value(u32::MAX as u64, words[2].as_slice())?;
    let id = uint_value(255, words[3].as_slice())?;
    let size = uint_value(1024, words[4].as_slice())?;
    if rounds == 0 {
        return Err(Refused::Words);
    }
    match pbepkcs12sha1(
        alloc,
        words[0].as_slice(),
        words[1].as_slice(),
        rounds,
        id as u8,
        size,
    ) {
        Ok(key) => Ok(key),
        Err(_) => Err(Refused::Memory),
    }
}

/// The costs of scrypt that words 2 to 4 state: log_n, r, p.
fn costs(words: &[Octets]) -> Result<Params, Refused>
    ensures { IfOk result (λ params. Costs words.now params.log_n params.r params.p) }
{
    if words.len() != 6 {
        return Err(Refused::Words);
    }
    let log_n = uint_value(63, words[2].as_slice())?;
    let r = uint_value(u32::MAX as u64, words[3].as_slice())?;
    let p = uint_value(u32::MAX as u64, words[4].as_slice())?;
    Ok(Params::new(log_n as u8, r as u32, p as u32)?)
}

/// A key of scrypt: password, salt, log_n, r, p, length.
fn scrypt_key(alloc: Global, words: &[Octets]) -> Result<Octets, Refused>
    ensures { IfOk result (λ o. IsAnswer Scrypt words.now o) }
{
    if words.len() != 6 {
        return Err(Refused::Words);
    }
    let params = costs(words)?;
    let size = uint_value(256, words[5].as_slice())?;
    let mut key = [0u8; 256];
    let key = &mut key[..size as usize];
    scrypt(
        alloc,
        words[0].as_slice(),
        words[1].as_slice(),
        &params,
        key,
    )?;
    Ok(Octets::from_slice(alloc, key)?)
}

/// The text of the value that a PHC string has.
fn rewritten(alloc: Global, text: &str) -> Result<Text, phc_core::Error>
    ensures { IfOk result (λ t. IsRewritten text.now t) }
{
    match PasswordHash::new(text) {
        Ok(hash) => hash.to_text(alloc),
        // No `?` here: the prover makes no proof of it over a `PasswordHash`.
        Err(e) => Err(e),
    }
}

/// The text of the value that a PHC string has: the string.
fn string_written(alloc: Global, words: &[Octets]) -> Result<Octets, Refused>
    ensures { IfOk result (λ o. IsAnswer PhcString words.now o) }
{
    if words.len() != 1 {
        return Err(Refused::Words);
    }
    let Ok(text) = str::from_utf8(words[0].as_slice()) else {
        return Err(Refused::Utf8);
    };
    match rewritten(alloc, text) {
        Ok(written) => Ok(Octets::from_slice(alloc, written.as_str().as_bytes())?),
        Err(e) => Err(Refused::Phc(e)),
    }
}

/// Whether a password is that of a PHC string.
fn tested(password: &[u8], text: &str) -> Result<(), phc_core::Error>
    ensures { OnOk result ((hash : PasswordHash) × Phc text.now hash × Agrees password.now hash) }
{
    match PasswordHash::new(text) {
        Ok(hash) => Pbkdf2::SHA256.verify_password(password, &hash),
        // No `?` here: the prover makes no proof of it over a `PasswordHash`.
        Err(e) => Err(e),
    }
}

/// The octet 1, where a password is that of a PHC string: password, string.
fn verified(alloc: Global, words: &[Octets]) -> Result<Octets, Refused>
    ensures { IfOk result (λ o. IsAnswer PhcVerify words.now o) }
{
    if words.len() != 2 {
        return Err(Refused::Words);
    }
    let Ok(text) = str::from_utf8(words[1].as_slice()) else {
        return Err(Refused::Utf8);
    };
    match tested(words[0].as_slice(), text) {
        Ok(()) => Ok(Octets::from_slice(alloc, &[1])?),
        Err(e) => Err(Refused::Phc(e)),
    }
}

/// The text that is written of a store.
fn text_of(alloc: Global, store: &PFX) -> Result<Octets, Refused>
    ensures { IfOk result (λ o. o ≡ store_canon store.now) }
{
    match store.to_der(alloc) {
        Ok(text) => Ok(text),
        Err(e) => Err(Refused::Pkcs12(e)),
    }
}

/// What a store is made of.
#[derive(Clone, Copy)]
struct Entry<'a> {
    certificate: &'a [u8],
    key: &'a [u8],
    others: &'a [Octets],
    name: &'a str,
}

/// The text of a store that is made under a password and drawn octets.
fn made(alloc: Global, entry: Entry<'_>, password: &str, drawn: Octets) -> Result<Octets, Refused>
    requires { length password.now ≤ 1024 }
    ensures { IfOk result (IsMade entry.entry.certificate.now entry.entry.key.now
        password.now entry.entry.name.now drawn entry.entry.others.now) }
{
    let mut draw = DrawnBytes::new(drawn);
    match PFX::new_with_cas(
        alloc,
        entry.certificate,
        entry.key,
        entry.others,
        password,
        entry.name,
        &mut draw,
    ) {
        Ok(store) => text_of(alloc, &store),
        Err(e) => Err(Refused::Pkcs12(e)),
    }
}

/// The text of a store that is made: certificate, key, password, name, the octets that are drawn for its salts, and further
/// certificates.
fn store_made(alloc: Global, words: &[Octets]) -> Result<Octets, Refused>
    ensures { IfOk result (λ o. IsAnswer Pkcs12Store words.now o) }
{
    if words.len() < 5 || words[2].len() > LONGEST_PASSWORD {
        return Err(Refused::Words);
    }
    let Ok(password) = str::from_utf8(words[2].as_slice()) else {
        return Err(Refused::Utf8);
    };
    let Ok(name) = str::from_utf8(words[3].as_slice()) else {
        return Err(Refused::Utf8);
    };
    let drawn = words[4].try_clone(alloc)?;
    let entry = Entry {
        certificate: words[0].as_slice(),
        key: words[1].as_slice(),
        others: &words[5..],
        name,
    };
    made(alloc, entry, password, drawn)
}

/// The text that is written of a store: a text of it.
fn store_written(alloc: Global, words: &[Octets]) -> Result<Octets, Refused>
    ensures { IfOk result (λ o. IsAnswer Pkcs12Written words.now o) }
{
    if words.len() != 1 {
        return Err(Refused::Words);
    }
    match PFX::parse(alloc, words[0].as_slice()) {
        Ok(store) => text_of(alloc, &store),
        Err(e) => Err(Refused::Pkcs12(e)),
    }
}

/// The text of a ciphertext under a password: scheme, password, ciphertext.
fn scheme_opened(alloc: Global, words: &[Octets]) -> Result<Octets, Refused>
    ensures { IfOk result (λ o. IsAnswer Pkcs5Decrypt words.now o) }
{
    if words.len() != 3 {
        return Err(Refused::Words);
    }
    match EncryptionScheme::try_from(words[0].as_slice()) {
        Ok(scheme) => match scheme.decrypt(alloc, words[1].as_slice(), words[2].as_slice()) {
            Ok(text) => Ok(text),
            Err(e) => Err(Refused::Pkcs5(e)),
        },
        Err(e) => Err(Refused::Asn1(e)),
    }
}

/// The ciphertext of a text under a password: scheme, password, text.
fn scheme_sealed(alloc: Global, words: &[Octets]) -> Result<Octets, Refused>
    ensures { IfOk result (λ o. IsAnswer Pkcs5Encrypt words.now o) }
{
    if words.len() != 3 {
        return Err(Refused::Words);
    }
    match EncryptionScheme::try_from(words[0].as_slice()) {
        Ok(scheme) => match scheme.encrypt(alloc, words[1].as_slice(), words[2].as_slice()) {
            Ok(ciphertext) => Ok(ciphertext),
            Err(e) => Err(Refused::Pkcs5(e)),
        },
        Err(e) => Err(Refused::Asn1(e)),
    }
}

/// The text that is written of a scheme: a text of it.
fn scheme_written(alloc: Global, words: &[Octets]) -> Result<Octets, Refused>
    ensures { IfOk result (λ o. IsAnswer Pkcs5Scheme words.now o) }
{
    if words.len() != 1 {
        return Err(Refused::Words);
    }
    match EncryptionScheme::try_from(words[0].as_slice()) {
        Ok(scheme) => match scheme.to_der(alloc) {
            Ok(text) => Ok(text),
            Err(e) => Err(Refused::Asn1(e)),
        },
        Err(e) => Err(Refused::Asn1(e)),
    }
}

/// The fingerprint of the public key of this text.
fn fingerprint_of(alloc: Global, text: &[u8]) -> Result<Octets, Refused>
    ensures { IfOk result (λ o. IsFingerprint text.now o) }
{
    let key = SubjectPublicKeyInfoOwned::from_der(alloc, text)?;
    public_keys_are_written(&key);
    Ok(Octets::from_slice(alloc, &key.fingerprint_bytes()?)?)
}

/// The fingerprint of a public key: its text.
fn fingerprint(alloc: Global, words: &[Octets]) -> Result<Octets, Refused>
    ensures { IfOk result (λ o. IsAnswer SpkiFingerprint words.now o) }
{
    if words.len() != 1 {
        return Err(Refused::Words);
    }
    fingerprint_of(alloc, words[0].as_slice())
}

/// The octets of an identifier: its text.
fn identifier(alloc: Global, words: &[Octets]) -> Result<Octets, Refused>
    ensures { IfOk result (λ o. IsAnswer Identifier words.now o) }
{
    if words.len() != 1 {
        return Err(Refused::Words);
    }
    let Ok(text) = str::from_utf8(words[0].as_slice()) else {
        return Err(Refused::Utf8);
    };
    Ok(Octets::from_slice(alloc, ObjectIdentifier::new(text)?.as_bytes())?)
}

/// What the call returns at these words.
pub fn answer(alloc: Global, call: Call, words: &[Octets]) -> Result<Octets, Refused>
    ensures { IfOk result (λ o. IsAnswer call words.now o) }
{
    match call {
        Call::Aes128Encrypt => encrypted::<Aes128>(alloc, words),
        Call::Aes128Decrypt => decrypted::<Aes128>(alloc, words),
        Call::Aes192Encrypt => encrypted::<Aes192>(alloc, words),
        Call::Aes192Decrypt => decrypted::<Aes192>(alloc, words),
        Call::Aes256Encrypt => encrypted::<Aes256>(alloc, words),
        Call::Aes256Decrypt => decrypted::<Aes256>(alloc, words),
        Call::DesEncrypt => encrypted::<Des>(alloc, words),
        Call::DesDecrypt => decrypted::<Des>(alloc, words),
        Call::TdesEncrypt => encrypted::<TdesEde3>(alloc, words),
        Call::TdesDecrypt => decrypted::<TdesEde3>(alloc, words),
        Call::CbcAes128Decrypt => opened::<Aes128>(alloc, words),
        Call::CbcAes192Decrypt => opened::<Aes192>(alloc, words),
        Call::CbcAes256Decrypt => opened::<Aes256>(alloc, words),
        Call::CbcDesDecrypt => opened::<Des>(alloc, words),
        Call::CbcTdesDecrypt => opened::<TdesEde3>(alloc, words),
        Call::GcmAes128Encrypt => gcm_sealed::<Aes128>(alloc, words),
        Call::GcmAes128Decrypt => gcm_opened::<Aes128>(alloc, words),
        Call::GcmAes192Encrypt => gcm_sealed::<Aes192>(alloc, words),
        Call::GcmAes192Decrypt => gcm_opened::<Aes192>(alloc, words),
        Call::GcmAes256Encrypt => gcm_sealed::<Aes256>(alloc, words),
        Call::GcmAes256Decrypt => gcm_opened::<Aes256>(alloc, words),
        Call::HmacSha1 => tag::<Sha1>(alloc, words),
        Call::HmacSha224 => tag::<Sha224>(alloc, words),
        Call::HmacSha256 => tag::<Sha256>(alloc, words),
        Call::HmacSha384 => tag::<Sha384>(alloc, words),
        Call::HmacSha512 => tag::<Sha512>(alloc, words),
        Call::Pbkdf2Sha1 => derived::<Sha1>(alloc, words),
        Call::Pbkdf2Sha256 => derived::<Sha256>(alloc, words),
        Call::Pbkdf2Sha512 => derived::<Sha512>(alloc, words),
        Call::Scrypt => scrypt_key(alloc, words),
        Call::Pkcs12Key => pkcs12_key(alloc, words),
        Call::Pkcs12Store => store_made(alloc, words),
        Call::Pkcs12Written => store_written(alloc, words),
        Call::PhcVerify => verified(alloc, words),
        Call::PhcString => string_written(alloc, words),
        Call::Pkcs5Decrypt => scheme_opened(alloc, words),
        Call::Pkcs5Encrypt => scheme_sealed(alloc, words),
        Call::Pkcs5Scheme => scheme_written(alloc, words),
        Call::SpkiFingerprint => fingerprint(alloc, words),
        Call::Identifier => identifier(alloc, words),
    }
}
