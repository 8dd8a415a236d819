//! Sealed documents: texts under a password or under a key, in DER.
ghost use Rattle.std.specs.Prelude.{◌≡◌, ◌≤◌, ◌<◌, ℕ, List, length, None, IfOk, IfErr, OnOk};
ghost use Rattle.std.specs.Result.{IsErrOf};
ghost use Rattle.asn1_core.specs.Writing.{Cause, IsOverlong};
ghost use Rattle.octet_core.specs.Draw.{DrawsIvAndSalt, Lacks};
ghost use Rattle.pkcs5.specs.Generation.{recommended};
ghost use Rattle.pkcs5.specs.Kinds.{IsDes, key_size};
ghost use Rattle.pkcs5.specs.Opening.{FitsKey, key_under};
ghost use Rattle.pkcs5.specs.declared.encryption_scheme.EncryptionScheme.TheVariants.{Pbes2};
ghost use Rattle.pkcs5.specs.declared.error.Error.TheVariants as pkcs5;
ghost use Rattle.pkcs8.specs.declared.error.Error.TheVariants as errors;
ghost use Rattle.pkcs8.specs.EncryptedPrivateKeyInfo.{encrypted_key_text};
ghost use Rattle.pkcs8.specs.Sealing.{IsSealed, RefusesToSeal, RefusesToSealDrawn, RefusesToSealUnder};

use crate::encrypted_private_key_info::EncryptedPrivateKeyInfo;
use crate::error::{Error, Result};
use der_core::{OctetStringRef, SecretDocument};
use octet_core::Draw;
use pkcs5::{EncryptionScheme, pbes2, schemes_have_texts};
use std::alloc::Global;

/// The document of a ciphertext.
fn document_of(
    alloc: Global,
    parameters: pbes2::Parameters,
    ciphertext: &[u8],
) -> std::result::Result<SecretDocument, asn1_core::Error>
    ensures ok { IfOk result (λ d. d.document.octets
        ≡ encrypted_key_text (Pbes2 parameters) ciphertext.now) }
    ensures err { IfErr result (λ e. Cause ⊥ (IsOverlong (length (encrypted_key_text
        (Pbes2 parameters) ciphertext.now))) (Unit {0}) None 0 0 0 e) }
{
    let encrypted_data = OctetStringRef::new(ciphertext)?;
    let info = EncryptedPrivateKeyInfo {
        encryption_algorithm: EncryptionScheme::Pbes2(parameters),
        encrypted_data,
    };
    schemes_have_texts(&info.encryption_algorithm);
    match SecretDocument::encode_msg(alloc, &info) {
        Ok(document) => Ok(document),
        // Its text is that of a SEQUENCE, which is none only where it is too long.
        Err(asn1_core::Error::Malformed) => Err(asn1_core::Error::Overlength),
        // Only the error above changes, so this is no `?`.
        Err(e) => Err(e),
    }
}

/// The document of a text under a password, with these parameters of PBES2.
pub(crate) fn seal(
    alloc: Global,
    parameters: pbes2::Parameters,
    password: &[u8],
    text: &[u8],
) -> Result<SecretDocument>
    ensures ok { IfOk result (λ d. IsSealed parameters password.now text.now d.document.octets) }
    ensures fits { OnOk result (FitsKey parameters) }
    ensures other_than_des { OnOk result (¬ IsDes parameters.encryption) }
    ensures err { IfErr result (λ e. RefusesToSeal parameters password.now text.now e) }
{
    let ciphertext = match parameters.encrypt(alloc, password, text) {
        Ok(ciphertext) => ciphertext,
        Err(e) => return Err(Error::from(e)),
    };
    match document_of(alloc, parameters, ciphertext.as_slice()) {
        Ok(document) => Ok(document),
        Err(e) => Err(Error::from(e)),
    }
}

/// The document of a text under a key that was derived already, with these parameters of PBES2.
pub(crate) fn seal_under_key(
    alloc: Global,
    parameters: pbes2::Parameters,
    key: &pbes2::EncryptionKey,
    text: &[u8],
) -> Result<SecretDocument>
    requires { length key.now ≡ key_size parameters.encryption }
    ensures ok { IfOk result (λ d. (q : List ℕ) → key.now ≡ key_under parameters q
        → IsSealed parameters q text.now d.document.octets) }
    ensures other_than_des { OnOk result (¬ IsDes parameters.encryption) }
    ensures err { IfErr result (λ e. (q : List ℕ) → FitsKey parameters
        → key.now ≡ key_under parameters q → RefusesToSeal parameters q text.now e) }
    ensures refused { IfErr result (RefusesToSealUnder parameters key.now text.now) }
{
    let ciphertext = match parameters.encrypt_under_key(alloc, key, text) {
        Ok(ciphertext) => ciphertext,
        Err(e) => return Err(Error::from(e)),
    };
    match document_of(alloc, parameters, ciphertext.as_slice()) {
        Ok(document) => Ok(document),
        Err(e) => Err(Error::from(e)),
    }
}

/// The same with the recommended parameters, under drawn octets.
pub(crate) fn seal_drawn<D: Draw>(
    alloc: Global,
    draw: &mut D,
    password: &[u8],
    text: &[u8],
) -> Result<SecretDocument>
    ensures ok { IfOk result (λ d. DrawsIvAndSalt (D.left draw.old) (D.left draw.new)
        (λ iv salt. IsSealed (recommended iv salt) password.now text.now d.document.octets)) }
    ensures err { IfErr result
        (λ e. RefusesToSealDrawn (Lacks (D.faults draw.old) (D.faults draw.new)
        (D.left draw.old) 32)
        password.now text.now e) }
    ensures count { D.faults draw.old ≤ D.faults draw.new }
    ensures no_fault { OnOk result (D.faults draw.new ≡ D.faults draw.old) }
    ensures last { D.faults draw.old < D.faults draw.new
        → IsErrOf result (errors.EncryptedPrivateKey pkcs5.Rng) }
{
    match pbes2::Parameters::generate_recommended(draw) {
        Ok(parameters) => seal(alloc, parameters, password, text),
        Err(e) => Err(Error::from(e)),
    }
}
