//! Private keys under a password.
ghost use Rattle.std.specs.Prelude.{◌≡◌, ◌⊎◌, IfOk, IfErr, None, Some};
ghost use Rattle.std.specs.Option.{option_copied};
ghost use Rattle.asn1_core.specs.Gives.{IsNone};
ghost use Rattle.pkcs5.specs.SchemeOpening.{SchemeOpens};
ghost use Rattle.pkcs8.specs.Seen.{IsPrivateKey};
ghost use Rattle.key_files.specs.declared.key_refusal.KeyRefusal.TheVariants.{Memory};
ghost use Rattle.key_files.specs.Keys.{IsDocumentWithin, IsKey, IsOpened, OpensToNone, RefusesDocument, RefusesToOpenKey, scheme_rounds, unopened, unread};

use crate::key_refusal::KeyRefusal;
use asn1_core::Octets;
use pkcs5::EncryptionScheme;
use pkcs5::pbes2::Kdf;
use pkcs8::{EncryptedPrivateKeyInfoRef, PrivateKeyInfoRef};
use std::alloc::Global;

/// The rounds of PBKDF2 of a scheme; none where it is another one than PBES2 with PBKDF2.
fn rounds_of(scheme: &EncryptionScheme) -> Option<u32>
    ensures { result ≡ scheme_rounds scheme.now }
{
    match scheme {
        EncryptionScheme::Pbes1(_) => None,
        EncryptionScheme::Pbes2(parameters) => match &parameters.kdf {
            Kdf::Pbkdf2(params) => Some(params.iteration_count),
            Kdf::Scrypt(_) => None,
        },
    }
}

/// What the refusal of a document says.
fn unread(error: pkcs8::Error) -> KeyRefusal
    ensures { result ≡ unread error }
{
    match error {
        pkcs8::Error::Asn1(asn1_core::Error::OidUnknown { .. }) => KeyRefusal::UnknownScheme,
        _ => KeyRefusal::Malformed,
    }
}

/// The document in these octets, which is to be under PBES2 with PBKDF2 in at most so many rounds.
fn document_within(octets: &[u8], limit: u32) -> Result<EncryptedPrivateKeyInfoRef<'_>, KeyRefusal>
    ensures ok { IfOk result (λ d. IsDocumentWithin octets.now limit d.encryption_algorithm
        d.encrypted_data.octets.now) }
    ensures err { IfErr result (RefusesDocument octets.now limit) }
{
    let document = match EncryptedPrivateKeyInfoRef::try_from(octets) {
        Ok(document) => document,
        Err(error) => return Err(unread(error)),
    };
    match rounds_of(&document.encryption_algorithm) {
        Some(rounds) if rounds <= limit => Ok(document),
        Some(_) => Err(KeyRefusal::TooManyRounds),
        None => Err(KeyRefusal::UnknownScheme),
    }
}

/// What a document that is not decrypted says.
fn unopened(error: pkcs8::Error) -> KeyRefusal
    ensures { result ≡ unopened error }
{
    match error {
        pkcs8::Error::Memory => KeyRefusal::Memory,
        _ => KeyRefusal::NotOpened,
    }
}

/// The text that a document opens to under a password, which is to be a private key's.
fn opened(
    alloc: Global,
    document: &EncryptedPrivateKeyInfoRef<'_>,
    password: &str,
) -> Result<Octets, KeyRefusal>
    ensures ok { IfOk result (λ k. SchemeOpens document.now.encryption_algorithm password.now
        document.now.encrypted_data.octets.now k × IsKey k) }
    ensures err { IfErr result (λ e. (e ≡ Memory) ⊎ ((e ≡ KeyRefusal.NotOpened)
        × OpensToNone document.now.encryption_algorithm password.now
        document.now.encrypted_data.octets.now)) }
{
    match document.decrypt(alloc, password.as_bytes()) {
        Ok(text) => match PrivateKeyInfoRef::try_from(text.as_bytes()) {
            Ok(_) => Ok(Octets::from_slice(alloc, text.as_bytes())?),
            Err(_) => Err(KeyRefusal::NotOpened),
        },
        Err(error) => Err(unopened(error)),
    }
}

/// The text of the private key that these octets, an EncryptedPrivateKeyInfo, open to.
pub(crate) fn opened_key(
    alloc: Global,
    octets: &[u8],
    password: Option<&str>,
    limit: u32,
) -> Result<Octets, KeyRefusal>
    ensures ok { IfOk result (IsOpened octets.now (option_copied password.entry) limit) }
    ensures err { IfErr result
        (RefusesToOpenKey octets.now (option_copied password.entry) limit) }
{
    let document = match document_within(octets, limit) {
        Ok(document) => document,
        Err(refusal) => return Err(refusal),
    };
    match password {
        Some(password) => opened(alloc, &document, password),
        None => Err(KeyRefusal::PasswordMissing),
    }
}
