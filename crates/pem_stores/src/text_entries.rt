//! What a store of one private key is made of, as PEM texts have it.
ghost use Rattle.std.specs.Prelude.{◌≡◌, IfOk, IfErr};
ghost use Rattle.std.specs.Option.{option_copied};
ghost use Rattle.pem_stores.specs.Texts.{AreEntries, HasCertificatesIn, HasKeyIn, IsEntered, LacksCertificatesIn, LacksEntries, LacksKeyIn};

use crate::certificates::certificates_in;
use crate::further::{Further, further_of};
use crate::keys::{KeyOpening, key_in};
use crate::ownership::{OwnEntry, Owned, own_entry};
use crate::text_refusal::TextRefusal;
use asn1_core::Octets;
use create_core::KeyEntry;
use pem_text::{PemError, blocks_of};
use std::alloc::{AllocError, Global};

/// PEM texts of a private key and of certificates, and a name.
#[derive(Clone, Copy)]
pub struct PemTexts<'a> {
    /// The text that has the private key.
    pub key: &'a [u8],
    /// The text that has the certificates, which may be the same.
    pub certificates: &'a [u8],
    /// The friendly name of the key and of its certificate.
    pub name: Option<&'a str>,
}

/// What a store is made of.
#[derive(Drop)]
pub struct TextEntries {
    /// The private key with its certificate.
    pub keys: Vec<KeyEntry>,
    pub further: Further,
}

/// The PKCS#8 text of the one private key that a PEM text has.
fn key_of_text(alloc: Global, text: &[u8], opening: KeyOpening<'_>) -> Result<Octets, TextRefusal>
    ensures ok { IfOk result
        (HasKeyIn text.now (option_copied opening.entry.password) opening.entry.limit) }
    ensures err { IfErr result
        (LacksKeyIn text.now (option_copied opening.entry.password) opening.entry.limit) }
{
    match blocks_of(alloc, text) {
        Ok(blocks) => match key_in(alloc, blocks.as_slice(), opening) {
            Ok(key) => Ok(key),
            Err(refusal) => Err(TextRefusal::Key(refusal)),
        },
        Err(PemError::Memory) => Err(TextRefusal::Memory),
        Err(_) => Err(TextRefusal::KeyPem),
    }
}

/// The certificates that a PEM text has, in order.
fn certificates_of_text(alloc: Global, text: &[u8]) -> Result<Vec<Octets>, TextRefusal>
    ensures ok { IfOk result (λ v. HasCertificatesIn text.now v.items) }
    ensures err { IfErr result (LacksCertificatesIn text.now) }
{
    match blocks_of(alloc, text) {
        Ok(blocks) => match certificates_in(alloc, blocks.as_slice()) {
            Ok(certificates) => Ok(certificates),
            Err(refusal) => Err(TextRefusal::Certificates(refusal)),
        },
        Err(PemError::Memory) => Err(TextRefusal::Memory),
        Err(_) => Err(TextRefusal::CertificatePem),
    }
}

/// The entries of a key with its certificate and of the certificates beside it.
fn entered(alloc: Global, own: OwnEntry) -> Result<TextEntries, AllocError>
    ensures { IfOk result (IsEntered own.entry own.others.items) }
{
    let mut keys = Vec::new(alloc);
    keys.push(own.entry)?;
    let further = further_of(alloc, keys.as_slice(), own.others.as_slice())?;
    Ok(TextEntries { keys, further })
}

/// What a store is made of: the private key of the one text with its certificate, and the other certificates of the other text, each once
/// and in the order of the chain. `opening` opens a private key that is encrypted.
///
/// The errors are those of `TextRefusal`, each exactly where it is the first cause, but `Memory` may come in its place.
pub fn entries_of_texts(
    alloc: Global,
    texts: &PemTexts<'_>,
    opening: KeyOpening<'_>,
) -> Result<TextEntries, TextRefusal>
    ensures ok { IfOk result (AreEntries texts.now.key.now texts.now.certificates.now
        (option_copied texts.now.name) (option_copied opening.entry.password)
        opening.entry.limit) }
    ensures err { IfErr result (LacksEntries texts.now.key.now texts.now.certificates.now
        (option_copied opening.entry.password) opening.entry.limit) }
{
    let key = key_of_text(alloc, texts.key, opening)?;
    let certificates = certificates_of_text(alloc, texts.certificates)?;
    match own_entry(alloc, key, certificates, texts.name)? {
        Owned::Own(own) => Ok(entered(alloc, own)?),
        Owned::Untold(own) => Ok(entered(alloc, own)?),
        Owned::Nowhere => Err(TextRefusal::OtherKey),
    }
}
