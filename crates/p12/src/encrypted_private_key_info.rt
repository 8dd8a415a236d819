//! Encrypted private keys of a store.
ghost use Rattle.std.specs.Prelude.{◌+◌, ◌≡◌, ◌<◌, ◌^◌, length, OnOk, IfOk, IfErr};
ghost use Rattle.asn1_core.specs.Gives.{ReadsAs};
ghost use Rattle.p12.specs.AlgorithmIdentifier.{salt_of, unlock_pbe};
ghost use Rattle.p12.specs.EncryptedPrivateKeyInfo.{EncryptedKeyText};
ghost use Rattle.p12.specs.BagView.{seen_key};
ghost use Rattle.p12.specs.Error.{Reads};
ghost use Rattle.p12.specs.Reading.{encrypted_key_at};
ghost use Rattle.asn1_core.specs.Der.{IsShort};
ghost use Rattle.p12.specs.Canonical.{WritableKey, encrypted_key_canon};
ghost use Rattle.p12.specs.Writing.{WritesText};

use crate::algorithm_identifier::{AlgorithmIdentifier, algorithm_view};
use crate::encrypted_data::EncryptedView;
use crate::error::Error;
use crate::writing::write_row;
use asn1_core::{Octets, Reader, SliceReader, Tag, Writer, read_inner};
use std::alloc::Global;

/// A private key that is encrypted under an algorithm of PKCS#12 (RFC 7292 section 4.2.2; RFC 5958 section 3).
///
/// ```text
/// EncryptedPrivateKeyInfo ::= SEQUENCE { encryptionAlgorithm AlgorithmIdentifier, encryptedData OCTET STRING }
/// ```
#[derive(Debug, PartialEq, Eq, Drop)]
pub struct EncryptedPrivateKeyInfo {
    pub encryption_algorithm: AlgorithmIdentifier,
    pub encrypted_data: Octets,
}

#[tactic(auto, unfolding(crate::specs::Reading::encrypted_key_at))]
pub(crate) fn encrypted_key_view<'a>(
    r: &mut SliceReader<'a>,
) -> Result<EncryptedView<'a>, asn1_core::Error>
    ensures exact { ReadsAs encrypted_key_at seen_key r.old.rest.now r.new.rest.now result }
    ensures place { r.new.read + length r.new.rest.now ≡ r.old.read + length r.old.rest.now }
{
    let mut ahead = *r;
    let mut body = read_inner(&mut ahead, Tag::SEQUENCE)?;
    let algorithm = match algorithm_view(&mut body) {
        Ok(algorithm) => algorithm,
        Err(error) => return Err(error),
    };
    let content = read_inner(&mut body, Tag::OCTET_STRING)?.rest;
    body.finish()?;
    *r = ahead;
    Ok(EncryptedView { algorithm, content })
}

impl EncryptedPrivateKeyInfo {
    /// The encrypted key that comes next. `Malformed` exactly where none does; the other refusal is `Memory`. A refusal does
    /// not move the reader.
    pub fn parse(alloc: Global, r: &mut SliceReader<'_>) -> Result<EncryptedPrivateKeyInfo, Error>
        ensures stands { Reads EncryptedKeyText r.old.rest.now r.new.rest.now result }
        ensures place { r.new.read + length r.new.rest.now ≡ r.old.read + length r.old.rest.now }
    {
        let mut ahead = *r;
        let view = match encrypted_key_view(&mut ahead) {
            Ok(view) => view,
            Err(error) => return Err(error.into()),
        };
        let encrypted_data = Octets::from_slice(alloc, view.content)?;
        let encryption_algorithm = view.algorithm.owned(alloc)?;
        *r = ahead;
        Ok(EncryptedPrivateKeyInfo {
            encryption_algorithm,
            encrypted_data,
        })
    }
}

impl EncryptedPrivateKeyInfo {
    /// An equal value in memory of its own. The only refusal is `Memory`.
    pub fn try_clone(&self, alloc: Global) -> Result<EncryptedPrivateKeyInfo, Error>
        ensures ok { IfOk result (λ v. v ≡ self.now) }
        ensures err { IfErr result (λ e. e ≡ Error.Memory) }
    {
        Ok(EncryptedPrivateKeyInfo {
            encrypted_data: self.encrypted_data.try_clone(alloc)?,
            encryption_algorithm: self.encryption_algorithm.try_clone(alloc)?,
        })
    }
}

impl EncryptedPrivateKeyInfo {
    /// The plain octets under a password, which comes as `bmp_string` gives it; None exactly where `decrypt_pbe` gives none. The
    /// only refusal is `Memory`.
    ///
    /// Caller: the encrypted octets are fewer than 2^32, password and salt fewer than 2^59 each.
    pub fn decrypt(&self, alloc: Global, password: &[u8]) -> Result<Option<Octets>, Error>
        requires text { length self.now.encrypted_data < 2 ^ 32 }
        requires salt { length (salt_of self.now.encryption_algorithm) < 2 ^ 59 }
        requires password { length password.now < 2 ^ 59 }
        ensures value { IfOk result
            (λ m. m ≡ unlock_pbe self.now.encryption_algorithm password.now
            self.now.encrypted_data) }
        ensures err { IfErr result (λ e. e ≡ Error.Memory) }
    {
        let algorithm = &self.encryption_algorithm;
        algorithm.decrypt_pbe(alloc, self.encrypted_data.as_slice(), password)
    }
}

impl EncryptedPrivateKeyInfo {
    /// Writes the encrypted key. `Malformed` only where its algorithm cannot be written. `Overlength` only where the
    /// text has more than 2^32 - 1 octets, `Memory` when out of memory, else the writer's refusals; a front of the text
    /// was written then.
    pub fn write<W: Writer>(&self, alloc: Global, w: &mut W) -> Result<(), asn1_core::Error>
        ensures writes { WritesText W.sink (WritableKey self.now)
            (encrypted_key_canon self.now) w.old result w.new }
        ensures short { OnOk result (IsShort (encrypted_key_canon self.now)) }
        ensures lawful { OnOk result (WritableKey self.now) }
    {
        write_row(self, alloc, w)
    }
}
