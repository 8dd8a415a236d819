//! Private keys under a password.
ghost use Rattle.std.specs.Prelude.{◌≡◌, refl, IfOk, IfErr};
ghost use Rattle.asn1_core.specs.Gives.{Gives, GivesAs};
ghost use Rattle.asn1_core.specs.Reading.{left, whole, within};
ghost use Rattle.asn1_core.specs.declared.error.Error.TheVariants as below;
ghost use Rattle.pkcs8.specs.declared.error.Error.TheVariants as errors;
ghost use Rattle.pkcs5.specs.SchemeOpening.{SchemeOpens};
ghost use Rattle.pkcs8.specs.declared.encrypted_private_key_info.EncryptedPrivateKeyInfo.{EncryptedPrivateKeyInfo};
ghost use Rattle.pkcs8.specs.EncryptedPrivateKeyInfo.{encrypted_key, encrypted_key_of, EncryptedKeyOf, encrypted_key_at, encrypted_key_content, SpellsEncryptedKey};
ghost use Rattle.pkcs8.specs.Error.{of_asn1};
ghost use Rattle.pkcs8.specs.EncryptedPrivateKeyInfoLaws.{encrypted_key_of-exact, encrypted_key_canonical, encrypted_key_spelled, encrypted_key_same};
ghost use Rattle.pkcs8.specs.Sealing.{RefusesToDecrypt};

use crate::error::{Error, Result};
use asn1_core::{Header, Length, Reader, SliceReader, Tag, Writer};
use der_core::{
    Canonical, Choice, Compared, Decode, DecodeValue, Encode, EncodeValue, FixedTag, OctetString,
    OctetStringRef, SecretDocument, Sequence, Spelled, pair_len, write_pair,
};
use pkcs5::EncryptionScheme;
use std::alloc::Global;
use std::convert::AsSlice;
use std::fmt;

/// A private key that is encrypted under a password (RFC 5958 section 3).
///
/// ```text
/// EncryptedPrivateKeyInfo ::= SEQUENCE {
///      encryptionAlgorithm  EncryptionAlgorithmIdentifier,
///      encryptedData        EncryptedData }
///
/// EncryptedData ::= OCTET STRING
/// ```
#[derive(Clone, Copy, PartialEq, Eq, Drop)]
pub struct EncryptedPrivateKeyInfo<Data> {
    /// The scheme of encryption, with its parameters.
    pub encryption_algorithm: EncryptionScheme,
    /// The ciphertext.
    pub encrypted_data: Data,
}

/// An encrypted private key, borrowed.
pub type EncryptedPrivateKeyInfoRef<'a> = EncryptedPrivateKeyInfo<OctetStringRef<'a>>;

/// An encrypted private key, in memory of its own.
pub type EncryptedPrivateKeyInfoOwned = EncryptedPrivateKeyInfo<OctetString>;

impl<Data> FixedTag for EncryptedPrivateKeyInfo<Data> {
    ghost TAG = { record { first = 0x30; is_tag = refl } };

    const TAG: Tag = Tag::SEQUENCE;
}

impl<'a, Data: Choice<&'a [u8]>> DecodeValue<&'a [u8]> for EncryptedPrivateKeyInfo<Data> {
    ghost Seen = { EncryptedPrivateKeyInfo Data.Seen };

    ghost seen = { λ a. encrypted_key a.encryption_algorithm (Data.seen a.encrypted_data) };

    ghost value = { λ t. encrypted_key_of Data.at };

    ghost text = { λ t. EncryptedKeyOf Data.text };

    fn decode_value<R: Reader<&'a [u8]>>(
        r: &mut R,
        header: Header,
    ) -> std::result::Result<EncryptedPrivateKeyInfo<Data>, asn1_core::Error> {
        let mut ahead = *r;
        let value = ahead.read_slice(header.length)?;
        let mut inner = SliceReader::new(value);
        let encryption_algorithm = EncryptionScheme::decode(&mut inner)?;
        let encrypted_data = Data::decode(&mut inner)?;
        inner.finish()?;
        *r = ahead;
        Ok(EncryptedPrivateKeyInfo {
            encryption_algorithm,
            encrypted_data,
        })
    }

    ghost exact = { λ t. encrypted_key_of-exact Data.text Data.at Data.exact };
}

impl<Data: Encode> EncodeValue for EncryptedPrivateKeyInfo<Data> {
    ghost content = { λ a. encrypted_key_content Data.canon a.encryption_algorithm
        a.encrypted_data };

    ghost writable = { λ a. ⟦<EncryptionScheme as Encode>⟧.writable a.encryption_algorithm
        × Data.writable a.encrypted_data };

    fn value_len(&self) -> std::result::Result<Length, asn1_core::Error> {
        pair_len(&self.encryption_algorithm, &self.encrypted_data)
    }

    fn encode_value<W: Writer>(&self, w: &mut W) -> std::result::Result<(), asn1_core::Error> {
        write_pair(w, &self.encryption_algorithm, &self.encrypted_data)
    }
}

impl<'a, Data: Choice<&'a [u8]> + Encode> Sequence<&'a [u8]> for EncryptedPrivateKeyInfo<Data> {
    ghost sequence = { refl };
}

impl<'a, Data: Canonical<&'a [u8]>> Canonical<&'a [u8]> for EncryptedPrivateKeyInfo<Data> {
    ghost canonical = { λ a h. encrypted_key_canonical Data.seen Data.text Data.canon
        a.encryption_algorithm a.encrypted_data h.0 (Data.canonical a.encrypted_data h.1) };
}

impl<'a, Data: Spelled<&'a [u8]>> Spelled<&'a [u8]> for EncryptedPrivateKeyInfo<Data> {
    ghost spell = { λ b a.
        SpellsEncryptedKey Data.spell b a.encryption_algorithm a.encrypted_data };

    ghost spelled = { λ b a. encrypted_key_spelled Data.seen Data.text Data.writable Data.spell
        Data.spelled b a.encryption_algorithm a.encrypted_data };
}

/// The encrypted key whose text these octets are.
fn read_whole<'a>(
    bytes: &'a [u8],
) -> std::result::Result<EncryptedPrivateKeyInfoRef<'a>, asn1_core::Error>
    ensures { Gives (λ k. encrypted_key k.encryption_algorithm k.encrypted_data.octets.now)
        result (whole
        (encrypted_key_at (within 0x04 left)) bytes.now) }
{
    EncryptedPrivateKeyInfoRef::from_der(bytes)
}

impl<'a> TryFrom<&'a [u8]> for EncryptedPrivateKeyInfoRef<'a> {
    type Error = Error;

    ghost try_from_gives = { λ b r. GivesAs of_asn1 ⊥
        (λ k. encrypted_key k.encryption_algorithm k.encrypted_data.octets.now) r
        (whole (encrypted_key_at
        (within 0x04 left)) b.now) };

    /// The encrypted key whose text these octets are. `Asn1(OidUnknown)` with the identifier where one of the
    /// scheme's that is unknown is met before another fault, else `Asn1(Malformed)` where they are none.
    fn try_from(bytes: &'a [u8]) -> Result<EncryptedPrivateKeyInfoRef<'a>> {
        match read_whole(bytes) {
            Ok(key) => Ok(key),
            Err(e) => Err(Error::from(e)),
        }
    }
}

impl EncryptedPrivateKeyInfoRef<'_> {
    /// The same in memory of its own. The only refusal is `Memory`.
    pub fn ref_to_owned(
        &self,
        alloc: Global,
    ) -> std::result::Result<EncryptedPrivateKeyInfoOwned, asn1_core::Error>
        ensures ok { IfOk result (λ k. (k.encryption_algorithm ≡ self.now.encryption_algorithm)
            × (k.encrypted_data.octets ≡ self.now.encrypted_data.octets.now)) }
        ensures err { IfErr result (λ e. e ≡ below.Memory) }
    {
        let encrypted_data = self.encrypted_data.ref_to_owned(alloc)?;
        Ok(EncryptedPrivateKeyInfo {
            encryption_algorithm: self.encryption_algorithm,
            encrypted_data,
        })
    }
}

impl EncryptedPrivateKeyInfoOwned {
    /// The encrypted key whose text these octets are. `Asn1(OidUnknown)` with the identifier where one of the
    /// scheme's that is unknown is met before another fault, else `Asn1(Malformed)` where they are none; and
    /// `Memory`.
    pub fn from_der(alloc: Global, bytes: &[u8]) -> Result<EncryptedPrivateKeyInfoOwned>
        ensures { GivesAs of_asn1 (Unit {0})
            (λ k. encrypted_key k.encryption_algorithm k.encrypted_data.octets) result
            (whole (encrypted_key_at (within 0x04 left)) bytes.now) }
    {
        let borrowed = match read_whole(bytes) {
            Ok(borrowed) => borrowed,
            Err(e) => return Err(Error::from(e)),
        };
        match borrowed.ref_to_owned(alloc) {
            Ok(key) => Ok(key),
            Err(e) => Err(Error::from(e)),
        }
    }

    /// The same, borrowed.
    pub fn owned_to_ref(&self) -> EncryptedPrivateKeyInfoRef<'_>
        ensures scheme { result.encryption_algorithm ≡ self.now.encryption_algorithm }
        ensures data { result.encrypted_data.octets.now ≡ self.now.encrypted_data.octets }
    {
        EncryptedPrivateKeyInfo {
            encryption_algorithm: self.encryption_algorithm,
            encrypted_data: self.encrypted_data.owned_to_ref(),
        }
    }

    /// An equal value in memory of its own. The only refusal is `Memory`.
    pub fn try_clone(&self, alloc: Global) -> Result<EncryptedPrivateKeyInfoOwned>
        ensures ok { IfOk result (λ k. (k.encryption_algorithm ≡ self.now.encryption_algorithm)
            × (k.encrypted_data.octets ≡ self.now.encrypted_data.octets)) }
        ensures err { IfErr result (λ e. e ≡ errors.Memory) }
    {
        match self.owned_to_ref().ref_to_owned(alloc) {
            Ok(key) => Ok(key),
            Err(e) => Err(Error::from(e)),
        }
    }
}

impl<Data> fmt::Debug for EncryptedPrivateKeyInfo<Data> {
    /// The ciphertext is not shown.
    fn fmt<W: fmt::Write>(&self, f: &mut fmt::Formatter<W>) -> fmt::Result {
        f.debug_struct("EncryptedPrivateKeyInfo")
            .field("encryption_algorithm", &self.encryption_algorithm)
            .finish_non_exhaustive()
    }
}

impl<Data: AsSlice<u8>> EncryptedPrivateKeyInfo<Data> {
    /// The text that is encrypted, which is one whole SEQUENCE, as a private key is. Whether it is a private key is
    /// not looked at.
    ///
    /// `EncryptedPrivateKey` with the refusal of `EncryptionScheme::decrypt`, as for a wrong password
    /// `DecryptFailed`, exactly where the ciphertext opens to no text; then `Asn1(Malformed)` exactly where that text
    /// is not one whole SEQUENCE; and `Memory`.
    pub fn decrypt(&self, alloc: Global, password: &[u8]) -> Result<SecretDocument>
        ensures ok { IfOk result (λ d. SchemeOpens self.now.encryption_algorithm password.now
            (Data.items self.now.encrypted_data) d.document.octets) }
        ensures err { IfErr result (λ e. RefusesToDecrypt self.now.encryption_algorithm password.now
            (Data.items self.now.encrypted_data) e) }
    {
        let ciphertext = self.encrypted_data.as_slice();
        let text = match self
            .encryption_algorithm
            .decrypt(alloc, password, ciphertext)
        {
            Ok(text) => text,
            Err(refused) => return Err(Error::from(refused)),
        };
        match SecretDocument::from_der(alloc, text.as_slice()) {
            Ok(document) => Ok(document),
            Err(e) => Err(Error::from(e)),
        }
    }
}
