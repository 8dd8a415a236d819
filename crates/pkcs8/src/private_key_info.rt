//! Private keys with their algorithms: the type, its forms, encryption, and its text.
ghost use Rattle.std.specs.Prelude.{◌≡◌, ◌≤◌, ◌<◌, ◌↔◌, ◌⊎◌, ◌∷◌, ℕ, List, length, None, IfOk, IfErr, OnOk, refl, IsTrue, is_some};
ghost use Rattle.std.specs.Result.{IsErrOf};
ghost use Rattle.asn1_core.specs.Der.{el};
ghost use Rattle.asn1_core.specs.Gives.{Gives, Parses, ParsesIn};
ghost use Rattle.asn1_core.specs.Texts.{seen_option};
ghost use Rattle.asn1_core.specs.declared.error.Error.TheVariants as below;
ghost use Rattle.der_core.specs.BitString.{seen_bits};
ghost use Rattle.der_core.specs.Optional.{canon_option};
ghost use Rattle.octet_core.specs.Draw.{DrawsIvAndSalt, Lacks};
ghost use Rattle.pkcs5.specs.Generation.{recommended};
ghost use Rattle.pkcs5.specs.Kinds.{IsDes, key_size};
ghost use Rattle.pkcs5.specs.Opening.{FitsKey, key_under};
ghost use Rattle.pkcs5.specs.declared.error.Error.TheVariants as pkcs5;
ghost use Rattle.spki.specs.SameLaws.{algorithm_same};
ghost use Rattle.spki.specs.Seen.{borrowed_any, owned_any};
ghost use Rattle.pkcs8.specs.declared.error.Error.TheVariants as errors;
ghost use Rattle.pkcs8.specs.declared.private_key_info.PrivateKeyInfo.{PrivateKeyInfo};
ghost use Rattle.pkcs8.specs.PrivateKeyInfo.{private_key, private_key_of, PrivateKeyOf, private_key_content, public_key_content, SpellsPrivateKey, version_of};
ghost use Rattle.pkcs8.specs.PrivateKeyLaws.{private_key_of-exact, private_key_canonical};
ghost use Rattle.pkcs8.specs.PrivateKeySpellings.{private_key_spelled, private_key_same};
ghost use Rattle.pkcs8.specs.Sealing.{IsSealed, RefusesToEncryptDrawn, RefusesToEncryptKey, RefusesToEncryptUnder, RefusesToSealDrawn};
ghost use Rattle.pkcs8.specs.Seen.{seen_private_key, IsPrivateKey};
ghost use Rattle.pkcs8.specs.Version.{version_number};
ghost use Rattle.pkcs8.specs.declared.version.Version.TheVariants.{V2};

use crate::bit_string_like::BitStringLike;
use crate::error::{Error, Result};
use crate::fields::{Attributes, PublicKeyField, read_public_key, skip_further_fields};
use crate::implicit_bit_string::ImplicitBitString;
use crate::sealing::{seal, seal_drawn, seal_under_key};
use crate::version::Version;
use asn1_core::{Header, Length, Reader, SliceReader, Tag, Writer};
use der_core::{
    Any, AnyRef, BitString, BitStringRef, Canonical, Choice, Compared, Decode, DecodeValue, Encode,
    EncodeValue, FixedTag, OctetString, OctetStringRef, Pair, SecretDocument, Sequence, Spelled,
    pair_len, write_pair,
};
use octet_core::Draw;
use pkcs5::pbes2;
use spki::AlgorithmIdentifier;
use std::alloc::Global;
use std::fmt;

/// A private key with its algorithm: PrivateKeyInfo (RFC 5208 section 5), which is OneAsymmetricKey (RFC 5958 section
/// 2).
///
/// ```text
/// OneAsymmetricKey ::= SEQUENCE {
///     version                   INTEGER { v1(0), v2(1) },
///     privateKeyAlgorithm       AlgorithmIdentifier,
///     privateKey                OCTET STRING,
///     attributes            [0] Attributes OPTIONAL,
///     ...,
///     [[2: publicKey        [1] BIT STRING OPTIONAL ]],
///     ...
///   }
/// ```
///
/// The tags are implicit. Attributes, and further fields with the numbers 2 to 30, are read over: they are neither
/// looked at nor kept.
#[derive(Clone, PartialEq, Eq, Drop)]
pub struct PrivateKeyInfo<Params, Key, PubKey> {
    /// The algorithm of the key.
    pub algorithm: AlgorithmIdentifier<Params>,
    /// The key, in a form that the algorithm defines.
    pub private_key: Key,
    /// The public key, where it is beside the private one.
    pub public_key: Option<PubKey>,
}

/// A private key of any algorithm, borrowed.
pub type PrivateKeyInfoRef<'a> = PrivateKeyInfo<AnyRef<'a>, OctetStringRef<'a>, BitStringRef<'a>>;

/// A private key of any algorithm, in memory of its own.
pub type PrivateKeyInfoOwned = PrivateKeyInfo<Any, OctetString, BitString>;

impl<Params, Key, PubKey> PrivateKeyInfo<Params, Key, PubKey> {
    /// A private key without a public one.
    pub fn new(algorithm: AlgorithmIdentifier<Params>, private_key: Key) -> Self
        ensures { result ≡ record {
          algorithm = algorithm;
          private_key = private_key;
          public_key = None;
        } }
    {
        PrivateKeyInfo {
            algorithm,
            private_key,
            public_key: None,
        }
    }

    /// The version of its text: `V2` exactly where there is a public key.
    pub fn version(&self) -> Version
        ensures tells { (result ≡ V2) ↔ IsTrue (is_some self.now.public_key) }
        ensures number { version_number result ≡ version_of self.now.public_key }
    {
        match &self.public_key {
            Some(_) => Version::V2,
            None => Version::V1,
        }
    }
}

// ---- forms

/// The private key whose text these octets are. `Malformed` exactly where they are none.
pub(crate) fn read_whole<'a>(
    bytes: &'a [u8],
) -> std::result::Result<PrivateKeyInfoRef<'a>, asn1_core::Error>
    ensures { Parses below.Malformed IsPrivateKey (λ k. seen_private_key borrowed_any (λ s. s.octets.now)
        (λ s. seen_bits s.unused_bits s.octets.now) k) bytes.now result }
{
    PrivateKeyInfoRef::from_der(bytes)
}

impl<'a> TryFrom<&'a [u8]> for PrivateKeyInfoRef<'a> {
    type Error = Error;

    ghost try_from_gives = { λ b r. Parses (errors.Asn1 below.Malformed) IsPrivateKey
        (λ k. seen_private_key borrowed_any
        (λ s. s.octets.now) (λ s. seen_bits s.unused_bits s.octets.now) k) b.now r };

    /// The private key whose text these octets are. `Asn1(Malformed)` exactly where they are none.
    fn try_from(bytes: &'a [u8]) -> Result<PrivateKeyInfoRef<'a>> {
        match read_whole(bytes) {
            Ok(key) => Ok(key),
            Err(e) => Err(Error::from(e)),
        }
    }
}

impl PrivateKeyInfoOwned {
    /// The private key whose text these octets are. `Asn1(Malformed)` exactly where they are none, and `Memory`.
    pub fn from_der(alloc: Global, bytes: &[u8]) -> Result<PrivateKeyInfoOwned>
        ensures { ParsesIn errors.Memory (errors.Asn1 below.Malformed) IsPrivateKey
            (λ k. seen_private_key owned_any (λ s. s.octets)
            (λ s. seen_bits s.unused_bits s.octets) k) bytes.now result }
    {
        let borrowed = read_whole(bytes)?;
        Ok(borrowed.ref_to_owned(alloc)?)
    }

    /// The same, borrowed.
    pub fn owned_to_ref(&self) -> PrivateKeyInfoRef<'_>
        ensures { seen_private_key borrowed_any (λ s. s.octets.now)
            (λ s. seen_bits s.unused_bits s.octets.now) result
            ≡ seen_private_key owned_any (λ s. s.octets)
            (λ s. seen_bits s.unused_bits s.octets) self.now }
    {
        let public_key = match &self.public_key {
            Some(public_key) => Some(public_key.owned_to_ref()),
            None => None,
        };
        PrivateKeyInfo {
            algorithm: self.algorithm.owned_to_ref(),
            private_key: self.private_key.owned_to_ref(),
            public_key,
        }
    }

    /// An equal value in memory of its own. The only refusal is `Memory`.
    pub fn try_clone(&self, alloc: Global) -> Result<PrivateKeyInfoOwned>
        ensures ok { IfOk result (λ k. seen_private_key owned_any (λ s. s.octets)
            (λ s. seen_bits s.unused_bits s.octets) k
            ≡ seen_private_key owned_any (λ s. s.octets)
            (λ s. seen_bits s.unused_bits s.octets) self.now) }
        ensures err { IfErr result (λ e. e ≡ errors.Memory) }
    {
        match self.owned_to_ref().ref_to_owned(alloc) {
            Ok(key) => Ok(key),
            Err(e) => Err(Error::from(e)),
        }
    }
}

impl PrivateKeyInfoRef<'_> {
    /// The same in memory of its own. The only refusal is `Memory`.
    pub fn ref_to_owned(
        &self,
        alloc: Global,
    ) -> std::result::Result<PrivateKeyInfoOwned, asn1_core::Error>
        ensures ok { IfOk result (λ k. seen_private_key owned_any (λ s. s.octets)
            (λ s. seen_bits s.unused_bits s.octets) k
            ≡ seen_private_key borrowed_any (λ s. s.octets.now)
            (λ s. seen_bits s.unused_bits s.octets.now) self.now) }
        ensures err { IfErr result (λ e. e ≡ below.Memory) }
    {
        let algorithm = self.algorithm.ref_to_owned(alloc)?;
        let private_key = self.private_key.ref_to_owned(alloc)?;
        let public_key = match &self.public_key {
            Some(public_key) => Some(public_key.ref_to_owned(alloc)?),
            None => None,
        };
        Ok(PrivateKeyInfo {
            algorithm,
            private_key,
            public_key,
        })
    }
}

// ---- encryption

impl<Params: Encode, Key: Encode, PubKey: BitStringLike> PrivateKeyInfo<Params, Key, PubKey> {
    /// The key under a password, as an EncryptedPrivateKeyInfo in DER (RFC 5958 section 3) with the parameters that
    /// `pbes2::Parameters::generate_recommended` makes of the next 32 octets of the draw.
    ///
    /// `Asn1(Malformed)` exactly where a part of the key has no text; nothing is drawn then.
    /// `EncryptedPrivateKey(Rng)` exactly where the draw fails. `Asn1(Overlength)` only where the key's text or the
    /// document would have more than 2^32 - 1 octets. And `Memory`.
    pub fn encrypt<D: Draw>(
        &self,
        alloc: Global,
        draw: &mut D,
        password: &[u8],
    ) -> Result<SecretDocument>
        ensures ok { IfOk result (λ d. DrawsIvAndSalt (D.left draw.old) (D.left draw.new)
            (λ iv salt. IsSealed (recommended iv salt) password.now
            (⟦<PrivateKeyInfo<Params, Key, PubKey> as Encode>⟧.canon self.now) d.document.octets)) }
        ensures lawful { OnOk result
            (⟦<PrivateKeyInfo<Params, Key, PubKey> as Encode>⟧.writable self.now) }
        ensures err { IfErr result (λ e. RefusesToEncryptDrawn
            (⟦<PrivateKeyInfo<Params, Key, PubKey> as Encode>⟧.writable self.now)
            (Lacks (D.faults draw.old) (D.faults draw.new) (D.left draw.old) 32) password.now
            (⟦<PrivateKeyInfo<Params, Key, PubKey> as Encode>⟧.canon self.now) e) }
        ensures undrawn { IfErr result (λ e. (draw.new ≡ draw.old) ⊎ RefusesToSealDrawn
            (Lacks (D.faults draw.old) (D.faults draw.new) (D.left draw.old) 32) password.now
            (⟦<PrivateKeyInfo<Params, Key, PubKey> as Encode>⟧.canon self.now) e) }
        ensures count { D.faults draw.old ≤ D.faults draw.new }
        ensures no_fault { OnOk result (D.faults draw.new ≡ D.faults draw.old) }
        ensures last { D.faults draw.old < D.faults draw.new
            → IsErrOf result (errors.EncryptedPrivateKey pkcs5.Rng) }
    {
        self.encrypt_with_rng(alloc, draw, password)
    }

    /// `encrypt`, under the name that Rust's crate has for it; refusals as there.
    pub fn encrypt_with_rng<D: Draw>(
        &self,
        alloc: Global,
        draw: &mut D,
        password: &[u8],
    ) -> Result<SecretDocument>
        ensures ok { IfOk result (λ d. DrawsIvAndSalt (D.left draw.old) (D.left draw.new)
            (λ iv salt. IsSealed (recommended iv salt) password.now
            (⟦<PrivateKeyInfo<Params, Key, PubKey> as Encode>⟧.canon self.now) d.document.octets)) }
        ensures lawful { OnOk result
            (⟦<PrivateKeyInfo<Params, Key, PubKey> as Encode>⟧.writable self.now) }
        ensures err { IfErr result (λ e. RefusesToEncryptDrawn
            (⟦<PrivateKeyInfo<Params, Key, PubKey> as Encode>⟧.writable self.now)
            (Lacks (D.faults draw.old) (D.faults draw.new) (D.left draw.old) 32) password.now
            (⟦<PrivateKeyInfo<Params, Key, PubKey> as Encode>⟧.canon self.now) e) }
        ensures undrawn { IfErr result (λ e. (draw.new ≡ draw.old) ⊎ RefusesToSealDrawn
            (Lacks (D.faults draw.old) (D.faults draw.new) (D.left draw.old) 32) password.now
            (⟦<PrivateKeyInfo<Params, Key, PubKey> as Encode>⟧.canon self.now) e) }
        ensures count { D.faults draw.old ≤ D.faults draw.new }
        ensures no_fault { OnOk result (D.faults draw.new ≡ D.faults draw.old) }
        ensures last { D.faults draw.old < D.faults draw.new
            → IsErrOf result (errors.EncryptedPrivateKey pkcs5.Rng) }
    {
        match self.to_der(alloc) {
            Ok(text) => seal_drawn(alloc, draw, password, text.as_slice()),
            Err(e) => Err(Error::from(e)),
        }
    }

    /// The key under a password, as an EncryptedPrivateKeyInfo in DER (RFC 5958 section 3) with these parameters of
    /// PBES2.
    ///
    /// `Asn1(Malformed)` exactly where a part of the key has no text. Then `EncryptedPrivateKey` with the refusal of
    /// `pbes2::Parameters::encrypt`: where the function gives no key for the cipher, or the cipher is DES.
    /// `Asn1(Overlength)` only where the key's text or the document would have more than 2^32 - 1 octets. And
    /// `Memory`.
    pub fn encrypt_with_params(
        &self,
        alloc: Global,
        params: pbes2::Parameters,
        password: &[u8],
    ) -> Result<SecretDocument>
        ensures ok { IfOk result (λ d. IsSealed params password.now
            (⟦<PrivateKeyInfo<Params, Key, PubKey> as Encode>⟧.canon self.now) d.document.octets) }
        ensures fits { OnOk result (FitsKey params) }
        ensures other_than_des { OnOk result (¬ IsDes params.encryption) }
        ensures lawful { OnOk result
            (⟦<PrivateKeyInfo<Params, Key, PubKey> as Encode>⟧.writable self.now) }
        ensures err { IfErr result (λ e. RefusesToEncryptKey
            (⟦<PrivateKeyInfo<Params, Key, PubKey> as Encode>⟧.writable self.now) params
            password.now (⟦<PrivateKeyInfo<Params, Key, PubKey> as Encode>⟧.canon self.now) e) }
    {
        match self.to_der(alloc) {
            Ok(text) => seal(alloc, params, password, text.as_slice()),
            Err(e) => Err(Error::from(e)),
        }
    }

    /// The private key as an EncryptedPrivateKeyInfo in DER (RFC 5958 section 3) with these parameters of PBES2,
    /// encrypted under `key`, which was derived before: `pbes2::EncryptionKey::derive_each_pbkdf2_sha256` derives the
    /// keys of several documents at once.
    ///
    /// Pass the key that `params` derive from a password (they derive none where they state another length than that of
    /// the cipher's keys): the document then opens under that password, as one of `encrypt_with_params` does. Of the
    /// document under any other key nothing is promised. Caller: `key` has the length of the cipher's keys.
    ///
    /// `Asn1(Malformed)` exactly where a part of the private key has no text. Then
    /// `EncryptedPrivateKey(UnsupportedAlgorithm)` with the cipher's identifier exactly where the cipher is DES.
    /// `Asn1(Overlength)` only where the text of the private key or the document would have more than 2^32 - 1
    /// octets. And `Memory`.
    pub fn encrypt_with_key(
        &self,
        alloc: Global,
        params: pbes2::Parameters,
        key: &pbes2::EncryptionKey,
    ) -> Result<SecretDocument>
        requires { length key.now ≡ key_size params.encryption }
        ensures ok { IfOk result (λ d. (q : List ℕ) → key.now ≡ key_under params q
            → IsSealed params q
            (⟦<PrivateKeyInfo<Params, Key, PubKey> as Encode>⟧.canon self.now) d.document.octets) }
        ensures other_than_des { OnOk result (¬ IsDes params.encryption) }
        ensures lawful { OnOk result
            (⟦<PrivateKeyInfo<Params, Key, PubKey> as Encode>⟧.writable self.now) }
        ensures err { IfErr result (λ e. (q : List ℕ) → FitsKey params
            → key.now ≡ key_under params q → RefusesToEncryptKey
            (⟦<PrivateKeyInfo<Params, Key, PubKey> as Encode>⟧.writable self.now) params q
            (⟦<PrivateKeyInfo<Params, Key, PubKey> as Encode>⟧.canon self.now) e) }
        ensures refused { IfErr result (RefusesToEncryptUnder
            (⟦<PrivateKeyInfo<Params, Key, PubKey> as Encode>⟧.writable self.now) params key.now
            (⟦<PrivateKeyInfo<Params, Key, PubKey> as Encode>⟧.canon self.now)) }
    {
        match self.to_der(alloc) {
            Ok(text) => seal_under_key(alloc, params, key, text.as_slice()),
            Err(e) => Err(Error::from(e)),
        }
    }
}

// ---- the text

impl<Params, Key, PubKey: BitStringLike> PrivateKeyInfo<Params, Key, PubKey> {
    /// The public key as it is written.
    fn public_key_field(&self) -> Option<PublicKeyField<BitStringRef<'_>>>
        ensures { canon_option (λ f. el 0x81 (f.key.unused_bits ∷ f.key.octets.now)) result
            ≡ public_key_content PubKey.bits self.now.public_key }
    {
        match &self.public_key {
            Some(key) => Some(PublicKeyField {
                key: key.as_bit_string(),
            }),
            None => None,
        }
    }
}

/// The private key whose value octets these are.
fn private_key_in<
    'a,
    Params: Choice<&'a [u8]>,
    Key: Choice<&'a [u8]>,
    PubKey: DecodeValue<&'a [u8]>,
>(value: &'a [u8]) -> std::result::Result<PrivateKeyInfo<Params, Key, PubKey>, asn1_core::Error>
    ensures { Gives (λ k. private_key
        (⟦<AlgorithmIdentifier<Params> as Decode<&'a [u8]>>⟧.seen k.algorithm)
        (Key.seen k.private_key) (seen_option PubKey.seen k.public_key)) result
        (private_key_of Params.can Params.at Key.at (PubKey.value 0x81) value.now) }
{
    let mut inner = SliceReader::new(value);
    let version = Version::decode(&mut inner)?;
    let algorithm = AlgorithmIdentifier::<Params>::decode(&mut inner)?;
    let private_key = Key::decode(&mut inner)?;
    let _attributes = Option::<Attributes>::decode(&mut inner)?;
    let public_key = read_public_key::<PubKey>(&mut inner)?;
    if version.has_public_key() != public_key.is_some() {
        return Err(asn1_core::Error::Malformed);
    }
    skip_further_fields(inner.rest)?;
    Ok(PrivateKeyInfo {
        algorithm,
        private_key,
        public_key,
    })
}

impl<Params, Key, PubKey> FixedTag for PrivateKeyInfo<Params, Key, PubKey> {
    ghost TAG = { record { first = 0x30; is_tag = refl } };

    const TAG: Tag = Tag::SEQUENCE;
}

impl<
    'a,
    Params: Choice<&'a [u8]>,
    Key: Choice<&'a [u8]>,
    PubKey: DecodeValue<&'a [u8]>,
> DecodeValue<&'a [u8]> for PrivateKeyInfo<Params, Key, PubKey> {
    ghost Seen = { PrivateKeyInfo Params.Seen Key.Seen PubKey.Seen };

    ghost seen = { λ k. private_key
        (⟦<AlgorithmIdentifier<Params> as Decode<&'a [u8]>>⟧.seen k.algorithm)
        (Key.seen k.private_key) (seen_option PubKey.seen k.public_key) };

    ghost value = { λ t. private_key_of Params.can Params.at Key.at (PubKey.value 0x81) };

    ghost text = { λ t. PrivateKeyOf Params.text Key.text (PubKey.text 0x81) };

    fn decode_value<R: Reader<&'a [u8]>>(
        r: &mut R,
        header: Header,
    ) -> std::result::Result<PrivateKeyInfo<Params, Key, PubKey>, asn1_core::Error> {
        let mut ahead = *r;
        let value = ahead.read_slice(header.length)?;
        let key = private_key_in(value)?;
        *r = ahead;
        Ok(key)
    }

    ghost exact = { λ t. private_key_of-exact Params.can Params.text Params.at Params.exact
        Params.whole Key.text Key.at Key.exact (PubKey.text 0x81) (PubKey.value 0x81)
        (PubKey.exact 0x81) };
}

impl<Params: Encode, Key: Encode, PubKey: BitStringLike> EncodeValue
    for PrivateKeyInfo<Params, Key, PubKey> {
    ghost content = { λ k. private_key_content Params.canon Key.canon PubKey.bits k.algorithm.oid
        k.algorithm.parameters k.private_key k.public_key };

    ghost writable = { λ k. ⟦<AlgorithmIdentifier<Params> as Encode>⟧.writable k.algorithm
        × Key.writable k.private_key };

    fn value_len(&self) -> std::result::Result<Length, asn1_core::Error> {
        let version = self.version();
        let public_key = self.public_key_field();
        let head = Pair(&version, &self.algorithm);
        pair_len(&Pair(&head, &self.private_key), &public_key)
    }

    fn encode_value<W: Writer>(&self, w: &mut W) -> std::result::Result<(), asn1_core::Error> {
        let version = self.version();
        let public_key = self.public_key_field();
        let head = Pair(&version, &self.algorithm);
        write_pair(w, &Pair(&head, &self.private_key), &public_key)
    }
}

impl<
    'a,
    Params: Choice<&'a [u8]> + Encode,
    Key: Choice<&'a [u8]> + Encode,
    PubKey: DecodeValue<&'a [u8]> + BitStringLike,
> Sequence<&'a [u8]> for PrivateKeyInfo<Params, Key, PubKey> {
    ghost sequence = { refl };
}

impl<
    'a,
    Params: Canonical<&'a [u8]>,
    Key: Canonical<&'a [u8]>,
    PubKey: ImplicitBitString<&'a [u8]>,
> Canonical<&'a [u8]> for PrivateKeyInfo<Params, Key, PubKey> {
    ghost canonical = { λ k h. private_key_canonical Params.seen Params.text Params.canon Key.seen
        Key.text Key.canon PubKey.seen
        (PubKey.text 0x81) PubKey.bits Params.writable Params.canonical PubKey.implicit
        k.algorithm.oid k.algorithm.parameters k.private_key k.public_key h.0
        (Key.canonical k.private_key h.1) };
}

impl<
    'a,
    Params: Spelled<&'a [u8]>,
    Key: Spelled<&'a [u8]>,
    PubKey: ImplicitBitString<&'a [u8]>,
> Spelled<&'a [u8]> for PrivateKeyInfo<Params, Key, PubKey> {
    ghost spell = { λ b k. SpellsPrivateKey PubKey.bits Params.spell Key.spell b k.algorithm.oid
        k.algorithm.parameters k.private_key k.public_key };

    ghost spelled = { λ b k. private_key_spelled Params.seen Params.text Params.canon
        Params.writable Params.spell Params.spelled Key.seen Key.text Key.canon Key.writable
        Key.spell Key.spelled PubKey.seen (PubKey.text 0x81) PubKey.bits PubKey.implicit PubKey.sole
        b k.algorithm.oid k.algorithm.parameters k.private_key k.public_key };
}

impl<
    'a,
    Params: Choice<&'a [u8]> + Compared<&'a [u8]>,
    Key: Choice<&'a [u8]> + Compared<&'a [u8]>,
    PubKey: DecodeValue<&'a [u8]> + FixedTag + Compared<&'a [u8]>,
> Compared<&'a [u8]> for PrivateKeyInfo<Params, Key, PubKey> {
    ghost compared = { λ k l. private_key_same _ _ _
        (algorithm_same Params.Decode.seen Params.eq Params.compared k.algorithm.oid l.algorithm.oid
        k.algorithm.parameters l.algorithm.parameters) Key.Decode.seen Key.eq Key.compared
        PubKey.DecodeValue.seen PubKey.eq PubKey.compared k.private_key l.private_key k.public_key
        l.public_key };
}

impl<Params: fmt::Debug, Key, PubKey: fmt::Debug> fmt::Debug
    for PrivateKeyInfo<Params, Key, PubKey> {
    /// The private key is not shown.
    fn fmt<W: fmt::Write>(&self, f: &mut fmt::Formatter<W>) -> fmt::Result {
        f.debug_struct("PrivateKeyInfo")
            .field("version", &self.version())
            .field("algorithm", &self.algorithm)
            .field("public_key", &self.public_key)
            .finish_non_exhaustive()
    }
}
