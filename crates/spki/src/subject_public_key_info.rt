//! Public keys with their algorithms: the type, its forms, fingerprints, its text and its orders.
ghost use Rattle.std.specs.Ordering.{ordering_then};
ghost use Rattle.std.specs.Prelude.{◌≡◌, ◌⊎◌, List, ℕ, length, None, IfOk, IfErr, OnOk, refl};
ghost use Rattle.sha2.specs.Sha256.{sha256};
ghost use Rattle.base64.specs.GeneralPurpose.{encode_of};
ghost use Rattle.base64.specs.Engines.{standard};
ghost use Rattle.asn1_core.specs.Gives.{Gives, GivesAs, IsNone, Parses, ParsesIn};
ghost use Rattle.asn1_core.specs.Reading.{whole};
ghost use Rattle.asn1_core.specs.Writing.{Cause, IsOverlong};
ghost use Rattle.asn1_core.specs.declared.error.Error.{Error as Below};
ghost use Rattle.asn1_core.specs.declared.error.Error.TheVariants as below;
ghost use Rattle.der_core.specs.BitString.{seen_bits};
ghost use Rattle.der_core.specs.Order.{octet_cmp};
ghost use Rattle.spki.specs.declared.error.Error.TheVariants as errors;
ghost use Rattle.spki.specs.declared.subject_public_key_info.SubjectPublicKeyInfo.{SubjectPublicKeyInfo};
ghost use Rattle.spki.specs.Error.{raised};
ghost use Rattle.spki.specs.Seen.{borrowed_any, owned_any, seen_public_key, IsPublicKey};
ghost use Rattle.spki.specs.SubjectPublicKeyInfo.{public_key, public_key_of, PublicKeyOf, public_key_content, SpellsPublicKey};
ghost use Rattle.spki.specs.SameLaws.{algorithm_same, public_key_same};
ghost use Rattle.spki.specs.PublicKeyLaws.{public_key_of-exact, public_key_canonical, public_key_spelled};

use crate::algorithm::AlgorithmIdentifier;
use crate::by_content::ByContent;
use crate::encode_public_key::EncodePublicKey;
use crate::error;
use crate::fingerprint::{FingerprintBytes, digest_of};
use asn1_core::{Error, Header, Length, Reader, SliceReader, Tag, Text, Writer};
use base64::engine::general_purpose::STANDARD;
use der_core::{
    Any, AnyRef, BitString, BitStringRef, Canonical, Choice, Compared, Decode, DecodeValue, DerOrd,
    ElementText, Encode, EncodeValue, FixedTag, Sequence, Spelled, Tagged, ValueOrd, pair_len,
    write_pair,
};
use std::alloc::Global;
use std::cmp::Ordering;

/// A public key with its algorithm (RFC 5280 section 4.1.2.7).
///
/// ```text
/// SubjectPublicKeyInfo  ::=  SEQUENCE  {
///      algorithm            AlgorithmIdentifier,
///      subjectPublicKey     BIT STRING  }
/// ```
#[derive(Clone, Copy, Debug, PartialEq, Eq, Drop)]
pub struct SubjectPublicKeyInfo<Params, Key> {
    /// The algorithm of the key.
    pub algorithm: AlgorithmIdentifier<Params>,
    /// The key.
    pub subject_public_key: Key,
}

/// A public key of any algorithm, borrowed.
pub type SubjectPublicKeyInfoRef<'a> = SubjectPublicKeyInfo<AnyRef<'a>, BitStringRef<'a>>;

/// A public key of any algorithm, in memory of its own.
pub type SubjectPublicKeyInfoOwned = SubjectPublicKeyInfo<Any, BitString>;

// ---- forms

/// The public key whose text these octets are. `Malformed` exactly where they are none.
pub(crate) fn read_whole<'a>(bytes: &'a [u8]) -> Result<SubjectPublicKeyInfoRef<'a>, Error>
    ensures { Parses below.Malformed IsPublicKey
        (λ k. seen_public_key borrowed_any (λ s. seen_bits s.unused_bits s.octets.now) k)
        bytes.now result }
{
    SubjectPublicKeyInfoRef::from_der(bytes)
}

impl<'a, Params: Choice<&'a [u8]>, Key: Choice<&'a [u8]>> TryFrom<&'a [u8]>
    for SubjectPublicKeyInfo<Params, Key> {
    type Error = error::Error;

    ghost try_from_gives = { λ b r.
        GivesAs raised ⊥ ⟦<SubjectPublicKeyInfo<Params, Key> as Decode<&'a [u8]>>⟧.seen r
        (whole (⟦<SubjectPublicKeyInfo<Params, Key> as Decode<&'a [u8]>>⟧.at) b.now) };

    /// The public key whose text these octets are. `Asn1(Malformed)` exactly where they are none, `OidUnknown` where an identifier
    /// is met first that the parameters or the key do not know.
    fn try_from(bytes: &'a [u8]) -> error::Result<SubjectPublicKeyInfo<Params, Key>> {
        match Self::from_der(bytes) {
            Ok(key) => Ok(key),
            Err(e) => Err(error::Error::from(e)),
        }
    }
}

impl SubjectPublicKeyInfoOwned {
    /// The public key whose text these octets are. `Asn1(Malformed)` exactly where they are none, and `Memory`.
    pub fn from_der(alloc: Global, bytes: &[u8]) -> error::Result<SubjectPublicKeyInfoOwned>
        ensures { ParsesIn errors.Memory (errors.Asn1 below.Malformed) IsPublicKey
            (λ k. seen_public_key owned_any (λ s. seen_bits s.unused_bits s.octets) k)
            bytes.now result }
    {
        let borrowed = read_whole(bytes)?;
        Ok(borrowed.ref_to_owned(alloc)?)
    }

    /// The public key that a key is stored as. Refusals are those of its `to_public_key_der`; `Asn1(Malformed)` exactly where it
    /// is then no SubjectPublicKeyInfo; and `Memory`.
    pub fn from_key<T: EncodePublicKey>(
        alloc: Global,
        source: &T,
    ) -> error::Result<SubjectPublicKeyInfoOwned>
        ensures ok { IfOk result (λ k. (b : List ℕ) × T.text source.now b
            × IsPublicKey b (seen_public_key owned_any (λ s. seen_bits s.unused_bits s.octets) k)) }
        ensures err { IfErr result (λ e. T.refuses source.now e ⊎ (e ≡ errors.Memory)
            ⊎ ((b : List ℕ) × T.text source.now b × (e ≡ errors.Asn1 below.Malformed)
            × IsNone IsPublicKey b)) }
    {
        let document = source.to_public_key_der(alloc)?;
        SubjectPublicKeyInfoOwned::from_der(alloc, document.as_bytes())
    }

    /// The same, borrowed.
    pub fn owned_to_ref(&self) -> SubjectPublicKeyInfoRef<'_>
        ensures { seen_public_key borrowed_any (λ s. seen_bits s.unused_bits s.octets.now) result
            ≡ seen_public_key owned_any (λ s. seen_bits s.unused_bits s.octets) self.now }
    {
        SubjectPublicKeyInfo {
            algorithm: self.algorithm.owned_to_ref(),
            subject_public_key: self.subject_public_key.owned_to_ref(),
        }
    }

    /// An equal value in memory of its own. The only refusal is `Memory`.
    pub fn try_clone(&self, alloc: Global) -> error::Result<SubjectPublicKeyInfoOwned>
        ensures ok { IfOk result
            (λ k. seen_public_key owned_any (λ s. seen_bits s.unused_bits s.octets) k
            ≡ seen_public_key owned_any (λ s. seen_bits s.unused_bits s.octets) self.now) }
        ensures err { IfErr result (λ e. e ≡ errors.Memory) }
    {
        let algorithm = self.algorithm.try_clone(alloc)?;
        let subject_public_key = self.subject_public_key.try_clone(alloc)?;
        Ok(SubjectPublicKeyInfo {
            algorithm,
            subject_public_key,
        })
    }
}

impl SubjectPublicKeyInfoRef<'_> {
    /// The same in memory of its own. The only refusal is `Memory`.
    pub fn ref_to_owned(&self, alloc: Global) -> Result<SubjectPublicKeyInfoOwned, Error>
        ensures ok { IfOk result
            (λ k. seen_public_key owned_any (λ s. seen_bits s.unused_bits s.octets) k
            ≡ seen_public_key borrowed_any (λ s. seen_bits s.unused_bits s.octets.now) self.now) }
        ensures err { IfErr result (λ e. e ≡ below.Memory) }
    {
        let algorithm = self.algorithm.ref_to_owned(alloc)?;
        let subject_public_key = self.subject_public_key.ref_to_owned(alloc)?;
        Ok(SubjectPublicKeyInfo {
            algorithm,
            subject_public_key,
        })
    }
}

// ---- fingerprints

impl<Params: Encode, Key: Encode> SubjectPublicKeyInfo<Params, Key> {
    /// The SHA-256 digest of the text. It takes no memory. `Asn1(Malformed)` exactly where the value has no text, and
    /// `Asn1(Overlength)` only where that has more than 2^32 - 1 octets.
    pub fn fingerprint_bytes(&self) -> error::Result<FingerprintBytes>
        ensures ok { IfOk result
            (λ h. h ≡ sha256 (⟦<SubjectPublicKeyInfo<Params, Key> as Encode>⟧.canon self.now)) }
        ensures lawful { OnOk result
            (⟦<SubjectPublicKeyInfo<Params, Key> as Encode>⟧.writable self.now) }
        ensures err { IfErr result (λ e. (f : Below) × (e ≡ raised f)
            × Cause (¬ (⟦<SubjectPublicKeyInfo<Params, Key> as Encode>⟧.writable self.now))
            (IsOverlong
            (length (⟦<SubjectPublicKeyInfo<Params, Key> as Encode>⟧.canon self.now))) ⊥ None
            0 0 0 f) }
    {
        match digest_of(self) {
            Ok(digest) => Ok(digest),
            Err(e) => Err(error::Error::from(e)),
        }
    }

    /// The fingerprint in standard Base64 with padding (RFC 4648 section 4). Refusals as in `fingerprint_bytes`, and `Memory`.
    pub fn fingerprint_base64(&self, alloc: Global) -> error::Result<Text>
        ensures ok { IfOk result
            (λ t. t
            ≡ encode_of standard
            (sha256 (⟦<SubjectPublicKeyInfo<Params, Key> as Encode>⟧.canon self.now))) }
        ensures lawful { OnOk result
            (⟦<SubjectPublicKeyInfo<Params, Key> as Encode>⟧.writable self.now) }
        ensures err { IfErr result (λ e. (f : Below) × (e ≡ raised f)
            × Cause (¬ (⟦<SubjectPublicKeyInfo<Params, Key> as Encode>⟧.writable self.now))
            (IsOverlong
            (length (⟦<SubjectPublicKeyInfo<Params, Key> as Encode>⟧.canon self.now)))
            (Unit {0}) None 0 0 0 f) }
    {
        let digest = self.fingerprint_bytes()?;
        match STANDARD.encode(alloc, &digest) {
            Ok(text) => Ok(Text::from_string(text)),
            Err(_) => Err(error::Error::Memory),
        }
    }
}

// ---- the text

/// The public key whose value octets these are.
fn public_key_in<'a, Params: Choice<&'a [u8]>, Key: Choice<&'a [u8]>>(
    value: &'a [u8],
) -> Result<SubjectPublicKeyInfo<Params, Key>, Error>
    ensures { Gives (λ a. public_key
        (⟦<AlgorithmIdentifier<Params> as Decode<&'a [u8]>>⟧.seen a.algorithm)
        (Key.seen a.subject_public_key)) result
        (public_key_of Params.can Params.at Key.at value.now) }
{
    let mut inner = SliceReader::new(value);
    let algorithm = AlgorithmIdentifier::<Params>::decode(&mut inner)?;
    let subject_public_key = Key::decode(&mut inner)?;
    inner.finish()?;
    Ok(SubjectPublicKeyInfo {
        algorithm,
        subject_public_key,
    })
}

impl<Params, Key> FixedTag for SubjectPublicKeyInfo<Params, Key> {
    ghost TAG = { record { first = 0x30; is_tag = refl } };

    const TAG: Tag = Tag::SEQUENCE;
}

impl<'a, Params: Choice<&'a [u8]>, Key: Choice<&'a [u8]>> DecodeValue<&'a [u8]>
    for SubjectPublicKeyInfo<Params, Key> {
    ghost Seen = { SubjectPublicKeyInfo Params.Seen Key.Seen };

    ghost seen = { λ a. public_key
        (⟦<AlgorithmIdentifier<Params> as Decode<&'a [u8]>>⟧.seen a.algorithm)
        (Key.seen a.subject_public_key) };

    ghost value = { λ t. public_key_of Params.can Params.at Key.at };

    ghost text = { λ t. PublicKeyOf Params.text Key.text };

    fn decode_value<R: Reader<&'a [u8]>>(
        r: &mut R,
        header: Header,
    ) -> Result<SubjectPublicKeyInfo<Params, Key>, Error> {
        let mut ahead = *r;
        let value = ahead.read_slice(header.length)?;
        let key = public_key_in(value)?;
        *r = ahead;
        Ok(key)
    }

    ghost exact = { λ t. public_key_of-exact Params.can Params.text Params.at Params.exact
        Params.whole Key.text Key.at Key.exact };
}

impl<Params: Encode, Key: Encode> EncodeValue for SubjectPublicKeyInfo<Params, Key> {
    ghost content = { λ a. public_key_content Params.canon Key.canon a.algorithm.oid
        a.algorithm.parameters a.subject_public_key };

    ghost writable = { λ a. ⟦<AlgorithmIdentifier<Params> as Encode>⟧.writable a.algorithm
        × Key.writable a.subject_public_key };

    fn value_len(&self) -> Result<Length, Error> {
        pair_len(&self.algorithm, &self.subject_public_key)
    }

    fn encode_value<W: Writer>(&self, w: &mut W) -> Result<(), Error> {
        write_pair(w, &self.algorithm, &self.subject_public_key)
    }
}

impl<'a, Params: Choice<&'a [u8]> + Encode, Key: Choice<&'a [u8]> + Encode> Sequence<&'a [u8]>
    for SubjectPublicKeyInfo<Params, Key> {
    ghost sequence = { refl };
}

impl<'a, Params: Canonical<&'a [u8]>, Key: Canonical<&'a [u8]>> Canonical<&'a [u8]>
    for SubjectPublicKeyInfo<Params, Key> {
    ghost canonical = { λ a h. public_key_canonical Params.seen Params.text Params.canon Key.seen
        Key.text Key.canon Params.writable Params.canonical a.algorithm.oid a.algorithm.parameters
        a.subject_public_key h.0 (Key.canonical a.subject_public_key h.1) };
}

impl<'a, Params: Spelled<&'a [u8]>, Key: Spelled<&'a [u8]>> Spelled<&'a [u8]>
    for SubjectPublicKeyInfo<Params, Key> {
    ghost spell = { λ b a. SpellsPublicKey Params.spell Key.spell b a.algorithm.oid
        a.algorithm.parameters a.subject_public_key };

    ghost spelled = { λ b a. public_key_spelled Params.seen Params.text Params.writable Params.spell
        Params.spelled Key.seen Key.text Key.writable Key.spell Key.spelled b a.algorithm.oid
        a.algorithm.parameters a.subject_public_key };
}

impl<
    'a,
    Params: Choice<&'a [u8]> + Compared<&'a [u8]>,
    Key: Choice<&'a [u8]> + Compared<&'a [u8]>,
> Compared<&'a [u8]> for SubjectPublicKeyInfo<Params, Key> {
    ghost compared = { λ v w. public_key_same _ _ _
        (algorithm_same Params.Decode.seen Params.eq Params.compared v.algorithm.oid w.algorithm.oid
        v.algorithm.parameters w.algorithm.parameters) Key.Decode.seen Key.eq Key.compared
        v.subject_public_key w.subject_public_key };
}

// ---- the orders

/// By the algorithm's text, and then by the key's value.
impl<Params: DerOrd + ElementText, Key: ValueOrd + Tagged> ValueOrd
    for SubjectPublicKeyInfo<Params, Key> {
    ghost value_order = { λ a b. ordering_then
        (octet_cmp (⟦<AlgorithmIdentifier<Params> as Encode>⟧.canon a.algorithm)
        (⟦<AlgorithmIdentifier<Params> as Encode>⟧.canon b.algorithm))
        (Key.value_order a.subject_public_key b.subject_public_key) };

    fn value_cmp(&self, other: &SubjectPublicKeyInfo<Params, Key>) -> Result<Ordering, Error> {
        match self.algorithm.der_cmp(&other.algorithm)? {
            Ordering::Equal => self.subject_public_key.value_cmp(&other.subject_public_key),
            unequal => Ok(unequal),
        }
    }
}

/// By the texts, as lists of octets.
impl<Params: DerOrd + ElementText, Key: DerOrd> DerOrd for SubjectPublicKeyInfo<Params, Key> {
    fn der_cmp(&self, other: &SubjectPublicKeyInfo<Params, Key>) -> Result<Ordering, Error> {
        ByContent(self).der_cmp(&ByContent(other))
    }
}
