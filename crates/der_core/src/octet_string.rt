//! OCTET STRING.
ghost use Rattle.std.specs.Prelude.{◌≡◌, List, ℕ, length, refl, MatchResult, IfOk, IfErr, ◌⊎◌};
ghost use Rattle.asn1_core.specs.Der.{IsHeader, octets};
ghost use Rattle.asn1_core.specs.Reading.{left, whole, within};
ghost use Rattle.asn1_core.specs.Gives.{GivesIn};
ghost use Rattle.asn1_core.specs.Texts.{Left};
ghost use Rattle.asn1_core.specs.ElementLaws.{left-exact};
ghost use Rattle.asn1_core.specs.declared.error.Error.TheVariants.{Overlength, Memory};
ghost use Rattle.der_core.specs.Order.{octet_cmp};
ghost use Rattle.der_core.specs.StringLaws.{octets_canonical, octets_spelled};
ghost use Rattle.der_core.specs.SameLaws.{octets_same};

use crate::any_ref::AnyRef;
use crate::decode::{Decode, DecodeValue};
use crate::encode::EncodeValue;
use crate::laws::{Canonical, Compared, Spelled};
use crate::order::{ContentOrd, ValueOrd};
use crate::size::checked_len;
use crate::tagged::FixedTag;
use asn1_core::{Error, Header, Length, Octets, Reader, Tag, Writer};
use std::alloc::{AllocError, Global};
use std::cmp::Ordering;
use std::convert::AsSlice;
use std::fmt;
use std::hash::{Hash, Hasher};

/// OCTET STRING (X.690 section 8.7), primitive, with octets of the type `S`. Its text has at most 2^32 - 1 octets.
#[derive(Drop)]
pub struct OctetStringOf<S: AsSlice<u8>> {
    octets: S,
    ghost short: { IsHeader (length (S.items octets)) },
}

/// An OCTET STRING over borrowed octets.
pub type OctetStringRef<'a> = OctetStringOf<&'a [u8]>;

/// An OCTET STRING in memory of its own.
pub type OctetString = OctetStringOf<Octets>;

impl<'a> OctetStringRef<'a> {
    /// The string of these octets. `Overlength` exactly where its text would have more than 2^32 - 1 octets.
    pub fn new(octets: &'a [u8]) -> Result<OctetStringRef<'a>, Error>
        ensures { MatchResult result (λ s. s.octets.now ≡ octets.now) (λ e. (e ≡ Overlength)
            × (¬ (IsHeader (length octets.now)))) }
    {
        checked_len(octets.len())?;
        Ok(OctetStringOf { octets })
    }

    /// The octets.
    pub fn as_bytes(&self) -> &'a [u8]
        ensures { result.now ≡ self.now.octets.now }
    {
        self.octets
    }

    /// The same in memory of its own. The only refusal is `Memory`.
    pub fn ref_to_owned(&self, alloc: Global) -> Result<OctetString, Error>
        ensures ok { IfOk result (λ s. s.octets ≡ self.now.octets.now) }
        ensures err { IfErr result (λ e. e ≡ Memory) }
    {
        let octets = Octets::from_slice(alloc, self.octets)?;
        Ok(OctetStringOf { octets })
    }
}

impl OctetString {
    /// The string of these octets. `Overlength` exactly where its text would have more than 2^32 - 1 octets; else `Memory`
    /// alone.
    pub fn new(alloc: Global, octets: &[u8]) -> Result<OctetString, Error>
        ensures { MatchResult result (λ s. s.octets ≡ octets.now)
            (λ e. ((e ≡ Memory) × IsHeader (length octets.now))
            ⊎ ((e ≡ Overlength) × (¬ (IsHeader (length octets.now))))) }
    {
        checked_len(octets.len())?;
        let octets = Octets::from_slice(alloc, octets)?;
        Ok(OctetStringOf { octets })
    }

    /// The string whose text these octets are. `Malformed` exactly where they are none, and `Memory`.
    pub fn from_der(alloc: Global, bytes: &[u8]) -> Result<OctetString, Error>
        ensures { GivesIn (λ s. s.octets) result (whole (within 4 left) bytes.now) }
    {
        OctetStringRef::from_der(bytes)?.ref_to_owned(alloc)
    }

    /// The octets.
    pub fn as_bytes(&self) -> &[u8]
        ensures { result.now ≡ self.now.octets }
    {
        self.octets.as_slice()
    }

    /// The same, borrowed.
    pub fn owned_to_ref(&self) -> OctetStringRef<'_>
        ensures { result.octets.now ≡ self.now.octets }
    {
        OctetStringOf {
            octets: self.octets.as_slice(),
        }
    }

    /// An equal value in memory of its own. The only refusal is `Memory`.
    pub fn try_clone(&self, alloc: Global) -> Result<OctetString, Error>
        ensures ok { IfOk result (λ s. s.octets ≡ self.now.octets) }
        ensures err { IfErr result (λ e. e ≡ Memory) }
    {
        let octets = self.octets.try_clone(alloc)?;
        Ok(OctetStringOf { octets })
    }
}

impl<S: AsSlice<u8> + Copy> Clone for OctetStringOf<S> {
    ghost is_clone = { λ s t. t ≡ s };

    ghost is_infallible = { λ s. Unit {0} };

    fn clone(&self) -> Result<OctetStringOf<S>, AllocError> {
        Ok(*self)
    }
}

impl<S: AsSlice<u8> + Copy> Copy for OctetStringOf<S> {}

impl<S: AsSlice<u8>> FixedTag for OctetStringOf<S> {
    ghost TAG = { record { first = 4; is_tag = refl } };

    const TAG: Tag = Tag::OCTET_STRING;
}

impl<'a> DecodeValue<&'a [u8]> for OctetStringRef<'a> {
    ghost Seen = { List ℕ };

    ghost seen = { λ s. s.octets.now };

    ghost value = { λ t. left };

    ghost text = { λ t. Left };

    fn decode_value<R: Reader<&'a [u8]>>(
        r: &mut R,
        header: Header,
    ) -> Result<OctetStringRef<'a>, Error> {
        let octets = r.read_slice(header.length)?;
        Ok(OctetStringOf { octets })
    }

    ghost exact = { λ t. left-exact };
}

impl<S: AsSlice<u8>> EncodeValue for OctetStringOf<S> {
    ghost content = { λ s. S.items s.octets };

    ghost writable = { λ s. Unit {0} };

    fn value_len(&self) -> Result<Length, Error> {
        Ok(Length {
            value: self.octets.as_slice().len() as u32,
        })
    }

    fn encode_value<W: Writer>(&self, w: &mut W) -> Result<(), Error> {
        w.write(self.octets.as_slice())
    }
}

impl<'a> Canonical<&'a [u8]> for OctetStringRef<'a> {
    ghost canonical = { λ s h. octets_canonical s.octets.now };
}

impl<'a> Spelled<&'a [u8]> for OctetStringRef<'a> {
    ghost spell = { λ b s. b ≡ octets s.octets.now };

    ghost spelled = { λ b s. octets_spelled s.octets.now b };
}

impl<S: AsSlice<u8>> PartialEq for OctetStringOf<S> {
    ghost use Rattle.std.specs.Prelude.{nat_eq};
    ghost use Rattle.std.specs.Ordering.{on};
    ghost use Rattle.std.specs.Cmp.Lexicographic.{pointwise};
    ghost use Rattle.std.specs.Cmp.Rules.{comparing};
    ghost use Rattle.std.proofs.Common.{rules};

    ghost eq = { on (λ s. S.items s.octets) (pointwise nat_eq) };

    ghost laws = { Prim.search (comparing, rules) };

    fn eq(&self, other: &OctetStringOf<S>) -> bool {
        self.octets.as_slice() == other.octets.as_slice()
    }
}

impl<S: AsSlice<u8>> Eq for OctetStringOf<S> {
    ghost use Rattle.std.specs.Cmp.Rules.{comparing};
    ghost use Rattle.std.proofs.Common.{rules};

    ghost laws = { Prim.search (comparing, rules) };
}

impl<S: AsSlice<u8>> PartialOrd for OctetStringOf<S> {
    ghost use Rattle.std.specs.Ordering.{on, nat_cmp, as_partial_cmp};
    ghost use Rattle.std.specs.Cmp.Lexicographic.{slice_cmp};
    ghost use Rattle.std.specs.Cmp.{partial_order_from_own_ties};
    ghost use Rattle.std.specs.Cmp.Rules.{comparing};
    ghost use Rattle.std.proofs.Common.{rules};

    ghost partial_cmp = { as_partial_cmp (on (λ s. S.items s.octets) (slice_cmp nat_cmp)) };

    ghost laws = { partial_order_from_own_ties (Prim.search (comparing, rules))
        (Prim.search (comparing, rules)) };

    fn partial_cmp(&self, other: &OctetStringOf<S>) -> Option<Ordering> {
        Some(self.cmp(other))
    }
}

/// The order of the octets, a shorter string first where it begins the other.
impl<S: AsSlice<u8>> Ord for OctetStringOf<S> {
    ghost use Rattle.std.specs.Ordering.{on, nat_cmp};
    ghost use Rattle.std.specs.Cmp.Lexicographic.{slice_cmp};
    ghost use Rattle.std.specs.Cmp.Rules.{comparing};
    ghost use Rattle.std.proofs.Common.{rules};

    ghost cmp = { on (λ s. S.items s.octets) (slice_cmp nat_cmp) };

    ghost total = { Prim.search (comparing, rules) };

    ghost matches_partial_cmp = { λ x y. refl };

    ghost matches_eq = { Prim.search (comparing, rules) };

    fn cmp(&self, other: &OctetStringOf<S>) -> Ordering {
        self.octets.as_slice().cmp(&other.octets.as_slice())
    }
}

impl<S: AsSlice<u8>> Hash for OctetStringOf<S> {
    ghost use Rattle.std.specs.Hash as fed;
    ghost use Rattle.std.specs.Cmp.Rules.{hashing};
    ghost use Rattle.std.proofs.Common.{rules};

    ghost hash_input = { λ s. fed.slice fed.u8 (S.items s.octets) };

    ghost respects_eq = { Prim.search (hashing, rules) };

    fn hash<H: Hasher>(&self, state: &mut H) {
        self.octets.as_slice().hash(state);
    }
}

impl<S: AsSlice<u8>> fmt::Debug for OctetStringOf<S> {
    fn fmt<W: fmt::Write>(&self, f: &mut fmt::Formatter<W>) -> fmt::Result {
        f.debug_tuple("OctetString")
            .field(&self.octets.as_slice())
            .finish()
    }
}

impl<'a> Compared<&'a [u8]> for OctetStringRef<'a> {
    ghost compared = { λ v w. octets_same v.octets.now w.octets.now };
}

impl<S: AsSlice<u8>> AsSlice<u8> for OctetStringOf<S> {
    ghost items = { λ s. S.items s.octets };

    fn as_slice(&self) -> &[u8] {
        self.octets.as_slice()
    }
}

impl<S: AsSlice<u8>> ValueOrd for OctetStringOf<S> {
    ghost value_order = { λ a b. octet_cmp (S.items a.octets) (S.items b.octets) };

    fn value_cmp(&self, other: &OctetStringOf<S>) -> Result<Ordering, Error> {
        Ok(self.cmp(other))
    }
}

impl<S: AsSlice<u8>> ContentOrd for OctetStringOf<S> {
    ghost ordered = { λ a b. refl };
}

/// The element of this string.
impl<'a> From<OctetStringRef<'a>> for AnyRef<'a> {
    ghost from_gives = { λ s a. (a.tag.first ≡ 4) × (a.value.now ≡ s.octets.now) };

    fn from(string: OctetStringRef<'a>) -> AnyRef<'a> {
        AnyRef::of_short(Tag::OCTET_STRING, string.octets)
    }
}
