//! BIT STRING.
ghost use Rattle.std.specs.Prelude.{◌≡◌, ◌⊎◌, List, ℕ, ◌+◌, ◌∷◌, length, refl, IsTrue, MatchResult, IfOk, IfErr, ◌++◌};
ghost use Rattle.asn1_core.specs.Reading.{whole, within};
ghost use Rattle.asn1_core.specs.Gives.{GivesIn};
ghost use Rattle.asn1_core.specs.Der.{IsHeader, el};
ghost use Rattle.der_core.specs.BitString.{is_bits, seen_bits, bits_of, BitsOf};
ghost use Rattle.asn1_core.specs.declared.error.Error.TheVariants.{Malformed, Overlength, Memory};
ghost use Rattle.der_core.specs.Order.{octet_cmp};
ghost use Rattle.der_core.specs.StringLaws.{bits_of-exact, bits_canonical, bits_spelled};
ghost use Rattle.der_core.specs.SameLaws.{bits_same};

use crate::decode::{Decode, DecodeValue};
use crate::encode::EncodeValue;
use crate::laws::{Canonical, Compared, Spelled};
use crate::order::{ContentOrd, ValueOrd};
use crate::size::checked_len;
use crate::tagged::FixedTag;
use asn1_core::{Error, Header, Length, Octets, Reader, Tag, Writer};
use std::alloc::{AllocError, Global};
use std::cmp::Ordering;
use std::convert::AsSlice;
use std::fmt;
use std::hash::{Hash, Hasher};

/// BIT STRING (X.690 section 8.6), primitive, with octets of the type `S`: how many bits of the last octet are unused, and the
/// octets. Unused bits that are not zero are kept. Its text has at most 2^32 - 1 octets.
#[derive(Drop)]
pub struct BitStringOf<S: AsSlice<u8>> {
    unused_bits: u8,
    octets: S,
    ghost bits: { IsTrue (is_bits unused_bits (S.items octets)) },
    ghost short: { IsHeader (1 + length (S.items octets)) },
}

/// A BIT STRING over borrowed octets.
pub type BitStringRef<'a> = BitStringOf<&'a [u8]>;

/// A BIT STRING in memory of its own.
pub type BitString = BitStringOf<Octets>;

impl<'a> BitStringRef<'a> {
    /// The string of these octets, of whose last one this many bits are unused. `Malformed` exactly where `unused_bits` is over
    /// 7, or not 0 where there is no octet; else `Overlength` exactly where the text would have more than 2^32 - 1 octets.
    pub fn new(unused_bits: u8, octets: &'a [u8]) -> Result<BitStringRef<'a>, Error>
        ensures { MatchResult result (λ s. (s.unused_bits ≡ unused_bits)
            × (s.octets.now ≡ octets.now))
            (λ e. ((e ≡ Malformed) × (¬ (IsTrue (is_bits unused_bits octets.now))))
            ⊎ ((e ≡ Overlength) × IsTrue (is_bits unused_bits octets.now)
            × (¬ (IsHeader (1 + length octets.now))))) }
    {
        if unused_bits > 7 || (unused_bits != 0 && octets.is_empty()) {
            return Err(Error::Malformed);
        }
        checked_len(1 + octets.len())?;
        Ok(BitStringOf {
            unused_bits,
            octets,
        })
    }

    /// How many bits of the last octet are unused.
    pub fn unused_bits(&self) -> u8
        ensures { result ≡ self.now.unused_bits }
    {
        self.unused_bits
    }

    /// The octets, their unused bits as they are.
    pub fn raw_bytes(&self) -> &'a [u8]
        ensures { result.now ≡ self.now.octets.now }
    {
        self.octets
    }

    /// The same in memory of its own. The only refusal is `Memory`.
    pub fn ref_to_owned(&self, alloc: Global) -> Result<BitString, Error>
        ensures ok { IfOk result (λ s. (s.unused_bits ≡ self.now.unused_bits)
            × (s.octets ≡ self.now.octets.now)) }
        ensures err { IfErr result (λ e. e ≡ Memory) }
    {
        let octets = Octets::from_slice(alloc, self.octets)?;
        Ok(BitStringOf {
            unused_bits: self.unused_bits,
            octets,
        })
    }
}

impl BitString {
    /// The string of these octets, of whose last one this many bits are unused. `Malformed` exactly where `unused_bits` is over
    /// 7, or not 0 where there is no octet; else `Overlength` exactly where the text would have more than 2^32 - 1 octets; else
    /// `Memory` alone.
    pub fn new(alloc: Global, unused_bits: u8, octets: &[u8]) -> Result<BitString, Error>
        ensures { MatchResult result (λ s. (s.unused_bits ≡ unused_bits) × (s.octets ≡ octets.now))
            (λ e. ((e ≡ Malformed) × (¬ (IsTrue (is_bits unused_bits octets.now))))
            ⊎ ((e ≡ Overlength) × IsTrue (is_bits unused_bits octets.now)
            × (¬ (IsHeader (1 + length octets.now))))
            ⊎ ((e ≡ Memory) × IsTrue (is_bits unused_bits octets.now)
            × IsHeader (1 + length octets.now))) }
    {
        BitStringRef::new(unused_bits, octets)?.ref_to_owned(alloc)
    }

    /// The string whose text these octets are. `Malformed` exactly where they are none, and `Memory`.
    pub fn from_der(alloc: Global, bytes: &[u8]) -> Result<BitString, Error>
        ensures { GivesIn (λ s. seen_bits s.unused_bits s.octets) result
            (whole (within 3 bits_of) bytes.now) }
    {
        BitStringRef::from_der(bytes)?.ref_to_owned(alloc)
    }

    /// How many bits of the last octet are unused.
    pub fn unused_bits(&self) -> u8
        ensures { result ≡ self.now.unused_bits }
    {
        self.unused_bits
    }

    /// The octets, their unused bits as they are.
    pub fn raw_bytes(&self) -> &[u8]
        ensures { result.now ≡ self.now.octets }
    {
        self.octets.as_slice()
    }

    /// The same, borrowed.
    pub fn owned_to_ref(&self) -> BitStringRef<'_>
        ensures { (result.unused_bits ≡ self.now.unused_bits)
            × (result.octets.now ≡ self.now.octets) }
    {
        BitStringOf {
            unused_bits: self.unused_bits,
            octets: self.octets.as_slice(),
        }
    }

    /// An equal value in memory of its own. The only refusal is `Memory`.
    pub fn try_clone(&self, alloc: Global) -> Result<BitString, Error>
        ensures ok { IfOk result (λ s. (s.unused_bits ≡ self.now.unused_bits)
            × (s.octets ≡ self.now.octets)) }
        ensures err { IfErr result (λ e. e ≡ Memory) }
    {
        let octets = self.octets.try_clone(alloc)?;
        Ok(BitStringOf {
            unused_bits: self.unused_bits,
            octets,
        })
    }
}

impl<S: AsSlice<u8> + Copy> Clone for BitStringOf<S> {
    ghost is_clone = { λ s t. t ≡ s };

    ghost is_infallible = { λ s. Unit {0} };

    fn clone(&self) -> Result<BitStringOf<S>, AllocError> {
        Ok(*self)
    }
}

impl<S: AsSlice<u8> + Copy> Copy for BitStringOf<S> {}

impl<S: AsSlice<u8>> FixedTag for BitStringOf<S> {
    ghost TAG = { record { first = 3; is_tag = refl } };

    const TAG: Tag = Tag::BIT_STRING;
}

impl<'a> DecodeValue<&'a [u8]> for BitStringRef<'a> {
    ghost Seen = { ℕ × List ℕ };

    ghost seen = { λ s. seen_bits s.unused_bits s.octets.now };

    ghost value = { λ t. bits_of };

    ghost text = { λ t. BitsOf };

    fn decode_value<R: Reader<&'a [u8]>>(
        r: &mut R,
        header: Header,
    ) -> Result<BitStringRef<'a>, Error> {
        let mut ahead = *r;
        let value = ahead.read_slice(header.length)?;
        match value.split_first() {
            None => Err(Error::Malformed),
            Some((unused, octets)) => {
                let unused_bits = *unused;
                if unused_bits > 7 || (unused_bits != 0 && octets.is_empty()) {
                    return Err(Error::Malformed);
                }
                *r = ahead;
                Ok(BitStringOf {
                    unused_bits,
                    octets,
                })
            }
        }
    }

    ghost exact = { λ t. bits_of-exact };
}

impl<S: AsSlice<u8>> EncodeValue for BitStringOf<S> {
    ghost content = { λ s. s.unused_bits ∷ S.items s.octets };

    ghost writable = { λ s. Unit {0} };

    fn value_len(&self) -> Result<Length, Error> {
        Ok(Length {
            value: 1 + self.octets.as_slice().len() as u32,
        })
    }

    fn encode_value<W: Writer>(&self, w: &mut W) -> Result<(), Error> {
        w.write(&[self.unused_bits])?;
        w.write(self.octets.as_slice())
    }
}

impl<'a> Canonical<&'a [u8]> for BitStringRef<'a> {
    ghost canonical = { λ s h. bits_canonical s.unused_bits s.octets.now s.bits };
}

impl<'a> Spelled<&'a [u8]> for BitStringRef<'a> {
    ghost spell = { λ b s. b ≡ el 3 (s.unused_bits ∷ s.octets.now) };

    ghost spelled = { λ b s. bits_spelled s.unused_bits s.octets.now b s.bits };
}

impl<S: AsSlice<u8>> PartialEq for BitStringOf<S> {
    ghost use Rattle.std.specs.Prelude.{nat_eq};
    ghost use Rattle.std.specs.Ordering.{on};
    ghost use Rattle.std.specs.Cmp.Lexicographic.{pointwise};
    ghost use Rattle.std.specs.Cmp.Rules.{comparing};
    ghost use Rattle.std.proofs.Common.{rules};

    ghost eq = { on (λ s. s.unused_bits ∷ S.items s.octets) (pointwise nat_eq) };

    ghost laws = { Prim.search (comparing, rules) };

    fn eq(&self, other: &BitStringOf<S>) -> bool {
        self.unused_bits == other.unused_bits && self.octets.as_slice() == other.octets.as_slice()
    }
}

impl<S: AsSlice<u8>> Eq for BitStringOf<S> {
    ghost use Rattle.std.specs.Cmp.Rules.{comparing};
    ghost use Rattle.std.proofs.Common.{rules};

    ghost laws = { Prim.search (comparing, rules) };
}

impl<S: AsSlice<u8>> PartialOrd for BitStringOf<S> {
    ghost use Rattle.std.specs.Ordering.{on, nat_cmp, as_partial_cmp};
    ghost use Rattle.std.specs.Cmp.Lexicographic.{slice_cmp};
    ghost use Rattle.std.specs.Cmp.{partial_order_from_own_ties};
    ghost use Rattle.std.specs.Cmp.Rules.{comparing};
    ghost use Rattle.std.proofs.Common.{rules};

    ghost partial_cmp = { as_partial_cmp
        (on (λ s. s.unused_bits ∷ S.items s.octets) (slice_cmp nat_cmp)) };

    ghost laws = { partial_order_from_own_ties (Prim.search (comparing, rules))
        (Prim.search (comparing, rules)) };

    fn partial_cmp(&self, other: &BitStringOf<S>) -> Option<Ordering> {
        Some(self.cmp(other))
    }
}

/// The order of the value octets: the numbers of unused bits first, and then the octets.
impl<S: AsSlice<u8>> Ord for BitStringOf<S> {
    ghost use Rattle.std.specs.Ordering.{on, nat_cmp};
    ghost use Rattle.std.specs.Cmp.Lexicographic.{slice_cmp};
    ghost use Rattle.std.specs.Cmp.Rules.{comparing};
    ghost use Rattle.std.proofs.Common.{rules};

    ghost cmp = { on (λ s. s.unused_bits ∷ S.items s.octets) (slice_cmp nat_cmp) };

    ghost total = { Prim.search (comparing, rules) };

    ghost matches_partial_cmp = { λ x y. refl };

    ghost matches_eq = { Prim.search (comparing, rules) };

    fn cmp(&self, other: &BitStringOf<S>) -> Ordering {
        match self.unused_bits.cmp(&other.unused_bits) {
            Ordering::Equal => self.octets.as_slice().cmp(&other.octets.as_slice()),
            unequal => unequal,
        }
    }
}

impl<S: AsSlice<u8>> Hash for BitStringOf<S> {
    ghost use Rattle.std.specs.Hash as fed;
    ghost use Rattle.std.specs.Cmp.Rules.{hashing};
    ghost use Rattle.std.proofs.Common.{rules};

    ghost hash_input = { λ s. fed.u8 s.unused_bits ++ fed.slice fed.u8 (S.items s.octets) };

    ghost respects_eq = { Prim.search (hashing, rules) };

    fn hash<H: Hasher>(&self, state: &mut H) {
        self.unused_bits.hash(state);
        self.octets.as_slice().hash(state);
    }
}

impl<S: AsSlice<u8>> fmt::Debug for BitStringOf<S> {
    fn fmt<W: fmt::Write>(&self, f: &mut fmt::Formatter<W>) -> fmt::Result {
        f.debug_struct("BitString")
            .field("unused_bits", &self.unused_bits)
            .field("octets", &self.octets.as_slice())
            .finish()
    }
}

impl<'a> Compared<&'a [u8]> for BitStringRef<'a> {
    ghost compared = { λ v w. bits_same v.unused_bits w.unused_bits v.octets.now w.octets.now };
}

impl<S: AsSlice<u8>> ValueOrd for BitStringOf<S> {
    ghost value_order = { λ a b. octet_cmp (a.unused_bits ∷ S.items a.octets)
        (b.unused_bits ∷ S.items b.octets) };

    fn value_cmp(&self, other: &BitStringOf<S>) -> Result<Ordering, Error> {
        Ok(self.cmp(other))
    }
}

impl<S: AsSlice<u8>> ContentOrd for BitStringOf<S> {
    ghost ordered = { λ a b. refl };
}
