//! Any element, in memory of its own.
ghost use Rattle.std.specs.Prelude.{◌≡◌, ◌⊎◌, refl, ℕ, length, None, MatchResult, IfOk, IfErr, OnOk};
ghost use Rattle.asn1_core.specs.Der.{IsHeader, el};
ghost use Rattle.asn1_core.specs.Reading.{whole};
ghost use Rattle.asn1_core.specs.Gives.{GivesIn};
ghost use Rattle.asn1_core.specs.Writing.{Cause, IsOverlong};
ghost use Rattle.asn1_core.specs.declared.error.Error.TheVariants.{Overlength, Memory};
ghost use Rattle.der_core.specs.Order.{octet_cmp};
ghost use Rattle.der_core.specs.Any.{seen_any, any_at};

use crate::any_ref::AnyRef;
use crate::decode::Decode;
use crate::encode::EncodeValue;
use crate::order::{ContentOrd, ValueOrd};
use crate::size::checked_len;
use crate::tagged::Tagged;
use asn1_core::{Error, Length, Octets, Tag, VecWriter, Writer};
use std::alloc::Global;
use std::cmp::Ordering;

/// Any element, by its tag and its value octets in memory of their own. Its text has at most 2^32 - 1 octets.
#[derive(Debug, PartialEq, Eq, PartialOrd, Ord, Hash, Drop)]
pub struct Any {
    tag: Tag,
    value: Octets,
    ghost short: { IsHeader (length value) },
}

impl Any {
    /// The element of this tag and these value octets. `Overlength` exactly where it would have more than 2^32 - 1 octets; else
    /// `Memory` alone.
    pub fn new(alloc: Global, tag: Tag, value: &[u8]) -> Result<Any, Error>
        ensures { MatchResult result (λ a. (a.tag ≡ tag) × (a.value ≡ value.now))
            (λ e. ((e ≡ Memory) × IsHeader (length value.now))
            ⊎ ((e ≡ Overlength) × (¬ (IsHeader (length value.now))))) }
    {
        checked_len(value.len())?;
        let value = Octets::from_slice(alloc, value)?;
        Ok(Any { tag, value })
    }

    /// The element that is the text of `v`. `Malformed` exactly where `v` has none, `Overlength` only where that text would have
    /// more than 2^32 - 1 octets, and `Memory`.
    pub fn encode_from<T: Tagged + EncodeValue>(alloc: Global, v: &T) -> Result<Any, Error>
        ensures ok { IfOk result (λ a. (a.tag.first ≡ T.tag_of v.now)
            × (a.value ≡ T.content v.now)) }
        ensures lawful { OnOk result (T.writable v.now) }
        ensures err { IfErr result
            (λ e. Cause (¬ (T.writable v.now))
            (IsOverlong (length (el (T.tag_of v.now) (T.content v.now)))) (Unit {0}) None 0 0 0 e) }
    {
        let length = v.value_len()?;
        checked_len(length.value as usize)?;
        let mut w = VecWriter::new(alloc);
        v.encode_value(&mut w)?;
        Ok(Any {
            tag: v.tag(),
            value: w.into_octets(),
        })
    }

    /// The element that these octets are. `Malformed` exactly where they are none, and `Memory`.
    pub fn from_der(alloc: Global, bytes: &[u8]) -> Result<Any, Error>
        ensures { GivesIn (λ a. seen_any a.tag.first a.value) result (whole any_at bytes.now) }
    {
        AnyRef::from_der(bytes)?.ref_to_owned(alloc)
    }

    /// The tag.
    pub fn tag(&self) -> Tag
        ensures { result ≡ self.now.tag }
    {
        self.tag
    }

    /// The value octets.
    pub fn value(&self) -> &[u8]
        ensures { result.now ≡ self.now.value }
    {
        self.value.as_slice()
    }

    /// The same, borrowed.
    pub fn owned_to_ref(&self) -> AnyRef<'_>
        ensures { (result.tag ≡ self.now.tag) × (result.value.now ≡ self.now.value) }
    {
        AnyRef::of_short(self.tag, self.value.as_slice())
    }

    /// An equal value in memory of its own. The only refusal is `Memory`.
    pub fn try_clone(&self, alloc: Global) -> Result<Any, Error>
        ensures ok { IfOk result (λ a. (a.tag ≡ self.now.tag) × (a.value ≡ self.now.value)) }
        ensures err { IfErr result (λ e. e ≡ Memory) }
    {
        let value = self.value.try_clone(alloc)?;
        Ok(Any {
            tag: self.tag,
            value,
        })
    }
}

impl AnyRef<'_> {
    /// The same in memory of its own. The only refusal is `Memory`.
    pub fn ref_to_owned(&self, alloc: Global) -> Result<Any, Error>
        ensures ok { IfOk result (λ a. (a.tag ≡ self.now.tag) × (a.value ≡ self.now.value.now)) }
        ensures err { IfErr result (λ e. e ≡ Memory) }
    {
        let value = Octets::from_slice(alloc, self.value())?;
        Ok(Any {
            tag: self.tag(),
            value,
        })
    }
}

impl Tagged for Any {
    ghost tag_of = { λ a. a.tag.first };

    fn tag(&self) -> Tag {
        self.tag
    }
}

impl EncodeValue for Any {
    ghost content = { λ a. a.value };

    ghost writable = { λ a. Unit {0} };

    fn value_len(&self) -> Result<Length, Error> {
        Ok(Length {
            value: self.value.len() as u32,
        })
    }

    fn encode_value<W: Writer>(&self, w: &mut W) -> Result<(), Error> {
        w.write(self.value.as_slice())
    }
}

impl ValueOrd for Any {
    ghost value_order = { λ a b. octet_cmp (a.value) (b.value) };

    fn value_cmp(&self, other: &Any) -> Result<Ordering, Error> {
        Ok(self.value.cmp(&other.value))
    }
}

impl ContentOrd for Any {
    ghost ordered = { λ a b. refl };
}
