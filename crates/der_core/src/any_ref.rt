//! Any element, borrowed.
ghost use Rattle.std.specs.Prelude.{◌≡◌, ◌↔◌, refl, ℕ, true, List, [], length, MatchResult};
ghost use Rattle.asn1_core.specs.Reading.{whole, any_tag};
ghost use Rattle.asn1_core.specs.Der.{IsHeader, el};
ghost use Rattle.asn1_core.specs.Gives.{Gives};
ghost use Rattle.asn1_core.specs.ElementLaws.{by_tag-exact, by_tag-whole};
ghost use Rattle.asn1_core.specs.declared.error.Error.TheVariants.{Overlength};
ghost use Rattle.der_core.specs.Order.{octet_cmp};
ghost use Rattle.der_core.specs.Any.{seen_any, any_of, any_at, AnyOf, AnyText};
ghost use Rattle.der_core.specs.AnyLaws.{any_of-exact, any_canonical, any_spelled};
ghost use Rattle.der_core.specs.TiedLaws.{tied_any};
ghost use Rattle.der_core.specs.SameLaws.{any_same};

use crate::decode::{Choice, Decode, DecodeValue};
use crate::encode::EncodeValue;
use crate::laws::{Canonical, Compared, Spelled, WholeElement, read_as};
use crate::order::{ContentOrd, ValueOrd};
use crate::size::checked_len;
use crate::tagged::Tagged;
use asn1_core::{Error, Header, Length, Reader, SliceReader, Tag, Writer};
use std::cmp::Ordering;

/// Any element, by its tag and its value octets, which are not looked at. Its text has at most 2^32 - 1 octets.
#[derive(Clone, Copy, Debug, PartialEq, Eq, PartialOrd, Ord, Hash, Drop)]
pub struct AnyRef<'a> {
    tag: Tag,
    value: &'a [u8],
    ghost short: { IsHeader (length value.now) },
}

impl<'a> AnyRef<'a> {
    /// The element of this tag and these value octets. `Overlength` exactly where it would have more than 2^32 - 1 octets.
    pub fn new(tag: Tag, value: &'a [u8]) -> Result<AnyRef<'a>, Error>
        ensures { MatchResult result (λ a. (a.tag ≡ tag) × (a.value.now ≡ value.now))
            (λ e. (e ≡ Overlength) × (¬ (IsHeader (length value.now)))) }
    {
        checked_len(value.len())?;
        Ok(AnyRef { tag, value })
    }

    /// The element of this tag and these value octets. Caller: it has at most 2^32 - 1 octets.
    pub(crate) fn of_short(tag: Tag, value: &'a [u8]) -> AnyRef<'a>
        requires { IsHeader (length value.now) }
        ensures { (result.tag ≡ tag) × (result.value.now ≡ value.entry.now) }
    {
        AnyRef { tag, value }
    }

    /// The tag.
    pub fn tag(&self) -> Tag
        ensures { result ≡ self.now.tag }
    {
        self.tag
    }

    /// The value octets.
    pub fn value(&self) -> &'a [u8]
        ensures { result.now ≡ self.now.value.now }
    {
        self.value
    }

    /// Whether this is NULL.
    pub fn is_null(&self) -> bool
        ensures { result ≡ true ↔ (self.now.tag.first ≡ 5) × (self.now.value.now ≡ []) }
    {
        self.tag == Tag::NULL && self.value.is_empty()
    }

    /// The value of `T` whose text this element is: what `T::from_der` returns for the octets of the whole element,
    /// its tag and its length included.
    pub fn decode_as<T: WholeElement<&'a [u8]>>(&self) -> Result<T, Error>
        ensures { Gives T.Decode.seen result
            (whole T.at (el self.now.tag.first self.now.value.now)) }
    {
        let mut r = SliceReader::new(self.value);
        let header = Header {
            tag: self.tag,
            length: Length {
                value: self.value.len() as u32,
            },
        };
        read_as::<&'a [u8], SliceReader<'a>, T>(&mut r, header)
    }
}

impl<'a> Tagged for AnyRef<'a> {
    ghost tag_of = { λ a. a.tag.first };

    fn tag(&self) -> Tag {
        self.tag
    }
}

impl<'a> DecodeValue<&'a [u8]> for AnyRef<'a> {
    ghost Seen = { ℕ × List ℕ };

    ghost seen = { λ a. seen_any a.tag.first a.value.now };

    ghost value = { any_of };

    ghost text = { AnyOf };

    fn decode_value<R: Reader<&'a [u8]>>(r: &mut R, header: Header) -> Result<AnyRef<'a>, Error> {
        let value = r.read_slice(header.length)?;
        Ok(AnyRef {
            tag: header.tag,
            value,
        })
    }

    ghost exact = { any_of-exact };
}

impl<'a> Decode<&'a [u8]> for AnyRef<'a> {
    ghost Seen = { ℕ × List ℕ };

    ghost seen = { λ a. seen_any a.tag.first a.value.now };

    ghost at = { any_at };

    ghost text = { AnyText };

    fn decode<R: Reader<&'a [u8]>>(r: &mut R) -> Result<AnyRef<'a>, Error> {
        let mut ahead = *r;
        let header = ahead.header()?;
        let value = ahead.read_slice(header.length)?;
        *r = ahead;
        Ok(AnyRef {
            tag: header.tag,
            value,
        })
    }

    fn from_der(bytes: &'a [u8]) -> Result<AnyRef<'a>, Error> {
        let mut r = SliceReader::new(bytes);
        let v = Self::decode(&mut r)?;
        r.finish()?;
        Ok(v)
    }
}

impl<'a> Choice<&'a [u8]> for AnyRef<'a> {
    ghost can = { any_tag };

    fn can_decode(tag: Tag) -> bool
        ensures { result ≡ true }
    {
        let _ = tag;
        true
    }

    ghost exact = { by_tag-exact any_tag AnyOf any_of (λ t h. any_of-exact t) };

    ghost whole = { by_tag-whole any_tag AnyOf };
}

impl<'a> WholeElement<&'a [u8]> for AnyRef<'a> {
    ghost tied = { tied_any (λ a. seen_any a.tag.first a.value.now) };
}

impl<'a> Compared<&'a [u8]> for AnyRef<'a> {
    ghost compared = { λ v w. any_same v.tag.first w.tag.first v.value.now w.value.now };
}

impl<'a> EncodeValue for AnyRef<'a> {
    ghost content = { λ a. a.value.now };

    ghost writable = { λ a. Unit {0} };

    fn value_len(&self) -> Result<Length, Error> {
        Ok(Length {
            value: self.value.len() as u32,
        })
    }

    fn encode_value<W: Writer>(&self, w: &mut W) -> Result<(), Error> {
        w.write(self.value)
    }
}

impl<'a> Canonical<&'a [u8]> for AnyRef<'a> {
    ghost canonical = { λ a h. any_canonical a.tag.first a.value.now a.tag.is_tag };
}

impl<'a> Spelled<&'a [u8]> for AnyRef<'a> {
    ghost spell = { λ b a. b ≡ el a.tag.first a.value.now };

    ghost spelled = { λ b a. any_spelled a.tag.first a.value.now b a.tag.is_tag };
}

impl<'a> ValueOrd for AnyRef<'a> {
    ghost value_order = { λ a b. octet_cmp (a.value.now) (b.value.now) };

    fn value_cmp(&self, other: &AnyRef<'a>) -> Result<Ordering, Error> {
        Ok(self.value.cmp(&other.value))
    }
}

impl<'a> ContentOrd for AnyRef<'a> {
    ghost ordered = { λ a b. refl };
}
