//! Object identifiers as typed values.
ghost use Rattle.std.specs.Prelude.{◌≡◌, refl};
ghost use Rattle.asn1_core.specs.Der.{el, oid};
ghost use Rattle.asn1_core.specs.Reading.{whole, oid_at};
ghost use Rattle.asn1_core.specs.Gives.{Gives};
ghost use Rattle.asn1_core.specs.Reading.{oid_of};
ghost use Rattle.asn1_core.specs.Texts.{OidOf};
ghost use Rattle.asn1_core.specs.ElementLaws.{oid_of-exact};
ghost use Rattle.asn1_core.specs.Oid.{oid_octets, oid_decides};
ghost use Rattle.der_core.specs.Order.{octet_cmp};
ghost use Rattle.der_core.specs.StringLaws.{oid_canonical, oid_spelled};
ghost use Rattle.asn1_core.specs.declared.identifier.ObjectIdentifier.{ObjectIdentifier};

use crate::any_ref::AnyRef;
use crate::decode::DecodeValue;
use crate::encode::EncodeValue;
use crate::laws::{Canonical, Compared, Spelled};
use crate::order::{ContentOrd, ValueOrd};
use crate::tagged::FixedTag;
use asn1_core::{Error, Header, Length, ObjectIdentifier, Reader, Tag, Writer};
use std::cmp::Ordering;

impl FixedTag for ObjectIdentifier {
    ghost TAG = { record { first = 6; is_tag = refl } };

    const TAG: Tag = Tag::OBJECT_IDENTIFIER;
}

impl<'a> DecodeValue<&'a [u8]> for ObjectIdentifier {
    ghost Seen = { ObjectIdentifier };

    ghost seen = { λ o. o };

    ghost value = { λ t. oid_of };

    ghost text = { λ t. OidOf };

    fn decode_value<R: Reader<&'a [u8]>>(
        r: &mut R,
        header: Header,
    ) -> Result<ObjectIdentifier, Error> {
        let mut ahead = *r;
        let octets = ahead.read_slice(header.length)?;
        let oid = ObjectIdentifier::from_bytes(octets)?;
        *r = ahead;
        Ok(oid)
    }

    ghost exact = { λ t. oid_of-exact };
}

impl EncodeValue for ObjectIdentifier {
    ghost content = { oid_octets };

    ghost writable = { λ o. Unit {0} };

    fn value_len(&self) -> Result<Length, Error> {
        Ok(Length {
            value: self.as_bytes().len() as u32,
        })
    }

    fn encode_value<W: Writer>(&self, w: &mut W) -> Result<(), Error> {
        w.write(self.as_bytes())
    }
}

impl<'a> Canonical<&'a [u8]> for ObjectIdentifier {
    ghost canonical = { λ o h. oid_canonical o };
}

impl<'a> Spelled<&'a [u8]> for ObjectIdentifier {
    ghost spell = { λ b o. b ≡ oid (oid_octets o) };

    ghost spelled = { λ b o. oid_spelled o b };
}

impl ValueOrd for ObjectIdentifier {
    ghost value_order = { λ a b. octet_cmp (oid_octets a) (oid_octets b) };

    fn value_cmp(&self, other: &ObjectIdentifier) -> Result<Ordering, Error> {
        Ok(self.as_bytes().cmp(&other.as_bytes()))
    }
}

impl ContentOrd for ObjectIdentifier {
    ghost ordered = { λ a b. refl };
}

impl<'a> Compared<&'a [u8]> for ObjectIdentifier {
    ghost compared = { λ v w. ((oid_decides v w).1, (oid_decides v w).0) };
}

/// The element of this identifier.
impl<'a> From<&'a ObjectIdentifier> for AnyRef<'a> {
    ghost from_gives = { λ o a. (a.tag.first ≡ 6) × (a.value.now ≡ oid_octets o.now) };

    #[tactic(auto, using(crate::specs::StringLaws::identifier_header))]
    fn from(oid: &'a ObjectIdentifier) -> AnyRef<'a> {
        AnyRef::of_short(Tag::OBJECT_IDENTIFIER, oid.as_bytes())
    }
}

/// What decoding the whole element returns: `Malformed` exactly where it is no identifier.
impl<'a> TryFrom<AnyRef<'a>> for ObjectIdentifier {
    type Error = Error;

    ghost try_from_gives = { λ a r. Gives (λ o. o) r (whole oid_at (el a.tag.first a.value.now)) };

    fn try_from(any: AnyRef<'a>) -> Result<ObjectIdentifier, Error> {
        any.decode_as()
    }
}
