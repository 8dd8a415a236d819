//! NULL.
ghost use Rattle.std.specs.Prelude.{◌≡◌, [], refl};
ghost use Rattle.asn1_core.specs.Der.{null};
ghost use Rattle.asn1_core.specs.Reading.{ended};
ghost use Rattle.asn1_core.specs.Texts.{Ended};
ghost use Rattle.asn1_core.specs.ExactLaws.{ended-exact};
ghost use Rattle.der_core.specs.Null.{nothing};
ghost use Rattle.der_core.specs.Order.{octet_cmp};
ghost use Rattle.der_core.specs.StringLaws.{null_canonical, null_spelled};

use crate::any_ref::AnyRef;
use crate::decode::DecodeValue;
use crate::encode::EncodeValue;
use crate::laws::{Canonical, Compared, Spelled};
use crate::order::{ContentOrd, ValueOrd};
use crate::tagged::FixedTag;
use asn1_core::{Error, Header, Length, Reader, Tag, Writer};
use std::cmp::Ordering;

/// NULL (X.690 section 8.8): an element with no value octets.
#[derive(Clone, Copy, Debug, PartialEq, Eq, Drop)]
pub struct Null;

impl FixedTag for Null {
    ghost TAG = { record { first = 5; is_tag = refl } };

    const TAG: Tag = Tag::NULL;
}

impl<'a> DecodeValue<&'a [u8]> for Null {
    ghost Seen = { Unit {0} };

    ghost seen = { λ n. nothing };

    ghost value = { λ t. ended nothing };

    ghost text = { λ t. Ended nothing };

    fn decode_value<R: Reader<&'a [u8]>>(r: &mut R, header: Header) -> Result<Null, Error> {
        let mut ahead = *r;
        let octets = ahead.read_slice(header.length)?;
        if !octets.is_empty() {
            return Err(Error::Malformed);
        }
        *r = ahead;
        Ok(Null)
    }

    ghost exact = { λ t. ended-exact nothing };
}

impl EncodeValue for Null {
    ghost content = { λ n. [] };

    ghost writable = { λ n. Unit {0} };

    fn value_len(&self) -> Result<Length, Error> {
        Ok(Length { value: 0 })
    }

    fn encode_value<W: Writer>(&self, w: &mut W) -> Result<(), Error> {
        w.write(&[])
    }
}

impl<'a> Canonical<&'a [u8]> for Null {
    ghost canonical = { λ n h. null_canonical };
}

impl<'a> Spelled<&'a [u8]> for Null {
    ghost spell = { λ b n. b ≡ null };

    ghost spelled = { λ b n. null_spelled b };
}

impl ValueOrd for Null {
    ghost value_order = { λ a b. octet_cmp ([]) ([]) };

    fn value_cmp(&self, _other: &Null) -> Result<Ordering, Error> {
        Ok(Ordering::Equal)
    }
}

impl ContentOrd for Null {
    ghost ordered = { λ a b. refl };
}

impl<'a> Compared<&'a [u8]> for Null {
    ghost compared = { λ v w. (λ e. refl, λ h. refl) };
}

/// The element NULL.
impl<'a> From<Null> for AnyRef<'a> {
    ghost from_gives = { λ n a. (a.tag.first ≡ 5) × (a.value.now ≡ []) };

    #[tactic(auto, using(crate::specs::StringLaws::small_header))]
    fn from(_null: Null) -> AnyRef<'a> {
        AnyRef::of_short(Tag::NULL, &[])
    }
}
