//! Public keys by their texts.
ghost use Rattle.std.specs.Prelude.{◌≡◌, refl};
ghost use Rattle.der_core.specs.Order.{octet_cmp};

use crate::subject_public_key_info::SubjectPublicKeyInfo;
use asn1_core::{Error, Length, Tag, Writer};
use der_core::{ContentOrd, DerOrd, ElementText, Encode, EncodeValue, Tagged, ValueOrd, pair_cmp};
use std::cmp::Ordering;

/// A public key that is compared by its value octets. The type's own order has the key's value in place of the key's text.
#[derive(Drop)]
pub(crate) struct ByContent<'s, Params, Key>(pub(crate) &'s SubjectPublicKeyInfo<Params, Key>);

impl<'s, Params, Key> Tagged for ByContent<'s, Params, Key> {
    ghost tag_of = { λ _. 0x30 };

    fn tag(&self) -> Tag
        ensures { result.first ≡ 0x30 }
    {
        Tag::SEQUENCE
    }
}

impl<'s, Params: Encode, Key: Encode> EncodeValue for ByContent<'s, Params, Key> {
    ghost content = { λ k. ⟦<SubjectPublicKeyInfo<Params, Key> as EncodeValue>⟧.content k.0.now };

    ghost writable = { λ k. ⟦<SubjectPublicKeyInfo<Params, Key> as EncodeValue>⟧.writable k.0.now };

    fn value_len(&self) -> Result<Length, Error> {
        self.0.value_len()
    }

    fn encode_value<W: Writer>(&self, w: &mut W) -> Result<(), Error> {
        self.0.encode_value(w)
    }
}

impl<'s, Params: DerOrd + ElementText, Key: DerOrd> ValueOrd for ByContent<'s, Params, Key> {
    ghost value_order = { λ a b. octet_cmp
        (⟦<SubjectPublicKeyInfo<Params, Key> as EncodeValue>⟧.content a.0.now)
        (⟦<SubjectPublicKeyInfo<Params, Key> as EncodeValue>⟧.content b.0.now) };

    fn value_cmp(&self, other: &ByContent<'s, Params, Key>) -> Result<Ordering, Error> {
        pair_cmp(
            &self.0.algorithm,
            &self.0.subject_public_key,
            &other.0.algorithm,
            &other.0.subject_public_key,
        )
    }
}

impl<'s, Params: DerOrd + ElementText, Key: DerOrd> ContentOrd for ByContent<'s, Params, Key> {
    ghost ordered = { λ a b. refl };
}
