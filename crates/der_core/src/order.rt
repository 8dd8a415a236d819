//! Orders of texts.
ghost use Rattle.std.specs.Prelude.{◌≡◌, ◌⊎◌, ◌++◌, ℕ, length, IfOk, IfErr, refl};
ghost use Rattle.std.specs.declared.cmp.Ordering.{Ordering};
ghost use Rattle.asn1_core.specs.Writing.{IsOverlong};
ghost use Rattle.der_core.specs.Order.{octet_cmp, header_order, IsElementText, Unordered};

use crate::encode::{Encode, EncodeValue};
use crate::tagged::Tagged;
use asn1_core::{Error, Length, Tag};
use std::cmp::Ordering;

/// A value that is compared by its value octets, or in an order of its own. It takes no memory.
pub trait ValueOrd: EncodeValue {
    ghost value_order: { Self → Self → Ordering };

    /// The order of the two values. `Malformed` only where one has no text, `Overlength` only where one has more than 2^32 - 1
    /// value octets.
    fn value_cmp(&self, other: &Self) -> Result<Ordering, Error>
        ensures ok { IfOk result (λ o. o ≡ value_order self.now other.now) }
        ensures err { IfErr result
            (λ e. Unordered ((¬ (Self.writable self.now)) ⊎ (¬ (Self.writable other.now)))
            (IsOverlong (length (Self.content self.now))
            ⊎ IsOverlong (length (Self.content other.now))) e) };
}

/// A type whose `value_cmp` is the order of the value octets.
pub trait ContentOrd: ValueOrd {
    ghost ordered: { (v w : Self) → Self.value_order v w
        ≡ octet_cmp (Self.content v) (Self.content w) };
}

/// A value that is compared by its text. It takes no memory.
pub trait DerOrd: Encode {
    /// The order of the two texts as lists of octets. `Malformed` only where one value has none, `Overlength` only where one text
    /// has more than 2^32 - 1 octets.
    fn der_cmp(&self, other: &Self) -> Result<Ordering, Error>
        ensures ok { IfOk result (λ o. o ≡ octet_cmp (Self.canon self.now) (Self.canon other.now)) }
        ensures err { IfErr result
            (λ e. Unordered ((¬ (Self.writable self.now)) ⊎ (¬ (Self.writable other.now)))
            (IsOverlong (length (Self.canon self.now))
            ⊎ IsOverlong (length (Self.canon other.now))) e) };
}

/// A type whose texts are single elements.
pub trait ElementText: Encode {
    ghost element: { (v : Self) → IsElementText (Self.canon v) };
}

impl<T: EncodeValue + Tagged> ElementText for T {
    ghost element = { λ v. (T.tag_of v, T.content v, refl) };
}

/// The order of two headers.
fn header_cmp(tag: Tag, length: Length, other_tag: Tag, other_length: Length) -> Ordering
    ensures { result ≡ header_order tag.first length.value other_tag.first other_length.value }
{
    match tag.first.cmp(&other_tag.first) {
        Ordering::Equal => length.value.cmp(&other_length.value),
        unequal => unequal,
    }
}

impl<T: ContentOrd + Tagged> DerOrd for T {
    fn der_cmp(&self, other: &T) -> Result<Ordering, Error> {
        let one = self.value_len()?;
        let two = other.value_len()?;
        match header_cmp(self.tag(), one, other.tag(), two) {
            Ordering::Equal => self.value_cmp(other),
            unequal => Ok(unequal),
        }
    }
}

impl<T: DerOrd + ElementText> DerOrd for Option<T> {
    fn der_cmp(&self, other: &Option<T>) -> Result<Ordering, Error> {
        match (self, other) {
            (Some(x), Some(y)) => x.der_cmp(y),
            (None, Some(_)) => Ok(Ordering::Less),
            (Some(_), None) => Ok(Ordering::Greater),
            (None, None) => Ok(Ordering::Equal),
        }
    }
}

/// The order of two pairs of texts, each one text after the other. Refusals as in `der_cmp`.
pub fn pair_cmp<A: DerOrd + ElementText, B: DerOrd>(
    first: &A,
    second: &B,
    other_first: &A,
    other_second: &B,
) -> Result<Ordering, Error>
    ensures ok { IfOk result (λ o. o ≡ octet_cmp (A.canon first.now ++ B.canon second.now)
        (A.canon other_first.now ++ B.canon other_second.now)) }
    ensures err { IfErr result
        (λ e. Unordered ((¬ (A.writable first.now × B.writable second.now))
        ⊎ (¬ (A.writable other_first.now × B.writable other_second.now)))
        (IsOverlong (length (A.canon first.now ++ B.canon second.now))
        ⊎ IsOverlong (length (A.canon other_first.now ++ B.canon other_second.now))) e) }
{
    match first.der_cmp(other_first)? {
        Ordering::Equal => second.der_cmp(other_second),
        unequal => Ok(unequal),
    }
}
