//! Public keys that come after an implicit tag.
ghost use Rattle.std.specs.Prelude.{◌≡◌, ℕ, List, ◌∷◌};
ghost use Rattle.pkcs8.specs.ImplicitLaws.{implicit_canonical, implicit_spelled};

use crate::bit_string_like::BitStringLike;
use der_core::{BitStringRef, DecodeValue};
use std::convert::AsSlice;

/// A type of which the value octets after the implicit tag [1] are those of its BIT STRING, and no others are.
pub trait ImplicitBitString<S: AsSlice<u8>>: DecodeValue<S> + BitStringLike {
    ghost implicit: { (k : Self) → Self.text 0x81 ((Self.bits k).0 ∷ (Self.bits k).1)
        (Self.seen k) };

    ghost sole: { (b : List ℕ) (k : Self) → Self.text 0x81 b (Self.seen k) → b
        ≡ (Self.bits k).0 ∷ (Self.bits k).1 };
}

impl<'a> ImplicitBitString<&'a [u8]> for BitStringRef<'a> {
    ghost implicit = { λ k. implicit_canonical k.unused_bits k.octets.now k.bits };

    ghost sole = { λ b k r. implicit_spelled k.unused_bits k.octets.now b r };
}
