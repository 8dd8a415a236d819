//! SEQUENCE.
ghost use Rattle.std.specs.Prelude.{◌≡◌};

use crate::decode::DecodeValue;
use crate::encode::EncodeValue;
use crate::tagged::FixedTag;
use std::convert::AsSlice;

/// A type whose texts are SEQUENCEs (X.690 section 8.9), which is the law.
pub trait Sequence<S: AsSlice<u8>>: DecodeValue<S> + EncodeValue + FixedTag {
    ghost sequence: { Self.TAG.first ≡ 0x30 };
}
