//! Lengths, and headers of elements.
ghost use Rattle.std.specs.Prelude.{◌≡◌};
ghost use Rattle.asn1_core.specs.Der.{IsHeader};

use crate::tag::Tag;

/// A number of octets.
#[derive(Clone, Copy, Debug, PartialEq, Eq, PartialOrd, Ord, Hash, Drop)]
pub struct Length {
    pub value: u32,
}

impl Length {
    /// This many octets.
    pub const fn new(n: u32) -> Length
        ensures { result.value ≡ n }
    {
        Length { value: n }
    }

    /// The number of octets.
    pub fn value(self) -> u32
        ensures { result ≡ self.value }
    {
        self.value
    }
}

/// The tag and the length of an element that has at most 2^32 - 1 octets in all.
#[derive(Clone, Copy, Debug, PartialEq, Eq, Drop)]
pub struct Header {
    pub tag: Tag,
    pub length: Length,
    ghost short: { IsHeader length.value },
}
