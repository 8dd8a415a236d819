//! Types that are seen as a BIT STRING.
ghost use Rattle.std.specs.Prelude.{◌≡◌, ℕ, List};
ghost use Rattle.der_core.specs.BitString.{seen_bits};

use der_core::{BitString, BitStringRef};

/// A type whose values are seen as a BIT STRING, as the public key of a private key is.
pub trait BitStringLike {
    /// What is seen of a value: how many bits of the last octet are unused, and the octets.
    ghost bits: { Self → ℕ × List ℕ };

    /// The value as a BIT STRING.
    fn as_bit_string(&self) -> BitStringRef<'_>
        ensures { seen_bits result.unused_bits result.octets.now ≡ bits self.now };
}

impl<'a> BitStringLike for BitStringRef<'a> {
    ghost bits = { λ s. seen_bits s.unused_bits s.octets.now };

    fn as_bit_string(&self) -> BitStringRef<'_> {
        *self
    }
}

impl BitStringLike for BitString {
    ghost bits = { λ s. seen_bits s.unused_bits s.octets };

    fn as_bit_string(&self) -> BitStringRef<'_> {
        self.owned_to_ref()
    }
}
