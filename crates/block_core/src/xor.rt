//! Octets xored in place.

ghost use Rattle.std.specs.Prelude.{◌≡◌, length};
ghost use Rattle.block_core.specs.Bits.{xor_each};

/// Xors `other` into `octets`, which has as many.
pub fn xor_into(octets: &mut [u8], other: &[u8])
    requires { length octets.old ≡ length other.now }
    ensures { octets.new ≡ xor_each octets.old other.now }
{
    for i in 0..octets.len() {
        octets[i] ^= other[i];
    }
}
