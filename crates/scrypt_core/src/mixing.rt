//! scryptBlockMix (RFC 7914 section 4).

ghost use Rattle.std.specs.Prelude.{◌≡◌, ◌+◌, ◌*◌, ◌<◌, ◌≤◌, ◌++◌, length};
ghost use Rattle.block_core.specs.Bits.{xor_each};
ghost use Rattle.scrypt_core.specs.Salsa.{salsa};
ghost use Rattle.scrypt_core.specs.BlockMix.{block, block_mix};

use crate::salsa::salsa;
use block_core::xor_into;

/// A step of BlockMix: X with block `i`.
#[inline(always)]
fn mix(x: &mut [u8; 64], b: &[u8], i: usize)
    requires { 64 * i + 64 ≤ length b.now }
    ensures { x.new ≡ salsa (xor_each x.old (block i b.now)) }
{
    xor_into(x, &b[64 * i..64 * i + 64]);
    salsa(x);
}

/// BlockMix of `b`, its even blocks into `even` and its odd ones into `odd`, which have `r` blocks each.
pub(crate) fn block_mix(b: &[u8], r: usize, even: &mut [u8], odd: &mut [u8])
    requires some { 1 ≤ r }
    requires long { length b.now ≡ 128 * r }
    requires even { length even.old ≡ 64 * r }
    requires odd { length odd.old ≡ 64 * r }
    ensures { even.new ++ odd.new ≡ block_mix r b.now }
{
    let mut x = [0u8; 64];
    x.copy_from_slice(&b[128 * r - 64..]);
    for i in 0..r {
        mix(&mut x, b, 2 * i);
        even[64 * i..64 * i + 64].copy_from_slice(&x);
        mix(&mut x, b, 2 * i + 1);
        odd[64 * i..64 * i + 64].copy_from_slice(&x);
    }
}
