//! scryptROMix (RFC 7914 section 5).

ghost use Rattle.std.specs.Prelude.{◌≡◌, ◌+◌, ◌*◌, ◌%◌, ◌^◌, ◌≤◌, length, take, drop};
ghost use Rattle.block_core.specs.Bits.{xor_each};
ghost use Rattle.scrypt_core.specs.BlockMix.{block_mix, joined};
ghost use Rattle.scrypt_core.specs.Scrypt.{integerify, mixed_times, rom_mix};

use crate::mixing::block_mix;
use block_core::xor_into;

/// BlockMix of `x` in place; `even` and `odd` are for what it makes.
fn mix_blocks(x: &mut [u8], r: usize, even: &mut [u8], odd: &mut [u8])
    requires some { 1 ≤ r }
    requires long { length x.old ≡ 128 * r }
    requires even { length even.old ≡ 64 * r }
    requires odd { length odd.old ≡ 64 * r }
    ensures { x.new ≡ block_mix r x.old }
{
    block_mix(x, r, even, odd);
    x[..64 * r].copy_from_slice(even);
    x[64 * r..].copy_from_slice(odd);
}

/// Integerify of `x`, modulo a power of two.
fn integerify(x: &[u8], log_n: u32) -> u64
    requires some { 64 ≤ length x.now }
    requires low { log_n ≤ 63 }
    ensures { result ≡ integerify x.now % 2 ^ log_n }
{
    let last = &x[x.len() - 64..];
    let low = u64::from_le_bytes([
        last[0], last[1], last[2], last[3], last[4], last[5], last[6], last[7],
    ]);
    low % (1u64 << log_n)
}

/// Writes `x`, and what BlockMix makes of it again and again, one after the other, `n` in all; `x` becomes the next.
fn fill(x: &mut [u8], r: usize, n: usize, v: &mut [u8], even: &mut [u8], odd: &mut [u8])
    requires some { 1 ≤ r }
    requires long { length x.old ≡ 128 * r }
    requires room { length v.old ≡ 128 * r * n }
    requires even { length even.old ≡ 64 * r }
    requires odd { length odd.old ≡ 64 * r }
    ensures last { x.new ≡ mixed_times r n x.old }
    ensures all { v.new ≡ joined (λ k. mixed_times r k x.old) n }
{
    let w = 128 * r;
    for i in 0..n {
        v[w * i..w * i + w].copy_from_slice(x);
        mix_blocks(x, r, even, odd);
    }
}

/// ROMix of `x` in place, with the cost 2 to the power `log_n`; `v` has room for as many results of BlockMix.
fn rom_mix(x: &mut [u8], r: usize, log_n: u32, v: &mut [u8], even: &mut [u8], odd: &mut [u8])
    requires some { 1 ≤ r }
    requires low { log_n ≤ 62 }
    requires long { length x.old ≡ 128 * r }
    requires room { length v.old ≡ 128 * r * 2 ^ log_n }
    requires even { length even.old ≡ 64 * r }
    requires odd { length odd.old ≡ 64 * r }
    ensures { x.new ≡ rom_mix r (2 ^ log_n) x.old }
{
    let n = 1usize << log_n;
    fill(x, r, n, v, even, odd);
    let w = 128 * r;
    for _turn in 0..n {
        let j = integerify(x, log_n) as usize;
        xor_into(x, &v[w * j..w * j + w]);
        mix_blocks(x, r, even, odd);
    }
}

/// ROMix of each of the `p` pieces of `b` in place.
pub(crate) fn mix_pieces(
    b: &mut [u8],
    r: usize,
    log_n: u32,
    p: usize,
    v: &mut [u8],
    even: &mut [u8],
    odd: &mut [u8],
)
    requires some { 1 ≤ r }
    requires low { log_n ≤ 62 }
    requires long { length b.old ≡ 128 * r * p }
    requires room { length v.old ≡ 128 * r * 2 ^ log_n }
    requires even { length even.old ≡ 64 * r }
    requires odd { length odd.old ≡ 64 * r }
    ensures { b.new ≡ joined
        (λ i. rom_mix r (2 ^ log_n) (take (128 * r) (drop (128 * r * i) b.old))) p }
{
    let w = 128 * r;
    for i in 0..p {
        rom_mix(&mut b[w * i..w * i + w], r, log_n, v, even, odd);
    }
}
