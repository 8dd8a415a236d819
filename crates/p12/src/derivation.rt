//! The key derivation of stores (RFC 7292 appendix B.2).
ghost use Rattle.std.specs.Prelude.{◌≡◌, ◌<◌, ◌≤◌, ◌^◌, length, IfOk, IfErr};
ghost use Rattle.pkcs12_kdf.specs.Derivation.{derive12};
ghost use Rattle.sha1.specs.Sha1.{sha1};

use crate::error::Error;
use asn1_core::Octets;
use mac_modes::HashFn;
use pkcs12_kdf::Derivation;
use sha1::Sha1;
use std::alloc::Global;

/// `size` octets under a password and a salt, in `iterations` rounds over a hash function whose blocks have 64 octets (RFC 7292
/// appendix B.2). The password comes as `bmp_string` gives it; `id` is 1 for a key, 2 for an initial value and 3 for the key of
/// a MAC. The only refusal is `Memory`.
///
/// Caller: `H::BLOCK` is 64, `iterations` at least 1, `size` at most 2^32, password and salt of fewer than 2^59 octets each.
pub fn pbepkcs12<H: HashFn>(
    alloc: Global,
    pass: &[u8],
    salt: &[u8],
    iterations: u64,
    id: u8,
    size: u64,
) -> Result<Octets, Error>
    requires block { H.BLOCK ≡ 64 }
    requires iterations { 1 ≤ iterations }
    requires size { size ≤ 2 ^ 32 }
    requires pass { length pass.now < 2 ^ 59 }
    requires salt { length salt.now < 2 ^ 59 }
    ensures ok { IfOk result
        (λ key. key ≡ derive12 H.digest H.OUTPUT pass.now salt.now iterations id size) }
    ensures err { IfErr result (λ e. e ≡ Error.Memory) }
{
    let derivation = Derivation {
        password: pass,
        salt,
        rounds: iterations,
    };
    Ok(derivation.key::<H>(alloc, id, size as usize)?)
}

/// `pbepkcs12` with SHA-1: `size` octets in `iterations` rounds.
///
/// Caller: `iterations` at least 1, `size` at most 2^32, password and salt of fewer than 2^59 octets each.
pub fn pbepkcs12sha1(
    alloc: Global,
    pass: &[u8],
    salt: &[u8],
    iterations: u64,
    id: u8,
    size: u64,
) -> Result<Octets, Error>
    requires iterations { 1 ≤ iterations }
    requires size { size ≤ 2 ^ 32 }
    requires pass { length pass.now < 2 ^ 59 }
    requires salt { length salt.now < 2 ^ 59 }
    ensures ok { IfOk result (λ key. key ≡ derive12 sha1 20 pass.now salt.now iterations id size) }
    ensures err { IfErr result (λ e. e ≡ Error.Memory) }
{
    pbepkcs12::<Sha1>(alloc, pass, salt, iterations, id, size)
}
