//! The password of a store.
ghost use Rattle.std.specs.Prelude.{◌≡◌, IfOk, IfErr};
ghost use Rattle.pkcs12_kdf.specs.Password.{bmp_password};

use crate::error::Error;
use asn1_core::Octets;
use pkcs12_kdf::utf16_password;
use std::alloc::Global;

/// A password as the derivation of a store takes it (RFC 7292 appendix B.1): its UTF-16, the higher octet of each unit first, and
/// two zero octets after it, also for the empty password. The only refusal is `Memory`.
pub fn bmp_string(alloc: Global, s: &str) -> Result<Octets, Error>
    ensures ok { IfOk result (λ q. q ≡ bmp_password s.now) }
    ensures err { IfErr result (λ e. e ≡ Error.Memory) }
{
    Ok(utf16_password(alloc, s)?)
}
