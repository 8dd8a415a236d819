//! scrypt (RFC 7914 section 6).

ghost use Rattle.std.specs.Prelude.{◌≡◌, ◌↔◌, ◌-◌, ◌*◌, ◌^◌, ◌<◌, ◌≤◌, ◌⊎◌, length, OnOk, OnErr, Err};
ghost use Rattle.scrypt_core.specs.Scrypt.{scrypt};
ghost use Rattle.scrypt_core.specs.declared.scrypt_error.ScryptError.{ScryptError};

use crate::params::Params;
use crate::scrypt_error::ScryptError;
use crate::turning::mix_pieces;
use mac_modes::Sha256;
use pbkdf2::pbkdf2_hmac;
use std::alloc::Global;

/// As many octets as PBKDF2 has blocks for: 32 * (2^32 - 1).
const MAX_OUTPUT: usize = 137_438_953_440;

/// The octets of the blocks that ROMix keeps.
fn memory_len(r: u32, log_n: u8) -> usize
    requires turns { log_n ≤ 55 }
    requires memory { 128 * r * 2 ^ log_n < 2 ^ 63 }
    ensures { result ≡ 128 * r * 2 ^ log_n }
{
    128 * r as usize * (1usize << log_n)
}

/// Fills `out` with a key that is derived from a password and a salt under these costs. It takes 128 * r * 2^log_n
/// octets of memory, and at most 2 * 128 * r * p beside them.
///
/// `InvalidOutputLen` exactly where `out` is empty or has more than 32 * (2^32 - 1) octets; `Memory` where there is not
/// so much. After a refusal `out` is unchanged.
pub fn scrypt(
    alloc: Global,
    password: &[u8],
    salt: &[u8],
    params: &Params,
    out: &mut [u8],
) -> Result<(), ScryptError>
    ensures key { OnOk result (out.new
        ≡ scrypt password.now salt.now (2 ^ params.now.log_n) params.now.r params.now.p
        (length out.old)) }
    ensures length { (result ≡ Err ScryptError.InvalidOutputLen)
        ↔ ((length out.old ≡ 0) ⊎ (32 * (2 ^ 32 - 1) < length out.old)) }
    ensures refused { OnErr result (out.new ≡ out.old) }
{
    if out.is_empty() || out.len() > MAX_OUTPUT {
        return Err(ScryptError::InvalidOutputLen);
    }
    let r = params.r() as usize;
    let p = params.p() as usize;
    let mut pieces = vec![in alloc; 0u8; 128 * r * p]?;
    let mut blocks = vec![in alloc; 0u8; memory_len(params.r(), params.log_n())]?;
    let mut even = vec![in alloc; 0u8; 64 * r]?;
    let mut odd = vec![in alloc; 0u8; 64 * r]?;
    pbkdf2_hmac::<Sha256>(password, salt, 1, pieces.as_mut_slice());
    mix_pieces(
        pieces.as_mut_slice(),
        r,
        params.log_n() as u32,
        p,
        blocks.as_mut_slice(),
        even.as_mut_slice(),
        odd.as_mut_slice(),
    );
    pbkdf2_hmac::<Sha256>(password, pieces.as_slice(), 1, out);
    Ok(())
}
