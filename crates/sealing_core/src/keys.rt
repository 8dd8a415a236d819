//! The keys of the parts.
ghost use Rattle.std.specs.Prelude.{◌≡◌, length, map, IfOk};
ghost use Rattle.pkcs5.specs.Opening.{sha256_key};

use crate::drawn::IvAndSalt;
use asn1_core::Items;
use pkcs5::pbes2::{EncryptionKey, Salt};
use std::alloc::{AllocError, Global};

/// The salts.
fn salts_of(alloc: Global, drawn: &[IvAndSalt]) -> Result<Items<Salt>, AllocError>
    ensures { IfOk result (λ salts. salts ≡ map (λ d. d.salt) drawn.now) }
{
    let mut salts = Items::new(alloc);
    for one in drawn {
        salts.push(one.salt)?;
    }
    Ok(salts)
}

/// The key of 32 octets of each part: PBKDF2 with HMAC-SHA-256 (RFC 8018 section 5.2) of the password, the salt that was drawn for the
/// part, and this number of rounds. Four keys are derived at once, in about the time of two. The only error is out of memory.
pub fn derive_keys(
    alloc: Global,
    password: &[u8],
    rounds: u32,
    drawn: &[IvAndSalt],
) -> Result<Items<EncryptionKey>, AllocError>
    ensures { IfOk result
        (λ keys. keys ≡ map (λ d. sha256_key rounds password.now d.salt) drawn.now) }
{
    let salts = salts_of(alloc, drawn)?;
    let salts = salts.as_slice();
    match EncryptionKey::derive_each_pbkdf2_sha256(alloc, password, salts, rounds) {
        Ok(keys) => Ok(keys),
        Err(_) => Err(AllocError),
    }
}
