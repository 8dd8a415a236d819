//! Key types that private keys are loaded into.
ghost use Rattle.std.specs.Prelude.{◌≡◌, List, ℕ, IfOk, IfErr};
ghost use Rattle.der_core.specs.BitString.{seen_bits};
ghost use Rattle.pkcs8.specs.declared.error.Error.{Error};
ghost use Rattle.pkcs8.specs.declared.error.Error.TheVariants.{Memory};
ghost use Rattle.pkcs8.specs.KeyTypes.{IsLocked, IsNoKey, IsUnlocked, IsUnread, OfKey};
ghost use Rattle.pkcs8.specs.Seen.{AnyPrivateKey, seen_private_key};
ghost use Rattle.spki.specs.Seen.{borrowed_any, owned_any};

use crate::encrypted_private_key_info::EncryptedPrivateKeyInfoRef;
use crate::error::{Error, Result};
use crate::private_key_info::{PrivateKeyInfoOwned, PrivateKeyInfoRef, read_whole};
use der_core::SecretDocument;
use std::alloc::Global;
use std::rt::Files;

/// A key type that a private key can be loaded into.
///
/// `holds` says which keys a private key stands for, and `refuses` which refusals it may meet.
pub trait DecodePrivateKey: Sized {
    ghost holds: { AnyPrivateKey → Self → Type 0 };

    ghost refuses: { AnyPrivateKey → Error → Type 0 };

    /// The key of a private key that was read. The refusals are the key type's own.
    fn from_pkcs8_info(alloc: Global, info: PrivateKeyInfoRef<'_>) -> Result<Self>
        ensures ok { IfOk result (λ k. holds (seen_private_key borrowed_any (λ s. s.octets.now)
            (λ s. seen_bits s.unused_bits s.octets.now) info.entry) k) }
        ensures err { IfErr result (λ e. refuses (seen_private_key borrowed_any (λ s. s.octets.now)
            (λ s. seen_bits s.unused_bits s.octets.now) info.entry) e) };

    /// The key whose PrivateKeyInfo these octets are. `Asn1(Malformed)` exactly where they are none; else the
    /// refusals of `from_pkcs8_info`.
    fn from_pkcs8_der(alloc: Global, bytes: &[u8]) -> Result<Self>
        ensures ok { IfOk result (λ k. OfKey (λ i. holds i k) bytes.now) }
        ensures err { IfErr result (λ e. IsNoKey refuses bytes.now e) }
    {
        match read_whole(bytes) {
            Ok(info) => Self::from_pkcs8_info(alloc, info),
            Err(e) => Err(Error::from(e)),
        }
    }

    /// The key in an EncryptedPrivateKeyInfo under a password. `Asn1` with the first fault of the text, then the
    /// refusals of `EncryptedPrivateKeyInfo::decrypt`, then those of `from_pkcs8_der` of the text that it opens to.
    fn from_pkcs8_encrypted_der(alloc: Global, bytes: &[u8], password: &[u8]) -> Result<Self>
        ensures ok { IfOk result (λ k. (m : List ℕ) × IsUnlocked bytes.now password.now m
            × OfKey (λ i. holds i k) m) }
        ensures err { IfErr result (λ e. IsLocked refuses bytes.now password.now e) }
    {
        match EncryptedPrivateKeyInfoRef::try_from(bytes) {
            Ok(info) => {
                let text = info.decrypt(alloc, password)?;
                Self::from_pkcs8_der(alloc, text.as_bytes())
            }
            // No `?` here: the prover has no rule for it where the value borrows the octets.
            Err(e) => Err(e),
        }
    }

    /// The key in this file, which holds a PrivateKeyInfo in DER. `Asn1(File)` where a call on the file failed,
    /// `Asn1(Overlength)` where it has more than 2^32 - 1 octets; else as `from_pkcs8_der` of its octets, and `Memory`.
    fn read_pkcs8_der_file<R: Files>(rt: &R, alloc: Global, path: &str) -> Result<Self>
        ensures ok { IfOk result (λ k. (b : List ℕ) × OfKey (λ i. holds i k) b) }
        ensures err { IfErr result (λ e. IsUnread refuses e) }
    {
        match SecretDocument::read_der_file(rt, alloc, path) {
            Ok(document) => Self::from_pkcs8_der(alloc, document.as_bytes()),
            Err(e) => Err(Error::from(e)),
        }
    }
}

impl DecodePrivateKey for PrivateKeyInfoOwned {
    ghost holds = { λ i k. seen_private_key owned_any (λ s. s.octets)
        (λ s. seen_bits s.unused_bits s.octets) k ≡ i };

    ghost refuses = { λ i e. e ≡ Memory };

    fn from_pkcs8_info(alloc: Global, info: PrivateKeyInfoRef<'_>) -> Result<PrivateKeyInfoOwned> {
        match info.ref_to_owned(alloc) {
            Ok(key) => Ok(key),
            Err(e) => Err(Error::from(e)),
        }
    }
}
