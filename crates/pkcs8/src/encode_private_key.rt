//! Key types that private keys are stored from.
ghost use Rattle.std.specs.Prelude.{◌≡◌, ◌≤◌, ◌<◌, ◌⊎◌, List, ℕ, IfOk, IfErr, OnOk};
ghost use Rattle.std.specs.Result.{IsErrOf};
ghost use Rattle.asn1_core.specs.declared.error.Error.TheVariants as below;
ghost use Rattle.octet_core.specs.Draw.{DrawsIvAndSalt, Lacks};
ghost use Rattle.pkcs5.specs.Generation.{recommended};
ghost use Rattle.pkcs5.specs.declared.error.Error.TheVariants as pkcs5;
ghost use Rattle.pkcs8.specs.declared.error.Error.{Error};
ghost use Rattle.pkcs8.specs.declared.error.Error.TheVariants as errors;
ghost use Rattle.pkcs8.specs.Sealing.{IsSealed, RefusesToSealDrawn};
ghost use Rattle.pkcs8.specs.Writing.{RefusesToWrite};

use crate::error::{Error, Result};
use crate::private_key_info::{PrivateKeyInfoOwned, PrivateKeyInfoRef};
use crate::sealing::seal_drawn;
use der_core::{Encode, SecretDocument};
use octet_core::Draw;
use std::alloc::Global;
use std::rt::Files;

/// A key type that a private key can be stored from.
///
/// `text` says which documents a key may be stored as, and `refuses` which refusals it may meet.
pub trait EncodePrivateKey {
    ghost text: { Self → List ℕ → Type 0 };

    ghost refuses: { Self → Error → Type 0 };

    /// The key as a PrivateKeyInfo in DER. The refusals are the key type's own.
    fn to_pkcs8_der(&self, alloc: Global) -> Result<SecretDocument>
        ensures ok { IfOk result (λ d. text self.now d.document.octets) }
        ensures err { IfErr result (λ e. refuses self.now e) };

    /// The key under a password, as an EncryptedPrivateKeyInfo in DER: what `to_pkcs8_der` gives, sealed as
    /// `PrivateKeyInfo::encrypt` does, under the next 32 octets of the draw. Refusals as in `to_pkcs8_der`, when
    /// nothing is drawn; then `EncryptedPrivateKey(Rng)` exactly where the draw fails, `Asn1(Overlength)` only where
    /// the document would have more than 2^32 - 1 octets, and `Memory`.
    fn to_pkcs8_encrypted_der<D: Draw>(
        &self,
        alloc: Global,
        draw: &mut D,
        password: &[u8],
    ) -> Result<SecretDocument>
        ensures ok { IfOk result (λ d. (m : List ℕ) × text self.now m
            × DrawsIvAndSalt (D.left draw.old) (D.left draw.new)
            (λ iv salt. IsSealed (recommended iv salt) password.now m d.document.octets)) }
        ensures err { IfErr result (λ e. refuses self.now e ⊎ ((m : List ℕ) × text self.now m
            × RefusesToSealDrawn (Lacks (D.faults draw.old) (D.faults draw.new)
            (D.left draw.old) 32) password.now m e)) }
        ensures undrawn { IfErr result (λ e. (draw.new ≡ draw.old) ⊎ ((m : List ℕ)
            × text self.now m × RefusesToSealDrawn (Lacks (D.faults draw.old) (D.faults draw.new)
            (D.left draw.old) 32) password.now m e)) }
        ensures count { D.faults draw.old ≤ D.faults draw.new }
        ensures no_fault { OnOk result (D.faults draw.new ≡ D.faults draw.old) }
        ensures last { D.faults draw.old < D.faults draw.new
            → IsErrOf result (errors.EncryptedPrivateKey pkcs5.Rng) }
    {
        let document = self.to_pkcs8_der(alloc)?;
        seal_drawn(alloc, draw, password, document.as_bytes())
    }

    /// Writes the key into this file, as a PrivateKeyInfo in DER. Refusals as in `to_pkcs8_der`, and `Asn1(File)`
    /// where a call on the file failed.
    fn write_pkcs8_der_file<R: Files>(&self, rt: &R, alloc: Global, path: &str) -> Result<()>
        ensures ok { OnOk result ((b : List ℕ) × text self.now b) }
        ensures err { IfErr result (λ e. refuses self.now e ⊎ (e ≡ errors.Asn1 below.File)) }
    {
        let document = self.to_pkcs8_der(alloc)?;
        document.write_der_file(rt, path)?;
        Ok(())
    }
}

impl<'a> EncodePrivateKey for PrivateKeyInfoRef<'a> {
    ghost text = { λ k b. ⟦<PrivateKeyInfoRef<'a> as Encode>⟧.writable k
        × (b ≡ ⟦<PrivateKeyInfoRef<'a> as Encode>⟧.canon k) };

    ghost refuses = { λ k e. RefusesToWrite (⟦<PrivateKeyInfoRef<'a> as Encode>⟧.writable k)
        (⟦<PrivateKeyInfoRef<'a> as Encode>⟧.canon k) e };

    /// The private key as it is written. `Asn1(Malformed)` exactly where it has no text, `Asn1(Overlength)` where
    /// that would have more than 2^32 - 1 octets, and `Memory`.
    fn to_pkcs8_der(&self, alloc: Global) -> Result<SecretDocument> {
        match SecretDocument::encode_msg(alloc, self) {
            Ok(document) => Ok(document),
            Err(e) => Err(Error::from(e)),
        }
    }
}

impl EncodePrivateKey for PrivateKeyInfoOwned {
    ghost text = { λ k b. ⟦<PrivateKeyInfoOwned as Encode>⟧.writable k
        × (b ≡ ⟦<PrivateKeyInfoOwned as Encode>⟧.canon k) };

    ghost refuses = { λ k e. RefusesToWrite (⟦<PrivateKeyInfoOwned as Encode>⟧.writable k)
        (⟦<PrivateKeyInfoOwned as Encode>⟧.canon k) e };

    /// The private key as it is written. Refusals as of a borrowed one.
    fn to_pkcs8_der(&self, alloc: Global) -> Result<SecretDocument> {
        match SecretDocument::encode_msg(alloc, self) {
            Ok(document) => Ok(document),
            Err(e) => Err(Error::from(e)),
        }
    }
}
