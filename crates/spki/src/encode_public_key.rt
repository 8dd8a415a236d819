//! Key types that public keys are stored from.
ghost use Rattle.std.specs.Prelude.{◌≡◌, ◌⊎◌, List, ℕ, IfOk, IfErr, OnOk};
ghost use Rattle.asn1_core.specs.declared.error.Error.TheVariants as below;
ghost use Rattle.spki.specs.declared.error.Error.{Error};
ghost use Rattle.spki.specs.declared.error.Error.TheVariants.{Asn1};

use crate::error::{Error, Result};
use der_core::Document;
use std::alloc::Global;
use std::rt::Files;

/// A key type that a public key can be stored from.
///
/// `text` says which documents a key may be stored as, and `refuses` which refusals it may meet.
pub trait EncodePublicKey {
    ghost text: { Self → List ℕ → Type 0 };

    ghost refuses: { Self → Error → Type 0 };

    /// The key as a SubjectPublicKeyInfo in DER. The refusals are the key type's own.
    fn to_public_key_der(&self, alloc: Global) -> Result<Document>
        ensures ok { IfOk result (λ d. text self.now d.octets) }
        ensures err { IfErr result (λ e. refuses self.now e) };

    /// Writes the key into this file, as a SubjectPublicKeyInfo in DER. Refusals as in `to_public_key_der`, and `Asn1(File)` where a
    /// call on the file failed.
    fn write_public_key_der_file<R: Files>(&self, rt: &R, alloc: Global, path: &str) -> Result<()>
        ensures ok { OnOk result ((b : List ℕ) × text self.now b) }
        ensures err { IfErr result (λ e. refuses self.now e ⊎ (e ≡ Asn1 below.File)) }
    {
        let document = self.to_public_key_der(alloc)?;
        document.write_der_file(rt, path)?;
        Ok(())
    }
}
