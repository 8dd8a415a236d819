//! Key types that public keys are loaded into.
ghost use Rattle.std.specs.Prelude.{◌≡◌, ◌⊎◌, List, ℕ, IfOk, IfErr};
ghost use Rattle.asn1_core.specs.declared.error.Error.TheVariants as below;
ghost use Rattle.der_core.specs.BitString.{seen_bits};
ghost use Rattle.spki.specs.declared.error.Error.{Error};
ghost use Rattle.spki.specs.declared.error.Error.TheVariants.{Asn1, Memory};
ghost use Rattle.asn1_core.specs.Gives.{IsNone};
ghost use Rattle.spki.specs.KeyFile.{IsUnread};
ghost use Rattle.spki.specs.Seen.{AnyPublicKey, borrowed_any, owned_any, seen_public_key, IsPublicKey};

use crate::error::{Error, Result};
use crate::subject_public_key_info::{
    SubjectPublicKeyInfoOwned, SubjectPublicKeyInfoRef, read_whole,
};
use der_core::Document;
use std::alloc::Global;
use std::rt::Files;

/// A key type that a public key can be loaded into.
///
/// `holds` says which keys a public key stands for, and `refuses` which refusals it may meet.
pub trait DecodePublicKey: Sized {
    ghost holds: { AnyPublicKey → Self → Type 0 };

    ghost refuses: { AnyPublicKey → Error → Type 0 };

    /// The key of a public key that was read. The refusals are the key type's own.
    fn from_spki(alloc: Global, spki: SubjectPublicKeyInfoRef<'_>) -> Result<Self>
        ensures ok { IfOk result
            (λ k. holds
            (seen_public_key borrowed_any
            (λ s. seen_bits s.unused_bits s.octets.now) spki.entry) k) }
        ensures err { IfErr result
            (λ e. refuses
            (seen_public_key borrowed_any
            (λ s. seen_bits s.unused_bits s.octets.now) spki.entry) e) };

    /// The key whose SubjectPublicKeyInfo these octets are. `Asn1(Malformed)` exactly where they are none; else the refusals of
    /// `from_spki`.
    fn from_public_key_der(alloc: Global, bytes: &[u8]) -> Result<Self>
        ensures ok { IfOk result (λ k. (i : AnyPublicKey) × IsPublicKey bytes.now i × holds i k) }
        ensures err { IfErr result (λ e. ((e ≡ Asn1 below.Malformed) × IsNone IsPublicKey bytes.now)
            ⊎ ((i : AnyPublicKey) × IsPublicKey bytes.now i × refuses i e)) }
    {
        match read_whole(bytes) {
            Ok(spki) => Self::from_spki(alloc, spki),
            Err(e) => Err(Error::from(e)),
        }
    }

    /// The key in this file, which holds a SubjectPublicKeyInfo in DER. `Asn1(File)` where a call on the file failed,
    /// `Asn1(Overlength)` where it has more than 2^32 - 1 octets; else as `from_public_key_der` of its octets, and `Memory`.
    fn read_public_key_der_file<R: Files>(rt: &R, alloc: Global, path: &str) -> Result<Self>
        ensures ok { IfOk result (λ k. (b : List ℕ) × (i : AnyPublicKey) × IsPublicKey b i
            × holds i k) }
        ensures err { IfErr result (λ e. IsUnread refuses e) }
    {
        match Document::read_der_file(rt, alloc, path) {
            Ok(document) => Self::from_public_key_der(alloc, document.as_bytes()),
            Err(e) => Err(Error::from(e)),
        }
    }
}

impl DecodePublicKey for SubjectPublicKeyInfoOwned {
    ghost holds = { λ i k. seen_public_key owned_any
        (λ s. seen_bits s.unused_bits s.octets) k ≡ i };

    ghost refuses = { λ i e. e ≡ Memory };

    fn from_spki(
        alloc: Global,
        spki: SubjectPublicKeyInfoRef<'_>,
    ) -> Result<SubjectPublicKeyInfoOwned> {
        match spki.ref_to_owned(alloc) {
            Ok(key) => Ok(key),
            Err(e) => Err(Error::from(e)),
        }
    }
}
