//! Types that know the algorithm of their keys or signatures.
ghost use Rattle.std.specs.Prelude.{◌≡◌, ℕ, List, IfOk, IfErr};
ghost use Rattle.asn1_core.specs.declared.error.Error.{Error as Below};
ghost use Rattle.der_core.specs.BitString.{seen_bits};
ghost use Rattle.spki.specs.declared.algorithm.AlgorithmIdentifier.{AlgorithmIdentifier};
ghost use Rattle.spki.specs.declared.error.Error.{Error};
ghost use Rattle.spki.specs.Associated.{as_any, IsUnwritten};
ghost use Rattle.spki.specs.Seen.{AnyAlgorithm, owned_algorithm};

use crate::algorithm::{AlgorithmIdentifier, AlgorithmIdentifierOwned};
use crate::error::{Error, Result};
use der_core::{Any, BitString, EncodeValue, Tagged};
use std::alloc::Global;

/// The algorithm with its parameters as any element, in memory of their own. `Asn1(Malformed)` exactly where the parameters have no
/// text, `Asn1(Overlength)` only where that would have more than 2^32 - 1 octets, and `Memory`.
fn with_any<Params: Tagged + EncodeValue>(
    alloc: Global,
    source: &AlgorithmIdentifier<Params>,
) -> Result<AlgorithmIdentifierOwned>
    ensures ok { IfOk result (λ a. owned_algorithm a
        ≡ as_any Params.tag_of Params.content source.now) }
    ensures err { IfErr result
        (λ e. IsUnwritten Params.tag_of Params.content Params.writable source.now e) }
{
    let parameters = match &source.parameters {
        Some(parameters) => match Any::encode_from(alloc, parameters) {
            Ok(any) => Some(any),
            Err(e) => return Err(Error::from(e)),
        },
        None => None,
    };
    Ok(AlgorithmIdentifier {
        oid: source.oid,
        parameters,
    })
}

/// A type whose keys all have one algorithm.
pub trait AssociatedAlgorithmIdentifier {
    /// The type of the algorithm's parameters.
    type Params: Tagged + EncodeValue + Drop;

    ghost ALGORITHM_IDENTIFIER: { AlgorithmIdentifier Self.Params };

    /// The algorithm.
    const ALGORITHM_IDENTIFIER: AlgorithmIdentifier<Self::Params>;
}

/// A key that knows its algorithm.
///
/// `algorithm` is that algorithm, and `refuses` says which refusals it may meet.
pub trait DynAssociatedAlgorithmIdentifier {
    ghost algorithm: { Self → AnyAlgorithm };

    ghost refuses: { Self → Error → Type 0 };

    /// The algorithm of the key.
    fn algorithm_identifier(&self, alloc: Global) -> Result<AlgorithmIdentifierOwned>
        ensures ok { IfOk result (λ a. owned_algorithm a ≡ algorithm self.now) }
        ensures err { IfErr result (λ e. refuses self.now e) };
}

impl<T: AssociatedAlgorithmIdentifier> DynAssociatedAlgorithmIdentifier for T {
    ghost algorithm = { λ _. as_any T.Params.tag_of T.Params.content T.ALGORITHM_IDENTIFIER };

    ghost refuses = { λ _ e. IsUnwritten T.Params.tag_of T.Params.content T.Params.writable
        T.ALGORITHM_IDENTIFIER e };

    fn algorithm_identifier(&self, alloc: Global) -> Result<AlgorithmIdentifierOwned> {
        with_any(alloc, &T::ALGORITHM_IDENTIFIER)
    }
}

/// A type whose signatures all have one algorithm.
pub trait SignatureAlgorithmIdentifier {
    /// The type of the algorithm's parameters.
    type Params: Tagged + EncodeValue + Drop;

    ghost SIGNATURE_ALGORITHM_IDENTIFIER: { AlgorithmIdentifier Self.Params };

    /// The algorithm.
    const SIGNATURE_ALGORITHM_IDENTIFIER: AlgorithmIdentifier<Self::Params>;
}

/// A key that knows the algorithm of its signatures.
///
/// `signature_algorithm` is that algorithm, and `signature_refuses` says which refusals it may meet.
pub trait DynSignatureAlgorithmIdentifier {
    ghost signature_algorithm: { Self → AnyAlgorithm };

    ghost signature_refuses: { Self → Error → Type 0 };

    /// The algorithm of the key's signatures.
    fn signature_algorithm_identifier(&self, alloc: Global) -> Result<AlgorithmIdentifierOwned>
        ensures ok { IfOk result (λ a. owned_algorithm a ≡ signature_algorithm self.now) }
        ensures err { IfErr result (λ e. signature_refuses self.now e) };
}

impl<T: SignatureAlgorithmIdentifier> DynSignatureAlgorithmIdentifier for T {
    ghost signature_algorithm = { λ _.
        as_any T.Params.tag_of T.Params.content T.SIGNATURE_ALGORITHM_IDENTIFIER };

    ghost signature_refuses = { λ _ e.
        IsUnwritten T.Params.tag_of T.Params.content T.Params.writable
        T.SIGNATURE_ALGORITHM_IDENTIFIER e };

    fn signature_algorithm_identifier(&self, alloc: Global) -> Result<AlgorithmIdentifierOwned> {
        with_any(alloc, &T::SIGNATURE_ALGORITHM_IDENTIFIER)
    }
}

/// A signature that can be in a BIT STRING.
///
/// `bits` are its number of unused bits and its octets, and `unwritten` says which refusals it may meet.
pub trait SignatureBitStringEncoding {
    ghost bits: { Self → ℕ × List ℕ };

    ghost unwritten: { Self → Below → Type 0 };

    /// The signature as a BIT STRING.
    fn to_bitstring(&self, alloc: Global) -> std::result::Result<BitString, asn1_core::Error>
        ensures ok { IfOk result (λ s. seen_bits s.unused_bits s.octets ≡ bits self.now) }
        ensures err { IfErr result (λ e. unwritten self.now e) };
}
