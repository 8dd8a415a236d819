//! Keys of older forms as PKCS#8 texts.
ghost use Rattle.std.specs.Prelude.{◌≡◌, ◌∷◌, [], IfOk, IfErr, Some, None};
ghost use Rattle.asn1_core.specs.Oid.{oid_octets};
ghost use Rattle.spki.specs.Seen.{borrowed_any};
ghost use Rattle.key_files.specs.Algorithms.{ec_public_key, rsa_encryption};
ghost use Rattle.key_files.specs.Keys.{RefusesToWrap, Wraps, unwritten};

use crate::algorithms::{EC_PUBLIC_KEY, RSA_ENCRYPTION};
use crate::key_refusal::KeyRefusal;
use asn1_core::{ObjectIdentifier, Octets};
use der_core::{AnyRef, Encode, Null, OctetStringRef};
use pkcs8::{PrivateKeyInfoRef, private_keys_are_written};
use spki::AlgorithmIdentifierRef;
use std::alloc::Global;

/// What a text that is not written says: that it is too long, or that there is no memory.
fn unwritten(error: asn1_core::Error) -> KeyRefusal
    ensures { result ≡ unwritten error }
{
    match error {
        asn1_core::Error::Memory => KeyRefusal::Memory,
        _ => KeyRefusal::TooLong,
    }
}

/// The PKCS#8 text of a key with these octets, whose algorithm has this identifier and these parameters.
fn wrapped(
    alloc: Global,
    oid: ObjectIdentifier,
    parameters: AnyRef<'_>,
    octets: &[u8],
) -> Result<Octets, KeyRefusal>
    ensures ok { IfOk result (Wraps (oid_octets oid) (borrowed_any parameters.entry) octets.now) }
    ensures err { IfErr result
        (RefusesToWrap (oid_octets oid) (borrowed_any parameters.entry) octets.now) }
{
    let Ok(private_key) = OctetStringRef::new(octets) else {
        return Err(KeyRefusal::TooLong);
    };
    let algorithm = AlgorithmIdentifierRef {
        oid,
        parameters: Some(parameters),
    };
    let key = PrivateKeyInfoRef::new(algorithm, private_key);
    private_keys_are_written(&key);
    match key.to_der(alloc) {
        Ok(text) => Ok(text),
        Err(error) => Err(unwritten(error)),
    }
}

/// An RSAPrivateKey as PKCS#8: rsaEncryption with NULL (RFC 8017 appendix A.1).
pub(crate) fn wrapped_rsa(alloc: Global, octets: &[u8]) -> Result<Octets, KeyRefusal>
    ensures ok { IfOk result (Wraps rsa_encryption (5, []) octets.now) }
    ensures err { IfErr result (RefusesToWrap rsa_encryption (5, []) octets.now) }
{
    let oid = ObjectIdentifier::constant(&RSA_ENCRYPTION);
    wrapped(alloc, oid, AnyRef::from(Null), octets)
}

/// An ECPrivateKey as PKCS#8: id-ecPublicKey with the parameters of its curve (RFC 5915 section 1).
pub(crate) fn wrapped_ec(
    alloc: Global,
    parameters: AnyRef<'_>,
    octets: &[u8],
) -> Result<Octets, KeyRefusal>
    ensures ok { IfOk result (Wraps ec_public_key (borrowed_any parameters.entry) octets.now) }
    ensures err { IfErr result
        (RefusesToWrap ec_public_key (borrowed_any parameters.entry) octets.now) }
{
    let oid = ObjectIdentifier::constant(&EC_PUBLIC_KEY);
    wrapped(alloc, oid, parameters, octets)
}
