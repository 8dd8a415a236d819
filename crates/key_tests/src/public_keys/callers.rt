//! The caller of README.md.
ghost use Rattle.std.specs.Prelude.{◌≡◌, IfOk};
ghost use Rattle.spki.specs.AlgorithmOids.{ParametersOid};
ghost use Rattle.spki.specs.Seen.{AnyPublicKey, IsPublicKey};

use super::{EC, PUB};
use crate::values::oid;
use asn1_core::ObjectIdentifier;
use spki::{Error, Result, SubjectPublicKeyInfoRef};

/// The named curve of a public key whose algorithm is this one (RFC 5480 section 2.1.1).
fn named_curve(ec_public_key: ObjectIdentifier, text: &[u8]) -> Result<ObjectIdentifier>
    ensures { IfOk result (λ c. (k : AnyPublicKey) × IsPublicKey text.now k
        × (k.algorithm.oid ≡ ec_public_key) × ParametersOid k.algorithm.parameters (Ok c)) }
{
    let key = SubjectPublicKeyInfoRef::try_from(text)?;
    key.algorithm.assert_algorithm_oid(ec_public_key)?;
    let curve = key.algorithm.parameters_oid()?;
    Ok(curve)
}

#[test]
fn the_curve_of_a_key(rt: HostRuntime) {
    let ec = oid(&rt, "1.2.840.10045.2.1");
    let unknown = Error::OidUnknown {
        oid: oid(&rt, "1.3.101.112"),
    };
    assert!(rt;
        named_curve(ec, EC) == Ok(oid(&rt, "1.2.840.10045.3.1.7"))
            && named_curve(ec, PUB) == Err(unknown)
    );
}
