//! What the calls on an algorithm answer.
use super::{EC, P_256_ALGORITHM, read};
use crate::values::oid;
use asn1_core::Error::Malformed;
use asn1_core::ObjectIdentifier;
use der_core::{AnyRef, Null};
use spki::{
    AlgorithmIdentifier, AlgorithmIdentifierOwned, AlgorithmIdentifierRef,
    AlgorithmIdentifierWithOid, AsAlgorithmIdentifierRef, Error, Result,
};
use std::alloc::Global;
use std::process::Abort;

type Algorithm<'a> = AlgorithmIdentifierRef<'a>;

type Oids = (ObjectIdentifier, Option<ObjectIdentifier>);

/// Whether `oids` gives this result.
fn oids_are(
    algorithm: &Algorithm<'_>,
    answer: std::result::Result<Oids, asn1_core::Error>,
) -> bool {
    algorithm.oids() == answer
}

/// Whether `assert_algorithm_oid` gives this result.
fn asserted_algorithm_is(
    algorithm: &Algorithm<'_>,
    expected: ObjectIdentifier,
    answer: Result<ObjectIdentifier>,
) -> bool {
    algorithm.assert_algorithm_oid(expected) == answer
}

/// Whether `assert_parameters_oid` gives this result.
fn asserted_parameters_are(
    algorithm: &Algorithm<'_>,
    expected: ObjectIdentifier,
    answer: Result<ObjectIdentifier>,
) -> bool {
    algorithm.assert_parameters_oid(expected) == answer
}

/// Whether `assert_oids` gives this result.
fn asserted_oids_are(
    algorithm: &Algorithm<'_>,
    oid: ObjectIdentifier,
    parameters: ObjectIdentifier,
    answer: Result<()>,
) -> bool {
    algorithm.assert_oids(oid, parameters) == answer
}

/// Whether `parameters_oid` gives this result.
fn parameters_oid_is(algorithm: &Algorithm<'_>, answer: Result<ObjectIdentifier>) -> bool {
    algorithm.parameters_oid() == answer
}

/// Whether `parameters_any` gives this result.
fn any_parameters_are(algorithm: &Algorithm<'_>, answer: Result<AnyRef<'_>>) -> bool {
    algorithm.parameters_any() == answer
}

#[test]
fn the_algorithm_of_a_curve(rt: HostRuntime) {
    let algorithm = read(&rt, EC).algorithm;
    let ec = oid(&rt, "1.2.840.10045.2.1");
    let curve = oid(&rt, "1.2.840.10045.3.1.7");
    assert!(rt;
        oids_are(&algorithm, Ok((ec, Some(curve))))
            && asserted_algorithm_is(&algorithm, ec, Ok(ec))
            && asserted_parameters_are(&algorithm, curve, Ok(curve))
            && asserted_oids_are(&algorithm, ec, curve, Ok(()))
            && parameters_oid_is(&algorithm, Ok(curve))
            && any_parameters_are(&algorithm, Ok(AnyRef::from(&curve)))
    );
    let found_ec = Error::OidUnknown { oid: ec };
    let found_curve = Error::OidUnknown { oid: curve };
    assert!(rt;
        asserted_algorithm_is(&algorithm, curve, Err(found_ec))
            && asserted_parameters_are(&algorithm, ec, Err(found_curve))
            && asserted_oids_are(&algorithm, curve, ec, Err(found_ec))
            && asserted_oids_are(&algorithm, ec, ec, Err(found_curve))
    );
}

#[test]
fn parameters_that_are_no_identifier(rt: HostRuntime) {
    let rsa = oid(&rt, "1.2.840.113549.1.1.1");
    let null: Algorithm<'_> = AlgorithmIdentifier {
        oid: rsa,
        parameters: Some(AnyRef::from(Null)),
    };
    assert!(rt;
        oids_are(&null, Ok((rsa, None)))
            && any_parameters_are(&null, Ok(AnyRef::from(Null)))
            && parameters_oid_is(&null, Err(Error::Asn1(Malformed)))
            && asserted_parameters_are(&null, rsa, Err(Error::Asn1(Malformed)))
    );
    let number = Algorithm::try_from(&[0x30, 6, 6, 1, 0x2a, 2, 1, 5][..]);
    let number = number.expect(&rt, "an algorithm");
    assert!(rt;
        oids_are(&number, Err(Malformed)) && parameters_oid_is(&number, Err(Error::Asn1(Malformed)))
    );
}

#[test]
fn no_parameters(rt: HostRuntime) {
    let rsa = oid(&rt, "1.2.840.113549.1.1.1");
    let none: Algorithm<'_> = AlgorithmIdentifier {
        oid: rsa,
        parameters: None,
    };
    let missing = Error::AlgorithmParametersMissing;
    assert!(rt;
        oids_are(&none, Ok((rsa, None)))
            && any_parameters_are(&none, Err(missing))
            && parameters_oid_is(&none, Err(missing))
            && asserted_oids_are(&none, rsa, rsa, Err(missing))
    );
    let curve: AlgorithmIdentifierWithOid = AlgorithmIdentifier {
        oid: rsa,
        parameters: Some(rsa),
    };
    assert!(rt; curve.assert_algorithm_oid(rsa) == Ok(rsa));
}

/// The algorithm of a text, in memory of its own.
pub fn owned_algorithm(rt: &impl Abort, alloc: Global, text: &[u8]) -> AlgorithmIdentifierOwned {
    AlgorithmIdentifierOwned::from_der(alloc, text).expect(rt, "an algorithm")
}

/// Whether an owned algorithm is this borrowed one.
fn is_borrowed(owned: &AlgorithmIdentifierOwned, algorithm: &Algorithm<'_>) -> bool {
    owned.owned_to_ref() == *algorithm && owned.as_algo_ref() == algorithm.as_algo_ref()
}

/// Whether an owned algorithm is what is made of this borrowed one.
fn is_made_owned(
    rt: &impl Abort,
    alloc: Global,
    owned: &AlgorithmIdentifierOwned,
    algorithm: &Algorithm<'_>,
) -> bool {
    algorithm.ref_to_owned(alloc).expect(rt, "memory") == *owned
}

/// Whether a copy of an owned algorithm is equal to it.
fn is_copied(rt: &impl Abort, alloc: Global, owned: &AlgorithmIdentifierOwned) -> bool {
    owned.try_clone(alloc).expect(rt, "memory") == *owned
}

#[test]
fn an_owned_algorithm_is_what_was_borrowed(rt: HostRuntime) {
    let alloc = rt.alloc();
    let algorithm = read(&rt, EC).algorithm;
    let owned = owned_algorithm(&rt, alloc, P_256_ALGORITHM);
    assert!(rt;
        is_borrowed(&owned, &algorithm)
            && is_made_owned(&rt, alloc, &owned, &algorithm)
            && is_copied(&rt, alloc, &owned)
    );
}
