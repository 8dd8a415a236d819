//! Texts that are refused, and how refusals are printed.
use crate::values::{is_printed, octets, oid};
use spki::{Error, SubjectPublicKeyInfoOwned, SubjectPublicKeyInfoRef};
use std::alloc::Global;
use std::process::Abort;

/// Texts of no public key. From the third on each differs from `SHORT` in what is above it.
static OF_NO_KEY: [&str; 12] = [
    "",
    "3000",
    // no key
    "3007300506032b6570",
    // other tags: of the whole, of the algorithm, of its identifier, of the key
    "310d300506032b6570030400010203",
    "300d310506032b6570030400010203",
    "300d300502032b6570030400010203",
    "300d300506032b6570040400010203",
    // eight unused bits
    "300d300506032b6570030408010203",
    // octets too many: after the whole, after the key, after the parameters
    "300d300506032b657003040001020300",
    "300f300506032b65700304000102030500",
    "3011300906032b657005000500030400010203",
    // a length in more octets than it needs
    "30810d300506032b6570030400010203",
];

fn is_malformed(rt: &impl Abort, alloc: Global, digits: &str) -> bool {
    let text = octets(rt, alloc, digits);
    let malformed = Some(Error::Asn1(asn1_core::Error::Malformed));
    SubjectPublicKeyInfoRef::try_from(text.as_slice()).err() == malformed
        && SubjectPublicKeyInfoOwned::from_der(alloc, text.as_slice()).err() == malformed
}

#[test]
fn texts_of_no_public_key(rt: HostRuntime) {
    let alloc = rt.alloc();
    for digits in &OF_NO_KEY {
        assert!(rt; is_malformed(&rt, alloc, digits), "{digits}");
    }
}

#[test]
fn texts_of_refusals(rt: HostRuntime) {
    let alloc = rt.alloc();
    let unknown = Error::OidUnknown {
        oid: oid(&rt, "1.3.101.112"),
    };
    let text = "unknown/unsupported algorithm OID: 1.3.101.112";
    assert!(rt;
        is_printed(
            &rt,
            alloc,
            &Error::AlgorithmParametersMissing,
            "AlgorithmIdentifier parameters missing"
        ) && is_printed(
            &rt,
            alloc,
            &Error::Asn1(asn1_core::Error::Malformed),
            "ASN.1 error: malformed DER"
        ) && is_printed(
            &rt,
            alloc,
            &Error::KeyMalformed,
            "SPKI cryptographic key data malformed"
        ) && is_printed(&rt, alloc, &Error::Memory, "out of memory")
            && is_printed(&rt, alloc, &unknown, text)
    );
}

#[test]
fn refusals_keep_their_cause(rt: HostRuntime) {
    let oid = oid(&rt, "1.3.101.112");
    assert!(rt;
        Error::from(asn1_core::Error::Memory) == Error::Memory
            && Error::from(asn1_core::Error::OidUnknown { oid }) == Error::OidUnknown { oid }
    );
}
