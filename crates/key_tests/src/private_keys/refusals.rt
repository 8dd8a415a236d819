//! Texts and numbers that are refused, and how refusals are printed.
use crate::values::{is_printed, is_text, octets, oid};
use der_core::Decode;
use pkcs8::{Error, KeyError, PrivateKeyInfoRef, Version};
use std::alloc::Global;
use std::process::Abort;

const MALFORMED: asn1_core::Error = asn1_core::Error::Malformed;

fn is_malformed(rt: &impl Abort, alloc: Global, digits: &str) -> bool {
    let text = octets(rt, alloc, digits);
    PrivateKeyInfoRef::try_from(text.as_slice()).err() == Some(Error::Asn1(MALFORMED))
}

/// A private key of Ed25519.
const KEY: &[u8] =
    b"\x30\x2e\x02\x01\x00\x30\x05\x06\x03\x2b\x65\x70\x04\x22\x04\x20\x17\xed\x9c\x73\
    \xe9\xdb\x64\x9e\xc1\x89\xa6\x12\x83\x1c\x5f\xc5\x70\x23\x82\x07\xc1\xaa\x9d\xfb\
    \xd2\xc5\x3e\x3f\xf5\xe5\xea\x85";

/// The same with an octet more.
const LONGER_KEY: &[u8] =
    b"\x30\x2e\x02\x01\x00\x30\x05\x06\x03\x2b\x65\x70\x04\x22\x04\x20\x17\xed\x9c\x73\
    \xe9\xdb\x64\x9e\xc1\x89\xa6\x12\x83\x1c\x5f\xc5\x70\x23\x82\x07\xc1\xaa\x9d\xfb\
    \xd2\xc5\x3e\x3f\xf5\xe5\xea\x85\x00";

#[test]
fn no_front_of_a_private_key_is_one_nor_a_key_with_an_octet_more(rt: HostRuntime) {
    let malformed = Some(Error::Asn1(MALFORMED));
    for len in 0..KEY.len() {
        assert!(rt; PrivateKeyInfoRef::try_from(&KEY[..len]).err() == malformed);
    }
    assert!(rt; PrivateKeyInfoRef::try_from(KEY).is_ok());
    assert!(rt; PrivateKeyInfoRef::try_from(LONGER_KEY).err() == malformed);
}

/// Texts of no private key. From the third on each differs from a text of `SPELLINGS` in what is above it.
static OF_NO_KEY: [&str; 31] = [
    "",
    "3000",
    // no key
    "300a020100300506032b6570",
    // a version of 2, of 256 and of -1
    "300c020102300506032b65700400",
    "300d02020100300506032b65700400",
    "300c0201ff300506032b65700400",
    // version 1 without a public key, and version 0 with one
    "300c020101300506032b65700400",
    "300f020100300506032b65700400810100",
    // other tags: of the whole, of the version, of the algorithm, of the key
    "310c020100300506032b65700400",
    "300c030100300506032b65700400",
    "300c020100310506032b65700400",
    "300c020100300506032b65700300",
    // a public key in an element of its own, constructed, of eight unused bits, without octets
    "3011020101300506032b65700400a103030100",
    "300f020101300506032b65700400a10100",
    "300f020101300506032b65700400810108",
    "300e020101300506032b657004008100",
    // attributes in a primitive element, twice, after the public key
    "300e020100300506032b657004008000",
    "3010020100300506032b65700400a000a000",
    "3011020101300506032b65700400810100a000",
    // the public key twice, after a further field
    "3012020101300506032b65700400810100810100",
    "3011020101300506032b657004008200810100",
    // a further field of the number 31, of the number 1 and constructed, of two other classes
    "300f020100300506032b657004009f1f00",
    "300e020100300506032b65700400a100",
    "300e020100300506032b657004003000",
    "300e020100300506032b65700400c200",
    // a further field that is cut off in its value and in its header, and octets after the whole
    "300e020100300506032b657004008201",
    "300d020100300506032b6570040082",
    "300c020100300506032b6570040000",
    // a length in more octets than it needs
    "30810c020100300506032b65700400",
    // the version changed in each of two texts that are read, and nothing else
    "302e020101300506032b65700422042017ed9c73e9db649ec189a612831c5fc570238207c1aa9dfbd2c53e3ff5e5ea85",
    "3051020100300506032b65700422042017ed9c73e9db649ec189a612831c5fc570238207c1aa9dfbd2c53e3ff5e5ea858121004d29167f3f1912a6f7adfa293a051a15c05ec67b8f17267b1c5550dce853bd0d",
];

#[test]
fn texts_of_no_private_key(rt: HostRuntime) {
    let alloc = rt.alloc();
    for digits in &OF_NO_KEY {
        assert!(rt; is_malformed(&rt, alloc, digits), "{digits}");
    }
}

/// Whether a version has this number, and is written with it.
fn has_number(rt: &impl Abort, alloc: Global, version: Version, number: u8) -> bool {
    let text = [2, 1, number];
    Version::try_from(number) == Ok(version)
        && u8::from(version) == number
        && is_text(rt, alloc, &version, &text)
        && Version::from_der(&text) == Ok(version)
}

#[test]
fn versions_have_numbers(rt: HostRuntime) {
    let alloc = rt.alloc();
    assert!(rt; has_number(&rt, alloc, Version::V1, 0) && has_number(&rt, alloc, Version::V2, 1));
}

#[test]
fn other_numbers_are_no_versions(rt: HostRuntime) {
    assert!(rt;
        Version::try_from(2) == Err(Error::Asn1(MALFORMED))
            && Version::from_der(&[2, 1, 2]) == Err(MALFORMED)
            && Version::from_der(&[4, 1, 1]) == Err(MALFORMED)
    );
}

#[test]
fn texts_of_refusals(rt: HostRuntime) {
    let alloc = rt.alloc();
    assert!(rt;
        is_printed(
            &rt,
            alloc,
            &Error::Asn1(MALFORMED),
            "PKCS#8 ASN.1 error: malformed DER"
        ) && is_printed(
            &rt,
            alloc,
            &Error::EncryptedPrivateKey(pkcs5::Error::DecryptFailed),
            "PKCS#5 decryption failed"
        ) && is_printed(
            &rt,
            alloc,
            &Error::KeyMalformed(KeyError::Invalid),
            "PKCS#8 key malformed: key invalid"
        ) && is_printed(
            &rt,
            alloc,
            &Error::KeyMalformed(KeyError::TooShort),
            "PKCS#8 key malformed: key too short"
        ) && is_printed(
            &rt,
            alloc,
            &Error::KeyMalformed(KeyError::TooLong),
            "PKCS#8 key malformed: key too long"
        ) && is_printed(
            &rt,
            alloc,
            &Error::ParametersMalformed,
            "PKCS#8 algorithm parameters malformed"
        ) && is_printed(&rt, alloc, &Error::Memory, "out of memory")
    );
}

#[test]
fn the_text_of_a_refused_public_key(rt: HostRuntime) {
    let unknown = spki::Error::OidUnknown {
        oid: oid(&rt, "1.3.101.112"),
    };
    let text = "public key error: unknown/unsupported algorithm OID: 1.3.101.112";
    assert!(rt; is_printed(&rt, rt.alloc(), &Error::PublicKey(unknown), text));
}

#[test]
fn refusals_keep_their_cause(rt: HostRuntime) {
    let overlength = asn1_core::Error::Overlength;
    let malformed = spki::Error::KeyMalformed;
    assert!(rt;
        Error::from(overlength) == Error::Asn1(overlength)
            && Error::from(pkcs5::Error::Rng) == Error::EncryptedPrivateKey(pkcs5::Error::Rng)
            && Error::from(malformed) == Error::PublicKey(malformed)
            && Error::from(KeyError::TooLong) == Error::KeyMalformed(KeyError::TooLong)
    );
    assert!(rt;
        Error::from(asn1_core::Error::Memory) == Error::Memory
            && Error::from(pkcs5::Error::Memory) == Error::Memory
            && Error::from(spki::Error::Memory) == Error::Memory
    );
}

/// Whether a refusal becomes this one of a public key.
fn becomes(error: Error, expected: spki::Error) -> bool {
    spki::Error::from(error) == expected
}

#[test]
fn refusals_as_those_of_a_public_key(rt: HostRuntime) {
    let missing = spki::Error::AlgorithmParametersMissing;
    let malformed = spki::Error::KeyMalformed;
    let failed = Error::EncryptedPrivateKey(pkcs5::Error::DecryptFailed);
    assert!(rt;
        becomes(Error::Asn1(MALFORMED), spki::Error::Asn1(MALFORMED))
            && becomes(Error::PublicKey(missing), missing)
            && becomes(Error::Memory, spki::Error::Memory)
            && becomes(Error::ParametersMalformed, malformed)
            && becomes(failed, malformed)
    );
}
