//! Private keys of several kinds, and what each call returns on them.

mod callers;
mod documents;
mod key_types;
mod openssl_keys;
mod refusals;

use crate::values::{is_text, laws_hold, octets, oid};
use asn1_core::{ObjectIdentifier, Octets};
use der_core::{
    Any, BitString, BitStringRef, Choice, Decode, DecodeValue, Encode, EncodeValue, FixedTag,
    OctetString, OctetStringRef,
};
use openssl_keys::{KEYS, OpensslKey};
use pkcs8::{
    BitStringLike, PrivateKeyInfo, PrivateKeyInfoRef, Version, private_keys_are_spelled,
    private_keys_are_written, private_keys_have_a_text, texts_have_one_private_key,
};
use spki::{AlgorithmIdentifier, AlgorithmIdentifierRef};
use std::alloc::Global;
use std::process::Abort;

/// A private key of Ed25519.
const KEY: &[u8] =
    b"\x30\x2e\x02\x01\x00\x30\x05\x06\x03\x2b\x65\x70\x04\x22\x04\x20\x17\xed\x9c\x73\xe9\xdb\x64\x9e\xc1\x89\xa6\x12\x83\x1c\x5f\xc5\x70\x23\x82\x07\xc1\xaa\x9d\xfb\xd2\xc5\x3e\x3f\xf5\xe5\xea\x85";

/// The same with its public key, as the package `cryptography` of Python computes it.
const WITH_PUBLIC_KEY: &[u8] =
    b"\x30\x51\x02\x01\x01\x30\x05\x06\x03\x2b\x65\x70\x04\x22\x04\x20\x17\xed\x9c\x73\xe9\xdb\x64\x9e\xc1\x89\xa6\x12\x83\x1c\x5f\xc5\x70\x23\x82\x07\xc1\xaa\x9d\xfb\xd2\xc5\x3e\x3f\xf5\xe5\xea\x85\x81\x21\x00\x4d\x29\x16\x7f\x3f\x19\x12\xa6\xf7\xad\xfa\x29\x3a\x05\x1a\x15\xc0\x5e\xc6\x7b\x8f\x17\x26\x7b\x1c\x55\x50\xdc\xe8\x53\xbd\x0d";

/// The first private key of RFC 8410 section 10.3.
const RFC_8410: &[u8] =
    b"\x30\x2e\x02\x01\x00\x30\x05\x06\x03\x2b\x65\x70\x04\x22\x04\x20\xd4\xee\x72\xdb\xf9\x13\x58\x4a\xd5\xb6\xd8\xf1\xf7\x69\xf8\xad\x3a\xfe\x7c\x28\xcb\xf1\xd4\xfb\xe0\x97\xa8\x8f\x44\x75\x58\x42";

/// The second one, with attributes and its public key, and what it is without the attributes.
const RFC_8410_WITH_ATTRIBUTES: &[u8] =
    b"\x30\x72\x02\x01\x01\x30\x05\x06\x03\x2b\x65\x70\x04\x22\x04\x20\xd4\xee\x72\xdb\xf9\x13\x58\x4a\xd5\xb6\xd8\xf1\xf7\x69\xf8\xad\x3a\xfe\x7c\x28\xcb\xf1\xd4\xfb\xe0\x97\xa8\x8f\x44\x75\x58\x42\xa0\x1f\x30\x1d\x06\x0a\x2a\x86\x48\x86\xf7\x0d\x01\x09\x09\x14\x31\x0f\x0c\x0d\x43\x75\x72\x64\x6c\x65\x20\x43\x68\x61\x69\x72\x73\x81\x21\x00\x19\xbf\x44\x09\x69\x84\xcd\xfe\x85\x41\xba\xc1\x67\xdc\x3b\x96\xc8\x50\x86\xaa\x30\xb6\xb6\xcb\x0c\x5c\x38\xad\x70\x31\x66\xe1";

const RFC_8410_WITHOUT_ATTRIBUTES: &[u8] =
    b"\x30\x51\x02\x01\x01\x30\x05\x06\x03\x2b\x65\x70\x04\x22\x04\x20\xd4\xee\x72\xdb\xf9\x13\x58\x4a\xd5\xb6\xd8\xf1\xf7\x69\xf8\xad\x3a\xfe\x7c\x28\xcb\xf1\xd4\xfb\xe0\x97\xa8\x8f\x44\x75\x58\x42\x81\x21\x00\x19\xbf\x44\x09\x69\x84\xcd\xfe\x85\x41\xba\xc1\x67\xdc\x3b\x96\xc8\x50\x86\xaa\x30\xb6\xb6\xcb\x0c\x5c\x38\xad\x70\x31\x66\xe1";

/// A text in the form of a private key of Ed25519, with a key of no octets.
const SHORT: &[u8] = b"\x30\x0c\x02\x01\x00\x30\x05\x06\x03\x2b\x65\x70\x04\x00";

/// The private key of a text.
fn read<'a>(rt: &impl Abort, text: &'a [u8]) -> PrivateKeyInfoRef<'a> {
    PrivateKeyInfoRef::try_from(text).expect(rt, "a private key")
}

/// Whether the text is read, and what is written of it is the other.
fn is_written(rt: &impl Abort, alloc: Global, text: &[u8], other: &[u8]) -> bool {
    is_text(rt, alloc, &read(rt, text), other)
}

/// Whether the algorithm of a text is that of a key of OpenSSL.
fn has_algorithm(rt: &impl Abort, alloc: Global, text: &[u8], key: &OpensslKey) -> bool {
    let found = read(rt, text).algorithm;
    let parameters = octets(rt, alloc, key.parameters);
    found.oid == oid(rt, key.algorithm)
        && is_text(rt, alloc, &found.parameters, parameters.as_slice())
}

/// Whether a text ends with a key of so many octets, and has no public key.
fn ends_with_octets(rt: &impl Abort, text: &[u8], key_octets: usize) -> bool {
    let found = read(rt, text);
    found.private_key.as_bytes().len() == key_octets
        && text.ends_with(found.private_key.as_bytes())
        && found.public_key.is_none()
        && found.version() == Version::V1
}

/// Whether a key of OpenSSL is read as what it is, and written back.
fn is_kept(rt: &impl Abort, alloc: Global, key: &OpensslKey) -> bool {
    let text = octets(rt, alloc, key.text);
    let text = text.as_slice();
    is_written(rt, alloc, text, text)
        && has_algorithm(rt, alloc, text, key)
        && ends_with_octets(rt, text, key.key_octets)
}

#[test]
fn keys_of_openssl_are_read_and_written_back(rt: HostRuntime) {
    for key in &KEYS {
        assert!(rt; is_kept(&rt, rt.alloc(), key), "{}", key.name);
    }
}

/// Texts of private keys, and what is written of each: the same, or another spelling.
static SPELLINGS: [(&[u8], &[u8]); 12] = [
    (KEY, KEY),
    (WITH_PUBLIC_KEY, WITH_PUBLIC_KEY),
    (RFC_8410, RFC_8410),
    (RFC_8410_WITH_ATTRIBUTES, RFC_8410_WITHOUT_ATTRIBUTES),
    (SHORT, SHORT),
    // attributes: none, one of two octets that are no element
    (
        b"\x30\x30\x02\x01\x00\x30\x05\x06\x03\x2b\x65\x70\x04\x22\x04\x20\x17\xed\x9c\x73\xe9\xdb\x64\x9e\xc1\x89\xa6\x12\x83\x1c\x5f\xc5\x70\x23\x82\x07\xc1\xaa\x9d\xfb\xd2\xc5\x3e\x3f\xf5\xe5\xea\x85\xa0\x00",
        KEY,
    ),
    (
        b"\x30\x32\x02\x01\x00\x30\x05\x06\x03\x2b\x65\x70\x04\x22\x04\x20\x17\xed\x9c\x73\xe9\xdb\x64\x9e\xc1\x89\xa6\x12\x83\x1c\x5f\xc5\x70\x23\x82\x07\xc1\xaa\x9d\xfb\xd2\xc5\x3e\x3f\xf5\xe5\xea\x85\xa0\x02\x00\x00",
        KEY,
    ),
    // further fields: of the lowest and the highest number, primitive and constructed, several of one number
    (
        b"\x30\x30\x02\x01\x00\x30\x05\x06\x03\x2b\x65\x70\x04\x22\x04\x20\x17\xed\x9c\x73\xe9\xdb\x64\x9e\xc1\x89\xa6\x12\x83\x1c\x5f\xc5\x70\x23\x82\x07\xc1\xaa\x9d\xfb\xd2\xc5\x3e\x3f\xf5\xe5\xea\x85\x82\x00",
        KEY,
    ),
    (
        b"\x30\x30\x02\x01\x00\x30\x05\x06\x03\x2b\x65\x70\x04\x22\x04\x20\x17\xed\x9c\x73\xe9\xdb\x64\x9e\xc1\x89\xa6\x12\x83\x1c\x5f\xc5\x70\x23\x82\x07\xc1\xaa\x9d\xfb\xd2\xc5\x3e\x3f\xf5\xe5\xea\x85\xbe\x00",
        KEY,
    ),
    (
        b"\x30\x34\x02\x01\x00\x30\x05\x06\x03\x2b\x65\x70\x04\x22\x04\x20\x17\xed\x9c\x73\xe9\xdb\x64\x9e\xc1\x89\xa6\x12\x83\x1c\x5f\xc5\x70\x23\x82\x07\xc1\xaa\x9d\xfb\xd2\xc5\x3e\x3f\xf5\xe5\xea\x85\x9e\x02\xff\xff\xa2\x00",
        KEY,
    ),
    (
        b"\x30\x34\x02\x01\x00\x30\x05\x06\x03\x2b\x65\x70\x04\x22\x04\x20\x17\xed\x9c\x73\xe9\xdb\x64\x9e\xc1\x89\xa6\x12\x83\x1c\x5f\xc5\x70\x23\x82\x07\xc1\xaa\x9d\xfb\xd2\xc5\x3e\x3f\xf5\xe5\xea\x85\x82\x00\x82\x00\x82\x00",
        KEY,
    ),
    // both
    (
        b"\x30\x32\x02\x01\x00\x30\x05\x06\x03\x2b\x65\x70\x04\x22\x04\x20\x17\xed\x9c\x73\xe9\xdb\x64\x9e\xc1\x89\xa6\x12\x83\x1c\x5f\xc5\x70\x23\x82\x07\xc1\xaa\x9d\xfb\xd2\xc5\x3e\x3f\xf5\xe5\xea\x85\xa0\x00\x82\x00",
        KEY,
    ),
];

#[test]
fn other_spellings_are_written_as_one(rt: HostRuntime) {
    let alloc = rt.alloc();
    for (text, other) in &SPELLINGS {
        assert!(rt; is_written(&rt, alloc, text, other), "{text:?}");
    }
}

/// Whether a version is the one of this number, with a public key.
fn is_second(version: Version) -> bool {
    version == Version::V2 && version.has_public_key() && u8::from(version) == 1
}

/// The public key of that text.
const PUBLIC_KEY: &[u8] =
    b"\x4d\x29\x16\x7f\x3f\x19\x12\xa6\xf7\xad\xfa\x29\x3a\x05\x1a\x15\xc0\x5e\xc6\x7b\x8f\x17\x26\x7b\x1c\x55\x50\xdc\xe8\x53\xbd\x0d";

#[test]
fn a_public_key_is_kept(rt: HostRuntime) {
    let key = read(&rt, WITH_PUBLIC_KEY);
    let public_key = BitStringRef::new(0, PUBLIC_KEY).expect(&rt, "a public key");
    assert!(rt; key.public_key == Some(public_key) && is_second(key.version()));
}

#[test]
fn a_key_has_another_version_without_its_public_key(rt: HostRuntime) {
    let key = read(&rt, WITH_PUBLIC_KEY);
    let plain = read(&rt, KEY);
    assert!(rt;
        PrivateKeyInfo::new(key.algorithm, key.private_key) == plain
            && plain.version() == Version::V1
    );
}

/// Whether a key of these parts is another one.
fn differs(
    key: &PrivateKeyInfoRef<'_>,
    algorithm: AlgorithmIdentifierRef<'_>,
    private_key: OctetStringRef<'_>,
    public_key: Option<BitStringRef<'_>>,
) -> bool {
    let other = PrivateKeyInfo {
        algorithm,
        private_key,
        public_key,
    };
    other != *key
}

#[test]
fn equal_keys_have_equal_parts(rt: HostRuntime) {
    let key = read(&rt, WITH_PUBLIC_KEY);
    let ed448 = AlgorithmIdentifier {
        oid: oid(&rt, "1.3.101.113"),
        parameters: None,
    };
    let another_key = OctetStringRef::new(b"4").expect(&rt, "a key");
    let another_public_key = Some(BitStringRef::new(0, b"4").expect(&rt, "a public key"));
    assert!(rt;
        differs(&key, ed448, key.private_key, key.public_key)
            && differs(&key, key.algorithm, another_key, key.public_key)
            && differs(&key, key.algorithm, key.private_key, another_public_key)
            && differs(&key, key.algorithm, key.private_key, None)
    );
}

#[test]
fn a_copy_of_a_key_is_equal(rt: HostRuntime) {
    let key = read(&rt, WITH_PUBLIC_KEY);
    assert!(rt; key.clone().expect(&rt, "memory") == key);
}

/// What Debug prints of a private key.
fn shown(rt: &impl Abort, alloc: Global, text: &[u8]) -> String {
    let key = read(rt, text);
    format!(in alloc; "{key:?}").expect(rt, "memory")
}

#[test]
fn debug_shows_no_private_key(rt: HostRuntime) {
    let one = shown(&rt, rt.alloc(), KEY);
    let other = shown(&rt, rt.alloc(), RFC_8410);
    let one = one.as_str();
    assert!(rt;
        one == other.as_str()
            && one.starts_with("PrivateKeyInfo { version: V1, algorithm: ")
            && one.ends_with("public_key: None, .. }")
    );
}

/// A private key of parts of any lawful types.
fn read_as<
    'a,
    Params: Choice<&'a [u8]>,
    Key: DecodeValue<&'a [u8]> + FixedTag,
    PubKey: DecodeValue<&'a [u8]> + FixedTag,
>(text: &'a [u8]) -> Result<PrivateKeyInfo<Params, Key, PubKey>, asn1_core::Error> {
    <PrivateKeyInfo<Params, Key, PubKey> as Decode<&'a [u8]>>::from_der(text)
}

/// The text of one.
fn write<Params: Encode, Key: EncodeValue + FixedTag, PubKey: BitStringLike>(
    alloc: Global,
    key: &PrivateKeyInfo<Params, Key, PubKey>,
) -> Result<Octets, asn1_core::Error> {
    key.to_der(alloc)
}

/// A private key on the curve P-256.
const ON_A_CURVE: &[u8] =
    b"\x30\x81\x87\x02\x01\x00\x30\x13\x06\x07\x2a\x86\x48\xce\x3d\x02\x01\x06\x08\x2a\x86\x48\xce\x3d\x03\x01\x07\x04\x6d\x30\x6b\x02\x01\x01\x04\x20\x42\xe5\x69\xf2\x39\xbc\x6a\x7f\x61\xb7\xc2\xd0\x92\x86\xf3\x1a\x6c\xe3\x82\x83\x1c\x05\xd7\xc4\xc9\x86\xe9\xae\xcd\xb0\xc1\x67\xa1\x44\x03\x42\x00\x04\xa0\x2b\xe4\xac\xe9\x69\x04\x9c\x19\x66\xce\xa3\x76\x27\xdc\xea\xe0\x7b\xb6\x81\xd7\x3b\x32\xd3\x73\x09\xe2\x6c\x10\x12\xe8\x8f\xcf\xdd\x6a\xf0\xa5\xf0\xf7\x67\xdd\x27\x9c\xe5\xc2\xb0\xb0\x84\xb3\x99\x2c\x12\xed\x8e\x25\xed\xca\x76\x7c\x4c\xba\x6f\xfc\x72";

#[test]
fn a_key_is_read_as_parts_of_other_types(rt: HostRuntime) {
    let key = read_as::<ObjectIdentifier, OctetStringRef<'_>, BitStringRef<'_>>(ON_A_CURVE).expect(
        &rt,
        "a private key",
    );
    assert!(rt; key.algorithm.parameters == Some(oid(&rt, "1.2.840.10045.3.1.7")));
}

/// A private key of parts in memory of their own.
fn owned_parts(rt: &impl Abort, alloc: Global) -> PrivateKeyInfo<Any, OctetString, BitString> {
    let algorithm = AlgorithmIdentifier::<Any> {
        oid: oid(rt, "1.3.101.112"),
        parameters: None,
    };
    PrivateKeyInfo {
        algorithm,
        private_key: OctetString::new(alloc, b"key").expect(rt, "a key"),
        public_key: Some(BitString::new(alloc, 0, b"public").expect(rt, "a public key")),
    }
}

#[test]
fn an_owned_string_is_a_string_of_bits(rt: HostRuntime) {
    let public = BitString::new(rt.alloc(), 0, b"public").expect(&rt, "a public key");
    assert!(rt; public.as_bit_string() == BitStringRef::new(0, b"public").expect(&rt, "bits"));
}

/// The text of that key.
const OF_OWNED_PARTS: &[u8] =
    b"\x30\x18\x02\x01\x01\x30\x05\x06\x03\x2b\x65\x70\x04\x03\x6b\x65\x79\x81\x07\x00\x70\x75\x62\x6c\x69\x63";

#[test]
fn a_key_is_written_of_parts_of_other_types(rt: HostRuntime) {
    let alloc = rt.alloc();
    assert!(rt;
        write(alloc, &owned_parts(&rt, alloc))
            .expect(&rt, "memory")
            .as_slice()
            == OF_OWNED_PARTS
    );
}

#[test]
fn the_laws_hold_at_keys_of_any_algorithm(rt: HostRuntime) {
    let key = read(&rt, RFC_8410_WITH_ATTRIBUTES);
    laws_hold(RFC_8410_WITH_ATTRIBUTES, &key);
    private_keys_are_written(&key);
    private_keys_are_spelled();
    private_keys_have_a_text();
    texts_have_one_private_key();
}
