//! Public keys of several kinds, and what each call returns on them.

mod algorithms;
mod callers;
mod key_types;
mod orders;
mod refusals;

use crate::values::{is_text, laws_hold, oid};
use algorithms::owned_algorithm;
use spki::{AlgorithmIdentifierWithOid, SubjectPublicKeyInfoOwned, SubjectPublicKeyInfoRef};
use std::alloc::Global;
use std::collections::HashSet;
use std::process::Abort;

/// A public key of Ed25519 (RFC 8410 section 4).
const PUB: &[u8] =
    b"\x30\x2a\x30\x05\x06\x03\x2b\x65\x70\x03\x21\x00\x4d\x29\x16\x7f\x3f\x19\x12\xa6\xf7\xad\xfa\x29\x3a\x05\x1a\x15\xc0\x5e\xc6\x7b\x8f\x17\x26\x7b\x1c\x55\x50\xdc\xe8\x53\xbd\x0d";

/// A public key on the curve P-256.
const EC: &[u8] =
    b"\x30\x59\x30\x13\x06\x07\x2a\x86\x48\xce\x3d\x02\x01\x06\x08\x2a\x86\x48\xce\x3d\x03\x01\x07\x03\x42\x00\x04\x1c\xac\xff\xb5\x5f\x2f\x2c\xef\xd8\x9d\x89\xeb\x37\x4b\x26\x81\x15\x24\x52\x80\x2d\xee\xa0\x99\x16\x06\x81\x37\xd8\x39\xcf\x7f\xc4\x81\xa4\x44\x92\x30\x4d\x7e\xf6\x6a\xc1\x17\xbe\xfe\x83\xa8\xd0\x8f\x15\x5f\x2b\x52\xf9\xf6\x18\xdd\x44\x70\x29\x04\x8e\x0f";

/// The algorithm of that key.
const P_256_ALGORITHM: &[u8] =
    b"\x30\x13\x06\x07\x2a\x86\x48\xce\x3d\x02\x01\x06\x08\x2a\x86\x48\xce\x3d\x03\x01\x07";

/// A public key of RSA of 2048 bits.
const RSA: &[u8] =
    b"\x30\x82\x01\x22\x30\x0d\x06\x09\x2a\x86\x48\x86\xf7\x0d\x01\x01\x01\x05\x00\x03\x82\x01\x0f\x00\x30\x82\x01\x0a\x02\x82\x01\x01\x00\xb6\xc4\x2c\x51\x5f\x10\xa6\xaa\xf2\x82\xc6\x3e\xdb\xe2\x42\x43\xa1\x70\xf3\xfa\x26\x33\xbd\x48\x33\x63\x7f\x47\xca\x4f\x6f\x36\xe0\x3a\x5d\x29\xef\xc3\x19\x1a\xc8\x0f\x39\x0d\x87\x4b\x39\xe3\x0f\x41\x4f\xce\xc1\xfc\xa0\xed\x81\xe5\x47\xed\xc2\xcd\x38\x2c\x76\xf6\x1c\x90\x18\x97\x3d\xb9\xfa\x53\x79\x72\xa7\xc7\x01\xf6\xb7\x7e\x09\x82\xdf\xc1\x5f\xc0\x19\x27\xee\x5e\x7c\xd9\x4b\x4f\x59\x9f\xf0\x70\x13\xa7\xc8\x28\x1b\xdf\x22\xdc\xbc\x9a\xd7\xca\xbb\x7c\x43\x11\xc9\x82\xf5\x8e\xdb\x72\x13\xad\x45\x58\xb3\x32\x26\x6d\x74\x3a\xed\x81\x92\xd1\x88\x4c\xad\xb8\xb1\x47\x39\xa8\xda\xda\x66\xdc\x97\x08\x06\xd9\xc7\xac\x45\x0c\xb1\x3d\x0d\x7c\x57\x5f\xb1\x98\x53\x4f\xc6\x1b\xc4\x1b\xc0\xf0\x57\x4e\x0e\x01\x30\xc7\xbb\xbf\xbd\xfd\xc9\xf6\xa6\xe2\xe3\xe2\xaf\xf1\xcb\xea\xc8\x9b\xa5\x78\x84\x52\x8d\x55\xcf\xb0\x83\x27\xa1\xe8\xc8\x9f\x4e\x00\x3c\xf2\x88\x8e\x93\x32\x41\xd9\xd6\x95\xbc\xbb\xac\xdc\x90\xb4\x4e\x3e\x09\x5f\xa3\x70\x58\xea\x25\xb1\x3f\x5e\x29\x5c\xbe\xac\x6d\xe8\x38\xab\x8c\x50\xaf\x61\xe2\x98\x97\x5b\x87\x2f\x02\x03\x01\x00\x01";

/// The public key of a text.
fn read<'a>(rt: &impl Abort, text: &'a [u8]) -> SubjectPublicKeyInfoRef<'a> {
    SubjectPublicKeyInfoRef::try_from(text).expect(rt, "a public key")
}

/// Whether the text is read, with these parameters, and written back as it was.
fn is_kept(rt: &impl Abort, alloc: Global, text: &[u8], parameters: &[u8]) -> bool {
    let key = read(rt, text);
    is_text(rt, alloc, &key, text) && is_text(rt, alloc, &key.algorithm.parameters, parameters)
}

/// The fingerprint of the key of Ed25519.
const FINGERPRINT: [u8; 32] =
    *b"\x55\xdd\x4c\x74\xb0\xe4\x85\x34\xe2\xf4\xe1\x73\xce\xce\xb5\x0d\xf8\xf2\x7a\x7a\xc2\xaa\x89\x91\xcc\x7a\xe9\x14\xe0\x30\xbc\xed";

/// Whether this is the fingerprint of a key, in octets and in base64.
fn has_fingerprint(
    rt: &impl Abort,
    alloc: Global,
    key: &SubjectPublicKeyInfoRef<'_>,
    octets: [u8; 32],
    base64: &str,
) -> bool {
    key.fingerprint_bytes() == Ok(octets)
        && key.fingerprint_base64(alloc).expect(rt, "memory").as_str() == base64
}

#[test]
fn a_key_of_ed25519(rt: HostRuntime) {
    let key = read(&rt, PUB);
    assert!(rt;
        key.algorithm.oid == oid(&rt, "1.3.101.112")
            && key.algorithm.parameters.is_none()
            && key.subject_public_key.raw_bytes().len() == 32
    );
    let base64 = "Vd1MdLDkhTTi9OFzzs61DfjyenrCqomRzHrpFOAwvO0=";
    assert!(rt; has_fingerprint(&rt, rt.alloc(), &key, FINGERPRINT, base64));
}

/// Public keys, and the parameters of their algorithms.
static KEYS: [(&[u8], &[u8]); 4] = [
    (PUB, b""),
    (SHORT, b""),
    (EC, b"\x06\x08\x2a\x86\x48\xce\x3d\x03\x01\x07"),
    (RSA, b"\x05\x00"),
];

#[test]
fn keys_are_read_and_written_back(rt: HostRuntime) {
    for (text, parameters) in &KEYS {
        assert!(rt; is_kept(&rt, rt.alloc(), text, parameters), "{text:?}");
    }
}

/// A text in the form of a public key of Ed25519, with a key of three octets.
const SHORT: &[u8] = b"\x30\x0d\x30\x05\x06\x03\x2b\x65\x70\x03\x04\x00\x01\x02\x03";

/// Whether an owned key is this borrowed one.
fn is_borrowed(owned: &SubjectPublicKeyInfoOwned, key: &SubjectPublicKeyInfoRef<'_>) -> bool {
    owned.owned_to_ref() == *key
}

/// Whether an owned key is what is made of this borrowed one.
fn is_made_owned(
    rt: &impl Abort,
    alloc: Global,
    owned: &SubjectPublicKeyInfoOwned,
    key: &SubjectPublicKeyInfoRef<'_>,
) -> bool {
    key.ref_to_owned(alloc).expect(rt, "memory") == *owned
}

/// Whether a copy of an owned key is equal to it.
fn is_copied(rt: &impl Abort, alloc: Global, owned: &SubjectPublicKeyInfoOwned) -> bool {
    owned.try_clone(alloc).expect(rt, "memory") == *owned
}

#[test]
fn an_owned_key_is_what_was_borrowed(rt: HostRuntime) {
    let alloc = rt.alloc();
    let key = read(&rt, EC);
    let owned = SubjectPublicKeyInfoOwned::from_der(alloc, EC).expect(&rt, "a key");
    assert!(rt;
        is_borrowed(&owned, &key)
            && is_made_owned(&rt, alloc, &owned, &key)
            && is_copied(&rt, alloc, &owned)
            && is_text(&rt, alloc, &owned, EC)
    );
}

/// Algorithms: sha1, sha256, and sha1 again; and whether each is new.
static ALGORITHMS: [(&[u8], bool); 3] = [
    (b"\x30\x07\x06\x05\x2b\x0e\x03\x02\x1a", true),
    (
        b"\x30\x0b\x06\x09\x60\x86\x48\x01\x65\x03\x04\x02\x01",
        true,
    ),
    (b"\x30\x07\x06\x05\x2b\x0e\x03\x02\x1a", false),
];

#[test]
fn algorithms_stand_in_a_set(rt: HostRuntime) {
    let alloc = rt.alloc();
    let mut algorithms = HashSet::new(alloc);
    for (text, is_new) in &ALGORITHMS {
        let algorithm = owned_algorithm(&rt, alloc, text);
        let added = algorithms.insert(algorithm).expect(&rt, "memory");
        assert!(rt; added == *is_new);
    }
    assert!(rt; algorithms.len() == 2);
}

#[test]
fn the_laws_hold_of_these_types(rt: HostRuntime) {
    let curve = AlgorithmIdentifierWithOid::try_from(P_256_ALGORITHM).expect(&rt, "an algorithm");
    assert!(rt; curve.parameters == Some(oid(&rt, "1.2.840.10045.3.1.7")));
    laws_hold(P_256_ALGORITHM, &curve);
    laws_hold(EC, &read(&rt, EC));
}
