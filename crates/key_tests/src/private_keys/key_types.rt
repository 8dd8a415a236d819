//! A key type that is stored, keys that are loaded, and owned forms.
ghost use Rattle.std.specs.Prelude.{◌≡◌};

use super::documents::SEALED;
use super::{KEY, WITH_PUBLIC_KEY, read};
use crate::values::drawing;
use asn1_core::Octets;
use pkcs8::{
    DecodePrivateKey, EncodePrivateKey, Error, PrivateKeyInfoOwned, PrivateKeyInfoRef, Result,
    SecretDocument,
};
use std::alloc::Global;
use std::fs;
use std::process::Abort;
use std::rt::Files;

/// A key that keeps its text.
#[derive(Drop)]
struct KeptKey {
    text: Octets,
}

impl EncodePrivateKey for KeptKey {
    ghost text = { λ k b. b ≡ k.text };

    ghost refuses = { λ k e. Unit {0} };

    fn to_pkcs8_der(&self, alloc: Global) -> Result<SecretDocument> {
        match SecretDocument::from_der(alloc, self.text.as_slice()) {
            Ok(document) => Ok(document),
            Err(e) => Err(Error::from(e)),
        }
    }
}

/// Whether a key is stored as the text.
fn is_stored(rt: &impl Abort, alloc: Global, key: &impl EncodePrivateKey, text: &[u8]) -> bool {
    let document = key.to_pkcs8_der(alloc).expect(rt, "memory");
    document.as_bytes() == text
}

/// Whether the key comes back out of a file as that of the text.
fn is_read_back<R: Abort + Files>(rt: &R, alloc: Global, key: &KeptKey, text: &[u8]) -> bool {
    let path = "pkcs8_kept_key.der";
    let written = key.write_pkcs8_der_file(rt, alloc, path);
    let found = PrivateKeyInfoOwned::read_pkcs8_der_file(rt, alloc, path).expect(rt, "a key");
    written.is_ok() && is_borrowed(&found, &read(rt, text)) && fs::remove_file(rt, path).is_ok()
}

#[test]
fn a_kept_key_comes_back_equal(rt: HostRuntime) {
    let alloc = rt.alloc();
    let key = KeptKey {
        text: Octets::from_slice(alloc, KEY).expect(&rt, "memory"),
    };
    assert!(rt; is_stored(&rt, alloc, &key, KEY) && is_read_back(&rt, alloc, &key, KEY));
}

#[test]
fn a_missing_file_is_refused(rt: HostRuntime) {
    let path = "pkcs8_no_such_key.der";
    let missing = PrivateKeyInfoOwned::read_pkcs8_der_file(&rt, rt.alloc(), path);
    assert!(rt; missing.err() == Some(Error::Asn1(asn1_core::Error::File)));
}

#[test]
fn a_key_is_loaded_from_a_document(rt: HostRuntime) {
    let alloc = rt.alloc();
    let key = PrivateKeyInfoOwned::from_pkcs8_encrypted_der(alloc, SEALED, b"hunter42");
    assert!(rt; is_stored(&rt, alloc, &key.expect(&rt, "a key"), KEY));
}

#[test]
fn no_key_is_loaded_from_a_cut_document(rt: HostRuntime) {
    let cut = &SEALED[..SEALED.len().saturating_sub(1)];
    let refused = PrivateKeyInfoOwned::from_pkcs8_encrypted_der(rt.alloc(), cut, b"hunter42");
    assert!(rt; refused.err() == Some(Error::Asn1(asn1_core::Error::Malformed)));
}

/// Whether a call was refused since too few octets were drawn.
fn lacked_octets(answer: Result<SecretDocument>) -> bool {
    matches!(answer, Err(Error::EncryptedPrivateKey(pkcs5::Error::Rng)))
}

#[test]
fn a_key_wants_32_drawn_octets(rt: HostRuntime) {
    let alloc = rt.alloc();
    let key = read(&rt, KEY);
    let mut draw = drawing(&rt, alloc, &[7; 31]);
    assert!(rt; lacked_octets(key.encrypt(alloc, &mut draw, b"hunter42")));
}

#[test]
fn a_key_of_any_type_wants_32_drawn_octets(rt: HostRuntime) {
    let alloc = rt.alloc();
    let key = read(&rt, KEY);
    let mut draw = drawing(&rt, alloc, &[7; 31]);
    assert!(rt; lacked_octets(key.to_pkcs8_encrypted_der(alloc, &mut draw, b"hunter42")));
}

/// The key of a text, in memory of its own.
fn owned(rt: &impl Abort, alloc: Global, text: &[u8]) -> PrivateKeyInfoOwned {
    PrivateKeyInfoOwned::from_der(alloc, text).expect(rt, "a key")
}

/// Whether an owned key is this borrowed one.
fn is_borrowed(owned: &PrivateKeyInfoOwned, key: &PrivateKeyInfoRef<'_>) -> bool {
    owned.owned_to_ref() == *key
}

/// Whether an owned key is what is made of this borrowed one.
fn is_made_owned(
    rt: &impl Abort,
    alloc: Global,
    owned: &PrivateKeyInfoOwned,
    key: &PrivateKeyInfoRef<'_>,
) -> bool {
    key.ref_to_owned(alloc).expect(rt, "memory") == *owned
}

/// Whether a copy of an owned key is this borrowed one.
fn is_copied(
    rt: &impl Abort,
    alloc: Global,
    owned: &PrivateKeyInfoOwned,
    key: &PrivateKeyInfoRef<'_>,
) -> bool {
    is_borrowed(&owned.try_clone(alloc).expect(rt, "memory"), key)
}

#[test]
fn owned_forms_are_equal(rt: HostRuntime) {
    let alloc = rt.alloc();
    let key = read(&rt, WITH_PUBLIC_KEY);
    let owned = owned(&rt, alloc, WITH_PUBLIC_KEY);
    assert!(rt;
        is_borrowed(&owned, &key)
            && is_copied(&rt, alloc, &owned, &key)
            && is_made_owned(&rt, alloc, &owned, &key)
    );
}
