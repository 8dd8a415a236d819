//! Private keys under passwords. More documents are lines of `tests/vectors/encrypted_keys.txt`.
use super::KEY;
use super::callers::sealed;
use crate::values::{drawing, is_text, oid};
use der_core::{OctetStringRef, canon_is_read, exact_spellings, texts_are_read};
use pkcs5::pbes2::{self, EncryptionKey};
use pkcs8::{
    EncryptedPrivateKeyInfo, EncryptedPrivateKeyInfoOwned, EncryptedPrivateKeyInfoRef, Error,
    PrivateKeyInfoRef, Result, SecretDocument,
};
use std::alloc::Global;
use std::process::Abort;

/// That key under `hunter42` by AES-256-CBC, with a salt of 8 octets and 2,048 rounds of HMAC over SHA-256.
pub const SEALED: &[u8] =
    b"\x30\x81\x9b\x30\x57\x06\x09\x2a\x86\x48\x86\xf7\x0d\x01\x05\x0d\x30\x4a\x30\x29\x06\x09\x2a\x86\x48\x86\xf7\x0d\x01\x05\x0c\x30\x1c\x04\x08\x79\xd9\x82\xe7\x0d\xf9\x1a\x88\x02\x02\x08\x00\x30\x0c\x06\x08\x2a\x86\x48\x86\xf7\x0d\x02\x09\x05\x00\x30\x1d\x06\x09\x60\x86\x48\x01\x65\x03\x04\x01\x2a\x04\x10\xb2\xd0\x2d\x78\xb2\xef\xd9\xdf\xf6\x94\xcf\x8e\x0a\xf4\x09\x25\x04\x40\xd0\xcd\x6c\x77\x0f\x4b\xb8\x71\x76\x42\x23\x05\xc1\x74\x01\x80\x9e\x22\x66\x74\xce\x74\x18\x5d\x22\x1b\xfd\xaa\x95\x06\x98\x90\xc8\x88\x2f\xce\x02\xb0\x5d\x41\xbc\xbf\x54\xb0\x35\x59\x5b\xcd\x41\x54\xb3\x25\x93\x70\x84\x69\xb8\x6a\xac\xf8\x81\x5a\x7b\x2b";

/// The document of a text.
fn read<'a>(rt: &impl Abort, text: &'a [u8]) -> EncryptedPrivateKeyInfoRef<'a> {
    match EncryptedPrivateKeyInfoRef::try_from(text) {
        Ok(info) => info,
        Err(_) => panic!(rt; "no document"),
    }
}

/// The parameters of a document, which is under PBES2.
fn parameters(rt: &impl Abort, info: &EncryptedPrivateKeyInfoRef<'_>) -> pbes2::Parameters {
    *info.encryption_algorithm.pbes2().expect(rt, "PBES2")
}

/// Whether the document opens to the key under the password, and is written back as it was.
fn opens(rt: &impl Abort, alloc: Global, document: &[u8]) -> bool {
    let info = read(rt, document);
    let opened = info.decrypt(alloc, b"hunter42").expect(rt, "a key");
    opened.as_bytes() == KEY && is_text(rt, alloc, &info, document)
}

/// Whether the key under the parameters of the document is the document.
fn seals(rt: &impl Abort, alloc: Global, document: &[u8]) -> bool {
    let parameters = parameters(rt, &read(rt, document));
    let sealed = super::read(rt, KEY)
        .encrypt_with_params(alloc, parameters, b"hunter42")
        .expect(rt, "a document");
    sealed.as_bytes() == document
}

/// That key under `hunter42` by scrypt and AES-256-CBC, with the octets 00 to 0f for the vector and 10 to 1f for the salt, by Python's
/// `hashlib` and OpenSSL.
const BY_SCRYPT: &[u8] =
    b"\x30\x81\x9b\x30\x57\x06\x09\x2a\x86\x48\x86\xf7\x0d\x01\x05\x0d\x30\x4a\x30\x29\x06\x09\x2b\x06\x01\x04\x01\xda\x47\x04\x0b\x30\x1c\x04\x10\x10\x11\x12\x13\x14\x15\x16\x17\x18\x19\x1a\x1b\x1c\x1d\x1e\x1f\x02\x02\x40\x00\x02\x01\x08\x02\x01\x01\x30\x1d\x06\x09\x60\x86\x48\x01\x65\x03\x04\x01\x2a\x04\x10\x00\x01\x02\x03\x04\x05\x06\x07\x08\x09\x0a\x0b\x0c\x0d\x0e\x0f\x04\x40\xc7\x16\x06\xab\x8c\x75\x6e\x70\xdf\xce\x46\xb2\x76\xfe\xa1\x01\x39\xd0\xc0\x7a\x32\xd7\xc5\x8f\xf5\xa7\xa5\xdb\x00\x44\x55\xa1\x7f\x54\xe3\xaf\x29\xbd\x8b\x5c\x47\xa5\xc1\x61\x06\x4c\xad\xe7\xb0\xda\x07\x0d\x4b\x2a\xef\xfd\x86\x7a\x35\xbb\xed\x8e\x06\x31";

/// The octets that are drawn for it.
const DRAWN: &[u8] =
    b"\x00\x01\x02\x03\x04\x05\x06\x07\x08\x09\x0a\x0b\x0c\x0d\x0e\x0f\x10\x11\x12\x13\x14\x15\x16\x17\x18\x19\x1a\x1b\x1c\x1d\x1e\x1f";

/// Whether a call made that document.
fn is_by_scrypt(document: Result<SecretDocument>) -> bool {
    match document {
        Ok(document) => document.as_bytes() == BY_SCRYPT,
        Err(_) => false,
    }
}

#[test]
fn a_key_is_sealed_under_drawn_octets(rt: HostRuntime) {
    let alloc = rt.alloc();
    let key = super::read(&rt, KEY);
    let mut draw = drawing(&rt, alloc, DRAWN);
    assert!(rt; is_by_scrypt(key.encrypt(alloc, &mut draw, b"hunter42")));
}

#[test]
fn a_key_is_sealed_with_a_generator(rt: HostRuntime) {
    let alloc = rt.alloc();
    let key = super::read(&rt, KEY);
    let mut draw = drawing(&rt, alloc, DRAWN);
    assert!(rt; is_by_scrypt(key.encrypt_with_rng(alloc, &mut draw, b"hunter42")));
}

#[test]
fn a_key_of_any_type_is_sealed(rt: HostRuntime) {
    let alloc = rt.alloc();
    let key = super::read(&rt, KEY);
    let mut draw = drawing(&rt, alloc, DRAWN);
    assert!(rt; is_by_scrypt(sealed(alloc, &mut draw, &key, b"hunter42")));
}

#[test]
fn documents_of_other_programs_are_opened_and_made_again(rt: HostRuntime) {
    let alloc = rt.alloc();
    assert!(rt;
        opens(&rt, alloc, SEALED) && seals(&rt, alloc, SEALED) && opens(&rt, alloc, BY_SCRYPT)
    );
}

/// The salt and the vector of `SEALED`.
const SALT: &[u8] = b"\x79\xd9\x82\xe7\x0d\xf9\x1a\x88";

const VECTOR: [u8; 16] = *b"\xb2\xd0\x2d\x78\xb2\xef\xd9\xdf\xf6\x94\xcf\x8e\x0a\xf4\x09\x25";

/// The key under the parameters of `SEALED`, where the key of the cipher is derived first.
fn sealed_under_key(alloc: Global, key: &PrivateKeyInfoRef<'_>) -> Result<SecretDocument> {
    let parameters = pbes2::Parameters::generate_pbkdf2_sha256_aes256cbc(2048, SALT, VECTOR)?;
    let derived = EncryptionKey::derive_from_password(alloc, b"hunter42", &parameters.kdf, 32)?;
    key.encrypt_with_key(alloc, parameters, &derived)
}

#[test]
fn a_key_is_sealed_under_a_derived_key(rt: HostRuntime) {
    let key = super::read(&rt, KEY);
    let document = sealed_under_key(rt.alloc(), &key).expect(&rt, "a document");
    assert!(rt; document.as_bytes() == SEALED);
}

/// The document of a text, in memory of its own.
fn owned(rt: &impl Abort, alloc: Global, text: &[u8]) -> EncryptedPrivateKeyInfoOwned {
    EncryptedPrivateKeyInfoOwned::from_der(alloc, text).expect(rt, "a document")
}

/// Whether an owned document is this borrowed one.
fn is_borrowed(
    owned: &EncryptedPrivateKeyInfoOwned,
    info: &EncryptedPrivateKeyInfoRef<'_>,
) -> bool {
    owned.owned_to_ref() == *info
}

/// Whether an owned document is what is made of this borrowed one.
fn is_made_owned(
    rt: &impl Abort,
    alloc: Global,
    owned: &EncryptedPrivateKeyInfoOwned,
    info: &EncryptedPrivateKeyInfoRef<'_>,
) -> bool {
    info.ref_to_owned(alloc).expect(rt, "memory") == *owned
}

/// Whether a copy of an owned document is equal to it.
fn is_copied(rt: &impl Abort, alloc: Global, owned: &EncryptedPrivateKeyInfoOwned) -> bool {
    owned.try_clone(alloc).expect(rt, "memory") == *owned
}

#[test]
fn documents_in_memory_of_their_own_are_equal(rt: HostRuntime) {
    let alloc = rt.alloc();
    let info = read(&rt, SEALED);
    let owned = owned(&rt, alloc, SEALED);
    assert!(rt;
        is_borrowed(&owned, &info)
            && is_made_owned(&rt, alloc, &owned, &info)
            && is_copied(&rt, alloc, &owned)
    );
}

/// What decrypting these octets under a password is refused for.
fn refusal(alloc: Global, document: &[u8], password: &[u8]) -> Option<Error> {
    match EncryptedPrivateKeyInfoRef::try_from(document) {
        Ok(info) => info.decrypt(alloc, password).err(),
        Err(e) => Some(e),
    }
}

/// Whether decrypting these octets under `hunter42` is refused for this.
fn is_refused(alloc: Global, document: &[u8], refused: Error) -> bool {
    refusal(alloc, document, b"hunter42") == Some(refused)
}

/// Octets under `hunter42` in two rounds, by the package `cryptography` of Python: an OCTET STRING, a SEQUENCE and an octet more, and an
/// empty SEQUENCE with the stated length of a key of AES-128 and with that of its own.
const NO_SEQUENCE: &[u8] =
    b"\x30\x6a\x30\x56\x06\x09\x2a\x86\x48\x86\xf7\x0d\x01\x05\x0d\x30\x49\x30\x28\x06\x09\x2a\x86\x48\x86\xf7\x0d\x01\x05\x0c\x30\x1b\x04\x08\x00\x01\x02\x03\x04\x05\x06\x07\x02\x01\x02\x30\x0c\x06\x08\x2a\x86\x48\x86\xf7\x0d\x02\x09\x05\x00\x30\x1d\x06\x09\x60\x86\x48\x01\x65\x03\x04\x01\x2a\x04\x10\x10\x11\x12\x13\x14\x15\x16\x17\x18\x19\x1a\x1b\x1c\x1d\x1e\x1f\x04\x10\xf7\x1b\xf7\xf6\x7f\xc0\xd2\x62\x7a\x34\xd3\x36\xd1\xed\x0e\x45";

const LEFT_OVER: &[u8] =
    b"\x30\x6a\x30\x56\x06\x09\x2a\x86\x48\x86\xf7\x0d\x01\x05\x0d\x30\x49\x30\x28\x06\x09\x2a\x86\x48\x86\xf7\x0d\x01\x05\x0c\x30\x1b\x04\x08\x00\x01\x02\x03\x04\x05\x06\x07\x02\x01\x02\x30\x0c\x06\x08\x2a\x86\x48\x86\xf7\x0d\x02\x09\x05\x00\x30\x1d\x06\x09\x60\x86\x48\x01\x65\x03\x04\x01\x2a\x04\x10\x10\x11\x12\x13\x14\x15\x16\x17\x18\x19\x1a\x1b\x1c\x1d\x1e\x1f\x04\x10\x24\x28\x48\xaf\x53\xf6\x60\x70\xe8\xf5\x4e\x53\x76\xba\x62\x1c";

const SHORTER_KEY: &[u8] =
    b"\x30\x6d\x30\x59\x06\x09\x2a\x86\x48\x86\xf7\x0d\x01\x05\x0d\x30\x4c\x30\x2b\x06\x09\x2a\x86\x48\x86\xf7\x0d\x01\x05\x0c\x30\x1e\x04\x08\x00\x01\x02\x03\x04\x05\x06\x07\x02\x01\x02\x02\x01\x10\x30\x0c\x06\x08\x2a\x86\x48\x86\xf7\x0d\x02\x09\x05\x00\x30\x1d\x06\x09\x60\x86\x48\x01\x65\x03\x04\x01\x2a\x04\x10\x10\x11\x12\x13\x14\x15\x16\x17\x18\x19\x1a\x1b\x1c\x1d\x1e\x1f\x04\x10\xa5\xfe\x88\xc6\x84\x65\x54\x71\x4f\xe6\x46\x42\xa8\x01\xea\xa6";

const STATED_KEY: &[u8] =
    b"\x30\x6d\x30\x59\x06\x09\x2a\x86\x48\x86\xf7\x0d\x01\x05\x0d\x30\x4c\x30\x2b\x06\x09\x2a\x86\x48\x86\xf7\x0d\x01\x05\x0c\x30\x1e\x04\x08\x00\x01\x02\x03\x04\x05\x06\x07\x02\x01\x02\x02\x01\x20\x30\x0c\x06\x08\x2a\x86\x48\x86\xf7\x0d\x02\x09\x05\x00\x30\x1d\x06\x09\x60\x86\x48\x01\x65\x03\x04\x01\x2a\x04\x10\x10\x11\x12\x13\x14\x15\x16\x17\x18\x19\x1a\x1b\x1c\x1d\x1e\x1f\x04\x10\xa5\xfe\x88\xc6\x84\x65\x54\x71\x4f\xe6\x46\x42\xa8\x01\xea\xa6";

/// A document whose key is derived by scrypt (RFC 7914 section 7).
const OTHER_FUNCTION: &[u8] =
    b"\x30\x81\x93\x30\x4f\x06\x09\x2a\x86\x48\x86\xf7\x0d\x01\x05\x0d\x30\x42\x30\x21\x06\x09\x2b\x06\x01\x04\x01\xda\x47\x04\x0c\x30\x14\x04\x08\xe6\x21\x1e\x23\x48\xad\x69\xe0\x02\x02\x40\x00\x02\x01\x08\x02\x01\x01\x30\x1d\x06\x09\x60\x86\x48\x01\x65\x03\x04\x01\x2a\x04\x10\x9b\xd0\xa6\x25\x1f\x22\x54\xf9\xfd\x59\x63\x88\x7c\x27\xcf\x01\x04\x40\xcc\x62\xba\x77\x3c\x0f\x49\x5f\xab\x36\x68\xe4\xfc\xef\xcd\xb0\x8e\x78\xa0\xee\x15\xe0\xa1\x50\x13\xf6\x2a\xbe\x08\xda\xa7\x42\x06\x5e\xeb\x36\x6d\x6e\x6c\x98\xcc\x3b\x0e\x7e\x69\xbd\xc8\x61\xc8\x8a\xfe\xb8\xf0\x3d\xba\x1e\x2c\x6d\x99\xd0\x6d\x17\x36\x0c";

const MALFORMED: Error = Error::Asn1(asn1_core::Error::Malformed);

/// Octets of no document, and documents of no key.
static OF_NO_KEY: [&[u8]; 5] = [NO_SEQUENCE, LEFT_OVER, b"", b"\x30\x00", KEY];

#[test]
fn documents_that_are_refused(rt: HostRuntime) {
    let alloc = rt.alloc();
    for document in &OF_NO_KEY {
        assert!(rt; is_refused(alloc, document, MALFORMED), "{document:?}");
    }
    let oid = oid(&rt, "1.3.6.1.4.1.11591.4.12");
    let unknown = Error::Asn1(asn1_core::Error::OidUnknown { oid });
    let failed = Error::EncryptedPrivateKey(pkcs5::Error::DecryptFailed);
    assert!(rt;
        is_refused(alloc, OTHER_FUNCTION, unknown)
            && is_refused(alloc, &SEALED[..SEALED.len().saturating_sub(1)], MALFORMED)
            && refusal(alloc, SEALED, b"hunter43") == Some(failed)
    );
}

/// Whether encrypting the key under the parameters of a document is refused for this.
fn cannot_seal(rt: &impl Abort, alloc: Global, document: &[u8], refused: Error) -> bool {
    let parameters = parameters(rt, &read(rt, document));
    let sealed = super::read(rt, KEY).encrypt_with_params(alloc, parameters, b"hunter42");
    sealed.err() == Some(refused)
}

#[test]
fn a_stated_length_is_that_of_the_ciphers_key(rt: HostRuntime) {
    let alloc = rt.alloc();
    let oid = pbes2::PBKDF2_OID;
    let invalid = Error::EncryptedPrivateKey(pkcs5::Error::AlgorithmParametersInvalid { oid });
    assert!(rt;
        is_refused(alloc, SHORTER_KEY, invalid)
            && cannot_seal(&rt, alloc, SHORTER_KEY, invalid)
            && refusal(alloc, STATED_KEY, b"hunter42").is_none()
    );
}

#[test]
fn an_empty_ciphertext_is_another_document(rt: HostRuntime) {
    let info = read(&rt, SEALED);
    let empty = EncryptedPrivateKeyInfo {
        encryption_algorithm: info.encryption_algorithm,
        encrypted_data: OctetStringRef::new(&[]).expect(&rt, "a string"),
    };
    let refused = empty.decrypt(rt.alloc(), b"hunter42").err();
    let failed = Error::EncryptedPrivateKey(pkcs5::Error::DecryptFailed);
    assert!(rt; empty != info && info == info && refused == Some(failed));
}

#[test]
fn laws_of_documents_at_concrete_types(rt: HostRuntime) {
    let info = read(&rt, SEALED);
    texts_are_read::<&[u8], EncryptedPrivateKeyInfoRef<'_>>(SEALED);
    exact_spellings::<&[u8], EncryptedPrivateKeyInfoRef<'_>>(SEALED, &info);
    canon_is_read::<&[u8], EncryptedPrivateKeyInfoRef<'_>>(&info);
}
