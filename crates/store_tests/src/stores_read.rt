//! Stores, their parts and their derivation, with octets that other programs made: the derivation and the MACs by Python's `hashlib`
//! and `hmac`, Triple DES, PBES2 and keys by OpenSSL.

ghost use Rattle.std.specs.Prelude.{◌≡◌, ◌<◌, ◌^◌, length, true};
ghost use Rattle.p12.specs.AlgorithmIdentifier.{salt_of};

use crate::calls;
use crate::calls::Held;
use asn1_core::{Items, ObjectIdentifier, Reader, SliceReader, Text};
use mac_modes::Sha256;
use p12::{
    AlgorithmIdentifier, BagView, BagsView, CertBag, ContentInfo, ContentView, ContentsView,
    EncryptedPrivateKeyInfo, Error, MacData, PFX, PKCS12Attribute, Pkcs12PbeParams, SafeBag,
    SafeBagKind, StoreView, bmp_string, pbepkcs12, pbepkcs12sha1,
};
use pkcs5::pbes2::EncryptionScheme;
use std::alloc::Global;

/// A store of one X.509 certificate `3000` in a plain content, under the password `p`, one round and the salt 01 to 08.
pub const STORE: &[u8] =
    b"\x30\x81\x80\x02\x01\x03\x30\x49\x06\x09\x2a\x86\x48\x86\xf7\x0d\x01\x07\x01\xa0\
    \x3c\x04\x3a\x30\x38\x30\x36\x06\x09\x2a\x86\x48\x86\xf7\x0d\x01\x07\x01\xa0\x29\
    \x04\x27\x30\x25\x30\x23\x06\x0b\x2a\x86\x48\x86\xf7\x0d\x01\x0c\x0a\x01\x03\xa0\
    \x14\x30\x12\x06\x0a\x2a\x86\x48\x86\xf7\x0d\x01\x09\x16\x01\xa0\x04\x04\x02\x30\
    \x00\x30\x30\x30\x21\x30\x09\x06\x05\x2b\x0e\x03\x02\x1a\x05\x00\x04\x14\x7d\xa6\
    \xce\xa4\xc0\xb8\xde\x69\xae\xa9\x26\xd0\x1f\x9e\xe8\xc8\x8c\xc4\x5d\x2b\x04\x08\
    \x01\x02\x03\x04\x05\x06\x07\x08\x02\x01\x01";

/// The same bag in a content under Triple DES with two rounds and the salt 08 to 01.
pub const SEALED_STORE: &[u8] =
    b"\x30\x81\xb0\x02\x01\x03\x30\x79\x06\x09\x2a\x86\x48\x86\xf7\x0d\x01\x07\x01\xa0\
    \x6c\x04\x6a\x30\x68\x30\x66\x06\x09\x2a\x86\x48\x86\xf7\x0d\x01\x07\x06\xa0\x59\
    \x30\x57\x02\x01\x00\x30\x52\x06\x09\x2a\x86\x48\x86\xf7\x0d\x01\x07\x01\x30\x1b\
    \x06\x0a\x2a\x86\x48\x86\xf7\x0d\x01\x0c\x01\x03\x30\x0d\x04\x08\x08\x07\x06\x05\
    \x04\x03\x02\x01\x02\x01\x02\x80\x28\x78\x73\x78\x8e\x8e\x3e\x60\x87\x7e\x50\x37\
    \x81\x7e\x55\x79\xae\x4a\x00\xbe\x95\xda\x2e\xfe\x4d\xa7\x05\xe1\x84\xf2\x85\x07\
    \x1b\x84\x69\x62\xc7\x94\x82\xf0\xc6\x30\x30\x30\x21\x30\x09\x06\x05\x2b\x0e\x03\
    \x02\x1a\x05\x00\x04\x14\x5f\x73\x79\xad\xe1\x22\x64\x29\x77\xf1\x23\xae\x10\xf9\
    \xf1\x5c\xde\xb0\xbc\xc3\x04\x08\x01\x02\x03\x04\x05\x06\x07\x08\x02\x01\x01";

/// The contents of `STORE`.
const CONTENTS: &[u8] =
    b"\x30\x38\x30\x36\x06\x09\x2a\x86\x48\x86\xf7\x0d\x01\x07\x01\xa0\x29\x04\x27\x30\
    \x25\x30\x23\x06\x0b\x2a\x86\x48\x86\xf7\x0d\x01\x0c\x0a\x01\x03\xa0\x14\x30\x12\
    \x06\x0a\x2a\x86\x48\x86\xf7\x0d\x01\x09\x16\x01\xa0\x04\x04\x02\x30\x00";

/// The bag of both stores, in its list.
const BAGS: &[u8] =
    b"\x30\x25\x30\x23\x06\x0b\x2a\x86\x48\x86\xf7\x0d\x01\x0c\x0a\x01\x03\xa0\x14\x30\
    \x12\x06\x0a\x2a\x86\x48\x86\xf7\x0d\x01\x09\x16\x01\xa0\x04\x04\x02\x30\x00";

/// A private key of OpenSSL.
pub const KEY: &[u8] =
    b"\x30\x2e\x02\x01\x00\x30\x05\x06\x03\x2b\x65\x70\x04\x22\x04\x20\x34\x50\x10\x42\
    \x3a\x87\xc0\x11\xc2\x56\x1f\x62\x3f\x4e\x81\x32\x59\x0a\xc5\x4b\x0c\x4b\xe3\x28\
    \x4d\xb6\xfc\xb9\xc5\x34\xff\x85";

/// Its EncryptedPrivateKeyInfo under the password `p` (`openssl pkcs8 -topk8 -v1 PBE-SHA1-3DES -iter 1`).
pub const ENCRYPTED_KEY: &[u8] =
    b"\x30\x57\x30\x1b\x06\x0a\x2a\x86\x48\x86\xf7\x0d\x01\x0c\x01\x03\x30\x0d\x04\x08\
    \x26\xe0\x1c\xe8\xa9\xfe\x34\x83\x02\x01\x01\x04\x38\xb6\x30\x4f\x1c\xdd\xfc\xda\
    \xc1\x69\x8f\xd1\xe0\xf2\x44\x4f\xf5\xbc\x3b\x33\xdb\x65\x25\xc7\xeb\x41\x13\x12\
    \x44\xe0\xb9\xb3\xdf\x54\xb3\xdc\x4b\x06\x03\x4c\x59\x7d\x22\x83\x73\x55\x70\xaf\
    \x9d\x5c\xe5\xc2\xe1\x8a\xdf\x3c\xb8";

/// The same under the password `p\u{e4}` by PBES2 (`-v2 aes-256-cbc -iter 3`).
pub const PBES2_KEY: &[u8] =
    b"\x30\x81\x9a\x30\x56\x06\x09\x2a\x86\x48\x86\xf7\x0d\x01\x05\x0d\x30\x49\x30\x28\
    \x06\x09\x2a\x86\x48\x86\xf7\x0d\x01\x05\x0c\x30\x1b\x04\x08\x55\x1c\xf0\xc1\x3e\
    \xd5\x42\x71\x02\x01\x03\x30\x0c\x06\x08\x2a\x86\x48\x86\xf7\x0d\x02\x09\x05\x00\
    \x30\x1d\x06\x09\x60\x86\x48\x01\x65\x03\x04\x01\x2a\x04\x10\x89\x22\x07\x2b\xae\
    \x5b\xb5\xa5\x30\x65\xc1\xb3\x8e\xae\x3f\x82\x04\x40\x04\x3f\xc3\x66\xdc\x94\x86\
    \x46\x9b\x27\x0f\x3c\x63\x27\xc2\x33\x23\xa4\xd6\xd4\x57\xa7\xb2\x33\x24\x17\x40\
    \x6b\x9d\x3d\xff\x6a\x2a\x6a\xc2\xcd\x75\x66\x85\x65\x78\x2d\xa4\x2c\x29\xd8\xdc\
    \x94\x36\x71\xa3\x0b\x3d\x08\x88\xeb\xc9\xfa\x28\xe7\x39\x88\xbf\x79";

/// The password `p` in UTF-16 (RFC 7292 appendix B.1).
pub const PASSWORD: [u8; 4] = [0, 0x70, 0, 0];

pub const SALT: [u8; 8] = [1, 2, 3, 4, 5, 6, 7, 8];

#[test]
fn a_password_is_utf16_and_two_zeros(rt: HostRuntime) {
    let wanted = b"\xd8\x34\xdd\x1e\x00\x62\x00\x00";
    assert!(rt; calls::gives(bmp_string(rt.alloc(), "\u{1d11e}b"), wanted));
}

/// 25 octets for a key under SHA-1 and the empty password, and 32 for the key of a MAC under SHA-256 and `p`.
const SHA1_KEY: &[u8] =
    b"\xd7\xfd\x31\x6b\x90\x8c\xe1\xea\x92\x22\x1a\x54\x10\x37\x41\xe0\xd8\xaa\x82\xc6\
    \x75\x50\xc5\xba\x3b";

const SHA256_KEY: &[u8] =
    b"\xd0\x4c\x49\x26\x50\xaa\x7f\x7b\xae\xf9\xa5\xd0\x4b\xa4\x61\x32\x71\x47\x09\x38\
    \x27\xb5\xf7\xc9\x2f\x70\xf7\xae\x62\x99\xe8\xf4";

#[test]
fn keys_are_derived(rt: HostRuntime) {
    let alloc = rt.alloc();
    let salt = b"\x9a\xf4\x70\x29\x58\xa8\xe9\x5c";
    assert!(rt; calls::gives(pbepkcs12sha1(alloc, &[0, 0], salt, 3, 1, 25), SHA1_KEY));
    let key = pbepkcs12::<Sha256>(alloc, &PASSWORD, &SALT, 3, 3, 32);
    assert!(rt; calls::gives(key, SHA256_KEY));
}

/// The MAC of the empty list under SHA-1 and the empty password.
pub fn sha1_mac(alloc: Global) -> Result<MacData, Error> {
    MacData::with_salt(alloc, &[0x30, 0], &[0, 0], &SALT, 1)
}

/// The MAC of `abc` under SHA-256 and `p`, in a copy.
fn sha256_mac(alloc: Global) -> Result<MacData, Error> {
    MacData::with_salt_sha256(alloc, b"abc", &PASSWORD, &SALT, 3)?.try_clone(alloc)
}

/// Whether a MAC has a salt of 8 octets, and agrees over a content under a password in UTF-16.
fn agrees(alloc: Global, mac: &MacData, content: &[u8], password: &[u8]) -> Result<bool, Error>
    requires content { length content.now < 2 ^ 32 }
    requires password { length password.now < 2 ^ 59 }
{
    if mac.salt.len() != 8 {
        return Err(Error::Malformed);
    }
    mac.verify_mac(alloc, content, password)
}

/// The digest of the MAC under SHA-1.
const SHA1_DIGEST: &[u8] =
    b"\xa4\xa4\xaf\x5b\xf3\x0c\x0e\xd0\xd0\x79\xc4\xd2\xa5\x7f\xdc\xd2\x30\x14\x9e\xc9";

/// Whether a MAC has that digest, and agrees under the empty password alone.
fn is_sha1_mac(alloc: Global, mac: &MacData) -> bool {
    mac.mac.digest.as_slice() == SHA1_DIGEST
        && agrees(alloc, mac, &[0x30, 0], &[0, 0]) == Ok(true)
        && agrees(alloc, mac, &[0x30, 0], &PASSWORD) == Ok(false)
}

/// Whether such a MAC is made.
fn is_sha1_mac_made(alloc: Global) -> bool {
    match sha1_mac(alloc) {
        Ok(mac) => is_sha1_mac(alloc, &mac),
        Err(_) => false,
    }
}

/// The digest of the MAC under SHA-256.
const SHA256_DIGEST: &[u8] =
    b"\x18\xa7\x25\xd3\x47\x07\xec\x5b\x4e\xd6\xca\xd4\xd8\xdd\xc6\x01\x55\xb0\x1f\x58\
    \x71\xf8\x5a\xf4\xc1\x6a\x68\x3d\x09\xdc\x58\x0b";

/// Whether a MAC has that digest, and agrees.
fn is_sha256_mac(alloc: Global, mac: &MacData) -> bool {
    mac.mac.digest.as_slice() == SHA256_DIGEST && agrees(alloc, mac, b"abc", &PASSWORD) == Ok(true)
}

/// Whether such a MAC is made.
fn is_sha256_mac_made(alloc: Global) -> bool {
    match sha256_mac(alloc) {
        Ok(mac) => is_sha256_mac(alloc, &mac),
        Err(_) => false,
    }
}

#[test]
fn macs_are_made(rt: HostRuntime) {
    let alloc = rt.alloc();
    assert!(rt; is_sha1_mac_made(alloc));
    assert!(rt; is_sha256_mac_made(alloc));
}

/// Whether a store has version 3, a MAC, and `CONTENTS` as its plain content.
fn is_plain_store(store: &PFX) -> bool {
    match &store.auth_safe {
        ContentInfo::Data(contents) => {
            store.version == 3 && store.mac_data.is_some() && contents.as_slice() == CONTENTS
        }
        _ => false,
    }
}

/// Whether the copy of a store is that.
fn is_copy_plain(copy: Result<PFX, Error>) -> bool {
    match copy {
        Ok(store) => is_plain_store(&store),
        Err(_) => false,
    }
}

/// Whether `STORE` is read as that, and copied.
fn is_plain_store_copied(alloc: Global) -> bool {
    match calls::store(alloc, STORE) {
        Ok(store) => is_copy_plain(store.try_clone(alloc)),
        Err(_) => false,
    }
}

#[test]
fn a_plain_store_is_read(rt: HostRuntime) {
    assert!(rt; is_plain_store_copied(rt.alloc()));
}

/// Whether the first of these contents is plain and holds `BAGS`.
fn has_plain_content(answer: Result<Items<ContentInfo>, Error>) -> bool {
    match answer {
        Ok(contents) => match contents.get(0) {
            Some(ContentInfo::Data(inner)) => inner.as_slice() == BAGS,
            _ => false,
        },
        Err(_) => false,
    }
}

/// Whether the first of these bags has the certificate `3000`.
fn has_certificate(alloc: Global, answer: Result<Items<SafeBag>, Error>) -> bool {
    match answer {
        Ok(bags) => match bags.get(0) {
            Some(bag) => calls::opens_to(bag.bag.get_x509_cert(alloc), &[0x30, 0]),
            None => false,
        },
        Err(_) => false,
    }
}

#[test]
fn lists_of_contents_and_of_bags_are_read(rt: HostRuntime) {
    let alloc = rt.alloc();
    assert!(rt; has_plain_content(ContentInfo::parse_all(alloc, CONTENTS)));
    assert!(rt; has_certificate(alloc, SafeBag::parse_all(alloc, BAGS)));
}

/// The content of `SEALED_STORE`.
pub fn sealed_content(alloc: Global) -> Result<ContentInfo, Error> {
    ContentInfo::parse(alloc, &mut SliceReader::new(&SEALED_STORE[25..]))
}

/// Whether a content has 40 octets under Triple DES in two rounds, which open to `BAGS` under the password in UTF-16, and to
/// nothing under the empty one.
fn is_sealed(alloc: Global, content: &ContentInfo) -> bool {
    let ContentInfo::EncryptedData(encrypted) = content else {
        return false;
    };
    let info = &encrypted.encrypted_content_info;
    info.encrypted_content.len() == 40
        && calls::is_triple_des(&info.content_encryption_algorithm, 2)
        && calls::opens_to(content.data(alloc, &PASSWORD), BAGS)
        && calls::stays_closed(content.data(alloc, &[0, 0]))
}

/// Whether the copy of a content is so sealed.
fn is_copy_sealed(alloc: Global, copy: Result<ContentInfo, Error>) -> bool {
    match copy {
        Ok(content) => is_sealed(alloc, &content),
        Err(_) => false,
    }
}

/// Whether the content of `SEALED_STORE` is, in a copy.
fn is_sealed_content_opened(alloc: Global) -> bool {
    match sealed_content(alloc) {
        Ok(content) => is_copy_sealed(alloc, content.try_clone(alloc)),
        Err(_) => false,
    }
}

#[test]
fn a_sealed_content_opens(rt: HostRuntime) {
    assert!(rt; is_sealed_content_opened(rt.alloc()));
}

/// One certificate of X.509, `3000`.
static ONE_CERTIFICATE: Held<'static> = Held {
    has_mac: true,
    certificates: &[b"\x30\x00"],
    sdsi: None,
    keys: &[],
};

/// The bags of a store under a password.
fn bags_of(alloc: Global, text: &[u8], password: &str) -> Result<Items<SafeBag>, Error>
    requires { length password.now < 2 ^ 57 }
{
    let store = calls::store(alloc, text)?;
    store.bags(alloc, password)
}

/// Whether there is one bag.
fn is_one_bag(answer: Result<Items<SafeBag>, Error>) -> bool {
    match answer {
        Ok(bags) => bags.len() == 1,
        Err(_) => false,
    }
}

#[test]
fn the_bags_of_a_store_are_collected_and_its_mac_agrees(rt: HostRuntime) {
    let alloc = rt.alloc();
    for text in [STORE, SEALED_STORE] {
        assert!(rt; is_one_bag(bags_of(alloc, text, "p")));
        let store = calls::store(alloc, text);
        assert!(rt; calls::is_filled(alloc, store, "p", "q", &ONE_CERTIFICATE));
    }
}

/// Whether a content gave no plain octets.
fn is_invalid(answer: Result<Items<SafeBag>, Error>) -> bool {
    matches!(answer, Err(Error::Invalid))
}

#[test]
fn a_sealed_store_opens_under_no_other_password(rt: HostRuntime) {
    assert!(rt; is_invalid(bags_of(rt.alloc(), SEALED_STORE, "q")));
}

/// The bag of `ENCRYPTED_KEY`.
fn key_bag(alloc: Global) -> Result<SafeBagKind, Error> {
    let identifier = ObjectIdentifier::from_bytes(b"\x2a\x86\x48\x86\xf7\x0d\x01\x0c\x0a\x01\x02")?;
    SafeBagKind::parse(alloc, &mut SliceReader::new(ENCRYPTED_KEY), identifier)
}

/// Whether a key of 56 octets is under Triple DES in one round with a salt of 8 octets.
fn is_triple_des_key(key: &EncryptedPrivateKeyInfo) -> bool
    ensures text { result ≡ true → length key.now.encrypted_data ≡ 56 }
    ensures salt { result ≡ true → length (salt_of key.now.encryption_algorithm) ≡ 8 }
{
    key.encrypted_data.len() == 56 && calls::is_triple_des(&key.encryption_algorithm, 1)
}

/// Whether a bag has such a key, which opens to `KEY` under `p`, and to nothing under the empty password.
fn gives_its_key(alloc: Global, bag: &SafeBagKind) -> bool {
    match bag {
        SafeBagKind::Pkcs8ShroudedKeyBag(key) if is_triple_des_key(key) => {
            calls::opens_to(bag.get_key(alloc, &PASSWORD), KEY)
                && calls::stays_closed(key.decrypt(alloc, &[0, 0]))
        }
        _ => false,
    }
}

/// Whether the bag of `ENCRYPTED_KEY` does.
fn is_key_opened(alloc: Global) -> bool {
    match key_bag(alloc) {
        Ok(bag) => gives_its_key(alloc, &bag),
        Err(_) => false,
    }
}

#[test]
fn an_encrypted_key_opens(rt: HostRuntime) {
    assert!(rt; is_key_opened(rt.alloc()));
}

/// Whether Triple DES, in one round under a salt of 8 octets, seals `KEY` to the ciphertext of this key.
fn is_sealed_under_triple_des(alloc: Global, key: &EncryptedPrivateKeyInfo) -> bool {
    let algorithm = &key.encryption_algorithm;
    match algorithm {
        AlgorithmIdentifier::PbeWithSHAAnd3KeyTripleDESCBC(params)
            if params.salt.len() == 8 && params.iterations == 1 => {
            calls::gives(
                algorithm.encrypt_pbe(alloc, KEY, &PASSWORD),
                key.encrypted_data.as_slice(),
            )
        }
        _ => false,
    }
}

/// Whether AES-256 by PBES2 in three rounds seals `KEY` to the ciphertext of this key.
fn is_sealed_under_pbes2(alloc: Global, key: &EncryptedPrivateKeyInfo) -> bool {
    let algorithm = &key.encryption_algorithm;
    let AlgorithmIdentifier::Pbes2(parameters) = algorithm else {
        return false;
    };
    let EncryptionScheme::Aes256Cbc { .. } = parameters.encryption else {
        return false;
    };
    if !algorithm.is_openable() || algorithm.count() != 3 || algorithm.cost() != 3 {
        return false;
    }
    calls::gives(
        algorithm.encrypt_text(alloc, KEY, "p\u{e4}"),
        key.encrypted_data.as_slice(),
    )
}

/// Whether `KEY` is sealed to this text, under either.
fn is_key_sealed(alloc: Global, text: &[u8]) -> bool {
    match calls::encrypted_key(alloc, text) {
        Ok(key) => is_sealed_under_triple_des(alloc, &key) || is_sealed_under_pbes2(alloc, &key),
        Err(_) => false,
    }
}

#[test]
fn a_key_is_sealed_under_triple_des_and_pbes2(rt: HostRuntime) {
    let alloc = rt.alloc();
    assert!(rt; is_key_sealed(alloc, ENCRYPTED_KEY));
    assert!(rt; is_key_sealed(alloc, PBES2_KEY));
}

/// An algorithm under RC2 with 40 bits, and its parameters.
pub const RC2: &[u8] =
    b"\x30\x1c\x06\x0a\x2a\x86\x48\x86\xf7\x0d\x01\x0c\x01\x06\x30\x0e\x04\x08\x00\x01\
    \x02\x03\x04\x05\x06\x07\x02\x02\x08\x00";

/// A copy of the algorithm that a text is read as.
fn copied_algorithm(alloc: Global, text: &[u8]) -> Result<AlgorithmIdentifier, Error> {
    calls::algorithm(alloc, text)?.try_clone(alloc)
}

/// Whether parameters are those of `RC2`.
fn are_rc2_params(params: &Pkcs12PbeParams) -> bool {
    params.salt.as_slice() == &RC2[18..26] && params.iterations == 2048
}

/// Whether an algorithm is that under RC2, which opens nothing.
fn is_rc2(alloc: Global, algorithm: &AlgorithmIdentifier) -> bool {
    match algorithm {
        AlgorithmIdentifier::PbewithSHAAnd40BitRC2CBC(params) if params.salt.len() == 8 => {
            are_rc2_params(params)
                && calls::stays_closed(algorithm.decrypt_pbe(alloc, &[0; 8], &[0, 0]))
        }
        _ => false,
    }
}

/// Whether a copy of `RC2` is that.
fn is_rc2_read(alloc: Global) -> bool {
    match copied_algorithm(alloc, RC2) {
        Ok(algorithm) => is_rc2(alloc, &algorithm),
        Err(_) => false,
    }
}

#[test]
fn rc2_is_read_and_not_opened(rt: HostRuntime) {
    assert!(rt; is_rc2_read(rt.alloc()));
}

/// Whether parameters alone are read as those of `RC2`, and a copy is equal.
fn are_parameters_read(alloc: Global) -> Result<bool, Error> {
    let params = Pkcs12PbeParams::parse(alloc, &mut SliceReader::new(&RC2[14..]))?;
    Ok(are_rc2_params(&params) && params == params.try_clone(alloc)?)
}

#[test]
fn the_parameters_of_an_algorithm_are_read(rt: HostRuntime) {
    assert!(rt; are_parameters_read(rt.alloc()) == Ok(true));
}

/// Whether a text is read as SHA-1; none where it is refused.
fn is_sha1(alloc: Global, text: &[u8]) -> Option<bool> {
    match calls::algorithm(alloc, text) {
        Ok(read) => Some(matches!(read, AlgorithmIdentifier::Sha1)),
        Err(_) => None,
    }
}

/// Whether an algorithm is none of those that have names here.
fn is_other(answer: Result<AlgorithmIdentifier, Error>) -> bool {
    matches!(answer, Ok(AlgorithmIdentifier::OtherAlg(_)))
}

/// Texts, and whether they are SHA-1: without NULL and with it, another algorithm; and texts that are refused: a NULL more, an
/// OCTET STRING for the NULL, a length in too many octets.
static DIGESTS: [(&[u8], Option<bool>); 6] = [
    (b"\x30\x07\x06\x05\x2b\x0e\x03\x02\x1a", Some(true)),
    (b"\x30\x09\x06\x05\x2b\x0e\x03\x02\x1a\x05\x00", Some(true)),
    (b"\x30\x05\x06\x01\x2a\x05\x00", Some(false)),
    (
        b"\x30\x0b\x06\x05\x2b\x0e\x03\x02\x1a\x05\x00\x05\x00",
        None,
    ),
    (b"\x30\x09\x06\x05\x2b\x0e\x03\x02\x1a\x04\x00", None),
    (b"\x30\x81\x07\x06\x05\x2b\x0e\x03\x02\x1a", None),
];

#[test]
fn digests_are_read(rt: HostRuntime) {
    let alloc = rt.alloc();
    for (text, wanted) in &DIGESTS {
        assert!(rt; is_sha1(alloc, text) == *wanted);
    }
    assert!(rt; is_other(copied_algorithm(alloc, b"\x30\x05\x06\x01\x2a\x05\x00")));
}

/// A copy of the attribute that a text is read as.
fn attribute(alloc: Global, text: &[u8]) -> Result<PKCS12Attribute, Error> {
    PKCS12Attribute::parse(alloc, &mut SliceReader::new(text))?.try_clone(alloc)
}

/// Whether an attribute is this name.
fn is_name(answer: Result<PKCS12Attribute, Error>, name: &str) -> bool {
    match answer {
        Ok(PKCS12Attribute::FriendlyName(text)) => text.as_str() == name,
        _ => false,
    }
}

/// Whether a text is no attribute.
fn is_no_attribute(alloc: Global, text: &[u8]) -> bool {
    attribute(alloc, text).is_err()
}

/// Names without a value, of an odd number of octets, and with a lone surrogate.
static BAD_NAMES: [&[u8]; 3] = [
    b"\x30\x0d\x06\x09\x2a\x86\x48\x86\xf7\x0d\x01\x09\x14\x31\x00",
    b"\x30\x12\x06\x09\x2a\x86\x48\x86\xf7\x0d\x01\x09\x14\x31\x05\x1e\x03\x00\x61\x00",
    b"\x30\x11\x06\x09\x2a\x86\x48\x86\xf7\x0d\x01\x09\x14\x31\x04\x1e\x02\xd8\x34",
];

#[test]
fn the_last_name_of_a_set_counts(rt: HostRuntime) {
    let alloc = rt.alloc();
    let two = b"\x30\x15\x06\x09\x2a\x86\x48\x86\xf7\x0d\x01\x09\x14\x31\x08\x1e\x02\x00\x61\x1e\
    \x02\x00\x62";
    assert!(rt; is_name(attribute(alloc, two), "b"));
    for bad in &BAD_NAMES {
        assert!(rt; is_no_attribute(alloc, bad));
    }
}

/// Whether an attribute is this key id.
fn is_key_id(answer: Result<PKCS12Attribute, Error>, key_id: &[u8]) -> bool {
    match answer {
        Ok(PKCS12Attribute::LocalKeyId(octets)) => octets.as_slice() == key_id,
        _ => false,
    }
}

/// Whether an attribute is of another kind, with one value.
fn is_other_attribute(answer: Result<PKCS12Attribute, Error>) -> bool {
    match answer {
        Ok(PKCS12Attribute::Other(other)) => other.values.len() == 1,
        _ => false,
    }
}

#[test]
fn a_key_id_and_other_attributes_are_read(rt: HostRuntime) {
    let alloc = rt.alloc();
    let key_id =
        b"\x30\x12\x06\x09\x2a\x86\x48\x86\xf7\x0d\x01\x09\x15\x31\x05\x04\x03\x0a\x0b\x0c";
    assert!(rt; is_key_id(attribute(alloc, key_id), &[10, 11, 12]));
    let other = b"\x30\x07\x06\x01\x2a\x31\x02\x05\x00";
    assert!(rt; is_other_attribute(attribute(alloc, other)));
}

/// A certificate bag with the name `b` and the key id 7.
pub const NAMED_BAG: &[u8] =
    b"\x30\x4a\x06\x0b\x2a\x86\x48\x86\xf7\x0d\x01\x0c\x0a\x01\x03\xa0\x14\x30\x12\x06\
    \x0a\x2a\x86\x48\x86\xf7\x0d\x01\x09\x16\x01\xa0\x04\x04\x02\x30\x00\x31\x25\x30\
    \x11\x06\x09\x2a\x86\x48\x86\xf7\x0d\x01\x09\x14\x31\x04\x1e\x02\x00\x62\x30\x10\
    \x06\x09\x2a\x86\x48\x86\xf7\x0d\x01\x09\x15\x31\x03\x04\x01\x07";

/// A copy of the bag that a text is read as.
fn copied_bag(alloc: Global, text: &[u8]) -> Result<SafeBag, Error> {
    SafeBag::parse(alloc, &mut SliceReader::new(text))?.try_clone(alloc)
}

/// Whether there is no text.
fn is_no_text(answer: Result<Option<Text>, Error>) -> bool {
    matches!(answer, Ok(None))
}

/// Whether a bag has the identifier of a certificate bag, and no SDSI text.
fn is_x509_bag(alloc: Global, bag: &SafeBagKind) -> bool {
    bag.oid().as_bytes() == b"\x2a\x86\x48\x86\xf7\x0d\x01\x0c\x0a\x01\x03".as_slice()
        && is_no_text(bag.get_sdsi_cert(alloc))
}

/// Whether a bag is such a bag, with the name `b` and the key id 7.
fn is_named_bag(alloc: Global, bag: &SafeBag) -> bool {
    calls::is_text(bag.friendly_name(alloc), "b")
        && calls::opens_to(bag.local_key_id(alloc), &[7])
        && is_x509_bag(alloc, &bag.bag)
}

/// Whether a copy of `NAMED_BAG` is.
fn is_named_bag_read(alloc: Global) -> bool {
    match copied_bag(alloc, NAMED_BAG) {
        Ok(bag) => is_named_bag(alloc, &bag),
        Err(_) => false,
    }
}

#[test]
fn bags_are_read_with_their_attributes(rt: HostRuntime) {
    assert!(rt; is_named_bag_read(rt.alloc()));
}

/// A store without a MAC, of one SDSI certificate, `ab`.
const SDSI_STORE: &[u8] =
    b"\x30\x4e\x02\x01\x03\x30\x49\x06\x09\x2a\x86\x48\x86\xf7\x0d\x01\x07\x01\xa0\x3c\
    \x04\x3a\x30\x38\x30\x36\x06\x09\x2a\x86\x48\x86\xf7\x0d\x01\x07\x01\xa0\x29\x04\x27\
    \x30\x25\x30\x23\x06\x0b\x2a\x86\x48\x86\xf7\x0d\x01\x0c\x0a\x01\x03\xa0\x14\x30\x12\
    \x06\x0a\x2a\x86\x48\x86\xf7\x0d\x01\x09\x16\x02\xa0\x04\x16\x02\x61\x62";

/// One SDSI certificate, and no MAC.
static ONE_SDSI: Held<'static> = Held {
    has_mac: false,
    certificates: &[],
    sdsi: Some("ab"),
    keys: &[],
};

/// Whether the SDSI certificate of a bag is `ab`.
fn is_ab(alloc: Global, bag: &SafeBagKind) -> bool {
    calls::is_text(bag.get_sdsi_cert(alloc), "ab")
}

/// Whether that of the first of these bags is.
fn has_ab(alloc: Global, answer: Result<Items<SafeBag>, Error>) -> bool {
    match answer {
        Ok(bags) => match bags.get(0) {
            Some(bag) => is_ab(alloc, &bag.bag),
            None => false,
        },
        Err(_) => false,
    }
}

#[test]
fn the_sdsi_certificates_of_a_store_are_collected(rt: HostRuntime) {
    let alloc = rt.alloc();
    assert!(rt; has_ab(alloc, bags_of(alloc, SDSI_STORE, "p")));
    let store = calls::store(alloc, SDSI_STORE);
    assert!(rt; calls::is_filled(alloc, store, "p", "q", &ONE_SDSI));
}

/// The SDSI certificate `ab`.
const SDSI: &[u8] =
    b"\x30\x12\x06\x0a\x2a\x86\x48\x86\xf7\x0d\x01\x09\x16\x02\xa0\x04\x16\x02\x61\x62";

/// A copy of the certificate of a text, in a bag.
fn certificate_bag(alloc: Global, text: &[u8]) -> Result<SafeBagKind, Error> {
    let certificate = CertBag::parse(alloc, &mut SliceReader::new(text))?;
    Ok(SafeBagKind::CertBag(certificate.try_clone(alloc)?))
}

/// Whether the SDSI certificate of the copy of a bag is `ab`.
fn is_sdsi_bag(alloc: Global, copy: Result<SafeBagKind, Error>) -> bool {
    match copy {
        Ok(bag) => is_ab(alloc, &bag),
        Err(_) => false,
    }
}

/// Whether the certificate of `SDSI` is read, and copied in its bag.
fn is_sdsi_read(alloc: Global) -> bool {
    match certificate_bag(alloc, SDSI) {
        Ok(bag) => is_sdsi_bag(alloc, bag.try_clone(alloc)),
        Err(_) => false,
    }
}

#[test]
fn sdsi_certificates_are_read(rt: HostRuntime) {
    assert!(rt; is_sdsi_read(rt.alloc()));
}

/// SDSI with a character over 127, and a certificate of a third kind.
static BAD_CERTIFICATES: [&[u8]; 2] = [
    b"\x30\x12\x06\x0a\x2a\x86\x48\x86\xf7\x0d\x01\x09\x16\x02\xa0\x04\x16\x02\x61\xff",
    b"\x30\x12\x06\x0a\x2a\x86\x48\x86\xf7\x0d\x01\x09\x16\x03\xa0\x04\x16\x02\x61\x62",
];

/// Whether a text is no certificate, and the reader stays in front of it.
fn is_no_certificate(alloc: Global, text: &[u8]) -> bool {
    let mut r = SliceReader::new(text);
    CertBag::parse(alloc, &mut r).is_err() && r.position() == 0
}

#[test]
fn other_certificates_are_refused(rt: HostRuntime) {
    for bad in &BAD_CERTIFICATES {
        assert!(rt; is_no_certificate(rt.alloc(), bad));
    }
}

/// Whether a text is a store that has no MAC; none where it is refused.
fn has_no_mac(alloc: Global, text: &[u8]) -> Option<bool> {
    match calls::store(alloc, text) {
        Ok(store) => Some(store.mac_data.is_none()),
        Err(_) => None,
    }
}

/// Whether a text is no store, whether it is read into memory or lent.
fn is_no_store(alloc: Global, text: &[u8]) -> bool {
    has_no_mac(alloc, text).is_none() && StoreView::parse(text).is_err()
}

/// A store of no contents, without a MAC.
const EMPTY_STORE: &[u8] =
    b"\x30\x16\x02\x01\x03\x30\x11\x06\x09\x2a\x86\x48\x86\xf7\x0d\x01\x07\x01\xa0\x04\
    \x04\x02\x30\x00";

/// No octets; that store with one octet more, one less, a long length, an indefinite one, a version of 256.
static FAULTY_STORES: [&[u8]; 6] = [
    b"",
    b"\x30\x16\x02\x01\x03\x30\x11\x06\x09\x2a\x86\x48\x86\xf7\x0d\x01\x07\x01\xa0\x04\
    \x04\x02\x30\x00\x00",
    b"\x30\x16\x02\x01\x03\x30\x11\x06\x09\x2a\x86\x48\x86\xf7\x0d\x01\x07\x01\xa0\x04\
    \x04\x02\x30",
    b"\x30\x81\x16\x02\x01\x03\x30\x11\x06\x09\x2a\x86\x48\x86\xf7\x0d\x01\x07\x01\xa0\
    \x04\x04\x02\x30\x00",
    b"\x30\x80\x02\x01\x03\x30\x11\x06\x09\x2a\x86\x48\x86\xf7\x0d\x01\x07\x01\xa0\x04\
    \x04\x02\x30\x00\x00\x00",
    b"\x30\x17\x02\x02\x01\x00\x30\x11\x06\x09\x2a\x86\x48\x86\xf7\x0d\x01\x07\x01\xa0\
    \x04\x04\x02\x30\x00",
];

#[test]
fn faulty_stores_are_refused(rt: HostRuntime) {
    let alloc = rt.alloc();
    for bad in &FAULTY_STORES {
        assert!(rt; is_no_store(alloc, bad));
    }
    assert!(rt; has_no_mac(alloc, EMPTY_STORE) == Some(true));
}

/// Whether these contents are one encrypted content, whose octets are at their place in `SEALED_STORE`.
fn lends_encrypted_content(contents: &[u8]) -> bool {
    let Ok(mut contents) = ContentsView::parse(contents) else {
        return false;
    };
    match contents.next() {
        Some(ContentView::Encrypted { at, .. }) => {
            at.start == 66 && at.len == 40 && contents.next().is_none()
        }
        _ => false,
    }
}

/// Whether `SEALED_STORE` lends its contents, which are at their place, and have that encrypted content.
fn lends_contents() -> bool {
    match StoreView::parse(SEALED_STORE) {
        Ok(
            StoreView {
                auth_safe: ContentView::Plain { content, at },
                ..
            },
        ) => at.start == 23 && at.len == 106 && lends_encrypted_content(content),
        _ => false,
    }
}

#[test]
fn a_store_lends_its_contents(rt: HostRuntime) {
    assert!(rt; lends_contents());
}

/// Whether `BAGS` lends one bag, that of the certificate `3000`, and then no bag however often it is asked.
fn lends_one_bag() -> bool {
    let Ok(mut bags) = BagsView::parse(BAGS) else {
        return false;
    };
    match bags.next() {
        Some(BagView::X509(certificate)) => {
            certificate == b"\x30\x00".as_slice() && bags.next().is_none() && bags.next().is_none()
        }
        _ => false,
    }
}

#[test]
fn a_list_lends_its_bags(rt: HostRuntime) {
    assert!(rt; lends_one_bag());
}
