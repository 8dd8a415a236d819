//! Encryption and decryption: a vector of RFC 8018's scheme as OpenSSL writes it, and refusals. Each pseudorandom function and each
//! cipher is tried by the lines of `tests/vectors/schemes.txt`.
use asn1_core::Octets;
use pkcs5::Error;
use pkcs5::pbes2::{
    EncryptionKey, EncryptionScheme, Kdf, PBKDF2_OID, Parameters, Pbkdf2Params, Pbkdf2Prf, Salt,
};
use std::alloc::Global;
use std::process::Abort;

/// A private key of Ed25519 (RFC 8410 section 7).
pub const KEY: [u8; 48] =
    *b"\x30\x2e\x02\x01\x00\x30\x05\x06\x03\x2b\x65\x70\x04\x22\x04\x20\x17\xed\x9c\x73\xe9\xdb\x64\x9e\xc1\x89\xa6\x12\x83\x1c\x5f\xc5\x70\x23\x82\x07\xc1\xaa\x9d\xfb\xd2\xc5\x3e\x3f\xf5\xe5\xea\x85";

/// The vector's password.
pub const PASSWORD: [u8; 8] = *b"hunter42";

/// What this key is encrypted to under that password.
pub const SEALED_KEY: [u8; 64] =
    *b"\xd0\xcd\x6c\x77\x0f\x4b\xb8\x71\x76\x42\x23\x05\xc1\x74\x01\x80\x9e\x22\x66\x74\xce\x74\x18\x5d\x22\x1b\xfd\xaa\x95\x06\x98\x90\xc8\x88\x2f\xce\x02\xb0\x5d\x41\xbc\xbf\x54\xb0\x35\x59\x5b\xcd\x41\x54\xb3\x25\x93\x70\x84\x69\xb8\x6a\xac\xf8\x81\x5a\x7b\x2b";

/// What that decrypts to under the password `hunter43`: blocks with no padding.
pub const UNPADDED: [u8; 64] =
    *b"\x02\x5f\xa0\x4c\x90\x93\x29\x4a\x15\x3b\x5e\xd6\x3f\x95\x4d\x39\xa6\x37\x83\x49\x47\x77\x0d\x00\xcc\x60\x25\x62\xd0\xc5\x73\xa8\x81\xcc\x70\x17\x39\x42\x79\xe4\xda\x14\x68\x34\xe5\x6b\x36\x18\x77\x5d\x76\xd2\x4b\xed\x39\x18\x15\xd6\x2f\x09\xa5\x3a\xca\x45";

/// The vector's initialization vector.
const KEY_IV: [u8; 16] = *b"\xb2\xd0\x2d\x78\xb2\xef\xd9\xdf\xf6\x94\xcf\x8e\x0a\xf4\x09\x25";

/// Another initialization vector.
pub const IV: [u8; 16] = *b"\x10\x11\x12\x13\x14\x15\x16\x17\x18\x19\x1a\x1b\x1c\x1d\x1e\x1f";

/// The parameters of the key's vector.
pub fn key_parameters(rt: &impl Abort) -> Parameters {
    let salt = b"\x79\xd9\x82\xe7\x0d\xf9\x1a\x88";
    Parameters::generate_pbkdf2_sha256_aes256cbc(2048, salt, KEY_IV).expect(rt, "parameters")
}

/// The same with a stated length of the key.
pub fn with_key_length(rt: &impl Abort, key_length: u16) -> Parameters {
    let Parameters { kdf, encryption } = key_parameters(rt);
    let Kdf::Pbkdf2(mut params) = kdf else {
        panic!(rt; "PBKDF2");
    };
    params.key_length = Some(key_length);
    Parameters {
        kdf: Kdf::Pbkdf2(params),
        encryption,
    }
}

/// Whether these calls of the parameters encrypt the text to the ciphertext and decrypt it again.
fn agrees(
    alloc: Global,
    parameters: &Parameters,
    password: &[u8],
    text: &[u8],
    ciphertext: &[u8],
) -> bool {
    let Ok(sealed) = parameters.encrypt(alloc, password, text) else {
        return false;
    };
    let Ok(opened) = parameters.decrypt(alloc, password, ciphertext) else {
        return false;
    };
    sealed.as_slice() == ciphertext && opened.as_slice() == text
}

#[test]
fn a_key_of_openssl_is_opened_and_sealed(rt: HostRuntime) {
    let alloc = rt.alloc();
    let parameters = key_parameters(&rt);
    let stated = with_key_length(&rt, 32);
    assert!(rt;
        agrees(alloc, &parameters, &PASSWORD, &KEY, &SEALED_KEY)
            && agrees(alloc, &stated, &PASSWORD, &KEY, &SEALED_KEY)
    );
}

/// The ciphertext of the key under a derived key, where that has the length of the cipher's keys.
fn sealed_under(alloc: Global, parameters: &Parameters, key: &EncryptionKey) -> Option<Octets> {
    if key.as_slice().len() != parameters.encryption.key_size() {
        return None;
    }
    parameters.encrypt_under_key(alloc, key, &KEY).ok()
}

#[test]
fn a_key_is_sealed_under_one_of_several_derived_keys(rt: HostRuntime) {
    let alloc = rt.alloc();
    let own = Salt::new(b"\x79\xd9\x82\xe7\x0d\xf9\x1a\x88").expect(&rt, "a salt");
    let other = Salt::new(&IV).expect(&rt, "a salt");
    let salts = [other, own, other, other, other, own];
    let keys = EncryptionKey::derive_each_pbkdf2_sha256(alloc, &PASSWORD, &salts, 2048).expect(
        &rt, "keys",
    );
    let parameters = key_parameters(&rt);
    for place in [1, 5] {
        let key = keys.get(place).expect(&rt, "a key");
        let sealed = sealed_under(alloc, &parameters, key).expect(&rt, "a ciphertext");
        assert!(rt; keys.len() == 6 && sealed.as_slice() == SEALED_KEY.as_slice());
    }
}

#[test]
fn a_key_is_derived_in_the_stated_rounds(rt: HostRuntime) {
    let kdf = Kdf::Pbkdf2(Pbkdf2Params {
        salt: Salt::new(b"salt").expect(&rt, "a salt"),
        iteration_count: 2,
        key_length: None,
        prf: Pbkdf2Prf::HmacWithSha1,
    });
    let key = EncryptionKey::derive_from_password(rt.alloc(), b"password", &kdf, 20).expect(
        &rt, "a key",
    );
    assert!(rt;
        key.as_slice()
            == b"\xea\x6c\x01\x4d\xc7\x2d\x6f\x8c\xcd\x1e\xd9\x2a\xce\x1d\x41\xf0\xd8\xde\x89\x57".as_slice()
    );
}

/// Whether the parameters open nothing of the first octets of the key's ciphertext, and these octets are there then.
fn opens_nothing(
    alloc: Global,
    parameters: &Parameters,
    password: &[u8],
    len: usize,
    left: [u8; 64],
) -> bool {
    let mut buffer = SEALED_KEY;
    let answer = parameters.decrypt_in_place_len(alloc, password, &mut buffer[..len.min(64)]);
    answer == Err(Error::DecryptFailed) && buffer == left
}

#[test]
fn a_ciphertext_that_opens_to_nothing_is_refused(rt: HostRuntime) {
    let alloc = rt.alloc();
    let parameters = key_parameters(&rt);
    let refused = parameters.decrypt(alloc, b"hunter43", &SEALED_KEY).err();
    assert!(rt; refused == Some(Error::DecryptFailed));
    assert!(rt;
        opens_nothing(alloc, &parameters, b"hunter43", 64, UNPADDED)
            && opens_nothing(alloc, &parameters, &PASSWORD, 0, SEALED_KEY)
            && opens_nothing(alloc, &parameters, &PASSWORD, 15, SEALED_KEY)
            && opens_nothing(alloc, &parameters, &PASSWORD, 17, SEALED_KEY)
    );
}

/// A stated length of the key that is not the cipher's.
const ANOTHER_LENGTH: Error = Error::AlgorithmParametersInvalid { oid: PBKDF2_OID };

#[test]
fn another_length_of_the_key_is_refused(rt: HostRuntime) {
    let alloc = rt.alloc();
    let parameters = with_key_length(&rt, 16);
    assert!(rt;
        parameters.decrypt(alloc, &PASSWORD, &SEALED_KEY).err() == Some(ANOTHER_LENGTH)
            && parameters.encrypt(alloc, &PASSWORD, &KEY).err() == Some(ANOTHER_LENGTH)
    );
}

#[test]
fn another_length_of_the_key_is_refused_in_place(rt: HostRuntime) {
    let alloc = rt.alloc();
    let refused = Err(ANOTHER_LENGTH);
    let scheme = pkcs5::EncryptionScheme::Pbes2(with_key_length(&rt, 16));
    let mut buffer = SEALED_KEY;
    assert!(rt;
        scheme.decrypt_in_place_len(alloc, &PASSWORD, &mut buffer) == refused
            && scheme.decrypt_in_place_len(alloc, &PASSWORD, &mut buffer[..15]) == refused
            && scheme.encrypt_in_place_len(alloc, &PASSWORD, &mut buffer, 64) == refused
            && buffer == SEALED_KEY
    );
}

/// A key with room for its padding, and two octets after.
fn key_with_room() -> [u8; 66] {
    let mut buffer = [0x55; 66];
    buffer[..48].copy_from_slice(&KEY);
    buffer
}

/// Whether the parameters encrypt the key where it is, and leave the octets after.
fn encrypts_in_place(alloc: Global, parameters: &Parameters) -> bool {
    let mut buffer = key_with_room();
    let sealed = parameters.encrypt_in_place(alloc, &PASSWORD, &mut buffer, 48);
    sealed == Ok(&SEALED_KEY) && buffer.starts_with(&SEALED_KEY) && buffer.ends_with(&[0x55, 0x55])
}

/// Whether the scheme of these parameters encrypts the key where it is, and leaves the octets after.
fn scheme_encrypts_in_place(alloc: Global, parameters: Parameters) -> bool {
    let scheme = pkcs5::EncryptionScheme::Pbes2(parameters);
    let mut buffer = key_with_room();
    let sealed = scheme.encrypt_in_place(alloc, &PASSWORD, &mut buffer, 48);
    sealed == Ok(&SEALED_KEY) && buffer.ends_with(&[0x55, 0x55])
}

/// Whether the parameters decrypt the key where it is, with its padding after.
fn decrypts_in_place(alloc: Global, parameters: &Parameters) -> bool {
    let mut buffer = SEALED_KEY;
    let opened = parameters.decrypt_in_place(alloc, &PASSWORD, &mut buffer);
    opened == Ok(&KEY) && buffer.starts_with(&KEY) && buffer.ends_with(&[16; 16])
}

/// Whether their scheme returns the key.
fn scheme_decrypts_in_place(alloc: Global, parameters: Parameters) -> bool {
    let scheme = pkcs5::EncryptionScheme::Pbes2(parameters);
    let mut buffer = SEALED_KEY;
    scheme.decrypt_in_place(alloc, &PASSWORD, &mut buffer) == Ok(&KEY)
}

#[test]
fn a_text_is_encrypted_and_decrypted_where_it_stands(rt: HostRuntime) {
    let alloc = rt.alloc();
    let parameters = key_parameters(&rt);
    assert!(rt;
        encrypts_in_place(alloc, &parameters)
            && scheme_encrypts_in_place(alloc, parameters)
            && decrypts_in_place(alloc, &parameters)
            && scheme_decrypts_in_place(alloc, parameters)
    );
}

/// Whether the parameters refuse to encrypt `pos` octets in a buffer of `len`, and leave the buffer.
fn does_not_fit(alloc: Global, parameters: &Parameters, len: usize, pos: usize) -> bool {
    let mut buffer = SEALED_KEY;
    let part = &mut buffer[..len.min(64)];
    let answer = parameters.encrypt_in_place_len(alloc, &PASSWORD, part, pos);
    answer == Err(Error::EncryptFailed) && buffer == SEALED_KEY
}

#[test]
fn a_ciphertext_that_does_not_fit_is_refused(rt: HostRuntime) {
    let alloc = rt.alloc();
    let parameters = key_parameters(&rt);
    assert!(rt;
        does_not_fit(alloc, &parameters, 0, 0)
            && does_not_fit(alloc, &parameters, 63, 48)
            && does_not_fit(alloc, &parameters, 16, 17)
    );
}

#[test]
fn parameters_have_what_they_are_made_of(rt: HostRuntime) {
    let made = Parameters::generate_pbkdf2_sha256_aes128cbc(100_000_000, &[7; 32], IV);
    let parameters = made.expect(&rt, "parameters");
    let kdf = Kdf::Pbkdf2(Pbkdf2Params {
        salt: Salt::new(&[7; 32]).expect(&rt, "a salt"),
        iteration_count: 100_000_000,
        key_length: None,
        prf: Pbkdf2Prf::HmacWithSha256,
    });
    let encryption = EncryptionScheme::Aes128Cbc { iv: IV };
    assert!(rt; parameters.encryption == encryption && parameters.kdf == kdf);
}

/// Whether no parameters are made of these rounds and this salt, since they are over their bounds.
fn are_over_bounds(rounds: u32, salt: &[u8]) -> bool {
    let refused = Err(Error::AlgorithmParametersInvalid { oid: PBKDF2_OID });
    Parameters::generate_pbkdf2_sha256_aes128cbc(rounds, salt, IV) == refused
        && Parameters::generate_pbkdf2_sha256_aes256cbc(rounds, salt, IV) == refused
}

#[test]
fn parameters_are_made_within_their_bounds(rt: HostRuntime) {
    assert!(rt; are_over_bounds(100_000_001, &[7; 32]) && are_over_bounds(1, &[7; 33]));
}
