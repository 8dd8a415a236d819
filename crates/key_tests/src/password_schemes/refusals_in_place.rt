//! What a buffer holds after each refusal of the calls in place whose result borrows it: no clause of theirs can say that.
use super::encryption::{IV, PASSWORD, SEALED_KEY, UNPADDED, key_parameters, with_key_length};
use pkcs5::pbes2::{
    self, DES_CBC_OID, Kdf, PBKDF2_OID, Parameters, SCRYPT_OID, Salt, ScryptParams,
};
use pkcs5::{EncryptionScheme, Error, pbes1};
use std::alloc::Global;
use std::process::Abort;

/// Whether the parameters, and then their scheme, refuse to decrypt `len` octets of the key's ciphertext for this reason, and
/// leave these octets.
fn does_not_decrypt(
    alloc: Global,
    parameters: Parameters,
    password: &[u8],
    len: usize,
    refused: Error,
    left: [u8; 64],
) -> bool {
    let mut first = SEALED_KEY;
    let mut second = SEALED_KEY;
    let len = len.min(64);
    let scheme = EncryptionScheme::Pbes2(parameters);
    parameters.decrypt_in_place(alloc, password, &mut first[..len]) == Err(refused)
        && scheme.decrypt_in_place(alloc, password, &mut second[..len]) == Err(refused)
        && first == left
        && second == left
}

/// Whether both refuse to encrypt `pos` octets in a buffer of `len` for this reason, and leave the buffer.
fn does_not_encrypt(
    alloc: Global,
    parameters: Parameters,
    len: usize,
    pos: usize,
    refused: Error,
) -> bool {
    let mut first = SEALED_KEY;
    let mut second = SEALED_KEY;
    let len = len.min(64);
    let scheme = EncryptionScheme::Pbes2(parameters);
    parameters.encrypt_in_place(alloc, &PASSWORD, &mut first[..len], pos) == Err(refused)
        && scheme.encrypt_in_place(alloc, &PASSWORD, &mut second[..len], pos) == Err(refused)
        && first == SEALED_KEY
        && second == SEALED_KEY
}

/// The parameters of the key's vector with another cipher.
fn with_cipher(rt: &impl Abort, encryption: pbes2::EncryptionScheme) -> Parameters {
    Parameters {
        kdf: key_parameters(rt).kdf,
        encryption,
    }
}

/// Parameters of scrypt with a cost that it refuses.
fn with_refused_cost(rt: &impl Abort) -> Parameters {
    let params = ScryptParams {
        salt: Salt::new(b"salt").expect(rt, "a salt"),
        cost_parameter: 3,
        block_size: 1,
        parallelization: 1,
        key_length: None,
    };
    Parameters {
        kdf: Kdf::Scrypt(params),
        encryption: pbes2::EncryptionScheme::Aes256Cbc { iv: IV },
    }
}

/// Parameters with AES-256 in Galois counter mode.
fn with_gcm(rt: &impl Abort) -> Parameters {
    with_cipher(rt, pbes2::EncryptionScheme::Aes256Gcm { nonce: [7; 12] })
}

#[test]
fn parameters_that_nothing_opens_under(rt: HostRuntime) {
    let alloc = rt.alloc();
    let pbkdf2 = Error::AlgorithmParametersInvalid { oid: PBKDF2_OID };
    let another_length = with_key_length(&rt, 16);
    assert!(rt;
        does_not_decrypt(alloc, another_length, &PASSWORD, 64, pbkdf2, SEALED_KEY)
            && does_not_encrypt(alloc, another_length, 64, 48, pbkdf2)
    );
    let scrypt = Error::AlgorithmParametersInvalid { oid: SCRYPT_OID };
    let refused_cost = with_refused_cost(&rt);
    assert!(rt;
        does_not_decrypt(alloc, refused_cost, &PASSWORD, 64, scrypt, SEALED_KEY)
            && does_not_encrypt(alloc, refused_cost, 64, 48, scrypt)
    );
}

#[test]
fn ciphertexts_that_do_not_open(rt: HostRuntime) {
    let alloc = rt.alloc();
    let failed = Error::DecryptFailed;
    let cbc = key_parameters(&rt);
    let gcm = with_gcm(&rt);
    assert!(rt;
        does_not_decrypt(alloc, cbc, &PASSWORD, 63, failed, SEALED_KEY)
            && does_not_decrypt(alloc, cbc, b"hunter43", 64, failed, UNPADDED)
            && does_not_decrypt(alloc, gcm, &PASSWORD, 15, failed, SEALED_KEY)
            && does_not_decrypt(alloc, gcm, &PASSWORD, 64, failed, SEALED_KEY)
    );
}

#[test]
fn texts_that_are_not_encrypted(rt: HostRuntime) {
    let alloc = rt.alloc();
    let des = with_cipher(&rt, pbes2::EncryptionScheme::DesCbc { iv: [7; 8] });
    let unsupported = Error::UnsupportedAlgorithm { oid: DES_CBC_OID };
    let cbc = key_parameters(&rt);
    assert!(rt;
        does_not_encrypt(alloc, des, 64, 48, unsupported)
            && does_not_encrypt(alloc, cbc, 63, 48, Error::EncryptFailed)
            && does_not_encrypt(alloc, cbc, 16, 17, Error::EncryptFailed)
            && does_not_encrypt(alloc, with_gcm(&rt), 63, 48, Error::EncryptFailed)
    );
}

/// Whether a scheme of PBES1 neither decrypts nor encrypts, and leaves the buffer.
fn is_not_run(alloc: Global, scheme: &EncryptionScheme) -> bool {
    let refused = Err(Error::NoPbes1CryptSupport);
    let mut buffer = SEALED_KEY;
    scheme.decrypt_in_place(alloc, &PASSWORD, &mut buffer) == refused
        && scheme.encrypt_in_place(alloc, &PASSWORD, &mut buffer, 48) == refused
        && buffer == SEALED_KEY
}

#[test]
fn refusals_of_pbes1(rt: HostRuntime) {
    let scheme = EncryptionScheme::Pbes1(pbes1::Algorithm {
        encryption: pbes1::EncryptionScheme::PbeWithSha1AndDesCbc,
        parameters: pbes1::Parameters {
            salt: [7; 8],
            iteration_count: 1,
        },
    });
    assert!(rt; is_not_run(rt.alloc(), &scheme));
}
