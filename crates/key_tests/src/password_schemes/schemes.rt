//! Costs of scrypt, schemes of PBES1, and parameters of drawn octets. What schemes of PBES1, under Triple DES, under DES, under
//! scrypt and in GCM open and seal, or refuse to, are lines of `tests/vectors/schemes.txt`.
use super::texts::scheme_of;
use crate::values::{drawing, oid};
use der_core::Decode;
use pkcs5::pbes2::{
    self, DES_CBC_OID, PBES2_OID, PBKDF2_OID, Parameters, Pbkdf2Params, SCRYPT_OID, Salt,
    ScryptParams,
};
use pkcs5::{EncryptionScheme, Error, Result, pbes1};

/// A scheme of PBES1.
const PBES1: &[u8] =
    b"\x30\x1b\x06\x09\x2a\x86\x48\x86\xf7\x0d\x01\x05\x03\x30\x0e\x04\x08\x00\x01\x02\x03\x04\x05\x06\x07\x02\x02\x08\x00";

/// Costs that are no power of 2 above 1.
static REFUSED_COSTS: [u64; 3] = [0, 1, 3];

#[test]
fn costs_that_scrypt_refuses(rt: HostRuntime) {
    let refused = Error::AlgorithmParametersInvalid { oid: SCRYPT_OID };
    let mut params = ScryptParams {
        salt: Salt::new(b"salt").expect(&rt, "a salt"),
        cost_parameter: 16,
        block_size: 1,
        parallelization: 1,
        key_length: None,
    };
    let costs = scrypt_core::Params::new(4, 1, 1).expect(&rt, "costs");
    assert!(rt;
        scrypt_core::Params::try_from(&params) == Ok(costs)
            && ScryptParams::from_params_and_salt(costs, b"salt") == Ok(params)
    );
    for cost in &REFUSED_COSTS {
        params.cost_parameter = *cost;
        assert!(rt; scrypt_core::Params::try_from(params) == Err(refused));
    }
}

/// That a scheme of PBES1 is that of its algorithm, and none of PBES2.
fn is_of_its_algorithm(scheme: &EncryptionScheme) -> bool {
    match scheme.pbes1() {
        Some(algorithm) => {
            EncryptionScheme::from(*algorithm) == *scheme && scheme.pbes2().is_none()
        }
        None => false,
    }
}

#[test]
fn a_scheme_of_pbes1_is_that_of_its_algorithm(rt: HostRuntime) {
    assert!(rt; is_of_its_algorithm(&scheme_of(&rt, PBES1)));
}

#[test]
fn an_algorithm_of_pbes1_has_its_parameters(rt: HostRuntime) {
    let algorithm = pbes1::Algorithm::from_der(PBES1).expect(&rt, "an algorithm");
    assert!(rt;
        algorithm.encryption == pbes1::EncryptionScheme::PbeWithMd5AndDesCbc
            && algorithm.parameters.salt == [0, 1, 2, 3, 4, 5, 6, 7]
            && algorithm.parameters.iteration_count == 2048
    );
}

/// The octets that are drawn: a vector, and a salt.
const DRAWN: [u8; 32] =
    *b"\x00\x01\x02\x03\x04\x05\x06\x07\x08\x09\x0a\x0b\x0c\x0d\x0e\x0f\x10\x11\x12\x13\x14\x15\x16\x17\x18\x19\x1a\x1b\x1c\x1d\x1e\x1f";

/// Whether a cipher is AES-256 in CBC mode, with the vector that is drawn.
fn is_of_drawn_vector(cipher: &pbes2::EncryptionScheme) -> bool {
    match cipher {
        pbes2::EncryptionScheme::Aes256Cbc { iv } => iv[..] == DRAWN[..16],
        _ => false,
    }
}

#[test]
fn parameters_of_drawn_octets(rt: HostRuntime) {
    let mut draw = drawing(&rt, rt.alloc(), &DRAWN);
    let parameters = Parameters::generate(&mut draw).expect(&rt, "parameters");
    let params = parameters.kdf.scrypt().expect(&rt, "scrypt");
    assert!(rt;
        is_of_drawn_vector(&parameters.encryption)
            && params.salt.as_bytes() == &DRAWN[16..]
            && params.cost_parameter == 16384
    );
}

#[test]
fn a_scheme_wants_32_drawn_octets(rt: HostRuntime) {
    let mut draw = drawing(&rt, rt.alloc(), &DRAWN[1..]);
    assert!(rt; EncryptionScheme::generate(&mut draw) == Err(Error::Rng));
}

#[test]
fn identifiers_of_algorithms(rt: HostRuntime) {
    assert!(rt;
        PBES2_OID == oid(&rt, "1.2.840.113549.1.5.13")
            && PBKDF2_OID == oid(&rt, "1.2.840.113549.1.5.12")
            && DES_CBC_OID == oid(&rt, "1.3.14.3.2.7")
    );
}

/// Whether parameters are of scrypt under these costs, with a salt of the octet 9 eight times.
fn is_of_scrypt(parameters: &Parameters) -> bool {
    match parameters.kdf.scrypt() {
        Some(params) => {
            parameters.kdf.is_scrypt()
                && (params.cost_parameter, params.block_size) == (16, 8)
                && params.parallelization == 1
                && params.key_length.is_none()
                && params.salt.as_bytes() == [9u8; 8].as_slice()
        }
        None => false,
    }
}

/// Whether parameters are made, of scrypt and with this cipher.
fn are_made(made: Result<Parameters>, cipher: pbes2::EncryptionScheme) -> bool {
    match made {
        Ok(parameters) => is_of_scrypt(&parameters) && parameters.encryption == cipher,
        Err(_) => false,
    }
}

#[test]
fn parameters_of_scrypt_have_their_cipher(rt: HostRuntime) {
    let costs = scrypt_core::Params::new(4, 8, 1).expect(&rt, "costs");
    let (salt, iv, nonce) = ([9; 8], [7; 16], [7; 12]);
    let aes128cbc = Parameters::generate_scrypt_aes128cbc(costs, &salt, iv);
    let aes256cbc = Parameters::generate_scrypt_aes256cbc(costs, &salt, iv);
    assert!(rt;
        are_made(aes128cbc, pbes2::EncryptionScheme::Aes128Cbc { iv })
            && are_made(aes256cbc, pbes2::EncryptionScheme::Aes256Cbc { iv })
    );
    let aes128gcm = Parameters::scrypt_aes128gcm(costs, &salt, nonce);
    let aes256gcm = Parameters::scrypt_aes256gcm(costs, &salt, nonce);
    assert!(rt;
        are_made(aes128gcm, pbes2::EncryptionScheme::Aes128Gcm { nonce })
            && are_made(aes256gcm, pbes2::EncryptionScheme::Aes256Gcm { nonce })
    );
}

/// Whether parameters of PBKDF2 are those that are recommended, with the salt that is drawn.
fn are_recommended(params: &Pbkdf2Params) -> bool {
    params.salt.as_bytes() == &DRAWN[16..]
        && params.iteration_count == 600_000
        && params.prf == pbes2::Pbkdf2Prf::HmacWithSha256
        && params.key_length.is_none()
}

#[test]
fn parameters_of_pbkdf2_from_drawn_octets(rt: HostRuntime) {
    let mut draw = drawing(&rt, rt.alloc(), &DRAWN);
    let parameters = Parameters::generate_pbkdf2(&mut draw).expect(&rt, "parameters");
    let params = parameters.kdf.pbkdf2().expect(&rt, "PBKDF2");
    assert!(rt;
        is_of_drawn_vector(&parameters.encryption)
            && !parameters.kdf.is_scrypt()
            && are_recommended(params)
    );
}
