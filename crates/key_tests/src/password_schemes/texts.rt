//! Texts: what is read of them, what is written, and what is refused. More schemes are lines of `tests/vectors/schemes.txt` and
//! `tests/vectors/grammars.txt`.
use crate::values::{is_printed, laws_hold, oid, written};
use asn1_core::Error::{Malformed, OidUnknown};
use der_core::{AnyRef, Canonical, Decode, Null, OctetStringRef, Sequence};
use pkcs5::pbes2::{
    self, AES_128_CBC_OID, DES_CBC_OID, HMAC_WITH_SHA1_OID, HMAC_WITH_SHA256_OID, Kdf, PBES2_OID,
    PBKDF2_OID, Pbkdf2Params, Pbkdf2Prf, Salt,
};
use pkcs5::{
    EncryptionScheme, Error, schemes_are_read_back, schemes_have_texts, texts_have_one_scheme,
};
use spki::{AlgorithmIdentifier, AlgorithmIdentifierRef};
use std::alloc::Global;
use std::process::Abort;

/// The first vector of PBES2 with AES in CBC mode: salt `79d982e70df91a88`, 2,048 rounds of HMAC over SHA-256, AES-256.
pub const AES_256: &[u8] =
    b"\x30\x57\x06\x09\x2a\x86\x48\x86\xf7\x0d\x01\x05\x0d\x30\x4a\x30\x29\x06\x09\x2a\x86\x48\x86\xf7\x0d\x01\x05\x0c\x30\x1c\x04\x08\x79\xd9\x82\xe7\x0d\xf9\x1a\x88\x02\x02\x08\x00\x30\x0c\x06\x08\x2a\x86\x48\x86\xf7\x0d\x02\x09\x05\x00\x30\x1d\x06\x09\x60\x86\x48\x01\x65\x03\x04\x01\x2a\x04\x10\xb2\xd0\x2d\x78\xb2\xef\xd9\xdf\xf6\x94\xcf\x8e\x0a\xf4\x09\x25";

/// Parameters of PBKDF2, of salt `00` to `07` and 2,048 rounds.
const PARAMS: &[u8] =
    b"\x30\x1c\x04\x08\x00\x01\x02\x03\x04\x05\x06\x07\x02\x02\x08\x00\x30\x0c\x06\x08\x2a\x86\x48\x86\xf7\x0d\x02\x09\x05\x00";

/// The same with a stated key length of 32.
const STATED_PARAMS: &[u8] =
    b"\x30\x1f\x04\x08\x00\x01\x02\x03\x04\x05\x06\x07\x02\x02\x08\x00\x02\x01\x20\x30\x0c\x06\x08\x2a\x86\x48\x86\xf7\x0d\x02\x09\x05\x00";

/// PBKDF2 with the first parameters.
const KDF: &[u8] =
    b"\x30\x29\x06\x09\x2a\x86\x48\x86\xf7\x0d\x01\x05\x0c\x30\x1c\x04\x08\x00\x01\x02\x03\x04\x05\x06\x07\x02\x02\x08\x00\x30\x0c\x06\x08\x2a\x86\x48\x86\xf7\x0d\x02\x09\x05\x00";

/// A cipher, of vector `a0` to `af`.
const CIPHER: &[u8] =
    b"\x30\x1d\x06\x09\x60\x86\x48\x01\x65\x03\x04\x01\x02\x04\x10\xa0\xa1\xa2\xa3\xa4\xa5\xa6\xa7\xa8\xa9\xaa\xab\xac\xad\xae\xaf";

/// Parameters of PBES2: that function and that cipher.
const PARAMETERS: &[u8] =
    b"\x30\x4a\x30\x29\x06\x09\x2a\x86\x48\x86\xf7\x0d\x01\x05\x0c\x30\x1c\x04\x08\x00\x01\x02\x03\x04\x05\x06\x07\x02\x02\x08\x00\x30\x0c\x06\x08\x2a\x86\x48\x86\xf7\x0d\x02\x09\x05\x00\x30\x1d\x06\x09\x60\x86\x48\x01\x65\x03\x04\x01\x02\x04\x10\xa0\xa1\xa2\xa3\xa4\xa5\xa6\xa7\xa8\xa9\xaa\xab\xac\xad\xae\xaf";

/// A pseudorandom function, HMAC over SHA-256.
const PRF: &[u8] = b"\x30\x0c\x06\x08\x2a\x86\x48\x86\xf7\x0d\x02\x09\x05\x00";

/// Whether the text is read as this value, and the value is written as the text.
fn is_kept<'a, T: Canonical<&'a [u8]> + PartialEq>(
    rt: &impl Abort,
    alloc: Global,
    text: &'a [u8],
    value: &T,
) -> bool {
    let read = T::from_der(text).expect(rt, "a text");
    let size = value.encoded_len().expect(rt, "a length");
    read == *value
        && written(rt, alloc, &read).as_slice() == text
        && size.value as usize == text.len()
}

/// The scheme of a text.
pub fn scheme_of(rt: &impl Abort, text: &[u8]) -> EncryptionScheme {
    EncryptionScheme::try_from(text).expect(rt, "a scheme")
}

/// The parameters of the first vector.
fn aes_256_parameters(rt: &impl Abort) -> pbes2::Parameters {
    *scheme_of(rt, AES_256).pbes2().expect(rt, "PBES2")
}

#[test]
fn a_scheme_is_read_and_written_back(rt: HostRuntime) {
    let scheme = scheme_of(&rt, AES_256);
    assert!(rt; is_kept(&rt, rt.alloc(), AES_256, &scheme));
    assert!(rt;
        scheme.oid() == PBES2_OID && EncryptionScheme::from(aes_256_parameters(&rt)) == scheme
    );
}

/// The salt of the first vector.
const SALT: [u8; 8] = *b"\x79\xd9\x82\xe7\x0d\xf9\x1a\x88";

#[test]
fn the_function_of_a_scheme(rt: HostRuntime) {
    let kdf = aes_256_parameters(&rt).kdf;
    assert!(rt; kdf.is_pbkdf2() && kdf.oid() == PBKDF2_OID && kdf.key_length() == None);
    let params = Pbkdf2Params {
        salt: Salt::try_from(&SALT[..]).expect(&rt, "a salt"),
        iteration_count: 2048,
        key_length: None,
        prf: Pbkdf2Prf::HmacWithSha256,
    };
    assert!(rt; kdf == Kdf::from(params) && Pbkdf2Params::hmac_sha256(2048, &SALT) == Ok(params));
}

#[test]
fn the_cipher_of_a_scheme(rt: HostRuntime) {
    let iv = *b"\xb2\xd0\x2d\x78\xb2\xef\xd9\xdf\xf6\x94\xcf\x8e\x0a\xf4\x09\x25";
    let cipher = pbes2::EncryptionScheme::Aes256Cbc { iv };
    assert!(rt; aes_256_parameters(&rt).encryption == cipher);
}

/// Whether the text is refused as a scheme, for this reason.
fn is_no_scheme(text: &[u8], refused: asn1_core::Error) -> bool {
    EncryptionScheme::from_der(text) == Err(refused)
        && EncryptionScheme::try_from(text) == Err(refused)
}

/// A scheme of no algorithm of PBES1.
const MD2: &[u8] =
    b"\x30\x1b\x06\x09\x2a\x86\x48\x86\xf7\x0d\x01\x05\x02\x30\x0e\x04\x08\x00\x01\x02\x03\x04\x05\x06\x07\x02\x02\x08\x00";

/// A scheme of RC2 in CBC mode.
const RC2: &[u8] =
    b"\x30\x4e\x06\x09\x2a\x86\x48\x86\xf7\x0d\x01\x05\x0d\x30\x41\x30\x29\x06\x09\x2a\x86\x48\x86\xf7\x0d\x01\x05\x0c\x30\x1c\x04\x08\x32\xa0\xae\x2e\x01\xbb\xe3\x29\x02\x02\x08\x00\x30\x0c\x06\x08\x2a\x86\x48\x86\xf7\x0d\x02\x09\x05\x00\x30\x14\x06\x08\x2a\x86\x48\x86\xf7\x0d\x03\x02\x04\x08\x97\xe8\xf5\x3a\xb0\xac\xa3\x59";

#[test]
fn texts_of_no_scheme_are_refused(rt: HostRuntime) {
    let rc2 = OidUnknown {
        oid: oid(&rt, "1.2.840.113549.3.2"),
    };
    assert!(rt;
        is_no_scheme(b"", Malformed)
            && is_no_scheme(b"\x30\x00", Malformed)
            && is_no_scheme(MD2, Malformed)
            && is_no_scheme(RC2, rc2)
    );
}

/// An unknown function and PBKDF2, each with octets after its parameters.
static LONG_KDFS: [&[u8]; 2] = [
    b"\x30\x2b\x06\x09\x2b\x06\x01\x04\x01\xda\x47\x04\x0c\x30\x1c\x04\x08\x00\x01\x02\x03\x04\x05\x06\x07\x02\x02\x08\x00\x30\x0c\x06\x08\x2a\x86\x48\x86\xf7\x0d\x02\x09\x05\x00\x05\x00",
    b"\x30\x2b\x06\x09\x2a\x86\x48\x86\xf7\x0d\x01\x05\x0c\x30\x1c\x04\x08\x00\x01\x02\x03\x04\x05\x06\x07\x02\x02\x08\x00\x30\x0c\x06\x08\x2a\x86\x48\x86\xf7\x0d\x02\x09\x05\x00\x05\x00",
];

#[test]
fn octets_behind_the_parameters_of_a_function_come_last(rt: HostRuntime) {
    let unknown = OidUnknown {
        oid: oid(&rt, "1.3.6.1.4.1.11591.4.12"),
    };
    assert!(rt;
        Kdf::from_der(LONG_KDFS[0]) == Err(unknown) && Kdf::from_der(LONG_KDFS[1]) == Err(Malformed)
    );
}

/// Whether the text is refused as a cipher, for this reason.
fn is_no_cipher(text: &[u8], refused: asn1_core::Error) -> bool {
    pbes2::EncryptionScheme::from_der(text) == Err(refused)
}

/// An unknown cipher and a known one, each with octets after its parameters.
static LONG_CIPHERS: [&[u8]; 2] = [
    b"\x30\x1f\x06\x09\x60\x86\x48\x01\x65\x03\x04\x01\x1a\x04\x10\xa0\xa1\xa2\xa3\xa4\xa5\xa6\xa7\xa8\xa9\xaa\xab\xac\xad\xae\xaf\x05\x00",
    b"\x30\x1f\x06\x09\x60\x86\x48\x01\x65\x03\x04\x01\x2a\x04\x10\xa0\xa1\xa2\xa3\xa4\xa5\xa6\xa7\xa8\xa9\xaa\xab\xac\xad\xae\xaf\x05\x00",
];

#[test]
fn octets_behind_the_parameters_of_a_cipher_come_last(rt: HostRuntime) {
    let unknown = OidUnknown {
        oid: oid(&rt, "2.16.840.1.101.3.4.1.26"),
    };
    assert!(rt; is_no_cipher(LONG_CIPHERS[0], unknown) && is_no_cipher(LONG_CIPHERS[1], Malformed));
}

#[test]
fn salts_have_at_most_32_octets(rt: HostRuntime) {
    let salt = Salt::new(&[7; 32]).expect(&rt, "a salt");
    assert!(rt;
        salt.as_bytes() == &[7; 32][..] && salt.len().value == 32 && Salt::new(&[7; 31]) != Ok(salt)
    );
    assert!(rt;
        Salt::MAX_LEN == 32
            && Salt::new(&[7; 33]) == Err(Malformed)
            && Salt::try_from(&[7; 33][..]) == Err(Malformed)
    );
}

#[test]
fn new_parameters_have_a_bound_on_rounds(rt: HostRuntime) {
    let invalid = Error::AlgorithmParametersInvalid { oid: PBKDF2_OID };
    let most = Pbkdf2Params::MAX_ITERATION_COUNT;
    assert!(rt;
        most == 100_000_000
            && Pbkdf2Params::hmac_sha256(most, &[1; 32]).is_ok()
            && Pbkdf2Params::hmac_sha256(most + 1, &[1; 32]) == Err(invalid)
            && Pbkdf2Params::hmac_sha256(most, &[1; 33]) == Err(invalid)
    );
}

#[test]
fn the_algorithm_of_a_prf(rt: HostRuntime) {
    let prf = AlgorithmIdentifierRef::from(Pbkdf2Prf::HmacWithSha256);
    assert!(rt; prf.oid == HMAC_WITH_SHA256_OID && prf.parameters == Some(AnyRef::from(Null)));
    let bare: AlgorithmIdentifierRef<'_> = AlgorithmIdentifier {
        oid: HMAC_WITH_SHA1_OID,
        parameters: None,
    };
    assert!(rt;
        Pbkdf2Prf::try_from(prf) == Ok(Pbkdf2Prf::HmacWithSha256)
            && Pbkdf2Prf::try_from(bare) == Ok(Pbkdf2Prf::default())
    );
}

/// The cipher by itself.
fn cipher(rt: &impl Abort) -> pbes2::EncryptionScheme {
    pbes2::EncryptionScheme::from_der(CIPHER).expect(rt, "a cipher")
}

/// The initialization vector of that cipher.
const IV: &[u8] = b"\xa0\xa1\xa2\xa3\xa4\xa5\xa6\xa7\xa8\xa9\xaa\xab\xac\xad\xae\xaf";

#[test]
fn the_algorithm_of_a_cipher(rt: HostRuntime) {
    let cipher = cipher(&rt);
    let algorithm = AlgorithmIdentifierRef::try_from(&cipher).expect(&rt, "an algorithm");
    let iv = OctetStringRef::new(IV).expect(&rt, "a string");
    assert!(rt; algorithm.oid == AES_128_CBC_OID && algorithm.parameters == Some(AnyRef::from(iv)));
    assert!(rt; pbes2::EncryptionScheme::try_from(algorithm) == Ok(cipher));
}

#[test]
fn algorithms_without_parameters(rt: HostRuntime) {
    let bare: AlgorithmIdentifierRef<'_> = AlgorithmIdentifier {
        oid: PBKDF2_OID,
        parameters: None,
    };
    assert!(rt;
        Kdf::try_from(bare) == Err(Malformed)
            && EncryptionScheme::try_from(bare) == Err(Malformed)
            && pbes2::EncryptionScheme::try_from(bare) == Err(Malformed)
    );
}

#[test]
fn algorithms_with_null(rt: HostRuntime) {
    let null = AnyRef::from(Null);
    let unknown = OidUnknown { oid: PBES2_OID };
    let algorithm = AlgorithmIdentifier {
        oid: PBES2_OID,
        parameters: Some(null),
    };
    assert!(rt;
        Pbkdf2Prf::try_from(algorithm) == Err(unknown)
            && Kdf::try_from(algorithm) == Err(unknown)
            && EncryptionScheme::try_from(algorithm) == Err(Malformed)
    );
    assert!(rt;
        pbes2::Parameters::try_from(null) == Err(Malformed)
            && Pbkdf2Params::try_from(null) == Err(Malformed)
    );
}

/// Parameters of PBKDF2: salt `00` to `07`, 2,048 rounds of HMAC over SHA-256.
fn params(rt: &impl Abort) -> Pbkdf2Params {
    Pbkdf2Params::hmac_sha256(2048, &[0, 1, 2, 3, 4, 5, 6, 7]).expect(rt, "parameters")
}

#[test]
fn a_salt_and_a_prf_by_themselves(rt: HostRuntime) {
    let alloc = rt.alloc();
    let text = b"\x04\x08\x00\x01\x02\x03\x04\x05\x06\x07";
    let salt = Salt::new(&text[2..]).expect(&rt, "a salt");
    assert!(rt;
        is_kept(&rt, alloc, text, &salt) && is_kept(&rt, alloc, PRF, &Pbkdf2Prf::HmacWithSha256)
    );
}

#[test]
fn parameters_of_pbkdf2_by_themselves(rt: HostRuntime) {
    let alloc = rt.alloc();
    let params = params(&rt);
    let mut stated = params;
    stated.key_length = Some(32);
    assert!(rt;
        is_kept(&rt, alloc, PARAMS, &params) && is_kept(&rt, alloc, STATED_PARAMS, &stated)
    );
}

#[test]
fn parameters_of_pbes2_and_their_parts(rt: HostRuntime) {
    let alloc = rt.alloc();
    let parameters = pbes2::Parameters {
        kdf: Kdf::from(params(&rt)),
        encryption: cipher(&rt),
    };
    assert!(rt;
        is_kept(&rt, alloc, KDF, &parameters.kdf)
            && is_kept(&rt, alloc, CIPHER, &parameters.encryption)
            && is_kept(&rt, alloc, PARAMETERS, &parameters)
    );
}

/// Whether the tag of a type of SEQUENCEs is that of SEQUENCE.
fn is_sequence<'a, T: Sequence<&'a [u8]>>() -> bool {
    T::TAG == asn1_core::Tag::SEQUENCE
}

#[test]
fn the_laws_hold_of_schemes_and_their_parts(rt: HostRuntime) {
    let scheme = scheme_of(&rt, AES_256);
    let parameters = aes_256_parameters(&rt);
    laws_hold(AES_256, &scheme);
    laws_hold(AES_256, &parameters);
    laws_hold(AES_256, &parameters.kdf);
    laws_hold(AES_256, &parameters.encryption);
}

#[test]
fn the_laws_hold_of_parameters_of_pbkdf2(rt: HostRuntime) {
    let params = params(&rt);
    laws_hold(AES_256, &params);
    laws_hold(AES_256, &params.prf);
    laws_hold(AES_256, &params.salt);
}

#[test]
fn these_types_are_sequences(rt: HostRuntime) {
    assert!(rt;
        is_sequence::<EncryptionScheme>()
            && is_sequence::<pbes2::Parameters>()
            && is_sequence::<Kdf>()
            && is_sequence::<pbes2::EncryptionScheme>()
            && is_sequence::<Pbkdf2Params>()
            && is_sequence::<Pbkdf2Prf>()
    );
}

#[test]
fn the_laws_hold_of_schemes(rt: HostRuntime) {
    texts_have_one_scheme();
    schemes_are_read_back();
    schemes_have_texts(&scheme_of(&rt, AES_256));
}

#[test]
fn texts_of_refusals(rt: HostRuntime) {
    let alloc = rt.alloc();
    assert!(rt;
        is_printed(
            &rt,
            alloc,
            &Error::AlgorithmParametersInvalid { oid: PBKDF2_OID },
            "PKCS#5 parameters for algorithm 1.2.840.113549.1.5.12 are invalid"
        ) && is_printed(
            &rt,
            alloc,
            &Error::DecryptFailed,
            "PKCS#5 decryption failed"
        ) && is_printed(
            &rt,
            alloc,
            &Error::EncryptFailed,
            "PKCS#5 encryption failed"
        ) && is_printed(
            &rt,
            alloc,
            &Error::NoPbes1CryptSupport,
            "PKCS#5 encryption/decryption unsupported for PBES1 (won't fix)"
        ) && is_printed(&rt, alloc, &Error::Rng, "random number generation failure")
            && is_printed(
                &rt,
                alloc,
                &Error::UnsupportedAlgorithm { oid: DES_CBC_OID },
                "PKCS#5 algorithm 1.3.14.3.2.7 is unsupported"
            )
            && is_printed(&rt, alloc, &Error::Memory, "out of memory")
    );
}
