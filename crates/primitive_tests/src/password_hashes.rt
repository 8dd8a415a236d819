//! Password hashes: one that the Rust crate `pbkdf2` gives, and refusals.
use crate::answers::prints;
use mac_modes::DrawnBytes;
use octet_core::Octets;
use pbkdf2::{Algorithm, Params, PasswordHasher, PasswordVerifier, Pbkdf2};
use phc_core::{CustomizedPasswordHasher, Error, Ident, ParamsString, PasswordHash};
use std::alloc::Global;

const PASSWORD: &[u8] = b"passwordPASSWORDpassword";

const SALT: &[u8] = b"saltSALTsaltSALTsaltSALTsaltSALTsalt";

/// The hash of this password and salt in 4,096 rounds and 40 octets.
const HASH: &str =
    "$pbkdf2-sha256$i=4096,l=40$c2FsdFNBTFRzYWx0U0FMVHNhbHRTQUxUc2FsdFNBTFRzYWx0$NIyJ28vTKy8y2BS4EW6EzysXNH68GAAYHE4qH7jdU+HGNVGMfaxH6Q";

/// The result of a test of the password against a hash in this text.
fn tested(hasher: Pbkdf2, password: &[u8], text: &str) -> Result<(), Error> {
    match PasswordHash::new(text) {
        Ok(hash) => hasher.verify_password(password, &hash),
        Err(refused) => Err(refused),
    }
}

/// Whether the hash of the password and this salt is the one of this text.
fn is_hash(alloc: Global, params: Params, salt: &[u8], text: &str) -> bool {
    match Pbkdf2::from(params).hash_password_with_salt(PASSWORD, salt) {
        Ok(hash) => prints(alloc, &hash, text),
        Err(_) => false,
    }
}

#[test]
fn a_hash_is_the_one_of_the_other_program(rt: HostRuntime) {
    let params = Params::new_with_output_len(4096, 40).expect(&rt, "parameters");
    assert!(rt; is_hash(rt.alloc(), params, SALT, HASH));
}

#[test]
fn a_password_is_tested_under_the_parameters_of_the_hash(rt: HostRuntime) {
    let other = b"passwordPASSWORDpassworD";
    assert!(rt;
        tested(Pbkdf2::SHA512, PASSWORD, HASH) == Ok(())
            && tested(Pbkdf2::SHA256, other, HASH) == Err(Error::PasswordInvalid)
    );
}

/// Whether the parameter of this name is refused in the parameters of this string.
fn is_named(text: &str, name: &str) -> bool {
    let (Ok(hash), Ok(name)) = (PasswordHash::new(text), Ident::new(name)) else {
        return false;
    };
    Params::try_from(&hash.params) == Err(Error::ParamInvalid { name })
}

/// Strings with a faulty parameter, and its name.
static FAULTY: [(&str, &str); 5] = [
    ("$a$i=999,l=65", "i"),
    ("$a$l=65,i=999", "l"),
    ("$a$i=01000", "i"),
    ("$a$i=4294967296", "i"),
    ("$a$l=x", "l"),
];

#[test]
fn a_faulty_parameter_is_named(rt: HostRuntime) {
    for (text, name) in &FAULTY {
        assert!(rt; is_named(text, name), "{text}");
    }
}

#[test]
fn a_list_of_parameters_comes_back(rt: HostRuntime) {
    let params = Params::new_with_output_len(4294967295, 64).expect(&rt, "parameters");
    let text = ParamsString::try_from(params).expect(&rt, "a text");
    assert!(rt;
        text.len() == 2
            && Params::try_from(&text) == Ok(params)
            && Params::try_from(&ParamsString::new()) == Ok(Params::RECOMMENDED)
    );
}

/// What hashing under SHA-512 and 1,000 rounds returns at a salt, an algorithm and a version.
fn customized(
    salt: &[u8],
    algorithm: Option<&str>,
    version: Option<u32>,
) -> Result<PasswordHash, Error> {
    let hasher = Pbkdf2::from(Algorithm::Pbkdf2Sha512);
    let params = Params::new(1000)?;
    hasher.hash_password_customized(PASSWORD, salt, algorithm, version, params)
}

/// Whether hashing under a short salt is refused.
fn is_refused(algorithm: &str, version: Option<u32>, refusal: Error) -> bool {
    customized(b"short", Some(algorithm), version) == Err(refusal)
}

#[test]
fn hashing_refuses_in_its_order(rt: HostRuntime) {
    assert!(rt;
        is_refused("pbkdf2-sha1", Some(1), Error::Algorithm)
            && is_refused("pbkdf2-sha256", Some(1), Error::Version)
            && is_refused("pbkdf2-sha256", None, Error::SaltInvalid)
    );
    let hash = customized(SALT, None, None).expect(&rt, "a hash");
    assert!(rt; hash.algorithm.as_str() == "pbkdf2-sha512");
}

/// What hashing under a drawn salt of these octets returns.
fn salted(alloc: Global, drawn: &[u8]) -> Result<PasswordHash, Error> {
    let Ok(octets) = Octets::from_slice(alloc, drawn) else {
        return Err(Error::Memory);
    };
    let hasher = Pbkdf2::from(Params::new(1000)?);
    hasher.hash_password(&mut DrawnBytes::new(octets), PASSWORD)
}

/// What hashing under this salt returns.
fn hashed(salt: &[u8]) -> Result<PasswordHash, Error> {
    Pbkdf2::from(Params::new(1000)?).hash_password_with_salt(PASSWORD, salt)
}

#[test]
fn a_salt_of_sixteen_octets_is_drawn(rt: HostRuntime) {
    let alloc = rt.alloc();
    let hash = salted(alloc, SALT).expect(&rt, "a hash");
    assert!(rt; salted(alloc, &SALT[..15]) == Err(Error::Rng) && hashed(&SALT[..16]) == Ok(hash));
}
