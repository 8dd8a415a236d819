//! PHC strings and their parts: what is read, what is written back, and what is refused. More strings are lines of
//! `tests/vectors/phc_strings.txt` and `tests/vectors/grammars.txt`.
use crate::answers::prints;
use phc_core::{Error, Ident, Output, ParamsString, PasswordHash, Salt, Value};
use std::alloc::Global;
use std::process::Abort;

/// Whether the string is that of a hash, which is written and printed as the same string.
fn is_written_back(rt: &impl Abort, alloc: Global, text: &str) -> bool {
    let hash = PasswordHash::new(text).expect(rt, "a hash");
    let written = hash.to_text(alloc).expect(rt, "memory");
    written.as_str() == text && prints(alloc, &hash, text) && text.parse() == Ok(hash)
}

/// Whether the string is that of no hash.
fn is_of_none(text: &str) -> bool {
    PasswordHash::new(text) == Err(Error::EncodingInvalid)
        && text.parse::<PasswordHash>() == Err(Error::EncodingInvalid)
}

#[test]
fn strings_are_written_back_and_faults_refused(rt: HostRuntime) {
    let text =
        "$argon2i$v=19$m=65536,t=2,p=1$c29tZXNhbHQ$wWKIMhR9lyDFvRz9YTZweHKfbftvj+qf+YFY4NeBbtA";
    assert!(rt; is_written_back(&rt, rt.alloc(), text) && is_of_none("$a$"));
}

/// Whether the parameter at this place has this name and value.
fn is_parameter(params: &ParamsString, at: usize, name: &str, value: &str) -> bool {
    match params.get(at) {
        Some((ident, given)) => ident.as_str() == name && given.as_str() == value,
        None => false,
    }
}

/// Whether the salt is of these octets.
fn is_salt(salt: Option<Salt>, octets: &[u8]) -> bool {
    match salt {
        Some(salt) => Salt::new(octets) == Ok(salt) && salt.as_ref() == octets,
        None => false,
    }
}

/// Whether the parameters are the two of a string of Argon2.
fn are_of_argon2(params: &ParamsString) -> bool {
    params.len() == 2 && is_parameter(params, 1, "t", "2") && params.get(2).is_none()
}

#[test]
fn the_parts_of_a_string_are_its_fields(rt: HostRuntime) {
    let hash = PasswordHash::new("$argon2i$v=19$m=65536,t=2$c29tZXNhbHQ").expect(&rt, "a hash");
    assert!(rt; hash.algorithm.as_str() == "argon2i" && hash.version == Some(19));
    assert!(rt;
        are_of_argon2(&hash.params) && is_salt(hash.salt, b"somesalt") && hash.hash.is_none()
    );
}

#[test]
fn a_leading_zero_is_kept(rt: HostRuntime) {
    let hash = PasswordHash::new("$a$v=1$i=01").expect(&rt, "a hash");
    assert!(rt; is_parameter(&hash.params, 0, "i", "01"));
}

/// Whether the text is a value, of this number or of none.
fn is_number(text: &str, number: Option<u32>) -> bool {
    match Value::new(text) {
        Ok(value) => value.decimal() == number.ok_or(Error::EncodingInvalid),
        Err(_) => false,
    }
}

#[test]
fn values_may_be_numbers(rt: HostRuntime) {
    assert!(rt;
        is_number("2", Some(2))
            && is_number("4294967295", Some(u32::MAX))
            && is_number("4294967296", None)
            && is_number("01", None)
    );
}

#[test]
fn without_a_salt_the_hash_is_left_out(rt: HostRuntime) {
    let hash = PasswordHash {
        algorithm: Ident::new("a").expect(&rt, "a name"),
        version: Some(1),
        params: ParamsString::new(),
        salt: None,
        hash: Some(Output::new(&[7; 10]).expect(&rt, "an output")),
    };
    let text = hash.to_text(rt.alloc()).expect(&rt, "memory");
    assert!(rt; text.as_str() == "$a$v=1");
}

/// Whether a parameter of this name and number is added.
fn is_added(params: &mut ParamsString, name: &str, number: u32) -> bool {
    params.add_decimal(name, number).is_ok()
}

#[test]
fn parameters_are_added_at_the_end(rt: HostRuntime) {
    let mut hash = PasswordHash::new("$a").expect(&rt, "a hash");
    assert!(rt;
        hash.params == ParamsString::new()
            && is_added(&mut hash.params, "i", 4294967295)
            && is_added(&mut hash.params, "l", 0)
    );
    assert!(rt; prints(rt.alloc(), &hash, "$a$i=4294967295,l=0"));
}

/// Whether no parameter of this name is added, and the list stays.
fn is_not_added(params: ParamsString, name: &str, number: u32) -> bool {
    let mut list = params;
    list.add_decimal(name, number) == Err(Error::ParamsInvalid) && list == params
}

/// Names that are there, and faulty ones.
static NOT_ADDED: [&str; 5] = ["i", "v", "", "I", "a=1,b"];

#[test]
fn names_that_stand_there_and_faulty_names_are_not_added(rt: HostRuntime) {
    let mut params = ParamsString::new();
    assert!(rt; is_added(&mut params, "i", 4294967295) && is_added(&mut params, "l", 0));
    for name in &NOT_ADDED {
        assert!(rt; is_not_added(params, name, 1), "{name}");
    }
}

#[test]
fn a_parameter_text_has_at_most_127_characters(rt: HostRuntime) {
    let mut params = ParamsString::new();
    let first = "aaaaaaaaaaaaaaaaaaaaaaaaaaaaaaaa";
    let second = "bbbbbbbbbbbbbbbbbbbbbbbbbbbbbbbb";
    assert!(rt;
        is_added(&mut params, first, 4294967295) && is_added(&mut params, second, 4294967295)
    );
    let long = "ccccccccccccccccccccccccccccc";
    assert!(rt; is_not_added(params, long, 4294967295) && params.len() == 2);
    let third = "cccccccccccccccccccccccccccc";
    assert!(rt; is_added(&mut params, third, 4294967295) && params.len() == 3);
}

/// Whether a salt and an output of so many octets are taken where their bounds have it.
fn are_bounded(octets: &[u8]) -> bool {
    let len = octets.len();
    Salt::new(octets).is_ok() == (8 <= len && len <= 48)
        && Output::new(octets).is_ok() == (10 <= len && len <= 64)
}

#[test]
fn salts_and_outputs_have_bounds(rt: HostRuntime) {
    let octets = [3; 65];
    for len in 0..66 {
        assert!(rt; are_bounded(&octets[..len]));
    }
    assert!(rt;
        Salt::new(&octets[..7]) == Err(Error::SaltInvalid)
            && Output::new(&octets) == Err(Error::OutputSize)
    );
}

#[test]
fn salts_and_outputs_have_their_octets(rt: HostRuntime) {
    let salt = Salt::new(&[3; 9]).expect(&rt, "a salt");
    let output = Output::new(&[3; 12]).expect(&rt, "an output");
    assert!(rt; salt.as_ref() == &[3; 9][..] && output.len() == 12);
}

#[test]
fn a_refusal_is_printed_as_its_name(rt: HostRuntime) {
    let alloc = rt.alloc();
    let name = Ident::new("i").expect(&rt, "a name");
    assert!(rt;
        prints(alloc, &Error::Algorithm, "Algorithm")
            && prints(alloc, &Error::ParamInvalid { name }, "ParamInvalid")
            && prints(alloc, &Error::EncodingInvalid, "EncodingInvalid")
            && prints(alloc, &Error::OutputSize, "OutputSize")
            && prints(alloc, &Error::ParamsInvalid, "ParamsInvalid")
            && prints(alloc, &Error::PasswordInvalid, "PasswordInvalid")
            && prints(alloc, &Error::SaltInvalid, "SaltInvalid")
            && prints(alloc, &Error::Version, "Version")
            && prints(alloc, &Error::Rng, "Rng")
            && prints(alloc, &Error::Memory, "out of memory")
    );
}
