//! One key by each call, and the parameters of password hashes.
ghost use Rattle.std.specs.Prelude.{◌≡◌, ◌<◌};

use crate::answers::prints;
use mac_modes::{Hmac, Sha1, Sha256};
use pbkdf2::{
    Algorithm, Params, Pbkdf2, pbkdf2, pbkdf2_array, pbkdf2_counted, pbkdf2_hmac,
    pbkdf2_hmac_array, pbkdf2_hmac_counted, pbkdf2_hmac_with_params,
};
use phc_core::{Error, Kdf};
use std::alloc::Global;
use std::marker::Brand;
use std::sync::ledger::{Blank, Ledger};
use steps::Steps;

/// The key of 1,000 rounds of HMAC-SHA-256 on `password` and `salt`, as OpenSSL gives it.
const KEY: [u8; 20] =
    *b"\x63\x2c\x28\x12\xe4\x6d\x46\x04\x10\x2b\xa7\x61\x8e\x9d\x6d\x7d\x2f\x81\x28\xf6";

#[test]
fn a_buffer_is_filled_with_the_key(rt: HostRuntime) {
    let mut filled = [0; 20];
    let answer = pbkdf2::<Hmac<Sha256>>(b"password", b"salt", 1000, &mut filled);
    let mut by_hmac = [0; 20];
    pbkdf2_hmac::<Sha256>(b"password", b"salt", 1000, &mut by_hmac);
    assert!(rt; answer.is_ok() && filled == KEY && by_hmac == KEY);
}

#[test]
fn an_array_is_the_key(rt: HostRuntime) {
    assert!(rt;
        pbkdf2_array::<Hmac<Sha256>, 20>(b"password", b"salt", 1000) == Ok(KEY)
            && pbkdf2_hmac_array::<Sha256, 20>(b"password", b"salt", 1000) == KEY
    );
}

#[test]
fn parameters_give_the_same_key(rt: HostRuntime) {
    let params = Params::new(1000).expect(&rt, "parameters");
    let default = Algorithm::default();
    let mut chosen = [0; 20];
    pbkdf2_hmac_with_params(b"password", b"salt", default, params, &mut chosen);
    let mut derived = [0; 20];
    let answer = Pbkdf2::from(params).derive_key(b"password", b"salt", &mut derived);
    assert!(rt; answer.is_ok() && chosen == KEY && derived == KEY);
}

/// Whether `pbkdf2_counted` and `pbkdf2_hmac_counted` give this key, over a counter of its own.
fn is_counted_key<L: Ledger>(rounds: u32, blank: Blank, expected: [u8; 20]) -> bool
    requires name { blank.name ≡ L.name }
    requires parts { blank.parts ≡ L.parts }
    requires some { 0 < blank.parts }
{
    let mut steps = Steps::<L>::open(blank);
    let mut key = [0; 20];
    let answer = pbkdf2_counted::<Hmac<Sha1>, L>(
        b"password",
        b"salt",
        rounds,
        &mut key,
        &mut steps,
    );
    let mut again = [0; 20];
    pbkdf2_hmac_counted::<Sha1, L>(b"password", b"salt", rounds, &mut again, &mut steps);
    answer.is_ok() && key == expected && again == expected
}

// RFC 6070
#[test]
fn a_counted_key_is_the_one_of_the_standard(rt: HostRuntime) {
    let key = *b"\x4b\x00\x79\x01\xb7\x65\x48\x9a\xbe\xad\x49\xd9\x26\xf7\x21\xd0\x65\xa4\x29\xc1";
    assert!(rt; is_counted_key::<Brand>(4096, Blank::new(1), key));
}

/// Whether the parameters are refused.
fn is_refused(rounds: u32) -> bool {
    Params::new(rounds) == Err(Error::ParamsInvalid)
        && Params::try_from(rounds) == Err(Error::ParamsInvalid)
}

/// Whether an output of so many octets is taken.
fn is_taken(output_len: usize) -> bool {
    Params::new_with_output_len(1000, output_len).is_ok()
}

#[test]
fn parameters_have_bounds(rt: HostRuntime) {
    let least = Params::new(1000).expect(&rt, "parameters");
    assert!(rt; is_refused(999) && least.rounds() == 1000 && least.output_len() == 32);
    for len in 0..80 {
        assert!(rt; is_taken(len) == (10 <= len && len <= 64));
    }
}

/// Whether the text is one of so many rounds.
fn is_text_of(text: &str, rounds: u32) -> bool {
    text.parse::<Params>() == Params::new(rounds)
}

/// Whether the text is refused as one of parameters.
fn is_text_of_none(text: &str, refusal: Error) -> bool {
    text.parse::<Params>() == Err(refusal)
}

#[test]
fn parameters_are_read_and_printed(rt: HostRuntime) {
    assert!(rt;
        is_text_of("+2000", 2000)
            && is_text_of_none("999", Error::ParamsInvalid)
            && is_text_of_none("1e3", Error::EncodingInvalid)
    );
    let recommended = Params::recommended_for(Algorithm::Pbkdf2Sha512);
    assert!(rt; prints(rt.alloc(), &recommended, "210000"));
}

#[test]
fn hashers_have_the_recommended_rounds(rt: HostRuntime) {
    let sha256 = Params::new(600_000).expect(&rt, "parameters");
    let sha512 = Params::new(210_000).expect(&rt, "parameters");
    assert!(rt;
        Pbkdf2::SHA256 == Pbkdf2::new(Algorithm::Pbkdf2Sha256, sha256)
            && Pbkdf2::SHA512 == Pbkdf2::new(Algorithm::Pbkdf2Sha512, sha512)
    );
}

/// Whether the text names an algorithm, which prints it again.
fn is_name(alloc: Global, text: &str) -> bool {
    let Ok(algorithm) = Algorithm::new(text) else {
        return false;
    };
    prints(alloc, &algorithm, text) && text.parse() == Ok(algorithm)
}

/// Texts that name no algorithm.
static NO_NAMES: [&str; 5] = [
    "",
    "pbkdf2",
    "PBKDF2-SHA256",
    "pbkdf2-sha1",
    "pbkdf2-sha256 ",
];

#[test]
fn algorithms_are_read_and_printed(rt: HostRuntime) {
    let alloc = rt.alloc();
    assert!(rt; is_name(alloc, "pbkdf2-sha256") && is_name(alloc, "pbkdf2-sha512"));
    for text in &NO_NAMES {
        assert!(rt; Algorithm::new(text) == Err(Error::Algorithm), "{text}");
    }
}
