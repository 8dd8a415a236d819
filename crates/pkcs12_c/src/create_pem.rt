//! The store of PEM texts, in the caller's output.
ghost use Rattle.std.specs.Prelude.{◌≡◌};
ghost use Rattle.pkcs12_c.specs.Answers.{CreateAnswers};
ghost use Rattle.pkcs12_c.specs.Given.{given};

use crate::created::{Creation, created};
use crate::filled::filled;
use crate::given::given_of;
use crate::password::password_of;
use crate::refusal::{Refusal, creation_refusal};
use crate::rounds::ROUNDS;
use pem_stores::{KeyOpening, PemTexts};
use std::alloc::Global;

/// The store of a private key and of certificates in PEM texts.
pub fn create_pem(
    alloc: Global,
    key: &[u8],
    certificates: &[u8],
    key_password: &[u8],
    name: &[u8],
    password: &[u8],
    rounds: u32,
    limit: u32,
    random: &[u8],
    output: &mut [u8],
    needed: &mut usize,
) -> Result<(), Refusal>
    ensures { CreateAnswers (record {
      key = key.now;
      certificates = certificates.now;
      key_password = given key_password.now;
      name = given name.now;
      limit = limit;
      password = password.now;
      rounds = rounds;
    }) random.now output.old output.new needed.new result }
{
    *needed = 0;
    if rounds == 0 || rounds > ROUNDS {
        return Err(Refusal::Rounds);
    }
    let Some(password) = password_of(password) else {
        return Err(Refusal::Password);
    };
    let Some(key_password) = given_of(key_password) else {
        return Err(Refusal::Password);
    };
    let Some(name) = given_of(name) else {
        return Err(Refusal::Name);
    };
    let creation = Creation {
        texts: PemTexts {
            key,
            certificates,
            name: name.text,
        },
        opening: KeyOpening {
            password: key_password.text,
            limit,
        },
        password,
        rounds,
    };
    match created(alloc, &creation, random) {
        Ok(text) => filled(text.as_slice(), output, needed),
        Err(refusal) => Err(creation_refusal(refusal)),
    }
}
