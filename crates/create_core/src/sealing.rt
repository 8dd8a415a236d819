//! Sealing the parts of a store.
ghost use Rattle.std.specs.Prelude.{◌≡◌, ◌≤◌, ◌<◌, ◌^◌, All, length, map, IfOk, IfErr};
ghost use Rattle.pkcs5.specs.Opening.{sha256_key};
ghost use Rattle.sealing_core.specs.Drawn.{AreOf16};
ghost use Rattle.create_core.specs.Parts.{IsSealedAt, parameters_under};

use crate::error::CreateError;
use asn1_core::{Items, Octets};
use octet_core::laws::are_octets;
use p12::AlgorithmIdentifier;
use pkcs5::pbes2::{EncryptionKey, EncryptionScheme, Kdf, Parameters, Pbkdf2Params, Pbkdf2Prf};
use sealing_core::{IvAndSalt, derive_keys};
use std::alloc::Global;

/// What the parts of a store are sealed with: what was drawn for each, and the key that PBKDF2 with HMAC-SHA-256 derives
/// from the password in this number of rounds under its salt (RFC 8018 section 5.2).
#[derive(Drop)]
pub(crate) struct SealingKeys<'a> {
    pub(crate) password: &'a str,
    pub(crate) rounds: u32,
    pub(crate) drawn: Items<IvAndSalt>,
    pub(crate) keys: Items<EncryptionKey>,
    ghost are_derived: { keys ≡ map (λ d. sha256_key rounds password.now d.salt) drawn },
    ghost are_drawn: { All AreOf16 drawn },
    ghost some_rounds: { 1 ≤ rounds },
    ghost few_rounds: { rounds < 2 ^ 32 },
}

/// A text that is sealed, and the algorithm that it is sealed under.
#[derive(Drop)]
pub(crate) struct Sealed {
    pub(crate) algorithm: AlgorithmIdentifier,
    pub(crate) text: Octets,
}

/// PBKDF2 with HMAC-SHA-256 in these rounds, and AES-256 in CBC mode.
fn parameters_under(rounds: u32, drawn: &IvAndSalt) -> Parameters
    ensures { result ≡ parameters_under rounds drawn.now }
{
    let iv = drawn.iv;
    Parameters {
        kdf: Kdf::Pbkdf2(Pbkdf2Params {
            salt: drawn.salt,
            iteration_count: rounds,
            key_length: None,
            prf: Pbkdf2Prf::HmacWithSha256,
        }),
        encryption: EncryptionScheme::Aes256Cbc { iv },
    }
}

impl<'a> SealingKeys<'a> {
    /// Derives the keys of the parts for which this was drawn. The only refusal is `Memory`.
    pub(crate) fn derive(
        alloc: Global,
        password: &'a str,
        rounds: u32,
        drawn: Items<IvAndSalt>,
    ) -> Result<SealingKeys<'a>, CreateError>
        requires rounds { 1 ≤ rounds }
        requires drawn { All AreOf16 drawn }
        ensures password { IfOk result (λ keys. keys.password.now ≡ password.now) }
        ensures rounds { IfOk result (λ keys. keys.rounds ≡ rounds) }
        ensures drawn { IfOk result (λ keys. keys.drawn ≡ drawn) }
        ensures err { IfErr result (λ e. e ≡ CreateError.Memory) }
    {
        let keys = derive_keys(alloc, password.as_bytes(), rounds, drawn.as_slice())?;
        Ok(SealingKeys {
            password,
            rounds,
            drawn,
            keys,
        })
    }

    /// A text, sealed as the part at this place. The only refusal is `Memory`.
    pub(crate) fn seal(
        &self,
        alloc: Global,
        place: usize,
        text: &[u8],
    ) -> Result<Sealed, CreateError>
        requires place { place < length self.now.drawn }
        ensures ok { IfOk result (λ s. IsSealedAt self.now.rounds self.now.password.now
            self.now.drawn place text.now s.algorithm s.text) }
        ensures err { IfErr result (λ e. e ≡ CreateError.Memory) }
    {
        let Some(drawn) = self.drawn.get(place) else {
            unreachable!()
        };
        let Some(key) = self.keys.get(place) else {
            unreachable!()
        };
        let parameters = parameters_under(self.rounds, drawn);
        match parameters.encrypt_under_key(alloc, key, text) {
            Ok(text) => {
                are_octets(text.as_slice());
                Ok(Sealed {
                    algorithm: AlgorithmIdentifier::Pbes2(parameters),
                    text,
                })
            }
            Err(_) => Err(CreateError::Memory),
        }
    }
}
