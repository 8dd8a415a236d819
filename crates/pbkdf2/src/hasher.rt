//! Keys from passwords under fixed parameters.
ghost use Rattle.std.specs.Prelude.{◌≡◌, ◌<◌, ◌^◌, ℕ, length};
ghost use Rattle.pbkdf2.specs.Pbkdf2.{block_count};
ghost use Rattle.pbkdf2.specs.Settings.{recommended};
ghost use Rattle.pbkdf2.specs.Algorithm.{output_of, derived, recommended_for};

use crate::algorithm::Algorithm;
use crate::params::Params;
use crate::with_hmac::pbkdf2_hmac_with_params;
use phc_core::{Error, Kdf, Pbkdf};

/// PBKDF2 by one algorithm under parameters that are chosen once. It derives keys, and makes and tests password hashes.
#[derive(Clone, Copy, Debug, PartialEq, Eq)]
pub struct Pbkdf2 {
    pub(crate) algorithm: Algorithm,
    pub(crate) params: Params,
}

impl Pbkdf2 {
    /// HMAC-SHA-256 with its recommended parameters.
    pub const SHA256: Self = Pbkdf2 {
        algorithm: Algorithm::Pbkdf2Sha256,
        params: Params::RECOMMENDED,
    };
    /// HMAC-SHA-512 with its recommended parameters.
    pub const SHA512: Self = Pbkdf2 {
        algorithm: Algorithm::Pbkdf2Sha512,
        params: Params::RECOMMENDED_SHA512,
    };

    /// This algorithm with these parameters.
    pub const fn new(algorithm: Algorithm, params: Params) -> Self
        ensures { result ≡ record { algorithm = algorithm; params = params } }
    {
        Pbkdf2 { algorithm, params }
    }

    /// Fills `out` with a key that is derived from a password and a salt (RFC 8018 section 5.2), in the number of rounds of
    /// the parameters; their output length does not count. Nothing is refused. Caller: `out` has fewer than 2^32 blocks of
    /// the algorithm's output.
    pub fn hash_password_into(&self, password: &[u8], salt: &[u8], out: &mut [u8])
        requires { block_count (length out.old) (output_of self.now.algorithm) < 2 ^ 32 }
        ensures { out.new ≡ derived self.now.algorithm password.now salt.now self.now.params.rounds
            (length out.old) }
    {
        pbkdf2_hmac_with_params(password, salt, self.algorithm, self.params, out);
    }
}

impl Default for Pbkdf2 {
    ghost use Rattle.pbkdf2.specs.declared.algorithm.Algorithm.TheVariants.{Pbkdf2Sha256};

    ghost is_default = { λ h. h ≡ record { algorithm = Pbkdf2Sha256; params = recommended } };

    fn default() -> Self {
        Pbkdf2::SHA256
    }
}

impl From<Algorithm> for Pbkdf2 {
    ghost from_gives = { λ a h. h ≡ record { algorithm = a; params = recommended_for a } };

    fn from(algorithm: Algorithm) -> Self {
        match algorithm {
            Algorithm::Pbkdf2Sha256 => Pbkdf2::SHA256,
            Algorithm::Pbkdf2Sha512 => Pbkdf2::SHA512,
        }
    }
}

impl From<Params> for Pbkdf2 {
    ghost use Rattle.pbkdf2.specs.declared.algorithm.Algorithm.TheVariants.{Pbkdf2Sha256};

    ghost from_gives = { λ p h. h ≡ record { algorithm = Pbkdf2Sha256; params = p } };

    fn from(params: Params) -> Self {
        Pbkdf2::new(Algorithm::RECOMMENDED, params)
    }
}

impl Kdf for Pbkdf2 {
    ghost use Rattle.std.specs.Prelude.{Ok};

    ghost derives = { λ h q salt old new r.
        (new ≡ derived h.algorithm q salt h.params.rounds (length old)) × (r ≡ Ok tt) };

    /// `hash_password_into`, which never refuses.
    fn derive_key(&self, password: &[u8], salt: &[u8], out: &mut [u8]) -> Result<(), Error> {
        self.hash_password_into(password, salt, out);
        Ok(())
    }
}

impl Pbkdf for Pbkdf2 {}
