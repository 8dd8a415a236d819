//! What makes and tests password hashes.
ghost use Rattle.std.specs.Prelude.{ℕ, List, Option, Result};
ghost use Rattle.phc_core.specs.declared.error.Error.{Error};
ghost use Rattle.phc_core.specs.Remainders.{seen};

use crate::decimal::Decimal;
use crate::error::Error;

/// Makes password hashes of type `H` under its own parameters.
pub trait PasswordHasher<H> {
    // what the call returns at a password and a salt
    ghost hashes: { Self → List ℕ → List ℕ → Result H Error → Type 0 };

    /// The hash of a password under a salt. The refusals are those of the implementation.
    fn hash_password_with_salt(&self, password: &[u8], salt: &[u8]) -> Result<H, Error>
        ensures { hashes self.now password.now salt.now result };
}

/// Makes password hashes of type `H` under an algorithm, a version and parameters that the caller chooses.
pub trait CustomizedPasswordHasher<H> {
    type Params;

    // what the call returns at a password, a salt, an identifier, a version and parameters
    ghost customizes: { Self → List ℕ → List ℕ → Option (List ℕ) → Option ℕ → Self.Params
        → Result H Error → Type 0 };

    /// The hash of a password under a salt, by the algorithm of this identifier and version, with these parameters.
    /// Without an identifier it is the algorithm of the implementation's choice. The refusals are those of the
    /// implementation.
    fn hash_password_customized(
        &self,
        password: &[u8],
        salt: &[u8],
        alg_id: Option<&str>,
        version: Option<Decimal>,
        params: Self::Params,
    ) -> Result<H, Error>
        ensures { customizes self.now password.now salt.now
            (seen alg_id.entry) version params result };
}

/// Tests passwords against password hashes of type `H`.
pub trait PasswordVerifier<H> {
    // what the call returns at a password and a hash
    ghost verifies: { Self → List ℕ → H → Result (Unit {0}) Error → Type 0 };

    /// Whether this is the password of the hash: Ok where it is. The refusals are those of the implementation.
    fn verify_password(&self, password: &[u8], hash: &H) -> Result<(), Error>
        ensures { verifies self.now password.now hash.now result };
}
