//! Key derivation functions.
ghost use Rattle.std.specs.Prelude.{ℕ, ◌<◌, ◌^◌, List, length, Result};
ghost use Rattle.phc_core.specs.declared.error.Error.{Error};

use crate::error::Error;

/// A key derivation function.
pub trait Kdf {
    // what the call leaves in the output at a password, a salt and an output, and what it returns
    ghost derives: { Self → List ℕ → List ℕ → List ℕ → List ℕ → Result (Unit {0}) Error → Type 0 };

    /// Fills `out` with a key that is derived from a password and a salt. Caller: `out` has at most 2^32 - 1 octets.
    fn derive_key(&self, password: &[u8], salt: &[u8], out: &mut [u8]) -> Result<(), Error>
        requires { length out.old < 2 ^ 32 }
        ensures { derives self.now password.now salt.now out.old out.new result };
}

/// A key derivation function that is made for passwords.
pub trait Pbkdf: Kdf {}
