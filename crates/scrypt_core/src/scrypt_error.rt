//! Why scrypt refuses.

use std::alloc::AllocError;
use std::error::Error;
use std::fmt;

/// Why scrypt gives no key.
#[derive(Clone, Copy, PartialEq, Eq, Debug, Drop)]
pub enum ScryptError {
    /// The output is empty, or has more than 32 * (2^32 - 1) octets.
    InvalidOutputLen,
    /// There was no memory.
    Memory,
}

impl From<AllocError> for ScryptError {
    ghost use Rattle.std.specs.Prelude.{◌≡◌};
    ghost use Rattle.scrypt_core.specs.declared.scrypt_error.ScryptError.TheVariants.{Memory};

    ghost from_gives = { λ _ e. e ≡ Memory };

    fn from(_refused: AllocError) -> ScryptError {
        ScryptError::Memory
    }
}

impl fmt::Display for ScryptError {
    ghost use Rattle.std.specs.Prelude.{Some};
    ghost use Rattle.scrypt_core.specs.ScryptError.{scrypt_error_text};

    ghost output = { λ e. Some (scrypt_error_text e) };

    fn fmt<W: fmt::Write>(&self, f: &mut fmt::Formatter<W>) -> fmt::Result {
        match self {
            ScryptError::InvalidOutputLen => f.write_str("InvalidOutputLen"),
            ScryptError::Memory => f.write_str("out of memory"),
        }
    }
}

impl Error for ScryptError {}
