//! Errors of password files.
ghost use Rattle.std.specs.Prelude.{◌≡◌};
ghost use Rattle.passdb_core.specs.declared.error.DbError.TheVariants.{Memory};

use std::alloc::AllocError;

/// Why a call of a password file failed.
#[derive(Clone, Copy, Debug, PartialEq, Eq, Drop)]
pub enum DbError {
    /// The text is not a password file.
    Malformed,
    /// Octets could not be drawn.
    Rng,
    /// Out of memory.
    Memory,
}

impl From<AllocError> for DbError {
    ghost from_gives = { λ _ e. e ≡ Memory };

    fn from(_refused: AllocError) -> DbError {
        DbError::Memory
    }
}

impl From<phc_core::Error> for DbError {
    ghost from_gives = { λ _ e. e ≡ Memory };

    fn from(_refused: phc_core::Error) -> DbError {
        DbError::Memory
    }
}
