//! Why a PHC string or one of its parts was refused, or a password was.
ghost use Rattle.std.specs.Prelude.{◌≡◌};
ghost use Rattle.phc_core.specs.declared.error.Error.TheVariants.{Memory};

use crate::ident::Ident;
use std::alloc::AllocError;
use std::fmt;

/// Why a text, a value or a password was refused.
#[derive(Clone, Copy, Debug, PartialEq, Eq, Drop)]
pub enum Error {
    /// No such algorithm, or not the one that is asked for.
    Algorithm,
    /// The text is not in the grammar.
    EncodingInvalid,
    /// An output has a length that it cannot have there.
    OutputSize,
    /// This parameter has no value that the algorithm takes.
    ParamInvalid { name: Ident },
    /// The parameters are not those of the algorithm, or a parameter cannot be added.
    ParamsInvalid,
    /// The password is not the one of the hash, or there is nothing to compare it with.
    PasswordInvalid,
    /// A salt has a length that it cannot have.
    SaltInvalid,
    /// There is a version, and the algorithm has none.
    Version,
    /// No random octets could be drawn.
    Rng,
    /// There was no memory.
    Memory,
}

impl From<AllocError> for Error {
    ghost from_gives = { λ _ e. e ≡ Memory };

    fn from(_refused: AllocError) -> Error {
        Error::Memory
    }
}

impl fmt::Display for Error {
    ghost use Rattle.std.specs.Prelude.{Some};
    ghost use Rattle.phc_core.specs.Error.{error_text};

    ghost output = { λ e. Some (error_text e) };

    /// Prints the name of the variant, and `out of memory` for `Memory`.
    fn fmt<W: fmt::Write>(&self, f: &mut fmt::Formatter<W>) -> fmt::Result {
        match self {
            Error::Algorithm => f.write_str("Algorithm"),
            Error::EncodingInvalid => f.write_str("EncodingInvalid"),
            Error::OutputSize => f.write_str("OutputSize"),
            Error::ParamInvalid { .. } => f.write_str("ParamInvalid"),
            Error::ParamsInvalid => f.write_str("ParamsInvalid"),
            Error::PasswordInvalid => f.write_str("PasswordInvalid"),
            Error::SaltInvalid => f.write_str("SaltInvalid"),
            Error::Version => f.write_str("Version"),
            Error::Rng => f.write_str("Rng"),
            Error::Memory => f.write_str("out of memory"),
        }
    }
}

impl std::error::Error for Error {}
