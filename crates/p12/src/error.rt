//! Why a call on a store is refused.
ghost use Rattle.std.specs.Prelude.{◌≡◌};

use std::alloc::AllocError;
use std::fmt;

/// Why a call on a store is refused.
#[derive(Clone, Copy, Debug, PartialEq, Eq, Drop)]
pub enum Error {
    /// The octets are not in the grammar that was asked for, or a value cannot be written.
    Malformed,
    /// A content gives no plain octets.
    Invalid,
    /// The draw failed.
    Rng,
    /// A text would have more than 2^32 - 1 octets.
    TooLong,
    /// There was no memory.
    Memory,
}

impl From<asn1_core::Error> for Error {
    ghost use Rattle.p12.specs.Error.{refusal_of};

    ghost from_gives = { λ e r. r ≡ refusal_of e };

    fn from(e: asn1_core::Error) -> Error {
        match e {
            asn1_core::Error::Malformed
            | asn1_core::Error::OidUnknown { .. }
            | asn1_core::Error::File => Error::Malformed,
            asn1_core::Error::Overlength | asn1_core::Error::NoRoom => Error::TooLong,
            asn1_core::Error::Memory => Error::Memory,
        }
    }
}

impl From<AllocError> for Error {
    ghost use Rattle.p12.specs.declared.error.Error.TheVariants.{Memory};

    ghost from_gives = { λ _ r. r ≡ Memory };

    fn from(_refused: AllocError) -> Error {
        Error::Memory
    }
}

impl fmt::Display for Error {
    ghost use Rattle.std.specs.Prelude.{Some};
    ghost use Rattle.p12.specs.Error.{error_text};

    ghost output = { λ e. Some (error_text e) };

    fn fmt<W: fmt::Write>(&self, f: &mut fmt::Formatter<W>) -> fmt::Result {
        f.write_str(match self {
            Error::Malformed => "Malformed",
            Error::Invalid => "Invalid",
            Error::Rng => "Rng",
            Error::TooLong => "TooLong",
            Error::Memory => "out of memory",
        })
    }
}

impl std::error::Error for Error {}
