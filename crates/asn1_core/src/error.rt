//! Why a text could not be read or written.
ghost use Rattle.std.specs.Prelude.{◌≡◌};
ghost use Rattle.asn1_core.specs.declared.error.Error.TheVariants.{Memory};

use crate::identifier::ObjectIdentifier;
use std::alloc::{AllocError, AllocFailed};
use std::fmt;

/// Why octets could not be read as a text, or a value not be written as one.
#[derive(Clone, Copy, Debug, PartialEq, Eq, Drop)]
pub enum Error {
    /// The octets are not in the grammar that was asked for.
    Malformed,
    /// This identifier is at a place whose list of identifiers lacks it.
    OidUnknown { oid: ObjectIdentifier },
    /// A text would have, or a file has, more than 2^32 - 1 octets.
    Overlength,
    /// The writer has too little room left.
    NoRoom,
    /// A call on a file failed.
    File,
    /// There was no memory.
    Memory,
}

impl From<AllocError> for Error {
    ghost from_gives = { λ _ e. e ≡ Memory };

    fn from(_refused: AllocError) -> Error {
        Error::Memory
    }
}

impl<T: Drop> From<AllocFailed<T>> for Error {
    ghost from_gives = { λ _ e. e ≡ Memory };

    fn from(_refused: AllocFailed<T>) -> Error {
        Error::Memory
    }
}

impl fmt::Display for Error {
    ghost use Rattle.std.specs.Prelude.{Some};
    ghost use Rattle.asn1_core.specs.Error.{error_text};

    ghost output = { λ e. Some (error_text e) };

    fn fmt<W: fmt::Write>(&self, f: &mut fmt::Formatter<W>) -> fmt::Result {
        match self {
            Error::Malformed => f.write_str("malformed DER"),
            Error::OidUnknown { oid } => write!(f, "unknown OID: {oid}"),
            Error::Overlength => f.write_str("length overflow"),
            Error::NoRoom => f.write_str("no room"),
            Error::File => f.write_str("file failure"),
            Error::Memory => f.write_str("out of memory"),
        }
    }
}

impl std::error::Error for Error {}
