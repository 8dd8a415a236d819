//! Why a public key could not be read, or is not the one that is asked for.
ghost use Rattle.std.specs.Prelude.{◌≡◌};
ghost use Rattle.spki.specs.declared.error.Error.TheVariants.{Memory};
ghost use Rattle.spki.specs.Error.{raised};

use asn1_core::ObjectIdentifier;
use std::alloc::AllocError;
use std::fmt;

/// Why a call on a public key or an algorithm was refused.
#[derive(Clone, Copy, Debug, PartialEq, Eq, Drop)]
pub enum Error {
    /// An algorithm has no parameters where some are asked for.
    AlgorithmParametersMissing,
    /// The octets are not in the grammar, or a text or a file has a fault.
    Asn1(asn1_core::Error),
    /// The key is none of its algorithm. Key types return this; no call of this crate does.
    KeyMalformed,
    /// This identifier stands where another is expected, or is unknown there.
    OidUnknown { oid: ObjectIdentifier },
    /// There was no memory.
    Memory,
}

impl From<asn1_core::Error> for Error {
    ghost from_gives = { λ f e. e ≡ raised f };

    fn from(e: asn1_core::Error) -> Error {
        match e {
            asn1_core::Error::OidUnknown { oid } => Error::OidUnknown { oid },
            asn1_core::Error::Memory => Error::Memory,
            other => Error::Asn1(other),
        }
    }
}

impl From<AllocError> for Error {
    ghost from_gives = { λ _ e. e ≡ Memory };

    fn from(_refused: AllocError) -> Error {
        Error::Memory
    }
}

impl fmt::Display for Error {
    ghost use Rattle.std.specs.Prelude.{Some};
    ghost use Rattle.spki.specs.Error.{error_text};

    ghost output = { λ e. Some (error_text e) };

    fn fmt<W: fmt::Write>(&self, f: &mut fmt::Formatter<W>) -> fmt::Result {
        match self {
            Error::AlgorithmParametersMissing => {
                f.write_str("AlgorithmIdentifier parameters missing")
            }
            Error::Asn1(cause) => write!(f, "ASN.1 error: {cause}"),
            Error::KeyMalformed => f.write_str("SPKI cryptographic key data malformed"),
            Error::OidUnknown { oid } => write!(f, "unknown/unsupported algorithm OID: {oid}"),
            Error::Memory => f.write_str("out of memory"),
        }
    }
}

impl std::error::Error for Error {}

/// What a call of this crate returns.
pub type Result<T> = std::result::Result<T, Error>;
