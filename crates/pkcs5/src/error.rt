//! Why a text is not encrypted or decrypted.
ghost use Rattle.std.specs.Prelude.{◌≡◌};

use asn1_core::ObjectIdentifier;
use std::alloc::AllocError;
use std::fmt;

/// Why a text is not encrypted or decrypted.
#[derive(Clone, Copy, Debug, PartialEq, Eq, Drop)]
pub enum Error {
    /// The parameters of this algorithm cannot be used, or not with the cipher.
    AlgorithmParametersInvalid { oid: ObjectIdentifier },
    /// The ciphertext has a wrong length, what it decrypts to has no padding, or its tag is not that of it: as under
    /// a wrong password.
    DecryptFailed,
    /// The ciphertext does not fit the buffer.
    EncryptFailed,
    /// The scheme is of PBES1, which neither encrypts nor decrypts here.
    NoPbes1CryptSupport,
    /// The draw gave no octets.
    Rng,
    /// This algorithm is not there for encryption.
    UnsupportedAlgorithm { oid: ObjectIdentifier },
    /// There was no memory.
    Memory,
}

impl From<AllocError> for Error {
    ghost use Rattle.pkcs5.specs.declared.error.Error.TheVariants.{Memory};

    ghost from_gives = { λ _ e. e ≡ Memory };

    fn from(_refused: AllocError) -> Error {
        Error::Memory
    }
}

impl fmt::Display for Error {
    ghost use Rattle.std.specs.Prelude.{Some};
    ghost use Rattle.pkcs5.specs.Error.{error_text};

    ghost output = { λ e. Some (error_text e) };

    fn fmt<W: fmt::Write>(&self, f: &mut fmt::Formatter<W>) -> fmt::Result {
        match self {
            Error::AlgorithmParametersInvalid { oid } => {
                write!(f, "PKCS#5 parameters for algorithm {oid} are invalid")
            }
            Error::DecryptFailed => f.write_str("PKCS#5 decryption failed"),
            Error::EncryptFailed => f.write_str("PKCS#5 encryption failed"),
            Error::NoPbes1CryptSupport => f.write_str(
                "PKCS#5 encryption/decryption unsupported for PBES1 (won't fix)",
            ),
            Error::Rng => f.write_str("random number generation failure"),
            Error::UnsupportedAlgorithm { oid } => {
                write!(f, "PKCS#5 algorithm {oid} is unsupported")
            }
            Error::Memory => f.write_str("out of memory"),
        }
    }
}

impl std::error::Error for Error {}

/// What a call of this crate returns.
pub type Result<T> = std::result::Result<T, Error>;
