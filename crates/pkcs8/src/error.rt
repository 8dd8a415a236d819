//! Why a private key could not be read or written, or is not the one that is asked for.
ghost use Rattle.std.specs.Prelude.{◌≡◌};
ghost use Rattle.pkcs8.specs.declared.error.Error.TheVariants.{KeyMalformed, Memory};
ghost use Rattle.pkcs8.specs.Error.{of_asn1, of_pkcs5, of_spki, as_spki};

use std::alloc::AllocError;
use std::fmt;

/// Why a call on a private key was refused.
#[derive(Clone, Copy, Debug, PartialEq, Eq, Drop)]
pub enum Error {
    /// The octets are not in the grammar, or a text or a file has a fault.
    Asn1(asn1_core::Error),
    /// A private key could not be encrypted or decrypted.
    EncryptedPrivateKey(pkcs5::Error),
    /// The key is none of its algorithm. Key types return this; no call of this crate does.
    KeyMalformed(KeyError),
    /// The parameters are none of the key's algorithm. Key types return this; no call of this crate does.
    ParametersMalformed,
    /// The public key of a private key has a fault.
    PublicKey(spki::Error),
    /// There was no memory.
    Memory,
}

/// Why octets are no key of an algorithm.
#[derive(Clone, Copy, Debug, PartialEq, Eq, Drop)]
pub enum KeyError {
    /// They are no key of this algorithm.
    Invalid,
    /// There are too few.
    TooShort,
    /// There are too many.
    TooLong,
}

impl From<KeyError> for Error {
    ghost from_gives = { λ k e. e ≡ KeyMalformed k };

    fn from(e: KeyError) -> Error {
        Error::KeyMalformed(e)
    }
}

impl From<asn1_core::Error> for Error {
    ghost from_gives = { λ f e. e ≡ of_asn1 f };

    fn from(e: asn1_core::Error) -> Error {
        match e {
            asn1_core::Error::Memory => Error::Memory,
            other => Error::Asn1(other),
        }
    }
}

impl From<pkcs5::Error> for Error {
    ghost from_gives = { λ f e. e ≡ of_pkcs5 f };

    fn from(e: pkcs5::Error) -> Error {
        match e {
            pkcs5::Error::Memory => Error::Memory,
            other => Error::EncryptedPrivateKey(other),
        }
    }
}

impl From<spki::Error> for Error {
    ghost from_gives = { λ f e. e ≡ of_spki f };

    fn from(e: spki::Error) -> Error {
        match e {
            spki::Error::Memory => Error::Memory,
            other => Error::PublicKey(other),
        }
    }
}

impl From<AllocError> for Error {
    ghost from_gives = { λ _ e. e ≡ Memory };

    fn from(_refused: AllocError) -> Error {
        Error::Memory
    }
}

impl From<Error> for spki::Error {
    ghost from_gives = { λ f e. e ≡ as_spki f };

    fn from(e: Error) -> spki::Error {
        match e {
            Error::Asn1(cause) => spki::Error::Asn1(cause),
            Error::PublicKey(cause) => cause,
            Error::Memory => spki::Error::Memory,
            Error::EncryptedPrivateKey(_) | Error::KeyMalformed(_) | Error::ParametersMalformed => {
                spki::Error::KeyMalformed
            }
        }
    }
}

impl fmt::Display for Error {
    ghost use Rattle.std.specs.Prelude.{Some};
    ghost use Rattle.pkcs8.specs.Error.{error_text};

    ghost output = { λ e. Some (error_text e) };

    fn fmt<W: fmt::Write>(&self, f: &mut fmt::Formatter<W>) -> fmt::Result {
        match self {
            Error::Asn1(cause) => write!(f, "PKCS#8 ASN.1 error: {cause}"),
            Error::EncryptedPrivateKey(cause) => write!(f, "{cause}"),
            Error::KeyMalformed(cause) => write!(f, "PKCS#8 key malformed: {cause}"),
            Error::ParametersMalformed => f.write_str("PKCS#8 algorithm parameters malformed"),
            Error::PublicKey(cause) => write!(f, "public key error: {cause}"),
            Error::Memory => f.write_str("out of memory"),
        }
    }
}

impl fmt::Display for KeyError {
    ghost use Rattle.std.specs.Prelude.{Some};
    ghost use Rattle.pkcs8.specs.Error.{key_error_text};

    ghost output = { λ e. Some (key_error_text e) };

    fn fmt<W: fmt::Write>(&self, f: &mut fmt::Formatter<W>) -> fmt::Result {
        match self {
            KeyError::Invalid => f.write_str("key invalid"),
            KeyError::TooShort => f.write_str("key too short"),
            KeyError::TooLong => f.write_str("key too long"),
        }
    }
}

impl std::error::Error for Error {}

impl std::error::Error for KeyError {}

/// What a call of this crate returns.
pub type Result<T> = std::result::Result<T, Error>;
