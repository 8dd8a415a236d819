//! Why there is no private key.
ghost use Rattle.std.specs.Prelude.{◌≡◌};
ghost use Rattle.key_files.specs.declared.key_refusal.KeyRefusal.TheVariants.{Memory};

use std::alloc::AllocError;

/// Why a file gives no private key.
#[derive(Clone, Copy, Debug, PartialEq, Eq)]
pub enum KeyRefusal {
    /// It has no private key.
    NoKey,
    /// It has more than one.
    ManyKeys,
    /// The key is of a form that is not read.
    UnknownForm,
    /// The octets are no key of the form that their label names.
    Malformed,
    /// A key of an elliptic curve does not name the curve.
    NoCurve,
    /// The PKCS#8 text of a key would have more than 2^32 - 1 octets.
    TooLong,
    /// An encrypted key is under another scheme than PBES2 with PBKDF2.
    UnknownScheme,
    /// An encrypted key takes more rounds than the limit.
    TooManyRounds,
    /// An encrypted key has no password to open it.
    PasswordMissing,
    /// An encrypted key opens to no private key under the password.
    NotOpened,
    /// There was no memory.
    Memory,
}

impl From<AllocError> for KeyRefusal {
    ghost from_gives = { λ _ e. e ≡ Memory };

    fn from(_refused: AllocError) -> KeyRefusal {
        KeyRefusal::Memory
    }
}
