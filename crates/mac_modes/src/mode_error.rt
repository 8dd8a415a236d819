//! Why a mode refuses a text.
use std::error::Error;
use std::fmt;

/// Why a mode of a block cipher refuses a text.
#[derive(Clone, Copy, PartialEq, Eq, Debug, Drop)]
pub enum ModeError {
    /// The buffer has too little room for the text and its padding or tag.
    NoRoom,
    /// The ciphertext has a length that no ciphertext of the mode has.
    BadLength,
    /// The decrypted text does not end in its padding.
    BadPadding,
    /// The tag is not that of the ciphertext.
    BadTag,
}

impl fmt::Display for ModeError {
    ghost use Rattle.std.specs.Prelude.{Some};
    ghost use Rattle.mac_modes.specs.ModeError.{mode_error_text};

    ghost output = { λ e. Some (mode_error_text e) };

    fn fmt<W: fmt::Write>(&self, f: &mut fmt::Formatter<W>) -> fmt::Result {
        match self {
            ModeError::NoRoom => f.write_str("NoRoom"),
            ModeError::BadLength => f.write_str("BadLength"),
            ModeError::BadPadding => f.write_str("BadPadding"),
            ModeError::BadTag => f.write_str("BadTag"),
        }
    }
}

impl Error for ModeError {}
