//! Why there is no password.
use crate::origin::Origin;
use std::alloc::{AllocError, Global};
use std::io;
use terminal_text::Printable;

/// Why there is no password.
#[derive(Drop)]
pub enum PasswordError {
    /// It has more than 1,024 octets.
    TooLong,
    /// It is not UTF-8.
    NotUtf8,
    /// There is no environment variable of the name.
    NoVariable,
    /// The file or the standard input could not be read.
    Unread(io::Error),
    /// There was not enough memory.
    Memory,
}

impl From<AllocError> for PasswordError {
    fn from(_refused: AllocError) -> PasswordError {
        PasswordError::Memory
    }
}

impl From<io::Error> for PasswordError {
    fn from(error: io::Error) -> PasswordError {
        match error.kind() {
            io::ErrorKind::OutOfMemory => PasswordError::Memory,
            _ => PasswordError::Unread(error),
        }
    }
}

impl PasswordError {
    /// What is said of it; `purpose` says which password it is, and `origin` where it was to come from. The name of a variable is not
    /// shown, since it may be a password. The only error is out of memory.
    pub fn text(
        &self,
        alloc: Global,
        purpose: &str,
        origin: Origin<'_>,
    ) -> Result<String, AllocError> {
        let shown = Printable(origin.path());
        match self {
            PasswordError::TooLong => {
                String::from_str(alloc, "a password has more than 1,024 octets")
            }
            PasswordError::NotUtf8 => format!(in alloc;
                "the {purpose} is not UTF-8; is it in another encoding, such as Latin-1 or UTF-16?"
            ),
            PasswordError::NoVariable => format!(in alloc;
                "the {purpose}: there is no environment variable of the name that was given (it is \
                 not shown here)"
            ),
            PasswordError::Unread(error) => {
                format!(in alloc; "the {purpose} file {shown}: {error}")
            }
            PasswordError::Memory => Err(AllocError),
        }
    }
}
