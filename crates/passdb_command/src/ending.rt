//! Why the command ends without having done what was asked.
ghost use Rattle.std.specs.Prelude.{◌≡◌};
ghost use Rattle.passdb_command.specs.Ending.{code_of};

use command_base::Message;
use passdb_core::DbError;
use std::alloc::{AllocError, AllocFailed, Global};
use std::io;
use terminal_text::Printable;

/// The kinds of failure. The text of `--help` has them in a table, with their numbers.
#[derive(Clone, Copy, PartialEq, Eq, Debug)]
pub enum Ending {
    /// The arguments are not those of a subcommand, or one of them is outside its bounds.
    Usage,
    /// The file or a password could not be read.
    ReadFault,
    /// The file could not be written; it is as it was.
    WriteFault,
    /// Another run is changing the file.
    Locked,
    /// The file is not a password file.
    Malformed,
    /// There was not enough memory.
    Memory,
    /// The password was not given.
    PasswordMissing,
    /// The new password was not given.
    NewPasswordMissing,
    /// The password is not that of the name.
    WrongPassword,
    /// The file does not have the name.
    NameUnknown,
    /// The file has the name already.
    NameExists,
    /// The system gave no random octets.
    Rng,
    /// A password is not UTF-8, has more than 1,024 octets, or is an empty new one.
    PasswordUnusable,
}

impl Ending {
    /// The exit number.
    #[tactic(auto, unfolding(crate::specs::Ending::code_of))]
    pub fn code(self) -> u8
        ensures { result ≡ code_of self }
    {
        match self {
            Ending::Usage => 2,
            Ending::ReadFault => 3,
            Ending::WriteFault => 4,
            Ending::Locked => 5,
            Ending::Malformed => 6,
            Ending::Memory => 7,
            Ending::PasswordMissing => 8,
            Ending::NewPasswordMissing => 9,
            Ending::WrongPassword => 10,
            Ending::NameUnknown => 11,
            Ending::NameExists => 12,
            Ending::Rng => 20,
            Ending::PasswordUnusable => 22,
        }
    }

    /// The name that the table has beside the number.
    pub fn name(self) -> &'static str {
        match self {
            Ending::Usage => "Usage",
            Ending::ReadFault => "ReadFault",
            Ending::WriteFault => "WriteFault",
            Ending::Locked => "Locked",
            Ending::Malformed => "Malformed",
            Ending::Memory => "Memory",
            Ending::PasswordMissing => "PasswordMissing",
            Ending::NewPasswordMissing => "NewPasswordMissing",
            Ending::WrongPassword => "WrongPassword",
            Ending::NameUnknown => "NameUnknown",
            Ending::NameExists => "NameExists",
            Ending::Rng => "Rng",
            Ending::PasswordUnusable => "PasswordUnusable",
        }
    }
}

/// A failure: its kind, and what exactly was wrong.
#[derive(Drop)]
pub struct Failure {
    pub ending: Ending,
    pub message: Message,
}

impl Failure {
    pub fn new(ending: Ending, text: &'static str) -> Failure
        ensures { result.ending ≡ ending }
    {
        Failure {
            ending,
            message: Message::Fixed(text),
        }
    }

    /// The failure with a text that was made for it; `Memory` where there was none for the text.
    pub fn told(ending: Ending, text: Result<String, AllocError>) -> Failure {
        match text {
            Ok(text) => Failure {
                ending,
                message: Message::Made(text),
            },
            Err(refused) => Failure::from(refused),
        }
    }

    /// The failure of a call on the system, for this purpose and at this path.
    pub fn io(
        alloc: Global,
        ending: Ending,
        purpose: &str,
        path: &str,
        error: io::Error,
    ) -> Failure {
        if error.kind() == io::ErrorKind::OutOfMemory {
            return Failure::from(AllocError);
        }
        let shown = Printable(path);
        Failure::told(ending, format!(in alloc; "{purpose} {shown}: {error}"))
    }
}

impl From<AllocError> for Failure {
    fn from(_refused: AllocError) -> Failure {
        Failure::new(Ending::Memory, "there was not enough memory")
    }
}

impl<T: Drop> From<AllocFailed<T>> for Failure {
    fn from(_refused: AllocFailed<T>) -> Failure {
        Failure::from(AllocError)
    }
}

impl From<DbError> for Failure {
    fn from(error: DbError) -> Failure {
        match error {
            DbError::Malformed => Failure::new(
                Ending::Malformed,
                "the file is not a password file: lines NAME:HASH, names in order",
            ),
            DbError::Rng => Failure::new(Ending::Rng, "the system gave no random octets"),
            DbError::Memory => Failure::from(AllocError),
        }
    }
}
