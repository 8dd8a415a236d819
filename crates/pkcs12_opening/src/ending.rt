//! Why the command ends without having done what was asked.
ghost use Rattle.std.specs.Prelude.{◌≡◌, ◌⊎◌, IsErr, IsOk};
ghost use Rattle.pkcs12_opening.specs.declared.ending.Ending.TheVariants.{Memory};
ghost use Rattle.pkcs12_opening.specs.Ending.{code_of, ending_of};

use crate::read_advice::read_advice;
use command_base::Message;
use pkcs12_output::{OutputError, OutputErrorKind};
use std::alloc::{AllocError, AllocFailed, Global};
use std::io;
use terminal_text::Printable;
use transfer::{Status, TransferError};

/// The kinds of failure. The text of `--help` has them in a table, with their numbers.
#[derive(Clone, Copy)]
pub enum Ending {
    /// The arguments are not those of a subcommand, or one of them is outside its bounds.
    Usage,
    /// The store or a password could not be read.
    ReadFault,
    /// The output could not be written.
    WriteFault,
    /// There was not enough memory.
    Memory,
    /// The store's password was not given.
    PasswordMissing,
    /// The store has private keys, and no new password was given.
    NewPasswordMissing,
    /// A password is not UTF-8, has more than 1,024 octets, or is an empty new one.
    PasswordUnusable,
    /// The output is there, and cannot be replaced.
    OutputExists,
    /// The self-test gave a wrong result.
    SelfTestFailed,
    /// The store has bags that are not exported.
    NotExported,
    /// The private keys take more rounds than `--seal-limit` allows.
    SealLimit,
    /// The store has more certificates and private keys than `--most-files` allows.
    TooManyFiles,
    /// A certificate ends within the days that are asked for.
    Expiring,
    /// The store is refused.
    Refused(TransferError),
}

impl Ending {
    /// The number that the program ends with.
    #[tactic(auto, unfolding(crate::specs::Ending::code_of))]
    pub fn code(self) -> u8
        ensures { result ≡ code_of self }
    {
        match self {
            Ending::Usage => Status::Usage.code(),
            Ending::ReadFault => Status::ReadFault.code(),
            Ending::WriteFault => Status::WriteFault.code(),
            Ending::Memory => Status::Memory.code(),
            Ending::PasswordMissing => 8,
            Ending::NewPasswordMissing => 9,
            Ending::PasswordUnusable => 22,
            Ending::OutputExists => 23,
            Ending::SelfTestFailed => 24,
            Ending::NotExported => 25,
            Ending::SealLimit => 26,
            Ending::TooManyFiles => 27,
            Ending::Expiring => 29,
            Ending::Refused(refusal) => Status::from(refusal).code(),
        }
    }

    /// The name that the table has beside the number.
    pub fn name(self) -> &'static str {
        match self {
            Ending::Usage => "Usage",
            Ending::ReadFault => "ReadFault",
            Ending::WriteFault => "WriteFault",
            Ending::Memory => "Memory",
            Ending::PasswordMissing => "PasswordMissing",
            Ending::NewPasswordMissing => "NewPasswordMissing",
            Ending::PasswordUnusable => "PasswordUnusable",
            Ending::OutputExists => "OutputExists",
            Ending::SelfTestFailed => "SelfTestFailed",
            Ending::NotExported => "NotExported",
            Ending::SealLimit => "SealLimit",
            Ending::TooManyFiles => "TooManyFiles",
            Ending::Expiring => "Expiring",
            Ending::Refused(refusal) => Status::from(refusal).name(),
        }
    }
}

/// A failure: its kind, what exactly was wrong, and what to do, where that is more than its kind
/// says.
#[derive(Drop)]
pub struct Failure {
    pub ending: Ending,
    pub message: Message,
    pub advice: Option<Message>,
}

impl Failure {
    /// The failure of this kind, with this text.
    pub fn new(ending: Ending, text: &'static str) -> Failure
        ensures { result.ending ≡ ending }
    {
        Failure {
            ending,
            message: Message::Fixed(text),
            advice: None,
        }
    }

    /// The failure of this kind, with a text that was made for it.
    pub fn with(ending: Ending, text: String) -> Failure
        ensures { result.ending ≡ ending }
    {
        Failure {
            ending,
            message: Message::Made(text),
            advice: None,
        }
    }

    /// The failure with this advice in place of that of its kind.
    pub fn advised(self, advice: &'static str) -> Failure
        ensures { result.ending ≡ self.ending }
    {
        Failure {
            ending: self.ending,
            message: self.message,
            advice: Some(Message::Fixed(advice)),
        }
    }

    /// The failure with this advice, where there was memory for it.
    pub fn advised_by(self, advice: Result<String, AllocError>) -> Failure
        ensures { result.ending ≡ self.ending }
    {
        match advice {
            Ok(text) => Failure {
                ending: self.ending,
                message: self.message,
                advice: Some(Message::Made(text)),
            },
            Err(_) => self,
        }
    }

    /// The same where there was memory for the text, and `Memory` where there was not.
    pub fn told(ending: Ending, text: Result<String, AllocError>) -> Failure
        ensures made { IsOk text → result.ending ≡ ending }
        ensures refused { IsErr text → result.ending ≡ Memory }
        ensures kind { (result.ending ≡ ending) ⊎ (result.ending ≡ Memory) }
    {
        match text {
            Ok(text) => Failure::with(ending, text),
            Err(refused) => Failure::from(refused),
        }
    }

    /// The failure of a call on the system, for this purpose and at this path: of this kind, or
    /// `Memory`. A `ReadFault` has advice by its cause.
    pub fn io(alloc: Global, ending: Ending, purpose: &str, path: &str, error: io::Error) -> Failure
        ensures { (result.ending ≡ ending) ⊎ (result.ending ≡ Memory) }
    {
        if error.kind() == io::ErrorKind::OutOfMemory {
            return Failure::from(AllocError);
        }
        let shown = Printable(path);
        let failure = Failure::told(ending, format!(in alloc; "{purpose} {shown}: {error}"));
        match ending {
            Ending::ReadFault => failure.advised_by(read_advice(alloc, path, &error)),
            _ => failure,
        }
    }
}

impl From<AllocError> for Failure {
    ghost from_gives = { λ _ f. f.ending ≡ Memory };

    fn from(_refused: AllocError) -> Failure {
        Failure::new(Ending::Memory, "there was not enough memory")
    }
}

impl<T: Drop> From<AllocFailed<T>> for Failure {
    ghost from_gives = { λ _ f. f.ending ≡ Memory };

    fn from(_refused: AllocFailed<T>) -> Failure {
        Failure::from(AllocError)
    }
}

impl From<OutputErrorKind> for Ending {
    ghost from_gives = { λ k e. e ≡ ending_of k };

    fn from(kind: OutputErrorKind) -> Ending {
        match kind {
            OutputErrorKind::Usage => Ending::Usage,
            OutputErrorKind::WriteFault => Ending::WriteFault,
            OutputErrorKind::OutputExists => Ending::OutputExists,
            OutputErrorKind::Memory => Ending::Memory,
        }
    }
}

impl From<OutputError> for Failure {
    ghost from_gives = { λ e f. f.ending ≡ ending_of e.kind };

    fn from(error: OutputError) -> Failure {
        Failure {
            ending: Ending::from(error.kind),
            message: error.message,
            advice: error.advice,
        }
    }
}
