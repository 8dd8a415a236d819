//! Why output is not written.
ghost use Rattle.std.specs.Prelude.{◌≡◌, IsErr, IsOk};
ghost use Rattle.pkcs12_output.specs.declared.output_error.OutputErrorKind.TheVariants.{Memory};

use crate::write_advice::write_advice;
use command_base::Message;
use std::alloc::{AllocError, AllocFailed, Global};
use std::io;
use terminal_text::Printable;

/// The kinds of these errors.
#[derive(Clone, Copy)]
pub enum OutputErrorKind {
    /// The path has no name at its end, or a file that is read would be removed.
    Usage,
    /// The output could not be written.
    WriteFault,
    /// Something is at the path that is not replaced.
    OutputExists,
    /// There was not enough memory.
    Memory,
}

/// An error: its kind, what exactly was wrong, and what to do, where that is more than its kind says.
#[derive(Drop)]
pub struct OutputError {
    pub kind: OutputErrorKind,
    pub message: Message,
    pub advice: Option<Message>,
}

impl OutputError {
    pub fn new(kind: OutputErrorKind, text: &'static str) -> OutputError
        ensures { result.kind ≡ kind }
    {
        OutputError {
            kind,
            message: Message::Fixed(text),
            advice: None,
        }
    }

    /// The error with a text that was made for it; `Memory` where there was none for the text.
    pub fn told(kind: OutputErrorKind, text: Result<String, AllocError>) -> OutputError
        ensures made { IsOk text → result.kind ≡ kind }
        ensures refused { IsErr text → result.kind ≡ Memory }
    {
        match text {
            Ok(text) => OutputError {
                kind,
                message: Message::Made(text),
                advice: None,
            },
            Err(refused) => OutputError::from(refused),
        }
    }

    /// The error with this advice.
    pub fn advised(self, advice: &'static str) -> OutputError
        ensures { result.kind ≡ self.kind }
    {
        OutputError {
            kind: self.kind,
            message: self.message,
            advice: Some(Message::Fixed(advice)),
        }
    }

    /// The error with this advice, where there was memory for it.
    pub fn advised_by(self, advice: Result<String, AllocError>) -> OutputError
        ensures { result.kind ≡ self.kind }
    {
        match advice {
            Ok(text) => OutputError {
                kind: self.kind,
                message: self.message,
                advice: Some(Message::Made(text)),
            },
            Err(_) => self,
        }
    }

    /// `WriteFault` for a call on the system that failed for this purpose at this path, with advice by its cause.
    pub fn write_fault(alloc: Global, purpose: &str, path: &str, error: io::Error) -> OutputError {
        if error.kind() == io::ErrorKind::OutOfMemory {
            return OutputError::from(AllocError);
        }
        let shown = Printable(path);
        let text = format!(in alloc; "{purpose} {shown}: {error}");
        OutputError::told(OutputErrorKind::WriteFault, text).advised_by(write_advice(
            alloc, path, &error,
        ))
    }
}

impl From<AllocError> for OutputError {
    ghost from_gives = { λ _ e. e.kind ≡ Memory };

    fn from(_refused: AllocError) -> OutputError {
        OutputError::new(OutputErrorKind::Memory, "there was not enough memory")
    }
}

impl<T: Drop> From<AllocFailed<T>> for OutputError {
    ghost from_gives = { λ _ e. e.kind ≡ Memory };

    fn from(_refused: AllocFailed<T>) -> OutputError {
        OutputError::from(AllocError)
    }
}
