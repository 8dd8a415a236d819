//! What to do where something could not be read.
use std::alloc::{AllocError, Global};
use std::io;
use std::io::ErrorKind;
use terminal_text::{ShellWord, fits_in_command};

/// What to do where `path` could not be read.
pub fn read_advice(alloc: Global, path: &str, error: &io::Error) -> Result<String, AllocError> {
    let word = ShellWord(path);
    if !fits_in_command(path) {
        return String::from_str(alloc, "Look whether the file is there and can be read.");
    }
    match error.kind() {
        ErrorKind::PermissionDenied | ErrorKind::ReadOnlyFilesystem => {
            format!(in alloc; "It has to be readable for you:\n    ls -l {word}")
        }
        _ => format!(in alloc; "Look whether the file is there and can be read:\n    ls -l {word}"),
    }
}
