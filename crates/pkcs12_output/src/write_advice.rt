//! What to do where something could not be written.
use command_base::parent;
use std::alloc::{AllocError, Global};
use std::io;
use std::io::ErrorKind;
use terminal_text::{ShellWord, fits_in_command};

/// The causes that call for different advice.
#[derive(Clone, Copy)]
enum Cause {
    DiskFull,
    Forbidden,
    ReadOnly,
    Missing,
    NameTooLong,
    NoReader,
    Unknown,
}

fn cause_of(error: &io::Error) -> Cause {
    match error.kind() {
        ErrorKind::StorageFull | ErrorKind::QuotaExceeded | ErrorKind::FileTooLarge => {
            Cause::DiskFull
        }
        ErrorKind::PermissionDenied => Cause::Forbidden,
        ErrorKind::ReadOnlyFilesystem => Cause::ReadOnly,
        ErrorKind::NotFound => Cause::Missing,
        ErrorKind::InvalidFilename => Cause::NameTooLong,
        ErrorKind::BrokenPipe => Cause::NoReader,
        _ => Cause::Unknown,
    }
}

/// What to do where `path` could not be written.
pub fn write_advice(alloc: Global, path: &str, error: &io::Error) -> Result<String, AllocError> {
    let cause = cause_of(error);
    let above = parent(path);
    let word = ShellWord(above);
    if matches!(cause, Cause::NoReader) {
        return String::from_str(
            alloc,
            "What reads the output ended before it had all of it.",
        );
    }
    if matches!(cause, Cause::NameTooLong) {
        return String::from_str(alloc, "Give a shorter name.");
    }
    if !fits_in_command(above) {
        return String::from_str(alloc, "Look at the folder above it.");
    }
    match cause {
        Cause::DiskFull => format!(in alloc;
            "The disk, or your share of it, is full, or can have no more files:\n    df -h {word}\n    df -i {word}"
        ),
        Cause::ReadOnly => format!(in alloc;
            "Nothing can be written to this file system:\n    findmnt -T {word}"
        ),
        Cause::Forbidden => format!(in alloc;
            "The folder above it has to be writable for you:\n    ls -ld {word}"
        ),
        Cause::Missing => format!(in alloc; "Make the folder above it first:\n    mkdir -p {word}"),
        _ => format!(in alloc; "Look at the folder above it:\n    ls -ld {word}"),
    }
}
