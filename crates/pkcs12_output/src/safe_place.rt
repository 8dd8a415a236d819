//! The place of the output, which nobody else may change.
use crate::output_error::{OutputError, OutputErrorKind};
use command_base::{Attributes, Caller, name, open_folder, parent};
use std::alloc::Global;
use std::fs::Metadata;
use std::os::unix::fs::MetadataExt;
use std::rt::Files;
use std::{fs, io};
use terminal_text::Printable;

/// The error where the real path of the folder above this one cannot be found.
fn not_found(alloc: Global, purpose: &str, path: &str, error: io::Error) -> OutputError {
    if error.kind() == io::ErrorKind::InvalidFilename && error.raw_os_error().is_none() {
        let shown = Printable(path);
        let text = format!(in alloc;
            "{purpose} {shown}: the path of the folder above it is not UTF-8"
        );
        return OutputError::told(OutputErrorKind::WriteFault, text);
    }
    OutputError::write_fault(alloc, purpose, path, error)
}

/// The path with the links of its folder resolved. `WriteFault` where a folder on the way to it is one in which others can put
/// something else in the place of what is there; `purpose` says what is to be written.
pub fn safe_place<R: Files + AllocGlobal>(
    rt: &R,
    purpose: &str,
    path: &str,
) -> Result<String, OutputError> {
    let alloc = rt.alloc();
    let above = match fs::canonicalize(rt, parent(path)) {
        Ok(above) => above,
        Err(error) => return Err(not_found(alloc, purpose, path, error)),
    };
    let above = above.as_path().as_str();
    match open_folder(rt, above) {
        Ok(None) => {}
        Ok(Some(open)) => {
            let error = OutputError::told(OutputErrorKind::WriteFault, open.text(alloc));
            return Err(error.advised_by(open.advice(alloc)));
        }
        Err(error) => return Err(OutputError::write_fault(alloc, purpose, path, error)),
    }
    let name = name(path);
    let slash = if above.ends_with('/') { "" } else { "/" };
    Ok(format!(in alloc; "{above}{slash}{name}")?)
}

/// Whether what is there belongs to another user, in a folder in which everybody may make something, as in /tmp. The path is a
/// real one.
pub fn is_anothers<R: Files>(rt: &R, real: &str, there: &Metadata) -> io::Result<bool> {
    let above = Attributes::of_folder(&fs::symlink_metadata(rt, parent(real))?);
    Ok(above.is_sticky() && there.uid() != Caller::find(rt)?.user)
}
