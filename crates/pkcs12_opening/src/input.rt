//! The files and streams that are read, which may be one and the same.
ghost use Rattle.std.specs.Prelude.{◌≡◌, IfErr};

use crate::ending::{Ending, Failure};
use command_base::{Origin, STANDARD_INPUT};
use std::fs;
use std::os::unix::fs::MetadataExt;
use std::rt::{Env, Files};

/// The path at which the store is looked at.
pub fn path_of_store(store: &str) -> &str {
    if store == "-" { STANDARD_INPUT } else { store }
}

/// Whether what is at the path can be read once alone, as the standard input and a pipe.
pub fn is_read_once<R: Files>(rt: &R, path: &str) -> bool {
    if path == "-" {
        return true;
    }
    match fs::metadata(rt, path) {
        Ok(there) => !there.is_file() && !there.is_dir(),
        // What cannot be looked at is told where it is read.
        Err(_) => false,
    }
}

/// Whether both paths lead to one file, pipe or device. Links are followed.
pub fn are_one<R: Files>(rt: &R, path: &str, other: &str) -> bool {
    if path == other {
        return true;
    }
    match (fs::metadata(rt, path), fs::metadata(rt, other)) {
        (Ok(one), Ok(two)) => one.dev() == two.dev() && one.ino() == two.ino(),
        _ => false,
    }
}

/// Whether both passwords have one origin.
fn have_one_origin<R: Files>(rt: &R, one: Origin<'_>, two: Origin<'_>) -> bool {
    match (one, two) {
        (Origin::Variable(name), Origin::Variable(other)) => name == other,
        (Origin::Variable(_), _) | (_, Origin::Variable(_)) => false,
        (one, two) => are_one(rt, one.path(), two.path()),
    }
}

/// Whether the password comes from the store's file or stream.
fn is_in_store<R: Files>(rt: &R, store: &str, origin: Option<Origin<'_>>) -> bool {
    match origin {
        Some(Origin::Variable(_)) | None => false,
        Some(origin) => are_one(rt, path_of_store(store), origin.path()),
    }
}

/// `Usage` where the store and a password, or both passwords, come from one file, stream or
/// variable.
pub fn inputs_differ<R: Files>(
    rt: &R,
    store: &str,
    password: Option<Origin<'_>>,
    new_password: Option<Origin<'_>>,
) -> Result<(), Failure>
    ensures { IfErr result (λ f. f.ending ≡ Ending.Usage) }
{
    if is_in_store(rt, store, password) || is_in_store(rt, store, new_password) {
        return Err(Failure::new(
            Ending::Usage,
            "the standard input, a file or a pipe can give only one of the store and the passwords",
        ));
    }
    match (password, new_password) {
        (Some(one), Some(two)) if have_one_origin(rt, one, two) => Err(Failure::new(
            Ending::Usage,
            "both passwords come from one input, which gives only one of them",
        )
        .advised(
            "Give the new password by another file or variable. To keep the store's, export has \
             --same-password.",
        )),
        _ => Ok(()),
    }
}

/// `Usage` where the output would replace the file of a password.
pub fn output_differs<R: Files>(
    rt: &R,
    out: &str,
    password: Option<Origin<'_>>,
    new_password: Option<Origin<'_>>,
) -> Result<(), Failure>
    ensures { IfErr result (λ f. f.ending ≡ Ending.Usage) }
{
    if is_in_store(rt, out, password) || is_in_store(rt, out, new_password) {
        return Err(Failure::new(
            Ending::Usage,
            "the new store would replace the file of a password",
        ));
    }
    Ok(())
}
