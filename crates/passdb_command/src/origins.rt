//! Whether two passwords come from one place.
use crate::ending::{Ending, Failure};
use crate::request::Action;
use command_base::{Identity, Origin};
use std::fs;
use std::rt::Files;

/// Which file or stream is at the path, links followed; none where nothing is there.
fn identity_of<R: Files>(rt: &R, path: &str) -> Option<Identity> {
    match fs::metadata(rt, path) {
        Ok(there) => Some(Identity::of(&there)),
        Err(_) => None,
    }
}

/// Whether both are the same file, stream or variable.
fn are_one<R: Files>(rt: &R, one: Origin<'_>, other: Origin<'_>) -> bool {
    match (one, other) {
        (Origin::Variable(one), Origin::Variable(other)) => one == other,
        (Origin::Variable(_), _) | (_, Origin::Variable(_)) => false,
        (one, other) => match identity_of(rt, one.path()) {
            Some(identity) => identity_of(rt, other.path()) == Some(identity),
            None => one.path() == other.path(),
        },
    }
}

/// `Usage` where the password and the new password come from one place: then nothing would change, or one would be lost.
pub fn origins_differ<R: Files>(rt: &R, action: Action<'_>) -> Result<(), Failure> {
    match action {
        Action::Change(Some(old), Some(new)) if are_one(rt, old, new) => Err(Failure::new(
            Ending::Usage,
            "the password and the new password come from one file, stream or variable",
        )),
        _ => Ok(()),
    }
}
