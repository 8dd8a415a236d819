//! Commands.
use phc_core::Ident;

/// A command of a password file.
#[derive(Clone, Copy)]
pub enum Command<'a> {
    /// Adds a name.
    Add {
        name: Ident,
        password: &'a [u8],
    },
    /// Tests a password.
    Check {
        name: Ident,
        password: &'a [u8],
    },
    /// Gives the name a new password, where the old one is right.
    Change {
        name: Ident,
        old: &'a [u8],
        new: &'a [u8],
    },
    /// Removes a name.
    Remove {
        name: Ident,
    },
}
