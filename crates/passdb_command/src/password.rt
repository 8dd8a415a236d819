//! Passwords of names.
ghost use Rattle.std.specs.Prelude.{◌≡◌, ◌≤◌, IfOk, IfErr, length};

use crate::ending::{Ending, Failure};
use command_base::{Origin, Password, PasswordError};
use std::alloc::{AllocError, Global};
use std::rt::{Env, Files};

/// The failure of a password for this purpose, which was to come from this origin.
fn not_had(
    alloc: Global,
    purpose: &'static str,
    origin: Origin<'_>,
    error: PasswordError,
) -> Failure {
    let ending = match error {
        PasswordError::TooLong | PasswordError::NotUtf8 => Ending::PasswordUnusable,
        PasswordError::NoVariable | PasswordError::Unread(_) => Ending::ReadFault,
        PasswordError::Memory => return Failure::from(AllocError),
    };
    Failure::told(ending, error.text(alloc, purpose, origin))
}

/// The password of an origin; `purpose` says which password it is.
pub fn read_password<R: Files + Env + Input + AllocGlobal>(
    rt: &R,
    purpose: &'static str,
    origin: Origin<'_>,
) -> Result<Password, Failure> {
    match origin.read(rt) {
        Ok(password) => Ok(password),
        Err(error) => Err(not_had(rt.alloc(), purpose, origin, error)),
    }
}

/// A password that a name is given. `PasswordUnusable` exactly where it is empty.
pub fn as_new_password(password: Password) -> Result<Password, Failure>
    ensures ok { IfOk result (λ p. (p ≡ password) × (1 ≤ length p)) }
    ensures err { IfErr result (λ e. (e.ending ≡ Ending.PasswordUnusable)
        × (length password ≡ 0)) }
{
    if password.as_str().is_empty() {
        return Err(Failure::new(Ending::PasswordUnusable, "the new password is empty"));
    }
    Ok(password)
}
