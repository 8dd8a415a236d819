//! Passwords of stores and of private keys.
ghost use Rattle.std.specs.Prelude.{◌≡◌, ◌≤◌, ◌<◌, IfOk, IfErr, IsOk, IsTrue, length};
ghost use Rattle.pkcs12_opening.specs.Ending.{IsPasswordFailure};

use crate::ending::{Ending, Failure};
use crate::read_advice::read_advice;
use command_base::{Origin, Password, PasswordError};
use std::alloc::{AllocError, Global};
use std::marker::Model;
use std::rt::{Env, Files};

const EXPORT_VARIABLE: &str = "\
The option takes the NAME of a variable that is exported, and not the password:
    export NAME";

const EMPTY: &str = "\
What is under an empty password is not protected. If you want that: --allow-empty-password";

/// The failure of a password for this purpose, which was to come from this origin.
fn not_had(
    alloc: Global,
    purpose: &'static str,
    origin: Origin<'_>,
    error: PasswordError,
) -> Failure
    ensures { IsPasswordFailure result.ending }
{
    let text = error.text(alloc, purpose, origin);
    match &error {
        PasswordError::TooLong | PasswordError::NotUtf8 => {
            Failure::told(Ending::PasswordUnusable, text)
        }
        PasswordError::NoVariable => {
            Failure::told(Ending::ReadFault, text).advised(EXPORT_VARIABLE)
        }
        PasswordError::Unread(error) => Failure::told(Ending::ReadFault, text).advised_by(
            read_advice(alloc, origin.path(), error),
        ),
        PasswordError::Memory => Failure::from(AllocError),
    }
}

/// The password of an origin; `purpose` says in a message which password it is. `ReadFault` where it cannot be read,
/// `PasswordUnusable` where it is not UTF-8 or has more than 1,024 octets.
pub fn read_password<R: Files + Env + Input + AllocGlobal>(
    rt: &R,
    purpose: &'static str,
    origin: Origin<'_>,
) -> Result<Password, Failure>
    ensures { IfErr result (λ f. IsPasswordFailure f.ending) }
{
    match origin.read(rt) {
        Ok(password) => Ok(password),
        Err(error) => Err(not_had(rt.alloc(), purpose, origin, error)),
    }
}

/// `PasswordUnusable` where a new password has a NUL, which few programs take.
pub fn without_nul(password: &Password) -> Result<(), Failure>
    ensures { IfErr result (λ f. f.ending ≡ Ending.PasswordUnusable) }
{
    if password.as_str().as_bytes().contains(&0) {
        return Err(Failure::new(
            Ending::PasswordUnusable,
            "the new password has a NUL, which other programs do not take",
        )
        .advised("Give a new password without one."));
    }
    Ok(())
}

/// The password that private keys are sealed under: not empty, unless that was asked for. Only
/// `NewPassword::new` makes one.
#[derive(Drop)]
pub struct NewPassword {
    password: Password,
    may_be_empty: bool,
}

impl Model for NewPassword {
    ghost use Rattle.std.specs.Prelude.{ℕ, List, ◌≡◌, length, IsTrue};

    ghost Value = { List ℕ };

    ghost view = { λ p. p.password };

    ghost invariant = { λ p. length p.password ≡ 0 → IsTrue p.may_be_empty };
}

impl NewPassword {
    /// The password as a new one. `PasswordUnusable` exactly where it is empty and may not be.
    pub fn new(password: Password, may_be_empty: bool) -> Result<NewPassword, Failure>
        ensures ok { IfOk result (λ p. p ≡ password) }
        ensures not_empty { IfOk result (λ p. length p ≡ 0 → IsTrue may_be_empty) }
        ensures allowed { IsTrue may_be_empty → IsOk result }
        ensures some { 0 < length password → IsOk result }
        ensures err { IfErr result (λ e. e.ending ≡ Ending.PasswordUnusable) }
    {
        if password.as_str().is_empty() && !may_be_empty {
            return Err(Failure::new(Ending::PasswordUnusable, "the new password is empty").advised(
                EMPTY,
            ));
        }
        Ok(NewPassword {
            password,
            may_be_empty,
        })
    }

    /// The password itself.
    pub fn as_password(&self) -> &Password
        ensures { result.now ≡ self.now }
    {
        &self.password
    }

    /// The text of the password.
    pub fn as_str(&self) -> &str
        ensures value { result.now ≡ self.now }
        ensures short { length result.now ≤ 1024 }
    {
        self.password.as_str()
    }
}
