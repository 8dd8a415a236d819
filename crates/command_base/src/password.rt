//! Passwords.
ghost use Rattle.std.specs.Prelude.{◌≡◌, ◌≤◌, ◌↔◌, IfOk, IfErr, IsOk, [], length};
ghost use Rattle.std.specs.String.{string_bytes};

use crate::password_error::PasswordError;
use std::alloc::{AllocError, Global};
use std::marker::Model;

/// The most octets of a password.
pub const LONGEST: usize = 1024;

/// A password of at most 1,024 octets in UTF-8. It has no `Debug`, so that it is never printed.
#[derive(Drop)]
pub struct Password {
    text: String,
}

impl Model for Password {
    ghost use Rattle.std.specs.Prelude.{ℕ, List, ◌≤◌, length};
    ghost use Rattle.std.specs.String.{string_bytes};

    ghost Value = { List ℕ };

    ghost view = { λ p. string_bytes p.text };

    ghost invariant = { λ p. length (string_bytes p.text) ≤ 1024 };
}

impl Password {
    /// The password of this text. `TooLong` exactly where it has more than 1,024 octets.
    pub fn new(text: String) -> Result<Password, PasswordError>
        ensures ok { IfOk result (λ p. p ≡ string_bytes text) }
        ensures exact { IsOk result ↔ length (string_bytes text) ≤ 1024 }
        ensures err { IfErr result (λ e. e ≡ PasswordError.TooLong) }
    {
        if text.len() > LONGEST {
            return Err(PasswordError::TooLong);
        }
        Ok(Password { text })
    }

    /// The password of no octets.
    pub fn empty(alloc: Global) -> Password
        ensures { result ≡ [] }
    {
        Password {
            text: String::new(alloc),
        }
    }

    /// The same password once more. The only error is out of memory.
    pub fn try_clone(&self, alloc: Global) -> Result<Password, AllocError>
        ensures { IfOk result (λ p. p ≡ self.now) }
    {
        Ok(Password {
            text: String::from_str(alloc, self.text.as_str())?,
        })
    }

    /// The text of the password.
    pub fn as_str(&self) -> &str
        ensures value { result.now ≡ self.now }
        ensures short { length result.now ≤ 1024 }
    {
        self.text.as_str()
    }
}
