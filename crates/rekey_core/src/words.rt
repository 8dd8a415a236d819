//! The arguments of the program.
ghost use Rattle.std.specs.Prelude.{◌≤◌, All, MatchOption, length, map};
ghost use Rattle.std.specs.Bool.{Decides};
ghost use Rattle.std.specs.String.{string_bytes};
ghost use Rattle.rekey_core.specs.Asked.{command_asked};
ghost use Rattle.rekey_core.specs.Words.{IsCommand, IsNoCommand};
ghost use Rattle.transfer.specs.Limits.{password_limit};

use crate::command::Words;
use frame::{Lined, PASSWORD_LIMIT, behind_name, next_number};

/// The fewest passwords, and the most.
const LEAST: usize = 2;

const MOST: usize = 17;

/// Whether each argument may be a password: it has at most 1,024 octets.
fn are_passwords(words: &[String]) -> bool
    ensures { Decides result
        (All (λ password. length password ≤ password_limit) (map string_bytes words.now)) }
{
    for word in words {
        if word.len() > PASSWORD_LIMIT {
            return false;
        }
    }
    true
}

/// What the arguments ask for; `None` exactly where they are not of the form.
pub(crate) fn command_of(words: &[String]) -> Option<Lined<Words<'_>>>
    ensures { MatchOption result (IsNoCommand (map string_bytes words.now))
        (λ asked. IsCommand (map string_bytes words.now) (command_asked asked)) }
{
    let rest = behind_name(words, "rekey")?;
    let (limit, passwords) = next_number(rest, 0, u64::MAX)?;
    if passwords.len() < LEAST {
        return None;
    }
    if passwords.len() > MOST {
        return None;
    }
    if !are_passwords(passwords) {
        return None;
    }
    let job = Words { limit, passwords };
    Some(Lined { job })
}
