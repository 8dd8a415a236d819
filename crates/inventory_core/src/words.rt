//! The arguments of the program.
ghost use Rattle.std.specs.Prelude.{◌≤◌, length, map, MatchOption};
ghost use Rattle.std.specs.String.{string_bytes};
ghost use Rattle.transfer.specs.Limits.{password_limit};
ghost use Rattle.inventory_core.specs.Asked.{command_in};
ghost use Rattle.inventory_core.specs.Words.{IsCommand, IsNoCommand};

use crate::command::Words;
use frame::{behind_name, next_number, next_password};

/// What the arguments ask for; `None` exactly where they are not of the form.
pub(crate) fn command_of(words: &[String]) -> Option<Words<'_>>
    ensures { MatchOption result (IsNoCommand (map string_bytes words.now))
        (λ asked. IsCommand (map string_bytes words.now) (command_in asked)) }
{
    let rest = behind_name(words, "inventory")?;
    let (password, rest) = next_password(rest)?;
    let (limit, rest) = next_number(rest, 0, u64::MAX)?;
    if !rest.is_empty() {
        return None;
    }
    Some(Words { password, limit })
}
