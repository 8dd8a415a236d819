//! The arguments of the command line.
ghost use Rattle.std.specs.Prelude.{IfSome, IfNone, MatchOption, map};
ghost use Rattle.std.specs.String.{string_bytes};
ghost use Rattle.transfer.specs.Asked.{command_asked};
ghost use Rattle.transfer.specs.Sample.{IsNoSample, IsSample};
ghost use Rattle.transfer.specs.Words.{IsCommand, IsNoCommand};

use crate::program::command::{ROUNDS_LIMIT, Words};
use frame::{Lined, behind_name, next_number, next_password};

/// The most keys of a sample.
pub(crate) const KEYS_LIMIT: u64 = 10_000;

/// The command that the arguments spell.
pub(crate) fn command_of(words: &[String]) -> Option<Lined<Words<'_>>>
    ensures { MatchOption result (IsNoCommand (map string_bytes words.now))
        (λ asked. IsCommand (map string_bytes words.now) (command_asked asked)) }
{
    let rest = behind_name(words, "transfer")?;
    let (password, rest) = next_password(rest)?;
    let (new_password, rest) = next_password(rest)?;
    let (rounds, rest) = next_number(rest, 1, ROUNDS_LIMIT)?;
    let (limit, rest) = next_number(rest, 0, u64::MAX)?;
    if !rest.is_empty() {
        return None;
    }
    let job = Words {
        password,
        new_password,
        rounds: rounds as u32,
        limit,
    };
    Some(Lined { job })
}

/// The number of keys that the arguments ask for a sample of.
pub(crate) fn sample_keys(words: &[String]) -> Option<u32>
    ensures found { IfSome result (IsSample (map string_bytes words.now)) }
    ensures none { IfNone result (IsNoSample (map string_bytes words.now)) }
{
    let rest = behind_name(words, "sample")?;
    let (keys, rest) = next_number(rest, 1, KEYS_LIMIT)?;
    if !rest.is_empty() {
        return None;
    }
    Some(keys as u32)
}
