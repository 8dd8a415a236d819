//! The arguments of the program.
ghost use Rattle.std.specs.Prelude.{MatchOption, map};
ghost use Rattle.std.specs.Bool.{Decides};
ghost use Rattle.std.specs.String.{string_bytes};
ghost use Rattle.passdb_core.specs.Drawn.{IsDrawn};
ghost use Rattle.passdb_core.specs.Program.{IsAsked, IsNotAsked};
ghost use Rattle.passdb_core.specs.Words.{asked_in};

use crate::entry::ROUNDS_LIMIT;
use crate::program::command::Words;
use frame::{are_digits, behind_name, next_number, next_word};

/// Whether the argument is an even number, at least two, of hexadecimal digits.
fn is_drawn(word: &str) -> bool
    ensures { Decides result (IsDrawn word.now) }
{
    let digits = word.as_bytes();
    if digits.is_empty() || digits.len() % 2 != 0 {
        return false;
    }
    are_digits(digits)
}

/// What the arguments ask for; `None` exactly where they are not of the form.
pub(crate) fn command_of(words: &[String]) -> Option<Words<'_>>
    ensures { MatchOption result (IsNotAsked (map string_bytes words.now))
        (λ w. IsAsked (map string_bytes words.now) (asked_in w)) }
{
    let rest = behind_name(words, "passdb")?;
    let (rounds, rest) = next_number(rest, 1000, ROUNDS_LIMIT as u64)?;
    let rounds = rounds as u32;
    let (word, rest) = next_word(rest)?;
    if !rest.is_empty() {
        return None;
    }
    if word == "-" {
        return Some(Words {
            rounds,
            digits: None,
        });
    }
    if !is_drawn(word) {
        return None;
    }
    Some(Words {
        rounds,
        digits: Some(word),
    })
}
