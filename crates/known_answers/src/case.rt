//! Cases, and whether they hold.
ghost use Rattle.std.specs.Prelude.{◌≡◌, true, Some, IfOk, IfSome};
ghost use Rattle.known_answers.specs.Lines.{word_of, Spells, Expects, Reads, Meets, IsExpected};

use crate::answer::answer;
use crate::call::Call;
use crate::refused::Refused;
use hex::FromHexError;
use octet_core::Octets;
use std::alloc::{AllocError, Global};

/// What is expected of a call.
#[derive(Drop)]
pub enum Expected<'a> {
    /// These octets.
    Answered(Octets),
    /// A refusal, by its word.
    Refused(&'a str),
}

/// A case: a call, its words, and what is expected of it.
#[derive(Drop)]
pub struct Case<'a> {
    pub call: Call,
    pub words: Vec<Octets>,
    pub expected: Expected<'a>,
}

/// The octets that a word spells.
fn octets_of(alloc: Global, word: &str) -> Result<Option<Octets>, AllocError>
    ensures { IfOk result (λ found. IfSome found (λ o. word_of word.now ≡ Some o)) }
{
    if word == "-" {
        return Ok(Some(Octets::new(alloc)));
    }
    match hex::decode(alloc, word) {
        Ok(octets) => Ok(Some(Octets::from_vec(octets))),
        Err(FromHexError::OutOfMemory) => Err(AllocError),
        Err(_) => Ok(None),
    }
}

/// The octets of words that each end in a space.
fn words_of(alloc: Global, text: &str) -> Result<Option<Vec<Octets>>, AllocError>
    ensures { IfOk result (λ found. IfSome found (λ words. Spells text.now words.items)) }
{
    let mut words = Vec::new(alloc);
    let mut rest = text;
    while let Some((word, more)) = rest.split_once(' ') {
        let Some(octets) = octets_of(alloc, word)? else {
            return Ok(None);
        };
        words.push(octets)?;
        rest = more;
    }
    if rest.is_empty() {
        Ok(Some(words))
    } else {
        Ok(None)
    }
}

/// What a word says to expect.
fn expected_of(alloc: Global, word: &str) -> Result<Option<Expected<'_>>, AllocError>
    ensures { IfOk result (λ found. IfSome found (λ e. Expects word.now e)) }
{
    if word.starts_with('!') {
        return Ok(Some(Expected::Refused(word)));
    }
    match octets_of(alloc, word)? {
        Some(octets) => Ok(Some(Expected::Answered(octets))),
        None => Ok(None),
    }
}

/// The case in a line `NAME ARGUMENT... = RESULT`. None where it is written otherwise, or names no call.
pub fn read_case(alloc: Global, line: &str) -> Result<Option<Case<'_>>, AllocError>
    ensures { IfOk result (λ found. IfSome found (λ case.
        Reads line.now case.call case.words.items case.expected)) }
{
    let Some((left, right)) = line.split_once("= ") else {
        return Ok(None);
    };
    let Some((name, digits)) = left.split_once(' ') else {
        return Ok(None);
    };
    let Some(call) = Call::new(name) else {
        return Ok(None);
    };
    let Some(words) = words_of(alloc, digits)? else {
        return Ok(None);
    };
    match expected_of(alloc, right)? {
        Some(expected) => Ok(Some(Case {
            call,
            words,
            expected,
        })),
        None => Ok(None),
    }
}

/// Whether what a call returned is what is expected: these octets, or a refusal with this word.
fn is_expected(
    alloc: Global,
    returned: &Result<Octets, Refused>,
    expected: &Expected<'_>,
) -> Result<bool, AllocError>
    ensures { IfOk result (λ held. held ≡ true → IsExpected returned.now expected.now) }
{
    match (returned, expected) {
        (Ok(octets), Expected::Answered(expected)) => Ok(octets == expected),
        (Err(refused), Expected::Refused(word)) => Ok(refused.word(alloc)?.as_str() == *word),
        _ => Ok(false),
    }
}

/// Whether the call of the case returns what is expected of it.
pub fn holds(alloc: Global, case: &Case<'_>) -> Result<bool, AllocError>
    ensures { IfOk result
        (λ held. held ≡ true → Meets case.now.call case.now.words.items case.now.expected) }
{
    let returned = answer(alloc, case.call, case.words.as_slice());
    is_expected(alloc, &returned, &case.expected)
}
