//! The text of the input.
ghost use Rattle.std.specs.Prelude.{◌≡◌, ◌≤◌, List, ℕ, length, take, IfOk, IfErr, MatchOption};
ghost use Rattle.frame.specs.InputText.{Ends, IsHex, IsInput, IsNoInput};
ghost use Rattle.frame.specs.TextCause.{MalformedOnly};
ghost use Rattle.frame.specs.TwoLines.{IsSplit, IsUnsplit};
ghost use Rattle.frame.specs.declared.input_text.TextError.TheVariants.{Memory};

use crate::digits::{are_digits, decode_front, decode_into};
use memchr::memchr;
use octet_core::Octets;
use std::alloc::{AllocError, Global};

/// Why the input spells no store.
#[derive(Clone, Copy, Debug, PartialEq, Eq)]
pub enum TextError {
    /// It is not one line of an even number of hexadecimal digits, nor two of them.
    Malformed,
    /// There was no memory.
    Memory,
}

impl From<AllocError> for TextError {
    ghost from_gives = { λ _ e. e ≡ Memory };

    fn from(_refused: AllocError) -> TextError {
        TextError::Memory
    }
}

/// What the input spells.
#[derive(Drop)]
pub struct Spelled {
    /// The octets of the store.
    pub store: Octets,
    /// The octets to be drawn, where there is a second line.
    pub line: Option<Octets>,
}

/// The octets that hexadecimal digits of either case spell.
fn octets_of(alloc: Global, digits: &[u8]) -> Result<Octets, TextError>
    ensures found { IfOk result (λ octets. IsHex digits.now octets) }
    ensures cause { IfErr result
        (λ e. MalformedOnly e ((octets : List ℕ) → IsHex digits.now octets → ⊥)) }
{
    if digits.len() % 2 != 0 || !are_digits(digits) {
        return Err(TextError::Malformed);
    }
    let mut octets = vec![in alloc; 0u8; digits.len() / 2]?;
    decode_into(digits, octets.as_mut_slice());
    Ok(Octets::from_vec(octets))
}

/// The line without its line feed, where it has one.
fn digits_of(line: &[u8]) -> &[u8]
    ensures { Ends line.now result.now }
{
    line.strip_suffix(b"\n").unwrap_or(line)
}

/// The parts before and after the first line feed, where something comes after it.
fn split_line(text: &[u8]) -> Option<(&[u8], &[u8])>
    ensures { MatchOption result (IsUnsplit text.now)
        (λ parts. IsSplit text.now parts.0.now parts.1.now) }
{
    let Some(at) = memchr(b'\n', text) else {
        return None;
    };
    if at + 1 == text.len() {
        return None;
    }
    Some((&text[..at], &text[at + 1..]))
}

/// The octets that the first digits of a text spell, in the memory of the text.
fn octets_in_front(mut text: Vec<u8>, count: usize) -> Result<Octets, TextError>
    requires { count ≤ length text.items }
    ensures found { IfOk result (λ octets. IsHex (take count text.items) octets) }
    ensures cause { IfErr result (λ e. MalformedOnly e
        ((octets : List ℕ) → IsHex (take count text.items) octets → ⊥)) }
{
    if count % 2 != 0 || !decode_front(text.as_mut_slice(), count) {
        return Err(TextError::Malformed);
    }
    text.truncate(count / 2);
    Ok(Octets::from_vec(text))
}

/// The octets of the store that the text spells, in the memory of the text, and those of its second line, if it has one.
/// `Malformed` exactly where the text is not one line of an even number of hexadecimal digits, nor two; and `Memory`.
pub fn read_text(alloc: Global, text: Vec<u8>) -> Result<Spelled, TextError>
    ensures found { IfOk result (λ spelled. IsInput text.items spelled.store spelled.line) }
    ensures cause { IfErr result (λ e. MalformedOnly e (IsNoInput text.items)) }
{
    let held = text.as_slice();
    match split_line(held) {
        None => {
            let count = digits_of(held).len();
            let store = octets_in_front(text, count)?;
            Ok(Spelled { store, line: None })
        }
        Some((first, second)) => {
            let count = first.len();
            let line = octets_of(alloc, digits_of(second))?;
            let store = octets_in_front(text, count)?;
            Ok(Spelled {
                store,
                line: Some(line),
            })
        }
    }
}
