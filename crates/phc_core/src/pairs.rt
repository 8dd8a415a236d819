//! The pieces of a parameter text.
ghost use Rattle.std.specs.Prelude.{◌≡◌, ◌<◌, ◌≤◌, ◌∷◌, [], length, get_or, MatchOption};
ghost use Rattle.std.specs.Bool.{Decides};
ghost use Rattle.phc_core.specs.ParamsString.{IsPair, LacksName, ArePairs, pieces, name_in, value_in};

use crate::ident::{Ident, is_ident};
use crate::value::{Value, is_value};

/// The first piece of a parameter text, and what comes after its comma.
fn first_piece(text: &str) -> Option<(&str, &str)>
    ensures { MatchOption result (pieces text.now ≡ text.now ∷ [])
        (λ x. (pieces text.now ≡ x.0.now ∷ pieces x.1.now) × (length x.1.now < length text.now)) }
{
    text.split_once(',')
}

/// The name in a piece; a piece with no `=` is all name.
fn piece_name(piece: &str) -> &str
    ensures { result.now ≡ name_in piece.now }
{
    match piece.split_once('=') {
        Some((name, _)) => name,
        None => piece,
    }
}

/// Whether the piece is a parameter.
fn is_pair(piece: &str) -> bool
    ensures { Decides result (IsPair piece.now) }
{
    match piece.split_once('=') {
        Some((name, value)) => is_ident(name) && name != "v" && is_value(value),
        None => false,
    }
}

/// Whether no piece of the text has the name.
pub(crate) fn lacks_name(text: &str, name: &str) -> bool
    ensures { Decides result (LacksName name.now (pieces text.now)) }
{
    let mut rest = text;
    while let Some((piece, more)) = first_piece(rest) {
        if piece_name(piece) == name {
            return false;
        }
        rest = more;
    }
    piece_name(rest) != name
}

/// Whether the pieces of the text are parameters with distinct names.
pub(crate) fn are_pairs(text: &str) -> bool
    ensures { Decides result (ArePairs (pieces text.now)) }
{
    let mut rest = text;
    while let Some((piece, more)) = first_piece(rest) {
        if !is_pair(piece) {
            return false;
        }
        if !lacks_name(more, piece_name(piece)) {
            return false;
        }
        rest = more;
    }
    is_pair(rest)
}

/// The number of pieces of the text.
pub(crate) fn count_pieces(text: &str) -> usize
    requires { length text.now ≤ 127 }
    ensures { result ≡ length (pieces text.now) }
{
    let mut count = 1;
    let mut rest = text;
    while let Some((_, more)) = first_piece(rest) {
        rest = more;
        count += 1;
    }
    count
}

/// The piece at place `i`, counted from 0.
pub(crate) fn piece_at(text: &str, i: usize) -> Option<&str>
    ensures { MatchOption result (length (pieces text.now) ≤ i) (λ p. (i < length (pieces text.now))
        × (p.now ≡ get_or (pieces text.now) i [])) }
{
    let mut rest = text;
    for k in 0..i {
        let Some((_, more)) = first_piece(rest) else {
            return None;
        };
        rest = more;
    }
    match first_piece(rest) {
        Some((piece, _)) => Some(piece),
        None => Some(rest),
    }
}

/// The name and the value in a piece, where it is a parameter.
pub(crate) fn pair_of(piece: &str) -> Option<(Ident, Value)>
    ensures { MatchOption result (IsPair piece.now → ⊥) (λ p. (p.0 ≡ name_in piece.now)
        × (p.1 ≡ value_in piece.now)) }
{
    let Some((name, value)) = piece.split_once('=') else {
        return None;
    };
    let Ok(name) = Ident::new(name) else {
        return None;
    };
    let Ok(value) = Value::new(value) else {
        return None;
    };
    Some((name, value))
}
