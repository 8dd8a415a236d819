//! Lists of parameters.
ghost use Rattle.std.specs.Prelude.{◌≡◌, ◌<◌, ◌≤◌, ◌++◌, [], ◌∷◌, length, get_or, nat_eq, IfOk, IfErr, OnOk, OnErr, MatchOption};
ghost use Rattle.std.specs.Bool.{Decides};
ghost use Rattle.std.specs.Cmp.Lexicographic.{pointwise};
ghost use Rattle.std.specs.Cmp.Rules.{comparing};
ghost use Rattle.std.proofs.Common.{rules};
ghost use Rattle.phc_core.specs.ParamsString.{LacksName, IsParams, pairs_of, name_in, value_in, decimal_pair, with_pair, TakesDecimal};

use crate::decimal::Decimal;
use crate::error::Error;
use crate::ident::{Ident, is_ident};
use crate::line::line_with_pair;
use crate::pairs::{are_pairs, count_pieces, lacks_name, pair_of, piece_at};
use crate::value::Value;
use itoa::Buffer;
use octet_core::ShortOctets;
use std::marker::Model;

/// A list of parameters, seen as its text `name=value,name=value` of at most 127 characters. Names are distinct, and none
/// is `v`.
#[derive(Clone, Copy, Debug)]
pub struct ParamsString {
    octets: ShortOctets<127>,
}

impl Model for ParamsString {
    ghost use Rattle.std.specs.Prelude.{ℕ, List};
    ghost use Rattle.phc_core.specs.ParamsString.{IsParams};

    ghost Value = { List ℕ };

    ghost view = { λ s. s.octets };

    ghost invariant = { λ s. IsParams s.octets };

    ghost inverse = { λ d. record { octets = d } };
}

impl ParamsString {
    /// The empty list.
    pub fn new() -> ParamsString
        ensures { result ≡ [] }
    {
        ParamsString {
            octets: ShortOctets::new(&[]),
        }
    }

    /// The number of parameters.
    pub fn len(&self) -> usize
        ensures { result ≡ length (pairs_of self.now) }
    {
        let text = self.as_text();
        if text.is_empty() {
            return 0;
        }
        count_pieces(text)
    }

    /// The parameter at place `i`, counted from 0. None exactly where `i` is not below `len`.
    pub fn get(&self, i: usize) -> Option<(Ident, Value)>
        ensures { MatchOption result (length (pairs_of self.now) ≤ i)
            (λ p. (i < length (pairs_of self.now))
            × (p.0 ≡ name_in (get_or (pairs_of self.now) i []))
            × (p.1 ≡ value_in (get_or (pairs_of self.now) i []))) }
    {
        let text = self.as_text();
        if text.is_empty() {
            return None;
        }
        let Some(piece) = piece_at(text, i) else {
            return None;
        };
        pair_of(piece)
    }

    /// Appends the parameter `name=n`. `ParamsInvalid` exactly where the name is no `Ident` or is `v`, is there already,
    /// or the text would pass 127 characters; then nothing changes.
    pub fn add_decimal(&mut self, name: &str, n: Decimal) -> Result<(), Error>
        ensures taken { OnOk result (TakesDecimal self.old name.now n) }
        ensures text { OnOk result (self.new ≡ with_pair self.old (decimal_pair name.now n)) }
        ensures pairs { OnOk result
            (pairs_of self.new ≡ pairs_of self.old ++ decimal_pair name.now n ∷ []) }
        ensures refused { IfErr result (λ e. (e ≡ Error.ParamsInvalid)
            × (TakesDecimal self.old name.now n → ⊥)) }
        ensures unchanged { OnErr result (self.new ≡ self.old) }
    {
        if !is_ident(name) || name == "v" || !self.lacks(name) {
            return Err(Error::ParamsInvalid);
        }
        let mut buffer = Buffer::new();
        let Ok(line) = line_with_pair(self.as_text(), name, buffer.format(n)) else {
            return Err(Error::ParamsInvalid);
        };
        self.octets = line.into_octets();
        Ok(())
    }

    /// The list that a text writes. `EncodingInvalid` exactly where the text is empty or writes none.
    pub(crate) fn read(text: &str) -> Result<ParamsString, Error>
        ensures ok { IfOk result (λ p. (p ≡ text.now) × IsParams text.now × (0 < length text.now)) }
        ensures err { IfErr result (λ e. (e ≡ Error.EncodingInvalid)
            × (IsParams text.now → 0 < length text.now → ⊥)) }
    {
        if text.len() > 127 {
            return Err(Error::EncodingInvalid);
        }
        if text.is_empty() {
            return Err(Error::EncodingInvalid);
        }
        if !are_pairs(text) {
            return Err(Error::EncodingInvalid);
        }
        Ok(ParamsString {
            octets: ShortOctets::new(text.as_bytes()),
        })
    }

    /// The text.
    pub(crate) fn as_text(&self) -> &str
        ensures value { result.now ≡ self.now }
        ensures grammar { IsParams self.now }
    {
        match std::str::from_utf8(self.octets.as_slice()) {
            Ok(text) => text,
            Err(_) => "",
        }
    }

    /// Whether no parameter has this name.
    fn lacks(&self, name: &str) -> bool
        ensures { Decides result (LacksName name.now (pairs_of self.now)) }
    {
        let text = self.as_text();
        text.is_empty() || lacks_name(text, name)
    }
}

impl PartialEq for ParamsString {
    ghost eq = { pointwise nat_eq };

    ghost laws = { Prim.search (comparing, rules) };

    fn eq(&self, other: &ParamsString) -> bool {
        self.octets == other.octets
    }
}

impl Eq for ParamsString {
    ghost laws = { Prim.search (comparing, rules) };
}
