//! Values of parameters.
ghost use Rattle.std.specs.Prelude.{◌≡◌, ℕ, ◌<◌, ◌^◌, All, IfOk, IfErr, nat_eq, decimal};
ghost use Rattle.std.specs.Bool.{Decides};
ghost use Rattle.std.specs.Cmp.Lexicographic.{pointwise};
ghost use Rattle.std.specs.Cmp.Rules.{comparing};
ghost use Rattle.std.proofs.Common.{rules};
ghost use Rattle.phc_core.specs.Value.{IsValueOctet, IsValue};

use crate::decimal::Decimal;
use crate::error::Error;
use octet_core::{ShortOctets, decimal_of};
use std::marker::Model;

/// The value of a parameter: 1 to 64 characters of `a-zA-Z0-9/+.-`.
#[derive(Clone, Copy, Debug)]
pub struct Value {
    octets: ShortOctets<64>,
}

impl Model for Value {
    ghost use Rattle.std.specs.Prelude.{ℕ, List};
    ghost use Rattle.phc_core.specs.Value.{IsValue};

    ghost Value = { List ℕ };

    ghost view = { λ s. s.octets };

    ghost invariant = { λ s. IsValue s.octets };

    ghost inverse = { λ d. record { octets = d } };
}

impl Value {
    /// The value that is this text. `EncodingInvalid` exactly where the text is none.
    pub fn new(text: &str) -> Result<Value, Error>
        ensures ok { IfOk result (λ v. (v ≡ text.now) × IsValue text.now) }
        ensures err { IfErr result (λ e. (e ≡ Error.EncodingInvalid) × (IsValue text.now → ⊥)) }
    {
        if !is_value(text) {
            return Err(Error::EncodingInvalid);
        }
        Ok(Value {
            octets: ShortOctets::new(text.as_bytes()),
        })
    }

    /// The text.
    pub fn as_str(&self) -> &str
        ensures value { result.now ≡ self.now }
        ensures grammar { IsValue self.now }
    {
        match std::str::from_utf8(self.octets.as_slice()) {
            Ok(text) => text,
            Err(_) => "",
        }
    }

    /// The number below 2^32 that the value writes in decimal digits. `EncodingInvalid` exactly where it writes none,
    /// as with a sign, a leading zero or a letter.
    pub fn decimal(&self) -> Result<Decimal, Error>
        ensures ok { IfOk result (λ n. (n < 2 ^ 32) × (self.now ≡ decimal n)) }
        ensures err { IfErr result (λ e. (e ≡ Error.EncodingInvalid)
            × ((n : ℕ) → n < 2 ^ 32 → self.now ≡ decimal n → ⊥)) }
    {
        match decimal_of(self.as_str()) {
            Some(n) => Ok(n),
            None => Err(Error::EncodingInvalid),
        }
    }
}

impl PartialEq for Value {
    ghost eq = { pointwise nat_eq };

    ghost laws = { Prim.search (comparing, rules) };

    fn eq(&self, other: &Value) -> bool {
        self.octets == other.octets
    }
}

impl Eq for Value {
    ghost laws = { Prim.search (comparing, rules) };
}

fn is_value_octet(b: u8) -> bool
    ensures { Decides result (IsValueOctet b) }
{
    matches!(b, b'a'..=b'z' | b'A'..=b'Z' | b'-'..=b'9' | b'+')
}

fn are_value_octets(octets: &[u8]) -> bool
    ensures { Decides result (All IsValueOctet octets.now) }
{
    for b in octets {
        if !is_value_octet(*b) {
            return false;
        }
    }
    true
}

/// Whether the text is a value of a parameter.
pub(crate) fn is_value(text: &str) -> bool
    ensures { Decides result (IsValue text.now) }
{
    let octets = text.as_bytes();
    if octets.len() < 1 || octets.len() > 64 {
        return false;
    }
    are_value_octets(octets)
}
