//! Identifiers.
ghost use Rattle.std.specs.Prelude.{◌≡◌, All, IfOk, IfErr, nat_eq, refl};
ghost use Rattle.std.specs.Bool.{Decides};
ghost use Rattle.std.specs.Cmp.{partial_order_from_own_ties};
ghost use Rattle.std.specs.Cmp.Lexicographic.{pointwise, slice_cmp};
ghost use Rattle.std.specs.Ordering.{as_partial_cmp, nat_cmp};
ghost use Rattle.std.specs.Cmp.Rules.{comparing};
ghost use Rattle.std.proofs.Common.{rules};
ghost use Rattle.phc_core.specs.Ident.{IsNameOctet, IsIdent};

use crate::error::Error;
use octet_core::ShortOctets;
use std::cmp::Ordering;
use std::marker::Model;

/// An identifier, as of an algorithm, or the name of a parameter: 1 to 32 characters of `a-z0-9-`.
#[derive(Clone, Copy, Debug)]
pub struct Ident {
    octets: ShortOctets<32>,
}

impl Model for Ident {
    ghost use Rattle.std.specs.Prelude.{ℕ, List};
    ghost use Rattle.phc_core.specs.Ident.{IsIdent};

    ghost Value = { List ℕ };

    ghost view = { λ s. s.octets };

    ghost invariant = { λ s. IsIdent s.octets };

    ghost inverse = { λ d. record { octets = d } };
}

impl Ident {
    /// The identifier that is this text. `EncodingInvalid` exactly where the text is none.
    pub fn new(text: &str) -> Result<Ident, Error>
        ensures ok { IfOk result (λ i. (i ≡ text.now) × IsIdent text.now) }
        ensures err { IfErr result (λ e. (e ≡ Error.EncodingInvalid) × (IsIdent text.now → ⊥)) }
    {
        if !is_ident(text) {
            return Err(Error::EncodingInvalid);
        }
        Ok(Ident {
            octets: ShortOctets::new(text.as_bytes()),
        })
    }

    /// The text.
    pub fn as_str(&self) -> &str
        ensures value { result.now ≡ self.now }
        ensures grammar { IsIdent self.now }
    {
        match std::str::from_utf8(self.octets.as_slice()) {
            Ok(text) => text,
            Err(_) => "",
        }
    }
}

impl PartialEq for Ident {
    ghost eq = { pointwise nat_eq };

    ghost laws = { Prim.search (comparing, rules) };

    fn eq(&self, other: &Ident) -> bool {
        self.octets == other.octets
    }
}

impl Eq for Ident {
    ghost laws = { Prim.search (comparing, rules) };
}

impl PartialOrd for Ident {
    ghost partial_cmp = { as_partial_cmp (slice_cmp nat_cmp) };

    ghost laws = { partial_order_from_own_ties (Prim.search (comparing, rules))
        (Prim.search (comparing, rules)) };

    fn partial_cmp(&self, other: &Ident) -> Option<Ordering> {
        Some(self.cmp(other))
    }
}

/// By octets.
impl Ord for Ident {
    ghost cmp = { slice_cmp nat_cmp };

    ghost total = { Prim.search (comparing, rules) };

    ghost matches_partial_cmp = { λ x y. refl };

    ghost matches_eq = { Prim.search (comparing, rules) };

    fn cmp(&self, other: &Ident) -> Ordering {
        self.octets.as_slice().cmp(other.octets.as_slice())
    }
}

fn is_name_octet(b: u8) -> bool
    ensures { Decides result (IsNameOctet b) }
{
    matches!(b, b'a'..=b'z' | b'0'..=b'9' | b'-')
}

fn are_name_octets(octets: &[u8]) -> bool
    ensures { Decides result (All IsNameOctet octets.now) }
{
    for b in octets {
        if !is_name_octet(*b) {
            return false;
        }
    }
    true
}

/// Whether the text is an identifier.
pub(crate) fn is_ident(text: &str) -> bool
    ensures { Decides result (IsIdent text.now) }
{
    let octets = text.as_bytes();
    if octets.len() < 1 || octets.len() > 32 {
        return false;
    }
    are_name_octets(octets)
}
