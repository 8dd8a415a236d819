//! A few octets in place.
ghost use Rattle.std.specs.Prelude.{◌≡◌, ℕ, ◌+◌, ◌≤◌, ◌==◌, List, ◌++◌, length, nat_eq};
ghost use Rattle.std.specs.Cmp.Lexicographic.{pointwise};
ghost use Rattle.std.specs.Cmp.Rules.{comparing};
ghost use Rattle.std.proofs.Common.{rules};

use crate::padded::pad;
use std::convert::AsSlice;
use std::fmt;
use std::marker::Model;

/// At most `MAX` octets in place, with no memory of their own, which a contract sees as a list of numbers below 256.
#[derive(Clone, Copy)]
pub struct ShortOctets<const MAX: usize> {
    octets: [u8; MAX],
    size: usize,
}

impl<const MAX: usize> Model for ShortOctets<MAX> {
    ghost use Rattle.std.specs.Prelude.{ℕ, List, length, take, ◌≡◌, ◌≤◌};
    ghost use Rattle.octet_core.specs.Padded.{IsPadded, padded};
    ghost use Rattle.octet_core.specs.PaddedLaws.{padded_take, length-take_padded};

    ghost Value = { List ℕ };

    ghost view = { λ s. take s.size s.octets };

    ghost invariant = { λ s. IsPadded MAX s.size s.octets };

    ghost inverse = { λ d. record { octets = padded MAX d; size = length d } };

    ghost inverse_ok = { λ a h i. record {
      octets = padded_take MAX a.size a.octets h i;
      size = length-take_padded MAX a.size a.octets h i;
    } };
}

impl<const MAX: usize> ShortOctets<MAX> {
    /// A copy of these octets. Caller: they are at most `MAX`.
    #[tactic(auto, using(crate::specs::PaddedLaws::is_padded, crate::specs::PaddedLaws::take_padded))]
    pub fn new(octets: &[u8]) -> ShortOctets<MAX>
        requires { length octets.now ≤ MAX }
        ensures { result ≡ octets.now }
    {
        ShortOctets {
            octets: pad(octets),
            size: octets.len(),
        }
    }

    /// How many octets there are.
    pub fn len(&self) -> usize
        ensures value { result ≡ length self.now }
        ensures most { result ≤ MAX }
    {
        self.size
    }

    /// Whether there are none.
    pub fn is_empty(&self) -> bool
        ensures { result ≡ (length self.now == 0) }
    {
        self.size == 0
    }

    /// These octets after the others. Caller: together they are at most `MAX`.
    pub fn extend(&mut self, octets: &[u8])
        requires { length self.old + length octets.now ≤ MAX }
        ensures { self.new ≡ self.old ++ octets.now }
    {
        let start = self.size;
        let end = start + octets.len();
        let all = &mut self.octets[..];
        all[start..end].copy_from_slice(octets);
        self.size = end;
    }

    /// The octets, borrowed.
    pub fn as_slice(&self) -> &[u8]
        ensures value { result.now ≡ self.now }
        ensures most { length self.now ≤ MAX }
    {
        &self.octets[..self.size]
    }
}

impl<const MAX: usize> AsSlice<u8> for ShortOctets<MAX> {
    ghost items = { λ s. s };

    fn as_slice(&self) -> &[u8] {
        &self.octets[..self.size]
    }
}

impl<const MAX: usize> fmt::Debug for ShortOctets<MAX> {
    fn fmt<W: fmt::Write>(&self, f: &mut fmt::Formatter<W>) -> fmt::Result {
        self.as_slice().fmt(f)
    }
}

impl<const MAX: usize> PartialEq for ShortOctets<MAX> {
    ghost eq = { pointwise nat_eq };

    ghost laws = { Prim.search (comparing, rules) };

    fn eq(&self, other: &ShortOctets<MAX>) -> bool {
        self.as_slice() == other.as_slice()
    }
}

impl<const MAX: usize> Eq for ShortOctets<MAX> {
    ghost laws = { Prim.search (comparing, rules) };
}
