//! Octets in memory of their own.
ghost use Rattle.std.specs.Prelude.{◌≡◌, ℕ, List, [], ◌∷◌, ◌++◌, length, take, IfOk, IfErr, OnOk, OnErr, nat_eq, refl, ◌==◌};
ghost use Rattle.std.specs.Borrow.{sem};
ghost use Rattle.std.specs.Ordering.{nat_cmp, as_partial_cmp};
ghost use Rattle.std.specs.Hash as fed;
ghost use Rattle.std.specs.Cmp.Lexicographic.{pointwise, slice_cmp};
ghost use Rattle.std.specs.Cmp.{partial_order_from_own_ties};
ghost use Rattle.std.specs.Cmp.Rules.{comparing, hashing};
ghost use Rattle.std.proofs.Common.{rules};

use std::alloc::{AllocError, Global};
use std::cmp::Ordering;
use std::convert::AsSlice;
use std::hash::{Hash, Hasher};
use std::marker::Model;

/// Octets in memory of their own, which a contract sees as a list of numbers below 256.
#[derive(Debug, Drop)]
pub struct Octets {
    octets: Vec<u8>,
}

impl Model for Octets {
    ghost Value = { List ℕ };

    ghost view = { λ o. o.octets.items };
}

impl Octets {
    ghost use Rattle.octet_core.specs.Lending.{LendsAll};

    /// No octets. This takes no memory yet.
    pub fn new(alloc: Global) -> Octets
        ensures { result ≡ [] }
    {
        Octets {
            octets: Vec::new(alloc),
        }
    }

    /// A copy of these octets. `AllocError` where there is no memory.
    pub fn from_slice(alloc: Global, octets: &[u8]) -> Result<Octets, AllocError>
        ensures { IfOk result (λ o. o ≡ octets.now) }
    {
        Ok(Octets {
            octets: Vec::from_slice(alloc, octets)?,
        })
    }

    /// The octets of this vector, with no copy.
    pub fn from_vec(octets: Vec<u8>) -> Octets
        ensures { result ≡ octets.items }
    {
        Octets { octets }
    }

    /// One octet more after the others. `AllocError` where there is no memory, and nothing is changed then.
    pub fn push(&mut self, octet: u8) -> Result<(), AllocError>
        ensures ok { OnOk result (self.new ≡ self.old ++ octet ∷ []) }
        ensures unchanged { OnErr result (self.new ≡ self.old) }
    {
        self.octets.push(octet)?;
        Ok(())
    }

    /// These octets after the others. `AllocError` where there is no memory, and nothing is changed then.
    pub fn extend(&mut self, octets: &[u8]) -> Result<(), AllocError>
        ensures ok { OnOk result (self.new ≡ self.old ++ octets.now) }
        ensures unchanged { OnErr result (self.new ≡ self.old) }
    {
        self.octets.extend_from_slice(octets)?;
        Ok(())
    }

    /// Keeps the first `len` octets; all of them where there are no more.
    pub fn truncate(&mut self, len: usize)
        ensures { self.new ≡ take len self.old }
    {
        self.octets.truncate(len);
    }

    /// How many octets there are.
    pub fn len(&self) -> usize
        ensures { result ≡ length self.now }
    {
        self.octets.len()
    }

    /// Whether there are none.
    pub fn is_empty(&self) -> bool
        ensures { result ≡ (length self.now == 0) }
    {
        self.octets.is_empty()
    }

    /// The octets, borrowed.
    pub fn as_slice(&self) -> &[u8]
        ensures { result.now ≡ self.now }
    {
        self.octets.as_slice()
    }

    /// The octets, to be changed where they are. Their number stays.
    pub fn as_mut_slice(&mut self) -> &mut [u8]
        ensures* writes_back { sem 𝓛 (LendsAll self.entry result) }
        ensures value { result.now ≡ self.old }
    {
        self.octets.as_mut_slice()
    }

    /// An equal value in memory of its own. `AllocError` where there is no memory.
    pub fn try_clone(&self, alloc: Global) -> Result<Octets, AllocError>
        ensures { IfOk result (λ o. o ≡ self.now) }
    {
        Octets::from_slice(alloc, self.octets.as_slice())
    }
}

impl AsSlice<u8> for Octets {
    ghost items = { λ o. o };

    fn as_slice(&self) -> &[u8] {
        self.octets.as_slice()
    }
}

impl PartialEq for Octets {
    ghost eq = { pointwise nat_eq };

    ghost laws = { Prim.search (comparing, rules) };

    fn eq(&self, other: &Octets) -> bool {
        self.octets == other.octets
    }
}

impl Eq for Octets {
    ghost laws = { Prim.search (comparing, rules) };
}

impl PartialOrd for Octets {
    ghost partial_cmp = { as_partial_cmp (slice_cmp nat_cmp) };

    ghost laws = { partial_order_from_own_ties (Prim.search (comparing, rules))
        (Prim.search (comparing, rules)) };

    fn partial_cmp(&self, other: &Octets) -> Option<Ordering> {
        Some(self.cmp(other))
    }
}

impl Ord for Octets {
    ghost cmp = { slice_cmp nat_cmp };

    ghost total = { Prim.search (comparing, rules) };

    ghost matches_partial_cmp = { λ x y. refl };

    ghost matches_eq = { Prim.search (comparing, rules) };

    fn cmp(&self, other: &Octets) -> Ordering {
        self.octets.cmp(&other.octets)
    }
}

impl Hash for Octets {
    ghost hash_input = { fed.slice fed.u8 };

    ghost respects_eq = { Prim.search (hashing, rules) };

    fn hash<H: Hasher>(&self, state: &mut H) {
        self.octets.hash(state);
    }
}
