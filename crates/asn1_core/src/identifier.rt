//! Object identifiers.
ghost use Rattle.asn1_core.specs.Identifier.{Holds};

use crate::arcs;
use crate::encoding::octets_of;
use crate::error::Error;
use crate::identifier_text::{read_arcs, write_arc};
use crate::subidentifiers::is_identifier;
use octet_core::pad;
use std::cmp::Ordering;
use std::fmt;
use std::hash::{Hash, Hasher};
use std::str::FromStr;

/// An object identifier (X.690 section 8.19): its `size` octets in front, and zeros after them.
///
/// The octets are one or more subidentifiers in base 128, each in its fewest octets and below 2^32, at most 39 octets in all.
#[derive(Clone, Copy, Debug, Drop)]
pub struct ObjectIdentifier {
    pub octets: [u8; 39],
    pub size: u8,
    pub ghost holds: { Holds octets size },
}

impl ObjectIdentifier {
    ghost use Rattle.std.specs.Prelude.{◌≡◌, ◌≤◌, ◌↔◌, length, slice_get, IsTrue, IsOk, IfOk, IfErr};
    ghost use Rattle.asn1_core.specs.Identifier.{is_identifier};
    ghost use Rattle.asn1_core.specs.Arcs.{HasArcs, NoneHas, IsText, NoneReads, arcs};
    ghost use Rattle.asn1_core.specs.Oid.{oid_octets};
    ghost use Rattle.asn1_core.specs.Reading.{oid_of};
    ghost use Rattle.asn1_core.specs.Gives.{Gives};

    /// The identifier of a text: its arcs in decimal with no leading zeros, and a point between each two, as `1.2.840`.
    /// `Malformed` exactly where it is the text of none.
    pub fn new(text: &str) -> Result<ObjectIdentifier, Error>
        ensures ok { IfOk result (λ o. IsText text.now (oid_octets o)) }
        ensures err { IfErr result (λ e. (e ≡ Error.Malformed) × NoneReads text.now) }
    {
        let mut arcs = [0; 40];
        match read_arcs(text, &mut arcs) {
            Some(n) => ObjectIdentifier::from_arcs(&arcs[..n]),
            None => Err(Error::Malformed),
        }
    }

    /// The identifier of these octets. `Malformed` exactly where they are the octets of none.
    #[tactic(auto, using(octet_core::specs::PaddedLaws::is_padded, octet_core::specs::PaddedLaws::take_padded, crate::specs::ElementLaws::oid_reads_none))]
    pub fn from_bytes(octets: &[u8]) -> Result<ObjectIdentifier, Error>
        ensures ok { IfOk result (λ o. oid_octets o ≡ octets.now) }
        ensures read { Gives (λ o. o) result (oid_of octets.now) }
        ensures exact { IsOk result ↔ IsTrue (is_identifier octets.now) }
        ensures err { IfErr result (λ e. e ≡ Error.Malformed) }
    {
        if !is_identifier(octets) {
            return Err(Error::Malformed);
        }
        Ok(ObjectIdentifier {
            octets: pad(octets),
            size: octets.len() as u8,
        })
    }

    /// The identifier of these arcs (X.690 sections 8.19.4 and 8.19.5). `Malformed` exactly where no identifier has them.
    pub fn from_arcs(arcs: &[u32]) -> Result<ObjectIdentifier, Error>
        ensures ok { IfOk result (λ o. HasArcs (oid_octets o) arcs.now) }
        ensures err { IfErr result (λ e. (e ≡ Error.Malformed) × NoneHas arcs.now) }
    {
        if arcs.len() < 2 {
            return Err(Error::Malformed);
        }
        let first = arcs[0];
        let second = arcs[1];
        if first > 2 {
            return Err(Error::Malformed);
        }
        if first < 2 && second > 39 {
            return Err(Error::Malformed);
        }
        if second > 0xffff_ffff - 40 * first {
            return Err(Error::Malformed);
        }
        let (_, rest) = arcs.split_at(2);
        let mut kept = [0; 39];
        match octets_of(&mut kept, 40 * first + second, rest) {
            Some(used) => ObjectIdentifier::from_bytes(&kept[..used]),
            None => Err(Error::Malformed),
        }
    }

    /// The identifier of these octets. Caller: they are the octets of one.
    #[tactic(auto, using(octet_core::specs::PaddedLaws::is_padded, octet_core::specs::PaddedLaws::take_padded))]
    pub fn constant(octets: &[u8]) -> ObjectIdentifier
        requires { IsTrue (is_identifier octets.now) }
        ensures { oid_octets result ≡ octets.now }
    {
        ObjectIdentifier {
            octets: pad(octets),
            size: octets.len() as u8,
        }
    }

    /// The octets of the identifier's value.
    pub fn as_bytes(&self) -> &[u8]
        ensures value { result.now ≡ oid_octets self.now }
        ensures grammar { IsTrue (is_identifier (oid_octets self.now)) }
    {
        let n = self.size as usize;
        &self.octets[..n]
    }

    /// The number of arcs: at least 2 and at most 40.
    pub fn arc_count(&self) -> usize
        ensures count { result ≡ length (arcs (oid_octets self.now)) }
        ensures within { (2 ≤ result) × (result ≤ 40) }
    {
        arcs::count(self.as_bytes())
    }

    /// The arc at place `i`, counted from 0. None exactly where `i` is not below `arc_count`.
    pub fn arc(&self, i: usize) -> Option<u32>
        ensures { result ≡ slice_get (arcs (oid_octets self.now)) i }
    {
        arcs::at(self.as_bytes(), i)
    }
}

impl fmt::Display for ObjectIdentifier {
    ghost use Rattle.std.specs.Prelude.{Some};
    ghost use Rattle.asn1_core.specs.Arcs.{arcs, arcs_text};
    ghost use Rattle.asn1_core.specs.Oid.{oid_octets};

    ghost output = { λ o. Some (arcs_text (arcs (oid_octets o))) };

    /// Prints the text.
    fn fmt<W: fmt::Write>(&self, f: &mut fmt::Formatter<W>) -> fmt::Result {
        let mut i = 0;
        while let Some(arc) = self.arc(i) {
            write_arc(i, arc, f)?;
            i += 1;
        }
        Ok(())
    }
}

impl FromStr for ObjectIdentifier {
    ghost use Rattle.std.specs.Prelude.{◌≡◌, MatchResult};
    ghost use Rattle.asn1_core.specs.Arcs.{IsText, NoneReads};
    ghost use Rattle.asn1_core.specs.Oid.{oid_octets};
    ghost use Rattle.asn1_core.specs.declared.error.Error.TheVariants.{Malformed};

    type Err = Error;

    ghost from_str_gives = { λ t r. MatchResult r (λ o. IsText t (oid_octets o))
        (λ e. (e ≡ Malformed) × NoneReads t) };

    fn from_str(text: &str) -> Result<ObjectIdentifier, Error> {
        ObjectIdentifier::new(text)
    }
}

impl PartialEq for ObjectIdentifier {
    ghost use Rattle.std.specs.Prelude.{nat_eq};
    ghost use Rattle.std.specs.Ordering.{on};
    ghost use Rattle.std.specs.Cmp.Lexicographic.{pointwise};
    ghost use Rattle.std.specs.Cmp.Rules.{comparing};
    ghost use Rattle.std.proofs.Common.{rules};
    ghost use Rattle.asn1_core.specs.Oid.{oid_octets};

    ghost eq = { on oid_octets (pointwise nat_eq) };

    ghost laws = { Prim.search (comparing, rules) };

    fn eq(&self, other: &ObjectIdentifier) -> bool {
        self.as_bytes() == other.as_bytes()
    }
}

impl Eq for ObjectIdentifier {
    ghost use Rattle.std.specs.Cmp.Rules.{comparing};
    ghost use Rattle.std.proofs.Common.{rules};

    ghost laws = { Prim.search (comparing, rules) };
}

impl PartialOrd for ObjectIdentifier {
    ghost use Rattle.std.specs.Prelude.{nat_eq};
    ghost use Rattle.std.specs.Ordering.{on, nat_cmp, as_partial_cmp};
    ghost use Rattle.std.specs.Cmp.Lexicographic.{slice_cmp};
    ghost use Rattle.std.specs.Cmp.{partial_order_from_own_ties};
    ghost use Rattle.std.specs.Cmp.Rules.{comparing};
    ghost use Rattle.std.proofs.Common.{rules};
    ghost use Rattle.asn1_core.specs.Oid.{oid_octets};

    ghost partial_cmp = { as_partial_cmp (on oid_octets (slice_cmp nat_cmp)) };

    ghost laws = { partial_order_from_own_ties (Prim.search (comparing, rules))
        (Prim.search (comparing, rules)) };

    fn partial_cmp(&self, other: &ObjectIdentifier) -> Option<Ordering> {
        Some(self.cmp(other))
    }
}

impl Ord for ObjectIdentifier {
    ghost use Rattle.std.specs.Prelude.{refl};
    ghost use Rattle.std.specs.Ordering.{on, nat_cmp};
    ghost use Rattle.std.specs.Cmp.Lexicographic.{slice_cmp};
    ghost use Rattle.std.specs.Cmp.Rules.{comparing};
    ghost use Rattle.std.proofs.Common.{rules};
    ghost use Rattle.asn1_core.specs.Oid.{oid_octets};

    ghost cmp = { on oid_octets (slice_cmp nat_cmp) };

    ghost total = { Prim.search (comparing, rules) };

    ghost matches_partial_cmp = { λ x y. refl };

    ghost matches_eq = { Prim.search (comparing, rules) };

    fn cmp(&self, other: &ObjectIdentifier) -> Ordering {
        self.as_bytes().cmp(&other.as_bytes())
    }
}

impl Hash for ObjectIdentifier {
    ghost use Rattle.std.specs.Hash as fed;
    ghost use Rattle.std.specs.Cmp.Rules.{hashing};
    ghost use Rattle.std.proofs.Common.{rules};
    ghost use Rattle.asn1_core.specs.Oid.{oid_octets};

    ghost hash_input = { λ o. fed.slice fed.u8 (oid_octets o) };

    ghost respects_eq = { Prim.search (hashing, rules) };

    fn hash<H: Hasher>(&self, state: &mut H) {
        self.as_bytes().hash(state);
    }
}
