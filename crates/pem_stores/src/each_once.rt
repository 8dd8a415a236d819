//! The certificates of a store, each further one once. Equal ones are found by a map of their octets, so that the time is about linear in
//! what they take.
ghost use Rattle.std.specs.Prelude.{◌≡◌, ◌∷◌, ◌++◌, [], List, ℕ, IfOk, OnOk};
ghost use Rattle.std.specs.BTreeMap as tree;
ghost use Rattle.std.specs.Cmp.Lexicographic.{slice_cmp};
ghost use Rattle.std.specs.Option.{is_some};
ghost use Rattle.std.specs.Ordering.{nat_cmp};
ghost use Rattle.pem_stores.specs.EachOnce.{AreNoted, own_certificates, with_new, with_one};

use asn1_core::Octets;
use create_core::KeyEntry;
use std::alloc::{AllocError, Global};
use std::collections::BTreeMap;

/// Adds a certificate, and takes note of its octets and of its place.
fn add_noted<'a>(
    alloc: Global,
    all: &mut Vec<Octets>,
    noted: &mut BTreeMap<&'a [u8], usize>,
    certificate: &'a Octets,
) -> Result<(), AllocError>
    requires { AreNoted (λ q. is_some (tree.get_by (λ n. slice_cmp nat_cmp q n.now) noted.old))
        all.old.items }
    ensures all { OnOk result (all.new.items ≡ all.old.items ++ certificate.now ∷ []) }
    ensures noted { OnOk result (AreNoted
        (λ q. is_some (tree.get_by (λ n. slice_cmp nat_cmp q n.now) noted.new)) all.new.items) }
{
    noted.insert(certificate.as_slice(), all.len())?;
    all.push(certificate.try_clone(alloc)?)?;
    Ok(())
}

/// Adds a certificate unless its octets are noted.
fn add_new<'a>(
    alloc: Global,
    all: &mut Vec<Octets>,
    noted: &mut BTreeMap<&'a [u8], usize>,
    certificate: &'a Octets,
) -> Result<(), AllocError>
    requires { AreNoted (λ q. is_some (tree.get_by (λ n. slice_cmp nat_cmp q n.now) noted.old))
        all.old.items }
    ensures all { OnOk result (all.new.items ≡ with_one all.old.items certificate.now) }
    ensures noted { OnOk result (AreNoted
        (λ q. is_some (tree.get_by (λ n. slice_cmp nat_cmp q n.now) noted.new)) all.new.items) }
{
    if noted.contains_key(certificate.as_slice()) {
        return Ok(());
    }
    add_noted(alloc, all, noted, certificate)
}

/// The certificates of the keys, in order, and after them each further one whose octets were not there before.
pub(crate) fn each_once(
    alloc: Global,
    keys: &[KeyEntry],
    further: &[Octets],
) -> Result<Vec<Octets>, AllocError>
    ensures { IfOk result
        (λ v. v.items ≡ with_new (own_certificates keys.now) further.now) }
{
    let mut all = Vec::new(alloc);
    let mut noted = BTreeMap::new(alloc);
    for key in keys {
        add_noted(alloc, &mut all, &mut noted, &key.certificate)?;
    }
    for certificate in further {
        add_new(alloc, &mut all, &mut noted, certificate)?;
    }
    Ok(all)
}
