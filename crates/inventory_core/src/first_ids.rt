//! The first certificate of each local key id.
ghost use Rattle.std.specs.Prelude.{◌≡◌, ℕ, List, Option, Some, cond, IfOk, OnOk};
ghost use Rattle.std.specs.BTreeMap as tree;
ghost use Rattle.std.specs.Cmp.Lexicographic.{slice_cmp};
ghost use Rattle.std.specs.Ordering.{nat_cmp};
ghost use Rattle.inventory_core.specs.Lines.{IsStart, has_key_id};

use octet_core::Octets;
use std::alloc::{AllocError, Global};
use std::collections::BTreeMap;

/// Takes note of the local key id of a certificate, which comes before those noted so far.
fn note_id<'a>(
    firsts: &mut BTreeMap<&'a [u8], usize>,
    id: &'a Option<Octets>,
    k: usize,
) -> Result<(), AllocError>
    ensures { OnOk result ((q : List ℕ)
        → tree.get_by (λ n. slice_cmp nat_cmp q n.now) firsts.new
        ≡ cond (has_key_id (Some id.now) q) (Some k)
        (tree.get_by (λ n. slice_cmp nat_cmp q n.now) firsts.old)) }
{
    match id {
        Some(id) => {
            firsts.insert(id.as_slice(), k)?;
            Ok(())
        }
        None => Ok(()),
    }
}

/// The first certificate of each local key id, from the ids of all certificates.
pub(crate) fn first_ids(
    alloc: Global,
    ids: &[Option<Octets>],
) -> Result<BTreeMap<&[u8], usize>, AllocError>
    ensures { IfOk result (λ firsts. (q : List ℕ)
        → IsStart ids.now (Some q) (tree.get_by (λ n. slice_cmp nat_cmp q n.now) firsts)) }
{
    let mut firsts = BTreeMap::new(alloc);
    for k in (0..ids.len()).rev() {
        note_id(&mut firsts, &ids[k], k)?;
    }
    Ok(firsts)
}

/// The certificate that the chain of a key with this local key id begins with.
pub(crate) fn start_of(firsts: &BTreeMap<&[u8], usize>, id: &Option<Octets>) -> Option<usize>
    ensures { (ids : List (Option (List ℕ)))
        → ((q : List ℕ)
        → IsStart ids (Some q) (tree.get_by (λ n. slice_cmp nat_cmp q n.now) firsts.now))
        → IsStart ids id.now result }
{
    match id {
        Some(id) => firsts.get(id.as_slice()).copied(),
        None => None,
    }
}
