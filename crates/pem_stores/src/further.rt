//! The certificates of a store that are no key's own, in their order.
ghost use Rattle.std.specs.Prelude.{◌≡◌, ◌++◌, IfOk, OnOk};
ghost use Rattle.pem_stores.specs.Entries.{AreFurther, certificates_at, certificate_at};

use crate::chain_order::chain_order;
use crate::each_once::each_once;
use asn1_core::Octets;
use create_core::{CertificateEntry, KeyEntry};
use std::alloc::{AllocError, Global};

/// The further certificates of a store, in their order.
#[derive(Drop)]
pub struct Further {
    pub certificates: Vec<CertificateEntry>,
    /// How many of them, from the end, are in the chain of no key.
    pub apart: usize,
}

/// Adds the certificate at this place, without a name.
fn add_at(
    alloc: Global,
    entries: &mut Vec<CertificateEntry>,
    all: &[Octets],
    place: usize,
) -> Result<(), AllocError>
    ensures { OnOk result (entries.new.items ≡ entries.old.items ++ certificate_at all.now place) }
{
    if let Some(certificate) = all.get(place) {
        let certificate = certificate.try_clone(alloc)?;
        entries.push(CertificateEntry {
            certificate,
            name: None,
        })?;
    }
    Ok(())
}

/// The certificates at these places, without names.
fn certificates_at(
    alloc: Global,
    all: &[Octets],
    places: &[usize],
) -> Result<Vec<CertificateEntry>, AllocError>
    ensures { IfOk result (λ v. v.items ≡ certificates_at all.now places.now) }
{
    let mut entries = Vec::new(alloc);
    for place in places {
        add_at(alloc, &mut entries, all, *place)?;
    }
    Ok(entries)
}

/// The certificates that are further ones beside those of the keys, each once: first those of the chains of the keys, from leaf to root,
/// and then those that are in no chain. The only error is out of memory.
pub fn further_of(
    alloc: Global,
    keys: &[KeyEntry],
    further: &[Octets],
) -> Result<Further, AllocError>
    ensures { IfOk result (AreFurther keys.now further.now) }
{
    let all = each_once(alloc, keys, further)?;
    let order = chain_order(alloc, all.as_slice(), keys.len())?;
    let certificates = certificates_at(alloc, all.as_slice(), order.places.as_slice())?;
    let apart = order.places.len().saturating_sub(order.chained);
    Ok(Further {
        certificates,
        apart,
    })
}
