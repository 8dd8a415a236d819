//! The order of the certificates that are no key's own.
ghost use Rattle.std.specs.Prelude.{◌≡◌, ◌-◌, IfOk, OnOk};
ghost use Rattle.std.specs.BTreeMap as tree;
ghost use Rattle.std.specs.List.{AllZip, range_with_len};
ghost use Rattle.std.specs.Option.{is_some};
ghost use Rattle.std.specs.Ordering.{nat_cmp};
ghost use Rattle.asn1_core.specs.Texts.{seen_option};
ghost use Rattle.inventory_core.specs.View.{seen_all, seen_certificate};
ghost use Rattle.pem_stores.specs.ChainOrder.{ArePlaces, IsOrder, IsRead, with_fresh, with_next, with_place};

use asn1_core::Octets;
use inventory_core::{CertificateView, SubjectIndex};
use std::alloc::{AllocError, Global};
use std::collections::BTreeMap;

/// The places of certificates in an order.
#[derive(Drop)]
pub(crate) struct Order {
    pub(crate) places: Vec<usize>,
    /// How many of them, from the front, are in the chain of a key.
    pub(crate) chained: usize,
}

/// What is read of a certificate.
fn view_of(certificate: &Octets) -> Option<CertificateView<'_>>
    ensures { IsRead certificate.now (seen_option seen_certificate result) }
{
    match CertificateView::parse(certificate.as_slice()) {
        Ok(view) => Some(view),
        Err(_) => None,
    }
}

/// What is read of each certificate.
fn views_of(
    alloc: Global,
    certificates: &[Octets],
) -> Result<Vec<Option<CertificateView<'_>>>, AllocError>
    ensures { IfOk result (λ views. AllZip IsRead certificates.now (seen_all views.items)) }
{
    let mut views = Vec::new(alloc);
    for certificate in certificates {
        views.push(view_of(certificate))?;
    }
    Ok(views)
}

/// Adds a place unless it is noted, and takes note of it.
fn add_place(
    places: &mut Vec<usize>,
    noted: &mut BTreeMap<usize, ()>,
    place: usize,
) -> Result<(), AllocError>
    requires { ArePlaces (λ q. is_some (tree.get nat_cmp noted.old q)) places.old.items }
    ensures places { OnOk result (places.new.items ≡ with_place places.old.items place) }
    ensures noted { OnOk result
        (ArePlaces (λ q. is_some (tree.get nat_cmp noted.new q)) places.new.items) }
{
    if noted.contains_key(&place) {
        return Ok(());
    }
    noted.insert(place, ())?;
    places.push(place)?;
    Ok(())
}

/// The same of a place that is not below `own`.
fn add_next(
    places: &mut Vec<usize>,
    noted: &mut BTreeMap<usize, ()>,
    own: usize,
    place: usize,
) -> Result<(), AllocError>
    requires { ArePlaces (λ q. is_some (tree.get nat_cmp noted.old q)) places.old.items }
    ensures places { OnOk result (places.new.items ≡ with_next own places.old.items place) }
    ensures noted { OnOk result
        (ArePlaces (λ q. is_some (tree.get nat_cmp noted.new q)) places.new.items) }
{
    if place < own {
        return Ok(());
    }
    add_place(places, noted, place)
}

/// Adds the places that are not below `own` and not there yet.
fn add_fresh(
    places: &mut Vec<usize>,
    noted: &mut BTreeMap<usize, ()>,
    more: &[usize],
    own: usize,
) -> Result<(), AllocError>
    requires { ArePlaces (λ q. is_some (tree.get nat_cmp noted.old q)) places.old.items }
    ensures places { OnOk result
        (places.new.items ≡ with_fresh own places.old.items more.now) }
    ensures noted { OnOk result
        (ArePlaces (λ q. is_some (tree.get nat_cmp noted.new q)) places.new.items) }
{
    for place in more {
        add_next(places, noted, own, *place)?;
    }
    Ok(())
}

/// The places from `own` to the end of so many.
fn places_from(alloc: Global, own: usize, count: usize) -> Result<Vec<usize>, AllocError>
    ensures { IfOk result (λ places. places.items ≡ range_with_len own (count - own)) }
{
    let mut places = Vec::new(alloc);
    for place in own..count {
        places.push(place)?;
    }
    Ok(places)
}

/// The order of all certificates but the first `own`, which are those of the keys: first those of the chain of the first key, leaf to
/// root, then what the chain of the second has beyond these, and so on, and then those that are in no chain, as they were given.
pub(crate) fn chain_order(
    alloc: Global,
    certificates: &[Octets],
    own: usize,
) -> Result<Order, AllocError>
    ensures { IfOk result (λ o. IsOrder certificates.now own o.places.items o.chained) }
{
    let views = views_of(alloc, certificates)?;
    let index = SubjectIndex::new(alloc, views.as_slice())?;
    let mut places = Vec::new(alloc);
    let mut noted = BTreeMap::new(alloc);
    for start in 0..own {
        let chain = index.chain_from(alloc, start)?;
        add_fresh(&mut places, &mut noted, chain.as_slice(), own)?;
    }
    let chained = places.len();
    let all = places_from(alloc, own, certificates.len())?;
    add_fresh(&mut places, &mut noted, all.as_slice(), own)?;
    Ok(Order { places, chained })
}
