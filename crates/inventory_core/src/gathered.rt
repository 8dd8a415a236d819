//! What is gathered from the bags of a store.
ghost use Rattle.std.specs.Prelude.{◌≡◌, ◌++◌, IfOk, OnOk};
ghost use Rattle.std.specs.List.{flat_map};
ghost use Rattle.asn1_core.specs.Texts.{seen_option};
ghost use Rattle.p12.specs.BagView.{AreParts, seen_parts};
ghost use Rattle.p12.specs.SafeBag.{first_key_id};
ghost use Rattle.inventory_core.specs.Gathering.{certificate_of, certificate_part};
ghost use Rattle.inventory_core.specs.Table.{certificate_id, certificate_ids, key_id, key_ids};
ghost use Rattle.inventory_core.specs.View.{seen_all, seen_certificate};

use crate::certificate::CertificateView;
use octet_core::{Items, Octets};
use p12::{BagParts, BagView, BagsView};
use std::alloc::{AllocError, Global};
use transfer::OpenedSafe;

/// The certificates of a store, as far as they could be read, and the first local key ids of their
/// bags and of those of the encrypted keys, none where a bag has none.
#[derive(Drop)]
pub(crate) struct Gathered<'a> {
    pub(crate) certificates: Items<Option<CertificateView<'a>>>,
    pub(crate) certificate_ids: Items<Option<Octets>>,
    pub(crate) key_ids: Items<Option<Octets>>,
}

/// The certificate of these octets, if they are the text of one.
fn certificate_of(bytes: &[u8]) -> Option<CertificateView<'_>>
    ensures { seen_option seen_certificate result ≡ certificate_of bytes.now }
{
    match CertificateView::parse(bytes) {
        Ok(certificate) => Some(certificate),
        Err(_) => None,
    }
}

/// The first local key id of a bag.
fn id_of(alloc: Global, bag: &BagParts<'_>) -> Result<Option<Octets>, AllocError>
    requires { AreParts bag.now }
    ensures { IfOk result (λ id. id ≡ first_key_id (seen_parts bag.now).attributes) }
{
    match bag.local_key_id(alloc) {
        Ok(id) => Ok(id),
        Err(_) => Err(AllocError),
    }
}

/// Adds what a bag gives.
fn add_bag<'a>(
    alloc: Global,
    bag: &BagParts<'a>,
    gathered: &mut Gathered<'a>,
) -> Result<(), AllocError>
    requires { AreParts bag.now }
    ensures certificates { OnOk result (seen_all gathered.new.certificates
        ≡ seen_all gathered.old.certificates ++ certificate_part (seen_parts bag.now)) }
    ensures certificate_ids { OnOk result (gathered.new.certificate_ids
        ≡ gathered.old.certificate_ids ++ certificate_id (seen_parts bag.now)) }
    ensures key_ids { OnOk result (gathered.new.key_ids
        ≡ gathered.old.key_ids ++ key_id (seen_parts bag.now)) }
{
    match bag.bag {
        BagView::X509(certificate) => {
            gathered.certificates.push(certificate_of(certificate))?;
            gathered.certificate_ids.push(id_of(alloc, bag)?)?;
            Ok(())
        }
        BagView::Shrouded { .. } => {
            gathered.key_ids.push(id_of(alloc, bag)?)?;
            Ok(())
        }
        BagView::Sdsi(_) | BagView::Other { .. } => Ok(()),
    }
}

/// Adds what the bags of a content give.
fn add_bags<'a>(
    alloc: Global,
    mut bags: BagsView<'a>,
    gathered: &mut Gathered<'a>,
) -> Result<(), AllocError>
    ensures certificates { OnOk result (seen_all gathered.new.certificates
        ≡ seen_all gathered.old.certificates ++ flat_map certificate_part bags.entry.left) }
    ensures certificate_ids { OnOk result (gathered.new.certificate_ids
        ≡ gathered.old.certificate_ids ++ flat_map certificate_id bags.entry.left) }
    ensures key_ids { OnOk result (gathered.new.key_ids
        ≡ gathered.old.key_ids ++ flat_map key_id bags.entry.left) }
{
    while let Some(bag) = bags.next_parts() {
        add_bag(alloc, &bag, gathered)?;
    }
    Ok(())
}

/// What the bags of all contents give, in order. They stay in the text of the store.
pub(crate) fn gather<'a>(alloc: Global, opened: &'a OpenedSafe) -> Result<Gathered<'a>, AllocError>
    ensures certificates { IfOk result (λ g. seen_all g.certificates
        ≡ flat_map (λ gs. flat_map certificate_part gs) opened.now.contents) }
    ensures certificate_ids { IfOk result
        (λ g. g.certificate_ids ≡ certificate_ids opened.now.contents) }
    ensures key_ids { IfOk result (λ g. g.key_ids ≡ key_ids opened.now.contents) }
{
    let mut gathered = Gathered {
        certificates: Items::new(alloc),
        certificate_ids: Items::new(alloc),
        key_ids: Items::new(alloc),
    };
    for index in 0..opened.number_of_contents() {
        add_bags(alloc, opened.bags(index), &mut gathered)?;
    }
    Ok(gathered)
}
