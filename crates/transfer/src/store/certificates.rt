//! The certificates of an opened store.
ghost use Rattle.std.specs.Prelude.{◌≡◌, ◌++◌, All, IfOk, OnOk};
ghost use Rattle.transfer.specs.OpenedSafe.{ListsAt, contents_at};
ghost use Rattle.transfer.specs.Opening.{all_certificates};
ghost use Rattle.p12.specs.Collected.{certificates_among};

use crate::store::bags::bags_at;
use asn1_core::{Items, Octets};
use p12::{BagView, BagsView, Place};
use std::alloc::{AllocError, Global};

/// Adds the X.509 certificates among the bags of one content, in order.
fn add_certificates(
    alloc: Global,
    mut bags: BagsView<'_>,
    certificates: &mut Items<Octets>,
) -> Result<(), AllocError>
    ensures { OnOk result
        (certificates.new ≡ certificates.old ++ certificates_among bags.entry.left) }
{
    while let Some(bag) = bags.next() {
        match bag {
            BagView::X509(certificate) => {
                certificates.push(Octets::from_slice(alloc, certificate)?)?;
            }
            BagView::Sdsi(_) | BagView::Shrouded { .. } | BagView::Other { .. } => {}
        }
    }
    Ok(())
}

/// The X.509 certificates of all contents, whose bags are at these places, in order. The only error is out of memory.
pub(crate) fn certificates_of(
    alloc: Global,
    text: &[u8],
    places: &[Place],
) -> Result<Items<Octets>, AllocError>
    requires { All (ListsAt text.now) places.now }
    ensures { IfOk result
        (λ certificates. certificates ≡ all_certificates (contents_at text.now places.now)) }
{
    let mut certificates = Items::new(alloc);
    for place in places {
        let bags = bags_at(text, *place);
        add_certificates(alloc, bags, &mut certificates)?;
    }
    Ok(certificates)
}
