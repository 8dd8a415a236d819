//! Sealing the keys of an opened store.
ghost use Rattle.std.specs.Prelude.{◌≡◌, ◌<◌, ◌≤◌, ◌*◌, ◌++◌, length, IfOk, IfErr, OnOk};
ghost use Rattle.std.specs.Result.{IsErrOf};
ghost use Rattle.octet_core.specs.Draw.{Lacks};
ghost use Rattle.transfer.specs.Limits.{rounds_limit};
ghost use Rattle.transfer.specs.Opening.{all_certificates};
ghost use Rattle.transfer.specs.TransferError.{RefusedBy};
ghost use Rattle.transfer.specs.Transferred.{DrawsFor, SealsOpened};
ghost use Rattle.p12.specs.Collected.{certificates_among};

use crate::store::error::TransferError;
use crate::store::opened::Opened;
use crate::store::seal::seal_all;
use crate::store::transfer::Transferred;
use asn1_core::{Items, Octets};
use mac_modes::Draw;
use p12::{CertBag, SafeBag, SafeBagKind};
use std::alloc::{AllocError, Global};

/// Adds the X.509 certificates among bags, in order.
fn add_x509(
    alloc: Global,
    bags: &[SafeBag],
    certificates: &mut Items<Octets>,
) -> Result<(), AllocError>
    ensures { OnOk result (certificates.new ≡ certificates.old ++ certificates_among bags.now) }
{
    for bag in bags {
        match &bag.bag {
            SafeBagKind::CertBag(CertBag::X509(certificate)) => {
                certificates.push(certificate.try_clone(alloc)?)?;
            }
            SafeBagKind::CertBag(CertBag::SDSI(_))
            | SafeBagKind::Pkcs8ShroudedKeyBag(_)
            | SafeBagKind::OtherBagKind(_) => {}
        }
    }
    Ok(())
}

/// The X.509 certificates among the bags of all contents, in order.
fn x509_among(alloc: Global, contents: &[Items<SafeBag>]) -> Result<Items<Octets>, AllocError>
    ensures { IfOk result (λ certificates. certificates ≡ all_certificates contents.now) }
{
    let mut certificates = Items::new(alloc);
    for bags in contents {
        add_x509(alloc, bags.as_slice(), &mut certificates)?;
    }
    Ok(certificates)
}

/// The certificates of an opened store and, for each of its private keys, one document that seals it, as `transfer` seals it:
/// `open_store` and then this is a transfer, by the law `transfer_is_in_two`. The refusals are `Rng` and `Memory`.
///
/// Caller: the rounds are 1 to 100,000,000.
pub fn seal_opened<D: Draw>(
    alloc: Global,
    opened: &Opened,
    new_password: &[u8],
    rounds: u32,
    draw: &mut D,
) -> Result<Transferred, TransferError>
    requires { (1 ≤ rounds) × (rounds ≤ rounds_limit) }
    ensures sealed { IfOk result (λ t. SealsOpened rounds new_password.now (D.left draw.old)
        (D.left draw.new) opened.now.contents opened.now.keys t.certificates t.documents) }
    ensures refused { IfErr result (RefusedBy (λ e. ⊥)
        (Lacks (D.faults draw.old) (D.faults draw.new) (D.left draw.old)
        (32 * length opened.now.keys))) }
    ensures exact { DrawsFor (D.left draw.old) (length opened.now.keys) result }
    ensures count { D.faults draw.old ≤ D.faults draw.new }
    ensures no_fault { OnOk result (D.faults draw.new ≡ D.faults draw.old) }
    ensures last { D.faults draw.old < D.faults draw.new → IsErrOf result TransferError.Rng }
{
    let certificates = x509_among(alloc, opened.contents.as_slice())?;
    let documents = seal_all(alloc, opened.keys.as_slice(), new_password, rounds, draw)?;
    Ok(Transferred {
        certificates,
        documents,
    })
}
