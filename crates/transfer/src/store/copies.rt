//! Copies of what a store gives.
ghost use Rattle.std.specs.Prelude.{◌≡◌, IfOk, IfErr};
ghost use Rattle.transfer.specs.declared.store.error.TransferError.TheVariants.{Memory};

use crate::store::error::TransferError;
use asn1_core::{Items, Octets};
use p12::{Place, SafeBag};
use std::alloc::Global;

/// Equal octets in memory of their own.
pub(crate) fn copied(alloc: Global, texts: &[Octets]) -> Result<Items<Octets>, TransferError>
    ensures ok { IfOk result (λ copies. copies ≡ texts.now) }
    ensures err { IfErr result (λ e. e ≡ Memory) }
{
    let mut copies = Items::new(alloc);
    for text in texts {
        copies.push(text.try_clone(alloc)?)?;
    }
    Ok(copies)
}

/// Equal places in memory of their own.
pub(crate) fn copied_places(alloc: Global, places: &[Place]) -> Result<Items<Place>, TransferError>
    ensures ok { IfOk result (λ copies. copies ≡ places.now) }
    ensures err { IfErr result (λ e. e ≡ Memory) }
{
    let mut copies = Items::new(alloc);
    for place in places {
        copies.push(*place)?;
    }
    Ok(copies)
}

/// Equal bags in memory of their own.
fn copied_bags(alloc: Global, bags: &[SafeBag]) -> Result<Items<SafeBag>, TransferError>
    ensures ok { IfOk result (λ copies. copies ≡ bags.now) }
    ensures err { IfErr result (λ e. e ≡ Memory) }
{
    let mut copies = Items::new(alloc);
    for bag in bags {
        match bag.try_clone(alloc) {
            Ok(copy) => copies.push(copy)?,
            Err(_) => return Err(TransferError::Memory),
        }
    }
    Ok(copies)
}

/// The bags of each content, equal and in memory of their own.
pub(crate) fn copied_contents(
    alloc: Global,
    contents: &[Items<SafeBag>],
) -> Result<Items<Items<SafeBag>>, TransferError>
    ensures ok { IfOk result (λ copies. copies ≡ contents.now) }
    ensures err { IfErr result (λ e. e ≡ Memory) }
{
    let mut copies = Items::new(alloc);
    for bags in contents {
        copies.push(copied_bags(alloc, bags.as_slice())?)?;
    }
    Ok(copies)
}
