//! A private key with its certificate, which is one of several.
ghost use Rattle.std.specs.Prelude.{◌≡◌, ◌<◌, length, IfOk};
ghost use Rattle.std.specs.Option.{option_copied};
ghost use Rattle.pem_stores.specs.Entries.{IsEntryWith, IsOwned};

use crate::own_certificate::{Choice, choice_of, matches_of};
use asn1_core::{Octets, Text};
use create_core::KeyEntry;
use std::alloc::{AllocError, Global};

/// A private key with its certificate, and the certificates beside that.
#[derive(Drop)]
pub struct OwnEntry {
    pub entry: KeyEntry,
    /// The other certificates, in their order.
    pub others: Vec<Octets>,
}

/// Whether one of several certificates is a private key's.
#[derive(Drop)]
pub enum Owned {
    /// It is.
    Own(OwnEntry),
    /// It is for all that is told.
    Untold(OwnEntry),
    /// Each is that of another key.
    Nowhere,
}

/// A name as it is kept.
fn text_of(alloc: Global, name: Option<&str>) -> Result<Option<Text>, AllocError>
    ensures { IfOk result (λ t. t ≡ option_copied name.entry) }
{
    match name {
        Some(name) => Ok(Some(Text::from_text(alloc, name)?)),
        None => Ok(None),
    }
}

/// The key with the certificate at this place.
fn entry_with(
    alloc: Global,
    key: Octets,
    certificates: Vec<Octets>,
    place: usize,
    name: Option<&str>,
) -> Result<OwnEntry, AllocError>
    requires { place < length certificates.items }
    ensures { IfOk result (IsEntryWith key certificates.items place (option_copied name.entry)) }
{
    let name = text_of(alloc, name)?;
    let mut others = certificates;
    let certificate = others.remove(place);
    let entry = KeyEntry {
        key,
        certificate,
        name,
    };
    Ok(OwnEntry { entry, others })
}

/// The private key of this text with its certificate under this name: the first of these certificates that is the key's own, or where
/// there is none the first of which that is not told. The only error is out of memory.
pub fn own_entry(
    alloc: Global,
    key: Octets,
    certificates: Vec<Octets>,
    name: Option<&str>,
) -> Result<Owned, AllocError>
    ensures { IfOk result (IsOwned key certificates.items (option_copied name.entry)) }
{
    let matches = matches_of(alloc, key.as_slice(), certificates.as_slice())?;
    match choice_of(matches.as_slice()) {
        Choice::Own(place) => Ok(Owned::Own(entry_with(alloc, key, certificates, place, name)?)),
        Choice::Untold(place) => {
            Ok(Owned::Untold(entry_with(alloc, key, certificates, place, name)?))
        }
        Choice::Nowhere => Ok(Owned::Nowhere),
    }
}
