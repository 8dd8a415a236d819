//! The version of a store, and the contents that it lists.
ghost use Rattle.std.specs.Prelude.{◌≡◌, IfOk, IfErr};
ghost use Rattle.store_renewal.specs.Parts.{HasDerParts, HasParts};

use asn1_core::Items;
use legacy_store::store_in_der;
use p12::{ContentInfo, ContentView, StoreView};
use std::alloc::Global;
use transfer::TransferError;

#[derive(Drop)]
pub(crate) struct Parts {
    pub version: u8,
    pub contents: Items<ContentInfo>,
}

/// The parts of a store of which this is the DER text. A text of no store is refused as `Memory`, as is running out of it: the caller
/// opened the store.
fn parts_in(alloc: Global, text: &[u8]) -> Result<Parts, TransferError>
    ensures parts { IfOk result (λ r. HasDerParts text.now r.version r.contents) }
    ensures err { IfErr result (λ e. e ≡ TransferError.Memory) }
{
    let Ok(view) = StoreView::parse(text) else {
        return Err(TransferError::Memory);
    };
    let StoreView {
        version,
        auth_safe,
        ..
    } = view;
    let ContentView::Plain { content: safe, .. } = auth_safe else {
        return Err(TransferError::Memory);
    };
    let Ok(contents) = ContentInfo::parse_all(alloc, safe) else {
        return Err(TransferError::Memory);
    };
    Ok(Parts { version, contents })
}

/// The parts of a store in DER or in BER. The only refusal is `Memory`.
pub(crate) fn parts_of(alloc: Global, store: &[u8]) -> Result<Parts, TransferError>
    ensures parts { IfOk result (λ r. HasParts store.now r.version r.contents) }
    ensures err { IfErr result (λ e. e ≡ TransferError.Memory) }
{
    let found = store_in_der(alloc, store)?;
    match found {
        Some(der) => parts_in(alloc, der.as_slice()),
        None => parts_in(alloc, store),
    }
}
