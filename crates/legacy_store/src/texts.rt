//! Reading the texts of an old store: as DER, and as BER (X.690) only where they are no DER text.
ghost use Rattle.std.specs.Prelude.{◌≡◌, ◌↔◌, ◌-◌, ◌^◌, ℕ, List, All, IfOk, IfErr, IfSome, IfNone, IsNone, Ok, true, false};
ghost use Rattle.p12.specs.ContentInfo.{IsContents, NoContents, SealFits};
ghost use Rattle.p12.specs.Canonical.{WritableMac, WritableStore, store_canon};
ghost use Rattle.der_core.specs.Optional.{writable_option};
ghost use Rattle.p12.specs.Pfx.{IsStore, NoStore, StoreFits};
ghost use Rattle.transfer.specs.TransferError.{RefusedBy};
ghost use Rattle.ber_core.specs.Ber.{Ber};
ghost use Rattle.asn1_core.specs.Der.{IsShort};
ghost use Rattle.legacy_store.specs.JoinedReading.{joined_safe};
ghost use Rattle.legacy_store.specs.InDer.{IsInDer, IsSafeInDer, IsStoreInDer, IsWholeInDer, ListsNothing, StaysAsItIs};
ghost use Rattle.legacy_store.specs.Texts.{BerSafe, IsLegacySafe, IsLegacyStore, NoLegacySafe, NoLegacyStore};

use crate::joined::joined_safe;
use asn1_core::{Items, Octets};
use ber_core::to_der;
use p12::{ContentInfo, ContentView, ContentsView, Error, PFX, StoreView};
use std::alloc::{AllocError, Global};
use transfer::TransferError;

/// The DER text of the value of which these octets are a BER text, if they are one. The only error is out of memory.
fn der_of(alloc: Global, ber: &[u8]) -> Result<Option<Octets>, AllocError>
    ensures some { IfOk result (λ m. IfSome m (λ der. Ber ber.now der)) }
    ensures none { IfOk result (λ m. IfNone m ((d : List ℕ) → Ber ber.now d → ⊥)) }
{
    match to_der(alloc, ber) {
        Ok(der) => Ok(Some(der)),
        Err(ber_core::Error::Malformed) => Ok(None),
        Err(ber_core::Error::Memory) => Err(AllocError),
    }
}

/// The store whose DER text this is, if it is one. The only error is out of memory.
fn der_store(alloc: Global, text: &[u8]) -> Result<Option<PFX>, AllocError>
    ensures some { IfOk result (λ m. IfSome m (λ s. IsStore text.now s
        × StoreFits (2 ^ 32 - 1) s)) }
    ensures none { IfOk result (λ m. IfNone m (NoStore text.now)) }
{
    match PFX::parse(alloc, text) {
        Ok(store) => Ok(Some(store)),
        Err(Error::Malformed) => Ok(None),
        Err(Error::Memory) => Err(AllocError),
        Err(Error::Invalid | Error::TooLong | Error::Rng) => unreachable!(),
    }
}

/// The contents that a DER text lists, if it lists some. The only error is out of memory.
fn der_contents(alloc: Global, text: &[u8]) -> Result<Option<Items<ContentInfo>>, AllocError>
    ensures some { IfOk result (λ m. IfSome m (λ contents. IsContents text.now contents)) }
    ensures none { IfOk result (λ m. IfNone m (NoContents text.now)) }
{
    match ContentInfo::parse_all(alloc, text) {
        Ok(contents) => Ok(Some(contents)),
        Err(Error::Malformed) => Ok(None),
        Err(Error::Memory) => Err(AllocError),
        Err(Error::Invalid | Error::TooLong | Error::Rng) => unreachable!(),
    }
}

/// The store of a BER text that is no DER text. None where it is none of a store.
fn ber_store(alloc: Global, text: &[u8]) -> Result<Option<PFX>, AllocError>
    requires { NoStore text.now }
    ensures some { IfOk result (λ m. IfSome m (λ s. IsLegacyStore text.now s
        × StoreFits (2 ^ 32 - 1) s)) }
    ensures none { IfOk result (λ m. IfNone m (NoLegacyStore text.now)) }
{
    let found = der_of(alloc, text)?;
    match found {
        Some(der) => der_store(alloc, der.as_slice()),
        None => Ok(None),
    }
}

/// The store of a text. None where it is the text of none. The only error is out of memory.
fn found_store(alloc: Global, text: &[u8]) -> Result<Option<PFX>, AllocError>
    ensures some { IfOk result (λ m. IfSome m (λ s. IsLegacyStore text.now s
        × StoreFits (2 ^ 32 - 1) s)) }
    ensures none { IfOk result (λ m. IfNone m (NoLegacyStore text.now)) }
{
    let found = der_store(alloc, text)?;
    match found {
        Some(store) => Ok(Some(store)),
        None => ber_store(alloc, text),
    }
}

/// The store of a text. `Malformed` exactly where it is the text of none.
pub(crate) fn read_store(alloc: Global, text: &[u8]) -> Result<PFX, TransferError>
    ensures ok { IfOk result (λ s. IsLegacyStore text.now s) }
    ensures fits { IfOk result (StoreFits (2 ^ 32 - 1)) }
    ensures err { IfErr result
        (RefusedBy (λ e. (e ≡ TransferError.Malformed) × NoLegacyStore text.now) ⊥) }
{
    let found = found_store(alloc, text)?;
    match found {
        Some(store) => Ok(store),
        None => Err(TransferError::Malformed),
    }
}

/// The text with the encrypted octets of each content in one. None where it is no list of contents. The only error is out of memory.
fn joined_der(alloc: Global, der: &[u8]) -> Result<Option<Octets>, AllocError>
    ensures some { IfOk result (λ m. IfSome m (λ text. joined_safe der.now ≡ Ok text)) }
    ensures none { IfOk result (λ m. IfNone m ((e : List ℕ) → joined_safe der.now ≡ Ok e → ⊥)) }
{
    match joined_safe(alloc, der) {
        Ok(text) => Ok(Some(text)),
        Err(asn1_core::Error::Memory) => Err(AllocError),
        Err(_) => Ok(None),
    }
}

/// The same of a BER text.
fn ber_safe(alloc: Global, ber: &[u8]) -> Result<Option<Octets>, AllocError>
    ensures some { IfOk result (λ m. IfSome m (λ text. BerSafe ber.now text × IsShort text)) }
    ensures none { IfOk result
        (λ m. IfNone m ((e : List ℕ) → BerSafe ber.now e → IsShort e → ⊥)) }
{
    let found = der_of(alloc, ber)?;
    match found {
        Some(der) => joined_der(alloc, der.as_slice()),
        None => Ok(None),
    }
}

/// The contents that a BER text lists which is no DER text. None where it lists none.
fn ber_contents(alloc: Global, text: &[u8]) -> Result<Option<Items<ContentInfo>>, AllocError>
    requires { NoContents text.now }
    ensures some { IfOk result (λ m. IfSome m (λ contents. IsLegacySafe text.now contents)) }
    ensures none { IfOk result (λ m. IfNone m (NoLegacySafe text.now)) }
{
    let found = ber_safe(alloc, text)?;
    match found {
        Some(der) => der_contents(alloc, der.as_slice()),
        None => Ok(None),
    }
}

/// The contents that a text lists which is no DER text. `ContentMalformed` exactly where it lists none.
fn read_ber_safe(alloc: Global, text: &[u8]) -> Result<Items<ContentInfo>, TransferError>
    requires { NoContents text.now }
    ensures ok { IfOk result (λ contents. IsLegacySafe text.now contents) }
    ensures err { IfErr result
        (RefusedBy (λ e. (e ≡ TransferError.ContentMalformed) × NoLegacySafe text.now) ⊥) }
{
    let found = ber_contents(alloc, text)?;
    match found {
        Some(contents) => Ok(contents),
        None => Err(TransferError::ContentMalformed),
    }
}

/// The contents that a text lists (AuthenticatedSafe, RFC 7292 section 4.1). `ContentMalformed` exactly where it lists none.
pub(crate) fn read_safe(alloc: Global, text: &[u8]) -> Result<Items<ContentInfo>, TransferError>
    ensures ok { IfOk result (λ contents. IsLegacySafe text.now contents) }
    ensures err { IfErr result
        (RefusedBy (λ e. (e ≡ TransferError.ContentMalformed) × NoLegacySafe text.now) ⊥) }
{
    let found = der_contents(alloc, text)?;
    match found {
        Some(contents) => Ok(contents),
        None => read_ber_safe(alloc, text),
    }
}

/// The text of a list of contents in DER with the encrypted octets of each in one, of a text that is no DER text of one. None where it is
/// the text of none. The only error is out of memory.
fn ber_safe_in_der(alloc: Global, text: &[u8]) -> Result<Option<Octets>, AllocError>
    requires { NoContents text.now }
    ensures some { IfOk result (λ m. IfSome m (IsSafeInDer text.now)) }
    ensures none { IfOk result (λ m. IfNone m (NoLegacySafe text.now)) }
{
    let found = ber_safe(alloc, text)?;
    let Some(der) = found else {
        return Ok(None);
    };
    let listed = der_contents(alloc, der.as_slice())?;
    match listed {
        Some(_) => Ok(Some(der)),
        None => Ok(None),
    }
}

/// The same of any text.
fn safe_in_der(alloc: Global, text: &[u8]) -> Result<Option<Octets>, AllocError>
    ensures some { IfOk result (λ m. IfSome m (IsSafeInDer text.now)) }
    ensures none { IfOk result (λ m. IfNone m (NoLegacySafe text.now)) }
{
    let listed = der_contents(alloc, text)?;
    let Some(_) = listed else {
        return ber_safe_in_der(alloc, text);
    };
    let copy = Octets::from_slice(alloc, text)?;
    Ok(Some(copy))
}

/// The text of a store that can be written. The only error is out of memory, and there is no memory for more than 2^32 - 1 octets.
fn text_of(alloc: Global, store: &PFX) -> Result<Octets, AllocError>
    requires { WritableStore store.now }
    ensures { IfOk result (λ der. der ≡ store_canon store.now) }
{
    match store.to_der(alloc) {
        Ok(der) => Ok(der),
        Err(Error::Memory | Error::TooLong) => Err(AllocError),
        Err(Error::Malformed | Error::Invalid | Error::Rng) => unreachable!(),
    }
}

/// The text of a store with its list of contents in DER. None where it lists none. The only error is out of memory.
fn whole_in_der(alloc: Global, store: PFX) -> Result<Option<Octets>, AllocError>
    requires { writable_option WritableMac store.mac_data }
    ensures some { IfOk result (λ m. IfSome m (IsWholeInDer store)) }
    ensures none { IfOk result (λ m. IfNone m (ListsNothing store)) }
{
    let ContentInfo::Data(text) = &store.auth_safe else {
        return Ok(None);
    };
    let found = safe_in_der(alloc, text.as_slice())?;
    let Some(safe) = found else {
        return Ok(None);
    };
    let shown = PFX {
        version: store.version,
        auth_safe: ContentInfo::Data(safe),
        mac_data: store.mac_data,
    };
    let der = text_of(alloc, &shown)?;
    Ok(Some(der))
}

/// Whether this is the DER text of a store that lists its contents in DER, or that has no list of them. This takes no memory.
fn stays_as_it_is(store: &[u8]) -> bool
    ensures yes { result ≡ true → StaysAsItIs store.now }
    ensures no { result ≡ false → ¬ IsInDer store.now }
{
    match StoreView::parse(store) {
        Ok(view) => match view.auth_safe {
            ContentView::Plain { content, .. } => ContentsView::parse(content).is_ok(),
            ContentView::Encrypted { .. } => true,
            ContentView::Other { .. } => true,
        },
        Err(_) => false,
    }
}

/// The text in DER of a store that is in BER, or whose list of contents is: that of the same store, with this list in DER and the encrypted
/// octets of each content in one. It is for looking at, with p12's views, and not for opening: the MAC is over the list as it was.
///
/// None exactly where the store and its list of contents are in DER already, and where the octets are no store that lists contents. The only
/// error is out of memory, which comes too where the text would have more than 2^32 - 1 octets.
pub fn store_in_der(alloc: Global, store: &[u8]) -> Result<Option<Octets>, AllocError>
    ensures some { IfOk result (λ m. IfSome m (IsStoreInDer store.now)) }
    ensures none { IfOk result (λ m. IsNone m ↔ StaysAsItIs store.now) }
{
    if stays_as_it_is(store) {
        return Ok(None);
    }
    let found = found_store(alloc, store)?;
    match found {
        Some(read) => whole_in_der(alloc, read),
        None => Ok(None),
    }
}
