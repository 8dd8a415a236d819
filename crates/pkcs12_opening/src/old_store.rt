//! What was old in a store that is opened.
use crate::given::Given;
use crate::opening::AnyStore;
use asn1_core::Octets;
use legacy_store::store_in_der;
use pkcs12_inspection::{Algorithms, is_without_password, steps_of_mac};
use std::alloc::{AllocError, Global};

/// The octets in which a store is looked at: its text in DER where it is in BER, and else its own.
pub(crate) fn looked_at<'a>(in_der: &'a Option<Octets>, store: &'a [u8]) -> &'a [u8] {
    match in_der {
        Some(der) => der.as_slice(),
        None => store,
    }
}

/// The steps of testing the MAC of a store, in BER too; 0 where there is no store, no MAC or no memory.
pub(crate) fn mac_steps(alloc: Global, store: &[u8]) -> u64 {
    match store_in_der(alloc, store) {
        Ok(in_der) => steps_of_mac(looked_at(&in_der, store)),
        Err(_) => 0,
    }
}

/// Whether a store was opened as one that was made with no password at all.
fn has_no_password(alloc: Global, given: &Given, opened: &AnyStore) -> Result<bool, AllocError> {
    if !opened.is_old || !given.password.as_str().is_empty() {
        return Ok(false);
    }
    is_without_password(alloc, given.store.as_slice())
}

/// The algorithms that an opened store was made with, and what of it is old.
pub fn algorithms_of(
    alloc: Global,
    given: &Given,
    opened: &AnyStore,
) -> Result<Algorithms, AllocError> {
    let store = given.store.as_slice();
    let in_der = store_in_der(alloc, store)?;
    let mut found = Algorithms::of(alloc, looked_at(&in_der, store))?;
    for index in 0..opened.safe.number_of_contents() {
        found.add_bags(alloc, opened.safe.bags(index))?;
    }
    let no_password = has_no_password(alloc, given, opened)?;
    found.note_store(in_der.is_some(), no_password);
    Ok(found)
}

/// Says on the standard error what of an opened store is old, a line for each kind of thing; nothing of a store of today. The only error is
/// out of memory.
pub fn tell_old_parts<R: Eprint + AllocGlobal>(
    rt: &R,
    given: &Given,
    opened: &AnyStore,
) -> Result<(), AllocError> {
    if !opened.is_old {
        return Ok(());
    }
    let algorithms = algorithms_of(rt.alloc(), given, opened)?;
    let text = algorithms.old_lines(rt.alloc())?;
    // The store is opened: that nobody hears of it is no failure.
    match rt.eprint(text.as_str()) {
        Ok(()) | Err(_) => Ok(()),
    }
}
