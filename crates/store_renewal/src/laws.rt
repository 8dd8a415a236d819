//! A law of upgrades, stated by the contract of a function that does nothing.
ghost use Rattle.store_renewal.specs.Renewals.{RenewedStoresOpen};

/// The store that an upgrade of an old store makes opens under the new password to the same keys and certificates and to bags that are
/// kept, by as many steps as sealing it took rounds.
pub fn renewed_stores_open()
    ensures { RenewedStoresOpen }
{
    rekey_core::laws::renewed_texts_open();
}
