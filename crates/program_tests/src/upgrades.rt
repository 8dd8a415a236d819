//! How many rounds an upgrade may take.
ghost use Rattle.std.specs.Prelude.{◌≡◌, ◌<◌};

use crate::stores::PUBLISHED;
use octet_core::{DrawnBytes, Octets};
use rekey_core::{Renewal, Rounds, upgrade};
use std::alloc::Global;
use std::marker::Brand;
use std::sync::ledger::{Blank, Ledger};
use steps::Steps;
use transfer::{TransferError, open_store};

/// What is drawn for an encrypted content and an encrypted key, 32 octets each, and for the MAC.
const DRAWN: [u8; 80] = [7; 80];

/// The store under another password, and the rounds that are asked for.
fn upgraded_counted<L: Ledger>(
    alloc: Global,
    store: &[u8],
    renewal: Renewal,
    blank: Blank,
) -> Result<Octets, TransferError>
    requires name { blank.name ≡ L.name }
    requires parts { blank.parts ≡ L.parts }
    requires some { 0 < blank.parts }
{
    let mut draw = DrawnBytes::new(Octets::from_slice(alloc, &DRAWN)?);
    let mut steps = Steps::<L>::open(blank);
    upgrade(
        alloc, store, "changeit", "newpass", renewal, &mut draw, 14336, &mut steps,
    )
}

/// The published store under five rounds, where sealing may take so many in all.
fn upgraded(alloc: Global, seal_limit: u64) -> Result<Octets, TransferError> {
    let Some(rounds) = Rounds::new(5) else {
        return Err(TransferError::ZeroIterations);
    };
    let renewal = Renewal { rounds, seal_limit };
    match hex::decode(alloc, PUBLISHED) {
        Ok(store) => upgraded_counted::<Brand>(alloc, store.as_slice(), renewal, Blank::new(1)),
        Err(_) => Err(TransferError::Memory),
    }
}

/// Why the store does not open under its new password by so many steps.
fn refusal_counted<L: Ledger>(
    alloc: Global,
    store: &[u8],
    limit: u64,
    blank: Blank,
) -> Option<TransferError>
    requires name { blank.name ≡ L.name }
    requires parts { blank.parts ≡ L.parts }
    requires some { 0 < blank.parts }
{
    let mut steps = Steps::<L>::open(blank);
    open_store(alloc, store, "newpass", limit, &mut steps).err()
}

/// The same with a counter of its own.
fn refusal_of(alloc: Global, store: &Octets, limit: u64) -> Option<TransferError> {
    refusal_counted::<Brand>(alloc, store.as_slice(), limit, Blank::new(1))
}

// The store has one encrypted content and one encrypted key, so with the MAC three times the rounds.
#[test]
fn sealing_takes_the_rounds_of_each_part_and_of_the_mac(rt: HostRuntime) {
    let alloc = rt.alloc();
    let store = upgraded(alloc, 15).expect(&rt, "a store");
    assert!(rt; refusal_of(alloc, &store, 15).is_none());
    assert!(rt; refusal_of(alloc, &store, 14) == Some(TransferError::WorkLimit));
}

#[test]
fn an_upgrade_of_more_rounds_than_it_may_take_is_refused(rt: HostRuntime) {
    let refused = match upgraded(rt.alloc(), 14) {
        Ok(_) => false,
        Err(e) => e == TransferError::WorkLimit,
    };
    assert!(rt; refused);
}
