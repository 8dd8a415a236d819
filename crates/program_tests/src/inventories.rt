//! Inventories without a program around them.
ghost use Rattle.std.specs.Prelude.{◌≡◌, ◌<◌};

use crate::stores::{ISSUED, PUBLISHED};
use inventory_core::inventory;
use octet_core::Text;
use std::alloc::Global;
use std::marker::Brand;
use std::sync::ledger::{Blank, Ledger};
use steps::Steps;
use transfer::TransferError;

/// The inventory of a store under the password `changeit`.
fn inventory_counted<L: Ledger>(
    alloc: Global,
    store: &[u8],
    limit: u64,
    blank: Blank,
) -> Result<Text, TransferError>
    requires name { blank.name ≡ L.name }
    requires parts { blank.parts ≡ L.parts }
    requires some { 0 < blank.parts }
{
    let mut steps = Steps::<L>::open(blank);
    inventory(alloc, store, "changeit", limit, &mut steps)
}

/// The same of the octets that digits spell, with a counter of its own.
fn inventory_of(alloc: Global, digits: &str, limit: u64) -> Result<Text, TransferError> {
    match hex::decode(alloc, digits) {
        Ok(store) => { inventory_counted::<Brand>(alloc, store.as_slice(), limit, Blank::new(1)) }
        Err(_) => Err(TransferError::Memory),
    }
}

/// Whether the inventory is this text.
fn is_text(answer: Result<Text, TransferError>, text: &str) -> bool {
    match answer {
        Ok(found) => found.as_str() == text,
        Err(_) => false,
    }
}

#[test]
fn what_a_store_holds_is_listed(rt: HostRuntime) {
    let answer = inventory_of(rt.alloc(), PUBLISHED, 14336);
    assert!(rt; is_text(answer, "cert 0 - -\ncert 1 - -\ncert 2 - -\nkey 0 0\n"));
}

#[test]
fn a_store_over_the_limit_is_refused(rt: HostRuntime) {
    let refused = match inventory_of(rt.alloc(), ISSUED, 14335) {
        Ok(_) => false,
        Err(e) => e == TransferError::WorkLimit,
    };
    assert!(rt; refused);
}
