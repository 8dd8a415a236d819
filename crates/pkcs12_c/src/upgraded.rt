//! The change of a store to the algorithms of today over random octets that are given, with a step counter of its own.
ghost use Rattle.std.specs.Prelude.{◌≡◌, ◌<◌, ◌^◌, length, IfOk, IfErr, Some, None};
ghost use Rattle.store_renewal.specs.Renewals.{IsOldSettled};
ghost use Rattle.transfer.specs.Opening.{FirstCause};
ghost use Rattle.pkcs12_c.specs.Changed.{IsRefusedUpgrade, UpgradesDrawn, renewal};

use crate::password::Password;
use asn1_core::Octets;
use mac_modes::DrawnBytes;
use rekey_core::{Renewal, Rounds};
use std::alloc::Global;
use std::marker::Brand;
use std::sync::ledger::{Blank, Ledger};
use steps::Steps;
use store_renewal::laws::renewed_stores_open;
use store_renewal::upgrade_any;
use transfer::TransferError;

/// The change with a step counter of its own.
fn upgraded_from<L: Ledger>(
    alloc: Global,
    store: &[u8],
    password: &Password<'_>,
    new_password: &Password<'_>,
    rounds: Rounds,
    limit: u64,
    random: &[u8],
    blank: Blank,
) -> Result<Octets, TransferError>
    requires name { blank.name ≡ L.name }
    requires parts { blank.parts ≡ L.parts }
    requires some { 0 < blank.parts }
    requires password { length password.now.text.now < 2 ^ 56 }
    requires new_password { length new_password.now.text.now < 2 ^ 56 }
    ensures upgraded { IfOk result (UpgradesDrawn rounds store.now password.now.text.now
        new_password.now.text.now limit random.now) }
    ensures reopens { IfOk result (λ c. FirstCause c new_password.now.text.now limit None) }
    ensures refused { IfErr result (IsRefusedUpgrade rounds store.now password.now.text.now limit
        random.now) }
    ensures exact { IsOldSettled (renewal rounds limit) store.now password.now.text.now limit
        (Some random.now) result }
{
    renewed_stores_open();
    let octets = Octets::from_slice(alloc, random)?;
    let mut draw = DrawnBytes::new(octets);
    let mut steps = Steps::<L>::open(blank);
    upgrade_any(
        alloc,
        store,
        password.text,
        new_password.text,
        Renewal {
            rounds,
            seal_limit: limit,
        },
        &mut draw,
        limit,
        &mut steps,
    )
}

/// The store, which may be an old one, under another password, each part and the MAC sealed anew in so many rounds with these random octets. `limit` is
/// that of opening the store, and of opening what is made of it.
///
/// Caller: both passwords have fewer than 2^56 octets.
pub fn upgraded(
    alloc: Global,
    store: &[u8],
    password: &Password<'_>,
    new_password: &Password<'_>,
    rounds: Rounds,
    limit: u64,
    random: &[u8],
) -> Result<Octets, TransferError>
    requires password { length password.now.text.now < 2 ^ 56 }
    requires new_password { length new_password.now.text.now < 2 ^ 56 }
    ensures upgraded { IfOk result (UpgradesDrawn rounds store.now password.now.text.now
        new_password.now.text.now limit random.now) }
    ensures reopens { IfOk result (λ c. FirstCause c new_password.now.text.now limit None) }
    ensures refused { IfErr result (IsRefusedUpgrade rounds store.now password.now.text.now limit
        random.now) }
    ensures exact { IsOldSettled (renewal rounds limit) store.now password.now.text.now limit
        (Some random.now) result }
{
    upgraded_from::<Brand>(
        alloc,
        store,
        password,
        new_password,
        rounds,
        limit,
        random,
        Blank::new(1),
    )
}
