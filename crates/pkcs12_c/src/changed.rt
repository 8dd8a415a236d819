//! The change of a store's password over random octets that are given, with a step counter of its
//! own.
ghost use Rattle.std.specs.Prelude.{◌≡◌, ◌<◌, ◌^◌, length, IfOk, IfErr, Some};
ghost use Rattle.rekey_core.specs.Rekeyed.{IsSettled};
ghost use Rattle.pkcs12_c.specs.Changed.{ChangesDrawn, IsRefusedChange};

use crate::password::Password;
use asn1_core::Octets;
use mac_modes::DrawnBytes;
use rekey_core::rekey;
use std::alloc::Global;
use std::marker::Brand;
use std::sync::ledger::{Blank, Ledger};
use steps::Steps;
use transfer::TransferError;

/// The change of the password with a step counter of its own.
fn changed_from<L: Ledger>(
    alloc: Global,
    store: &[u8],
    password: &Password<'_>,
    new_password: &Password<'_>,
    limit: u64,
    random: &[u8],
    blank: Blank,
) -> Result<Octets, TransferError>
    requires name { blank.name ≡ L.name }
    requires parts { blank.parts ≡ L.parts }
    requires some { 0 < blank.parts }
    requires password { length password.now.text.now < 2 ^ 56 }
    requires new_password { length new_password.now.text.now < 2 ^ 56 }
    ensures changed { IfOk result (ChangesDrawn store.now password.now.text.now
        new_password.now.text.now limit random.now) }
    ensures refused { IfErr result
        (IsRefusedChange store.now password.now.text.now limit random.now) }
    ensures exact { IsSettled store.now password.now.text.now limit (Some random.now) result }
{
    let octets = Octets::from_slice(alloc, random)?;
    let mut draw = DrawnBytes::new(octets);
    let mut steps = Steps::<L>::open(blank);
    rekey(
        alloc,
        store,
        password.text,
        new_password.text,
        &mut draw,
        limit,
        &mut steps,
    )
}

/// The store under another password, sealed anew with these random octets.
///
/// Caller: both passwords have fewer than 2^56 octets.
pub fn changed(
    alloc: Global,
    store: &[u8],
    password: &Password<'_>,
    new_password: &Password<'_>,
    limit: u64,
    random: &[u8],
) -> Result<Octets, TransferError>
    requires password { length password.now.text.now < 2 ^ 56 }
    requires new_password { length new_password.now.text.now < 2 ^ 56 }
    ensures changed { IfOk result (ChangesDrawn store.now password.now.text.now
        new_password.now.text.now limit random.now) }
    ensures refused { IfErr result
        (IsRefusedChange store.now password.now.text.now limit random.now) }
    ensures exact { IsSettled store.now password.now.text.now limit (Some random.now) result }
{
    changed_from::<Brand>(
        alloc,
        store,
        password,
        new_password,
        limit,
        random,
        Blank::new(1),
    )
}
