//! The table of what a store holds, with a step counter of its own.
ghost use Rattle.std.specs.Prelude.{◌≡◌, ◌<◌, ◌^◌, List, ℕ, length, IfOk, IfErr};
ghost use Rattle.inventory_core.specs.Sheet.{IsListed};
ghost use Rattle.legacy_store.specs.Verdicts.{IsDecidedUnder};
ghost use Rattle.legacy_store.specs.declared.mac_rule.MacRule.TheVariants.{Required};
ghost use Rattle.pkcs12_c.specs.Listed.{ListsWithin};
ghost use Rattle.pkcs12_c.specs.Opened.{IsRefusedAny};

use crate::password::Password;
use inventory_core::{Listed, opened_inventory};
use legacy_store::{MacRule, open_legacy_safe};
use std::alloc::Global;
use std::marker::Brand;
use std::sync::ledger::{Blank, Ledger};
use steps::Steps;
use transfer::TransferError;

/// The list with a step counter of its own.
fn listed_from<L: Ledger>(
    alloc: Global,
    store: &[u8],
    password: &Password<'_>,
    limit: u64,
    room: usize,
    blank: Blank,
) -> Result<Listed, TransferError>
    requires name { blank.name ≡ L.name }
    requires parts { blank.parts ≡ L.parts }
    requires some { 0 < blank.parts }
    requires password { length password.now.text.now < 2 ^ 56 }
    ensures listed { IfOk result (λ l. (text : List ℕ)
        × ListsWithin store.now password.now.text.now limit text × IsListed room text l) }
    ensures refused { IfErr result (IsRefusedAny store.now password.now.text.now limit) }
    ensures exact { IsDecidedUnder Required store.now password.now.text.now limit result }
{
    let mut steps = Steps::<L>::open(blank);
    let rule = MacRule::Required;
    // The proofs name both outcomes of this call.
    let opened = match open_legacy_safe(alloc, store, password.text, rule, limit, &mut steps) {
        Ok(opened) => opened,
        Err(refusal) => return Err(refusal),
    };
    match opened_inventory(alloc, &opened, room) {
        Ok(table) => Ok(table),
        Err(_) => Err(TransferError::Memory),
    }
}

/// The table of what the store holds, which may be an old one, a line for each certificate and for each encrypted private key; its size alone where it has
/// more octets than the room.
///
/// Caller: the password has fewer than 2^56 octets.
pub fn listed(
    alloc: Global,
    store: &[u8],
    password: &Password<'_>,
    limit: u64,
    room: usize,
) -> Result<Listed, TransferError>
    requires password { length password.now.text.now < 2 ^ 56 }
    ensures listed { IfOk result (λ l. (text : List ℕ)
        × ListsWithin store.now password.now.text.now limit text × IsListed room text l) }
    ensures refused { IfErr result (IsRefusedAny store.now password.now.text.now limit) }
    ensures exact { IsDecidedUnder Required store.now password.now.text.now limit result }
{
    listed_from::<Brand>(alloc, store, password, limit, room, Blank::new(1))
}
