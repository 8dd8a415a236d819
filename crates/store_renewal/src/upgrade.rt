//! The upgrade of a store that `legacy_store` opens.
ghost use Rattle.std.specs.Prelude.{◌≡◌, ◌≤◌, ◌<◌, ◌^◌, ◌+◌, length, IfOk, IfErr, OnOk};
ghost use Rattle.std.specs.Result.{IsErrOf};
ghost use Rattle.rekey_core.specs.Rekeyed.{IsUndrawn};
ghost use Rattle.rekey_core.specs.Upgraded.{UpgradeRefusedFor};
ghost use Rattle.store_renewal.specs.Renewals.{IsOldRefused, IsOldSettled, OldGrowsTooLong, OldRunsShort, OldSealsTooLong, RenewsOld};

use crate::parts::parts_of;
use asn1_core::Octets;
use legacy_store::{MacRule, open_legacy};
use mac_modes::Draw;
use rekey_core::laws::made_stores_are_sized;
use rekey_core::{Renewal, renewed_store};
use std::alloc::Global;
use std::sync::ledger::Ledger;
use steps::Steps;
use transfer::TransferError;

/// Makes a new PKCS#12 store (RFC 7292) of a store with a MAC, under another password and under today's algorithms, and returns its DER
/// text, in the canonical encoding. It takes each store that `legacy_store::open_legacy` opens: those that `rekey_core::upgrade` takes,
/// and beside them old ones.
///
/// The bags, keys, certificates and attributes are kept. Each part that was encrypted is under PBES2 with PBKDF2 over HMAC-SHA-256 and
/// AES-256-CBC, and the MAC is of HMAC-SHA-256, all in `renewal.rounds`. `draw` gives 32 octets for each encrypted part (the IV, then the
/// salt) and 16 for the MAC, in the order that `rekey_core::rekey` says. A content that is not encrypted stays so.
///
/// `limit` is the most steps of opening the store, and `steps` counts them, as in `open_legacy`; sealing is not counted. The errors are
/// those of `open_legacy`, where a store without a MAC is `MacMissing`; then `WorkLimit` where sealing would take more rounds than
/// `renewal.seal_limit`, then `Rng` where the draw fails, then `TooLong` where the text would have more than 16,777,215 octets. `Memory`
/// may come at any point. On each error but `Rng`, `TooLong` and `Memory` nothing was drawn.
///
/// Caller: the old password has fewer than 2^56 octets, and the new one fewer than 2^57.
pub fn upgrade_any<D: Draw, L: Ledger>(
    alloc: Global,
    store: &[u8],
    old: &str,
    new: &str,
    renewal: Renewal,
    draw: &mut D,
    limit: u64,
    steps: &mut Steps<L>,
) -> Result<Octets, TransferError>
    requires old { length old.now < 2 ^ 56 }
    requires new { length new.now < 2 ^ 57 }
    ensures changed { IfOk result (RenewsOld renewal store.now old.now new.now limit
        (D.left draw.old) (D.left draw.new) steps.old steps.new) }
    ensures refused { IfErr result
        (UpgradeRefusedFor (IsOldRefused store.now old.now limit steps.old steps.new)
        (OldSealsTooLong renewal store.now old.now limit steps.old steps.new)
        (OldRunsShort renewal store.now old.now limit (D.left draw.old)
        (D.faults draw.old) (D.faults draw.new) steps.old steps.new)
        (OldGrowsTooLong renewal store.now old.now limit (D.left draw.old)
        (D.left draw.new) steps.old steps.new)) }
    ensures exact { IsOldSettled renewal store.now old.now limit (D.left draw.old) result }
    ensures undrawn { IfErr result (λ e. IsUndrawn e → draw.new ≡ draw.old) }
    ensures count { D.faults draw.old ≤ D.faults draw.new }
    ensures no_fault { OnOk result (D.faults draw.new ≡ D.faults draw.old) }
    ensures last { D.faults draw.old < D.faults draw.new → IsErrOf result TransferError.Rng }
    ensures at_most { (steps.old ≤ steps.new) × (steps.new ≤ steps.old + limit) }
{
    // The proofs name both outcomes of the calls here.
    let opened = match open_legacy(alloc, store, old, MacRule::Required, limit, steps) {
        Ok(opened) => opened,
        Err(e) => return Err(e),
    };
    let parts = match parts_of(alloc, store) {
        Ok(parts) => parts,
        Err(e) => return Err(e),
    };
    let contents = parts.contents.as_slice();
    // How long the text is.
    made_stores_are_sized();
    match renewed_store(alloc, renewal, parts.version, contents, &opened, new, draw) {
        Ok(text) => Ok(text),
        Err(e) => Err(e),
    }
}
