//! Changes of a store's password, one after the other.
ghost use Rattle.std.specs.Prelude.{◌≡◌, ◌≤◌, ◌<◌, ◌^◌, ◌+◌, ◌*◌, ◌-◌, All, List, ℕ, length, IfOk, IfErr, OnOk};
ghost use Rattle.std.specs.Result.{IsErrOf};
ghost use Rattle.rekey_core.specs.Changes.{FirstRefusal, RekeysAll, SettledAll};
ghost use Rattle.rekey_core.specs.Rekeyed.{IsUndrawn};

use crate::password_change::rekey;
use asn1_core::{Items, Octets, Text};
use mac_modes::Draw;
use std::alloc::Global;
use std::sync::ledger::Ledger;
use steps::Steps;
use transfer::TransferError;

/// Changes the password of a store from the first of `passwords` to the second, from that to the
/// third, and so on, and returns the text of the last changed store.
///
/// `limit` is the most steps of opening a store in each change by itself: a change has all of it, whatever those
/// before it took. `steps` then counts the openings of all changes, so it rises by at most `limit` for each. `draw`
/// gives the octets of each change when its turn comes, as `rekey` says: 8 for each part under Triple DES, 32 for each
/// under PBES2 and 8 for the MAC, as many in every change (`laws::changes_are_alike`).
///
/// The error is that of the first change that has one, as `rekey` returns it. The steps of the changes before it stay
/// counted, and what they drew is gone from `draw`.
///
/// Caller: at least two passwords, of fewer than 2^57 octets each.
#[tactic(auto, using(crate::proofs::Listing::memory_first))]
pub fn rekey_all<D: Draw, L: Ledger>(
    alloc: Global,
    store: &[u8],
    passwords: &Items<Text>,
    draw: &mut D,
    limit: u64,
    steps: &mut Steps<L>,
) -> Result<Octets, TransferError>
    requires two { 2 ≤ length passwords.now }
    requires short { All (λ password. length password < 2 ^ 57) passwords.now }
    ensures changed { IfOk result (RekeysAll store.now passwords.now limit (D.left draw.old)
        (D.left draw.new) steps.old steps.new) }
    ensures refused { IfErr result (FirstRefusal store.now passwords.now limit (D.left draw.old)
        (D.left draw.new) (D.faults draw.old) (D.faults draw.new) steps.old steps.new) }
    ensures exact { SettledAll store.now passwords.now limit (D.left draw.old) result }
    ensures undrawn { IfErr result (λ e. IsUndrawn e → draw.new ≡ draw.old) }
    ensures count { D.faults draw.old ≤ D.faults draw.new }
    ensures no_fault { OnOk result (D.faults draw.new ≡ D.faults draw.old) }
    ensures last { D.faults draw.old < D.faults draw.new → IsErrOf result TransferError.Rng }
    ensures at_most { (steps.old ≤ steps.new) × (steps.new
        ≤ steps.old + limit * (length passwords.now - 1)) }
{
    let Ok(mut changed) = Octets::from_slice(alloc, store) else {
        return Err(TransferError::Memory);
    };
    let Some((first, others)) = passwords.as_slice().split_first() else {
        unreachable!()
    };
    let mut old = first;
    for password in others {
        // The proofs name both outcomes of this call.
        match rekey(
            alloc,
            changed.as_slice(),
            old.as_str(),
            password.as_str(),
            draw,
            limit,
            steps,
        ) {
            Ok(other) => changed = other,
            Err(e) => return Err(e),
        }
        old = password;
    }
    Ok(changed)
}
