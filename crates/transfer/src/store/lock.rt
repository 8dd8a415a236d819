//! Locked texts, which are opened where they lie.
ghost use Rattle.std.specs.Prelude.{◌≡◌, ◌+◌, ◌≤◌, ◌<◌, ◌^◌, length, take, Some, IfOk, IfErr};
ghost use Rattle.p12.specs.AlgorithmIdentifier.{cost, count, openable, salt_of, taken, unlock};
ghost use Rattle.p12.specs.AlgorithmView.{seen_algorithm};
ghost use Rattle.p12.specs.Place.{at_place};
ghost use Rattle.transfer.specs.Budget.{Spends, TakesWithin};
ghost use Rattle.transfer.specs.InPlace.{Kept};
ghost use Rattle.transfer.specs.Limits.{store_limit};
ghost use Rattle.transfer.specs.Opening.{LockFault, RefusedAfter};

use crate::store::budget::Budget;
use crate::store::error::TransferError;
use p12::{AlgorithmView, Place};
use std::alloc::Global;
use std::sync::ledger::Ledger;
use steps::Steps;

/// Opens a locked text in place, by its share of the budget, and returns the length of the plain octets, which then are in
/// its front.
pub(crate) fn open_front<L: Ledger>(
    alloc: Global,
    algorithm: &AlgorithmView<'_>,
    text: &mut [u8],
    password: &str,
    budget: &mut Budget,
    steps: &mut Steps<L>,
) -> Result<usize, TransferError>
    requires text { length text.old < 2 ^ 32 }
    requires salt { length (salt_of (seen_algorithm algorithm.now)) < 2 ^ 59 }
    requires password { length password.now < 2 ^ 57 }
    ensures opened { IfOk result (λ len. (len ≤ length text.new)
        × (unlock (seen_algorithm algorithm.now) password.now text.old ≡ Some (take len text.new))
        × Spends budget.old budget.new (cost (seen_algorithm algorithm.now))
        × (steps.new ≡ steps.old + cost (seen_algorithm algorithm.now))) }
    ensures refused { IfErr result (RefusedAfter
        (LockFault password.now budget.old.limit budget.old.spent (seen_algorithm algorithm.now)
        text.old (λ _ _ _. ⊥)) steps.old steps.new) }
    ensures at_most { TakesWithin budget.old steps.old steps.new }
{
    if !algorithm.is_openable() {
        return Err(TransferError::Unsupported);
    }
    if algorithm.count() == 0 {
        return Err(TransferError::ZeroIterations);
    }
    budget.share(algorithm.cost())?;
    match algorithm.decrypt_in_place_counted(alloc, password, text, steps) {
        Ok(Some(len)) => Ok(len),
        Ok(None) => Err(TransferError::DecryptFailed),
        Err(_) => Err(TransferError::Memory),
    }
}

/// Opens a locked text at a place of a longer one, which stays as it is elsewhere, and returns where the plain octets are.
pub(crate) fn open_lock<L: Ledger>(
    alloc: Global,
    algorithm: &AlgorithmView<'_>,
    at: Place,
    text: &mut [u8],
    password: &str,
    budget: &mut Budget,
    steps: &mut Steps<L>,
) -> Result<Place, TransferError>
    requires room { at.start + at.len ≤ length text.old }
    requires text { length text.old ≤ store_limit }
    requires salt { length (salt_of (seen_algorithm algorithm.now)) < 2 ^ 59 }
    requires password { length password.now < 2 ^ 57 }
    ensures opened { IfOk result (λ plain. (plain.start ≡ at.start) × (plain.len ≤ at.len)
        × (unlock (seen_algorithm algorithm.now) password.now (at_place at text.old)
        ≡ Some (at_place plain text.new))
        × Spends budget.old budget.new (cost (seen_algorithm algorithm.now))
        × (steps.new ≡ steps.old + cost (seen_algorithm algorithm.now))) }
    ensures refused { IfErr result (RefusedAfter
        (LockFault password.now budget.old.limit budget.old.spent (seen_algorithm algorithm.now)
        (at_place at text.old) (λ _ _ _. ⊥)) steps.old steps.new) }
    ensures kept { Kept at.start (at.start + at.len) text.old text.new }
    ensures at_most { TakesWithin budget.old steps.old steps.new }
{
    let start = at.start;
    let end = start + at.len;
    let part = &mut text[start..end];
    let len = open_front(alloc, algorithm, part, password, budget, steps)?;
    Ok(Place { start, len })
}
