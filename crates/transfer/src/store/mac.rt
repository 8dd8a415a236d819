//! The MAC of a store.
ghost use Rattle.std.specs.Prelude.{◌≡◌, ◌+◌, ◌≤◌, ◌<◌, ◌^◌, ℕ, length, IfOk, IfErr, OnOk};
ghost use Rattle.p12.specs.AlgorithmView.{seen_algorithm};
ghost use Rattle.p12.specs.MacData.{is_mac_digest, mac_agrees, mac_steps};
ghost use Rattle.p12.specs.MacView.{seen_mac};
ghost use Rattle.pkcs12_kdf.specs.Password.{bmp_password};
ghost use Rattle.transfer.specs.Limits.{store_limit};
ghost use Rattle.transfer.specs.Opening.{MacTable, RefusedAfter, refused};
ghost use Rattle.transfer.specs.Verdicts.{IsMacOk};

use crate::store::budget::Budget;
use crate::store::error::TransferError;
use p12::{AlgorithmView, MacView};
use std::alloc::{AllocError, Global};
use std::sync::ledger::Ledger;
use steps::Steps;

/// Whether a MAC under this digest can be tested.
fn is_mac_digest(algorithm: &AlgorithmView<'_>) -> bool
    ensures { result ≡ is_mac_digest (seen_algorithm algorithm.now) }
{
    matches!(algorithm, AlgorithmView::Sha1 | AlgorithmView::Sha256)
}

/// Whether the MAC of the text agrees under the password. The only error is out of memory.
fn verify_mac<L: Ledger>(
    alloc: Global,
    mac: &MacView<'_>,
    text: &[u8],
    password: &str,
    steps: &mut Steps<L>,
) -> Result<bool, AllocError>
    requires text { length text.now ≤ store_limit }
    requires salt { length mac.now.salt.now ≤ store_limit }
    requires password { length password.now < 2 ^ 57 }
    ensures value { IfOk result (λ agrees. agrees
        ≡ mac_agrees (seen_mac mac.now) (bmp_password password.now) text.now) }
    ensures steps { OnOk result (steps.new ≡ steps.old + mac_steps (seen_mac mac.now)) }
    ensures at_most { (steps.old ≤ steps.new)
        × (steps.new ≤ steps.old + mac_steps (seen_mac mac.now)) }
{
    match mac.verify_counted(alloc, text, password, steps) {
        Ok(agrees) => Ok(agrees),
        Err(_) => Err(AllocError),
    }
}

/// Tests the MAC of the outer text under the password, and returns the budget after its share, which is its count.
pub(crate) fn check_mac<L: Ledger>(
    alloc: Global,
    mac: &MacView<'_>,
    text: &[u8],
    password: &str,
    limit: u64,
    steps: &mut Steps<L>,
) -> Result<Budget, TransferError>
    requires text { length text.now ≤ store_limit }
    requires salt { length mac.now.salt.now ≤ store_limit }
    requires password { length password.now < 2 ^ 57 }
    ensures passed { IfOk result (λ budget. IsMacOk password.now text.now (seen_mac mac.now)
        × (budget.limit ≡ limit) × (budget.spent ≡ mac.now.iterations)
        × (steps.new ≡ steps.old + mac.now.iterations)) }
    ensures refused { IfErr result (RefusedAfter
        (λ e n. MacTable password.now limit text.now (seen_mac mac.now) (refused e) n) steps.old
        steps.new) }
    ensures at_most { (steps.old ≤ steps.new) × (steps.new ≤ steps.old + limit) }
{
    if !is_mac_digest(&mac.algorithm) {
        return Err(TransferError::MacUnsupported);
    }
    if mac.iterations == 0 {
        return Err(TransferError::ZeroIterations);
    }
    let mut budget = Budget::new(limit);
    budget.share(u128::from(mac.iterations))?;
    if !verify_mac(alloc, mac, text, password, steps)? {
        return Err(TransferError::MacMismatch);
    }
    Ok(budget)
}
