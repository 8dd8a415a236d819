//! Opening the encrypted keys among bags, after all contents, each in a copy of its octets.
ghost use Rattle.std.specs.Prelude.{◌≡◌, ◌+◌, ◌≤◌, ◌<◌, ◌^◌, All, length, IfOk, IfErr, OnOk};
ghost use Rattle.std.specs.List.{sum_by};
ghost use Rattle.p12.specs.AlgorithmIdentifier.{salt_of};
ghost use Rattle.p12.specs.AlgorithmView.{seen_algorithm};
ghost use Rattle.p12.specs.SafeBag.{BagFits};
ghost use Rattle.transfer.specs.Budget.{Spends, TakesWithin};
ghost use Rattle.transfer.specs.Limits.{store_limit};
ghost use Rattle.transfer.specs.OpenedSafe.{ListsAt, contents_at};
ghost use Rattle.transfer.specs.Opening.{IsKeyText, IsStoredKey, KeyFault, KeyOpens, NoKeyText, RefusedAfter, all_shrouded, key_share, key_with, of_keys, shrouded_among};
ghost use Rattle.transfer.specs.Parts.{AreOpen, IsFirstFault, OpensMore};

use crate::store::bags::bags_at;
use crate::store::budget::Budget;
use crate::store::error::TransferError;
use crate::store::key_text::opened_key;
use crate::store::lock::open_front;
use asn1_core::{Items, Octets};
use p12::{AlgorithmView, BagView, BagsView, Place};
use std::alloc::Global;
use std::sync::ledger::Ledger;
use steps::Steps;

/// That a text is that of a private key.
fn check_key(text: &[u8]) -> Result<(), TransferError>
    requires { length text.now ≤ store_limit }
    ensures ok { OnOk result (IsKeyText text.now) }
    ensures err { IfErr result (λ e. (e ≡ TransferError.KeyMalformed) × NoKeyText text.now) }
{
    match opened_key(text) {
        Some(_) => Ok(()),
        None => Err(TransferError::KeyMalformed),
    }
}

/// Opens an encrypted key in a copy of its octets, and returns the text of the private key that it is.
fn open_copy<L: Ledger>(
    alloc: Global,
    algorithm: &AlgorithmView<'_>,
    content: &[u8],
    password: &str,
    budget: &mut Budget,
    steps: &mut Steps<L>,
) -> Result<Octets, TransferError>
    requires text { length content.now ≤ store_limit }
    requires salt { length (salt_of (seen_algorithm algorithm.now)) < 2 ^ 59 }
    requires password { length password.now < 2 ^ 57 }
    ensures opened { IfOk result (λ text.
        KeyOpens password.now (key_with (seen_algorithm algorithm.now) content.now) text
        × Spends budget.old budget.new
        (key_share (key_with (seen_algorithm algorithm.now) content.now))
        × (steps.new ≡ steps.old
        + key_share (key_with (seen_algorithm algorithm.now) content.now))) }
    ensures stored { IfOk result IsStoredKey }
    ensures refused { IfErr result (RefusedAfter
        (KeyFault password.now budget.old.limit budget.old.spent
        (key_with (seen_algorithm algorithm.now) content.now)) steps.old steps.new) }
    ensures at_most { TakesWithin budget.old steps.old steps.new }
{
    let mut text = Octets::from_slice(alloc, content)?;
    let len = open_front(
        alloc,
        algorithm,
        text.as_mut_slice(),
        password,
        budget,
        steps,
    )?;
    text.truncate(len);
    check_key(text.as_slice())?;
    Ok(text)
}

/// Opens the keys among the bags of one content, in order, and adds their texts to those so far.
fn open_keys_among<L: Ledger>(
    alloc: Global,
    mut bags: BagsView<'_>,
    password: &str,
    budget: &mut Budget,
    keys: &mut Items<Octets>,
    steps: &mut Steps<L>,
) -> Result<(), TransferError>
    requires short { length bags.bytes ≤ store_limit }
    requires fit { All BagFits bags.left }
    requires stored { All IsStoredKey keys.old }
    requires password { length password.now < 2 ^ 57 }
    ensures opened { OnOk result
        (OpensMore (of_keys password.now budget.old.limit) budget.old.limit budget.old.spent
        (shrouded_among bags.entry.left) keys.old keys.new
        × Spends budget.old budget.new (sum_by key_share (shrouded_among bags.entry.left))
        × (steps.new ≡ steps.old + sum_by key_share (shrouded_among bags.entry.left))) }
    ensures stored { OnOk result (All IsStoredKey keys.new) }
    ensures refused { IfErr result (RefusedAfter
        (IsFirstFault (of_keys password.now budget.old.limit) budget.old.limit budget.old.spent
        (shrouded_among bags.entry.left)) steps.old steps.new) }
    ensures at_most { TakesWithin budget.old steps.old steps.new }
{
    while let Some(bag) = bags.next() {
        match bag {
            BagView::Shrouded {
                algorithm,
                content,
                ..
            } => {
                let text = open_copy(alloc, &algorithm, content, password, budget, steps)?;
                keys.push(text)?;
            }
            BagView::X509(_) | BagView::Sdsi(_) | BagView::Other { .. } => {}
        }
    }
    Ok(())
}

/// Opens the encrypted keys among the bags that are at these places, in order, and returns the texts of the private keys that they are.
/// The text stays as it is: each key is opened in a copy of its octets.
pub(crate) fn open_keys<L: Ledger>(
    alloc: Global,
    text: &[u8],
    places: &[Place],
    password: &str,
    budget: &mut Budget,
    steps: &mut Steps<L>,
) -> Result<Items<Octets>, TransferError>
    requires text { length text.now ≤ store_limit }
    requires bags { All (ListsAt text.now) places.now }
    requires password { length password.now < 2 ^ 57 }
    ensures opened { IfOk result
        (λ keys. AreOpen (of_keys password.now budget.old.limit) budget.old.limit budget.old.spent
        (all_shrouded (contents_at text.now places.now)) keys
        × (steps.new ≡ steps.old
        + sum_by key_share (all_shrouded (contents_at text.now places.now)))) }
    ensures stored { IfOk result (λ keys. All IsStoredKey keys) }
    ensures refused { IfErr result (RefusedAfter
        (IsFirstFault (of_keys password.now budget.old.limit) budget.old.limit budget.old.spent
        (all_shrouded (contents_at text.now places.now))) steps.old steps.new) }
    ensures at_most { TakesWithin budget.old steps.old steps.new }
{
    let mut keys = Items::new(alloc);
    for place in places {
        let bags = bags_at(text, *place);
        open_keys_among(alloc, bags, password, budget, &mut keys, steps)?;
    }
    Ok(keys)
}
