//! Opening the contents of a store, in order, in a copy of their text.
ghost use Rattle.std.specs.Prelude.{◌≡◌, ◌+◌, ◌≤◌, ◌<◌, ◌^◌, All, List, length, IfOk, IfErr, OnOk};
ghost use Rattle.std.specs.List.{sum_by};
ghost use Rattle.p12.specs.ContentInfo.{ContentFits};
ghost use Rattle.p12.specs.ContentView.{ContentBetween, ContentStands, seen_content};
ghost use Rattle.p12.specs.SafeBag.{IsBags, NoBags};
ghost use Rattle.p12.specs.declared.safe_bag.SafeBag.{SafeBag};
ghost use Rattle.transfer.specs.Budget.{Spends, TakesWithin};
ghost use Rattle.transfer.specs.InPlace.{ContentOpensAt, StandAt};
ghost use Rattle.transfer.specs.Limits.{store_limit};
ghost use Rattle.transfer.specs.Parts.{AreOpen, IsFirstFault};
ghost use Rattle.transfer.specs.Opening.{ContentCause, RefusedAfter, content_share, of_contents};

use crate::store::budget::Budget;
use crate::store::error::TransferError;
use crate::store::lock::open_lock;
use asn1_core::Items;
use p12::{BagsView, ContentView, ContentsView, Place};
use std::alloc::Global;
use std::sync::ledger::Ledger;
use steps::Steps;

/// That a text lists bags.
fn check_bags(text: &[u8]) -> Result<(), TransferError>
    ensures ok { OnOk result ((bags : List SafeBag) × IsBags text.now bags) }
    ensures err { IfErr result (λ e. (e ≡ TransferError.ContentMalformed) × NoBags text.now) }
{
    match BagsView::parse(text) {
        Ok(_) => Ok(()),
        Err(_) => Err(TransferError::ContentMalformed),
    }
}

/// Opens a content in place, and returns where its bags are.
fn open_content<L: Ledger>(
    alloc: Global,
    content: &ContentView<'_>,
    text: &mut [u8],
    password: &str,
    budget: &mut Budget,
    steps: &mut Steps<L>,
) -> Result<Place, TransferError>
    requires stands { ContentStands text.old content.now }
    requires room { ContentBetween 0 (length text.old) content.now }
    requires text { length text.old ≤ store_limit }
    requires fits { ContentFits store_limit (seen_content content.now) }
    requires password { length password.now < 2 ^ 57 }
    ensures opened { IfOk result
        (λ place. ContentOpensAt password.now content.now text.old text.new place
        × Spends budget.old budget.new (content_share (seen_content content.now))
        × (steps.new ≡ steps.old + content_share (seen_content content.now))) }
    ensures refused { IfErr result (RefusedAfter
        (ContentCause password.now budget.old.limit budget.old.spent (seen_content content.now))
        steps.old steps.new) }
    ensures at_most { TakesWithin budget.old steps.old steps.new }
{
    match content {
        ContentView::Plain { content, at } => {
            check_bags(content)?;
            Ok(*at)
        }
        ContentView::Encrypted { algorithm, at, .. } => {
            let plain = open_lock(alloc, algorithm, *at, text, password, budget, steps)?;
            check_bags(&text[plain.start..plain.start + plain.len])?;
            Ok(plain)
        }
        ContentView::Other { .. } => Err(TransferError::Unsupported),
    }
}

/// Opens each content in order, in place in a copy of the octets that list them, and returns where the bags of each are.
pub(crate) fn open_contents<L: Ledger>(
    alloc: Global,
    mut contents: ContentsView<'_>,
    text: &mut [u8],
    password: &str,
    budget: &mut Budget,
    steps: &mut Steps<L>,
) -> Result<Items<Place>, TransferError>
    requires copy { text.old ≡ contents.bytes }
    requires text { length text.old ≤ store_limit }
    requires fit { All (ContentFits store_limit) contents.left }
    requires password { length password.now < 2 ^ 57 }
    ensures opened { IfOk result (λ places. (bags : List (List SafeBag))
        × AreOpen (of_contents password.now budget.old.limit) budget.old.limit budget.old.spent
        contents.entry.left bags
        × StandAt text.new places bags
        × Spends budget.old budget.new (sum_by content_share contents.entry.left)
        × (steps.new ≡ steps.old + sum_by content_share contents.entry.left)) }
    ensures refused { IfErr result (RefusedAfter
        (IsFirstFault (of_contents password.now budget.old.limit) budget.old.limit budget.old.spent
        contents.entry.left) steps.old steps.new) }
    ensures at_most { TakesWithin budget.old steps.old steps.new }
{
    let mut places = Items::new(alloc);
    while let Some(content) = contents.next() {
        let place = open_content(alloc, &content, text, password, budget, steps)?;
        places.push(place)?;
    }
    Ok(places)
}
