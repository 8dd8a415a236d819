//! The contents of a store: each cause to refuse it in its order, and the exact steps.
ghost use Rattle.std.specs.Prelude.{◌≡◌, ◌+◌, ◌≤◌, ◌<◌, ◌^◌, ℕ, length, IfOk, IfErr};
ghost use Rattle.p12.specs.MacView.{seen_mac};
ghost use Rattle.transfer.specs.InPlace.{AreListed, AreOpened};
ghost use Rattle.transfer.specs.Limits.{store_limit};
ghost use Rattle.transfer.specs.Opening.{HasVerdict, MacTable, RefusedAfter, refused};

use crate::store::budget::Budget;
use crate::store::contents::open_contents;
use crate::store::error::TransferError;
use crate::store::mac::check_mac;
use asn1_core::{Items, Octets};
use p12::{ContentView, ContentsView, MacView, Place, StoreView};
use std::alloc::Global;
use std::sync::ledger::Ledger;
use steps::Steps;

/// The most octets that a store may have.
const STORE_LIMIT: usize = 16_777_215;

/// A store whose MAC agrees, and none of whose contents is opened.
#[derive(Drop)]
pub(crate) struct Listed<'a> {
    /// The text that the MAC is of.
    pub(crate) text: &'a [u8],
    /// The contents that it lists.
    pub(crate) contents: ContentsView<'a>,
    /// The work that is allowed, and what of it was taken.
    pub(crate) budget: Budget,
}

/// A store whose contents are opened, and whose encrypted keys are not.
#[derive(Drop)]
pub(crate) struct OpenedContents {
    /// A copy of the text of the store, in which its contents were opened.
    pub(crate) text: Octets,
    /// Where the bags of each content are in it.
    pub(crate) places: Items<Place>,
    /// The work that is allowed, and what of it was taken.
    pub(crate) budget: Budget,
}

/// The contents that the outer text of a store lists, under its MAC.
fn list_text<'a, L: Ledger>(
    alloc: Global,
    text: &'a [u8],
    mac: &MacView<'_>,
    password: &str,
    limit: u64,
    steps: &mut Steps<L>,
) -> Result<Listed<'a>, TransferError>
    requires text { length text.now ≤ store_limit }
    requires salt { length mac.now.salt.now ≤ store_limit }
    requires password { length password.now < 2 ^ 57 }
    ensures listed { IfOk result (λ l. AreListed
        (MacTable password.now limit text.now (seen_mac mac.now)) password.now limit l
        × (l.budget.limit ≡ limit) × (steps.new ≡ steps.old + l.budget.spent)) }
    ensures refused { IfErr result (RefusedAfter
        (λ e n. MacTable password.now limit text.now (seen_mac mac.now) (refused e) n) steps.old
        steps.new) }
    ensures at_most { (steps.old ≤ steps.new) × (steps.new ≤ steps.old + limit) }
{
    let budget = check_mac(alloc, mac, text, password, limit, steps)?;
    match ContentsView::parse(text) {
        Ok(contents) => Ok(Listed {
            text,
            contents,
            budget,
        }),
        Err(_) => Err(TransferError::ContentMalformed),
    }
}

/// The contents of a store, whose MAC is checked before.
pub(crate) fn list_contents<'a, L: Ledger>(
    alloc: Global,
    store: &'a [u8],
    password: &str,
    limit: u64,
    steps: &mut Steps<L>,
) -> Result<Listed<'a>, TransferError>
    requires { length password.now < 2 ^ 57 }
    ensures listed { IfOk result (λ l. AreListed (HasVerdict store.now password.now limit)
        password.now limit l
        × (l.budget.limit ≡ limit) × (steps.new ≡ steps.old + l.budget.spent)) }
    ensures refused { IfErr result
        (RefusedAfter (λ e n. HasVerdict store.now password.now limit (refused e) n) steps.old
        steps.new) }
    ensures at_most { (steps.old ≤ steps.new) × (steps.new ≤ steps.old + limit) }
{
    if store.len() > STORE_LIMIT {
        return Err(TransferError::TooLong);
    }
    let store = match StoreView::parse(store) {
        Ok(store) => store,
        Err(_) => return Err(TransferError::Malformed),
    };
    let ContentView::Plain { content, .. } = &store.auth_safe else {
        return Err(TransferError::Unsupported);
    };
    let Some(mac) = &store.mac_data else {
        return Err(TransferError::MacMissing);
    };
    list_text(alloc, content, mac, password, limit, steps)
}

/// Opens the contents of a store in a copy of their text.
pub(crate) fn open_parts<L: Ledger>(
    alloc: Global,
    store: &[u8],
    password: &str,
    limit: u64,
    steps: &mut Steps<L>,
) -> Result<OpenedContents, TransferError>
    requires { length password.now < 2 ^ 57 }
    ensures opened { IfOk result (λ o. AreOpened (HasVerdict store.now password.now limit)
        password.now limit o.text o.places o.budget.spent
        × (o.budget.limit ≡ limit) × (steps.new ≡ steps.old + o.budget.spent)) }
    ensures refused { IfErr result
        (RefusedAfter (λ e n. HasVerdict store.now password.now limit (refused e) n) steps.old
        steps.new) }
    ensures at_most { (steps.old ≤ steps.new) × (steps.new ≤ steps.old + limit) }
{
    let listed = list_contents(alloc, store, password, limit, steps)?;
    let mut budget = listed.budget;
    let mut text = Octets::from_slice(alloc, listed.text)?;
    let whole = text.as_mut_slice();
    let places = open_contents(alloc, listed.contents, whole, password, &mut budget, steps)?;
    Ok(OpenedContents {
        text,
        places,
        budget,
    })
}
