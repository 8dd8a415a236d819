//! The inventory of a store.
ghost use Rattle.std.specs.Prelude.{◌≡◌, ◌+◌, ◌≤◌, ◌<◌, ◌^◌, List, ℕ, length, IfOk, IfErr};
ghost use Rattle.std.specs.String.{string_bytes};
ghost use Rattle.frame.specs.DueText.{joined};
ghost use Rattle.transfer.specs.Opening.{HasVerdict, RefusedAfter, refused};
ghost use Rattle.transfer.specs.Transferred.{IsDecided};
ghost use Rattle.inventory_core.specs.Answers.{Inventories};
ghost use Rattle.inventory_core.specs.Sheet.{IsListed};
ghost use Rattle.inventory_core.specs.Table.{IsTable};

use crate::listed::Listed;
use crate::table::{table_of, table_within};
use octet_core::{Items, Text};
use std::alloc::{AllocError, Global};
use std::sync::ledger::Ledger;
use steps::Steps;
use transfer::{OpenedSafe, TransferError, open_safe};

/// The lines of the inventory of a store.
pub(crate) fn lines_of<L: Ledger>(
    alloc: Global,
    store: &[u8],
    password: &str,
    limit: u64,
    steps: &mut Steps<L>,
) -> Result<Items<Text>, TransferError>
    requires { length password.now < 2 ^ 57 }
    ensures made { IfOk result (λ lines. Inventories store.now password.now limit steps.old
        steps.new (joined lines)) }
    ensures refused { IfErr result
        (RefusedAfter (λ e n. HasVerdict store.now password.now limit (refused e) n) steps.old
        steps.new) }
    ensures exact { IsDecided store.now password.now limit result }
    ensures at_most { (steps.old ≤ steps.new) × (steps.new ≤ steps.old + limit) }
{
    // The proofs name both outcomes of this call.
    let opened = match open_safe(alloc, store, password, limit, steps) {
        Ok(opened) => opened,
        Err(e) => return Err(e),
    };
    match table_of(alloc, &opened) {
        Ok(lines) => Ok(lines),
        Err(_) => Err(TransferError::Memory),
    }
}

/// The lines, one after the other.
fn joined_text(alloc: Global, lines: &[Text]) -> Result<Text, AllocError>
    ensures { IfOk result (λ t. t ≡ joined lines.now) }
{
    let mut text = String::new(alloc);
    for line in lines {
        text.push_str(line.as_str())?;
    }
    Ok(Text::from_string(text))
}

/// What a PKCS#12 store (RFC 7292) holds, as a text: a line `cert J F P` for each X.509
/// certificate, with its number, the SHA-256 fingerprint of its public key in lower-case digits and
/// its parent, `self`, a number or `-`; and then a line `key I` with the numbers of its chain, or
/// `-`, for each encrypted private key. A certificate that cannot be read has `-` for fingerprint
/// and parent. Numbers count from 0, in the order of the store.
///
/// `limit` is the most steps of opening the store, and `steps` counts them, as in `open_store`. The
/// errors are those of `open_store`; each comes exactly where it is the first cause, but `Memory`
/// may come in its place.
///
/// Caller: the password has fewer than 2^57 octets.
pub fn inventory<L: Ledger>(
    alloc: Global,
    store: &[u8],
    password: &str,
    limit: u64,
    steps: &mut Steps<L>,
) -> Result<Text, TransferError>
    requires { length password.now < 2 ^ 57 }
    ensures made { IfOk result (λ text. Inventories store.now password.now limit steps.old
        steps.new text) }
    ensures refused { IfErr result
        (RefusedAfter (λ e n. HasVerdict store.now password.now limit (refused e) n) steps.old
        steps.new) }
    ensures exact { IsDecided store.now password.now limit result }
    ensures at_most { (steps.old ≤ steps.new) × (steps.new ≤ steps.old + limit) }
{
    // The proofs name both outcomes of this call.
    let lines = match lines_of(alloc, store, password, limit, steps) {
        Ok(lines) => lines,
        Err(e) => return Err(e),
    };
    match joined_text(alloc, lines.as_slice()) {
        Ok(text) => Ok(text),
        Err(_) => Err(TransferError::Memory),
    }
}

/// As `inventory`, where there is room for so many octets: of a table that has more, which one store may have by
/// its chains, their number is returned, and it takes no more memory than the room.
///
/// Caller: the password has fewer than 2^57 octets.
pub fn inventory_within<L: Ledger>(
    alloc: Global,
    store: &[u8],
    password: &str,
    limit: u64,
    room: usize,
    steps: &mut Steps<L>,
) -> Result<Listed, TransferError>
    requires { length password.now < 2 ^ 57 }
    ensures made { IfOk result (λ listed. (text : List ℕ) × Inventories store.now password.now limit
        steps.old steps.new text × IsListed room text listed) }
    ensures refused { IfErr result
        (RefusedAfter (λ e n. HasVerdict store.now password.now limit (refused e) n) steps.old
        steps.new) }
    ensures exact { IsDecided store.now password.now limit result }
    ensures at_most { (steps.old ≤ steps.new) × (steps.new ≤ steps.old + limit) }
{
    // The proofs name both outcomes of this call.
    let opened = match open_safe(alloc, store, password, limit, steps) {
        Ok(opened) => opened,
        Err(e) => return Err(e),
    };
    match table_within(alloc, &opened, room) {
        Ok(sheet) => Ok(sheet.finish()),
        Err(_) => Err(TransferError::Memory),
    }
}

/// The table of a store that another call has opened, as `inventory_within` returns it of a store. The only error is out of memory.
pub fn opened_inventory(
    alloc: Global,
    opened: &OpenedSafe,
    room: usize,
) -> Result<Listed, AllocError>
    ensures made { IfOk result (λ listed. (text : List ℕ) × IsTable opened.now.contents text
        × IsListed room text listed) }
{
    let sheet = table_within(alloc, opened, room)?;
    Ok(sheet.finish())
}
