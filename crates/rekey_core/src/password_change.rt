//! One change of a store's password.
ghost use Rattle.std.specs.Prelude.{◌≡◌, ◌≤◌, ◌<◌, ◌^◌, ◌+◌, List, ℕ, length, IfOk, IfErr, Some, true, OnOk};
ghost use Rattle.std.specs.Result.{IsErrOf};
ghost use Rattle.p12.specs.ContentInfo.{IsContents};
ghost use Rattle.p12.specs.MacData.{is_mac_digest};
ghost use Rattle.rekey_core.specs.Kinds.{mac_for, mac_kind};
ghost use Rattle.p12.specs.MacView.{seen_mac};
ghost use Rattle.p12.specs.Pfx.{IsStore};
ghost use Rattle.p12.specs.declared.content_info.ContentInfo.TheVariants as content;
ghost use Rattle.p12.specs.declared.pfx.PFX.{PFX};
ghost use Rattle.rekey_core.specs.Anew.{change_draws};
ghost use Rattle.rekey_core.specs.Making.{HeldOpen, IsMacked, TextSealed};
ghost use Rattle.rekey_core.specs.Opened.{DrawsTooLong, IsOpened, SealsDrawn};
ghost use Rattle.rekey_core.specs.Rekeyed.{GrowsTooLong, GrowsTooLongTo, IsRefused, IsSettled, IsUndrawn, RefusedFor, Rekeys, RunsShort, RunsShortTo};
ghost use Rattle.rekey_core.specs.Sealing.{CanSeal, LongOnly};
ghost use Rattle.rekey_core.specs.Size.{changed_size};
ghost use Rattle.rekey_core.specs.Unlocking.{Unlocking};
ghost use Rattle.rekey_core.specs.Upgraded.{IsUpgradeSettled, SealsTooLong, UpgradeRefusedFor, Upgrades};
ghost use Rattle.octet_core.specs.Draw.{Lacks};
ghost use Rattle.transfer.specs.Limits.{store_limit};
ghost use Rattle.transfer.specs.Opening.{HasVerdict, RefusedAfter, refused};
ghost use Rattle.transfer.specs.Transferred.{IsDecided};

use crate::change::{mac_for, store_text};
use crate::contents::seal_contents;
use crate::drawing::{draw_for, mac_salt};
use crate::key_derivation::derive_for;
use crate::kinds::{Kinds, MacAnew, Renewal};
use crate::sealing_limit::is_within;
use crate::supply::Supply;
use asn1_core::{Items, Octets};
use mac_modes::Draw;
use p12::{ContentInfo, ContentView, MacView, StoreView};
use std::alloc::Global;
use std::sync::ledger::Ledger;
use steps::Steps;
use transfer::{Opened, TransferError, open_store};

/// The parts of a store around its contents.
#[derive(Drop)]
struct Outer<'a> {
    version: u8,
    text: &'a [u8],
    mac: MacView<'a>,
}

/// The parts of the store of this text.
fn outer_of<'a>(store: &'a [u8]) -> Outer<'a>
    requires { IsMacked store.now }
    ensures { (s : PFX) → IsStore store.now s → (s.version ≡ result.version)
        × (s.auth_safe ≡ content.Data result.text.now) × (s.mac_data ≡ Some (seen_mac result.mac)) }
{
    let Ok(view) = StoreView::parse(store) else {
        unreachable!()
    };
    let StoreView {
        version,
        auth_safe,
        mac_data,
    } = view;
    let ContentView::Plain { content: text, .. } = auth_safe else {
        unreachable!()
    };
    let Some(mac) = mac_data else { unreachable!() };
    Outer { version, text, mac }
}

/// Seals the parts of an opened store anew by the octets that were drawn, and returns its text.
/// `TooLong` exactly where it would have more than 16,777,215 octets; the only other error is
/// `Memory`.
fn sealed_text(
    alloc: Global,
    to: Kinds,
    version: u8,
    mac: MacAnew,
    contents: &[ContentInfo],
    opened: &Opened,
    drawn: &[u8],
    new: &str,
) -> Result<Octets, TransferError>
    requires lists { (v : List ℕ) × IsContents v contents.now }
    requires open { (u : Unlocking) × CanSeal to u
        × HeldOpen u contents.now opened.now.contents opened.now.keys }
    requires drawn { length drawn.now ≡ change_draws to contents.now opened.now.contents }
    requires password { length new.now < 2 ^ 57 }
    ensures sealed { IfOk result (λ b. (u : Unlocking)
        → HeldOpen u contents.now opened.now.contents opened.now.keys
        → TextSealed to u new.now version
        (mac_kind mac) contents.now drawn.now b) }
    ensures err { IfErr result (LongOnly ((u : Unlocking)
        → HeldOpen u contents.now opened.now.contents opened.now.keys
        → store_limit < changed_size to version
        (mac_kind mac) u contents.now opened.now.contents)) }
{
    let keys = opened.keys.as_slice();
    let bags = opened.contents.as_slice();
    let derived = derive_for(alloc, to, contents, bags, drawn, new)?;
    let mut supply = Supply {
        keys,
        drawn,
        derived: derived.as_slice(),
        run: 0,
        place: 0,
    };
    let contents = seal_contents(alloc, to, contents, bags, &mut supply, new)?;
    let salt = supply.next_drawn(mac_salt(to));
    // The proofs name both outcomes of this call.
    match store_text(alloc, version, mac, contents.as_slice(), salt, new) {
        Ok(text) => Ok(text),
        Err(e) => Err(e),
    }
}

/// A store that was opened, and its contents as they were before.
#[derive(Drop)]
struct OpenStore<'a> {
    outer: Outer<'a>,
    contents: Items<ContentInfo>,
    opened: Opened,
}

/// Opens a store under its old password. The errors are those of `open_store`.
fn opened_store<'a, L: Ledger>(
    alloc: Global,
    store: &'a [u8],
    old: &str,
    limit: u64,
    steps: &mut Steps<L>,
) -> Result<OpenStore<'a>, TransferError>
    requires { length old.now < 2 ^ 57 }
    ensures opened { IfOk result (λ s. IsOpened store.now old.now limit steps.old steps.new
        s.outer.version (seen_mac s.outer.mac) s.contents s.opened.contents s.opened.keys) }
    ensures lists { IfOk result (λ s. (v : List ℕ) × IsContents v s.contents) }
    ensures refused { IfErr result
        (RefusedAfter (λ e n. HasVerdict store.now old.now limit (refused e) n) steps.old
        steps.new) }
    ensures exact { IsDecided store.now old.now limit result }
    ensures at_most { (steps.old ≤ steps.new) × (steps.new ≤ steps.old + limit) }
{
    // The proofs name both outcomes of the calls here.
    let opened = match open_store(alloc, store, old, limit, steps) {
        Ok(opened) => opened,
        Err(e) => return Err(e),
    };
    let outer = outer_of(store);
    let Ok(contents) = ContentInfo::parse_all(alloc, outer.text) else {
        return Err(TransferError::Memory);
    };
    Ok(OpenStore {
        outer,
        contents,
        opened,
    })
}

/// Draws for the parts of a store, which were opened, seals them anew as these kinds, and returns the text of the store. `Rng` where
/// the draw fails, then `TooLong` where the text would have more than 16,777,215 octets; the only other error is `Memory`.
pub(crate) fn sealed_parts<D: Draw>(
    alloc: Global,
    to: Kinds,
    version: u8,
    mac: MacAnew,
    contents: &[ContentInfo],
    opened: &Opened,
    new: &str,
    draw: &mut D,
) -> Result<Octets, TransferError>
    requires lists { (v : List ℕ) × IsContents v contents.now }
    requires open { (u : Unlocking) × CanSeal to u
        × HeldOpen u contents.now opened.now.contents opened.now.keys }
    requires password { length new.now < 2 ^ 57 }
    ensures sealed { IfOk result (SealsDrawn to version
        (mac_kind mac) contents.now opened.now.contents
        opened.now.keys new.now (D.left draw.old) (D.left draw.new)) }
    ensures err { IfErr result (RefusedFor (λ e. ⊥)
        (Lacks (D.faults draw.old) (D.faults draw.new) (D.left draw.old)
        (change_draws to contents.now opened.now.contents))
        (DrawsTooLong to version (mac_kind mac)
        contents.now opened.now.contents opened.now.keys
        (D.left draw.old) (D.left draw.new))) }
    ensures count { D.faults draw.old ≤ D.faults draw.new }
    ensures no_fault { OnOk result (D.faults draw.new ≡ D.faults draw.old) }
    ensures last { D.faults draw.old < D.faults draw.new → IsErrOf result TransferError.Rng }
{
    let bags = opened.contents.as_slice();
    // The proofs name both outcomes of the calls here.
    let drawn = match draw_for(alloc, to, contents, bags, draw) {
        Ok(drawn) => drawn,
        Err(e) => return Err(e),
    };
    match sealed_text(
        alloc,
        to,
        version,
        mac,
        contents,
        opened,
        drawn.as_slice(),
        new,
    ) {
        Ok(text) => Ok(text),
        Err(e) => Err(e),
    }
}

/// The same of a store that was opened.
fn sealed_store<D: Draw>(
    alloc: Global,
    to: Kinds,
    store: &OpenStore<'_>,
    new: &str,
    draw: &mut D,
) -> Result<Octets, TransferError>
    requires lists { (v : List ℕ) × IsContents v store.now.contents }
    requires open { (u : Unlocking) × CanSeal to u
        × HeldOpen u store.now.contents store.now.opened.contents store.now.opened.keys }
    requires known { is_mac_digest (seen_mac store.now.outer.mac).mac.digest_algorithm ≡ true }
    requires rounds { 1 ≤ store.now.outer.mac.iterations }
    requires password { length new.now < 2 ^ 57 }
    ensures sealed { IfOk result (SealsDrawn to store.now.outer.version
        (mac_for to (seen_mac store.now.outer.mac)) store.now.contents store.now.opened.contents
        store.now.opened.keys new.now (D.left draw.old) (D.left draw.new)) }
    ensures err { IfErr result (RefusedFor (λ e. ⊥)
        (Lacks (D.faults draw.old) (D.faults draw.new) (D.left draw.old)
        (change_draws to store.now.contents store.now.opened.contents))
        (DrawsTooLong to store.now.outer.version (mac_for to (seen_mac store.now.outer.mac))
        store.now.contents store.now.opened.contents store.now.opened.keys
        (D.left draw.old) (D.left draw.new))) }
    ensures count { D.faults draw.old ≤ D.faults draw.new }
    ensures no_fault { OnOk result (D.faults draw.new ≡ D.faults draw.old) }
    ensures last { D.faults draw.old < D.faults draw.new → IsErrOf result TransferError.Rng }
{
    let mac = mac_for(to, &store.outer.mac);
    let contents = store.contents.as_slice();
    // The proofs name both outcomes of the call.
    match sealed_parts(
        alloc,
        to,
        store.outer.version,
        mac,
        contents,
        &store.opened,
        new,
        draw,
    ) {
        Ok(text) => Ok(text),
        Err(e) => Err(e),
    }
}

/// Changes the password of a PKCS#12 store (RFC 7292) from `old` to `new`, and returns the DER text
/// of the changed store, in the canonical encoding.
///
/// Its bags, keys, certificates and attributes are kept. A part under Triple DES is sealed under
/// Triple DES with its iteration count, a part under PBES2 under PBKDF2 with HMAC-SHA-256 and
/// AES-256-CBC with its count; the MAC keeps its digest and count. `draw` gives 8 octets for each
/// part under Triple DES, 32 for each under PBES2 (the IV, then the salt) and 8 for the MAC: for
/// each content its own before those of its keys, and those of the MAC last.
///
/// All octets are drawn before a key is derived, and the keys of the parts under PBES2 are derived before a part is
/// sealed: four at once, in about the time of two, where parts that follow each other have the same count.
///
/// `limit` is the most steps of opening the store, `steps` counts them, as in `open_store`; sealing
/// is not counted. The errors are those of `open_store`, then `Rng` where the draw fails, then
/// `TooLong` where the text would have more than 16,777,215 octets; each comes exactly where it is
/// the first cause, but `Memory` may come in its place. On each error but `Rng`, `TooLong` and
/// `Memory` nothing was drawn.
///
/// Caller: both passwords have fewer than 2^57 octets.
pub fn rekey<D: Draw, L: Ledger>(
    alloc: Global,
    store: &[u8],
    old: &str,
    new: &str,
    draw: &mut D,
    limit: u64,
    steps: &mut Steps<L>,
) -> Result<Octets, TransferError>
    requires old { length old.now < 2 ^ 57 }
    requires new { length new.now < 2 ^ 57 }
    ensures changed { IfOk result (Rekeys store.now old.now new.now limit (D.left draw.old)
        (D.left draw.new) steps.old steps.new) }
    ensures refused { IfErr result
        (RefusedFor (IsRefused store.now old.now limit steps.old steps.new)
        (RunsShort store.now old.now limit (D.left draw.old) (D.faults draw.old)
        (D.faults draw.new) steps.old steps.new)
        (GrowsTooLong store.now old.now limit (D.left draw.old)
        (D.left draw.new) steps.old steps.new)) }
    ensures exact { IsSettled store.now old.now limit (D.left draw.old) result }
    ensures undrawn { IfErr result (λ e. IsUndrawn e → draw.new ≡ draw.old) }
    ensures count { D.faults draw.old ≤ D.faults draw.new }
    ensures no_fault { OnOk result (D.faults draw.new ≡ D.faults draw.old) }
    ensures last { D.faults draw.old < D.faults draw.new → IsErrOf result TransferError.Rng }
    ensures at_most { (steps.old ≤ steps.new) × (steps.new ≤ steps.old + limit) }
{
    // The proofs name both outcomes of the calls here.
    let store = match opened_store(alloc, store, old, limit, steps) {
        Ok(store) => store,
        Err(e) => return Err(e),
    };
    match sealed_store(alloc, Kinds::Kept, &store, new, draw) {
        Ok(text) => Ok(text),
        Err(e) => Err(e),
    }
}

/// As `rekey`, and seals each part under PBES2 with PBKDF2 over HMAC-SHA-256 and AES-256-CBC, whatever it was under, and
/// makes the MAC with HMAC-SHA-256, all in `renewal.rounds`.
///
/// `draw` gives 32 octets for each part (the IV, then the salt) and 16 for the MAC, in the order that `rekey` says. A
/// content that is not encrypted stays so.
///
/// Sealing takes `renewal.rounds` of HMAC-SHA-256 for each encrypted content and each encrypted key, and as many of
/// SHA-256 for the MAC. Where these are more than `renewal.seal_limit` together, the error is `WorkLimit`, which comes
/// after the errors of `open_store` and before `Rng` and `TooLong`: the store was opened, nothing was drawn, and nothing
/// was sealed. The new store opens by exactly as many steps as sealing it took rounds
/// (`laws::upgrades_reopen`).
///
/// Caller: both passwords have fewer than 2^57 octets.
pub fn upgrade<D: Draw, L: Ledger>(
    alloc: Global,
    store: &[u8],
    old: &str,
    new: &str,
    renewal: Renewal,
    draw: &mut D,
    limit: u64,
    steps: &mut Steps<L>,
) -> Result<Octets, TransferError>
    requires old { length old.now < 2 ^ 57 }
    requires new { length new.now < 2 ^ 57 }
    ensures changed { IfOk result (Upgrades renewal store.now old.now new.now limit
        (D.left draw.old) (D.left draw.new) steps.old steps.new) }
    ensures refused { IfErr result
        (UpgradeRefusedFor (IsRefused store.now old.now limit steps.old steps.new)
        (SealsTooLong renewal store.now old.now limit steps.old steps.new)
        (RunsShortTo (Kinds.Renewed renewal.rounds) store.now old.now limit (D.left draw.old)
        (D.faults draw.old) (D.faults draw.new) steps.old steps.new)
        (GrowsTooLongTo (Kinds.Renewed renewal.rounds) store.now old.now limit (D.left draw.old)
        (D.left draw.new) steps.old steps.new)) }
    ensures exact { IsUpgradeSettled renewal store.now old.now limit (D.left draw.old) result }
    ensures undrawn { IfErr result (λ e. IsUndrawn e → draw.new ≡ draw.old) }
    ensures count { D.faults draw.old ≤ D.faults draw.new }
    ensures no_fault { OnOk result (D.faults draw.new ≡ D.faults draw.old) }
    ensures last { D.faults draw.old < D.faults draw.new → IsErrOf result TransferError.Rng }
    ensures at_most { (steps.old ≤ steps.new) × (steps.new ≤ steps.old + limit) }
{
    // The proofs name both outcomes of the calls here.
    let store = match opened_store(alloc, store, old, limit, steps) {
        Ok(store) => store,
        Err(e) => return Err(e),
    };
    if !is_within(
        renewal,
        store.contents.as_slice(),
        store.opened.contents.as_slice(),
    ) {
        return Err(TransferError::WorkLimit);
    }
    let to = Kinds::Renewed(renewal.rounds);
    match sealed_store(alloc, to, &store, new, draw) {
        Ok(text) => Ok(text),
        Err(e) => Err(e),
    }
}
