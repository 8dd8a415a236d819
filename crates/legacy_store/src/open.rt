//! Opening an old store: each cause to refuse it in its order, and the exact steps.
ghost use Rattle.std.specs.Prelude.{◌≡◌, ◌+◌, ◌≤◌, ◌<◌, ◌^◌, All, ℕ, length, IfOk, IfErr, IsTrue, OnOk, true};
ghost use Rattle.legacy_store.specs.Mac.{is_legacy_digest, mac_cost, mac_count};
ghost use Rattle.transfer.specs.Limits.{store_limit};
ghost use Rattle.transfer.specs.Opening.{IsKeyText, RefusedAfter, opened, refused};
ghost use Rattle.legacy_store.specs.Forms.{forms_without_mac, seen_forms};
ghost use Rattle.legacy_store.specs.Opening.{BareTable, HasVerdictUnder, LegacyMacTable, LegacyTextTable, NullTable};
ghost use Rattle.legacy_store.specs.Verdicts.{IsDecidedUnder, OpensUnder};

use crate::bag_texts::BagTexts;
use crate::budget::Budget;
use crate::contents::open_contents;
use crate::keys::open_keys;
use crate::limits::STORE_LIMIT;
use crate::mac::{agrees, is_legacy_digest, mac_cost, mac_count};
use crate::mac_rule::MacRule;
use crate::secret::Secret;
use crate::texts::{read_safe, read_store};
use asn1_core::{Items, Octets};
use p12::{ContentInfo, MacData};
use pkcs12_kdf::utf16_password;
use std::alloc::Global;
use std::sync::ledger::Ledger;
use steps::Steps;
use transfer::{Opened, OpenedSafe, TransferError};

/// Whether none of these texts is longer than a store.
fn are_short(texts: &[Octets]) -> bool
    ensures { IsTrue result → All (λ text. length text ≤ store_limit) texts.now }
{
    for text in texts {
        if text.len() > STORE_LIMIT {
            return false;
        }
    }
    true
}

/// The opened store of these bags and texts of private keys. The only refusal is `Memory`.
fn kept(contents: BagTexts, keys: Items<Octets>) -> Result<OpenedSafe, TransferError>
    requires { All IsKeyText keys }
    ensures ok { IfOk result (λ o. (o.contents ≡ contents) × (o.keys ≡ keys)) }
    ensures err { IfErr result (λ e. e ≡ TransferError.Memory) }
{
    // Never so: a key is no longer than what it was decrypted from, which is in the store.
    if !are_short(keys.as_slice()) {
        return Err(TransferError::Memory);
    }
    Ok(contents.with_keys(keys))
}

/// Opens what the text of a store lists, whose MAC agrees.
fn open_listed<L: Ledger>(
    alloc: Global,
    text: &[u8],
    secret: &Secret<'_>,
    allowed: Budget,
    steps: &mut Steps<L>,
) -> Result<OpenedSafe, TransferError>
    requires text { length text.now < 2 ^ 32 }
    requires password { length secret.now.text.now < 2 ^ 57 }
    requires units { length secret.now.units.now < 2 ^ 59 }
    ensures opened { IfOk result (λ o. (n : ℕ)
        × LegacyTextTable (seen_forms secret.now) allowed.limit allowed.spent text.now
        (opened o.contents o.keys) (allowed.spent + n) × (steps.new ≡ steps.old + n)) }
    ensures refused { IfErr result (RefusedAfter
        (λ e n. LegacyTextTable (seen_forms secret.now) allowed.limit allowed.spent text.now
        (refused e) (allowed.spent + n)) steps.old steps.new) }
    ensures at_most { (steps.old ≤ steps.new)
        × (steps.new + allowed.spent ≤ steps.old + allowed.limit) }
{
    let mut budget = allowed;
    let listed = read_safe(alloc, text)?;
    let parts = listed.as_slice();
    let contents = open_contents(alloc, parts, secret, &mut budget, steps)?;
    let keys = open_keys(alloc, &contents, secret, &mut budget, steps)?;
    kept(contents, keys)
}

/// Opens a store whose MAC did not agree under the password: under the null password, if that is empty.
fn open_null<L: Ledger>(
    alloc: Global,
    text: &[u8],
    mac: &MacData,
    password: &str,
    allowed: Budget,
    steps: &mut Steps<L>,
) -> Result<OpenedSafe, TransferError>
    requires known { is_legacy_digest mac.now.mac.digest_algorithm ≡ true }
    requires rounds { 1 ≤ mac_count mac.now }
    requires text { length text.now < 2 ^ 32 }
    requires salt { length mac.now.salt < 2 ^ 59 }
    requires spent { allowed.spent ≡ mac_cost mac.now }
    ensures opened { IfOk result (λ o. (n : ℕ)
        × NullTable password.now allowed.limit text.now mac.now (opened o.contents o.keys)
        (mac_cost mac.now + n) × (steps.new ≡ steps.old + n)) }
    ensures refused { IfErr result (RefusedAfter
        (λ e n. NullTable password.now allowed.limit text.now mac.now (refused e)
        (mac_cost mac.now + n)) steps.old steps.new) }
    ensures at_most { (steps.old ≤ steps.new)
        × (steps.new + allowed.spent ≤ steps.old + allowed.limit) }
{
    if password.len() > 0 {
        return Err(TransferError::MacMismatch);
    }
    let mut budget = allowed;
    budget.share(mac_cost(mac))?;
    let secret = Secret {
        text: "",
        units: &[],
        has_mac: true,
    };
    let good = agrees(alloc, mac, text, &secret, steps)?;
    if !good {
        return Err(TransferError::MacMismatch);
    }
    open_listed(alloc, text, &secret, budget, steps)
}

/// Opens a store by its MAC and the text that this is of.
fn open_under_mac<L: Ledger>(
    alloc: Global,
    text: &[u8],
    mac: &MacData,
    password: &str,
    limit: u64,
    steps: &mut Steps<L>,
) -> Result<OpenedSafe, TransferError>
    requires text { length text.now < 2 ^ 32 }
    requires salt { length mac.now.salt < 2 ^ 59 }
    requires password { length password.now < 2 ^ 56 }
    ensures opened { IfOk result (λ o. (n : ℕ)
        × LegacyMacTable password.now limit text.now mac.now (opened o.contents o.keys) n
        × (steps.new ≡ steps.old + n)) }
    ensures refused { IfErr result (RefusedAfter
        (λ e n. LegacyMacTable password.now limit text.now mac.now (refused e) n)
        steps.old steps.new) }
    ensures at_most { (steps.old ≤ steps.new) × (steps.new ≤ steps.old + limit) }
{
    if !is_legacy_digest(&mac.mac.digest_algorithm) {
        return Err(TransferError::MacUnsupported);
    }
    if mac_count(mac) == 0 {
        return Err(TransferError::ZeroIterations);
    }
    let mut budget = Budget::new(limit);
    budget.share(mac_cost(mac))?;
    let units = utf16_password(alloc, password)?;
    let secret = Secret {
        text: password,
        units: units.as_slice(),
        has_mac: true,
    };
    let good = agrees(alloc, mac, text, &secret, steps)?;
    if good {
        return open_listed(alloc, text, &secret, budget, steps);
    }
    open_null(alloc, text, mac, password, budget, steps)
}

/// Opens what the text of a store lists that has no MAC.
fn open_without_mac<L: Ledger>(
    alloc: Global,
    text: &[u8],
    password: &str,
    limit: u64,
    steps: &mut Steps<L>,
) -> Result<OpenedSafe, TransferError>
    requires text { length text.now < 2 ^ 32 }
    requires password { length password.now < 2 ^ 56 }
    ensures opened { IfOk result (λ o. (n : ℕ)
        × LegacyTextTable (forms_without_mac password.now) limit 0 text.now
        (opened o.contents o.keys) n × (steps.new ≡ steps.old + n)) }
    ensures refused { IfErr result (RefusedAfter
        (λ e n. LegacyTextTable (forms_without_mac password.now) limit 0 text.now (refused e) n)
        steps.old steps.new) }
    ensures at_most { (steps.old ≤ steps.new) × (steps.new ≤ steps.old + limit) }
{
    let units = utf16_password(alloc, password)?;
    let secret = Secret {
        text: password,
        units: units.as_slice(),
        has_mac: false,
    };
    open_listed(alloc, text, &secret, Budget::new(limit), steps)
}

/// Opens a store by the text that it has, and no MAC.
fn open_bare<L: Ledger>(
    alloc: Global,
    text: &[u8],
    password: &str,
    rule: MacRule,
    limit: u64,
    steps: &mut Steps<L>,
) -> Result<OpenedSafe, TransferError>
    requires text { length text.now < 2 ^ 32 }
    requires password { length password.now < 2 ^ 56 }
    ensures opened { IfOk result (λ o. (n : ℕ)
        × BareTable rule password.now limit text.now (opened o.contents o.keys) n
        × (steps.new ≡ steps.old + n)) }
    ensures refused { IfErr result (RefusedAfter
        (λ e n. BareTable rule password.now limit text.now (refused e) n) steps.old steps.new) }
    ensures at_most { (steps.old ≤ steps.new) × (steps.new ≤ steps.old + limit) }
{
    match rule {
        MacRule::Required => Err(TransferError::MacMissing),
        MacRule::Optional => open_without_mac(alloc, text, password, limit, steps),
    }
}

/// `open_legacy_safe`, with its contract by the table of causes.
fn open_by_cause<L: Ledger>(
    alloc: Global,
    store: &[u8],
    password: &str,
    rule: MacRule,
    limit: u64,
    steps: &mut Steps<L>,
) -> Result<OpenedSafe, TransferError>
    requires { length password.now < 2 ^ 56 }
    ensures opened { IfOk result (λ o. (n : ℕ)
        × HasVerdictUnder rule store.now password.now limit (opened o.contents o.keys) n
        × (steps.new ≡ steps.old + n)) }
    ensures refused { IfErr result (RefusedAfter
        (λ e n. HasVerdictUnder rule store.now password.now limit (refused e) n)
        steps.old steps.new) }
    ensures at_most { (steps.old ≤ steps.new) × (steps.new ≤ steps.old + limit) }
{
    if store.len() > STORE_LIMIT {
        return Err(TransferError::TooLong);
    }
    let found = read_store(alloc, store)?;
    let ContentInfo::Data(text) = &found.auth_safe else {
        return Err(TransferError::Unsupported);
    };
    let octets = text.as_slice();
    let Some(mac) = &found.mac_data else {
        return open_bare(alloc, octets, password, rule, limit, steps);
    };
    open_under_mac(alloc, octets, mac, password, limit, steps)
}

/// Opens an old store under the password, and keeps it as one text. It opens what `transfer::open_safe` opens, and stores beyond these:
/// the text of the store and that of its list of contents in BER, with encrypted octets in parts; texts under RC2 with 40 or 128 bits and
/// under Triple DES with two keys; texts under PBES2 with scrypt (RFC 7914) that takes at most 67,108,864 octets of memory, 128 * r * N and
/// 256 * r * p beside them; MACs under SHA-224, SHA-384 and SHA-512, and PBMAC1; and, where the password is empty, stores whose writer took
/// the empty password as no octets at all. Where the rule does not require a MAC, it opens stores without one too, under the password alone:
/// nothing says then that who wrote such a store knew the password, so what is under 40-bit RC2 in it is `Unsupported`.
///
/// `limit` is the most steps. A step is one digest of an iteration of RFC 7292 appendix B, one output of the pseudorandom function of
/// PBKDF2, or one Salsa20/8 core of scrypt, which computes 4 * N * r * p of them; the MAC of a store with an empty password may take its
/// steps twice. The refusals are those of `transfer::open_safe`, in their order; each comes exactly where it is the first cause, but running
/// out of memory may come in its place.
///
/// Caller: the password has fewer than 2^56 octets.
pub fn open_legacy_safe<L: Ledger>(
    alloc: Global,
    store: &[u8],
    password: &str,
    rule: MacRule,
    limit: u64,
    steps: &mut Steps<L>,
) -> Result<OpenedSafe, TransferError>
    requires { length password.now < 2 ^ 56 }
    ensures opened { IfOk result (λ o. (n : ℕ)
        × OpensUnder rule store.now password.now o.contents o.keys n
        × (n ≤ limit) × (steps.new ≡ steps.old + n)) }
    ensures refused { IfErr result (RefusedAfter
        (λ e n. HasVerdictUnder rule store.now password.now limit (refused e) n)
        steps.old steps.new) }
    ensures exact { IsDecidedUnder rule store.now password.now limit result }
    ensures at_most { (steps.old ≤ steps.new) × (steps.new ≤ steps.old + limit) }
{
    open_by_cause(alloc, store, password, rule, limit, steps)
}

/// Opens an old store, as `open_legacy_safe` does: the bags of each content, and the octets of each encrypted private key, in memory of
/// their own.
///
/// `limit` is the most steps. The refusals are those of `open_legacy_safe`.
///
/// Caller: the password has fewer than 2^56 octets.
pub fn open_legacy<L: Ledger>(
    alloc: Global,
    store: &[u8],
    password: &str,
    rule: MacRule,
    limit: u64,
    steps: &mut Steps<L>,
) -> Result<Opened, TransferError>
    requires { length password.now < 2 ^ 56 }
    ensures opened { IfOk result (λ o. (n : ℕ)
        × OpensUnder rule store.now password.now o.contents o.keys n
        × (n ≤ limit) × (steps.new ≡ steps.old + n)) }
    ensures refused { IfErr result (RefusedAfter
        (λ e n. HasVerdictUnder rule store.now password.now limit (refused e) n)
        steps.old steps.new) }
    ensures exact { IsDecidedUnder rule store.now password.now limit result }
    ensures at_most { (steps.old ≤ steps.new) × (steps.new ≤ steps.old + limit) }
{
    let safe = open_legacy_safe(alloc, store, password, rule, limit, steps)?;
    Ok(safe.into_opened(alloc)?)
}
