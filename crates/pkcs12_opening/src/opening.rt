//! Opening a store.
ghost use Rattle.std.specs.Prelude.{◌≡◌, ◌⊎◌, ◌<◌, ◌≤◌, ℕ, IfOk, IfErr};
ghost use Rattle.frame.specs.Status.{status_code};
ghost use Rattle.legacy_store.specs.Laws.{stays_refused};
ghost use Rattle.legacy_store.specs.Verdicts.{LegacyOpens, OpensUnder};
ghost use Rattle.pkcs12_opening.specs.Ending.{code_of, ending_of_refusal};
ghost use Rattle.pkcs12_opening.specs.Opens.{FailsToOpen, accepted_by};
ghost use Rattle.transfer.specs.Status.{status_of};
ghost use Rattle.transfer.specs.Verdicts.{StoreOpens};

use crate::ending::{Ending, Failure};
use command_base::Password;
use legacy_store::{MacRule, open_legacy_safe};
use pkcs12_arguments::Accepted;
use std::alloc::Global;
use std::io::Read;
use std::marker::Brand;
use std::rt::Files;
use std::sync::ledger::{Blank, Ledger};
use std::{fs, io};
use steps::Steps;
use transfer::{OpenedSafe, TransferError, open_safe};

/// Where the system's random octets are read.
pub const RANDOM: &str = "/dev/urandom";

/// One octet more than the longest store that is opened, so that a longer one is told.
const STORE_OCTETS: u64 = 16_777_216;

/// The octets of the store: those of a file, or of the standard input for `-`. No more than
/// 16,777,216 are read.
fn store_octets<R: Files + Input + AllocGlobal>(rt: &R, store: &str) -> io::Result<Vec<u8>> {
    let mut octets = Vec::new(rt.alloc());
    if store == "-" {
        rt.reader().take(STORE_OCTETS).read_to_end(&mut octets)?;
    } else {
        let file = fs::open(rt, store)?;
        file.take(STORE_OCTETS).read_to_end(&mut octets)?;
    }
    Ok(octets)
}

/// The same; `ReadFault` where they cannot be read.
pub(crate) fn read_store<R: Files + Input + AllocGlobal>(
    rt: &R,
    store: &str,
) -> Result<Vec<u8>, Failure>
    ensures { IfErr result (λ f. (f.ending ≡ Ending.ReadFault) ⊎ (f.ending ≡ Ending.Memory)) }
{
    match store_octets(rt, store) {
        Ok(octets) => Ok(octets),
        Err(error) => Err(Failure::io(rt.alloc(), Ending::ReadFault, "the store", store, error)),
    }
}

/// The failure that a refusal is: its exit number is the one of the refusal's status, and its message says what it means.
#[tactic(auto, unfolding(crate::specs::Ending::code_of))]
pub fn refused(refusal: TransferError) -> Failure
    ensures kind { result.ending ≡ ending_of_refusal refusal }
    ensures code { code_of result.ending ≡ status_code (status_of refusal) }
{
    match refusal {
        TransferError::Memory => Failure::new(Ending::Memory, "there was not enough memory"),
        refusal => Failure::new(Ending::Refused(refusal), meaning_of(refusal)),
    }
}

/// Opens a store as `open_safe` does, with a step counter of its own.
#[tactic(auto, using(crate::proofs::Refusals::fails_to_open))]
fn open_modern<L: Ledger>(
    alloc: Global,
    store: &[u8],
    password: &Password,
    limit: u64,
    blank: Blank,
) -> Result<OpenedSafe, TransferError>
    requires name { blank.name ≡ L.name }
    requires parts { blank.parts ≡ L.parts }
    requires some { 0 < blank.parts }
    ensures ok { IfOk result (λ o. (n : ℕ)
        × StoreOpens store.now password.now o.contents o.keys n × (n ≤ limit)) }
    ensures err { IfErr result
        (λ e. FailsToOpen Accepted.Modern store.now password.now limit (ending_of_refusal e)) }
{
    let mut steps = Steps::<L>::open(blank);
    open_safe(alloc, store, password.as_str(), limit, &mut steps)
}

/// Whether a store that `open_safe` refuses for this cause is refused by `open_legacy_safe` too: the cause is none that old stores have.
fn stays_refused(password: &str, refusal: TransferError) -> bool
    ensures { result ≡ stays_refused password.now refusal }
{
    match refusal {
        TransferError::Malformed
        | TransferError::Unsupported
        | TransferError::MacUnsupported
        | TransferError::ContentMalformed => false,
        TransferError::MacMismatch => password.len() > 0,
        TransferError::TooLong
        | TransferError::MacMissing
        | TransferError::ZeroIterations
        | TransferError::WorkLimit
        | TransferError::DecryptFailed
        | TransferError::KeyMalformed
        | TransferError::Rng
        | TransferError::Memory => true,
    }
}

/// An opened store.
#[derive(Drop)]
pub struct AnyStore {
    pub safe: OpenedSafe,
    /// Whether it is an old store, which `open_safe` refuses.
    pub is_old: bool,
}

/// Opens an old store, or under the rule one without a MAC, with a step counter of its own.
#[tactic(auto, using(crate::proofs::Refusals::old_fails_to_open))]
fn open_old<L: Ledger>(
    alloc: Global,
    store: &[u8],
    password: &Password,
    rule: MacRule,
    limit: u64,
    blank: Blank,
) -> Result<AnyStore, TransferError>
    requires name { blank.name ≡ L.name }
    requires parts { blank.parts ≡ L.parts }
    requires some { 0 < blank.parts }
    ensures ok { IfOk result (λ o. (n : ℕ)
        × OpensUnder rule store.now password.now o.safe.contents o.safe.keys n × (n ≤ limit)) }
    ensures err { IfErr result
        (λ e. FailsToOpen (accepted_by rule) store.now password.now limit (ending_of_refusal e)) }
{
    let mut steps = Steps::<L>::open(blank);
    match open_legacy_safe(alloc, store, password.as_str(), rule, limit, &mut steps) {
        Ok(safe) => Ok(AnyStore { safe, is_old: true }),
        Err(refusal) => Err(refusal),
    }
}

/// Opens a store as `open_safe` does, and where that refuses it for a cause that old stores have, as an old store.
#[tactic(auto, using(crate::proofs::Refusals::stays_to_fail, crate::proofs::Refusals::opens_as_old))]
fn open_any<L: Ledger>(
    alloc: Global,
    store: &[u8],
    password: &Password,
    limit: u64,
    blank: Blank,
) -> Result<AnyStore, TransferError>
    requires name { blank.name ≡ L.name }
    requires parts { blank.parts ≡ L.parts }
    requires some { 0 < blank.parts }
    ensures ok { IfOk result (λ o. (n : ℕ)
        × LegacyOpens store.now password.now o.safe.contents o.safe.keys n × (n ≤ limit)) }
    ensures err { IfErr result
        (λ e. FailsToOpen Accepted.Old store.now password.now limit (ending_of_refusal e)) }
{
    let mut steps = Steps::<L>::open(blank);
    let text = password.as_str();
    match open_safe(alloc, store, text, limit, &mut steps) {
        Ok(safe) => Ok(AnyStore {
            safe,
            is_old: false,
        }),
        Err(refusal) => {
            if stays_refused(text, refusal) {
                return Err(refusal);
            }
            open_old::<Brand>(
                alloc,
                store,
                password,
                MacRule::Required,
                limit,
                Blank::new(1),
            )
        }
    }
}

/// Opens a store of today under its password within the limit, in steps, by a step counter of its own. Where the store is refused, by the
/// first cause that `open_safe` names, the failure is that refusal; out of memory may come in its place.
pub fn opened_store(
    alloc: Global,
    store: &[u8],
    password: &Password,
    limit: u64,
) -> Result<OpenedSafe, Failure>
    ensures ok { IfOk result (λ o. (n : ℕ)
        × StoreOpens store.now password.now o.contents o.keys n × (n ≤ limit)) }
    ensures err { IfErr result (λ f. FailsToOpen Accepted.Modern store.now password.now limit f.ending) }
{
    match open_modern::<Brand>(alloc, store, password, limit, Blank::new(1)) {
        Ok(opened) => Ok(opened),
        Err(refusal) => Err(refused(refusal)),
    }
}

/// The same of any store, as `open_legacy_safe` opens it. What `open_safe` opens is opened by that call alone; else the work may be done
/// twice, each time within the limit.
pub(crate) fn opened_any_store(
    alloc: Global,
    store: &[u8],
    password: &Password,
    limit: u64,
) -> Result<AnyStore, Failure>
    ensures ok { IfOk result (λ o. (n : ℕ)
        × LegacyOpens store.now password.now o.safe.contents o.safe.keys n × (n ≤ limit)) }
    ensures err { IfErr result (λ f. FailsToOpen Accepted.Old store.now password.now limit f.ending) }
{
    match open_any::<Brand>(alloc, store, password, limit, Blank::new(1)) {
        Ok(opened) => Ok(opened),
        Err(cause) => Err(refused(cause)),
    }
}

/// The same, and of a store without a MAC, as `open_legacy_safe` opens it.
pub(crate) fn opened_bare_store(
    alloc: Global,
    store: &[u8],
    password: &Password,
    limit: u64,
) -> Result<AnyStore, Failure>
    ensures ok { IfOk result (λ o. (n : ℕ)
        × OpensUnder MacRule.Optional store.now password.now o.safe.contents o.safe.keys n
        × (n ≤ limit)) }
    ensures err { IfErr result
        (λ f. FailsToOpen Accepted.WithoutMac store.now password.now limit f.ending) }
{
    let rule = MacRule::Optional;
    match open_old::<Brand>(alloc, store, password, rule, limit, Blank::new(1)) {
        Ok(opened) => Ok(opened),
        Err(cause) => Err(refused(cause)),
    }
}

/// What a refusal means.
fn meaning_of(refusal: TransferError) -> &'static str {
    match refusal {
        TransferError::TooLong => "the store has more than 16,777,215 octets",
        TransferError::Malformed => "the file is not a PKCS#12 store",
        TransferError::Unsupported =>
            "something in the store is of a kind, or encrypted by an algorithm, that is not opened",
        TransferError::MacMissing => "the store has no MAC, so a change to it would go unnoticed",
        TransferError::MacUnsupported =>
            "the MAC of the store is made by an algorithm that is not supported",
        TransferError::ZeroIterations =>
            "the store asks for zero iterations, which no honest program writes",
        TransferError::WorkLimit => "opening the store takes more work than --limit allows",
        TransferError::MacMismatch => "the password is wrong, or the store was changed",
        TransferError::ContentMalformed => "the MAC agrees, but the contents are damaged",
        TransferError::DecryptFailed =>
            "the password agrees with the MAC, but a part does not decrypt with it",
        TransferError::KeyMalformed => "a private key of the store opens, but is not a PKCS#8 key",
        TransferError::Rng => "the system gave no random octets",
        TransferError::Memory => "there was not enough memory",
    }
}
