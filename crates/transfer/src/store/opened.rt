//! Opening a store for its bags and its keys.
ghost use Rattle.std.specs.Prelude.{◌≡◌, ◌+◌, ◌≤◌, ◌<◌, ◌^◌, All, ℕ, length, IfOk, IfErr};
ghost use Rattle.transfer.specs.declared.store.error.TransferError.TheVariants as refusal;
ghost use Rattle.transfer.specs.Opening.{HasVerdict, IsStoredKey, RefusedAfter, refused};
ghost use Rattle.transfer.specs.Transferred.{IsDecided};
ghost use Rattle.transfer.specs.Verdicts.{StoreOpens};

use crate::store::copies::{copied, copied_contents};
use crate::store::error::TransferError;
use crate::store::safe::open_safe;
use asn1_core::{Items, Octets};
use p12::SafeBag;
use std::alloc::Global;
use std::sync::ledger::Ledger;
use steps::Steps;

/// An opened store.
#[derive(Drop)]
pub struct Opened {
    /// The bags of each content, in store order.
    pub contents: Items<Items<SafeBag>>,
    /// The plain octets of each encrypted key among them, in store order: the text of a private key (RFC 5958 section 2).
    pub keys: Items<Octets>,
    ghost texts: { All IsStoredKey keys },
}

impl Opened {
    /// An equal value in memory of its own. The only refusal is `Memory`.
    pub fn try_clone(&self, alloc: Global) -> Result<Opened, TransferError>
        ensures ok { IfOk result (λ o. o ≡ self.now) }
        ensures err { IfErr result (λ e. e ≡ refusal.Memory) }
    {
        Ok(Opened {
            contents: copied_contents(alloc, self.contents.as_slice())?,
            keys: copied(alloc, self.keys.as_slice())?,
        })
    }
}

/// Opens the store under the password: the bags of each content, and the octets of each encrypted private key.
///
/// `limit` is the most steps. A step is one digest of an iteration of RFC 7292 appendix B, or one output of the pseudorandom
/// function of PBKDF2. The refusals are those of `TransferError` but `Rng`, in their order; each comes exactly where it is the first
/// cause, but running out of memory may come in its place.
///
/// Caller: the password has fewer than 2^57 octets.
pub fn open_store<L: Ledger>(
    alloc: Global,
    store: &[u8],
    password: &str,
    limit: u64,
    steps: &mut Steps<L>,
) -> Result<Opened, TransferError>
    requires { length password.now < 2 ^ 57 }
    ensures opened { IfOk result
        (λ o. (n : ℕ) × StoreOpens store.now password.now o.contents o.keys n
        × (n ≤ limit) × (steps.new ≡ steps.old + n)) }
    ensures refused { IfErr result
        (RefusedAfter (λ e n. HasVerdict store.now password.now limit (refused e) n) steps.old
        steps.new) }
    ensures exact { IsDecided store.now password.now limit result }
    ensures at_most { (steps.old ≤ steps.new) × (steps.new ≤ steps.old + limit) }
{
    let safe = open_safe(alloc, store, password, limit, steps)?;
    Ok(safe.into_opened(alloc)?)
}
