//! The transfer of one store.
ghost use Rattle.std.specs.Prelude.{◌≡◌, ◌≤◌, ◌<◌, ◌+◌, ◌^◌, ℕ, length, IfOk, IfErr, ⊤};
ghost use Rattle.std.specs.Result.{IsErrOf};
ghost use Rattle.transfer.specs.declared.store.error.TransferError.TheVariants as error;
ghost use Rattle.transfer.specs.Limits.{rounds_limit};
ghost use Rattle.transfer.specs.TransferError.{RefusedBy};
ghost use Rattle.frame.specs.Calls.{effects};
ghost use Rattle.frame.specs.Stream.{stream_of};
ghost use Rattle.transfer.specs.Transferred.{IsRefused, RunsShort, Settles, Transfers};
ghost use Rattle.transfer.specs.Words.{command};

use crate::store::copies::copied;
use crate::store::error::TransferError;
use crate::store::safe::open_safe;
use asn1_core::{Items, Octets};
use mac_modes::Draw;
use std::alloc::Global;
use std::sync::ledger::Ledger;
use steps::Steps;

/// What a store was transferred to.
#[derive(Drop)]
pub struct Transferred {
    /// The octets of the X.509 certificates, in store order.
    pub certificates: Items<Octets>,
    /// A document for each encrypted private key, in store order: an EncryptedPrivateKeyInfo in DER (RFC 5958 section 3).
    pub documents: Items<Octets>,
}

impl Transferred {
    /// An equal value in memory of its own. The only refusal is `Memory`.
    pub fn try_clone(&self, alloc: Global) -> Result<Transferred, TransferError>
        ensures ok { IfOk result (λ t. t ≡ self.now) }
        ensures err { IfErr result (λ e. e ≡ error.Memory) }
    {
        Ok(Transferred {
            certificates: copied(alloc, self.certificates.as_slice())?,
            documents: copied(alloc, self.documents.as_slice())?,
        })
    }
}

/// Opens the store under the password, and returns its certificates and, for each encrypted private key, one document that
/// seals the key's canonical encoding under the new password: by PBES2 with PBKDF2 over HMAC-SHA-256 in this number of rounds, and
/// AES-256-CBC. For each key 16 octets of IV and then 16 of salt are drawn, after every other refusal is decided. The new password
/// is octets, taken as they are; the rounds are those of PBKDF2 in each document.
///
/// `limit` is the most steps. A step is one digest of an iteration of RFC 7292 appendix B, or one output of the pseudorandom
/// function of PBKDF2 that opens a part; the rounds of a document are not counted. The refusals are in `TransferError`, in their
/// order; each comes exactly where it is the first cause, but running out of memory may come in its place. After a refusal other than
/// `Rng` and `Memory` the draw is as it was, and where a draw failed the refusal is `Rng`.
///
/// Caller: the password has fewer than 2^57 octets, and the rounds are 1 to 100,000,000.
pub fn transfer<D: Draw, L: Ledger>(
    alloc: Global,
    store: &[u8],
    password: &str,
    new_password: &[u8],
    rounds: u32,
    draw: &mut D,
    limit: u64,
    steps: &mut Steps<L>,
) -> Result<Transferred, TransferError>
    requires password { length password.now < 2 ^ 57 }
    requires rounds { (1 ≤ rounds) × (rounds ≤ rounds_limit) }
    ensures opened { let drawn = stream_of D.left D.faults draw.old draw.new in
        let e = effects drawn steps.old steps.new in
        let c = command password.now new_password.now rounds limit in
        IfOk result (λ t. Transfers c e store.now t.certificates t.documents) }
    ensures refused { let drawn = stream_of D.left D.faults draw.old draw.new in
        let e = effects drawn steps.old steps.new in
        let c = command password.now new_password.now rounds limit in
        IfErr result (RefusedBy (IsRefused c e store.now) (RunsShort c e store.now)) }
    ensures exact { Settles store.now password.now limit (D.left draw.old) result }
    ensures untouched { IfErr result (RefusedBy (λ e. draw.new ≡ draw.old) ⊤) }
    ensures count { D.faults draw.old ≤ D.faults draw.new }
    ensures last { D.faults draw.old < D.faults draw.new → IsErrOf result TransferError.Rng }
    ensures at_most { (steps.old ≤ steps.new) × (steps.new ≤ steps.old + limit) }
{
    let safe = open_safe(alloc, store, password, limit, steps)?;
    safe.seal(alloc, new_password, rounds, draw)
}
