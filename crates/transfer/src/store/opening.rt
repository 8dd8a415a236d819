//! Opening a store for a caller that counts no steps.
ghost use Rattle.std.specs.Prelude.{◌≡◌, ◌<◌, ◌^◌, length, IfOk, IfErr};
ghost use Rattle.transfer.specs.Opened.{IsRefusedWithin, OpensWithin};
ghost use Rattle.transfer.specs.Transferred.{IsDecided};

use crate::store::error::TransferError;
use crate::store::opened::{Opened, open_store};
use std::alloc::Global;
use std::marker::Brand;
use std::sync::ledger::{Blank, Ledger};
use steps::Steps;

/// A store that is to be opened: what `open_store` is passed, for a caller that has no counter of steps.
#[derive(Clone, Copy, Drop)]
pub struct Opening<'a> {
    /// The octets of the store, in DER.
    pub store: &'a [u8],
    /// The password of the store.
    pub password: &'a str,
    /// The most steps that opening may take: digests of RFC 7292 appendix B, and outputs of PBKDF2's function.
    pub limit: u64,
}

/// Opens the store over the counter of this blank.
fn open_from<L: Ledger>(
    alloc: Global,
    opening: &Opening<'_>,
    blank: Blank,
) -> Result<Opened, TransferError>
    requires name { blank.name ≡ L.name }
    requires parts { blank.parts ≡ L.parts }
    requires some { 0 < blank.parts }
    requires password { length opening.now.password.now < 2 ^ 57 }
    ensures opened { IfOk result (λ o. OpensWithin opening.now.store.now
        opening.now.password.now opening.now.limit o.contents o.keys) }
    ensures refused { IfErr result (IsRefusedWithin opening.now.store.now
        opening.now.password.now opening.now.limit) }
    ensures exact { IsDecided opening.now.store.now opening.now.password.now
        opening.now.limit result }
{
    let mut steps = Steps::<L>::open(blank);
    open_store(
        alloc,
        opening.store,
        opening.password,
        opening.limit,
        &mut steps,
    )
}

impl Opening<'_> {
    /// Opens the store, as `open_store` does, with a counter of its own: the bags of each content, and the octets of each
    /// encrypted private key. The refusals are those of `open_store`.
    ///
    /// Caller: the password has fewer than 2^57 octets.
    pub fn open(&self, alloc: Global) -> Result<Opened, TransferError>
        requires { length self.now.password.now < 2 ^ 57 }
        ensures opened { IfOk result (λ o. OpensWithin self.now.store.now self.now.password.now
            self.now.limit o.contents o.keys) }
        ensures refused { IfErr result (IsRefusedWithin self.now.store.now self.now.password.now
            self.now.limit) }
        ensures exact { IsDecided self.now.store.now self.now.password.now self.now.limit result }
    {
        open_from::<Brand>(alloc, self, Blank::new(1))
    }
}
