//! The caller of the page of `transfer`.
ghost use Rattle.std.specs.Prelude.{◌<◌, ◌^◌, ℕ, List, length, IfOk};
ghost use Rattle.p12.specs.declared.safe_bag.SafeBag.{SafeBag};
ghost use Rattle.transfer.specs.Opened.{OpensWithin};
ghost use Rattle.transfer.specs.Transferred.{SealsOpened};

use mac_modes::Draw;
use std::alloc::Global;
use transfer::{Opening, TransferError, Transferred, seal_opened};

/// The certificates of a store, and its private keys under a new password.
pub fn converted<D: Draw>(
    alloc: Global,
    store: &[u8],
    password: &str,
    new_password: &[u8],
    draw: &mut D,
) -> Result<Transferred, TransferError>
    requires { length password.now < 2 ^ 57 }
    ensures { IfOk result (λ t. (bags : List (List SafeBag)) × (keys : List (List ℕ))
        × OpensWithin store.now password.now 10000000 bags keys
        × SealsOpened 600000 new_password.now (D.left draw.old) (D.left draw.new) bags keys
        t.certificates t.documents) }
{
    let limit = 10_000_000;
    let opened = Opening {
        store,
        password,
        limit,
    }
    .open(alloc)?;
    seal_opened(alloc, &opened, new_password, 600_000, draw)
}
