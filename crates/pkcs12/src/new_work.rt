//! The work of opening a store once its algorithms are changed.
ghost use Rattle.std.specs.Prelude.{◌≡◌, ◌⊎◌};
ghost use Rattle.pkcs12_opening.specs.declared.ending.Ending.TheVariants.{Memory, Refused};
ghost use Rattle.transfer.specs.declared.store.error.TransferError.TheVariants.{WorkLimit};

use legacy_store::store_in_der;
use pkcs12_inspection::encrypted_contents;
use pkcs12_opening::{Ending, Failure};
use std::alloc::Global;
use transfer::TransferError;

/// The failure of a store with so many encrypted private keys, which would take more steps to open than the limit, once each
/// of its encrypted parts and its MAC have so many rounds.
pub fn too_much_work(alloc: Global, store: &[u8], keys: usize, rounds: u32, limit: u64) -> Failure
    ensures { (result.ending ≡ Refused WorkLimit) ⊎ (result.ending ≡ Memory) }
{
    let contents = match store_in_der(alloc, store) {
        Ok(Some(der)) => encrypted_contents(der.as_slice()),
        Ok(None) => encrypted_contents(store),
        Err(error) => return Failure::from(error),
    };
    let parts = contents.saturating_add(keys);
    let all = (parts as u128)
        .saturating_add(1)
        .saturating_mul(u128::from(rounds));
    let text = format!(in alloc;
        "the new store would take {all} steps to open, {rounds} for each of its {parts} encrypted parts and for its MAC, and --limit allows {limit}"
    );
    Failure::told(Ending::Refused(TransferError::WorkLimit), text).advised(
        "Give a larger --limit, or fewer --rounds.",
    )
}
