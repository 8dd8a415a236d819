//! The work that is allowed.
ghost use Rattle.std.specs.Prelude.{◌≡◌, ◌≤◌, OnOk, IfErr};

use crate::store::error::TransferError;

/// The most steps that the parts of a store may take, and the running sum of their shares so far.
#[derive(Clone, Copy)]
pub(crate) struct Budget {
    limit: u64,
    spent: u64,
    ghost within: { spent ≤ limit },
}

impl Budget {
    ghost use Rattle.transfer.specs.Budget.{IsUnspent, PassesLimit, Spends};

    /// A budget of which nothing is spent.
    pub(crate) fn new(limit: u64) -> Budget
        ensures { IsUnspent limit result }
    {
        Budget { limit, spent: 0 }
    }

    /// Takes a share of so many steps. `WorkLimit` exactly where the running sum with it would pass the limit; then nothing
    /// is taken.
    pub(crate) fn share(&mut self, cost: u128) -> Result<(), TransferError>
        ensures ok { OnOk result (Spends self.old self.new cost) }
        ensures err { IfErr result (λ e. (e ≡ TransferError.WorkLimit)
            × PassesLimit self.old cost × (self.new ≡ self.old)) }
    {
        if cost > u128::from(self.limit - self.spent) {
            return Err(TransferError::WorkLimit);
        }
        self.spent += cost as u64;
        Ok(())
    }
}
