//! A draw over a random number generator.
ghost use Rattle.std.specs.Prelude.{◌≡◌, None, OnOk, OnErr};
ghost use Rattle.octet_core.specs.Draw.{FailsShort, Fills};
ghost use Rattle.octet_core.specs.Faults.{HasCause, one_more};
ghost use Rattle.octet_core.specs.Adapter.{Adapter};

use crate::draw::Draw;
use crate::failed::Failed;
use rand_core::TryRng;
use std::marker::Model;

/// A draw over any random number generator that may fail. As a draw it tells nothing of the octets to come.
#[derive(Debug, Drop)]
pub struct TryRngDraw<R> {
    rng: R,
    faults: u64,
}

impl<R> Model for TryRngDraw<R> {
    ghost Value = { Adapter R };

    ghost view = { λ d. record { inner = d.rng; faults = d.faults } };
}

impl<R: TryRng + Drop> TryRngDraw<R> {
    /// A draw of what the generator gives.
    pub fn new(rng: R) -> TryRngDraw<R>
        ensures { result ≡ record { inner = rng; faults = 0 } }
    {
        TryRngDraw { rng, faults: 0 }
    }
}

impl<R: TryRng + Drop> Draw for TryRngDraw<R> {
    ghost left = { λ _. None };

    ghost faults = { λ d. d.faults };

    /// Fills `out` with the next octets of the generator. `Failed` where the generator fails.
    fn fill(&mut self, out: &mut [u8]) -> Result<(), Failed>
        ensures drawn { Fills None None result out.new }
        ensures short { FailsShort None result out.old }
        ensures cause { HasCause self.old.faults self.new.faults result }
        ensures generated { OnOk result (R.may_fill self.old.inner out.new self.new.inner) }
        ensures no_fault { OnOk result (self.new.faults ≡ self.old.faults) }
        ensures fault { OnErr result (self.new.faults ≡ one_more self.old.faults) }
    {
        match self.rng.try_fill_bytes(out) {
            Ok(()) => Ok(()),
            Err(_) => {
                self.faults = self.faults.saturating_add(1);
                Err(Failed)
            }
        }
    }
}
