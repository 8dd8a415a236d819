//! A draw over known octets.
ghost use Rattle.std.specs.Prelude.{◌≡◌, ◌<◌, ◌≤◌, ◌↔◌, ◌++◌, length, drop, Some, OnOk, OnErr, IfOk, IsErr};
ghost use Rattle.octet_core.specs.Draw.{FailsShort, Fills};
ghost use Rattle.octet_core.specs.DrawnBytes.{DrawnState};
ghost use Rattle.octet_core.specs.Faults.{HasCause, one_more};

use crate::draw::Draw;
use crate::failed::Failed;
use crate::octets::Octets;
use std::alloc::{AllocError, Global};
use std::marker::Model;

/// Octets in memory that are drawn in their order.
#[derive(Debug, Drop)]
pub struct DrawnBytes {
    octets: Octets,
    at: usize,
    faults: u64,
}

impl Model for DrawnBytes {
    ghost Value = { DrawnState };

    ghost view = { λ d. record { left = drop d.at d.octets; faults = d.faults } };

    ghost invariant = { λ d. d.at ≤ length d.octets };
}

impl DrawnBytes {
    /// A draw of these octets, from the first on.
    pub fn new(octets: Octets) -> DrawnBytes
        ensures { result ≡ record { left = octets; faults = 0 } }
    {
        DrawnBytes {
            octets,
            at: 0,
            faults: 0,
        }
    }

    /// An equal draw in memory of its own. `AllocError` where there is no memory.
    pub fn try_clone(&self, alloc: Global) -> Result<DrawnBytes, AllocError>
        ensures { IfOk result (λ d. d ≡ self.now) }
    {
        Ok(DrawnBytes {
            octets: self.octets.try_clone(alloc)?,
            at: self.at,
            faults: self.faults,
        })
    }
}

impl Draw for DrawnBytes {
    ghost left = { λ d. Some d.left };

    ghost faults = { λ d. d.faults };

    /// Fills `out` with the next octets. `Failed` exactly where fewer remain than `out` has; then none is taken and
    /// `out` stays as it was.
    fn fill(&mut self, out: &mut [u8]) -> Result<(), Failed>
        ensures drawn { Fills (Some self.old.left) (Some self.new.left) result out.new }
        ensures short { FailsShort (Some self.old.left) result out.old }
        ensures cause { HasCause self.old.faults self.new.faults result }
        ensures no_fault { OnOk result (self.new.faults ≡ self.old.faults) }
        ensures failed { OnErr result
            ((self.new ≡ record self.old { faults = one_more self.old.faults })
            × (out.new ≡ out.old)) }
    {
        let rest = &self.octets.as_slice()[self.at..];
        if rest.len() < out.len() {
            self.faults = self.faults.saturating_add(1);
            return Err(Failed);
        }
        out.copy_from_slice(&rest[..out.len()]);
        self.at += out.len();
        Ok(())
    }
}
