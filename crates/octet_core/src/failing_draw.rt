//! A draw that fails at chosen calls.
ghost use Rattle.std.specs.Prelude.{◌≡◌, List, None, OnOk, OnErr, IfOk, IsErr};
ghost use Rattle.octet_core.specs.Draw.{FailsShort, Fills};
ghost use Rattle.octet_core.specs.FailingDraw.{FailingState, IsListed};
ghost use Rattle.octet_core.specs.Faults.{HasCause, one_more};

use crate::draw::Draw;
use crate::drawn_bytes::DrawnBytes;
use crate::failed::Failed;
use crate::items::{Items, copied_numbers};
use std::alloc::{AllocError, Global};
use std::marker::Model;

/// A draw that fails at chosen calls of `fill`, and passes the other calls on to another draw. It does not tell its
/// octets.
#[derive(Debug, Drop)]
pub struct FailingDraw<D> {
    inner: D,
    failing: Items<u64>,
    call: u64,
    faults: u64,
}

impl<D> Model for FailingDraw<D> {
    ghost Value = { FailingState D };

    ghost view = { λ d. record {
      inner = d.inner;
      failing = d.failing;
      call = d.call;
      faults = d.faults;
    } };
}

impl<D: Draw> FailingDraw<D> {
    /// A draw over `inner`. `failing` has the numbers of the calls that fail, counted from 0; the number of a call
    /// stays at `u64::MAX` once it is there.
    pub fn new(inner: D, failing: Items<u64>) -> FailingDraw<D>
        ensures { result ≡ record { inner = inner; failing = failing; call = 0; faults = 0 } }
    {
        FailingDraw {
            inner,
            failing,
            call: 0,
            faults: 0,
        }
    }
}

impl FailingDraw<DrawnBytes> {
    /// An equal draw in memory of its own. `AllocError` where there is no memory.
    pub fn try_clone(&self, alloc: Global) -> Result<FailingDraw<DrawnBytes>, AllocError>
        ensures { IfOk result (λ d. d ≡ self.now) }
    {
        Ok(FailingDraw {
            inner: self.inner.try_clone(alloc)?,
            failing: copied_numbers(alloc, &self.failing)?,
            call: self.call,
            faults: self.faults,
        })
    }
}

impl<D: Draw> Draw for FailingDraw<D> {
    ghost left = { λ _. None };

    ghost faults = { λ d. d.faults };

    /// Fills `out`. `Failed` exactly at a listed call, which does not reach the other draw, and where that draw
    /// fails.
    fn fill(&mut self, out: &mut [u8]) -> Result<(), Failed>
        ensures drawn { Fills None None result out.new }
        ensures short { FailsShort None result out.old }
        ensures cause { HasCause self.old.faults self.new.faults result }
        ensures listed { IsListed self.old → IsErr result × (self.new.inner ≡ self.old.inner)
            × (out.new ≡ out.old) }
        ensures inner_drawn { ¬ IsListed self.old
            → Fills (D.left self.old.inner) (D.left self.new.inner) result out.new }
        ensures inner_short { ¬ IsListed self.old
            → FailsShort (D.left self.old.inner) result out.old }
        ensures inner_cause { ¬ IsListed self.old → HasCause (D.faults self.old.inner)
            (D.faults self.new.inner) result }
        ensures inner_no_fault { ¬ IsListed self.old → OnOk result
            (D.faults self.new.inner ≡ D.faults self.old.inner) }
        ensures no_fault { OnOk result (self.new.faults ≡ self.old.faults) }
        ensures fault { OnErr result (self.new.faults ≡ one_more self.old.faults) }
        ensures next { (self.new.call ≡ one_more self.old.call)
            × (self.new.failing ≡ self.old.failing) }
    {
        let listed = self.failing.as_slice().contains(&self.call);
        self.call = self.call.saturating_add(1);
        if !listed && self.inner.fill(out).is_ok() {
            return Ok(());
        }
        self.faults = self.faults.saturating_add(1);
        Err(Failed)
    }
}
