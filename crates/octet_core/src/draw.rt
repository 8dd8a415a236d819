//! Where random octets come from.
ghost use Rattle.std.specs.Prelude.{ℕ, List, ◌≡◌, OnOk};
ghost use Rattle.std.specs.declared.option.Option.{Option};
ghost use Rattle.octet_core.specs.Draw.{FailsShort, Fills};
ghost use Rattle.octet_core.specs.Faults.{HasCause};

use crate::failed::Failed;

/// Where random octets come from. A draw may tell which octets are to come, in `left`, or nothing, and it counts its
/// faults: the count never falls, stays at `u64::MAX` once it is there, and a fill that does not fail leaves it as it
/// is.
pub trait Draw {
    // the octets still to come, where the draw tells them
    ghost left: { Self → Option (List ℕ) };

    // how often a fill failed
    ghost faults: { Self → ℕ };

    /// Fills `out` with the next octets. `Failed` only where the count of faults rose, or is at its last value;
    /// over a draw that tells its octets exactly where fewer remain than `out` has, and none is taken then.
    fn fill(&mut self, out: &mut [u8]) -> Result<(), Failed>
        ensures drawn { Fills (left self.old) (left self.new) result out.new }
        ensures short { FailsShort (left self.old) result out.old }
        ensures cause { HasCause (faults self.old) (faults self.new) result }
        ensures no_fault { OnOk result (faults self.new ≡ faults self.old) };
}
