//! Where octets come from.
ghost use Rattle.std.specs.Prelude.{ℕ, List, ◌≡◌, OnOk};
ghost use Rattle.std.specs.declared.option.Option.{Option};
ghost use Rattle.std.specs.Io.{ReadsAtMost};
ghost use Rattle.octet_core.specs.Faults.{HasCause};
ghost use Rattle.octet_core.specs.Source.{Reads};

use crate::failed::Failed;

/// Where octets come from. A source may tell which octets are to come, in `left`, or nothing, and it counts its faults:
/// the count never falls, stays at `u64::MAX` once it is there, and a read that does not fail leaves it as it is.
pub trait Source {
    // the octets still to come, where the source tells them
    ghost left: { Self → Option (List ℕ) };

    // how often a read failed
    ghost faults: { Self → ℕ };

    /// Puts the next octets into the front of `buf`, and returns how many. For a buffer with room that is 0 only at the
    /// end. A read that fails takes nothing.
    fn read(&mut self, buf: &mut [u8]) -> Result<usize, Failed>
        ensures bound { ReadsAtMost result buf.new }
        ensures octets { Reads (left self.old) (left self.new) result buf.new }
        ensures cause { HasCause (faults self.old) (faults self.new) result }
        ensures no_fault { OnOk result (faults self.new ≡ faults self.old) };
}
