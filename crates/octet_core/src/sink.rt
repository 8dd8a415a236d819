//! Where octets go.
ghost use Rattle.std.specs.Prelude.{ℕ, List, ◌≡◌, OnOk};
ghost use Rattle.std.specs.declared.option.Option.{Option};
ghost use Rattle.std.specs.Io.{WritesAtMost};
ghost use Rattle.octet_core.specs.Faults.{HasCause};
ghost use Rattle.octet_core.specs.Sink.{Writes};

use crate::failed::Failed;

/// Where octets go. A sink may tell which octets were written, in `written`, or nothing, and it counts its faults: the
/// count never falls, stays at `u64::MAX` once it is there, and a write that does not fail leaves it as it is.
pub trait Sink {
    // the octets written, where the sink tells them
    ghost written: { Self → Option (List ℕ) };

    // how often a write failed
    ghost faults: { Self → ℕ };

    /// Takes octets from the front of the piece, and returns how many: of a piece that has any at least one. A write
    /// that fails takes nothing.
    fn write(&mut self, piece: &[u8]) -> Result<usize, Failed>
        ensures bound { WritesAtMost result piece.now }
        ensures octets { Writes (written self.old) (written self.new) result piece.now }
        ensures cause { HasCause (faults self.old) (faults self.new) result }
        ensures no_fault { OnOk result (faults self.new ≡ faults self.old) };
}
