//! Writers of texts.
ghost use Rattle.asn1_core.specs.Writing.{Sink, Writes};

use crate::error::Error;

/// A writer, by the octets that it holds, the room that it has left where that is bounded, and its faults.
pub trait Writer {
    ghost sink: { Sink Self };

    /// Writes these octets after those that the writer holds. After a refusal a front of them was written. `NoRoom` comes only
    /// where the room is bounded and too small, `File` only where the writer's count of faults rose, or is at its last
    /// value, `Memory` only from a writer that takes memory.
    fn write(&mut self, octets: &[u8]) -> Result<(), Error>
        ensures { Writes sink ⊥ ⊥ octets.now self.old result self.new };
}
