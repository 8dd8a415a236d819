//! A writer into a buffer.
ghost use Rattle.std.specs.Prelude.{◌≡◌, ◌-◌, ◌≤◌, OnErr, length, take, Some};
ghost use Rattle.asn1_core.specs.Writing.{Writes};
ghost use Rattle.std.specs.Borrow.{GName};

use crate::error::Error;
use crate::writer::Writer;

/// A writer into a borrowed buffer, from its front.
#[derive(Drop)]
pub struct SliceWriter<'b> {
    buffer: &'b mut [u8],
    used: usize,
    ghost fits: { used ≤ length buffer.now },
}

impl<'b> SliceWriter<'b> {
    /// A writer that holds nothing, with the whole buffer as its room.
    pub fn new(buffer: &'b mut [u8]) -> SliceWriter<'b>
        ensures none { result.used ≡ 0 }
        ensures all { length result.buffer.now ≡ length buffer.entry.now }
    {
        SliceWriter { buffer, used: 0 }
    }

    /// What was written.
    pub fn finish(self) -> &'b [u8]
        ensures { result.now ≡ take self.entry.used self.entry.buffer.now }
    {
        let SliceWriter { buffer, used } = self;
        &buffer[..used]
    }
}

impl<'b> Writer for SliceWriter<'b> {
    ghost sink = { record {
      holds = λ w m. take w.used w.buffer.now ≡ m;
      room = λ w. Some (length w.buffer.now - w.used);
      faults = λ w. 0;
      memory = ⊥;
      Place = GName;
      place = λ w. w.buffer.ghost_name;
    } };

    /// `NoRoom` exactly where the rest of the buffer is smaller than these octets, and nothing is written then.
    fn write(&mut self, octets: &[u8]) -> Result<(), Error>
        ensures written { Writes (⟦<SliceWriter<'b> as Writer>⟧.sink) ⊥ ⊥ octets.now
            self.old result self.new }
        ensures unmoved { OnErr result (self.new ≡ self.old) }
    {
        let room = self.buffer.len() - self.used;
        if room < octets.len() {
            return Err(Error::NoRoom);
        }
        let from = self.used;
        let to = from + octets.len();
        self.buffer[from..to].copy_from_slice(octets);
        self.used = to;
        Ok(())
    }
}
