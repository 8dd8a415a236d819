//! A draw over a reader.
ghost use Rattle.std.specs.Prelude.{◌≡◌, None, OnOk, OnErr};
ghost use Rattle.std.specs.Io.KnownBytes.{Consumes};
ghost use Rattle.octet_core.specs.Draw.{FailsShort, Fills};
ghost use Rattle.octet_core.specs.Faults.{HasCause, one_more};
ghost use Rattle.octet_core.specs.Adapter.{Adapter};

use crate::draw::Draw;
use crate::failed::Failed;
use std::io::Read;
use std::marker::Model;

/// A draw over any reader, such as a random device. As a draw it tells nothing of the octets to come.
#[derive(Debug, Drop)]
pub struct ReadDraw<R> {
    reader: R,
    faults: u64,
}

impl<R> Model for ReadDraw<R> {
    ghost Value = { Adapter R };

    ghost view = { λ d. record { inner = d.reader; faults = d.faults } };
}

impl<R: Read + Drop> ReadDraw<R> {
    /// A draw of what the reader gives.
    pub fn new(reader: R) -> ReadDraw<R>
        ensures { result ≡ record { inner = reader; faults = 0 } }
    {
        ReadDraw { reader, faults: 0 }
    }
}

impl<R: Read + Drop> Draw for ReadDraw<R> {
    ghost left = { λ _. None };

    ghost faults = { λ d. d.faults };

    /// Fills `out` with the reader's next octets. `Failed` where a read fails, also one that was only interrupted, or gives
    /// nothing before `out` is full; that read is the last.
    fn fill(&mut self, out: &mut [u8]) -> Result<(), Failed>
        ensures drawn { Fills None None result out.new }
        ensures short { FailsShort None result out.old }
        ensures cause { HasCause self.old.faults self.new.faults result }
        ensures read { OnOk result
            (Consumes (R.remaining self.old.inner) (R.remaining self.new.inner) out.new) }
        ensures no_fault { OnOk result (self.new.faults ≡ self.old.faults) }
        ensures fault { OnErr result (self.new.faults ≡ one_more self.old.faults) }
    {
        let mut at = 0;
        while at < out.len() {
            match self.reader.read(&mut out[at..]) {
                Ok(count) if count > 0 => at += count,
                _ => {
                    self.faults = self.faults.saturating_add(1);
                    return Err(Failed);
                }
            }
        }
        Ok(())
    }
}
