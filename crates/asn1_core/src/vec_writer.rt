//! A writer that keeps what is written.
ghost use Rattle.std.specs.Prelude.{◌≡◌, [], None, IfOk, IfErr, OnErr};
ghost use Rattle.asn1_core.specs.Writing.{Writes};
ghost use Rattle.asn1_core.specs.declared.error.Error.TheVariants.{Memory};

use crate::error::Error;
use crate::writer::Writer;
use octet_core::Octets;
use std::alloc::Global;

/// A writer into memory of its own.
#[derive(Debug, Drop)]
pub struct VecWriter {
    octets: Octets,
}

impl VecWriter {
    /// A writer that holds nothing. This takes no memory yet.
    pub fn new(alloc: Global) -> VecWriter
        ensures { result.octets ≡ [] }
    {
        VecWriter {
            octets: Octets::new(alloc),
        }
    }

    /// An equal writer in memory of its own. The only refusal is `Memory`.
    pub fn try_clone(&self, alloc: Global) -> Result<VecWriter, Error>
        ensures ok { IfOk result (λ w. w ≡ self.now) }
        ensures err { IfErr result (λ e. e ≡ Memory) }
    {
        Ok(VecWriter {
            octets: self.octets.try_clone(alloc)?,
        })
    }

    /// What was written, with no copy.
    pub fn into_octets(self) -> Octets
        ensures { result ≡ self.octets }
    {
        let VecWriter { octets } = self;
        octets
    }
}

impl Writer for VecWriter {
    ghost sink = { record {
      holds = λ w m. w.octets ≡ m;
      room = λ w. None;
      faults = λ w. 0;
      memory = Unit {0};
      Place = Unit {0};
      place = λ w. tt;
    } };

    /// The only refusal is `Memory`, and nothing is written then.
    fn write(&mut self, octets: &[u8]) -> Result<(), Error>
        ensures written { Writes (⟦<VecWriter as Writer>⟧.sink) ⊥ ⊥ octets.now
            self.old result self.new }
        ensures unmoved { OnErr result (self.new ≡ self.old) }
    {
        Ok(self.octets.extend(octets)?)
    }
}
