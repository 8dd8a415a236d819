//! A writer that feeds a digest.
ghost use Rattle.std.specs.Prelude.{None};
ghost use Rattle.std.specs.Borrow.{GName};

use asn1_core::{Error, Writer};
use sha2::Digest;
use std::fmt;

/// Feeds what is written to a digest. It refuses nothing.
#[derive(Drop)]
pub struct DigestWriter<'d, D>(pub &'d mut D);

impl<'d, D: Digest> Writer for DigestWriter<'d, D> {
    ghost sink = { record {
      holds = λ w m. D.holds w.0.now m;
      room = λ w. None;
      faults = λ w. 0;
      memory = ⊥;
      Place = GName;
      place = λ w. w.0.ghost_name;
    } };

    fn write(&mut self, octets: &[u8]) -> Result<(), Error> {
        self.0.update(octets);
        Ok(())
    }
}

/// The digest is not shown.
impl<'d, D> fmt::Debug for DigestWriter<'d, D> {
    fn fmt<W: fmt::Write>(&self, f: &mut fmt::Formatter<W>) -> fmt::Result {
        f.debug_struct("DigestWriter").finish_non_exhaustive()
    }
}
