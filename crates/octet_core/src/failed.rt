//! A call on the outside failed.
ghost use Rattle.std.specs.Prelude.{Some, codes};

use std::error::Error;
use std::fmt;

/// A call on the outside failed: a read, a write or a draw.
#[derive(Clone, Copy, PartialEq, Eq, Debug, Drop)]
pub struct Failed;

impl fmt::Display for Failed {
    ghost output = { λ _. Some (codes "Failed") };

    fn fmt<W: fmt::Write>(&self, f: &mut fmt::Formatter<W>) -> fmt::Result {
        f.write_str("Failed")
    }
}

impl Error for Failed {}
