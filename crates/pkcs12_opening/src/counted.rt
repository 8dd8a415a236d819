//! Numbers of things.
use std::fmt;

/// A number and what is counted, by its name for one of them.
#[derive(Clone, Copy)]
pub struct Counted(pub usize, pub &'static str);

impl fmt::Display for Counted {
    fn fmt<W: fmt::Write>(&self, f: &mut fmt::Formatter<W>) -> fmt::Result {
        let count = self.0;
        let name = self.1;
        write!(f, "{count} {name}")?;
        if count == 1 { Ok(()) } else { f.write_str("s") }
    }
}
