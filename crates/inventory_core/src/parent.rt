//! The parent of a certificate.
ghost use Rattle.std.specs.Prelude.{Some};
ghost use Rattle.inventory_core.specs.Parents.{parent_text};

use std::fmt;

/// The parent of a certificate: the one whose subject is its issuer. It is written as `self`, a
/// number or `-`.
#[derive(Clone, Copy, Debug, PartialEq, Eq)]
pub enum Parent {
    /// It is its own issuer.
    Itself,
    /// The certificate of this number.
    Of(usize),
    /// No certificate of the store.
    Unknown,
}

impl fmt::Display for Parent {
    ghost output = { λ above. Some (parent_text above) };

    fn fmt<W: fmt::Write>(&self, f: &mut fmt::Formatter<W>) -> fmt::Result {
        match self {
            Parent::Itself => f.write_str("self"),
            Parent::Of(k) => write!(f, "{k}"),
            Parent::Unknown => f.write_str("-"),
        }
    }
}
