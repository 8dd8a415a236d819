//! Places in octets.
ghost use Rattle.std.specs.Prelude.{◌≤◌, length};
ghost use Rattle.p12.specs.Place.{UpTo};

/// Where octets are in a slice that was parsed: `bytes[start .. start + len]`.
#[derive(Clone, Copy, Debug, Drop)]
pub struct Place {
    pub start: usize,
    pub len: usize,
}

impl Place {
    /// The place of these octets where they end there.
    pub(crate) fn ending_at(end: usize, octets: &[u8]) -> Place
        requires { length octets.now ≤ end }
        ensures { UpTo end octets.now result }
    {
        Place {
            start: end - octets.len(),
            len: octets.len(),
        }
    }
}
