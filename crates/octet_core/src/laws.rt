//! A law of octets, as a call that does nothing.
ghost use Rattle.std.specs.Prelude.{◌<◌, All};

/// Octets are numbers below 256. This lets a proof say so of octets whose type a clause does not see.
pub fn are_octets(octets: &[u8])
    ensures { All (λ octet. octet < 256) octets.now }
{
    let _ = octets.len();
}
