//! The test of an identifier's octets, in one pass.
ghost use Rattle.std.specs.Prelude.{◌≡◌, ◌<◌, length, IsTrue};
ghost use Rattle.asn1_core.specs.Identifier.{is_identifier, subidentifiers, next_state};

/// What the current subidentifier has after one octet more: 0 after its last octet, none where the octet may not be.
fn after(n: u32, octet: u8) -> Option<u32>
    ensures { result ≡ next_state n octet }
{
    if n >= 0x200_0000 || (n == 0 && octet == 128) {
        return None;
    }
    Some(if octet < 128 {
        0
    } else {
        128 * n + u32::from(octet - 128)
    })
}

fn are_subidentifiers(octets: &[u8]) -> bool
    ensures { result ≡ subidentifiers 0 octets.now }
{
    let mut n: u32 = 0;
    for octet in octets {
        match after(n, *octet) {
            None => return false,
            Some(next) => n = next,
        }
    }
    n == 0
}

pub(crate) fn is_identifier(octets: &[u8]) -> bool
    ensures is { result ≡ is_identifier octets.now }
    ensures short { IsTrue result → length octets.now < 40 }
{
    !octets.is_empty() && octets.len() < 40 && are_subidentifiers(octets)
}
