//! The arcs of an identifier's octets.
ghost use Rattle.std.specs.Prelude.{◌≡◌, length, slice_get, IsTrue};
ghost use Rattle.asn1_core.specs.Identifier.{is_identifier};
ghost use Rattle.asn1_core.specs.Arcs.{arcs, values};

/// The number of arcs: one more than subidentifiers, of which each ends with an octet below 128.
pub(crate) fn count(octets: &[u8]) -> usize
    requires { IsTrue (is_identifier octets.now) }
    ensures { result ≡ length (arcs octets.now) }
{
    let mut count = 1;
    for octet in octets {
        if *octet < 128 {
            count += 1;
        }
    }
    count
}

/// The subidentifier at place `k`, counted from 0.
fn number_at(octets: &[u8], k: usize) -> Option<u32>
    requires { IsTrue (is_identifier octets.now) }
    ensures { result ≡ slice_get (values 0 octets.now) k }
{
    let mut n: u32 = 0;
    let mut left = k;
    for octet in octets {
        if *octet < 128 {
            if left == 0 {
                return Some(128 * n + u32::from(*octet));
            }
            left -= 1;
            n = 0;
        } else {
            n = 128 * n + u32::from(*octet - 128);
        }
    }
    None
}

/// The arc at place `i`, counted from 0. The first subidentifier holds two arcs.
pub(crate) fn at(octets: &[u8], i: usize) -> Option<u32>
    requires { IsTrue (is_identifier octets.now) }
    ensures { result ≡ slice_get (arcs octets.now) i }
{
    if i > 1 {
        return number_at(octets, i - 1);
    }
    match number_at(octets, 0) {
        None => None,
        Some(n) => {
            let first = if n < 80 { n / 40 } else { 2 };
            if i == 0 {
                Some(first)
            } else {
                Some(n - 40 * first)
            }
        }
    }
}
