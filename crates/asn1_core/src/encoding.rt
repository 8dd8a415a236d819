//! An identifier's octets from its subidentifiers.
ghost use Rattle.std.specs.Prelude.{◌≡◌, ◌<◌, ◌≤◌, ◌+◌, ◌++◌, ◌∷◌, length, take, drop, IfSome, IfNone};
ghost use Rattle.asn1_core.specs.Identifier.{sub, subs};

/// A subidentifier in base 128: an array, and the place from which its octets are there.
fn sub_octets(n: u32) -> ([u8; 5], usize)
    ensures small { result.1 < 5 }
    ensures is { drop result.1 result.0 ≡ sub n }
{
    let mut octets = [0; 5];
    octets[4] = (n % 128) as u8;
    let mut from = 4;
    let mut m = n / 128;
    while m > 0 {
        from -= 1;
        octets[from] = 128 + (m % 128) as u8;
        m /= 128;
    }
    (octets, from)
}

/// Writes one subidentifier after the first `used` octets, and says how many octets there are then. None where there
/// would be more than 39.
fn put(kept: &mut [u8; 39], used: usize, n: u32) -> Option<usize>
    requires { used ≤ 39 }
    ensures some { IfSome result (λ k. (k ≤ 39) × (take k kept.new ≡ take used kept.old ++ sub n)) }
    ensures none { IfNone result (39 < length (take used kept.old) + length (sub n)) }
{
    let (octets, from) = sub_octets(n);
    let more = &octets[from..];
    let to = used + more.len();
    if to > 39 {
        return None;
    }
    kept[used..to].copy_from_slice(more);
    Some(to)
}

/// Writes these subidentifiers, and says how many octets they are. None where they are more than 39.
pub(crate) fn octets_of(kept: &mut [u8; 39], first: u32, rest: &[u32]) -> Option<usize>
    ensures some { IfSome result (λ k. (k ≤ 39) × (take k kept.new ≡ subs (first ∷ rest.now))) }
    ensures none { IfNone result (39 < length (subs (first ∷ rest.now))) }
{
    let mut used = match put(kept, 0, first) {
        Some(k) => k,
        None => return None,
    };
    for n in rest {
        match put(kept, used, *n) {
            Some(k) => used = k,
            None => return None,
        }
    }
    Some(used)
}
