//! Headers at the front of octets.
ghost use Rattle.std.specs.Prelude.{◌≡◌, ◌<◌, ◌≤◌, List, length, IfOk, IfErr, IsTrue};
ghost use Rattle.asn1_core.specs.Reading.{len_at, header_at, long_at, number_on};
ghost use Rattle.asn1_core.specs.Der.{IsHeader, is_tag};
ghost use Rattle.asn1_core.specs.Gives.{Gives};
ghost use Rattle.asn1_core.specs.declared.error.Error.TheVariants.{Malformed};

use crate::error::Error;

/// The number of up to four octets, the most significant first.
fn number(octets: &[u8]) -> u32
    requires { length octets.now < 5 }
    ensures { result ≡ number_on 0 octets.now }
{
    match octets {
        [a] => *a as u32,
        [a, b] => u32::from(*a) * 256 + u32::from(*b),
        [a, b, c] => (u32::from(*a) * 256 + u32::from(*b)) * 256 + u32::from(*c),
        [a, b, c, d] => {
            ((u32::from(*a) * 256 + u32::from(*b)) * 256 + u32::from(*c)) * 256 + u32::from(*d)
        }
        _ => 0,
    }
}

/// The length in the `k` octets at the front: at least 128, in the fewest octets.
fn long(k: usize, octets: &[u8]) -> Result<(u32, &[u8]), Error>
    ensures exact { Gives (λ x. (x.0, x.1.now)) result (long_at k octets.now) }
    ensures shorter { IfOk result (λ x. length x.1.now ≤ length octets.now) }
{
    if k == 0 || k > 4 || k > octets.len() || octets[0] == 0 {
        return Err(Error::Malformed);
    }
    let (front, rest) = octets.split_at(k);
    let n = number(front);
    if n < 128 {
        return Err(Error::Malformed);
    }
    Ok((n, rest))
}

/// The length at the front.
#[tactic(auto, unfolding(crate::specs::Reading::len_at))]
fn length_at(octets: &[u8]) -> Result<(u32, &[u8]), Error>
    ensures malformed { IfErr result (λ e. e ≡ Malformed) }
    ensures exact { Gives (λ x. (x.0, x.1.now)) result (len_at octets.now) }
    ensures shorter { IfOk result (λ x. length x.1.now < length octets.now) }
{
    match octets.split_first() {
        None => Err(Error::Malformed),
        Some((b, rest)) => {
            if *b < 128 {
                Ok((u32::from(*b), rest))
            } else {
                long(usize::from(*b) - 128, rest)
            }
        }
    }
}

/// The header at the front: its tag octet, its length and what follows it.
#[tactic(auto, unfolding(crate::specs::Reading::header_at))]
pub(crate) fn header(octets: &[u8]) -> Result<(u8, u32, &[u8]), Error>
    ensures exact { Gives (λ x. (record { tag = x.0; size = x.1 }, x.2.now)) result
        (header_at octets.now) }
    ensures tag { IfOk result (λ x. IsTrue (is_tag x.0)) }
    ensures short { IfOk result (λ x. IsHeader x.1) }
    ensures shorter { IfOk result (λ x. length x.2.now < length octets.now) }
    ensures malformed { IfErr result (λ e. e ≡ Malformed) }
{
    match octets.split_first() {
        None => Err(Error::Malformed),
        Some((tag, behind)) => {
            let (n, rest) = length_at(behind)?;
            if *tag % 32 == 31 || 1 + (behind.len() - rest.len()) + n as usize > 0xffff_ffff {
                return Err(Error::Malformed);
            }
            Ok((*tag, n, rest))
        }
    }
}
