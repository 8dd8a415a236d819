//! Numbers in the shortest two's complement.
ghost use Rattle.std.specs.Prelude.{◌≡◌, ◌<◌, ◌≤◌, IfOk, IfSome, IfNone};
ghost use Rattle.asn1_core.specs.Reading.{uint_of, number_on};
ghost use Rattle.asn1_core.specs.Gives.{Gives};

use crate::error::Error;

/// The number of these octets, the most significant first, where it is at most `max`.
fn number_up_to(max: u64, octets: &[u8]) -> Option<u64>
    ensures some { IfSome result (λ n. (n ≡ number_on 0 octets.now) × (n ≤ max)) }
    ensures none { IfNone result (max < number_on 0 octets.now) }
{
    let mut n: u64 = 0;
    for b in octets {
        let next = u128::from(n) * 256 + u128::from(*b);
        if next > u128::from(max) {
            return None;
        }
        n = next as u64;
    }
    Some(n)
}

/// The number whose shortest two's complement these octets are (X.690 section 8.3), where it is at most `max`. `Malformed`
/// exactly where they are none, or of a larger or negative number.
#[tactic(auto, unfolding(crate::specs::Reading::uint_of))]
pub fn uint_value(max: u64, octets: &[u8]) -> Result<u64, Error>
    ensures small { IfOk result (λ n. n ≤ max) }
    ensures exact { Gives (λ n. n) result (uint_of max octets.now) }
{
    if octets.is_empty()
        || octets[0] > 127
        || (octets.len() > 1 && octets[0] == 0 && octets[1] < 128)
    {
        return Err(Error::Malformed);
    }
    number_up_to(max, octets).ok_or(Error::Malformed)
}
