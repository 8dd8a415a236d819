//! The private keys that `create` is asked for, with their certificates and names.
ghost use Rattle.std.specs.Prelude.{IfOk, IfErr, map};
ghost use Rattle.pkcs12_arguments.specs.Pairs.{ArePairs, RefusesPairs};

use crate::arguments_error::ArgumentsError;
use std::alloc::Global;

/// A private key and its certificate, by the paths of their files; `-` is the standard input.
#[derive(Clone, Copy, Debug)]
pub struct Pair<'a> {
    pub key: &'a str,
    pub certificate: &'a str,
    /// The friendly name of both.
    pub name: Option<&'a str>,
}

/// The pairs of keys and certificates of the same places, with the names of the same places where there are names. `Wrong` exactly
/// where there are not as many certificates as keys, or some names and not as many.
pub fn pairs_of<'a>(
    alloc: Global,
    keys: &[&'a str],
    certificates: &[&'a str],
    names: &[&'a str],
) -> Result<Vec<Pair<'a>>, ArgumentsError>
    ensures ok { IfOk result (λ pairs. ArePairs (map (λ k. k.now) keys.now)
        (map (λ c. c.now) certificates.now) (map (λ n. n.now) names.now) pairs.items) }
    ensures err { IfErr result (RefusesPairs (map (λ k. k.now) keys.now)
        (map (λ c. c.now) certificates.now) (map (λ n. n.now) names.now)) }
{
    if keys.len() != certificates.len() {
        return Err(ArgumentsError::new("give one --certificate for each --key"));
    }
    if !names.is_empty() && names.len() != keys.len() {
        return Err(ArgumentsError::new("give one --name for each --key, or none"));
    }
    let mut pairs = Vec::new(alloc);
    for place in 0..keys.len() {
        pairs.push(Pair {
            key: keys[place],
            certificate: certificates[place],
            name: names.get(place).copied(),
        })?;
    }
    Ok(pairs)
}
