//! Parameters of PBKDF2 as a parameter text: `i`, the number of rounds, and `l`, the length of the output.
ghost use Rattle.std.specs.Prelude.{◌≡◌, ◌≤◌, ◌<◌, ◌^◌, ℕ, decimal, IfOk, IfErr, IfSome, IfNone};
ghost use Rattle.phc_core.specs.ParamsString.{pairs_of};
ghost use Rattle.pbkdf2.specs.Settings.{recommended};
ghost use Rattle.pbkdf2.specs.Params.{PairLeads, PairFault, Leads, Fails, GivesSettings, Refuses, params_text};

use crate::params::Params;
use phc_core::{Error, Ident, ParamsString, Value};
use std::marker::Model;

/// What the pairs have given so far.
#[derive(Clone, Copy)]
struct Found {
    rounds: u32,
    output_len: usize,
}

impl Model for Found {
    ghost use Rattle.std.specs.Prelude.{◌≤◌};
    ghost use Rattle.pbkdf2.specs.Settings.{Settings};

    ghost Value = { Settings };

    ghost view = { λ f. record { rounds = f.rounds; output_len = f.output_len } };

    ghost invariant = { λ f. (1000 ≤ f.rounds) × (f.output_len ≤ 64) };

    ghost inverse = { λ s. record { rounds = s.rounds; output_len = s.output_len } };
}

/// The number of rounds that a value gives, where it gives one of 1,000 or more.
fn rounds_in(value: Value) -> Option<u32>
    ensures found { IfSome result (λ n. (value ≡ decimal n) × (n < 2 ^ 32) × (1000 ≤ n)) }
    ensures none { IfNone result ((n : ℕ) → value ≡ decimal n → n < 2 ^ 32 → 1000 ≤ n → ⊥) }
{
    let Ok(rounds) = value.decimal() else {
        return None;
    };
    if rounds < Params::MIN_ROUNDS {
        return None;
    }
    Some(rounds)
}

/// The length of an output that a value gives, where it gives one of at most 64 octets.
fn length_in(value: Value) -> Option<usize>
    ensures found { IfSome result (λ n. (value ≡ decimal n) × (n ≤ 64)) }
    ensures none { IfNone result ((n : ℕ) → value ≡ decimal n → n ≤ 64 → ⊥) }
{
    let Ok(len) = value.decimal() else {
        return None;
    };
    let len = len as usize;
    if len > Params::MAX_OUTPUT_LENGTH {
        return None;
    }
    Some(len)
}

/// What is found once this pair is read too.
fn read_pair(found: Found, name: Ident, value: Value) -> Result<Found, Error>
    ensures ok { IfOk result (λ t. PairLeads name value found t) }
    ensures err { IfErr result (λ e. PairFault name value e) }
{
    if name.as_str() == "i" {
        return match rounds_in(value) {
            Some(rounds) => Ok(Found {
                rounds,
                output_len: found.output_len,
            }),
            None => Err(Error::ParamInvalid { name }),
        };
    }
    if name.as_str() == "l" {
        return match length_in(value) {
            Some(output_len) => Ok(Found {
                rounds: found.rounds,
                output_len,
            }),
            None => Err(Error::ParamInvalid { name }),
        };
    }
    Err(Error::ParamsInvalid)
}

/// What the pairs give, in their order.
fn read_pairs(params: &ParamsString) -> Result<Found, Error>
    ensures ok { IfOk result (λ t. Leads (pairs_of params.now) recommended t) }
    ensures err { IfErr result (λ e. Fails (pairs_of params.now) recommended e) }
{
    let mut found = Found {
        rounds: Params::RECOMMENDED_ROUNDS,
        output_len: Params::RECOMMENDED_OUTPUT_LENGTH,
    };
    for k in 0..params.len() {
        let Some((name, value)) = params.get(k) else {
            unreachable!();
        };
        match read_pair(found, name, value) {
            Ok(next) => found = next,
            Err(fault) => return Err(fault),
        }
    }
    Ok(found)
}

impl<'a> TryFrom<&'a ParamsString> for Params {
    ghost use Rattle.std.specs.Prelude.{MatchResult};

    type Error = Error;

    ghost try_from_gives = { λ t r. MatchResult r (GivesSettings t.now) (Refuses t.now) };

    /// The parameters that the list gives. The pairs are read in their order, and the first fault comes: `ParamInvalid`
    /// with the name `i` or `l`, where `i` is no decimal number or under 1,000, or `l` is none or over 64;
    /// `ParamsInvalid` for another name. Where none of these is found, it is `ParamsInvalid` for an `l` under 10. Without
    /// an `i` there are 600,000 rounds, without an `l` 32 octets.
    fn try_from(params: &'a ParamsString) -> Result<Self, Error> {
        match read_pairs(params) {
            Ok(found) => Params::new_with_output_len(found.rounds, found.output_len),
            Err(fault) => Err(fault),
        }
    }
}

impl TryFrom<Params> for ParamsString {
    ghost use Rattle.std.specs.Prelude.{MatchResult};

    type Error = Error;

    ghost try_from_gives = { λ p r. MatchResult r (λ t. t ≡ params_text p) (λ _. ⊥) };

    /// The list of `i`, the rounds, and `l`, the length of the output. It never refuses.
    #[tactic(auto, using(crate::proofs::Written::takes_rounds, crate::proofs::Written::takes_length))]
    fn try_from(params: Params) -> Result<Self, Error> {
        let mut text = ParamsString::new();
        text.add_decimal("i", params.rounds())?;
        text.add_decimal("l", params.output_len() as u32)?;
        Ok(text)
    }
}

impl<'a> TryFrom<&'a Params> for ParamsString {
    ghost use Rattle.std.specs.Prelude.{MatchResult};

    type Error = Error;

    ghost try_from_gives = { λ p r. MatchResult r (λ t. t ≡ params_text p.now) (λ _. ⊥) };

    /// The list of `i`, the rounds, and `l`, the length of the output. It never refuses.
    fn try_from(params: &'a Params) -> Result<Self, Error> {
        ParamsString::try_from(*params)
    }
}
