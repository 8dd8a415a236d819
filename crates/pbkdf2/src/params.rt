//! The parameters of PBKDF2 in password hashes.
ghost use Rattle.std.specs.Prelude.{◌≡◌, ◌<◌, ◌≤◌, ◌⊎◌, IfOk, IfErr};
ghost use Rattle.pbkdf2.specs.Settings.{InBounds, recommended};
ghost use Rattle.pbkdf2.specs.Algorithm.{recommended_for};

use crate::algorithm::Algorithm;
use phc_core::Error;
use std::fmt;
use std::marker::Model;
use std::str::FromStr;

/// The number of rounds, 1,000 or more, and the length of the output in octets, 10 to 64.
#[derive(Clone, Copy, Debug, PartialEq, Eq)]
pub struct Params {
    rounds: u32,
    output_len: usize,
}

impl Model for Params {
    ghost use Rattle.std.specs.Prelude.{◌≡◌};
    ghost use Rattle.pbkdf2.specs.Settings.{Settings, InBounds};

    ghost Value = { Settings };

    ghost view = { λ p. record { rounds = p.rounds; output_len = p.output_len } };

    ghost invariant = { λ p. InBounds (record { rounds = p.rounds; output_len = p.output_len }) };

    ghost inverse = { λ s. record { rounds = s.rounds; output_len = s.output_len } };
}

impl Params {
    /// The least length of an output, in octets.
    pub const MIN_OUTPUT_LENGTH: usize = 10;
    /// The greatest length of an output, in octets.
    pub const MAX_OUTPUT_LENGTH: usize = 64;
    /// The least number of rounds.
    pub const MIN_ROUNDS: u32 = 1000;
    /// The recommended length of an output, in octets.
    pub const RECOMMENDED_OUTPUT_LENGTH: usize = 32;
    /// The recommended number of rounds of HMAC-SHA-256 (OWASP's cheat sheet on password storage).
    pub const RECOMMENDED_ROUNDS: u32 = 600_000;
    /// The recommended number of rounds of HMAC-SHA-512 (OWASP's cheat sheet on password storage).
    pub const RECOMMENDED_SHA512_ROUNDS: u32 = 210_000;
    /// The recommended parameters.
    pub const RECOMMENDED: Self = Params {
        rounds: Self::RECOMMENDED_ROUNDS,
        output_len: Self::RECOMMENDED_OUTPUT_LENGTH,
    };
    /// The recommended parameters of HMAC-SHA-512.
    pub(crate) const RECOMMENDED_SHA512: Self = Params {
        rounds: Self::RECOMMENDED_SHA512_ROUNDS,
        output_len: Self::RECOMMENDED_OUTPUT_LENGTH,
    };

    /// The parameters that are recommended for this algorithm.
    pub const fn recommended_for(algorithm: Algorithm) -> Self
        ensures { result ≡ recommended_for algorithm }
    {
        match algorithm {
            Algorithm::Pbkdf2Sha256 => Params::RECOMMENDED,
            Algorithm::Pbkdf2Sha512 => Params::RECOMMENDED_SHA512,
        }
    }

    /// This number of rounds, and 32 octets of output. `ParamsInvalid` exactly where there are fewer than 1,000 rounds.
    pub const fn new(rounds: u32) -> Result<Self, Error>
        ensures ok { IfOk result (λ p. (p ≡ record { rounds = rounds; output_len = 32 })
            × (1000 ≤ rounds)) }
        ensures err { IfErr result (λ e. (e ≡ Error.ParamsInvalid) × (rounds < 1000)) }
    {
        Self::new_with_output_len(rounds, Self::RECOMMENDED_OUTPUT_LENGTH)
    }

    /// This number of rounds and this length of the output in octets. `ParamsInvalid` exactly where there are fewer than
    /// 1,000 rounds, or the length is less than 10 or more than 64.
    pub const fn new_with_output_len(rounds: u32, output_len: usize) -> Result<Self, Error>
        ensures ok { IfOk result (λ p. (p ≡ record { rounds = rounds; output_len = output_len })
            × InBounds p) }
        ensures err { IfErr result (λ e. (e ≡ Error.ParamsInvalid)
            × ((rounds < 1000) ⊎ (output_len < 10) ⊎ (64 < output_len))) }
    {
        if rounds < Self::MIN_ROUNDS
            || output_len < Self::MIN_OUTPUT_LENGTH
            || output_len > Self::MAX_OUTPUT_LENGTH
        {
            return Err(Error::ParamsInvalid);
        }
        Ok(Params { rounds, output_len })
    }

    /// The number of rounds.
    pub const fn rounds(self) -> u32
        ensures value { result ≡ self.rounds }
        ensures bounds { InBounds self }
    {
        self.rounds
    }

    /// The length of the output in octets.
    pub const fn output_len(self) -> usize
        ensures value { result ≡ self.output_len }
        ensures bounds { InBounds self }
    {
        self.output_len
    }
}

impl Default for Params {
    ghost is_default = { λ p. p ≡ recommended };

    fn default() -> Self {
        Params::RECOMMENDED
    }
}

impl fmt::Display for Params {
    ghost use Rattle.std.specs.Prelude.{Some, decimal};

    ghost output = { λ p. Some (decimal p.rounds) };

    /// Prints the number of rounds.
    fn fmt<W: fmt::Write>(&self, f: &mut fmt::Formatter<W>) -> fmt::Result {
        let rounds = self.rounds;
        write!(f, "{rounds}")
    }
}

impl TryFrom<u32> for Params {
    ghost use Rattle.std.specs.Prelude.{MatchResult};
    ghost use Rattle.phc_core.specs.declared.error.Error.TheVariants.{ParamsInvalid};

    type Error = Error;

    ghost try_from_gives = { λ n r. MatchResult r
        (λ p. (p ≡ record { rounds = n; output_len = 32 }) × (1000 ≤ n))
        (λ e. (e ≡ ParamsInvalid) × (n < 1000)) };

    fn try_from(rounds: u32) -> Result<Self, Error> {
        Params::new(rounds)
    }
}

impl FromStr for Params {
    ghost use Rattle.std.specs.Prelude.{MatchResult, ℕ};
    ghost use Rattle.phc_core.specs.declared.error.Error.TheVariants.{EncodingInvalid, ParamsInvalid};
    ghost use Rattle.pbkdf2.specs.Settings.{IsNumber};

    type Err = Error;

    ghost from_str_gives = { λ t r. MatchResult r
        (λ p. IsNumber t p.rounds × (p.output_len ≡ 32))
        (λ e. ((e ≡ EncodingInvalid) × ((n : ℕ) → IsNumber t n → ⊥))
        ⊎ ((e ≡ ParamsInvalid) × ((n : ℕ) × (IsNumber t n × (n < 1000))))) };

    /// Reads a number of rounds as `u32` reads it, and calls `new`: `EncodingInvalid` exactly where the text is no number
    /// below 2^32.
    fn from_str(text: &str) -> Result<Self, Error> {
        match text.parse::<u32>() {
            Ok(rounds) => Params::new(rounds),
            Err(_) => Err(Error::EncodingInvalid),
        }
    }
}
