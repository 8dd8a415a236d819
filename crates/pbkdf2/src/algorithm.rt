//! The algorithms of password hashes.
ghost use Rattle.std.specs.Prelude.{◌≡◌, IfOk, IfErr};
ghost use Rattle.pbkdf2.specs.Algorithm.{identifier_of, NamesNone};

use phc_core::{Error, Ident};
use std::convert::AsStr;
use std::fmt;
use std::str::FromStr;

/// PBKDF2 over HMAC with one of these hash functions.
#[derive(Clone, Copy, Debug, PartialEq, Eq, PartialOrd, Ord, Hash)]
pub enum Algorithm {
    /// `pbkdf2-sha256`
    Pbkdf2Sha256,
    /// `pbkdf2-sha512`
    Pbkdf2Sha512,
}

impl Algorithm {
    /// The identifier of PBKDF2 with HMAC-SHA-256.
    pub const PBKDF2_SHA256_ID: &'static str = "pbkdf2-sha256";
    /// The identifier of PBKDF2 with HMAC-SHA-512.
    pub const PBKDF2_SHA512_ID: &'static str = "pbkdf2-sha512";
    /// The recommended algorithm (OWASP's cheat sheet on password storage).
    pub const RECOMMENDED: Self = Self::Pbkdf2Sha256;

    /// The algorithm of this identifier. `Algorithm` exactly where it is none of the two.
    pub fn new(id: &str) -> Result<Self, Error>
        ensures ok { IfOk result (λ a. id.now ≡ identifier_of a) }
        ensures err { IfErr result (λ e. (e ≡ Error.Algorithm) × NamesNone id.now) }
    {
        if id == Self::PBKDF2_SHA256_ID {
            return Ok(Self::Pbkdf2Sha256);
        }
        if id == Self::PBKDF2_SHA512_ID {
            return Ok(Self::Pbkdf2Sha512);
        }
        Err(Error::Algorithm)
    }

    /// The identifier.
    pub const fn to_str(self) -> &'static str
        ensures { result.now ≡ identifier_of self }
    {
        match self {
            Self::Pbkdf2Sha256 => Self::PBKDF2_SHA256_ID,
            Self::Pbkdf2Sha512 => Self::PBKDF2_SHA512_ID,
        }
    }
}

impl Default for Algorithm {
    ghost use Rattle.pbkdf2.specs.declared.algorithm.Algorithm.TheVariants.{Pbkdf2Sha256};

    ghost is_default = { λ a. a ≡ Pbkdf2Sha256 };

    fn default() -> Self {
        Self::RECOMMENDED
    }
}

impl AsStr for Algorithm {
    ghost text = { identifier_of };

    fn as_str(&self) -> &str {
        self.to_str()
    }
}

impl fmt::Display for Algorithm {
    ghost use Rattle.std.specs.Prelude.{Some};

    ghost output = { λ a. Some (identifier_of a) };

    /// Prints the identifier.
    fn fmt<W: fmt::Write>(&self, f: &mut fmt::Formatter<W>) -> fmt::Result {
        f.write_str(self.to_str())
    }
}

impl FromStr for Algorithm {
    ghost use Rattle.std.specs.Prelude.{MatchResult};
    ghost use Rattle.phc_core.specs.declared.error.Error.TheVariants as cause;

    type Err = Error;

    ghost from_str_gives = { λ t r. MatchResult r (λ a. t ≡ identifier_of a)
        (λ e. (e ≡ cause.Algorithm) × NamesNone t) };

    fn from_str(id: &str) -> Result<Self, Error> {
        Algorithm::new(id)
    }
}

impl<'a> TryFrom<&'a str> for Algorithm {
    ghost use Rattle.std.specs.Prelude.{MatchResult};
    ghost use Rattle.phc_core.specs.declared.error.Error.TheVariants as cause;

    type Error = Error;

    ghost try_from_gives = { λ t r. MatchResult r (λ a. t.now ≡ identifier_of a)
        (λ e. (e ≡ cause.Algorithm) × NamesNone t.now) };

    fn try_from(id: &'a str) -> Result<Self, Error> {
        Algorithm::new(id)
    }
}

impl From<Algorithm> for Ident {
    ghost from_gives = { λ a i. i ≡ identifier_of a };

    fn from(algorithm: Algorithm) -> Ident {
        let Ok(id) = Ident::new(algorithm.to_str()) else {
            unreachable!();
        };
        id
    }
}
