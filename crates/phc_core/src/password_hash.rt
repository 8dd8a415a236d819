//! PHC strings.
ghost use Rattle.std.specs.Prelude.{◌≡◌, IfOk, IfErr};
ghost use Rattle.phc_core.specs.PasswordHash.{phc_text, Phc};
ghost use Rattle.phc_core.specs.declared.password_hash.PasswordHash.{PasswordHash};

use crate::decimal::Decimal;
use crate::error::Error;
use crate::ident::Ident;
use crate::output::Output;
use crate::params_string::ParamsString;
use crate::reading::{cut, read_version};
use crate::salt::Salt;
use crate::writing::write_version;
use octet_core::Text;
use std::alloc::Global;
use std::fmt;
use std::str::FromStr;

/// The value of a PHC string: `$id`, then `$v=n`, `$name=value,name=value`, `$salt` and `$hash`, each where it is there
/// (the PHC string format, "Specification"). Salt and hash are in standard Base64 without padding.
#[derive(Clone, Copy, Debug, PartialEq, Eq)]
pub struct PasswordHash {
    pub algorithm: Ident,
    pub version: Option<Decimal>,
    pub params: ParamsString,
    pub salt: Option<Salt>,
    /// The output. It has a place in the text only after a salt.
    pub hash: Option<Output>,
}

impl PasswordHash {
    /// The value of a text. `EncodingInvalid` exactly where the text is no PHC string.
    pub fn new(text: &str) -> Result<PasswordHash, Error>
        ensures ok { IfOk result (λ h. Phc text.now h) }
        ensures err { IfErr result (λ e. (e ≡ Error.EncodingInvalid)
            × ((h : PasswordHash) → Phc text.now h → ⊥)) }
    {
        let Some(inner) = text.strip_prefix('$') else {
            return Err(Error::EncodingInvalid);
        };
        let (id, behind) = cut(inner);
        let Ok(algorithm) = Ident::new(id) else {
            return Err(Error::EncodingInvalid);
        };
        let Ok((version, params, salt, hash)) = read_version(behind) else {
            return Err(Error::EncodingInvalid);
        };
        Ok(PasswordHash {
            algorithm,
            version,
            params,
            salt,
            hash,
        })
    }

    /// The text, without the hash where there is no salt. The only refusal is `Memory`.
    pub fn to_text(&self, alloc: Global) -> Result<Text, Error>
        ensures ok { IfOk result (λ t. t ≡ phc_text self.now) }
        ensures err { IfErr result (λ e. e ≡ Error.Memory) }
    {
        Ok(Text::from_string(self.to_string(alloc)?))
    }
}

impl fmt::Display for PasswordHash {
    ghost use Rattle.std.specs.Prelude.{Some};

    ghost output = { λ h. Some (phc_text h) };

    /// Prints the text, without the hash where there is no salt.
    fn fmt<W: fmt::Write>(&self, f: &mut fmt::Formatter<W>) -> fmt::Result {
        let id = self.algorithm.as_str();
        write!(f, "${id}")?;
        write_version(self, f)
    }
}

impl FromStr for PasswordHash {
    ghost use Rattle.std.specs.Prelude.{MatchResult};
    ghost use Rattle.phc_core.specs.declared.error.Error.TheVariants.{EncodingInvalid};

    type Err = Error;

    ghost from_str_gives = { λ t r. MatchResult r (λ h. Phc t h) (λ e. (e ≡ EncodingInvalid)
        × ((h : PasswordHash) → Phc t h → ⊥)) };

    fn from_str(text: &str) -> Result<PasswordHash, Error> {
        PasswordHash::new(text)
    }
}
