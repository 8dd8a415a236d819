//! Reading a PHC string, field by field. Each step takes a remainder: nothing where the text has ended, or what stands
//! after a `$`.
ghost use Rattle.std.specs.Prelude.{◌≡◌, ◌≢◌, ℕ, ◌∷◌, List, All, IfOk, IfErr, MatchOption};
ghost use Rattle.std.specs.Bool.{Decides};
ghost use Rattle.phc_core.specs.Remainders.{seen, Cuts, HashRest, SaltRest, ParamsRest, VersionRest, NoHashRest, NoSaltRest, NoParamsRest, NoVersionRest};

use crate::decimal::Decimal;
use crate::error::Error;
use crate::output::Output;
use crate::params_string::ParamsString;
use crate::salt::Salt;
use octet_core::decimal_of;

/// The first field of a text, and what comes after its `$`.
pub(crate) fn cut(text: &str) -> (&str, Option<&str>)
    ensures { Cuts text.now result.0.now (seen result.1) }
{
    match text.split_once('$') {
        Some((field, rest)) => (field, Some(rest)),
        None => (text, None),
    }
}

/// What comes after `v=` in a field that begins so.
fn version_digits(field: &str) -> Option<&str>
    ensures { MatchOption result ((r : List ℕ) → field.now ≡ 118 ∷ 61 ∷ r → ⊥)
        (λ x. field.now ≡ 118 ∷ 61 ∷ x.now) }
{
    match field.strip_prefix('v') {
        Some(rest) => rest.strip_prefix('='),
        None => None,
    }
}

/// Whether the field has no `=`.
fn lacks_equals(field: &str) -> bool
    ensures { Decides result (All (λ b. b ≢ 61) field.now) }
{
    !field.contains('=')
}

/// The hash, where there is one.
fn read_hash(rest: Option<&str>) -> Result<Option<Output>, Error>
    ensures ok { IfOk result (λ h. HashRest (seen rest.entry) h) }
    ensures err { IfErr result (λ e. (e ≡ Error.EncodingInvalid) × NoHashRest (seen rest.entry)) }
{
    let Some(text) = rest else {
        return Ok(None);
    };
    let Ok(hash) = Output::read(text) else {
        return Err(Error::EncodingInvalid);
    };
    Ok(Some(hash))
}

/// The salt and the hash.
fn read_salt(rest: Option<&str>) -> Result<(Option<Salt>, Option<Output>), Error>
    ensures ok { IfOk result (λ v. SaltRest (seen rest.entry) v) }
    ensures err { IfErr result (λ e. (e ≡ Error.EncodingInvalid) × NoSaltRest (seen rest.entry)) }
{
    let Some(text) = rest else {
        return Ok((None, None));
    };
    let (field, behind) = cut(text);
    let Ok(salt) = Salt::read(field) else {
        return Err(Error::EncodingInvalid);
    };
    let Ok(hash) = read_hash(behind) else {
        return Err(Error::EncodingInvalid);
    };
    Ok((Some(salt), hash))
}

/// The parameters, the salt and the hash. A field with an `=` is the parameters.
fn read_params(rest: Option<&str>) -> Result<(ParamsString, Option<Salt>, Option<Output>), Error>
    ensures ok { IfOk result (λ v. ParamsRest (seen rest.entry) v) }
    ensures err { IfErr result (λ e. (e ≡ Error.EncodingInvalid) × NoParamsRest (seen rest.entry)) }
{
    let Some(text) = rest else {
        return Ok((ParamsString::new(), None, None));
    };
    let (field, behind) = cut(text);
    if lacks_equals(field) {
        let Ok((salt, hash)) = read_salt(rest) else {
            return Err(Error::EncodingInvalid);
        };
        return Ok((ParamsString::new(), salt, hash));
    }
    let Ok(params) = ParamsString::read(field) else {
        return Err(Error::EncodingInvalid);
    };
    let Ok((salt, hash)) = read_salt(behind) else {
        return Err(Error::EncodingInvalid);
    };
    Ok((params, salt, hash))
}

/// The version, the parameters, the salt and the hash. No parameter is named `v`, so a field that begins `v=` is the
/// version.
pub(crate) fn read_version(
    rest: Option<&str>,
) -> Result<(Option<Decimal>, ParamsString, Option<Salt>, Option<Output>), Error>
    ensures ok { IfOk result (λ v. VersionRest (seen rest.entry) v) }
    ensures err { IfErr result (λ e. (e ≡ Error.EncodingInvalid)
        × NoVersionRest (seen rest.entry)) }
{
    let Some(text) = rest else {
        return Ok((None, ParamsString::new(), None, None));
    };
    let (field, behind) = cut(text);
    let Some(digits) = version_digits(field) else {
        let Ok((params, salt, hash)) = read_params(rest) else {
            return Err(Error::EncodingInvalid);
        };
        return Ok((None, params, salt, hash));
    };
    let Some(version) = decimal_of(digits) else {
        return Err(Error::EncodingInvalid);
    };
    let Ok((params, salt, hash)) = read_params(behind) else {
        return Err(Error::EncodingInvalid);
    };
    Ok((Some(version), params, salt, hash))
}
