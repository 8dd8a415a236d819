//! Writing a PHC string, field by field.
ghost use Rattle.std.specs.Prelude.{Some};
ghost use Rattle.std.specs.Fmt.{DisplaysOnOk};
ghost use Rattle.phc_core.specs.PasswordHash.{tail, hash_rest, salt_rest, params_rest, version_rest};

use crate::output::Output;
use crate::params_string::ParamsString;
use crate::password_hash::PasswordHash;
use crate::salt::Salt;
use base64::display::Base64Display;
use base64::engine::general_purpose::STANDARD_NO_PAD;
use std::fmt;

/// Writes the hash, where there is one.
fn write_hash<W: fmt::Write>(hash: Option<Output>, f: &mut fmt::Formatter<W>) -> fmt::Result
    ensures { DisplaysOnOk W.write_str_gives f.old result (Some (tail (hash_rest hash))) f.new }
{
    let Some(octets) = hash else {
        return Ok(());
    };
    let symbols = Base64Display::new(octets.as_ref(), &STANDARD_NO_PAD);
    write!(f, "${symbols}")
}

/// Writes the salt and the hash, where there is a salt.
fn write_salt<W: fmt::Write>(
    salt: Option<Salt>,
    hash: Option<Output>,
    f: &mut fmt::Formatter<W>,
) -> fmt::Result
    ensures { DisplaysOnOk W.write_str_gives f.old result
        (Some (tail (salt_rest salt hash))) f.new }
{
    let Some(octets) = salt else {
        return Ok(());
    };
    let symbols = Base64Display::new(octets.as_ref(), &STANDARD_NO_PAD);
    write!(f, "${symbols}")?;
    write_hash(hash, f)
}

/// Writes the parameters, the salt and the hash.
fn write_params<W: fmt::Write>(
    params: &ParamsString,
    salt: Option<Salt>,
    hash: Option<Output>,
    f: &mut fmt::Formatter<W>,
) -> fmt::Result
    ensures { DisplaysOnOk W.write_str_gives f.old result
        (Some (tail (params_rest params.now salt hash))) f.new }
{
    let field = params.as_text();
    if !field.is_empty() {
        write!(f, "${field}")?;
    }
    write_salt(salt, hash, f)
}

/// Writes all that comes after the identifier.
pub(crate) fn write_version<W: fmt::Write>(
    hash: &PasswordHash,
    f: &mut fmt::Formatter<W>,
) -> fmt::Result
    ensures { DisplaysOnOk W.write_str_gives f.old result
        (Some
        (tail (version_rest hash.now.version hash.now.params hash.now.salt hash.now.hash))) f.new }
{
    if let Some(n) = hash.version {
        write!(f, "$v={n}")?;
    }
    write_params(&hash.params, hash.salt, hash.hash, f)
}
