//! The PKCS#8 text of a private key.
ghost use Rattle.std.specs.Prelude.{IfOk, IfErr};
ghost use Rattle.std.specs.Option.{option_copied};
ghost use Rattle.key_files.specs.Keys.{IsKeyOf, RefusesKey, RefusesEc, RefusesPlain, RefusesRsa};
ghost use Rattle.key_files.specs.declared.key_form.KeyForm.TheVariants as forms;

use crate::ec_private_key::read_ec_private_key;
use crate::encrypted_key::opened_key;
use crate::key_form::KeyForm;
use crate::key_refusal::KeyRefusal;
use crate::rsa_private_key::read_rsa_private_key;
use crate::wrapping::{wrapped_ec, wrapped_rsa};
use asn1_core::Octets;
use pkcs8::PrivateKeyInfoRef;
use std::alloc::Global;

/// The same octets, where they are the PKCS#8 text of a private key.
fn plain_key(alloc: Global, octets: &[u8]) -> Result<Octets, KeyRefusal>
    ensures ok { IfOk result (IsKeyOf forms.Plain octets.now None 0) }
    ensures err { IfErr result (RefusesPlain octets.now) }
{
    match PrivateKeyInfoRef::try_from(octets) {
        Ok(_) => Ok(Octets::from_slice(alloc, octets)?),
        Err(_) => Err(KeyRefusal::Malformed),
    }
}

/// An RSAPrivateKey as PKCS#8.
fn rsa_key(alloc: Global, octets: &[u8]) -> Result<Octets, KeyRefusal>
    ensures ok { IfOk result (IsKeyOf forms.Rsa octets.now None 0) }
    ensures err { IfErr result (RefusesRsa octets.now) }
{
    match read_rsa_private_key(octets) {
        Ok(_) => wrapped_rsa(alloc, octets),
        Err(_) => Err(KeyRefusal::Malformed),
    }
}

/// An ECPrivateKey as PKCS#8.
fn ec_key(alloc: Global, octets: &[u8]) -> Result<Octets, KeyRefusal>
    ensures ok { IfOk result (IsKeyOf forms.Ec octets.now None 0) }
    ensures err { IfErr result (RefusesEc octets.now) }
{
    match read_ec_private_key(octets) {
        Ok(key) => match key.parameters {
            Some(parameters) => wrapped_ec(alloc, parameters, octets),
            None => Err(KeyRefusal::NoCurve),
        },
        Err(_) => Err(KeyRefusal::Malformed),
    }
}

/// The PKCS#8 text of the private key that a block of this form has. An encrypted one is opened under the password, in at most so many
/// rounds; keys of RSA and of elliptic curves are wrapped.
///
/// `Malformed`, `UnknownForm` and `NoCurve` as they say; of encrypted keys `UnknownScheme`, `TooManyRounds`, `PasswordMissing` and
/// `NotOpened`, in this order. `Memory` may come in the place of each.
pub fn key_text(
    alloc: Global,
    form: KeyForm,
    octets: &[u8],
    password: Option<&str>,
    limit: u32,
) -> Result<Octets, KeyRefusal>
    ensures ok { IfOk result (IsKeyOf form octets.now (option_copied password.entry) limit) }
    ensures err { IfErr result
        (RefusesKey form octets.now (option_copied password.entry) limit) }
{
    match form {
        KeyForm::Plain => plain_key(alloc, octets),
        KeyForm::Encrypted => opened_key(alloc, octets, password, limit),
        KeyForm::Rsa => rsa_key(alloc, octets),
        KeyForm::Ec => ec_key(alloc, octets),
        KeyForm::Other => Err(KeyRefusal::UnknownForm),
    }
}
