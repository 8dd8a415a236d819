//! The callers of README.md.
ghost use Rattle.std.specs.Prelude.{◌≡◌, IfOk, IfErr};
ghost use Rattle.octet_core.specs.Draw.{DrawsIvAndSalt};
ghost use Rattle.pkcs5.specs.Generation.{recommended};
ghost use Rattle.pkcs5.specs.Opening.{Opens};
ghost use Rattle.pkcs5.specs.Refusals.{RefusesToEncryptIn};
ghost use Rattle.pkcs5.specs.Scheme.{SchemeText};
ghost use Rattle.pkcs5.specs.SchemeOpening.{SchemeOpens};
ghost use Rattle.pkcs5.specs.declared.encryption_scheme.EncryptionScheme.{EncryptionScheme};

use super::encryption::{KEY, PASSWORD, SEALED_KEY, key_parameters};
use super::texts::AES_256;
use asn1_core::Octets;
use mac_modes::Draw;
use pkcs5::opening_laws::decryption_undoes_encryption;
use pkcs5::pbes2::Parameters;
use pkcs5::{EncryptionScheme, Error, Result};
use std::alloc::Global;

/// The text of a ciphertext of another program, beside which the scheme is in DER.
fn opened(alloc: Global, scheme: &[u8], ciphertext: &[u8], password: &[u8]) -> Result<Octets>
    ensures { IfOk result (λ m. (s : EncryptionScheme) × SchemeText scheme.now s
        × SchemeOpens s password.now ciphertext.now m) }
{
    let Ok(scheme) = EncryptionScheme::try_from(scheme) else {
        return Err(Error::DecryptFailed);
    };
    let text = scheme.decrypt(alloc, password, ciphertext)?;
    Ok(text)
}

/// A ciphertext, with the parameters that open it.
#[derive(Drop)]
struct Ciphertext {
    parameters: Parameters,
    octets: Octets,
}

/// A text under a password by scrypt and AES-256, with an initialization vector and a salt that are drawn.
fn sealed<D: Draw>(alloc: Global, draw: &mut D, text: &[u8], password: &[u8]) -> Result<Ciphertext>
    ensures { IfOk result (λ s. DrawsIvAndSalt (D.left draw.old) (D.left draw.new)
        (λ iv salt. (s.parameters ≡ recommended iv salt)
        × Opens s.parameters password.now s.octets text.now)) }
{
    let parameters = Parameters::generate_scrypt(draw)?;
    let octets = parameters.encrypt(alloc, password, text)?;
    Ok(Ciphertext { parameters, octets })
}

/// The text encrypted and decrypted again, which is the same text.
fn there_and_back(
    alloc: Global,
    parameters: &Parameters,
    password: &[u8],
    text: &[u8],
) -> Result<Octets>
    ensures ok { IfOk result (λ m. m ≡ text.now) }
    ensures err { IfErr result (λ e. RefusesToEncryptIn parameters.now e) }
{
    let sealed = parameters.encrypt(alloc, password, text)?;
    decryption_undoes_encryption();
    parameters.decrypt(alloc, password, sealed.as_slice())
}

#[test]
fn a_key_of_openssl_is_opened(rt: HostRuntime) {
    let key = opened(rt.alloc(), AES_256, &SEALED_KEY, &PASSWORD).expect(&rt, "a key");
    assert!(rt; key.as_slice() == KEY.as_slice());
}

#[test]
fn a_text_comes_back(rt: HostRuntime) {
    let parameters = key_parameters(&rt);
    let text = there_and_back(rt.alloc(), &parameters, b"hunter43", b"a text").expect(
        &rt, "a text",
    );
    assert!(rt; text.as_slice() == b"a text".as_slice());
}
