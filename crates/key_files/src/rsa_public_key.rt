//! Public keys of RSA.
ghost use Rattle.std.specs.Prelude.{◌≡◌};
ghost use Rattle.asn1_core.specs.Gives.{Gives, Parses, ReadsAs};
ghost use Rattle.asn1_core.specs.Reading.{whole};
ghost use Rattle.asn1_core.specs.declared.error.Error.TheVariants as errors;
ghost use Rattle.key_files.specs.Reading.{rsa_public_all, rsa_public_at};
ghost use Rattle.key_files.specs.Rsa.{IsRsaPublicKey, seen_rsa};

use crate::rsa_private_key::{RsaNumbers, read_integer};
use asn1_core::{Error, Reader, SliceReader, Tag, read_inner};

/// The parts of a public key.
#[tactic(auto, using(crate::proofs::KeyTexts::ended_fails), unfolding(crate::specs::Reading::rsa_public_all))]
fn read_parts<'a>(body: SliceReader<'a>) -> Result<RsaNumbers<'a>, Error>
    ensures { Gives seen_rsa result (rsa_public_all body.entry.rest.now) }
{
    let mut body = body;
    let modulus = read_integer(&mut body)?;
    let exponent = read_integer(&mut body)?;
    body.finish()?;
    Ok(RsaNumbers { modulus, exponent })
}

/// A public key.
#[tactic(auto, unfolding(crate::specs::Reading::rsa_public_at))]
fn read_key<'a>(r: &mut SliceReader<'a>) -> Result<RsaNumbers<'a>, Error>
    ensures { ReadsAs rsa_public_at seen_rsa r.old.rest.now r.new.rest.now result }
{
    let mut ahead = *r;
    let body = read_inner(&mut ahead, Tag::SEQUENCE)?;
    let key = read_parts(body)?;
    *r = ahead;
    Ok(key)
}

/// A public key, to the end of the octets.
#[tactic(auto, using(crate::proofs::KeyTexts::ended_fails))]
fn read_whole<'a>(octets: &'a [u8]) -> Result<RsaNumbers<'a>, Error>
    ensures { Gives seen_rsa result (whole rsa_public_at octets.now) }
{
    let mut r = SliceReader::new(octets);
    let key = read_key(&mut r)?;
    r.finish()?;
    Ok(key)
}

/// The numbers of the RSAPublicKey whose text these octets are. `Malformed` exactly where they are none.
pub(crate) fn read_rsa_public_key(octets: &[u8]) -> Result<RsaNumbers<'_>, Error>
    ensures { Parses errors.Malformed IsRsaPublicKey seen_rsa octets.now result }
{
    read_whole(octets)
}
