//! Private keys of RSA, as far as they are read.
ghost use Rattle.std.specs.Prelude.{◌≡◌};
ghost use Rattle.asn1_core.specs.Gives.{Gives, Parses, ReadsAs};
ghost use Rattle.asn1_core.specs.Reading.{whole};
ghost use Rattle.asn1_core.specs.declared.error.Error.TheVariants as errors;
ghost use Rattle.key_files.specs.Reading.{after_exponent, after_primes, integer_at, rsa_all, rsa_at};
ghost use Rattle.key_files.specs.Rsa.{IsRsaPrivateKey, seen_rsa};

use crate::reading::read_others;
use asn1_core::{Error, Reader, SliceReader, Tag, read_inner};

/// What an RSAPrivateKey (RFC 8017 appendix A.1.2) and an RSAPublicKey have in common. It lends its parts from the octets that it was
/// read from.
#[derive(Clone, Copy, Drop)]
pub(crate) struct RsaNumbers<'a> {
    /// The value octets of the INTEGER that is the modulus.
    pub(crate) modulus: &'a [u8],
    /// The same of the public exponent.
    pub(crate) exponent: &'a [u8],
}

/// The value octets of one INTEGER.
pub(crate) fn read_integer<'a>(r: &mut SliceReader<'a>) -> Result<&'a [u8], Error>
    ensures { ReadsAs integer_at (λ x. x.now) r.old.rest.now r.new.rest.now result }
{
    let value = read_inner(r, Tag::INTEGER)?;
    Ok(value.rest)
}

/// What comes after the two primes, to the end: two exponents and a coefficient, and the other primes.
#[tactic(auto, using(crate::proofs::KeyTexts::ended_fails), unfolding(crate::specs::Reading::after_primes))]
fn read_after_primes<'a>(
    body: SliceReader<'a>,
    numbers: RsaNumbers<'a>,
) -> Result<RsaNumbers<'a>, Error>
    ensures { Gives seen_rsa result (after_primes (seen_rsa numbers.entry) body.entry.rest.now) }
{
    let mut body = body;
    let _ = read_integer(&mut body)?;
    let _ = read_integer(&mut body)?;
    let _ = read_integer(&mut body)?;
    let _ = read_others(&mut body)?;
    body.finish()?;
    Ok(numbers)
}

/// What comes after the public exponent, to the end: the private exponent, two primes, and what comes after them.
#[tactic(auto, unfolding(crate::specs::Reading::after_exponent))]
fn read_after_exponent<'a>(
    body: SliceReader<'a>,
    numbers: RsaNumbers<'a>,
) -> Result<RsaNumbers<'a>, Error>
    ensures { Gives seen_rsa result (after_exponent (seen_rsa numbers.entry) body.entry.rest.now) }
{
    let mut body = body;
    let _ = read_integer(&mut body)?;
    let _ = read_integer(&mut body)?;
    let _ = read_integer(&mut body)?;
    read_after_primes(body, numbers)
}

/// The parts of a private key.
#[tactic(auto, unfolding(crate::specs::Reading::rsa_all))]
fn read_parts<'a>(body: SliceReader<'a>) -> Result<RsaNumbers<'a>, Error>
    ensures { Gives seen_rsa result (rsa_all body.entry.rest.now) }
{
    let mut body = body;
    let _ = read_integer(&mut body)?;
    let modulus = read_integer(&mut body)?;
    let exponent = read_integer(&mut body)?;
    read_after_exponent(body, RsaNumbers { modulus, exponent })
}

/// A private key.
#[tactic(auto, unfolding(crate::specs::Reading::rsa_at))]
fn read_key<'a>(r: &mut SliceReader<'a>) -> Result<RsaNumbers<'a>, Error>
    ensures { ReadsAs rsa_at seen_rsa r.old.rest.now r.new.rest.now result }
{
    let mut ahead = *r;
    let body = read_inner(&mut ahead, Tag::SEQUENCE)?;
    let key = read_parts(body)?;
    *r = ahead;
    Ok(key)
}

/// A private key, to the end of the octets.
#[tactic(auto, using(crate::proofs::KeyTexts::ended_fails))]
fn read_whole<'a>(octets: &'a [u8]) -> Result<RsaNumbers<'a>, Error>
    ensures { Gives seen_rsa result (whole rsa_at octets.now) }
{
    let mut r = SliceReader::new(octets);
    let key = read_key(&mut r)?;
    r.finish()?;
    Ok(key)
}

/// The numbers of the RSAPrivateKey whose text these octets are. `Malformed` exactly where they are none.
pub(crate) fn read_rsa_private_key(octets: &[u8]) -> Result<RsaNumbers<'_>, Error>
    ensures { Parses errors.Malformed IsRsaPrivateKey seen_rsa octets.now result }
{
    read_whole(octets)
}
