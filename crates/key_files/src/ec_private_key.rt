//! Private keys of elliptic curves, as far as they are read.
ghost use Rattle.std.specs.Prelude.{◌≡◌};
ghost use Rattle.asn1_core.specs.Gives.{Gives, Parses, ReadsAs};
ghost use Rattle.asn1_core.specs.Reading.{whole};
ghost use Rattle.asn1_core.specs.Texts.{seen_option};
ghost use Rattle.asn1_core.specs.declared.error.Error.TheVariants as errors;
ghost use Rattle.der_core.specs.BitString.{seen_bits};
ghost use Rattle.spki.specs.Seen.{borrowed_any};
ghost use Rattle.key_files.specs.Reading.{curve_at, curve_option_at, ec_all, ec_at, key_octets_at, point_at, point_option_at};
ghost use Rattle.key_files.specs.Ec.{IsEcPrivateKey, seen_ec};

use crate::rsa_private_key::read_integer;
use asn1_core::{Error, Reader, SliceReader, Tag, read_inner};
use der_core::{AnyRef, BitStringRef, Decode};

/// What is read of an ECPrivateKey (RFC 5915 section 3). It lends its parts from the octets that it was read from.
#[derive(Clone, Copy, Drop)]
pub(crate) struct EcPrivateKey<'a> {
    /// The parameters of the curve, where they are there.
    pub(crate) parameters: Option<AnyRef<'a>>,
    /// The public key, where it is there.
    pub(crate) public_key: Option<BitStringRef<'a>>,
}

/// A constructed element of the context class, with the number 1.
const CONTEXT_1: Tag = Tag { first: 0xa1 };

/// The octets of the key itself.
fn read_key_octets<'a>(r: &mut SliceReader<'a>) -> Result<&'a [u8], Error>
    ensures { ReadsAs key_octets_at (λ x. x.now) r.old.rest.now r.new.rest.now result }
{
    let value = read_inner(r, Tag::OCTET_STRING)?;
    Ok(value.rest)
}

/// The one element within `[0]`.
#[tactic(auto, unfolding(crate::specs::Reading::curve_at))]
fn read_curve<'a>(r: &mut SliceReader<'a>) -> Result<AnyRef<'a>, Error>
    ensures { ReadsAs curve_at borrowed_any r.old.rest.now r.new.rest.now result }
{
    let mut ahead = *r;
    let inner = read_inner(&mut ahead, Tag::CONTEXT_0)?;
    let parameters = AnyRef::from_der(inner.rest)?;
    *r = ahead;
    Ok(parameters)
}

/// The BIT STRING within `[1]`.
#[tactic(auto, unfolding(crate::specs::Reading::point_at))]
fn read_point<'a>(r: &mut SliceReader<'a>) -> Result<BitStringRef<'a>, Error>
    ensures { ReadsAs point_at (λ s. seen_bits s.unused_bits s.octets.now) r.old.rest.now
        r.new.rest.now result }
{
    let mut ahead = *r;
    let inner = read_inner(&mut ahead, CONTEXT_1)?;
    let point = BitStringRef::from_der(inner.rest)?;
    *r = ahead;
    Ok(point)
}

/// The parameters, or none where they are left out.
#[tactic(auto, unfolding(crate::specs::Reading::curve_option_at))]
fn read_curve_option<'a>(r: &mut SliceReader<'a>) -> Result<Option<AnyRef<'a>>, Error>
    ensures { ReadsAs curve_option_at (seen_option borrowed_any) r.old.rest.now r.new.rest.now
        result }
{
    if r.is_finished() {
        return Ok(None);
    }
    let next = r.peek_tag()?;
    if next.first != 0xa0 {
        return Ok(None);
    }
    let parameters = read_curve(r)?;
    Ok(Some(parameters))
}

/// The public key, or none where it is left out.
#[tactic(auto, unfolding(crate::specs::Reading::point_option_at))]
fn read_point_option<'a>(r: &mut SliceReader<'a>) -> Result<Option<BitStringRef<'a>>, Error>
    ensures { ReadsAs point_option_at (seen_option (λ s. seen_bits s.unused_bits s.octets.now))
        r.old.rest.now r.new.rest.now result }
{
    if r.is_finished() {
        return Ok(None);
    }
    let next = r.peek_tag()?;
    if next.first != 0xa1 {
        return Ok(None);
    }
    let point = read_point(r)?;
    Ok(Some(point))
}

/// The parts of a private key.
#[tactic(auto, using(crate::proofs::KeyTexts::ended_fails), unfolding(crate::specs::Reading::ec_all))]
fn read_parts<'a>(body: SliceReader<'a>) -> Result<EcPrivateKey<'a>, Error>
    ensures { Gives seen_ec result (ec_all body.entry.rest.now) }
{
    let mut body = body;
    let _ = read_integer(&mut body)?;
    let _ = read_key_octets(&mut body)?;
    let parameters = read_curve_option(&mut body)?;
    let public_key = read_point_option(&mut body)?;
    body.finish()?;
    Ok(EcPrivateKey {
        parameters,
        public_key,
    })
}

/// A private key.
#[tactic(auto, unfolding(crate::specs::Reading::ec_at))]
fn read_key<'a>(r: &mut SliceReader<'a>) -> Result<EcPrivateKey<'a>, Error>
    ensures { ReadsAs ec_at seen_ec r.old.rest.now r.new.rest.now result }
{
    let mut ahead = *r;
    let body = read_inner(&mut ahead, Tag::SEQUENCE)?;
    let key = read_parts(body)?;
    *r = ahead;
    Ok(key)
}

/// A private key, to the end of the octets.
#[tactic(auto, using(crate::proofs::KeyTexts::ended_fails))]
fn read_whole<'a>(octets: &'a [u8]) -> Result<EcPrivateKey<'a>, Error>
    ensures { Gives seen_ec result (whole ec_at octets.now) }
{
    let mut r = SliceReader::new(octets);
    let key = read_key(&mut r)?;
    r.finish()?;
    Ok(key)
}

/// The ECPrivateKey whose text these octets are. `Malformed` exactly where they are none.
pub(crate) fn read_ec_private_key(octets: &[u8]) -> Result<EcPrivateKey<'_>, Error>
    ensures { Parses errors.Malformed IsEcPrivateKey seen_ec octets.now result }
{
    read_whole(octets)
}
