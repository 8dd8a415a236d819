//! Certificates, as far as they are read.
ghost use Rattle.std.specs.Prelude.{◌≡◌};
ghost use Rattle.std.specs.Option.{option_copied};
ghost use Rattle.asn1_core.specs.Gives.{Gives, Parses, ReadsAs};
ghost use Rattle.asn1_core.specs.Reading.{whole};
ghost use Rattle.asn1_core.specs.declared.error.Error.TheVariants as errors;
ghost use Rattle.der_core.specs.BitString.{seen_bits};
ghost use Rattle.spki.specs.Seen.{borrowed_algorithm, borrowed_any, seen_public_key};
ghost use Rattle.inventory_core.specs.Certificate.{IsCertificate};
ghost use Rattle.inventory_core.specs.CertificateReading.{any_algorithm_at, after_key, after_signed, bits_at, certificate_at, key_at, maybe_at, serial_at, signed_all, signed_at, tagged_at};
ghost use Rattle.inventory_core.specs.View.{seen_certificate};

use asn1_core::{Error, Reader, SliceReader, Tag, read_inner, read_raw};
use der_core::{BitStringRef, Decode};
use spki::{AlgorithmIdentifierRef, SubjectPublicKeyInfoRef};

/// A certificate (RFC 5280 section 4.1), read as far as its names and its key. It lends its parts
/// from the octets that it was read from.
#[derive(Clone, Copy, Drop)]
pub struct CertificateView<'a> {
    /// The issuer's name, a whole DER element.
    pub issuer: &'a [u8],
    /// The subject's name, a whole DER element.
    pub subject: &'a [u8],
    /// The subject's public key.
    pub spki: SubjectPublicKeyInfoRef<'a>,
}

/// One element of this tag.
fn read_tagged<'a>(r: &mut SliceReader<'a>, tag: u8) -> Result<&'a [u8], Error>
    ensures { ReadsAs (tagged_at tag) (λ x. x.now) r.old.rest.now r.new.rest.now result }
{
    let mut ahead = *r;
    let element = read_raw(&mut ahead)?;
    if element[0] != tag {
        return Err(Error::Malformed);
    }
    *r = ahead;
    Ok(element)
}

/// One element of this tag; `None` where another tag comes next.
#[tactic(auto, unfolding(crate::specs::CertificateReading::maybe_at))]
fn read_maybe<'a>(r: &mut SliceReader<'a>, tag: u8) -> Result<Option<&'a [u8]>, Error>
    ensures { ReadsAs (maybe_at tag) option_copied r.old.rest.now r.new.rest.now result }
{
    if r.is_finished() {
        return Ok(None);
    }
    let next = r.peek_tag()?;
    if next.first != tag {
        return Ok(None);
    }
    let element = read_tagged(r, tag)?;
    Ok(Some(element))
}

/// The value of an INTEGER, which is not empty.
fn read_serial<'a>(r: &mut SliceReader<'a>) -> Result<&'a [u8], Error>
    ensures { ReadsAs serial_at (λ x. x.now) r.old.rest.now r.new.rest.now result }
{
    let mut ahead = *r;
    let value = read_inner(&mut ahead, Tag::INTEGER)?;
    if value.rest.is_empty() {
        return Err(Error::Malformed);
    }
    *r = ahead;
    Ok(value.rest)
}

/// An algorithm.
#[tactic(auto, unfolding(crate::specs::CertificateReading::any_algorithm_at))]
fn read_algorithm<'a>(r: &mut SliceReader<'a>) -> Result<AlgorithmIdentifierRef<'a>, Error>
    ensures { ReadsAs any_algorithm_at borrowed_algorithm r.old.rest.now r.new.rest.now result }
{
    AlgorithmIdentifierRef::decode(r)
}

/// A BIT STRING.
#[tactic(auto, unfolding(crate::specs::CertificateReading::bits_at))]
fn read_bits<'a>(r: &mut SliceReader<'a>) -> Result<BitStringRef<'a>, Error>
    ensures { ReadsAs bits_at (λ s. seen_bits s.unused_bits s.octets.now) r.old.rest.now
        r.new.rest.now result }
{
    BitStringRef::decode(r)
}

/// A public key.
#[tactic(auto, unfolding(crate::specs::CertificateReading::key_at))]
fn read_key<'a>(r: &mut SliceReader<'a>) -> Result<SubjectPublicKeyInfoRef<'a>, Error>
    ensures { ReadsAs key_at
        (λ k. seen_public_key borrowed_any (λ s. seen_bits s.unused_bits s.octets.now) k)
        r.old.rest.now r.new.rest.now result }
{
    SubjectPublicKeyInfoRef::decode(r)
}

/// What may come after the key, to the end.
#[tactic(auto, using(crate::proofs::Certificates::ended_fails), unfolding(crate::specs::CertificateReading::after_key))]
fn read_after_key<'a>(
    body: SliceReader<'a>,
    certificate: CertificateView<'a>,
) -> Result<CertificateView<'a>, Error>
    ensures { Gives seen_certificate result
        (after_key (seen_certificate certificate.entry) body.entry.rest.now) }
{
    let mut body = body;
    let _ = read_maybe(&mut body, 0x81)?;
    let _ = read_maybe(&mut body, 0x82)?;
    let _ = read_maybe(&mut body, 0xa3)?;
    body.finish()?;
    Ok(certificate)
}

/// The parts of what is signed.
#[tactic(auto, unfolding(crate::specs::CertificateReading::signed_all))]
fn read_signed_parts<'a>(body: SliceReader<'a>) -> Result<CertificateView<'a>, Error>
    ensures { Gives seen_certificate result (signed_all body.entry.rest.now) }
{
    let mut body = body;
    let _ = read_maybe(&mut body, 0xa0)?;
    let _ = read_serial(&mut body)?;
    let _ = read_algorithm(&mut body)?;
    let issuer = read_tagged(&mut body, 0x30)?;
    let _ = read_tagged(&mut body, 0x30)?;
    let subject = read_tagged(&mut body, 0x30)?;
    let spki = read_key(&mut body)?;
    read_after_key(
        body,
        CertificateView {
            issuer,
            subject,
            spki,
        },
    )
}

/// The part that is signed.
#[tactic(auto, unfolding(crate::specs::CertificateReading::signed_at))]
fn read_signed<'a>(r: &mut SliceReader<'a>) -> Result<CertificateView<'a>, Error>
    ensures { ReadsAs signed_at seen_certificate r.old.rest.now r.new.rest.now result }
{
    let mut ahead = *r;
    let body = read_inner(&mut ahead, Tag::SEQUENCE)?;
    let certificate = read_signed_parts(body)?;
    *r = ahead;
    Ok(certificate)
}

/// What comes after the part that is signed, to the end.
#[tactic(auto, using(crate::proofs::Certificates::ended_fails), unfolding(crate::specs::CertificateReading::after_signed))]
fn read_after_signed<'a>(
    body: SliceReader<'a>,
    certificate: CertificateView<'a>,
) -> Result<CertificateView<'a>, Error>
    ensures { Gives seen_certificate result
        (after_signed (seen_certificate certificate.entry) body.entry.rest.now) }
{
    let mut body = body;
    let _ = read_algorithm(&mut body)?;
    let _ = read_bits(&mut body)?;
    body.finish()?;
    Ok(certificate)
}

/// A certificate.
#[tactic(auto, unfolding(crate::specs::CertificateReading::certificate_at))]
fn read_certificate<'a>(r: &mut SliceReader<'a>) -> Result<CertificateView<'a>, Error>
    ensures { ReadsAs certificate_at seen_certificate r.old.rest.now r.new.rest.now result }
{
    let mut ahead = *r;
    let mut body = read_inner(&mut ahead, Tag::SEQUENCE)?;
    let signed = read_signed(&mut body)?;
    let certificate = read_after_signed(body, signed)?;
    *r = ahead;
    Ok(certificate)
}

/// A certificate, to the end of the octets.
#[tactic(auto, using(crate::proofs::Certificates::ended_fails))]
fn read_whole<'a>(bytes: &'a [u8]) -> Result<CertificateView<'a>, Error>
    ensures { Gives seen_certificate result (whole certificate_at bytes.now) }
{
    let mut r = SliceReader::new(bytes);
    let certificate = read_certificate(&mut r)?;
    r.finish()?;
    Ok(certificate)
}

impl<'a> CertificateView<'a> {
    /// Reads the DER text of a certificate. `Malformed` exactly where the octets are not one: a
    /// SEQUENCE of the part that is signed, an algorithm and a BIT STRING, the first with version,
    /// serial number, algorithm, issuer, validity, subject, key and the optional parts after it in
    /// their order. Names, validity and extensions are not looked into. It takes no memory.
    pub fn parse(bytes: &'a [u8]) -> Result<CertificateView<'a>, Error>
        ensures { Parses errors.Malformed IsCertificate seen_certificate bytes.now result }
    {
        read_whole(bytes)
    }
}
