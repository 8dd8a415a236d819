//! Parts of certificates.
ghost use Rattle.std.specs.Option.{option_copied};
ghost use Rattle.asn1_core.specs.Gives.{Gives, Parses, ReadsAs};
ghost use Rattle.asn1_core.specs.Texts.{seen_option};
ghost use Rattle.asn1_core.specs.declared.error.Error.TheVariants as errors;
ghost use Rattle.x509_names.specs.Parts.{HasParts, seen_parts};
ghost use Rattle.x509_names.specs.PartsReading.{certificate_at, signed_all, signed_at, two_elements, validity_at, version_at};

use asn1_core::{Error, Reader, SliceReader, Tag, read_inner, read_raw};

/// The parts of a certificate (RFC 5280 section 4.1) that people ask for. Each is a whole DER element of its octets,
/// but `serial_number`, the value of the INTEGER.
#[derive(Clone, Copy, Drop)]
pub struct Parts<'a> {
    pub serial_number: &'a [u8],
    pub issuer: &'a [u8],
    /// The times from and to which it is valid, where the validity has two elements.
    pub validity: Option<(&'a [u8], &'a [u8])>,
    pub subject: &'a [u8],
}

/// The version, which the certificate may leave out.
#[tactic(auto, unfolding(crate::specs::PartsReading::version_at))]
fn read_version<'a>(r: &mut SliceReader<'a>) -> Result<Option<&'a [u8]>, Error>
    ensures { ReadsAs version_at option_copied r.old.rest.now r.new.rest.now result }
{
    if r.is_finished() {
        return Ok(None);
    }
    let next = r.peek_tag()?;
    if next != Tag::CONTEXT_0 {
        return Ok(None);
    }
    let version = read_inner(r, Tag::CONTEXT_0)?;
    Ok(Some(version.rest))
}

/// Two elements, to the end.
#[tactic(auto, using(crate::proofs::CertificateFronts::ended_fails), unfolding(crate::specs::PartsReading::two_elements))]
fn read_two<'a>(body: SliceReader<'a>) -> Result<(&'a [u8], &'a [u8]), Error>
    ensures { Gives (λ x. (x.0.now, x.1.now)) result (two_elements body.entry.rest.now) }
{
    let mut body = body;
    let first = read_raw(&mut body)?;
    let second = read_raw(&mut body)?;
    body.finish()?;
    Ok((first, second))
}

/// The two times of a validity, or none where it does not have just two elements.
#[tactic(auto, unfolding(crate::specs::PartsReading::validity_at))]
fn read_validity<'a>(r: &mut SliceReader<'a>) -> Result<Option<(&'a [u8], &'a [u8])>, Error>
    ensures { ReadsAs validity_at (seen_option (λ x. (x.0.now, x.1.now)))
        r.old.rest.now r.new.rest.now result }
{
    let body = read_inner(r, Tag::SEQUENCE)?;
    match read_two(body) {
        Ok(times) => Ok(Some(times)),
        Err(_) => Ok(None),
    }
}

/// The parts of what is signed.
#[tactic(auto, unfolding(crate::specs::PartsReading::signed_all))]
fn read_signed_parts<'a>(body: SliceReader<'a>) -> Result<Parts<'a>, Error>
    ensures { Gives seen_parts result (signed_all body.entry.rest.now) }
{
    let mut body = body;
    let _ = read_version(&mut body)?;
    let serial_number = read_inner(&mut body, Tag::INTEGER)?;
    let _ = read_inner(&mut body, Tag::SEQUENCE)?;
    let issuer = read_raw(&mut body)?;
    let validity = read_validity(&mut body)?;
    let subject = read_raw(&mut body)?;
    Ok(Parts {
        serial_number: serial_number.rest,
        issuer,
        validity,
        subject,
    })
}

/// The part that is signed.
#[tactic(auto, unfolding(crate::specs::PartsReading::signed_at))]
fn read_signed<'a>(r: &mut SliceReader<'a>) -> Result<Parts<'a>, Error>
    ensures { ReadsAs signed_at seen_parts r.old.rest.now r.new.rest.now result }
{
    let mut ahead = *r;
    let body = read_inner(&mut ahead, Tag::SEQUENCE)?;
    let parts = read_signed_parts(body)?;
    *r = ahead;
    Ok(parts)
}

/// A certificate, of which only the front is read.
#[tactic(auto, unfolding(crate::specs::PartsReading::certificate_at))]
fn read_certificate<'a>(r: &mut SliceReader<'a>) -> Result<Parts<'a>, Error>
    ensures { ReadsAs certificate_at seen_parts r.old.rest.now r.new.rest.now result }
{
    let mut ahead = *r;
    let mut body = read_inner(&mut ahead, Tag::SEQUENCE)?;
    let parts = read_signed(&mut body)?;
    *r = ahead;
    Ok(parts)
}

impl<'a> Parts<'a> {
    /// The parts of a certificate. `Malformed` exactly where the octets do not begin as a certificate does, up to its
    /// subject: a SEQUENCE, in it a SEQUENCE, in it the version where there is one, the serial number, a SEQUENCE, the
    /// issuer, a SEQUENCE and the subject. What comes after these is not read. It takes no memory.
    pub fn read(certificate: &'a [u8]) -> Result<Parts<'a>, Error>
        ensures { Parses errors.Malformed HasParts seen_parts certificate.now result }
    {
        let mut r = SliceReader::new(certificate);
        read_certificate(&mut r)
    }
}
