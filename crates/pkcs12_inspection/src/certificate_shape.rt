//! Whether octets can be a certificate.
use asn1_core::{Error, Reader, SliceReader, Tag, read_inner};

/// Reads the outer form of a Certificate (RFC 5280 section 4.1): the certificate proper, its
/// algorithm, and its signature.
fn read_certificate(octets: &[u8]) -> Result<(), Error> {
    let mut r = SliceReader::new(octets);
    let mut body = read_inner(&mut r, Tag::SEQUENCE)?;
    r.finish()?;
    read_inner(&mut body, Tag::SEQUENCE)?;
    read_inner(&mut body, Tag::SEQUENCE)?;
    read_inner(&mut body, Tag::BIT_STRING)?;
    body.finish()
}

/// Whether the octets have the outer form of a certificate. What is inside is not looked at.
pub fn has_certificate_shape(octets: &[u8]) -> bool {
    read_certificate(octets).is_ok()
}
