//! Bags that are not exported.
use asn1_core::ObjectIdentifier;
use std::fmt;

/// The arcs that the kinds of bags have in common (RFC 7292 appendix D: 1.2.840.113549.1.12.10.1),
/// in octets.
const BAG_TYPES: [u8; 10] = [0x2a, 0x86, 0x48, 0x86, 0xf7, 0x0d, 0x01, 0x0c, 0x0a, 0x01];

/// The kind of a bag that is not exported.
#[derive(Clone, Copy, PartialEq)]
pub enum OtherBag {
    /// keyBag: a private key that is not encrypted.
    PlainKey,
    /// crlBag
    Crl,
    /// secretBag
    Secret,
    /// safeContentsBag
    Nested,
    SdsiCertificate,
    /// A bag of a kind that RFC 7292 does not name.
    Unnamed(ObjectIdentifier),
}

impl OtherBag {
    /// The kind of a bag by its identifier.
    pub fn of(identifier: ObjectIdentifier) -> OtherBag {
        let [front @ .., kind] = identifier.as_bytes() else {
            return OtherBag::Unnamed(identifier);
        };
        if front != BAG_TYPES.as_slice() {
            return OtherBag::Unnamed(identifier);
        }
        match *kind {
            1 => OtherBag::PlainKey,
            4 => OtherBag::Crl,
            5 => OtherBag::Secret,
            6 => OtherBag::Nested,
            _ => OtherBag::Unnamed(identifier),
        }
    }

    /// Whether the bag is of a kind that RFC 7292 does not name.
    pub fn is_unnamed(&self) -> bool {
        matches!(self, OtherBag::Unnamed(_))
    }
}

impl fmt::Display for OtherBag {
    fn fmt<W: fmt::Write>(&self, f: &mut fmt::Formatter<W>) -> fmt::Result {
        match self {
            OtherBag::PlainKey => f.write_str("a private key that is not encrypted (keyBag)"),
            OtherBag::Crl => f.write_str("a certificate revocation list (crlBag)"),
            OtherBag::Secret => f.write_str("a secret (secretBag)"),
            OtherBag::Nested => f.write_str("bags inside a bag (safeContentsBag)"),
            OtherBag::SdsiCertificate => f.write_str("an SDSI certificate (certBag)"),
            OtherBag::Unnamed(identifier) => write!(f, "a bag of the kind {identifier}"),
        }
    }
}
