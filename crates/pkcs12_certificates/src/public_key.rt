//! What a public key is.
use asn1_core::{Error, SliceReader, Tag, read_inner};
use spki::SubjectPublicKeyInfoRef;
use std::fmt;

/// The kinds of public keys: the identifier of the algorithm, its name, and the number of bits of each key, where that is fixed.
static KINDS: [(&str, &str, Option<usize>); 8] = [
    ("1.2.840.113549.1.1.1", "RSA", None),
    ("1.2.840.113549.1.1.10", "RSA-PSS", None),
    ("1.2.840.10040.4.1", "DSA", None),
    ("1.2.840.10045.2.1", "EC", None),
    ("1.3.101.110", "X25519", Some(253)),
    ("1.3.101.111", "X448", Some(448)),
    ("1.3.101.112", "ED25519", Some(256)),
    ("1.3.101.113", "ED448", Some(456)),
];

/// The named curves (RFC 5480 section 2.1.1.1, RFC 5639), each by the value octets of its identifier, and their bits.
static CURVES: [(&[u8], &str, usize); 7] = [
    (b"\x2a\x86\x48\xce\x3d\x03\x01\x07", "P-256", 256),
    (b"\x2b\x81\x04\x00\x22", "P-384", 384),
    (b"\x2b\x81\x04\x00\x23", "P-521", 521),
    (b"\x2b\x81\x04\x00\x0a", "secp256k1", 256),
    (
        b"\x2b\x24\x03\x03\x02\x08\x01\x01\x07",
        "brainpoolP256r1",
        256,
    ),
    (
        b"\x2b\x24\x03\x03\x02\x08\x01\x01\x0b",
        "brainpoolP384r1",
        384,
    ),
    (
        b"\x2b\x24\x03\x03\x02\x08\x01\x01\x0d",
        "brainpoolP512r1",
        512,
    ),
];

/// What a public key is: its kind, the curve, and the number of its bits, as far as they are known.
#[derive(Clone, Copy, Drop)]
pub struct PublicKey<'a> {
    key: SubjectPublicKeyInfoRef<'a>,
}

/// The bits of a number that is not negative, given by its value octets in DER.
fn bits_of(number: &[u8]) -> usize {
    // The one octet of zeros that tells a number from a negative one.
    let significant = match number {
        [0, rest @ ..] => rest,
        _ => number,
    };
    match significant.split_first() {
        Some((first, more)) => {
            let high = 8 - first.leading_zeros() as usize;
            more.len().saturating_mul(8).saturating_add(high)
        }
        None => 0,
    }
}

/// The first INTEGER of a SEQUENCE: the modulus of an RSA key (RFC 8017 appendix A.1.1), the prime of DSA's parameters.
fn first_number(octets: &[u8]) -> Result<&[u8], Error> {
    let mut r = SliceReader::new(octets);
    let mut body = read_inner(&mut r, Tag::SEQUENCE)?;
    let number = read_inner(&mut body, Tag::INTEGER)?;
    Ok(number.rest)
}

/// The first INTEGER among the value octets of a SEQUENCE.
fn number_among(value: &[u8]) -> Result<&[u8], Error> {
    let mut body = SliceReader::new(value);
    let number = read_inner(&mut body, Tag::INTEGER)?;
    Ok(number.rest)
}

impl<'a> PublicKey<'a> {
    pub fn new(key: SubjectPublicKeyInfoRef<'a>) -> PublicKey<'a> {
        PublicKey { key }
    }

    /// The place of its kind in the table.
    fn row(&self) -> Option<&'static (&'static str, &'static str, Option<usize>)> {
        KINDS.iter().find(|row| asn1_core::ObjectIdentifier::new(row.0)
            == Ok(self.key.algorithm.oid))
    }

    /// The name of its kind, where that is known.
    pub fn kind(&self) -> Option<&'static str> {
        match self.row() {
            Some((_, name, _)) => Some(name),
            None => None,
        }
    }

    /// The row of the named curve that its parameters are.
    fn curve_row(&self) -> Option<&'static (&'static [u8], &'static str, usize)> {
        match &self.key.algorithm.parameters {
            Some(parameters) => CURVES.iter().find(|row| row.0 == parameters.value()),
            None => None,
        }
    }

    /// The name of its curve, where it has one that is known.
    pub fn curve(&self) -> Option<&'static str> {
        match (self.kind(), self.curve_row()) {
            (Some("EC"), Some((_, name, _))) => Some(name),
            _ => None,
        }
    }

    /// The number of its bits, where that is known.
    pub fn bits(&self) -> Option<usize> {
        let (_, name, fixed) = self.row()?;
        match *name {
            "RSA" | "RSA-PSS" => {
                let number = first_number(self.key.subject_public_key.raw_bytes()).ok()?;
                Some(bits_of(number))
            }
            "DSA" => {
                let parameters = self.key.algorithm.parameters.as_ref()?;
                let number = number_among(parameters.value()).ok()?;
                Some(bits_of(number))
            }
            "EC" => {
                let (_, _, bits) = self.curve_row()?;
                Some(*bits)
            }
            _ => *fixed,
        }
    }
}

impl fmt::Display for PublicKey<'_> {
    fn fmt<W: fmt::Write>(&self, f: &mut fmt::Formatter<W>) -> fmt::Result {
        match self.kind() {
            Some(name) => f.write_str(name)?,
            None => write!(f, "{}", self.key.algorithm.oid)?,
        }
        if let Some(curve) = self.curve() {
            write!(f, " {curve}")?;
        }
        if let Some(bits) = self.bits() {
            write!(f, ", {bits} bits")?;
        }
        Ok(())
    }
}
