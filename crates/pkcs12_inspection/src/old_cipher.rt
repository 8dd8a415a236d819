//! Ciphers of RFC 7292 appendix C that are opened in old stores alone.
use asn1_core::{Error, ObjectIdentifier, SliceReader, Tag, read_inner, read_uint};
use p12::AlgorithmView;

/// One of these ciphers.
#[derive(Clone, Copy, PartialEq)]
pub enum OldCipher {
    Rc2Of40,
    Rc2Of128,
    TwoKeyTripleDes,
}

/// The identifiers of those that have no variant of their own in `AlgorithmView`.
const RC2_128: &str = "1.2.840.113549.1.12.1.5";

const TWO_KEYS: &str = "1.2.840.113549.1.12.1.4";

impl OldCipher {
    /// That of an algorithm, if it is one of these.
    pub fn of(algorithm: &AlgorithmView<'_>) -> Option<OldCipher> {
        match algorithm {
            AlgorithmView::Rc2 { .. } => Some(OldCipher::Rc2Of40),
            AlgorithmView::Other { algorithm_type, .. } => OldCipher::named(*algorithm_type),
            AlgorithmView::Sha1
            | AlgorithmView::Sha256
            | AlgorithmView::TripleDes { .. }
            | AlgorithmView::Pbes2(_) => None,
        }
    }

    fn named(identifier: ObjectIdentifier) -> Option<OldCipher> {
        if ObjectIdentifier::new(RC2_128) == Ok(identifier) {
            Some(OldCipher::Rc2Of128)
        } else if ObjectIdentifier::new(TWO_KEYS) == Ok(identifier) {
            Some(OldCipher::TwoKeyTripleDes)
        } else {
            None
        }
    }

    /// What it is called.
    pub fn name(self) -> &'static str {
        match self {
            OldCipher::Rc2Of40 => "40-bit RC2",
            OldCipher::Rc2Of128 => "128-bit RC2",
            OldCipher::TwoKeyTripleDes => "two-key Triple DES",
        }
    }
}

/// The rounds in parameters (pkcs-12PbeParams of RFC 7292 appendix C).
fn rounds_in(params: &[u8]) -> Result<u64, Error> {
    let mut r = SliceReader::new(params);
    let mut body = read_inner(&mut r, Tag::SEQUENCE)?;
    read_inner(&mut body, Tag::OCTET_STRING)?;
    read_uint(&mut body, u64::MAX)
}

/// The rounds of an algorithm of these ciphers; None where its parameters do not say them.
pub fn rounds_of(algorithm: &AlgorithmView<'_>) -> Option<u64> {
    match algorithm {
        AlgorithmView::Rc2 { iterations, .. } => Some(*iterations),
        AlgorithmView::Other {
            params: Some(params),
            ..
        } => rounds_in(params).ok(),
        _ => None,
    }
}
