//! PBMAC1 (RFC 8018 section 7.1 and appendix A.5), with which the MAC of a store may be made (RFC 9579).
use crate::algorithm_name::{InRounds, prf_name};
use asn1_core::{Error, ObjectIdentifier, SliceReader, Tag, read_inner};
use der_core::Decode;
use p12::{AlgorithmView, MacView};
use pkcs5::pbes2::{Kdf, Pbkdf2Params, Pbkdf2Prf};
use std::fmt;

/// Its identifier.
const PBMAC1: &str = "1.2.840.113549.1.5.14";

/// HMAC under a key that PBKDF2 derives.
#[derive(Clone, Copy, Drop)]
pub struct Pbmac1 {
    derivation: Pbkdf2Params,
    hmac: Pbkdf2Prf,
}

/// What the parameters of PBMAC1 name.
fn params_in(params: &[u8]) -> Result<(Kdf, Pbkdf2Prf), Error> {
    let mut r = SliceReader::new(params);
    let mut body = read_inner(&mut r, Tag::SEQUENCE)?;
    let kdf = Kdf::decode(&mut body)?;
    let hmac = Pbkdf2Prf::decode(&mut body)?;
    Ok((kdf, hmac))
}

impl Pbmac1 {
    /// That of an algorithm, if it is PBMAC1 with PBKDF2.
    pub fn of(algorithm: &AlgorithmView<'_>) -> Option<Pbmac1> {
        let AlgorithmView::Other {
            algorithm_type,
            params: Some(params),
        } = algorithm
        else {
            return None;
        };
        if ObjectIdentifier::new(PBMAC1) != Ok(*algorithm_type) {
            return None;
        }
        match params_in(params) {
            Ok((Kdf::Pbkdf2(derivation), hmac)) => Some(Pbmac1 { derivation, hmac }),
            Ok((Kdf::Scrypt(_), _)) | Err(_) => None,
        }
    }

    /// How many octets the key has, where that is stated, as RFC 9579 asks for.
    pub fn key_length(&self) -> Option<u16> {
        self.derivation.key_length
    }

    /// The steps of testing the MAC: one for each output of PBKDF2's function.
    fn work(&self) -> u64 {
        let output = match self.derivation.prf {
            Pbkdf2Prf::HmacWithSha1 => 20u64,
            Pbkdf2Prf::HmacWithSha224 => 28,
            Pbkdf2Prf::HmacWithSha256 => 32,
            Pbkdf2Prf::HmacWithSha384 => 48,
            Pbkdf2Prf::HmacWithSha512 => 64,
        };
        let length = u64::from(self.derivation.key_length.unwrap_or(0));
        let blocks = length.saturating_add(output - 1) / output;
        u64::from(self.derivation.iteration_count).saturating_mul(blocks)
    }
}

impl fmt::Display for Pbmac1 {
    fn fmt<W: fmt::Write>(&self, f: &mut fmt::Formatter<W>) -> fmt::Result {
        let hmac = prf_name(self.hmac);
        let prf = prf_name(self.derivation.prf);
        let rounds = InRounds(u64::from(self.derivation.iteration_count));
        write!(f, "PBMAC1 with {hmac} and PBKDF2 ({prf}, {rounds})")
    }
}

/// The steps of testing the MAC of a store.
pub fn mac_work(mac: &MacView<'_>) -> u64 {
    match Pbmac1::of(&mac.algorithm) {
        Some(pbmac1) => pbmac1.work(),
        None => u64::from(mac.iterations),
    }
}
