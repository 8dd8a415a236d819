//! The names of algorithms.
use crate::old_cipher::{OldCipher, rounds_of};
use asn1_core::{
    Error, ObjectIdentifier, SliceReader, Tag, read_identifier, read_inner, read_uint,
};
use legacy_store::SCRYPT_MEMORY_LIMIT;
use legacy_store::scrypt_text::is_openable;
use p12::AlgorithmView;
use pkcs5::pbes2::{Kdf, PBES2_OID, PBKDF2_OID, Parameters, Pbkdf2Prf, ScryptParams};
use std::fmt;

/// Identifiers that stores of other programs have, and their names: schemes of encryption and MACs
/// under a password, and kinds of content; digests, and the functions under PBKDF2; key derivations
/// and ciphers of PBES2.
static NAMES: [(&str, &str); 38] = [
    ("1.2.840.113549.1.5.1", "pbeWithMD2AndDES-CBC"),
    ("1.2.840.113549.1.5.3", "pbeWithMD5AndDES-CBC"),
    ("1.2.840.113549.1.5.4", "pbeWithMD2AndRC2-CBC"),
    ("1.2.840.113549.1.5.6", "pbeWithMD5AndRC2-CBC"),
    ("1.2.840.113549.1.5.10", "pbeWithSHA1AndDES-CBC"),
    ("1.2.840.113549.1.5.11", "pbeWithSHA1AndRC2-CBC"),
    ("1.2.840.113549.1.5.13", "PBES2"),
    ("1.2.840.113549.1.5.14", "PBMAC1"),
    ("1.2.840.113549.1.7.2", "signedData"),
    ("1.2.840.113549.1.7.3", "envelopedData"),
    ("1.2.840.113549.1.7.6", "encryptedData"),
    ("1.2.840.113549.1.12.1.1", "pbeWithSHAAnd128BitRC4"),
    ("1.2.840.113549.1.12.1.2", "pbeWithSHAAnd40BitRC4"),
    ("1.2.840.113549.1.12.1.4", "pbeWithSHAAnd2-KeyTripleDES-CBC"),
    ("1.2.840.113549.1.12.1.5", "pbeWithSHAAnd128BitRC2-CBC"),
    ("1.2.840.113549.1.12.1.6", "pbeWithSHAAnd40BitRC2-CBC"),
    ("1.2.840.113549.2.5", "MD5"),
    ("1.2.840.113549.2.6", "hmacWithMD5"),
    ("1.2.840.113549.2.7", "hmacWithSHA1"),
    ("1.2.840.113549.2.8", "hmacWithSHA224"),
    ("1.2.840.113549.2.9", "hmacWithSHA256"),
    ("1.2.840.113549.2.10", "hmacWithSHA384"),
    ("1.2.840.113549.2.11", "hmacWithSHA512"),
    ("1.2.840.113549.2.12", "hmacWithSHA512-224"),
    ("1.2.840.113549.2.13", "hmacWithSHA512-256"),
    ("2.16.840.1.101.3.4.2.2", "SHA-384"),
    ("2.16.840.1.101.3.4.2.3", "SHA-512"),
    ("2.16.840.1.101.3.4.2.4", "SHA-224"),
    ("1.2.840.113549.3.2", "RC2-CBC"),
    ("1.2.840.113549.3.7", "Triple DES"),
    ("1.3.6.1.4.1.11591.4.11", "scrypt"),
    ("1.3.14.3.2.7", "DES-CBC"),
    ("2.16.840.1.101.3.4.1.2", "AES-128-CBC"),
    ("2.16.840.1.101.3.4.1.6", "AES-128-GCM"),
    ("2.16.840.1.101.3.4.1.22", "AES-192-CBC"),
    ("2.16.840.1.101.3.4.1.26", "AES-192-GCM"),
    ("2.16.840.1.101.3.4.1.42", "AES-256-CBC"),
    ("2.16.840.1.101.3.4.1.46", "AES-256-GCM"),
];

/// The name of an algorithm or a kind of content, where it is known.
fn name_of(identifier: ObjectIdentifier) -> Option<&'static str> {
    for (decimal, name) in &NAMES {
        if ObjectIdentifier::new(decimal) == Ok(identifier) {
            return Some(name);
        }
    }
    None
}

/// An identifier in decimal, after its name where that is known.
#[derive(Clone, Copy)]
pub struct Named(pub ObjectIdentifier);

impl fmt::Display for Named {
    fn fmt<W: fmt::Write>(&self, f: &mut fmt::Formatter<W>) -> fmt::Result {
        match name_of(self.0) {
            Some(name) => write!(f, "{name} ({})", self.0),
            None => self.0.fmt(f),
        }
    }
}

/// The algorithms that PBES2 names (RFC 8018 appendix A.4).
#[derive(Clone, Copy)]
struct Pbes2Names {
    derivation: ObjectIdentifier,
    /// The pseudorandom function of PBKDF2, where one is named.
    prf: Option<ObjectIdentifier>,
    cipher: ObjectIdentifier,
}

/// The algorithm in front of the reader: its identifier, and its parameters.
fn algorithm_in<'a>(r: &mut SliceReader<'a>) -> Result<(ObjectIdentifier, SliceReader<'a>), Error> {
    let mut body = read_inner(r, Tag::SEQUENCE)?;
    let identifier = read_identifier(&mut body)?;
    Ok((identifier, body))
}

/// The pseudorandom function in the parameters of PBKDF2 (RFC 8018 appendix A.2), where one is
/// named.
fn named_prf(mut derivation: SliceReader<'_>) -> Result<Option<ObjectIdentifier>, Error> {
    let mut body = read_inner(&mut derivation, Tag::SEQUENCE)?;
    read_inner(&mut body, Tag::OCTET_STRING)?;
    read_uint(&mut body, u64::MAX)?;
    // The length of the key may be left out: a refusal does not move the reader.
    match read_uint(&mut body, u64::MAX) {
        Ok(_) | Err(_) => {}
    }
    match algorithm_in(&mut body) {
        Ok((prf, _)) => Ok(Some(prf)),
        Err(_) => Ok(None),
    }
}

/// What the parameters of PBES2 name.
fn pbes2_of(params: &[u8]) -> Result<Pbes2Names, Error> {
    let mut r = SliceReader::new(params);
    let mut body = read_inner(&mut r, Tag::SEQUENCE)?;
    let (derivation, function) = algorithm_in(&mut body)?;
    let (cipher, _) = algorithm_in(&mut body)?;
    let prf = match named_prf(function) {
        Ok(prf) if derivation == PBKDF2_OID => prf,
        Ok(_) | Err(_) => None,
    };
    Ok(Pbes2Names {
        derivation,
        prf,
        cipher,
    })
}

/// PBES2 with the algorithms that its parameters name.
#[derive(Drop)]
struct Pbes2Named<'a>(&'a [u8]);

impl fmt::Display for Pbes2Named<'_> {
    fn fmt<W: fmt::Write>(&self, f: &mut fmt::Formatter<W>) -> fmt::Result {
        let Ok(found) = pbes2_of(self.0) else {
            return Named(PBES2_OID).fmt(f);
        };
        let cipher = Named(found.cipher);
        if found.derivation != PBKDF2_OID {
            return write!(f, "PBES2 with {} and {cipher}", Named(found.derivation));
        }
        match found.prf {
            Some(prf) => write!(f, "PBES2 with PBKDF2 under {}, and {cipher}", Named(prf)),
            None => write!(f, "PBES2 with PBKDF2 and {cipher}"),
        }
    }
}

/// PBES2 under which nothing is opened: with a length of the key that is not the cipher's, or with scrypt that takes too much memory; and
/// PBES2 with scrypt, which is opened in old stores alone.
#[derive(Drop)]
struct Pbes2NotOpened<'a>(&'a Parameters);

impl fmt::Display for Pbes2NotOpened<'_> {
    fn fmt<W: fmt::Write>(&self, f: &mut fmt::Formatter<W>) -> fmt::Result {
        let parameters = self.0;
        let cipher = Named(parameters.encryption.oid());
        let size = parameters.encryption.key_size();
        match parameters.kdf.key_length() {
            Some(stated) if usize::from(stated) != size => {
                return write!(
                    f,
                    "PBES2 with a key of {stated} octets for {cipher}, which takes {size}"
                );
            }
            Some(_) | None => {}
        }
        write!(f, "PBES2 with {} and {cipher}", Named(parameters.kdf.oid()))?;
        match &parameters.kdf {
            Kdf::Scrypt(costs) if !is_openable(parameters) => write!(
                f,
                ", whose costs {} are not supported: scrypt may take {SCRYPT_MEMORY_LIMIT} octets of memory here",
                ScryptCosts(costs)
            ),
            Kdf::Scrypt(_) | Kdf::Pbkdf2(_) => Ok(()),
        }
    }
}

/// The costs of scrypt (RFC 7914 section 2).
#[derive(Drop)]
struct ScryptCosts<'a>(&'a ScryptParams);

impl fmt::Display for ScryptCosts<'_> {
    fn fmt<W: fmt::Write>(&self, f: &mut fmt::Formatter<W>) -> fmt::Result {
        let ScryptParams {
            cost_parameter,
            block_size,
            parallelization,
            ..
        } = self.0;
        write!(
            f,
            "N = {cost_parameter}, r = {block_size}, p = {parallelization}"
        )
    }
}

/// An algorithm by its name, with what it says of itself.
#[derive(Drop)]
pub struct AlgorithmName<'a>(pub &'a AlgorithmView<'a>);

impl fmt::Display for AlgorithmName<'_> {
    fn fmt<W: fmt::Write>(&self, f: &mut fmt::Formatter<W>) -> fmt::Result {
        match self.0 {
            AlgorithmView::Sha1 => f.write_str("SHA-1 (1.3.14.3.2.26)"),
            AlgorithmView::Sha256 => f.write_str("SHA-256 (2.16.840.1.101.3.4.2.1)"),
            AlgorithmView::Rc2 { .. } => {
                f.write_str("pbeWithSHAAnd40BitRC2-CBC (1.2.840.113549.1.12.1.6)")
            }
            AlgorithmView::TripleDes { .. } => {
                f.write_str("pbeWithSHAAnd3-KeyTripleDES-CBC (1.2.840.113549.1.12.1.3)")
            }
            AlgorithmView::Pbes2(parameters) => Pbes2NotOpened(parameters).fmt(f),
            AlgorithmView::Other {
                algorithm_type,
                params: Some(params),
            } if *algorithm_type == PBES2_OID => Pbes2Named(params).fmt(f),
            AlgorithmView::Other { algorithm_type, .. } => Named(*algorithm_type).fmt(f),
        }
    }
}

/// The name of a pseudorandom function.
pub fn prf_name(prf: Pbkdf2Prf) -> &'static str {
    match prf {
        Pbkdf2Prf::HmacWithSha1 => "HMAC-SHA-1",
        Pbkdf2Prf::HmacWithSha224 => "HMAC-SHA-224",
        Pbkdf2Prf::HmacWithSha256 => "HMAC-SHA-256",
        Pbkdf2Prf::HmacWithSha384 => "HMAC-SHA-384",
        Pbkdf2Prf::HmacWithSha512 => "HMAC-SHA-512",
    }
}

/// A number of rounds.
#[derive(Clone, Copy)]
pub struct InRounds(pub u64);

impl fmt::Display for InRounds {
    fn fmt<W: fmt::Write>(&self, f: &mut fmt::Formatter<W>) -> fmt::Result {
        match self.0 {
            1 => f.write_str("1 round"),
            count => write!(f, "{count} rounds"),
        }
    }
}

/// An algorithm by its name alone where that is known, as that of a MAC.
fn named_in_use<W: fmt::Write>(
    algorithm: &AlgorithmView<'_>,
    f: &mut fmt::Formatter<W>,
) -> fmt::Result {
    if let AlgorithmView::Other { algorithm_type, .. } = algorithm
        && *algorithm_type != PBES2_OID
        && let Some(name) = name_of(*algorithm_type)
    {
        return f.write_str(name);
    }
    write!(f, "{}", AlgorithmName(algorithm))
}

/// An old cipher, with its rounds.
fn old_in_use<W: fmt::Write>(
    cipher: OldCipher,
    algorithm: &AlgorithmView<'_>,
    f: &mut fmt::Formatter<W>,
) -> fmt::Result {
    let name = cipher.name();
    match rounds_of(algorithm) {
        Some(count) => write!(f, "{name} with a key from SHA-1, {}", InRounds(count)),
        None => f.write_str(name),
    }
}

/// An algorithm that is opened, with its rounds and without its identifier; another by its name.
#[derive(Drop)]
pub struct InUse<'a>(pub &'a AlgorithmView<'a>);

impl fmt::Display for InUse<'_> {
    fn fmt<W: fmt::Write>(&self, f: &mut fmt::Formatter<W>) -> fmt::Result {
        match self.0 {
            AlgorithmView::Sha1 => f.write_str("SHA-1"),
            AlgorithmView::Sha256 => f.write_str("SHA-256"),
            AlgorithmView::TripleDes { iterations, .. } => {
                let rounds = InRounds(*iterations);
                write!(f, "Triple DES with a key from SHA-1, {rounds}")
            }
            AlgorithmView::Pbes2(
                Parameters {
                    kdf: Kdf::Pbkdf2(params),
                    encryption,
                },
            ) => {
                let prf = prf_name(params.prf);
                let rounds = InRounds(u64::from(params.iteration_count));
                let cipher = name_of(encryption.oid()).unwrap_or("another cipher");
                write!(f, "PBES2 with PBKDF2 ({prf}, {rounds}) and {cipher}")
            }
            AlgorithmView::Pbes2(
                Parameters {
                    kdf: Kdf::Scrypt(costs),
                    encryption,
                },
            ) => {
                let cipher = name_of(encryption.oid()).unwrap_or("another cipher");
                write!(f, "PBES2 with scrypt ({}) and {cipher}", ScryptCosts(costs))
            }
            other => match OldCipher::of(other) {
                Some(cipher) => old_in_use(cipher, other, f),
                None => named_in_use(other, f),
            },
        }
    }
}
