//! Why a case has no octets for a result.
use mac_modes::ModeError;
use scrypt_core::{InvalidParams, ScryptError};
use std::alloc::{AllocError, Global};

/// Why a case has no octets for a result.
#[derive(Drop)]
pub enum Refused {
    /// The call takes another number of words, or words of other lengths.
    Words,
    /// There was no memory.
    Memory,
    /// The octets of a word are no UTF-8.
    Utf8,
    Asn1(asn1_core::Error),
    Mode(ModeError),
    /// The costs of scrypt are not those that it takes.
    ScryptParams(InvalidParams),
    Scrypt(ScryptError),
    Phc(phc_core::Error),
    Pkcs5(pkcs5::Error),
    Pkcs12(p12::Error),
    Spki(spki::Error),
}

impl From<AllocError> for Refused {
    fn from(_refused: AllocError) -> Refused {
        Refused::Memory
    }
}

impl From<asn1_core::Error> for Refused {
    fn from(e: asn1_core::Error) -> Refused {
        Refused::Asn1(e)
    }
}

impl From<ModeError> for Refused {
    fn from(e: ModeError) -> Refused {
        Refused::Mode(e)
    }
}

impl From<InvalidParams> for Refused {
    fn from(e: InvalidParams) -> Refused {
        Refused::ScryptParams(e)
    }
}

impl From<ScryptError> for Refused {
    fn from(e: ScryptError) -> Refused {
        Refused::Scrypt(e)
    }
}

impl From<spki::Error> for Refused {
    fn from(e: spki::Error) -> Refused {
        match e {
            spki::Error::Asn1(e) => Refused::Asn1(e),
            spki::Error::Memory => Refused::Memory,
            other => Refused::Spki(other),
        }
    }
}

/// The word of a refusal to read a text; with the identifier where one is unknown.
fn asn1_word(alloc: Global, refusal: &asn1_core::Error) -> Result<String, AllocError> {
    match refusal {
        asn1_core::Error::OidUnknown { oid } => format!(in alloc; "!OidUnknown {oid}"),
        _ => format!(in alloc; "!{refusal:?}"),
    }
}

/// The word of a refusal of a scheme; with the identifier of the algorithm whose parameters do not fit, or that seals nothing.
fn pkcs5_word(alloc: Global, refusal: &pkcs5::Error) -> Result<String, AllocError> {
    match refusal {
        pkcs5::Error::AlgorithmParametersInvalid { oid } => {
            format!(in alloc; "!AlgorithmParametersInvalid {oid}")
        }
        pkcs5::Error::UnsupportedAlgorithm { oid } => {
            format!(in alloc; "!UnsupportedAlgorithm {oid}")
        }
        _ => format!(in alloc; "!{refusal:?}"),
    }
}

impl Refused {
    /// The word that stands for this refusal: `!` and the name of the error.
    pub fn word(&self, alloc: Global) -> Result<String, AllocError> {
        match self {
            Refused::Words => String::from_str(alloc, "!Words"),
            Refused::Memory => String::from_str(alloc, "!Memory"),
            Refused::Utf8 => String::from_str(alloc, "!Utf8"),
            Refused::Asn1(e) => asn1_word(alloc, e),
            Refused::Mode(e) => format!(in alloc; "!{e:?}"),
            Refused::ScryptParams(e) => format!(in alloc; "!{e:?}"),
            Refused::Scrypt(e) => format!(in alloc; "!{e:?}"),
            Refused::Phc(e) => format!(in alloc; "!{e:?}"),
            Refused::Pkcs5(e) => pkcs5_word(alloc, e),
            Refused::Pkcs12(e) => format!(in alloc; "!{e:?}"),
            Refused::Spki(e) => format!(in alloc; "!{e:?}"),
        }
    }
}
