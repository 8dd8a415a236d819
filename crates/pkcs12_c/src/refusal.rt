//! Why a call is refused, and its number.
ghost use Rattle.std.specs.Prelude.{◌≡◌};
ghost use Rattle.pkcs12_c.specs.Refusal.{answer_number, certificate_refusal, creation_refusal, key_refusal, making_refusal, refusal_number, text_refusal};

use crate::created::CreationRefusal;
use create_core::CreateError;
use key_files::KeyRefusal;
use pem_stores::{CertificateRefusal, TextRefusal};
use transfer::{Status, TransferError};

/// Why a call is refused.
#[derive(Clone, Copy)]
pub enum Refusal {
    /// The rounds are not 1 to 100,000,000.
    Rounds,
    /// A password of a store is not UTF-8, or has 2^57 octets or more; or that of a private key is not UTF-8.
    Password,
    /// The friendly name is not UTF-8.
    Name,
    /// A PEM text has a block that is not read.
    Pem,
    /// The PEM text has no private key.
    KeyMissing,
    /// The PEM text has more than one private key.
    ManyKeys,
    /// The private key is not what its label names.
    KeyForm,
    /// The private key is encrypted, and no password is given.
    PasswordMissing,
    /// The private key does not open under its password.
    KeyPassword,
    /// The PEM text has no certificate.
    CertificateMissing,
    /// What the PEM text has as a certificate is none.
    CertificateMalformed,
    /// Each certificate is that of another private key.
    OtherKey,
    /// The store is refused, or there was no memory, or there were too few random octets.
    Store(TransferError),
    /// The output has less room than the text takes.
    Room,
}

impl Refusal {
    /// Its number in `pkcs12.h`: that of the command's exit, and 100 where the output is too short.
    pub fn number(self) -> u32
        ensures { result ≡ refusal_number self }
    {
        match self {
            Refusal::Rounds => 2,
            Refusal::Password => 22,
            Refusal::PasswordMissing => 8,
            Refusal::Pem => 30,
            Refusal::KeyMissing => 31,
            Refusal::ManyKeys => 32,
            Refusal::KeyForm => 33,
            Refusal::KeyPassword => 34,
            Refusal::CertificateMissing => 35,
            Refusal::CertificateMalformed => 36,
            Refusal::OtherKey => 37,
            Refusal::Name => 38,
            Refusal::Store(refusal) => u32::from(Status::from(refusal).code()),
            Refusal::Room => 100,
        }
    }
}

/// What C is returned: 0, or the number of the refusal.
pub fn number_of(answer: Result<(), Refusal>) -> u32
    ensures { result ≡ answer_number answer }
{
    match answer {
        Ok(()) => 0,
        Err(refusal) => refusal.number(),
    }
}

/// The refusal of a private key.
fn key_refusal(refusal: KeyRefusal) -> Refusal
    ensures { result ≡ key_refusal refusal }
{
    match refusal {
        KeyRefusal::NoKey => Refusal::KeyMissing,
        KeyRefusal::ManyKeys => Refusal::ManyKeys,
        KeyRefusal::UnknownForm | KeyRefusal::NoCurve | KeyRefusal::UnknownScheme => {
            Refusal::Store(TransferError::Unsupported)
        }
        KeyRefusal::Malformed => Refusal::KeyForm,
        KeyRefusal::TooLong => Refusal::Store(TransferError::TooLong),
        KeyRefusal::TooManyRounds => Refusal::Store(TransferError::WorkLimit),
        KeyRefusal::PasswordMissing => Refusal::PasswordMissing,
        KeyRefusal::NotOpened => Refusal::KeyPassword,
        KeyRefusal::Memory => Refusal::Store(TransferError::Memory),
    }
}

/// The refusal of certificates.
fn certificate_refusal(refusal: CertificateRefusal) -> Refusal
    ensures { result ≡ certificate_refusal refusal }
{
    match refusal {
        CertificateRefusal::NoCertificate => Refusal::CertificateMissing,
        CertificateRefusal::Trusted => Refusal::Store(TransferError::Unsupported),
        CertificateRefusal::Malformed => Refusal::CertificateMalformed,
        CertificateRefusal::Memory => Refusal::Store(TransferError::Memory),
    }
}

/// The refusal of PEM texts.
fn text_refusal(refusal: TextRefusal) -> Refusal
    ensures { result ≡ text_refusal refusal }
{
    match refusal {
        TextRefusal::KeyPem | TextRefusal::CertificatePem => Refusal::Pem,
        TextRefusal::Key(refusal) => key_refusal(refusal),
        TextRefusal::Certificates(refusal) => certificate_refusal(refusal),
        TextRefusal::OtherKey => Refusal::OtherKey,
        TextRefusal::Memory => Refusal::Store(TransferError::Memory),
    }
}

/// The refusal to make a store of what the texts have.
fn making_refusal(error: CreateError) -> Refusal
    ensures { result ≡ making_refusal error }
{
    match error {
        CreateError::Malformed => Refusal::KeyForm,
        CreateError::Rng => Refusal::Store(TransferError::Rng),
        CreateError::TooLong => Refusal::Store(TransferError::TooLong),
        CreateError::Memory => Refusal::Store(TransferError::Memory),
    }
}

/// The refusal to make a store.
pub fn creation_refusal(refusal: CreationRefusal) -> Refusal
    ensures { result ≡ creation_refusal refusal }
{
    match refusal {
        CreationRefusal::Texts(refusal) => text_refusal(refusal),
        CreationRefusal::Making(error) => making_refusal(error),
    }
}
