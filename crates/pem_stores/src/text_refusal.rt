//! Why PEM texts give nothing that a store is made of.
ghost use Rattle.std.specs.Prelude.{◌≡◌};
ghost use Rattle.pem_stores.specs.declared.text_refusal.TextRefusal.TheVariants.{Memory};

use crate::certificates::CertificateRefusal;
use key_files::KeyRefusal;
use std::alloc::AllocError;

/// Why PEM texts give no private key with its certificate: the first cause of this list, or running out of memory, which may come at
/// any point.
#[derive(Clone, Copy, Debug, PartialEq, Eq)]
pub enum TextRefusal {
    /// The text of the private key has a block that is not read.
    KeyPem,
    /// It gives no private key.
    Key(KeyRefusal),
    /// The text of the certificates has a block that is not read.
    CertificatePem,
    /// It gives no certificates.
    Certificates(CertificateRefusal),
    /// Each certificate is that of another private key.
    OtherKey,
    /// There was no memory.
    Memory,
}

impl From<AllocError> for TextRefusal {
    ghost from_gives = { λ _ e. e ≡ Memory };

    fn from(_refused: AllocError) -> TextRefusal {
        TextRefusal::Memory
    }
}
