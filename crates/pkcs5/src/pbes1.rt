//! PBES1 (RFC 8018 section 6.1): schemes of old, which are read and written; nothing is encrypted or decrypted by them.

mod algorithm;
mod encryption_scheme;
mod identifiers;
mod parameters;

pub use algorithm::Algorithm;
pub(crate) use algorithm::algorithm_with;
pub use encryption_scheme::{DigestAlgorithm, EncryptionScheme, SymmetricCipher};
pub use identifiers::{
    PBE_WITH_MD2_AND_DES_CBC_OID, PBE_WITH_MD2_AND_RC2_CBC_OID, PBE_WITH_MD5_AND_DES_CBC_OID,
    PBE_WITH_MD5_AND_RC2_CBC_OID, PBE_WITH_SHA1_AND_DES_CBC_OID, PBE_WITH_SHA1_AND_RC2_CBC_OID,
};
pub use parameters::{Parameters, SALT_LENGTH};
