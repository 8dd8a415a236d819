//! Encryption under a password (PKCS #5, RFC 8018): PBES2 with PBKDF2 or scrypt, and AES in CBC mode or GCM, Triple
//! DES and DES; and the schemes of PBES1, which are read and written alone.
#![tactic(auto)]

mod encryption_scheme;
mod error;
pub mod laws;
pub mod opening_laws;
pub mod pbes1;
pub mod pbes2;

pub use asn1_core::ObjectIdentifier;
pub use encryption_scheme::EncryptionScheme;
pub use error::{Error, Result};
pub use laws::{schemes_are_read_back, schemes_have_texts, texts_have_one_scheme};
pub use spki::AlgorithmIdentifierRef;
