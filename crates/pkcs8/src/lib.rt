//! Private keys (PKCS #8): PrivateKeyInfo (RFC 5208) and OneAsymmetricKey (RFC 5958).
#![tactic(auto)]

mod bit_string_like;
mod decode_private_key;
mod encode_private_key;
mod encrypted_private_key_info;
mod error;
mod fields;
mod implicit_bit_string;
pub mod laws;
mod private_key_info;
mod sealing;
mod version;

pub use asn1_core::ObjectIdentifier;
pub use bit_string_like::BitStringLike;
pub use decode_private_key::DecodePrivateKey;
pub use der_core::{Document, SecretDocument};
pub use encode_private_key::EncodePrivateKey;
pub use encrypted_private_key_info::{
    EncryptedPrivateKeyInfo, EncryptedPrivateKeyInfoOwned, EncryptedPrivateKeyInfoRef,
};
pub use error::{Error, KeyError, Result};
pub use implicit_bit_string::ImplicitBitString;
pub use laws::{
    encrypted_keys_are_spelled, private_keys_are_spelled, private_keys_are_written,
    private_keys_have_a_text, sealed_documents_open, short_keys_are_encrypted,
    texts_have_one_encrypted_key, texts_have_one_private_key, written_keys_are_shortest,
};
pub use private_key_info::{PrivateKeyInfo, PrivateKeyInfoOwned, PrivateKeyInfoRef};
pub use spki::{
    AlgorithmIdentifierRef, DecodePublicKey, EncodePublicKey, SubjectPublicKeyInfo,
    SubjectPublicKeyInfoRef,
};
pub use version::Version;
