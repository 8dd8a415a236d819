//! Public keys as X.509 has them (RFC 5280 section 4.1): algorithm identifiers, SubjectPublicKeyInfo, and the traits of key types.
#![tactic(auto)]

mod algorithm;
mod as_algorithm_identifier_ref;
mod associated_algorithm;
mod by_content;
mod decode_public_key;
mod digest_writer;
mod encode_public_key;
mod error;
mod fingerprint;
pub mod laws;
mod read_algorithm;
mod subject_public_key_info;

pub use algorithm::{
    AlgorithmIdentifier, AlgorithmIdentifierOwned, AlgorithmIdentifierRef,
    AlgorithmIdentifierWithOid,
};
pub use as_algorithm_identifier_ref::AsAlgorithmIdentifierRef;
pub use asn1_core::ObjectIdentifier;
pub use associated_algorithm::{
    AssociatedAlgorithmIdentifier, DynAssociatedAlgorithmIdentifier,
    DynSignatureAlgorithmIdentifier, SignatureAlgorithmIdentifier, SignatureBitStringEncoding,
};
pub use decode_public_key::DecodePublicKey;
pub use der_core::Document;
pub use digest_writer::DigestWriter;
pub use encode_public_key::EncodePublicKey;
pub use error::{Error, Result};
pub use fingerprint::FingerprintBytes;
pub use laws::{
    algorithms_are_spelled, algorithms_are_written, algorithms_have_one_text,
    borrowed_algorithms_are_written, borrowed_public_keys_are_written, public_keys_are_spelled,
    public_keys_are_written, public_keys_have_one_text, texts_have_one_algorithm,
    texts_have_one_public_key,
};
pub use read_algorithm::read_algorithm_as;
pub use subject_public_key_info::{
    SubjectPublicKeyInfo, SubjectPublicKeyInfoOwned, SubjectPublicKeyInfoRef,
};
