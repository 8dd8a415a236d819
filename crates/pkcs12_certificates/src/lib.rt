//! The X.509 certificates of an opened PKCS#12 store, as people and programs read them: what they say, which of them issued which,
//! and the chains of its private keys.
#![tactic(auto)]

mod certificates_json;
mod certificates_text;
mod chain;
mod chain_error;
mod ending_certificates;
mod laws;
mod listed;
mod printed_chains;
mod public_key;

pub use certificates_json::listed_json;
pub use certificates_text::listed_text;
pub use chain::{Chain, chain_text, chain_warnings, chains};
pub use chain_error::ChainError;
pub use ending_certificates::{EndingCertificates, ending_by};
pub use laws::certificates_have_parts;
pub use listed::{Certificate, Certificates, ReadCertificates, Validity, When, read_certificates};
pub use public_key::PublicKey;
