//! Private keys of PEM files: which one a file has, its PKCS#8 text, and whether a certificate is of the same key.
#![tactic(auto)]

mod algorithms;
mod ec_private_key;
mod encrypted_key;
mod key_form;
mod key_refusal;
mod matching;
mod one_block;
mod pkcs8_text;
mod reading;
mod rsa_private_key;
mod rsa_public_key;
mod wrapping;

pub use key_form::{KeyForm, form_of};
pub use key_refusal::KeyRefusal;
pub use matching::{Match, match_of};
pub use one_block::key_block;
pub use pkcs8_text::key_text;
