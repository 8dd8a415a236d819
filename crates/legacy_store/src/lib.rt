//! Old PKCS#12 stores (RFC 7292): what `transfer` opens, and beside it texts in BER, RC2, Triple DES with two keys, MACs under SHA-224,
//! SHA-384 and SHA-512, the null password, and two that are not old, PBMAC1 (RFC 9579) and PBES2 with scrypt (RFC 7914) within a bound on
//! memory; and where the caller does not require a MAC, stores without one. They are opened to be written anew: nothing is written under
//! these algorithms.
//!
//! The causes of a refusal are in order in `specs/Opening.antt`.
#![tactic(auto)]

mod bag_texts;
mod budget;
mod contents;
mod identifiers;
mod joined;
mod keys;
pub mod laws;
mod limits;
mod lock;
mod mac;
mod mac_rule;
mod old_text;
mod open;
mod pbmac1;
mod scheme;
pub mod scrypt_text;
mod secret;
mod texts;

pub use limits::SCRYPT_MEMORY_LIMIT;
pub use mac_rule::MacRule;
pub use open::{open_legacy, open_legacy_safe};
pub use texts::store_in_der;
