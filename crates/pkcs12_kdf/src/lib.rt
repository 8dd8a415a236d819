//! What PKCS#12 derives from a password (RFC 7292 appendix B): keys, initialization vectors and MACs, over a hash function.
#![tactic(auto)]

mod carry;
mod derivation;
mod password;

pub use derivation::{Derivation, IV_ID, KEY_ID, MAC_ID};
pub use password::utf16_password;
