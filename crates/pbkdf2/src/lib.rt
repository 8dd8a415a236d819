//! PBKDF2 (RFC 8018 section 5.2): keys and password hashes from passwords, by any pseudorandom function.
#![tactic(auto)]

mod algorithm;
mod block;
mod derivation;
mod hasher;
mod lanes;
pub mod laws;
mod params;
mod params_text;
mod password_hash;
mod with_hmac;

/// Password hashes in PHC strings.
pub mod phc {
    pub use phc_core::PasswordHash;
}

pub use algorithm::Algorithm;
pub use derivation::{pbkdf2, pbkdf2_array, pbkdf2_counted};
pub use hasher::Pbkdf2;
pub use lanes::{PasswordAndSalt, pbkdf2_hmac_sha256_four};
pub use params::Params;
pub use phc_core::{PasswordHasher, PasswordVerifier};
pub use with_hmac::{pbkdf2_hmac, pbkdf2_hmac_array, pbkdf2_hmac_counted, pbkdf2_hmac_with_params};
