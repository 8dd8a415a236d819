//! scrypt (RFC 7914): keys from passwords at a cost in memory.
#![tactic(auto)]

mod derivation;
mod mixing;
mod params;
mod salsa;
mod scrypt_error;
mod turning;

pub use derivation::scrypt;
pub use params::{InvalidParams, Params};
pub use scrypt_error::ScryptError;
