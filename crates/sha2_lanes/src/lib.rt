//! SHA-256 (FIPS 180-4) of four messages at once: each word is a vector that has a lane for each message.
#![tactic(auto)]

mod compression;
mod constants;
mod hashing;
mod words;

pub use compression::compress;
pub use hashing::{finish_96, xor_words};
pub use words::{after_block, from_octets, to_octets};
