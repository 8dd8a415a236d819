//! Block ciphers: AES with keys of 128, 192 and 256 bits (FIPS 197), DES and Triple DES (FIPS 46-3).
//!
//! Each cipher is the standard's permutation under its key, and the trait's laws say that each of its two block calls
//! undoes the other: code that is generic over [`BlockCipher`] is proved once for all of them.
#![tactic(auto)]

mod aes;
mod aes_key;
mod aes_tables;
mod aes_words;
mod bits;
mod block_cipher;
mod des;
mod des_joined;
mod des_permutations;
mod des_tables;
mod des_words;
mod field;
mod sbox;
mod tdes;
mod xor;

pub use aes::{Aes128, Aes192, Aes256};
pub use block_cipher::BlockCipher;
pub use des::Des;
pub use tdes::TdesEde3;
pub use xor::xor_into;
