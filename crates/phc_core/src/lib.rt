//! PHC strings, the texts in which password hashes are kept, and the traits of what makes and tests them.
//!
//! A `PasswordHash` is the value of such a text: `PasswordHash::new` reads it, `to_text` and Display write it. One
//! text has one value, and one value one text (`laws`). All values are held in place: only `to_text` takes memory.
#![tactic(auto)]

mod decimal;
mod error;
mod hasher;
mod ident;
mod kdf;
pub mod laws;
mod line;
mod output;
mod pairs;
mod params_string;
mod password_hash;
mod reading;
mod salt;
mod value;
mod writing;

pub use decimal::Decimal;
pub use error::Error;
pub use hasher::{CustomizedPasswordHasher, PasswordHasher, PasswordVerifier};
pub use ident::Ident;
pub use kdf::{Kdf, Pbkdf};
pub use output::Output;
pub use params_string::ParamsString;
pub use password_hash::PasswordHash;
pub use salt::Salt;
pub use value::Value;
