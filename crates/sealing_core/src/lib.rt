//! Sealing several parts at once under one password: the octets that are drawn for each, and the keys that are derived from these.
#![tactic(auto)]

mod drawn;
mod error;
mod keys;

pub use drawn::{IvAndSalt, draw_each};
pub use error::DrawError;
pub use keys::derive_keys;
