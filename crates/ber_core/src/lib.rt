//! Texts of the basic encoding rules (X.690 section 8.1), read to the DER text of the same value.
#![tactic(auto)]

mod element;
mod error;
mod header;
mod kind;
pub mod laws;
mod normal;
mod put;
mod size;
mod text;

pub use error::Error;
pub use laws::{der_is_ber, strings_are_texts, texts_have_one_value, values_are_der};
pub use normal::{parts_octets, string_octets, to_der};
