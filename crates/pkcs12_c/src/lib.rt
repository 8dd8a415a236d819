//! The transfer of a store for C: exports of a static library, which `pkcs12.h` declares.
//!
//! Each export tests what the Rattle call requires, hands on what C gave, and returns a number: 0, or that of a refusal.
#![tactic(auto)]

mod changed;
mod create_pem;
mod created;
mod drawn;
mod exports;
mod filled;
mod given;
pub mod laws;
mod listed;
mod opening;
mod password;
mod pem;
mod refusal;
mod rounds;
mod upgraded;
