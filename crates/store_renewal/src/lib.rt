//! An old PKCS#12 store (RFC 7292) under today's algorithms: what `legacy_store` opens, sealed as `rekey_core` seals it.
#![tactic(auto)]

pub mod laws;
mod parts;
mod upgrade;

pub use upgrade::upgrade_any;
