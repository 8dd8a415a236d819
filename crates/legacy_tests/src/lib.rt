//! Tests of the public calls of `ber_core`, `legacy_ciphers` and `legacy_store`.
//!
//! They have a crate of their own since a test is proved with the whole crate that it is in.
#![tactic(auto)]

#[cfg(test)]
mod bare_opened;
#[cfg(test)]
mod bare_stores;
#[cfg(test)]
mod ber_texts;
#[cfg(test)]
mod nss_store;
#[cfg(test)]
mod old_stores;
#[cfg(test)]
mod pbmac1_opened;
#[cfg(test)]
mod pbmac1_stores;
#[cfg(test)]
mod rc2_blocks;
#[cfg(test)]
mod scrypt_opened;
#[cfg(test)]
mod scrypt_stores;
#[cfg(test)]
mod stores_opened;
