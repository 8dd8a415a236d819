//! Tests of the public calls of `p12` and `pkcs12_kdf`. They have a crate of their own since a test is proved with the whole
//! crate that it is in.
#![tactic(auto)]

#[cfg(test)]
mod callers;
#[cfg(test)]
mod calls;
#[cfg(test)]
mod ciphertexts_opened;
#[cfg(test)]
mod keys_derived;
#[cfg(test)]
mod parts_copied;
#[cfg(test)]
mod rows_again;
#[cfg(test)]
mod stores_made;
#[cfg(test)]
mod stores_read;
#[cfg(test)]
mod stores_written;
