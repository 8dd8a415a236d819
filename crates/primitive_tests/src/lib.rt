//! Tests of the public calls of the crates below, and the callers that their pages show.
//!
//! They have a crate of their own since a test is proved with the whole crate that it is in.
#![tactic(auto)]

#[cfg(test)]
mod answers;
#[cfg(test)]
mod cbc_texts;
#[cfg(test)]
mod cipher_caller;
#[cfg(test)]
mod cipher_chains;
#[cfg(test)]
mod copies;
#[cfg(test)]
mod der_caller;
#[cfg(test)]
mod der_texts;
#[cfg(test)]
mod der_writing;
#[cfg(test)]
mod derived_keys;
#[cfg(test)]
mod gcm_caller;
#[cfg(test)]
mod gcm_texts;
#[cfg(test)]
mod hash_caller;
#[cfg(test)]
mod hmac_tags;
#[cfg(test)]
mod lane_keys;
#[cfg(test)]
mod octets;
#[cfg(test)]
mod password_hashes;
#[cfg(test)]
mod phc_caller;
#[cfg(test)]
mod phc_strings;
#[cfg(test)]
mod printed;
#[cfg(test)]
mod scrypt_keys;
#[cfg(test)]
mod step_counter;
#[cfg(test)]
mod streams;
#[cfg(test)]
mod typed_der;
