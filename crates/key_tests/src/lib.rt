//! Tests of the public calls of `spki`, `pkcs5` and `pkcs8`, and the callers that their pages show.
//!
//! They have a crate of their own since a test is proved with the whole crate that it is in. The prover keeps what a
//! call promises until the end of the function that makes it, so most calls are made by small functions that promise nothing.
#![tactic(auto)]

#[cfg(test)]
mod password_schemes;
#[cfg(test)]
mod private_keys;
#[cfg(test)]
mod public_keys;
#[cfg(test)]
mod values;
