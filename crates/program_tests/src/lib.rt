//! Callers of `rekey_core`, `inventory_core`, `passdb_core`, `x509_names` and `terminal_text`: tests of their public calls, and the callers that their
//! READMEs show.
//!
//! They are here and not in those crates since a test is proved with the whole crate that it is in.
#![tactic(auto)]

#[cfg(test)]
mod certificate_caller;
#[cfg(test)]
mod certificate_names;
#[cfg(test)]
mod faults;
#[cfg(test)]
mod inventories;
#[cfg(test)]
mod login_caller;
#[cfg(test)]
mod program_tests;
#[cfg(test)]
mod run;
#[cfg(test)]
mod stores;
#[cfg(test)]
mod terminal_texts;
#[cfg(test)]
mod upgrades;
