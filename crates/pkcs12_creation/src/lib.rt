//! What `pkcs12 create` makes of PEM files: which are read, what is said of each, and the store.
#![tactic(auto)]

mod certificates;
mod creation;
mod entries;
mod input;
mod key_failure;
mod keys;
mod names;
mod not_pem;

pub use creation::{Material, created};
pub use entries::{Entries, entries_of};
pub use input::{inputs_differ, is_read_once_alone, read_input};
pub use names::repeated_name;
