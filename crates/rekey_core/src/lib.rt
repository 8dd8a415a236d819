//! A PKCS#12 store (RFC 7292) under another password.
//!
//! `rekey` opens a store and seals its parts anew, `upgrade` does so under the algorithms of today, `rekey_all` makes a list of changes, and
//! `rekey_run` does so from an input to an output: what the program `rekey` does. `laws` says what
//! changes keep.
#![tactic(auto)]

mod algorithm;
mod bags;
mod change;
mod command;
mod contents;
mod derived_keys;
mod drawing;
mod key_derivation;
mod kinds;
pub mod laws;
mod list;
mod old_stores;
mod password_change;
mod sealing_limit;
mod supply;
mod top_call;
mod words;
mod work;

pub use kinds::{Renewal, Rounds};
pub use list::rekey_all;
pub use old_stores::renewed_store;
pub use password_change::{rekey, upgrade};
pub use top_call::rekey_run;
