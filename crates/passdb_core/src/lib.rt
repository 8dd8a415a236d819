//! A password file: names, and for each a password hash by PBKDF2 in a PHC string. Names are added,
//! passwords tested and changed, and names removed.
//!
//! `Db` is the file as a map from names to entries; what each call does is one function, `does` of
//! `specs/Commands.antt`. `passdb_run` does a list of commands on a file, from an input to an
//! output: what the program `passdb` does.
#![tactic(auto)]

mod command;
mod database;
mod entry;
mod error;
mod file;
pub mod laws;
mod output;
mod program;
mod reading;
mod reply;
mod script;

pub use database::Db;
pub use entry::ROUNDS_LIMIT;
pub use error::DbError;
pub use program::top_call::passdb_run;
pub use reply::Reply;
