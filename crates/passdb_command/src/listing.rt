//! What `list` prints.
use crate::ending::Failure;
use passdb_core::DbError;
use pbkdf2::Params;
use phc_core::PasswordHash;
use std::alloc::Global;
use std::fmt::Write;

/// Adds the row of an entry: its name, its algorithm and its rounds, a tab between them and a line feed at the end.
fn push_row(rows: &mut String, line: &str) -> Result<(), Failure> {
    let Some((name, hash)) = line.split_once(':') else {
        return Err(Failure::from(DbError::Malformed));
    };
    let Ok(hash) = PasswordHash::new(hash) else {
        return Err(Failure::from(DbError::Malformed));
    };
    let Ok(params) = Params::try_from(&hash) else {
        return Err(Failure::from(DbError::Malformed));
    };
    let algorithm = hash.algorithm.as_str();
    let rounds = params.rounds();
    match write!(rows, "{name}\t{algorithm}\t{rounds}\n") {
        Ok(()) => Ok(()),
        Err(_) => Err(Failure::from(DbError::Memory)),
    }
}

/// The rows of the entries of a password file with this text, one a line, in the order of the names. `Malformed` where the text is
/// no password file.
pub fn listing(alloc: Global, text: &str) -> Result<String, Failure> {
    let mut rows = String::new(alloc);
    for line in text.lines() {
        push_row(&mut rows, line)?;
    }
    Ok(rows)
}
