//! What a password is tested against where the file does not have the name.
use crate::ending::Failure;
use passdb_core::{Db, DbError};
use phc_core::{Ident, Output, PasswordHash};
use std::alloc::Global;

/// The hash of the entry at the place in the file where that of the name is or would be: the first that does not come before it, or
/// else the last. None where the file has no entry.
fn neighbour<'a>(text: &'a str, name: &str) -> Option<&'a str> {
    let mut last = None;
    for line in text.lines() {
        if let Some((other, hash)) = line.split_once(':') {
            last = Some(hash);
            if other.as_bytes() >= name.as_bytes() {
                return last;
            }
        }
    }
    last
}

/// The same password hash, with nothing but zeros for what was derived: no password that anybody knows agrees with it.
fn of_no_password(hash: &PasswordHash) -> PasswordHash {
    let zeros = [0u8; 64];
    let size = match &hash.hash {
        Some(output) => output.len(),
        None => 32,
    };
    let blank = match Output::new(&zeros[..size.min(64)]) {
        Ok(output) => Some(output),
        Err(_) => hash.hash,
    };
    PasswordHash {
        algorithm: hash.algorithm,
        version: hash.version,
        params: hash.params,
        salt: hash.salt,
        hash: blank,
    }
}

/// A file in which the name has an entry that no password is right for. Testing one takes as long as for a name that this text has:
/// algorithm, rounds and salt are those of the entry at the place where the name's would be; in a file without entries they are those
/// of a fresh entry of these rounds, and the salt is of zeros.
///
/// The name has to be none of the text. `Malformed` where the text is no password file.
pub fn decoy_of(alloc: Global, text: &str, name: &Ident, rounds: u32) -> Result<Db, Failure> {
    let fresh = format!(in alloc;
        "$pbkdf2-sha256$i={rounds},l=32$AAAAAAAAAAAAAAAAAAAAAA$AAAAAAAAAAAAAAAAAAAAAAAAAAAAAAAAAAAAAAAAAAA"
    )?;
    let name = name.as_str();
    let near = match neighbour(text, name) {
        Some(hash) => hash,
        None => fresh.as_str(),
    };
    let Ok(hash) = PasswordHash::new(near) else {
        return Err(Failure::from(DbError::Malformed));
    };
    let blank = of_no_password(&hash);
    let line = format!(in alloc; "{name}:{blank}\n")?;
    Ok(Db::parse(alloc, line.as_str(), 1000)?)
}
