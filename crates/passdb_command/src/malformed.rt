//! What is wrong with a file that is not a password file.
use crate::ending::{Ending, Failure};
use passdb_core::{Db, DbError};
use std::alloc::{AllocError, Global};
use terminal_text::Printable;

const NO_ENTRY: &str = "\
is not NAME:HASH, with a NAME of 1 to 32 characters of a to z, 0 to 9 and -, and a HASH such as \
$pbkdf2-sha256$i=600000$SALT$HASH of at most 10,000,000 rounds";

const NO_LINE_FEED: &str = "has no LF at its end: the file may have been cut short";

const CARRIAGE_RETURN: &str = "ends with CR LF; lines end with LF alone";

const NOT_AFTER: &str = "\
has a name that does not come after that of the line before; names are sorted as by LC_ALL=C sort \
-t: -k1,1, and each is there once";

/// The name that a line begins with.
fn name_of(line: &str) -> &[u8] {
    match line.split_once(':') {
        Some((name, _)) => name.as_bytes(),
        None => line.as_bytes(),
    }
}

/// What is wrong with a line by itself; none where it has an entry.
fn fault_in(alloc: Global, line: &str) -> Result<Option<&'static str>, AllocError> {
    if !line.ends_with('\n') {
        return Ok(Some(NO_LINE_FEED));
    }
    if line.ends_with("\r\n") {
        return Ok(Some(CARRIAGE_RETURN));
    }
    match Db::parse(alloc, line, 1000) {
        Ok(_) => Ok(None),
        Err(DbError::Memory) => Err(AllocError),
        Err(DbError::Malformed | DbError::Rng) => Ok(Some(NO_ENTRY)),
    }
}

/// The number of the first line, counted from 1, with which something is wrong, and what.
fn first_fault(alloc: Global, text: &str) -> Result<Option<(usize, &'static str)>, AllocError> {
    let mut before = b"".as_slice();
    let mut number: usize = 0;
    for line in text.split_inclusive('\n') {
        number = number.saturating_add(1);
        if let Some(fault) = fault_in(alloc, line)? {
            return Ok(Some((number, fault)));
        }
        let name = name_of(line);
        if name <= before {
            return Ok(Some((number, NOT_AFTER)));
        }
        before = name;
    }
    Ok(None)
}

/// The failure of a file at this path whose octets are not UTF-8.
pub fn not_text(alloc: Global, path: &str) -> Failure {
    let shown = Printable(path);
    Failure::told(
        Ending::Malformed,
        format!(in alloc; "{shown} is not a password file: it is not UTF-8"),
    )
}

/// The failure of a file at this path that has this text, and is not a password file.
pub fn malformed(alloc: Global, path: &str, text: &str) -> Failure {
    let shown = Printable(path);
    let message = match first_fault(alloc, text) {
        Ok(Some((number, fault))) => format!(in alloc;
            "{shown} is not a password file: line {number} {fault}"
        ),
        Ok(None) => format!(in alloc; "{shown} is not a password file"),
        Err(refused) => Err(refused),
    };
    Failure::told(Ending::Malformed, message)
}
