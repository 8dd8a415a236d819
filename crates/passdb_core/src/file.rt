//! Reading a password file.
ghost use Rattle.std.specs.Prelude.{◌≡◌, ℕ, List, [], ◌∷◌, ◌++◌, IfOk, IfErr, OnOk};
ghost use Rattle.std.specs.Bool.{MatchBool};
ghost use Rattle.passdb_core.specs.Calls.{MalformedOnly};
ghost use Rattle.passdb_core.specs.Entry.{Entry};
ghost use Rattle.passdb_core.specs.Entries.{Above};
ghost use Rattle.passdb_core.specs.Reading.{HasNoFront, IsFront, IsNext, IsPair, Stops};

use crate::database::Db;
use crate::error::DbError;
use crate::reading::{cut, entry_of, name_of};

/// Adds the entry of a line. `Malformed` exactly where the line is not a name, a colon and an
/// entry, or the name is not above those of the entries.
fn put_line(db: &mut Db, line: &[u8]) -> Result<(), DbError>
    ensures rounds { db.new.rounds ≡ db.old.rounds }
    ensures put { OnOk result ((name : List ℕ) × (e : Entry) × IsPair line.now name e
        × Above db.old.entries name × (db.new.entries ≡ db.old.entries ++ (name, e) ∷ [])) }
    ensures refused { IfErr result (MalformedOnly ((name : List ℕ) (e : Entry)
        → IsPair line.now name e → Above db.old.entries name → ⊥)) }
{
    let Some((name, written)) = cut(line, b':') else {
        return Err(DbError::Malformed);
    };
    let Some(name) = name_of(name) else {
        return Err(DbError::Malformed);
    };
    let Some(entry) = entry_of(written) else {
        return Err(DbError::Malformed);
    };
    db.put_last(&name, &entry)
}

/// Adds the entry of the first line, and returns the text after the line. `Malformed` exactly where
/// the first line is not an entry's, or its name is not above those of the entries.
fn read_line<'a>(db: &mut Db, text: &'a [u8]) -> Result<&'a [u8], DbError>
    ensures rounds { db.new.rounds ≡ db.old.rounds }
    ensures read { IfOk result (λ rest. (name : List ℕ) × (e : Entry)
        × IsNext text.now db.old.entries name e rest.now
        × (db.new.entries ≡ db.old.entries ++ (name, e) ∷ [])) }
    ensures refused { IfErr result (MalformedOnly ((name : List ℕ) (e : Entry) (rest : List ℕ)
        → IsNext text.now db.old.entries name e rest → ⊥)) }
{
    let Some((line, rest)) = cut(text, b'\n') else {
        return Err(DbError::Malformed);
    };
    put_line(db, line)?;
    Ok(rest)
}

/// Whether the text has ended, or a line feed comes.
fn stops(text: &[u8]) -> bool
    ensures { MatchBool result (Stops text.now) (Stops text.now → ⊥) }
{
    match text.first() {
        Some(octet) => *octet == b'\n',
        None => true,
    }
}

/// Adds the entries of the file that the text begins with, and returns the text after it, which is
/// empty or begins with a line feed. `Malformed` exactly where the text does not begin with such a
/// file. Caller: there are no entries yet.
pub(crate) fn read_front<'a>(db: &mut Db, text: &'a [u8]) -> Result<&'a [u8], DbError>
    requires { db.old.entries ≡ [] }
    ensures rounds { db.new.rounds ≡ db.old.rounds }
    ensures read { IfOk result (λ rest. IsFront text.now db.new.entries rest.now) }
    ensures refused { IfErr result (MalformedOnly (HasNoFront text.now)) }
{
    let mut rest = text;
    while !stops(rest) {
        rest = read_line(db, rest)?;
    }
    Ok(rest)
}
