//! Reading commands.
ghost use Rattle.std.specs.Prelude.{◌≡◌, ◌≤◌, List, [], IfOk, IfErr, length, map};
ghost use Rattle.passdb_core.specs.Asked.{command_in};
ghost use Rattle.passdb_core.specs.Calls.{MalformedOnly};
ghost use Rattle.passdb_core.specs.Commands as commands;
ghost use Rattle.passdb_core.specs.Reading.{IsInput, IsNoInput, IsScript};

use crate::command::Command;
use crate::database::Db;
use crate::error::DbError;
use crate::file::read_front;
use crate::reading::{command_of, cut};
use octet_core::Items;
use std::alloc::Global;

/// Reads the lines of commands that the text is made of. `Malformed` exactly where it is not made
/// of such lines.
pub(crate) fn read_script<'a>(alloc: Global, text: &'a [u8]) -> Result<Items<Command<'a>>, DbError>
    ensures read { IfOk result (λ cs. IsScript text.now (map command_in cs)) }
    ensures few { IfOk result (λ cs. length cs ≤ length text.now) }
    ensures refused { IfErr result (MalformedOnly ((cs : List commands.Command)
        → IsScript text.now cs → ⊥)) }
{
    let mut commands = Items::new(alloc);
    let mut rest = text;
    while !rest.is_empty() {
        let Some((line, more)) = cut(rest, b'\n') else {
            return Err(DbError::Malformed);
        };
        let Some(command) = command_of(line) else {
            return Err(DbError::Malformed);
        };
        match commands.push(command) {
            Ok(()) => rest = more,
            Err(_) => return Err(DbError::Memory),
        }
    }
    Ok(commands)
}

/// Reads an input: a file, whose entries are put into `db`, an empty line, and lines of commands,
/// which are returned. `Malformed` exactly where the input is not of this form. Caller: `db` has no
/// entries yet.
pub(crate) fn read_input<'a>(
    alloc: Global,
    db: &mut Db,
    input: &'a [u8],
) -> Result<Items<Command<'a>>, DbError>
    requires { db.old.entries ≡ [] }
    ensures rounds { db.new.rounds ≡ db.old.rounds }
    ensures read { IfOk result (λ cs. IsInput input.now db.new.entries (map command_in cs)) }
    ensures few { IfOk result (λ cs. length cs ≤ length input.now) }
    ensures refused { IfErr result (MalformedOnly (IsNoInput input.now)) }
{
    let rest = read_front(db, input)?;
    let Some((_, lines)) = rest.split_first() else {
        return Err(DbError::Malformed);
    };
    read_script(alloc, lines)
}
