//! The lines that are written.
ghost use Rattle.std.specs.Prelude.{◌≡◌, ◌++◌, ◌∷◌, [], IfOk, IfErr, OnOk};
ghost use Rattle.std.specs.List.{flat_map};
ghost use Rattle.frame.specs.DueText.{joined};
ghost use Rattle.passdb_core.specs.Entries.{AreEntries};
ghost use Rattle.passdb_core.specs.Program.{due, reply_line};

use crate::database::Db;
use crate::error::DbError;
use crate::reply::Reply;
use octet_core::{Items, Octets};
use std::alloc::{AllocError, Global};

/// The text and a line feed. The only error is out of memory.
fn line_of(alloc: Global, text: &str) -> Result<Octets, AllocError>
    ensures { IfOk result (λ line. line ≡ text.now ++ 10 ∷ []) }
{
    let mut line = Octets::from_slice(alloc, text.as_bytes())?;
    line.push(b'\n')?;
    Ok(line)
}

/// Adds a line for each reply. The only error is out of memory; some lines may have been added
/// then.
fn add_replies(
    alloc: Global,
    replies: &[Reply],
    lines: &mut Items<Octets>,
) -> Result<(), AllocError>
    ensures { OnOk result (joined lines.new ≡ joined lines.old ++ flat_map reply_line replies.now) }
{
    for reply in replies {
        lines.push(line_of(alloc, reply.name())?)?;
    }
    Ok(())
}

/// The lines that are due: one for each reply, an empty one, and those of the file. The only error
/// is out of memory.
pub(crate) fn due_lines(alloc: Global, replies: &[Reply], db: &Db) -> Result<Items<Octets>, DbError>
    ensures ok { IfOk result (λ lines. joined lines ≡ due replies.now db.now.entries) }
    ensures are { OnOk result (AreEntries db.now.entries) }
    ensures err { IfErr result (λ e. e ≡ DbError.Memory) }
{
    let mut lines = Items::new(alloc);
    add_replies(alloc, replies, &mut lines)?;
    lines.push(line_of(alloc, "")?)?;
    db.add_lines(alloc, &mut lines)?;
    Ok(lines)
}
