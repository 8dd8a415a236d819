//! The table of a store.
ghost use Rattle.std.specs.Prelude.{◌≡◌, List, ℕ, IfOk};
ghost use Rattle.std.specs.String.{string_bytes};
ghost use Rattle.frame.specs.DueText.{joined};
ghost use Rattle.inventory_core.specs.Sheet.{Holds};
ghost use Rattle.inventory_core.specs.Table.{IsTable};

use crate::gathered::gather;
use crate::sheet::Sheet;
use crate::subject_index::SubjectIndex;
use crate::table_lines::{add_key_lines, certificate_lines, write_certificates, write_keys};
use octet_core::{Items, Text};
use std::alloc::{AllocError, Global};
use transfer::OpenedSafe;

/// The lines of the table of a store that opens to these bags.
pub(crate) fn table_of(alloc: Global, opened: &OpenedSafe) -> Result<Items<Text>, AllocError>
    ensures { IfOk result (λ lines. IsTable opened.now.contents (joined lines)) }
{
    let gathered = gather(alloc, opened)?;
    let index = SubjectIndex::new(alloc, gathered.certificates.as_slice())?;
    let mut lines = certificate_lines(alloc, &index)?;
    add_key_lines(
        alloc,
        &index,
        gathered.certificate_ids.as_slice(),
        gathered.key_ids.as_slice(),
        &mut lines,
    )?;
    Ok(lines)
}

/// The table of a store that opens to these bags, of which no more is kept than there is room for.
pub(crate) fn table_within(
    alloc: Global,
    opened: &OpenedSafe,
    room: usize,
) -> Result<Sheet, AllocError>
    ensures table { IfOk result (λ sheet. (text : List ℕ) × IsTable opened.now.contents text
        × Holds sheet.length sheet.room (string_bytes sheet.text) text) }
    ensures room { IfOk result (λ sheet. sheet.room ≡ room) }
{
    let gathered = gather(alloc, opened)?;
    let index = SubjectIndex::new(alloc, gathered.certificates.as_slice())?;
    let mut sheet = Sheet::new(alloc, room);
    write_certificates(alloc, &index, &mut sheet)?;
    write_keys(
        alloc,
        &index,
        gathered.certificate_ids.as_slice(),
        gathered.key_ids.as_slice(),
        &mut sheet,
    )?;
    Ok(sheet)
}
