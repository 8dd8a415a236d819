//! The password file: it is there whole, as it was or as it is to be.
ghost use Rattle.std.specs.Prelude.{◌≤◌, IfOk};
ghost use Rattle.passdb_core.specs.Entries.{AreEntries};

use crate::ending::{Ending, Failure};
use crate::malformed::{malformed, not_text};
use command_base::{Attributes, Identity, name, open_folder, parent};
use passdb_core::{Db, DbError};
use std::alloc::Global;
use std::fs::{File, OpenFile, OpenOptions};
use std::io::Write;
use std::os::unix::fs::OpenOptionsExt;
use std::rt::{Env, Files};
use std::{env, fs, io};
use terminal_text::Printable;

/// The most octets of a file.
const MOST_OCTETS: u64 = 67_108_864;

fn read_fault(alloc: Global, path: &str, error: io::Error) -> Failure {
    Failure::io(alloc, Ending::ReadFault, "the file", path, error)
}

fn write_fault(alloc: Global, path: &str, error: io::Error) -> Failure {
    Failure::io(alloc, Ending::WriteFault, "the file", path, error)
}

/// Makes a file that was not there, for its owner alone.
fn create<R: Files<File = File>>(rt: &R, path: &str) -> io::Result<File> {
    OpenOptions::new()
        .write(true)
        .create_new(true)
        .mode(0o600)
        .open(rt, path)
}

/// Removes this file, where it is at the path. Where that fails, a line on the standard error says so.
fn remove_or_tell<R: Files + Eprint>(rt: &R, this: Identity, path: &str) {
    let removed = match this.stays_at(rt, path) {
        Ok(()) => fs::remove_file(rt, path),
        Err(error) => Err(error),
    };
    if let Err(error) = removed {
        // A standard error that cannot be written to is no failure of the work.
        let shown = Printable(path);
        match eprintln!(rt; "passdb: {shown} could not be removed: {error}") {
            Ok(()) | Err(_) => {}
        }
    }
}

/// Writes a file that was just made, and waits until it is on the disk.
fn fill(file: File, kept: Option<Attributes>, octets: &[u8]) -> io::Result<()> {
    let mut file = file;
    if let Some(kept) = kept {
        kept.give(&file)?;
    }
    file.write_all(octets)?;
    file.sync_all()
}

/// The failure of a path whose folder has one that is not UTF-8.
fn not_utf8(alloc: Global, path: &str) -> Failure {
    let shown = Printable(path);
    Failure::told(
        Ending::ReadFault,
        format!(in alloc; "the file {shown}: the path of its folder is not UTF-8"),
    )
}

/// The failure of a path that cannot be resolved.
fn unresolved(alloc: Global, path: &str, error: io::Error) -> Failure {
    if error.kind() == io::ErrorKind::InvalidFilename && error.raw_os_error().is_none() {
        return not_utf8(alloc, path);
    }
    read_fault(alloc, path, error)
}

/// The path of a file that is not there, with the links of its folder resolved; the path itself where there is no folder.
fn new_path<R: Files + AllocGlobal>(rt: &R, path: &str) -> Result<String, Failure> {
    let alloc = rt.alloc();
    match fs::canonicalize(rt, parent(path)) {
        Ok(folder) => {
            let folder = folder.as_path().as_str();
            let slash = if folder.ends_with('/') { "" } else { "/" };
            let name = name(path);
            Ok(format!(in alloc; "{folder}{slash}{name}")?)
        }
        Err(error) if error.kind() == io::ErrorKind::NotFound => Ok(String::from_str(alloc, path)?),
        Err(error) => Err(unresolved(alloc, path, error)),
    }
}

/// The path of the file, links followed, so that a link to it stays one. `ReadFault` where a link is there that leads to nothing,
/// and `Usage` where the path is empty.
pub fn real_path<R: Files + AllocGlobal>(rt: &R, path: &str) -> Result<String, Failure> {
    let alloc = rt.alloc();
    if path.is_empty() {
        return Err(Failure::new(Ending::Usage, "FILE is the path of a file, and not empty"));
    }
    match fs::canonicalize(rt, path) {
        Ok(real) => Ok(String::from_str(alloc, real.as_path().as_str())?),
        Err(error) if error.kind() == io::ErrorKind::NotFound => {
            match fs::symlink_metadata(rt, path) {
                Ok(_) => Err(read_fault(alloc, path, error)),
                Err(_) => new_path(rt, path),
            }
        }
        Err(error) => Err(unresolved(alloc, path, error)),
    }
}

/// `WriteFault` where a folder on the way to this real path is one in which others can put something else in the place of what is
/// written.
pub fn in_safe_place<R: Files + AllocGlobal>(rt: &R, path: &str) -> Result<(), Failure> {
    let alloc = rt.alloc();
    match open_folder(rt, parent(path)) {
        Ok(None) => Ok(()),
        Ok(Some(open)) => {
            let text = open.text(alloc)?;
            let advice = open.advice(alloc)?;
            Err(Failure::told(Ending::WriteFault, format!(in alloc; "{text}\n{advice}")))
        }
        Err(error) => Err(write_fault(alloc, path, error)),
    }
}

/// The octets of the file; none where it is not there.
pub fn octets_of<R: Files + AllocGlobal>(rt: &R, path: &str) -> Result<Option<Vec<u8>>, Failure> {
    let alloc = rt.alloc();
    let shown = Printable(path);
    match fs::metadata(rt, path) {
        Ok(there) if !there.is_file() => Err(Failure::told(
            Ending::ReadFault,
            format!(in alloc; "{shown} is not a file"),
        )),
        Ok(there) if there.len() > MOST_OCTETS => Err(Failure::told(
            Ending::Malformed,
            format!(in alloc; "{shown} has more than 67,108,864 octets"),
        )),
        Ok(_) => match fs::read(rt, path) {
            Ok(octets) => Ok(Some(octets)),
            Err(error) => Err(read_fault(alloc, path, error)),
        },
        Err(error) if error.kind() == io::ErrorKind::NotFound => Ok(None),
        Err(error) => Err(read_fault(alloc, path, error)),
    }
}

fn parsed(alloc: Global, path: &str, octets: &[u8], rounds: u32) -> Result<Db, Failure>
    requires some { 1000 ≤ rounds }
    requires few { rounds ≤ 10000000 }
    ensures { IfOk result (λ d. AreEntries d.entries) }
{
    let Ok(text) = std::str::from_utf8(octets) else {
        return Err(not_text(alloc, path));
    };
    match Db::parse(alloc, text, rounds) {
        Ok(db) => Ok(db),
        Err(DbError::Malformed) => Err(malformed(alloc, path, text)),
        Err(error) => Err(Failure::from(error)),
    }
}

/// The text of these octets of a file; the empty one where there are none, or they are no text.
pub fn text_in(octets: &Option<Vec<u8>>) -> &str {
    let Some(octets) = octets else {
        return "";
    };
    match std::str::from_utf8(octets.as_slice()) {
        Ok(text) => text,
        Err(_) => "",
    }
}

/// What these octets of the file have; where it is not there, nothing if `make` is set, else `ReadFault`.
pub fn db_of(
    alloc: Global,
    path: &str,
    octets: &Option<Vec<u8>>,
    rounds: u32,
    make: bool,
) -> Result<Db, Failure>
    requires some { 1000 ≤ rounds }
    requires few { rounds ≤ 10000000 }
    ensures { IfOk result (λ d. AreEntries d.entries) }
{
    match octets {
        Some(octets) => parsed(alloc, path, octets.as_slice(), rounds),
        None if make => parsed(alloc, path, b"", rounds),
        None => {
            let shown = Printable(path);
            Err(Failure::told(
                Ending::ReadFault,
                format!(in alloc; "there is no file {shown}; add makes one"),
            ))
        }
    }
}

/// The same of the octets that the file has now.
pub fn read<R: Files + AllocGlobal>(
    rt: &R,
    path: &str,
    rounds: u32,
    make: bool,
) -> Result<Db, Failure>
    requires some { 1000 ≤ rounds }
    requires few { rounds ≤ 10000000 }
    ensures { IfOk result (λ d. AreEntries d.entries) }
{
    let octets = octets_of(rt, path)?;
    db_of(rt.alloc(), path, &octets, rounds, make)
}

/// The failure of a text that no later run would read.
fn too_long(alloc: Global, path: &str) -> Failure {
    let shown = Printable(path);
    let text = format!(in alloc;
        "{shown} would have more than 67,108,864 octets, which is the most that is read of a file; it is as it was"
    );
    Failure::told(Ending::WriteFault, text)
}

/// Where this variable is set, the wrapper has seen an access control list on the file.
const LISTED: &str = "PASSDB_LISTED";

/// What is kept of the mode, owner and group of a file. With an access control list the group's bits of the mode say what others
/// may do, and not what the group may: then the file is for its owner alone, and a line on the standard error says so.
fn kept_of<R: Env + Eprint + AllocGlobal>(rt: &R, path: &str, kept: Attributes) -> Attributes {
    if env::var(rt, LISTED).is_err() {
        return kept;
    }
    let shown = Printable(path);
    match eprintln!(rt;
        "passdb: {shown} had an access control list, which is not kept: it is for its owner alone now (mode 0600)"
    ) {
        Ok(()) | Err(_) => kept.for_owner_alone(),
    }
}

/// Waits until the new name is on the disk. Where the folder cannot be opened for that, the file is there all the same.
fn sync_folder<R: Files>(rt: &R, folder: &str) {
    if let Ok(folder) = fs::open(rt, folder) {
        match folder.sync_all() {
            Ok(()) | Err(_) => {}
        }
    }
}

/// What is written beside the place of a file, before it gets the name.
#[derive(Clone, Copy)]
pub struct Place<'a> {
    /// The real path of the file.
    pub path: &'a str,
    /// The number of the process, which is in the name of what is written beside it.
    pub process: u32,
}

impl Place<'_> {
    /// Writes this text beside the file's place, with the mode, owner and group that the file has.
    fn write_part<R: Files<File = File> + Env + Eprint + AllocGlobal>(
        self,
        rt: &R,
        part: &str,
        text: &str,
    ) -> Result<Identity, Failure> {
        let alloc = rt.alloc();
        let kept = match fs::metadata(rt, self.path) {
            Ok(there) => Some(kept_of(rt, self.path, Attributes::of_file(&there))),
            Err(error) if error.kind() == io::ErrorKind::NotFound => None,
            Err(error) => return Err(write_fault(alloc, self.path, error)),
        };
        let (file, identity) = match made(rt, part) {
            Ok(made) => made,
            Err(error) => return Err(write_fault(alloc, part, error)),
        };
        match fill(file, kept, text.as_bytes()) {
            Ok(()) => Ok(identity),
            Err(error) => {
                remove_or_tell(rt, identity, part);
                Err(write_fault(alloc, self.path, error))
            }
        }
    }

    /// Puts this text in the place of the file's. After a failure the file is as it was. A lock has to be held.
    pub fn write<R: Files<File = File> + Env + Eprint + AllocGlobal>(
        self,
        rt: &R,
        text: &str,
    ) -> Result<(), Failure> {
        let alloc = rt.alloc();
        if text.len() as u64 > MOST_OCTETS {
            return Err(too_long(alloc, self.path));
        }
        let path = self.path;
        let process = self.process;
        let part = format!(in alloc; "{path}.part-{process}")?;
        let part = part.as_str();
        let identity = self.write_part(rt, part, text)?;
        match renamed(rt, identity, part, path) {
            Ok(()) => {
                sync_folder(rt, parent(path));
                Ok(())
            }
            Err(error) => {
                remove_or_tell(rt, identity, part);
                Err(write_fault(alloc, path, error))
            }
        }
    }
}

/// Makes a file that was not there, for its owner alone.
fn made<R: Files<File = File>>(rt: &R, path: &str) -> io::Result<(File, Identity)> {
    let file = create(rt, path)?;
    let identity = Identity::of(&file.metadata()?);
    Ok((file, identity))
}

/// Gives this file, which is at `from`, the path `to`, and no other one that is there now.
fn renamed<R: Files>(rt: &R, this: Identity, from: &str, to: &str) -> io::Result<()> {
    this.stays_at(rt, from)?;
    fs::rename(rt, from, to)
}
