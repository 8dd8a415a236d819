//! What is at the place of the output folder.
use crate::kind::{Kind, is_exported_name, kind_of};
use crate::mounts::is_mount_point;
use crate::output_error::{OutputError, OutputErrorKind};
use command_base::Attributes;
use std::alloc::{AllocError, Global};
use std::fs::{DirEntry, Metadata};
use std::rt::Files;
use std::{fs, io};
use terminal_text::{Printable, ShellWord, fits_in_command};

/// What is kept of a folder that is replaced.
#[derive(Clone, Copy)]
pub struct Kept {
    pub folder: Attributes,
    pub certificates: Option<Attributes>,
    pub keys: Option<Attributes>,
    /// Whether there is an access control list in it, so that its mode is not kept: the new folder is for its owner alone.
    pub is_listed: bool,
}

/// What a folder holds.
#[derive(Drop)]
struct Contents {
    kept: Kept,
    is_empty: bool,
    /// A name that `export` does not write, where there is one.
    foreign: Option<String>,
}

/// The error of something at this path that is in the way.
fn in_the_way(alloc: Global, path: &str, what: &str) -> OutputError {
    let shown = Printable(path);
    OutputError::told(
        OutputErrorKind::OutputExists,
        format!(in alloc; "{shown} {what}"),
    )
}

/// What to do instead of replacing a mount point.
fn below(alloc: Global, path: &str) -> Result<String, AllocError> {
    let below = format!(in alloc; "{path}/pem")?;
    let word = ShellWord(below.as_str());
    format!(in alloc; "Give a folder below it:\n    --out {word}")
}

fn is_a_mount_point(alloc: Global, path: &str) -> OutputError {
    let error = in_the_way(alloc, path, "is a mount point, which cannot be replaced");
    if !fits_in_command(path) {
        return error.advised("Give a folder below it.");
    }
    error.advised_by(below(alloc, path))
}

fn has_foreign(alloc: Global, path: &str, foreign: &str) -> OutputError {
    let folder = Printable(path);
    let name = Printable(foreign);
    let text = format!(in alloc; "{folder} is there already, and holds {name}");
    OutputError::told(OutputErrorKind::OutputExists, text).advised(
        "Give another name. --force replaces only a folder that holds nothing but what export \
         writes.",
    )
}

/// Of the files of a kind that were found, with one more.
fn joined(found: Option<Attributes>, more: Attributes) -> Option<Attributes> {
    match found {
        Some(found) => Some(found.narrowed(more)),
        None => Some(more),
    }
}

impl Contents {
    /// Takes note of a file that `export` may have written.
    fn add_file(&mut self, name: &str, there: &Metadata) {
        let more = Attributes::of_file(there);
        match kind_of(name) {
            Some(Kind::Certificate) => {
                self.kept.certificates = joined(self.kept.certificates, more);
            }
            Some(Kind::Key) | None => self.kept.keys = joined(self.kept.keys, more),
        }
    }

    /// Takes note of an entry.
    fn add<R: Files + AllocGlobal>(&mut self, rt: &R, entry: &DirEntry<R>) -> io::Result<()> {
        let name = entry.file_name();
        let there = entry.metadata()?;
        self.is_empty = false;
        if is_exported_name(name) && there.is_file() {
            self.add_file(name, &there);
        } else if self.foreign.is_none() {
            self.foreign = Some(String::from_str(rt.alloc(), name)?);
        }
        Ok(())
    }

    /// What is kept, and whether there is something to replace, where that may be.
    fn replaceable(
        self,
        alloc: Global,
        path: &str,
        force: bool,
    ) -> Result<(Kept, bool), OutputError> {
        if let Some(foreign) = &self.foreign {
            return Err(has_foreign(alloc, path, foreign.as_str()));
        }
        if !self.is_empty && !force {
            let error = in_the_way(alloc, path, "is there already, and is not empty");
            return Err(error.advised("Give another name, or --force to replace what is there."));
        }
        Ok((self.kept, !self.is_empty))
    }
}

/// What the folder at the path holds.
fn contents_of<R: Files + AllocGlobal + Clone + Drop>(
    rt: &R,
    path: &str,
    there: &Metadata,
) -> io::Result<Contents> {
    let mut contents = Contents {
        kept: Kept {
            folder: Attributes::of_folder(there),
            certificates: None,
            keys: None,
            is_listed: false,
        },
        is_empty: true,
        foreign: None,
    };
    for entry in fs::read_dir(rt, path)? {
        contents.add(rt, &entry?)?;
    }
    Ok(contents)
}

/// What a folder that is there keeps, and whether it holds something: one that is empty, or holds
/// nothing but what `export` writes and may be replaced. `OutputExists` for anything else. The folder is at `real`, and `path`
/// is the path that was given.
pub fn replaceable<R: Files + AllocGlobal + Clone + Drop>(
    rt: &R,
    path: &str,
    real: &str,
    there: &Metadata,
    force: bool,
) -> Result<(Kept, bool), OutputError> {
    let alloc = rt.alloc();
    if there.is_symlink() {
        return Err(in_the_way(alloc, path, "is a link, and not a folder").advised(REMOVE));
    }
    if !there.is_dir() {
        let error = in_the_way(alloc, path, "is there already, and is not a folder");
        return Err(error.advised(REMOVE));
    }
    if is_mount_point(rt, real, there) {
        return Err(is_a_mount_point(alloc, path));
    }
    match contents_of(rt, real, there) {
        Ok(contents) => contents.replaceable(alloc, path, force),
        Err(error) => Err(OutputError::write_fault(alloc, "the output folder", path, error)),
    }
}

/// What to do with something that is no folder.
const REMOVE: &str = "Remove it, or give another name.";
