//! The file of a store: it is there whole, or not at all.
use crate::access_list::{is_listed, tell_not_kept};
use crate::folder::{MAY_BE_LOST, not_kept, rename_this, sync_folder, tell};
use crate::output_error::{OutputError, OutputErrorKind};
use crate::safe_place::{is_anothers, safe_place};
use command_base::{Attributes, Identity, name, open_itself, parent};
use std::alloc::{AllocError, Global};
use std::fs::{File, Metadata, OpenFile, OpenOptions};
use std::io::{Read, Write};
use std::os::unix::fs::OpenOptionsExt;
use std::rt::{Env, Files};
use std::{fs, io};
use terminal_text::Printable;

/// Where a store is written: a file that is not there yet, or is to be replaced.
#[derive(Drop)]
pub struct StoreFile<'a> {
    /// Its path as it was given.
    path: &'a str,
    /// The same with the links of its folder resolved: what is made and removed is there.
    real: String,
    /// The number of the process, which is in the name of the file in which the store is begun.
    process: u32,
    /// The mode, owner and group of the file that is there now, which stay.
    kept: Option<Attributes>,
    /// Whether the file that is there now has an access control list: the new one is for its owner alone.
    is_listed: bool,
}

/// A store that is written beside its place, and was read back.
#[derive(Drop)]
pub struct Written {
    pub octets: Vec<u8>,
    identity: Identity,
}

/// Why a file could not be written whole, by what is there of it.
#[derive(Drop)]
enum Begun {
    /// It could not be made.
    Nothing(io::Error),
    /// It could not be written, or brought to the disk.
    Unwritten(Identity, io::Error),
    /// It could not be given the mode, owner and group of the file that is there.
    NotKept(Identity, io::Error),
}

fn write_fault(alloc: Global, path: &str, error: io::Error) -> OutputError {
    OutputError::write_fault(alloc, "the new store", path, error)
}

/// The error where something is at the path that is not replaced.
fn is_there(alloc: Global, path: &str, what: &str, advice: &'static str) -> OutputError {
    let shown = Printable(path);
    OutputError::told(
        OutputErrorKind::OutputExists,
        format!(in alloc; "{shown} {what}"),
    )
    .advised(advice)
}

/// Whether a file system that has no hard links gave this error.
fn has_no_links(error: &io::Error) -> bool {
    matches!(
        error.kind(),
        io::ErrorKind::Unsupported | io::ErrorKind::PermissionDenied | io::ErrorKind::InvalidInput
    )
}

/// The mode, owner and group of the file that is at the path `real`, which `path` was given for, where it may be replaced.
fn replaceable<R: Files + AllocGlobal>(
    rt: &R,
    path: &str,
    real: &str,
    there: &Metadata,
    may_replace: bool,
) -> Result<Attributes, OutputError> {
    if !there.is_file() {
        return Err(is_there(
            rt.alloc(),
            path,
            "is there, and is no regular file",
            "Give the name of a new file, or of the file that a link leads to.",
        ));
    }
    if !may_replace {
        return Err(is_there(
            rt.alloc(),
            path,
            "is there already",
            "Give the name of a new file, or --force to replace it.",
        ));
    }
    match is_anothers(rt, real, there) {
        Ok(false) => Ok(Attributes::of_file(there)),
        Ok(true) => Err(is_there(
            rt.alloc(),
            path,
            "is a file of another user, in a folder that everybody may write to",
            "Give the name of a new file.",
        )),
        Err(error) => Err(write_fault(rt.alloc(), path, error)),
    }
}

impl<'a> StoreFile<'a> {
    /// The file at this path. `OutputExists` where something is there that may not be replaced, and `WriteFault` where a folder on
    /// the way is in the hands of others.
    pub fn find<R: Files + Env + AllocGlobal>(
        rt: &R,
        path: &'a str,
        may_replace: bool,
        process: u32,
    ) -> Result<StoreFile<'a>, OutputError> {
        if name(path).is_empty() {
            return Err(OutputError::new(
                OutputErrorKind::Usage,
                "--out takes the path of a file, with a name at its end",
            ));
        }
        let real = safe_place(rt, "the new store", path)?;
        let kept = match fs::symlink_metadata(rt, real.as_str()) {
            Ok(there) => Some(replaceable(rt, path, real.as_str(), &there, may_replace)?),
            Err(error) if error.kind() == io::ErrorKind::NotFound => None,
            Err(error) => return Err(write_fault(rt.alloc(), path, error)),
        };
        let is_listed = kept.is_some() && is_listed(rt);
        Ok(StoreFile {
            path,
            real,
            process,
            kept: match kept {
                Some(kept) if is_listed => Some(kept.for_owner_alone()),
                kept => kept,
            },
            is_listed,
        })
    }

    /// The path at which the store is begun.
    pub fn part(&self, alloc: Global) -> Result<String, AllocError> {
        let path = self.real.as_str();
        let process = self.process;
        format!(in alloc; "{path}.part-{process}")
    }

    /// Writes the octets into a file beside this one, which only its owner may read unless more is kept, and brings it to the disk.
    fn begin<R: Files<File = File> + AllocGlobal>(
        &self,
        rt: &R,
        part: &str,
        octets: &[u8],
    ) -> Result<Identity, Begun> {
        let (mut file, identity) = match made(rt, part) {
            Ok(made) => made,
            Err(error) => return Err(Begun::Nothing(error)),
        };
        if let Err(error) = file.write_all(octets) {
            return Err(Begun::Unwritten(identity, error));
        }
        if let Some(kept) = self.kept
            && let Err(error) = kept.give(&file)
        {
            return Err(Begun::NotKept(identity, error));
        }
        match file.sync_all() {
            Ok(()) => Ok(identity),
            Err(error) => Err(Begun::Unwritten(identity, error)),
        }
    }

    /// The error of a file that could not be written whole. What is begun is removed.
    fn not_begun<R: Files + AllocGlobal>(
        &self,
        rt: &R,
        begun: Begun,
    ) -> Result<OutputError, AllocError> {
        match begun {
            Begun::Nothing(error) => Ok(write_fault(rt.alloc(), self.path, error)),
            Begun::Unwritten(identity, error) => {
                self.remove(rt, identity)?;
                Ok(write_fault(rt.alloc(), self.path, error))
            }
            Begun::NotKept(identity, error) => {
                self.remove(rt, identity)?;
                Ok(not_kept(rt.alloc(), self.path, error))
            }
        }
    }

    /// Writes the octets beside this file, and reads them back. What is begun is removed after an error.
    pub fn written<R: Files<File = File> + AllocGlobal>(
        &self,
        rt: &R,
        octets: &[u8],
    ) -> Result<Written, OutputError> {
        let part = self.part(rt.alloc())?;
        let identity = match self.begin(rt, part.as_str(), octets) {
            Ok(identity) => identity,
            Err(begun) => return Err(self.not_begun(rt, begun)?),
        };
        match read_back(rt, part.as_str(), octets.len()) {
            Ok(octets) => Ok(Written { octets, identity }),
            Err(error) => {
                self.remove(rt, identity)?;
                Err(write_fault(rt.alloc(), self.path, error))
            }
        }
    }

    /// Whether the file has these octets now.
    pub fn holds<R: Files<File = File> + AllocGlobal>(&self, rt: &R, octets: &[u8]) -> bool {
        match read_back(rt, self.real.as_str(), octets.len()) {
            Ok(found) => found.as_slice() == octets,
            Err(_) => false,
        }
    }

    /// Removes the file that was begun, and no other one that is there now.
    fn remove<R: Files + AllocGlobal>(&self, rt: &R, begun: Identity) -> Result<(), AllocError> {
        let part = self.part(rt.alloc())?;
        // What cannot be removed is named by the error that follows: it is the path with `.part-` and the number of the process.
        match removed(rt, begun, part.as_str()) {
            Ok(()) | Err(_) => Ok(()),
        }
    }

    /// Removes what was written.
    pub fn abandon<R: Files + AllocGlobal>(
        &self,
        rt: &R,
        written: &Written,
    ) -> Result<(), AllocError> {
        self.remove(rt, written.identity)
    }

    /// Gives what was begun the name of this file. Where none is replaced, a file that was made meanwhile stays.
    fn name_it<R: Files>(&self, rt: &R, begun: Identity, part: &str) -> io::Result<()> {
        let real = self.real.as_str();
        if self.kept.is_some() {
            return rename_this(rt, begun, part, real);
        }
        begun.stays_at(rt, part)?;
        match fs::hard_link(rt, part, real) {
            Ok(()) => removed(rt, begun, part),
            Err(error) if has_no_links(&error) => match fs::symlink_metadata(rt, real) {
                Ok(_) => Err(io::Error::from(io::ErrorKind::AlreadyExists)),
                Err(_) => rename_this(rt, begun, part, real),
            },
            Err(error) => Err(error),
        }
    }

    /// Gives what was begun the name of this file, and brings that to the disk; where the name is there and cannot be brought
    /// to the disk, that is told.
    pub fn place<R: Files + Eprint + AllocGlobal>(
        &self,
        rt: &R,
        written: &Written,
    ) -> Result<(), OutputError> {
        let part = self.part(rt.alloc())?;
        match self.name_it(rt, written.identity, part.as_str()) {
            Ok(()) => {}
            Err(error) if error.kind() == io::ErrorKind::AlreadyExists => {
                self.abandon(rt, written)?;
                return Err(is_there(
                    rt.alloc(),
                    self.path,
                    "was made meanwhile",
                    "Give the name of a new file.",
                ));
            }
            Err(error) => {
                self.abandon(rt, written)?;
                return Err(write_fault(rt.alloc(), self.path, error));
            }
        }
        if let Err(error) = sync_folder(rt, parent(self.real.as_str())) {
            tell(rt, self.path, MAY_BE_LOST, &error);
        }
        if self.is_listed {
            tell_not_kept(rt, self.path);
        }
        Ok(())
    }
}

/// Makes a file that was not there, which only its owner may read.
fn made<R: Files<File = File>>(rt: &R, path: &str) -> io::Result<(File, Identity)> {
    let file = OpenOptions::new()
        .write(true)
        .create_new(true)
        .mode(0o600)
        .open(rt, path)?;
    let identity = Identity::of(&file.metadata()?);
    Ok((file, identity))
}

/// Removes this file, where it is at the path.
fn removed<R: Files>(rt: &R, this: Identity, path: &str) -> io::Result<()> {
    this.stays_at(rt, path)?;
    fs::remove_file(rt, path)
}

/// The octets of a file, of which so many are due, and one more where there are more.
fn read_back<R: Files<File = File> + AllocGlobal>(
    rt: &R,
    path: &str,
    due: usize,
) -> io::Result<Vec<u8>> {
    let mut octets = Vec::new(rt.alloc());
    let file = open_itself(rt, path)?;
    file.take((due as u64).saturating_add(1))
        .read_to_end(&mut octets)?;
    Ok(octets)
}
