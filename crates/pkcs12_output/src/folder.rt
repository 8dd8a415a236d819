//! The output folder: it is there whole, or not at all.
use crate::access_list::{is_listed, tell_not_kept};
use crate::kind::is_exported_name;
use crate::output_error::{OutputError, OutputErrorKind};
use crate::output_exists::{Kept, replaceable};
use crate::safe_place::{is_anothers, safe_place};
use command_base::{Attributes, Identity, name, open_itself, parent};
use std::alloc::{AllocError, Global};
use std::fs::{DirBuilder, File, Metadata, OpenFile};
use std::os::unix::fs::DirBuilderExt;
use std::rt::{Env, Files};
use std::{fs, io};
use terminal_text::{Printable, ShellWord, fits_in_command};

/// Where the output goes: a folder that is not there yet, or is to be replaced.
#[derive(Drop)]
pub struct Folder<'a> {
    /// Its path as it was given, without slashes at its end.
    path: &'a str,
    /// The same with the links of the folder above it resolved: what is made and removed is below this path.
    real: String,
    /// The number of the process, which is in the names of what it makes beside the folder.
    process: u32,
    /// What stays of a folder that is there now.
    pub kept: Option<Kept>,
    /// The folder that is there now, where it is not empty.
    replaces: Option<Identity>,
}

/// The folder in which the output is begun.
#[derive(Drop)]
pub struct NewFolder {
    path: String,
    identity: Identity,
}

impl NewFolder {
    /// Its path.
    pub fn as_str(&self) -> &str {
        self.path.as_str()
    }

    /// The folder, open.
    fn opened<R: Files<File = File>>(&self, rt: &R) -> io::Result<File> {
        let opened = open_itself(rt, self.as_str())?;
        self.identity.is_of(&opened)?;
        Ok(opened)
    }

    /// Gives the folder what is kept of the one that it replaces.
    pub fn give<R: Files<File = File>>(&self, rt: &R, kept: Kept) -> io::Result<()> {
        kept.give(&self.opened(rt)?)
    }

    /// Removes the folder, where it is the one that was made.
    fn remove<R: Files + AllocGlobal>(&self, rt: &R) -> io::Result<()> {
        self.identity.stays_at(rt, self.as_str())?;
        fs::remove_dir_all(rt, self.as_str())
    }
}

/// The folder of this path. `Usage` where the path has no name at its end.
fn named_folder(out: &str) -> Result<&str, OutputError> {
    let path = out.trim_end_matches('/');
    let name = name(path);
    if name.is_empty() || name == "." || name == ".." {
        return Err(OutputError::new(
            OutputErrorKind::Usage,
            "--out takes the path of a folder that is to be made, with a name at its end",
        ));
    }
    Ok(path)
}

fn write_fault(alloc: Global, purpose: &str, path: &str, error: io::Error) -> OutputError {
    OutputError::write_fault(alloc, purpose, path, error)
}

/// The error where a process of the same number left the folder in which the output is begun.
fn left_over(alloc: Global, part: &str) -> OutputError {
    let shown = Printable(part);
    let error = OutputError::told(
        OutputErrorKind::WriteFault,
        format!(in alloc; "{shown} is left of a run that was killed"),
    );
    if !fits_in_command(part) {
        return error.advised("Remove it.");
    }
    let word = ShellWord(part);
    error.advised_by(format!(in alloc; "Remove it:\n    rm -r {word}"))
}

/// The error where the attributes of a folder or file that is there cannot be kept.
pub fn not_kept(alloc: Global, path: &str, error: io::Error) -> OutputError {
    let shown = Printable(path);
    let text = format!(in alloc;
        "{shown} is there already, and its mode, owner and group cannot be kept: {error}"
    );
    OutputError::told(OutputErrorKind::WriteFault, text).advised(
        "Run as its owner, or give another name.",
    )
}

/// The error where the folder that was at the path could not be given its name back.
fn not_put_back(alloc: Global, path: &str, old: &str, error: io::Error) -> OutputError {
    let shown = Printable(path);
    let old = Printable(old);
    let text = format!(in alloc;
        "the output folder {shown}: {error}; the folder that was there is now at {old}"
    );
    OutputError::told(OutputErrorKind::WriteFault, text)
}

/// The error where the new folder could not get its name. Another run may have made a folder of
/// the name meanwhile.
fn not_placed(alloc: Global, path: &str, error: io::Error) -> OutputError {
    if matches!(
        error.kind(),
        io::ErrorKind::DirectoryNotEmpty | io::ErrorKind::AlreadyExists
    ) {
        let shown = Printable(path);
        let text = format!(in alloc; "{shown} was made meanwhile, and is not empty");
        return OutputError::told(OutputErrorKind::OutputExists, text);
    }
    write_fault(alloc, "the output folder", path, error)
}

/// What is told of an output whose name could not be brought to the disk.
pub const MAY_BE_LOST: &str = "is written, and may not be on the disk yet";

/// Says on the standard error that something was not done which does not make the output wrong.
pub fn tell<R: Eprint>(rt: &R, path: &str, what: &str, error: &io::Error) {
    let shown = Printable(path);
    // A standard error that cannot be written to is no failure of the work.
    match eprintln!(rt; "pkcs12: {shown}, {what}: {error}") {
        Ok(()) | Err(_) => {}
    }
}

/// Whether the file lies in the folder; both have to be there. Links are followed.
fn lies_in<R: Files + AllocGlobal>(rt: &R, file: &str, folder: &str) -> io::Result<bool> {
    let file = fs::canonicalize(rt, file)?;
    let folder = fs::canonicalize(rt, folder)?;
    Ok(file.as_path().starts_with(folder.as_path()))
}

/// The error where `--force` would remove this file.
fn would_go(alloc: Global, file: &str, path: &str) -> OutputError {
    let file = Printable(file);
    let path = Printable(path);
    let text = format!(in alloc;
        "{file} lies in {path}, and --force would remove it with all that is there"
    );
    OutputError::told(OutputErrorKind::Usage, text)
}

/// Gives this file or folder, which is at `from`, the path `to`, and no other one that is there now. Over NFS a rename may be
/// called failed though it was done: then it is done.
pub fn rename_this<R: Files>(rt: &R, this: Identity, from: &str, to: &str) -> io::Result<()> {
    this.stays_at(rt, from)?;
    match fs::rename(rt, from, to) {
        Ok(()) => this.stays_at(rt, to),
        Err(error) => {
            let is_gone = fs::symlink_metadata(rt, from).is_err();
            match Identity::at(rt, to) {
                Ok(there) if is_gone && there == this => Ok(()),
                _ => Err(error),
            }
        }
    }
}

/// Whether a file system that has no such call gave this error.
fn is_unsupported(error: &io::Error) -> bool {
    matches!(
        error.kind(),
        io::ErrorKind::InvalidInput | io::ErrorKind::Unsupported | io::ErrorKind::PermissionDenied
    )
}

/// Brings the entries of a folder to the disk.
fn sync<R: Files>(rt: &R, path: &str) -> io::Result<()> {
    fs::open(rt, path)?.sync_all()
}

/// The same, as far as the file system and the mode of the folder allow it.
pub fn sync_folder<R: Files>(rt: &R, path: &str) -> io::Result<()> {
    match sync(rt, path) {
        Err(error) if is_unsupported(&error) => Ok(()),
        synced => synced,
    }
}

/// Removes what `export` writes from this folder, and then the folder, where it is at the path.
fn remove_exported<R: Files + AllocGlobal + Clone + Drop>(
    rt: &R,
    this: Identity,
    path: &str,
) -> io::Result<()> {
    this.stays_at(rt, path)?;
    for entry in fs::read_dir(rt, path)? {
        let entry = entry?;
        if is_exported_name(entry.file_name()) {
            fs::remove_file(rt, entry.path())?;
        }
    }
    fs::remove_dir(rt, path)
}

impl<'a> Folder<'a> {
    /// The folder at the path `out`, for the process of this number. One that holds what `export` writes is replaced only if
    /// `force` is set. `Usage` where the path has no name at its end, `OutputExists` where something is there that cannot be
    /// replaced, and `WriteFault` where a folder on the way is in the hands of others, or the folder cannot be made there: that
    /// is tried, beside its place.
    pub fn find<R: Files<File = File> + Env + Eprint + AllocGlobal + Clone + Drop>(
        rt: &R,
        out: &'a str,
        force: bool,
        process: u32,
    ) -> Result<Folder<'a>, OutputError> {
        let path = named_folder(out)?;
        let real = safe_place(rt, "the output folder", path)?;
        let (kept, replaces) = match fs::symlink_metadata(rt, real.as_str()) {
            Ok(there) => {
                let (kept, holds) = replaceable(rt, path, real.as_str(), &there, force)?;
                not_anothers(rt, path, real.as_str(), &there)?;
                (
                    Some(kept.where_listed(is_listed(rt))),
                    if holds {
                        Some(Identity::of(&there))
                    } else {
                        None
                    },
                )
            }
            Err(error) if error.kind() == io::ErrorKind::NotFound => (None, None),
            Err(error) => return Err(write_fault(rt.alloc(), "the output folder", path, error)),
        };
        let folder = Folder {
            path,
            real,
            process,
            kept,
            replaces,
        };
        folder.try_out(rt)?;
        Ok(folder)
    }

    /// The path at which the output is begun.
    fn part(&self, alloc: Global) -> Result<String, AllocError> {
        let path = self.real.as_str();
        let process = self.process;
        format!(in alloc; "{path}.part-{process}")
    }

    /// The path at which the folder that is replaced is meanwhile.
    fn old(&self, alloc: Global) -> Result<String, AllocError> {
        let path = self.real.as_str();
        let process = self.process;
        format!(in alloc; "{path}.old-{process}")
    }

    /// Makes the folder in which the output is begun, which only its owner may read.
    fn make<R: Files + AllocGlobal>(&self, rt: &R) -> Result<NewFolder, OutputError> {
        let path = self.part(rt.alloc())?;
        match made(rt, path.as_str()) {
            Ok(identity) => Ok(NewFolder { path, identity }),
            Err(error) if error.kind() == io::ErrorKind::AlreadyExists => {
                Err(left_over(rt.alloc(), path.as_str()))
            }
            Err(error) => Err(write_fault(rt.alloc(), "the output folder", self.path, error)),
        }
    }

    /// Makes the folder beside its place, with what it is to keep, and removes it again.
    fn try_out<R: Files<File = File> + Eprint + AllocGlobal>(
        &self,
        rt: &R,
    ) -> Result<(), OutputError> {
        let part = self.make(rt)?;
        let tried = self.try_to_keep(rt, &part);
        if let Err(error) = part.remove(rt) {
            tell(rt, part.as_str(), "could not be removed", &error);
        }
        tried
    }

    /// That the folder in which the output is begun can get what is kept.
    fn try_to_keep<R: Files<File = File> + AllocGlobal>(
        &self,
        rt: &R,
        part: &NewFolder,
    ) -> Result<(), OutputError> {
        let Some(kept) = &self.kept else {
            return Ok(());
        };
        match kept.try_on(rt, part) {
            Ok(()) => Ok(()),
            Err(error) => Err(not_kept(rt.alloc(), self.path, error)),
        }
    }

    /// `Usage` where the file lies in the folder, and so would be removed with what the folder has
    /// now.
    pub fn keeps<R: Files + AllocGlobal>(&self, rt: &R, file: &str) -> Result<(), OutputError> {
        if self.replaces.is_none() {
            return Ok(());
        }
        match lies_in(rt, file, self.real.as_str()) {
            Ok(true) => Err(would_go(rt.alloc(), file, self.path)),
            Ok(false) => Ok(()),
            Err(error) if error.kind() == io::ErrorKind::OutOfMemory => {
                Err(OutputError::from(AllocError))
            }
            // What is not there, or is a pipe, is not in the folder.
            Err(_) => Ok(()),
        }
    }

    /// Makes the folder in which the output is begun, beside the folder's place. Only this process writes to it, and only its
    /// owner may read it. `finish` has to follow.
    pub fn begin<R: Files + AllocGlobal>(&self, rt: &R) -> Result<NewFolder, OutputError> {
        self.make(rt)
    }

    /// Gives what `begin` made the folder's name, if it was filled. After an error it is removed again, and what was at the place
    /// before is there again; where either cannot be done, a line or the error says so. A folder that was replaced and cannot be
    /// removed is no error: a line names it. Nothing is removed but what this run made or was to replace: another folder that is
    /// there meanwhile stays.
    pub fn finish<R: Files + Eprint + AllocGlobal + Clone + Drop>(
        &self,
        rt: &R,
        part: &NewFolder,
        filled: io::Result<()>,
    ) -> Result<(), OutputError> {
        let placed = match filled {
            Ok(()) => self.place(rt, part),
            Err(error) => Err(write_fault(rt.alloc(), "the output folder", self.path, error)),
        };
        if placed.is_err()
            && let Err(error) = part.remove(rt)
        {
            tell(
                rt,
                part.as_str(),
                "the new folder, could not be removed",
                &error,
            );
        }
        if placed.is_ok() {
            self.tell_of_list(rt);
        }
        placed
    }

    /// Says that an access control list was not kept, where there was one.
    fn tell_of_list<R: Eprint>(&self, rt: &R) {
        if let Some(kept) = self.kept
            && kept.is_listed
        {
            tell_not_kept(rt, self.path);
        }
    }

    /// Gives the new folder the name of this one.
    fn place<R: Files + Eprint + AllocGlobal + Clone + Drop>(
        &self,
        rt: &R,
        part: &NewFolder,
    ) -> Result<(), OutputError> {
        if let Some(there) = self.replaces {
            return self.replace(rt, part, there);
        }
        match rename_this(rt, part.identity, part.as_str(), self.real.as_str()) {
            Ok(()) => {
                self.sync_place(rt);
                Ok(())
            }
            Err(error) => Err(not_placed(rt.alloc(), self.path, error)),
        }
    }

    /// Brings the folder's name to the disk. Whether it is there.
    fn sync_place<R: Files + Eprint>(&self, rt: &R) -> bool {
        match sync_folder(rt, parent(self.real.as_str())) {
            Ok(()) => true,
            Err(error) => {
                tell(rt, self.path, MAY_BE_LOST, &error);
                false
            }
        }
    }

    /// Puts the new folder in the place of the old one, which is removed once the new one is on the
    /// disk.
    fn replace<R: Files + Eprint + AllocGlobal + Clone + Drop>(
        &self,
        rt: &R,
        part: &NewFolder,
        there: Identity,
    ) -> Result<(), OutputError> {
        let path = self.real.as_str();
        let old = self.old(rt.alloc())?;
        let old = old.as_str();
        if let Err(error) = rename_this(rt, there, path, old) {
            return Err(write_fault(rt.alloc(), "the output folder", self.path, error));
        }
        match rename_this(rt, part.identity, part.as_str(), path) {
            Ok(()) => {
                self.remove_old(rt, there, old);
                Ok(())
            }
            Err(error) => match rename_this(rt, there, old, path) {
                Ok(()) => Err(write_fault(rt.alloc(), "the output folder", self.path, error)),
                Err(_) => Err(not_put_back(rt.alloc(), self.path, old, error)),
            },
        }
    }

    /// Removes the folder that was replaced, where the new one is on the disk.
    fn remove_old<R: Files + Eprint + AllocGlobal + Clone + Drop>(
        &self,
        rt: &R,
        there: Identity,
        old: &str,
    ) {
        if !self.sync_place(rt) {
            return;
        }
        if let Err(error) = remove_exported(rt, there, old) {
            tell(
                rt,
                old,
                "the folder that was replaced, could not be removed",
                &error,
            );
        }
    }
}

/// The error where the folder that is there is another user's.
fn anothers(alloc: Global, path: &str) -> OutputError {
    let shown = Printable(path);
    let text = format!(in alloc;
        "{shown} is a folder of another user, in a folder that everybody may write to"
    );
    OutputError::told(OutputErrorKind::OutputExists, text).advised("Give the name of a new folder.")
}

/// `OutputExists` where the folder that is there is another user's, among folders that everybody may make.
fn not_anothers<R: Files + AllocGlobal>(
    rt: &R,
    path: &str,
    real: &str,
    there: &Metadata,
) -> Result<(), OutputError> {
    match is_anothers(rt, real, there) {
        Ok(true) => Err(anothers(rt.alloc(), path)),
        Ok(false) => Ok(()),
        Err(error) => Err(write_fault(rt.alloc(), "the output folder", path, error)),
    }
}

/// Makes a folder that was not there, which only its owner may read.
fn made<R: Files>(rt: &R, path: &str) -> io::Result<Identity> {
    DirBuilder::new().mode(0o700).create(rt, path)?;
    Identity::at(rt, path)
}

/// The attributes of files for their owner alone.
fn for_owner_alone(files: Option<Attributes>) -> Option<Attributes> {
    match files {
        Some(files) => Some(files.for_owner_alone()),
        None => None,
    }
}

impl Kept {
    /// What is kept where there is an access control list in the folder, or none.
    fn where_listed(self, is_listed: bool) -> Kept {
        if !is_listed {
            return self;
        }
        Kept {
            folder: self.folder,
            certificates: for_owner_alone(self.certificates),
            keys: for_owner_alone(self.keys),
            is_listed,
        }
    }

    /// Gives what is kept to a new folder that is open.
    fn give(self, opened: &File) -> io::Result<()> {
        if self.is_listed {
            return self.folder.give_owner(opened);
        }
        self.folder.give(opened)
    }

    /// Gives what is kept to the folder in which the output is begun, to see whether that may be.
    fn try_on<R: Files<File = File>>(&self, rt: &R, part: &NewFolder) -> io::Result<()> {
        let opened = part.opened(rt)?;
        give_owner_of(self.certificates, &opened)?;
        give_owner_of(self.keys, &opened)?;
        self.give(&opened)
    }
}

fn give_owner_of(files: Option<Attributes>, opened: &File) -> io::Result<()> {
    match files {
        Some(files) => files.give_owner(opened),
        None => Ok(()),
    }
}
