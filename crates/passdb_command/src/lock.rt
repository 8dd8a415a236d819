//! The lock of a password file: of two runs at the same time both changes are kept.
use crate::ending::{Ending, Failure};
use command_base::Identity;
use std::alloc::{AllocError, Global};
use std::fs::{File, OpenOptions, TryLockError};
use std::os::unix::fs::OpenOptionsExt;
use std::rt::Files;
use std::time::{Clock, Duration};
use std::{fs, io, thread};
use terminal_text::Printable;

/// How often a lock is tried that another run has, and how long a run waits in between: ten seconds in all.
const TRIES: u32 = 100;

const WAIT_MILLISECONDS: u64 = 100;

/// The lock of a file, which this process has. The system takes it back when the process ends.
#[derive(Drop)]
pub struct Lock {
    path: String,
    file: File,
    identity: Identity,
}

/// Makes the file of a lock that was not there, for its owner alone.
fn create<R: Files<File = File>>(rt: &R, path: &str) -> io::Result<File> {
    OpenOptions::new()
        .write(true)
        .create_new(true)
        .mode(0o600)
        .open(rt, path)
}

/// Opens the file of a lock that is there; none where it was removed meanwhile.
fn open_that_is_there<R: Files<File = File>>(rt: &R, path: &str) -> io::Result<Option<File>> {
    match fs::symlink_metadata(rt, path) {
        Ok(there) if there.is_file() => {}
        Ok(_) => return Err(io::Error::other("it is there, and is no regular file: remove it")),
        Err(error) if error.kind() == io::ErrorKind::NotFound => return Ok(None),
        Err(error) => return Err(error),
    }
    match OpenOptions::new().read(true).write(true).open(rt, path) {
        Ok(file) => Ok(Some(file)),
        Err(error) if error.kind() == io::ErrorKind::NotFound => Ok(None),
        Err(error) => Err(error),
    }
}

/// The file of the lock, which is made where it is not there.
fn opened<R: Files<File = File>>(rt: &R, path: &str) -> io::Result<Option<File>> {
    match create(rt, path) {
        Ok(file) => Ok(Some(file)),
        Err(error) if error.kind() == io::ErrorKind::AlreadyExists => open_that_is_there(rt, path),
        Err(error) => Err(error),
    }
}

/// Locks the file at the path; none where another run has it.
fn taken<R: Files<File = File>>(rt: &R, path: &str) -> io::Result<Option<(File, Identity)>> {
    let Some(file) = opened(rt, path)? else {
        return Ok(None);
    };
    match file.try_lock() {
        Ok(()) => {}
        Err(TryLockError::WouldBlock) => return Ok(None),
        Err(TryLockError::Error(error)) => return Err(error),
    }
    let identity = Identity::of(&file.metadata()?);
    // The run that had the lock has removed its file at the end: then this one locks nothing.
    match identity.stays_at(rt, path) {
        Ok(()) => Ok(Some((file, identity))),
        Err(_) => Ok(None),
    }
}

fn write_fault(alloc: Global, path: &str, error: io::Error) -> Failure {
    Failure::io(alloc, Ending::WriteFault, "the lock", path, error)
}

/// The failure of a lock that another run keeps.
fn kept_by_another(alloc: Global, path: &str) -> Failure {
    let shown = Printable(path);
    let text = format!(in alloc; "another run has been changing {shown} for ten seconds");
    Failure::told(Ending::Locked, text)
}

impl Lock {
    /// Takes the lock of the file at this path: that of the file FILE.lock beside it. Waits for ten seconds where another run has it.
    pub fn take<R: Files<File = File> + Clock + AllocGlobal>(
        rt: &R,
        path: &str,
    ) -> Result<Lock, Failure> {
        let alloc = rt.alloc();
        let lock = format!(in alloc; "{path}.lock")?;
        for _ in 0..TRIES {
            match taken(rt, lock.as_str()) {
                Ok(Some((file, identity))) => {
                    return Ok(Lock {
                        path: lock,
                        file,
                        identity,
                    });
                }
                Ok(None) => thread::sleep(rt, Duration::from_millis(WAIT_MILLISECONDS)),
                Err(error) => return Err(write_fault(alloc, lock.as_str(), error)),
            }
        }
        Err(kept_by_another(alloc, path))
    }

    /// Removes the file of the lock and gives it back.
    pub fn release<R: Files + Eprint>(self, rt: &R) {
        let path = self.path.as_str();
        let removed = match self.identity.stays_at(rt, path) {
            Ok(()) => fs::remove_file(rt, path),
            Err(error) => Err(error),
        };
        // A file that stays is locked by nobody, and the next run takes it.
        match removed {
            Ok(()) | Err(_) => {}
        }
    }
}
