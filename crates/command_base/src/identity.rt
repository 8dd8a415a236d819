//! Which file or folder it is, whatever its name.
use std::fs::{File, Metadata};
use std::os::unix::fs::MetadataExt;
use std::rt::Files;
use std::{fs, io};

/// Which file or folder of the system it is. A link has one of its own.
#[derive(Clone, Copy, PartialEq, Eq)]
pub struct Identity {
    device: u64,
    number: u64,
}

fn another() -> io::Error {
    io::Error::other("something else is there now")
}

impl Identity {
    /// Of what this was told of.
    pub fn of(there: &Metadata) -> Identity {
        Identity {
            device: there.dev(),
            number: there.ino(),
        }
    }

    /// Of what is at the path. A link is not followed.
    pub fn at<R: Files>(rt: &R, path: &str) -> io::Result<Identity> {
        Ok(Identity::of(&fs::symlink_metadata(rt, path)?))
    }

    /// Fails where this is not what is open.
    pub fn is_of(self, opened: &File) -> io::Result<()> {
        if Identity::of(&opened.metadata()?) == self {
            Ok(())
        } else {
            Err(another())
        }
    }

    /// Fails where something else is at the path now.
    pub fn stays_at<R: Files>(self, rt: &R, path: &str) -> io::Result<()> {
        if Identity::at(rt, path)? == self {
            Ok(())
        } else {
            Err(another())
        }
    }
}

/// Opens the file or folder at the path, and no other one: what is opened is what the path named, and not what a link there leads
/// to.
pub fn open_itself<R: Files<File = File>>(rt: &R, path: &str) -> io::Result<File> {
    let opened = fs::open(rt, path)?;
    Identity::of(&opened.metadata()?).stays_at(rt, path)?;
    Ok(opened)
}
