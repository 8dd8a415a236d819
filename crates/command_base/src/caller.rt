//! Who runs the command.
use std::os::unix::fs::MetadataExt;
use std::rt::Files;
use std::{fs, io};

/// What Linux shows of the process that looks there: its owner and group are the user and the group that the process runs as.
const THIS_PROCESS: &str = "/proc/self";

/// The user who runs the command, and the group of the user.
#[derive(Clone, Copy)]
pub struct Caller {
    pub user: u32,
    pub group: u32,
}

impl Caller {
    /// Of this process.
    pub fn find<R: Files>(rt: &R) -> io::Result<Caller> {
        let this = fs::metadata(rt, THIS_PROCESS)?;
        Ok(Caller {
            user: this.uid(),
            group: this.gid(),
        })
    }
}
