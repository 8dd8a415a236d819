//! Mount points, which cannot be replaced.
use command_base::parent;
use std::alloc::{AllocError, Global};
use std::fs::Metadata;
use std::os::unix::fs::MetadataExt;
use std::rt::Files;
use std::{fs, io};

/// Where Linux lists what is mounted, a line each; the fifth word is the mount point.
const MOUNTS: &str = "/proc/self/mountinfo";

/// A path as the list has it: space, tab, line feed and backslash are written in octal.
fn listed(alloc: Global, path: &str) -> Result<Vec<u8>, AllocError> {
    let mut octets = Vec::new(alloc);
    for octet in path.as_bytes() {
        match *octet {
            b' ' => octets.extend_from_slice(b"\\040")?,
            b'\t' => octets.extend_from_slice(b"\\011")?,
            b'\n' => octets.extend_from_slice(b"\\012")?,
            b'\\' => octets.extend_from_slice(b"\\134")?,
            other => octets.push(other)?,
        }
    }
    Ok(octets)
}

/// Whether a line of the list has this mount point.
fn is_of(line: &[u8], path: &[u8]) -> bool {
    line.split(|octet| *octet == b' ').nth(4) == Some(path)
}

/// Whether the list has the folder.
fn is_listed<R: Files + AllocGlobal>(rt: &R, path: &str) -> io::Result<bool> {
    let whole = fs::canonicalize(rt, path)?;
    let Some(whole) = whole.as_path().to_str() else {
        return Ok(false);
    };
    let path = listed(rt.alloc(), whole)?;
    let mounts = fs::read(rt, MOUNTS)?;
    Ok(
        mounts
            .as_slice()
            .split(|octet| *octet == b'\n')
            .any(|line| is_of(line, path.as_slice())),
    )
}

/// Whether another file system begins at the folder.
fn is_on_another_device<R: Files>(rt: &R, path: &str, there: &Metadata) -> bool {
    match fs::metadata(rt, parent(path)) {
        Ok(above) => above.dev() != there.dev(),
        Err(_) => false,
    }
}

/// Whether something is mounted at the folder. Where the list cannot be read, a mount of the same
/// file system is not seen.
pub fn is_mount_point<R: Files + AllocGlobal>(rt: &R, path: &str, there: &Metadata) -> bool {
    if is_on_another_device(rt, path, there) {
        return true;
    }
    match is_listed(rt, path) {
        Ok(is_listed) => is_listed,
        Err(_) => false,
    }
}
