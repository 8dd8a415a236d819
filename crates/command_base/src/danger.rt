//! Whose hands a path leads through.
use crate::attributes::Attributes;
use crate::caller::Caller;
use std::alloc::{AllocError, Global};
use std::rt::Files;
use std::{fs, io};
use terminal_text::{Printable, ShellWord, fits_in_command};

/// Why others can put something else in the place of what is in a folder.
#[derive(Clone, Copy)]
pub enum Danger {
    /// The folder belongs to this user, who is neither root nor the one who runs the command.
    OfAnother(u32),
    /// This group may write to it.
    GroupWrites(u32),
    /// Everybody may write to it.
    AllWrite,
}

/// A folder in which others can put something else in the place of what is there.
#[derive(Drop)]
pub struct OpenFolder {
    pub path: String,
    pub danger: Danger,
}

/// Why others can put something else in the place of what is in this folder; none where they cannot. It is no folder where it
/// was replaced meanwhile.
fn danger_at<R: Files>(rt: &R, caller: Caller, folder: &str) -> io::Result<Option<Danger>> {
    let there = fs::symlink_metadata(rt, folder)?;
    if !there.is_dir() {
        return Err(io::Error::from(io::ErrorKind::NotADirectory));
    }
    Ok(Attributes::of_folder(&there).danger(caller))
}

/// The first folder from `/` down to the folder at this path, itself among them, in which others can put something else in the
/// place of what is there; none where there is no such folder. The path is a real one, which begins with `/` and has no link
/// in it.
pub fn open_folder<R: Files + AllocGlobal>(rt: &R, real: &str) -> io::Result<Option<OpenFolder>> {
    let caller = Caller::find(rt)?;
    // Each folder after the one above it: by then nobody else can put another folder in its place.
    for (place, _) in real.match_indices('/') {
        let folder = if place == 0 { "/" } else { &real[..place] };
        if let Some(danger) = danger_at(rt, caller, folder)? {
            let path = String::from_str(rt.alloc(), folder)?;
            return Ok(Some(OpenFolder { path, danger }));
        }
    }
    match danger_at(rt, caller, real)? {
        Some(danger) => Ok(Some(OpenFolder {
            path: String::from_str(rt.alloc(), real)?,
            danger,
        })),
        None => Ok(None),
    }
}

impl OpenFolder {
    /// What is said of it. The only error is out of memory.
    pub fn text(&self, alloc: Global) -> Result<String, AllocError> {
        let shown = Printable(self.path.as_str());
        match self.danger {
            Danger::OfAnother(user) => format!(in alloc;
                "the folder {shown} belongs to another user, of the number {user}, who can put something else in the place of \
                 what is written below it"
            ),
            Danger::GroupWrites(group) => format!(in alloc;
                "the group of the number {group} may write to the folder {shown}, and can put something else in the place of \
                 what is written below it"
            ),
            Danger::AllWrite => format!(in alloc;
                "everybody may write to the folder {shown}, and can put something else in the place of what is written below it"
            ),
        }
    }

    /// What to do instead. The only error is out of memory.
    pub fn advice(&self, alloc: Global) -> Result<String, AllocError> {
        let path = self.path.as_str();
        if let Danger::OfAnother(user) = self.danger {
            return format!(in alloc;
                "Run the command as that user (sudo -u '#{user}' ..), or give a path in a folder of your own."
            );
        }
        if !fits_in_command(path) {
            return String::from_str(
                alloc,
                "Give a path in a folder of your own, or let only those who made a thing there rename it (chmod +t).",
            );
        }
        let word = ShellWord(path);
        format!(in alloc;
            "Give a path in a folder of your own, or let only those who made a thing there rename it:\n    chmod +t {word}"
        )
    }
}
