//! The mode, owner and group of what is replaced, which stay.
ghost use Rattle.std.specs.Prelude.{◌≡◌};
ghost use Rattle.command_base.specs.Danger.{danger_of};

use crate::caller::Caller;
use crate::danger::Danger;
use std::fs::{File, Metadata, Permissions};
use std::io;
use std::os::unix::fs::{MetadataExt, PermissionsExt, fchown};

/// The bits of a mode that say who may do what.
const MODE: u32 = 0o7777;

/// The bits that a file may keep: its owner reads and writes it, and its group reads it.
const WIDEST: u32 = 0o640;

/// The bits that a file has in any case.
const NARROWEST: u32 = 0o600;

/// The bit of a folder in which only who made a thing may rename or remove it, as in /tmp.
const STICKY: u32 = 0o1000;

/// The bit by which everybody may write.
const ALL_WRITE: u32 = 0o002;

/// The bit by which the group may write.
const GROUP_WRITES: u32 = 0o020;

/// A mode, an owner and a group.
#[derive(Clone, Copy)]
pub struct Attributes {
    mode: u32,
    pub owner: u32,
    group: u32,
}

/// What is to be given where it differs.
fn change(now: u32, due: u32) -> Option<u32> {
    if now == due { None } else { Some(due) }
}

impl Attributes {
    /// Those of a folder.
    pub fn of_folder(there: &Metadata) -> Attributes {
        Attributes {
            mode: there.mode() & MODE,
            owner: there.uid(),
            group: there.gid(),
        }
    }

    /// Those of a file, whose mode is kept from 0600 to 0640.
    pub fn of_file(there: &Metadata) -> Attributes {
        Attributes {
            mode: (there.mode() & WIDEST) | NARROWEST,
            owner: there.uid(),
            group: there.gid(),
        }
    }

    /// The same for its owner alone.
    pub fn for_owner_alone(self) -> Attributes {
        Attributes {
            mode: NARROWEST,
            owner: self.owner,
            group: self.group,
        }
    }

    /// Of two files, what both let everybody do.
    pub fn narrowed(self, other: Attributes) -> Attributes {
        Attributes {
            mode: self.mode & other.mode,
            owner: self.owner,
            group: self.group,
        }
    }

    /// Whether only who made a thing may rename or remove it in a folder of these, as in /tmp.
    pub fn is_sticky(self) -> bool {
        self.mode & STICKY != 0
    }

    /// Whether what is made in a folder gets the folder's group.
    pub fn passes_group_on(self) -> bool {
        self.mode & 0o2000 != 0
    }

    /// These for a new file of a folder that passes its group on.
    pub fn with_group_of(self, folder: Attributes) -> Attributes {
        Attributes {
            mode: NARROWEST,
            owner: self.owner,
            group: folder.group,
        }
    }

    /// Why others can put something else in the place of what is in a folder of these; none where they cannot: it belongs to root
    /// or to the caller, and nobody else may write to it but root's group, or the caller's own group where the folder is the
    /// caller's, or only who made a thing there may rename it.
    #[tactic(auto, unfolding(crate::specs::Danger::danger_of))]
    pub fn danger(self, caller: Caller) -> Option<Danger>
        ensures { result ≡ danger_of caller self }
    {
        if self.owner != 0 && self.owner != caller.user {
            return Some(Danger::OfAnother(self.owner));
        }
        if self.mode & STICKY != 0 {
            return None;
        }
        if self.mode & ALL_WRITE != 0 {
            return Some(Danger::AllWrite);
        }
        let is_own = caller.user != 0 && self.owner == caller.user && self.group == caller.group;
        let is_trusted = self.group == 0 || is_own;
        if self.mode & GROUP_WRITES != 0 && !is_trusted {
            return Some(Danger::GroupWrites(self.group));
        }
        None
    }

    /// Gives owner and group to a file or folder that is open.
    pub fn give_owner(self, opened: &File) -> io::Result<()> {
        let now = opened.metadata()?;
        let owner = change(now.uid(), self.owner);
        let group = change(now.gid(), self.group);
        if owner.is_none() && group.is_none() {
            return Ok(());
        }
        fchown(opened, owner, group)
    }

    /// Gives all of them to a file or folder that is open.
    pub fn give(self, opened: &File) -> io::Result<()> {
        self.give_owner(opened)?;
        opened.set_permissions(Permissions::from_mode(self.mode))
    }
}
