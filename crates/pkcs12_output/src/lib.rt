//! Where `pkcs12 export` and `pkcs12 rekey` write: a folder or a file that is there whole, or not at all.
#![tactic(auto)]

mod access_list;
mod folder;
mod kind;
mod mounts;
mod output_error;
mod output_exists;
mod safe_place;
mod store_file;
mod write_advice;

pub use folder::{Folder, NewFolder, sync_folder};
pub use kind::{ALL, Kind, file_name};
pub use output_error::{OutputError, OutputErrorKind};
pub use output_exists::Kept;
pub use store_file::{StoreFile, Written};
