//! What `pkcs12 export` does with a store: which of its certificates and private keys are written, the sealing of the keys under
//! a new password, and the files.
#![tactic(auto)]

mod exported;
mod free_folder;
mod progress;
mod sealing;
mod telling;
mod written_files;

pub use exported::{Exported, needs_new_password, new_password, open_and_seal};
pub use free_folder::find_folder;
pub use telling::tell_exported;
pub use written_files::Output;
