//! What the commands `pkcs12` and `passdb` are made of: their arguments, where their passwords come from, and what stays of a
//! file that is written anew.
#![tactic(auto)]

mod argument;
mod attributes;
mod caller;
mod command_line;
mod danger;
mod identity;
mod message;
mod origin;
mod password;
mod password_error;
mod paths;

pub use argument::{Argument, Form, with_arguments};
pub use attributes::Attributes;
pub use caller::Caller;
pub use command_line::{arguments, refusal_text};
pub use danger::{Danger, OpenFolder, open_folder};
pub use identity::{Identity, open_itself};
pub use message::Message;
pub use origin::{Origin, STANDARD_INPUT, first_line};
pub use password::{LONGEST, Password};
pub use password_error::PasswordError;
pub use paths::{name, parent};
