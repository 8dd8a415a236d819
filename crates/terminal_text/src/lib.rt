//! Text from outside as a terminal is shown it: names, paths and arguments whose characters are not trusted, and which may
//! be passwords.
#![tactic(auto)]

mod arguments;
mod hexadecimal;
mod json_string;
mod laws;
mod printable;
mod shell_word;

pub use arguments::{is_password_given, without_values};
pub use hexadecimal::Hexadecimal;
pub use json_string::{JsonHexadecimal, JsonString};
pub use laws::{json_string_is_text, printed_is_shown, shell_word_is_read, without_values_is_text};
pub use printable::{InQuotes, Printable, is_printable};
pub use shell_word::{ShellWord, fits_in_command};
