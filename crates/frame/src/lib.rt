//! What every program over stores, keys and certificates is made of: the arguments of its command line, its input read to
//! the end, the text that is due, and the call `answer` that puts them around the work of a `Job`.
//!
//! `answer` promises for every program which status comes and when, also where a read or a write failed, what is written
//! for it, how much of the input and how many steps are taken at most, and when the draw is not touched.
#![tactic(auto)]

mod digits;
mod due_text;
mod input;
mod input_text;
mod job;
pub mod laws;
mod lined;
mod program;
mod status;
mod words;

pub use digits::{are_digits, decode_into, encode_into};
pub use due_text::{
    DueText, add_lines, line_of, write_error, write_lines, write_piece, write_texts,
};
pub use input::{INPUT_LIMIT, InputError, read_input};
pub use input_text::{Spelled, TextError, read_text};
pub use job::Job;
pub use lined::{Lined, StoreJob};
pub use program::{answer, write_decision};
pub use status::Status;
pub use words::{PASSWORD_LIMIT, behind_name, next_number, next_password, next_word};
