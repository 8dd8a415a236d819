//! Text of what certificates hold (RFC 5280): names (RFC 4514), times and serial numbers, for people to read.
//!
//! `name_text`, `time_text` and `hex_text` take any octets, and fail only where out of memory. What cannot be read is
//! written as `#` and its octets in hexadecimal digits. Every character that is written is printable, from the space to
//! the tilde, whatever the octets are.
#![tactic(auto)]

mod attribute;
mod name;
mod parts;
mod printed;
mod time;
mod value;

pub use name::name_text;
pub use parts::Parts;
pub use printed::hex_text;
pub use time::{is_time, time_text};
