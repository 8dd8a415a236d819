//! What the command `pkcs12` is asked for: its arguments, which clap reads, and its help.
#![tactic(auto)]

mod accepted;
mod arguments_error;
mod command_line;
mod create;
mod export;
mod numbers;
mod pairs;
mod reading;
mod rekey;
mod request;
mod target;

pub use accepted::Accepted;
pub use arguments_error::ArgumentsError;
pub use create::Create;
pub use export::{Bounds, Export};
pub use pairs::{Pair, pairs_of};
pub use reading::{Days, List, Reading};
pub use rekey::{Rekey, UpgradeRounds};
pub use request::{Request, request_of};
pub use target::{Format, Layout, Part, Target};
