//! How the subcommands of `pkcs12` read a store and its password and open it, and what they say where that fails.
#![tactic(auto)]

mod advice;
mod counted;
mod ending;
mod given;
mod input;
mod listing;
mod long_work;
mod old_store;
mod opening;
mod output;
mod password;
mod password_argument;
mod read_advice;
mod refusal;
mod surroundings;

pub use counted::Counted;
pub use ending::{Ending, Failure};
pub use given::{ASKING, Given, is_not_given_again, new_password_missing, opened, read_given};
pub use input::{are_one, inputs_differ, output_differs, path_of_store};
pub use listing::listing_of;
pub use long_work::{Duration, is_long_sealing, sealing_time, tell_long_work, tell_sealing};
pub use old_store::{algorithms_of, tell_old_parts};
pub use opening::{AnyStore, RANDOM, opened_store, refused};
pub use output::printed;
pub use password::{NewPassword, read_password, without_nul};
pub use password_argument::without_password_argument;
pub use refusal::{Attempt, with_detail};
pub use surroundings::Surroundings;
