//! Texts of schemes, and texts under passwords.

mod callers;
mod encryption;
mod refusals_in_place;
mod schemes;
mod texts;
