//! Tests of the public calls of `transfer` and `frame`, of what neither a clause says nor a line of
//! `tests/vectors` shows.
//!
//! They have a crate of their own since a test is proved with the whole crate that it is in.
#![tactic(auto)]

#[cfg(test)]
mod callers;
#[cfg(test)]
mod faults;
#[cfg(test)]
mod memory_rows;
#[cfg(test)]
mod stores_opened;
