//! The program: what the arguments ask for, and the work on the input.

pub(crate) mod command;
pub(crate) mod top_call;
pub(crate) mod words;
pub(crate) mod work;
