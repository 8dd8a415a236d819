//! The program: the arguments, the work on the store that the input spells, and the text that is due.
pub(crate) mod command;
pub(crate) mod due_text;
pub(crate) mod refusal;
pub(crate) mod top_call;
pub(crate) mod words;
pub(crate) mod work;
