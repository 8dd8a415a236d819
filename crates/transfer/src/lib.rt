//! The transfer of a PKCS#12 store: the program's top call `run`, and below it `transfer`.
//!
//! `run` reads arguments and an input, opens the store that the input spells, and writes its certificates and documents that
//! seal its private keys anew. What each status means is in the contract of `run`; the causes of a refusal are in
//! order in `specs/Opening.antt`.
#![tactic(auto)]

pub mod laws;
mod program;
mod sample;
mod store;

pub use frame::Status;
pub use laws::{
    documents_are_canonical, documents_are_sealed, drawn_in_place, each_has_verdict, one_document,
    one_sample, one_text, one_verdict, opened_exactly, transfer_is_in_two, valid_exactly,
};
pub use octet_core::{Failed, MemorySink, MemorySource, ReadSource, Sink, Source, WriteSink};
pub use program::top_call::run;
pub use store::error::TransferError;
pub use store::opened::{Opened, open_store};
pub use store::opening::Opening;
pub use store::safe::{OpenedSafe, open_safe};
pub use store::sealed::seal_opened;
pub use store::transfer::{Transferred, transfer};
