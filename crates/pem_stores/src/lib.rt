//! What a store is made of, as PEM texts have it: which private keys and certificates they have, which of them belong together, and in
//! which order they are in the store.
#![tactic(auto)]

mod certificates;
mod chain_order;
mod each_once;
mod further;
mod keys;
pub mod laws;
mod own_certificate;
mod ownership;
mod text_entries;
mod text_refusal;

pub use certificates::{CertificateRefusal, certificates_in};
pub use further::{Further, further_of};
pub use keys::{KeyOpening, key_in};
pub use ownership::{OwnEntry, Owned, own_entry};
pub use text_entries::{PemTexts, TextEntries, entries_of_texts};
pub use text_refusal::TextRefusal;
