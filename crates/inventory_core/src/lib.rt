//! What a PKCS#12 store holds (RFC 7292): its certificates, each with the fingerprint of its public
//! key and its parent, and for each private key its chain of certificates.
//!
//! `CertificateView` reads a certificate (RFC 5280 section 4.1) as far as its names and its key.
//! `SubjectIndex` finds the parents and the chains of the certificates of a store.
//! `inventory` opens a store and returns the table of what it holds; `inventory_run` does so from
//! an input to an output: what the program `inventory` does.
#![tactic(auto)]

mod certificate;
mod chain;
mod command;
mod first_ids;
mod gathered;
mod input_line;
pub mod laws;
mod listed;
mod listing;
mod parent;
mod sheet;
mod subject_index;
mod subjects;
mod table;
mod table_lines;
mod top_call;
mod words;
mod work;

pub use certificate::CertificateView;
pub use listed::Listed;
pub use listing::{inventory, inventory_within, opened_inventory};
pub use parent::Parent;
pub use subject_index::SubjectIndex;
pub use top_call::inventory_run;
