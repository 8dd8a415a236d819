//! What is in a PKCS#12 store, as people and programs read it: its certificates and private keys by their names, what else it
//! holds, how much work it takes to open, and what is wrong with one that is refused.
#![tactic(auto)]

mod algorithm_name;
mod algorithms;
mod certificate_shape;
mod damage;
mod detail;
mod inspection;
mod json_text;
mod listing;
mod no_password;
mod no_store;
mod not_der;
mod old_cipher;
mod old_parts;
mod other_bag;
mod out_of_memory;
mod pbmac1;
mod summary_text;

pub use algorithms::Algorithms;
pub use damage::damaged;
pub use detail::Detail;
pub use inspection::{
    encrypted_contents, mac_unsupported, steps_of_mac, unsupported, visible_work,
};
pub use json_text::{add_comma, add_others_json, json};
pub use listing::{Label, Listing};
pub use no_password::is_without_password;
pub use no_store::malformed;
pub use other_bag::OtherBag;
pub use summary_text::{add_others_text, counts, not_exported, summary, warnings};
