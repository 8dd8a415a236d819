//! Laws of stores, each the contract of a function that does nothing: what is written is read again, the texts of a value
//! are its canonical one and its other spellings, and a store that was made by `p12` opens there. That one text has one value is
//! in `p12::uniqueness`.
#![tactic(auto)]

mod made_stores;
mod rereading;
mod spellings;

pub use made_stores::{
    a_made_mac_agrees, a_made_store_is_read_again, a_made_store_opens,
    a_made_store_opens_once_it_is_read_again, what_opens_has_no_fault,
};
pub use rereading::{
    bag_values_tell_their_kind, sets_have_one_canonical_text, what_is_read_can_be_written,
    what_was_read_is_written_alike, written_sets_are_read_as_the_same,
    written_values_are_read_again,
};
pub use spellings::{
    algorithms_are_spelled, attributes_are_spelled, bags_are_spelled, contents_are_spelled,
    digests_are_spelled, encrypted_contents_are_spelled, encrypted_keys_are_spelled,
    macs_are_spelled, stores_are_spelled, values_have_one_text,
};
