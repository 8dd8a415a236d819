//! A store of keys and certificates (RFC 7292): its opening, in the order of the causes to refuse it, and its transfer.
pub(crate) mod bag_keys;
pub(crate) mod bags;
pub(crate) mod budget;
pub(crate) mod certificates;
pub(crate) mod contents;
pub(crate) mod copies;
pub(crate) mod error;
pub(crate) mod key_text;
pub(crate) mod lock;
pub(crate) mod mac;
pub(crate) mod open;
pub(crate) mod opened;
pub(crate) mod opening;
pub(crate) mod safe;
pub(crate) mod seal;
pub(crate) mod sealed;
pub(crate) mod transfer;
