//! Values in the distinguished encoding rules (X.690): the traits by which types are read and written, with their laws, and the
//! values that are in many formats.
#![tactic(auto)]

mod any;
mod any_ref;
mod bit_string;
mod context_specific;
mod decode;
mod document;
mod encode;
pub mod laws;
mod null;
mod number;
mod object_identifier;
mod octet_string;
mod option;
mod order;
mod pair;
mod secret_document;
mod sequence;
mod size;
mod tagged;

pub use any::Any;
pub use any_ref::AnyRef;
pub use bit_string::{BitString, BitStringOf, BitStringRef};
pub use context_specific::{ContextSpecific, TagMode};
pub use decode::{Choice, Decode, DecodeValue};
pub use document::Document;
pub use encode::{Encode, EncodeValue};
pub use laws::{
    Canonical, Compared, Spelled, WholeElement, canon_is_read, exact_spellings, read_as,
    texts_are_parted, texts_are_read,
};
pub use null::Null;
pub use octet_string::{OctetString, OctetStringOf, OctetStringRef};
pub use order::{ContentOrd, DerOrd, ElementText, ValueOrd, pair_cmp};
pub use pair::{Pair, pair_len, write_pair};
pub use secret_document::SecretDocument;
pub use sequence::Sequence;
pub use tagged::{FixedTag, Tagged};
