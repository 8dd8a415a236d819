//! The alphabet of the distinguished encoding rules (X.690): octets, texts, lists, object identifiers, and
//! readers that take elements from borrowed octets.
#![tactic(auto)]

mod arcs;
mod characters;
mod element;
mod encoding;
mod error;
mod front;
mod header;
mod identifier;
pub mod identifier_laws;
mod identifier_text;
mod integer;
pub mod laws;
mod read;
mod reader;
mod slice_reader;
mod slice_writer;
mod subidentifiers;
mod tag;
mod vec_writer;
mod write;
mod write_set;
mod write_text;
mod writer;

pub use error::Error;
pub use header::{Header, Length};
pub use identifier::ObjectIdentifier;
pub use identifier_laws::{
    arcs_have_one_identifier, identifiers_have_one_list_of_arcs, identifiers_have_one_text,
    octets_have_one_identifier, texts_have_one_identifier,
};
pub use integer::uint_value;
pub use laws::{elements_are_parted, identifiers_are_tested, sets_are_in_order};
pub use octet_core::{Items, Octets, Text};
pub use read::{read_bmp, read_ia5, read_identifier, read_inner, read_raw, read_uint};
pub use reader::Reader;
pub use slice_reader::SliceReader;
pub use slice_writer::SliceWriter;
pub use tag::Tag;
pub use vec_writer::VecWriter;
pub use write::{
    element_len, number_octets, uint_value_len, write_element, write_header, write_uint,
    write_uint_value,
};
pub use write_set::write_set_of;
pub use write_text::{write_bmp, write_ia5};
pub use writer::Writer;
