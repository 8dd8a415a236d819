//! Values of their texts, and texts of their values.
use asn1_core::{ObjectIdentifier, Octets};
use der_core::{Compared, Encode, Spelled, canon_is_read, exact_spellings, texts_are_read};
use octet_core::DrawnBytes;
use std::alloc::Global;
use std::fmt::Display;
use std::process::Abort;

/// The octets of hexadecimal digits.
pub fn octets(rt: &impl Abort, alloc: Global, digits: &str) -> Vec<u8> {
    hex::decode(alloc, digits.as_bytes()).expect(rt, "hexadecimal digits")
}

/// The identifier of a text of numbers.
pub fn oid(rt: &impl Abort, text: &str) -> ObjectIdentifier {
    ObjectIdentifier::new(text).expect(rt, "an identifier")
}

/// The text of a value.
pub fn written<T: Encode>(rt: &impl Abort, alloc: Global, value: &T) -> Octets {
    value.to_der(alloc).expect(rt, "a text")
}

/// Whether this is the text of a value.
pub fn is_text<T: Encode>(rt: &impl Abort, alloc: Global, value: &T, text: &[u8]) -> bool {
    written(rt, alloc, value).as_slice() == text
}

/// Whether a value is printed as this text.
pub fn is_printed<T: Display>(rt: &impl Abort, alloc: Global, value: &T, text: &str) -> bool {
    value.to_string(alloc).expect(rt, "memory").as_str() == text
}

/// Draws these octets.
pub fn drawing(rt: &impl Abort, alloc: Global, drawn: &[u8]) -> DrawnBytes {
    DrawnBytes::new(Octets::from_slice(alloc, drawn).expect(rt, "memory"))
}

/// The laws of a lawful type, at a value and a text.
pub fn laws_hold<'a, T: Spelled<&'a [u8]> + Compared<&'a [u8]>>(text: &'a [u8], value: &T) {
    texts_are_read::<&'a [u8], T>(text);
    exact_spellings::<&'a [u8], T>(text, value);
    canon_is_read::<&'a [u8], T>(value);
}
