//! Values of attributes.
ghost use Rattle.std.specs.Prelude.{◌≡◌, ◌++◌, IfOk, IsTrue, OnOk};
ghost use Rattle.std.specs.Str.{encode_utf8_all};
ghost use Rattle.asn1_core.specs.Gives.{GivesIn};
ghost use Rattle.asn1_core.specs.Reading.{whole};
ghost use Rattle.asn1_core.specs.Unicode.{bmp_at};
ghost use Rattle.x509_names.specs.Values.{characters, escaped, escaped_octet, has_backslash, is_latin, is_special, latin_at, utf8_at, utf8_of, value_text};

use crate::printed::Printed;
use asn1_core::{Error, Reader, SliceReader, Tag, read_bmp, read_inner};
use octet_core::Text;
use std::alloc::{AllocError, Global};

const UTF8_STRING: Tag = Tag { first: 0x0c };

/// Whether a character of a name is written after a backslash wherever it is (RFC 4514 section 2.4).
fn is_special(octet: u8) -> bool
    ensures { result ≡ is_special octet }
{
    matches!(octet, b',' | b'+' | b'"' | b'\\' | b'<' | b'>' | b';')
}

/// Whether this octet of a text is written after a backslash, by whether it is the first one and whether it is the last.
fn has_backslash(first: bool, last: bool, octet: u8) -> bool
    ensures { result ≡ has_backslash first last octet }
{
    is_special(octet) || (first && (octet == b'#' || octet == b' ')) || (last && octet == b' ')
}

/// Adds an octet of a text.
#[tactic(auto, unfolding(crate::specs::Values::escaped_octet))]
fn push_escaped_octet(
    printed: &mut Printed,
    first: bool,
    last: bool,
    octet: u8,
) -> Result<(), AllocError>
    ensures { OnOk result (printed.new ≡ printed.old ++ escaped_octet first last octet) }
{
    if has_backslash(first, last, octet) {
        printed.push(b'\\')?;
    }
    printed.push_octet(octet)
}

/// Adds the octets of a text in UTF-8: special ones after a backslash, and those that are not printable as a backslash
/// and their digits.
fn push_escaped(printed: &mut Printed, text: &[u8]) -> Result<(), AllocError>
    ensures { OnOk result (printed.new ≡ printed.old ++ escaped text.now) }
{
    for i in 0..text.len() {
        push_escaped_octet(printed, i == 0, i + 1 == text.len(), text[i])?;
    }
    Ok(())
}

/// The text of these octets. `Malformed` where they are not UTF-8.
#[tactic(auto, using(crate::proofs::Strings::utf8_read, crate::proofs::Strings::utf8_refused))]
fn utf8(alloc: Global, octets: &[u8]) -> Result<Text, Error>
    ensures { GivesIn (λ t. t) result (utf8_of octets.now) }
{
    match std::str::from_utf8(octets) {
        Ok(text) => Ok(Text::from_text(alloc, text)?),
        Err(_) => Err(Error::Malformed),
    }
}

/// The text in UTF-8 of octets of ISO 8859-1.
#[tactic(auto, using(crate::proofs::Strings::latin_more))]
fn latin(alloc: Global, octets: &[u8]) -> Result<Text, AllocError>
    ensures { IfOk result (λ t. t ≡ encode_utf8_all octets.now) }
{
    let mut text = String::new(alloc);
    for octet in octets {
        text.push(char::from(*octet))?;
    }
    Ok(Text::from_string(text))
}

/// The text of a UTF8String.
#[tactic(auto, using(crate::proofs::Strings::ended_fails_in))]
fn utf8_string(alloc: Global, element: &[u8]) -> Result<Text, Error>
    ensures { GivesIn (λ t. t) result (whole utf8_at element.now) }
{
    let mut r = SliceReader::new(element);
    let octets = read_inner(&mut r, UTF8_STRING)?;
    let text = utf8(alloc, octets.rest)?;
    r.finish()?;
    Ok(text)
}

/// The text in UTF-8 of a BMPString.
#[tactic(auto, using(crate::proofs::Strings::ended_fails_in))]
fn bmp_string(alloc: Global, element: &[u8]) -> Result<Text, Error>
    ensures { GivesIn (λ t. t) result (whole bmp_at element.now) }
{
    let mut r = SliceReader::new(element);
    let text = read_bmp(alloc, &mut r)?;
    r.finish()?;
    Ok(text)
}

/// The text in UTF-8 of an element of this tag, whose octets are characters of ISO 8859-1.
#[tactic(auto, using(crate::proofs::Strings::ended_fails_in))]
fn latin_string(alloc: Global, element: &[u8], tag: Tag) -> Result<Text, Error>
    ensures { GivesIn (λ t. t) result (whole (latin_at tag.first) element.now) }
{
    let mut r = SliceReader::new(element);
    let octets = read_inner(&mut r, tag)?;
    let text = latin(alloc, octets.rest)?;
    r.finish()?;
    Ok(text)
}

/// Whether this is the tag of a NumericString, PrintableString, T61String, IA5String or VisibleString.
fn is_latin(tag: u8) -> bool
    ensures { result ≡ is_latin tag }
{
    matches!(tag, 0x12 | 0x13 | 0x14 | 0x16 | 0x1a)
}

/// The characters in UTF-8 of an element that is a string of characters. `Malformed` exactly where it is none, `Memory`
/// when out of memory.
#[tactic(auto, unfolding(crate::specs::Values::characters))]
fn characters(alloc: Global, element: &[u8]) -> Result<Text, Error>
    ensures { GivesIn (λ t. t) result (characters element.now) }
{
    match element.first() {
        Some(0x0c) => utf8_string(alloc, element),
        Some(0x1e) => bmp_string(alloc, element),
        Some(tag) if is_latin(*tag) => latin_string(alloc, element, Tag { first: *tag }),
        _ => Err(Error::Malformed),
    }
}

/// Adds the value of this element: the text of a string of characters, and for another element `#` and its digits.
#[tactic(auto, using(crate::proofs::Strings::hex_of), unfolding(crate::specs::Values::value_text))]
pub(crate) fn push_value(
    alloc: Global,
    printed: &mut Printed,
    element: &[u8],
) -> Result<(), AllocError>
    ensures { OnOk result (printed.new ≡ printed.old ++ value_text element.now) }
{
    match characters(alloc, element) {
        Ok(text) => push_escaped(printed, text.as_str().as_bytes()),
        Err(Error::Memory) => Err(AllocError),
        Err(_) => printed.push_hex(element),
    }
}
