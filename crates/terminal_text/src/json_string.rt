//! Strings of JSON (RFC 8259 section 7).
ghost use Rattle.std.specs.Fmt.{WritesOnOk};
ghost use Rattle.std.specs.List.{flat_map};
ghost use Rattle.std.specs.Prelude.{Some};
ghost use Rattle.std.specs.Str.{chars};
ghost use Rattle.terminal_text.specs.JsonString.{json_char, json_hexadecimal, json_string, unit_escape};

use crate::hexadecimal::write_octets;
use crate::printable::stays;
use std::fmt;

/// Writes a unit of UTF-16 as `\uXXXX`.
fn write_unit<W: fmt::Write>(f: &mut fmt::Formatter<W>, unit: u16) -> fmt::Result
    ensures { WritesOnOk W.write_str_gives f.old result (unit_escape unit) f.new }
{
    f.write_str("\\u")?;
    write_octets(f, &[(unit / 256) as u8, (unit % 256) as u8])
}

/// Writes units of UTF-16, each as `\uXXXX`.
fn write_units<W: fmt::Write>(f: &mut fmt::Formatter<W>, units: &[u16]) -> fmt::Result
    ensures { WritesOnOk W.write_str_gives f.old result (flat_map unit_escape units.now) f.new }
{
    for unit in units {
        write_unit(f, *unit)?;
    }
    Ok(())
}

/// Writes a character as it is, or the units of its UTF-16.
fn write_json_char<W: fmt::Write>(f: &mut fmt::Formatter<W>, c: char) -> fmt::Result
    ensures { WritesOnOk W.write_str_gives f.old result (json_char c) f.new }
{
    if stays(c, true) {
        return f.write_char(c);
    }
    let mut pair = [0u16; 2];
    write_units(f, c.encode_utf16(&mut pair))
}

/// Writes the characters of a text between quotation marks.
fn write_json_chars<W: fmt::Write>(f: &mut fmt::Formatter<W>, text: &str) -> fmt::Result
    ensures { WritesOnOk W.write_str_gives f.old result
        (flat_map json_char (chars text.now)) f.new }
{
    for c in text.chars() {
        write_json_char(f, c)?;
    }
    Ok(())
}

/// A text as a string of JSON. Characters that are not printable are escaped by the units of their UTF-16.
#[derive(Clone, Copy)]
pub struct JsonString<'a>(pub &'a str);

impl fmt::Display for JsonString<'_> {
    ghost output = { λ j. Some (json_string j.0.now) };

    fn fmt<W: fmt::Write>(&self, f: &mut fmt::Formatter<W>) -> fmt::Result {
        f.write_str("\"")?;
        write_json_chars(f, self.0)?;
        f.write_str("\"")
    }
}

/// Octets as a string of JSON, each in two hexadecimal digits.
#[derive(Clone, Copy)]
pub struct JsonHexadecimal<'a>(pub &'a [u8]);

impl fmt::Display for JsonHexadecimal<'_> {
    ghost output = { λ j. Some (json_hexadecimal j.0.now) };

    fn fmt<W: fmt::Write>(&self, f: &mut fmt::Formatter<W>) -> fmt::Result {
        f.write_str("\"")?;
        write_octets(f, self.0)?;
        f.write_str("\"")
    }
}
