//! Writing texts of characters.
ghost use Rattle.std.specs.Prelude.{◌≡◌, ◌≤◌, ◌⊎◌, IsTrue, OnOk, length, take, MatchResult};
ghost use Rattle.std.specs.Result.{IsErrOf};
ghost use Rattle.asn1_core.specs.Der.{el, IsShort};
ghost use Rattle.asn1_core.specs.Unicode.{is_ascii_text, char_units, text_units, Ia5, Bmp};
ghost use Rattle.asn1_core.specs.Writing.{Writes, IsOverlong};

use crate::characters::are_ascii;
use crate::error::Error;
use crate::header::Length;
use crate::tag::Tag;
use crate::write::{element_len, write_element, write_header};
use crate::writer::Writer;

/// Writes the text as an IA5String (X.690 section 8.23). `Malformed` only where a character is over 127, and nothing is written
/// then; `Overlength` where the element would have more than 2^32 - 1 octets; else the writer's refusals.
pub fn write_ia5<W: Writer>(w: &mut W, text: &str) -> Result<(), Error>
    ensures writes { Writes W.sink (¬ (IsTrue (is_ascii_text text.now)))
        (IsOverlong (length (el 0x16 text.now))) (el 0x16 text.now) w.old result w.new }
    ensures text { OnOk result (Ia5 (el 0x16 text.now) text.now) }
    ensures short { OnOk result (IsShort (el 0x16 text.now)) }
    ensures unmoved { IsErrOf result Error.Malformed ⊎ IsErrOf result Error.Overlength
        → w.new ≡ w.old }
{
    if !are_ascii(text.as_bytes()) {
        return Err(Error::Malformed);
    }
    write_element(w, Tag::IA5_STRING, text.as_bytes())
}

/// The units of a character, two octets for each, the higher first, in front, and how many octets they are.
fn units_of_char(character: char) -> ([u8; 4], usize)
    ensures short { result.1 ≤ 4 }
    ensures count { result.1 ≡ length (char_units character) }
    ensures units { take result.1 result.0 ≡ char_units character }
{
    let mut pair = [0u16; 2];
    let units: &[u16] = character.encode_utf16(&mut pair);
    match units {
        [unit] => ([(*unit / 256) as u8, (*unit % 256) as u8, 0, 0], 2),
        [first, second] => (
            [
                (*first / 256) as u8,
                (*first % 256) as u8,
                (*second / 256) as u8,
                (*second % 256) as u8,
            ],
            4,
        ),
        _ => ([0; 4], 0),
    }
}

/// How many octets the units of the text are. `Overlength` exactly where they are more than 2^32 - 1.
fn units_len(text: &str) -> Result<Length, Error>
    ensures { MatchResult result
        (λ n. n.value ≡ length (text_units text.now))
        (λ e. (e ≡ Error.Overlength) × IsOverlong (length (text_units text.now))) }
{
    let mut total = 0;
    for character in text.chars() {
        let (_, n) = units_of_char(character);
        total += n;
        if total > 0xffff_ffff {
            return Err(Error::Overlength);
        }
    }
    Ok(Length {
        value: total as u32,
    })
}

fn write_units<W: Writer>(w: &mut W, text: &str) -> Result<(), Error>
    ensures { Writes W.sink ⊥ ⊥ (text_units text.now) w.old result w.new }
{
    for character in text.chars() {
        let (octets, n) = units_of_char(character);
        w.write(&octets[..n])?;
    }
    Ok(())
}

/// Writes the text as a BMPString (X.690 section 8.23), a character over 65,535 as a pair of surrogates. `Overlength` where the
/// element would have more than 2^32 - 1 octets, and nothing is written then; else the writer's refusals.
pub fn write_bmp<W: Writer>(w: &mut W, text: &str) -> Result<(), Error>
    ensures writes { Writes W.sink ⊥ (IsOverlong (length (el 0x1e (text_units text.now))))
        (el 0x1e (text_units text.now)) w.old result w.new }
    ensures text { Bmp (el 0x1e (text_units text.now)) text.now }
    ensures short { OnOk result (IsShort (el 0x1e (text_units text.now))) }
    ensures unmoved { IsErrOf result Error.Overlength → w.new ≡ w.old }
{
    let length = units_len(text)?;
    element_len(length)?;
    write_header(w, Tag::BMP_STRING, length)?;
    write_units(w, text)
}
