//! Writing elements and numbers.
ghost use Rattle.std.specs.Prelude.{◌≡◌, ◌+◌, ◌<◌, ◌≤◌, ◌∷◌, length, drop, MatchResult, OnOk};
ghost use Rattle.asn1_core.specs.Der.{len, el, shortest, uint, IsHeader, IsShort};
ghost use Rattle.asn1_core.specs.Writing.{Writes, IsOverlong};
ghost use Rattle.std.specs.Result.{IsErrOf};

use crate::error::Error;
use crate::header::Length;
use crate::tag::Tag;
use crate::writer::Writer;

/// How many octets a header takes before a value of `n` octets.
fn header_len(n: u32) -> u32
    ensures { result ≡ 1 + length (len n) }
{
    if n < 128 {
        2
    } else if n < 256 {
        3
    } else if n < 65536 {
        4
    } else if n < 16777216 {
        5
    } else {
        6
    }
}

/// How many octets an element has whose value has `value_len`. `Overlength` exactly where it would be more than 2^32 - 1.
pub fn element_len(value_len: Length) -> Result<Length, Error>
    ensures { MatchResult result
        (λ r. (r.value ≡ 1 + length (len value_len.value) + value_len.value)
        × IsHeader value_len.value)
        (λ e. (e ≡ Error.Overlength)
        × IsOverlong (1 + length (len value_len.value) + value_len.value)) }
{
    match header_len(value_len.value).checked_add(value_len.value) {
        Some(value) => Ok(Length { value }),
        None => Err(Error::Overlength),
    }
}

/// Writes a tag and a length (X.690 sections 8.1.2 and 8.1.3, the length in the fewest octets). The writer's refusals alone.
pub fn write_header<W: Writer>(w: &mut W, tag: Tag, length: Length) -> Result<(), Error>
    ensures { Writes W.sink ⊥ ⊥ (tag.first ∷ len length.value) w.old result w.new }
{
    let n = length.value;
    if n < 128 {
        w.write(&[tag.first, n as u8])
    } else if n < 256 {
        w.write(&[tag.first, 129, n as u8])
    } else if n < 65536 {
        w.write(&[tag.first, 130, (n / 256) as u8, (n % 256) as u8])
    } else if n < 16777216 {
        w.write(&[
            tag.first,
            131,
            (n / 65536) as u8,
            (n / 256 % 256) as u8,
            (n % 256) as u8,
        ])
    } else {
        w.write(&[
            tag.first,
            132,
            (n / 16777216) as u8,
            (n / 65536 % 256) as u8,
            (n / 256 % 256) as u8,
            (n % 256) as u8,
        ])
    }
}

/// Writes one element of this tag and value (X.690 section 8.1). `Overlength` where it would have more than 2^32 - 1 octets, and
/// nothing is written then; else the writer's refusals.
pub fn write_element<W: Writer>(w: &mut W, tag: Tag, value: &[u8]) -> Result<(), Error>
    ensures writes { Writes W.sink ⊥ (IsOverlong (length (el tag.first value.now)))
        (el tag.first value.now) w.old result w.new }
    ensures short { OnOk result (IsShort (el tag.first value.now)) }
    ensures unmoved { IsErrOf result Error.Overlength → w.new ≡ w.old }
{
    if value.len() > 0xffff_ffff {
        return Err(Error::Overlength);
    }
    let length = Length::new(value.len() as u32);
    element_len(length)?;
    write_header(w, tag, length)?;
    w.write(value)
}

/// The shortest two's complement of `n` (X.690 section 8.3), at the end of the octets, and where it begins.
pub fn number_octets(n: u64) -> ([u8; 9], usize)
    ensures small { result.1 < 9 }
    ensures is { drop result.1 result.0 ≡ shortest n }
{
    let mut octets = [0; 9];
    let mut from = 8;
    let mut m = n;
    while m >= 128 {
        octets[from] = (m % 256) as u8;
        m /= 256;
        from -= 1;
    }
    octets[from] = m as u8;
    (octets, from)
}

/// How many octets the shortest two's complement of `n` has.
pub fn uint_value_len(n: u64) -> Length
    ensures { result.value ≡ length (shortest n) }
{
    let (_, from) = number_octets(n);
    Length {
        value: (9 - from) as u32,
    }
}

/// Writes the value of an INTEGER: the shortest two's complement of `n` (X.690 section 8.3). The writer's refusals alone.
pub fn write_uint_value<W: Writer>(w: &mut W, n: u64) -> Result<(), Error>
    ensures { Writes W.sink ⊥ ⊥ (shortest n) w.old result w.new }
{
    let (octets, from) = number_octets(n);
    w.write(&octets[from..])
}

/// Writes `n` as an INTEGER (X.690 section 8.3). The writer's refusals alone.
pub fn write_uint<W: Writer>(w: &mut W, n: u64) -> Result<(), Error>
    ensures { Writes W.sink ⊥ ⊥ (uint n) w.old result w.new }
{
    write_header(w, Tag::INTEGER, uint_value_len(n))?;
    write_uint_value(w, n)
}
