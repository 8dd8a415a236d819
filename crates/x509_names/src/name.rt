//! Names.
ghost use Rattle.std.specs.Prelude.{◌≡◌, ◌<◌, ◌++◌, length, map, IfOk, OnOk};
ghost use Rattle.asn1_core.specs.Gives.{GivesIn, ParsesIn, ReadsIn};
ghost use Rattle.asn1_core.specs.Reading.{many, whole};
ghost use Rattle.asn1_core.specs.declared.error.Error.TheVariants as errors;
ghost use Rattle.x509_names.specs.Names.{IsName, IsNameText, name_text, relative_text, seen_attribute};
ghost use Rattle.x509_names.specs.NamesReading.{attribute_at, name_at, relative_at};
ghost use Rattle.x509_names.specs.Printable.{ArePrintable};

use crate::attribute::Attribute;
use crate::printed::Printed;
use asn1_core::{Error, Reader, SliceReader, Tag, read_inner};
use octet_core::{Items, Text};
use std::alloc::{AllocError, Global};

/// The attributes of a relative name, to the end.
fn attributes<'a>(alloc: Global, mut body: SliceReader<'a>) -> Result<Items<Attribute<'a>>, Error>
    ensures { GivesIn (map seen_attribute) result (many attribute_at body.entry.rest.now) }
{
    let mut items = Items::new(alloc);
    while !body.is_finished() {
        let item = Attribute::read(&mut body)?;
        items.push(item)?;
    }
    Ok(items)
}

/// One relative name: the attributes of a SET, of which there is one at least.
#[tactic(auto, unfolding(crate::specs::NamesReading::relative_at))]
fn read_relative<'a>(alloc: Global, r: &mut SliceReader<'a>) -> Result<Items<Attribute<'a>>, Error>
    ensures exact { ReadsIn relative_at (map seen_attribute) r.old.rest.now r.new.rest.now result }
    ensures shorter { OnOk result (length r.new.rest.now < length r.old.rest.now) }
{
    let mut ahead = *r;
    let body = read_inner(&mut ahead, Tag::SET)?;
    let attributes = attributes(alloc, body)?;
    if attributes.is_empty() {
        return Err(Error::Malformed);
    }
    *r = ahead;
    Ok(attributes)
}

/// The relative names of a name, to the end.
fn relative_names<'a>(
    alloc: Global,
    mut body: SliceReader<'a>,
) -> Result<Items<Items<Attribute<'a>>>, Error>
    ensures { GivesIn (map (map seen_attribute)) result (many relative_at body.entry.rest.now) }
{
    let mut items = Items::new(alloc);
    while !body.is_finished() {
        let item = read_relative(alloc, &mut body)?;
        items.push(item)?;
    }
    Ok(items)
}

/// The relative names of a name, to the end of the octets.
#[tactic(auto, using(crate::proofs::Strings::ended_fails_in), unfolding(crate::specs::NamesReading::name_at))]
fn read_whole<'a>(alloc: Global, name: &'a [u8]) -> Result<Items<Items<Attribute<'a>>>, Error>
    ensures { GivesIn (map (map seen_attribute)) result (whole name_at name.now) }
{
    let mut r = SliceReader::new(name);
    let body = read_inner(&mut r, Tag::SEQUENCE)?;
    let names = relative_names(alloc, body)?;
    r.finish()?;
    Ok(names)
}

/// The relative names of a name. `Malformed` exactly where the octets are no name, `Memory` when out of memory.
fn read_name<'a>(alloc: Global, name: &'a [u8]) -> Result<Items<Items<Attribute<'a>>>, Error>
    ensures { ParsesIn errors.Memory errors.Malformed IsName (map (map seen_attribute)) name.now
        result }
{
    read_whole(alloc, name)
}

/// Adds a relative name, its last attribute first, `+` between them.
#[tactic(auto, unfolding(crate::specs::Names::relative_text))]
fn push_relative(
    alloc: Global,
    printed: &mut Printed,
    attributes: &[Attribute<'_>],
) -> Result<(), AllocError>
    ensures { OnOk result
        (printed.new ≡ printed.old ++ relative_text (map seen_attribute attributes.now)) }
{
    let mut left = attributes.len();
    while left > 0 {
        left -= 1;
        attributes[left].push(alloc, printed)?;
        if left > 0 {
            printed.push(b'+')?;
        }
    }
    Ok(())
}

/// Adds a name, its last relative name first, `,` between them.
#[tactic(auto, unfolding(crate::specs::Names::name_text))]
fn push_name(
    alloc: Global,
    printed: &mut Printed,
    names: &[Items<Attribute<'_>>],
) -> Result<(), AllocError>
    ensures { OnOk result
        (printed.new ≡ printed.old ++ name_text (map (map seen_attribute) names.now)) }
{
    let mut left = names.len();
    while left > 0 {
        left -= 1;
        push_relative(alloc, printed, names[left].as_slice())?;
        if left > 0 {
            printed.push(b',')?;
        }
    }
    Ok(())
}

/// The text of a name (RFC 4514), its last relative name first, in the form of `openssl x509 -nameopt RFC2253`: common
/// types by their names, others by the numbers of their identifiers with `#` and the digits of the value, and every octet
/// that is not printable as a backslash and its digits. `name` is a whole DER element; where it is not a name, `#` and
/// its digits are returned. The only error is out of memory.
pub fn name_text(alloc: Global, name: &[u8]) -> Result<Text, AllocError>
    ensures text { IfOk result (λ t. IsNameText name.now t) }
    ensures printable { IfOk result ArePrintable }
{
    let mut printed = Printed::new(alloc);
    match read_name(alloc, name) {
        Ok(names) => push_name(alloc, &mut printed, names.as_slice())?,
        Err(Error::Memory) => return Err(AllocError),
        Err(_) => printed.push_hex(name)?,
    }
    Ok(printed.into_text())
}
