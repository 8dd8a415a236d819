//! Attributes of a bag.
ghost use Rattle.std.specs.Prelude.{◌+◌, ◌≡◌, ◌<◌, false, [], length, Ok, OnOk, IfOk, IfErr};
ghost use Rattle.asn1_core.specs.Gives.{Gives, GivesIn, ReadsAs, ReadsIn};
ghost use Rattle.asn1_core.specs.Reading.{many, raw_at, inside_at, whole};
ghost use Rattle.asn1_core.specs.Fields.{latest};
ghost use Rattle.asn1_core.specs.Unicode.{bmp_at, units_all};
ghost use Rattle.std.specs.Char.Utf16.{is_high_surrogate, is_low_surrogate};
ghost use Rattle.p12.specs.AttributeView.{bmp_text, IsAttribute, seen_attribute, seen_elements, seen_list};
ghost use Rattle.p12.specs.Units.{agrees, units_pass};
ghost use Rattle.p12.specs.Walk.{Passes};
ghost use Rattle.p12.specs.Attribute.{AttributeText};
ghost use Rattle.asn1_core.specs.declared.error.Error.TheVariants as asn1;
ghost use Rattle.p12.specs.Error.{Reads};
ghost use Rattle.p12.specs.Reading.{name_all, key_id_all, other_attribute_all, attribute_all, attribute_at, attributes_all};
ghost use Rattle.asn1_core.specs.Der.{IsShort};
ghost use Rattle.p12.specs.Canonical.{WritableAttribute, attribute_canon};
ghost use Rattle.p12.specs.Writing.{WritesText};

use crate::error::Error;
use crate::identifiers::{FRIENDLY_NAME, LOCAL_KEY_ID};
use crate::writing::write_row;
use asn1_core::{
    Items, ObjectIdentifier, Octets, Reader, SliceReader, Tag, Text, Writer, read_bmp,
    read_identifier, read_inner, read_raw,
};
use std::alloc::Global;

/// An attribute of another kind: its identifier, and the elements of its set in the order read.
#[derive(Debug, Drop)]
pub struct OtherAttribute {
    pub oid: ObjectIdentifier,
    pub values: Items<Octets>,
}

/// An attribute of a bag (RFC 7292 section 4.2). Of several names or key ids in one set the last counts.
///
/// ```text
/// PKCS12Attribute ::= SEQUENCE { attrId OBJECT IDENTIFIER, attrValues SET OF ANY }
/// ```
#[derive(Debug, Drop)]
pub enum PKCS12Attribute {
    /// friendlyName (RFC 2985 section 5.5.1).
    FriendlyName(Text),
    /// localKeyId (RFC 2985 section 5.5.2).
    LocalKeyId(Octets),
    Other(OtherAttribute),
}

/// An attribute, which lends its parts: a name by the BMPString as it is, other values by the octets of their set.
#[derive(Clone, Copy, Drop)]
enum AttributeView<'a> {
    Name(&'a [u8]),
    KeyId(&'a [u8]),
    Other {
        oid: ObjectIdentifier,
        values: &'a [u8],
    },
}

/// The last of one or more octet strings.
fn last_octets<'a>(mut body: SliceReader<'a>) -> Result<&'a [u8], asn1_core::Error>
    ensures { Gives (λ x. x.now) result (latest (inside_at 0x04) body.entry.rest.now) }
{
    let mut found = read_inner(&mut body, Tag::OCTET_STRING)?.rest;
    while !body.is_finished() {
        found = read_inner(&mut body, Tag::OCTET_STRING)?.rest;
    }
    Ok(found)
}

fn is_low(unit: u16) -> bool
    ensures { result ≡ is_low_surrogate unit }
{
    unit >= 0xdc00 && unit < 0xe000
}

fn is_high(unit: u16) -> bool
    ensures { result ≡ is_high_surrogate unit }
{
    unit >= 0xd800 && unit < 0xdc00
}

/// Whether a unit may come after the unit before.
fn agrees(high: bool, low: bool) -> bool
    ensures { result ≡ agrees high low }
{
    if high { low } else { !low }
}

/// Whether the octets are the units of a text.
#[tactic(auto, unfolding(crate::specs::Units::units_pass))]
fn are_units(octets: &[u8]) -> bool
    ensures { result ≡ units_pass false octets.now }
{
    let mut rest = octets;
    let mut high = false;
    while let Some((first, behind)) = rest.split_first() {
        let Some((second, after)) = behind.split_first() else {
            return false;
        };
        let unit = 256 * u16::from(*first) + u16::from(*second);
        if !agrees(high, is_low(unit)) {
            return false;
        }
        high = is_high(unit);
        rest = after;
    }
    !high
}

/// That the octets are the units of a text.
fn check_units(octets: &[u8]) -> Result<(), asn1_core::Error>
    ensures { Passes result (units_all octets.now) }
{
    if are_units(octets) {
        Ok(())
    } else {
        Err(asn1_core::Error::Malformed)
    }
}

/// A BMPString, as it is.
#[tactic(auto, unfolding(asn1_core::specs::Unicode::bmp_at))]
fn bmp_element<'a>(r: &mut SliceReader<'a>) -> Result<&'a [u8], asn1_core::Error>
    ensures exact { ReadsAs bmp_at (λ x. bmp_text x.now) r.old.rest.now r.new.rest.now result }
    ensures alone { IfOk result (λ x. bmp_at x.now ≡ Ok (bmp_text x.now, [])) }
    ensures shorter { OnOk result (length r.new.rest.now < length r.old.rest.now) }
{
    let mut ahead = *r;
    let value = read_inner(&mut ahead, Tag::BMP_STRING)?;
    check_units(value.rest)?;
    let element = &r.rest[..r.rest.len() - ahead.rest.len()];
    *r = ahead;
    Ok(element)
}

/// The last of one or more BMPStrings, as it is.
fn last_name<'a>(mut body: SliceReader<'a>) -> Result<&'a [u8], asn1_core::Error>
    ensures exact { Gives (λ x. bmp_text x.now) result (latest bmp_at body.entry.rest.now) }
    ensures alone { IfOk result (λ x. bmp_at x.now ≡ Ok (bmp_text x.now, [])) }
{
    let mut found = bmp_element(&mut body)?;
    while !body.is_finished() {
        found = bmp_element(&mut body)?;
    }
    Ok(found)
}

/// The octets of a set, that elements are in it.
fn element_list<'a>(mut body: SliceReader<'a>) -> Result<&'a [u8], asn1_core::Error>
    ensures exact { Gives (λ x. seen_elements x.now) result (many raw_at body.entry.rest.now) }
    ensures all { IfOk result (λ x. many raw_at x.now ≡ Ok (seen_elements x.now)) }
{
    let all = body.rest;
    while !body.is_finished() {
        read_raw(&mut body)?;
    }
    Ok(all)
}

fn name_view<'a>(mut body: SliceReader<'a>) -> Result<AttributeView<'a>, asn1_core::Error>
    ensures exact { Gives seen_attribute result (name_all body.entry.rest.now) }
    ensures lawful { IfOk result IsAttribute }
{
    let set = read_inner(&mut body, Tag::SET)?;
    let name = last_name(set)?;
    body.finish()?;
    Ok(AttributeView::Name(name))
}

fn key_id_view<'a>(mut body: SliceReader<'a>) -> Result<AttributeView<'a>, asn1_core::Error>
    ensures exact { Gives seen_attribute result (key_id_all body.entry.rest.now) }
    ensures lawful { IfOk result IsAttribute }
{
    let set = read_inner(&mut body, Tag::SET)?;
    let key_id = last_octets(set)?;
    body.finish()?;
    Ok(AttributeView::KeyId(key_id))
}

fn other_view<'a>(
    oid: ObjectIdentifier,
    mut body: SliceReader<'a>,
) -> Result<AttributeView<'a>, asn1_core::Error>
    ensures exact { Gives seen_attribute result (other_attribute_all oid body.entry.rest.now) }
    ensures lawful { IfOk result IsAttribute }
{
    let set = read_inner(&mut body, Tag::SET)?;
    let values = element_list(set)?;
    body.finish()?;
    Ok(AttributeView::Other { oid, values })
}

fn view_of<'a>(
    oid: ObjectIdentifier,
    body: SliceReader<'a>,
) -> Result<AttributeView<'a>, asn1_core::Error>
    ensures exact { Gives seen_attribute result (attribute_all oid body.entry.rest.now) }
    ensures lawful { IfOk result IsAttribute }
{
    if oid == FRIENDLY_NAME {
        name_view(body)
    } else if oid == LOCAL_KEY_ID {
        key_id_view(body)
    } else {
        other_view(oid, body)
    }
}

#[tactic(auto, unfolding(crate::specs::Reading::attribute_at))]
fn attribute_view<'a>(r: &mut SliceReader<'a>) -> Result<AttributeView<'a>, asn1_core::Error>
    ensures exact { ReadsAs attribute_at seen_attribute r.old.rest.now r.new.rest.now result }
    ensures lawful { IfOk result IsAttribute }
    ensures place { r.new.read + length r.new.rest.now ≡ r.old.read + length r.old.rest.now }
    ensures shorter { OnOk result (length r.new.rest.now < length r.old.rest.now) }
{
    let mut ahead = *r;
    let mut body = read_inner(&mut ahead, Tag::SEQUENCE)?;
    let oid = read_identifier(&mut body)?;
    let attribute = view_of(oid, body)?;
    *r = ahead;
    Ok(attribute)
}

/// The octets of a list of attributes.
fn checked_list<'a>(mut body: SliceReader<'a>) -> Result<&'a [u8], asn1_core::Error>
    ensures exact { Gives (λ x. seen_list x.now) result (many attribute_at body.entry.rest.now) }
    ensures all { IfOk result (λ x. many attribute_at x.now ≡ Ok (seen_list x.now)) }
{
    let all = body.rest;
    while !body.is_finished() {
        attribute_view(&mut body)?;
    }
    Ok(all)
}

/// The octets of the attributes after a bag's value: none where no set is there.
pub(crate) fn attributes_view<'a>(mut body: SliceReader<'a>) -> Result<&'a [u8], asn1_core::Error>
    ensures exact { Gives (λ x. seen_list x.now) result (attributes_all body.entry.rest.now) }
    ensures all { IfOk result (λ x. many attribute_at x.now ≡ Ok (seen_list x.now)) }
{
    if body.is_finished() {
        return Ok(body.rest);
    }
    let set = read_inner(&mut body, Tag::SET)?;
    let all = checked_list(set)?;
    body.finish()?;
    Ok(all)
}

/// The elements of a set, in their order.
fn elements(alloc: Global, mut body: SliceReader<'_>) -> Result<Items<Octets>, asn1_core::Error>
    ensures { GivesIn (λ x. x) result (many raw_at body.entry.rest.now) }
{
    let mut items = Items::new(alloc);
    while !body.is_finished() {
        let item = read_raw(&mut body)?;
        items.push(Octets::from_slice(alloc, item)?)?;
    }
    Ok(items)
}

impl<'a> AttributeView<'a> {
    /// The same in memory of its own. The only refusal is `Memory`.
    #[tactic(auto, using(crate::proofs::Refusals::is_memory))]
    fn owned(&self, alloc: Global) -> Result<PKCS12Attribute, asn1_core::Error>
        requires { IsAttribute self.now }
        ensures ok { IfOk result (λ a. a ≡ seen_attribute self.now) }
        ensures err { IfErr result (λ e. e ≡ asn1.Memory) }
    {
        Ok(match self {
            AttributeView::Name(name) => {
                PKCS12Attribute::FriendlyName(read_bmp(alloc, &mut SliceReader::new(name))?)
            }
            AttributeView::KeyId(key_id) => {
                PKCS12Attribute::LocalKeyId(Octets::from_slice(alloc, key_id)?)
            }
            AttributeView::Other { oid, values } => PKCS12Attribute::Other(OtherAttribute {
                oid: *oid,
                values: elements(alloc, SliceReader::new(values))?,
            }),
        })
    }
}

fn attribute_in_front(
    alloc: Global,
    r: &mut SliceReader<'_>,
) -> Result<PKCS12Attribute, asn1_core::Error>
    ensures exact { ReadsIn attribute_at (λ x. x) r.old.rest.now r.new.rest.now result }
    ensures place { r.new.read + length r.new.rest.now ≡ r.old.read + length r.old.rest.now }
    ensures shorter { OnOk result (length r.new.rest.now < length r.old.rest.now) }
{
    let mut ahead = *r;
    let view = attribute_view(&mut ahead)?;
    let attribute = view.owned(alloc)?;
    *r = ahead;
    Ok(attribute)
}

/// The attributes that are in these octets.
pub(crate) fn attribute_list(
    alloc: Global,
    mut body: SliceReader<'_>,
) -> Result<Items<PKCS12Attribute>, asn1_core::Error>
    ensures { GivesIn (λ x. x) result (many attribute_at body.entry.rest.now) }
{
    let mut items = Items::new(alloc);
    while !body.is_finished() {
        let item = attribute_in_front(alloc, &mut body)?;
        items.push(item)?;
    }
    // A store may have tens of thousands of bags, with a list of one or two attributes each.
    items.shrink_to_fit();
    Ok(items)
}

impl PKCS12Attribute {
    /// The attribute that comes next. `Malformed` exactly where none does; the other refusal is `Memory`. A refusal does
    /// not move the reader.
    pub fn parse(alloc: Global, r: &mut SliceReader<'_>) -> Result<PKCS12Attribute, Error>
        ensures stands { Reads AttributeText r.old.rest.now r.new.rest.now result }
        ensures place { r.new.read + length r.new.rest.now ≡ r.old.read + length r.old.rest.now }
    {
        Ok(attribute_in_front(alloc, r)?)
    }
}

impl OtherAttribute {
    /// An equal value in memory of its own. The only refusal is `Memory`.
    pub fn try_clone(&self, alloc: Global) -> Result<OtherAttribute, Error>
        ensures ok { IfOk result (λ v. v ≡ self.now) }
        ensures err { IfErr result (λ e. e ≡ Error.Memory) }
    {
        let mut values = Items::new(alloc);
        for value in self.values.as_slice() {
            values.push(value.try_clone(alloc)?)?;
        }
        Ok(OtherAttribute {
            oid: self.oid,
            values,
        })
    }
}

impl PKCS12Attribute {
    /// An equal value in memory of its own. The only refusal is `Memory`.
    pub fn try_clone(&self, alloc: Global) -> Result<PKCS12Attribute, Error>
        ensures ok { IfOk result (λ v. v ≡ self.now) }
        ensures err { IfErr result (λ e. e ≡ Error.Memory) }
    {
        Ok(match self {
            PKCS12Attribute::FriendlyName(name) => {
                PKCS12Attribute::FriendlyName(name.try_clone(alloc)?)
            }
            PKCS12Attribute::LocalKeyId(key_id) => {
                PKCS12Attribute::LocalKeyId(key_id.try_clone(alloc)?)
            }
            PKCS12Attribute::Other(other) => PKCS12Attribute::Other(other.try_clone(alloc)?),
        })
    }
}

impl PKCS12Attribute {
    /// Writes the attribute, the elements of its set in ascending order of their octets. `Malformed` only where an
    /// element of another attribute is not one whole element. `Overlength` only where the text has more than 2^32 - 1
    /// octets, `Memory` when out of memory, else the writer's refusals; a front of the text was written then.
    pub fn write<W: Writer>(&self, alloc: Global, w: &mut W) -> Result<(), asn1_core::Error>
        ensures writes { WritesText W.sink (WritableAttribute self.now)
            (attribute_canon self.now) w.old result w.new }
        ensures short { OnOk result (IsShort (attribute_canon self.now)) }
        ensures lawful { OnOk result (WritableAttribute self.now) }
    {
        write_row(self, alloc, w)
    }
}
