//! Reading texts of characters.
ghost use Rattle.std.specs.Prelude.{◌≡◌, ◌+◌, ◌<◌, ◌≤◌, length, OnOk};
ghost use Rattle.asn1_core.specs.Unicode.{is_ascii_text, ascii_all, ia5_at, bmp_at, units_in, units_text, units_all};
ghost use Rattle.asn1_core.specs.Gives.{ReadsIn, GivesIn};

use crate::error::Error;
use crate::front::inner_in_front;
use crate::slice_reader::SliceReader;
use crate::tag::Tag;
use octet_core::Text;
use std::alloc::Global;

pub(crate) fn are_ascii(octets: &[u8]) -> bool
    ensures { result ≡ is_ascii_text octets.now }
{
    for octet in octets {
        if *octet > 127 {
            return false;
        }
    }
    true
}

#[tactic(auto, using(crate::proofs::UnicodeLaws::ascii_read))]
fn ascii(alloc: Global, octets: &[u8]) -> Result<Text, Error>
    ensures { GivesIn (λ t. t) result (ascii_all octets.now) }
{
    if !are_ascii(octets) {
        return Err(Error::Malformed);
    }
    let text = String::from_utf8_lossy(alloc, octets)?;
    Ok(Text::from_string(text))
}

#[tactic(auto, unfolding(crate::specs::Unicode::ia5_at))]
pub(crate) fn ia5_in_front(alloc: Global, r: &mut SliceReader<'_>) -> Result<Text, Error>
    ensures exact { ReadsIn ia5_at (λ t. t) r.old.rest.now r.new.rest.now result }
    ensures place { r.new.read + length r.new.rest.now ≡ r.old.read + length r.old.rest.now }
{
    let mut ahead = *r;
    let value = inner_in_front(&mut ahead, Tag::IA5_STRING)?;
    let text = ascii(alloc, value.rest)?;
    *r = ahead;
    Ok(text)
}

/// The units of these octets, two octets for each, the higher first.
#[tactic(auto, unfolding(crate::specs::Unicode::units_in))]
fn units(alloc: Global, octets: &[u8]) -> Result<Vec<u16>, Error>
    ensures { GivesIn (λ v. v.items) result (units_in octets.now) }
{
    let mut units = Vec::new(alloc);
    let mut rest = octets;
    while let Some((high, behind)) = rest.split_first() {
        match behind.split_first() {
            None => return Err(Error::Malformed),
            Some((low, tail)) => {
                units.push(256 * u16::from(*high) + u16::from(*low))?;
                rest = tail;
            }
        }
    }
    Ok(units)
}

fn text_of_units(alloc: Global, octets: &[u8]) -> Result<Text, Error>
    ensures { GivesIn (λ t. t) result (units_text octets.now) }
{
    let units = units(alloc, octets)?;
    match String::from_utf16(alloc, &units)? {
        Ok(text) => Ok(Text::from_string(text)),
        Err(_) => Err(Error::Malformed),
    }
}

fn text_of_octets(alloc: Global, octets: &[u8]) -> Result<Text, Error>
    ensures { GivesIn (λ t. t) result (units_all octets.now) }
{
    text_of_units(alloc, octets)
}

#[tactic(auto, unfolding(crate::specs::Unicode::bmp_at))]
pub(crate) fn bmp_in_front(alloc: Global, r: &mut SliceReader<'_>) -> Result<Text, Error>
    ensures exact { ReadsIn bmp_at (λ t. t) r.old.rest.now r.new.rest.now result }
    ensures place { r.new.read + length r.new.rest.now ≡ r.old.read + length r.old.rest.now }
    ensures shorter { OnOk result (length r.new.rest.now < length r.old.rest.now) }
{
    let mut ahead = *r;
    let value = inner_in_front(&mut ahead, Tag::BMP_STRING)?;
    let text = text_of_octets(alloc, value.rest)?;
    *r = ahead;
    Ok(text)
}
