//! Encrypted octets in parts, joined (`[0] IMPLICIT OCTET STRING` of RFC 5652 section 6.1, as NSS and BouncyCastle write it).
ghost use Rattle.std.specs.Prelude.{◌≡◌, ◌<◌, ◌++◌, length, OnOk};
ghost use Rattle.asn1_core.specs.Der.{oid, uint};
ghost use Rattle.asn1_core.specs.Gives.{GivesIn, ReadsIn};
ghost use Rattle.asn1_core.specs.Reading.{inside_at, whole};
ghost use Rattle.p12.specs.Identifiers.{data_oid, encrypted_data_oid};
ghost use Rattle.legacy_store.specs.JoinedReading.{content_text, info_text, joined_all, joined_at, joined_content, joined_safe, parted_at, parted_body_all, parted_data_at, parted_info_at, seen_parted, short_el};

use crate::identifiers::{DATA, ENCRYPTED_DATA};
use asn1_core::{
    Error, Octets, Reader, SliceReader, Tag, VecWriter, read_identifier, read_inner, read_raw,
    read_uint, write_element,
};
use std::alloc::Global;

/// An encrypted content whose octets were in parts, which lends its algorithm.
#[derive(Drop)]
pub(crate) struct Parted<'a> {
    /// The element of its algorithm.
    algorithm: &'a [u8],
    octets: Octets,
}

/// The octets of OCTET STRINGs, one after the other to the end.
fn joined_strings(alloc: Global, mut body: SliceReader<'_>) -> Result<Octets, Error>
    ensures { GivesIn (λ x. x) result (joined_all (inside_at 0x04) body.entry.rest.now) }
{
    let mut octets = Octets::new(alloc);
    while !body.is_finished() {
        let part = read_inner(&mut body, Tag::OCTET_STRING)?;
        octets.extend(part.rest)?;
    }
    Ok(octets)
}

/// The EncryptedContentInfo in parts that comes next.
#[tactic(auto, unfolding(crate::specs::JoinedReading::parted_info_at))]
fn read_info<'a>(alloc: Global, r: &mut SliceReader<'a>) -> Result<Parted<'a>, Error>
    ensures { ReadsIn parted_info_at seen_parted r.old.rest.now r.new.rest.now result }
{
    let mut ahead = *r;
    let mut body = read_inner(&mut ahead, Tag::SEQUENCE)?;
    if read_identifier(&mut body)? != DATA {
        return Err(Error::Malformed);
    }
    let algorithm = read_raw(&mut body)?;
    let strings = read_inner(&mut body, Tag::CONTEXT_0)?;
    let octets = joined_strings(alloc, strings)?;
    body.finish()?;
    *r = ahead;
    Ok(Parted { algorithm, octets })
}

/// The EncryptedData in parts that comes next.
#[tactic(auto, unfolding(crate::specs::JoinedReading::parted_data_at))]
fn read_data<'a>(alloc: Global, r: &mut SliceReader<'a>) -> Result<Parted<'a>, Error>
    ensures { ReadsIn parted_data_at seen_parted r.old.rest.now r.new.rest.now result }
{
    let mut ahead = *r;
    let mut body = read_inner(&mut ahead, Tag::SEQUENCE)?;
    if read_uint(&mut body, 0xff)? != 0 {
        return Err(Error::Malformed);
    }
    let parted = read_info(alloc, &mut body)?;
    body.finish()?;
    *r = ahead;
    Ok(parted)
}

/// What comes after the identifier of a ContentInfo in parts.
fn read_body<'a>(alloc: Global, mut body: SliceReader<'a>) -> Result<Parted<'a>, Error>
    ensures { GivesIn seen_parted result (parted_body_all body.entry.rest.now) }
{
    let mut explicit = read_inner(&mut body, Tag::CONTEXT_0)?;
    let parted = read_data(alloc, &mut explicit)?;
    explicit.finish()?;
    body.finish()?;
    Ok(parted)
}

/// The ContentInfo in parts that comes next.
#[tactic(auto, unfolding(crate::specs::JoinedReading::parted_at))]
fn read_content<'a>(alloc: Global, r: &mut SliceReader<'a>) -> Result<Parted<'a>, Error>
    ensures { ReadsIn parted_at seen_parted r.old.rest.now r.new.rest.now result }
{
    let mut ahead = *r;
    let mut body = read_inner(&mut ahead, Tag::SEQUENCE)?;
    if read_identifier(&mut body)? != ENCRYPTED_DATA {
        return Err(Error::Malformed);
    }
    let parted = read_body(alloc, body)?;
    *r = ahead;
    Ok(parted)
}

/// The ContentInfo in parts that these octets are.
fn whole_content<'a>(alloc: Global, mut content: SliceReader<'a>) -> Result<Parted<'a>, Error>
    ensures { GivesIn seen_parted result (whole parted_at content.entry.rest.now) }
{
    let parted = read_content(alloc, &mut content)?;
    content.finish()?;
    Ok(parted)
}

/// The element of this tag and value. `Malformed` exactly where it would have more than 2^32 - 1 octets.
fn element(alloc: Global, tag: Tag, value: &[u8]) -> Result<Octets, Error>
    ensures { GivesIn (λ x. x) result (short_el tag.first value.now) }
{
    let mut w = VecWriter::new(alloc);
    match write_element(&mut w, tag, value) {
        Ok(()) => Ok(w.into_octets()),
        Err(Error::Memory) => Err(Error::Memory),
        Err(_) => Err(Error::Malformed),
    }
}

/// The same of a value in two.
fn element_of(alloc: Global, tag: Tag, front: &[u8], rest: &[u8]) -> Result<Octets, Error>
    ensures { GivesIn (λ x. x) result (short_el tag.first (front.now ++ rest.now)) }
{
    let mut value = Octets::from_slice(alloc, front)?;
    value.extend(rest)?;
    element(alloc, tag, value.as_slice())
}

/// The element of id-data.
#[tactic(auto, unfolding(asn1_core::specs::Der::el, asn1_core::specs::Der::len))]
fn data_element() -> &'static [u8]
    ensures { result.now ≡ oid data_oid }
{
    &[
        0x06, 0x09, 0x2a, 0x86, 0x48, 0x86, 0xf7, 0x0d, 0x01, 0x07, 0x01,
    ]
}

/// The element of id-encryptedData.
#[tactic(auto, unfolding(asn1_core::specs::Der::el, asn1_core::specs::Der::len))]
fn encrypted_data_element() -> &'static [u8]
    ensures { result.now ≡ oid encrypted_data_oid }
{
    &[
        0x06, 0x09, 0x2a, 0x86, 0x48, 0x86, 0xf7, 0x0d, 0x01, 0x07, 0x06,
    ]
}

/// The element of the version 0.
#[tactic(auto, unfolding(asn1_core::specs::Der::el, asn1_core::specs::Der::len, asn1_core::specs::Der::shortest, asn1_core::specs::Der::shortest_in))]
fn version_element() -> &'static [u8]
    ensures { result.now ≡ uint 0 }
{
    &[0x02, 0x01, 0x00]
}

/// The text of EncryptedContentInfo, with its octets in one.
#[tactic(auto, unfolding(crate::specs::JoinedReading::info_text))]
fn info_text(alloc: Global, parted: &Parted<'_>) -> Result<Octets, Error>
    ensures { GivesIn (λ x. x) result (info_text (seen_parted parted.now)) }
{
    let octets = element(alloc, Tag::PRIMITIVE_CONTEXT_0, parted.octets.as_slice())?;
    let mut value = Octets::from_slice(alloc, data_element())?;
    value.extend(parted.algorithm)?;
    value.extend(octets.as_slice())?;
    element(alloc, Tag::SEQUENCE, value.as_slice())
}

/// The text of ContentInfo, with its octets in one.
#[tactic(auto, unfolding(crate::specs::JoinedReading::content_text))]
fn content_text(alloc: Global, parted: &Parted<'_>) -> Result<Octets, Error>
    ensures { GivesIn (λ x. x) result (content_text (seen_parted parted.now)) }
{
    let info = info_text(alloc, parted)?;
    let data = element_of(alloc, Tag::SEQUENCE, version_element(), info.as_slice())?;
    let explicit = element(alloc, Tag::CONTEXT_0, data.as_slice())?;
    element_of(
        alloc,
        Tag::SEQUENCE,
        encrypted_data_element(),
        explicit.as_slice(),
    )
}

/// The text of a content, whose encrypted octets are joined where they are in parts.
#[tactic(auto, unfolding(crate::specs::JoinedReading::joined_content))]
fn joined_content(alloc: Global, content: &[u8]) -> Result<Octets, Error>
    ensures { GivesIn (λ x. x) result (joined_content content.now) }
{
    match whole_content(alloc, SliceReader::new(content)) {
        Ok(parted) => content_text(alloc, &parted),
        Err(Error::Memory) => Err(Error::Memory),
        Err(_) => Ok(Octets::from_slice(alloc, content)?),
    }
}

/// The same of the content that comes next.
#[tactic(auto, unfolding(crate::specs::JoinedReading::joined_at))]
fn read_joined(alloc: Global, r: &mut SliceReader<'_>) -> Result<Octets, Error>
    ensures exact { ReadsIn joined_at (λ x. x) r.old.rest.now r.new.rest.now result }
    ensures shorter { OnOk result (length r.new.rest.now < length r.old.rest.now) }
{
    let mut ahead = *r;
    let content = read_raw(&mut ahead)?;
    let text = joined_content(alloc, content)?;
    *r = ahead;
    Ok(text)
}

/// The same of all contents, one after the other to the end.
fn joined_contents(alloc: Global, mut body: SliceReader<'_>) -> Result<Octets, Error>
    ensures { GivesIn (λ x. x) result (joined_all joined_at body.entry.rest.now) }
{
    let mut texts = Octets::new(alloc);
    while !body.is_finished() {
        let text = read_joined(alloc, &mut body)?;
        texts.extend(text.as_slice())?;
    }
    Ok(texts)
}

/// The same of a list of contents.
#[tactic(auto, unfolding(crate::specs::JoinedReading::joined_safe))]
pub(crate) fn joined_safe(alloc: Global, der: &[u8]) -> Result<Octets, Error>
    ensures { GivesIn (λ x. x) result (joined_safe der.now) }
{
    let mut r = SliceReader::new(der);
    let body = read_inner(&mut r, Tag::SEQUENCE)?;
    let texts = joined_contents(alloc, body)?;
    let list = element(alloc, Tag::SEQUENCE, texts.as_slice())?;
    r.finish()?;
    Ok(list)
}
