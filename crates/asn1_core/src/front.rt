//! Elements in front of a reader, as the functions of the grammar read them.
ghost use Rattle.std.specs.Prelude.{◌≡◌, ◌+◌, ◌<◌, ◌≤◌, ℕ, length, OnOk, IfOk};
ghost use Rattle.asn1_core.specs.Reading.{raw_at, uint_at, inside_at, oid_at};
ghost use Rattle.asn1_core.specs.Gives.{ReadsAs};

use crate::error::Error;
use crate::identifier::ObjectIdentifier;
use crate::integer::uint_value;
use crate::reader::Reader;
use crate::slice_reader::SliceReader;
use crate::tag::Tag;

pub(crate) fn inner_in_front<'a>(
    r: &mut SliceReader<'a>,
    tag: Tag,
) -> Result<SliceReader<'a>, Error>
    ensures exact { ReadsAs (inside_at tag.first)
        (λ x. x.rest.now) r.old.rest.now r.new.rest.now result }
    ensures place { r.new.read + length r.new.rest.now ≡ r.old.read + length r.old.rest.now }
    ensures inner { IfOk result (λ x. x.read ≡ 0) }
    ensures shorter { OnOk result (length r.new.rest.now < length r.old.rest.now) }
{
    let mut ahead = *r;
    let header = ahead.header()?;
    if header.tag != tag {
        return Err(Error::Malformed);
    }
    let value = ahead.read_slice(header.length)?;
    *r = ahead;
    Ok(SliceReader::new(value))
}

pub(crate) fn uint_in_front(r: &mut SliceReader<'_>, max: u64) -> Result<u64, Error>
    ensures exact { ReadsAs (uint_at max) (λ n. n) r.old.rest.now r.new.rest.now result }
    ensures place { r.new.read + length r.new.rest.now ≡ r.old.read + length r.old.rest.now }
    ensures small { IfOk result (λ n. n ≤ max) }
{
    let mut ahead = *r;
    let value = inner_in_front(&mut ahead, Tag::INTEGER)?;
    let n = uint_value(max, value.rest)?;
    *r = ahead;
    Ok(n)
}

pub(crate) fn identifier_in_front(r: &mut SliceReader<'_>) -> Result<ObjectIdentifier, Error>
    ensures exact { ReadsAs oid_at (λ o. o) r.old.rest.now r.new.rest.now result }
    ensures place { r.new.read + length r.new.rest.now ≡ r.old.read + length r.old.rest.now }
{
    let mut ahead = *r;
    let value = inner_in_front(&mut ahead, Tag::OBJECT_IDENTIFIER)?;
    let identifier = ObjectIdentifier::from_bytes(value.rest)?;
    *r = ahead;
    Ok(identifier)
}

#[tactic(auto, unfolding(crate::specs::Reading::raw_at))]
pub(crate) fn raw_in_front<'a>(r: &mut SliceReader<'a>) -> Result<&'a [u8], Error>
    ensures exact { ReadsAs raw_at (λ x. x.now) r.old.rest.now r.new.rest.now result }
    ensures place { r.new.read + length r.new.rest.now ≡ r.old.read + length r.old.rest.now }
    ensures shorter { OnOk result (length r.new.rest.now < length r.old.rest.now) }
{
    let mut ahead = *r;
    let header = ahead.header()?;
    ahead.read_slice(header.length)?;
    let (element, _) = r.rest.split_at(r.rest.len() - ahead.rest.len());
    *r = ahead;
    Ok(element)
}
