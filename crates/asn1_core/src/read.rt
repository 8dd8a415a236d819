//! Reading whole elements.
ghost use Rattle.std.specs.Prelude.{◌≡◌, ◌+◌, ◌<◌, ◌≤◌, length, OnOk, IfOk};
ghost use Rattle.asn1_core.specs.Texts.{Raw, Uint, Inside, Oid};
ghost use Rattle.asn1_core.specs.Unicode.{Ia5, Bmp, ia5_at, bmp_at};
ghost use Rattle.asn1_core.specs.Reading.{raw_at, uint_at, inside_at, oid_at};
ghost use Rattle.asn1_core.specs.Gives.{Reads, ReadsAs, ReadsIn};

use crate::characters::{bmp_in_front, ia5_in_front};
use crate::error::Error;
use crate::front::{identifier_in_front, inner_in_front, raw_in_front, uint_in_front};
use crate::identifier::ObjectIdentifier;
use crate::slice_reader::SliceReader;
use crate::tag::Tag;
use octet_core::Text;
use std::alloc::Global;

/// The value of one element of this tag, as a reader of its own, of which nothing is read yet. `Malformed` exactly where no
/// such element comes next; a refusal does not move the reader.
pub fn read_inner<'a>(r: &mut SliceReader<'a>, tag: Tag) -> Result<SliceReader<'a>, Error>
    ensures stands { Reads (Inside tag.first)
        (λ x. x.rest.now) r.old.rest.now r.new.rest.now result }
    ensures exact { ReadsAs (inside_at tag.first)
        (λ x. x.rest.now) r.old.rest.now r.new.rest.now result }
    ensures place { r.new.read + length r.new.rest.now ≡ r.old.read + length r.old.rest.now }
    ensures inner { IfOk result (λ x. x.read ≡ 0) }
    ensures shorter { OnOk result (length r.new.rest.now < length r.old.rest.now) }
{
    inner_in_front(r, tag)
}

/// An INTEGER that is not negative and at most `max`. `Malformed` exactly where none comes next; a refusal does not move
/// the reader.
pub fn read_uint(r: &mut SliceReader<'_>, max: u64) -> Result<u64, Error>
    ensures stands { Reads (Uint max) (λ n. n) r.old.rest.now r.new.rest.now result }
    ensures exact { ReadsAs (uint_at max) (λ n. n) r.old.rest.now r.new.rest.now result }
    ensures place { r.new.read + length r.new.rest.now ≡ r.old.read + length r.old.rest.now }
    ensures small { IfOk result (λ n. n ≤ max) }
{
    uint_in_front(r, max)
}

/// An OBJECT IDENTIFIER. `Malformed` exactly where none comes next; a refusal does not move the reader.
pub fn read_identifier(r: &mut SliceReader<'_>) -> Result<ObjectIdentifier, Error>
    ensures stands { Reads Oid (λ o. o) r.old.rest.now r.new.rest.now result }
    ensures exact { ReadsAs oid_at (λ o. o) r.old.rest.now r.new.rest.now result }
    ensures place { r.new.read + length r.new.rest.now ≡ r.old.read + length r.old.rest.now }
{
    identifier_in_front(r)
}

/// One whole element, uninterpreted. `Malformed` exactly where none comes next; a refusal does not move the reader.
pub fn read_raw<'a>(r: &mut SliceReader<'a>) -> Result<&'a [u8], Error>
    ensures stands { Reads Raw (λ x. x.now) r.old.rest.now r.new.rest.now result }
    ensures exact { ReadsAs raw_at (λ x. x.now) r.old.rest.now r.new.rest.now result }
    ensures place { r.new.read + length r.new.rest.now ≡ r.old.read + length r.old.rest.now }
    ensures shorter { OnOk result (length r.new.rest.now < length r.old.rest.now) }
{
    raw_in_front(r)
}

/// An IA5String. `Malformed` exactly where none comes next, `Memory` when out of memory; a refusal does not move the
/// reader.
pub fn read_ia5(alloc: Global, r: &mut SliceReader<'_>) -> Result<Text, Error>
    ensures stands { Reads Ia5 (λ t. t) r.old.rest.now r.new.rest.now result }
    ensures exact { ReadsIn ia5_at (λ t. t) r.old.rest.now r.new.rest.now result }
    ensures place { r.new.read + length r.new.rest.now ≡ r.old.read + length r.old.rest.now }
{
    ia5_in_front(alloc, r)
}

/// A BMPString, whose pairs of surrogates are characters. `Malformed` exactly where none comes next, `Memory` when out
/// of memory; a refusal does not move the reader.
pub fn read_bmp(alloc: Global, r: &mut SliceReader<'_>) -> Result<Text, Error>
    ensures stands { Reads Bmp (λ t. t) r.old.rest.now r.new.rest.now result }
    ensures exact { ReadsIn bmp_at (λ t. t) r.old.rest.now r.new.rest.now result }
    ensures place { r.new.read + length r.new.rest.now ≡ r.old.read + length r.old.rest.now }
    ensures shorter { OnOk result (length r.new.rest.now < length r.old.rest.now) }
{
    bmp_in_front(alloc, r)
}
