//! The parts of a private key that come after the key.
ghost use Rattle.std.specs.Prelude.{◌≡◌, ◌==◌, ◌<◌, ℕ, length, refl, OnOk};
ghost use Rattle.asn1_core.specs.Gives.{Gives, ReadsAs};
ghost use Rattle.asn1_core.specs.Reading.{option_at, within};
ghost use Rattle.asn1_core.specs.Texts.{seen_option};
ghost use Rattle.pkcs8.specs.FieldLaws.{skipped-exact};
ghost use Rattle.pkcs8.specs.PrivateKeyInfo.{Skipped, skipped, further_at, further_of, is_further};

use asn1_core::{Error, Header, Length, Reader, SliceReader, Tag, Writer};
use der_core::{Decode, DecodeValue, EncodeValue, FixedTag};

/// Attributes ([0] in RFC 5958 section 2), which are not looked at.
#[derive(Drop)]
pub struct Attributes;

impl FixedTag for Attributes {
    ghost TAG = { record { first = 0xa0; is_tag = refl } };

    const TAG: Tag = Tag { first: 0xa0 };
}

impl<'a> DecodeValue<&'a [u8]> for Attributes {
    ghost Seen = { Unit {0} };

    ghost seen = { λ a. tt };

    ghost value = { λ t. skipped };

    ghost text = { λ t. Skipped };

    fn decode_value<R: Reader<&'a [u8]>>(r: &mut R, header: Header) -> Result<Attributes, Error> {
        r.read_slice(header.length)?;
        Ok(Attributes)
    }

    ghost exact = { λ t. skipped-exact };
}

/// A public key ([1] IMPLICIT in RFC 5958 section 2).
#[derive(Drop)]
pub struct PublicKeyField<PubKey> {
    pub key: PubKey,
}

impl<PubKey> FixedTag for PublicKeyField<PubKey> {
    ghost TAG = { record { first = 0x81; is_tag = refl } };

    const TAG: Tag = Tag { first: 0x81 };
}

impl<'a, PubKey: DecodeValue<&'a [u8]>> DecodeValue<&'a [u8]> for PublicKeyField<PubKey> {
    ghost Seen = { PubKey.Seen };

    ghost seen = { λ f. PubKey.seen f.key };

    ghost value = { PubKey.value };

    ghost text = { PubKey.text };

    fn decode_value<R: Reader<&'a [u8]>>(
        r: &mut R,
        header: Header,
    ) -> Result<PublicKeyField<PubKey>, Error> {
        Ok(PublicKeyField {
            key: PubKey::decode_value(r, header)?,
        })
    }

    ghost exact = { PubKey.exact };
}

impl<PubKey: EncodeValue> EncodeValue for PublicKeyField<PubKey> {
    ghost content = { λ f. PubKey.content f.key };

    ghost writable = { λ f. PubKey.writable f.key };

    fn value_len(&self) -> Result<Length, Error> {
        self.key.value_len()
    }

    fn encode_value<W: Writer>(&self, w: &mut W) -> Result<(), Error> {
        self.key.encode_value(w)
    }
}

/// Takes a public key, or nothing where no element of its tag comes next. Refusals are those of its value, and
/// `Malformed` where the element or the next tag is none. A refusal does not move the reader.
pub fn read_public_key<'a, PubKey: DecodeValue<&'a [u8]>>(
    r: &mut SliceReader<'a>,
) -> Result<Option<PubKey>, Error>
    ensures { ReadsAs (option_at (λ t. t == 0x81) (within 0x81 (PubKey.value 0x81)))
        (seen_option PubKey.seen) r.old.rest.now r.new.rest.now result }
{
    match Option::<PublicKeyField<PubKey>>::decode(r)? {
        Some(field) => Ok(Some(field.key)),
        None => Ok(None),
    }
}

/// Takes a further field. `Malformed` exactly where none comes next.
fn skip_further_field<'a>(r: &mut SliceReader<'a>) -> Result<(), Error>
    ensures exact { ReadsAs further_at (λ u. u) r.old.rest.now r.new.rest.now result }
    ensures shorter { OnOk result (length r.new.rest.now < length r.old.rest.now) }
{
    let mut ahead = *r;
    let header = ahead.header()?;
    if !is_further_tag(header.tag) {
        return Err(Error::Malformed);
    }
    let _ = ahead.read_slice(header.length)?;
    *r = ahead;
    Ok(())
}

/// Whether further fields may have this tag.
fn is_further_tag(tag: Tag) -> bool
    ensures { result ≡ is_further tag.first }
{
    (tag.first > 0x81 && tag.first < 0x9f) || (tag.first > 0xa1 && tag.first < 0xbf)
}

/// That these octets are further fields alone, any number of them. `Malformed` exactly where they are not.
pub fn skip_further_fields(octets: &[u8]) -> Result<(), Error>
    ensures { Gives (λ u. u) result (further_of octets.now) }
{
    let mut r = SliceReader::new(octets);
    while !r.is_finished() {
        skip_further_field(&mut r)?;
    }
    Ok(())
}
