//! The traits of decoding.
ghost use Rattle.std.specs.Prelude.{◌≡◌, ◌+◌, ℕ, Bool, List, length, ◌==◌};
ghost use Rattle.asn1_core.specs.Reading.{All, Front, valued, whole, within};
ghost use Rattle.asn1_core.specs.Texts.{Exact, ExactAll, Within, Whole};
ghost use Rattle.asn1_core.specs.Gives.{Gives, ReadsAs};
ghost use Rattle.asn1_core.specs.ElementLaws.{within-exact, within-whole};

use crate::tagged::{FixedTag, Tagged};
use asn1_core::{Error, Header, Reader, SliceReader, Tag};
use std::convert::AsSlice;

/// A type whose value octets can be read, once the header was. `S` is the type of the octets that a reader lends.
///
/// `Seen` is what contracts see of a value, and `value` reads it from all of the value octets, by the tag octet. Of the octets
/// `text` says in words which value they stand for, and the law `exact` that both are one: so octets have at most one value.
pub trait DecodeValue<S: AsSlice<u8>>: Sized + Drop {
    ghost Seen: { Type 0 };

    ghost seen: { Self → Seen };

    ghost value: { ℕ → All Seen };

    ghost text: { ℕ → List ℕ → Seen → Type 0 };

    /// Takes the value octets after this header. `Malformed` exactly where they are those of no value, `OidUnknown` where an
    /// identifier is met first that its place does not know; a refusal does not move the reader.
    fn decode_value<R: Reader<S>>(r: &mut R, header: Header) -> Result<Self, Error>
        ensures read { ReadsAs (valued (value header.tag.first) header.length.value) seen
            (R.left r.old) (R.left r.new) result }
        ensures place { R.taken r.new + length (R.left r.new)
            ≡ R.taken r.old + length (R.left r.old) };

    ghost exact: { (t : ℕ) → ExactAll (text t) (value t) };
}

/// A type that can be read from the front of a reader.
///
/// `at` reads what is seen of a value from the front of octets, `text` says in words which octets stand for it.
pub trait Decode<S: AsSlice<u8>>: Sized + Drop {
    ghost Seen: { Type 0 };

    ghost seen: { Self → Seen };

    ghost at: { Front Seen };

    ghost text: { List ℕ → Seen → Type 0 };

    /// Takes the text that comes next. `Malformed` exactly where none does, `OidUnknown` where an identifier is met first that
    /// its place does not know; a refusal does not move the reader.
    fn decode<R: Reader<S>>(r: &mut R) -> Result<Self, Error>
        ensures read { ReadsAs at seen (R.left r.old) (R.left r.new) result }
        ensures place { R.taken r.new + length (R.left r.new)
            ≡ R.taken r.old + length (R.left r.old) };

    /// The value of these octets, all of them. Refusals as in `decode`, and `Malformed` where octets are left over.
    fn from_der(bytes: S) -> Result<Self, Error>
        ensures { Gives seen result (whole at (S.items bytes)) };
}

/// A type whose texts are single elements, which are told by their tags.
///
/// The laws: `exact`, that a text is read exactly where the words have it, and `whole`, that each text is one element whose tag
/// the type can decode.
pub trait Choice<S: AsSlice<u8>>: Decode<S> + Tagged {
    ghost can: { ℕ → Bool };

    /// Whether a text of this type may have this tag.
    fn can_decode(tag: Tag) -> bool
        ensures { result ≡ can tag.first };

    ghost exact: { Exact Self.text Self.at };

    ghost whole: { Whole can Self.text };
}

impl<'a, T: DecodeValue<&'a [u8]> + FixedTag> Decode<&'a [u8]> for T {
    ghost Seen = { T.Seen };

    ghost seen = { T.seen };

    ghost at = { within T.TAG.first (T.value T.TAG.first) };

    ghost text = { Within T.TAG.first (T.text T.TAG.first) };

    fn decode<R: Reader<&'a [u8]>>(r: &mut R) -> Result<T, Error> {
        let mut ahead = *r;
        let header = ahead.header()?;
        if header.tag != T::TAG {
            return Err(Error::Malformed);
        }
        let v = T::decode_value(&mut ahead, header)?;
        *r = ahead;
        Ok(v)
    }

    fn from_der(bytes: &'a [u8]) -> Result<T, Error> {
        let mut r = SliceReader::new(bytes);
        let v = Self::decode(&mut r)?;
        r.finish()?;
        Ok(v)
    }
}

impl<'a, T: DecodeValue<&'a [u8]> + FixedTag> Choice<&'a [u8]> for T {
    ghost can = { λ t. t == T.TAG.first };

    fn can_decode(tag: Tag) -> bool {
        tag.first == T::TAG.first
    }

    ghost exact = { within-exact T.TAG.first (T.text T.TAG.first) (T.value T.TAG.first) T.TAG.is_tag
        (T.exact T.TAG.first) };

    ghost whole = { within-whole T.TAG.first (T.text T.TAG.first) T.TAG.is_tag };
}
