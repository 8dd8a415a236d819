//! Elements of the context class.
ghost use Rattle.std.specs.Prelude.{◌≡◌, ◌<◌, MatchResult, ℕ, List, refl};
ghost use Rattle.asn1_core.specs.declared.error.Error.TheVariants.{Malformed};
ghost use Rattle.der_core.specs.declared.context_specific.ContextSpecific.{ContextSpecific};
ghost use Rattle.der_core.specs.ContextSpecific.{context, context_at, ContextText, is_context, context_tag, context_content};
ghost use Rattle.der_core.specs.ContextLaws.{context-exact, context-whole};
ghost use Rattle.der_core.specs.SameLaws.{context_same};

use crate::decode::{Choice, Decode};
use crate::encode::{Encode, EncodeValue};
use crate::laws::Compared;
use crate::tagged::Tagged;
use asn1_core::{Error, Length, Reader, SliceReader, Tag, Writer};

/// How an element of the context class holds its value.
#[derive(Clone, Copy, Debug, PartialEq, Eq, Drop)]
pub enum TagMode {
    /// The value's whole text is in the element.
    Explicit,
    /// The element's tag is in place of the value's own.
    Implicit,
}

/// An element of the context class (X.690 section 8.14): its number, at most 30 where it is written, its mode and its value.
///
/// It is read as `Explicit` alone, and written in either mode.
#[derive(Clone, Copy, Debug, PartialEq, Eq, Drop)]
pub struct ContextSpecific<T> {
    pub tag_number: u8,
    pub tag_mode: TagMode,
    pub value: T,
}

/// That an element may have this number in one tag octet. `Malformed` exactly where it is over 30.
fn check_number(tag_number: u8) -> Result<(), Error>
    ensures { MatchResult result (λ _. tag_number < 31)
        (λ e. (e ≡ Malformed) × (¬ (tag_number < 31))) }
{
    if tag_number > 30 {
        return Err(Error::Malformed);
    }
    Ok(())
}

impl<T: Tagged> Tagged for ContextSpecific<T> {
    ghost tag_of = { λ v. context_tag v.tag_number v.tag_mode (T.tag_of v.value) };

    fn tag(&self) -> Tag {
        // no tag octet has a number over 30, and no such value is written
        let number = if self.tag_number < 31 {
            self.tag_number
        } else {
            30
        };
        match self.tag_mode {
            TagMode::Explicit => Tag {
                first: 0xa0 + number,
            },
            TagMode::Implicit => {
                if self.value.tag().first / 32 % 2 == 1 {
                    Tag {
                        first: 0xa0 + number,
                    }
                } else {
                    Tag {
                        first: 0x80 + number,
                    }
                }
            }
        }
    }
}

impl<'a, T: Choice<&'a [u8]>> Decode<&'a [u8]> for ContextSpecific<T> {
    ghost Seen = { ContextSpecific T.Seen };

    ghost seen = { λ v. context v.tag_number v.tag_mode (T.seen v.value) };

    ghost at = { context_at T.at };

    ghost text = { ContextText T.text };

    fn decode<R: Reader<&'a [u8]>>(r: &mut R) -> Result<ContextSpecific<T>, Error> {
        let mut ahead = *r;
        let header = ahead.header()?;
        let first = header.tag.first;
        if first <= 0x9f || first >= 0xbf {
            return Err(Error::Malformed);
        }
        let octets = ahead.read_slice(header.length)?;
        let mut inner = SliceReader::new(octets);
        let value = T::decode(&mut inner)?;
        inner.finish()?;
        *r = ahead;
        Ok(ContextSpecific {
            tag_number: first - 0xa0,
            tag_mode: TagMode::Explicit,
            value,
        })
    }

    fn from_der(bytes: &'a [u8]) -> Result<ContextSpecific<T>, Error> {
        let mut r = SliceReader::new(bytes);
        let v = Self::decode(&mut r)?;
        r.finish()?;
        Ok(v)
    }
}

impl<'a, T: Choice<&'a [u8]>> Choice<&'a [u8]> for ContextSpecific<T> {
    ghost can = { is_context };

    fn can_decode(tag: Tag) -> bool {
        tag.first > 0x7f && tag.first < 0xc0
    }

    ghost exact = { context-exact T.text T.at T.exact };

    ghost whole = { context-whole T.text T.at T.exact };
}

impl<T: EncodeValue + Tagged> EncodeValue for ContextSpecific<T> {
    ghost content = { λ v. context_content v.tag_mode (⟦<T as Encode>⟧.canon v.value)
        (T.content v.value) };

    ghost writable = { λ v. (v.tag_number < 31) × T.writable v.value };

    fn value_len(&self) -> Result<Length, Error> {
        check_number(self.tag_number)?;
        match self.tag_mode {
            TagMode::Explicit => self.value.encoded_len(),
            TagMode::Implicit => self.value.value_len(),
        }
    }

    fn encode_value<W: Writer>(&self, w: &mut W) -> Result<(), Error> {
        check_number(self.tag_number)?;
        match self.tag_mode {
            TagMode::Explicit => self.value.encode(w),
            TagMode::Implicit => self.value.encode_value(w),
        }
    }
}

impl<'a, T: Choice<&'a [u8]> + Compared<&'a [u8]>> Compared<&'a [u8]> for ContextSpecific<T> {
    ghost compared = { λ v w. context_same ⟦<TagMode as PartialEq>⟧.eq refl refl refl refl
        T.Decode.seen T.eq T.compared v.tag_number w.tag_number v.tag_mode w.tag_mode v.value
        w.value };
}
