//! Values that may be missing.
ghost use Rattle.std.specs.Prelude.{Option};
ghost use Rattle.asn1_core.specs.Reading.{option_at};
ghost use Rattle.asn1_core.specs.Texts.{Perhaps, seen_option};
ghost use Rattle.der_core.specs.Optional.{canon_option, writable_option};
ghost use Rattle.der_core.specs.SameLaws.{option_same};

use crate::decode::{Choice, Decode};
use crate::encode::Encode;
use crate::laws::Compared;
use asn1_core::{Error, Length, Reader, SliceReader, Writer};

/// The text of a value, or nothing for None. None is read, and nothing taken, exactly where the reader is finished or a tag
/// comes next that no text of the value has.
impl<'a, T: Choice<&'a [u8]>> Decode<&'a [u8]> for Option<T> {
    ghost Seen = { Option T.Seen };

    ghost seen = { seen_option T.seen };

    ghost at = { option_at T.can T.at };

    ghost text = { Perhaps T.text };

    fn decode<R: Reader<&'a [u8]>>(r: &mut R) -> Result<Option<T>, Error> {
        if r.is_finished() {
            return Ok(None);
        }
        let tag = r.peek_tag()?;
        if !T::can_decode(tag) {
            return Ok(None);
        }
        Ok(Some(T::decode(r)?))
    }

    fn from_der(bytes: &'a [u8]) -> Result<Option<T>, Error> {
        let mut r = SliceReader::new(bytes);
        let v = Self::decode(&mut r)?;
        r.finish()?;
        Ok(v)
    }
}

impl<T: Encode> Encode for Option<T> {
    ghost canon = { canon_option T.canon };

    ghost writable = { writable_option T.writable };

    fn encoded_len(&self) -> Result<Length, Error> {
        match self {
            Some(x) => x.encoded_len(),
            None => Ok(Length { value: 0 }),
        }
    }

    fn encode<W: Writer>(&self, w: &mut W) -> Result<(), Error> {
        match self {
            Some(x) => x.encode(w),
            None => Ok(()),
        }
    }
}

impl<'a, T: Choice<&'a [u8]> + Compared<&'a [u8]>> Compared<&'a [u8]> for Option<T> {
    ghost compared = { option_same T.Decode.seen T.eq T.compared };
}
