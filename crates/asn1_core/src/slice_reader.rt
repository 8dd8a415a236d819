//! A reader over borrowed octets.
ghost use Rattle.std.specs.Prelude.{◌≡◌, ◌+◌, ◌<◌, ◌^◌, length};

use crate::element;
use crate::error::Error;
use crate::header::{Header, Length};
use crate::reader::Reader;
use crate::tag::Tag;

/// A reader over borrowed octets: those that are still to be read, and how many were.
#[derive(Clone, Copy, Debug, Drop)]
pub struct SliceReader<'a> {
    pub rest: &'a [u8],
    pub read: usize,
    ghost fits: { read + length rest.now < 2 ^ 63 },
}

impl<'a> SliceReader<'a> {
    /// A reader of these octets, at their front.
    pub fn new(octets: &'a [u8]) -> SliceReader<'a>
        ensures all { result.rest.now ≡ octets.entry.now }
        ensures front { result.read ≡ 0 }
    {
        SliceReader {
            rest: octets,
            read: 0,
        }
    }
}

impl<'a> Reader<&'a [u8]> for SliceReader<'a> {
    ghost left = { λ s. s.rest.now };

    ghost taken = { λ s. s.read };

    fn position(&self) -> usize {
        self.read
    }

    fn is_finished(&self) -> bool {
        self.rest.is_empty()
    }

    fn peek_tag(&self) -> Result<Tag, Error> {
        match self.rest.split_first() {
            None => Err(Error::Malformed),
            Some((first, _)) => Tag::from_octet(*first),
        }
    }

    fn header(&mut self) -> Result<Header, Error> {
        let (first, value, rest) = element::header(self.rest)?;
        let taken = self.rest.len() - rest.len();
        *self = SliceReader {
            rest,
            read: self.read + taken,
        };
        Ok(Header {
            tag: Tag { first },
            length: Length { value },
        })
    }

    fn read_slice(&mut self, len: Length) -> Result<&'a [u8], Error> {
        let n = len.value as usize;
        if n > self.rest.len() {
            return Err(Error::Malformed);
        }
        let (head, rest) = self.rest.split_at(n);
        *self = SliceReader {
            rest,
            read: self.read + n,
        };
        Ok(head)
    }

    fn finish(&self) -> Result<(), Error> {
        if self.rest.is_empty() {
            Ok(())
        } else {
            Err(Error::Malformed)
        }
    }
}
