//! The traits of encoding.
ghost use Rattle.std.specs.Prelude.{◌≡◌, ℕ, List, length, None, IfOk, IfErr, OnOk};
ghost use Rattle.asn1_core.specs.Der.{el, IsShort};
ghost use Rattle.asn1_core.specs.Writing.{Writes, Measures, Cause, IsOverlong};

use crate::tagged::Tagged;
use asn1_core::{Error, Length, Octets, VecWriter, Writer, element_len, write_header};
use std::alloc::Global;

/// A value whose value octets can be written.
///
/// `content` are those octets, and `writable` says which values have a text.
pub trait EncodeValue {
    ghost content: { Self → List ℕ };

    ghost writable: { Self → Type 0 };

    /// How many value octets there are. `Malformed` exactly where the value has no text, `Overlength` only where there are more
    /// than 2^32 - 1.
    fn value_len(&self) -> Result<Length, Error>
        ensures measured { Measures (¬ (writable self.now)) (content self.now) result }
        ensures lawful { OnOk result (writable self.now) };

    /// Writes the value octets. Refusals as in `value_len`, and those of the writer; a front of the octets was written then.
    fn encode_value<W: Writer>(&self, w: &mut W) -> Result<(), Error>
        ensures written { Writes W.sink (¬ (writable self.now))
            (IsOverlong (length (content self.now))) (content self.now) w.old result w.new }
        ensures lawful { OnOk result (writable self.now) };
}

/// A value that can be written.
///
/// `canon` is the text that is written, and `writable` says which values have one.
pub trait Encode {
    ghost canon: { Self → List ℕ };

    ghost writable: { Self → Type 0 };

    /// How many octets the text has. `Malformed` exactly where the value has none, `Overlength` only where there are more than
    /// 2^32 - 1.
    fn encoded_len(&self) -> Result<Length, Error>
        ensures measured { Measures (¬ (writable self.now)) (canon self.now) result }
        ensures lawful { OnOk result (writable self.now) };

    /// Writes the text. Refusals as in `encoded_len`, and those of the writer; a front of the text was written then.
    fn encode<W: Writer>(&self, w: &mut W) -> Result<(), Error>
        ensures written { Writes W.sink (¬ (writable self.now))
            (IsOverlong (length (canon self.now))) (canon self.now) w.old result w.new }
        ensures short { OnOk result (IsShort (canon self.now)) }
        ensures lawful { OnOk result (writable self.now) };

    /// The text, in memory of its own. Refusals as in `encoded_len`, and `Memory`.
    fn to_der(&self, alloc: Global) -> Result<Octets, Error>
        ensures ok { IfOk result (λ o. o ≡ canon self.now) }
        ensures short { OnOk result (IsShort (canon self.now)) }
        ensures lawful { OnOk result (writable self.now) }
        ensures err { IfErr result
            (λ e. Cause (¬ (writable self.now)) (IsOverlong (length (canon self.now)))
            (Unit {0}) None 0 0 0 e) }
    {
        let mut w = VecWriter::new(alloc);
        self.encode(&mut w)?;
        Ok(w.into_octets())
    }
}

impl<T: EncodeValue + Tagged> Encode for T {
    ghost canon = { λ v. el (T.tag_of v) (T.content v) };

    ghost writable = { T.writable };

    fn encoded_len(&self) -> Result<Length, Error> {
        let n = self.value_len()?;
        element_len(n)
    }

    fn encode<W: Writer>(&self, w: &mut W) -> Result<(), Error> {
        let n = self.value_len()?;
        let _ = element_len(n)?;
        write_header(w, self.tag(), n)?;
        self.encode_value(w)
    }
}
