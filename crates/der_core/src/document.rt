//! Documents.
ghost use Rattle.std.specs.Prelude.{◌≡◌, ◌⊎◌, length, None, MatchResult, IfOk, IfErr, OnOk, IsTrue};
ghost use Rattle.asn1_core.specs.Der.{IsShort};
ghost use Rattle.asn1_core.specs.Reading.{whole, inside_at};
ghost use Rattle.asn1_core.specs.Gives.{Gives};
ghost use Rattle.asn1_core.specs.Writing.{Cause, IsOverlong};
ghost use Rattle.asn1_core.specs.declared.error.Error.TheVariants.{Malformed, Overlength, File, Memory};
ghost use Rattle.der_core.specs.Document.{IsSequence, is_sequence};

use crate::decode::Decode;
use crate::encode::Encode;
use asn1_core::{Error, Octets, Reader, SliceReader, Tag, read_inner};
use std::alloc::Global;
use std::fs;
use std::io::{self, ErrorKind};
use std::rt::Files;

/// The value octets of one whole SEQUENCE.
fn sequence_value(octets: &[u8]) -> Result<&[u8], Error>
    ensures { Gives (λ v. v.now) result (whole (inside_at 48) octets.now) }
{
    let mut r = SliceReader::new(octets);
    let value = read_inner(&mut r, Tag::SEQUENCE)?;
    r.finish()?;
    Ok(value.rest)
}

/// That these octets are one whole SEQUENCE. `Malformed` exactly where they are not.
#[tactic(auto, using(crate::specs::DocumentLaws::sequence_found, crate::specs::DocumentLaws::sequence_again))]
fn check_sequence(octets: &[u8]) -> Result<(), Error>
    ensures ok { OnOk result (IsTrue (is_sequence octets.now)) }
    ensures err { IfErr result (λ e. (e ≡ Malformed) × (¬ (IsSequence octets.now))) }
{
    match sequence_value(octets) {
        Ok(_) => Ok(()),
        Err(_) => Err(Error::Malformed),
    }
}

/// What a failed call on a file returns.
fn file_error(e: io::Error) -> Error
    ensures { (result ≡ File) ⊎ (result ≡ Memory) }
{
    if e.kind() == ErrorKind::OutOfMemory {
        Error::Memory
    } else {
        Error::File
    }
}

/// One whole SEQUENCE in memory of its own, of at most 2^32 - 1 octets, whatever is in it.
#[derive(Debug, PartialEq, Eq, Drop)]
pub struct Document {
    octets: Octets,
    ghost sequence: { IsTrue (is_sequence octets) },
}

impl Document {
    /// The document of these octets. `Malformed` exactly where they are not one whole SEQUENCE; else `Memory` alone.
    #[tactic(auto, using(crate::specs::DocumentLaws::sequence_found))]
    pub fn from_der(alloc: Global, bytes: &[u8]) -> Result<Document, Error>
        ensures { MatchResult result (λ d. d.octets ≡ bytes.now)
            (λ e. ((e ≡ Memory) × IsSequence bytes.now)
            ⊎ ((e ≡ Malformed) × (¬ (IsSequence bytes.now)))) }
    {
        check_sequence(bytes)?;
        let octets = Octets::from_slice(alloc, bytes)?;
        Ok(Document { octets })
    }

    /// The text of a value. `Malformed` exactly where the value has none or it is not a SEQUENCE, `Overlength` only where it would
    /// have more than 2^32 - 1 octets, and `Memory`.
    pub fn encode_msg<T: Encode>(alloc: Global, v: &T) -> Result<Document, Error>
        ensures ok { IfOk result (λ d. d.octets ≡ T.canon v.now) }
        ensures lawful { OnOk result (T.writable v.now) }
        ensures err { IfErr result
            (λ e. Cause ((¬ (T.writable v.now))
            ⊎ (IsShort (T.canon v.now) × (¬ (IsSequence (T.canon v.now)))))
            (IsOverlong (length (T.canon v.now))) (Unit {0}) None 0 0 0 e) }
    {
        let octets = v.to_der(alloc)?;
        check_sequence(octets.as_slice())?;
        Ok(Document { octets })
    }

    /// The value whose text this is. Refusals are those of `from_der` of the type.
    pub fn decode_msg<'a, T: Decode<&'a [u8]>>(&'a self) -> Result<T, Error>
        ensures { Gives T.seen result (whole T.at self.now.octets) }
    {
        T::from_der(self.octets.as_slice())
    }

    /// The octets, which are one whole SEQUENCE.
    #[tactic(auto, using(crate::specs::DocumentLaws::sequence_found))]
    pub fn as_bytes(&self) -> &[u8]
        ensures value { result.now ≡ self.now.octets }
        ensures sequence { IsSequence self.now.octets }
    {
        self.octets.as_slice()
    }

    /// The document in this file. `File` where a call on the file failed, `Overlength` where it has more than 2^32 - 1 octets,
    /// else `Malformed` where it is not one whole SEQUENCE; and `Memory`.
    pub fn read_der_file<R: Files>(rt: &R, alloc: Global, path: &str) -> Result<Document, Error>
        ensures { IfErr result (λ e. (e ≡ File) ⊎ (e ≡ Overlength) ⊎ (e ≡ Malformed)
            ⊎ (e ≡ Memory)) }
    {
        match fs::read(&(rt, alloc), path) {
            Ok(octets) => {
                if octets.len() > 0xffff_ffff {
                    return Err(Error::Overlength);
                }
                check_sequence(octets.as_slice())?;
                Ok(Document {
                    octets: Octets::from_vec(octets),
                })
            }
            Err(e) => Err(file_error(e)),
        }
    }

    /// Writes the octets into this file, which is made where it is missing, and cut before where it is not. The only refusal is
    /// `File`, where a call on the file failed.
    pub fn write_der_file<R: Files>(&self, rt: &R, path: &str) -> Result<(), Error>
        ensures { IfErr result (λ e. e ≡ File) }
    {
        match fs::write(rt, path, self.octets.as_slice()) {
            Ok(()) => Ok(()),
            Err(_) => Err(Error::File),
        }
    }

    /// An equal value in memory of its own. The only refusal is `Memory`.
    pub fn try_clone(&self, alloc: Global) -> Result<Document, Error>
        ensures ok { IfOk result (λ d. d.octets ≡ self.now.octets) }
        ensures err { IfErr result (λ e. e ≡ Memory) }
    {
        let octets = self.octets.try_clone(alloc)?;
        Ok(Document { octets })
    }
}
