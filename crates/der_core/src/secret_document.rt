//! Documents whose octets are not shown.
ghost use Rattle.std.specs.Prelude.{◌≡◌, ◌⊎◌, length, None, MatchResult, IfOk, IfErr, OnOk};
ghost use Rattle.asn1_core.specs.Der.{IsShort};
ghost use Rattle.asn1_core.specs.Reading.{whole};
ghost use Rattle.asn1_core.specs.Gives.{Gives};
ghost use Rattle.asn1_core.specs.Writing.{Cause, IsOverlong};
ghost use Rattle.asn1_core.specs.declared.error.Error.TheVariants.{Malformed, Overlength, File, Memory};
ghost use Rattle.der_core.specs.Document.{IsSequence};

use crate::decode::Decode;
use crate::document::Document;
use crate::encode::Encode;
use asn1_core::Error;
use std::alloc::Global;
use std::fmt;
use std::rt::Files;

/// A document that holds a secret, as a private key: its `Debug` shows no octet. Its memory is not wiped.
#[derive(PartialEq, Eq, Drop)]
pub struct SecretDocument {
    document: Document,
}

impl SecretDocument {
    /// The document of these octets. `Malformed` exactly where they are not one whole SEQUENCE; else `Memory` alone.
    pub fn from_der(alloc: Global, bytes: &[u8]) -> Result<SecretDocument, Error>
        ensures { MatchResult result (λ d. d.document.octets ≡ bytes.now)
            (λ e. ((e ≡ Memory) × IsSequence bytes.now)
            ⊎ ((e ≡ Malformed) × (¬ (IsSequence bytes.now)))) }
    {
        let document = Document::from_der(alloc, bytes)?;
        Ok(SecretDocument { document })
    }

    /// The text of a value. `Malformed` exactly where the value has none or it is not a SEQUENCE, `Overlength` only where it would
    /// have more than 2^32 - 1 octets, and `Memory`.
    pub fn encode_msg<T: Encode>(alloc: Global, v: &T) -> Result<SecretDocument, Error>
        ensures ok { IfOk result (λ d. d.document.octets ≡ T.canon v.now) }
        ensures lawful { OnOk result (T.writable v.now) }
        ensures err { IfErr result
            (λ e. Cause ((¬ (T.writable v.now))
            ⊎ (IsShort (T.canon v.now) × (¬ (IsSequence (T.canon v.now)))))
            (IsOverlong (length (T.canon v.now))) (Unit {0}) None 0 0 0 e) }
    {
        let document = Document::encode_msg(alloc, v)?;
        Ok(SecretDocument { document })
    }

    /// The value whose text this is. Refusals are those of `from_der` of the type.
    pub fn decode_msg<'a, T: Decode<&'a [u8]>>(&'a self) -> Result<T, Error>
        ensures { Gives T.seen result (whole T.at self.now.document.octets) }
    {
        self.document.decode_msg()
    }

    /// The octets, which are one whole SEQUENCE.
    pub fn as_bytes(&self) -> &[u8]
        ensures value { result.now ≡ self.now.document.octets }
        ensures sequence { IsSequence self.now.document.octets }
    {
        self.document.as_bytes()
    }

    /// The document in this file. `File` where a call on the file failed, `Overlength` where it has more than 2^32 - 1 octets,
    /// else `Malformed` where it is not one whole SEQUENCE; and `Memory`.
    pub fn read_der_file<R: Files>(
        rt: &R,
        alloc: Global,
        path: &str,
    ) -> Result<SecretDocument, Error>
        ensures { IfErr result (λ e. (e ≡ File) ⊎ (e ≡ Overlength) ⊎ (e ≡ Malformed)
            ⊎ (e ≡ Memory)) }
    {
        let document = Document::read_der_file(rt, alloc, path)?;
        Ok(SecretDocument { document })
    }

    /// Writes the octets into this file, which is made where it is missing, and cut before where it is not. The only refusal is
    /// `File`, where a call on the file failed.
    pub fn write_der_file<R: Files>(&self, rt: &R, path: &str) -> Result<(), Error>
        ensures { IfErr result (λ e. e ≡ File) }
    {
        self.document.write_der_file(rt, path)
    }

    /// An equal value in memory of its own. The only refusal is `Memory`.
    pub fn try_clone(&self, alloc: Global) -> Result<SecretDocument, Error>
        ensures ok { IfOk result (λ d. d.document.octets ≡ self.now.document.octets) }
        ensures err { IfErr result (λ e. e ≡ Memory) }
    {
        let document = self.document.try_clone(alloc)?;
        Ok(SecretDocument { document })
    }
}

impl fmt::Debug for SecretDocument {
    fn fmt<W: fmt::Write>(&self, f: &mut fmt::Formatter<W>) -> fmt::Result {
        f.debug_struct("SecretDocument").finish()
    }
}
