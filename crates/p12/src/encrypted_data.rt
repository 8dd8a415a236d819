//! Encrypted contents.
ghost use Rattle.std.specs.Prelude.{◌+◌, ◌≡◌, ◌<◌, ◌^◌, length, OnOk, IfOk, IfErr, ◌≤◌, All};
ghost use Rattle.std.specs.Result.{IsErrOf};
ghost use Rattle.asn1_core.specs.Gives.{ReadsAs};
ghost use Rattle.p12.specs.EncryptedData.{EncryptedContentText, EncryptedDataText};
ghost use Rattle.p12.specs.ContentView.{seen_encrypted, seen_encrypted_data};
ghost use Rattle.p12.specs.Error.{Reads};
ghost use Rattle.asn1_core.specs.declared.error.Error.TheVariants as asn1;
ghost use Rattle.p12.specs.Reading.{encrypted_content_at, encrypted_data_at};
ghost use Rattle.p12.specs.AlgorithmIdentifier.{salt_of, unlock_pbe};
ghost use Rattle.asn1_core.specs.Der.{IsShort};
ghost use Rattle.p12.specs.Canonical.{WritableEncryptedContent, encrypted_content_canon, WritableEncryptedData, encrypted_data_canon, WritableBag, bags_canon};
ghost use Rattle.p12.specs.Writing.{EncodesText, WritesText};
ghost use Rattle.p12.specs.Building.{DrawsSalt, IsTooLong, RefusesDrawn, SealsBags};

use crate::algorithm_identifier::{AlgorithmIdentifier, AlgorithmView, algorithm_view};
use crate::building::{draw_salt, seal_bags};
use crate::error::Error;
use crate::identifiers::DATA;
use crate::safe_bag::SafeBag;
use crate::writing::{der_of, write_row};
use asn1_core::{Octets, Reader, SliceReader, Tag, Writer, read_identifier, read_inner, read_uint};
use mac_modes::Draw;
use std::alloc::Global;

/// Octets that are encrypted, and how (RFC 5652 section 6.1). Their kind is always id-data.
///
/// ```text
/// EncryptedContentInfo ::= SEQUENCE { contentType id-data, contentEncryptionAlgorithm AlgorithmIdentifier,
///     encryptedContent [0] IMPLICIT OCTET STRING }
/// ```
#[derive(Debug, Drop)]
pub struct EncryptedContentInfo {
    pub content_encryption_algorithm: AlgorithmIdentifier,
    pub encrypted_content: Octets,
}

/// An encrypted content of version 0 (RFC 5652 section 8).
///
/// ```text
/// EncryptedData ::= SEQUENCE { version INTEGER (0), encryptedContentInfo EncryptedContentInfo }
/// ```
#[derive(Debug, Drop)]
pub struct EncryptedData {
    pub encrypted_content_info: EncryptedContentInfo,
}

/// Octets that are encrypted, and how, which lends them.
#[derive(Clone, Copy, Drop)]
pub(crate) struct EncryptedView<'a> {
    pub(crate) algorithm: AlgorithmView<'a>,
    pub(crate) content: &'a [u8],
}

#[tactic(auto, unfolding(crate::specs::Reading::encrypted_content_at))]
fn encrypted_content_view<'a>(
    r: &mut SliceReader<'a>,
) -> Result<EncryptedView<'a>, asn1_core::Error>
    ensures exact { ReadsAs encrypted_content_at seen_encrypted r.old.rest.now
        r.new.rest.now result }
    ensures place { r.new.read + length r.new.rest.now ≡ r.old.read + length r.old.rest.now }
{
    let mut ahead = *r;
    let mut body = read_inner(&mut ahead, Tag::SEQUENCE)?;
    if read_identifier(&mut body)? != DATA {
        return Err(asn1_core::Error::Malformed);
    }
    let algorithm = match algorithm_view(&mut body) {
        Ok(algorithm) => algorithm,
        Err(error) => return Err(error),
    };
    let content = read_inner(&mut body, Tag::PRIMITIVE_CONTEXT_0)?.rest;
    body.finish()?;
    *r = ahead;
    Ok(EncryptedView { algorithm, content })
}

#[tactic(auto, unfolding(crate::specs::Reading::encrypted_data_at))]
pub(crate) fn encrypted_data_view<'a>(
    r: &mut SliceReader<'a>,
) -> Result<EncryptedView<'a>, asn1_core::Error>
    ensures exact { ReadsAs encrypted_data_at seen_encrypted_data r.old.rest.now
        r.new.rest.now result }
    ensures place { r.new.read + length r.new.rest.now ≡ r.old.read + length r.old.rest.now }
{
    let mut ahead = *r;
    let mut body = read_inner(&mut ahead, Tag::SEQUENCE)?;
    if read_uint(&mut body, 0xff)? != 0 {
        return Err(asn1_core::Error::Malformed);
    }
    let encrypted = match encrypted_content_view(&mut body) {
        Ok(encrypted) => encrypted,
        Err(error) => return Err(error),
    };
    body.finish()?;
    *r = ahead;
    Ok(encrypted)
}

impl<'a> EncryptedView<'a> {
    /// The same in memory of its own. The only refusal is `Memory`.
    fn owned(&self, alloc: Global) -> Result<EncryptedContentInfo, asn1_core::Error>
        ensures ok { IfOk result (λ e. e ≡ seen_encrypted self.now) }
        ensures err { IfErr result (λ e. e ≡ asn1.Memory) }
    {
        Ok(EncryptedContentInfo {
            encrypted_content: Octets::from_slice(alloc, self.content)?,
            content_encryption_algorithm: self.algorithm.owned(alloc)?,
        })
    }
}

impl EncryptedContentInfo {
    /// The encrypted octets that come next. `Malformed` exactly where none do; the other refusal is `Memory`. A refusal does
    /// not move the reader.
    pub fn parse(alloc: Global, r: &mut SliceReader<'_>) -> Result<EncryptedContentInfo, Error>
        ensures stands { Reads EncryptedContentText r.old.rest.now r.new.rest.now result }
        ensures place { r.new.read + length r.new.rest.now ≡ r.old.read + length r.old.rest.now }
    {
        let mut ahead = *r;
        let view = match encrypted_content_view(&mut ahead) {
            Ok(view) => view,
            Err(error) => return Err(error.into()),
        };
        let encrypted = view.owned(alloc)?;
        *r = ahead;
        Ok(encrypted)
    }
}

impl EncryptedData {
    /// The encrypted content that comes next. `Malformed` exactly where none does; the other refusal is `Memory`. A refusal does
    /// not move the reader.
    pub fn parse(alloc: Global, r: &mut SliceReader<'_>) -> Result<EncryptedData, Error>
        ensures stands { Reads EncryptedDataText r.old.rest.now r.new.rest.now result }
        ensures place { r.new.read + length r.new.rest.now ≡ r.old.read + length r.old.rest.now }
    {
        let mut ahead = *r;
        let view = match encrypted_data_view(&mut ahead) {
            Ok(view) => view,
            Err(error) => return Err(error.into()),
        };
        let encrypted_content_info = view.owned(alloc)?;
        *r = ahead;
        Ok(EncryptedData {
            encrypted_content_info,
        })
    }
}

impl EncryptedContentInfo {
    /// An equal value in memory of its own. The only refusal is `Memory`.
    pub fn try_clone(&self, alloc: Global) -> Result<EncryptedContentInfo, Error>
        ensures ok { IfOk result (λ v. v ≡ self.now) }
        ensures err { IfErr result (λ e. e ≡ Error.Memory) }
    {
        Ok(EncryptedContentInfo {
            encrypted_content: self.encrypted_content.try_clone(alloc)?,
            content_encryption_algorithm: self.content_encryption_algorithm.try_clone(alloc)?,
        })
    }
}

impl EncryptedData {
    /// An equal value in memory of its own. The only refusal is `Memory`.
    pub fn try_clone(&self, alloc: Global) -> Result<EncryptedData, Error>
        ensures ok { IfOk result (λ v. v ≡ self.now) }
        ensures err { IfErr result (λ e. e ≡ Error.Memory) }
    {
        Ok(EncryptedData {
            encrypted_content_info: self.encrypted_content_info.try_clone(alloc)?,
        })
    }
}

impl EncryptedContentInfo {
    /// The plain octets under a password, which comes as `bmp_string` gives it; None exactly where `decrypt_pbe` gives none. The
    /// only refusal is `Memory`.
    ///
    /// Caller: the encrypted octets are fewer than 2^32, password and salt fewer than 2^59 each.
    pub fn data(&self, alloc: Global, password: &[u8]) -> Result<Option<Octets>, Error>
        requires content { length self.now.encrypted_content < 2 ^ 32 }
        requires salt { length (salt_of self.now.content_encryption_algorithm) < 2 ^ 59 }
        requires password { length password.now < 2 ^ 59 }
        ensures value { IfOk result
            (λ m. m ≡ unlock_pbe self.now.content_encryption_algorithm password.now
            self.now.encrypted_content) }
        ensures err { IfErr result (λ e. e ≡ Error.Memory) }
    {
        let algorithm = &self.content_encryption_algorithm;
        algorithm.decrypt_pbe(alloc, self.encrypted_content.as_slice(), password)
    }
}

impl EncryptedData {
    /// The plain octets of the one content, as `EncryptedContentInfo::data` gives them.
    ///
    /// Caller: the encrypted octets are fewer than 2^32, password and salt fewer than 2^59 each.
    pub fn data(&self, alloc: Global, password: &[u8]) -> Result<Option<Octets>, Error>
        requires content { length self.now.encrypted_content_info.encrypted_content < 2 ^ 32 }
        requires salt { length
            (salt_of self.now.encrypted_content_info.content_encryption_algorithm) < 2 ^ 59 }
        requires password { length password.now < 2 ^ 59 }
        ensures value { let e = self.now.encrypted_content_info in
            IfOk result (λ m. m ≡ unlock_pbe e.content_encryption_algorithm password.now
            e.encrypted_content) }
        ensures err { IfErr result (λ e. e ≡ Error.Memory) }
    {
        self.encrypted_content_info.data(alloc, password)
    }
}

impl EncryptedContentInfo {
    /// Writes the encrypted octets and their algorithm. `Malformed` only where the algorithm cannot be written.
    /// `Overlength` only where the text has more than 2^32 - 1 octets, `Memory` when out of memory, else the writer's
    /// refusals; a front of the text was written then.
    pub fn write<W: Writer>(&self, alloc: Global, w: &mut W) -> Result<(), asn1_core::Error>
        ensures writes { WritesText W.sink (WritableEncryptedContent self.now)
            (encrypted_content_canon self.now) w.old result w.new }
        ensures short { OnOk result (IsShort (encrypted_content_canon self.now)) }
        ensures lawful { OnOk result (WritableEncryptedContent self.now) }
    {
        write_row(self, alloc, w)
    }

    /// The text that `write` writes, in memory of its own. `Malformed` as there, `TooLong` only where it has more than
    /// 2^32 - 1 octets, and `Memory`.
    pub fn to_der(&self, alloc: Global) -> Result<Octets, Error>
        ensures { EncodesText (WritableEncryptedContent self.now)
            (encrypted_content_canon self.now) result }
    {
        der_of(self, alloc)
    }
}

impl EncryptedData {
    /// Writes the encrypted content. `Malformed` only where its algorithm cannot be written. `Overlength` only where
    /// the text has more than 2^32 - 1 octets, `Memory` when out of memory, else the writer's refusals; a front of the
    /// text was written then.
    pub fn write<W: Writer>(&self, alloc: Global, w: &mut W) -> Result<(), asn1_core::Error>
        ensures writes { WritesText W.sink (WritableEncryptedData self.now)
            (encrypted_data_canon self.now) w.old result w.new }
        ensures short { OnOk result (IsShort (encrypted_data_canon self.now)) }
        ensures lawful { OnOk result (WritableEncryptedData self.now) }
    {
        write_row(self, alloc, w)
    }
}

impl EncryptedContentInfo {
    /// The text that lists bags (SafeContents, RFC 7292 section 4.2), encrypted under Triple DES in 2,048 rounds, with
    /// the next 8 octets of the draw as its salt.
    ///
    /// `Rng` exactly where the draw fails: over one that tells its octets, where fewer than 8 remain. Then `Malformed`
    /// where a bag cannot be written, and `TooLong` where the ciphertext would have more than 2^32 - 1 octets; where
    /// both hold it may be either. The other refusal is `Memory`.
    ///
    /// Caller: a password, as `bmp_string` gives it, of fewer than 2^59 octets.
    pub fn from_safe_bags<D: Draw>(
        alloc: Global,
        safe_bags: &[SafeBag],
        password: &[u8],
        draw: &mut D,
    ) -> Result<EncryptedContentInfo, Error>
        requires { length password.now < 2 ^ 59 }
        ensures ok { IfOk result (λ e. DrawsSalt (D.left draw.old) (D.left draw.new)
            (λ salt. SealsBags password.now safe_bags.now salt e)) }
        ensures lawful { OnOk result (All WritableBag safe_bags.now) }
        ensures fitting { OnOk result (¬ (IsTooLong (bags_canon safe_bags.now))) }
        ensures err { IfErr result (RefusesDrawn (¬ (All WritableBag safe_bags.now))
            (IsTooLong (bags_canon safe_bags.now))
            (D.faults draw.old) (D.faults draw.new) (D.left draw.old) 8) }
        ensures count { D.faults draw.old ≤ D.faults draw.new }
        ensures no_fault { OnOk result (D.faults draw.new ≡ D.faults draw.old) }
        ensures last { D.faults draw.old < D.faults draw.new → IsErrOf result Error.Rng }
    {
        let salt = draw_salt(draw)?;
        seal_bags(alloc, safe_bags, password, &salt)
    }
}

impl EncryptedData {
    /// An encrypted content of version 0 with what `EncryptedContentInfo::from_safe_bags` gives. Refusals and caller's
    /// conditions as there.
    pub fn from_safe_bags<D: Draw>(
        alloc: Global,
        safe_bags: &[SafeBag],
        password: &[u8],
        draw: &mut D,
    ) -> Result<EncryptedData, Error>
        requires { length password.now < 2 ^ 59 }
        ensures ok { IfOk result (λ e. DrawsSalt (D.left draw.old) (D.left draw.new)
            (λ salt. SealsBags password.now safe_bags.now salt e.encrypted_content_info)) }
        ensures lawful { OnOk result (All WritableBag safe_bags.now) }
        ensures fitting { OnOk result (¬ (IsTooLong (bags_canon safe_bags.now))) }
        ensures err { IfErr result (RefusesDrawn (¬ (All WritableBag safe_bags.now))
            (IsTooLong (bags_canon safe_bags.now))
            (D.faults draw.old) (D.faults draw.new) (D.left draw.old) 8) }
        ensures count { D.faults draw.old ≤ D.faults draw.new }
        ensures no_fault { OnOk result (D.faults draw.new ≡ D.faults draw.old) }
        ensures last { D.faults draw.old < D.faults draw.new → IsErrOf result Error.Rng }
    {
        Ok(EncryptedData {
            encrypted_content_info: EncryptedContentInfo::from_safe_bags(
                alloc, safe_bags, password, draw,
            )?,
        })
    }
}
