//! A digest and its algorithm.
ghost use Rattle.std.specs.Prelude.{◌+◌, ◌≡◌, ◌<◌, length, OnOk, IfOk, IfErr};
ghost use Rattle.asn1_core.specs.Gives.{ReadsAs};
ghost use Rattle.p12.specs.DigestInfo.{DigestText};
ghost use Rattle.p12.specs.MacView.{seen_digest};
ghost use Rattle.p12.specs.Error.{Reads};
ghost use Rattle.asn1_core.specs.declared.error.Error.TheVariants as asn1;
ghost use Rattle.p12.specs.Reading.{digest_at};
ghost use Rattle.asn1_core.specs.Der.{IsShort};
ghost use Rattle.p12.specs.Canonical.{WritableDigest, digest_canon};
ghost use Rattle.p12.specs.Writing.{WritesText};

use crate::algorithm_identifier::{AlgorithmIdentifier, AlgorithmView, algorithm_view};
use crate::error::Error;
use crate::writing::write_row;
use asn1_core::{Octets, Reader, SliceReader, Tag, Writer, read_inner};
use std::alloc::Global;

/// A digest and the algorithm that made it (RFC 2315 section 9.4).
///
/// ```text
/// DigestInfo ::= SEQUENCE { digestAlgorithm AlgorithmIdentifier, digest OCTET STRING }
/// ```
#[derive(Debug, Drop)]
pub struct DigestInfo {
    pub digest_algorithm: AlgorithmIdentifier,
    pub digest: Octets,
}

/// A digest and the algorithm that made it, which lends them.
#[derive(Clone, Copy, Drop)]
pub(crate) struct DigestView<'a> {
    pub(crate) algorithm: AlgorithmView<'a>,
    pub(crate) digest: &'a [u8],
}

#[tactic(auto, unfolding(crate::specs::Reading::digest_at))]
pub(crate) fn digest_view<'a>(r: &mut SliceReader<'a>) -> Result<DigestView<'a>, asn1_core::Error>
    ensures exact { ReadsAs digest_at seen_digest r.old.rest.now r.new.rest.now result }
    ensures place { r.new.read + length r.new.rest.now ≡ r.old.read + length r.old.rest.now }
{
    let mut ahead = *r;
    let mut body = read_inner(&mut ahead, Tag::SEQUENCE)?;
    let algorithm = match algorithm_view(&mut body) {
        Ok(algorithm) => algorithm,
        Err(error) => return Err(error),
    };
    let digest = read_inner(&mut body, Tag::OCTET_STRING)?.rest;
    body.finish()?;
    *r = ahead;
    Ok(DigestView { algorithm, digest })
}

impl<'a> DigestView<'a> {
    /// The same in memory of its own. The only refusal is `Memory`.
    pub(crate) fn owned(&self, alloc: Global) -> Result<DigestInfo, asn1_core::Error>
        ensures ok { IfOk result (λ d. d ≡ seen_digest self.now) }
        ensures err { IfErr result (λ e. e ≡ asn1.Memory) }
    {
        Ok(DigestInfo {
            digest: Octets::from_slice(alloc, self.digest)?,
            digest_algorithm: self.algorithm.owned(alloc)?,
        })
    }
}

impl DigestInfo {
    /// The digest that comes next. `Malformed` exactly where none does; the other refusal is `Memory`. A refusal does
    /// not move the reader.
    pub fn parse(alloc: Global, r: &mut SliceReader<'_>) -> Result<DigestInfo, Error>
        ensures stands { Reads DigestText r.old.rest.now r.new.rest.now result }
        ensures place { r.new.read + length r.new.rest.now ≡ r.old.read + length r.old.rest.now }
    {
        let mut ahead = *r;
        let view = match digest_view(&mut ahead) {
            Ok(view) => view,
            Err(error) => return Err(error.into()),
        };
        let digest = view.owned(alloc)?;
        *r = ahead;
        Ok(digest)
    }
}

impl DigestInfo {
    /// An equal value in memory of its own. The only refusal is `Memory`.
    pub fn try_clone(&self, alloc: Global) -> Result<DigestInfo, Error>
        ensures ok { IfOk result (λ v. v ≡ self.now) }
        ensures err { IfErr result (λ e. e ≡ Error.Memory) }
    {
        Ok(DigestInfo {
            digest: self.digest.try_clone(alloc)?,
            digest_algorithm: self.digest_algorithm.try_clone(alloc)?,
        })
    }
}

impl DigestInfo {
    /// Writes the digest. `Malformed` only where its algorithm cannot be written. `Overlength` only where the text
    /// has more than 2^32 - 1 octets, `Memory` when out of memory, else the writer's refusals; a front of the text was
    /// written then.
    pub fn write<W: Writer>(&self, alloc: Global, w: &mut W) -> Result<(), asn1_core::Error>
        ensures writes { WritesText W.sink (WritableDigest self.now)
            (digest_canon self.now) w.old result w.new }
        ensures short { OnOk result (IsShort (digest_canon self.now)) }
        ensures lawful { OnOk result (WritableDigest self.now) }
    {
        write_row(self, alloc, w)
    }
}
