//! Parameters of password-based schemes.
ghost use Rattle.std.specs.Prelude.{◌+◌, ◌≡◌, length, IfOk, IfErr, OnOk};
ghost use Rattle.asn1_core.specs.Gives.{ReadsAs};
ghost use Rattle.asn1_core.specs.declared.error.Error.TheVariants as asn1;
ghost use Rattle.p12.specs.AlgorithmIdentifier.{ParamsText};
ghost use Rattle.p12.specs.AlgorithmView.{seen_params};
ghost use Rattle.p12.specs.Error.{Reads};
ghost use Rattle.p12.specs.Reading.{params_at};
ghost use Rattle.asn1_core.specs.Der.{IsShort};
ghost use Rattle.p12.specs.Canonical.{params_canon};
ghost use Rattle.p12.specs.Writing.{WritesText};

use crate::error::Error;
use crate::writing::write_row;
use asn1_core::{Octets, Reader, SliceReader, Tag, Writer, read_inner, read_uint};
use std::alloc::Global;

/// The parameters of a password-based scheme (RFC 7292 appendix C): the salt, and how many rounds derive its key.
///
/// ```text
/// pkcs-12PbeParams ::= SEQUENCE { salt OCTET STRING, iterations INTEGER }
/// ```
#[derive(Debug, PartialEq, Eq, Drop)]
pub struct Pkcs12PbeParams {
    pub salt: Octets,
    pub iterations: u64,
}

/// The parameters of a password-based scheme, which lend the salt.
#[derive(Clone, Copy, Drop)]
pub(crate) struct ParamsView<'a> {
    pub(crate) salt: &'a [u8],
    pub(crate) iterations: u64,
}

#[tactic(auto, unfolding(crate::specs::Reading::params_at))]
pub(crate) fn params_view<'a>(r: &mut SliceReader<'a>) -> Result<ParamsView<'a>, asn1_core::Error>
    ensures exact { ReadsAs params_at seen_params r.old.rest.now r.new.rest.now result }
    ensures place { r.new.read + length r.new.rest.now ≡ r.old.read + length r.old.rest.now }
{
    let mut ahead = *r;
    let mut body = read_inner(&mut ahead, Tag::SEQUENCE)?;
    let salt = read_inner(&mut body, Tag::OCTET_STRING)?.rest;
    let iterations = read_uint(&mut body, u64::MAX)?;
    body.finish()?;
    *r = ahead;
    Ok(ParamsView { salt, iterations })
}

impl<'a> ParamsView<'a> {
    pub(crate) fn owned(&self, alloc: Global) -> Result<Pkcs12PbeParams, asn1_core::Error>
        ensures ok { IfOk result (λ p. p ≡ seen_params self.now) }
        ensures err { IfErr result (λ e. e ≡ asn1.Memory) }
    {
        Ok(Pkcs12PbeParams {
            salt: Octets::from_slice(alloc, self.salt)?,
            iterations: self.iterations,
        })
    }
}

impl Pkcs12PbeParams {
    /// The parameters that come next. `Malformed` exactly where none do; the other refusal is `Memory`. A refusal does
    /// not move the reader.
    pub fn parse(alloc: Global, r: &mut SliceReader<'_>) -> Result<Pkcs12PbeParams, Error>
        ensures stands { Reads ParamsText r.old.rest.now r.new.rest.now result }
        ensures place { r.new.read + length r.new.rest.now ≡ r.old.read + length r.old.rest.now }
    {
        let mut ahead = *r;
        let view = params_view(&mut ahead)?;
        let params = view.owned(alloc)?;
        *r = ahead;
        Ok(params)
    }

    /// An equal value in memory of its own. The only refusal is `Memory`.
    pub fn try_clone(&self, alloc: Global) -> Result<Pkcs12PbeParams, Error>
        ensures ok { IfOk result (λ v. v ≡ self.now) }
        ensures err { IfErr result (λ e. e ≡ Error.Memory) }
    {
        Ok(Pkcs12PbeParams {
            salt: self.salt.try_clone(alloc)?,
            iterations: self.iterations,
        })
    }
}

impl Pkcs12PbeParams {
    /// Writes the parameters. `Overlength` only where the text has more than 2^32 - 1 octets, `Memory` when out of
    /// memory, else the writer's refusals; a front of the text was written then.
    pub fn write<W: Writer>(&self, alloc: Global, w: &mut W) -> Result<(), asn1_core::Error>
        ensures writes { WritesText W.sink (Unit {0}) (params_canon self.now) w.old result w.new }
        ensures short { OnOk result (IsShort (params_canon self.now)) }
    {
        write_row(self, alloc, w)
    }
}
