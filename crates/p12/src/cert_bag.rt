//! Certificate bags.
ghost use Rattle.std.specs.Prelude.{◌+◌, ◌≡◌, ◌<◌, length, true, OnOk, IfOk, IfErr};
ghost use Rattle.asn1_core.specs.Gives.{Gives, ReadsAs};
ghost use Rattle.p12.specs.CertBag.{CertBagText};
ghost use Rattle.asn1_core.specs.Unicode.{ia5_at, is_ascii_text};
ghost use Rattle.p12.specs.BagView.{IsCert, seen_cert};
ghost use Rattle.asn1_core.specs.declared.error.Error.TheVariants as asn1;
ghost use Rattle.p12.specs.Error.{Reads};
ghost use Rattle.p12.specs.Reading.{x509_all, sdsi_all, cert_bag_all, cert_bag_at};
ghost use Rattle.asn1_core.specs.Der.{IsShort};
ghost use Rattle.p12.specs.Canonical.{WritableCertBag, cert_bag_canon};
ghost use Rattle.p12.specs.Writing.{WritesText};

use crate::error::Error;
use crate::identifiers::{SDSI_CERTIFICATE, X509_CERTIFICATE};
use crate::writing::write_row;
use asn1_core::{
    ObjectIdentifier, Octets, Reader, SliceReader, Tag, Text, Writer, read_identifier, read_inner,
};
use std::alloc::Global;

/// A certificate (RFC 7292 section 4.2.3): the DER of an X.509 certificate, or the Base64 text of an SDSI one.
///
/// ```text
/// CertBag ::= SEQUENCE { certId OBJECT IDENTIFIER, certValue [0] EXPLICIT OCTET STRING or IA5String }
/// ```
#[derive(Debug, Drop)]
pub enum CertBag {
    X509(Octets),
    SDSI(Text),
}

/// A certificate, which lends its octets.
#[derive(Clone, Copy, Drop)]
pub(crate) enum CertView<'a> {
    X509(&'a [u8]),
    Sdsi(&'a [u8]),
}

fn are_ascii(octets: &[u8]) -> bool
    ensures { result ≡ is_ascii_text octets.now }
{
    for octet in octets {
        if *octet > 127 {
            return false;
        }
    }
    true
}

/// The octets of an IA5String.
#[tactic(auto, unfolding(asn1_core::specs::Unicode::ia5_at))]
fn ia5_octets<'a>(r: &mut SliceReader<'a>) -> Result<&'a [u8], asn1_core::Error>
    ensures exact { ReadsAs ia5_at (λ x. x.now) r.old.rest.now r.new.rest.now result }
    ensures ascii { IfOk result (λ x. is_ascii_text x.now ≡ true) }
{
    let mut ahead = *r;
    let value = read_inner(&mut ahead, Tag::IA5_STRING)?;
    if !are_ascii(value.rest) {
        return Err(asn1_core::Error::Malformed);
    }
    *r = ahead;
    Ok(value.rest)
}

fn x509_view<'a>(mut body: SliceReader<'a>) -> Result<CertView<'a>, asn1_core::Error>
    ensures exact { Gives seen_cert result (x509_all body.entry.rest.now) }
    ensures lawful { IfOk result IsCert }
{
    let mut explicit = read_inner(&mut body, Tag::CONTEXT_0)?;
    let value = read_inner(&mut explicit, Tag::OCTET_STRING)?;
    explicit.finish()?;
    body.finish()?;
    Ok(CertView::X509(value.rest))
}

fn sdsi_view<'a>(mut body: SliceReader<'a>) -> Result<CertView<'a>, asn1_core::Error>
    ensures exact { Gives seen_cert result (sdsi_all body.entry.rest.now) }
    ensures lawful { IfOk result IsCert }
{
    let mut explicit = read_inner(&mut body, Tag::CONTEXT_0)?;
    let text = ia5_octets(&mut explicit)?;
    explicit.finish()?;
    body.finish()?;
    Ok(CertView::Sdsi(text))
}

fn view_of<'a>(
    certificate_type: ObjectIdentifier,
    body: SliceReader<'a>,
) -> Result<CertView<'a>, asn1_core::Error>
    ensures exact { Gives seen_cert result (cert_bag_all certificate_type body.entry.rest.now) }
    ensures lawful { IfOk result IsCert }
{
    if certificate_type == X509_CERTIFICATE {
        x509_view(body)
    } else if certificate_type == SDSI_CERTIFICATE {
        sdsi_view(body)
    } else {
        Err(asn1_core::Error::Malformed)
    }
}

#[tactic(auto, unfolding(crate::specs::Reading::cert_bag_at))]
pub(crate) fn certificate_view<'a>(
    r: &mut SliceReader<'a>,
) -> Result<CertView<'a>, asn1_core::Error>
    ensures exact { ReadsAs cert_bag_at seen_cert r.old.rest.now r.new.rest.now result }
    ensures lawful { IfOk result IsCert }
    ensures place { r.new.read + length r.new.rest.now ≡ r.old.read + length r.old.rest.now }
{
    let mut ahead = *r;
    let mut body = read_inner(&mut ahead, Tag::SEQUENCE)?;
    let certificate_type = read_identifier(&mut body)?;
    let certificate = view_of(certificate_type, body)?;
    *r = ahead;
    Ok(certificate)
}

/// A text of ASCII characters in memory of its own.
#[tactic(auto, using(crate::proofs::Characters::ascii_text))]
fn ascii(alloc: Global, text: &[u8]) -> Result<Text, asn1_core::Error>
    requires { is_ascii_text text.now ≡ true }
    ensures ok { IfOk result (λ t. t ≡ text.now) }
    ensures err { IfErr result (λ e. e ≡ asn1.Memory) }
{
    Ok(Text::from_string(String::from_utf8_lossy(alloc, text)?))
}

impl<'a> CertView<'a> {
    /// The same in memory of its own. The only refusal is `Memory`.
    pub(crate) fn owned(&self, alloc: Global) -> Result<CertBag, asn1_core::Error>
        requires { IsCert self.now }
        ensures ok { IfOk result (λ c. c ≡ seen_cert self.now) }
        ensures err { IfErr result (λ e. e ≡ asn1.Memory) }
    {
        Ok(match self {
            CertView::X509(octets) => CertBag::X509(Octets::from_slice(alloc, octets)?),
            CertView::Sdsi(text) => CertBag::SDSI(ascii(alloc, text)?),
        })
    }
}

impl CertBag {
    /// The certificate that comes next. `Malformed` exactly where none does; the other refusal is `Memory`. A refusal does
    /// not move the reader.
    pub fn parse(alloc: Global, r: &mut SliceReader<'_>) -> Result<CertBag, Error>
        ensures stands { Reads CertBagText r.old.rest.now r.new.rest.now result }
        ensures place { r.new.read + length r.new.rest.now ≡ r.old.read + length r.old.rest.now }
    {
        let mut ahead = *r;
        let view = certificate_view(&mut ahead)?;
        let certificate = view.owned(alloc)?;
        *r = ahead;
        Ok(certificate)
    }
}

impl CertBag {
    /// An equal value in memory of its own. The only refusal is `Memory`.
    pub fn try_clone(&self, alloc: Global) -> Result<CertBag, Error>
        ensures ok { IfOk result (λ v. v ≡ self.now) }
        ensures err { IfErr result (λ e. e ≡ Error.Memory) }
    {
        Ok(match self {
            CertBag::X509(octets) => CertBag::X509(octets.try_clone(alloc)?),
            CertBag::SDSI(text) => CertBag::SDSI(text.try_clone(alloc)?),
        })
    }
}

impl CertBag {
    /// Writes the certificate. `Malformed` only where the text of an SDSI certificate has a character over 127.
    /// `Overlength` only where the text has more than 2^32 - 1 octets, `Memory` when out of memory, else the writer's
    /// refusals; a front of the text was written then.
    pub fn write<W: Writer>(&self, alloc: Global, w: &mut W) -> Result<(), asn1_core::Error>
        ensures writes { WritesText W.sink (WritableCertBag self.now)
            (cert_bag_canon self.now) w.old result w.new }
        ensures short { OnOk result (IsShort (cert_bag_canon self.now)) }
        ensures lawful { OnOk result (WritableCertBag self.now) }
    {
        write_row(self, alloc, w)
    }
}
