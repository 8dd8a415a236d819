//! The certificates of a PEM file.
ghost use Rattle.std.specs.Prelude.{◌≡◌, ◌⊎◌, ◌++◌, ◌∷◌, [], IfOk, IfErr, OnOk};
ghost use Rattle.std.specs.List.{list_any};
ghost use Rattle.pem_stores.specs.Certificates.{AreCertificates, IsCertificateText, LacksCertificates, is_certificate_label, is_trusted_block};
ghost use Rattle.asn1_core.specs.Gives.{IsNone};
ghost use Rattle.inventory_core.specs.Certificate.{IsCertificate};
ghost use Rattle.pem_stores.specs.declared.certificates.CertificateRefusal.TheVariants.{Memory};

use asn1_core::Octets;
use inventory_core::CertificateView;
use pem_text::Block;
use std::alloc::{AllocError, Global};

/// Why a file gives no certificates.
#[derive(Clone, Copy, Debug, PartialEq, Eq)]
pub enum CertificateRefusal {
    /// It has none.
    NoCertificate,
    /// One of its certificates carries more than a certificate.
    Trusted,
    /// What it has as a certificate is none.
    Malformed,
    /// There was no memory.
    Memory,
}

impl From<AllocError> for CertificateRefusal {
    ghost from_gives = { λ _ e. e ≡ Memory };

    fn from(_refused: AllocError) -> CertificateRefusal {
        CertificateRefusal::Memory
    }
}

/// Whether a label is that of a certificate.
fn is_certificate_label(label: &[u8]) -> bool
    ensures { result ≡ is_certificate_label label.now }
{
    label == b"CERTIFICATE".as_slice() || label == b"X509 CERTIFICATE".as_slice()
}

/// Whether one of the blocks is a certificate that carries more.
fn has_trusted(blocks: &[Block]) -> bool
    ensures { result ≡ list_any is_trusted_block blocks.now }
{
    blocks.iter().any(|block| block.label.as_slice() == b"TRUSTED CERTIFICATE".as_slice())
}

/// Adds these octets.
fn add_octets(
    alloc: Global,
    certificates: &mut Vec<Octets>,
    octets: &Octets,
) -> Result<(), AllocError>
    ensures { OnOk result (certificates.new.items ≡ certificates.old.items ++ octets.now ∷ []) }
{
    certificates.push(octets.try_clone(alloc)?)?;
    Ok(())
}

/// Adds the certificate of a block.
fn add_certificate(
    alloc: Global,
    certificates: &mut Vec<Octets>,
    block: &Block,
) -> Result<(), CertificateRefusal>
    ensures added { OnOk result
        (certificates.new.items ≡ certificates.old.items ++ block.now.octets ∷ []) }
    ensures is { OnOk result (IsCertificateText block.now.octets) }
    ensures err { IfErr result (λ e. (e ≡ Memory)
        ⊎ ((e ≡ CertificateRefusal.Malformed) × IsNone IsCertificate block.now.octets)) }
{
    match CertificateView::parse(block.octets.as_slice()) {
        Ok(_) => Ok(add_octets(alloc, certificates, &block.octets)?),
        Err(_) => Err(CertificateRefusal::Malformed),
    }
}

/// The certificates of these blocks, in order, of which there is at least one.
pub fn certificates_in(alloc: Global, blocks: &[Block]) -> Result<Vec<Octets>, CertificateRefusal>
    ensures ok { IfOk result (λ v. AreCertificates blocks.now v.items) }
    ensures err { IfErr result (LacksCertificates blocks.now) }
{
    if has_trusted(blocks) {
        return Err(CertificateRefusal::Trusted);
    }
    let mut certificates = Vec::new(alloc);
    for block in blocks {
        if is_certificate_label(block.label.as_slice()) {
            match add_certificate(alloc, &mut certificates, block) {
                Ok(()) => {}
                Err(refusal) => return Err(refusal),
            }
        }
    }
    if certificates.is_empty() {
        return Err(CertificateRefusal::NoCertificate);
    }
    Ok(certificates)
}
