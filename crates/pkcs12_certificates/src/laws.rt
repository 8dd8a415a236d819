//! A law of what `list` reads: the contract of a function that does nothing.
ghost use Rattle.pkcs12_certificates.specs.Certificates.{CertificatesHaveParts};

/// Of each certificate that the table of `inventory` takes the parts are read, so `x509_names::Parts::read` refuses none of
/// these, and the names that `list` prints are those of the table.
#[tactic(auto, using(crate::proofs::CertificateParts::parts_there))]
pub fn certificates_have_parts()
    ensures { CertificatesHaveParts }
{}
