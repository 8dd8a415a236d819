//! The certificates of a file.
use crate::not_pem::{malformed, unread, without};
use asn1_core::Octets;
use pem_stores::{CertificateRefusal, certificates_in};
use pem_text::blocks_of;
use pkcs12_opening::{Ending, Failure};
use std::alloc::{AllocError, Global};
use terminal_text::Printable;
use transfer::TransferError;

const PLAIN_CERTIFICATE: &str = "\
OpenSSL writes the certificate alone:
    openssl x509 -in CERT.pem -out NEW.pem";

const LOOK_AT_CERTIFICATE: &str = "\
OpenSSL says what is wrong with it:
    openssl x509 -in CERT.pem -noout -text";

/// The failure of the certificates in the file at this path.
fn certificate_failure(
    alloc: Global,
    path: &str,
    octets: &[u8],
    refusal: CertificateRefusal,
) -> Failure {
    let shown = Printable(path);
    match refusal {
        CertificateRefusal::NoCertificate => without(alloc, path, "certificate", octets),
        CertificateRefusal::Trusted => {
            let text = format!(in alloc;
                "{shown} has a TRUSTED CERTIFICATE, which carries more than a certificate"
            );
            Failure::told(Ending::Refused(TransferError::Unsupported), text).advised(
                PLAIN_CERTIFICATE,
            )
        }
        CertificateRefusal::Malformed => {
            malformed(format!(in alloc;
                "what {shown} has as a certificate is no X.509 certificate"
            )).advised(LOOK_AT_CERTIFICATE)
        }
        CertificateRefusal::Memory => Failure::from(AllocError),
    }
}

/// The certificates of a PEM file, which was read from this path, in order.
pub(crate) fn certificates_of_file(
    alloc: Global,
    path: &str,
    text: &[u8],
) -> Result<Vec<Octets>, Failure> {
    let blocks = match blocks_of(alloc, text) {
        Ok(blocks) => blocks,
        Err(error) => return Err(unread(alloc, path, text, &error)),
    };
    match certificates_in(alloc, blocks.as_slice()) {
        Ok(certificates) => Ok(certificates),
        Err(refusal) => Err(certificate_failure(alloc, path, text, refusal)),
    }
}
