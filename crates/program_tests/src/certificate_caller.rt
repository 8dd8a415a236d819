//! A caller of `inventory_core`, as its README shows it: parts of a certificate.
ghost use Rattle.std.specs.Prelude.{◌≡◌, IfOk};
ghost use Rattle.der_core.specs.BitString.{seen_bits};
ghost use Rattle.inventory_core.specs.Certificate.{Certificate, IsCertificate};
ghost use Rattle.spki.specs.Seen.{borrowed_any, seen_public_key};

use asn1_core::Error;
use inventory_core::CertificateView;
use spki::SubjectPublicKeyInfoRef;

/// The names of a certificate, as DER, and its public key.
#[derive(Drop)]
struct Summary<'a> {
    issuer: &'a [u8],
    subject: &'a [u8],
    key: SubjectPublicKeyInfoRef<'a>,
}

/// The names and the key of a certificate.
fn summary_of(certificate: &[u8]) -> Result<Summary<'_>, Error>
    ensures { IfOk result (λ s. (c : Certificate) × IsCertificate certificate.now c
        × (s.issuer.now ≡ c.issuer) × (s.subject.now ≡ c.subject)
        × (seen_public_key borrowed_any (λ b. seen_bits b.unused_bits b.octets.now) s.key
        ≡ c.key)) }
{
    let view = CertificateView::parse(certificate)?;
    Ok(Summary {
        issuer: view.issuer,
        subject: view.subject,
        key: view.spki,
    })
}

/// A certificate whose issuer is 3000 and subject 30020500, under the algorithm 1.3.101.112.
const CERTIFICATE: &[u8] = &[
    0x30, 0x2a, 0x30, 0x1e, 0x02, 0x01, 0x01, 0x30, 0x05, 0x06, 0x03, 0x2b, 0x65, 0x70, 0x30, 0x00,
    0x30, 0x00, 0x30, 0x02, 0x05, 0x00, 0x30, 0x0a, 0x30, 0x05, 0x06, 0x03, 0x2b, 0x65, 0x70, 0x03,
    0x01, 0x00, 0x30, 0x05, 0x06, 0x03, 0x2b, 0x65, 0x70, 0x03, 0x01, 0x00,
];

/// The SHA-256 digest of its public key, by Python's `hashlib`.
const DIGEST: &[u8] = &[
    0x31, 0x9f, 0x5c, 0x01, 0x53, 0x6c, 0x53, 0x1f, 0x6d, 0x87, 0xdb, 0x58, 0xac, 0x24, 0x24, 0xc7,
    0x60, 0xb4, 0xd8, 0x1c, 0xeb, 0x29, 0x37, 0xe8, 0x18, 0x1d, 0xa7, 0x5d, 0x7e, 0x49, 0x1a, 0x1b,
];

#[test]
fn parts_of_a_certificate_are_read(rt: HostRuntime) {
    let summary = summary_of(CERTIFICATE).expect(&rt, "a certificate");
    assert!(rt;
        summary.issuer == b"0\0".as_slice() && summary.subject == b"0\x02\x05\0".as_slice()
    );
    let digest = summary.key.fingerprint_bytes().expect(&rt, "a digest");
    assert!(rt; digest.as_slice() == DIGEST);
}
