//! What was made of a store, as PEM text.
ghost use Rattle.std.specs.Prelude.{◌≡◌, ◌++◌, IfOk, IfErr, OnOk};
ghost use Rattle.std.specs.List.{flat_map};
ghost use Rattle.pem_text.specs.Pem.{pem};
ghost use Rattle.p12.specs.Collected.{at_most_one, certificates_among};
ghost use Rattle.p12.specs.SafeBag.{x509_of};
ghost use Rattle.transfer.specs.Opening.{all_certificates};
ghost use Rattle.pkcs12_c.specs.PemText.{certificate_texts, opened_text, pem_text};

use asn1_core::{Error, Items, Octets};
use p12::{CertBag, SafeBag, SafeBagKind};
use pem_text::pem_of;
use std::alloc::Global;

/// The label of a certificate (RFC 7468 section 5).
const CERTIFICATE: &str = "CERTIFICATE";

/// The label of a private key (RFC 7468 section 10).
const KEY: &str = "PRIVATE KEY";

/// The label of a sealed private key (RFC 7468 section 11).
const SEALED_KEY: &str = "ENCRYPTED PRIVATE KEY";

/// Adds the text of these octets.
fn add_text(alloc: Global, label: &str, octets: &[u8], text: &mut Octets) -> Result<(), Error>
    ensures ok { OnOk result (text.new ≡ text.old ++ pem label.now octets.now) }
    ensures err { IfErr result (λ e. e ≡ Error.Memory) }
{
    let lines = pem_of(alloc, label, octets)?;
    text.extend(lines.as_slice())?;
    Ok(())
}

/// Adds a text for each of these octets.
fn add_texts(alloc: Global, label: &str, parts: &[Octets], text: &mut Octets) -> Result<(), Error>
    ensures ok { OnOk result (text.new ≡ text.old ++ flat_map (pem label.now) parts.now) }
    ensures err { IfErr result (λ e. e ≡ Error.Memory) }
{
    for part in parts {
        add_text(alloc, label, part.as_slice(), text)?;
    }
    Ok(())
}

/// Adds the text of the X.509 certificate in the bag, if it has one.
fn add_certificate(alloc: Global, bag: &SafeBag, text: &mut Octets) -> Result<(), Error>
    ensures ok { OnOk result
        (text.new ≡ text.old ++ certificate_texts (at_most_one (x509_of bag.now.bag))) }
    ensures err { IfErr result (λ e. e ≡ Error.Memory) }
{
    match &bag.bag {
        SafeBagKind::CertBag(CertBag::X509(certificate)) => {
            add_text(alloc, CERTIFICATE, certificate.as_slice(), text)
        }
        SafeBagKind::CertBag(CertBag::SDSI(_))
        | SafeBagKind::Pkcs8ShroudedKeyBag(_)
        | SafeBagKind::OtherBagKind(_) => Ok(()),
    }
}

/// Adds a text for each X.509 certificate among the bags.
fn add_certificates(alloc: Global, bags: &[SafeBag], text: &mut Octets) -> Result<(), Error>
    ensures ok { OnOk result
        (text.new ≡ text.old ++ certificate_texts (certificates_among bags.now)) }
    ensures err { IfErr result (λ e. e ≡ Error.Memory) }
{
    for bag in bags {
        add_certificate(alloc, bag, text)?;
    }
    Ok(())
}

/// Adds a text for each X.509 certificate of all contents.
fn add_all_certificates(
    alloc: Global,
    contents: &[Items<SafeBag>],
    text: &mut Octets,
) -> Result<(), Error>
    ensures ok { OnOk result
        (text.new ≡ text.old ++ certificate_texts (all_certificates contents.now)) }
    ensures err { IfErr result (λ e. e ≡ Error.Memory) }
{
    for bags in contents {
        add_certificates(alloc, bags.as_slice(), text)?;
    }
    Ok(())
}

/// A text for each certificate, and then one for each sealed key. The only refusal is `Memory`.
pub fn pem_text_of(
    alloc: Global,
    certificates: &[Octets],
    documents: &[Octets],
) -> Result<Octets, Error>
    ensures ok { IfOk result (λ text. text ≡ pem_text certificates.now documents.now) }
    ensures err { IfErr result (λ e. e ≡ Error.Memory) }
{
    let mut text = Octets::new(alloc);
    add_texts(alloc, CERTIFICATE, certificates, &mut text)?;
    add_texts(alloc, SEALED_KEY, documents, &mut text)?;
    Ok(text)
}

/// A text for each X.509 certificate of all contents, and then one for each private key. The only refusal is `Memory`.
pub fn opened_text_of(
    alloc: Global,
    contents: &[Items<SafeBag>],
    keys: &[Octets],
) -> Result<Octets, Error>
    ensures ok { IfOk result (λ text. text ≡ opened_text contents.now keys.now) }
    ensures err { IfErr result (λ e. e ≡ Error.Memory) }
{
    let mut text = Octets::new(alloc);
    add_all_certificates(alloc, contents, &mut text)?;
    add_texts(alloc, KEY, keys, &mut text)?;
    Ok(text)
}
