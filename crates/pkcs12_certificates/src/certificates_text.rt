//! What `list` says, as text.
use crate::chain::is_whole;
use crate::listed::{Certificate, Certificates, Validity, When};
use crate::printed_chains::PrintedChains;
use crate::public_key::PublicKey;
use inventory_core::Parent;
use pkcs12_inspection::{Label, Listing, add_others_text};
use std::alloc::{AllocError, Global};
use std::fmt;
use std::fmt::Write;
use terminal_text::{Hexadecimal, InQuotes, Printable};

/// The most octets of a serial number that are printed.
const MOST_OCTETS: usize = 100;

/// The value octets of a serial number without the one that keeps it from being negative.
fn without_sign(octets: &[u8]) -> &[u8] {
    match octets {
        [0, more @ ..] if !more.is_empty() => more,
        all => all,
    }
}

/// Two digits for each octet.
#[derive(Clone, Copy)]
struct Digits<'a>(&'a [u8]);

impl fmt::Display for Digits<'_> {
    fn fmt<W: fmt::Write>(&self, f: &mut fmt::Formatter<W>) -> fmt::Result {
        for octet in self.0 {
            write!(f, "{octet:02X}")?;
        }
        Ok(())
    }
}

/// The digits of a serial number, given by its value octets.
#[derive(Clone, Copy)]
pub struct SerialNumber<'a>(pub &'a [u8]);

impl fmt::Display for SerialNumber<'_> {
    fn fmt<W: fmt::Write>(&self, f: &mut fmt::Formatter<W>) -> fmt::Result {
        Digits(without_sign(self.0)).fmt(f)
    }
}

/// The octets that are shown.
fn front_of(octets: &[u8]) -> &[u8] {
    if octets.len() <= MOST_OCTETS {
        octets
    } else {
        &octets[..MOST_OCTETS]
    }
}

/// The same for people: the digits of the first 100 octets, and how many octets there are where there are more.
#[derive(Clone, Copy)]
struct ShortSerialNumber<'a>(&'a [u8]);

impl fmt::Display for ShortSerialNumber<'_> {
    fn fmt<W: fmt::Write>(&self, f: &mut fmt::Formatter<W>) -> fmt::Result {
        let octets = without_sign(self.0);
        Digits(front_of(octets)).fmt(f)?;
        if octets.len() <= MOST_OCTETS {
            return Ok(());
        }
        write!(f, ".. ({} octets)", octets.len())
    }
}

/// Adds from when to when a certificate is valid, and whether it is by this machine's clock.
fn add_validity(
    text: &mut String,
    validity: &Validity,
    now: Option<&str>,
) -> Result<(), AllocError> {
    let from = Printable(validity.not_before.as_str());
    let to = Printable(validity.not_after.as_str());
    write!(text, "  valid: {from} to {to}")?;
    if !validity.are_times {
        text.push_str(" (not both are times of the calendar)")?;
    }
    match now.and_then(|now| validity.at(now)) {
        Some(When::Past) => text.push_str(" (past, by this machine's clock)")?,
        Some(When::Early) => text.push_str(" (not yet, by this machine's clock)")?,
        Some(When::Valid) | None => {}
    }
    text.push_str("\n")
}

/// Adds by which certificate of the store a certificate was issued.
fn add_parent(text: &mut String, parent: Parent) -> Result<(), AllocError> {
    match parent {
        Parent::Itself => text.push_str("  issued by: itself\n"),
        Parent::Of(place) => writeln!(text, "  issued by: cert-{place}"),
        Parent::Unknown => text.push_str("  issued by: no certificate of this store\n"),
    }
}

fn add_name(text: &mut String, label: Option<&Label>) -> Result<(), AllocError> {
    match label.and_then(|label| label.friendly_name()) {
        Some(name) => writeln!(text, "  friendly name: {}", InQuotes(name)),
        None => Ok(()),
    }
}

/// Adds what is shown of a certificate.
fn add_certificate(
    text: &mut String,
    certificate: &Certificate<'_>,
    now: Option<&str>,
) -> Result<(), AllocError> {
    writeln!(
        text,
        "  subject: {}",
        Printable(certificate.subject.as_str())
    )?;
    writeln!(text, "  issuer: {}", Printable(certificate.issuer.as_str()))?;
    writeln!(
        text,
        "  serial number: {}",
        ShortSerialNumber(certificate.serial_number)
    )?;
    if let Some(validity) = &certificate.validity {
        add_validity(text, validity, now)?;
    }
    writeln!(
        text,
        "  public key: {}",
        PublicKey::new(certificate.view.spki)
    )?;
    if let Some(digest) = &certificate.key_digest {
        writeln!(text, "  SHA-256 of the public key: {}", Hexadecimal(digest))?;
    }
    writeln!(text, "  SHA-256: {}", Hexadecimal(&certificate.digest))?;
    add_parent(text, certificate.parent)
}

/// Adds the chain of the private key of this number, which begins with the certificate at this place. A chain is printed once.
fn add_chain(
    alloc: Global,
    text: &mut String,
    printed: &mut PrintedChains<'_>,
    key: usize,
    start: Option<usize>,
) -> Result<(), AllocError> {
    let Some(start) = start else {
        return text.push_str("  chain: no certificate of this store has its local key id\n");
    };
    if let Some(before) = printed.note(start, key) {
        return writeln!(text, "  chain: as key-{before}");
    }
    if printed.left == 0 {
        return writeln!(
            text,
            "  chain: cert-{start} and its issuers, which are named above"
        );
    }
    text.push_str("  chain:")?;
    let certificates = printed.certificates;
    let chain = certificates.chain_from(alloc, start)?;
    printed.left = printed.left.saturating_sub(chain.len());
    for place in chain.as_slice() {
        write!(text, " cert-{place}")?;
    }
    if is_whole(certificates.views(), chain.as_slice()) {
        return text.push_str("\n");
    }
    match chain.as_slice().last() {
        Some(last) if certificates.has_issuer(*last) => {
            text.push_str(" (the issuer of the last is one of these: the chain has no end)\n")
        }
        _ => text.push_str(" (the issuer of the last is not in this store)\n"),
    }
}

/// The certificates of a store with what they say, its private keys with their chains, and the kinds of what else it holds.
pub fn listed_text(
    alloc: Global,
    certificates: &Certificates<'_>,
    labels: &Listing,
    now: Option<&str>,
) -> Result<String, AllocError> {
    let mut text = String::new(alloc);
    for place in 0..certificates.views().len() {
        writeln!(text, "cert-{place}")?;
        match certificates.get(alloc, place)? {
            Some(certificate) => add_certificate(&mut text, &certificate, now)?,
            None => text.push_str("  no X.509 certificate\n")?,
        }
        add_name(&mut text, labels.certificates.get(place))?;
    }
    let pairs = labels.pairs(alloc)?;
    let mut printed = PrintedChains::new(alloc, certificates)?;
    for (place, label) in labels.keys.as_slice().iter().enumerate() {
        writeln!(text, "key-{place}")?;
        add_name(&mut text, Some(label))?;
        let start = pairs.get(place).copied().unwrap_or(None);
        add_chain(alloc, &mut text, &mut printed, place, start)?;
    }
    add_others_text(alloc, &mut text, "not listed", labels.others.as_slice())?;
    Ok(text)
}
