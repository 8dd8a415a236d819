//! What `list` says, in JSON (RFC 8259).
use crate::certificates_text::SerialNumber;
use crate::chain::is_whole;
use crate::listed::{Certificate, Certificates, Validity, When};
use crate::public_key::PublicKey;
use inventory_core::Parent;
use pkcs12_inspection::{Listing, add_comma, add_others_json};
use std::alloc::{AllocError, Global};
use std::fmt::Write;
use terminal_text::{JsonHexadecimal, JsonString};

/// The most certificates of chains in all: of the keys after that many the chain is null. Which certificate issued which is told of each.
const MOST_CHAINED: usize = 1_000_000;

/// Adds a member that is a string, or null.
fn add_text(text: &mut String, name: &str, value: Option<&str>) -> Result<(), AllocError> {
    match value {
        Some(value) => write!(text, ", \"{name}\": {}", JsonString(value)),
        None => write!(text, ", \"{name}\": null"),
    }
}

/// Adds a member that is a name of a certificate, or null.
fn add_place(text: &mut String, name: &str, place: Option<usize>) -> Result<(), AllocError> {
    match place {
        Some(place) => write!(text, ", \"{name}\": \"cert-{place}\""),
        None => write!(text, ", \"{name}\": null"),
    }
}

fn add_validity(
    text: &mut String,
    validity: Option<&Validity>,
    now: Option<&str>,
) -> Result<(), AllocError> {
    add_text(
        text,
        "not_before",
        validity.map(|validity| validity.not_before.as_str()),
    )?;
    add_text(
        text,
        "not_after",
        validity.map(|validity| validity.not_after.as_str()),
    )?;
    let when = match (validity, now) {
        (Some(validity), Some(now)) => validity.at(now),
        _ => None,
    };
    match when {
        Some(when) => {
            let is_valid = when == When::Valid;
            write!(text, ", \"is_valid_now\": {is_valid}")
        }
        None => text.push_str(", \"is_valid_now\": null"),
    }
}

fn add_key(text: &mut String, certificate: &Certificate<'_>) -> Result<(), AllocError> {
    let key = PublicKey::new(certificate.view.spki);
    match key.kind() {
        Some(kind) => write!(text, ", \"key\": {}", JsonString(kind))?,
        None => write!(
            text,
            ", \"key\": \"{}\"",
            certificate.view.spki.algorithm.oid
        )?,
    }
    add_text(text, "curve", key.curve())?;
    match key.bits() {
        Some(bits) => write!(text, ", \"bits\": {bits}")?,
        None => text.push_str(", \"bits\": null")?,
    }
    match &certificate.key_digest {
        Some(digest) => write!(text, ", \"key_sha256\": {}", JsonHexadecimal(digest)),
        None => text.push_str(", \"key_sha256\": null"),
    }
}

/// Adds the members of a certificate.
fn add_certificate(
    text: &mut String,
    certificate: &Certificate<'_>,
    now: Option<&str>,
) -> Result<(), AllocError> {
    add_text(text, "subject", Some(certificate.subject.as_str()))?;
    add_text(text, "issuer", Some(certificate.issuer.as_str()))?;
    write!(
        text,
        ", \"serial_number\": \"{}\"",
        SerialNumber(certificate.serial_number)
    )?;
    add_validity(text, certificate.validity.as_ref(), now)?;
    add_key(text, certificate)?;
    write!(
        text,
        ", \"sha256\": {}",
        JsonHexadecimal(&certificate.digest)
    )?;
    let is_own_issuer = certificate.parent == Parent::Itself;
    write!(text, ", \"is_own_issuer\": {is_own_issuer}")?;
    let issued_by = match certificate.parent {
        Parent::Of(place) => Some(place),
        Parent::Itself | Parent::Unknown => None,
    };
    add_place(text, "issued_by", issued_by)
}

fn add_certificates(
    alloc: Global,
    text: &mut String,
    certificates: &Certificates<'_>,
    labels: &Listing,
    now: Option<&str>,
) -> Result<(), AllocError> {
    for place in 0..certificates.views().len() {
        add_comma(text, place)?;
        write!(text, "{{\"name\": \"cert-{place}\"")?;
        let label = labels.certificates.get(place);
        add_text(
            text,
            "friendly_name",
            label.and_then(|label| label.friendly_name()),
        )?;
        match certificates.get(alloc, place)? {
            Some(certificate) => add_certificate(text, &certificate, now)?,
            None => text.push_str(", \"subject\": null")?,
        }
        text.push_str("}")?;
    }
    Ok(())
}

/// Adds the chain that begins with the certificate at this place, and returns how many certificates it has.
fn add_chain(
    alloc: Global,
    text: &mut String,
    certificates: &Certificates<'_>,
    start: usize,
) -> Result<usize, AllocError> {
    let chain = certificates.chain_from(alloc, start)?;
    text.push_str(", \"chain\": [")?;
    for (at, place) in chain.as_slice().iter().enumerate() {
        let comma = if at == 0 { "" } else { ", " };
        write!(text, "{comma}\"cert-{place}\"")?;
    }
    let whole = is_whole(certificates.views(), chain.as_slice());
    write!(text, "], \"is_whole\": {whole}")?;
    Ok(chain.len())
}

/// Adds the private keys, each with its chain.
fn add_private_keys(
    alloc: Global,
    text: &mut String,
    certificates: &Certificates<'_>,
    labels: &Listing,
) -> Result<(), AllocError> {
    let pairs = labels.pairs(alloc)?;
    let mut left = MOST_CHAINED;
    for (place, label) in labels.keys.as_slice().iter().enumerate() {
        add_comma(text, place)?;
        write!(text, "{{\"name\": \"key-{place}\"")?;
        add_text(text, "friendly_name", label.friendly_name())?;
        match pairs.get(place).copied().unwrap_or(None) {
            Some(start) if left > 0 => {
                left = left.saturating_sub(add_chain(alloc, text, certificates, start)?);
            }
            Some(_) => text.push_str(", \"chain\": null, \"is_whole\": null")?,
            None => text.push_str(", \"chain\": [], \"is_whole\": false")?,
        }
        text.push_str("}")?;
    }
    Ok(())
}

/// The certificates and private keys of a store and the kinds of what else it holds, as one object.
pub fn listed_json(
    alloc: Global,
    certificates: &Certificates<'_>,
    labels: &Listing,
    now: Option<&str>,
) -> Result<String, AllocError> {
    let mut text = String::from_str(alloc, "{\n  \"certificates\": [")?;
    add_certificates(alloc, &mut text, certificates, labels, now)?;
    text.push_str("],\n  \"private_keys\": [")?;
    add_private_keys(alloc, &mut text, certificates, labels)?;
    text.push_str("],\n  \"not_listed\": [")?;
    add_others_json(&mut text, labels.others.as_slice())?;
    text.push_str("]\n}\n")?;
    Ok(text)
}
