//! What a store holds, as text.
use crate::listing::{Label, Listing};
use crate::other_bag::OtherBag;
use std::alloc::{AllocError, Global};
use std::fmt::Write;

/// The kinds that are counted.
const COUNTED: [OtherBag; 5] = [
    OtherBag::PlainKey,
    OtherBag::Crl,
    OtherBag::Secret,
    OtherBag::Nested,
    OtherBag::SdsiCertificate,
];

/// The most lines that say the same of one certificate or kind of bag after the other.
const MOST_LINES: usize = 20;

/// What is said of a bag that `export` does not write.
const NOT_EXPORTED: &str = "not exported";

/// Adds a line for each certificate that has a name or a key id.
fn add_certificates(text: &mut String, certificates: &[Label]) -> Result<(), AllocError> {
    for (place, label) in certificates.iter().enumerate() {
        if !label.is_empty() {
            writeln!(text, "cert-{place}: {label}")?;
        }
    }
    Ok(())
}

/// Adds the line of a private key that has a name or a key id, with the certificate that it belongs
/// to.
fn add_key(
    text: &mut String,
    place: usize,
    label: &Label,
    pair: Option<usize>,
) -> Result<(), AllocError> {
    match pair {
        Some(certificate) => {
            writeln!(text, "key-{place}: {label}, belongs to cert-{certificate}")
        }
        None if label.is_empty() => Ok(()),
        None => writeln!(text, "key-{place}: {label}"),
    }
}

/// Adds these lines.
fn add_keys(alloc: Global, text: &mut String, found: &Listing) -> Result<(), AllocError> {
    let pairs = found.pairs(alloc)?;
    for (place, label) in found.keys.as_slice().iter().enumerate() {
        let pair = pairs.get(place).copied().unwrap_or(None);
        add_key(text, place, label, pair)?;
    }
    Ok(())
}

/// Adds a line for what is exported as a certificate and is none, and one for how many more there are.
fn add_no_certificates(text: &mut String, certificates: &[Label]) -> Result<(), AllocError> {
    let places = certificates.iter().enumerate();
    for (place, label) in places
        .filter(|each| each.1.is_no_certificate())
        .take(MOST_LINES)
    {
        writeln!(text, "warning: cert-{place} is no X.509 certificate")?;
    }
    let count = certificates
        .iter()
        .filter(|each| each.is_no_certificate())
        .count();
    match count.saturating_sub(MOST_LINES) {
        0 => Ok(()),
        more => writeln!(text, "warning: {more} more are no X.509 certificates"),
    }
}

/// Adds a line for each kind among these bags that RFC 7292 does not name, with their number, and one for the bags of further kinds.
fn add_unnamed(
    alloc: Global,
    text: &mut String,
    not_done: &str,
    others: &[OtherBag],
) -> Result<(), AllocError> {
    let mut kinds: Vec<OtherBag> = Vec::new(alloc);
    let mut more = 0usize;
    for kind in others {
        if !kind.is_unnamed() || kinds.iter().any(|each| each == kind) {
            continue;
        }
        if kinds.len() >= MOST_LINES {
            more = more.saturating_add(1);
            continue;
        }
        let count = others.iter().filter(|each| *each == kind).count();
        writeln!(text, "{not_done}: {count}, {kind}")?;
        kinds.push(*kind)?;
    }
    match more {
        0 => Ok(()),
        more => writeln!(text, "{not_done}: {more}, bags of further kinds"),
    }
}

/// Adds a line for each kind of these bags, with the number of these after what is not done with them.
pub fn add_others_text(
    alloc: Global,
    text: &mut String,
    not_done: &str,
    others: &[OtherBag],
) -> Result<(), AllocError> {
    for kind in COUNTED {
        let count = others.iter().filter(|each| **each == kind).count();
        if count > 0 {
            writeln!(text, "{not_done}: {count}, {kind}")?;
        }
    }
    add_unnamed(alloc, text, not_done, others)
}

/// The numbers of certificates and private keys.
pub fn counts(alloc: Global, found: &Listing) -> Result<String, AllocError> {
    let certificates = found.certificates.len();
    let keys = found.keys.len();
    format!(in alloc; "certificates: {certificates}\nprivate keys: {keys}\n")
}

/// The numbers of certificates and private keys, a line for each that has a name or a key id, one
/// for each certificate that is none, and one for each kind of bag that is not exported.
pub fn summary(alloc: Global, found: &Listing) -> Result<String, AllocError> {
    let mut text = counts(alloc, found)?;
    add_certificates(&mut text, found.certificates.as_slice())?;
    add_keys(alloc, &mut text, found)?;
    add_no_certificates(&mut text, found.certificates.as_slice())?;
    add_others_text(alloc, &mut text, NOT_EXPORTED, found.others.as_slice())?;
    Ok(text)
}

/// What is told of an export in any case: certificates that are none, and bags that were skipped.
pub fn warnings(alloc: Global, found: &Listing) -> Result<String, AllocError> {
    let mut text = String::new(alloc);
    add_no_certificates(&mut text, found.certificates.as_slice())?;
    Ok(text)
}

/// Why a store with these bags is not exported.
pub fn not_exported(alloc: Global, others: &[OtherBag]) -> Result<String, AllocError> {
    let mut text = String::from_str(alloc, "nothing was written, since the store has more:\n")?;
    add_others_text(alloc, &mut text, NOT_EXPORTED, others)?;
    String::from_str(alloc, text.as_str().trim_end())
}
