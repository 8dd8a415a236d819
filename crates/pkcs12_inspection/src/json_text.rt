//! What a store holds, in JSON (RFC 8259).
use crate::algorithms::Algorithms;
use crate::listing::{Label, Listing};
use crate::other_bag::OtherBag;
use std::alloc::{AllocError, Global};
use std::fmt::Write;
use terminal_text::{JsonHexadecimal, JsonString};

/// The members that a certificate and a private key have in common.
fn add_label(text: &mut String, kind: &str, place: usize, label: &Label) -> Result<(), AllocError> {
    write!(text, "{{\"name\": \"{kind}-{place}\", \"friendly_name\": ")?;
    match label.friendly_name() {
        Some(name) => write!(text, "{}", JsonString(name))?,
        None => text.push_str("null")?,
    }
    text.push_str(", \"local_key_id\": ")?;
    match label.local_key_id() {
        Some(id) => write!(text, "{}", JsonHexadecimal(id)),
        None => text.push_str("null"),
    }
}

/// Begins the next member of a list.
pub fn add_comma(text: &mut String, place: usize) -> Result<(), AllocError> {
    text.push_str(if place == 0 { "\n    " } else { ",\n    " })
}

fn add_certificates(text: &mut String, certificates: &[Label]) -> Result<(), AllocError> {
    for (place, label) in certificates.iter().enumerate() {
        add_comma(text, place)?;
        add_label(text, "cert", place, label)?;
        let is_certificate = !label.is_no_certificate();
        write!(text, ", \"is_certificate\": {is_certificate}}}")?;
    }
    Ok(())
}

fn add_keys(alloc: Global, text: &mut String, found: &Listing) -> Result<(), AllocError> {
    let pairs = found.pairs(alloc)?;
    for (place, label) in found.keys.as_slice().iter().enumerate() {
        add_comma(text, place)?;
        add_label(text, "key", place, label)?;
        match pairs.get(place).copied().unwrap_or(None) {
            Some(certificate) => write!(text, ", \"certificate\": \"cert-{certificate}\"}}")?,
            None => text.push_str(", \"certificate\": null}")?,
        }
    }
    Ok(())
}

/// Adds a string for each of these bags.
pub fn add_others_json(text: &mut String, others: &[OtherBag]) -> Result<(), AllocError> {
    for (place, kind) in others.iter().enumerate() {
        add_comma(text, place)?;
        write!(text, "\"{kind}\"")?;
    }
    Ok(())
}

/// The certificates, the private keys, what is not exported and the algorithms of a store, as one object. Names are whole.
pub fn json(alloc: Global, found: &Listing, algorithms: &Algorithms) -> Result<String, AllocError> {
    let mut text = String::from_str(alloc, "{\n  \"certificates\": [")?;
    add_certificates(&mut text, found.certificates.as_slice())?;
    text.push_str("],\n  \"private_keys\": [")?;
    add_keys(alloc, &mut text, found)?;
    text.push_str("],\n  \"not_exported\": [")?;
    add_others_json(&mut text, found.others.as_slice())?;
    text.push_str("]")?;
    algorithms.add_json(&mut text)?;
    text.push_str("\n}\n")?;
    Ok(text)
}
