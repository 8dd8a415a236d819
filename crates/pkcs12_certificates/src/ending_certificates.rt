//! The certificates of a store that end by a time.
use crate::listed::{Certificate, Certificates, When};
use pkcs12_inspection::{Label, Listing};
use std::alloc::{AllocError, Global};
use std::fmt::Write;
use terminal_text::{InQuotes, Printable};

/// The certificates of a store that end by a time, or of which that cannot be told.
#[derive(Drop)]
pub struct EndingCertificates {
    /// A line for each.
    pub text: String,
    pub count: usize,
}

/// When a certificate ends.
enum End<'c> {
    /// After the time that is looked at.
    Later,
    /// By that time, at the one that is written here.
    By(&'c str),
    /// One of its times is none.
    Untold,
}

/// When a certificate ends, looked at by this time.
fn end_of<'c>(certificate: &'c Certificate<'_>, until: &str) -> End<'c> {
    let Some(validity) = &certificate.validity else {
        return End::Untold;
    };
    match validity.at(until) {
        Some(When::Past) => End::By(validity.not_after.as_str()),
        Some(When::Early) | Some(When::Valid) => End::Later,
        None => End::Untold,
    }
}

/// Adds what is said of the certificate at this place, where it ends by this time or that cannot be told; returns whether something was
/// added.
fn add_ending(
    text: &mut String,
    place: usize,
    certificate: Option<Certificate<'_>>,
    until: &str,
) -> Result<bool, AllocError> {
    let Some(certificate) = certificate else {
        write!(text, "cert-{place}: no X.509 certificate")?;
        return Ok(true);
    };
    match end_of(&certificate, until) {
        End::Later => return Ok(false),
        End::By(time) => write!(text, "cert-{place}: valid to {}", Printable(time))?,
        End::Untold => write!(text, "cert-{place}: when it ends could not be read")?,
    }
    write!(
        text,
        ", subject {}",
        Printable(certificate.subject.as_str())
    )?;
    Ok(true)
}

/// Ends the line of a certificate, with its friendly name.
fn end_line(text: &mut String, label: Option<&Label>) -> Result<(), AllocError> {
    match label.and_then(|label| label.friendly_name()) {
        Some(name) => writeln!(text, ", friendly name {}", InQuotes(name)),
        None => text.push_str("\n"),
    }
}

/// The certificates that end by this time, or of which that cannot be told, a line each. `until` is written as `YYYY-MM-DD HH:MM:SS UTC`.
/// The only error is out of memory.
pub fn ending_by(
    alloc: Global,
    certificates: &Certificates<'_>,
    labels: &Listing,
    until: &str,
) -> Result<EndingCertificates, AllocError> {
    let mut found = EndingCertificates {
        text: String::new(alloc),
        count: 0,
    };
    for place in 0..certificates.views().len() {
        let certificate = certificates.get(alloc, place)?;
        if add_ending(&mut found.text, place, certificate, until)? {
            end_line(&mut found.text, labels.certificates.get(place))?;
            found.count = found.count.saturating_add(1);
        }
    }
    Ok(found)
}
