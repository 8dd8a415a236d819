//! The subcommand `list`: opens a store, and says of each certificate and private key what it is.
use crate::clock::{now_text, text_after};
use crate::reading::{given_to, opened_within};
use pkcs12_arguments::{Days, List};
use pkcs12_certificates::{
    EndingCertificates, ending_by, listed_json, listed_text, read_certificates,
};
use pkcs12_opening::{Ending, Failure, Surroundings, listing_of, printed};
use std::alloc::{AllocError, Global};
use std::rt::Runtime;
use transfer::OpenedSafe;

/// What `list` says of the certificates and private keys of an opened store; `now` is the time, where the clock tells it.
fn listed(
    alloc: Global,
    opened: OpenedSafe,
    in_json: bool,
    now: Option<&str>,
) -> Result<String, AllocError> {
    let labels = listing_of(alloc, &opened)?;
    let read = read_certificates(alloc, &opened)?;
    let certificates = read.indexed(alloc)?;
    if in_json {
        listed_json(alloc, &certificates, &labels, now)
    } else {
        listed_text(alloc, &certificates, &labels, now)
    }
}

/// The certificates of an opened store that end by this time.
fn ending(
    alloc: Global,
    opened: OpenedSafe,
    until: &str,
) -> Result<EndingCertificates, AllocError> {
    let labels = listing_of(alloc, &opened)?;
    let read = read_certificates(alloc, &opened)?;
    let certificates = read.indexed(alloc)?;
    ending_by(alloc, &certificates, &labels, until)
}

/// Prints the certificates that end within so many days. `Expiring` where there is one, and `ReadFault` where the clock does not tell the
/// time.
fn print_ending<R: Runtime + AllocGlobal>(
    rt: &R,
    opened: OpenedSafe,
    days: Days,
) -> Result<(), Failure> {
    let Some(until) = text_after(rt, days)? else {
        return Err(Failure::new(
            Ending::ReadFault,
            "this machine's clock does not tell the time, so nothing was looked at",
        ));
    };
    let found = ending(rt.alloc(), opened, until.as_str())?;
    printed(rt.alloc(), rt.print(found.text.as_str()))?;
    if found.count == 0 {
        return Ok(());
    }
    let count = days.count;
    let text = format!(in rt.alloc();
        "certificates that end within {count} days, or of which that could not be read: {}",
        found.count
    );
    Err(Failure::told(Ending::Expiring, text))
}

/// Opens the store, and prints what its certificates and private keys are.
pub fn run_list<R: Runtime + AllocGlobal>(
    rt: &R,
    around: Surroundings,
    asked: &List<'_>,
) -> Result<(), Failure> {
    let given = given_to(rt, &asked.reading)?;
    let opened = opened_within(rt, around, &given, &asked.reading)?.safe;
    drop(given);
    if let Some(days) = asked.expires_within {
        return print_ending(rt, opened, days);
    }
    let now = now_text(rt)?;
    let now = now.as_ref().map(|text| text.as_str());
    let text = listed(rt.alloc(), opened, asked.reading.in_json, now)?;
    printed(rt.alloc(), rt.print(text.as_str()))
}
