//! The chains of private keys, each as one PEM file: the key's certificate first, and then its issuers.
use crate::chain_error::ChainError;
use asn1_core::{Items, Octets};
use inventory_core::{CertificateView, SubjectIndex};
use pem_text::pem_of;
use pkcs12_inspection::Listing;
use std::alloc::{AllocError, Global};
use std::fmt::Write;
use std::io;

/// The most octets that the certificates of all chains have together, since each of thousands of keys may have a chain of thousands.
const MOST_OCTETS: usize = 268_435_456;

/// The chain of a private key.
#[derive(Drop)]
pub struct Chain {
    /// Its certificates, by their places in the store.
    places: Items<usize>,
    /// Whether the last of them is its own issuer.
    is_whole: bool,
}

/// What could be read of each certificate.
fn views_of(
    alloc: Global,
    certificates: &[Octets],
) -> Result<Vec<Option<CertificateView<'_>>>, AllocError> {
    let mut views = Vec::new(alloc);
    for certificate in certificates {
        views.push(CertificateView::parse(certificate.as_slice()).ok())?;
    }
    Ok(views)
}

/// Whether the last certificate of a chain is its own issuer.
pub fn is_whole(views: &[Option<CertificateView<'_>>], places: &[usize]) -> bool {
    match places.last() {
        Some(last) => match views.get(*last) {
            Some(Some(view)) => view.issuer == view.subject,
            _ => false,
        },
        None => false,
    }
}

/// How many octets the certificates at these places have together.
fn octets_at(certificates: &[Octets], places: &[usize]) -> usize {
    let mut sum = 0usize;
    for place in places {
        if let Some(certificate) = certificates.get(*place) {
            sum = sum.saturating_add(certificate.len());
        }
    }
    sum
}

/// For each private key its chain; none where no certificate of the store has its local key id. `TooMuch` where the certificates of
/// all chains have more than 268,435,456 octets together.
pub fn chains(
    alloc: Global,
    certificates: &[Octets],
    found: &Listing,
) -> Result<Vec<Option<Chain>>, ChainError> {
    let views = views_of(alloc, certificates)?;
    let index = SubjectIndex::new(alloc, views.as_slice())?;
    let mut chains = Vec::new(alloc);
    let mut octets = 0usize;
    for start in found.pairs(alloc)?.iter() {
        let chain = match start {
            Some(start) => {
                let places = index.chain_from(alloc, *start)?;
                octets = octets.saturating_add(octets_at(certificates, places.as_slice()));
                if octets > MOST_OCTETS {
                    return Err(ChainError::TooMuch);
                }
                let is_whole = is_whole(views.as_slice(), places.as_slice());
                Some(Chain { places, is_whole })
            }
            None => None,
        };
        if let Err(refused) = chains.push(chain) {
            return Err(AllocError::from(refused).into());
        }
    }
    Ok(chains)
}

/// The PEM text of a chain of these certificates.
pub fn chain_text(alloc: Global, chain: &Chain, certificates: &[Octets]) -> io::Result<Octets> {
    let mut text = Octets::new(alloc);
    for place in chain.places.as_slice() {
        if let Some(certificate) = certificates.get(*place) {
            match pem_of(alloc, "CERTIFICATE", certificate.as_slice()) {
                Ok(pem) => text.extend(pem.as_slice())?,
                Err(_) => return Err(io::Error::from(io::ErrorKind::OutOfMemory)),
            }
        }
    }
    Ok(text)
}

/// A line for each private key that has no chain, or one that ends before a certificate that is its own issuer.
pub fn chain_warnings(alloc: Global, chains: &[Option<Chain>]) -> Result<String, AllocError> {
    let mut text = String::new(alloc);
    for (number, chain) in chains.iter().enumerate() {
        match chain {
            Some(chain) if chain.is_whole => {}
            Some(_) => writeln!(
                text,
                "warning: chain-{number} ends before a certificate that is its own issuer"
            )?,
            None => writeln!(
                text,
                "warning: there is no chain-{number}: no certificate has the local key id of key-{number}"
            )?,
        }
    }
    Ok(text)
}
