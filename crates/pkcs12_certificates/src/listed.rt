//! The certificates of an opened store, as `list` shows them.
use asn1_core::{Items, Text};
use inventory_core::{CertificateView, Parent, SubjectIndex};
use p12::{BagView, BagsView};
use sha2::{Digest, Sha256};
use std::alloc::{AllocError, Global};
use transfer::OpenedSafe;
use x509_names::{Parts, is_time, name_text, time_text};

/// The certificates of a store, in its order, and what could be read of each.
#[derive(Drop)]
pub struct ReadCertificates<'a> {
    octets: Vec<&'a [u8]>,
    views: Vec<Option<CertificateView<'a>>>,
}

/// The certificates of a store, in its order, with an index by which parents and chains are found.
#[derive(Drop)]
pub struct Certificates<'a> {
    octets: &'a [&'a [u8]],
    index: SubjectIndex<'a>,
}

/// What is shown of a certificate beside its label.
#[derive(Drop)]
pub struct Certificate<'a> {
    pub view: CertificateView<'a>,
    pub parent: Parent,
    pub subject: Text,
    pub issuer: Text,
    /// The value octets of the serial number.
    pub serial_number: &'a [u8],
    /// From when to when it is valid.
    pub validity: Option<Validity>,
    /// The SHA-256 digests of its public key and of itself.
    pub key_digest: Option<[u8; 32]>,
    pub digest: [u8; 32],
}

/// From when to when a certificate is valid.
#[derive(Drop)]
pub struct Validity {
    pub not_before: Text,
    pub not_after: Text,
    /// Whether both are times of the calendar, which their texts have in order.
    pub are_times: bool,
}

/// Whether a certificate is valid at a time.
#[derive(Clone, Copy, PartialEq)]
pub enum When {
    Early,
    Valid,
    Past,
}

impl Validity {
    /// Whether the certificate is valid at this time, which is written as the two are; None where one of them is no time.
    pub fn at(&self, now: &str) -> Option<When> {
        if !self.are_times {
            None
        } else if now < self.not_before.as_str() {
            Some(When::Early)
        } else if self.not_after.as_str() < now {
            Some(When::Past)
        } else {
            Some(When::Valid)
        }
    }
}

/// Adds the certificates among bags.
fn add_bags<'a>(
    certificates: &mut ReadCertificates<'a>,
    mut bags: BagsView<'a>,
) -> Result<(), AllocError> {
    while let Some(bag) = bags.next() {
        if let BagView::X509(octets) = bag {
            certificates.octets.push(octets)?;
            certificates
                .views
                .push(CertificateView::parse(octets).ok())?;
        }
    }
    Ok(())
}

/// The X.509 certificates among the bags of an opened store, in whose text they stay.
pub fn read_certificates<'a>(
    alloc: Global,
    opened: &'a OpenedSafe,
) -> Result<ReadCertificates<'a>, AllocError> {
    let mut certificates = ReadCertificates {
        octets: Vec::new(alloc),
        views: Vec::new(alloc),
    };
    for index in 0..opened.number_of_contents() {
        add_bags(&mut certificates, opened.bags(index))?;
    }
    Ok(certificates)
}

/// The two times of a certificate.
fn validity_of(
    alloc: Global,
    times: Option<(&[u8], &[u8])>,
) -> Result<Option<Validity>, AllocError> {
    match times {
        Some((not_before, not_after)) => Ok(Some(Validity {
            not_before: time_text(alloc, not_before)?,
            not_after: time_text(alloc, not_after)?,
            are_times: is_time(not_before) && is_time(not_after),
        })),
        None => Ok(None),
    }
}

impl ReadCertificates<'_> {
    /// The same with an index.
    pub fn indexed(&self, alloc: Global) -> Result<Certificates<'_>, AllocError> {
        Ok(Certificates {
            octets: self.octets.as_slice(),
            index: SubjectIndex::new(alloc, self.views.as_slice())?,
        })
    }
}

impl<'a> Certificates<'a> {
    /// What could be read of each.
    pub fn views(&self) -> &'a [Option<CertificateView<'a>>] {
        self.index.certificates()
    }

    /// The chain that begins with the certificate at this place.
    pub fn chain_from(&self, alloc: Global, start: usize) -> Result<Items<usize>, AllocError> {
        self.index.chain_from(alloc, start)
    }

    /// Whether the store has the issuer of the certificate at this place.
    pub fn has_issuer(&self, place: usize) -> bool {
        match self.index.parent_of(place) {
            Parent::Itself | Parent::Of(_) => true,
            Parent::Unknown => false,
        }
    }

    /// What is shown of the certificate at this place; none where its octets are no certificate.
    pub fn get(&self, alloc: Global, place: usize) -> Result<Option<Certificate<'a>>, AllocError> {
        let (Some(octets), Some(Some(view))) = (self.octets.get(place), self.views().get(place))
        else {
            return Ok(None);
        };
        // Of what the table takes the parts are read: laws::certificates_have_parts.
        let Ok(parts) = Parts::read(octets) else {
            return Ok(None);
        };
        Ok(Some(Certificate {
            view: *view,
            parent: self.index.parent_of(place),
            subject: name_text(alloc, view.subject)?,
            issuer: name_text(alloc, view.issuer)?,
            serial_number: parts.serial_number,
            validity: validity_of(alloc, parts.validity)?,
            key_digest: view.spki.fingerprint_bytes().ok(),
            digest: Sha256::digest(octets),
        }))
    }
}
