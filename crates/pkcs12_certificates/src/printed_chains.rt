//! Which chains were printed.
use crate::listed::Certificates;
use std::alloc::{AllocError, Global};

/// The most certificates of chains that are printed, since each of thousands of keys may have a chain of thousands: once that many
/// are, no further chain is begun.
const MOST_PRINTED: usize = 10_000;

/// The chains of certificates, of which some were printed.
#[derive(Drop)]
pub struct PrintedChains<'a> {
    pub certificates: &'a Certificates<'a>,
    /// By the place of its first certificate, the first key that has the chain.
    keys: Vec<Option<usize>>,
    /// How many more certificates of chains are printed.
    pub left: usize,
}

impl<'a> PrintedChains<'a> {
    /// The chains of these certificates, of which none was printed.
    pub fn new(
        alloc: Global,
        certificates: &'a Certificates<'a>,
    ) -> Result<PrintedChains<'a>, AllocError> {
        let mut keys = Vec::new(alloc);
        for _certificate in certificates.views() {
            keys.push(None)?;
        }
        Ok(PrintedChains {
            certificates,
            keys,
            left: MOST_PRINTED,
        })
    }

    /// The first key that has the chain from this certificate, where there is one; else it is this key.
    pub fn note(&mut self, start: usize, key: usize) -> Option<usize> {
        if start >= self.keys.len() {
            return None;
        }
        let before = self.keys[start];
        if before.is_none() {
            self.keys[start] = Some(key);
        }
        before
    }
}
