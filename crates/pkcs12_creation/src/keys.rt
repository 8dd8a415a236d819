//! The private key of a file.
use crate::key_failure::key_failure;
use crate::not_pem::unread;
use asn1_core::Octets;
use pem_stores::{KeyOpening, key_in};
use pem_text::blocks_of;
use pkcs12_opening::Failure;
use std::alloc::Global;

/// The PKCS#8 text of the one private key of a PEM file, which was read from this path.
pub(crate) fn key_of_file(
    alloc: Global,
    path: &str,
    text: &[u8],
    opening: KeyOpening<'_>,
) -> Result<Octets, Failure> {
    let blocks = match blocks_of(alloc, text) {
        Ok(blocks) => blocks,
        Err(error) => return Err(unread(alloc, path, text, &error)),
    };
    match key_in(alloc, blocks.as_slice(), opening) {
        Ok(key) => Ok(key),
        Err(refusal) => Err(key_failure(alloc, path, text, refusal)),
    }
}
