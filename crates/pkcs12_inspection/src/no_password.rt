//! Stores that were made with no password at all.
ghost use Rattle.std.specs.Prelude.{◌≡◌, ◌<◌, ◌^◌, length};

use crate::out_of_memory::out_of_memory;
use asn1_core::Octets;
use p12::{
    AlgorithmIdentifier, AlgorithmView, ContentView, DigestInfo, MacData, MacView, StoreView,
};
use std::alloc::{AllocError, Global};

/// The most octets of a store that is opened, and so of each of its parts.
const STORE_LIMIT: usize = 16_777_215;

/// The algorithm of a MAC, where it is one that is tried.
fn digest_of(mac: &MacView<'_>) -> Option<AlgorithmIdentifier> {
    match &mac.algorithm {
        AlgorithmView::Sha1 => Some(AlgorithmIdentifier::Sha1),
        AlgorithmView::Sha256 => Some(AlgorithmIdentifier::Sha256),
        _ => None,
    }
}

/// Whether the MAC of the content agrees under a password of no octets.
fn agrees(alloc: Global, mac: &MacView<'_>, content: &[u8]) -> Result<bool, AllocError> {
    let Some(digest_algorithm) = digest_of(mac) else {
        return Ok(false);
    };
    if content.len() > STORE_LIMIT || mac.salt.len() > STORE_LIMIT {
        return Ok(false);
    }
    let mac = MacData {
        mac: DigestInfo {
            digest_algorithm,
            digest: Octets::from_slice(alloc, mac.digest)?,
        },
        salt: Octets::from_slice(alloc, mac.salt)?,
        iterations: mac.iterations,
    };
    match mac.verify_mac(alloc, content, &[]) {
        Ok(agrees) => Ok(agrees),
        Err(error) => Err(out_of_memory(error)),
    }
}

/// Whether the MAC of the store agrees under no password at all, which some programs tell from the
/// empty one: RFC 7292 appendix B.1 gives the empty password two octets, and these programs give
/// none. It takes the rounds of the MAC.
pub fn is_without_password(alloc: Global, store: &[u8]) -> Result<bool, AllocError> {
    let Ok(store) = StoreView::parse(store) else {
        return Ok(false);
    };
    match (&store.mac_data, &store.auth_safe) {
        (Some(mac), ContentView::Plain { content, .. }) => agrees(alloc, mac, content),
        _ => Ok(false),
    }
}
