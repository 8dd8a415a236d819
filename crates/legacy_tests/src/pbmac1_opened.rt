//! Stores whose MAC is PBMAC1 are opened, each within exactly the steps that it takes, or refused.
use crate::pbmac1_stores::{
    KEY, MAC_BY_SCRYPT, MAC_OF_FOUR_BLOCKS, MAC_OF_LONG_SALT, MAC_OF_NO_KEY, MAC_OF_NO_ROUNDS,
    MAC_OF_TWO_BLOCKS, MAC_SHA1, MAC_SHA224, MAC_SHA384, NO_LENGTH, SHA256, SHA256_BY_SHA512,
    SHA512, WRONG_COUNT, WRONG_SALT,
};
use crate::stores_opened::{Password, is_opened, is_refused, opened};
use base64::engine::general_purpose::STANDARD;
use std::alloc::{AllocError, Global};
use transfer::{Opened, TransferError};

/// The octets of a text in base64.
pub(crate) fn decoded(alloc: Global, text: &str) -> Result<Vec<u8>, AllocError> {
    match STANDARD.decode(alloc, text.as_bytes()) {
        Ok(octets) => Ok(octets),
        Err(_) => Err(AllocError),
    }
}

/// Opens a store in base64.
fn opened_text(
    alloc: Global,
    store: &str,
    password: Password,
    limit: u64,
) -> Result<Opened, TransferError> {
    let octets = decoded(alloc, store)?;
    opened(alloc, &octets, password, limit)
}

/// Where the MAC of the store of appendix A.1 begins.
const MAC_AT: usize = 2576;

/// Opens the store of appendix A.1 with this MAC.
fn opened_with(alloc: Global, mac: &str, limit: u64) -> Result<Opened, TransferError> {
    let whole = decoded(alloc, SHA256)?;
    let mac = decoded(alloc, mac)?;
    if whole.len() < MAC_AT || mac.len() > 255 {
        return Err(TransferError::TooLong);
    }
    let len = 2572 + mac.len() as u16;
    let mut store = Vec::from_slice(alloc, &[0x30, 0x82])?;
    store.extend_from_slice(&len.to_be_bytes())?;
    store.extend_from_slice(&whole[4..MAC_AT])?;
    store.extend_from_slice(&mac)?;
    opened(alloc, &store, Password::Digits, limit)
}

/// Whether the result is the key of the stores.
fn has_key(alloc: Global, answer: Result<Opened, TransferError>) -> bool {
    match decoded(alloc, KEY) {
        Ok(key) => is_opened(answer, &key),
        Err(_) => false,
    }
}

/// Each takes 2,048 steps for its MAC, as many for its certificate, and as many for its key.
#[test]
fn stores_of_the_standard_are_opened(rt: HostRuntime) {
    let alloc = rt.alloc();
    for store in [SHA256, SHA256_BY_SHA512, SHA512] {
        let whole = opened_text(alloc, store, Password::Digits, 6144);
        assert!(rt; has_key(alloc, whole));
        let short = opened_text(alloc, store, Password::Digits, 6143);
        assert!(rt; is_refused(short, TransferError::WorkLimit));
    }
}

/// Stores that are refused. That of the wrong count has 2,049 rounds, and no password is tested twice but the empty one.
static REFUSED: [(&str, Password, u64, TransferError); 8] = [
    (
        WRONG_COUNT,
        Password::Digits,
        2049,
        TransferError::MacMismatch,
    ),
    (
        WRONG_COUNT,
        Password::Digits,
        2048,
        TransferError::WorkLimit,
    ),
    (
        WRONG_SALT,
        Password::Digits,
        2048,
        TransferError::MacMismatch,
    ),
    (
        NO_LENGTH,
        Password::Digits,
        6144,
        TransferError::MacUnsupported,
    ),
    (SHA256, Password::Other, 2048, TransferError::MacMismatch),
    (SHA256, Password::Digits, 2047, TransferError::WorkLimit),
    (SHA256, Password::Empty, 4096, TransferError::MacMismatch),
    (SHA256, Password::Empty, 4095, TransferError::WorkLimit),
];

#[test]
fn stores_of_the_standard_are_refused(rt: HostRuntime) {
    for (store, password, limit, cause) in &REFUSED {
        assert!(rt; is_refused(opened_text(rt.alloc(), store, *password, *limit), *cause));
    }
}

/// MACs with the steps that a store under them takes: 4,096 for the certificate and the key, and two for each output of the pseudorandom
/// function that makes the key of the MAC.
static MACS: [(&str, u64); 5] = [
    (MAC_SHA1, 4098),
    (MAC_SHA224, 4098),
    (MAC_SHA384, 4098),
    (MAC_OF_FOUR_BLOCKS, 4104),
    (MAC_OF_TWO_BLOCKS, 4100),
];

#[test]
fn macs_agree(rt: HostRuntime) {
    let alloc = rt.alloc();
    for (mac, limit) in &MACS {
        assert!(rt; has_key(alloc, opened_with(alloc, mac, *limit)));
        assert!(rt;
            is_refused(
                opened_with(alloc, mac, *limit - 1),
                TransferError::WorkLimit
            )
        );
    }
}

/// MACs that cannot be tested.
static UNTESTED: [(&str, TransferError); 4] = [
    (MAC_OF_NO_KEY, TransferError::MacUnsupported),
    (MAC_OF_LONG_SALT, TransferError::MacUnsupported),
    (MAC_BY_SCRYPT, TransferError::MacUnsupported),
    (MAC_OF_NO_ROUNDS, TransferError::ZeroIterations),
];

#[test]
fn macs_are_refused(rt: HostRuntime) {
    for (mac, cause) in &UNTESTED {
        assert!(rt; is_refused(opened_with(rt.alloc(), mac, 10_000), *cause));
    }
}
