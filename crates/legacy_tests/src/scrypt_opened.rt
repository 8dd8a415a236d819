//! Stores under scrypt are opened, each within exactly the steps that it takes; above the bound on memory they are refused.
use crate::old_stores::KEY;
use crate::pbmac1_opened::decoded;
use crate::scrypt_stores::{BARE, LARGE, ODD_TURNS, SCRYPT};
use crate::stores_opened::{Password, is_opened, is_refused, opened_by};
use legacy_store::MacRule;
use std::alloc::Global;
use transfer::{Opened, TransferError};

/// Opens a store in base64, with a MAC or without one.
fn opened_text(
    alloc: Global,
    store: &str,
    password: Password,
    limit: u64,
) -> Result<Opened, TransferError> {
    let octets = decoded(alloc, store)?;
    opened_by(alloc, &octets, password, MacRule::Optional, limit)
}

/// Each of the two parts takes 4 * 64 * 8 * 2 = 4,096 steps, and the MAC two.
static OPENED: [(&str, u64); 2] = [(SCRYPT, 8194), (BARE, 8192)];

#[test]
fn stores_under_scrypt_are_opened(rt: HostRuntime) {
    let alloc = rt.alloc();
    for (store, limit) in &OPENED {
        let whole = opened_text(alloc, store, Password::Old, *limit);
        assert!(rt; is_opened(whole, KEY));
        let short = opened_text(alloc, store, Password::Old, *limit - 1);
        assert!(rt; is_refused(short, TransferError::WorkLimit));
    }
}

static REFUSED: [(&str, Password, TransferError); 4] = [
    (LARGE, Password::Old, TransferError::Unsupported),
    (ODD_TURNS, Password::Old, TransferError::Unsupported),
    (SCRYPT, Password::Other, TransferError::MacMismatch),
    (BARE, Password::Other, TransferError::DecryptFailed),
];

#[test]
fn other_stores_under_scrypt_are_refused(rt: HostRuntime) {
    for (store, password, cause) in &REFUSED {
        let answer = opened_text(rt.alloc(), store, *password, 10_000);
        assert!(rt; is_refused(answer, *cause));
    }
}
