//! Stores without a MAC are opened where none is required, but for what is under 40-bit RC2; and refused where one is.
use crate::bare_stores::{AES, CERTIFICATE_RC2_40, KEY_RC2_40, RC2_128};
use crate::old_stores::{KEY, RC2_40};
use crate::pbmac1_opened::decoded;
use crate::stores_opened::{Password, is_opened, is_refused, opened_by};
use legacy_store::MacRule;
use std::alloc::Global;
use transfer::{Opened, TransferError};

/// Opens a store in base64.
fn opened_text(
    alloc: Global,
    store: &str,
    password: Password,
    rule: MacRule,
    limit: u64,
) -> Result<Opened, TransferError> {
    let octets = decoded(alloc, store)?;
    opened_by(alloc, &octets, password, rule, limit)
}

/// Two steps for each part under AES, four for each under RC2 or under Triple DES with two keys.
static OPENED: [(&str, u64); 2] = [(AES, 4), (RC2_128, 8)];

#[test]
fn stores_without_a_mac_are_opened(rt: HostRuntime) {
    let alloc = rt.alloc();
    for (store, limit) in &OPENED {
        let whole = opened_text(alloc, store, Password::Old, MacRule::Optional, *limit);
        assert!(rt; is_opened(whole, KEY));
        let short = opened_text(alloc, store, Password::Old, MacRule::Optional, *limit - 1);
        assert!(rt; is_refused(short, TransferError::WorkLimit));
    }
}

/// The key under 40-bit RC2 comes after the certificate, which takes six steps.
static REFUSED: [(&str, Password, u64, TransferError); 5] = [
    (
        CERTIFICATE_RC2_40,
        Password::Old,
        0,
        TransferError::Unsupported,
    ),
    (KEY_RC2_40, Password::Old, 6, TransferError::Unsupported),
    (KEY_RC2_40, Password::Old, 5, TransferError::WorkLimit),
    (AES, Password::Other, 2, TransferError::DecryptFailed),
    (AES, Password::Other, 1, TransferError::WorkLimit),
];

#[test]
fn stores_without_a_mac_are_refused(rt: HostRuntime) {
    for (store, password, limit, cause) in &REFUSED {
        let answer = opened_text(rt.alloc(), store, *password, MacRule::Optional, *limit);
        assert!(rt; is_refused(answer, *cause));
    }
}

#[test]
fn a_mac_is_required(rt: HostRuntime) {
    for store in [AES, RC2_128, CERTIFICATE_RC2_40, KEY_RC2_40] {
        let answer = opened_text(rt.alloc(), store, Password::Old, MacRule::Required, 100);
        assert!(rt; is_refused(answer, TransferError::MacMissing));
    }
}

/// With a MAC it does not matter whether one is required.
#[test]
fn a_mac_that_is_there_is_tested(rt: HostRuntime) {
    let alloc = rt.alloc();
    let whole = opened_by(alloc, RC2_40, Password::Old, MacRule::Optional, 12);
    assert!(rt; is_opened(whole, KEY));
    let other = opened_by(alloc, RC2_40, Password::Other, MacRule::Optional, 12);
    assert!(rt; is_refused(other, TransferError::MacMismatch));
}
