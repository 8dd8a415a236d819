//! Old stores of other programs are opened, each within exactly the steps that it takes.
ghost use Rattle.std.specs.Prelude.{◌≡◌, ◌<◌, ◌^◌, length};

use crate::nss_store;
use crate::old_stores::{BER, KEY, NULL, PARTS, RC2_40, RC2_128, SHA224, TWO_KEY};
use legacy_store::{MacRule, open_legacy};
use std::alloc::Global;
use std::marker::Brand;
use std::sync::ledger::{Blank, Ledger};
use steps::Steps;
use transfer::{Opened, TransferError};

/// The passwords that are tried.
#[derive(Clone, Copy)]
pub(crate) enum Password {
    /// That of the stores.
    Old,
    Empty,
    Other,
    /// That of the store of NSS.
    Nss,
    /// That of the stores of RFC 9579.
    Digits,
}

impl Password {
    fn text(self) -> &'static str
        ensures { length result.now < 2 ^ 56 }
    {
        match self {
            Password::Old => "old",
            Password::Empty => "",
            Password::Other => "x",
            Password::Nss => "battery-staple",
            Password::Digits => "1234",
        }
    }
}

/// Opens a store.
fn opened_counted<L: Ledger>(
    alloc: Global,
    store: &[u8],
    password: Password,
    rule: MacRule,
    limit: u64,
    blank: Blank,
) -> Result<Opened, TransferError>
    requires name { blank.name ≡ L.name }
    requires parts { blank.parts ≡ L.parts }
    requires some { 0 < blank.parts }
{
    let mut steps = Steps::<L>::open(blank);
    open_legacy(alloc, store, password.text(), rule, limit, &mut steps)
}

/// The same with a counter of its own.
pub(crate) fn opened_by(
    alloc: Global,
    store: &[u8],
    password: Password,
    rule: MacRule,
    limit: u64,
) -> Result<Opened, TransferError> {
    opened_counted::<Brand>(alloc, store, password, rule, limit, Blank::new(1))
}

/// The same where a MAC is required.
pub(crate) fn opened(
    alloc: Global,
    store: &[u8],
    password: Password,
    limit: u64,
) -> Result<Opened, TransferError> {
    opened_by(alloc, store, password, MacRule::Required, limit)
}

/// Whether a store was opened to two contents and this key.
fn has_the_key(store: &Opened, wanted: &[u8]) -> bool {
    match store.keys.get(0) {
        Some(key) => store.contents.len() == 2 && store.keys.len() == 1 && key.as_slice() == wanted,
        None => false,
    }
}

/// Whether the result is that.
pub(crate) fn is_opened(answer: Result<Opened, TransferError>, wanted: &[u8]) -> bool {
    match answer {
        Ok(store) => has_the_key(&store, wanted),
        Err(_) => false,
    }
}

/// Whether the result is this refusal.
pub(crate) fn is_refused(answer: Result<Opened, TransferError>, cause: TransferError) -> bool {
    match answer {
        Ok(_) => false,
        Err(e) => e == cause,
    }
}

/// Stores with the steps that they take: two for each MAC that is tested, four for each text under RC2 or under Triple DES with two
/// keys, and six for each under Triple DES with three. The MAC of the last is tested under the empty password too.
static OPENED: [(&[u8], Password, u64); 7] = [
    (RC2_40, Password::Old, 12),
    (RC2_128, Password::Old, 10),
    (TWO_KEY, Password::Old, 10),
    (SHA224, Password::Old, 14),
    (BER, Password::Old, 12),
    (PARTS, Password::Old, 12),
    (NULL, Password::Empty, 14),
];

#[test]
fn old_stores_are_opened(rt: HostRuntime) {
    for (store, password, limit) in &OPENED {
        assert!(rt; is_opened(opened(rt.alloc(), store, *password, *limit), KEY));
    }
}

/// The same stores with one step less, and stores under another password: no octets are no password but the empty one.
static REFUSED: [(&[u8], Password, u64, TransferError); 10] = [
    (RC2_40, Password::Old, 11, TransferError::WorkLimit),
    (RC2_128, Password::Old, 9, TransferError::WorkLimit),
    (TWO_KEY, Password::Old, 9, TransferError::WorkLimit),
    (SHA224, Password::Old, 13, TransferError::WorkLimit),
    (BER, Password::Old, 11, TransferError::WorkLimit),
    (PARTS, Password::Old, 11, TransferError::WorkLimit),
    (NULL, Password::Empty, 13, TransferError::WorkLimit),
    (NULL, Password::Empty, 3, TransferError::WorkLimit),
    (NULL, Password::Other, 14, TransferError::MacMismatch),
    (RC2_40, Password::Empty, 14, TransferError::MacMismatch),
];

#[test]
fn stores_are_refused_for_the_first_cause(rt: HostRuntime) {
    for (store, password, limit, cause) in &REFUSED {
        assert!(rt; is_refused(opened(rt.alloc(), store, *password, *limit), *cause));
    }
}

#[test]
fn a_store_of_nss_is_opened(rt: HostRuntime) {
    let alloc = rt.alloc();
    let store = nss_store::STORE;
    assert!(rt;
        is_opened(
            opened(alloc, store, Password::Nss, 1_800_000),
            nss_store::KEY
        )
    );
    assert!(rt;
        is_refused(
            opened(alloc, store, Password::Nss, 1_799_999),
            TransferError::WorkLimit
        )
    );
}
