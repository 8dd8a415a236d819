//! Ciphertexts that are opened, and MACs that are tested, mostly by the calls that count their steps.
ghost use Rattle.std.specs.Prelude.{◌≡◌, ◌<◌, ◌^◌, length};
ghost use Rattle.p12.specs.AlgorithmIdentifier.{salt_of};

use crate::calls;
use crate::stores_read::{ENCRYPTED_KEY, KEY, PASSWORD, PBES2_KEY, SALT};
use asn1_core::Octets;
use p12::{AlgorithmIdentifier, EncryptedPrivateKeyInfo, Error, MacData};
use std::alloc::Global;
use std::marker::Brand;
use std::sync::ledger::{Blank, Ledger};
use steps::Steps;

/// Whether a key opens to `KEY` under the password `p` in UTF-16.
fn opens_by_pbe<L: Ledger>(
    alloc: Global,
    key: &EncryptedPrivateKeyInfo,
    steps: &mut Steps<L>,
) -> bool {
    let algorithm = &key.encryption_algorithm;
    let text = key.encrypted_data.as_slice();
    calls::is_short(key)
        && calls::opens_to(
            algorithm.decrypt_pbe_counted(alloc, text, &PASSWORD, steps),
            KEY,
        )
}

/// Whether the key under Triple DES does.
fn opens_triple_des<L: Ledger>(alloc: Global, steps: &mut Steps<L>) -> bool {
    match calls::encrypted_key(alloc, ENCRYPTED_KEY) {
        Ok(key) => opens_by_pbe(alloc, &key, steps),
        Err(_) => false,
    }
}

/// Whether a MAC over `abc` agrees under `p`, by the call that takes UTF-16 and by those on its view.
fn agrees_by_each_call<L: Ledger>(alloc: Global, mac: &MacData, steps: &mut Steps<L>) -> bool {
    mac.salt.len() == 8
        && mac.verify_mac_counted(alloc, b"abc", &PASSWORD, steps) == Ok(true)
        && mac.view().verify_counted(alloc, b"abc", "p", steps) == Ok(true)
        && mac
            .view()
            .verify_mac_counted(alloc, b"abc", &PASSWORD, steps)
            == Ok(true)
}

/// Whether the MAC under SHA-256 does.
fn agrees_counted<L: Ledger>(alloc: Global, steps: &mut Steps<L>) -> bool {
    match MacData::with_salt_sha256(alloc, b"abc", &PASSWORD, &SALT, 3) {
        Ok(mac) => agrees_by_each_call(alloc, &mac, steps),
        Err(_) => false,
    }
}

/// A key of 16 zero octets under AES-256 by PBES2 with a stated key length of 16 octets, which no password opens (RFC 8018
/// appendix A.2).
const SHORT_KEY: &[u8] =
    b"\x30\x6d\x30\x59\x06\x09\x2a\x86\x48\x86\xf7\x0d\x01\x05\x0d\x30\x4c\x30\x2b\x06\x09\x2a\
    \x86\x48\x86\xf7\x0d\x01\x05\x0c\x30\x1e\x04\x08\x00\x01\x02\x03\x04\x05\x06\x07\
    \x02\x01\x02\x02\x01\x10\x30\x0c\x06\x08\x2a\x86\x48\x86\xf7\x0d\x02\x09\x05\x00\
    \x30\x1d\x06\x09\x60\x86\x48\x01\x65\x03\x04\x01\x2a\x04\x10\x10\x11\x12\x13\x14\
    \x15\x16\x17\x18\x19\x1a\x1b\x1c\x1d\x1e\x1f\x04\x10\x00\x00\x00\x00\x00\x00\x00\
    \x00\x00\x00\x00\x00\x00\x00\x00\x00\x00";

/// What a key opens to by the call that opens the ciphertext where it lies.
fn opened_in_place<L: Ledger>(
    alloc: Global,
    key: &EncryptedPrivateKeyInfo,
    password: &str,
    steps: &mut Steps<L>,
) -> Result<Option<Octets>, Error>
    requires text { length key.now.encrypted_data < 2 ^ 32 }
    requires salt { length (salt_of key.now.encryption_algorithm) < 2 ^ 59 }
    requires password { length password.now < 2 ^ 57 }
{
    let mut buffer = key.encrypted_data.try_clone(alloc)?;
    let algorithm = key.encryption_algorithm.view();
    let octets = buffer.as_mut_slice();
    let Some(len) = algorithm.decrypt_in_place_counted(alloc, password, octets, steps)? else {
        return Ok(None);
    };
    buffer.truncate(len);
    Ok(Some(buffer))
}

/// Whether a key opens to `KEY` under `p\u{e4}`, by the call that copies its ciphertext and by that which does not.
fn opens_by_either_call<L: Ledger>(
    alloc: Global,
    key: &EncryptedPrivateKeyInfo,
    steps: &mut Steps<L>,
) -> bool {
    let algorithm = &key.encryption_algorithm;
    let text = key.encrypted_data.as_slice();
    let password = "p\u{e4}";
    calls::is_short(key)
        && calls::opens_to(
            algorithm.decrypt_text_counted(alloc, text, password, steps),
            KEY,
        )
        && calls::opens_to(opened_in_place(alloc, key, password, steps), KEY)
}

/// Whether a key is under PBES2 and cannot be opened, and neither call opens it.
fn stays_closed<L: Ledger>(
    alloc: Global,
    key: &EncryptedPrivateKeyInfo,
    steps: &mut Steps<L>,
) -> bool {
    let algorithm = &key.encryption_algorithm;
    let text = key.encrypted_data.as_slice();
    matches!(algorithm, AlgorithmIdentifier::Pbes2(_))
        && !algorithm.is_openable()
        && calls::is_short(key)
        && calls::stays_closed(algorithm.decrypt_text_counted(alloc, text, "p", steps))
        && calls::stays_closed(opened_in_place(alloc, key, "p", steps))
}

/// Whether the key under PBES2 opens.
fn opens_pbes2<L: Ledger>(alloc: Global, steps: &mut Steps<L>) -> bool {
    match calls::encrypted_key(alloc, PBES2_KEY) {
        Ok(key) => opens_by_either_call(alloc, &key, steps),
        Err(_) => false,
    }
}

/// Whether that of another length does not.
fn leaves_closed<L: Ledger>(alloc: Global, steps: &mut Steps<L>) -> bool {
    match calls::encrypted_key(alloc, SHORT_KEY) {
        Ok(key) => stays_closed(alloc, &key, steps),
        Err(_) => false,
    }
}

/// Whether all of these hold by one counter of steps.
fn opens_counted<L: Ledger>(alloc: Global, blank: Blank) -> bool
    requires name { blank.name ≡ L.name }
    requires parts { blank.parts ≡ L.parts }
    requires some { 0 < blank.parts }
{
    let mut steps = Steps::<L>::open(blank);
    opens_triple_des(alloc, &mut steps)
        && agrees_counted(alloc, &mut steps)
        && opens_pbes2(alloc, &mut steps)
        && leaves_closed(alloc, &mut steps)
}

#[test]
fn keys_open_and_macs_agree_by_the_calls_that_count(rt: HostRuntime) {
    assert!(rt; opens_counted::<Brand>(rt.alloc(), Blank::new(1)));
}

/// Whether a key of 64 octets opens to `KEY` by the call that counts nothing, under an algorithm that its view gives.
fn is_opened_uncounted(
    alloc: Global,
    key: &EncryptedPrivateKeyInfo,
    algorithm: Result<AlgorithmIdentifier, asn1_core::Error>,
) -> bool {
    match algorithm {
        Ok(algorithm) if calls::has_short_salt(&algorithm) && key.encrypted_data.len() == 64 => {
            let text = key.encrypted_data.as_slice();
            calls::opens_to(algorithm.decrypt_text(alloc, text, "p\u{e4}"), KEY)
        }
        _ => false,
    }
}

/// Whether the key under PBES2 opens so.
fn opens_uncounted(alloc: Global) -> bool {
    match calls::encrypted_key(alloc, PBES2_KEY) {
        Ok(key) => is_opened_uncounted(alloc, &key, key.encryption_algorithm.view().owned(alloc)),
        Err(_) => false,
    }
}

#[test]
fn pbes2_opens_by_the_call_that_counts_nothing(rt: HostRuntime) {
    assert!(rt; opens_uncounted(rt.alloc()));
}
