//! Keys and MACs that `pkcs12_kdf` derives. The octets are those that Python's `hashlib` and `hmac` give, under SHA-384 and
//! SHA-512 those of OpenSSL's `PKCS12KDF`.
ghost use Rattle.std.specs.Prelude.{◌≡◌, ◌<◌};

use crate::stores_read::{PASSWORD, SALT};
use asn1_core::Octets;
use mac_modes::{Sha1, Sha256, Sha384, Sha512};
use pkcs12_kdf::{Derivation, IV_ID, KEY_ID, utf16_password};
use std::alloc::{AllocError, Global};
use std::marker::Brand;
use std::sync::ledger::{Blank, Ledger};
use steps::Steps;

/// Whether the result is these octets.
fn gives(answer: Result<Octets, AllocError>, wanted: &[u8]) -> bool {
    match answer {
        Ok(octets) => octets.as_slice() == wanted,
        Err(_) => false,
    }
}

const KEY: &[u8] =
    b"\x51\xad\x7a\x01\x28\x1f\x9e\x9d\x16\xe0\x94\x67\x17\x42\x8a\x7b\x48\xbc\xd5\x9f\
    \xbd\x36\xb1\x16";

const IV: &[u8] = b"\x84\x5a\x75\xee\x5e\x16\x2e\x77";

const MAC: &[u8] =
    b"\x18\xa7\x25\xd3\x47\x07\xec\x5b\x4e\xd6\xca\xd4\xd8\xdd\xc6\x01\x55\xb0\x1f\x58\
    \x71\xf8\x5a\xf4\xc1\x6a\x68\x3d\x09\xdc\x58\x0b";

/// Whether a cipher's key and its vector are derived from the password `p`.
fn is_key_derived(alloc: Global) -> bool {
    match utf16_password(alloc, "p") {
        Ok(password) => {
            let derivation = Derivation {
                password: password.as_slice(),
                salt: &SALT,
                rounds: 3,
            };
            gives(derivation.key::<Sha1>(alloc, KEY_ID, 24), KEY)
                && gives(derivation.key::<Sha1>(alloc, IV_ID, 8), IV)
        }
        Err(_) => false,
    }
}

#[test]
fn a_cipher_key_and_its_vector_are_derived(rt: HostRuntime) {
    assert!(rt; is_key_derived(rt.alloc()));
}

#[test]
fn a_mac_is_derived_under_sha256(rt: HostRuntime) {
    let derivation = Derivation {
        password: &PASSWORD,
        salt: &SALT,
        rounds: 3,
    };
    assert!(rt; gives(derivation.mac::<Sha256>(rt.alloc(), b"abc"), MAC));
}

const LONG_KEY: &[u8] =
    b"\xc8\x71\x3b\x9f\xdb\x70\xc2\x04\x6e\xec\xac\x68\x12\x1d\xdf\x48\x47\xb8\xc2\x06\
    \xc7\xf9\xd1\x1f\x9c\xc3\x8b\xa1\x12\x3f\x42\x5f\x9e\xb0\xc8\xc8\x8a\x99\xa7\x58\
    \xcb\x42\xd2\x6d\xcf\x80\xd5\x39\xe1\x9c\x87\xf5\xd5\xba\xbc\xc4\x8f\xc2\x3d\xae\
    \x1a\x00\x50\xae\x54\xec\x09\xac\xe0\x60\x94\x82\x2d\x52\xe1\x40\xa5\xf3\x10\xfe";

const LONG_MAC: &[u8] =
    b"\xed\x79\x4e\x54\x3b\x36\x62\xe3\xbd\x5e\x3c\x07\x0c\x43\xf8\x82\x79\xcd\x7b\x13\
    \x91\x4b\x08\xaa\x38\x19\x7a\x75\x45\xc8\x06\x0b\xf1\xf7\x2c\x3e\x1f\xf5\x1b\xd6\
    \xe1\x02\x62\x17\xaf\xc5\x64\x09";

/// Whether a key under SHA-512 and a MAC under SHA-384 are derived from the password `p`.
fn are_derived_by_long_blocks<L: Ledger>(alloc: Global, blank: Blank) -> bool
    requires name { blank.name ≡ L.name }
    requires parts { blank.parts ≡ L.parts }
    requires some { 0 < blank.parts }
{
    let mut steps = Steps::<L>::open(blank);
    let derivation = Derivation {
        password: &PASSWORD,
        salt: &SALT,
        rounds: 3,
    };
    let key = derivation.key_by_block_counted::<Sha512, L>(alloc, KEY_ID, 80, &mut steps);
    let mac = derivation.mac_by_block_counted::<Sha384, L>(alloc, b"abc", &mut steps);
    gives(key, LONG_KEY) && gives(mac, LONG_MAC)
}

#[test]
fn keys_and_macs_are_derived_by_blocks_of_128_octets(rt: HostRuntime) {
    assert!(rt; are_derived_by_long_blocks::<Brand>(rt.alloc(), Blank::new(1)));
}
