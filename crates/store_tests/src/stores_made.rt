//! Stores that are made.
ghost use Rattle.std.specs.Prelude.{◌<◌, ◌^◌, length, IfOk};
ghost use Rattle.p12.specs.Pfx.{OpeningFits};

use crate::calls;
use crate::calls::Held;
use asn1_core::{Items, Octets};
use mac_modes::{Draw, DrawnBytes};
use p12::{EncryptedContentInfo, EncryptedData, Error, MacData, PFX};
use std::alloc::{AllocError, Global};

/// The octets 00 to 17.
const SALTS: &[u8] = &[
    0, 1, 2, 3, 4, 5, 6, 7, 8, 9, 10, 11, 12, 13, 14, 15, 16, 17, 18, 19, 20, 21, 22, 23,
];

/// A public key of Ed25519, which stands for a certificate, and its private key.
const CERTIFICATE: &[u8] =
    b"\x30\x2a\x30\x05\x06\x03\x2b\x65\x70\x03\x21\x00\x4d\x29\x16\x7f\x3f\x19\x12\xa6\
    \xf7\xad\xfa\x29\x3a\x05\x1a\x15\xc0\x5e\xc6\x7b\x8f\x17\x26\x7b\x1c\x55\x50\xdc\
    \xe8\x53\xbd\x0d";

const KEY: &[u8] =
    b"\x30\x2e\x02\x01\x00\x30\x05\x06\x03\x2b\x65\x70\x04\x22\x04\x20\x17\xed\x9c\x73\
    \xe9\xdb\x64\x9e\xc1\x89\xa6\x12\x83\x1c\x5f\xc5\x70\x23\x82\x07\xc1\xaa\x9d\xfb\
    \xd2\xc5\x3e\x3f\xf5\xe5\xea\x85";

/// The certificate of an authority, by its form alone.
const AUTHORITY: &[u8] = b"\x30\x00";

/// The certificate of another authority.
const OTHER_AUTHORITY: &[u8] = b"\x30\x02\x05\x00";

/// The MAC of an empty list under the empty password and the first salt, and the ciphertexts of the empty list under the second
/// and the third; by `tests/make_store.py`.
const MAC_OF_NOTHING: &[u8] =
    b"\xdb\x5f\x60\xb0\x11\x3c\x5e\xc2\x04\x7f\xb8\x6a\x4a\xe6\xbd\x1d\x33\xba\x55\x81";

const NOTHING_SEALED: &[u8] = b"\x7d\x4a\x15\x45\xd3\x30\x74\xc3";

const NOTHING_SEALED_AGAIN: &[u8] = b"\x84\x58\xde\x90\x99\xe4\xbe\x52";

/// A draw of these octets.
fn drawn(alloc: Global, octets: &[u8]) -> Result<DrawnBytes, AllocError> {
    Ok(DrawnBytes::new(Octets::from_slice(alloc, octets)?))
}

/// Whether the result is the MAC of the empty list under the first salt.
fn is_mac_of_nothing(answer: Result<MacData, Error>) -> bool {
    match answer {
        Ok(mac) => mac.mac.digest.as_slice() == MAC_OF_NOTHING && mac.iterations == 2_048,
        Err(_) => false,
    }
}

/// Whether this is the next octet of a draw.
fn is_next(draw: &mut DrawnBytes, octet: u8) -> bool {
    let mut next = [0; 1];
    draw.fill(&mut next).is_ok() && next[0] == octet
}

/// Whether the MAC of the empty list is made, and takes 8 octets of the draw for its salt.
fn is_mac_made(alloc: Global) -> bool {
    match drawn(alloc, SALTS) {
        Ok(mut draw) => {
            is_mac_of_nothing(MacData::new(alloc, &[0x30, 0], &[0, 0], &mut draw))
                && is_next(&mut draw, 8)
        }
        Err(_) => false,
    }
}

#[test]
fn a_mac_is_made_under_a_drawn_salt(rt: HostRuntime) {
    assert!(rt; is_mac_made(rt.alloc()));
}

/// Whether the result has this ciphertext.
fn is_sealed(answer: Result<EncryptedData, Error>, ciphertext: &[u8]) -> bool {
    match answer {
        Ok(sealed) => sealed.encrypted_content_info.encrypted_content.as_slice() == ciphertext,
        Err(_) => false,
    }
}

/// The same of an EncryptedContentInfo.
fn is_sealed_inside(answer: Result<EncryptedContentInfo, Error>, ciphertext: &[u8]) -> bool {
    match answer {
        Ok(sealed) => sealed.encrypted_content.as_slice() == ciphertext,
        Err(_) => false,
    }
}

/// Whether the empty list is sealed under the second salt, and then under the third.
fn is_nothing_sealed_twice(alloc: Global) -> bool {
    match drawn(alloc, &SALTS[8..]) {
        Ok(mut draw) => {
            is_sealed(
                EncryptedData::from_safe_bags(alloc, &[], &[0, 0], &mut draw),
                NOTHING_SEALED,
            ) && is_sealed_inside(
                EncryptedContentInfo::from_safe_bags(alloc, &[], &[0, 0], &mut draw),
                NOTHING_SEALED_AGAIN,
            )
        }
        Err(_) => false,
    }
}

#[test]
fn contents_are_made_under_drawn_salts(rt: HostRuntime) {
    assert!(rt; is_nothing_sealed_twice(rt.alloc()));
}

/// Whether the result is that the draw failed.
fn is_draw_failed(answer: Result<MacData, Error>) -> bool {
    matches!(answer, Err(Error::Rng))
}

/// Whether no MAC is made of seven octets.
fn is_short_draw_refused(alloc: Global) -> bool {
    match drawn(alloc, &SALTS[..7]) {
        Ok(mut draw) => is_draw_failed(MacData::new(alloc, &[0x30, 0], &[0, 0], &mut draw)),
        Err(_) => false,
    }
}

#[test]
fn no_mac_is_made_where_seven_octets_are_left(rt: HostRuntime) {
    assert!(rt; is_short_draw_refused(rt.alloc()));
}

/// A store of the certificate, a key and the authority's certificate.
fn made(alloc: Global, key: &[u8], password: &str) -> Result<PFX, Error>
    requires { length password.now < 2 ^ 57 }
    ensures { IfOk result OpeningFits }
{
    let authority = Some(AUTHORITY);
    let mut draw = drawn(alloc, SALTS)?;
    PFX::new(
        alloc,
        CERTIFICATE,
        key,
        authority,
        password,
        "look",
        &mut draw,
    )
}

/// The certificates of both authorities.
fn authorities(alloc: Global) -> Result<Items<Octets>, AllocError> {
    let mut others = Items::new(alloc);
    others.push(Octets::from_slice(alloc, AUTHORITY)?)?;
    others.push(Octets::from_slice(alloc, OTHER_AUTHORITY)?)?;
    Ok(others)
}

/// A store of three certificates and a key under the password `p`.
fn made_of_three(alloc: Global) -> Result<PFX, Error>
    ensures { IfOk result OpeningFits }
{
    let mut draw = drawn(alloc, SALTS)?;
    let others = authorities(alloc)?;
    let others = others.as_slice();
    PFX::new_with_cas(alloc, CERTIFICATE, KEY, others, "p", "look", &mut draw)
}

/// What is in the stores of two certificates: a key, or an empty one; and in the store of three.
static TWO: Held<'static> = Held {
    has_mac: true,
    certificates: &[CERTIFICATE, AUTHORITY],
    sdsi: None,
    keys: &[KEY],
};

static TWO_AND_EMPTY_KEY: Held<'static> = Held {
    has_mac: true,
    certificates: &[CERTIFICATE, AUTHORITY],
    sdsi: None,
    keys: &[&[]],
};

static THREE: Held<'static> = Held {
    has_mac: true,
    certificates: &[CERTIFICATE, AUTHORITY, OTHER_AUTHORITY],
    sdsi: None,
    keys: &[KEY],
};

#[test]
fn a_store_gives_what_it_was_made_of(rt: HostRuntime) {
    let alloc = rt.alloc();
    let store = made(alloc, KEY, "changeit");
    assert!(rt; calls::is_filled(alloc, store, "changeit", "changed", &TWO));
    // an empty key under an empty password
    let store = made(alloc, &[], "");
    assert!(rt; calls::is_filled(alloc, store, "", "changeit", &TWO_AND_EMPTY_KEY));
}

#[test]
fn a_store_gives_further_certificates_in_order(rt: HostRuntime) {
    let alloc = rt.alloc();
    assert!(rt; calls::is_filled(alloc, made_of_three(alloc), "p", "q", &THREE));
}
