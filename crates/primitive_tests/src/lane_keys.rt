//! Four keys of PBKDF2 at once, and a caller of `sha2_lanes`, as its `README.md` shows it.
ghost use Rattle.std.specs.Prelude.{◌≡◌, ◌++◌, ◌<◌, ℕ, List, [], slice_index_or};
ghost use Rattle.sha2.specs.Sha256.{sha256};
ghost use Rattle.sha2_lanes.specs.Lanes.{lane, octets};

use pbkdf2::{PasswordAndSalt, pbkdf2_hmac_sha256_four};
use sha2_lanes::{after_block, finish_96, from_octets, to_octets};
use std::simd::u32x4;

/// Four passwords and salts. The password of the last has more octets than a block of SHA-256.
const INPUTS: [PasswordAndSalt<'static>; 4] = [
    PasswordAndSalt {
        password: b"password",
        salt: b"salt",
    },
    PasswordAndSalt {
        password: b"",
        salt: b"NaCl of 16 octet",
    },
    PasswordAndSalt {
        password: b"passwordPASSWORDpassword",
        salt: b"saltSALTsaltSALTsaltSALTsaltSALTsalt",
    },
    PasswordAndSalt {
        password: b"a password of more octets than a block of SHA-256 has, which is 64 of them",
        salt: b"",
    },
];

// 1,000 rounds, as Python's `hashlib.pbkdf2_hmac` derives them
#[test]
fn keys_of_a_thousand_rounds(rt: HostRuntime) {
    let [a, b, c, d] = pbkdf2_hmac_sha256_four(&INPUTS, 1000);
    let expected =
        *b"\x63\x2c\x28\x12\xe4\x6d\x46\x04\x10\x2b\xa7\x61\x8e\x9d\x6d\x7d\x2f\x81\x28\xf6\x26\x6b\x4a\x03\x26\x4d\x2a\x04\x60\xb7\xdc\xb3";
    assert!(rt; a == expected);
    let expected =
        *b"\x3a\x67\x4e\x54\x6c\x54\x84\x63\x69\xa9\xd8\x2c\xbf\x1b\x18\xee\x1e\x0c\x08\x63\x21\x0c\x51\x80\x96\x01\x74\x39\xf0\x33\x43\x41";
    assert!(rt; b == expected);
    let expected =
        *b"\x46\x10\xdf\x20\x22\x92\x27\x0a\x76\x13\xe4\x72\x3f\x6e\x8d\x1e\x51\x3f\xb6\x2c\xab\xa8\xfb\x8a\x01\x68\x29\x34\x11\xf2\x89\x6c";
    assert!(rt; c == expected);
    let expected =
        *b"\x14\x83\x97\x05\xc3\xb2\x90\x84\xf6\x3d\xa7\x3e\x3e\xe2\xc9\x9a\x56\x43\x64\x4e\x8b\x3c\xb5\xca\x8f\x8d\x09\x14\xa2\x1c\xdb\x35";
    assert!(rt; d == expected);
}

// 1 round, as Python's `hashlib.pbkdf2_hmac` derives them
#[test]
fn keys_of_one_round(rt: HostRuntime) {
    let [a, b, c, d] = pbkdf2_hmac_sha256_four(&INPUTS, 1);
    let expected =
        *b"\x12\x0f\xb6\xcf\xfc\xf8\xb3\x2c\x43\xe7\x22\x52\x56\xc4\xf8\x37\xa8\x65\x48\xc9\x2c\xcc\x35\x48\x08\x05\x98\x7c\xb7\x0b\xe1\x7b";
    assert!(rt; a == expected);
    let expected =
        *b"\x78\xd9\x58\x3f\x37\x05\x26\x0d\x97\x5f\xb5\x00\xee\x24\x91\xcb\x91\xca\x2e\x3a\x22\x2e\x90\x61\x76\x1d\x5a\x16\xff\x3d\x46\x43";
    assert!(rt; b == expected);
    let expected =
        *b"\x05\x1e\x94\x5b\x44\x15\x58\x46\xde\x9d\x87\x9b\x8c\x06\x2e\xee\x1f\x5f\xc6\xef\x37\xe3\x3c\x8a\x8e\xe0\xa7\x70\xd4\x5b\xe8\xda";
    assert!(rt; c == expected);
    let expected =
        *b"\xbd\x1d\xe9\x76\x97\xb5\x23\xa1\xac\xa9\x93\x5c\x1b\x2b\x63\x1e\x36\xb0\x88\x18\xf1\x3f\x1e\x2f\x57\x11\xee\xf4\x20\xcc\xa9\xad";
    assert!(rt; d == expected);
}

#[test]
fn no_rounds_run_like_one(rt: HostRuntime) {
    assert!(rt; pbkdf2_hmac_sha256_four(&INPUTS, 0) == pbkdf2_hmac_sha256_four(&INPUTS, 1));
}

/// The hash values of four messages, each a block and 32 octets.
fn hashes(blocks: &[[u8; 64]; 4], ends: &[[u8; 32]; 4]) -> [u32x4; 8]
    ensures { (j : ℕ) → j < 4 → octets (lane j result)
        ≡ sha256 (slice_index_or blocks.now j [] ++ slice_index_or ends.now j []) }
{
    finish_96(&after_block(blocks), &from_octets(ends))
}

// as Python's `hashlib.sha256` hashes them
#[test]
fn hashes_of_96_octets(rt: HostRuntime) {
    let blocks = [[b'a'; 64], [0; 64], [255; 64], [b'c'; 64]];
    let ends = [[b'b'; 32], [0; 32], [255; 32], [b'd'; 32]];
    let [a, b, c, d] = to_octets(&hashes(&blocks, &ends));
    let expected =
        *b"\x82\x96\x99\x94\x3f\x64\xde\xd1\xc0\xbd\xd1\x1c\x3b\x46\x5a\x1f\x54\x3a\x9e\x81\x60\xec\x25\xb2\xf6\x73\xe4\x22\x6f\xb6\xa2\xf2";
    assert!(rt; a == expected);
    let expected =
        *b"\x2e\xa9\xab\x91\x98\xd1\x63\x80\x07\x40\x0c\xd2\xc3\xbe\xf1\xcc\x74\x5b\x86\x4b\x76\x01\x1a\x0e\x1b\xc5\x21\x80\xac\x64\x52\xd4";
    assert!(rt; b == expected);
    let expected =
        *b"\xce\x65\x60\x9c\xc5\x64\xce\x3d\x8c\xb7\x2d\x46\xbc\x44\xcd\x54\x95\xaf\xba\xd7\xbc\x61\xb5\xed\xfa\x07\x99\xba\xa5\x06\x31\x91";
    assert!(rt; c == expected);
    let expected =
        *b"\xa2\xe9\x39\xa5\x76\x18\xdd\x67\x08\xae\x00\xbb\x84\x3f\xe3\x8d\x87\x61\xab\x98\x8b\x75\x5b\x8a\x6a\xea\xab\x00\xb1\x03\x0e\x13";
    assert!(rt; d == expected);
}
