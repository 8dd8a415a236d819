//! A key of RFC 7914 section 12, bounds, and printed refusals.

ghost use Rattle.std.specs.Prelude.{◌≡◌, ◌^◌, IfOk};
ghost use Rattle.scrypt_core.specs.Scrypt.{scrypt};

use crate::answers::prints;
use scrypt_core::*;
use std::alloc::Global;

// A caller of the crate, as `README.md` shows it: a key of 32 octets.
fn key(alloc: Global, password: &[u8], salt: &[u8], costs: &Params) -> Result<[u8; 32], ScryptError>
    ensures { IfOk result
        (λ key. key
        ≡ scrypt password.now salt.now (2 ^ costs.now.log_n) costs.now.r costs.now.p 32) }
{
    let mut key = [0u8; 32];
    scrypt(alloc, password, salt, costs, &mut key)?;
    Ok(key)
}

// the front of the first key of the standard: a shorter one is a prefix
#[test]
fn a_shorter_key_is_a_prefix(rt: HostRuntime) {
    let costs = Params::new(4, 1, 1).expect(&rt, "costs");
    let key = key(rt.alloc(), b"", b"", &costs).expect(&rt, "a key");
    assert!(rt; key.starts_with(b"\x77\xd6\x57\x62\x38\x65\x7b\x20"));
}

#[test]
fn an_empty_output_is_refused(rt: HostRuntime) {
    let costs = Params::new(4, 1, 1).expect(&rt, "costs");
    let refused = scrypt(rt.alloc(), b"", b"", &costs, &mut []);
    assert!(rt; refused == Err(ScryptError::InvalidOutputLen));
}

/// Whether the costs are taken, and come back.
fn is_taken(log_n: u8, r: u32, p: u32) -> bool {
    let Ok(params) = Params::new(log_n, r, p) else {
        return false;
    };
    params.log_n() == log_n && params.r() == r && params.p() == p
}

/// Costs within their bounds.
static TAKEN: [(u8, u32, u32); 5] = [
    (1, 1, 1),
    (15, 1, 1),
    (4, 1, 0x3fff_ffff),
    (53, 4, 1),
    (14, 8, 1),
];

/// Costs out of them.
static REFUSED: [(u8, u32, u32); 10] = [
    (0, 1, 1),
    (16, 1, 1),
    (4, 0, 1),
    (3, 1, 0),
    (4, 1, 0),
    (4, 1, 0x4000_0000),
    (4, 0x8000, 0x8000),
    (54, 4, 1),
    (64, 8, 1),
    (255, 255, 1),
];

#[test]
fn costs_are_taken_within_their_bounds(rt: HostRuntime) {
    for (log_n, r, p) in &TAKEN {
        assert!(rt; is_taken(*log_n, *r, *p), "{log_n} {r} {p}");
    }
    for (log_n, r, p) in &REFUSED {
        assert!(rt;
            Params::new(*log_n, *r, *p) == Err(InvalidParams),
            "{log_n} {r} {p}"
        );
    }
}

#[test]
fn refusals_are_printed(rt: HostRuntime) {
    let alloc = rt.alloc();
    assert!(rt;
        prints(alloc, &InvalidParams, "InvalidParams")
            && prints(alloc, &ScryptError::InvalidOutputLen, "InvalidOutputLen")
            && prints(alloc, &ScryptError::Memory, "out of memory")
    );
}
