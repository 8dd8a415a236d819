//! Each refusal is printed as its name.

use crate::answers::prints;
use mac_modes::{InvalidLength, ModeError};
use octet_core::Failed;

/// Refusals of modes, and their names.
static PRINTED: [(ModeError, &str); 4] = [
    (ModeError::NoRoom, "NoRoom"),
    (ModeError::BadLength, "BadLength"),
    (ModeError::BadPadding, "BadPadding"),
    (ModeError::BadTag, "BadTag"),
];

#[test]
fn refusals_are_printed_as_their_names(rt: HostRuntime) {
    for (refusal, name) in &PRINTED {
        assert!(rt; prints(rt.alloc(), refusal, name), "{name}");
    }
    assert!(rt; prints(rt.alloc(), &InvalidLength, "InvalidLength"));
    assert!(rt; prints(rt.alloc(), &Failed, "Failed"));
}
