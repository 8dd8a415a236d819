//! The programs over memory: the runs that their definitions give as examples. `tests/programs.sh` has more.
use crate::run::{Case, QUIET, holds};
use crate::stores::{CHANGED, CHANGED_TWICE, ISSUED, PUBLISHED};
use frame::Status;
use std::alloc::Global;

/// The octets 40 to 57, to be drawn for one change of the published store.
const ONE: &str = "\n404142434445464748494a4b4c4d4e4f5051525354555657\n";

/// One octet less.
const SHORT: &str = "\n404142434445464748494a4b4c4d4e4f50515253545556\n";

/// The octets 40 to 6f, for two changes.
const TWO: &str =
    "\n404142434445464748494a4b4c4d4e4f505152535455565758595a5b5c5d5e5f606162636465666768696a6b6c6d6e6f";

/// Stores under another password, and a command of one password.
static CHANGES: [Case<'static>; 7] = [
    Case {
        arguments: "rekey 14336 changeit newpass",
        input: PUBLISHED,
        more_input: ONE,
        status: Status::Done,
        due: &["store ", CHANGED, "\n"],
        ..QUIET
    },
    Case {
        arguments: "rekey 14336 changeit newpass",
        input: CHANGED,
        more_input: ONE,
        status: Status::MacMismatch,
        due: &["error: MacMismatch\n"],
        ..QUIET
    },
    Case {
        arguments: "rekey 14336 changeit newpass",
        input: PUBLISHED,
        more_input: SHORT,
        status: Status::Rng,
        due: &["error: Rng\n"],
        ..QUIET
    },
    // The changed store under its new password, and under the first salts again.
    Case {
        arguments: "rekey 14336 newpass changeit",
        input: CHANGED,
        more_input: "\n08090a0b0c0d0e0f00010203040506071011121314151617\n",
        status: Status::Done,
        due: &["store ", PUBLISHED, "\n"],
        ..QUIET
    },
    // The octets of the handed-in draw, of which as many are told as in the second line.
    Case {
        arguments: "rekey 14336 changeit newpass",
        input: PUBLISHED,
        more_input: "",
        status: Status::Done,
        due: &["store ", CHANGED, "\n"],
        ..QUIET
    },
    Case {
        arguments: "rekey 14336 changeit a b",
        input: PUBLISHED,
        more_input: TWO,
        status: Status::Done,
        due: &["store ", CHANGED_TWICE, "\n"],
        ..QUIET
    },
    Case {
        arguments: "rekey 9 x",
        input: PUBLISHED,
        more_input: "",
        status: Status::Usage,
        due: &["error: Usage\n"],
        ..QUIET
    },
];

/// What two stores hold.
static INVENTORIES: [Case<'static>; 3] = [
    Case {
        arguments: "inventory changeit 14336",
        input: ISSUED,
        more_input: "\n",
        status: Status::Done,
        due: &[
            "cert 0 55dd4c74b0e48534e2f4e173ceceb50df8f27a7ac2aa8991cc7ae914e030bced 1\n",
            "cert 1 55dd4c74b0e48534e2f4e173ceceb50df8f27a7ac2aa8991cc7ae914e030bced self\n",
            "key 0 0 1\n",
        ],
        ..QUIET
    },
    Case {
        arguments: "inventory changeit 14336",
        input: PUBLISHED,
        more_input: "",
        status: Status::Done,
        due: &["cert 0 - -\ncert 1 - -\ncert 2 - -\nkey 0 0\n"],
        ..QUIET
    },
    Case {
        arguments: "inventory changeit 14336",
        input: PUBLISHED,
        more_input: ONE,
        status: Status::InputMalformed,
        due: &["error: InputMalformed\n"],
        ..QUIET
    },
];

/// Commands that add a name and test its password.
const COMMANDS: &str = "\nadd bob s3cret\ncheck bob s3cret\ncheck bob x\nadd bob y\nremove eve\n";

/// The entry of `bob`, by Python's `hashlib`.
const BOB: &str =
    "bob:$pbkdf2-sha256$i=1000,l=32$AAECAwQFBgcICQoLDA0ODw$M6eMN3yntlkPobIVzJcPulFgdvEI7LaK9Y7JXYYCFwE\n";

/// A file whose entry the Rust crate `pbkdf2` makes.
const ANN: &str =
    "ann:$pbkdf2-sha256$i=4096,l=40$c2FsdFNBTFRzYWx0U0FMVHNhbHRTQUxUc2FsdFNBTFRzYWx0$NIyJ28vTKy8y2BS4EW6EzysXNH68GAAYHE4qH7jdU+HGNVGMfaxH6Q\n";

/// The entry of the same password in 5,000 rounds, by Python's `hashlib`.
const RENEWED: &str =
    "ann:$pbkdf2-sha256$i=5000,l=32$AAECAwQFBgcICQoLDA0ODw$9+ShcAgM3FIvYAoBRVkuJC/0ob3HatMjXhjMg8B67ps\n";

/// Files of passwords, and commands.
static PASSWORDS: [Case<'static>; 4] = [
    Case {
        arguments: "passdb 1000 000102030405060708090a0b0c0d0e0f",
        input: COMMANDS,
        more_input: "",
        status: Status::Done,
        due: &["added\ngood\nwrong\nexists\nunknown\n\n", BOB],
        ..QUIET
    },
    Case {
        arguments: "passdb 1000 00",
        input: COMMANDS,
        more_input: "",
        status: Status::Rng,
        due: &["error: Rng\n"],
        ..QUIET
    },
    Case {
        arguments: "passdb 4096 000102030405060708090a0b0c0d0e0f",
        input: ANN,
        more_input: "\ncheck ann passwordPASSWORDpassword\n",
        status: Status::Done,
        due: &["good\n\n", ANN],
        ..QUIET
    },
    Case {
        arguments: "passdb 5000 000102030405060708090a0b0c0d0e0f",
        input: ANN,
        more_input: "\ncheck ann passwordPASSWORDpassword\n",
        status: Status::Done,
        due: &["renewed\n\n", RENEWED],
        ..QUIET
    },
];

/// Whether each run ends and writes as it has to.
fn hold(alloc: Global, cases: &[Case<'_>]) -> bool {
    cases.iter().all(|case| holds(alloc, case))
}

#[test]
fn stores_are_changed(rt: HostRuntime) {
    assert!(rt; hold(rt.alloc(), &CHANGES));
}

#[test]
fn stores_are_listed(rt: HostRuntime) {
    assert!(rt; hold(rt.alloc(), &INVENTORIES));
}

#[test]
fn names_are_added_and_tested(rt: HostRuntime) {
    assert!(rt; hold(rt.alloc(), &PASSWORDS));
}
