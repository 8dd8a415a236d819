//! Reads, writes and draws that fail in turn: the status, and what was written before.
use crate::run::{Case, QUIET, holds};
use crate::stores::{CHANGED, ISSUED, PUBLISHED};
use frame::Status;

/// A change of a store: its input is read in six pieces, and the seventh read finds the end.
const CHANGE: Case<'static> = Case {
    arguments: "rekey 14336 changeit newpass",
    input: PUBLISHED,
    ..QUIET
};

/// A list of what a store holds, in three writes.
const LIST: Case<'static> = Case {
    arguments: "inventory changeit 14336",
    input: ISSUED,
    ..QUIET
};

/// Two names that are added, in six writes: a reply, a reply, an empty line, an entry, an entry.
const NAMES: Case<'static> = Case {
    arguments: "passdb 1000 -",
    input: "\nadd bob s3cret\nadd ann x\n",
    ..QUIET
};

#[test]
fn each_failed_read_is_named(rt: HostRuntime) {
    for failing_read in 0..7 {
        for quiet in [CHANGE, LIST] {
            let case = Case {
                failing_read,
                status: Status::ReadFault,
                due: &["error: ReadFault\n"],
                ..quiet
            };
            assert!(rt; holds(rt.alloc(), &case));
        }
    }
}

#[test]
fn a_read_after_the_end_is_not_made(rt: HostRuntime) {
    let case = Case {
        failing_read: 7,
        due: &["store ", CHANGED, "\n"],
        ..CHANGE
    };
    assert!(rt; holds(rt.alloc(), &case));
}

#[test]
fn each_failed_draw_is_named(rt: HostRuntime) {
    for failing_draw in 0..2 {
        let case = Case {
            failing_draw,
            status: Status::Rng,
            due: &["error: Rng\n"],
            ..NAMES
        };
        assert!(rt; holds(rt.alloc(), &case));
    }
    let case = Case {
        failing_draw: 0,
        status: Status::Rng,
        due: &["error: Rng\n"],
        ..CHANGE
    };
    assert!(rt; holds(rt.alloc(), &case));
}

/// The lines of the list.
const LINES: [&str; 3] = [
    "cert 0 55dd4c74b0e48534e2f4e173ceceb50df8f27a7ac2aa8991cc7ae914e030bced 1\n",
    "cert 1 55dd4c74b0e48534e2f4e173ceceb50df8f27a7ac2aa8991cc7ae914e030bced self\n",
    "key 0 0 1\n",
];

#[test]
fn nothing_is_written_after_a_failed_write(rt: HostRuntime) {
    for written in 0..3usize {
        let case = Case {
            failing_write: written as u64,
            status: Status::WriteFault,
            due: &LINES[..written],
            ..LIST
        };
        assert!(rt; holds(rt.alloc(), &case));
    }
    let case = Case {
        failing_write: 0,
        status: Status::WriteFault,
        ..CHANGE
    };
    assert!(rt; holds(rt.alloc(), &case));
}

#[test]
fn replies_come_before_the_file(rt: HostRuntime) {
    let case = Case {
        failing_write: 2,
        status: Status::WriteFault,
        due: &["added\nadded\n"],
        ..NAMES
    };
    assert!(rt; holds(rt.alloc(), &case));
}
