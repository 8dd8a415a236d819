//! Counted and uncounted calls.
ghost use Rattle.std.specs.Prelude.{◌≡◌, ◌+◌, ◌<◌, ℕ};

use std::marker::Brand;
use std::sync::ledger::{Blank, Ledger};
use steps::Steps;

/// A counted call: it doubles the number as often as it is told, and takes a step each time.
fn doubled_counted<L: Ledger>(start: u64, times: u8, steps: &mut Steps<L>) -> u64
    ensures { steps.new ≡ steps.old + times }
{
    let mut number = start;
    for _time in 0..times {
        number = number.wrapping_mul(2);
        steps.tick();
    }
    number
}

/// The same over a counter of its own.
fn doubled_from<L: Ledger>(start: u64, times: u8, blank: Blank) -> u64
    requires name { blank.name ≡ L.name }
    requires parts { blank.parts ≡ L.parts }
    requires some { 0 < blank.parts }
{
    let mut steps = Steps::<L>::open(blank);
    doubled_counted::<L>(start, times, &mut steps)
}

/// The uncounted call.
fn doubled(start: u64, times: u8) -> u64 {
    doubled_from::<Brand>(start, times, Blank::new(1))
}

#[test]
fn an_uncounted_call_opens_a_counter_of_its_own(rt: HostRuntime) {
    assert_eq!(rt; doubled(3, 4), 48);
}

#[test]
fn a_counter_takes_no_octets(rt: HostRuntime) {
    assert_eq!(rt; size_of::<Steps<Brand>>(), 0);
}
