//! A counter of steps that takes no octets when a program runs: what a call costs is in its contract, and no
//! program can read it.
//!
//! A counted call takes a `&mut Steps<L>` as its last parameter and states how far it moves it. The same call without
//! a counter is two functions: `work_from(.., blank: Blank)` opens a counter and lends it to the counted call, and
//! `work(..)` hands it `Blank::new(1)`. The tests of `primitive_tests` show both.
#![tactic(auto)]

mod counter;

pub use counter::Steps;
