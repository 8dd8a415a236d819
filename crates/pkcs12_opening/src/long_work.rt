//! Work that takes a while.
use crate::counted::Counted;
use crate::surroundings::Surroundings;
use pkcs12_inspection::visible_work;
use std::{fmt, io};

/// More steps than a machine takes in about a second.
const LONG_WORK: u128 = 2_000_000;

/// More rounds of PBKDF2 than a machine takes in about a second.
const LONG_ROUNDS: u32 = 500_000;

/// How many rounds of PBKDF2 a machine takes in about a second.
const ROUNDS_A_SECOND: u128 = 2_000_000;

/// About how long so many rounds take.
#[derive(Clone, Copy)]
pub struct Duration(pub u128);

impl fmt::Display for Duration {
    fn fmt<W: fmt::Write>(&self, f: &mut fmt::Formatter<W>) -> fmt::Result {
        let seconds = self.0 / ROUNDS_A_SECOND;
        if seconds < 2 {
            f.write_str("a second")
        } else if seconds < 120 {
            write!(f, "{seconds} seconds")
        } else if seconds < 7_200 {
            let minutes = seconds / 60;
            write!(f, "{minutes} minutes")
        } else {
            let hours = seconds / 3_600;
            write!(f, "{hours} hours")
        }
    }
}

fn are_many(rounds: Option<u32>) -> bool {
    match rounds {
        Some(rounds) => rounds > LONG_ROUNDS,
        None => false,
    }
}

/// About how long sealing so many keys in so many rounds takes: four keys take the time of two.
pub fn sealing_time(keys: usize, rounds: u32) -> Duration {
    let all = (keys as u128).saturating_mul(u128::from(rounds));
    if keys < 4 {
        Duration(all)
    } else {
        Duration(all / 2)
    }
}

/// Whether sealing so many keys in so many rounds takes more than about a second.
pub fn is_long_sealing(keys: usize, rounds: u32) -> bool {
    (keys as u128).saturating_mul(u128::from(rounds)) > LONG_WORK
}

/// Says that private keys are sealed, and about how long it takes.
pub fn tell_sealing<R: Eprint>(rt: &R, keys: usize, rounds: u32) {
    let time = sealing_time(keys, rounds);
    let keys = Counted(keys, "private key");
    // A terminal that cannot be written to is no failure of the work.
    match eprintln!(rt; "pkcs12: sealing {keys}, which takes about {time}") {
        Ok(()) | Err(_) => {}
    }
}

/// Says what the work takes; `rounds` are those of each private key that is written.
fn tell_work<R: Eprint>(rt: &R, work: u128, rounds: Option<u32>) -> io::Result<()> {
    match rounds {
        Some(rounds) => eprintln!(rt;
            "pkcs12: working: opening the store takes at least {work} steps, and each private \
             key {rounds} rounds"
        ),
        None => eprintln!(rt; "pkcs12: working: opening the store takes at least {work} steps"),
    }
}

/// Says at a terminal that the work takes more than about a second; `rounds` are those of each private key that is written, where some
/// are.
pub fn tell_long_work<R: Eprint>(rt: &R, around: Surroundings, store: &[u8], rounds: Option<u32>) {
    let work = visible_work(store);
    if around.at_terminal && (work > LONG_WORK || are_many(rounds)) {
        // A terminal that cannot be written to is no failure of the work.
        match tell_work(rt, work, rounds) {
            Ok(()) | Err(_) => {}
        }
    }
}
