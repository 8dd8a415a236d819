//! What a terminal shows while private keys are sealed.
ghost use Rattle.std.specs.Prelude.{◌≡◌};

use mac_modes::{Draw, Failed};
use std::fmt;

/// How many octets are drawn for each private key.
const DRAWN: u64 = 32;

/// How many characters the bar has.
const WIDTH: u64 = 10;

/// How much of the work is done: a bar, and the numbers of private keys.
#[derive(Clone, Copy)]
struct Bar {
    done: u64,
    all: u64,
}

impl fmt::Display for Bar {
    fn fmt<W: fmt::Write>(&self, f: &mut fmt::Formatter<W>) -> fmt::Result {
        let done = u128::from(self.done) * u128::from(WIDTH);
        f.write_str("[")?;
        for place in 0..WIDTH {
            let is_full = u128::from(place) * u128::from(self.all) < done;
            f.write_str(if is_full { "#" } else { "." })?;
        }
        let done = self.done;
        let all = self.all;
        write!(f, "] {done} of {all}")
    }
}

/// Shows a bar in the place of the one that was shown before.
fn show<R: Eprint>(rt: &R, bar: Bar) {
    // A terminal that cannot be written to is no failure of the work.
    match eprint!(rt; "\rpkcs12: {bar} keys sealed") {
        Ok(()) | Err(_) => {}
    }
}

/// A draw that shows at a terminal for how many private keys it has drawn. The octets of a few are drawn just before these
/// are sealed.
#[derive(Drop)]
pub struct Progress<'a, R, D> {
    rt: &'a R,
    draw: D,
    /// How many private keys there are.
    keys: u64,
    /// How many octets were drawn.
    drawn: u64,
    is_shown: bool,
}

impl<'a, R: Eprint, D: Draw> Progress<'a, R, D> {
    /// A draw of the same octets.
    pub fn new(rt: &'a R, draw: D, keys: usize, is_shown: bool) -> Progress<'a, R, D>
        ensures { result.draw ≡ draw }
    {
        Progress {
            rt,
            draw,
            keys: keys as u64,
            drawn: 0,
            is_shown,
        }
    }
}

/// Ends the line of the bar, which is full where all private keys are sealed.
pub fn end_progress<R: Eprint>(rt: &R, keys: usize, are_sealed: bool) {
    if are_sealed {
        let all = keys as u64;
        show(rt, Bar { done: all, all });
    }
    // A terminal that cannot be written to is no failure of the work.
    match eprintln!(rt; "") {
        Ok(()) | Err(_) => {}
    }
}

impl<R: Eprint, D: Draw> Draw for Progress<'_, R, D> {
    ghost left = { λ p. D.left p.draw };

    ghost faults = { λ p. D.faults p.draw };

    fn fill(&mut self, out: &mut [u8]) -> Result<(), Failed> {
        if self.is_shown && self.drawn % DRAWN == 0 {
            let bar = Bar {
                done: self.drawn / DRAWN,
                all: self.keys,
            };
            show(self.rt, bar);
        }
        self.drawn = self.drawn.saturating_add(out.len() as u64);
        self.draw.fill(out)
    }
}
