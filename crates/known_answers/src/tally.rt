//! Counting the cases that hold.
ghost use Rattle.std.specs.Prelude.{◌≡◌, ◌+◌, IfOk, true, count_by, All};
ghost use Rattle.known_answers.specs.Lines.{is_case, Holds};

use crate::case::{holds, read_case};
use std::alloc::{AllocError, Global};
use std::io;
use std::io::Write;

/// How many cases held, and how many did not.
#[derive(Clone, Copy)]
pub struct Counts {
    pub passed: usize,
    pub failed: usize,
}

/// Whether a line is a case: it is not empty, and does not begin with `#`.
fn is_case(line: &str) -> bool
    ensures { result ≡ is_case line.now }
{
    match line.as_bytes().first() {
        None => false,
        Some(octet) => *octet != b'#',
    }
}

/// Whether a line is a case that holds.
fn passes(alloc: Global, line: &str) -> Result<bool, AllocError>
    ensures { IfOk result (λ held. held ≡ true → Holds line.now) }
{
    match read_case(alloc, line)? {
        Some(case) => holds(alloc, &case),
        None => Ok(false),
    }
}

/// Tries each case, and writes a line for each that does not hold.
pub fn tally<W: Write>(alloc: Global, lines: &[&str], out: &mut W) -> io::Result<Counts>
    ensures counts { IfOk result (λ counts.
        counts.passed + counts.failed ≡ count_by (λ line. is_case line.now) lines.now) }
    ensures held { IfOk result (λ counts. counts.failed ≡ 0
        → All (λ line. is_case line.now ≡ true → Holds line.now) lines.now) }
{
    let mut passed = 0;
    let mut failed = 0;
    for line in lines {
        if is_case(line) {
            if passes(alloc, line)? {
                passed += 1;
            } else {
                failed += 1;
                writeln!(out, "differs: {line}")?;
            }
        }
    }
    Ok(Counts { passed, failed })
}

/// The lines of a text.
pub fn lines_of(alloc: Global, text: &str) -> Result<Vec<&str>, AllocError> {
    let mut lines = Vec::new(alloc);
    for line in text.split('\n') {
        lines.push(line)?;
    }
    Ok(lines)
}
