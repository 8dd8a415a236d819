//! The standard output.
ghost use Rattle.std.specs.Prelude.{◌≡◌, ◌⊎◌, IfErr};

use crate::ending::{Ending, Failure};
use std::alloc::{AllocError, Global};
use std::io;

/// `WriteFault` where a write to the standard output failed, with advice by its cause.
pub fn printed(alloc: Global, outcome: io::Result<()>) -> Result<(), Failure>
    ensures { IfErr result (λ f. (f.ending ≡ Ending.WriteFault) ⊎ (f.ending ≡ Ending.Memory)) }
{
    match outcome {
        Ok(()) => Ok(()),
        Err(error) => Err(not_printed(alloc, error)),
    }
}

fn not_printed(alloc: Global, error: io::Error) -> Failure
    ensures { (result.ending ≡ Ending.WriteFault) ⊎ (result.ending ≡ Ending.Memory) }
{
    let advice = match error.kind() {
        io::ErrorKind::OutOfMemory => return Failure::from(AllocError),
        io::ErrorKind::BrokenPipe => "What reads the output ended before it had all of it.",
        _ => "Look whether the file or device that takes the output is full.",
    };
    let text = format!(in alloc; "the standard output: {error}");
    Failure::told(Ending::WriteFault, text).advised(advice)
}
