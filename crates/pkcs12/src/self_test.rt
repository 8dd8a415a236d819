//! The subcommand `self-test`: a sample store is made and transferred, and what comes of it
//! compared with what has to.
ghost use Rattle.std.specs.Prelude.{◌≡◌, ◌<◌};

use asn1_core::{Error, Items, Octets};
use mac_modes::DrawnBytes;
use pkcs12_opening::{Ending, Failure};
use std::alloc::Global;
use std::marker::Brand;
use std::sync::ledger::{Blank, Ledger};
use steps::Steps;
use transfer::{MemorySink, MemorySource, Status, run};

/// How many keys the sample has.
const KEYS: &str = "10";

/// What it gives on every machine, as `tests/vectors/sample.py` computes it, which shares no code
/// with this program.
const DUE: &str = "\
keys 10
certs 10
store 1805
steps 34
sha256 940c151a3862ea0c8ecfb552c614a1d0d71a2c4d894042d79c854692106fd0cb
";

/// More octets than the lines have.
const ROOM: usize = 1_000;

/// The arguments of the sample.
fn words(alloc: Global) -> Result<Vec<String>, Error> {
    let mut words = Vec::new(alloc);
    words.push(String::from_str(alloc, "sample")?)?;
    words.push(String::from_str(alloc, KEYS)?)?;
    Ok(words)
}

/// Runs the sample with a step counter of its own, over no input and no draw.
fn sample_into<L: Ledger>(
    alloc: Global,
    output: &mut MemorySink,
    blank: Blank,
) -> Result<Status, Error>
    requires name { blank.name ≡ L.name }
    requires parts { blank.parts ≡ L.parts }
    requires some { 0 < blank.parts }
{
    let words = words(alloc)?;
    let mut input = MemorySource::new(Octets::new(alloc), 1, Items::new(alloc));
    let mut draw = DrawnBytes::new(Octets::new(alloc));
    let mut steps = Steps::<L>::open(blank);
    Ok(run(
        alloc,
        words.as_slice(),
        &mut input,
        &mut draw,
        output,
        &mut steps,
    ))
}

/// Whether the sample gives what it has to; else what it gave in its place.
fn sample(alloc: Global) -> Result<Option<MemorySink>, Error> {
    let mut output = MemorySink::new(alloc, ROOM, Items::new(alloc))?;
    let status = sample_into::<Brand>(alloc, &mut output, Blank::new(1))?;
    if status == Status::Memory {
        return Err(Error::Memory);
    }
    if output.octets() == DUE.as_bytes() {
        return Ok(None);
    }
    Ok(Some(output))
}

/// The lines of the sample, where they are those that are due.
pub fn self_test(alloc: Global) -> Result<&'static str, Failure> {
    match sample(alloc) {
        Ok(None) => Ok(DUE),
        Ok(Some(output)) => {
            let given = output.octets().escape_ascii();
            let text = format!(in alloc; "the sample gave \"{given}\"")?;
            Err(Failure::with(Ending::SelfTestFailed, text))
        }
        Err(_) => Err(Failure::new(Ending::Memory, "there was not enough memory")),
    }
}
