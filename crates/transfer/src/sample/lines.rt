//! The text that the sample is due.
ghost use Rattle.std.specs.Prelude.{◌≡◌, ◌*◌, ◌+◌, ◌≤◌, ◌++◌, ◌∷◌, [], List, ℕ, IfOk, IfErr, OnOk};
ghost use Rattle.sha2.specs.Sha256.{sha256};
ghost use Rattle.p12.specs.Canonical.{store_canon};
ghost use Rattle.p12.specs.declared.pfx.PFX.{PFX};
ghost use Rattle.frame.specs.DueText.{joined};
ghost use Rattle.frame.specs.declared.status.Status.{Status};
ghost use Rattle.transfer.specs.Sample.{IsSampleStore, SampleMakes, behind_store, drawn_octets, number_line, octets_behind, sample_text, sample_work};

use crate::program::due_text::due_lines;
use crate::sample::generator::Generator;
use crate::sample::store::{PASSWORD, sample_store};
use crate::store::error::TransferError;
use crate::store::transfer::{Transferred, transfer};
use asn1_core::{Items, Octets};
use frame::{Status, line_of};
use itoa::Buffer;
use mac_modes::DrawnBytes;
use sha2::{Digest, Sha256};
use std::alloc::{AllocError, Global};
use std::sync::ledger::Ledger;
use steps::Steps;

/// The text of a store, and the octets that are to be drawn for its documents.
#[derive(Drop)]
struct Sample {
    store: Octets,
    drawn: Octets,
}

/// The next octets of a generator, 32 for each key.
fn octets_to_draw(alloc: Global, keys: u32, generator: &mut Generator) -> Result<Octets, AllocError>
    ensures { IfOk result (λ octets. octets ≡ octets_behind generator.old.state (32 * keys)) }
{
    let mut octets = vec![in alloc; 0u8; 32 * keys as usize]?;
    generator.fill(&mut octets);
    Ok(Octets::from_vec(octets))
}

/// The text of the store of so many keys. The generator then is in front of the octets to be drawn.
fn store_text(alloc: Global, keys: u32, generator: &mut Generator) -> Result<Octets, p12::Error>
    requires { generator.old.state ≡ keys }
    ensures store { IfOk result (λ text. (store : PFX) × IsSampleStore keys store
        × (text ≡ store_canon store)) }
    ensures state { OnOk result (generator.new.state ≡ behind_store keys) }
{
    let store = sample_store(alloc, keys, generator)?;
    store.to_der(alloc)
}

/// The sample of so many keys.
fn sample_of(alloc: Global, keys: u32) -> Result<Sample, p12::Error>
    ensures store { IfOk result (λ s. (store : PFX) × IsSampleStore keys store
        × (s.store ≡ store_canon store)) }
    ensures drawn { IfOk result (λ s. s.drawn ≡ drawn_octets keys) }
{
    let mut generator = Generator::new(keys);
    let store = store_text(alloc, keys, &mut generator)?;
    let drawn = octets_to_draw(alloc, keys, &mut generator)?;
    Ok(Sample { store, drawn })
}

/// Feeds a hasher with lines, one after the other.
fn feed<H: Digest>(hasher: &mut H, lines: &[Octets])
    ensures { (m : List ℕ) → H.holds hasher.old m → H.holds hasher.new (m ++ joined lines.now) }
{
    for line in lines {
        hasher.update(line.as_slice());
    }
}

/// The digest of lines, one after the other.
fn digest_of(lines: &[Octets]) -> [u8; 32]
    ensures { result ≡ sha256 (joined lines.now) }
{
    let mut hasher = Sha256::new();
    feed(&mut hasher, lines);
    hasher.finalize()
}

/// A line of a label and a number in decimal digits.
fn number_line(alloc: Global, label: &[u8], number: u64) -> Result<Octets, AllocError>
    ensures { IfOk result (λ line. line ≡ number_line label.now number) }
{
    let mut buffer = Buffer::new();
    let mut line = Octets::from_slice(alloc, label)?;
    line.extend(buffer.format(number).as_bytes())?;
    line.extend(b"\n")?;
    Ok(line)
}

/// Puts that line after the others.
fn add_number(
    alloc: Global,
    lines: &mut Items<Octets>,
    label: &[u8],
    number: u64,
) -> Result<(), AllocError>
    ensures { OnOk result (lines.new ≡ lines.old ++ number_line label.now number ∷ []) }
{
    let line = number_line(alloc, label, number)?;
    lines.push(line)
}

/// The work of the store of so many keys.
fn work_of(keys: u32) -> u64
    requires { keys ≤ 10000 }
    ensures { result ≡ sample_work keys }
{
    3 * u64::from(keys) + 4
}

/// The five lines for a store and what it was transferred to.
fn lines_for(
    alloc: Global,
    keys: u32,
    store: &[u8],
    transferred: &Transferred,
) -> Result<Items<Octets>, AllocError>
    requires { keys ≤ 10000 }
    ensures { IfOk result (λ lines. joined lines ≡ sample_text keys store.now
        transferred.now.certificates transferred.now.documents) }
{
    let Transferred {
        certificates,
        documents,
    } = transferred;
    let text = due_lines(alloc, certificates.as_slice(), documents.as_slice())?;
    let mut lines = Items::new(alloc);
    add_number(alloc, &mut lines, b"keys ", u64::from(keys))?;
    add_number(alloc, &mut lines, b"certs ", certificates.len() as u64)?;
    add_number(alloc, &mut lines, b"store ", store.len() as u64)?;
    add_number(alloc, &mut lines, b"steps ", work_of(keys))?;
    let digest = line_of(alloc, "sha256 ", &digest_of(text.as_slice()))?;
    lines.push(digest)?;
    Ok(lines)
}

/// The lines for a sample of so many keys.
fn lines_of_sample<L: Ledger>(
    alloc: Global,
    keys: u32,
    sample: Sample,
    steps: &mut Steps<L>,
) -> Result<Items<Octets>, TransferError>
    requires store { (store : PFX) × IsSampleStore keys store × (sample.store ≡ store_canon store) }
    requires drawn { sample.drawn ≡ drawn_octets keys }
    requires keys { keys ≤ 10000 }
    ensures made { IfOk result (λ lines. SampleMakes keys steps.old steps.new (joined lines)) }
    ensures at_most { (steps.old ≤ steps.new) × (steps.new ≤ steps.old + sample_work keys) }
{
    let Sample { store, drawn } = sample;
    let mut draw = DrawnBytes::new(drawn);
    let transferred = transfer(
        alloc,
        store.as_slice(),
        PASSWORD,
        PASSWORD.as_bytes(),
        1,
        &mut draw,
        work_of(keys),
        steps,
    )?;
    Ok(lines_for(alloc, keys, store.as_slice(), &transferred)?)
}

/// The lines that are due for a sample of so many keys. The only other status is `Memory`.
pub(crate) fn sample_lines<L: Ledger>(
    alloc: Global,
    keys: u32,
    steps: &mut Steps<L>,
) -> Result<Items<Octets>, Status>
    requires { keys ≤ 10000 }
    ensures made { IfOk result (λ lines. SampleMakes keys steps.old steps.new (joined lines)) }
    ensures memory { IfErr result (λ s. s ≡ Status.Memory) }
    ensures at_most { (steps.old ≤ steps.new) × (steps.new ≤ steps.old + sample_work keys) }
{
    let Ok(sample) = sample_of(alloc, keys) else {
        return Err(Status::Memory);
    };
    match lines_of_sample(alloc, keys, sample, steps) {
        Ok(lines) => Ok(lines),
        Err(_) => Err(Status::Memory),
    }
}
