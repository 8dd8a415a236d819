//! The files that are read, of which several may be one and the same.
ghost use Rattle.std.specs.Prelude.{◌≡◌, ◌⊎◌, IfErr};

use command_base::Origin;
use pkcs12_arguments::Create;
use pkcs12_opening::{Ending, Failure, are_one, is_not_given_again, path_of_store};
use std::alloc::Global;
use std::io::Read;
use std::rt::{Env, Files};
use std::{fs, io};
use terminal_text::Printable;
use transfer::TransferError;

/// The most octets of a file.
const LONGEST: usize = 16_777_215;

/// The octets of a file, or of the standard input for `-`; one more than the most where there are more.
fn octets_of<R: Files + Input + AllocGlobal>(rt: &R, path: &str) -> io::Result<Vec<u8>> {
    let most = LONGEST as u64 + 1;
    let mut octets = Vec::new(rt.alloc());
    if path == "-" {
        rt.reader().take(most).read_to_end(&mut octets)?;
    } else {
        let file = fs::open(rt, path)?;
        file.take(most).read_to_end(&mut octets)?;
    }
    Ok(octets)
}

/// The failure of a file that is longer than one may be.
fn too_long(alloc: Global, path: &str) -> Failure
    ensures { (result.ending ≡ Ending.Refused TransferError.TooLong)
        ⊎ (result.ending ≡ Ending.Memory) }
{
    let shown = Printable(path);
    let text = format!(in alloc; "{shown} has more than 16,777,215 octets");
    Failure::told(Ending::Refused(TransferError::TooLong), text).advised(
        "Look whether it is the right file.",
    )
}

/// Reads a file, or the standard input for `-`. `ReadFault` where it cannot be read, and `TooLong` where it has more than 16,777,215
/// octets.
pub fn read_input<R: Files + Input + AllocGlobal>(rt: &R, path: &str) -> Result<Vec<u8>, Failure>
    ensures { IfErr result (λ f. (f.ending ≡ Ending.ReadFault) ⊎ (f.ending ≡ Ending.Memory)
        ⊎ (f.ending ≡ Ending.Refused TransferError.TooLong)) }
{
    match octets_of(rt, path) {
        Ok(octets) if octets.len() > LONGEST => Err(too_long(rt.alloc(), path)),
        Ok(octets) => Ok(octets),
        Err(error) => Err(Failure::io(rt.alloc(), Ending::ReadFault, "the file", path, error)),
    }
}

/// Whether one of the files is read once alone, so that the script which asks for passwords could not run the program again.
pub fn is_read_once_alone<R: Files + Env + AllocGlobal>(rt: &R, asked: &Create<'_>) -> bool {
    // A password of a variable can be read again: it is the file that is looked at.
    let again = Some(Origin::Variable(""));
    for pair in &asked.pairs {
        if is_not_given_again(rt, pair.key, again)
            || is_not_given_again(rt, pair.certificate, again)
        {
            return true;
        }
    }
    for chain in &asked.chains {
        if is_not_given_again(rt, *chain, again) {
            return true;
        }
    }
    false
}

/// Whether a password comes from this file.
fn is_origin<R: Files>(rt: &R, path: &str, origin: Option<Origin<'_>>) -> bool {
    match origin {
        Some(Origin::Variable(_)) | None => false,
        Some(origin) => are_one(rt, path_of_store(path), origin.path()),
    }
}

/// `Usage` where this file is also that of a password, or would be replaced by the store.
fn differs<R: Files>(rt: &R, asked: &Create<'_>, path: &str) -> Result<(), Failure>
    ensures { IfErr result (λ f. f.ending ≡ Ending.Usage) }
{
    if is_origin(rt, path, asked.password) || is_origin(rt, path, asked.new_password) {
        return Err(Failure::new(
            Ending::Usage,
            "the standard input, a file or a pipe gives a key or certificates or a password, and only one of these",
        ));
    }
    if are_one(rt, path_of_store(path), asked.out) {
        return Err(Failure::new(
            Ending::Usage,
            "the new store would replace a file that it is made of",
        ));
    }
    Ok(())
}

/// How many of the paths are the standard input.
fn standard_inputs(asked: &Create<'_>) -> usize {
    let mut count = 0usize;
    for pair in &asked.pairs {
        if pair.key == "-" {
            count = count.saturating_add(1);
        }
        if pair.certificate == "-" {
            count = count.saturating_add(1);
        }
    }
    for chain in &asked.chains {
        if *chain == "-" {
            count = count.saturating_add(1);
        }
    }
    count
}

/// `Usage` where a file of keys or certificates is also that of a password or of the new store, or the standard input is to be read
/// twice.
pub fn inputs_differ<R: Files>(rt: &R, asked: &Create<'_>) -> Result<(), Failure>
    ensures { IfErr result (λ f. f.ending ≡ Ending.Usage) }
{
    for pair in &asked.pairs {
        differs(rt, asked, pair.key)?;
        differs(rt, asked, pair.certificate)?;
    }
    for chain in &asked.chains {
        differs(rt, asked, *chain)?;
    }
    if standard_inputs(asked) > 1 {
        return Err(Failure::new(
            Ending::Usage,
            "the standard input is read once, and - is given more than once",
        ));
    }
    Ok(())
}
