//! The subcommand `export`: writes what an opened store has.
use pkcs12_arguments::Export;
use pkcs12_certificates::{Chain, ChainError, chain_text, chain_warnings, chains};
use pkcs12_export::{
    Exported, Output, find_folder, needs_new_password, new_password, open_and_seal, tell_exported,
};
use pkcs12_opening::{
    Ending, Failure, Surroundings, new_password_missing, read_given, tell_long_work,
};
use pkcs12_output::Folder;
use std::alloc::Global;
use std::fs::File;
use std::io;
use std::rt::{Files, Runtime};

/// The chains of the private keys that are exported, where they are asked for.
fn chains_of(
    alloc: Global,
    asked: &Export<'_>,
    exported: &Exported,
) -> Result<Vec<Option<Chain>>, Failure> {
    if !asked.target.chain {
        return Ok(Vec::new(alloc));
    }
    let certificates = exported.transferred.certificates.as_slice();
    match chains(alloc, certificates, &exported.found) {
        Ok(chains) => Ok(chains),
        Err(ChainError::Memory) => Err(Failure::new(Ending::Memory, "out of memory")),
        Err(ChainError::TooMuch) => Err(Failure::new(
            Ending::TooManyFiles,
            "the chains of the private keys have more than 268,435,456 octets together, and nothing was written: export without --chain",
        )),
    }
}

/// Says which of the chains are not there, or not whole.
fn warn_of_chains<R: Eprint + AllocGlobal>(
    rt: &R,
    chains: &[Option<Chain>],
) -> Result<(), Failure> {
    let text = chain_warnings(rt.alloc(), chains)?;
    // The files are there: that nobody hears of it is no failure.
    match rt.eprint(text.as_str()) {
        Ok(()) | Err(_) => Ok(()),
    }
}

/// Writes the files of the folder.
fn fill<R: Files<File = File> + AllocGlobal>(
    rt: &R,
    output: Output<'_>,
    exported: &Exported,
    chains: &[Option<Chain>],
) -> io::Result<()> {
    output.write(rt, exported)?;
    let certificates = exported.transferred.certificates.as_slice();
    for (number, chain) in chains.iter().enumerate() {
        if let Some(chain) = chain {
            let text = chain_text(rt.alloc(), chain, certificates)?;
            output.write_chain(rt, number, text.as_slice())?;
        }
    }
    output.end(rt)
}

/// Makes the folder with its files.
fn make<R: Files<File = File> + Eprint + AllocGlobal + Clone + Drop>(
    rt: &R,
    folder: &Folder<'_>,
    asked: &Export<'_>,
    exported: &Exported,
    chains: &[Option<Chain>],
) -> Result<(), Failure> {
    let part = folder.begin(rt)?;
    let output = Output {
        folder,
        target: &asked.target,
        part: &part,
    };
    let filled = fill(rt, output, exported, chains);
    Ok(folder.finish(rt, &part, filled)?)
}

/// Writes what is exported into the folder, with the chains that are asked for.
fn write<R: Files<File = File> + Eprint + AllocGlobal + Clone + Drop>(
    rt: &R,
    folder: &Folder<'_>,
    asked: &Export<'_>,
    exported: &Exported,
) -> Result<(), Failure> {
    let chains = chains_of(rt.alloc(), asked, exported)?;
    make(rt, folder, asked, exported, chains.as_slice())?;
    warn_of_chains(rt, chains.as_slice())
}

/// Reads the store and the passwords, and returns what is exported.
fn exported<R: Runtime + AllocGlobal>(
    rt: &R,
    around: Surroundings,
    asked: &Export<'_>,
) -> Result<Exported, Failure> {
    if needs_new_password(rt, asked) {
        return Err(new_password_missing());
    }
    let given = read_given(rt, asked.store, asked.password, asked.limit, asked.accepted)?;
    let new_password = new_password(rt, asked, &given)?;
    let rounds = match &new_password {
        Some(_) => Some(asked.rounds),
        None => None,
    };
    tell_long_work(rt, around, given.store.as_slice(), rounds);
    open_and_seal(rt, around, asked, given, &new_password)
}

/// Writes what a store has into the folder that is asked for, which is looked at before any work is done.
pub fn run_export<R: Runtime<File = File> + AllocGlobal>(
    rt: &R,
    around: Surroundings,
    asked: &Export<'_>,
) -> Result<(), Failure> {
    let folder = find_folder(rt, around, asked)?;
    let exported = exported(rt, around, asked)?;
    write(rt, &folder, asked, &exported)?;
    tell_exported(rt, around, asked, &exported.found)
}
