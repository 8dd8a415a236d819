//! The subcommand `create`: makes a store of private keys and certificates.
ghost use Rattle.std.specs.Prelude.{◌≡◌, ◌+◌, ◌*◌, ◌≤◌, ◌⊎◌, ◌↔◌, IfErr, IsTrue};

use command_base::{Origin, Password};
use pkcs12_arguments::Create;
use pkcs12_creation::{
    Entries, Material, created, entries_of, inputs_differ, is_read_once_alone, repeated_name,
};
use pkcs12_opening::{
    Counted, Ending, Failure, NewPassword, Surroundings, new_password_missing, output_differs,
    read_password, without_nul,
};
use pkcs12_output::StoreFile;
use std::alloc::Global;
use std::fs::File;
use std::rt::{Env, Files, Runtime};
use terminal_text::InQuotes;
use transfer::TransferError;

/// The most rounds of a private key that is opened, whatever the limit.
const MOST_ROUNDS: u32 = 100_000_000;

/// `Usage` where two pairs have one friendly name.
fn names_differ(alloc: Global, asked: &Create<'_>) -> Result<(), Failure> {
    match repeated_name(alloc, asked.pairs.as_slice())? {
        Some(name) => {
            let name = InQuotes(name);
            let text = format!(in alloc;
                "two private keys have the friendly name {name}, but for the case of its letters"
            );
            Err(Failure::told(Ending::Usage, text).advised(
                "Give each another name: Java keeps one entry of a name.",
            ))
        }
        None => Ok(()),
    }
}

/// The limit as a number of rounds.
fn most_rounds(limit: u64) -> u32 {
    if limit < u64::from(MOST_ROUNDS) {
        limit as u32
    } else {
        MOST_ROUNDS
    }
}

/// The password of private keys that are encrypted, where one is given.
fn key_password<R: Files + Env + Input + AllocGlobal>(
    rt: &R,
    origin: Option<Origin<'_>>,
) -> Result<Option<Password>, Failure> {
    match origin {
        Some(origin) => Ok(Some(read_password(rt, "password of the private keys", origin)?)),
        None => Ok(None),
    }
}

/// The failure of private keys whose password the script could not ask for, since a file is read once alone.
fn asked_too_late(failure: Failure) -> Failure {
    match failure.ending {
        Ending::PasswordMissing => Failure {
            ending: Ending::Usage,
            message: failure.message,
            advice: failure.advice,
        },
        _ => failure,
    }
}

/// What the store is made of.
fn read_entries<R: Files + Env + Input + AllocGlobal>(
    rt: &R,
    asked: &Create<'_>,
) -> Result<Entries, Failure> {
    let password = key_password(rt, asked.password)?;
    let password = password.as_ref().map(|password| password.as_str());
    match entries_of(rt, asked, password, most_rounds(asked.limit)) {
        Ok(entries) => Ok(entries),
        Err(failure) if is_read_once_alone(rt, asked) => Err(asked_too_late(failure)),
        Err(failure) => Err(failure),
    }
}

/// The password of the new store.
fn new_password<R: Files + Env + Input + AllocGlobal>(
    rt: &R,
    asked: &Create<'_>,
) -> Result<NewPassword, Failure> {
    match asked.new_password {
        Some(origin) => {
            let password = read_password(rt, "new password", origin)?;
            without_nul(&password)?;
            NewPassword::new(password, asked.allow_empty)
        }
        None => Err(Failure::new(
            Ending::NewPasswordMissing,
            "the password of the new store was not given",
        )),
    }
}

/// Whether so many rounds for each of so many keys that are derived are within the limit.
fn is_within(derived: usize, rounds: u32, limit: u64) -> bool
    ensures { IsTrue result ↔ (derived * rounds ≤ limit) }
{
    derived as u128 * u128::from(rounds) <= u128::from(limit)
}

/// `WorkLimit` where the store would take more steps to open than the limit: its rounds for its MAC, for its certificates and for each
/// private key.
fn opens_within(alloc: Global, asked: &Create<'_>) -> Result<(), Failure>
    ensures { IfErr result (λ f. (f.ending ≡ Ending.Refused TransferError.WorkLimit)
        ⊎ (f.ending ≡ Ending.Memory)) }
{
    let derived = asked.pairs.len().saturating_add(2);
    if is_within(derived, asked.rounds, asked.limit) {
        return Ok(());
    }
    let rounds = asked.rounds;
    let limit = asked.limit;
    let text = format!(in alloc;
        "the new store would take {rounds} steps to open for each of its {derived} parts, the MAC among them, and --limit allows {limit}"
    );
    let failure = Failure::told(Ending::Refused(TransferError::WorkLimit), text);
    Err(failure.advised("Give a larger --limit, or fewer --rounds."))
}

/// Writes what may not be meant to the standard error.
fn warn<R: Eprint>(rt: &R, entries: &Entries, password: &NewPassword) {
    // A standard error that cannot be written to is no failure of the work.
    match rt.eprint(entries.warnings.as_str()) {
        Ok(()) | Err(_) => {}
    }
    if password.as_str().is_ascii() {
        return;
    }
    match eprintln!(rt;
        "pkcs12: warning: the new password is not ASCII, and Java opens no store under PBES2 with such a password"
    ) {
        Ok(()) | Err(_) => {}
    }
}

/// Writes the store, and puts it in its place once it was read back.
fn write_created<R: Files<File = File> + Eprint + AllocGlobal>(
    rt: &R,
    file: &StoreFile<'_>,
    material: &Material<'_>,
) -> Result<(), Failure> {
    let text = created(rt, material)?;
    let written = file.written(rt, text.as_slice())?;
    if written.octets.as_slice() == text.as_slice() {
        return Ok(file.place(rt, &written)?);
    }
    file.abandon(rt, &written)?;
    Err(Failure::new(
        Ending::WriteFault,
        "the new store was not read back as it was written",
    ))
}

/// Says what was made, where somebody looks or asked for it.
fn tell<R: Eprint>(rt: &R, around: Surroundings, asked: &Create<'_>, entries: &Entries) {
    if !around.at_terminal && !asked.verbose {
        return;
    }
    let keys = Counted(entries.keys.len(), "private key");
    let all = entries
        .keys
        .len()
        .saturating_add(entries.certificates.len());
    let certificates = Counted(all, "certificate");
    let rounds = asked.rounds;
    // The file is there: that nobody hears of it is no failure.
    match eprintln!(rt;
        "made: a store of {keys} and {certificates}, under AES-256-CBC and HMAC-SHA-256, with {rounds} rounds"
    ) {
        Ok(()) | Err(_) => {}
    }
}

/// Makes a store of the files that are asked for.
pub fn run_create<R: Runtime<File = File> + AllocGlobal>(
    rt: &R,
    around: Surroundings,
    asked: &Create<'_>,
) -> Result<(), Failure> {
    names_differ(rt.alloc(), asked)?;
    opens_within(rt.alloc(), asked)?;
    inputs_differ(rt, asked)?;
    output_differs(rt, asked.out, asked.password, asked.new_password)?;
    let file = StoreFile::find(rt, asked.out, asked.may_replace, around.process)?;
    if asked.new_password.is_none() && is_read_once_alone(rt, asked) {
        return Err(new_password_missing());
    }
    let entries = read_entries(rt, asked)?;
    let password = new_password(rt, asked)?;
    warn(rt, &entries, &password);
    let material = Material {
        entries: &entries,
        password: &password,
        rounds: asked.rounds,
    };
    write_created(rt, &file, &material)?;
    tell(rt, around, asked, &entries);
    Ok(())
}
