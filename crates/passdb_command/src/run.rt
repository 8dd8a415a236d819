//! The subcommands, from the arguments to the end.
ghost use Rattle.std.specs.Prelude.{◌≡◌, ◌≤◌, ℕ, IfOk, List, None, Option, length};
ghost use Rattle.passdb_core.specs.Commands.{check};
ghost use Rattle.passdb_command.specs.Request.{IsWorkOf};
ghost use Rattle.passdb_command.specs.Work.{IsTested, refusal_of, reply_of};

use crate::command_line::command;
use crate::decoy::decoy_of;
use crate::ending::{Ending, Failure};
use crate::file::{Place, db_of, in_safe_place, octets_of, read, real_path, text_in};
use crate::listing::listing;
use crate::lock::Lock;
use crate::order::Order;
use crate::origins::origins_differ;
use crate::password::{as_new_password, read_password};
use crate::request::{Action, Manner, Request, request_of};
use crate::work::{Finding, Work, done, is_change, tested, tested_evenly};
use clap::ArgMatches;
use clap::error::ErrorKind;
use command_base::{Origin, Password, arguments, refusal_text};
use octet_core::FileDraw;
use passdb_core::{Db, Reply};
use std::alloc::{AllocError, Global};
use std::fs::File;
use std::marker::Brand;
use std::rt::{Env, Files, Runtime};
use std::sync::ledger::Blank;
use std::{env, io};
use terminal_text::is_password_given;

/// Where this variable is set, the wrapper asks for a password that is missing and runs the program again, so the program
/// itself keeps silent.
const ASKING: &str = "PASSDB_ASKING";

/// Where the system's random octets are read.
const RANDOM: &str = "/dev/urandom";

fn password_missing() -> Failure {
    Failure::new(
        Ending::PasswordMissing,
        "the password was not given, and there is no terminal to ask at: give --password-file FILE, \
         --password-env VARIABLE or --password-stdin",
    )
}

/// The failure of a password that `change` is to give.
fn new_password_missing() -> Failure {
    Failure::new(
        Ending::NewPasswordMissing,
        "the new password was not given, and there is no terminal to ask at: give --new-password-file \
         FILE, --new-password-env VARIABLE or --new-password-stdin",
    )
}

/// The failure of the only password of `add` or `reset`, whose options have no `new` in their names.
fn only_password_missing() -> Failure {
    Failure::new(
        Ending::NewPasswordMissing,
        "the new password was not given, and there is no terminal to ask at: give --password-file FILE, \
         --password-env VARIABLE or --password-stdin",
    )
}

/// The password of an origin that may have been left out.
fn given<R: Files + Env + Input + AllocGlobal>(
    rt: &R,
    origin: Option<Origin<'_>>,
) -> Result<Password, Failure> {
    match origin {
        Some(origin) => read_password(rt, "password", origin),
        None => Err(password_missing()),
    }
}

/// The same of a password that a name is given.
fn given_new<R: Files + Env + Input + AllocGlobal>(
    rt: &R,
    origin: Option<Origin<'_>>,
) -> Result<Password, Failure>
    ensures { IfOk result (λ w. 1 ≤ length w) }
{
    match origin {
        Some(origin) => as_new_password(read_password(rt, "new password", origin)?),
        None => Err(only_password_missing()),
    }
}

/// Reads the passwords that are needed.
fn work_of<R: Files + Env + Input + AllocGlobal>(
    rt: &R,
    action: Action<'_>,
) -> Result<Work, Failure>
    ensures { IfOk result (IsWorkOf action.entry) }
{
    match action {
        Action::Add(new) => Ok(Work::Add(given_new(rt, new)?)),
        Action::Check(password, _) => Ok(Work::Check(given(rt, password)?)),
        Action::Change(old, new) => {
            // Before one is read: a second run could not read it again.
            if old.is_none() {
                return Err(password_missing());
            }
            if new.is_none() {
                return Err(new_password_missing());
            }
            let old = given(rt, old)?;
            Ok(Work::Change(old, given_new(rt, new)?))
        }
        Action::Reset(new) => Ok(Work::Reset(given_new(rt, new)?)),
        Action::Remove => Ok(Work::Remove),
    }
}

/// Whether a run may tell at once that the file does not have the name.
fn tells_name(action: Action<'_>) -> bool {
    match action {
        Action::Check(_, manner) => !manner.is_even,
        _ => true,
    }
}

/// `NameUnknown` where the file does not have the name, and `NameExists` where it has it and it is to be added. It is asked before
/// a password is: nobody types one for nothing. A test that is even tells nothing of the name.
fn look<R: Files + AllocGlobal>(rt: &R, path: &str, order: &Order<'_>) -> Result<(), Failure> {
    let make = matches!(order.action, Action::Add(_));
    let mut db = read(rt, path, order.rounds, make)?;
    if !tells_name(order.action) {
        return Ok(());
    }
    let is_there = matches!(db.remove(&order.name), Reply::Removed);
    let refusal = match (make, is_there) {
        (true, true) => Reply::Exists,
        (false, false) => Reply::Unknown,
        (true, false) | (false, true) => return Ok(()),
    };
    match is_change(refusal) {
        Ok(_) => Ok(()),
        Err(failure) => Err(failure),
    }
}

/// Does the work on the file at this place, whose lock is held.
fn answered<R: Runtime<File = File> + AllocGlobal>(
    rt: &R,
    place: Place<'_>,
    order: &Order<'_>,
    work: &Work,
) -> Result<(), Failure> {
    let make = matches!(work, Work::Add(_));
    let mut db = read(rt, place.path, order.rounds, make)?;
    let mut draw = FileDraw::new(rt, RANDOM);
    let reply = done::<_, Brand>(&mut db, &mut draw, &order.name, work, Blank::new(1))?;
    if is_change(reply)? {
        place.write(rt, db.to_text(rt.alloc())?.as_str())?;
    }
    Ok(())
}

/// The same once the lock is taken.
fn answered_locked<R: Runtime<File = File> + AllocGlobal>(
    rt: &R,
    place: Place<'_>,
    order: &Order<'_>,
    work: &Work,
) -> Result<(), Failure> {
    let lock = Lock::take(rt, place.path)?;
    let outcome = answered(rt, place, order, work);
    lock.release(rt);
    outcome
}

/// Writes the entries of a login, whose file had these octets. Where another run has changed the file meanwhile, the work is done
/// anew on what it has now.
fn renewed<R: Runtime<File = File> + AllocGlobal>(
    rt: &R,
    place: Place<'_>,
    order: &Order<'_>,
    work: &Work,
    before: &Option<Vec<u8>>,
    db: &Db,
) -> Result<(), Failure> {
    if octets_of(rt, place.path)? == *before {
        return place.write(rt, db.to_text(rt.alloc())?.as_str());
    }
    answered(rt, place, order, work)
}

/// The same once the lock is taken.
fn renewed_locked<R: Runtime<File = File> + AllocGlobal>(
    rt: &R,
    place: Place<'_>,
    order: &Order<'_>,
    work: &Work,
    before: &Option<Vec<u8>>,
    db: &Db,
) -> Result<(), Failure> {
    in_safe_place(rt, place.path)?;
    let lock = Lock::take(rt, place.path)?;
    let outcome = renewed(rt, place, order, work, before, db);
    lock.release(rt);
    outcome
}

/// Says that an entry has fewer rounds than it was to have.
fn tell_not_renewed<R: Eprint>(rt: &R, why: &str) {
    match eprintln!(rt; "passdb: the password is right; its entry was not made anew: {why}") {
        Ok(()) | Err(_) => {}
    }
}

/// What the password comes to in the file with this text.
fn finding<R: Files<File = File> + AllocGlobal>(
    rt: &R,
    db: &mut Db,
    text: &str,
    order: &Order<'_>,
    password: &Password,
    is_even: bool,
) -> Result<Finding, Failure>
    ensures reply { IfOk result (λ f.
        f.reply ≡ reply_of db.old (check order.now.name password.now)) }
    ensures done { IfOk result (λ f. (rest : Option (List ℕ)) × IsTested db.old order.now.name
        password.now None rest db.new f) }
{
    let name = &order.name;
    let mut draw = FileDraw::new(rt, RANDOM);
    let blank = Blank::new(1);
    if !is_even {
        return Ok(tested::<_, Brand>(db, &mut draw, name, password, blank)?);
    }
    // Made for each name, so that its making tells nothing of the name.
    let mut decoy = decoy_of(rt.alloc(), text, name, order.rounds)?;
    Ok(tested_evenly::<_, Brand>(db, &mut decoy, &mut draw, name, password, blank)?)
}

/// The same where the password is right; else why it is not.
fn right<R: Files<File = File> + AllocGlobal>(
    rt: &R,
    db: &mut Db,
    text: &str,
    order: &Order<'_>,
    password: &Password,
    is_even: bool,
) -> Result<Finding, Failure>
    ensures reply { IfOk result (λ f.
        f.reply ≡ reply_of db.old (check order.now.name password.now)) }
    ensures done { IfOk result (λ f. (rest : Option (List ℕ)) × IsTested db.old order.now.name
        password.now None rest db.new f) }
    ensures right { IfOk result (λ f. refusal_of f.reply ≡ None) }
{
    let found = finding(rt, db, text, order, password, is_even)?;
    let _ = is_change(found.reply)?;
    Ok(found)
}

/// Tests a password. An entry with few rounds is made anew under the lock, if it is to be; where that fails the password was right
/// all the same, and a line says so.
fn check<R: Runtime<File = File> + AllocGlobal>(
    rt: &R,
    place: Place<'_>,
    order: &Order<'_>,
    work: &Work,
    password: &Password,
    manner: Manner,
) -> Result<(), Failure> {
    let before = octets_of(rt, place.path)?;
    let rounds = manner.enough_rounds(order.rounds);
    let mut db = db_of(rt.alloc(), place.path, &before, rounds, false)?;
    let found = right(
        rt,
        &mut db,
        text_in(&before),
        order,
        password,
        manner.is_even,
    )?;
    if !matches!(found.reply, Reply::Renewed) || !manner.renews {
        return Ok(());
    }
    if !found.is_done {
        tell_not_renewed(rt, "the system gave no random octets");
    } else if let Err(failure) = renewed_locked(rt, place, order, work, &before, &db) {
        tell_not_renewed(rt, failure.message.as_str());
    }
    Ok(())
}

/// Whether a password is still to be asked for.
fn lacks_password(action: Action<'_>) -> bool {
    match action {
        Action::Add(password) | Action::Check(password, _) | Action::Reset(password) => {
            password.is_none()
        }
        Action::Change(old, new) => old.is_none() || new.is_none(),
        Action::Remove => false,
    }
}

fn run_one<R: Runtime<File = File> + AllocGlobal>(
    rt: &R,
    process: u32,
    order: &Order<'_>,
) -> Result<(), Failure> {
    origins_differ(rt, order.action)?;
    let path = real_path(rt, order.file)?;
    let path = path.as_str();
    if !matches!(order.action, Action::Check(_, _)) {
        in_safe_place(rt, path)?;
    }
    if lacks_password(order.action) {
        look(rt, path, order)?;
    }
    let place = Place { path, process };
    let work = work_of(rt, order.action)?;
    match (&work, order.action) {
        (Work::Check(password), Action::Check(_, manner)) => {
            check(rt, place, order, &work, password, manner)
        }
        _ => answered_locked(rt, place, order, &work),
    }
}

/// The failure of a write to the standard output, where it failed.
fn printed(alloc: Global, outcome: io::Result<()>) -> Result<(), Failure> {
    match outcome {
        Ok(()) => Ok(()),
        Err(error) => Err(Failure::io(alloc, Ending::WriteFault, "the", "standard output", error)),
    }
}

fn run_list<R: Runtime + AllocGlobal>(rt: &R, file: &str) -> Result<(), Failure> {
    let alloc = rt.alloc();
    let path = real_path(rt, file)?;
    let path = path.as_str();
    let octets = octets_of(rt, path)?;
    let _ = db_of(alloc, path, &octets, 1000, false)?;
    printed(alloc, rt.print(listing(alloc, text_in(&octets))?.as_str()))
}

const NO_SUBCOMMAND: &str = "\
give a subcommand: add, check, change, reset, remove or list; see passdb --help";

const HELP_IS_ALONE: &str = "\
help is asked for alone, as passdb --help or passdb check --help; -- comes before a file and a name that may begin with -";

/// Whether these arguments, the program's name among them, are an option alone, or a subcommand with one option. A script puts a
/// name from outside after a file: whatever it is, it asks for no help, which would end as a right password does.
fn are_alone(arguments: &[String]) -> bool {
    match arguments {
        [_, _] => true,
        [_, subcommand, _] => !subcommand.as_str().starts_with('-'),
        _ => false,
    }
}

/// The failure of arguments that clap refuses; none where they ask for help or the version alone, which is printed.
fn shown<R: Print + Eprint + AllocGlobal>(
    rt: &R,
    arguments: &[String],
    error: clap::Error,
) -> Result<(), Failure> {
    match error.kind() {
        ErrorKind::OutOfMemory => Err(Failure::from(AllocError)),
        ErrorKind::DisplayHelp | ErrorKind::DisplayVersion => {
            if are_alone(arguments) {
                printed(rt.alloc(), error.print(rt))
            } else {
                Err(Failure::new(Ending::Usage, HELP_IS_ALONE))
            }
        }
        ErrorKind::DisplayHelpOnMissingArgumentOrSubcommand | ErrorKind::MissingSubcommand => Err(
            Failure::new(Ending::Usage, NO_SUBCOMMAND),
        ),
        _ => Err(Failure::told(Ending::Usage, refusal_text(rt.alloc(), &error))),
    }
}

/// Does what these matches ask for.
fn answer<R: Runtime<File = File> + AllocGlobal>(
    rt: &R,
    process: u32,
    matches: &ArgMatches<'_>,
) -> Result<(), Failure> {
    match request_of(rt.alloc(), matches)? {
        Request::One(order) => run_one(rt, process, &order),
        Request::List(file) => run_list(rt, file),
    }
}

const NO_PASSWORD_ARGUMENT: &str = "\
a password is not given on the command line, since other users can read that (it is not shown); \
give --password-file FILE, --password-env NAME or --password-stdin";

/// Does what the arguments ask for.
pub fn run<R: Runtime<File = File> + AllocGlobal>(rt: &R, process: u32) -> Result<(), Failure> {
    let Some(arguments) = arguments(rt)? else {
        return Err(Failure::new(Ending::Usage, "an argument is not UTF-8"));
    };
    if is_password_given(arguments.as_slice()) {
        return Err(Failure::new(Ending::Usage, NO_PASSWORD_ARGUMENT));
    }
    let command = command(rt.alloc())?;
    match command.try_get_matches_from(arguments.as_slice()) {
        Ok(matches) => answer(rt, process, &matches),
        Err(error) => shown(rt, arguments.as_slice(), error),
    }
}

/// Whether the wrapper asks for what is missing, or tries again.
fn is_handled<R: Env + AllocGlobal>(rt: &R, ending: Ending) -> bool {
    match ending {
        Ending::PasswordMissing | Ending::NewPasswordMissing => env::var(rt, ASKING).is_ok(),
        _ => false,
    }
}

/// Says on the standard error what failed.
pub fn explain<R: Env + Eprint + AllocGlobal>(rt: &R, failure: &Failure) -> io::Result<()> {
    let ending = failure.ending;
    if is_handled(rt, ending) {
        return Ok(());
    }
    let code = ending.code();
    let message = failure.message.as_str();
    let name = ending.name();
    eprintln!(rt; "passdb: {name} ({code}): {message}")
}
