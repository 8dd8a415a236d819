//! What the arguments ask for.
ghost use Rattle.std.specs.Prelude.{◌≡◌, ◌≤◌, IfOk, IfSome, Some, codes};
ghost use Rattle.std.specs.Bool.{OnFalse, OnTrue};
ghost use Rattle.clap.specs.Words.{subcommand_name_of};
ghost use Rattle.passdb_command.specs.Request.{asked_by, subcommand_of};

use crate::ending::{Ending, Failure};
use crate::order::Order;
use clap::ArgMatches;
use command_base::Origin;
use passdb_core::ROUNDS_LIMIT;
use phc_core::Ident;
use std::alloc::Global;
use terminal_text::InQuotes;

/// The fewest rounds of a fresh entry.
const LEAST_ROUNDS: u32 = 1000;

/// How a password is tested.
#[derive(Clone, Copy)]
pub struct Manner {
    /// Whether it takes as long for a name that the file does not have as for a wrong password.
    pub is_even: bool,
    /// Whether an entry with few rounds is made anew.
    pub renews: bool,
}

impl Manner {
    /// The rounds below which an entry has few, of the rounds that are asked for: without renewal no entry has.
    pub fn enough_rounds(self, asked: u32) -> u32
        requires some { 1000 ≤ asked }
        requires few { asked ≤ 10000000 }
        ensures some { 1000 ≤ result }
        ensures few { result ≤ 10000000 }
        ensures asked { OnTrue self.renews (result ≡ asked) }
        ensures least { OnFalse self.renews (result ≡ 1000) }
    {
        if self.renews { asked } else { LEAST_ROUNDS }
    }
}

/// What is done for the name.
#[derive(Clone, Copy)]
pub enum Action<'a> {
    /// Adds it.
    Add(Option<Origin<'a>>),
    /// Tests its password.
    Check(Option<Origin<'a>>, Manner),
    /// Changes its password, from the first to the second.
    Change(Option<Origin<'a>>, Option<Origin<'a>>),
    /// Gives it another password, whatever the old one was.
    Reset(Option<Origin<'a>>),
    /// Removes it.
    Remove,
}

/// What the command is asked for.
#[derive(Clone, Copy, Drop)]
pub enum Request<'a> {
    /// Something with one name.
    One(Order<'a>),
    /// The names of this file, with what their entries are made of.
    List(&'a str),
}

fn text_of<'a>(matches: &ArgMatches<'a>, name: &str) -> Result<&'a str, Failure> {
    match matches.get_str(name) {
        Some(text) => Ok(text),
        None => Err(Failure::new(Ending::Usage, "an argument is missing")),
    }
}

/// The rounds, which the text writes in decimal. `Usage` where it writes none from 1,000 to 10,000,000.
fn rounds_of(alloc: Global, text: &str) -> Result<u32, Failure>
    ensures { IfOk result (λ n. (1000 ≤ n) × (n ≤ 10000000)) }
{
    let shown = InQuotes(text);
    match text.parse::<u32>() {
        Ok(rounds) if rounds >= LEAST_ROUNDS && rounds <= ROUNDS_LIMIT => Ok(rounds),
        _ => Err(Failure::told(
            Ending::Usage,
            format!(in alloc;
                "--rounds takes a whole number from 1000 to 10000000, and not {shown}"
            ),
        )),
    }
}

fn name_of(alloc: Global, text: &str) -> Result<Ident, Failure> {
    let shown = InQuotes(text);
    match Ident::new(text) {
        Ok(name) => Ok(name),
        Err(_) => Err(Failure::told(
            Ending::Usage,
            format!(in alloc;
                "a name is 1 to 32 characters of a to z, 0 to 9 and -, and not {shown}"
            ),
        )),
    }
}

/// The passwords of `change`. The standard input gives one of them alone.
fn change_of<'a>(matches: &ArgMatches<'a>) -> Result<Action<'a>, Failure>
    ensures { IfOk result (λ action. subcommand_of action ≡ codes "change") }
{
    let old = Origin::of_password(matches);
    let new = Origin::of_new_password(matches);
    if matches!(old, Some(Origin::Standard)) && matches!(new, Some(Origin::Standard)) {
        return Err(Failure::new(
            Ending::Usage,
            "the standard input can give only one of the password and the new password",
        ));
    }
    Ok(Action::Change(old, new))
}

/// How `check` is to test.
fn manner_of(matches: &ArgMatches<'_>) -> Manner {
    Manner {
        is_even: matches.get_flag("even"),
        renews: !matches.get_flag("no-renew"),
    }
}

/// What is asked for one name; `Usage` where file, name or rounds are not as they have to be.
fn order_of<'a>(
    alloc: Global,
    matches: &ArgMatches<'a>,
    action: Action<'a>,
) -> Result<Request<'a>, Failure>
    ensures { IfOk result (λ request. asked_by request ≡ subcommand_of action.entry) }
{
    let file = text_of(matches, "file")?;
    let name = name_of(alloc, text_of(matches, "name")?)?;
    let rounds = match action {
        // It makes no entry.
        Action::Remove => "1000",
        _ => text_of(matches, "rounds")?,
    };
    let rounds = rounds_of(alloc, rounds)?;
    Ok(Request::One(Order {
        file,
        name,
        action,
        rounds,
    }))
}

fn no_subcommand() -> Failure {
    Failure::new(
        Ending::Usage,
        "give add, check, change, reset, remove or list; see --help",
    )
}

/// What this subcommand does for a name; none where it is for no name.
fn action_of<'a>(subcommand: &str, matches: &ArgMatches<'a>) -> Result<Option<Action<'a>>, Failure>
    ensures { IfOk result (λ found. IfSome found (λ action.
        subcommand.now ≡ subcommand_of action)) }
{
    match subcommand {
        "add" => Ok(Some(Action::Add(Origin::of_password(matches)))),
        "check" => Ok(Some(Action::Check(Origin::of_password(matches), manner_of(matches)))),
        "change" => Ok(Some(change_of(matches)?)),
        "reset" => Ok(Some(Action::Reset(Origin::of_password(matches)))),
        "remove" => Ok(Some(Action::Remove)),
        _ => Ok(None),
    }
}

/// What these matches ask for.
pub fn request_of<'a>(alloc: Global, matches: &ArgMatches<'a>) -> Result<Request<'a>, Failure>
    ensures { IfOk result (λ request. subcommand_name_of matches.now ≡ Some (asked_by request)) }
{
    let Some((subcommand, inner)) = matches.subcommand() else {
        return Err(no_subcommand());
    };
    if subcommand == "list" {
        return Ok(Request::List(text_of(inner, "file")?));
    }
    match action_of(subcommand, inner)? {
        Some(action) => order_of(alloc, inner, action),
        None => Err(no_subcommand()),
    }
}
