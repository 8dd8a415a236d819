//! What the subcommand `rekey` is asked for.
ghost use Rattle.std.specs.Prelude.{◌≤◌};

use crate::arguments_error::ArgumentsError;
use crate::command_line::{LIMIT, PASSWORD_ENV, PASSWORD_FILE, PASSWORD_STDIN, STORE};
use crate::export::{NEW_PASSWORD_ENV, NEW_PASSWORD_FILE, NEW_PASSWORD_STDIN};
use crate::numbers::{number_of, rounds_of, text_of};
use clap::ArgMatches;
use command_base::{Argument, Form, Origin};
use std::alloc::Global;

pub const NAME: &str = "rekey";

pub const ABOUT: &str = "Write the store anew under a new password, with all that is in it";

const OUT: Argument = Argument {
    name: "out",
    form: Form::Optional("FILE"),
    group: Some("target"),
    help: "The file of the changed store, which only its owner can read",
};

const IN_PLACE: Argument = Argument {
    name: "in-place",
    form: Form::Flag,
    group: Some("target"),
    help: "Replace STORE itself, once the changed store was read back and compared with it",
};

const FORCE: Argument = Argument {
    name: "force",
    form: Form::Flag,
    group: None,
    help: "Replace FILE where it is there; its mode, owner and group stay",
};

const VERBOSE: Argument = Argument {
    name: "verbose",
    form: Form::Flag,
    group: None,
    help: "Say what was changed, also where the standard error is no terminal",
};

const EMPTY_PASSWORD: Argument = Argument {
    name: "allow-empty-password",
    form: Form::Flag,
    group: None,
    help: "Let the new password be empty: the store is then not protected",
};

const UPGRADE: Argument = Argument {
    name: "upgrade",
    form: Form::Flag,
    group: None,
    help: "Put all that is encrypted under AES-256, and the MAC under SHA-256, whatever they were under",
};

const ROUNDS: Argument = Argument {
    name: "rounds",
    form: Form::Optional("ROUNDS"),
    group: None,
    help: "With --upgrade: rounds of each key derivation; more make a password harder to guess: 1 to \
        100000000 [default: 600000]",
};

const SAME_PASSWORD: Argument = Argument {
    name: "same-password",
    form: Form::Flag,
    group: Some("new-password"),
    help: "With --upgrade: the new password is the store's",
};

/// The rounds of a store that is upgraded, where none are given.
const DEFAULT_ROUNDS: u32 = 600_000;

/// The arguments, in the order of the help.
pub static ARGUMENTS: [Argument; 16] = [
    STORE,
    OUT,
    IN_PLACE,
    FORCE,
    UPGRADE,
    ROUNDS,
    VERBOSE,
    PASSWORD_FILE,
    PASSWORD_ENV,
    PASSWORD_STDIN,
    NEW_PASSWORD_FILE,
    NEW_PASSWORD_ENV,
    NEW_PASSWORD_STDIN,
    SAME_PASSWORD,
    EMPTY_PASSWORD,
    LIMIT,
];

/// The rounds of all that is encrypted and of the MAC in a store that is upgraded.
#[derive(Clone, Copy)]
pub struct UpgradeRounds {
    /// From 1 to 100,000,000.
    pub count: u32,
    ghost count_fits: { (1 ≤ count) × (count ≤ 100000000) },
}

/// What `rekey` is asked for.
#[derive(Drop)]
pub struct Rekey<'a> {
    pub store: &'a str,
    /// The file of the changed store.
    pub out: &'a str,
    /// Whether a file that is there is replaced.
    pub may_replace: bool,
    /// The rounds, where the store is upgraded.
    pub upgrade: Option<UpgradeRounds>,
    pub password: Option<Origin<'a>>,
    pub new_password: Option<Origin<'a>>,
    pub same_password: bool,
    pub allow_empty: bool,
    pub limit: u64,
    pub verbose: bool,
}

/// The file of the changed store.
fn out_of<'a>(matches: &ArgMatches<'a>, store: &'a str) -> Result<&'a str, ArgumentsError> {
    if let Some(out) = matches.get_str("out") {
        return Ok(out);
    }
    if !matches.get_flag("in-place") {
        return Err(ArgumentsError::new("give --out FILE, or --in-place"));
    }
    if store == "-" {
        return Err(ArgumentsError::new(
            "--in-place takes a store in a file, and not on the standard input",
        ));
    }
    Ok(store)
}

/// The rounds of a store that is upgraded. `Wrong` where an option of `--upgrade` is given without it.
fn upgrade_of(
    alloc: Global,
    matches: &ArgMatches<'_>,
) -> Result<Option<UpgradeRounds>, ArgumentsError> {
    let rounds = matches.get_str("rounds");
    if matches.get_flag("upgrade") {
        let count = match rounds {
            Some(text) => rounds_of(alloc, text)?,
            None => DEFAULT_ROUNDS,
        };
        return Ok(Some(UpgradeRounds { count }));
    }
    if rounds.is_some() {
        return Err(ArgumentsError::new("--rounds is for --upgrade alone"));
    }
    if matches.get_flag("same-password") {
        return Err(ArgumentsError::new("--same-password is for --upgrade alone"));
    }
    Ok(None)
}

impl<'a> Rekey<'a> {
    /// What these matches ask for.
    pub(crate) fn of(alloc: Global, matches: &ArgMatches<'a>) -> Result<Rekey<'a>, ArgumentsError> {
        let store = text_of(matches, "store")?;
        let out = out_of(matches, store)?;
        let upgrade = upgrade_of(alloc, matches)?;
        Ok(Rekey {
            store,
            out,
            may_replace: matches.get_flag("in-place") || matches.get_flag("force"),
            upgrade,
            password: Origin::of_password(matches),
            new_password: Origin::of_new_password(matches),
            same_password: matches.get_flag("same-password"),
            allow_empty: matches.get_flag("allow-empty-password"),
            limit: number_of(alloc, matches, "limit")?,
            verbose: matches.get_flag("verbose"),
        })
    }
}
