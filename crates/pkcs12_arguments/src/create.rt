//! What the subcommand `create` is asked for.
ghost use Rattle.std.specs.Prelude.{◌≤◌};

use crate::arguments_error::ArgumentsError;
use crate::command_line::NOTES;
use crate::numbers::{number_of, rounds_of, text_of};
use crate::pairs::{Pair, pairs_of};
use clap::{Arg, ArgAction, ArgMatches, Command};
use command_base::{Argument, Form, Origin, with_arguments};
use std::alloc::{AllocError, Global};

pub const NAME: &str = "create";

pub const ABOUT: &str = "Make a store of private keys and certificates in PEM files";

/// An option that may be given several times.
struct Repeated {
    name: &'static str,
    value: &'static str,
    is_required: bool,
    help: &'static str,
}

/// These options, in the order of the help.
static REPEATED: [Repeated; 4] = [
    Repeated {
        name: "key",
        value: "KEY",
        is_required: true,
        help: "A PEM file with one private key; - is the standard input",
    },
    Repeated {
        name: "certificate",
        value: "CERT",
        is_required: true,
        help: "A PEM file with the certificate of the --key of the same place; others in it are taken too",
    },
    Repeated {
        name: "chain",
        value: "FILE",
        is_required: false,
        help: "A PEM file with further certificates, in any order",
    },
    Repeated {
        name: "name",
        value: "NAME",
        is_required: false,
        help: "The friendly name of the --key of the same place and of its certificate",
    },
];

const OUT: Argument = Argument {
    name: "out",
    form: Form::Required("FILE"),
    group: None,
    help: "The file of the new store, which only its owner can read",
};

const FORCE: Argument = Argument {
    name: "force",
    form: Form::Flag,
    group: None,
    help: "Replace FILE where it is there; its mode, owner and group stay",
};

const ROUNDS: Argument = Argument {
    name: "rounds",
    form: Form::Number("ROUNDS", "600000"),
    group: None,
    help: "Rounds of each key derivation; more make a password harder to guess: 1 to 100000000",
};

const VERBOSE: Argument = Argument {
    name: "verbose",
    form: Form::Flag,
    group: None,
    help: "Say what was made, also where the standard error is no terminal",
};

const PASSWORD_FILE: Argument = Argument {
    name: "password-file",
    form: Form::Optional("FILE"),
    group: Some("password"),
    help: "The password of private keys that are encrypted is the first line of FILE",
};

const PASSWORD_ENV: Argument = Argument {
    name: "password-env",
    form: Form::Optional("NAME"),
    group: Some("password"),
    help: "The same password is the environment variable NAME",
};

const PASSWORD_STDIN: Argument = Argument {
    name: "password-stdin",
    form: Form::Flag,
    group: Some("password"),
    help: "The same password is the first line of the standard input",
};

const NEW_PASSWORD_FILE: Argument = Argument {
    name: "new-password-file",
    form: Form::Optional("FILE"),
    group: Some("new-password"),
    help: "The password of the new store is the first line of FILE",
};

const NEW_PASSWORD_ENV: Argument = Argument {
    name: "new-password-env",
    form: Form::Optional("NAME"),
    group: Some("new-password"),
    help: "The password of the new store is the environment variable NAME",
};

const NEW_PASSWORD_STDIN: Argument = Argument {
    name: "new-password-stdin",
    form: Form::Flag,
    group: Some("new-password"),
    help: "The password of the new store is the first line of the standard input",
};

const EMPTY_PASSWORD: Argument = Argument {
    name: "allow-empty-password",
    form: Form::Flag,
    group: None,
    help: "Let the password of the new store be empty: it is then not protected",
};

const LIMIT: Argument = Argument {
    name: "limit",
    form: Form::Number("STEPS", "100000000"),
    group: None,
    help: "Refuse to make a store that takes more than this many steps to open, and to open a private key of \
        more rounds: 0 to 18446744073709551615",
};

/// The other arguments, in the order of the help.
static ARGUMENTS: [Argument; 12] = [
    OUT,
    FORCE,
    ROUNDS,
    VERBOSE,
    PASSWORD_FILE,
    PASSWORD_ENV,
    PASSWORD_STDIN,
    NEW_PASSWORD_FILE,
    NEW_PASSWORD_ENV,
    NEW_PASSWORD_STDIN,
    EMPTY_PASSWORD,
    LIMIT,
];

/// What `create` is asked for.
#[derive(Drop)]
pub struct Create<'a> {
    pub pairs: Vec<Pair<'a>>,
    /// The paths of the files with further certificates.
    pub chains: Vec<&'a str>,
    /// The file of the new store.
    pub out: &'a str,
    /// Whether a file that is there is replaced.
    pub may_replace: bool,
    /// The rounds of all that is encrypted and of the MAC.
    pub rounds: u32,
    /// The password of private keys that are encrypted.
    pub password: Option<Origin<'a>>,
    /// The password of the new store.
    pub new_password: Option<Origin<'a>>,
    pub allow_empty: bool,
    /// The most steps of opening the new store, and the most rounds of a private key.
    pub limit: u64,
    pub verbose: bool,
    ghost rounds_fit: { (1 ≤ rounds) × (rounds ≤ 100000000) },
}

/// The option, for clap.
fn described<'a>(alloc: Global, option: &'static Repeated) -> Arg<'a> {
    Arg::new(alloc, option.name)
        .long(option.name)
        .value_name(option.value)
        .help(option.help)
        .required(option.is_required)
        .action(ArgAction::Append)
}

/// The subcommand, with its arguments. The only error is out of memory.
pub fn subcommand<'a>(alloc: Global) -> Result<Command<'a>, AllocError> {
    let mut command = Command::new(alloc, NAME).about(ABOUT).after_help(NOTES);
    for option in &REPEATED {
        command = command.arg(described(alloc, option))?;
    }
    with_arguments(alloc, command, &ARGUMENTS)
}

/// The values of an option, in their order.
fn values_of<'a>(
    alloc: Global,
    matches: &ArgMatches<'a>,
    name: &str,
) -> Result<Vec<&'a str>, AllocError> {
    let mut values = Vec::new(alloc);
    if let Some(given) = matches.get_strs(name) {
        for value in given {
            values.push(*value)?;
        }
    }
    Ok(values)
}

/// The pairs that these matches ask for.
fn pairs_in<'a>(alloc: Global, matches: &ArgMatches<'a>) -> Result<Vec<Pair<'a>>, ArgumentsError> {
    let keys = values_of(alloc, matches, "key")?;
    let certificates = values_of(alloc, matches, "certificate")?;
    let names = values_of(alloc, matches, "name")?;
    for name in &names {
        if name.is_empty() {
            return Err(ArgumentsError::new("--name takes a name, and not an empty one"));
        }
    }
    pairs_of(
        alloc,
        keys.as_slice(),
        certificates.as_slice(),
        names.as_slice(),
    )
}

impl<'a> Create<'a> {
    /// What these matches ask for.
    pub(crate) fn of(
        alloc: Global,
        matches: &ArgMatches<'a>,
    ) -> Result<Create<'a>, ArgumentsError> {
        let rounds = rounds_of(alloc, text_of(matches, "rounds")?)?;
        Ok(Create {
            pairs: pairs_in(alloc, matches)?,
            chains: values_of(alloc, matches, "chain")?,
            out: text_of(matches, "out")?,
            may_replace: matches.get_flag("force"),
            rounds,
            password: Origin::of_password(matches),
            new_password: Origin::of_new_password(matches),
            allow_empty: matches.get_flag("allow-empty-password"),
            limit: number_of(alloc, matches, "limit")?,
            verbose: matches.get_flag("verbose"),
        })
    }
}
