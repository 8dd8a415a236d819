//! What the subcommand `export` is asked for.
ghost use Rattle.std.specs.Prelude.{◌≤◌};

use crate::accepted::Accepted;
use crate::arguments_error::ArgumentsError;
use crate::command_line::{
    ALLOW_NO_MAC, LIMIT, MODERN_ONLY, PASSWORD_ENV, PASSWORD_FILE, PASSWORD_STDIN, STORE,
};
use crate::numbers::{number_of, rounds_of, text_of};
use crate::target::{Format, Layout, Part, Target};
use clap::ArgMatches;
use command_base::{Argument, Form, Origin};
use std::alloc::Global;
use terminal_text::InQuotes;

pub const NAME: &str = "export";

pub const ABOUT: &str =
    "Write the certificates, and the private keys sealed under a new password, into a new folder";

const OUT: Argument = Argument {
    name: "out",
    form: Form::Required("DIR"),
    group: None,
    help: "The folder that is made, with cert-0.pem, key-0.pem and so on",
};

const FORMAT: Argument = Argument {
    name: "format",
    form: Form::Text("FORMAT", "pem"),
    group: None,
    help: "How the files are written: pem or der",
};

const KEYS_ONLY: Argument = Argument {
    name: "keys-only",
    form: Form::Flag,
    group: Some("part"),
    help: "Write the private keys alone",
};

const CERTIFICATES_ONLY: Argument = Argument {
    name: "certificates-only",
    form: Form::Flag,
    group: Some("part"),
    help: "Write the certificates alone, which takes no new password",
};

const ONE_FILE: Argument = Argument {
    name: "one-file",
    form: Form::Flag,
    group: Some("layout"),
    help: "Write one file, all.pem: the private keys, and then the certificates",
};

const NAMES: Argument = Argument {
    name: "names",
    form: Form::Flag,
    group: Some("layout"),
    help: "Put the friendly name into the name of each file: cert-0-NAME.pem",
};

const CHAIN: Argument = Argument {
    name: "chain",
    form: Form::Flag,
    group: None,
    help: "Write chain-0.pem and so on too: the certificate of each private key, and then its issuers",
};

const FORCE: Argument = Argument {
    name: "force",
    form: Form::Flag,
    group: None,
    help: "Replace DIR where it holds nothing but what export writes; no file that is read may \
        be in it",
};

const SKIP_OTHERS: Argument = Argument {
    name: "skip-others",
    form: Form::Flag,
    group: None,
    help: "Export a store that also has what is not exported, such as a private key that is not \
        encrypted",
};

const VERBOSE: Argument = Argument {
    name: "verbose",
    form: Form::Flag,
    group: None,
    help: "Say what was exported, also where the standard error is no terminal",
};

pub const NEW_PASSWORD_FILE: Argument = Argument {
    name: "new-password-file",
    form: Form::Optional("FILE"),
    group: Some("new-password"),
    help: "The new password is the first line of FILE",
};

pub const NEW_PASSWORD_ENV: Argument = Argument {
    name: "new-password-env",
    form: Form::Optional("NAME"),
    group: Some("new-password"),
    help: "The new password is the environment variable NAME",
};

pub const NEW_PASSWORD_STDIN: Argument = Argument {
    name: "new-password-stdin",
    form: Form::Flag,
    group: Some("new-password"),
    help: "The new password is the first line of the standard input",
};

const SAME_PASSWORD: Argument = Argument {
    name: "same-password",
    form: Form::Flag,
    group: Some("new-password"),
    help: "The new password is the store's",
};

const EMPTY_PASSWORD: Argument = Argument {
    name: "allow-empty-password",
    form: Form::Flag,
    group: None,
    help: "Let the new password be empty: the keys are then not protected",
};

const ROUNDS: Argument = Argument {
    name: "rounds",
    form: Form::Number("ROUNDS", "600000"),
    group: None,
    help: "Rounds of PBKDF2 for each exported key; more make a password harder to guess: 1 to \
        100000000",
};

const SEAL_LIMIT: Argument = Argument {
    name: "seal-limit",
    form: Form::Number("ROUNDS", "2000000000"),
    group: None,
    help: "Refuse a store whose private keys take more than this many rounds in all: 0 to \
        18446744073709551615",
};

const MOST_FILES: Argument = Argument {
    name: "most-files",
    form: Form::Number("NUMBER", "10000"),
    group: None,
    help: "Refuse a store with more certificates and private keys: 0 to 18446744073709551615",
};

/// The arguments, in the order of the help.
pub static ARGUMENTS: [Argument; 25] = [
    STORE,
    OUT,
    FORMAT,
    KEYS_ONLY,
    CERTIFICATES_ONLY,
    ONE_FILE,
    NAMES,
    CHAIN,
    FORCE,
    SKIP_OTHERS,
    VERBOSE,
    PASSWORD_FILE,
    PASSWORD_ENV,
    PASSWORD_STDIN,
    NEW_PASSWORD_FILE,
    NEW_PASSWORD_ENV,
    NEW_PASSWORD_STDIN,
    SAME_PASSWORD,
    EMPTY_PASSWORD,
    ROUNDS,
    MODERN_ONLY,
    ALLOW_NO_MAC,
    LIMIT,
    SEAL_LIMIT,
    MOST_FILES,
];

/// The bounds within which a store is exported.
#[derive(Clone, Copy)]
pub struct Bounds {
    /// The most rounds of all private keys together.
    pub seal_limit: u64,
    /// The most certificates and private keys.
    pub most_files: u64,
    /// Whether bags that are not exported are skipped; else a store that has some is refused.
    pub skip_others: bool,
}

/// What `export` is asked for.
#[derive(Drop)]
pub struct Export<'a> {
    /// The path of the store; `-` is the standard input.
    pub store: &'a str,
    pub target: Target<'a>,
    pub password: Option<Origin<'a>>,
    pub new_password: Option<Origin<'a>>,
    /// Whether the new password is the store's.
    pub same_password: bool,
    /// Whether the new password may be empty.
    pub allow_empty: bool,
    /// The rounds of PBKDF2 for each private key.
    pub rounds: u32,
    /// The most steps of opening the store.
    pub limit: u64,
    pub accepted: Accepted,
    pub bounds: Bounds,
    /// Whether what was exported is told, also where nobody looks.
    pub verbose: bool,
    ghost rounds_fit: { (1 ≤ rounds) × (rounds ≤ 100000000) },
}

fn format_of(alloc: Global, matches: &ArgMatches<'_>) -> Result<Format, ArgumentsError> {
    let text = text_of(matches, "format")?;
    match text {
        "pem" => Ok(Format::Pem),
        "der" => Ok(Format::Der),
        _ => {
            let given = InQuotes(text);
            let text = format!(in alloc; "--format takes pem or der, and not {given}");
            Err(ArgumentsError::told(text))
        }
    }
}

fn part_of(matches: &ArgMatches<'_>) -> Part {
    if matches.get_flag("keys-only") {
        Part::Keys
    } else if matches.get_flag("certificates-only") {
        Part::Certificates
    } else {
        Part::Whole
    }
}

fn layout_of(matches: &ArgMatches<'_>) -> Layout {
    if matches.get_flag("one-file") {
        Layout::OneFile
    } else if matches.get_flag("names") {
        Layout::Named
    } else {
        Layout::Numbered
    }
}

/// The target. `Wrong` for one file in DER, which has no boundaries.
fn target_of<'a>(alloc: Global, matches: &ArgMatches<'a>) -> Result<Target<'a>, ArgumentsError> {
    let target = Target {
        out: text_of(matches, "out")?,
        format: format_of(alloc, matches)?,
        part: part_of(matches),
        layout: layout_of(matches),
        chain: matches.get_flag("chain"),
        force: matches.get_flag("force"),
    };
    if matches!(target.format, Format::Der) && matches!(target.layout, Layout::OneFile) {
        return Err(ArgumentsError::new("--one-file is for --format pem alone"));
    }
    let is_whole = matches!(target.part, Part::Whole) && matches!(target.format, Format::Pem);
    if target.chain && (!is_whole || matches!(target.layout, Layout::OneFile)) {
        return Err(ArgumentsError::new(
            "--chain is for --format pem, and goes with none of --keys-only, --certificates-only and --one-file",
        ));
    }
    Ok(target)
}

fn bounds_of(alloc: Global, matches: &ArgMatches<'_>) -> Result<Bounds, ArgumentsError> {
    Ok(Bounds {
        seal_limit: number_of(alloc, matches, "seal-limit")?,
        most_files: number_of(alloc, matches, "most-files")?,
        skip_others: matches.get_flag("skip-others"),
    })
}

impl<'a> Export<'a> {
    /// What these matches ask for.
    pub(crate) fn of(
        alloc: Global,
        matches: &ArgMatches<'a>,
    ) -> Result<Export<'a>, ArgumentsError> {
        let rounds = rounds_of(alloc, text_of(matches, "rounds")?)?;
        Ok(Export {
            store: text_of(matches, "store")?,
            target: target_of(alloc, matches)?,
            password: Origin::of_password(matches),
            new_password: Origin::of_new_password(matches),
            same_password: matches.get_flag("same-password"),
            allow_empty: matches.get_flag("allow-empty-password"),
            rounds,
            limit: number_of(alloc, matches, "limit")?,
            accepted: Accepted::of(matches),
            bounds: bounds_of(alloc, matches)?,
            verbose: matches.get_flag("verbose"),
        })
    }
}
