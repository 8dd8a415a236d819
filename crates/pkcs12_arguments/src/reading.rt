//! What the subcommands that write nothing, `check` and `list`, are asked for.
ghost use Rattle.std.specs.Prelude.{◌≤◌};

use crate::accepted::Accepted;
use crate::arguments_error::ArgumentsError;
use crate::command_line::{
    ALLOW_NO_MAC, LIMIT, MODERN_ONLY, PASSWORD_ENV, PASSWORD_FILE, PASSWORD_STDIN, STORE,
};
use crate::numbers::{days_of, number_of, text_of};
use clap::ArgMatches;
use command_base::{Argument, Form, Origin};
use std::alloc::Global;

pub const CHECK: &str = "check";

pub const ABOUT_CHECK: &str = "Open the store, write nothing, and say what is in it";

pub const LIST: &str = "list";

pub const ABOUT_LIST: &str =
    "Open the store, write nothing, and say of each certificate and private key what it is";

const JSON: Argument = Argument {
    name: "json",
    form: Form::Flag,
    group: None,
    help: "Say it in JSON, whose members the manual page lists",
};

const EXPIRES_WITHIN: Argument = Argument {
    name: "expires-within",
    form: Form::Optional("DAYS"),
    group: None,
    help: "List the certificates alone that end within so many days or have ended, and end with 29 \
        where there is one: 0 to 36500",
};

/// The arguments of `check`, in the order of the help.
pub static CHECK_ARGUMENTS: [Argument; 8] = [
    STORE,
    PASSWORD_FILE,
    PASSWORD_ENV,
    PASSWORD_STDIN,
    JSON,
    MODERN_ONLY,
    ALLOW_NO_MAC,
    LIMIT,
];

/// The same of `list`.
pub static LIST_ARGUMENTS: [Argument; 9] = [
    STORE,
    PASSWORD_FILE,
    PASSWORD_ENV,
    PASSWORD_STDIN,
    JSON,
    EXPIRES_WITHIN,
    MODERN_ONLY,
    ALLOW_NO_MAC,
    LIMIT,
];

/// The store to open, and how it is shown.
#[derive(Drop)]
pub struct Reading<'a> {
    /// The path of the store; `-` is the standard input.
    pub store: &'a str,
    pub password: Option<Origin<'a>>,
    /// Whether it is shown in JSON.
    pub in_json: bool,
    /// The most steps of opening the store.
    pub limit: u64,
    pub accepted: Accepted,
}

impl<'a> Reading<'a> {
    /// What these matches ask for.
    pub(crate) fn of(
        alloc: Global,
        matches: &ArgMatches<'a>,
    ) -> Result<Reading<'a>, ArgumentsError> {
        Ok(Reading {
            store: text_of(matches, "store")?,
            password: Origin::of_password(matches),
            in_json: matches.get_flag("json"),
            limit: number_of(alloc, matches, "limit")?,
            accepted: Accepted::of(matches),
        })
    }
}

/// A number of days.
#[derive(Clone, Copy)]
pub struct Days {
    /// From 0 to 36,500.
    pub count: u32,
    ghost count_fits: { count ≤ 36500 },
}

/// What `list` is asked for.
#[derive(Drop)]
pub struct List<'a> {
    pub reading: Reading<'a>,
    /// The days within which the certificates end that are listed, where these are not all.
    pub expires_within: Option<Days>,
}

impl<'a> List<'a> {
    /// What these matches ask for. `Wrong` for days beside JSON.
    pub(crate) fn of(alloc: Global, matches: &ArgMatches<'a>) -> Result<List<'a>, ArgumentsError> {
        let reading = Reading::of(alloc, matches)?;
        let expires_within = match matches.get_str("expires-within") {
            Some(text) => Some(Days {
                count: days_of(alloc, text)?,
            }),
            None => None,
        };
        if reading.in_json && expires_within.is_some() {
            return Err(ArgumentsError::new("--expires-within goes not with --json"));
        }
        Ok(List {
            reading,
            expires_within,
        })
    }
}
