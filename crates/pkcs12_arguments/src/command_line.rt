//! The arguments of the command, as `--help` shows them.
use crate::{create, export, reading, rekey};
use clap::Command;
use command_base::{Argument, Form, with_arguments};
use std::alloc::{AllocError, Global};

/// What is below the options of each subcommand.
pub(crate) const NOTES: &str = "\
A password is never an argument, since other users can read those. Without any of its options,
pkcs12 asks for it at a terminal. Of a file, its first line is the password, without LF or CR LF;
/dev/fd/3 and other pipes work; pkcs12 uses descriptor 7 itself.";

/// What is below the whole help.
const AFTER: &str = "\
Examples:
  pkcs12 check store.p12
  pkcs12 list store.p12
  pkcs12 export store.p12 --out pem
  pkcs12 export store.p12 --out der --format der --password-file old --new-password-file new
  pkcs12 export - --out pem --password-env OLD --new-password-env NEW <store.p12
  pkcs12 rekey store.p12 --out new.p12
  pkcs12 create --key key.pem --certificate cert.pem --chain chain.pem --name NAME --out store.p12
  pkcs12 self-test

Exported private keys are always encrypted. OpenSSL takes the password off one:
  openssl pkey -in pem/key-0.pem -out key.pem
In the folder of the sources ./pkcs12 also has before-proof, build, install [PREFIX] and uninstall [PREFIX].

Exit numbers:
   0  Done                the store was opened, and all output was written
   1  BuildFailed         the program could not be built, installed or uninstalled
   2  Usage               bad arguments
   3  ReadFault           the store, a file of create or a password cannot be read
   4  WriteFault          the output cannot be written; nothing of it is left
   7  Memory              there was not enough memory
   8  PasswordMissing     no password was given, and there is no terminal to ask at
   9  NewPasswordMissing  a new password is needed, and none was given
  10  Malformed           the file is not a PKCS#12 store, or for create not the PEM that is needed
  11  Unsupported         something is of a kind, or encrypted by an algorithm, that is not opened
  12  MacMissing          the store has no MAC, so a change to it would go unnoticed
  13  MacUnsupported      the MAC is made by an algorithm that is not supported
  14  ZeroIterations      the store asks for zero iterations
  15  WorkLimit           opening takes more work than --limit allows
  16  MacMismatch         the password is wrong, or the store was changed
  17  ContentMalformed    the MAC agrees, but the contents are damaged
  18  DecryptFailed       a part of a store whose MAC agrees, or a private key of create, does not decrypt with the password
  19  KeyMalformed        a private key opens, but is not a PKCS#8 key, or for create not what its label names
  20  Rng                 the system gave no random octets
  21  TooLong             the store or a file of create has more than 16,777,215 octets
  22  PasswordUnusable    a password is not UTF-8 or too long, or a new one is empty or has a NUL
  23  OutputExists        the output is there and cannot be replaced
  24  SelfTestFailed      the self-test gave a wrong result
  25  NotExported         the store has nothing to export, or more than is exported; nothing was written
  26  SealLimit           the private keys take more rounds than --seal-limit allows
  27  TooManyFiles        the store has more certificates and keys than --most-files allows
  29  Expiring            a certificate ends within the days of --expires-within";

/// The store, by its place.
pub const STORE: Argument = Argument {
    name: "store",
    form: Form::Place("STORE"),
    group: None,
    help: "The store (.p12, .pfx); - is the standard input",
};

pub const PASSWORD_FILE: Argument = Argument {
    name: "password-file",
    form: Form::Optional("FILE"),
    group: Some("password"),
    help: "The store's password is the first line of FILE",
};

pub const PASSWORD_ENV: Argument = Argument {
    name: "password-env",
    form: Form::Optional("NAME"),
    group: Some("password"),
    help: "The store's password is the environment variable NAME",
};

pub const PASSWORD_STDIN: Argument = Argument {
    name: "password-stdin",
    form: Form::Flag,
    group: Some("password"),
    help: "The store's password is the first line of the standard input",
};

pub const LIMIT: Argument = Argument {
    name: "limit",
    form: Form::Number("STEPS", "100000000"),
    group: None,
    help: "Refuse a store that takes more than this many steps (hash computations of key \
        derivation) to open: 0 to 18446744073709551615",
};

pub const MODERN_ONLY: Argument = Argument {
    name: "modern-only",
    form: Form::Flag,
    group: Some("stores"),
    help: "Refuse old stores: in BER, under RC2 or Triple DES with two keys, with a MAC by another hash than \
        SHA-1 and SHA-256, or made with no password at all",
};

pub const ALLOW_NO_MAC: Argument = Argument {
    name: "allow-no-mac",
    form: Form::Flag,
    group: Some("stores"),
    help: "Open a store without a MAC too, where nothing tells whether somebody changed it",
};

/// A subcommand: its name, what it is for, and its arguments.
#[derive(Clone, Copy)]
struct Subcommand {
    name: &'static str,
    about: &'static str,
    arguments: &'static [Argument],
}

/// The subcommands that take arguments, in the order of the help.
fn subcommands() -> [Subcommand; 4] {
    [
        Subcommand {
            name: export::NAME,
            about: export::ABOUT,
            arguments: &export::ARGUMENTS,
        },
        Subcommand {
            name: reading::CHECK,
            about: reading::ABOUT_CHECK,
            arguments: &reading::CHECK_ARGUMENTS,
        },
        Subcommand {
            name: reading::LIST,
            about: reading::ABOUT_LIST,
            arguments: &reading::LIST_ARGUMENTS,
        },
        Subcommand {
            name: rekey::NAME,
            about: rekey::ABOUT,
            arguments: &rekey::ARGUMENTS,
        },
    ]
}

fn self_test<'a>(alloc: Global) -> Command<'a> {
    Command::new(alloc, "self-test").about(
        "Make a sample store and transfer it, and tell whether what comes of it is right",
    )
}

/// The command with one subcommand more.
fn with_subcommand<'a>(
    alloc: Global,
    command: Command<'a>,
    name: &'a str,
    about: &'a str,
    arguments: &[Argument],
) -> Result<Command<'a>, AllocError> {
    let subcommand = Command::new(alloc, name).about(about).after_help(NOTES);
    command.subcommand(with_arguments(alloc, subcommand, arguments)?)
}

/// The command with its subcommands.
fn with_subcommands<'a>(alloc: Global, command: Command<'a>) -> Result<Command<'a>, AllocError> {
    let mut command = command;
    for each in subcommands() {
        command = with_subcommand(alloc, command, each.name, each.about, each.arguments)?;
    }
    let command = command.subcommand(create::subcommand(alloc)?)?;
    command.subcommand(self_test(alloc))
}

/// The whole command.
pub fn command<'a>(alloc: Global) -> Result<Command<'a>, AllocError> {
    let command = Command::new(alloc, "pkcs12")
        .bin_name("pkcs12")?
        .version("1.0.0")
        .about(
            "Open a PKCS#12 store, and take out its certificates and private keys, or make one of them",
        )
        .after_help(AFTER)
        .subcommand_required(true)
        .arg_required_else_help(true)
        .disable_help_subcommand(true);
    with_subcommands(alloc, command)
}
