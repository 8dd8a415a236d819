//! The arguments of the command, as `--help` shows them.
use clap::Command;
use command_base::{Argument, Form, with_arguments};
use std::alloc::{AllocError, Global};

/// What is under the options of each subcommand that takes a password.
const NOTES: &str = "\
A password is never an argument, since other users can read those. Without any of its options, passdb asks for it
at a terminal. Of a file, its first line is the password, without LF or CR LF; /dev/fd/3 and other pipes work;
passdb uses descriptor 7 itself.";

/// What is under the whole help.
const AFTER: &str = "\
A file has a line NAME:HASH for each name, HASH being a PHC string of PBKDF2, and at most 67,108,864 octets. It is
written anew beside its place and then renamed: it is never half written. A new file is for its owner alone (mode
0600); one that is there keeps owner and group, and its mode from 0600 to 0640: others cannot read it afterwards. An
access control list is not kept; then the mode is 0600. Another hard link to the file keeps what the file was. While
it is changed FILE.lock is there and locked, so that of two runs at the same time both changes are kept; a run waits
ten seconds for another. A file is changed only below folders that nobody else can change: those of root and of who
runs the command, without write permission for others or with the sticky bit.

In a script, a NAME from outside is one word, in quotation marks. Whatever it is, check ends with 0 only where the
password is that of the name. Help is asked for alone; -- comes before a FILE and a NAME that begin with -. Tell
a user the same for 10 and 11, and give check --even, or the time tells which names there are.

Examples:
  passdb add users ann
  passdb check --even --password-stdin -- users \"$NAME\"
  passdb change users ann --password-file old --new-password-file new
  passdb reset users ann
  passdb remove users ann
  passdb list users | cut -f 1

In the folder of the sources ./passdb also has before-proof, build, install [PREFIX] and uninstall [PREFIX].

Exit numbers:
   0  Done                done; of check, the password is that of the name
   1  BuildFailed         the program could not be built, or is not installed whole
   2  Usage               bad arguments, or help that is not asked for alone
   3  ReadFault           the file or a password cannot be read
   4  WriteFault          the file cannot be written; it is as it was
   5  Locked              another run has been changing the file for ten seconds
   6  Malformed           the file is not a password file
   7  Memory              there was not enough memory
   8  PasswordMissing     no password was given, and there is no terminal to ask at
   9  NewPasswordMissing  no new password was given, and there is no terminal to ask at
  10  WrongPassword       the password is not that of the name
  11  NameUnknown         the file does not have the name
  12  NameExists          the file has the name already
  20  Rng                 the system gave no random octets
  22  PasswordUnusable    a password is not UTF-8, too long, or an empty new one";

const FILE: Argument = Argument {
    name: "file",
    form: Form::Place("FILE"),
    group: None,
    help: "The password file; add makes it where it is not there",
};

const NAME: Argument = Argument {
    name: "name",
    form: Form::Place("NAME"),
    group: None,
    help: "The name: 1 to 32 characters of a to z, 0 to 9 and -",
};

const PASSWORD_FILE: Argument = Argument {
    name: "password-file",
    form: Form::Optional("FILE"),
    group: Some("password"),
    help: "The password is the first line of FILE",
};

const PASSWORD_ENV: Argument = Argument {
    name: "password-env",
    form: Form::Optional("VARIABLE"),
    group: Some("password"),
    help: "The password is the environment variable VARIABLE",
};

const PASSWORD_STDIN: Argument = Argument {
    name: "password-stdin",
    form: Form::Flag,
    group: Some("password"),
    help: "The password is the first line of the standard input",
};

const NEW_PASSWORD_FILE: Argument = Argument {
    name: "new-password-file",
    form: Form::Optional("FILE"),
    group: Some("new-password"),
    help: "The new password is the first line of FILE",
};

const NEW_PASSWORD_ENV: Argument = Argument {
    name: "new-password-env",
    form: Form::Optional("VARIABLE"),
    group: Some("new-password"),
    help: "The new password is the environment variable VARIABLE",
};

const NEW_PASSWORD_STDIN: Argument = Argument {
    name: "new-password-stdin",
    form: Form::Flag,
    group: Some("new-password"),
    help: "The new password is the first line of the standard input",
};

const EVEN: Argument = Argument {
    name: "even",
    form: Form::Flag,
    group: None,
    help: "Take as long for a name that the file does not have as for a wrong password",
};

const NO_RENEW: Argument = Argument {
    name: "no-renew",
    form: Form::Flag,
    group: None,
    help: "Never write the file: an entry with few rounds stays",
};

const ROUNDS: Argument = Argument {
    name: "rounds",
    form: Form::Number("ROUNDS", "600000"),
    group: None,
    help: "Rounds of PBKDF2 for a new entry; check makes an entry anew that has fewer: 1000 to 10000000",
};

/// Those of `add` and `reset`, in the order of the help.
static OF_NEW_PASSWORD: [Argument; 6] = [
    FILE,
    NAME,
    PASSWORD_FILE,
    PASSWORD_ENV,
    PASSWORD_STDIN,
    ROUNDS,
];

/// Those of `check`.
static OF_CHECK: [Argument; 8] = [
    FILE,
    NAME,
    PASSWORD_FILE,
    PASSWORD_ENV,
    PASSWORD_STDIN,
    EVEN,
    NO_RENEW,
    ROUNDS,
];

/// Those of `change`.
static OF_CHANGE: [Argument; 9] = [
    FILE,
    NAME,
    PASSWORD_FILE,
    PASSWORD_ENV,
    PASSWORD_STDIN,
    NEW_PASSWORD_FILE,
    NEW_PASSWORD_ENV,
    NEW_PASSWORD_STDIN,
    ROUNDS,
];

/// Those of `remove`.
static OF_REMOVE: [Argument; 2] = [FILE, NAME];

/// Those of `list`.
static OF_LIST: [Argument; 1] = [FILE];

/// The command with one subcommand more.
fn with_subcommand<'a>(
    alloc: Global,
    command: Command<'a>,
    name: &'a str,
    about: &'a str,
    arguments: &[Argument],
) -> Result<Command<'a>, AllocError> {
    let subcommand = Command::new(alloc, name).about(about);
    let takes_password = arguments.iter().any(|argument| argument.group.is_some());
    let subcommand = if takes_password {
        subcommand.after_help(NOTES)
    } else {
        subcommand
    };
    command.subcommand(with_arguments(alloc, subcommand, arguments)?)
}

/// The command with its subcommands.
fn with_subcommands<'a>(alloc: Global, command: Command<'a>) -> Result<Command<'a>, AllocError> {
    let about = "Add a name with a password";
    let command = with_subcommand(alloc, command, "add", about, &OF_NEW_PASSWORD)?;
    let about = "Test a password, and make the entry anew where it has few rounds";
    let command = with_subcommand(alloc, command, "check", about, &OF_CHECK)?;
    let about = "Change the password of a name";
    let command = with_subcommand(alloc, command, "change", about, &OF_CHANGE)?;
    let about = "Give a name another password, whatever the old one was";
    let command = with_subcommand(alloc, command, "reset", about, &OF_NEW_PASSWORD)?;
    let about = "Remove a name";
    let command = with_subcommand(alloc, command, "remove", about, &OF_REMOVE)?;
    let about =
        "Print a line for each name: the name, its algorithm and its rounds, a tab between them";
    with_subcommand(alloc, command, "list", about, &OF_LIST)
}

/// The whole command.
pub fn command<'a>(alloc: Global) -> Result<Command<'a>, AllocError> {
    let command = Command::new(alloc, "passdb")
        .bin_name("passdb")?
        .version("1.0.0")
        .about("Keep a file of names and password hashes")
        .after_help(AFTER)
        .subcommand_required(true)
        .arg_required_else_help(true)
        .disable_help_subcommand(true);
    with_subcommands(alloc, command)
}
