//! Arguments of a command line that may be passwords, which are never printed.
ghost use Rattle.std.specs.List.{before_first, flat_map, starts_with};
ghost use Rattle.std.specs.Prelude.{◌≡◌, ◌==◌, ◌++◌, IfOk, OnOk, map, nat_eq, string_bytes};
ghost use Rattle.std.specs.Char.{encode_utf8};
ghost use Rattle.std.specs.Str.{chars};
ghost use Rattle.terminal_text.specs.Arguments.{is_password_given, is_text, names_argument, names_value, takes_password, text_char, without_values};

use crate::printable::is_printable;
use std::alloc::{AllocError, Global};

/// What clap says before an argument that it does not know.
const UNEXPECTED: &str = "unexpected argument '";

/// What clap says before an option that it does not know.
const UNEXPECTED_OPTION: &str = "unexpected argument '--";

/// What clap says before a value of an option that takes none.
const UNEXPECTED_VALUE: &str = "unexpected value '";

const TOO_MANY: &str = "\
there is an argument too many (it is not shown here, since it may be a password)";

const NO_VALUE: &str = "\
an option has a value and takes none (it is not shown here, since it may be a password)";

/// An argument without what follows the first `=`.
fn option_name(argument: &str) -> &str
    ensures { result.now ≡ before_first (λ b. b == 61) argument.now }
{
    match argument.split_once('=') {
        Some((name, _)) => name,
        None => argument,
    }
}

/// Whether an argument is, or begins with, an option that would take a password.
fn takes_password(argument: &str) -> bool
    ensures { result ≡ takes_password argument.now }
{
    matches!(
        option_name(argument),
        "--password" | "--new-password" | "--passin" | "--passout" | "--pass"
    )
}

/// Whether a password is given among the arguments, which other users can read: before `--`, one of them is an option that
/// would take it.
pub fn is_password_given(arguments: &[String]) -> bool
    ensures { result ≡ is_password_given (map string_bytes arguments.now) }
{
    for argument in arguments {
        if argument.as_str() == "--" {
            return false;
        }
        if takes_password(argument.as_str()) {
            return true;
        }
    }
    false
}

/// Whether a character of a message is printed as it is.
fn is_text(c: char) -> bool
    ensures { result ≡ is_text c }
{
    c == '\n' || is_printable(c)
}

/// A character of a message as it is printed.
fn text_char(c: char) -> char
    ensures { result ≡ text_char c }
{
    if is_text(c) { c } else { '?' }
}

/// Adds a text of clap, line by line: a character that a terminal would not show is a question mark.
fn add_printable(text: &mut String, message: &str) -> Result<(), AllocError>
    ensures { OnOk result (string_bytes text.new ≡ string_bytes text.old
        ++ flat_map (λ c. encode_utf8 (text_char c)) (chars message.now)) }
{
    for c in message.chars() {
        text.push(text_char(c))?;
    }
    Ok(())
}

/// Whether a message begins with a text.
fn begins(message: &str, text: &str) -> bool
    ensures { result ≡ starts_with nat_eq message.now text.now }
{
    message.starts_with(text)
}

/// Whether clap names an argument that it does not know and that is no option.
fn names_argument(message: &str) -> bool
    ensures { result ≡ names_argument message.now }
{
    begins(message, UNEXPECTED) && !begins(message, UNEXPECTED_OPTION)
}

/// Whether clap names a value of an option that takes none.
fn names_value(message: &str) -> bool
    ensures { result ≡ names_value message.now }
{
    begins(message, UNEXPECTED_VALUE)
}

/// What clap says of arguments that it refuses, without `error: ` in front. An argument that it does not know and that is no
/// option is left out, and so is a value of an option that takes none, since these may be passwords. The only error is out of
/// memory.
pub fn without_values(alloc: Global, message: &str) -> Result<String, AllocError>
    ensures { IfOk result (λ text. string_bytes text ≡ without_values message.now) }
{
    if names_argument(message) {
        return String::from_str(alloc, TOO_MANY);
    }
    if names_value(message) {
        return String::from_str(alloc, NO_VALUE);
    }
    let mut text = String::new(alloc);
    add_printable(&mut text, message)?;
    Ok(text)
}
