//! Where a password comes from.
ghost use Rattle.std.specs.Prelude.{◌≡◌, ◌<◌, ◌==◌, IfSome, length, position};
ghost use Rattle.command_base.specs.Origin.{line_of, without_return};

use crate::password::{LONGEST, Password};
use crate::password_error::PasswordError;
use clap::ArgMatches;
use std::alloc::Global;
use std::env::VarError;
use std::io::{BufRead, BufReader, Read};
use std::rt::{Env, Files};
use std::{env, fs, io};

/// The standard input as a path, which may be a link to a file.
pub const STANDARD_INPUT: &str = "/dev/stdin";

/// The most octets that are read of a line: the longest password, CR LF, and one more, which tells
/// that the line is longer.
const LINE_OCTETS: u64 = 1027;

/// Where a password comes from.
#[derive(Clone, Copy)]
pub enum Origin<'a> {
    /// The first line of a file, which may be a pipe.
    File(&'a str),
    /// An environment variable.
    Variable(&'a str),
    /// The first line of the standard input.
    Standard,
}

/// The place of the first line feed.
fn line_feed(octets: &[u8]) -> Option<usize>
    ensures found { result ≡ position (λ octet. octet == 10) octets.now }
    ensures within { IfSome result (λ i. i < length octets.now) }
{
    octets.iter().position(|octet| *octet == b'\n')
}

/// A line without a carriage return at its end.
#[tactic(auto, unfolding(crate::specs::Origin::without_return))]
fn without_return(line: &[u8]) -> &[u8]
    ensures { result.now ≡ without_return line.now }
{
    match line.strip_suffix(b"\r") {
        Some(front) => front,
        None => line,
    }
}

/// The first line of these octets, without its LF or CR LF.
#[tactic(auto, unfolding(crate::specs::Origin::line_to))]
pub fn first_line(octets: &[u8]) -> &[u8]
    ensures { result.now ≡ line_of octets.now }
{
    match line_feed(octets) {
        Some(end) => without_return(&octets[..end]),
        None => octets,
    }
}

/// The password of the octets that were read of a file.
fn password_of(alloc: Global, octets: &[u8]) -> Result<Password, PasswordError> {
    let line = first_line(octets);
    // First, since what was read of a longer line may end inside a letter.
    if line.len() > LONGEST {
        return Err(PasswordError::TooLong);
    }
    match std::str::from_utf8(line) {
        Ok(text) => Password::new(String::from_str(alloc, text)?),
        Err(_) => Err(PasswordError::NotUtf8),
    }
}

/// The octets of a reader to its first LF; no more than 1,027.
fn line_octets<R: BufRead + Drop>(alloc: Global, reader: R) -> io::Result<Vec<u8>> {
    let mut octets = Vec::new(alloc);
    let mut line = reader.take(LINE_OCTETS);
    line.read_until(b'\n', &mut octets)?;
    Ok(octets)
}

/// The same of a file.
fn file_octets<R: Files + AllocGlobal>(rt: &R, path: &str) -> io::Result<Vec<u8>> {
    let file = fs::open(rt, path)?;
    line_octets(rt.alloc(), BufReader::new(rt.alloc(), file)?)
}

fn variable<R: Env + AllocGlobal>(rt: &R, name: &str) -> Result<Password, PasswordError> {
    match env::var(rt, name) {
        Ok(text) => Password::new(text),
        Err(VarError::NotUnicode) => Err(PasswordError::NotUtf8),
        Err(VarError::OutOfMemory) => Err(PasswordError::Memory),
        Err(VarError::NotPresent) => Err(PasswordError::NoVariable),
    }
}

/// The origin that one of these three options names; none where none is given.
fn origin_of<'a>(
    matches: &ArgMatches<'a>,
    file: &str,
    variable: &str,
    standard: &str,
) -> Option<Origin<'a>> {
    if let Some(path) = matches.get_str(file) {
        return Some(Origin::File(path));
    }
    if let Some(name) = matches.get_str(variable) {
        return Some(Origin::Variable(name));
    }
    if matches.get_flag(standard) {
        Some(Origin::Standard)
    } else {
        None
    }
}

impl<'a> Origin<'a> {
    /// The origin of the password, by `--password-file`, `--password-env` and `--password-stdin`; none where none is given.
    pub fn of_password(matches: &ArgMatches<'a>) -> Option<Origin<'a>> {
        origin_of(matches, "password-file", "password-env", "password-stdin")
    }

    /// The origin of the new password, by the options of the same names with `new-` in front; none where none is given.
    pub fn of_new_password(matches: &ArgMatches<'a>) -> Option<Origin<'a>> {
        origin_of(
            matches,
            "new-password-file",
            "new-password-env",
            "new-password-stdin",
        )
    }

    /// The path of the file or stream that is read; for a variable, its name.
    pub fn path(self) -> &'a str {
        match self {
            Origin::File(path) => path,
            Origin::Variable(name) => name,
            Origin::Standard => STANDARD_INPUT,
        }
    }

    /// Reads the password: the first line of a file or of the standard input, without its LF or CR LF, or a whole variable.
    pub fn read<R: Files + Env + Input + AllocGlobal>(
        self,
        rt: &R,
    ) -> Result<Password, PasswordError> {
        match self {
            Origin::File(path) => password_of(rt.alloc(), file_octets(rt, path)?.as_slice()),
            Origin::Variable(name) => variable(rt, name),
            Origin::Standard => {
                password_of(rt.alloc(), line_octets(rt.alloc(), rt.reader())?.as_slice())
            }
        }
    }
}
