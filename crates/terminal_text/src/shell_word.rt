//! Paths in commands for the shell.
ghost use Rattle.std.specs.Fmt.{WritesOnOk};
ghost use Rattle.std.specs.List.{flat_map, list_all};
ghost use Rattle.std.specs.Prelude.{◌≡◌, Some, length, nat_le};
ghost use Rattle.std.specs.Str.{chars};
ghost use Rattle.terminal_text.specs.Printable.{is_printable};
ghost use Rattle.terminal_text.specs.ShellWord.{fits_in_command, path_front, shell_char, shell_word};

use crate::printable::{MOST, is_printable};
use std::fmt;

/// Whether a text has at most 200 characters.
fn is_short(text: &str) -> bool
    ensures { result ≡ nat_le (length (chars text.now)) 200 }
{
    text.chars().count() <= MOST
}

/// Whether all characters of a text are printable.
fn are_printable(text: &str) -> bool
    ensures { result ≡ list_all is_printable (chars text.now) }
{
    text.chars().all(is_printable)
}

/// Whether a path can be in a command that is printed: it has at most 200 characters, all of
/// them printable.
pub fn fits_in_command(path: &str) -> bool
    ensures { result ≡ fits_in_command path.now }
{
    is_short(path) && are_printable(path)
}

/// What is put in front of a path: `./` where it begins with a dash.
fn path_front(path: &str) -> &'static str
    ensures { result.now ≡ path_front path.now }
{
    if path.starts_with('-') { "./" } else { "" }
}

/// Writes a character between single quotes.
fn write_quoted_char<W: fmt::Write>(f: &mut fmt::Formatter<W>, c: char) -> fmt::Result
    ensures { WritesOnOk W.write_str_gives f.old result (shell_char c) f.new }
{
    if c == '\'' {
        f.write_str("'\\''")
    } else {
        f.write_char(c)
    }
}

/// Writes the characters of a text between single quotes.
fn write_quoted<W: fmt::Write>(f: &mut fmt::Formatter<W>, text: &str) -> fmt::Result
    ensures { WritesOnOk W.write_str_gives f.old result
        (flat_map shell_char (chars text.now)) f.new }
{
    for c in text.chars() {
        write_quoted_char(f, c)?;
    }
    Ok(())
}

/// A path as a word of a command for the shell: in single quotes, and after `./` where it begins
/// with a dash.
#[derive(Clone, Copy)]
pub struct ShellWord<'a>(pub &'a str);

impl fmt::Display for ShellWord<'_> {
    ghost output = { λ w. Some (shell_word w.0.now) };

    fn fmt<W: fmt::Write>(&self, f: &mut fmt::Formatter<W>) -> fmt::Result {
        f.write_str("'")?;
        f.write_str(path_front(self.0))?;
        write_quoted(f, self.0)?;
        f.write_str("'")
    }
}
