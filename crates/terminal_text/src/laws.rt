//! Laws of what is printed: the contracts of functions that do nothing.
ghost use Rattle.terminal_text.specs.Arguments.{WithoutValuesIsText};
ghost use Rattle.terminal_text.specs.JsonString.{JsonStringIsText};
ghost use Rattle.terminal_text.specs.Printable.{PrintedIsShown};
ghost use Rattle.terminal_text.specs.ShellWord.{ShellWordIsRead};

/// What `Printable` and `InQuotes` print of a text, whatever it is, are characters that a terminal shows, and does nothing else
/// with.
pub fn printed_is_shown()
    ensures { PrintedIsShown }
{}

/// A POSIX shell reads what `ShellWord` prints of a path as one word: the path itself, or `./` and the path where it begins
/// with a dash. Where `fits_in_command` is true of the path, a terminal shows what is printed, in one line.
pub fn shell_word_is_read()
    ensures { ShellWordIsRead }
{}

/// What `JsonString` prints of a text is a string of JSON whose value is the text, and a terminal shows it, in one line.
pub fn json_string_is_text()
    ensures { JsonStringIsText }
{}

/// What `without_values` makes of a message, whatever it is, has only line feeds and characters that a terminal shows.
pub fn without_values_is_text()
    ensures { WithoutValuesIsText }
{}
