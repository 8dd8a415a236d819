//! Text from outside, as it is printed.
ghost use Rattle.std.specs.Fmt.{WritesOnOk};
ghost use Rattle.std.specs.Prelude.{◌≡◌, Some};
ghost use Rattle.terminal_text.specs.Printable.{is_printable, is_shown, printed, printed_char, printed_count, printed_front, quoted, stays};

use std::fmt;
use ucd_category::GeneralCategory;
use ucd_derived::is_default_ignorable_code_point;

/// The most characters that are printed of a text.
pub(crate) const MOST: usize = 200;

/// Whether characters of this category are shown.
#[tactic(auto, unfolding(crate::specs::Printable::is_shown))]
fn is_shown(category: GeneralCategory) -> bool
    ensures { result ≡ is_shown category }
{
    !matches!(
        category,
        GeneralCategory::Control
            | GeneralCategory::Format
            | GeneralCategory::LineSeparator
            | GeneralCategory::ParagraphSeparator
            | GeneralCategory::Surrogate
    )
}

/// Whether a terminal shows the character and does nothing else: it is no control or format character, no separator of lines
/// or paragraphs and no surrogate (the Unicode categories Cc, Cf, Zl, Zp and Cs), and none that a font leaves out, such as the
/// Hangul fillers and the variation selectors (the Unicode property Default_Ignorable_Code_Point).
pub fn is_printable(c: char) -> bool
    ensures { result ≡ is_printable c }
{
    is_shown(GeneralCategory::for_char(c)) && !is_default_ignorable_code_point(c)
}

/// Whether a character is printed as it is. Between quotation marks, these and backslashes are not.
pub(crate) fn stays(c: char, in_quotes: bool) -> bool
    ensures { result ≡ stays in_quotes c }
{
    is_printable(c) && !(in_quotes && (c == '"' || c == '\\'))
}

/// Writes a character as it is, or its number.
fn write_shown<W: fmt::Write>(f: &mut fmt::Formatter<W>, c: char, in_quotes: bool) -> fmt::Result
    ensures { WritesOnOk W.write_str_gives f.old result (printed_char in_quotes c) f.new }
{
    if stays(c, in_quotes) {
        return f.write_char(c);
    }
    let number = c as u32;
    write!(f, "\\u{{{number:x}}}")
}

/// Writes the first 200 characters of a text.
fn write_front<W: fmt::Write>(f: &mut fmt::Formatter<W>, text: &str, in_quotes: bool) -> fmt::Result
    ensures { WritesOnOk W.write_str_gives f.old result (printed_front in_quotes text.now) f.new }
{
    let mut rest = text.chars();
    for _place in 0..MOST {
        match rest.next() {
            Some(c) => write_shown(f, c, in_quotes)?,
            None => return Ok(()),
        }
    }
    Ok(())
}

/// Writes how many characters a text has, where there are more than 200.
fn write_count<W: fmt::Write>(f: &mut fmt::Formatter<W>, text: &str) -> fmt::Result
    ensures { WritesOnOk W.write_str_gives f.old result (printed_count text.now) f.new }
{
    let count = text.chars().count();
    if count > MOST {
        write!(f, ".. ({count} characters)")?;
    }
    Ok(())
}

/// The first 200 characters of a text, and how many there are where there are more. Characters that are not printable are
/// escaped, as `\u{1b}`.
#[derive(Clone, Copy)]
pub struct Printable<'a>(pub &'a str);

impl fmt::Display for Printable<'_> {
    ghost output = { λ p. Some (printed p.0.now) };

    fn fmt<W: fmt::Write>(&self, f: &mut fmt::Formatter<W>) -> fmt::Result {
        write_front(f, self.0, false)?;
        write_count(f, self.0)
    }
}

/// The same between quotation marks; those inside, and backslashes, are escaped too.
#[derive(Clone, Copy)]
pub struct InQuotes<'a>(pub &'a str);

impl fmt::Display for InQuotes<'_> {
    ghost output = { λ p. Some (quoted p.0.now) };

    fn fmt<W: fmt::Write>(&self, f: &mut fmt::Formatter<W>) -> fmt::Result {
        f.write_str("\"")?;
        write_front(f, self.0, true)?;
        f.write_str("\"")?;
        write_count(f, self.0)
    }
}
