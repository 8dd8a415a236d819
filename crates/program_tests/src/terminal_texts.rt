//! What is printed of hostile text. The categories are those of Unicode's UnicodeData.txt, and what a font leaves out is in its
//! DerivedCoreProperties.txt.
use terminal_text::{
    Hexadecimal, InQuotes, JsonHexadecimal, JsonString, Printable, ShellWord, fits_in_command,
    is_password_given, is_printable, without_values,
};

/// Characters, and whether a terminal shows them: a letter, an emoji, an unassigned one; controls, a soft hyphen, a zero width
/// space, a mark that turns the direction of text, separators of lines and paragraphs, a byte order mark; a joiner, fillers of
/// Hangul, variation selectors, and an unassigned one that a font leaves out.
static CHARACTERS: [(char, bool); 20] = [
    ('a', true),
    (' ', true),
    ('\u{eb}', true),
    ('\u{1f511}', true),
    ('\u{378}', true),
    ('\u{0}', false),
    ('\u{1b}', false),
    ('\u{7f}', false),
    ('\u{9b}', false),
    ('\u{ad}', false),
    ('\u{202e}', false),
    ('\u{2028}', false),
    ('\u{2029}', false),
    ('\u{feff}', false),
    ('\u{34f}', false),
    ('\u{115f}', false),
    ('\u{3164}', false),
    ('\u{fe0f}', false),
    ('\u{e0100}', false),
    ('\u{e0fff}', false),
];

#[test]
fn characters_that_are_not_shown_are_known(rt: HostRuntime) {
    for (c, shown) in CHARACTERS {
        assert!(rt; is_printable(c) == shown);
    }
}

#[test]
fn text_from_outside_is_escaped(rt: HostRuntime) {
    let escape = "a\u{1b}[2J";
    assert!(rt;
        format!(in rt.alloc(); "{}", Printable(escape))
            .expect(&rt, "a text")
            .as_str()
            == "a\\u{1b}[2J"
    );
    let quote = "a\"b";
    assert!(rt;
        format!(in rt.alloc(); "{}", InQuotes(quote))
            .expect(&rt, "a text")
            .as_str()
            == "\"a\\u{22}b\""
    );
    let word = "-it's";
    assert!(rt;
        format!(in rt.alloc(); "{}", ShellWord(word))
            .expect(&rt, "a text")
            .as_str()
            == "'./-it'\\''s'"
    );
    assert!(rt; !fits_in_command(escape));
}

/// A tag of a language is a format character above U+FFFF.
#[test]
fn strings_of_json_are_printed(rt: HostRuntime) {
    let tag = "\u{e0001}\"\u{1f511}";
    assert!(rt;
        format!(in rt.alloc(); "{}", JsonString(tag))
            .expect(&rt, "a text")
            .as_str()
            == "\"\\udb40\\udc01\\u0022\u{1f511}\""
    );
    let octets = [0x0fu8, 0xa0];
    assert!(rt;
        format!(in rt.alloc(); "{} {}", JsonHexadecimal(&octets), Hexadecimal(&octets))
            .expect(&rt, "a text")
            .as_str()
            == "\"0fa0\" 0fa0"
    );
}
