//! Printable text.
ghost use Rattle.std.specs.Prelude.{◌≡◌, ◌≤◌, ◌<◌, ◌++◌, ◌∷◌, [], All, IfOk, OnOk};
ghost use Rattle.std.specs.String.{string_bytes};
ghost use Rattle.x509_names.specs.HexText.{hex_digit, hex_text, two_digits};
ghost use Rattle.x509_names.specs.Printable.{ArePrintable, IsPrintable, shown};

use octet_core::Text;
use std::alloc::{AllocError, Global};
use std::marker::Model;

/// A text of printable characters.
#[derive(Drop)]
pub(crate) struct Printed {
    text: String,
}

impl Model for Printed {
    ghost use Rattle.std.specs.Prelude.{ℕ, List};
    ghost use Rattle.std.specs.String.{string_bytes};
    ghost use Rattle.x509_names.specs.Printable.{ArePrintable};

    ghost Value = { List ℕ };

    ghost view = { λ p. string_bytes p.text };

    ghost invariant = { λ p. ArePrintable (string_bytes p.text) };
}

/// The upper-case hexadecimal digit of a number.
fn digit_of(number: u8) -> u8
    requires { number < 16 }
    ensures digit { result ≡ hex_digit number }
    ensures printable { IsPrintable result }
{
    if number < 10 {
        b'0' + number
    } else {
        b'A' + (number - 10)
    }
}

impl Printed {
    /// No text yet.
    pub(crate) fn new(alloc: Global) -> Printed
        ensures { result ≡ [] }
    {
        Printed {
            text: String::new(alloc),
        }
    }

    /// Adds a printable character.
    pub(crate) fn push(&mut self, octet: u8) -> Result<(), AllocError>
        requires { IsPrintable octet }
        ensures { OnOk result (self.new ≡ self.old ++ octet ∷ []) }
    {
        self.text.push(char::from(octet))
    }

    /// Adds printable characters.
    pub(crate) fn push_printable(&mut self, octets: &[u8]) -> Result<(), AllocError>
        requires { ArePrintable octets.now }
        ensures { OnOk result (self.new ≡ self.old ++ octets.now) }
    {
        for octet in octets {
            self.push(*octet)?;
        }
        Ok(())
    }

    /// Adds the two hexadecimal digits of an octet.
    #[tactic(auto, unfolding(crate::specs::HexText::two_digits))]
    fn push_digits(&mut self, octet: u8) -> Result<(), AllocError>
        ensures { OnOk result (self.new ≡ self.old ++ two_digits octet) }
    {
        self.push(digit_of(octet / 16))?;
        self.push(digit_of(octet % 16))
    }

    /// Adds an octet: as it is where it is printable, else as a backslash and its digits.
    #[tactic(auto, unfolding(crate::specs::Printable::shown))]
    pub(crate) fn push_octet(&mut self, octet: u8) -> Result<(), AllocError>
        ensures { OnOk result (self.new ≡ self.old ++ shown octet) }
    {
        if octet >= 32 && octet <= 126 {
            return self.push(octet);
        }
        self.push(b'\\')?;
        self.push_digits(octet)
    }

    /// Adds `#` and the digits of the octets.
    pub(crate) fn push_hex(&mut self, octets: &[u8]) -> Result<(), AllocError>
        ensures { OnOk result (self.new ≡ self.old ++ hex_text octets.now) }
    {
        self.push(b'#')?;
        for octet in octets {
            self.push_digits(*octet)?;
        }
        Ok(())
    }

    /// The text.
    pub(crate) fn into_text(self) -> Text
        ensures text { result ≡ self }
        ensures printable { ArePrintable result }
    {
        Text::from_string(self.text)
    }
}

/// Octets as upper-case hexadecimal digits after a `#`. The only error is out of memory.
pub fn hex_text(alloc: Global, octets: &[u8]) -> Result<Text, AllocError>
    ensures text { IfOk result (λ t. t ≡ hex_text octets.now) }
    ensures printable { IfOk result ArePrintable }
{
    let mut printed = Printed::new(alloc);
    printed.push_hex(octets)?;
    Ok(printed.into_text())
}
