//! Octets in hexadecimal digits.
ghost use Rattle.std.specs.Fmt.{WritesOnOk};
ghost use Rattle.std.specs.List.{flat_map};
ghost use Rattle.std.specs.Prelude.{◌≡◌, Some, take};
ghost use Rattle.terminal_text.specs.Hexadecimal.{hexadecimal, hexadecimal_octet, octet_count};

use std::fmt;

/// The most octets that are printed.
const MOST_OCTETS: usize = 100;

/// Octets in hexadecimal: the first 100, and how many there are where there are more.
#[derive(Clone, Copy)]
pub struct Hexadecimal<'a>(pub &'a [u8]);

/// Writes an octet in two digits.
#[tactic(auto, using(std::proofs::lemmas::Fmt::hex_byte))]
fn write_octet<W: fmt::Write>(f: &mut fmt::Formatter<W>, octet: u8) -> fmt::Result
    ensures { WritesOnOk W.write_str_gives f.old result (hexadecimal_octet octet) f.new }
{
    write!(f, "{octet:02x}")
}

/// Writes octets, each in two digits.
pub(crate) fn write_octets<W: fmt::Write>(f: &mut fmt::Formatter<W>, octets: &[u8]) -> fmt::Result
    ensures { WritesOnOk W.write_str_gives f.old result
        (flat_map hexadecimal_octet octets.now) f.new }
{
    for octet in octets {
        write_octet(f, *octet)?;
    }
    Ok(())
}

/// The first 100 octets.
fn front(octets: &[u8]) -> &[u8]
    ensures { result.now ≡ take 100 octets.now }
{
    if octets.len() > MOST_OCTETS {
        &octets[..MOST_OCTETS]
    } else {
        octets
    }
}

/// Writes how many octets there are, where there are more than 100.
fn write_count<W: fmt::Write>(f: &mut fmt::Formatter<W>, octets: &[u8]) -> fmt::Result
    ensures { WritesOnOk W.write_str_gives f.old result (octet_count octets.now) f.new }
{
    let count = octets.len();
    if count > MOST_OCTETS {
        write!(f, ".. ({count} octets)")?;
    }
    Ok(())
}

impl fmt::Display for Hexadecimal<'_> {
    ghost output = { λ h. Some (hexadecimal h.0.now) };

    fn fmt<W: fmt::Write>(&self, f: &mut fmt::Formatter<W>) -> fmt::Result {
        write_octets(f, front(self.0))?;
        write_count(f, self.0)
    }
}
