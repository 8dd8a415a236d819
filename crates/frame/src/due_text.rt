//! The text that is due, and writing it. Lines are made first, all of them, and then each is offered in one write.
ghost use Rattle.std.specs.Prelude.{◌≡◌, ◌+◌, ◌*◌, ◌≤◌, ◌++◌, List, ℕ, length, take, IfOk, IfSome, OnOk, OnErr};
ghost use Rattle.std.specs.List.{flat_map};
ghost use Rattle.std.specs.Io.KnownBytes.{Appends};
ghost use Rattle.hex.specs.Hex.{encode_lower};
ghost use Rattle.frame.specs.DueText.{AppendsPart, digits_line, joined};
ghost use Rattle.frame.specs.Status.{error_text};
ghost use Rattle.octet_core.specs.Faults.{Rose};

use crate::digits::encode_into;
use crate::status::Status;
use octet_core::{Failed, Items, Octets, Sink, Text};
use std::alloc::{AllocError, Global};

/// What a program writes where it is done.
pub trait DueText {
    // the text
    ghost text: { Self → List ℕ };

    /// Writes the text whole, or, where a write failed, a proper prefix of it.
    fn write_to<O: Sink>(&self, output: &mut O) -> Result<(), Failed>
        ensures count { O.faults output.old ≤ O.faults output.new }
        ensures whole { OnOk result
            (Appends (O.written output.old) (O.written output.new) (text self.now)) }
        ensures part { OnErr result
            (AppendsPart (O.written output.old) (O.written output.new) (text self.now)) }
        ensures cause { OnErr result (Rose (O.faults output.old) (O.faults output.new)) }
        ensures no_fault { OnOk result (O.faults output.new ≡ O.faults output.old) };
}

/// Lines, one after the other, each offered in one write.
impl DueText for Items<Octets> {
    ghost text = { λ lines. joined lines };

    fn write_to<O: Sink>(&self, output: &mut O) -> Result<(), Failed> {
        write_lines(output, self.as_slice())
    }
}

/// Lines of characters, one after the other, each offered in one write.
impl DueText for Items<Text> {
    ghost text = { λ lines. joined lines };

    fn write_to<O: Sink>(&self, output: &mut O) -> Result<(), Failed> {
        write_texts(output, self.as_slice())
    }
}

/// A text in one piece.
impl DueText for Octets {
    ghost text = { λ octets. octets };

    fn write_to<O: Sink>(&self, output: &mut O) -> Result<(), Failed> {
        write_piece(output, self.as_slice())
    }
}

/// Writes the digits of the octets after the first `filled` octets of the buffer.
fn encode_behind(buffer: &mut [u8], filled: usize, octets: &[u8])
    requires { filled + 2 * length octets.now ≤ length buffer.old }
    ensures { take (filled + 2 * length octets.now) buffer.new
        ≡ take filled buffer.old ++ encode_lower octets.now }
{
    let end = filled + 2 * octets.len();
    encode_into(octets, &mut buffer[filled..end]);
}

/// How many octets a line has; None where that is more than a `usize` holds.
fn line_size(label: &str, octets: &[u8]) -> Option<usize>
    ensures { IfSome result (λ n. n ≡ length label.now + 2 * length octets.now + 1) }
{
    let digits = octets.len().checked_mul(2)?;
    let filled = digits.checked_add(label.len())?;
    filled.checked_add(1)
}

/// A line of a label and the lower-case digits of the octets, with its line feed. The only refusal is `Memory`.
pub fn line_of(alloc: Global, label: &str, octets: &[u8]) -> Result<Octets, AllocError>
    ensures { IfOk result (λ line. line ≡ digits_line label.now octets.now) }
{
    let Some(size) = line_size(label, octets) else {
        return Err(AllocError);
    };
    let mut line = vec![in alloc; 0u8; size]?;
    let buffer = line.as_mut_slice();
    let filled = label.len();
    buffer[..filled].copy_from_slice(label.as_bytes());
    encode_behind(buffer, filled, octets);
    buffer[size - 1] = b'\n';
    Ok(Octets::from_vec(line))
}

/// Adds a line of the label and the digits for each of the items. The only refusal is `Memory`; some lines may have
/// been added then.
pub fn add_lines(
    alloc: Global,
    label: &str,
    items: &[Octets],
    lines: &mut Items<Octets>,
) -> Result<(), AllocError>
    ensures { OnOk result
        (joined lines.new ≡ joined lines.old ++ flat_map (digits_line label.now) items.now) }
{
    for item in items {
        lines.push(line_of(alloc, label, item.as_slice())?)?;
    }
    Ok(())
}

/// Writes a piece whole. `Failed` exactly where a write failed, and then a proper prefix of it was written.
pub fn write_piece<O: Sink>(output: &mut O, piece: &[u8]) -> Result<(), Failed>
    ensures count { O.faults output.old ≤ O.faults output.new }
    ensures whole { OnOk result (Appends (O.written output.old) (O.written output.new) piece.now) }
    ensures part { OnErr result
        (AppendsPart (O.written output.old) (O.written output.new) piece.now) }
    ensures cause { OnErr result (Rose (O.faults output.old) (O.faults output.new)) }
    ensures no_fault { OnOk result (O.faults output.new ≡ O.faults output.old) }
{
    let mut done = 0;
    while done < piece.len() {
        done += output.write(&piece[done..])?;
    }
    Ok(())
}

/// Writes the lines, one after the other. `Failed` exactly where a write failed, and then a proper prefix of them was
/// written.
pub fn write_lines<O: Sink>(output: &mut O, lines: &[Octets]) -> Result<(), Failed>
    ensures count { O.faults output.old ≤ O.faults output.new }
    ensures whole { OnOk result
        (Appends (O.written output.old) (O.written output.new) (joined lines.now)) }
    ensures part { OnErr result (AppendsPart (O.written output.old) (O.written output.new)
        (joined lines.now)) }
    ensures cause { OnErr result (Rose (O.faults output.old) (O.faults output.new)) }
    ensures no_fault { OnOk result (O.faults output.new ≡ O.faults output.old) }
{
    for line in lines {
        write_piece(output, line.as_slice())?;
    }
    Ok(())
}

/// `write_lines` of lines of characters.
pub fn write_texts<O: Sink>(output: &mut O, lines: &[Text]) -> Result<(), Failed>
    ensures count { O.faults output.old ≤ O.faults output.new }
    ensures whole { OnOk result
        (Appends (O.written output.old) (O.written output.new) (joined lines.now)) }
    ensures part { OnErr result (AppendsPart (O.written output.old) (O.written output.new)
        (joined lines.now)) }
    ensures cause { OnErr result (Rose (O.faults output.old) (O.faults output.new)) }
    ensures no_fault { OnOk result (O.faults output.new ≡ O.faults output.old) }
{
    for line in lines {
        write_piece(output, line.as_str().as_bytes())?;
    }
    Ok(())
}

/// Writes the line `error: ` with the name of the status; `Failed` as `write_piece` returns it.
pub fn write_error<O: Sink>(output: &mut O, status: Status) -> Result<(), Failed>
    ensures count { O.faults output.old ≤ O.faults output.new }
    ensures whole { OnOk result
        (Appends (O.written output.old) (O.written output.new) (error_text status)) }
    ensures part { OnErr result
        (AppendsPart (O.written output.old) (O.written output.new) (error_text status)) }
    ensures cause { OnErr result (Rose (O.faults output.old) (O.faults output.new)) }
    ensures no_fault { OnOk result (O.faults output.new ≡ O.faults output.old) }
{
    let name = status.name().as_bytes();
    let mut line = [b'\n'; 24];
    line[..7].copy_from_slice(b"error: ");
    line[7..7 + name.len()].copy_from_slice(name);
    write_piece(output, &line[..8 + name.len()])
}
