//! A parameter text while it is put together.
ghost use Rattle.std.specs.Prelude.{◌≡◌, ◌+◌, ◌<◌, ◌≤◌, ◌++◌, [], ◌∷◌, length, IfOk, IfErr, OnOk};
ghost use Rattle.phc_core.specs.ParamsString.{with_pair};

use crate::error::Error;
use octet_core::ShortOctets;
use std::marker::Model;

/// A parameter text of at most 127 octets, which grows at the end.
#[derive(Drop)]
pub(crate) struct Line {
    octets: ShortOctets<127>,
}

impl Model for Line {
    ghost use Rattle.std.specs.Prelude.{ℕ, List};

    ghost Value = { List ℕ };

    ghost view = { λ l. l.octets };
}

impl Line {
    fn new() -> Line
        ensures { result ≡ [] }
    {
        Line {
            octets: ShortOctets::new(&[]),
        }
    }

    /// Puts the text at the end. `ParamsInvalid` exactly where it does not fit.
    fn push(&mut self, text: &str) -> Result<(), Error>
        ensures ok { OnOk result (self.new ≡ self.old ++ text.now) }
        ensures fits { OnOk result (length self.old + length text.now ≤ 127) }
        ensures err { IfErr result (λ e. (e ≡ Error.ParamsInvalid)
            × (127 < length self.old + length text.now)) }
    {
        if text.len() > 127 - self.octets.len() {
            return Err(Error::ParamsInvalid);
        }
        self.octets.extend(text.as_bytes());
        Ok(())
    }

    /// The octets.
    pub(crate) fn into_octets(self) -> ShortOctets<127>
        ensures { result ≡ self }
    {
        self.octets
    }
}

/// The text and a comma, which a pair comes after; nothing where the text is empty. `ParamsInvalid` exactly where it has
/// more than 127 octets.
fn line_before_pair(text: &str) -> Result<Line, Error>
    ensures ok { IfOk result (λ l. l ≡ with_pair text.now []) }
    ensures err { IfErr result (λ e. (e ≡ Error.ParamsInvalid)
        × (127 < length (with_pair text.now []))) }
{
    let mut line = Line::new();
    if !text.is_empty() {
        line.push(text)?;
        line.push(",")?;
    }
    Ok(line)
}

/// The parameter text with the pair `name=value` at its end. `ParamsInvalid` exactly where it has more than 127 octets.
pub(crate) fn line_with_pair(text: &str, name: &str, value: &str) -> Result<Line, Error>
    ensures ok { IfOk result (λ l. l ≡ with_pair text.now (name.now ++ 61 ∷ value.now)) }
    ensures fits { OnOk result (length (with_pair text.now (name.now ++ 61 ∷ value.now)) ≤ 127) }
    ensures err { IfErr result (λ e. (e ≡ Error.ParamsInvalid)
        × (127 < length (with_pair text.now (name.now ++ 61 ∷ value.now)))) }
{
    let mut line = line_before_pair(text)?;
    line.push(name)?;
    line.push("=")?;
    line.push(value)?;
    Ok(line)
}
