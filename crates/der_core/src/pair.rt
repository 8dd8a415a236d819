//! Two texts, one after the other.
ghost use Rattle.std.specs.Prelude.{◌≡◌, length, ◌++◌, ◌⊎◌, OnOk};
ghost use Rattle.std.specs.Result.{IsErrOf};
ghost use Rattle.asn1_core.specs.Der.{IsShort};
ghost use Rattle.asn1_core.specs.Writing.{Writes, Measures, IsOverlong};

use crate::encode::Encode;
use asn1_core::{Error, Length, Writer};

/// How many octets the texts of both values have. `Malformed` exactly where one has none, `Overlength` only where there are more
/// than 2^32 - 1.
pub fn pair_len<A: Encode, B: Encode>(first: &A, second: &B) -> Result<Length, Error>
    ensures measured { Measures ((¬ (A.writable first.now)) ⊎ (¬ (B.writable second.now)))
        (A.canon first.now ++ B.canon second.now) result }
    ensures lawful { OnOk result (A.writable first.now × B.writable second.now) }
{
    let one = first.encoded_len()?;
    let two = second.encoded_len()?;
    match one.value.checked_add(two.value) {
        Some(value) => Ok(Length { value }),
        None => Err(Error::Overlength),
    }
}

/// Writes the text of one value, and after it that of the other. Refusals as in `pair_len`, with nothing written; else those of
/// the writer.
pub fn write_pair<A: Encode, B: Encode, W: Writer>(
    w: &mut W,
    first: &A,
    second: &B,
) -> Result<(), Error>
    ensures written { Writes W.sink ((¬ (A.writable first.now)) ⊎ (¬ (B.writable second.now)))
        (IsOverlong (length (A.canon first.now ++ B.canon second.now)))
        (A.canon first.now ++ B.canon second.now) w.old result w.new }
    ensures short { OnOk result (IsShort (A.canon first.now ++ B.canon second.now)) }
    ensures lawful { OnOk result (A.writable first.now × B.writable second.now) }
    ensures unmoved { IsErrOf result Error.Malformed ⊎ IsErrOf result Error.Overlength
        → w.new ≡ w.old }
{
    pair_len(first, second)?;
    first.encode(w)?;
    second.encode(w)
}

/// Two values as one that is written: the text of the second after that of the first. So a container of more than two parts is
/// written by `pair_len` and `write_pair` too.
#[derive(Drop)]
pub struct Pair<'p, A, B>(pub &'p A, pub &'p B);

impl<'p, A: Encode, B: Encode> Encode for Pair<'p, A, B> {
    ghost canon = { λ p. A.canon p.0.now ++ B.canon p.1.now };

    ghost writable = { λ p. A.writable p.0.now × B.writable p.1.now };

    fn encoded_len(&self) -> Result<Length, Error> {
        pair_len(self.0, self.1)
    }

    fn encode<W: Writer>(&self, w: &mut W) -> Result<(), Error> {
        write_pair(w, self.0, self.1)
    }
}
