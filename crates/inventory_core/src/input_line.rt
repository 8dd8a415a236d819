//! The line of the input.
ghost use Rattle.std.specs.Prelude.{IfOk, IfErr};
ghost use Rattle.frame.specs.TextCause.{MalformedOnly};
ghost use Rattle.inventory_core.specs.InputLine.{IsLine, IsNoLine};

use frame::{Spelled, TextError, read_text};
use octet_core::Octets;
use std::alloc::Global;

/// The octets of the store that the text spells in one line of hexadecimal digits. `Malformed`
/// exactly where it is not such a line; the only other error is `Memory`.
pub(crate) fn read_line(alloc: Global, text: Vec<u8>) -> Result<Octets, TextError>
    ensures found { IfOk result (λ store. IsLine text.items store) }
    ensures cause { IfErr result (λ e. MalformedOnly e (IsNoLine text.items)) }
{
    // The proofs name both outcomes of this call.
    let spelled = match read_text(alloc, text) {
        Ok(spelled) => spelled,
        Err(e) => return Err(e),
    };
    let Spelled { store, line } = spelled;
    match line {
        None => Ok(store),
        Some(_) => Err(TextError::Malformed),
    }
}
