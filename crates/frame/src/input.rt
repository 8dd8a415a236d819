//! Reading the whole input.
ghost use Rattle.std.specs.Prelude.{◌≡◌, ◌<◌, ◌≤◌, length, Err, IfOk, IfSome};
ghost use Rattle.std.specs.Result.{IsErrOf};
ghost use Rattle.octet_core.specs.Faults.{Rose};
ghost use Rattle.frame.specs.Input.{IsWhole, TakesAtMost, input_limit, taken_limit};
ghost use Rattle.frame.specs.declared.input.InputError.TheVariants.{Memory};

use octet_core::Source;
use std::alloc::{AllocError, Global};

/// The most octets that the input may have.
pub const INPUT_LIMIT: usize = 67_108_864;

/// Why the input was not read whole.
#[derive(Clone, Copy, Debug, PartialEq, Eq)]
pub enum InputError {
    /// A read failed.
    ReadFault,
    /// It has more octets than the limit.
    InputTooLong,
    /// There was no memory.
    Memory,
}

impl From<AllocError> for InputError {
    ghost from_gives = { λ _ e. e ≡ Memory };

    fn from(_refused: AllocError) -> InputError {
        InputError::Memory
    }
}

/// Reads the source to its end, and returns all octets that it had. Refused as `ReadFault` at the first read that fails, as
/// `InputTooLong` at the first piece past `INPUT_LIMIT` octets, and as `Memory`; a piece has at most 65,536 octets.
pub fn read_input<I: Source>(alloc: Global, input: &mut I) -> Result<Vec<u8>, InputError>
    ensures count { I.faults input.old ≤ I.faults input.new }
    ensures last { I.faults input.old < I.faults input.new → result ≡ Err InputError.ReadFault }
    ensures whole { IfOk result
        (λ octets. IsWhole (I.left input.old) (I.left input.new) octets.items) }
    ensures fault { IsErrOf result InputError.ReadFault
        → Rose (I.faults input.old) (I.faults input.new) }
    ensures too_long { IsErrOf result InputError.InputTooLong
        → IfSome (I.left input.old) (λ x. input_limit < length x) }
    ensures taken { TakesAtMost (I.left input.old) (I.left input.new) taken_limit }
{
    let mut octets = Vec::new(alloc);
    let mut buffer = [0u8; 65536];
    loop {
        let count = match input.read(&mut buffer) {
            Ok(count) => count,
            Err(_) => return Err(InputError::ReadFault),
        };
        if count == 0 {
            return Ok(octets);
        }
        if count > INPUT_LIMIT - octets.len() {
            return Err(InputError::InputTooLong);
        }
        octets.extend_from_slice(&buffer[..count])?;
    }
}
