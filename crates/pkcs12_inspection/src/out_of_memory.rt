//! The only error of the calls on an opened store.
ghost use Rattle.std.specs.Prelude.{◌≡◌};

use p12::Error;
use std::alloc::AllocError;

/// The error of a call of `p12` that fails in no other way than out of memory.
pub fn out_of_memory(_error: Error) -> AllocError
    requires { _error ≡ Error.Memory }
{
    AllocError
}
