//! Why nothing was drawn.
ghost use Rattle.std.specs.Prelude.{◌≡◌};
ghost use Rattle.sealing_core.specs.declared.error.DrawError.TheVariants.{Memory};

use std::alloc::AllocError;

/// Why nothing was drawn for the parts.
#[derive(Clone, Copy, Debug, PartialEq, Eq)]
pub enum DrawError {
    /// The draw failed.
    Rng,
    /// There was no memory.
    Memory,
}

impl From<AllocError> for DrawError {
    ghost from_gives = { λ _ e. e ≡ Memory };

    fn from(_refused: AllocError) -> DrawError {
        DrawError::Memory
    }
}
