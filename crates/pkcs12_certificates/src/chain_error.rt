//! Why there are no chains.
use std::alloc::AllocError;

/// Why the chains of a store are not made.
#[derive(Clone, Copy, Debug, PartialEq)]
pub enum ChainError {
    /// Their certificates have too many octets together.
    TooMuch,
    /// There was no memory.
    Memory,
}

impl From<AllocError> for ChainError {
    fn from(_refused: AllocError) -> ChainError {
        ChainError::Memory
    }
}
