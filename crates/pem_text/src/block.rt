//! What is read of a text.
ghost use Rattle.std.specs.Prelude.{◌≡◌};
ghost use Rattle.pem_text.specs.declared.block.PemError.TheVariants.{Memory};

use asn1_core::Octets;
use std::alloc::AllocError;

/// A block of a text: its label, and the octets of which it has the Base64.
#[derive(Debug, Drop)]
pub struct Block {
    pub label: Octets,
    pub octets: Octets,
}

/// Why a text is not read. The label is that of the block.
#[derive(Debug, Drop)]
pub enum PemError {
    /// What is between the boundaries is no Base64.
    Base64(Octets),
    /// The text ends, or another block begins, before the block ends.
    NoEnd(Octets),
    /// The block ends under another label.
    OtherEnd(Octets),
    /// There was no memory.
    Memory,
}

impl From<AllocError> for PemError {
    ghost from_gives = { λ _ e. e ≡ Memory };

    fn from(_refused: AllocError) -> PemError {
        PemError::Memory
    }
}
