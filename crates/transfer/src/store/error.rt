//! Why a store is refused.
ghost use Rattle.std.specs.Prelude.{◌≡◌, Some};
ghost use Rattle.transfer.specs.TransferError.{error_name};
ghost use Rattle.transfer.specs.declared.store.error.TransferError.TheVariants.{Memory};

use std::alloc::AllocError;
use std::fmt;

/// Why a store is refused: the first cause of this list, or running out of memory, which may come at any point.
#[derive(Clone, Copy, Debug, PartialEq, Eq)]
pub enum TransferError {
    /// It has more than 16,777,215 octets.
    TooLong,
    /// It is not in the grammar of PKCS#12.
    Malformed,
    /// Its outer content is not data; or a content is neither data nor encrypted by an algorithm that can be opened; or an
    /// encrypted key is under an algorithm that cannot be opened.
    Unsupported,
    /// It has no MAC.
    MacMissing,
    /// The MAC's algorithm is neither SHA-1 nor SHA-256.
    MacUnsupported,
    /// The count of the MAC, or of an encrypted content or key, is 0.
    ZeroIterations,
    /// The next share of the work would pass the limit of steps.
    WorkLimit,
    /// The MAC does not agree under the password.
    MacMismatch,
    /// The outer octets are no list of contents, or the plain octets of a content no list of bags.
    ContentMalformed,
    /// An encrypted content or key does not open.
    DecryptFailed,
    /// The plain octets of an encrypted key are no private key.
    KeyMalformed,
    /// The draw failed.
    Rng,
    /// There was no memory.
    Memory,
}

impl From<AllocError> for TransferError {
    ghost from_gives = { λ _ e. e ≡ Memory };

    fn from(_refused: AllocError) -> TransferError {
        TransferError::Memory
    }
}

impl TransferError {
    /// The name of the variant; running out of memory in words.
    #[tactic(auto, unfolding(crate::specs::TransferError::error_name))]
    fn text(self) -> &'static str
        ensures { result.now ≡ error_name self }
    {
        match self {
            TransferError::TooLong => "TooLong",
            TransferError::Malformed => "Malformed",
            TransferError::Unsupported => "Unsupported",
            TransferError::MacMissing => "MacMissing",
            TransferError::MacUnsupported => "MacUnsupported",
            TransferError::ZeroIterations => "ZeroIterations",
            TransferError::WorkLimit => "WorkLimit",
            TransferError::MacMismatch => "MacMismatch",
            TransferError::ContentMalformed => "ContentMalformed",
            TransferError::DecryptFailed => "DecryptFailed",
            TransferError::KeyMalformed => "KeyMalformed",
            TransferError::Rng => "Rng",
            TransferError::Memory => "out of memory",
        }
    }
}

impl fmt::Display for TransferError {
    ghost output = { λ e. Some (error_name e) };

    fn fmt<W: fmt::Write>(&self, f: &mut fmt::Formatter<W>) -> fmt::Result {
        f.write_str(self.text())
    }
}

impl std::error::Error for TransferError {}
