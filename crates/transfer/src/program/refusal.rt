//! The result to a store that is refused.
ghost use Rattle.std.specs.Prelude.{◌≡◌};
ghost use Rattle.transfer.specs.Status.{status_of};

use crate::store::error::TransferError;
use frame::Status;

impl From<TransferError> for Status {
    ghost from_gives = { λ e s. s ≡ status_of e };

    fn from(refusal: TransferError) -> Status {
        match refusal {
            TransferError::TooLong => Status::TooLong,
            TransferError::Malformed => Status::Malformed,
            TransferError::Unsupported => Status::Unsupported,
            TransferError::MacMissing => Status::MacMissing,
            TransferError::MacUnsupported => Status::MacUnsupported,
            TransferError::ZeroIterations => Status::ZeroIterations,
            TransferError::WorkLimit => Status::WorkLimit,
            TransferError::MacMismatch => Status::MacMismatch,
            TransferError::ContentMalformed => Status::ContentMalformed,
            TransferError::DecryptFailed => Status::DecryptFailed,
            TransferError::KeyMalformed => Status::KeyMalformed,
            TransferError::Rng => Status::Rng,
            TransferError::Memory => Status::Memory,
        }
    }
}
