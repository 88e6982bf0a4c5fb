//! Why a store is not made, or not recovered.
ghost use Rattle.std.specs.Prelude.{◌≡◌};
ghost use Rattle.flat_recovery.specs.declared.errors.OpenError.TheVariants.{Nvm, NoMemory as Short};
ghost use Rattle.flat_recovery.specs.Errors.{open_error};

use damage::Evidence;
use devices::Failed;
use flat_nvm_layout::SuperError;
use nvm_model::NoMemory;

/// Why a store was not made.
#[derive(Clone, Copy, Debug, PartialEq, Eq)]
pub enum FormatError {
    /// A device is smaller than the geometry needs; nothing was written.
    TooSmall,
    /// A call on NVM failed.
    Nvm,
    /// A call on the disk failed. None is made while all pages stay in NVM.
    Ssd,
}

/// Why a store was not recovered.
#[derive(Clone, Copy, Debug, PartialEq, Eq)]
pub enum OpenError {
    /// A call on NVM failed.
    Nvm,
    /// A call on the disk failed. None is made while all pages stay in NVM.
    Ssd,
    /// The magic word is another one.
    NotAStore,
    /// The NVM has fewer than four lines, or a device is smaller than the geometry needs.
    TooSmall,
    /// The tail of the log is above 2^61.
    LogEnded,
    /// A check fails: 1 to 3 of the superblock; of a head in the log 7 its kind, 8 its page or its line, 9 a record cut short.
    Damaged(Evidence),
    /// There was not enough memory. Nothing was stored.
    NoMemory,
}

impl From<Failed> for OpenError {
    ghost from_gives = { λ _ why. why ≡ Nvm };

    fn from(_failed: Failed) -> OpenError {
        OpenError::Nvm
    }
}

impl From<SuperError> for OpenError {
    ghost from_gives = { λ error why. why ≡ open_error error };

    fn from(error: SuperError) -> OpenError {
        match error {
            SuperError::Nvm => OpenError::Nvm,
            SuperError::NotAStore => OpenError::NotAStore,
            SuperError::TooSmall => OpenError::TooSmall,
            SuperError::LogEnded => OpenError::LogEnded,
            SuperError::Damaged(evidence) => OpenError::Damaged(evidence),
        }
    }
}

impl From<NoMemory> for OpenError {
    ghost from_gives = { λ _ why. why ≡ Short };

    fn from(_short: NoMemory) -> OpenError {
        OpenError::NoMemory
    }
}
