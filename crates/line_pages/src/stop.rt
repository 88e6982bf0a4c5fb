//! Why a call stopped.
use damage::Evidence;

/// Why a call on pages stopped. No further call is made on that value.
#[derive(Clone, Copy, Debug, PartialEq, Eq)]
pub enum Stop {
    /// A call on NVM failed.
    Nvm,
    /// A call on the disk failed.
    Ssd,
    /// A page, or a line of the log, fails a check.
    Damaged(Evidence),
}
