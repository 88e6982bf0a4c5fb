//! Why a superblock is not read.
use damage::Evidence;

/// Why the devices are not opened as a store, in the order in which it is tested.
#[derive(Clone, Copy, Debug, PartialEq, Eq)]
pub enum SuperError {
    /// A load failed.
    Nvm,
    /// The magic word is another one.
    NotAStore,
    /// The NVM has fewer than four lines, or a device is smaller than the geometry needs.
    TooSmall,
    /// The tail of the log is above 2^61.
    LogEnded,
    /// A check of the superblock fails: 1 a number out of its range; 2 a start or `drained` above the tail, or `drained` no
    /// multiple of 64; 3 more log above `drained` than the ring in NVM takes; 4 more of it below, from the block of the start
    /// on, than the ring on the SSD takes.
    Damaged(Evidence),
}
