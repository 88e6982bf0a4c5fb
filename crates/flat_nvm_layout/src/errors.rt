//! Why a superblock is not read.
use damage::Evidence;

/// Why the devices are not opened as a store, in the order in which it is tested.
#[derive(Clone, Copy, Debug, PartialEq, Eq)]
pub enum SuperError {
    /// A load failed.
    Nvm,
    /// The magic word is another one.
    NotAStore,
    /// The NVM has fewer than four lines, or a device is smaller than the geometry needs.
    TooSmall,
    /// The tail of the log is above 2^61.
    LogEnded,
    /// A check of the superblock fails: 1 its ranges, fewer frames than pages, or a ring that does not take the longest
    /// transaction (`1920 * writes + 1` lines); 2 a start above the tail, 3 more log than the ring takes.
    Damaged(Evidence),
}
