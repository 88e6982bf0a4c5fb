//! The evidence of damage.
use nvm_model::Line;

/// What a numbered check was made on, kept so that whoever reads it can make the check again.
#[derive(Clone, Copy, Debug, PartialEq, Eq)]
pub enum Evidence {
    /// The five geometry words of the superblock, `start`, `drained` and `tail`.
    Super {
        /// The eight words, in this order.
        words: [u64; 8],
        /// The number of the check.
        check: u8,
    },
    /// One entry of the frame table, or two that are equal.
    Frames {
        /// The number of an entry.
        first: u32,
        /// That of the other one; the same where one entry is out of range.
        second: u32,
        /// What the entries hold.
        word: u64,
        /// The number of the check.
        check: u8,
    },
    /// One line of the log.
    Log {
        /// Its place in the log.
        offset: u64,
        /// What it holds.
        line: Line,
        /// The end of the log.
        tail: u64,
        /// The number of the check.
        check: u8,
    },
    /// One page. Its bytes stand in the buffer of the call.
    Page {
        /// The number of the page.
        page: u64,
        /// The level that was expected of it, 0 for a leaf.
        level: u8,
        /// The least key that it may hold.
        low: u64,
        /// The greatest key that it may hold. A page is a root exactly where the bounds are 0 and `u64::MAX`.
        high: u64,
        /// The number of the check.
        check: u8,
    },
    /// Two numbers of a walk over all pages that have to agree.
    Walk {
        /// The page that the numbers belong to, or 0.
        page: u64,
        /// The number that the store keeps.
        kept: u64,
        /// The number that was found.
        found: u64,
        /// The number of the check.
        check: u8,
    },
}
