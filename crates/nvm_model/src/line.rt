//! A line of eight words, and what the calls of this crate take and answer besides.
ghost use Rattle.std.specs.Prelude.{◌≡◌};
ghost use Rattle.nvm_model.specs.Choose.{takes_oldest};

use std::alloc::AllocError;

/// Eight words. Word `w` stands at the bytes `8 * w` to `8 * w + 7` of the line, little-endian.
#[derive(Clone, Copy, Debug, PartialEq, Eq)]
pub struct Line {
    /// The words, in order.
    pub words: [u64; 8],
}

/// There was not enough memory; nothing was changed, or nothing was made.
#[derive(Clone, Copy, Debug, PartialEq, Eq)]
pub struct NoMemory;

/// Which version of each word a crash leaves. A word's number is eight times its line plus its place in the line.
#[derive(Clone, Copy, Debug, PartialEq, Eq)]
pub enum Choice {
    /// The oldest version of each word.
    Oldest,
    /// The last version of each word.
    Newest,
    /// The oldest version of each word whose number is even, and the last one of the others.
    Alternating,
}

impl From<AllocError> for NoMemory {
    ghost from_gives = { λ error made. made ≡ record {} };

    fn from(_error: AllocError) -> NoMemory {
        NoMemory
    }
}

impl Choice {
    /// Whether it takes the oldest version of the word of this number.
    pub(crate) fn takes_oldest(self, number: usize) -> bool
        ensures { result ≡ takes_oldest self number }
    {
        match self {
            Choice::Oldest => true,
            Choice::Newest => false,
            Choice::Alternating => number % 2 == 0,
        }
    }
}
