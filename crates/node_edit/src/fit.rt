//! What became of a page.

/// What became of the bytes of a page that was changed.
#[derive(Clone, Copy, Debug, PartialEq, Eq)]
pub enum Fit {
    /// It is as full as it has to be.
    Whole,
    /// It fell below the floor, and is no root.
    Short,
    /// It was divided, the right part beginning at this key.
    Cut(u64),
}
