//! What a page of a tree is expected to be.

/// What a page of a tree is expected to be. Both bounds are included.
#[derive(Clone, Copy, Debug, PartialEq, Eq)]
pub struct Expect {
    /// The level, 0 for a leaf.
    pub level: u8,
    /// The least key that the page may have.
    pub low: u64,
    /// The greatest key that the page may have.
    pub high: u64,
    /// Whether it is the root of its tree, which may hold less.
    pub root: bool,
    /// The number of pages of the store.
    pub pages: u64,
}
