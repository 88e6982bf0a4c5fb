//! What became of a page of a tree.

/// What stands for a page of a tree after a call.
#[derive(Clone, Copy, Debug, PartialEq, Eq)]
pub(crate) enum Outcome {
    /// The page, as full as it has to be.
    Whole,
    /// The page, which fell below the floor and is no root.
    Short,
    /// The page, and from this key on a further page.
    Cut(u64, u64),
    /// The one child that a root had left.
    Alone(u64),
}

/// What a put made of a page of a tree.
#[derive(Clone, Copy)]
pub(crate) struct Change {
    /// What stands for the page.
    pub outcome: Outcome,
    /// Whether the key is new.
    pub fresh: bool,
}
