//! Where a key stands in a page.

/// Where a key stands in a page.
#[derive(Clone, Copy, Debug, PartialEq, Eq)]
pub enum Spot {
    /// At this row of a leaf.
    Row(usize),
    /// In no row of a leaf; it would stand before the row at this place.
    Gap(usize),
    /// Below a child of an inner page: its place, its page, and the least and the greatest key that it may have.
    Child(usize, u64, u64, u64),
}
