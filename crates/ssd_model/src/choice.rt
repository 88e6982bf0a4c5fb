//! Which bytes a crash leaves.

/// Which bytes a crash leaves of the blocks that are not settled. A settled block has its current bytes.
#[derive(Clone, Copy, Debug, PartialEq, Eq)]
pub enum BlockChoice {
    /// The bytes that the last sync settled.
    Settled,
    /// The current bytes.
    Current,
    /// The bytes that the last sync settled for each block whose number is even, and the current ones for the others.
    Alternating,
    /// This byte all over.
    Fill(u8),
}
