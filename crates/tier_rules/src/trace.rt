//! What a run tells of its accesses.

/// One line of a trace.
#[derive(Clone, Copy, Debug, PartialEq, Eq)]
pub enum TraceLine {
    /// A read of a line, from 0 to 63, of a page.
    Read(u64, u8),
    /// A write of a line, from 0 to 63, of a page.
    Write(u64, u8),
    /// Every dirty copy became clean.
    Settle,
    /// The first dirty copies became clean, at most this many.
    Clean(u32),
    /// This many lines of the log were read from the SSD.
    LogReads(u64),
}
