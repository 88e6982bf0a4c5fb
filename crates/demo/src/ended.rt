//! Why the session ended early.
use flat_recovery::FormatError;
use nvm_model::NoMemory;
use std::io;

/// Why the session ended early.
#[derive(Debug, Drop)]
pub enum Ended {
    /// Memory was not to be had.
    Memory,
    /// The output could not be written.
    Print(io::Error),
    /// No store was made.
    Format(FormatError),
    /// The store answered with this status.
    Status(u8),
}

impl From<NoMemory> for Ended {
    fn from(_error: NoMemory) -> Ended {
        Ended::Memory
    }
}

impl From<io::Error> for Ended {
    fn from(error: io::Error) -> Ended {
        Ended::Print(error)
    }
}

impl From<FormatError> for Ended {
    fn from(error: FormatError) -> Ended {
        Ended::Format(error)
    }
}
