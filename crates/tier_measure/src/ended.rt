//! Why the program ended early.
use nvm_model::NoMemory;
use std::io;

#[derive(Debug, Drop)]
pub enum Ended {
    Memory,
    Print(io::Error),
    /// The second argument is no number.
    NoNumber,
    /// The first argument names no call.
    NoSuchCall,
}

impl From<NoMemory> for Ended {
    fn from(_error: NoMemory) -> Ended {
        Ended::Memory
    }
}

impl From<io::Error> for Ended {
    fn from(error: io::Error) -> Ended {
        Ended::Print(error)
    }
}
