//! Why the program ended early.
use devices::Failed;
use line_pages::Stop;
use nvm_layout::SuperError;
use nvm_model::NoMemory;
use std::io;

#[derive(Debug, Drop)]
pub enum Ended {
    Memory,
    Print(io::Error),
    /// A call on NVM failed.
    Failed,
    /// A call of the log stopped.
    Stopped(Stop),
    /// The world has no store.
    NoStore(SuperError),
    /// There is no room for what the call needs.
    NoRoom,
    /// Records are pending, or the device has no room for the store.
    Pending,
    /// The second argument is no number.
    NoNumber,
    /// The first argument names no call.
    NoSuchCall,
}

impl From<NoMemory> for Ended {
    fn from(_error: NoMemory) -> Ended {
        Ended::Memory
    }
}

impl From<io::Error> for Ended {
    fn from(error: io::Error) -> Ended {
        Ended::Print(error)
    }
}

impl From<Failed> for Ended {
    fn from(_error: Failed) -> Ended {
        Ended::Failed
    }
}

impl From<Stop> for Ended {
    fn from(why: Stop) -> Ended {
        Ended::Stopped(why)
    }
}

impl From<SuperError> for Ended {
    fn from(why: SuperError) -> Ended {
        Ended::NoStore(why)
    }
}
