//! Words of byte-addressable memory with the versions that a crash may leave of each.
//!
//! A store appends a version to a word, a flush marks the last version of each word of a line, and a fence drops
//! what stands before each mark. A load gives the last version; a crash leaves any one.
#![tactic(auto)]

mod line;
mod state;
mod versions;
mod words;

pub use line::{Choice, Line, NoMemory};
pub use state::NvmState;
