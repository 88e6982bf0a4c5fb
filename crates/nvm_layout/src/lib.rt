//! Where everything of a store stands on the two devices, and what its superblock says.
//!
//! The NVM holds a superblock of sixteen lines, the frame table, the ring of the log and the frames; the SSD a ring of
//! log blocks and the home block of each page. All places are formulas of the five numbers of a [`Geometry`].
#![tactic(auto)]

mod errors;
mod geometry;
mod judging;
mod superblock;

pub use errors::SuperError;
pub use geometry::Geometry;
pub use judging::MAGIC;
pub use superblock::{Super, read_super};
