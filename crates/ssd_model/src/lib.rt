//! Blocks of a disk, and what a crash may leave of each.
//!
//! A write makes its bytes the current ones of a block and unsettles it; a sync settles all blocks. A crash leaves of
//! a settled block its current bytes, and of any other block anything.
#![tactic(auto)]

mod choice;
mod page;
mod sector;
mod sectors;
mod state;

pub use choice::BlockChoice;
pub use page::PageBuf;
pub use state::SsdState;
