//! Frames of 64 lines each over one raw block.
#![tactic(auto)]

mod arena;
mod block;
mod cells;

pub use arena::FrameArena;
pub use block::LineBlock;
#[doc(hidden)]
pub use cells::{Base, Cells, Deed};
