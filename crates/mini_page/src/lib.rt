//! Mini pages: up to sixteen lines of a page each.
#![tactic(auto)]

mod arena;
mod mask;

pub use arena::MiniArena;
pub use mask::{LineMask, MiniFull};
