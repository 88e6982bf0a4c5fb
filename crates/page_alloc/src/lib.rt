//! The pages of a store as trees use them: taken, given back, and written by the lines that differ.
#![tactic(auto)]

mod space;
mod write;

pub use space::{give_page, take_page};
pub use write::{write_changes, write_lines};
