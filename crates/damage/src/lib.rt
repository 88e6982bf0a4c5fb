//! Damage: the evidence of a failed check, and its text, line by line, for a reader who makes the check again.
#![tactic(auto)]

mod content;
mod evidence;
mod laws;
mod text;
mod writing;

pub use evidence::Evidence;
pub use laws::damage_stands_aside;
pub use text::{damage_line, damage_lines};
