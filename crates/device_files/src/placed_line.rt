//! A line of the NVM with its number.
use nvm_model::Line;

/// A line and its value.
#[derive(Clone, Copy)]
pub struct PlacedLine {
    pub line: u64,
    pub value: Line,
}
