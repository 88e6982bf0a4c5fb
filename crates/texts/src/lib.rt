//! Lines of text: numbers in plain decimal, fields parted by one space, lines that give no reply, and texts in a buffer.
#![tactic(auto)]

mod fields;
mod lines;
mod numbers;
mod writing;

pub use fields::{cut, is_word, key_field};
pub use lines::is_silent;
pub use numbers::key;
pub use writing::{put, put_number};
