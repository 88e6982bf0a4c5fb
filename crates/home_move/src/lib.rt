//! The homes of pages: a page is put into a frame of the NVM and given up by it, and its lines and its block are read and stored.
//!
//! Frame `frames`, behind those that keep pages, is the one through which pages pass to their blocks. An entry of the frame table
//! is changed when what it opens is durable: the frame before it names the page, the home block before it is cleared.
#![tactic(auto)]

mod frames;
mod moving;
mod passing;
mod table;

pub use frames::{load_line, read_frame, read_home_block, store_line};
pub use moving::{install, release};
pub use passing::{Passage, end_passage, write_home};
pub use table::read_table;
