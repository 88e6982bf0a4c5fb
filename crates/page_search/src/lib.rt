//! The search in one page through a store of pages, and a page that is read whole and checked.
//!
//! `find` reads line 0 of a page and the slots and keys that its binary search probes, `read_page` all lines. Each is one
//! access, and reads that page alone. Whatever the page holds, damage is answered only where a check of the page fails.
#![tactic(auto)]

mod probe;
mod read;
mod search;

pub use read::read_page;
pub use search::find;
