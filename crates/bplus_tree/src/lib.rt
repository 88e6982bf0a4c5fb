//! Changes of ordered trees over pages: a row put in, and a row taken out.
#![tactic(auto)]

mod access;
mod change;
mod joining;
mod outcome;
mod path;
mod tree;

pub use page_alloc::{give_page, take_page};
pub use tree::{delete, delete_row, put};
pub use tree_search::{Root, get, next_from};
