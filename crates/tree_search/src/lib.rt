//! Ordered trees of rows over pages, of 1 to 4 levels, and the searches in them.
#![tactic(auto)]

mod lookup;
mod next;
mod root;
mod row;

pub use lookup::{get, seek};
pub use next::next_from;
pub use root::{Root, child_expect, root_expect};
pub use row::{Record, value_in};
