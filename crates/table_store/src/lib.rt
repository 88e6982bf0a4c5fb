//! Tables by name over pages: the calls on the tables of a catalog, under each of whose entries stands a tree of rows.
#![tactic(auto)]

mod answer;
mod creation;
mod deletion;
mod lookup;
mod placed;
mod scan;
mod storing;

pub use answer::{Created, Deleted, Got, Next, Stored};
pub use creation::create;
pub use deletion::delete;
pub use lookup::get;
pub use rows::{Limits, Name};
pub use scan::scan_next;
pub use storing::put;
pub use table_catalog::has_table;
