//! The catalog of tables in page 0, read line by line: the names of tables, their entries, and the look-up of a name.
#![tactic(auto)]

mod catalog;
mod entry;

pub use catalog::{find_entry, has_table, read_catalog, search};
pub use entry::{Entry, TableEntry, line_of, root_of};
