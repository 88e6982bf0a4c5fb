//! The plain machine as a program: whole lists of rows, changed by whole transactions. It has no pages and no log, it is
//! slow, and it takes memory. Tests compare an engine with it.
#![tactic(auto)]

mod machine;
mod refusals;
mod row_list;
mod tables;

pub use machine::PlainMachine;
