//! What a table is to its user: rows of a key and a value in the order of the keys, tables by name, and how many there may be.
//!
//! Contracts see a value and a name as the list of their bytes. The lists themselves, and what each operation makes of them,
//! stand in `specs/`; the layers above say their answers in these words.
#![tactic(auto)]

mod limits;
mod name;
mod value;

pub use limits::Limits;
pub use name::{Name, all_name_bytes};
pub use value::{Value, all_printable};
