//! The program: a script is run over a store of tables.
#![tactic(auto)]

mod laws;
mod top;
mod words;

pub use damage::{damage_line, damage_lines};
pub use engine::{Engine, Scan, Step};
pub use laws::in_order;
pub use runner::run_script;
pub use top::spitfire;
pub use words::Words;
