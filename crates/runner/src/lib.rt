//! The run of a script over an engine: it is read line by line, and each line is answered before the next one is taken.
#![tactic(auto)]

mod answering;
mod running;
mod scripts;
mod sending;
mod stop;
mod telling;

pub use scripts::run_script;
pub use sending::write_all;
pub use telling::tell_damage;
