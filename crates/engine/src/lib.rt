//! The engine: an opened store of tables, one step a line of a script.
#![tactic(auto)]

mod commands;
mod engine;
mod opening;
mod scan;
mod scanning;
mod stepping;
mod storing;
mod transaction;

pub use engine::Engine;
pub use flat_recovery::OpenError;
pub use scan::{Scan, Step};
