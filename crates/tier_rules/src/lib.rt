//! The rules of placement: which page lies where in three tiers after each touch of a line, and what is counted of it.
//!
//! The definitions stand in specs/. There is no code but two types, of which they speak: a tally and a line of a trace.
#![tactic(auto)]

mod tally;
mod trace;

pub use tally::Tally;
pub use trace::TraceLine;
