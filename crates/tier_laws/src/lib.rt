//! Laws of the rules of placement: what holds in each state of the tiers that a run reaches, and what it counts; and the rules
//! on examples.
//!
//! Each law is the contract of a function that does nothing.
#![tactic(auto)]

mod examples;
mod laws;

pub use examples::{generated_walks, worked_rows, written_walks};
pub use laws::{
    fixed_answers, has_victim, printed_tally, runs_are_sound, runs_fit, settling_cleans,
    touches_settle, writes_in_two,
};
