//! The buffer manager: pages in three tiers, touched line by line, and cleaned in the background.
//!
//! Where a page lies after each touch of a line is said by the rules of placement, in tier_rules. There is a function for each rule,
//! with its name, here or in tier_pool. No call takes memory but the opening one.
#![tactic(auto)]

mod cleaning;
mod entering;
mod quiet;
mod tiers;
mod touching;
mod trace;

pub use tiers::Tiers;
