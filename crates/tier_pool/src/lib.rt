//! The pool of the buffer manager: pages in three tiers, each with a copy in DRAM or none, a frame in NVM or none, and a home block on
//! the SSD, and how they move between these.
//!
//! Where a page lies after each touch of a line is said by the rules of placement, in tier_rules. There is a function for each rule,
//! with its name. No call takes memory but the opening one.
#![tactic(auto)]

mod bringing;
mod copies;
mod counting;
mod full_room;
mod hits;
mod lines;
mod minis;
mod nvm_room;
mod opening;
mod places;
mod pool;
mod storing;

pub use copies::has_line;
pub use pool::{Access, Spot, TierPool};
