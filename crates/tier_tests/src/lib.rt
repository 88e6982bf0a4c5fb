//! Tests of the leaves of the tiers, by their public calls alone: the clock, the draws, the admission queue and the map.
//!
//! There is no code but for the tests.
#![tactic(auto)]

#[cfg(test)]
mod tests;
