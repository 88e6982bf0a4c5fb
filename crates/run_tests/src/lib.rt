//! Tests of the run of a script over a world in memory.
//!
//! There is no code but for the tests.
#![tactic(auto)]

#[cfg(test)]
mod runs;
