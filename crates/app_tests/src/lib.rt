//! Tests of the top call over a world in memory.
//!
//! There is no code but for the tests.
#![tactic(auto)]

#[cfg(test)]
mod top_call;
