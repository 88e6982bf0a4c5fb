//! Tests of frames and mini pages through their public calls, with ample memory.
//!
//! There is no code but for the tests.
#![tactic(auto)]

#[cfg(test)]
mod tests;
