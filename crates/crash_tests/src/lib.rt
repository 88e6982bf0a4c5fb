//! The crash table of a store whose pages and log all stay in NVM: transactions and recoveries are stopped after each event, and
//! what is left is recovered.
//!
//! There is no code but for the tests.
#![tactic(auto)]

#[cfg(test)]
mod tests;
